//! A round: each worker consumes an item, all at once.
ghost use Rattle.std.specs.Prelude.{◌≡◌, ◌<◌, length};
ghost use Rattle.std.specs.Thread.{IsSync, IsSend};
ghost use Rattle.gix_features_workers.specs.Rounds.{ChangesTo, Turn, Round, first_of};

use std::thread::{Threads, join_mut};

/// A round: one place in every run.
// Workers share it: a number that the closures of both halves captured would have no generated proof.
#[derive(Clone, Copy)]
pub(crate) struct Place {
    /// The number of items in each run, except those at the end.
    pub(crate) size: usize,
    /// The place in its run of the item that each worker consumes.
    pub(crate) at: usize,
}

/// Each worker consumes the item at a place of its run, all at once if threads can be started. Each run has
/// `place.size` items, except those at the end. The error of the first worker that has one is the answer.
#[cycle(halves)]
pub(crate) fn round<H, T, S, E, K>(
    rt: &H,
    place: &Place,
    consume: &K,
    count: usize,
    items: &mut [T],
    states: &mut [S],
) -> Result<(), E>
where
    H: Threads + Sync,
    T: Send,
    S: Send,
    E: Send + Drop,
    K: Fn(&mut T, &mut S) -> Result<(), E> + Sync,
    requires some { 0 < count }
    requires count { length states.old ≡ count }
    requires consumes { K.IsAlwaysCallable consume.now }
    ensures round { Round (ChangesTo K.Fn consume.now) place.now.size place.now.at states.old items.old result states.new items.new }
{
    if count == 1 {
        return alone(place, consume, items, states);
    }
    let low = count / 2;
    let cut = low.saturating_mul(place.size).min(items.len());
    let (mine, others) = items.split_at_mut(cut);
    let (first, rest) = states.split_at_mut(low);
    let (a, b) = both_halves(
        rt,
        place,
        consume,
        low,
        mine,
        first,
        count - low,
        others,
        rest,
    );
    first_error(a, b)
}

/// A round of the workers of both halves; one half has its items, the other has its own.
// A separate function, so that what the closures require is what this function is given.
#[cycle(halves)]
fn both_halves<H, T, S, E, K>(
    rt: &H,
    place: &Place,
    consume: &K,
    low: usize,
    mine: &mut [T],
    first: &mut [S],
    high: usize,
    others: &mut [T],
    rest: &mut [S],
) -> (Result<(), E>, Result<(), E>)
where
    H: Threads + Sync,
    T: Send,
    S: Send,
    E: Send + Drop,
    K: Fn(&mut T, &mut S) -> Result<(), E> + Sync,
    requires some { (0 < low) × (0 < high) }
    requires count { (length first.old ≡ low) × (length rest.old ≡ high) }
    requires consumes { K.IsAlwaysCallable consume.now }
    ensures front { Round (ChangesTo K.Fn consume.now) place.now.size place.now.at first.old mine.old result.0 first.new mine.new }
    ensures back { Round (ChangesTo K.Fn consume.now) place.now.size place.now.at rest.old others.old result.1 rest.new others.new }
{
    let mut front = || -> Result<(), E>
        requires { IsSync H.row × IsSync K.row × IsSend T.row × IsSend S.row × IsSend E.row × (0 < low) × (length first.now ≡ low) × K.IsAlwaysCallable consume.now }
        ensures { Round (ChangesTo K.Fn consume.entry.now) place.entry.now.size place.entry.now.at first.entry.now mine.entry.now result first.exit.now mine.exit.now }
    { round(rt, place, consume, low, mine, first) };
    let mut back = || -> Result<(), E>
        requires { IsSync H.row × IsSync K.row × IsSend T.row × IsSend S.row × IsSend E.row × (0 < high) × (length rest.now ≡ high) × K.IsAlwaysCallable consume.now }
        ensures { Round (ChangesTo K.Fn consume.entry.now) place.entry.now.size place.entry.now.at rest.entry.now others.entry.now result rest.exit.now others.exit.now }
    { round(rt, place, consume, high, others, rest) };
    join_mut(rt, &mut front, &mut back)
}

/// The first error, if there is one.
fn first_error<E: Drop>(a: Result<(), E>, b: Result<(), E>) -> Result<(), E>
    ensures first { result ≡ first_of a b }
{
    match a {
        Ok(()) => b,
        Err(error) => Err(error),
    }
}

/// A round of one worker.
fn alone<T, S, E, K: Fn(&mut T, &mut S) -> Result<(), E>>(
    place: &Place,
    consume: &K,
    items: &mut [T],
    states: &mut [S],
) -> Result<(), E>
    requires one { length states.old ≡ 1 }
    requires consumes { K.IsAlwaysCallable consume.now }
    ensures round { Round (ChangesTo K.Fn consume.now) place.now.size place.now.at states.old items.old result states.new items.new }
{
    let cut = place.size.min(items.len());
    let (run, _) = items.split_at_mut(cut);
    turn(place.at, consume, run, &mut states[0])
}

/// A worker's turn: it consumes the item at a place of its run, if there is one.
fn turn<T, S, E, K: Fn(&mut T, &mut S) -> Result<(), E>>(
    place: usize,
    consume: &K,
    run: &mut [T],
    state: &mut S,
) -> Result<(), E>
    requires consumes { K.IsAlwaysCallable consume.now }
    ensures turn { Turn (ChangesTo K.Fn consume.now) place state.old run.old result state.new run.new }
{
    if place < run.len() {
        consume(&mut run[place], state)
    } else {
        Ok(())
    }
}
