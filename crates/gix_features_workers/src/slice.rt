//! Items of a slice that several workers change in rounds.
ghost use Rattle.std.specs.Prelude.{ℕ, ◌<◌, length, IfOk};
ghost use Rattle.std.specs.List.{AllZip};
ghost use Rattle.gix_features_parts.specs.Sizes.{threads_of};
ghost use Rattle.gix_features_workers.specs.Workers.{BeginsAs, EndsAs};
ghost use Rattle.gix_features_workers.specs.Reduced.{IfReduced};
ghost use Rattle.gix_features_workers.specs.Rounds.{ChangesTo, Begin, Rounds, IsOfRounds};

use crate::ParallelError;
use crate::rounds::{Place, round};
use gix_features_parts::parallel::num_threads;
use odb_base::NoMemory;
use std::alloc::Global;
use std::thread::Threads;

/// Changes the items of a slice in several threads, and returns the result of each worker's last state.
///
/// Each worker has a run of the items, all equally long, except those at the end. In a round each worker consumes the
/// next item of its run, all at once. After each round `periodic` is asked, and None ends the work. The first error
/// of a round ends it too, and is returned.
pub fn in_parallel_with_slice<H, T, S, V, E, N, K, P, L>(
    rt: &H,
    alloc: Global,
    input: &mut [T],
    thread_limit: Option<usize>,
    cores: usize,
    new_thread_state: N,
    consume: K,
    periodic: P,
    state_to_rval: L,
) -> Result<Vec<V>, ParallelError<E>>
where
    H: Threads + Sync,
    T: Send,
    S: Send + Drop,
    V: Drop,
    E: Send + Drop,
    N: Fn(usize) -> S + Drop,
    K: Fn(&mut T, &mut S) -> Result<(), E> + Sync + Drop,
    P: FnMut() -> Option<()> + Drop,
    L: Fn(S) -> V + Drop,
    requires some { 0 < threads_of thread_limit cores }
    requires begins { (k : ℕ) → k < threads_of thread_limit cores → N.pre new_thread_state k }
    requires consumes { K.IsAlwaysCallable consume }
    requires asks { P.IsAlwaysCallable periodic }
    requires ends { L.IsAlwaysCallable state_to_rval }
    ensures answer { IfReduced result (IsOfRounds (BeginsAs N.Fn new_thread_state) (ChangesTo K.Fn consume) (λ p r q. P.step p r q)
        (EndsAs L.Fn state_to_rval) (λ values. values.items) (threads_of thread_limit cores) periodic input.old input.new) }
{
    let answer = change_all(
        rt,
        alloc,
        input,
        thread_limit,
        cores,
        &new_thread_state,
        &consume,
        periodic,
        &state_to_rval,
    );
    drop(new_thread_state);
    drop(consume);
    drop(state_to_rval);
    answer
}

/// Changes the items of a slice, for a caller that keeps what it passes.
fn change_all<H, T, S, V, E, N, K, P, L>(
    rt: &H,
    alloc: Global,
    input: &mut [T],
    thread_limit: Option<usize>,
    cores: usize,
    new_thread_state: &N,
    consume: &K,
    periodic: P,
    state_to_rval: &L,
) -> Result<Vec<V>, ParallelError<E>>
where
    H: Threads + Sync,
    T: Send,
    S: Send + Drop,
    V: Drop,
    E: Send + Drop,
    N: Fn(usize) -> S,
    K: Fn(&mut T, &mut S) -> Result<(), E> + Sync,
    P: FnMut() -> Option<()> + Drop,
    L: Fn(S) -> V,
    requires some { 0 < threads_of thread_limit cores }
    requires begins { (k : ℕ) → k < threads_of thread_limit cores → N.pre new_thread_state.now k }
    requires consumes { K.IsAlwaysCallable consume.now }
    requires asks { P.IsAlwaysCallable periodic }
    requires ends { L.IsAlwaysCallable state_to_rval.now }
    ensures answer { IfReduced result (IsOfRounds (BeginsAs N.Fn new_thread_state.now) (ChangesTo K.Fn consume.now)
        (λ p r q. P.step p r q) (EndsAs L.Fn state_to_rval.now) (λ values. values.items) (threads_of thread_limit cores) periodic input.old input.new) }
{
    let workers = num_threads(thread_limit, cores);
    let size = input.len().div_ceil(workers);
    let mut states = match first_states(alloc, workers, new_thread_state) {
        Ok(states) => states,
        Err(NoMemory) => {
            drop(periodic);
            return Err(ParallelError::NoMemory);
        }
    };
    match in_rounds(rt, size, input, states.as_mut_slice(), consume, periodic) {
        Ok(()) => match values_of(alloc, states, state_to_rval) {
            Ok(values) => Ok(values),
            Err(NoMemory) => Err(ParallelError::NoMemory),
        },
        Err(error) => {
            drop(states);
            Err(ParallelError::Reduce(error))
        }
    }
}

/// The first states of the workers.
fn first_states<S: Drop, N: Fn(usize) -> S>(
    alloc: Global,
    workers: usize,
    new_thread_state: &N,
) -> Result<Vec<S>, NoMemory>
    requires begins { (k : ℕ) → k < workers → N.pre new_thread_state.now k }
    ensures begun { IfOk result (λ states. Begin (BeginsAs N.Fn new_thread_state.now) workers states.items) }
{
    let mut states = Vec::new(alloc);
    for worker in 0..workers {
        states.push(new_thread_state(worker))?;
    }
    Ok(states)
}

/// Rounds, one after another, until one fails, or work isn't to go on, or all items were consumed.
fn in_rounds<H, T, S, E, K, P>(
    rt: &H,
    size: usize,
    items: &mut [T],
    states: &mut [S],
    consume: &K,
    mut periodic: P,
) -> Result<(), E>
where
    H: Threads + Sync,
    T: Send,
    S: Send,
    E: Send + Drop,
    K: Fn(&mut T, &mut S) -> Result<(), E> + Sync,
    P: FnMut() -> Option<()> + Drop,
    requires some { 0 < length states.old }
    requires consumes { K.IsAlwaysCallable consume.now }
    requires asks { P.IsAlwaysCallable periodic }
    ensures rounds { Rounds (ChangesTo K.Fn consume.now) (λ p r q. P.step p r q) size 0 periodic states.old items.old result
        states.new items.new }
{
    'rounds: for at in 0..size {
        let workers = states.len();
        match round(rt, &Place { size, at }, consume, workers, items, states) {
            Ok(()) => {}
            Err(error) => return Err(error),
        }
        match periodic() {
            Some(()) => {}
            None => return Ok(()),
        }
    }
    Ok(())
}

/// The result of each state.
fn values_of<S: Drop, V: Drop, L: Fn(S) -> V>(
    alloc: Global,
    states: Vec<S>,
    state_to_rval: &L,
) -> Result<Vec<V>, NoMemory>
    requires ends { L.IsAlwaysCallable state_to_rval.now }
    ensures ended { IfOk result (λ values. AllZip (EndsAs L.Fn state_to_rval.now) states.items values.items) }
{
    let mut values = Vec::new(alloc);
    for state in states {
        values.push(state_to_rval(state))?;
    }
    Ok(values)
}
