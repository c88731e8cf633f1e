//! Workers at work at once, and their outputs in the order of the items.
ghost use Rattle.std.specs.Prelude.{◌≡◌, ℕ, ◌<◌, [], ◌∷◌, ◌++◌, List, Result, length, slice_index_or, IfOk, OnOk};
ghost use Rattle.std.specs.Iterator.{IsFinite, Drains};
ghost use Rattle.gix_features_workers.specs.Workers.{BeginsAs, ConsumesTo, EndsAs, IsWorked, AreWorked, AreMade};
ghost use Rattle.gix_features_workers.specs.Dealt.{AreDone, AreGathered, AreShares};

use crate::deal::{Job, deal, next_turn};
use crate::work::{Worked, work};
use odb_base::NoMemory;
use std::alloc::Global;
use std::thread;
use std::thread::Threads;
use std::vec::IntoIter;

/// The outputs of all items.
#[derive(Drop)]
pub(crate) struct Outputs<O, L> {
    /// An output for each item, in the order of the items.
    pub(crate) in_order: Vec<O>,
    /// The result of each worker's last state, in the order of the workers.
    pub(crate) lasts: Vec<L>,
}

/// What the workers made of their items, each for itself.
#[derive(Drop)]
struct Gathered<O, L> {
    streams: Vec<IntoIter<O>>,
    lasts: Vec<L>,
}

/// Deals items to workers, lets all work at once, and puts their outputs in order.
pub(crate) fn work_all<H, I, S, O, L, N, C, F>(
    rt: &H,
    alloc: Global,
    input: I,
    workers: usize,
    new_thread_state: &N,
    consume: &C,
    end: &F,
) -> Result<Outputs<O, L>, NoMemory>
where
    H: Threads + Sync,
    I: Iterator + Drop,
    I::Item: Send + Drop,
    S: Send + Drop,
    O: Send + Drop,
    L: Send + Drop,
    N: Fn(usize) -> S + Sync,
    C: Fn(I::Item, &mut S) -> O + Sync,
    F: Fn(S) -> L + Sync,
    requires some { 0 < workers }
    requires can { I.can_next input }
    requires finite { IsFinite (I.remaining input) }
    requires begins { (k : ℕ) → k < workers → N.pre new_thread_state.now k }
    requires consumes { C.IsAlwaysCallable consume.now }
    requires ends { F.IsAlwaysCallable end.now }
    ensures worked { IfOk result (λ made. (items : List I.Item) × Drains I.next_gives input items
        × AreWorked (BeginsAs N.Fn new_thread_state.now) (ConsumesTo C.Fn consume.now) (EndsAs F.Fn end.now) workers items
        made.in_order.items made.lasts.items) }
{
    let jobs = deal(alloc, input, workers)?;
    let results = work_at_once(rt, alloc, jobs, new_thread_state, consume, end)?;
    let Gathered { streams, lasts } = gather(alloc, results)?;
    let in_order = merge(alloc, streams)?;
    Ok(Outputs { in_order, lasts })
}

/// Does so, with the result of each worker's last state after the outputs.
pub(crate) fn work_and_end<H, I, S, O, N, C, F>(
    rt: &H,
    alloc: Global,
    input: I,
    workers: usize,
    new_thread_state: &N,
    consume: &C,
    end: &F,
) -> Result<Vec<O>, NoMemory>
where
    H: Threads + Sync,
    I: Iterator + Drop,
    I::Item: Send + Drop,
    S: Send + Drop,
    O: Send + Drop,
    N: Fn(usize) -> S + Sync,
    C: Fn(I::Item, &mut S) -> O + Sync,
    F: Fn(S) -> O + Sync,
    requires some { 0 < workers }
    requires can { I.can_next input }
    requires finite { IsFinite (I.remaining input) }
    requires begins { (k : ℕ) → k < workers → N.pre new_thread_state.now k }
    requires consumes { C.IsAlwaysCallable consume.now }
    requires ends { F.IsAlwaysCallable end.now }
    ensures worked { IfOk result (λ made. (items : List I.Item) × (outputs : List O) × (lasts : List O) × Drains I.next_gives input items
        × AreWorked (BeginsAs N.Fn new_thread_state.now) (ConsumesTo C.Fn consume.now) (EndsAs F.Fn end.now) workers items outputs lasts
        × (made.items ≡ outputs ++ lasts)) }
{
    let Outputs {
        in_order: mut all,
        mut lasts,
    } = work_all(rt, alloc, input, workers, new_thread_state, consume, end)?;
    let appended = all.append(&mut lasts);
    drop(lasts);
    match appended {
        Ok(()) => Ok(all),
        Err(_) => {
            drop(all);
            Err(NoMemory)
        }
    }
}

/// The outputs alone, without results of the last states.
pub(crate) fn work_for_outputs<H, I, S, O, N, C>(
    rt: &H,
    alloc: Global,
    input: I,
    workers: usize,
    new_thread_state: &N,
    consume: &C,
) -> Result<Vec<O>, NoMemory>
where
    H: Threads + Sync,
    I: Iterator + Drop,
    I::Item: Send + Drop,
    S: Send + Drop,
    O: Send + Drop,
    N: Fn(usize) -> S + Sync,
    C: Fn(I::Item, &mut S) -> O + Sync,
    requires some { 0 < workers }
    requires can { I.can_next input }
    requires finite { IsFinite (I.remaining input) }
    requires begins { (k : ℕ) → k < workers → N.pre new_thread_state.now k }
    requires consumes { C.IsAlwaysCallable consume.now }
    ensures made { IfOk result (λ outputs. (items : List I.Item) × (lasts : List (Unit {0})) × Drains I.next_gives input items
        × AreMade (BeginsAs N.Fn new_thread_state.now) (ConsumesTo C.Fn consume.now) workers items outputs.items lasts) }
{
    let end = |_state: S| ();
    let Outputs { in_order, lasts } = work_all(
        rt,
        alloc,
        input,
        workers,
        new_thread_state,
        consume,
        &end,
    )?;
    drop(lasts);
    Ok(in_order)
}

/// Does each job, all at once if threads can be started.
fn work_at_once<H, T, S, O, L, N, C, F>(
    rt: &H,
    alloc: Global,
    jobs: Vec<Job<T>>,
    new_thread_state: &N,
    consume: &C,
    end: &F,
) -> Result<Vec<Result<Worked<O, L>, NoMemory>>, NoMemory>
where
    H: Threads + Sync,
    T: Send + Drop,
    S: Send + Drop,
    O: Send + Drop,
    L: Send + Drop,
    N: Fn(usize) -> S + Sync,
    C: Fn(T, &mut S) -> O + Sync,
    F: Fn(S) -> L + Sync,
    requires begins { (k : ℕ) (d : Job T) → k < length jobs.items → N.pre new_thread_state.now (slice_index_or jobs.items k d).worker }
    requires consumes { C.IsAlwaysCallable consume.now }
    requires ends { F.IsAlwaysCallable end.now }
    ensures done { IfOk result (λ results. AreDone (BeginsAs N.Fn new_thread_state.now) (ConsumesTo C.Fn consume.now)
        (EndsAs F.Fn end.now) jobs.items results.items) }
{
    let one = move |job: Job<T>| -> Result<Worked<O, L>, NoMemory>
        requires { N.pre new_thread_state.now job.worker × C.IsAlwaysCallable consume.now × F.IsAlwaysCallable end.now }
        ensures { IfOk result (λ w. IsWorked (BeginsAs N.Fn new_thread_state.entry.now) (ConsumesTo C.Fn consume.entry.now)
            (EndsAs F.Fn end.entry.now) job.worker job.items.items w.outputs.items w.last) }
    { work(alloc, job, new_thread_state, consume, end) };
    Ok(thread::map_vec(rt, jobs, &one)?)
}

/// The parts of results, if all are there.
fn gather<O: Drop, L: Drop>(
    alloc: Global,
    results: Vec<Result<Worked<O, L>, NoMemory>>,
) -> Result<Gathered<O, L>, NoMemory>
    ensures gathered { IfOk result (λ parts. AreGathered results.items parts.streams.items parts.lasts.items) }
{
    let mut parts = Gathered {
        streams: Vec::new(alloc),
        lasts: Vec::new(alloc),
    };
    for result in results {
        match put(&mut parts, result) {
            Ok(()) => {}
            Err(NoMemory) => {
                drop(parts);
                return Err(NoMemory);
            }
        }
    }
    Ok(parts)
}

/// Adds the parts of one more result, if it is there.
fn put<O: Drop, L: Drop>(
    parts: &mut Gathered<O, L>,
    made: Result<Worked<O, L>, NoMemory>,
) -> Result<(), NoMemory>
    ensures more { OnOk result ((results : List (Result (Worked O L) NoMemory)) → AreGathered results parts.old.streams.items parts.old.lasts.items
        → AreGathered (results ++ made ∷ []) parts.new.streams.items parts.new.lasts.items) }
{
    let Worked { outputs, last } = made?;
    parts.streams.push(outputs.into_iter())?;
    parts.lasts.push(last)?;
    Ok(())
}

/// The outputs of workers in the order of the items: one of each worker in turn.
fn merge<O: Drop>(alloc: Global, mut streams: Vec<IntoIter<O>>) -> Result<Vec<O>, NoMemory>
    requires { 0 < length streams.items }
    ensures merged { IfOk result (λ merged. (outputs : List O) → AreShares (length streams.items) 0 outputs streams.items
        → merged.items ≡ outputs) }
{
    let mut in_order = Vec::new(alloc);
    let workers = streams.len();
    let mut turn = 0;
    'turns: loop {
        let stream = &mut streams[turn];
        let Some(output) = stream.next() else {
            break;
        };
        in_order.push(output)?;
        turn = next_turn(turn, workers);
    }
    Ok(in_order)
}
