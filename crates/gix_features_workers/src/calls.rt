//! Calls that make one result of the workers' outputs.
ghost use Rattle.std.specs.Prelude.{◌≡◌, ℕ, ◌<◌, ◌≤◌};
ghost use Rattle.std.specs.Iterator.{IsFinite, Drains};
ghost use Rattle.gix_features_parts.specs.Sizes.{threads_of};
ghost use Rattle.gix_features_workers.specs.Workers.{BeginsAs, ConsumesTo, EndsAs, AreWorked, AreMade};
ghost use Rattle.gix_features_workers.specs.Reduced.{IfReduced, IsAnswer, IsFinalAnswer, IsChosen, Reduces};

use crate::outputs::{work_and_end, work_for_outputs};
use crate::reducing::reduce_all;
use gix_features_parts::parallel::{Reduce, num_threads};
use odb_base::NoMemory;
use std::alloc::Global;
use std::thread::Threads;
use thiserror::Error;

/// Why work in parallel has no result.
#[derive(Debug, Drop, Error)]
pub enum ParallelError<E> {
    /// The reducer or the consumer gave this error.
    #[error("the results can't be made one")]
    Reduce(E),
    /// Out of memory for the items or for the outputs.
    #[error("out of memory")]
    NoMemory,
}

impl<E> From<NoMemory> for ParallelError<E> {
    ghost use Rattle.gix_features_workers.specs.Reduced.{want_of_memory};

    ghost from_gives = { λ _ e. e ≡ want_of_memory };

    fn from(_: NoMemory) -> ParallelError<E> {
        ParallelError::NoMemory
    }
}

/// Consumes items in several threads, and makes one result of the outputs.
///
/// With n workers, item i is consumed by worker i mod n, which passes its state from one of its items to the next.
/// The outputs are fed to the reducer in the order of the items, and the reducer's first error is returned.
pub fn in_parallel<H, I, S, O, N, C, R>(
    rt: &H,
    alloc: Global,
    input: I,
    thread_limit: Option<usize>,
    cores: usize,
    new_thread_state: N,
    consume: C,
    reducer: R,
) -> Result<R::Output, ParallelError<R::Error>>
where
    H: Threads + Sync,
    I: Iterator + Drop,
    I::Item: Send + Drop,
    S: Send + Drop,
    O: Send + Drop,
    N: Fn(usize) -> S + Sync + Drop,
    C: Fn(I::Item, &mut S) -> O + Sync + Drop,
    R: Reduce<Input = O> + Drop,
    R::FeedProduce: Drop,
    requires some { 0 < threads_of thread_limit cores }
    requires can { I.can_next input }
    requires finite { IsFinite (I.remaining input) }
    requires begins { (k : ℕ) → k < threads_of thread_limit cores → N.pre new_thread_state k }
    requires consumes { C.IsAlwaysCallable consume }
    ensures answer { IfReduced result (IsAnswer (Drains I.next_gives input) (AreMade (BeginsAs N.Fn new_thread_state)
        (ConsumesTo C.Fn consume) (threads_of thread_limit cores)) (Reduces R.feeds R.comes_to reducer)) }
{
    let workers = num_threads(thread_limit, cores);
    run(
        rt,
        alloc,
        input,
        workers,
        new_thread_state,
        consume,
        reducer,
    )
}

/// As `in_parallel`, but with one worker, on the caller's thread, if a condition doesn't hold. It is asked only if
/// there would be more than one worker.
pub fn in_parallel_if<H, B, I, S, O, N, C, R>(
    rt: &H,
    alloc: Global,
    condition: B,
    input: I,
    thread_limit: Option<usize>,
    cores: usize,
    new_thread_state: N,
    consume: C,
    reducer: R,
) -> Result<R::Output, ParallelError<R::Error>>
where
    H: Threads + Sync,
    B: FnOnce() -> bool + Drop,
    I: Iterator + Drop,
    I::Item: Send + Drop,
    S: Send + Drop,
    O: Send + Drop,
    N: Fn(usize) -> S + Sync + Drop,
    C: Fn(I::Item, &mut S) -> O + Sync + Drop,
    R: Reduce<Input = O> + Drop,
    R::FeedProduce: Drop,
    requires condition { 1 < threads_of thread_limit cores → B.pre condition }
    requires some { 0 < threads_of thread_limit cores }
    requires can { I.can_next input }
    requires finite { IsFinite (I.remaining input) }
    requires begins { (k : ℕ) → k < threads_of thread_limit cores → N.pre new_thread_state k }
    requires consumes { C.IsAlwaysCallable consume }
    ensures answer { (workers : ℕ) × IsChosen (B.post condition) (threads_of thread_limit cores) workers
        × IfReduced result (IsAnswer (Drains I.next_gives input) (AreMade (BeginsAs N.Fn new_thread_state)
        (ConsumesTo C.Fn consume) workers) (Reduces R.feeds R.comes_to reducer)) }
{
    let workers = choose(condition, num_threads(thread_limit, cores));
    run(
        rt,
        alloc,
        input,
        workers,
        new_thread_state,
        consume,
        reducer,
    )
}

/// The number of workers: one, unless there may be more and the condition holds.
fn choose<B: FnOnce() -> bool + Drop>(condition: B, most: usize) -> usize
    requires condition { 1 < most → B.pre condition }
    requires some { 0 < most }
    ensures chosen { IsChosen (B.post condition) most result }
    ensures few { (0 < result) × (result ≤ most) }
{
    if most == 1 {
        return 1;
    }
    if condition() { most } else { 1 }
}

/// Consumes items with `workers` workers, and makes one result of the outputs.
fn run<H, I, S, O, N, C, R>(
    rt: &H,
    alloc: Global,
    input: I,
    workers: usize,
    new_thread_state: N,
    consume: C,
    reducer: R,
) -> Result<R::Output, ParallelError<R::Error>>
where
    H: Threads + Sync,
    I: Iterator + Drop,
    I::Item: Send + Drop,
    S: Send + Drop,
    O: Send + Drop,
    N: Fn(usize) -> S + Sync + Drop,
    C: Fn(I::Item, &mut S) -> O + Sync + Drop,
    R: Reduce<Input = O> + Drop,
    R::FeedProduce: Drop,
    requires some { 0 < workers }
    requires can { I.can_next input }
    requires finite { IsFinite (I.remaining input) }
    requires begins { (k : ℕ) → k < workers → N.pre new_thread_state k }
    requires consumes { C.IsAlwaysCallable consume }
    ensures answer { IfReduced result (IsAnswer (Drains I.next_gives input) (AreMade (BeginsAs N.Fn new_thread_state)
        (ConsumesTo C.Fn consume) workers) (Reduces R.feeds R.comes_to reducer)) }
{
    let made = work_for_outputs(rt, alloc, input, workers, &new_thread_state, &consume);
    drop(new_thread_state);
    drop(consume);
    match made {
        Ok(outputs) => reduce_all(outputs, reducer),
        Err(NoMemory) => {
            drop(reducer);
            Err(ParallelError::NoMemory)
        }
    }
}

/// Consumes items in several threads, and makes one result of the outputs and of each worker's result at the end,
/// which are fed after the outputs, in the order of the workers.
pub fn in_parallel_with_finalize<H, I, S, O, N, C, F, R>(
    rt: &H,
    alloc: Global,
    input: I,
    thread_limit: Option<usize>,
    cores: usize,
    new_thread_state: N,
    consume: C,
    finalize: F,
    reducer: R,
) -> Result<R::Output, ParallelError<R::Error>>
where
    H: Threads + Sync,
    I: Iterator + Drop,
    I::Item: Send + Drop,
    S: Send + Drop,
    O: Send + Drop,
    N: Fn(usize) -> S + Sync + Drop,
    C: Fn(I::Item, &mut S) -> O + Sync + Drop,
    F: Fn(S) -> O + Sync + Drop,
    R: Reduce<Input = O> + Drop,
    R::FeedProduce: Drop,
    requires some { 0 < threads_of thread_limit cores }
    requires can { I.can_next input }
    requires finite { IsFinite (I.remaining input) }
    requires begins { (k : ℕ) → k < threads_of thread_limit cores → N.pre new_thread_state k }
    requires consumes { C.IsAlwaysCallable consume }
    requires finalizes { F.IsAlwaysCallable finalize }
    ensures answer { IfReduced result (IsFinalAnswer (Drains I.next_gives input) (AreWorked (BeginsAs N.Fn new_thread_state)
        (ConsumesTo C.Fn consume) (EndsAs F.Fn finalize) (threads_of thread_limit cores)) (Reduces R.feeds R.comes_to reducer)) }
{
    let workers = num_threads(thread_limit, cores);
    let made = work_and_end(
        rt,
        alloc,
        input,
        workers,
        &new_thread_state,
        &consume,
        &finalize,
    );
    drop(new_thread_state);
    drop(consume);
    drop(finalize);
    match made {
        Ok(outputs) => reduce_all(outputs, reducer),
        Err(NoMemory) => {
            drop(reducer);
            Err(ParallelError::NoMemory)
        }
    }
}
