//! Outputs that are fed to a reducer step by step.
ghost use Rattle.std.specs.Prelude.{◌≡◌, ℕ, ◌<◌, List, Result, IfOk};
ghost use Rattle.std.specs.Iterator.{IsFinite, Drains};
ghost use Rattle.std.specs.Vec.Iter.{into_iter_items};
ghost use Rattle.gix_features_parts.specs.Sizes.{threads_of};
ghost use Rattle.gix_features_workers.specs.Workers.{BeginsAs, ConsumesTo, AreMade};
ghost use Rattle.gix_features_workers.specs.Reduced.{IfReduced, Reduces, IsStep};

use crate::calls::ParallelError;
use crate::outputs::work_for_outputs;
use crate::reducing::reduce_rest;
use gix_features_parts::parallel::{Reduce, num_threads};
use odb_base::NoMemory;
use std::alloc::Global;
use std::thread::Threads;
use std::vec::IntoIter;

/// Items that several workers consumed, whose outputs are fed to a reducer step by step.
pub struct Stepwise<R: Reduce + Drop>
where
    R::Input: Drop,
{
    /// The outputs that weren't fed yet, in the order of the items.
    outputs: IntoIter<R::Input>,
    reducer: R,
}

impl<R: Reduce + Drop> Drop for Stepwise<R>
where
    R::Input: Drop,
{
    fn drop(self) {
        let Stepwise {
            outputs: _,
            reducer: _,
        } = self;
    }
}

impl<R: Reduce + Drop> Stepwise<R>
where
    R::Input: Send + Drop,
    R::FeedProduce: Drop,
{
    /// Consumes all items, as `in_parallel` does, and feeds none of the outputs yet.
    pub fn new<H, I, S, N, C>(
        rt: &H,
        alloc: Global,
        input: I,
        thread_limit: Option<usize>,
        cores: usize,
        new_thread_state: N,
        consume: C,
        reducer: R,
    ) -> Result<Stepwise<R>, NoMemory>
    where
        H: Threads + Sync,
        I: Iterator + Drop,
        I::Item: Send + Drop,
        S: Send + Drop,
        N: Fn(usize) -> S + Sync + Drop,
        C: Fn(I::Item, &mut S) -> R::Input + Sync + Drop,
        requires some { 0 < threads_of thread_limit cores }
        requires can { I.can_next input }
        requires finite { IsFinite (I.remaining input) }
        requires begins { (k : ℕ) → k < threads_of thread_limit cores → N.pre new_thread_state k }
        requires consumes { C.IsAlwaysCallable consume }
        ensures reducer { IfOk result (λ steps. steps.reducer ≡ reducer) }
        ensures outputs { IfOk result (λ steps. (items : List I.Item) × (lasts : List (Unit {0})) × Drains I.next_gives input items
            × AreMade (BeginsAs N.Fn new_thread_state) (ConsumesTo C.Fn consume) (threads_of thread_limit cores) items
            (into_iter_items steps.outputs) lasts) }
    {
        let workers = num_threads(thread_limit, cores);
        let made = work_for_outputs(rt, alloc, input, workers, &new_thread_state, &consume);
        drop(new_thread_state);
        drop(consume);
        match made {
            Ok(outputs) => Ok(Stepwise {
                outputs: outputs.into_iter(),
                reducer,
            }),
            Err(NoMemory) => {
                drop(reducer);
                Err(NoMemory)
            }
        }
    }
}

impl<R: Reduce + Drop> Stepwise<R>
where
    R::Input: Drop,
    R::FeedProduce: Drop,
{
    /// What the reducer gives for the next item's output, also after an error.
    pub fn next<H: Threads>(
        &mut self,
        _rt: &H,
    ) -> Option<Result<R::FeedProduce, ParallelError<R::Error>>>
        ensures step { IsStep R.feeds self.old.reducer (into_iter_items self.old.outputs) result self.new.reducer
            (into_iter_items self.new.outputs) }
    {
        let output = self.outputs.next()?;
        match self.reducer.feed(output) {
            Ok(given) => Some(Ok(given)),
            Err(error) => Some(Err(ParallelError::Reduce(error))),
        }
    }

    /// Feeds the outputs that weren't fed yet, up to the reducer's first error, and returns its result.
    pub fn finalize<H: Threads>(self, _rt: &H) -> Result<R::Output, ParallelError<R::Error>>
        ensures reduced { IfReduced result (Reduces R.feeds R.comes_to self.reducer (into_iter_items self.outputs)) }
    {
        let Stepwise { outputs, reducer } = self;
        reduce_rest(outputs, reducer)
    }
}

/// Feeds the rest to a reducer, and returns its result.
pub trait Finalize {
    type Reduce: Reduce;

    /// The result once the rest is fed.
    ghost comes_to: { Self → Result Self.Reduce.Output Self.Reduce.Error → Type 0 };

    /// Feeds the rest, up to the reducer's first error.
    fn finalize<H: Threads>(
        self,
        rt: &H,
    ) -> Result<<Self::Reduce as Reduce>::Output, ParallelError<<Self::Reduce as Reduce>::Error>>
        ensures reduced { IfReduced result (comes_to self) };
}

impl<R: Reduce + Drop> Finalize for Stepwise<R>
where
    R::Input: Drop,
    R::FeedProduce: Drop,
{
    type Reduce = R;

    ghost comes_to = { λ s answer. Reduces R.feeds R.comes_to s.reducer (into_iter_items s.outputs) answer };

    fn finalize<H: Threads>(self, rt: &H) -> Result<R::Output, ParallelError<R::Error>> {
        self.finalize(rt)
    }
}
