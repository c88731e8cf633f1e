//! The items of an iterator, which are drawn ahead if a condition holds.
ghost use Rattle.std.specs.Prelude.{◌≡◌, ◌<◌, [], IfOk};
ghost use Rattle.gix_features_channel.specs.Eager.{IsReadyIf, HasGivenIf, DrawsIf, is_eager, turns_left_if};

use crate::iter::EagerIter;
use odb_base::NoMemory;
use std::alloc::Global;
use std::sync::Wait;
use std::thread::Threads;

/// The items of an iterator, which are drawn ahead or as they are asked for.
#[derive(Drop)]
pub enum EagerIterIf<I: Iterator, H: Threads>
where
    I::Item: Drop,
{
    /// A worker draws them ahead.
    Eager(EagerIter<I, H>),
    /// They are drawn as they are asked for.
    OnDemand(I),
}

impl<I, H> EagerIterIf<I, H>
where
    I: Iterator + Send + Drop + 'static,
    I::Item: Send + Drop + 'static,
    H: Threads + Wait + Copy + Send + 'static,
{
    /// Draws items ahead, as `EagerIter::new` does, if a condition holds.
    pub fn new<B: FnOnce() -> bool + Drop>(
        rt: H,
        alloc: Global,
        condition: B,
        iter: I,
        chunk_size: usize,
        chunks_in_flight: usize,
    ) -> Result<EagerIterIf<I, H>, NoMemory>
        requires condition { B.pre condition }
        requires size { 0 < chunk_size }
        requires in_flight { 0 < chunks_in_flight }
        requires can { I.can_next iter }
        ensures chosen { IfOk result (λ eager. B.post condition (is_eager eager)) }
        ensures ready { IfOk result (IsReadyIf I.can_next) }
        ensures begun { IfOk result (λ eager. HasGivenIf I.next_gives iter eager []) }
    {
        if !condition() {
            return Ok(EagerIterIf::OnDemand(iter));
        }
        let eager = EagerIter::new(rt, alloc, iter, chunk_size, chunks_in_flight)?;
        Ok(EagerIterIf::Eager(eager))
    }
}

impl<I, H> Iterator for EagerIterIf<I, H>
where
    I: Iterator + Drop,
    I::Item: Drop,
    H: Threads + Wait + Copy,
{
    type Item = Result<I::Item, NoMemory>;

    ghost can_next = { IsReadyIf I.can_next };

    ghost next_gives = { DrawsIf I.can_next I.next_gives };

    ghost remaining = { turns_left_if I.remaining };

    /// The next item, or out of memory if a worker broke off.
    fn next(&mut self) -> Option<Result<I::Item, NoMemory>> {
        match self {
            EagerIterIf::Eager(eager) => eager.next(),
            EagerIterIf::OnDemand(iter) => {
                let item = iter.next()?;
                Some(Ok(item))
            }
        }
    }
}
