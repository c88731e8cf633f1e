//! The items of an iterator, which a worker draws ahead.
ghost use Rattle.std.specs.Prelude.{◌≡◌, ◌<◌, ◌++◌, [], true, false, List, None, IfOk, OnErr};
ghost use Rattle.std.specs.Iterator.{Drains};
ghost use Rattle.std.specs.Vec.Iter.{into_iter_items};
ghost use Rattle.gix_features_channel.specs.Eager.{IsReady, HasGiven, GivesNext, Draws, IsOver, is_last, is_want, has_worker, turns_left};
ghost use Rattle.gix_features_channel.specs.declared.source.Source.TheVariants.{Ended};

use crate::source::Source;
use crate::starting::start;
use odb_base::NoMemory;
use std::alloc::Global;
use std::mem;
use std::sync::Wait;
use std::thread::Threads;
use std::vec::IntoIter;

/// The items of an iterator, which a worker draws ahead in chunks; or, if no thread can be started, items that are
/// drawn as they are asked for.
pub struct EagerIter<I: Iterator, H: Threads>
where
    I::Item: Drop,
{
    rt: H,
    source: Source<I>,
    /// What is left of the last chunk of the worker.
    at_hand: IntoIter<I::Item>,
    /// How many more answers there may be: more than any run asks for. It is the measure of a loop over the items.
    turns: u64,
}

// The worker is joined.
impl<I: Iterator + Drop, H: Threads + Drop> Drop for EagerIter<I, H>
where
    I::Item: Drop,
{
    fn drop(self) {
        let EagerIter {
            rt,
            source,
            at_hand: _,
            turns: _,
        } = self;
        source.end(&rt);
    }
}

impl<I, H> EagerIter<I, H>
where
    I: Iterator + Send + Drop + 'static,
    I::Item: Send + Drop + 'static,
    H: Threads + Wait + Copy + Send + 'static,
{
    /// Starts a worker that draws items in chunks of `chunk_size`, `chunks_in_flight` of which may be in flight.
    pub fn new(
        rt: H,
        alloc: Global,
        iter: I,
        chunk_size: usize,
        chunks_in_flight: usize,
    ) -> Result<EagerIter<I, H>, NoMemory>
        requires size { 0 < chunk_size }
        requires in_flight { 0 < chunks_in_flight }
        requires can { I.can_next iter }
        ensures ready { IfOk result (IsReady I.can_next) }
        ensures begun { IfOk result (λ eager. HasGiven I.next_gives iter eager []) }
    {
        let at_hand = Vec::new(alloc).into_iter();
        let source = start(rt, alloc, iter, chunk_size, chunks_in_flight)?;
        Ok(EagerIter {
            rt,
            source,
            at_hand,
            turns: u64::MAX,
        })
    }
}

impl<I, H> Iterator for EagerIter<I, H>
where
    I: Iterator + Drop,
    I::Item: Drop,
    H: Threads + Wait + Copy,
{
    type Item = Result<I::Item, NoMemory>;

    ghost can_next = { IsReady I.can_next };

    ghost next_gives = { Draws I.can_next I.next_gives };

    ghost remaining = { turns_left };

    /// The next item, or out of memory if the worker broke off. After that, and after the last item, None.
    fn next(&mut self) -> Option<Result<I::Item, NoMemory>> {
        self.count_turn();
        self.draw()
    }
}

impl<I, H> EagerIter<I, H>
where
    I: Iterator + Drop,
    I::Item: Drop,
    H: Threads + Wait + Copy,
{
    /// Counts an answer. After the last of `turns`, which no run reaches, it blocks forever.
    fn count_turn(&mut self)
        ensures fewer { self.new.turns < self.old.turns }
        ensures source { self.new.source ≡ self.old.source }
        ensures at_hand { self.new.at_hand ≡ self.old.at_hand }
    {
        if self.turns == 0 {
            let rt = self.rt;
            for _ in rt.forever() {}
            unreachable!()
        }
        self.turns -= 1;
    }

    /// The next answer.
    fn draw(&mut self) -> Option<Result<I::Item, NoMemory>>
        requires ready { IsReady I.can_next self.old }
        ensures ready { IsReady I.can_next self.new }
        ensures given { GivesNext I.next_gives self.old result self.new }
        ensures over { is_last result ≡ true → IsOver self.new }
        ensures stays { IsOver self.old → (result ≡ None) × IsOver self.new }
        ensures want { is_want result ≡ true → has_worker self.old.source ≡ true }
        ensures turns { self.new.turns ≡ self.old.turns }
    {
        let rt = self.rt;
        'drawing: for _ in rt.forever() {
            if let Some(item) = self.at_hand.next() {
                return Some(Ok(item));
            }
            if !self.source.has_worker() {
                return self.next_here();
            }
            match self.refill() {
                Ok(true) => {}
                Ok(false) => return None,
                Err(NoMemory) => return Some(Err(NoMemory)),
            }
        }
        unreachable!()
    }

    /// The next item of the iterator that is here, if there is one.
    fn next_here(&mut self) -> Option<Result<I::Item, NoMemory>>
        requires ready { IsReady I.can_next self.old }
        requires alone { has_worker self.old.source ≡ false }
        requires used { into_iter_items self.old.at_hand ≡ [] }
        ensures ready { IsReady I.can_next self.new }
        ensures given { GivesNext I.next_gives self.old result self.new }
        ensures over { is_last result ≡ true → IsOver self.new }
        ensures stays { IsOver self.old → (result ≡ None) × IsOver self.new }
        ensures want { is_want result ≡ false }
        ensures turns { self.new.turns ≡ self.old.turns }
    {
        let Source::Here(iter) = &mut self.source else {
            return None;
        };
        if let Some(item) = iter.next() {
            return Some(Ok(item));
        }
        self.end();
        None
    }

    /// Takes the next chunk of the worker. Returns whether there is one.
    fn refill(&mut self) -> Result<bool, NoMemory>
        requires ready { IsReady I.can_next self.old }
        requires sent { has_worker self.old.source ≡ true }
        requires used { into_iter_items self.old.at_hand ≡ [] }
        ensures ready { IsReady I.can_next self.new }
        ensures more { IfOk result (λ more. more ≡ true → (first : I) (items : List I.Item)
            → HasGiven I.next_gives first self.old items → HasGiven I.next_gives first self.new items) }
        ensures all { IfOk result (λ more. more ≡ false → (first : I) (items : List I.Item)
            → HasGiven I.next_gives first self.old items → Drains I.next_gives first items) }
        ensures goes_on { IfOk result (λ more. more ≡ true → has_worker self.new.source ≡ true) }
        ensures over { IfOk result (λ more. more ≡ false → IsOver self.new) }
        ensures broken { OnErr result (IsOver self.new) }
        ensures turns { self.new.turns ≡ self.old.turns }
    {
        let rt = self.rt;
        let Source::Elsewhere(worker) = &mut self.source else {
            return Ok(false);
        };
        match worker.take(&rt) {
            Ok(Some(chunk)) => {
                self.at_hand = chunk.into_iter();
                Ok(true)
            }
            Ok(None) => {
                self.end();
                Ok(false)
            }
            Err(NoMemory) => {
                self.end();
                Err(NoMemory)
            }
        }
    }

    /// Stops drawing, and ends a worker.
    fn end(&mut self)
        ensures ended { self.new.source ≡ Ended }
        ensures same { self.new.at_hand ≡ self.old.at_hand }
        ensures turns { self.new.turns ≡ self.old.turns }
    {
        let rt = self.rt;
        mem::replace(&mut self.source, Source::Ended).end(&rt);
    }
}
