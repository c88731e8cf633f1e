//! Items that come in any order, given by their numbers.
ghost use Rattle.std.specs.Prelude.{◌≡◌, ◌+◌, false, None, Some, IfErr, OnOk, OnErr};
ghost use Rattle.std.specs.Ordering.{nat_cmp};
ghost use Rattle.std.specs.BTreeMap.{get, btree_map_len};
ghost use Rattle.std.specs.Iterator.{IsFinite, MakesProgress};
ghost use Rattle.gix_features_parts.specs.InOrder.{CameBefore, Changes, Comes, GivesInOrder, IsBegun, PassesTurn};
ghost use Rattle.gix_features_parts.specs.InOrderState.{in_order_at, can_draw, left_in_order, IsRefusal};

use std::alloc::Global;
use std::collections::BTreeMap;
use thiserror::Error;

/// The number of an item, from 0 on.
pub type SequenceId = usize;

/// Why an item can't be given.
#[derive(Debug, Drop, Error)]
pub enum InOrderError<E> {
    /// The inner iterator gave this error.
    #[error("the items ended with an error")]
    Inner(E),
    /// An item came with the number of an earlier one.
    #[error("item {got} came again, where {next} was the next to be given")]
    OutOfSequence {
        /// The number that came again.
        got: SequenceId,
        /// The number of the item that was to be given next.
        next: SequenceId,
    },
    /// Out of memory to keep an item until its turn.
    #[error("out of memory")]
    NoMemory,
}

/// The items of an inner iterator by their numbers, which begin at 0.
///
/// An item that comes before its turn waits, and is given at its turn, before the inner iterator is asked again. One
/// that comes at its turn is given at once, and takes no memory. After an error there is nothing more.
#[derive(Drop)]
pub struct InOrderIter<T, I> {
    /// The iterator that gives the items with their numbers. It has to end.
    pub inner: I,
    /// The items that came before their turn, by their numbers.
    waiting: BTreeMap<SequenceId, T>,
    /// The number whose turn it is.
    next: SequenceId,
    /// Whether nothing more is given.
    is_over: bool,
}

impl<T, I> InOrderIter<T, I> {
    /// The items of `iter` by their numbers. It keeps the allocator for what has to wait, and allocates no memory.
    pub fn from(alloc: Global, iter: I) -> InOrderIter<T, I>
        ensures inner { result.inner ≡ iter }
        ensures begun { IsBegun (in_order_at result) }
    {
        InOrderIter {
            inner: iter,
            waiting: BTreeMap::new(alloc),
            next: 0,
            is_over: false,
        }
    }

    /// Moves on to the next number. After the greatest number there is none.
    fn pass_turn(&mut self)
        ensures passes { PassesTurn self.old.next self.new.next self.new.is_over }
        ensures same { (self.new.inner ≡ self.old.inner) × (self.new.waiting ≡ self.old.waiting) }
    {
        if self.next == SequenceId::MAX {
            self.is_over = true;
        } else {
            self.next += 1;
            self.is_over = false;
        }
    }
}

impl<T: Drop, I> InOrderIter<T, I> {
    /// Keeps an item until its turn.
    fn keep<E>(&mut self, number: SequenceId, item: T) -> Result<(), InOrderError<E>>
        ensures kept { OnOk result ((CameBefore self.old.next (get nat_cmp self.old.waiting) number → ⊥)
            × Changes (get nat_cmp self.old.waiting) number (Some item) (get nat_cmp self.new.waiting)) }
        ensures one_more { OnOk result (btree_map_len self.new.waiting ≡ btree_map_len self.old.waiting + 1) }
        ensures refused { IfErr result (λ error.
            IsRefusal self.old.next (get nat_cmp self.old.waiting) number error) }
        ensures unkept { OnErr result (self.new.waiting.entries ≡ self.old.waiting.entries) }
        ensures same { (self.new.inner ≡ self.old.inner) × (self.new.next ≡ self.old.next)
            × (self.new.is_over ≡ self.old.is_over) }
    {
        if number < self.next || self.waiting.contains_key(&number) {
            return Err(InOrderError::OutOfSequence {
                got: number,
                next: self.next,
            });
        }
        if self.waiting.insert(number, item).is_err() {
            return Err(InOrderError::NoMemory);
        }
        Ok(())
    }
}

impl<T: Drop, E, I: Iterator<Item = Result<(SequenceId, T), E>>> InOrderIter<T, I> {
    /// Asks the inner iterator for items until the next one comes. The others wait.
    fn draw(&mut self) -> Option<Result<T, InOrderError<E>>>
        requires going { self.old.is_over ≡ false }
        requires gap { get nat_cmp self.old.waiting self.old.next ≡ None }
        requires can { I.can_next self.old.inner }
        requires finite { IsFinite (I.remaining self.old.inner) }
        ensures comes { Comes I.next_gives (in_order_at self.old) result (in_order_at self.new) }
        ensures goes { MakesProgress (can_draw I.can_next I.remaining) (left_in_order I.remaining)
            self.old result self.new }
    {
        'drawing: while let Some(arrived) = self.inner.next() {
            let (number, item) = match arrived {
                Ok(pair) => pair,
                Err(error) => {
                    self.is_over = true;
                    return Some(Err(InOrderError::Inner(error)));
                }
            };
            if number == self.next {
                self.pass_turn();
                return Some(Ok(item));
            }
            if let Err(error) = self.keep(number, item) {
                self.is_over = true;
                return Some(Err(error));
            }
        }
        self.is_over = true;
        None
    }
}

impl<T: Drop, E, I: Iterator<Item = Result<(SequenceId, T), E>>> Iterator for InOrderIter<T, I> {
    type Item = Result<T, InOrderError<E>>;

    ghost can_next = { can_draw I.can_next I.remaining };

    ghost next_gives = { λ s item t. GivesInOrder I.next_gives (in_order_at s) item (in_order_at t) };

    ghost remaining = { left_in_order I.remaining };

    fn next(&mut self) -> Option<Result<T, InOrderError<E>>> {
        if self.is_over {
            return None;
        }
        if let Some(item) = self.waiting.remove(&self.next) {
            self.pass_turn();
            return Some(Ok(item));
        }
        self.draw()
    }
}
