//! Iterators that end when a flag is set.
ghost use Rattle.std.specs.Prelude.{◌≡◌, is_none, None, Some};
ghost use Rattle.std.specs.Option.{ForSome};
ghost use Rattle.std.specs.Iterator.{at_most, count_add, count_unless};
ghost use Rattle.gix_features_parts.specs.Interrupt.{UntilSet, ErrsWhenSet};

use super::Flag;

/// The items of an inner iterator until a flag is set.
///
/// The flag is asked before each item, also once it was found set.
#[derive(Drop)]
pub struct Iter<I, G> {
    /// The iterator that gives the items.
    pub inner: I,
    should_interrupt: G,
}

impl<I: Iterator, G: Flag + Drop> Iter<I, G> {
    /// The items of `inner` until `should_interrupt` is set.
    pub fn new(inner: I, should_interrupt: G) -> Iter<I, G>
        ensures inner { result.inner ≡ inner }
        ensures flag { result.should_interrupt ≡ should_interrupt }
    {
        Iter {
            inner,
            should_interrupt,
        }
    }
}

impl<I: Iterator, G: Flag + Drop> Iterator for Iter<I, G> {
    type Item = I::Item;

    ghost can_next = { λ s. I.can_next s.inner };

    ghost next_gives = { λ s item t.
        UntilSet G.tells G.count I.next_gives s.inner s.should_interrupt item t.inner t.should_interrupt };

    ghost remaining = { λ s. I.remaining s.inner };

    fn next(&mut self) -> Option<I::Item> {
        if self.should_interrupt.is_set() {
            return None;
        }
        self.inner.next()
    }
}

/// The items of an inner iterator until a flag is set, and then an error.
///
/// After the error, and after the inner iterator's end, there is no item.
#[derive(Drop)]
pub struct IterWithErr<I, M, G> {
    /// The iterator that gives the items.
    pub inner: I,
    /// Makes the error. None after the last item.
    make_err: Option<M>,
    should_interrupt: G,
}

impl<I: Iterator, M, G: Flag + Drop> IterWithErr<I, M, G> {
    /// The items of `inner` until `should_interrupt` is set, and then the error that `make_err` makes.
    pub fn new<E>(inner: I, make_err: M, should_interrupt: G) -> IterWithErr<I, M, G>
    where
        M: FnOnce() -> E,
        ensures inner { result.inner ≡ inner }
        ensures make_err { result.make_err ≡ Some make_err }
        ensures flag { result.should_interrupt ≡ should_interrupt }
    {
        IterWithErr {
            inner,
            make_err: Some(make_err),
            should_interrupt,
        }
    }
}

impl<I: Iterator, E, M: FnOnce() -> E + Drop, G: Flag + Drop> Iterator for IterWithErr<I, M, G> {
    type Item = Result<I::Item, E>;

    ghost can_next = { λ s. ForSome s.make_err (λ make. M.pre make × I.can_next s.inner) };

    ghost next_gives = { λ s item t.
        ErrsWhenSet G.tells G.count I.next_gives M.post s.inner s.make_err s.should_interrupt item
        t.inner t.make_err t.should_interrupt };

    ghost remaining = { λ s. count_unless (is_none s.make_err) (count_add (at_most 1) (I.remaining s.inner)) };

    fn next(&mut self) -> Option<Result<I::Item, E>> {
        let make_err = self.make_err.take()?;
        if self.should_interrupt.is_set() {
            return Some(Err(make_err()));
        }
        let item = self.inner.next()?;
        self.make_err = Some(make_err);
        Some(Ok(item))
    }
}
