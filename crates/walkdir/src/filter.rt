//! Walks that leave out what a predicate rejects, and what is below rejected directories.
ghost use Rattle.std.specs.Prelude.{◌≡◌};
ghost use Rattle.std.specs.Iterator.{IsFinite};
ghost use Rattle.walkdir.specs.Filter.{Filters, LeavesNoMore};

use crate::iter::Walk;
use crate::{DirEntry, Result};

/// A walk without the entries that a predicate rejects.
///
/// If directories are given before their contents, a rejected one isn't walked: what is below it is neither given nor
/// tested. Errors are always given.
#[derive(Drop)]
pub struct FilterEntry<I, P> {
    walk: I,
    predicate: P,
}

impl<I: Walk, P: FnMut(&DirEntry) -> bool> FilterEntry<I, P> {
    pub(crate) fn new(walk: I, predicate: P) -> FilterEntry<I, P>
        ensures walk { result.walk ≡ walk }
        ensures predicate { result.predicate ≡ predicate }
    {
        FilterEntry { walk, predicate }
    }

    /// Drops the rest of the innermost directory on the walk's stack.
    pub fn skip_current_dir(&mut self)
        ensures skips { I.skips self.old.walk self.new.walk }
        ensures left { LeavesNoMore (I.remaining self.old.walk) (I.remaining self.new.walk) }
        ensures can { I.can_next self.old.walk → I.can_next self.new.walk }
        ensures predicate { self.new.predicate ≡ self.old.predicate }
    {
        self.walk.skip_current_dir();
    }

    /// The entries that a second predicate accepts too.
    pub fn filter_entry<Q: FnMut(&DirEntry) -> bool>(self, predicate: Q) -> FilterEntry<Self, Q>
        ensures walk { result.walk ≡ self }
        ensures predicate { result.predicate ≡ predicate }
    {
        FilterEntry::new(self, predicate)
    }

    /// The unfiltered walk, from where it is now. A proof can see that dropping it closes its streams.
    pub fn into_inner(self) -> I
    where
        P: Drop,
        ensures walk { result ≡ self.walk }
    {
        let FilterEntry { walk, predicate: _ } = self;
        walk
    }
}

impl<I: Walk, P: FnMut(&DirEntry) -> bool + Drop> Iterator for FilterEntry<I, P> {
    type Item = Result<DirEntry>;

    ghost can_next = { λ s. I.can_next s.walk × IsFinite (I.remaining s.walk) × P.IsAlwaysCallable s.predicate };

    ghost next_gives = { λ s item t. Filters I.next_gives I.skips I.entered P.FnMut s.walk s.predicate item t.walk
        t.predicate };

    ghost remaining = { λ s. I.remaining s.walk };

    fn next(&mut self) -> Option<Result<DirEntry>> {
        loop {
            match self.walk.next()? {
                Err(error) => return Some(Err(error)),
                Ok(entry) => {
                    if (self.predicate)(&entry) {
                        return Some(Ok(entry));
                    }
                    if self.walk.has_entered() {
                        self.walk.skip_current_dir();
                    }
                }
            }
        }
    }
}

impl<I: Walk, P: FnMut(&DirEntry) -> bool + Drop> Walk for FilterEntry<I, P> {
    ghost skips = { λ s t. I.skips s.walk t.walk × (t.predicate ≡ s.predicate) };

    ghost entered = { λ s. I.entered s.walk };

    fn skip_current_dir(&mut self) {
        self.walk.skip_current_dir();
    }

    fn has_entered(&self) -> bool {
        self.walk.has_entered()
    }
}
