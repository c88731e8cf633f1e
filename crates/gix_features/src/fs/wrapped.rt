//! Walks that give wrapped entries.
ghost use Rattle.std.specs.Prelude.{◌≡◌, min, max, Some, None, IfOk, IfErr, true};
ghost use Rattle.walkdir.specs.Options.{default_options, with_options};

use super::entry::DirEntry;
use super::order::GitOrder;
use odb_disk::Disk;
use odb_mem_disk::{NoMemory, PathText};
use std::alloc::Global;
use walkdir::{Error, NoSort, Sorter, Stack, Steps};

/// How many threads a walk is asked to use. It always uses one.
#[derive(Clone, Copy)]
pub enum Parallelism {
    Serial,
    ThreadPoolPerTraversal,
}

/// Builds a walk that gives wrapped entries.
#[derive(Drop)]
pub struct WalkDir<S> {
    inner: walkdir::WalkDir<S>,
    precompose_unicode: bool,
}

/// An unsorted walk from a root. Names are composed if that is asked for.
pub fn walkdir_new(
    root: PathText,
    _parallelism: Parallelism,
    precompose_unicode: bool,
) -> WalkDir<NoSort>
    ensures root { result.inner.root ≡ root }
    ensures options { result.inner.options ≡ default_options }
    ensures sorter { result.inner.sorter ≡ None }
    ensures precompose { result.precompose_unicode ≡ precompose_unicode }
{
    WalkDir {
        inner: walkdir::WalkDir::at(root),
        precompose_unicode,
    }
}

/// A walk from a root in the order of Git's trees, down to a depth: 0 is the root alone.
pub fn walkdir_sorted_new(
    root: PathText,
    _parallelism: Parallelism,
    max_depth: usize,
    precompose_unicode: bool,
) -> WalkDir<GitOrder>
    ensures root { result.inner.root ≡ root }
    ensures options { result.inner.options ≡ record default_options { max_depth = max_depth } }
    ensures sorter { result.inner.sorter ≡ Some (record {}) }
    ensures precompose { result.precompose_unicode ≡ precompose_unicode }
{
    WalkDir {
        inner: walkdir::WalkDir::at(root)
            .max_depth(max_depth)
            .sort_by(GitOrder),
        precompose_unicode,
    }
}

impl<S: Drop> WalkDir<S> {
    ghost use Rattle.walkdir.specs.Progress.{begun, has_its_streams};
    ghost use Rattle.walkdir.specs.StackProgress.{progress};

    /// Gives entries from this depth on.
    pub fn min_depth(self, depth: usize) -> WalkDir<S>
        ensures options { result ≡ record self
            { inner = with_options self.inner (record self.inner.options { min_depth = min depth self.inner.options.max_depth }) } }
    {
        WalkDir {
            inner: self.inner.min_depth(depth),
            precompose_unicode: self.precompose_unicode,
        }
    }

    /// Gives entries up to this depth.
    pub fn max_depth(self, depth: usize) -> WalkDir<S>
        ensures options { result ≡ record self
            { inner = with_options self.inner (record self.inner.options { max_depth = max depth self.inner.options.min_depth }) } }
    {
        WalkDir {
            inner: self.inner.max_depth(depth),
            precompose_unicode: self.precompose_unicode,
        }
    }

    /// Whether links are followed.
    pub fn follow_links(self, yes: bool) -> WalkDir<S>
        ensures options { result ≡ record self
            { inner = with_options self.inner (record self.inner.options { follow_links = yes }) } }
    {
        WalkDir {
            inner: self.inner.follow_links(yes),
            precompose_unicode: self.precompose_unicode,
        }
    }

    /// The walk on a disk. It never fails.
    pub fn into_iter_on<'d, D: Disk>(
        self,
        alloc: Global,
        disk: &'d mut D,
    ) -> Result<WalkDirIter<'d, D, Stack<S>>, NoMemory>
    where
        S: Sorter,
        ensures made { IfErr result (λ _. ⊥) }
        ensures begun { IfOk result (λ walk.
            progress S.order walk.walk (D.streams walk.disk.now) ≡ begun S.order self.inner (D.streams disk.old)) }
        ensures own { IfOk result
            (λ walk. has_its_streams (progress S.order walk.walk (D.streams walk.disk.now)) ≡ true) }
        ensures disk { IfOk result (λ walk. walk.disk.ghost_name ≡ disk.entry.ghost_name) }
        ensures same { IfOk result (λ walk. walk.disk.now ≡ disk.old) }
        ensures precompose { IfOk result (λ walk. walk.precompose_unicode ≡ self.precompose_unicode) }
    {
        Ok(WalkDirIter {
            disk,
            walk: self.inner.into_stack(alloc),
            precompose_unicode: self.precompose_unicode,
        })
    }
}

/// The items of a walk on a disk that it borrows, each entry wrapped.
pub struct WalkDirIter<'d, D: Disk, W: Steps> {
    disk: &'d mut D,
    walk: W,
    precompose_unicode: bool,
}

/// The items of a walk, each entry wrapped.
pub type DirEntryIter<'d, D, W> = WalkDirIter<'d, D, W>;

impl<'d, D: Disk, W: Steps> Iterator for WalkDirIter<'d, D, W> {
    type Item = Result<DirEntry<walkdir::DirEntry>, Error>;

    ghost use Rattle.gix_features.specs.Wrapped.{wrapped_item};
    ghost use Rattle.std.specs.Iterator.{at_most};
    ghost use Rattle.std.specs.Prelude.{Option, Result};
    ghost use Rattle.walkdir.specs.OnDisk.{NextOn};
    ghost use Rattle.walkdir.specs.Progress.{has_its_streams, work_left};
    ghost use Rattle.walkdir.specs.declared.dent.DirEntry.{DirEntry as EntryValue};
    ghost use Rattle.walkdir.specs.declared.error.Error.{Error as ErrorValue};

    ghost can_next = { λ s. has_its_streams (W.progress s.walk (D.streams s.disk.now)) ≡ true };

    ghost next_gives = { λ s item t. (inner : Option (Result EntryValue ErrorValue)) × NextOn D.state D.streams
        D.faults D.answered W.progress (record { disk = s.disk; walk = s.walk }) inner
        (record { disk = t.disk; walk = t.walk }) × (item ≡ wrapped_item s.precompose_unicode inner) ×
        (t.precompose_unicode ≡ s.precompose_unicode) };

    ghost remaining = { λ s. at_most (work_left (W.progress s.walk (D.streams s.disk.now))) };

    fn next(&mut self) -> Option<Result<DirEntry<walkdir::DirEntry>, Error>> {
        let walk = &mut self.walk;
        match walk.step(self.disk) {
            None => None,
            Some(Ok(entry)) => Some(Ok(DirEntry::new(entry, self.precompose_unicode))),
            Some(Err(error)) => Some(Err(error)),
        }
    }
}

impl<'d, D: Disk, W: Steps> Drop for WalkDirIter<'d, D, W> {
    ghost use Rattle.odb_disk.specs.CallsMade.{Leads};
    ghost use Rattle.odb_disk.specs.Streams.{Streams};
    ghost use Rattle.walkdir.specs.OwnStreams.{AreBack};
    ghost use Rattle.walkdir.specs.Progress.{Keeps};

    fn drop(self)
        ensures back { (before : Streams) → Keeps before (W.progress self.entry.walk (D.streams self.entry.disk.now))
            → AreBack before (W.progress self.entry.walk (D.streams self.entry.disk.now)).options.max_open
            (D.streams self.exit.0.now) }
        ensures state { D.state self.exit.0.now ≡ D.state self.entry.disk.now }
        ensures faults { D.faults self.exit.0.now ≡ D.faults self.entry.disk.now }
        ensures answered { Leads D.answered self.entry.disk.now self.exit.0.now }
    {
        let WalkDirIter {
            disk,
            mut walk,
            precompose_unicode: _,
        } = self;
        walk.end(disk);
    }
}
