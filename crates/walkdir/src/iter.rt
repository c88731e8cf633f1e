//! Walks on a disk.
ghost use Rattle.std.specs.Prelude.{◌≡◌, Bool, true, false, [], None};
ghost use Rattle.odb_disk.specs.Streams.{Streams};
ghost use Rattle.odb_disk.specs.CallsMade.{Leads};
ghost use Rattle.walkdir.specs.Answered.{TellsOn};
ghost use Rattle.walkdir.specs.Filter.{LeavesNoMore};
ghost use Rattle.walkdir.specs.Failures.{failures_given};
ghost use Rattle.walkdir.specs.FilteredWalk.{AnswersBy, FiltersWalk, GivesFiltered, TellsFiltered};
ghost use Rattle.walkdir.specs.OnDisk.{NextOn, SkipsOn};
ghost use Rattle.walkdir.specs.SkipLaws.{SkipDrops, SkipLeaves};
ghost use Rattle.walkdir.specs.Walk.{Walking};
ghost use Rattle.walkdir.specs.OwnStreams.{AreBack};
ghost use Rattle.walkdir.specs.Progress.{Progress, FailsByFault, Keeps, Steps as StepsTo, has_its_streams, work_left};
ghost use Rattle.walkdir.specs.Skips.{Skips};

use crate::filter::FilterEntry;
use crate::stack::Stack;
use crate::{DirEntry, Result};
use odb_disk::Disk;

/// A walk whose innermost directory can be skipped.
pub trait Walk: Iterator<Item = Result<DirEntry>> {
    /// The state after a skip.
    ghost skips: { Self → Self → Type 0 };

    /// Whether the item given last is a directory that was entered, and whose contents are still to come.
    ghost entered: { Self → Bool };

    /// Drops the rest of the innermost directory on the stack; does nothing on an empty stack. A directory that is
    /// given after its contents is still given.
    fn skip_current_dir(&mut self)
        ensures skipped { skips self.old self.new }
        ensures left { LeavesNoMore (Self.remaining self.old) (Self.remaining self.new) }
        ensures can { Self.can_next self.old → Self.can_next self.new };

    /// Whether the item given last is a directory that was entered, and whose contents are still to come.
    fn has_entered(&self) -> bool
        ensures told { result ≡ entered self.now };
}

/// The state of a walk without its disk, and its steps on a disk.
pub trait Steps: Drop {
    /// How far the walk is on a disk with these streams.
    ghost progress: { Self → Streams → Progress };

    /// The next item.
    fn step<D: Disk>(&mut self, disk: &mut D) -> Option<Result<DirEntry>>
        requires own { has_its_streams (progress self.old (D.streams disk.old)) ≡ true }
        ensures own { has_its_streams (progress self.new (D.streams disk.new)) ≡ true }
        ensures steps { StepsTo (D.state disk.old) (progress self.old (D.streams disk.old)) result
            (progress self.new (D.streams disk.new)) }
        ensures faults { FailsByFault (progress self.old (D.streams disk.old)) (D.faults disk.old)
            (failures_given result) (progress self.new (D.streams disk.new)) (D.faults disk.new) }
        ensures answered { TellsOn D.answered disk.old (progress self.old (D.streams disk.old)).stack result disk.new
            (progress self.new (D.streams disk.new)).stack }
        ensures state { D.state disk.new ≡ D.state disk.old };

    /// Drops the rest of the innermost directory.
    fn skip<D: Disk>(&mut self, disk: &mut D)
        ensures own { has_its_streams (progress self.old (D.streams disk.old)) ≡ true
            → has_its_streams (progress self.new (D.streams disk.new)) ≡ true }
        ensures skips { Skips (progress self.old (D.streams disk.old)) (progress self.new (D.streams disk.new)) }
        ensures answered { TellsOn D.answered disk.old (progress self.old (D.streams disk.old)).stack None disk.new
            (progress self.new (D.streams disk.new)).stack }
        ensures state { D.state disk.new ≡ D.state disk.old }
        ensures faults { D.faults disk.new ≡ D.faults disk.old };

    /// Whether the item given last is a directory that was entered.
    fn has_entered(&self) -> bool
        ensures told { (streams : Streams) → result ≡ (progress self.now streams).entered };

    /// Ends the walk and closes all its streams.
    fn end<D: Disk>(&mut self, disk: &mut D)
        ensures back { (before : Streams) → Keeps before (progress self.old (D.streams disk.old))
            → AreBack before (progress self.old (D.streams disk.old)).options.max_open (D.streams disk.new) }
        ensures over { (streams : Streams)
            → ((progress self.new streams).stack ≡ []) × ((progress self.new streams).start ≡ None) }
        ensures options { (streams : Streams)
            → (progress self.new streams).options ≡ (progress self.old streams).options }
        ensures entered { (streams : Streams) → (progress self.new streams).entered ≡ false }
        ensures answered { Leads D.answered disk.old disk.new }
        ensures state { D.state disk.new ≡ D.state disk.old }
        ensures faults { D.faults disk.new ≡ D.faults disk.old };
}

/// A walk on a disk that it borrows.
pub struct OnDisk<'d, D: Disk, W: Steps> {
    disk: &'d mut D,
    walk: W,
}

/// A walk on a disk.
pub type IntoIter<'d, D, S> = OnDisk<'d, D, Stack<S>>;

impl<'d, D: Disk, W: Steps> OnDisk<'d, D, W> {
    pub(crate) fn new(disk: &'d mut D, walk: W) -> OnDisk<'d, D, W>
        ensures disk { result.disk.ghost_name ≡ disk.entry.ghost_name }
        ensures same { result.disk.now ≡ disk.old }
        ensures walk { result.walk ≡ walk }
    {
        OnDisk { disk, walk }
    }

    /// Drops the rest of the innermost directory on the stack; does nothing on an empty stack. A directory that is
    /// given after its contents is still given.
    pub fn skip_current_dir(&mut self)
        ensures skips { Skips (W.progress self.old.walk (D.streams self.old.disk.now))
            (W.progress self.new.walk (D.streams self.new.disk.now)) }
        ensures drops { (walk : Walking) (before : Streams)
            → Keeps before (W.progress self.old.walk (D.streams self.old.disk.now))
            → SkipDrops walk (W.progress self.old.walk (D.streams self.old.disk.now))
            (W.progress self.new.walk (D.streams self.new.disk.now)) }
        ensures leaves { (walk : Walking) (before : Streams)
            → Keeps before (W.progress self.old.walk (D.streams self.old.disk.now))
            → SkipLeaves walk (W.progress self.old.walk (D.streams self.old.disk.now))
            (W.progress self.new.walk (D.streams self.new.disk.now)) }
        ensures own { has_its_streams (W.progress self.old.walk (D.streams self.old.disk.now)) ≡ true
            → has_its_streams (W.progress self.new.walk (D.streams self.new.disk.now)) ≡ true }
        ensures answered { TellsOn D.answered self.old.disk.now
            (W.progress self.old.walk (D.streams self.old.disk.now)).stack None self.new.disk.now
            (W.progress self.new.walk (D.streams self.new.disk.now)).stack }
        ensures disk { self.new.disk.ghost_name ≡ self.old.disk.ghost_name }
        ensures state { D.state self.new.disk.now ≡ D.state self.old.disk.now }
        ensures faults { D.faults self.new.disk.now ≡ D.faults self.old.disk.now }
    {
        let walk = &mut self.walk;
        walk.skip(self.disk);
    }

    /// The walk without the entries that a predicate rejects, and without what is below rejected directories.
    pub fn filter_entry<P: FnMut(&DirEntry) -> bool>(self, predicate: P) -> FilterEntry<Self, P>
        ensures walk { result.walk ≡ self.entry }
        ensures predicate { result.predicate ≡ predicate }
        ensures filters { FiltersWalk D.state D.streams D.faults D.answered W.progress P.FnMut result }
        ensures gives { (accepts : DirEntry → Bool) → AnswersBy P.FnMut accepts
            → GivesFiltered D.state D.streams D.faults D.answered W.progress P.FnMut accepts result }
        ensures answered { TellsFiltered D.state D.streams D.faults D.answered W.progress P.FnMut result }
    {
        FilterEntry::new(self, predicate)
    }
}

impl<'d, D: Disk, W: Steps> Iterator for OnDisk<'d, D, W> {
    type Item = Result<DirEntry>;

    ghost use Rattle.std.specs.Iterator.{at_most};

    ghost can_next = { λ s. has_its_streams (W.progress s.walk (D.streams s.disk.now)) ≡ true };

    ghost next_gives = { λ s item t. NextOn D.state D.streams D.faults D.answered W.progress s item t };

    ghost remaining = { λ s. at_most (work_left (W.progress s.walk (D.streams s.disk.now))) };

    fn next(&mut self) -> Option<Result<DirEntry>> {
        let walk = &mut self.walk;
        walk.step(self.disk)
    }
}

impl<'d, D: Disk, W: Steps> Walk for OnDisk<'d, D, W> {
    ghost skips = { λ s t. SkipsOn D.state D.streams D.faults D.answered W.progress s t };

    ghost entered = { λ s. (W.progress s.walk (D.streams s.disk.now)).entered };

    fn skip_current_dir(&mut self) {
        let walk = &mut self.walk;
        walk.skip(self.disk);
    }

    fn has_entered(&self) -> bool {
        self.walk.has_entered()
    }
}

impl<'d, D: Disk, W: Steps> Drop for OnDisk<'d, D, W> {
    fn drop(self)
        ensures back { (before : Streams) → Keeps before (W.progress self.entry.walk (D.streams self.entry.disk.now))
            → AreBack before (W.progress self.entry.walk (D.streams self.entry.disk.now)).options.max_open
            (D.streams self.exit.0.now) }
        ensures state { D.state self.exit.0.now ≡ D.state self.entry.disk.now }
        ensures faults { D.faults self.exit.0.now ≡ D.faults self.entry.disk.now }
        ensures answered { Leads D.answered self.entry.disk.now self.exit.0.now }
    {
        let OnDisk { disk, mut walk } = self;
        walk.end(disk);
    }
}
