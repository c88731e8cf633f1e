//! Draws from the innermost directory, and leaves it.
use super::Stack;
use crate::directory::Items;
use crate::read::next_of;
use crate::sort::Sorter;
use crate::{DirEntry, Result};
use odb_disk::{DirId, Disk};
use std::collections::VecDeque;

impl<S: Sorter + Drop> Stack<S> {
    ghost use Rattle.std.specs.Prelude.{◌≡◌, ◌+◌, ◌<◌, true, ◌∷◌, None, reverse, length, IfSome};
    ghost use Rattle.odb_disk.specs.Streams.{Streams};
    ghost use Rattle.walkdir.specs.Failures.{failures_given};
    ghost use Rattle.walkdir.specs.Within.{LiesIn};
    ghost use Rattle.walkdir.specs.Progress.{Keeps};
    ghost use Rattle.walkdir.specs.StackProgress.{progress, KeepsStack};
    ghost use Rattle.walkdir.specs.Answered.{TellsOn};
    ghost use Rattle.walkdir.specs.Innermost.{IsFromHead};
    ghost use Rattle.walkdir.specs.Turns.Stands.{DrawsChild, LeavesIt};
    ghost use Rattle.walkdir.specs.Turns.{GoesOn, LeavesLess, TakesWork};
    ghost use Rattle.walkdir.specs.Turns.AtIndex.{OwnsAt};
    ghost use Rattle.walkdir.specs.Entry.{is_dir};
    ghost use Rattle.walkdir.specs.declared.directory.DirList.{DirList};

    /// The next child of the innermost directory. Nothing follows an error in the middle of its stream.
    pub(super) fn next_child<D: Disk>(
        &mut self,
        disk: &mut D,
        index: usize,
    ) -> Option<Result<DirEntry>>
        requires index { index + 1 ≡ length self.old.lists.items }
        ensures goes { GoesOn (progress S.order self.old (D.streams disk.old)) (D.faults disk.old)
            (failures_given result) (0) (progress S.order self.new (D.streams disk.new)) (D.faults disk.new) }
        ensures kept { KeepsStack self.old self.new }
        ensures from { IfSome result (λ item. IsFromHead (reverse self.new.lists.items) item) }
        ensures less { IfSome result (λ _.
            (index < self.old.options.max_depth)
            × ((before : Streams) → Keeps before (progress S.order self.old (D.streams disk.old))
            → TakesWork (progress S.order self.old (D.streams disk.old))
            (progress S.order self.new (D.streams disk.new)) index)) }
        ensures answered { TellsOn D.answered disk.old (reverse self.old.lists.items) result disk.new
            (reverse self.new.lists.items) }
        ensures state { D.state disk.new ≡ D.state disk.old }
        ensures draws { DrawsChild (progress S.order self.old (D.streams disk.old)) result
            (progress S.order self.new (D.streams disk.new)) }
    {
        if let Some(dir) = self.lists[index].stream() {
            return self.next_open(disk, index, dir);
        }
        let list = &mut self.lists[index];
        list.items.take_first()
    }

    /// The next child from the open stream of the innermost directory. An error closes the stream.
    fn next_open<D: Disk>(
        &mut self,
        disk: &mut D,
        index: usize,
        dir: DirId,
    ) -> Option<Result<DirEntry>>
        requires index { index + 1 ≡ length self.old.lists.items }
        requires dir { OwnsAt self.old.lists.items index dir }
        ensures goes { GoesOn (progress S.order self.old (D.streams disk.old)) (D.faults disk.old)
            (failures_given result) (0) (progress S.order self.new (D.streams disk.new)) (D.faults disk.new) }
        ensures kept { KeepsStack self.old self.new }
        ensures from { IfSome result (λ item. IsFromHead (reverse self.new.lists.items) item) }
        ensures less { IfSome result (λ _.
            (index < self.old.options.max_depth)
            × ((before : Streams) → Keeps before (progress S.order self.old (D.streams disk.old))
            → TakesWork (progress S.order self.old (D.streams disk.old))
            (progress S.order self.new (D.streams disk.new)) index)) }
        ensures answered { TellsOn D.answered disk.old (reverse self.old.lists.items) result disk.new
            (reverse self.new.lists.items) }
        ensures state { D.state disk.new ≡ D.state disk.old }
        ensures draws { DrawsChild (progress S.order self.old (D.streams disk.old)) result
            (progress S.order self.new (D.streams disk.new)) }
    {
        match next_of(self.alloc, disk, dir, &self.lists[index].path, index + 1) {
            None => None,
            Some(Ok(entry)) => Some(Ok(entry)),
            Some(Err(error)) => {
                disk.close_dir(dir);
                self.put(index, Items::Closed(VecDeque::new(self.alloc)));
                Some(Err(error))
            }
        }
    }

    /// Leaves the innermost directory, and gives it if it is given after its contents.
    pub(super) fn leave<D: Disk>(&mut self, disk: &mut D) -> Option<DirEntry>
        requires some { 0 < length self.old.lists.items }
        ensures goes { GoesOn (progress S.order self.old (D.streams disk.old)) (D.faults disk.old) (0) (0)
            (progress S.order self.new (D.streams disk.new)) (D.faults disk.new) }
        ensures sorter { self.new.sorter ≡ self.old.sorter }
        ensures entered { self.new.entered ≡ self.old.entered }
        ensures depth { IfSome result (λ entry. entry.depth ≡ length self.new.lists.items) }
        ensures first { IfSome result (λ _. self.old.options.contents_first ≡ true) }
        ensures own { IfSome result
            (λ entry. (is_dir entry ≡ true) × LiesIn entry.path (reverse self.new.lists.items)) }
        ensures count { length self.new.lists.items + 1 ≡ length self.old.lists.items }
        ensures faults { D.faults disk.new ≡ D.faults disk.old }
        ensures less { (before : Streams) → Keeps before (progress S.order self.old (D.streams disk.old))
            → LeavesLess (progress S.order self.old (D.streams disk.old))
            (progress S.order self.new (D.streams disk.new)) }
        ensures answered { TellsOn D.answered disk.old (reverse self.old.lists.items) None disk.new
            (reverse self.new.lists.items) }
        ensures state { D.state disk.new ≡ D.state disk.old }
        ensures device { self.new.root_device ≡ self.old.root_device }
        ensures above { (list : DirList) × (reverse self.old.lists.items ≡ list ∷ reverse self.new.lists.items) }
        ensures leaves { LeavesIt (progress S.order self.old (D.streams disk.old)) result
            (progress S.order self.new (D.streams disk.new)) }
    {
        let list = self.lists.pop()?;
        list.close(disk);
        self.first_open = self.first_open.min(self.lists.len());
        self.shown(list.after?)
    }
}
