//! Puts a directory on the stack, after an outer one made room for its stream.
use super::Stack;
use crate::directory::{DirList, Items, Place};
use crate::read::{open, rest_of};
use crate::sort::Sorter;
use crate::{DirEntry, Result};
use odb_disk::Disk;
use odb_mem_disk::PathText;
use std::collections::VecDeque;

impl<S: Sorter + Drop> Stack<S> {
    ghost use Rattle.std.specs.Prelude.{◌≡◌, ◌+◌, ◌<◌, ◌≤◌, ◌||◌, true, false, [], ◌∷◌, None, reverse, length, take, IfOk, IfErr, IfSome, OnOk};
    ghost use Rattle.walkdir.specs.Error.{is_no_memory};
    ghost use Rattle.walkdir.specs.Failures.{Costs, failures_by, failures_left, failures_of};
    ghost use Rattle.walkdir.specs.Directory.{most_entries, AreAt, HasNothing, held, is_skipped, left_in, stream_in};
    ghost use Rattle.walkdir.specs.Stack.{own_streams, ancestors};
    ghost use Rattle.walkdir.specs.Within.{LiesIn};
    ghost use Rattle.walkdir.specs.Progress.{is_innermost};
    ghost use Rattle.walkdir.specs.StackProgress.{progress, KeepsStack};
    ghost use Rattle.walkdir.specs.Answered.{TellsOn};
    ghost use Rattle.walkdir.specs.AnsweredTurns.{TellsContents, TellsPushed};
    ghost use Rattle.walkdir.specs.Innermost.{is_head_skipped, IsAfter, IsHead};
    ghost use Rattle.walkdir.specs.Turns.AtIndex.{AreOf, Puts};
    ghost use Rattle.walkdir.specs.Turns.{fresh, handed, GoesOn};
    ghost use Rattle.walkdir.specs.Turns.Drawn.{OpensAtMost, stream_of, HasContents};
    ghost use Rattle.walkdir.specs.Turns.Stands.{StandsAsBefore, EntersDirectory, PushesDirectory};
    ghost use Rattle.walkdir.specs.EnteredTurns.{EntersTelling, PushesContents};
    ghost use Rattle.walkdir.specs.Walk.Entries.{enter, is_root_link};
    ghost use Rattle.walkdir.specs.Entry.{is_dir};
    ghost use Rattle.std.specs.Option.{option_map};

    /// Enters a directory. It is given now, or after its contents. A link at the root is given now in any case.
    pub(super) fn enter<D: Disk>(
        &mut self,
        disk: &mut D,
        entry: DirEntry,
        place: Option<Place>,
    ) -> Result<Option<DirEntry>>
        requires start { self.old.start ≡ None }
        requires depth { entry.depth ≡ length self.old.lists.items }
        requires parent { LiesIn entry.path (reverse self.old.lists.items) }
        ensures goes { GoesOn (progress S.order self.old (D.streams disk.old)) (D.faults disk.old)
            (failures_of result) (fresh self.old.options.max_depth (length self.old.lists.items))
            (progress S.order self.new (D.streams disk.new)) (D.faults disk.new) }
        ensures lost { IfErr result (λ e. is_no_memory e ≡ true) }
        ensures sorter { self.new.sorter ≡ self.old.sorter }
        ensures entered { self.old.entered ≡ false
            → self.new.entered ≡ is_innermost (reverse self.new.lists.items) (handed result) }
        ensures answered { TellsPushed D.answered disk.old (reverse self.old.lists.items) entry.path place disk.new
            (reverse self.new.lists.items) }
        ensures state { D.state disk.new ≡ D.state disk.old }
        ensures device { self.new.root_device ≡ self.old.root_device }
        ensures innermost { (is_dir entry || is_root_link entry) ≡ true
            → IsAfter self.new.options (handed result) (reverse self.new.lists.items) }
        ensures above { OnOk result
            (ancestors (reverse self.new.lists.items) ≡ enter entry place (ancestors (reverse self.old.lists.items))) }
        ensures enters { EntersDirectory (D.state disk.old) (progress S.order self.old (D.streams disk.old)) entry
            place (handed result) (progress S.order self.new (D.streams disk.new)) }
        ensures directory { EntersTelling (D.state disk.old) (progress S.order self.old (D.streams disk.old)) entry
            place (handed result) (progress S.order self.new (D.streams disk.new)) }
    {
        let path = entry.path().try_clone(self.alloc)?;
        let depth = entry.depth();
        let is_dir = entry.is_dir();
        if self.options.contents_first && is_dir {
            self.push(disk, path, depth, place, Some(entry))?;
            return Ok(None);
        }
        self.push(disk, path, depth, place, None)?;
        let shown = self.shown(entry);
        self.entered = is_dir && shown.is_some();
        Ok(shown)
    }

    /// Puts a directory on the stack.
    fn push<D: Disk>(
        &mut self,
        disk: &mut D,
        path: PathText,
        depth: usize,
        place: Option<Place>,
        after: Option<DirEntry>,
    ) -> Result<()>
        requires start { self.old.start ≡ None }
        requires depth { depth ≡ length self.old.lists.items }
        requires parent { LiesIn path (reverse self.old.lists.items) }
        requires after { IfSome after
            (λ entry. (entry.depth ≡ depth) × (is_dir entry ≡ true) × (self.old.options.contents_first ≡ true)) }
        requires own { IfSome after (λ entry. entry.path ≡ path) }
        ensures goes { GoesOn (progress S.order self.old (D.streams disk.old)) (D.faults disk.old) (0)
            (fresh self.old.options.max_depth (length self.old.lists.items))
            (progress S.order self.new (D.streams disk.new)) (D.faults disk.new) }
        ensures lost { IfErr result (λ e. is_no_memory e ≡ true) }
        ensures count { OnOk result (length self.new.lists.items ≡ length self.old.lists.items + 1) }
        ensures sorter { self.new.sorter ≡ self.old.sorter }
        ensures entered { self.new.entered ≡ self.old.entered }
        ensures answered { TellsPushed D.answered disk.old (reverse self.old.lists.items) path place disk.new
            (reverse self.new.lists.items) }
        ensures state { D.state disk.new ≡ D.state disk.old }
        ensures device { self.new.root_device ≡ self.old.root_device }
        ensures head { OnOk result
            (IsHead path depth (reverse self.new.lists.items)
            × (is_head_skipped (reverse self.new.lists.items) ≡ false)) }
        ensures above { OnOk result
            (ancestors (reverse self.new.lists.items)
            ≡ record { path = path; place = place } ∷ ancestors (reverse self.old.lists.items)) }
        ensures pushes { OnOk result
            (PushesDirectory (D.state disk.old) (progress S.order self.old (D.streams disk.old)) path depth place
            after (progress S.order self.new (D.streams disk.new))) }
        ensures holds { OnOk result
            (PushesContents (D.state disk.old) (progress S.order self.old (D.streams disk.old)) path depth place
            (progress S.order self.new (D.streams disk.new))) }
    {
        self.make_room(disk)?;
        let items = self.contents(disk, &path, depth)?;
        let list = DirList {
            path,
            place,
            items,
            after,
        };
        match self.lists.push(list) {
            Ok(()) => Ok(()),
            Err(failed) => Err(failed.value.unplaced(disk)),
        }
    }

    /// The contents of a directory. At the greatest depth it has none, and isn't opened.
    fn contents<D: Disk>(&self, disk: &mut D, path: &PathText, depth: usize) -> Result<Items>
        ensures streams { OpensAtMost (D.streams disk.old) (stream_of result) (D.streams disk.new) }
        ensures bounded { IfOk result (λ items. left_in (D.streams disk.new) items ≤ most_entries) }
        ensures children { IfOk result (λ items. AreAt path.now (depth + 1) (held items)) }
        ensures deepest { IfOk result (λ items. self.now.options.max_depth ≤ depth → HasNothing items) }
        ensures contents { HasContents (D.state disk.old) (option_map S.order self.now.sorter) self.now.options
            path.now depth result (D.streams disk.new) }
        ensures whole { IfOk result (λ items. is_skipped items ≡ false) }
        ensures lost { IfErr result (λ e. is_no_memory e ≡ true) }
        ensures answered { TellsContents D.answered disk.old result disk.new }
        ensures state { D.state disk.new ≡ D.state disk.old }
        ensures cause { Costs (failures_by failures_left result) (D.faults disk.old) (D.faults disk.new) }
    {
        if depth < self.options.max_depth {
            open(self.alloc, disk, &self.sorter, path, depth)
        } else {
            Ok(Items::Closed(VecDeque::new(self.alloc)))
        }
    }

    /// Reads the rest of the outermost open directory, if the most directories are open already.
    fn make_room<D: Disk>(&mut self, disk: &mut D) -> Result<()>
        ensures goes { GoesOn (progress S.order self.old (D.streams disk.old)) (D.faults disk.old) (0) (0)
            (progress S.order self.new (D.streams disk.new)) (D.faults disk.new) }
        ensures kept { KeepsStack self.old self.new }
        ensures room { OnOk result (length self.new.lists.items < self.new.first_open + self.new.options.max_open) }
        ensures lost { IfErr result (λ e. is_no_memory e ≡ true) }
        ensures answered { TellsOn D.answered disk.old (reverse self.old.lists.items) None disk.new
            (reverse self.new.lists.items) }
        ensures state { D.state disk.new ≡ D.state disk.old }
        ensures stands { OnOk result
            (StandsAsBefore (progress S.order self.old (D.streams disk.old))
            (progress S.order self.new (D.streams disk.new))) }
    {
        if self.lists.len() - self.first_open < self.options.max_open {
            return Ok(());
        }
        self.close(disk, self.first_open)?;
        self.first_open += 1;
        Ok(())
    }

    /// Reads the rest of a directory into memory, and closes its stream.
    fn close<D: Disk>(&mut self, disk: &mut D, index: usize) -> Result<()>
        requires index { index < length self.old.lists.items }
        ensures goes { GoesOn (progress S.order self.old (D.streams disk.old)) (D.faults disk.old) (0) (0)
            (progress S.order self.new (D.streams disk.new)) (D.faults disk.new) }
        ensures kept { KeepsStack self.old self.new }
        ensures first_open { self.new.first_open ≡ self.old.first_open }
        ensures closed { OnOk result
            (own_streams (take index self.old.lists.items) ≡ []
            → own_streams (take (index + 1) self.new.lists.items) ≡ []) }
        ensures lost { IfErr result (λ e. is_no_memory e ≡ true) }
        ensures answered { TellsOn D.answered disk.old (reverse self.old.lists.items) None disk.new
            (reverse self.new.lists.items) }
        ensures state { D.state disk.new ≡ D.state disk.old }
        ensures stands { OnOk result
            (StandsAsBefore (progress S.order self.old (D.streams disk.old))
            (progress S.order self.new (D.streams disk.new))) }
    {
        let list = &self.lists[index];
        let Some(dir) = list.stream() else {
            return Ok(());
        };
        let items = rest_of(self.alloc, disk, dir, &list.path, index + 1)?;
        disk.close_dir(dir);
        self.put(index, Items::Closed(items));
        Ok(())
    }

    /// Gives a directory on the stack other contents, which have no stream.
    pub(super) fn put(&mut self, index: usize, items: Items)
        requires index { index < length self.old.lists.items }
        requires none { stream_in items ≡ None }
        requires children { AreOf self.old.lists.items index items }
        requires deepest { self.old.options.max_depth ≤ index → held items ≡ [] }
        ensures lists { Puts self.old.lists.items self.new.lists.items index items }
        ensures kept { KeepsStack self.old self.new }
        ensures first_open { self.new.first_open ≡ self.old.first_open }
    {
        self.lists[index].items = items;
    }
}
