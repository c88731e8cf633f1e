//! Changes of a tree: each is tested by `is_possible` first, and applied if it is possible.
use super::Tree;
use crate::node_map::{free_number, move_node, put_time, take};
use crate::node_moves::move_below;
use crate::{ByteList, NoMemory, PathText};
use odb_base::Shared;
use odb_disk::{Change, Content, Impossible};
use std::alloc::Global;

impl Tree {
    ghost use Rattle.std.specs.Prelude.{◌≡◌, ◌≢◌, true, false, OnOk, OnErr, IsErrOf};
    ghost use Rattle.odb_disk.specs.Tree.{node_at, with_node, is_directory};
    ghost use Rattle.odb_disk.specs.Tree.Change.{changed, is_possible_in, lies_in_directory, new_node};

    /// Makes a change of another program. On error nothing changes.
    pub fn change(&mut self, alloc: Global, change: &Change) -> Result<(), Impossible>
        ensures made { OnOk result (self.new ≡ changed self.old change.now) }
        ensures possible { OnOk result (is_possible_in self.old change.now ≡ true) }
        ensures impossible { IsErrOf result Impossible.Impossible → is_possible_in self.old change.now ≡ false }
        ensures kept { OnErr result (self.new ≡ self.old) }
    {
        if !self.is_possible(alloc, change)? {
            return Err(Impossible::Impossible);
        }
        self.apply(alloc, change)?;
        Ok(())
    }

    /// Makes a change that is possible. On error nothing changes.
    fn apply(&mut self, alloc: Global, change: &Change) -> Result<(), NoMemory>
        requires possible { is_possible_in self.old change.now ≡ true }
        ensures made { OnOk result (self.new ≡ changed self.old change.now) }
        ensures kept { OnErr result (self.new ≡ self.old) }
    {
        match change {
            Change::PutFile { path, time, bytes } => {
                self.apply_put_file(alloc, path, *time, bytes)
            }
            Change::MakeDir { path, dev } => self.apply_make_dir(alloc, path, *dev),
            Change::PutLink { path, target } => self.apply_put_link(alloc, path, target),
            Change::Rename { from, to } => self.apply_rename(alloc, from, to),
            Change::Append { path, bytes } => self.apply_append(alloc, path, bytes.as_slice()),
            Change::Remove { path } => self.apply_remove(path),
            Change::SetTime { path, time } => {
                self.apply_set_time(path, *time);
                Ok(())
            }
        }
    }

    /// Puts a file. On error nothing changes.
    pub(super) fn apply_put_file(
        &mut self,
        alloc: Global,
        path: &PathText,
        time: u64,
        bytes: &ByteList,
    ) -> Result<(), NoMemory>
        requires possible { is_possible_in self.old (Change.PutFile path.now time bytes.now) ≡ true }
        ensures made { OnOk result (self.new ≡ changed self.old (Change.PutFile path.now time bytes.now)) }
        ensures kept { OnErr result (self.new ≡ self.old) }
    {
        let bytes = Shared::copy_of(alloc, bytes)?;
        let content = Content::File { bytes, time };
        if self.stands_file(path) {
            self.put_content(path, content);
            return Ok(());
        }
        self.put_new_node(alloc, path, content)
    }

    /// Makes a directory. On error nothing changes.
    pub(super) fn apply_make_dir(
        &mut self,
        alloc: Global,
        path: &PathText,
        dev: u64,
    ) -> Result<(), NoMemory>
        requires possible { is_possible_in self.old (Change.MakeDir path.now dev) ≡ true }
        ensures made { OnOk result (self.new ≡ changed self.old (Change.MakeDir path.now dev)) }
        ensures kept { OnErr result (self.new ≡ self.old) }
    {
        self.put_new(alloc, path, dev, Content::Dir)
    }

    /// Puts a link. On error nothing changes.
    fn apply_put_link(
        &mut self,
        alloc: Global,
        path: &PathText,
        target: &PathText,
    ) -> Result<(), NoMemory>
        requires possible { is_possible_in self.old (Change.PutLink path.now target.now) ≡ true }
        ensures made { OnOk result (self.new ≡ changed self.old (Change.PutLink path.now target.now)) }
        ensures kept { OnErr result (self.new ≡ self.old) }
    {
        let target = target.try_clone(alloc)?;
        let content = Content::Link(target);
        if self.stands_link(path) {
            self.put_content(path, content);
            return Ok(());
        }
        self.put_new_node(alloc, path, content)
    }

    /// Puts a new node where no directory is, on the device of its parent. On error nothing changes.
    fn put_new_node(
        &mut self,
        alloc: Global,
        path: &PathText,
        content: Content,
    ) -> Result<(), NoMemory>
        requires lies { lies_in_directory self.old path.now ≡ true }
        requires no_directory { is_directory (node_at self.old path.now) ≡ false }
        ensures made { OnOk result (self.new ≡ with_node self.old path.now (new_node self.old path.now content)) }
        ensures kept { OnErr result (self.new ≡ self.old) }
    {
        let dev = self.device_above(alloc, path)?;
        self.put_new(alloc, path, dev, content)
    }

    /// Moves what is at a path. On error nothing changes.
    pub(super) fn apply_rename(
        &mut self,
        alloc: Global,
        from: &PathText,
        to: &PathText,
    ) -> Result<(), NoMemory>
        requires possible { is_possible_in self.old (Change.Rename from.now to.now) ≡ true }
        ensures made { OnOk result (self.new ≡ changed self.old (Change.Rename from.now to.now)) }
        ensures kept { OnErr result (self.new ≡ self.old) }
    {
        if self.stands_directory(from) {
            return self.move_directory(alloc, from, to);
        }
        if from == to {
            return Ok(());
        }
        self.move_leaf(alloc, from, to)
    }

    /// Moves a directory and what is below it, to where nothing is. On error nothing changes.
    fn move_directory(
        &mut self,
        alloc: Global,
        from: &PathText,
        to: &PathText,
    ) -> Result<(), NoMemory>
        requires possible { is_possible_in self.old (Change.Rename from.now to.now) ≡ true }
        requires directory { is_directory (node_at self.old from.now) ≡ true }
        ensures made { OnOk result (self.new ≡ changed self.old (Change.Rename from.now to.now)) }
        ensures kept { OnErr result (self.new ≡ self.old) }
    {
        move_below(alloc, &mut self.nodes, from, to)
    }

    /// Moves a file or a link to another path. On error nothing changes.
    fn move_leaf(&mut self, alloc: Global, from: &PathText, to: &PathText) -> Result<(), NoMemory>
        requires possible { is_possible_in self.old (Change.Rename from.now to.now) ≡ true }
        requires leaf { is_directory (node_at self.old from.now) ≡ false }
        requires apart { from.now ≢ to.now }
        ensures made { OnOk result (self.new ≡ changed self.old (Change.Rename from.now to.now)) }
        ensures kept { OnErr result (self.new ≡ self.old) }
    {
        free_number(&self.nodes, to, &mut self.free_inos)?;
        move_node(alloc, &mut self.nodes, from, to)?;
        Ok(())
    }

    /// Appends bytes to the file that a path leads to. On error nothing changes.
    pub(super) fn apply_append(
        &mut self,
        alloc: Global,
        path: &PathText,
        bytes: &[u8],
    ) -> Result<(), NoMemory>
        requires possible { is_possible_in self.old (Change.Append path.now bytes.now) ≡ true }
        ensures made { OnOk result (self.new ≡ changed self.old (Change.Append path.now bytes.now)) }
        ensures kept { OnErr result (self.new ≡ self.old) }
    {
        let place = self.file_led_to(alloc, path)?;
        self.append_at(alloc, &place, bytes)
    }

    /// Removes what is at a path. On error nothing changes.
    pub(super) fn apply_remove(&mut self, path: &PathText) -> Result<(), NoMemory>
        requires possible { is_possible_in self.old (Change.Remove path.now) ≡ true }
        ensures made { OnOk result (self.new ≡ changed self.old (Change.Remove path.now)) }
        ensures kept { OnErr result (self.new ≡ self.old) }
    {
        free_number(&self.nodes, path, &mut self.free_inos)?;
        take(&mut self.nodes, path);
        Ok(())
    }

    /// Sets the time of a file.
    fn apply_set_time(&mut self, path: &PathText, time: u64)
        requires possible { is_possible_in self.old (Change.SetTime path.now time) ≡ true }
        ensures made { self.new ≡ changed self.old (Change.SetTime path.now time) }
    {
        put_time(&mut self.nodes, path, time);
    }
}
