//! The calls of a disk that write, on its tree. Each finds the spots of its paths and makes its change there; the
//! function with `change_of_` before its name returns the change alone.
ghost use Rattle.std.specs.Prelude.{◌≡◌, true, IfOk, OnOk, OnErr};
ghost use Rattle.std.specs.Result.{result_ok};
ghost use Rattle.odb_disk.specs.Answers.{Tells};

use super::follow::Way;
use super::{MAX_LINKS, Tree};
use crate::node_map::has_names;
use crate::node_moves::moved_path;
use crate::{ByteList, PathText};
use odb_disk::{Change, DiskError};
use std::alloc::Global;

impl Tree {
    ghost use Rattle.odb_disk.specs.Tree.{IsTree};
    ghost use Rattle.odb_disk.specs.Tree.Follow.{followed_within};
    ghost use Rattle.odb_disk.specs.Tree.Change.{is_possible_in};
    ghost use Rattle.odb_disk.specs.Tree.Write.{from_followed, spot, vacant, movable, replaceable, removable, file_spot};
    ghost use Rattle.odb_disk.specs.Tree.Write.{change_of_make_dir, change_of_new_file, change_of_append, change_of_rename, change_of_remove, done, changed_by};
    ghost use Rattle.odb_disk.specs.TreeCalls.{path_of_place};

    /// Makes a directory where nothing is. On error nothing changes.
    pub fn make_dir(&mut self, alloc: Global, path: &PathText) -> Result<(), DiskError>
        ensures told { Tells result (done (change_of_make_dir self.old path.now)) }
        ensures made { OnOk result (self.new ≡ changed_by self.old (result_ok (change_of_make_dir self.old path.now))) }
        ensures kept { OnErr result (self.new ≡ self.old) }
    {
        let place = self.vacant(alloc, path)?;
        let dev = self.device_above(alloc, &place)?;
        self.apply_make_dir(alloc, &place, dev)?;
        Ok(())
    }

    /// Makes an empty file with time 0 where nothing is. On error nothing changes.
    pub fn new_file(&mut self, alloc: Global, path: &PathText) -> Result<(), DiskError>
        ensures told { Tells result (done (change_of_new_file self.old path.now)) }
        ensures made { OnOk result (self.new ≡ changed_by self.old (result_ok (change_of_new_file self.old path.now))) }
        ensures kept { OnErr result (self.new ≡ self.old) }
    {
        let place = self.vacant(alloc, path)?;
        let bytes = ByteList::new(alloc);
        self.apply_put_file(alloc, &place, 0, &bytes)?;
        Ok(())
    }

    /// Appends bytes to a file, following links. On error nothing changes.
    pub fn append(&mut self, alloc: Global, path: &PathText, bytes: &[u8]) -> Result<(), DiskError>
        ensures told { Tells result (done (change_of_append self.old path.now bytes.now)) }
        ensures made { OnOk result (self.new ≡ changed_by self.old (result_ok (change_of_append self.old path.now bytes.now))) }
        ensures is_tree { OnOk result (IsTree self.old) }
        ensures kept { OnErr result (self.new ≡ self.old) }
    {
        let place = self.file_spot(alloc, path)?;
        self.apply_append(alloc, &place, bytes)?;
        Ok(())
    }

    /// Moves a file or a link over nothing, a file or a link. On error nothing changes.
    pub fn rename(&mut self, alloc: Global, from: &PathText, to: &PathText) -> Result<(), DiskError>
        ensures told { Tells result (done (change_of_rename self.old from.now to.now)) }
        ensures made { OnOk result (self.new ≡ changed_by self.old (result_ok (change_of_rename self.old from.now to.now))) }
        ensures kept { OnErr result (self.new ≡ self.old) }
    {
        let source = self.movable(alloc, from)?;
        let target = self.replaceable(alloc, to)?;
        self.apply_rename(alloc, &source, &target)?;
        Ok(())
    }

    /// Removes a file, a link or an empty directory. On error nothing changes.
    pub fn remove(&mut self, alloc: Global, path: &PathText) -> Result<(), DiskError>
        ensures told { Tells result (done (change_of_remove self.old path.now)) }
        ensures made { OnOk result (self.new ≡ changed_by self.old (result_ok (change_of_remove self.old path.now))) }
        ensures kept { OnErr result (self.new ≡ self.old) }
    {
        let place = self.removable(alloc, path)?;
        self.apply_remove(&place)?;
        Ok(())
    }

    /// The change that `make_dir` would make, or why it would be refused.
    pub fn change_of_make_dir(&self, alloc: Global, path: &PathText) -> Result<Change, DiskError>
        ensures told { Tells result (change_of_make_dir self.now path.now) }
        ensures possible { IfOk result (λ change. is_possible_in self.now change ≡ true) }
    {
        let path = self.vacant(alloc, path)?;
        let dev = self.device_above(alloc, &path)?;
        Ok(Change::MakeDir { path, dev })
    }

    /// The change that `new_file` would make, or why it would be refused.
    pub fn change_of_new_file(&self, alloc: Global, path: &PathText) -> Result<Change, DiskError>
        ensures told { Tells result (change_of_new_file self.now path.now) }
        ensures possible { IfOk result (λ change. is_possible_in self.now change ≡ true) }
    {
        let path = self.vacant(alloc, path)?;
        let bytes = ByteList::new(alloc);
        Ok(Change::PutFile {
            path,
            time: 0,
            bytes,
        })
    }

    /// The change that `append` would make, or why it would be refused.
    pub fn change_of_append(
        &self,
        alloc: Global,
        path: &PathText,
        bytes: &ByteList,
    ) -> Result<Change, DiskError>
        ensures told { Tells result (change_of_append self.now path.now bytes.now) }
        ensures possible { IfOk result (λ change. is_possible_in self.now change ≡ true) }
    {
        let path = self.file_spot(alloc, path)?;
        let bytes = bytes.try_clone(alloc)?;
        Ok(Change::Append { path, bytes })
    }

    /// The change that `rename` would make, or why it would be refused.
    pub fn change_of_rename(
        &self,
        alloc: Global,
        from: &PathText,
        to: &PathText,
    ) -> Result<Change, DiskError>
        ensures told { Tells result (change_of_rename self.now from.now to.now) }
        ensures possible { IfOk result (λ change. is_possible_in self.now change ≡ true) }
    {
        let from = self.movable(alloc, from)?;
        let to = self.replaceable(alloc, to)?;
        Ok(Change::Rename { from, to })
    }

    /// The change that `remove` would make, or why it would be refused.
    pub fn change_of_remove(&self, alloc: Global, path: &PathText) -> Result<Change, DiskError>
        ensures told { Tells result (change_of_remove self.now path.now) }
        ensures possible { IfOk result (λ change. is_possible_in self.now change ≡ true) }
    {
        let path = self.removable(alloc, path)?;
        Ok(Change::Remove { path })
    }

    /// Where the last name of a path is, following links on its way.
    fn spot(&self, alloc: Global, path: &PathText) -> Result<PathText, DiskError>
        ensures told { Tells result (spot self.now path.now) }
    {
        let Some(front) = path.parent(alloc)? else {
            return Ok(PathText::root(alloc));
        };
        let place = self.place(alloc, &front, MAX_LINKS)?;
        if !self.stands_directory(&place) {
            return Err(DiskError::WrongKind);
        }
        Ok(moved_path(alloc, path, &front, &place)?)
    }

    /// The spot of a path where nothing is.
    fn vacant(&self, alloc: Global, path: &PathText) -> Result<PathText, DiskError>
        ensures told { Tells result (vacant self.now path.now) }
        ensures is_tree { OnOk result (IsTree self.now) }
    {
        let place = self.spot(alloc, path)?;
        match self.node(&place) {
            None => Ok(place),
            Some(_) => Err(DiskError::Exists),
        }
    }

    /// The spot of a file or a link.
    fn movable(&self, alloc: Global, path: &PathText) -> Result<PathText, DiskError>
        ensures told { Tells result (movable self.now path.now) }
    {
        let place = self.spot(alloc, path)?;
        match self.node(&place) {
            None => Err(DiskError::Absent),
            Some(node) if node.is_dir() => Err(DiskError::WrongKind),
            Some(_) => Ok(place),
        }
    }

    /// The spot of a path where no directory is.
    fn replaceable(&self, alloc: Global, path: &PathText) -> Result<PathText, DiskError>
        ensures told { Tells result (replaceable self.now path.now) }
        ensures is_tree { OnOk result (IsTree self.now) }
    {
        let place = self.spot(alloc, path)?;
        match self.node(&place) {
            Some(node) if node.is_dir() => Err(DiskError::WrongKind),
            _ => Ok(place),
        }
    }

    /// The spot of a file, a link or an empty directory.
    fn removable(&self, alloc: Global, path: &PathText) -> Result<PathText, DiskError>
        ensures told { Tells result (removable self.now path.now) }
        ensures is_tree { OnOk result (IsTree self.now) }
    {
        let place = self.spot(alloc, path)?;
        let Some(_) = self.node(&place) else {
            return Err(DiskError::Absent);
        };
        if has_names(&self.nodes, &place) {
            return Err(DiskError::NotEmpty);
        }
        if place.is_root() {
            return Err(DiskError::WrongKind);
        }
        Ok(place)
    }

    /// Where the file is that a path leads to, following links.
    pub(super) fn file_spot(&self, alloc: Global, path: &PathText) -> Result<PathText, DiskError>
        ensures told { Tells result (file_spot self.now path.now) }
        ensures is_tree { OnOk result (IsTree self.now) }
    {
        let place = self.place(alloc, path, MAX_LINKS)?;
        match self.node(&place) {
            Some(node) if node.is_file() => Ok(place),
            _ => Err(DiskError::WrongKind),
        }
    }

    /// The path of the node that a path leads to, following at most `links` links.
    pub(super) fn place(
        &self,
        alloc: Global,
        path: &PathText,
        links: u8,
    ) -> Result<PathText, DiskError>
        ensures told { Tells result (from_followed (path_of_place (followed_within links self.now true path.now))) }
    {
        match self.pass(alloc, path, true)? {
            Way::Reached(_) => Ok(path.try_clone(alloc)?),
            Way::Onward(onward) => {
                if links == 0 {
                    return Err(DiskError::LinkLoop);
                }
                self.place(alloc, &onward, links - 1)
            }
        }
    }
}
