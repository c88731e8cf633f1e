//! Which changes are possible in a tree.
ghost use Rattle.std.specs.Prelude.{◌≡◌};
ghost use Rattle.odb_disk.specs.TreeCalls.{impossible_by};

use super::Tree;
use crate::node_map::has_names;
use crate::{NoMemory, PathText};
use odb_disk::{Change, DiskError, Impossible};
use std::alloc::Global;

impl Tree {
    ghost use Rattle.std.specs.Prelude.{◌≡◌, true, Ok, IfOk};
    ghost use Rattle.odb_disk.specs.Tree.{node_at};
    ghost use Rattle.odb_disk.specs.Tree.Follow.{followed};
    ghost use Rattle.odb_disk.specs.Tree.Change.{is_possible_in, can_move, is_file_place};
    ghost use Rattle.odb_disk.specs.Tree.Write.{file_spot};

    /// Whether a change is possible now.
    #[tactic(auto, unfolding(odb_disk::specs::Tree::Change::is_possible_in))]
    pub fn is_possible(&self, alloc: Global, change: &Change) -> Result<bool, NoMemory>
        ensures possible { IfOk result (λ possible. possible ≡ is_possible_in self.now change.now) }
    {
        match change {
            Change::PutFile { path, .. } => Ok(
                self.lies_in_directory(alloc, path)? && !self.stands_directory(path),
            ),
            Change::MakeDir { path, .. } => Ok(
                self.lies_in_directory(alloc, path)? && self.node(path).is_none(),
            ),
            Change::PutLink { path, .. } => Ok(
                self.lies_in_directory(alloc, path)? && !self.stands_directory(path),
            ),
            Change::Rename { from, to } => self.can_rename(alloc, from, to),
            Change::Append { path, .. } => self.leads_to_file(alloc, path),
            Change::Remove { path } => Ok(self.can_remove(path)),
            Change::SetTime { path, .. } => Ok(self.stands_file(path)),
        }
    }

    /// Whether what is at a path can be moved to another one.
    #[tactic(auto, unfolding(odb_disk::specs::Tree::Change::is_possible_in))]
    fn can_rename(&self, alloc: Global, from: &PathText, to: &PathText) -> Result<bool, NoMemory>
        ensures can { IfOk result (λ can. can ≡ is_possible_in self.now (Change.Rename from.now to.now)) }
    {
        if !self.lies_in_directory(alloc, to)? {
            return Ok(false);
        }
        Ok(self.can_move(from, to))
    }

    /// Whether what is at a path can be moved to another one, which is in a directory.
    fn can_move(&self, from: &PathText, to: &PathText) -> bool
        ensures can { result ≡ can_move self.now from.now to.now (node_at self.now from.now) }
    {
        match self.node(from) {
            None => false,
            Some(node) if node.is_dir() => self.node(to).is_none() && !to.starts_with(from),
            Some(_) => !self.stands_directory(to),
        }
    }

    /// Whether a path leads to a file, following links.
    fn leads_to_file(&self, alloc: Global, path: &PathText) -> Result<bool, NoMemory>
        ensures leads { IfOk result (λ leads. leads ≡ is_file_place (followed self.now true path.now)) }
    {
        match self.file_spot(alloc, path) {
            Ok(_) => Ok(true),
            Err(error) => match impossible_by(error) {
                Impossible::Impossible => Ok(false),
                Impossible::NoMemory => Err(NoMemory),
            },
        }
    }

    /// Where the file is that a path leads to, following links.
    pub(super) fn file_led_to(&self, alloc: Global, path: &PathText) -> Result<PathText, NoMemory>
        requires leads { is_file_place (followed self.now true path.now) ≡ true }
        ensures place { IfOk result (λ place. file_spot self.now path.now ≡ Ok place) }
    {
        match self.file_spot(alloc, path) {
            Ok(place) => Ok(place),
            Err(error) => match impossible_by(error) {
                Impossible::Impossible => unreachable!("the path leads to a file"),
                Impossible::NoMemory => Err(NoMemory),
            },
        }
    }

    /// Whether a node without names in it is at a path. The root is never removed.
    fn can_remove(&self, path: &PathText) -> bool
        ensures can { result ≡ is_possible_in self.now (Change.Remove path.now) }
    {
        if path.is_root() {
            return false;
        }
        let Some(_) = self.node(path) else {
            return false;
        };
        !has_names(&self.nodes, path)
    }
}

/// Why a change isn't made, by the error of a call that follows its path.
fn impossible_by(error: DiskError) -> Impossible
    ensures cause { result ≡ impossible_by error }
{
    match error {
        DiskError::NoMemory => Impossible::NoMemory,
        _ => Impossible::Impossible,
    }
}
