//! What the watched paths of folders have shown.
ghost use Rattle.std.specs.Prelude.{◌≡◌, ◌↔◌, IsTrue, true, IfOk, OnOk};
ghost use Rattle.std.specs.FinSet as set;
ghost use Rattle.odb_disk.specs.Tree.{Tree as TreeValue};
ghost use Rattle.odb_disk.specs.Tree.Change.{changed, is_possible_in};
ghost use Rattle.gix_odb_watch.specs.Kept.{Fits, IsSecond, Notes, nothing_kept};
ghost use Rattle.gix_odb_watch.specs.Revealed.{IsRevealed, Learns};

use crate::contents::Contents;
use crate::linked::add_all;
use crate::revealed::{Revealed, seen, seen_now};
use crate::sight::Sight;
use crate::touched::touched_by;
use odb_base::{NoMemory, PathText};
use odb_disk::Change;
use odb_mem_disk::Tree;
use std::alloc::Global;
use std::collections::BTreeSet;
use std::marker::Model;

/// What the indices, packs and multi-pack indices of watched folders have shown.
#[derive(Drop)]
pub struct Shown {
    folders: BTreeSet<PathText>,
    /// The folders in which a watched path follows a link, or did.
    linked: BTreeSet<PathText>,
    contents: Contents,
}

impl Model for Shown {
    ghost use Rattle.std.specs.FinSet as set;
    ghost use Rattle.gix_odb_watch.specs.Kept.{Kept, coded_kept};

    ghost Value = { Kept };

    ghost coded = { coded_kept };

    ghost view = { λ s. record { folders = set.from_list s.folders.keys; linked = set.from_list s.linked.keys; contents = s.contents } };
}

impl Shown {
    /// Returns a `Shown` that watches no folder.
    pub fn new(alloc: Global) -> Shown
        ensures empty { result ≡ nothing_kept }
    {
        Shown {
            folders: BTreeSet::new(alloc),
            linked: BTreeSet::new(alloc),
            contents: Contents::new(alloc),
        }
    }

    /// Watches a folder from now on, and notes what the tree shows in it.
    pub fn watch(&mut self, alloc: Global, folder: &PathText, tree: &Tree) -> Result<(), NoMemory>
        requires fits { Fits self.old tree.now }
        ensures notes { OnOk result (Notes self.old (set.insert self.old.folders folder.now) tree.now self.new) }
        ensures fits { OnOk result (Fits self.new tree.now) }
    {
        if self.folders.contains(folder) {
            return Ok(());
        }
        let revealed = seen_now(alloc, folder, tree)?;
        let key = folder.try_clone(alloc)?;
        self.folders.insert(key)?;
        self.learn(revealed)
    }

    /// Returns what a change would make watched paths show, except what they show already.
    pub fn revealed(
        &self,
        alloc: Global,
        tree: &Tree,
        change: &Change,
    ) -> Result<Revealed, NoMemory>
        requires fits { Fits self.now tree.now }
        requires possible { is_possible_in tree.now change.now ≡ true }
        ensures revealed { IfOk result (IsRevealed self.now.folders tree.now (changed tree.now change.now)) }
    {
        let touched = touched_by(alloc, &self.folders, &self.linked, tree, change)?;
        if touched.is_empty() {
            return Ok(Revealed::nothing(alloc));
        }
        let after = Sight::after(alloc, tree, change)?;
        seen(alloc, &after, touched)
    }

    /// Returns whether a path would show a second content among what a change would make them show.
    pub fn has_second(&self, revealed: &Revealed) -> bool
        ensures second { (before after : TreeValue) → Fits self.now before → IsRevealed self.now.folders before after revealed.now → IsTrue result ↔ IsSecond self.now after }
    {
        self.contents.differs_from_one(&revealed.files)
    }

    /// Keeps what a change made watched paths show, in which there is no second content.
    #[tactic(auto, using(crate::proofs::KeptLemmas::keep_notes, crate::proofs::KeptLemmas::keep_fits))]
    pub fn keep(&mut self, revealed: Revealed) -> Result<(), NoMemory>
        ensures notes { OnOk result ((before after : TreeValue) → Fits self.old before → IsRevealed self.old.folders before after revealed → Notes self.old self.old.folders after self.new) }
        ensures fits { OnOk result ((before after : TreeValue) → Fits self.old before → IsRevealed self.old.folders before after revealed → (IsSecond self.old after → ⊥) → Fits self.new after) }
    {
        self.learn(revealed)
    }

    /// Keeps what is shown besides what was, and the folders that are linked.
    fn learn(&mut self, revealed: Revealed) -> Result<(), NoMemory>
        ensures learns { OnOk result (Learns self.old revealed self.new) }
    {
        let Revealed { files, linked } = revealed;
        add_all(&mut self.linked, linked)?;
        self.contents.keep_all(files)
    }
}
