//! Calls that are given as values, made on a disk in memory.
ghost use Rattle.std.specs.Prelude.{◌≡◌, Result, IfOk};
ghost use Rattle.std.specs.Result.{result_ok};
ghost use Rattle.odb_disk.specs.Tree.Write.{Refusal};
ghost use Rattle.odb_disk.specs.Answers.{Tells};
ghost use Rattle.odb_disk.specs.declared.change.Change.{Change as ChangeValue};
ghost use Rattle.odb_disk.specs.Ask.{change_of_ask, ran_out};

use crate::{Change, DiskError, MemDisk, NoMemory, Tree};
use odb_disk::{DiskAnswer, DiskAsk};
use std::alloc::Global;

impl MemDisk {
    ghost use Rattle.std.specs.Prelude.{OnOk, OnErr};
    ghost use Rattle.odb_disk.specs.Ask.{answer_now, after_ask, after_count};

    /// Makes a call that is given as a value. Out of memory is an error, and no answer.
    pub fn carry_out(&mut self, alloc: Global, ask: &DiskAsk) -> Result<DiskAnswer, NoMemory>
        ensures answered { IfOk result (λ answer. answer ≡ answer_now self.old ask.now) }
        ensures made { OnOk result (self.new ≡ after_ask self.old ask.now) }
        ensures kept { OnErr result (self.new ≡ after_count self.old ask.now) }
    {
        let answer = ask.carry_out(alloc, self);
        if ran_out(&answer) {
            return Err(NoMemory);
        }
        Ok(answer)
    }
}

/// The change that a call would make in a tree, if it would make one.
#[tactic(auto, unfolding(odb_disk::specs::Ask::change_of_ask))]
pub(crate) fn change_of(
    alloc: Global,
    tree: &Tree,
    ask: &DiskAsk,
) -> Result<Option<Change>, NoMemory>
    ensures change { IfOk result (λ change. change ≡ change_of_ask tree.now ask.now) }
{
    match ask {
        DiskAsk::Look { .. } | DiskAsk::Read { .. } => Ok(None),
        DiskAsk::OpenDir { .. } | DiskAsk::NextEntry { .. } | DiskAsk::CloseDir { .. } => Ok(None),
        DiskAsk::MakeDir { path } => told_change(tree.change_of_make_dir(alloc, path)),
        DiskAsk::NewFile { path } => told_change(tree.change_of_new_file(alloc, path)),
        DiskAsk::Append { path, bytes } => told_change(tree.change_of_append(alloc, path, bytes)),
        DiskAsk::Rename { from, to } => told_change(tree.change_of_rename(alloc, from, to)),
        DiskAsk::Remove { path } => told_change(tree.change_of_remove(alloc, path)),
    }
}

/// The change that a call would make, by what the tree says of it.
fn told_change(told: Result<Change, DiskError>) -> Result<Option<Change>, NoMemory>
    ensures change { (told_by_tree : Result ChangeValue Refusal) → Tells told told_by_tree → IfOk result (λ change. change ≡ result_ok told_by_tree) }
{
    match told {
        Ok(change) => Ok(Some(change)),
        Err(DiskError::NoMemory) => Err(NoMemory),
        Err(_) => Ok(None),
    }
}

/// Whether memory ran out in a call.
fn ran_out(answer: &DiskAnswer) -> bool
    ensures ran_out { result ≡ ran_out answer.now }
{
    matches!(answer, DiskAnswer::Refused(DiskError::NoMemory))
}
