//! The record of a step, and a whole run.
ghost use Rattle.std.specs.Prelude.{◌≡◌, IfOk, [], unwrap_or};
ghost use Rattle.std.specs.Option.{option_map};
ghost use Rattle.gix_odb_history.specs.PathRecorded.{path_recorded};
ghost use Rattle.gix_odb_history.specs.Run.{did_of};

use crate::cores::JournalList;
use gix_odb_calls::Outcome;
use odb_base::{Boxed, NoMemory, PathText, Sequence};
use odb_disk::{Change, DiskAnswer, DiskAsk, DiskError, Op};
use odb_mem_disk::MemDisk;
use std::alloc::Global;

/// The effect of a step besides its outcome.
#[derive(Drop)]
pub enum Did {
    Nothing,
    /// One call of the disk, at a path; it failed if its number was listed. The path is boxed, since few steps have one.
    Disk {
        op: Op,
        path: Boxed<PathText>,
        failed: bool,
    },
    /// One event of the core of a store, as the number of its entry in the core's journal. Stores are numbered from
    /// 0, in the order in which they were opened, and entries from 1.
    Core {
        store: u64,
        entry: u64,
    },
}

impl Did {
    /// The effect of a turn with a call of the disk. `opened` is the path with which its stream was opened, if any.
    pub fn of(
        alloc: Global,
        opened: Option<&PathText>,
        ask: &DiskAsk,
        answer: &DiskAnswer,
    ) -> Result<Did, NoMemory>
        ensures did { IfOk result (λ did. did ≡ did_of (option_map (λ path. path.now) opened.entry) ask.now answer.now) }
    {
        let path = path_recorded(alloc, opened, ask)?;
        Ok(Did::Disk {
            op: ask.op(),
            path: Boxed::new(alloc, path)?,
            failed: matches!(answer, DiskAnswer::Refused(DiskError::Failed)),
        })
    }
}

/// The path in the record of a call: the path of the call, or the one with which its stream was opened.
fn path_recorded(
    alloc: Global,
    opened: Option<&PathText>,
    ask: &DiskAsk,
) -> Result<PathText, NoMemory>
    ensures path { IfOk result (λ path. path ≡ path_recorded (option_map (λ path. path.now) opened.entry) ask.now) }
{
    match ask.path() {
        Some(path) => path.try_clone(alloc),
        None => path_or_root(alloc, opened),
    }
}

fn path_or_root(alloc: Global, path: Option<&PathText>) -> Result<PathText, NoMemory>
    ensures path { IfOk result (λ copy. copy ≡ unwrap_or (option_map (λ kept. kept.now) path.entry) []) }
{
    match path {
        Some(path) => path.try_clone(alloc),
        None => Ok(PathText::root(alloc)),
    }
}

/// The change of the tree that a step made, if it made one. It is boxed, since most steps make none.
pub type ChangeMade = Option<Boxed<Change>>;

/// The record of a step.
#[derive(Drop)]
pub struct Record {
    pub did: Did,
    /// The change of the tree, if the step made one: another program's, or that of a turn's call of the disk.
    pub change: ChangeMade,
    /// The disk's count of faults after the step.
    pub faults: u64,
}

/// A change in the form of a record, if there is one.
pub fn boxed_change(alloc: Global, change: Option<Change>) -> Result<ChangeMade, NoMemory>
    ensures same { IfOk result (λ boxed. boxed ≡ change) }
{
    match change {
        None => Ok(None),
        Some(change) => {
            let boxed = Boxed::new(alloc, change)?;
            Ok(Some(boxed))
        }
    }
}

/// A copy of a change, in the form of a record.
pub fn copy_of_change(alloc: Global, change: &Change) -> Result<Boxed<Change>, NoMemory>
    ensures copy { IfOk result (λ copy. copy ≡ change.now) }
{
    let copy = change.try_clone(alloc)?;
    Ok(Boxed::new(alloc, copy)?)
}

/// The outcomes of a run, one for each step.
pub type OutcomeList = Sequence<Outcome>;

/// The records of a run, one for each step.
pub type RecordList = Sequence<Record>;

/// A whole run: the outcome of each step, and the disk and the journals of the stores' cores after the last one.
#[derive(Drop)]
pub struct Run {
    pub outcomes: OutcomeList,
    pub records: RecordList,
    pub disk: MemDisk,
    pub journals: JournalList,
}
