//! The state of a world: its disk, its handles and cores, and the outcomes of its steps; and what each step does to it.
ghost use Rattle.std.specs.Prelude.{◌≡◌, ◌≢◌, ◌<◌, ◌^◌, ◌↔◌, ℕ, IsTrue, ◌++◌, ◌∷◌, [], List, IfOk, OnOk, length, None, Some};
ghost use Rattle.odb_disk.specs.MemDisk.{Volume};
ghost use Rattle.gix_odb_history.specs.Event.{Event};
ghost use Rattle.gix_odb_world.specs.Valid.{IsReason, why_not_idle};
ghost use Rattle.gix_odb_world.specs.Headline.{IsRun};
ghost use Rattle.gix_odb_world.specs.World.{Continues, Explains, IsExplained, handle_at};
ghost use Rattle.gix_odb_world.specs.Table.{HasOneMore, Notes, SetsHandle, phase_of_handle, shared_with};

use crate::handle::{BoxedHandle, Handle, HandleAt};
use crate::opening;
use crate::watch::watch_store;
use gix_odb::CallState;
use gix_odb_calls::{Call, IdPairs, Options, Outcome, PathList, Step, Why};
use gix_odb_events::View;
use gix_odb_history::cores::{joined, journals_of, removed};
use gix_odb_history::{ChangeMade, Did, KeptCore, OutcomeList, Record, RecordList, Run};
use gix_odb_watch::Shown;
use odb_base::NoMemory;
use odb_mem_disk::{MemDisk, PathText};
use std::alloc::Global;
use std::collections::BTreeMap;

mod handles;
mod outside;
mod reason;
mod turning;

/// A disk, the handles on it, the cores of their stores, what watched paths have shown, and the outcomes and records so far.
///
/// Within a step no events need lead to it: a core has its entry before the record says so, and a handle is taken out of
/// the table for its turn. So what holds of a world between two steps is a claim about `World`, and not about this type.
#[derive(Drop)]
pub struct Course {
    disk: MemDisk,
    handles: BTreeMap<u32, BoxedHandle>,
    cores: Vec<KeptCore>,
    shown: Shown,
    outcomes: OutcomeList,
    records: RecordList,
}

impl Course {
    /// Returns the state at which no step was made, and nothing is open.
    pub fn new(alloc: Global, disk: MemDisk) -> Course
        ensures explained { Explains disk [] result }
    {
        // The proof takes from this call that the disk shows a tree, each node of which lies in a directory: runs begin so.
        let _ = disk.tree();
        Course {
            disk,
            handles: BTreeMap::new(alloc),
            cores: Vec::new(alloc),
            shown: Shown::new(alloc),
            outcomes: OutcomeList::new(alloc),
            records: RecordList::new(alloc),
        }
    }

    /// Begins anew on the disk as it is now: the steps so far are forgotten.
    pub fn begin_anew(&mut self, alloc: Global)
        ensures explained { Explains self.new.disk [] self.new }
    {
        self.handles = BTreeMap::new(alloc);
        self.cores = Vec::new(alloc);
        self.shown = Shown::new(alloc);
        self.outcomes = OutcomeList::new(alloc);
        self.records = RecordList::new(alloc);
        // The proof takes from this call that the disk shows a tree, as a run's first disk does.
        let _ = self.disk.tree();
    }

    /// Returns the first reason why a step isn't valid now, or `None` where it is.
    pub fn why_not(&self, alloc: Global, step: &Step) -> Result<Option<Why>, NoMemory>
        requires explained { IsExplained self.now }
        ensures reason { IfOk result (λ why. (first : Volume) (events : List Event) → Explains first events self.now → IsReason first events step.now why) }
    {
        self.first_reason(alloc, step)
    }

    /// Returns the run of the steps so far. It is the run of every history that leads here.
    pub fn finish(self, alloc: Global) -> Result<Run, NoMemory>
        ensures run { IfOk result (λ run. (first : Volume) (events : List Event) → Explains first events self → IsRun first events run) }
    {
        let Course {
            disk,
            handles: _,
            cores,
            shown: _,
            outcomes,
            records,
        } = self;
        // The proof takes from this call that the count of steps fits in 64 bits, as that of a journal's entries does.
        let _ = records.len();
        match journals_of(alloc, cores) {
            Ok(journals) => Ok(Run {
                outcomes,
                records,
                disk,
                journals,
            }),
            Err(error) => {
                drop((disk, outcomes, records));
                Err(error)
            }
        }
    }

    /// Makes one step. Where memory runs out, nothing is promised of the state that is left.
    pub fn advance(&mut self, alloc: Global, step: &Step) -> Result<(), NoMemory>
        requires explained { IsExplained self.old }
        ensures continues { OnOk result (Continues self.old step.now self.new) }
        ensures noted { OnOk result (HasOneMore self.old self.new) }
    {
        match step {
            Step::Open {
                handle,
                path,
                folders,
                hash,
                replacements,
                options,
            } => self.open(alloc, *handle, path, folders, *hash, replacements, *options),
            Step::Clone { handle, from } => self.share(alloc, *handle, *from),
            Step::Close { handle } => self.close(alloc, *handle),
            Step::Never { handle } => self.freeze(*handle),
            Step::Ignore { handle } => self.ignore(*handle),
            Step::Start { handle, call } => self.start(alloc, *handle, call),
            Step::Turn { handle } => self.turn(alloc, *handle),
            Step::Disk(change) => self.change(alloc, change),
        }
    }

    /// Returns how many steps were made.
    pub fn count(&self) -> usize
        ensures count { result ≡ length self.now.outcomes }
    {
        self.outcomes.len()
    }

    /// Returns whether the last step was a turn after which its call goes on.
    pub fn is_pending(&self) -> bool
        ensures pending { (before : List Outcome) (outcome : Outcome) → self.now.outcomes ≡ before ++ outcome ∷ [] → IsTrue result ↔ (outcome ≡ Outcome.Pending) }
        ensures fits { length self.now.outcomes < 2 ^ 64 }
    {
        matches!(self.outcomes.as_slice(), [.., Outcome::Pending])
    }

    /// Returns the outcome of the last step, which is lent.
    pub fn last_outcome(&self) -> &Outcome
        requires some { self.now.outcomes ≢ [] }
        ensures last { (before : List Outcome) × (self.now.outcomes ≡ before ++ result.now ∷ []) }
    {
        let outcomes = self.outcomes.as_slice();
        &outcomes[outcomes.len() - 1]
    }

    /// Begins the opening of a store.
    fn open(
        &mut self,
        alloc: Global,
        number: u32,
        path: &PathText,
        folders: &PathList,
        hash: gix_hash::Kind,
        replacements: &IdPairs,
        options: Options,
    ) -> Result<(), NoMemory>
        requires explained { IsExplained self.old }
        ensures continues { OnOk result (Continues self.old (Step.Open number path.now folders.now hash replacements.now options) self.new) }
        ensures noted { OnOk result (HasOneMore self.old self.new) }
    {
        if let Some(why) = self.why_not_free(number) {
            return self.misuse(why);
        }
        let begun = opening::begun(alloc, path, folders, hash, replacements, options)?;
        let Some(opening) = begun else {
            return self.misuse(Why::BadOpen);
        };
        watch_store(alloc, &mut self.shown, self.disk.tree(), path, folders)?;
        let handle = Handle {
            core: 0,
            at: HandleAt::Opening(opening),
        };
        self.put(alloc, number, handle)?;
        self.note(Outcome::Applied, Did::Nothing, None)
    }

    /// Begins another handle on the store of an idle one.
    fn share(&mut self, alloc: Global, number: u32, from: u32) -> Result<(), NoMemory>
        requires explained { IsExplained self.old }
        ensures continues { OnOk result (Continues self.old (Step.Clone number from) self.new) }
        ensures noted { OnOk result (HasOneMore self.old self.new) }
    {
        if let Some(why) = self.why_not_free(number) {
            return self.misuse(why);
        }
        let core = match self.idle(from) {
            Ok(parent) => parent.core,
            Err(why) => return self.misuse(why),
        };
        let (did, view) = joined(alloc, &mut self.cores, core, number)?;
        self.put_shared(alloc, number, from, view)?;
        self.note(Outcome::Applied, did, None)
    }

    /// Puts a handle under a number, which shares the store of an idle one, with its modes and a snapshot of its own.
    fn put_shared(
        &mut self,
        alloc: Global,
        number: u32,
        from: u32,
        view: View,
    ) -> Result<(), NoMemory>
        requires idle { why_not_idle (phase_of_handle (handle_at self.old from)) ≡ None }
        ensures sets { OnOk result (SetsHandle self.old self.new number (shared_with view (handle_at self.old from))) }
    {
        let handle = match self.idle(from) {
            Ok(parent) => Handle {
                core: parent.core,
                at: HandleAt::Resting(parent.state.sharing(view)?),
            },
            Err(_) => unreachable!("the other handle is idle"),
        };
        self.put(alloc, number, handle)
    }

    /// Closes an idle handle: the core of its store removes it.
    fn close(&mut self, alloc: Global, number: u32) -> Result<(), NoMemory>
        requires explained { IsExplained self.old }
        ensures continues { OnOk result (Continues self.old (Step.Close number) self.new) }
        ensures noted { OnOk result (HasOneMore self.old self.new) }
    {
        let core = match self.idle(number) {
            Ok(handle) => handle.core,
            Err(why) => return self.misuse(why),
        };
        let did = removed(alloc, &mut self.cores, core, number);
        self.remove(number);
        self.note(Outcome::Applied, did, None)
    }

    /// Lets an idle handle answer from the list of its store as it is from now on.
    fn freeze(&mut self, number: u32) -> Result<(), NoMemory>
        ensures continues { OnOk result (Continues self.old (Step.Never number) self.new) }
        ensures noted { OnOk result (HasOneMore self.old self.new) }
    {
        if let Some(why) = self.why_not_idle(number) {
            return self.misuse(why);
        }
        self.set_frozen(number);
        self.note(Outcome::Applied, Did::Nothing, None)
    }

    /// Lets an idle handle ignore replacements from now on.
    fn ignore(&mut self, number: u32) -> Result<(), NoMemory>
        ensures continues { OnOk result (Continues self.old (Step.Ignore number) self.new) }
        ensures noted { OnOk result (HasOneMore self.old self.new) }
    {
        if let Some(why) = self.why_not_idle(number) {
            return self.misuse(why);
        }
        self.set_ignoring(number);
        self.note(Outcome::Applied, Did::Nothing, None)
    }

    /// Begins a call on an idle handle.
    fn start(&mut self, alloc: Global, number: u32, call: &Call) -> Result<(), NoMemory>
        ensures continues { OnOk result (Continues self.old (Step.Start number call.now) self.new) }
        ensures noted { OnOk result (HasOneMore self.old self.new) }
    {
        let handle = match self.ready(number, call) {
            Ok(handle) => handle,
            Err(why) => return self.misuse(why),
        };
        let call = CallState::start(alloc, handle.state, call.try_clone(alloc)?)?;
        self.set_call(number, call);
        self.note(Outcome::Applied, Did::Nothing, None)
    }

    fn misuse(&mut self, why: Why) -> Result<(), NoMemory>
        ensures notes { OnOk result (Notes self.old self.new (Outcome.Misuse why) Did.Nothing None) }
    {
        self.note(Outcome::Misuse(why), Did::Nothing, None)
    }

    /// Adds the outcome and the record of a step.
    fn note(&mut self, outcome: Outcome, did: Did, change: ChangeMade) -> Result<(), NoMemory>
        ensures notes { OnOk result (Notes self.old self.new outcome did change) }
    {
        let faults = self.disk.faults();
        self.records.push(Record {
            did,
            change,
            faults,
        })?;
        self.outcomes.push(outcome)?;
        Ok(())
    }
}
