//! The steps of a play. Those of its lines are lent.
ghost use Rattle.std.specs.Prelude.{◌≡◌, ◌∷◌, ◌++◌, [], IfOk, IfSome, OnOk, replicate};
ghost use Rattle.gix_odb_world.specs.StepList.{steps_in, steps_of};

use gix_odb_calls::Step;
use odb_base::{NoMemory, Sequence};
use std::alloc::Global;
use std::marker::Model;

/// Steps that were made, which contracts see as their list.
///
/// Those of lines are lent. The turns of one handle that follow each other are one entry with their count, so that a line
/// that finishes a call takes no more room the more turns it stands for.
#[derive(Drop)]
pub struct StepList<'a> {
    entries: Vec<Entry<'a>>,
}

/// A step, or several turns of one handle.
#[derive(Clone, Copy)]
pub enum Entry<'a> {
    Lent(&'a Step),
    Turns { handle: u32, count: u64 },
}

impl<'a> Model for StepList<'a> {
    ghost use Rattle.std.specs.Prelude.{List};
    ghost use Rattle.std.specs.Coded.{coded_list};
    ghost use Rattle.gix_odb_calls.specs.declared.step.Step.{Step};
    ghost use Rattle.gix_odb_calls.specs.contracts.step.Step as step_type;

    ghost Value = { List Step };

    ghost coded = { coded_list step_type.the_row.coded };

    ghost use Rattle.gix_odb_world.specs.StepList.{steps_of};

    ghost view = { λ list. steps_of list.entries.items };
}

impl<'a> Entry<'a> {
    /// Returns the entry with one more turn of a handle, where it has turns of that handle.
    #[tactic(auto, using(crate::proofs::StepListLemmas::turn_added))]
    fn with_turn(self, handle: u32) -> Option<Entry<'a>>
        ensures longer { IfSome result (λ longer. steps_in longer ≡ steps_in self.entry ++ Step.Turn handle ∷ []) }
    {
        match self {
            Entry::Turns { handle: own, count } if own == handle && count < u64::MAX => {
                let count = count + 1;
                Some(Entry::Turns { handle, count })
            }
            _ => None,
        }
    }
}

impl<'a> StepList<'a> {
    /// Returns an empty list.
    pub fn new(alloc: Global) -> StepList<'a>
        ensures empty { result ≡ [] }
    {
        StepList {
            entries: Vec::new(alloc),
        }
    }

    /// Returns a copy of the steps.
    pub fn copied(&self, alloc: Global) -> Result<Sequence<Step>, NoMemory>
        ensures copied { IfOk result (λ steps. steps ≡ self.now) }
    {
        copies(alloc, &self.entries)
    }

    /// Adds a step, which is lent.
    pub(crate) fn push(&mut self, step: &'a Step) -> Result<(), NoMemory>
        ensures ok { OnOk result (self.new ≡ self.old ++ step.now ∷ []) }
    {
        self.add(Entry::Lent(step))
    }

    /// Adds a turn of a handle.
    #[tactic(auto, using(crate::proofs::StepListLemmas::entry_added))]
    pub(crate) fn push_turn(&mut self, handle: u32) -> Result<(), NoMemory>
        ensures ok { OnOk result (self.new ≡ self.old ++ Step.Turn handle ∷ []) }
    {
        match self.entries.pop() {
            None => self.add(Entry::Turns { handle, count: 1 }),
            Some(last) => self.add_turn(last, handle),
        }
    }

    /// Adds an entry that was taken out, with a turn of a handle after it.
    fn add_turn(&mut self, last: Entry<'a>, handle: u32) -> Result<(), NoMemory>
        ensures ok { OnOk result (self.new ≡ self.old ++ (steps_in last.entry ++ Step.Turn handle ∷ [])) }
    {
        match last.with_turn(handle) {
            Some(longer) => self.add(longer),
            None => {
                self.add(last)?;
                self.add(Entry::Turns { handle, count: 1 })
            }
        }
    }

    /// Adds an entry.
    #[tactic(auto, using(crate::proofs::StepListLemmas::entry_added))]
    fn add(&mut self, entry: Entry<'a>) -> Result<(), NoMemory>
        ensures ok { OnOk result (self.new ≡ self.old ++ steps_in entry.entry) }
    {
        self.entries.push(entry)?;
        Ok(())
    }
}

/// Returns copies of the steps of entries.
#[tactic(auto, using(crate::proofs::StepListLemmas::entry_added))]
fn copies(alloc: Global, entries: &[Entry<'_>]) -> Result<Sequence<Step>, NoMemory>
    ensures copied { IfOk result (λ steps. steps ≡ steps_of entries.now) }
{
    let mut steps = Sequence::new(alloc);
    for entry in entries {
        put(alloc, &mut steps, *entry)?;
    }
    Ok(steps)
}

/// Adds copies of the steps of an entry.
fn put(alloc: Global, steps: &mut Sequence<Step>, entry: Entry<'_>) -> Result<(), NoMemory>
    ensures ok { OnOk result (steps.new ≡ steps.old ++ steps_in entry.entry) }
{
    match entry {
        Entry::Lent(step) => Ok(steps.push(step.try_clone(alloc)?)?),
        Entry::Turns { handle, count } => put_turns(steps, handle, count),
    }
}

/// Adds so many turns of a handle.
#[tactic(auto, using(crate::proofs::StepListLemmas::turn_added))]
fn put_turns(steps: &mut Sequence<Step>, handle: u32, count: u64) -> Result<(), NoMemory>
    ensures ok { OnOk result (steps.new ≡ steps.old ++ replicate count (Step.Turn handle)) }
{
    for _ in 0..count {
        steps.push(Step::Turn { handle })?;
    }
    Ok(())
}
