//! What loading the next index leads to.
ghost use Rattle.std.specs.Prelude.{◌≡◌, IfOk};
ghost use Rattle.gix_odb_search.specs.TryOrder.{after_load, at_search, noting};
ghost use Rattle.gix_odb_search.specs.Search.{tried};

use super::{Ahead, Stage, Tried, at, at_search, seek};
use crate::goal::Goal;
use crate::index_loader::LoadStep;
use crate::search::Notes;
use gix_odb_events::{PassWhy, SnapshotIndex};
use odb_base::NoMemory;
use std::alloc::Global;

impl Notes {
    /// Returns the notes, with why an index was passed over.
    fn noting(self, why: PassWhy) -> Notes
        ensures noted { result ≡ noting self why }
    {
        let Notes { failed, absent } = self;
        Notes {
            failed: failed || why == PassWhy::Failed,
            absent,
        }
    }
}

impl Ahead {
    fn noting(self, why: PassWhy) -> Ahead
        ensures noted { result ≡ record self { notes = noting self.notes why } }
    {
        let Ahead {
            indices,
            todo,
            notes,
        } = self;
        Ahead {
            indices,
            todo,
            notes: notes.noting(why),
        }
    }
}

/// Continues the search in an index that was loaded.
fn index_loaded(
    alloc: Global,
    goal: Goal,
    ahead: Ahead,
    index: SnapshotIndex,
) -> Result<Tried, NoMemory>
    ensures sought { IfOk result (λ end. end ≡ at_search goal ahead (tried goal ahead.notes.absent index)) }
{
    let found = goal.tried(alloc, &ahead.notes, index.lent());
    drop(index);
    match found {
        Ok(found) => at_search(alloc, goal, ahead, found),
        Err(error) => {
            drop(ahead);
            Err(error)
        }
    }
}

/// Returns the step after a step of the loading.
pub(super) fn after_load(
    alloc: Global,
    goal: Goal,
    ahead: Ahead,
    step: LoadStep,
) -> Result<Tried, NoMemory>
    ensures after { IfOk result (λ end. end ≡ after_load goal ahead step) }
{
    match step {
        LoadStep::More(loader) => Ok(at(goal, ahead, Stage::Loading(loader))),
        LoadStep::Loaded(index) => index_loaded(alloc, goal, ahead, index),
        LoadStep::Missed(why) => seek(alloc, goal, ahead.noting(why)),
        LoadStep::Broken(refusal) => {
            drop(ahead);
            Ok(Tried::Broken(refusal))
        }
    }
}
