//! The result and the answer of an event, before anything changes.
ghost use Rattle.std.specs.Prelude.{◌≡◌, IfOk};
ghost use Rattle.gix_odb_core.specs.State.{IsPlan, view_behind};
ghost use Rattle.gix_odb_core.specs.Turn.{answer_with};

use crate::shape::Shelf;
use crate::turn::{Told, Turn, answer};
use gix_odb_events::{Effect, Refusal, View};
use odb_base::NoMemory;
use std::alloc::Global;

/// The result and the answer of an event: once there is memory for all of it, nothing can refuse it.
#[derive(Drop)]
pub(crate) struct Plan {
    pub shelf: Option<Shelf>,
    pub view: View,
    /// The answer as the journal keeps it.
    pub kept: Result<Effect, Refusal>,
    /// The answer that is returned.
    pub given: Result<Effect, Refusal>,
}

/// The view after an event that leaves this.
fn view_behind(
    alloc: Global,
    view: &View,
    shelf: &Option<Shelf>,
    entry: u64,
) -> Result<View, NoMemory>
    ensures view { IfOk result (λ behind. behind ≡ view_behind view.now shelf.now entry) }
{
    match shelf {
        None => view.at(entry),
        Some(shelf) => shelf.view(alloc, entry),
    }
}

/// Two copies of an answer.
#[derive(Drop)]
struct Answers {
    /// The answer as the journal keeps it.
    kept: Result<Effect, Refusal>,
    /// The answer that is returned.
    given: Result<Effect, Refusal>,
}

/// An answer twice, each with a copy of the view if it has one.
fn answer_twice(told: &Told, view: &View) -> Result<Answers, NoMemory>
    ensures kept { IfOk result (λ answers. answers.kept ≡ answer_with told.now view.now) }
    ensures given { IfOk result (λ answers. answers.given ≡ answer_with told.now view.now) }
{
    let kept = answer(told, view)?;
    match answer(told, view) {
        Ok(given) => Ok(Answers { kept, given }),
        Err(lack) => {
            drop(kept);
            Err(lack)
        }
    }
}

/// The plan of a turn with this view and these answers.
fn plan_of(turn: Turn, view: View, answers: Answers) -> Plan
    ensures plan { result ≡ record { shelf = turn.shelf; view = view; kept = answers.kept; given = answers.given } }
{
    let Turn { shelf, told } = turn;
    drop(told);
    let Answers { kept, given } = answers;
    Plan {
        shelf,
        view,
        kept,
        given,
    }
}

/// The view after a turn, and its answer twice.
fn shown_with(
    alloc: Global,
    view: &View,
    turn: &Turn,
    entry: u64,
) -> Result<(View, Answers), NoMemory>
    ensures view { IfOk result (λ shown. shown.0 ≡ view_behind view.now turn.now.shelf entry) }
    ensures kept { IfOk result (λ shown. shown.1.kept ≡ answer_with turn.now.told (view_behind view.now turn.now.shelf entry)) }
    ensures given { IfOk result (λ shown. shown.1.given ≡ answer_with turn.now.told (view_behind view.now turn.now.shelf entry)) }
{
    let view = view_behind(alloc, view, &turn.shelf, entry)?;
    match answer_twice(&turn.told, &view) {
        Ok(answers) => Ok((view, answers)),
        Err(lack) => {
            drop(view);
            Err(lack)
        }
    }
}

/// The plan of a turn whose entry has this number.
pub(crate) fn planned(alloc: Global, view: &View, turn: Turn, entry: u64) -> Result<Plan, NoMemory>
    ensures plan { IfOk result (λ plan. IsPlan view.now turn entry plan) }
{
    match shown_with(alloc, view, &turn, entry) {
        Ok((view, answers)) => Ok(plan_of(turn, view, answers)),
        Err(lack) => {
            drop(turn);
            Err(lack)
        }
    }
}
