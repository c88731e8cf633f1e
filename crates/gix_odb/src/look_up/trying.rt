//! The indices of a list are tried.
ghost use Rattle.std.specs.Prelude.{◌≡◌, IfOk, []};
ghost use Rattle.gix_odb_events.specs.Asks.{IsAnswerTo};
ghost use Rattle.gix_odb_search.specs.TryOrder as tries;
ghost use Rattle.gix_odb.specs.LookUpOrder.{setting_of};
ghost use Rattle.gix_odb.specs.LookUpOrder as order;

use super::listing::after_core_list;
use super::loose::loose_from;
use super::replies::{find_error, load_refused, reply_found};
use super::{LookHead, LookStage, LookUp, Part, Setting, at};
use crate::of_refusal;
use gix_odb_calls::{CallError, Reply};
use gix_odb_events::{Answer, TodoRest, View};
use gix_odb_search::{Goal, Notes, Tried, Trier};
use odb_base::NoMemory;
use std::alloc::Global;

impl LookHead {
    fn goal(self, setting: &Setting<'_>) -> Goal
        ensures goal { result ≡ order.goal_of (setting_of setting.now) self }
    {
        Goal {
            id: self.id,
            want: self.want,
            limit: setting.parts.alloc_limit_bytes,
        }
    }
}

/// Tries the list that a view shows, the loaded indices first.
pub(super) fn try_view(
    alloc: Global,
    setting: &Setting<'_>,
    head: LookHead,
    part: Part,
    view: &View,
    notes: Notes,
) -> Result<LookStage, NoMemory>
    ensures tries { IfOk result (λ stage. stage ≡ order.try_view (setting_of setting.now) head part view.now view.now.todo notes) }
{
    let todo = view.todo.rest()?;
    try_lists(alloc, setting, head, part, view, todo, notes)
}

/// Tries the loaded indices of the handle's snapshot.
pub(super) fn try_snapshot(
    alloc: Global,
    setting: &Setting<'_>,
    head: LookHead,
    view: &View,
    notes: Notes,
) -> Result<LookStage, NoMemory>
    ensures tries { IfOk result (λ stage. stage ≡ order.try_view (setting_of setting.now) head Part.Snapshot view.now [] notes) }
{
    let none = view.todo.end()?;
    try_lists(alloc, setting, head, Part::Snapshot, view, none, notes)
}

fn try_lists(
    alloc: Global,
    setting: &Setting<'_>,
    head: LookHead,
    part: Part,
    view: &View,
    todo: TodoRest,
    notes: Notes,
) -> Result<LookStage, NoMemory>
    ensures tries { IfOk result (λ stage. stage ≡ order.try_view (setting_of setting.now) head part view.now todo notes) }
{
    let indices = view.snapshot.indices.rest()?;
    let tried = Trier::start(alloc, head.goal(setting), indices, todo, notes)?;
    by_tried(alloc, setting, head, part, tried)
}

/// Returns the stage after an answer while the indices of a list are tried.
pub(super) fn by_trier(
    alloc: Global,
    setting: &Setting<'_>,
    head: LookHead,
    trier: Trier,
    part: Part,
    answer: Answer,
) -> Result<LookUp, NoMemory>
    requires suits { IsAnswerTo (tries.ask_of trier) answer }
    ensures by { IfOk result (λ look. look ≡ order.at head (order.by_tried (setting_of setting.now) head part (order.trier_fed trier answer))) }
{
    let tried = trier.feed(alloc, answer)?;
    Ok(at(head, by_tried(alloc, setting, head, part, tried)?))
}

/// Returns the stage after a step of trying.
fn by_tried(
    alloc: Global,
    setting: &Setting<'_>,
    head: LookHead,
    part: Part,
    tried: Tried,
) -> Result<LookStage, NoMemory>
    ensures by { IfOk result (λ stage. stage ≡ order.by_tried (setting_of setting.now) head part tried) }
{
    match tried {
        Tried::More(trier) => Ok(LookStage::Trying { trier, part }),
        Tried::Hit(found) => Ok(LookStage::Done(reply_found(found))),
        Tried::Missed(notes) => after_list(alloc, setting, head, part, notes),
        Tried::Bad(error) => Ok(LookStage::Done(Reply::Refused(CallError::Find(find_error(
            error,
        ))))),
        Tried::Broken(refusal) => Ok(LookStage::Done(load_refused(of_refusal(refusal)))),
    }
}

/// Returns the stage after the indices of a list.
fn after_list(
    alloc: Global,
    setting: &Setting<'_>,
    head: LookHead,
    part: Part,
    notes: Notes,
) -> Result<LookStage, NoMemory>
    ensures after { IfOk result (λ stage. stage ≡ order.after_list (setting_of setting.now) head part notes) }
{
    match part {
        Part::List {
            list_no,
            loose: false,
        } => after_core_list(alloc, setting, head, list_no, notes),
        part => loose_from(alloc, setting, head, part, notes),
    }
}
