//! The list of the core is read, or brought up to date.
ghost use Rattle.std.specs.Prelude.{◌≡◌, IfOk};
ghost use Rattle.gix_odb_events.specs.Asks.{IsAnswerTo};
ghost use Rattle.gix_odb.specs.LookUpOrder.{setting_of};
ghost use Rattle.gix_odb.specs.LookUpOrder as order;
ghost use Rattle.gix_odb.specs.RefreshOrder as refreshes;

use super::checking::{is_unsettled, unsettled};
use super::listing::listing_from;
use super::replies::load_refused;
use super::trying::try_view;
use super::{LookHead, LookStage, LookUp, Part, Purpose, Setting, at};
use crate::{Refresh, RefreshMode, RefreshStep};
use gix_odb_events::{Answer, View};
use gix_odb_search::Notes;
use odb_base::NoMemory;
use std::alloc::Global;

/// Returns the look-up after an answer to a refresh.
pub(super) fn by_answer(
    alloc: Global,
    setting: &Setting<'_>,
    head: LookHead,
    refresh: Refresh,
    purpose: Purpose,
    notes: Notes,
    answer: Answer,
) -> Result<LookUp, NoMemory>
    requires suits { IsAnswerTo (refreshes.ask_of refresh) answer }
    ensures by { IfOk result (λ look. look ≡ order.fed_at (setting_of setting.now) head (LookStage.Refreshing refresh purpose notes) answer) }
{
    match refresh.feed(alloc, setting.parts, setting.loaded, answer) {
        Ok(step) => by_refresh(alloc, setting, head, purpose, notes, step),
        Err(error) => {
            drop(notes);
            Err(error)
        }
    }
}

/// Returns the look-up after a step of a refresh.
fn by_refresh(
    alloc: Global,
    setting: &Setting<'_>,
    head: LookHead,
    purpose: Purpose,
    notes: Notes,
    step: RefreshStep,
) -> Result<LookUp, NoMemory>
    ensures by { IfOk result (λ look. look ≡ order.by_refresh (setting_of setting.now) head purpose notes step) }
{
    match step {
        RefreshStep::More(refresh) => Ok(refreshing(head, refresh, purpose, notes)),
        RefreshStep::Read(view) => by_read(alloc, setting, head, purpose, &view, notes),
        RefreshStep::Current { view, own } => by_current(alloc, setting, head, &view, own, notes),
        RefreshStep::Outdated { list_no } => Ok(at(head, outdated(setting, head, list_no, notes))),
        RefreshStep::Refused(error) => {
            drop(notes);
            Ok(at(head, LookStage::Done(load_refused(error))))
        }
    }
}

fn refreshing(head: LookHead, refresh: Refresh, purpose: Purpose, notes: Notes) -> LookUp
    ensures refreshing { result ≡ order.at head (LookStage.Refreshing refresh purpose notes) }
{
    at(
        head,
        LookStage::Refreshing {
            refresh,
            purpose,
            notes,
        },
    )
}

/// Returns the stage after a list of the core that was read before: the first one is tried.
fn by_read(
    alloc: Global,
    setting: &Setting<'_>,
    head: LookHead,
    purpose: Purpose,
    view: &View,
    notes: Notes,
) -> Result<LookUp, NoMemory>
    ensures by { IfOk result (λ look. look ≡ order.at head (order.by_read (setting_of setting.now) head purpose view.now notes)) }
{
    let list_no = view.list_no;
    let stage = match purpose {
        Purpose::First { loose } => {
            let part = Part::List { list_no, loose };
            try_view(alloc, setting, head, part, view, notes)?
        }
        Purpose::Again => again(alloc, setting, head, list_no, notes)?,
    };
    Ok(at(head, stage))
}

/// Lists the folders again, or reads the core's list once more by a handle that never refreshes it.
fn again(
    alloc: Global,
    setting: &Setting<'_>,
    head: LookHead,
    list_no: u64,
    notes: Notes,
) -> Result<LookStage, NoMemory>
    ensures again { IfOk result (λ stage. stage ≡ order.again (setting_of setting.now) head list_no notes) }
{
    match head.mode {
        RefreshMode::Never => Ok(LookStage::Refreshing {
            refresh: Refresh::Reading,
            purpose: Purpose::First { loose: true },
            notes,
        }),
        RefreshMode::AfterAllIndicesLoaded => listing_from(alloc, setting, list_no, notes),
    }
}

impl LookHead {
    /// Counts one more list as the look-up's own, where it made it.
    fn own_by(self, own: bool) -> LookHead
        ensures own { result ≡ order.own_by self own }
    {
        if own {
            LookHead {
                own: self.own.saturating_add(1),
                ..self
            }
        } else {
            self
        }
    }
}

/// Tries the listing, which is the core's list. Which packs were absent before it is forgotten.
fn by_current(
    alloc: Global,
    setting: &Setting<'_>,
    head: LookHead,
    view: &View,
    own: bool,
    notes: Notes,
) -> Result<LookUp, NoMemory>
    ensures by { IfOk result (λ look. look ≡ order.by_current (setting_of setting.now) head view.now own notes) }
{
    let head = head.own_by(own);
    let part = Part::Published {
        list_no: view.list_no,
    };
    let notes = notes.without_absent(alloc);
    Ok(at(head, try_view(alloc, setting, head, part, view, notes)?))
}

/// Reads the core's list again: another one was published since it was read.
fn outdated(setting: &Setting<'_>, head: LookHead, now: u64, notes: Notes) -> LookStage
    ensures counted { result ≡ order.counted (setting_of setting.now) head now (LookStage.Refreshing Refresh.Reading Purpose.Again notes) }
{
    if is_unsettled(setting, head, now) {
        return unsettled(head, now);
    }
    LookStage::Refreshing {
        refresh: Refresh::Reading,
        purpose: Purpose::Again,
        notes,
    }
}
