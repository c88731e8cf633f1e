//! Whether the list that was tried is the newest, and how many lists of others a look-up met.
ghost use Rattle.std.specs.Prelude.{◌≡◌, IfOk, Ok};
ghost use Rattle.gix_odb_events.specs.Asks.{IsAnswerTo};
ghost use Rattle.gix_odb_events.specs.declared.answer.Ask.TheVariants as asks;
ghost use Rattle.gix_odb_events.specs.declared.event.Event.TheVariants as events;
ghost use Rattle.gix_odb.specs.LookUpOrder.{setting_of};
ghost use Rattle.gix_odb.specs.LookUpOrder as order;

use super::listing::listing_from;
use super::replies::{ended, load_refused, refused};
use super::{LookHead, LookStage, LookUp, Setting, at};
use gix_odb_calls::load_index;
use gix_odb_events::{Answer, Effect, View};
use gix_odb_search::Notes;
use odb_base::NoMemory;
use std::alloc::Global;

/// Returns the stage after the core's state was read.
pub(super) fn checked(
    alloc: Global,
    setting: &Setting<'_>,
    head: LookHead,
    list_no: u64,
    notes: Notes,
    answer: &Answer,
) -> Result<LookUp, NoMemory>
    requires suits { IsAnswerTo (asks.Core events.Look) answer.now }
    ensures by { IfOk result (λ look. look ≡ order.fed_at (setting_of setting.now) head (LookStage.Checking list_no notes) answer.now) }
{
    match answer {
        Answer::Core(Ok(effect)) => Ok(at(
            head,
            by_checked(alloc, setting, head, list_no, notes, effect)?,
        )),
        Answer::Core(Err(refusal)) => {
            drop(notes);
            Ok(at(head, refused(*refusal)?))
        }
        Answer::Disk(_) => unreachable!("the core's state is read by an event"),
    }
}

/// Returns the stage after the core's state was read and shown.
fn by_checked(
    alloc: Global,
    setting: &Setting<'_>,
    head: LookHead,
    list_no: u64,
    notes: Notes,
    effect: &Effect,
) -> Result<LookStage, NoMemory>
    requires suits { IsAnswerTo (asks.Core events.Look) (Answer.Core (Ok effect.now)) }
    ensures by { IfOk result (λ stage. stage ≡ order.by_checked (setting_of setting.now) head list_no notes (order.view_shown effect.now)) }
{
    match effect.view() {
        None => unreachable!("the core's state is answered by a view"),
        Some(view) => by_check(alloc, setting, head, list_no, view, notes),
    }
}

fn by_check(
    alloc: Global,
    setting: &Setting<'_>,
    head: LookHead,
    list_no: u64,
    view: &View,
    notes: Notes,
) -> Result<LookStage, NoMemory>
    ensures by { IfOk result (λ stage. stage ≡ order.by_check (setting_of setting.now) head list_no view.now notes) }
{
    let now = view.list_no;
    if now == list_no {
        Ok(ended(head.want, &notes))
    } else if is_unsettled(setting, head, now) {
        Ok(unsettled(head, now))
    } else {
        listing_from(alloc, setting, now, notes)
    }
}

/// Returns whether others published more lists since the look-up's first event than it may meet.
pub(super) fn is_unsettled(setting: &Setting<'_>, head: LookHead, now: u64) -> bool
    ensures unsettled { result ≡ order.is_unsettled (setting_of setting.now) head now }
{
    let begun = head.begun.unwrap_or(now);
    now.saturating_sub(begun).saturating_sub(head.own) > u64::from(setting.max_changes)
}

/// Ends a look-up that met too many lists of others.
pub(super) fn unsettled(head: LookHead, now: u64) -> LookStage
    ensures ended { result ≡ order.unsettled head now }
{
    LookStage::Done(load_refused(load_index::Error::Unsettled {
        begun: head.begun.unwrap_or(now),
        own: head.own,
        now,
    }))
}
