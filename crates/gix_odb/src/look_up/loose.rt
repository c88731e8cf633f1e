//! The loose objects of the folders are asked.
ghost use Rattle.std.specs.Prelude.{◌≡◌, IfOk, slice_get, true};
ghost use Rattle.gix_odb.specs.LookUpOrder.{setting_of};
ghost use Rattle.gix_odb_events.specs.Asks.{IsAnswerTo};
ghost use Rattle.gix_odb_events.specs.declared.answer.Ask.TheVariants as asks;
ghost use Rattle.gix_odb_calls.specs.Verdict.{asking, folder_ask, folder_verdict};
ghost use Rattle.gix_odb.specs.LookUpOrder as order;
ghost use Rattle.gix_odb.specs.RefreshMode.{by_mode};

use super::listing::after_core_list;
use super::replies::ended;
use super::{LookHead, LookStage, LookUp, LooseRound, Part, Purpose, Setting, at};
use crate::{Refresh, RefreshMode};
use gix_odb_calls::verdict::{FolderCall, Verdict};
use gix_odb_events::Answer;
use gix_odb_search::Notes;
use odb_base::{NoMemory, PathText};
use odb_disk::DiskAnswer;
use std::alloc::Global;

/// The loose objects of the first folder are asked.
pub(super) fn loose_from(
    alloc: Global,
    setting: &Setting<'_>,
    head: LookHead,
    part: Part,
    notes: Notes,
) -> Result<LookStage, NoMemory>
    ensures from { IfOk result (λ stage. stage ≡ order.loose_from (setting_of setting.now) head part notes) }
{
    let parts = setting.parts;
    match head.loose(alloc, &parts.objects, parts.alloc_limit_bytes) {
        Ok(call) => {
            let round = LooseRound {
                next: 0,
                notes,
                part,
            };
            Ok(LookStage::Loose { round, call })
        }
        Err(error) => {
            drop(notes);
            Err(error)
        }
    }
}

impl LookHead {
    // The call of a folder that is asked for the object.
    fn loose(
        self,
        alloc: Global,
        folder: &PathText,
        limit: Option<u64>,
    ) -> Result<FolderCall, NoMemory>
        ensures asking { IfOk result (λ call. call ≡ asking limit self.want self.id folder.now) }
    {
        FolderCall::new(alloc, folder, limit, self.want, self.id)
    }
}

/// What comes behind an answer to a folder's call.
pub(super) fn by_call(
    alloc: Global,
    setting: &Setting<'_>,
    head: LookHead,
    round: LooseRound,
    call: FolderCall,
    answer: Answer,
) -> Result<LookUp, NoMemory>
    requires suits { IsAnswerTo (asks.Disk (folder_ask call)) answer }
    ensures by { IfOk result (λ look. look ≡ order.fed_at (setting_of setting.now) head (LookStage.Loose round call) answer) }
{
    match answer {
        Answer::Disk(answer) => call_fed(alloc, setting, head, round, call, answer),
        Answer::Core(_) => unreachable!("a folder is asked by a call of the disk"),
    }
}

/// Returns the stage after the disk's answer to a folder's call.
fn call_fed(
    alloc: Global,
    setting: &Setting<'_>,
    head: LookHead,
    round: LooseRound,
    call: FolderCall,
    answer: DiskAnswer,
) -> Result<LookUp, NoMemory>
    ensures by { IfOk result (λ look. look ≡ order.at head (order.by_verdict (setting_of setting.now) head round (folder_verdict call answer))) }
{
    match call.verdict(alloc, answer) {
        Ok(verdict) => Ok(at(head, by_verdict(alloc, setting, head, round, verdict)?)),
        Err(error) => {
            drop(round);
            Err(error)
        }
    }
}

/// What comes behind a folder's answer, by what it means.
fn by_verdict(
    alloc: Global,
    setting: &Setting<'_>,
    head: LookHead,
    round: LooseRound,
    verdict: Verdict,
) -> Result<LookStage, NoMemory>
    ensures by { IfOk result (λ stage. stage ≡ order.by_verdict (setting_of setting.now) head round verdict) }
{
    match verdict {
        Verdict::Ends(reply) => {
            drop(round);
            Ok(LookStage::Done(reply))
        }
        Verdict::Misses => at_folder(alloc, setting, head, round),
        Verdict::Notes(error) => {
            drop(error);
            at_folder(alloc, setting, head, round.noting())
        }
    }
}

/// The next folder is asked, or what comes behind the loose folders.
fn at_folder(
    alloc: Global,
    setting: &Setting<'_>,
    head: LookHead,
    round: LooseRound,
) -> Result<LookStage, NoMemory>
    ensures at { IfOk result (λ stage. stage ≡ order.at_folder (setting_of setting.now) head round (slice_get setting.now.parts.now.folders round.next)) }
{
    let LooseRound { next, notes, part } = round;
    let Some(folder) = setting.parts.folders.as_slice().get(next) else {
        return after_loose(alloc, setting, head, part, notes);
    };
    match head.loose(alloc, folder, setting.parts.alloc_limit_bytes) {
        Ok(call) => {
            let next = next + 1;
            let round = LooseRound { next, notes, part };
            Ok(LookStage::Loose { round, call })
        }
        Err(error) => {
            drop(notes);
            Err(error)
        }
    }
}

impl LooseRound {
    // The round with a failed look noted.
    fn noting(self) -> LooseRound
        ensures noting { result ≡ record self { notes = record self.notes { failed = true } } }
    {
        let LooseRound { next, notes, part } = self;
        let notes = notes.failing();
        LooseRound { next, notes, part }
    }
}

/// Returns the stage after the loose folders.
fn after_loose(
    alloc: Global,
    setting: &Setting<'_>,
    head: LookHead,
    part: Part,
    notes: Notes,
) -> Result<LookStage, NoMemory>
    ensures after { IfOk result (λ stage. stage ≡ order.after_loose (setting_of setting.now) head part notes) }
{
    match part {
        Part::Snapshot => Ok(LookStage::Refreshing {
            refresh: Refresh::Reading,
            purpose: Purpose::First { loose: false },
            notes,
        }),
        Part::List { list_no, .. } => after_core_list(alloc, setting, head, list_no, notes),
        Part::Published { list_no } => Ok(after_own_list(head, list_no, notes)),
    }
}

/// Returns the stage after the list that the look-up published or confirmed, and the loose folders.
fn after_own_list(head: LookHead, list_no: u64, notes: Notes) -> LookStage
    ensures after { result ≡ by_mode (order.ended head.want notes) (LookStage.Checking list_no notes) head.mode }
{
    match head.mode {
        RefreshMode::Never => ended(head.want, &notes),
        RefreshMode::AfterAllIndicesLoaded => LookStage::Checking { list_no, notes },
    }
}
