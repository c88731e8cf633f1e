//! What follows an answer to a look-up.
ghost use Rattle.std.specs.Prelude.{◌≡◌, IfOk};
ghost use Rattle.gix_odb.specs.Answers.{IsAnswerOf};
ghost use Rattle.gix_odb.specs.LookUpOrder.{setting_of};
ghost use Rattle.gix_odb.specs.LookUpOrder as order;

use super::checking::checked;
use super::loose::by_call;
use super::refreshing::by_answer;
use super::trying::by_trier;
use super::{LookHead, LookStage, LookUp, Setting};
use gix_odb_events::Answer;
use odb_base::NoMemory;
use std::alloc::Global;

/// Returns the look-up after an answer at a stage.
pub(super) fn fed(
    alloc: Global,
    setting: &Setting<'_>,
    head: LookHead,
    stage: LookStage,
    answer: Answer,
) -> Result<LookUp, NoMemory>
    requires suits { IsAnswerOf (order.ask_at stage) answer }
    ensures fed { IfOk result (λ look. look ≡ order.fed_at (setting_of setting.now) head stage answer) }
{
    match stage {
        LookStage::Trying { trier, part } => by_trier(alloc, setting, head, trier, part, answer),
        LookStage::Loose { round, call } => by_call(alloc, setting, head, round, call, answer),
        LookStage::Refreshing {
            refresh,
            purpose,
            notes,
        } => by_answer(alloc, setting, head, refresh, purpose, notes, answer),
        LookStage::Checking { list_no, notes } => {
            let look = checked(alloc, setting, head, list_no, notes, &answer);
            drop(answer);
            look
        }
        LookStage::Done(_) => unreachable!("a look-up that is done asks nothing"),
    }
}
