//! The folders of packs are listed, unless the handle never refreshes its list.
ghost use Rattle.std.specs.Prelude.{◌≡◌, IfOk};
ghost use Rattle.gix_odb.specs.LookUpOrder.{setting_of};
ghost use Rattle.gix_odb.specs.LookUpOrder as order;

use super::replies::ended;
use super::{LookHead, LookStage, Purpose, Setting};
use crate::{Refresh, RefreshMode};
use gix_odb_search::Notes;
use odb_base::NoMemory;
use std::alloc::Global;

/// Begins a listing after the list of a number.
pub(super) fn listing_from(
    alloc: Global,
    setting: &Setting<'_>,
    base: u64,
    notes: Notes,
) -> Result<LookStage, NoMemory>
    ensures from { IfOk result (λ stage. stage ≡ order.listing_from (setting_of setting.now) base notes) }
{
    match Refresh::listing(alloc, setting.parts, base) {
        Ok(refresh) => Ok(LookStage::Refreshing {
            refresh,
            purpose: Purpose::Again,
            notes,
        }),
        Err(error) => {
            drop(notes);
            Err(error)
        }
    }
}

/// Returns the stage after a list of the core that was tried, and the loose folders.
pub(super) fn after_core_list(
    alloc: Global,
    setting: &Setting<'_>,
    head: LookHead,
    list_no: u64,
    notes: Notes,
) -> Result<LookStage, NoMemory>
    ensures after { IfOk result (λ stage. stage ≡ order.after_core_list (setting_of setting.now) head list_no notes) }
{
    match head.mode {
        RefreshMode::Never => Ok(ended(head.want, &notes)),
        RefreshMode::AfterAllIndicesLoaded => listing_from(alloc, setting, list_no, notes),
    }
}
