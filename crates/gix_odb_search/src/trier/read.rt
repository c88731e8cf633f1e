//! What follows where a pack was read that is tried.
ghost use Rattle.std.specs.Prelude.{◌≡◌, IfOk};
ghost use Rattle.gix_odb_search.specs.TryOrder.{pack_or_bad, pack_read};

use super::{Ahead, Stage, Tried, at};
use crate::goal::{Error, Goal};
use crate::search::WantedPack;
use gix_odb_events::Shared;
use gix_pack_read::data;
use odb_base::{ByteList, NoMemory};
use odb_disk::{DiskAnswer, DiskError};
use std::alloc::Global;

/// Returns the step after bytes of a pack were read.
fn pack_or_bad(
    alloc: Global,
    goal: Goal,
    ahead: Ahead,
    pack: WantedPack,
    bytes: ByteList,
) -> Result<Tried, NoMemory>
    ensures read { IfOk result (λ tried. tried ≡ pack_or_bad goal ahead pack bytes) }
{
    match data::File::parse(bytes, goal.id.kind()) {
        Ok(file) => match Shared::new(alloc, file) {
            Ok(file) => Ok(at(goal, ahead, Stage::StoringPack { pack, file })),
            Err(lack) => {
                drop(ahead);
                drop(pack);
                Err(lack)
            }
        },
        Err(_) => {
            drop(ahead);
            drop(pack);
            Ok(Tried::Bad(Error::LoadPack))
        }
    }
}

/// Returns the step after a pack was read. Fails where memory runs out.
pub(super) fn pack_read(
    alloc: Global,
    goal: Goal,
    ahead: Ahead,
    pack: WantedPack,
    answer: DiskAnswer,
) -> Result<Tried, NoMemory>
    ensures read { IfOk result (λ tried. tried ≡ pack_read goal ahead pack answer) }
{
    match answer {
        DiskAnswer::File { bytes, .. } => pack_or_bad(alloc, goal, ahead, pack, bytes),
        DiskAnswer::Refused(DiskError::Absent) => Ok(at(goal, ahead, Stage::PassingPack(pack))),
        DiskAnswer::Refused(DiskError::NoMemory) => {
            drop(ahead);
            drop(pack);
            Err(NoMemory)
        }
        answer => {
            drop(ahead);
            drop(pack);
            drop(answer);
            Ok(Tried::Bad(Error::LoadPack))
        }
    }
}
