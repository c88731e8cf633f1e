//! What a look-up replies.
ghost use Rattle.std.specs.Prelude.{◌≡◌, IfOk};
ghost use Rattle.gix_odb.specs.LoadIndex.{of_refusal};
ghost use Rattle.gix_odb.specs.LookUpOrder as order;

use super::LookStage;
use crate::of_refusal;
use gix_object::Want;
use gix_odb_calls::{CallError, Reply, find, load_index};
use gix_odb_events::Refusal;
use gix_odb_search::{self as packs, Found, Notes};
use odb_base::NoMemory;

pub(super) fn load_refused(error: load_index::Error) -> Reply
    ensures refused { result ≡ order.load_refused error }
{
    Reply::Refused(CallError::Find(find::Error::LoadIndex(error)))
}

pub(super) fn find_error(error: packs::Error) -> find::Error
    ensures error { result ≡ order.find_error error }
{
    match error {
        packs::Error::LoadPack => find::Error::LoadPack,
        packs::Error::Pack => find::Error::Pack,
        packs::Error::EntryType { code } => find::Error::EntryType { code },
        packs::Error::DeltaEntry => find::Error::DeltaEntry,
        packs::Error::OutOfMemory { size } => find::Error::OutOfMemory { size },
    }
}

pub(super) fn reply_found(found: Found) -> Reply
    ensures reply { result ≡ order.reply_found found }
{
    match found {
        Found::Object { kind, bytes } => Reply::Found { kind, bytes },
        Found::Header { kind, size } => Reply::Header(find::Header::Packed { kind, size }),
        Found::Presence => Reply::Tested(true),
    }
}

fn not_found(want: Want) -> Reply
    ensures reply { result ≡ order.not_found want }
{
    match want {
        Want::Presence => Reply::Tested(false),
        _ => Reply::NotFound,
    }
}

/// Ends where nothing was found. A file that could not be read, or a folder that could not be searched, is reported.
pub(super) fn ended(want: Want, notes: &Notes) -> LookStage
    ensures ended { result ≡ order.ended want notes.now }
{
    if notes.failed {
        LookStage::Done(load_refused(load_index::Error::Io))
    } else {
        LookStage::Done(not_found(want))
    }
}

/// Ends a look-up whose event was refused. Fails where memory ran out.
pub(super) fn refused(refusal: Refusal) -> Result<LookStage, NoMemory>
    ensures refused { IfOk result (λ stage. stage ≡ LookStage.Done (order.load_refused (of_refusal refusal))) }
{
    match refusal {
        Refusal::NoMemory => Err(NoMemory),
        refusal => Ok(LookStage::Done(load_refused(of_refusal(refusal)))),
    }
}
