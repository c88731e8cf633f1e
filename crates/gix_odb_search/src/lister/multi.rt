//! The multi-pack index of a folder is read.
ghost use Rattle.std.specs.Prelude.{◌≡◌, IfOk, length};
ghost use Rattle.gix_odb_search.specs.ListedStore.{listed_store};
ghost use Rattle.gix_odb_search.specs.ListOrder.{by_bytes, by_multi, by_packs, multi_row};
ghost use Rattle.gix_odb_search.specs.MultiPack.{packs_named};
ghost use Rattle.gix_odb_search.specs.PackFolder.{multi_index_path};

use super::statting::{at_paths, behind_row};
use super::{ListHead, ListStep, ListedStore};
use crate::folders::{IndexPath, multi_index_path};
use crate::multi_pack::{MOST_PACKS, read};
use crate::rest::Rest;
use gix_odb_events::{ListingRow, Shared};
use gix_pack_read::multi_index;
use odb_base::{ByteList, NoMemory};
use odb_disk::{DiskAnswer, DiskError};
use std::alloc::Global;

/// Returns the step after the multi-pack index was read: it has its row, if the store can use it.
pub(super) fn by_multi(
    alloc: Global,
    store: &ListedStore<'_>,
    head: ListHead,
    left: Rest<IndexPath>,
    answer: DiskAnswer,
) -> Result<ListStep, NoMemory>
    ensures by { IfOk result (λ listed. listed ≡ by_multi (listed_store store.now) head left answer) }
{
    match answer {
        DiskAnswer::File { bytes, time } => by_bytes(alloc, store, head, left, bytes, time),
        DiskAnswer::Refused(DiskError::Failed) => {
            drop(head);
            drop(left);
            Ok(ListStep::Broken)
        }
        answer => {
            drop(answer);
            at_paths(alloc, store, head, left)
        }
    }
}

/// Returns the step after its bytes were read.
fn by_bytes(
    alloc: Global,
    store: &ListedStore<'_>,
    head: ListHead,
    left: Rest<IndexPath>,
    bytes: ByteList,
    time: u64,
) -> Result<ListStep, NoMemory>
    ensures by { IfOk result (λ listed. listed ≡ by_bytes (listed_store store.now) head left bytes time) }
{
    let len = bytes.len() as u64;
    match read(alloc, store, bytes) {
        Ok(None) => at_paths(alloc, store, head, left),
        Ok(Some(file)) => by_file(alloc, store, head, left, file, len, time),
        Err(error) => {
            drop(head);
            drop(left);
            Err(error)
        }
    }
}

/// Returns the step after it was read, as a file of this length and time.
fn by_file(
    alloc: Global,
    store: &ListedStore<'_>,
    head: ListHead,
    left: Rest<IndexPath>,
    file: Shared<multi_index::File>,
    len: u64,
    time: u64,
) -> Result<ListStep, NoMemory>
    requires len { len ≡ length file }
    ensures by { IfOk result (λ listed. listed ≡ by_packs (listed_store store.now) head (multi_row (multi_index_path head.folder) file time) left (packs_named file)) }
{
    let packs = file.value().num_indices();
    match multi_index_path(alloc, &head.folder) {
        Ok(path) => {
            let row = ListingRow {
                path,
                time,
                len,
                multi: Some(file),
            };
            by_packs(alloc, store, head, row, left, packs)
        }
        Err(error) => {
            drop(head);
            drop(left);
            drop(file);
            Err(error)
        }
    }
}

/// Returns the step after it was read, by the number of packs that it names.
fn by_packs(
    alloc: Global,
    store: &ListedStore<'_>,
    head: ListHead,
    row: ListingRow,
    left: Rest<IndexPath>,
    packs: u32,
) -> Result<ListStep, NoMemory>
    ensures by { IfOk result (λ listed. listed ≡ by_packs (listed_store store.now) head row left packs) }
{
    if packs <= MOST_PACKS {
        return behind_row(alloc, store, head, row, left);
    }
    drop(head);
    drop(left);
    let ListingRow { path, multi, .. } = row;
    drop(multi);
    Ok(ListStep::TooManyPacks {
        actual: packs,
        path,
    })
}
