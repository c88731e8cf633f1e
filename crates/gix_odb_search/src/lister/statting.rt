//! The indices of a folder are statted, and their packs.
ghost use Rattle.std.specs.Prelude.{◌≡◌, ◌∷◌, IfOk, OnOk};
ghost use Rattle.gix_odb_search.specs.ListedStore.{ListedStore as Told, listed_store};
ghost use Rattle.gix_odb_search.specs.ListOrder.{at_paths, by_index, by_pack, with_row};

use super::{ListHead, ListStage, ListStep, ListedStore, behind_folder, more};
use crate::folders::IndexPath;
use crate::rest::Rest;
use gix_odb_events::ListingRow;
use odb_base::{NoMemory, PathText};
use odb_disk::{DiskAnswer, DiskError, Kind};
use std::alloc::Global;

/// Goes on with the next index of the folder, if there is one: it is statted, or read, if it is the multi-pack index.
pub(super) fn at_paths(
    alloc: Global,
    store: &ListedStore<'_>,
    head: ListHead,
    mut left: Rest<IndexPath>,
) -> Result<ListStep, NoMemory>
    ensures at { IfOk result (λ listed. listed ≡ at_paths (listed_store store.now) head left) }
{
    let Some(path) = left.first() else {
        drop(left);
        return behind_folder(alloc, store, head);
    };
    match path.try_clone(alloc) {
        Ok(path) => {
            left.advance();
            Ok(at_path(head, path, left))
        }
        Err(error) => {
            drop(head);
            drop(left);
            Err(error)
        }
    }
}

/// Goes on with an index.
fn at_path(head: ListHead, path: IndexPath, left: Rest<IndexPath>) -> ListStep
    ensures at { (store : Told) → result ≡ at_paths store head (path ∷ left) }
{
    match path {
        IndexPath::Single(path) => more(head, ListStage::Index { path, left }),
        IndexPath::Multi => more(head, ListStage::Multi { left }),
    }
}

/// Returns the step after an index was statted: its pack is statted next, where the index is a file itself.
pub(super) fn by_index(
    alloc: Global,
    store: &ListedStore<'_>,
    head: ListHead,
    path: PathText,
    left: Rest<IndexPath>,
    answer: &DiskAnswer,
) -> Result<ListStep, NoMemory>
    ensures by { IfOk result (λ listed. listed ≡ by_index (listed_store store.now) head path left answer.now) }
{
    match answer {
        DiskAnswer::Meta(meta) if meta.kind == Kind::File => {
            let row = ListingRow {
                path,
                time: meta.time,
                len: meta.len,
                multi: None,
            };
            Ok(more(head, ListStage::Pack { row, left }))
        }
        DiskAnswer::Refused(DiskError::Failed) => {
            drop(head);
            drop(path);
            drop(left);
            Ok(ListStep::Broken)
        }
        _ => {
            drop(path);
            at_paths(alloc, store, head, left)
        }
    }
}

impl ListHead {
    /// Adds one row. Running out of memory leaves the rows.
    fn put(&mut self, row: ListingRow) -> Result<(), NoMemory>
        ensures put { OnOk result (self.new ≡ with_row self.old row) }
    {
        self.rows.push(row)?;
        Ok(())
    }
}

/// Returns the step after the pack of an index was statted: where it leads to a file, the index has its row.
pub(super) fn by_pack(
    alloc: Global,
    store: &ListedStore<'_>,
    head: ListHead,
    row: ListingRow,
    left: Rest<IndexPath>,
    answer: &DiskAnswer,
) -> Result<ListStep, NoMemory>
    ensures by { IfOk result (λ listed. listed ≡ by_pack (listed_store store.now) head row left answer.now) }
{
    match answer {
        DiskAnswer::Meta(meta) if meta.kind == Kind::File => {
            behind_row(alloc, store, head, row, left)
        }
        DiskAnswer::Refused(DiskError::Failed) => {
            drop(head);
            drop(row);
            drop(left);
            Ok(ListStep::Broken)
        }
        _ => {
            drop(row);
            at_paths(alloc, store, head, left)
        }
    }
}

/// Goes on with the next index of the folder, after one that has this row.
pub(super) fn behind_row(
    alloc: Global,
    store: &ListedStore<'_>,
    mut head: ListHead,
    row: ListingRow,
    left: Rest<IndexPath>,
) -> Result<ListStep, NoMemory>
    ensures behind { IfOk result (λ listed. listed ≡ at_paths (listed_store store.now) (with_row head row) left) }
{
    match head.put(row) {
        Ok(()) => at_paths(alloc, store, head, left),
        Err(error) => {
            drop(left);
            drop(head);
            Err(error)
        }
    }
}
