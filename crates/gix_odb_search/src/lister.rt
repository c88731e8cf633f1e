//! The folders of packs are listed, one after another.
ghost use Rattle.std.specs.Prelude.{◌≡◌, ℕ, [], IfOk, None, slice_get, true};
ghost use Rattle.odb_base.specs.Path.{Path};
ghost use Rattle.gix_odb_search.specs.ListedStore.{listed_store};
ghost use Rattle.gix_odb_search.specs.ListOrder.{ask_of, behind_folder, closed, fed_at, opened, read, started};
ghost use Rattle.gix_odb_search.specs.ListOrder as order;
ghost use Rattle.gix_odb_search.specs.PackFolder.{multi_index_path};

mod multi;
mod statting;

use crate::folders::{IndexPath, index_paths, multi_index_path, pack_folder};
use crate::longest_first::longest_first;
use crate::multi_pack::{MultiUse, unnamed};
use crate::rest::Rest;
use gix_odb_events::{Listing, ListingRow, ListingRowList, LoadedList, Shared, pack_path};
use multi::by_multi;
use odb_base::{NoMemory, PathText, Sequence};
use odb_disk::{DirId, DiskAnswer, DiskAsk, DiskError, Entry};
use statting::{at_paths, by_index, by_pack};
use std::alloc::Global;

/// What a listing is told of its store.
#[derive(Clone, Copy)]
pub struct ListedStore<'a> {
    /// The folders besides the objects directory, in order.
    pub folders: &'a [PathText],
    /// How multi-pack indices are used; without it they are left out.
    pub multi: Option<MultiUse>,
    /// The loaded indices, where a list was read: a multi-pack index with the bytes of one of them isn't parsed again.
    pub loaded: Option<&'a LoadedList>,
}

/// The state of a listing of the folders of packs.
///
/// `ask` names the next call of the disk, `feed` takes its answer.
#[derive(Drop)]
pub struct Lister {
    head: ListHead,
    stage: ListStage,
}

/// How far a listing has come.
#[derive(Drop)]
pub struct ListHead {
    /// The number of the list that was the newest when the listing began.
    base: u64,
    /// The folder of packs that is listed.
    folder: PathText,
    /// The place of the folder that comes next, among those besides the objects directory.
    next: usize,
    /// The rows that were found.
    rows: ListingRowList,
}

/// The entries of a stream, in its order.
pub type EntryList = Sequence<Entry>;

/// The stage of a listing in its folder.
#[derive(Drop)]
pub enum ListStage {
    /// The folder is to be opened.
    Opening,
    /// Its stream is read.
    Reading {
        dir: DirId,
        entries: EntryList,
    },
    /// The stream was read to its end, and is to be closed.
    Closing {
        dir: DirId,
        entries: EntryList,
    },
    /// A call failed, and the stream is to be closed.
    Breaking {
        dir: DirId,
    },
    /// An index is to be statted; the others are left.
    Index {
        path: PathText,
        left: Rest<IndexPath>,
    },
    /// The pack of an index is to be statted.
    Pack {
        row: ListingRow,
        left: Rest<IndexPath>,
    },
    /// The multi-pack index is to be read.
    Multi {
        left: Rest<IndexPath>,
    },
}

/// The result of a step of a listing.
#[derive(Drop)]
pub enum ListStep {
    /// It goes on.
    More(Lister),
    /// All folders were listed: the rows come in the order in which they are tried.
    Listed(Listing),
    /// A call failed, or a folder of packs is no directory.
    Broken,
    /// The multi-pack index at a path names more packs than a store may use.
    TooManyPacks { actual: u32, path: PathText },
}

impl Lister {
    /// Returns a new listing after the list of a number, which begins with the objects directory.
    pub fn start(alloc: Global, objects: &PathText, base: u64) -> Result<Lister, NoMemory>
        ensures begun { IfOk result (λ lister. lister ≡ started objects.now base) }
    {
        Ok(Lister {
            head: ListHead {
                base,
                folder: pack_folder(alloc, objects)?,
                next: 0,
                rows: ListingRowList::new(alloc),
            },
            stage: ListStage::Opening,
        })
    }

    /// Returns the folder of packs that is listed: the calls on its stream have no path of their own.
    pub fn folder(&self) -> &PathText
        ensures folder { result.now ≡ self.now.head.folder }
    {
        &self.head.folder
    }

    /// Returns the call of the disk that comes next.
    pub fn ask(&self, alloc: Global) -> Result<DiskAsk, NoMemory>
        ensures asked { IfOk result (λ ask. ask ≡ ask_of self.now) }
    {
        match &self.stage {
            ListStage::Opening => open_of(alloc, &self.head.folder),
            ListStage::Reading { dir, .. } => Ok(DiskAsk::NextEntry { dir: *dir }),
            ListStage::Closing { dir, .. } => Ok(DiskAsk::CloseDir { dir: *dir }),
            ListStage::Breaking { dir } => Ok(DiskAsk::CloseDir { dir: *dir }),
            ListStage::Index { path, .. } => look_of(alloc, path, false),
            ListStage::Pack { row, .. } => pack_look(alloc, row),
            ListStage::Multi { .. } => multi_read(alloc, &self.head.folder),
        }
    }

    /// Returns the step after the answer to what was asked for, in a store of which this is known.
    pub fn feed(
        self,
        alloc: Global,
        store: &ListedStore<'_>,
        answer: DiskAnswer,
    ) -> Result<ListStep, NoMemory>
        ensures fed { IfOk result (λ listed. listed ≡ order.fed (listed_store store.now) self answer) }
    {
        if let DiskAnswer::Refused(DiskError::NoMemory) = answer {
            drop(self);
            return Err(NoMemory);
        }
        let Lister { head, stage } = self;
        fed_at(alloc, store, head, stage, answer)
    }
}

/// Returns the step after the answer to what a stage asked for.
fn fed_at(
    alloc: Global,
    store: &ListedStore<'_>,
    head: ListHead,
    stage: ListStage,
    answer: DiskAnswer,
) -> Result<ListStep, NoMemory>
    ensures fed { IfOk result (λ listed. listed ≡ fed_at (listed_store store.now) head stage answer) }
{
    match stage {
        ListStage::Opening => {
            let step = opened(alloc, store, head, &answer);
            drop(answer);
            step
        }
        ListStage::Reading { dir, entries } => read(head, dir, entries, answer),
        ListStage::Closing { entries, .. } => {
            drop(answer);
            closed(alloc, store, head, entries)
        }
        ListStage::Breaking { .. } => {
            drop(head);
            drop(answer);
            Ok(ListStep::Broken)
        }
        ListStage::Index { path, left } => {
            let step = by_index(alloc, store, head, path, left, &answer);
            drop(answer);
            step
        }
        ListStage::Pack { row, left } => {
            let step = by_pack(alloc, store, head, row, left, &answer);
            drop(answer);
            step
        }
        ListStage::Multi { left } => by_multi(alloc, store, head, left, answer),
    }
}

fn open_of(alloc: Global, folder: &PathText) -> Result<DiskAsk, NoMemory>
    ensures asks { IfOk result (λ ask. ask ≡ order.open_of folder.now) }
{
    let path = folder.try_clone(alloc)?;
    Ok(DiskAsk::OpenDir { path })
}

fn look_of(alloc: Global, path: &PathText, follow: bool) -> Result<DiskAsk, NoMemory>
    ensures asks { IfOk result (λ ask. ask ≡ order.look_of path.now follow) }
{
    let path = path.try_clone(alloc)?;
    Ok(DiskAsk::Look { path, follow })
}

/// Returns the read of the multi-pack index of a folder of packs.
fn multi_read(alloc: Global, folder: &PathText) -> Result<DiskAsk, NoMemory>
    ensures asks { IfOk result (λ ask. ask ≡ order.read_of (multi_index_path folder.now)) }
{
    let path = multi_index_path(alloc, folder)?;
    Ok(DiskAsk::Read { path })
}

/// Returns the stat of the pack of an index, links followed.
fn pack_look(alloc: Global, row: &ListingRow) -> Result<DiskAsk, NoMemory>
    ensures asks { IfOk result (λ ask. ask ≡ order.look_of (order.pack_of row.now) true) }
{
    let path = pack_path(alloc, &row.path)?;
    Ok(DiskAsk::Look { path, follow: true })
}

fn more(head: ListHead, stage: ListStage) -> ListStep
    ensures more { result ≡ order.more head stage }
{
    ListStep::More(Lister { head, stage })
}

/// Ends the listing: its rows are put in order, without indices that a multi-pack index names.
fn listed(alloc: Global, base: u64, rows: ListingRowList) -> Result<ListStep, NoMemory>
    ensures listed { (folder : Path) (next : ℕ) → IfOk result (λ listed. listed ≡ behind_folder (record { base = base; folder = folder; next = next; rows = rows }) None) }
{
    let rows = unnamed(alloc, rows)?;
    let rows = longest_first(rows)?;
    Ok(ListStep::Listed(Listing { base, rows }))
}

/// Lists the next folder, or ends where all are listed.
fn behind_folder(
    alloc: Global,
    store: &ListedStore<'_>,
    head: ListHead,
) -> Result<ListStep, NoMemory>
    ensures behind { IfOk result (λ listed. listed ≡ behind_folder head (slice_get (listed_store store.now).folders head.next)) }
{
    let ListHead {
        base,
        folder,
        next,
        rows,
    } = head;
    drop(folder);
    let Some(folder) = store.folders.get(next) else {
        return listed(alloc, base, rows);
    };
    match pack_folder(alloc, folder) {
        Ok(folder) => {
            let head = ListHead {
                base,
                folder,
                next: next + 1,
                rows,
            };
            Ok(more(head, ListStage::Opening))
        }
        Err(error) => {
            drop(rows);
            Err(error)
        }
    }
}

/// Reads the stream of a folder from its beginning.
fn reading(alloc: Global, head: ListHead, dir: DirId) -> ListStep
    ensures reading { result ≡ order.more head (ListStage.Reading dir []) }
{
    let entries = EntryList::new(alloc);
    more(head, ListStage::Reading { dir, entries })
}

/// Returns the step after a folder was opened. One that isn't there has no packs.
fn opened(
    alloc: Global,
    store: &ListedStore<'_>,
    head: ListHead,
    answer: &DiskAnswer,
) -> Result<ListStep, NoMemory>
    ensures opened { IfOk result (λ listed. listed ≡ opened (listed_store store.now) head answer.now) }
{
    match answer {
        DiskAnswer::Dir(dir) => Ok(reading(alloc, head, *dir)),
        DiskAnswer::Refused(DiskError::Absent) => behind_folder(alloc, store, head),
        _ => {
            drop(head);
            Ok(ListStep::Broken)
        }
    }
}

/// Returns the step after a stream was read.
fn read(
    head: ListHead,
    dir: DirId,
    mut entries: EntryList,
    answer: DiskAnswer,
) -> Result<ListStep, NoMemory>
    ensures read { IfOk result (λ listed. listed ≡ read head dir entries answer) }
{
    match answer {
        DiskAnswer::Entry(entry) => {
            entries.push(entry)?;
            Ok(more(head, ListStage::Reading { dir, entries }))
        }
        DiskAnswer::End => Ok(more(head, ListStage::Closing { dir, entries })),
        _ => Ok(more(head, ListStage::Breaking { dir })),
    }
}

/// Returns the step after a stream was closed: the indices among its entries are to be statted, or read.
fn closed(
    alloc: Global,
    store: &ListedStore<'_>,
    head: ListHead,
    entries: EntryList,
) -> Result<ListStep, NoMemory>
    ensures closed { IfOk result (λ listed. listed ≡ closed (listed_store store.now) head entries) }
{
    let multi = store.multi.is_some();
    let paths = index_paths(alloc, &head.folder, multi, entries.as_slice())?;
    let left = Rest::all(Shared::new(alloc, paths)?);
    at_paths(alloc, store, head, left)
}
