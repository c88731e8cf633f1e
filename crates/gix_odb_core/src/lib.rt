//! The core of a store: its slots, what listings and files make of them, and the journal of what happened.
//!
//! A slot holds an index or a multi-pack index, and a file for each of its packs. Handles bring events to a core: files that
//! were read or could not be, listings of the store's folders, and their own opening and closing. Each is answered and
//! journalled, and the present state is the replay of the journal. Read `apply` first, then `shape`, then `slot_table`,
//! `matched`, `publish` and `put`. Events and views are types of `gix_odb_events`, re-exported here.
//! ```rust
//! let mut core = Core::new(alloc, 32, 1)?;
//! let answer = core.apply(alloc, 0, Event::Register { stable: false });
//! assert!(rt; core.journal().len() == 1);
//! ```
#![tactic(auto)]

mod apply;
pub mod counts;
mod files;
mod handles;
mod index_key;
mod journal;
mod matched;
mod metrics;
pub mod pass;
mod plan;
pub mod publish;
mod publishing;
pub mod put;
mod ready;
pub mod report;
mod shape;
mod slot_table;
mod state;
mod turn;
pub mod unsettled;

pub use apply::{Core, Remains};
pub use gix_odb_events::{
    Effect, Event, FileState, IndexId, KeptList, Listed, ListedList, Listing, ListingRow,
    ListingRowList, LoadedIndex, LoadedList, LoadedRest, Metrics, OnDiskFile, PackFile,
    PackFileList, PackId, PassWhy, Passed, PassedList, Refusal, Report, Shared, SlotIndexMarker,
    Snapshot, SnapshotIndex, Todo, TodoList, TodoRest, View, pack_path, packs_beside,
};
pub use index_key::compare_paths_counted;
pub use journal::{Entry, Journal};
pub use matched::Matched;
pub use ready::ReadyCore;
pub use shape::Shape;
pub use slot_table::SlotTable;
