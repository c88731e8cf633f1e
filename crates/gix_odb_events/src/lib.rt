//! The events of a store's core, its answers and views, and the asks of machines.
//!
//! A handle brings events to a core, and each is answered by an effect or a refusal. Most effects contain a view: the
//! files loaded at that moment, and those that are to be loaded. A machine asks for one call of the disk or one such
//! event at a time. Read `event` first, then `view` and `answer`, and `listing`, `loaded` and `on_disk_file` for
//! their types; `gix_odb_core` says how events change a core.
//! ```rust
//! let ask = Ask::Core(Event::PassOver { slot, path, why: PassWhy::Absent });
//! let answer = Answer::Core(core.apply(alloc, seat, event));
//! ```
#![tactic(auto)]

mod answer;
mod event;
mod lent;
mod listed;
mod listing;
mod loaded;
mod metrics;
mod on_disk_file;
mod pack_file;
mod pack_id;
mod pack_list;
mod pack_place;
mod places;
mod shared_sequence;
mod shown;
mod slot;
mod view;

pub use answer::{Answer, Ask};
pub use event::{Effect, Event, PassWhy, Refusal};
pub use lent::{LentFile, LentIndex, LentTodo};
pub use listed::{Listed, ListedList};
pub use listing::{Listing, ListingRow, ListingRowList};
pub use loaded::{
    KeptList, ListedSlots, LoadedIndex, LoadedList, LoadedRest, SnapshotIndex, Todo, TodoList,
    TodoRest,
};
pub use metrics::{Metrics, Passed, PassedList, Report};
pub use odb_base::Shared;
pub use on_disk_file::{FileState, OnDiskFile};
pub use pack_file::{PackFile, new_packs, packs_beside};
pub use pack_id::{IndexId, PackId};
pub use pack_list::PackFileList;
pub use pack_place::pack_path;
pub use places::PlaceList;
pub use shared_sequence::SharedSequence;
pub use slot::{Filled, IndexFile, Slot, SlotList};
pub use view::{SlotIndexMarker, Snapshot, View};
