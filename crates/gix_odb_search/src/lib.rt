//! How packs are found among the files of a store: the folders are listed, and the indices of a list are tried.
//!
//! Three machines do it, each of which names one ask at a time, takes its answer, and goes on or ends. `Lister` asks the disk.
//! `Trier`, and `IndexLoader`, by which it loads an index, ask the disk and the store's core. A call on a handle drives them
//! in its order. `specs/{ListOrder,LoadOrder,TryOrder}.antt` say in which order they
//! work, `specs/Goal.antt` what an index and a pack give.
//! ```rust
//! let mut lister = Lister::start(alloc, &objects, base)?;
//! let listed = loop {
//!     let answer = lister.ask(alloc)?.carry_out(alloc, &mut disk);
//!     match lister.feed(alloc, &store, answer)? {
//!         ListStep::More(more) => lister = more,
//!         end => break end,
//!     }
//! };
//! ```
#![tactic(auto)]

mod absent;
mod folders;
mod goal;
mod index_loader;
mod lister;
pub mod longest_first;
mod multi_pack;
mod rest;
mod search;
mod spot;
mod trier;

pub use absent::AbsentPacks;
pub use folders::{IndexPath, pack_folder};
pub use gix_odb_events::{Answer, Ask};
pub use goal::{Error, Found, Goal};
pub use index_loader::{IndexLoader, IndexPlace, LoadStep};
pub use lister::{EntryList, ListHead, ListStage, ListStep, ListedStore, Lister};
pub use multi_pack::{MOST_PACKS, MultiUse};
pub use rest::Rest;
pub use search::{AbsentFile, Notes, WantedPack};
pub use trier::{Ahead, Stage, Tried, Trier};
