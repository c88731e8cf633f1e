//! A folder of loose objects: a file for each, with a header and then the data.
//!
//! A call finds what the file at the object's path holds; no file there is no error, and each error has its cause.
//! `LooseCall` is the order of work of every call, one call of the disk at a time. The finding calls of `Store` make
//! the one call of the disk that it asks for, and read the answer by the same functions; the writing calls go through
//! the same stages while they read their data.
//! Read `store` first; `specs/LooseFile.antt` says what a file holds. The calls that write are in `store_writes`, the
//! machine of a write in `write_order`; `write_at_hand` and `write_streamed` pass it its data. The look-up of a prefix
//! is in `store_prefix`, and its machine, `PrefixSearch`, in `prefix_search` and `prefix_steps`. `find`, `write` and
//! `iter` have the errors.
//! ```rust
//! let store = Store::at(alloc, &PathText::parse(alloc, "/o")?, gix_hash::Kind::Sha1)?;
//! let mut out = Vec::new(alloc);
//! if let Some(object) = store.try_find(alloc, &mut disk, &id, &mut out)? { .. }
//! ```
#![tactic(auto)]

mod call;
mod fetch;
pub mod find;
pub mod iter;
mod lent;
pub mod lookup;
mod name_set;
mod naming;
mod paths;
mod prefix_names;
mod prefix_search;
mod prefix_steps;
mod queue;
pub mod reply;
mod reply_copies;
mod store;
mod store_prefix;
mod store_writes;
pub mod write;
mod write_at_hand;
mod write_order;
mod write_streamed;

pub use call::{LooseAsk, LooseCall, LooseJob, LooseReply};
pub use name_set::{IdList, NameSet};
pub use prefix_search::{Candidates, PrefixSearch, SearchStep};
pub use store::{Options, Store};
pub use write_order::PIECE_SIZE;
