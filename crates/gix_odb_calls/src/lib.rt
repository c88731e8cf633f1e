//! The calls and steps on a store over several folders, and their answers.
//!
//! A caller passes a `Call` on an open handle, or a `Step` of a world, and gets a `Reply` or an `Outcome`. The crates
//! above say how a store finds its reply. So a crate that only makes calls or prints replies, such as a reader of
//! scripts, needs none of them.
//! ```rust
//! let step = Step::Start { handle, call: Call::Find(id) };
//! if let Outcome::Reply(reply) = outcome {
//!     match reply.value() {
//!         Reply::Found { kind, bytes } => ..,
//!         Reply::NotFound => ..,
//!     }
//! }
//! ```
#![tactic(auto)]

mod call;
pub mod find;
mod hashes;
pub mod init;
mod line;
pub mod load_index;
mod query;
mod replacements;
mod step;
mod store_parts;
pub mod verdict;
pub mod write;

pub use call::{Call, CallError, Reply};
pub use hashes::are_pairs_of;
pub use init::{IdPairs, Options, PathList, Slots, copy_of_pairs, copy_of_paths};
pub use line::Line;
pub use query::Query;
pub use replacements::Replacements;
pub use step::{Outcome, Step, Why};
pub use store_parts::StoreParts;
