//! Packs, their indices and multi-pack indices, encoded: from objects to the bytes that `gix_pack_read` parses.
//!
//! Encoders append to a list of bytes, and write what the definitions of `specs/` say, byte for byte. Their one error is
//! running out of memory.
//! ```rust
//! let pack = data::encode(alloc, &objects, Kind::Sha1)?;
//! let index = index::encode(alloc, &objects, Kind::Sha1)?;
//! let indices = multi_index::encode(alloc, &packs, Kind::Sha1)?;
//! ```
#![tactic(auto)]

pub mod bytes;
pub mod data;
pub mod entries;
pub mod index;
pub mod multi_index;
mod object;
pub mod rows;
pub mod tables;

pub use object::Object;
