//! Writing multi-pack indices, version 1: from packs with their objects to the bytes that `gix_pack_read` reads.
//!
//! The output is what the definitions of `specs/` say, byte for byte, and is read back.
//! ```rust
//! let bytes = encode(alloc, &packs, Kind::Sha1)?;
//! let index = gix_pack_read::multi_index::File::parse(alloc, bytes, None)?;
//! ```

mod named_pack;
mod writing;

pub use named_pack::NamedPack;
pub use writing::{can_be_written, encode};
