//! Packs, their indices and multi-pack indices, read from bytes. `gix_pack_write` encodes them.
//!
//! Parsing accepts exactly what the grammars of `specs/` allow, and keeps the bytes. Look-ups are answered from the rows of an
//! index, whatever way they are searched. `bytes`, `id_table` and `tables` are what both kinds of index are made of.
//! ```rust
//! let pack = data::File::parse(bytes, Kind::Sha1)?;
//! assert_eq!(rt; (pack.version(), pack.num_objects()), (2, 1));
//! let index = multi_index::File::parse(alloc, bytes, None)?;
//! ```
#![tactic(auto)]

pub mod bytes;
pub mod data;
mod file_bytes;
pub mod id_table;
pub mod index;
pub mod multi_index;
pub mod tables;
