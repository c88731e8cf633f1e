//! Packs, their indices and multi-pack indices, read from bytes and written to them, under one name; caches of pack
//! entries and objects; and the databases that find objects in packs.
//!
//! `gix_pack_read` reads packs, their indices and multi-pack indices; `gix_pack_write` writes them. A caller needs only this
//! crate.
//! ```rust
//! let pack = data::File::parse(bytes, Kind::Sha1)?;
//! assert_eq!(rt; (pack.version(), pack.num_objects()), (2, 1));
//! ```
#![tactic(auto)]

pub mod cache;
pub mod data;
pub mod find;
pub mod index;
pub mod multi_index;

pub use gix_pack_write::Object;
pub use gix_pack_write::multi_index::NamedPack;
