//! Objects: their kinds, their headers both ways, their ids, what a look-up wants, and the traits that find and write them.
//!
//! A loose object is a header and then the data; its id is the hash of both. `decode` reads back what `encode`
//! writes, and nothing else.
//! ```rust
//! let header = encode::loose_header(alloc, Kind::Blob, 13)?;                  // `blob 13`, NUL
//! assert_eq!(rt; decode::loose_header(header.as_slice()), Ok((Kind::Blob, 13, 8)));
//! let id = compute_hash(alloc, gix_hash::Kind::Sha1, Kind::Tree, b"")?;       // 4b825dc642cb6eb9a060e54bf8d69288fbee4904
//! ```
#![tactic(auto)]

mod data;
pub mod decode;
pub mod encode;
mod find;
mod id;
mod kind;
mod want;
mod write;

pub use data::{Data, Header};
pub use find::{Exists, Find, FindHeader};
pub use id::compute_hash;
pub use kind::Kind;
pub use odb_base::is_within;
pub use want::Want;
pub use write::{Write, WriteTo};
