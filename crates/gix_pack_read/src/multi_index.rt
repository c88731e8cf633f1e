//! Multi-pack indices, version 1: the offsets of the objects of several packs; read from bytes.
//! `gix_pack_write` writes them.
//!
//! `parse` accepts exactly what the grammar of `specs/` allows, within a limit, and keeps the bytes. Look-ups are
//! defined by the rows, whatever the search.
//! ```rust
//! let index = File::parse(alloc, bytes, None)?;
//! ```

mod chunks;
mod file;
mod layout;
mod names;
mod parts;
mod rows;
mod walk;

pub use chunks::{HEADER_LEN, NAME_LEN, ROW_LEN};
pub use file::{Entry, Error, File};
pub use names::is_name;
pub use walk::Iter;
