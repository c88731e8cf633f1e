//! Reading and writing multi-pack indices.
pub use gix_pack_read::multi_index::{Entry, Error, File, Iter};
pub use gix_pack_write::multi_index::{NamedPack, can_be_written, encode};
