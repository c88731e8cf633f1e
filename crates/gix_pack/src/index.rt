//! Reading and writing pack indices.
pub use gix_pack_read::index::{BadIndex, Entry, File, Iter};
pub use gix_pack_write::index::encode;
