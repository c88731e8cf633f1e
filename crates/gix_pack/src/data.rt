//! Reading and writing packs.
pub use gix_pack_read::data::{Entry, Error, File, Header, entry};
pub use gix_pack_write::data::encode;
