//! Ids of objects, and the hashes that they come from.
//!
//! An id is 20 bytes of SHA-1 or 32 bytes of SHA-256, and is written as that many pairs of lower-case hex digits.
//! Reading accepts exactly the texts that writing makes. A `Hasher` makes an id of bytes that come in pieces.
//! ```rust
//! let id = ObjectId::from_hex(b"e69de29bb2d1d6434b8b29ae775ad8c2e48c5391")?;
//! assert_eq!(rt; id.kind(), Kind::Sha1);
//! let text = id.to_hex(alloc)?;
//! ```
#![tactic(auto)]

mod hasher;
mod kind;
mod object_id;
mod prefix;
mod steps;

pub use hasher::Hasher;
pub use kind::{Kind, SHA1_LEN, SHA256_LEN};
pub use object_id::{HexError, ObjectId};
pub use prefix::{Prefix, PrefixError};
pub use steps::Steps;
