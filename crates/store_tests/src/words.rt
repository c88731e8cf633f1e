//! Ids, data, errors and answers in words.
ghost use Rattle.std.specs.Prelude.{◌≡◌, IfOk};
ghost use Rattle.gix_hash.specs.ObjectId.{kind_of};
ghost use Rattle.gix_odb_loose.specs.Store.{store_hash};

use gix_hash::ObjectId;
use gix_object::{Data, Kind};
use gix_odb_loose::{Store, find, write};
use std::alloc::{AllocError, Global};
use std::test::Fail;

/// The path of the blob `hello` below `/o`; its id is from `git hash-object`.
pub const FILE: &str = "/o/b6/fc4c620b67d95f953a5c1c1230aaab5db5a1b0";

/// The id of the blob `hello`.
pub const HELLO: &str = "b6fc4c620b67d95f953a5c1c1230aaab5db5a1b0";

/// An id of the store's hash, by its hex digits.
pub fn id_of(store: &Store, hex: &str) -> Result<ObjectId, Fail>
    ensures hash { IfOk result (λ id. kind_of id ≡ store_hash store.now) }
{
    let id = ObjectId::from_hex(hex.as_bytes())?;
    if id.kind() == store.object_hash() {
        return Ok(id);
    }
    Err(Fail::new("an id of the other hash"))
}

/// The data of a word: this many bytes `a` if it is a number, else its own bytes.
pub fn data_of(alloc: Global, word: &str) -> Result<Vec<u8>, AllocError> {
    match word.parse::<usize>() {
        Ok(len) => vec![in alloc; b'a'; len],
        Err(_) => Vec::from_slice(alloc, word.as_bytes()),
    }
}

/// An object: its kind and its data, or their number if they are a hundred bytes `a` or more.
pub fn object_shown(alloc: Global, kind: Kind, bytes: &[u8]) -> Result<String, Fail> {
    let len = bytes.len();
    if len >= 100 && bytes.iter().all(|&byte| byte == b'a') {
        return Ok(format!(in alloc; "{kind} {len}")?);
    }
    let text = String::from_utf8_lossy(alloc, bytes)?;
    Ok(format!(in alloc; "{kind} {text}")?)
}

/// The result of a find: the kind and the data, `none`, or an error's word.
pub fn found_shown(
    alloc: Global,
    found: &Result<Option<Data<'_>>, find::Error>,
) -> Result<String, Fail> {
    match found {
        Ok(Some(object)) => object_shown(alloc, object.kind, object.bytes),
        Ok(None) => word_of(alloc, "none"),
        Err(error) => word_of(alloc, find_word(error)),
    }
}

/// The result of a header look-up: the kind and the size, `none`, or an error's word.
pub fn header_shown(
    alloc: Global,
    found: &Result<Option<(u64, Kind)>, find::Error>,
) -> Result<String, Fail> {
    match found {
        Ok(Some((size, kind))) => Ok(format!(in alloc; "{kind} {size}")?),
        Ok(None) => word_of(alloc, "none"),
        Err(error) => word_of(alloc, find_word(error)),
    }
}

/// The result of a test of presence: `yes`, `no`, or an error's word.
pub fn presence_shown(found: &Result<bool, find::Error>) -> &'static str {
    match found {
        Ok(true) => "yes",
        Ok(false) => "no",
        Err(error) => find_word(error),
    }
}

/// The result of a write: the id, or an error's word.
pub fn wrote_shown(
    alloc: Global,
    written: &Result<ObjectId, write::Error>,
) -> Result<String, Fail> {
    match written {
        Ok(id) => Ok(format!(in alloc; "{id}")?),
        Err(error) => write_shown(alloc, error),
    }
}

pub fn find_word(error: &find::Error) -> &'static str {
    match error {
        find::Error::SizeMismatch { .. } => "size",
        find::Error::Decode => "decode",
        find::Error::OutOfMemory { .. } => "limit",
        find::Error::Io { .. } => "io",
        find::Error::NoMemory => "memory",
    }
}

/// An error of a write in a word, with the number of bytes if it isn't the expected one.
fn write_shown(alloc: Global, error: &write::Error) -> Result<String, Fail> {
    match error {
        write::Error::Io { .. } => word_of(alloc, "io"),
        write::Error::IoRaw => word_of(alloc, "raw"),
        write::Error::Persist { .. } => word_of(alloc, "persist"),
        write::Error::SizeMismatch { actual, .. } => Ok(format!(in alloc; "size {actual}")?),
        write::Error::NoMemory => word_of(alloc, "memory"),
    }
}

pub fn word_of(alloc: Global, word: &str) -> Result<String, Fail> {
    Ok(word.to_string(alloc)?)
}
