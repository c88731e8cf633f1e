//! What is made of the answer of the disk: by a find, a look for a header and a test, each with a result of its own type.
//! Nothing else decides. The path is copied where an error tells it.
ghost use Rattle.std.specs.Prelude.{◌≡◌, ◌≤◌, ◌↔◌, ℕ, List, length, drop, IfOk, IfErr, IsTrue};
ghost use Rattle.gix_odb_loose.specs.LooseOrder.Answered.{tested_by, found_by, header_by, object_from, header_from, spelled_in, unread_by, flaw_error};
ghost use Rattle.gix_odb_loose.specs.LooseOrder.Answered.{unreadable as unreadable_at};

use crate::find::{Action, Error};
use gix_object::{Kind, decode, is_within};
use odb_base::{ByteList, NoMemory, PathText};
use odb_disk::{DiskAnswer, DiskError};
use std::alloc::Global;

/// What a file lacks.
pub enum Flaw {
    /// It has no bytes.
    Empty,
    /// It begins with no header.
    NoHeader,
}

/// The result of a test of presence, from the answer to a stat of the path.
pub fn tested(
    alloc: Global,
    path: &PathText,
    answer: &DiskAnswer,
) -> Result<Result<bool, Error>, NoMemory>
    ensures answer { IfOk result (λ told. told ≡ tested_by path.now answer.now) }
{
    match answer {
        DiskAnswer::Meta(meta) => Ok(Ok(matches!(meta.kind, odb_disk::Kind::File))),
        DiskAnswer::Refused(DiskError::Failed) => Ok(Err(unreadable(alloc, path)?)),
        DiskAnswer::Refused(DiskError::NoMemory) => Ok(Err(Error::NoMemory)),
        _ => Ok(Ok(false)),
    }
}

/// The result of a find, from the answer to a read of the path.
pub fn found(
    alloc: Global,
    path: &PathText,
    limit: Option<u64>,
    answer: DiskAnswer,
) -> Result<Result<Option<(Kind, ByteList)>, Error>, NoMemory>
    ensures answer { IfOk result (λ told. told ≡ found_by path.now limit answer) }
{
    match answer {
        DiskAnswer::File { bytes, .. } => object_in(alloc, path, limit, bytes),
        other => unread(alloc, path, &other),
    }
}

/// The result of a header look-up, from the answer to a read of the path.
pub fn headed(
    alloc: Global,
    path: &PathText,
    answer: &DiskAnswer,
) -> Result<Result<Option<(u64, Kind)>, Error>, NoMemory>
    ensures answer { IfOk result (λ told. told ≡ header_by path.now answer.now) }
{
    match answer {
        DiskAnswer::File { bytes, .. } => header_in(alloc, path, bytes.as_slice()),
        other => unread(alloc, path, other),
    }
}

// The result for a read that returned no file.
fn unread<T>(
    alloc: Global,
    path: &PathText,
    answer: &DiskAnswer,
) -> Result<Result<Option<T>, Error>, NoMemory>
    ensures answer { IfOk result (λ told. told ≡ unread_by path.now answer.now) }
{
    match answer {
        DiskAnswer::Refused(DiskError::Absent) => Ok(Ok(None)),
        DiskAnswer::Refused(DiskError::NoMemory) => Ok(Err(Error::NoMemory)),
        _ => Ok(Err(unreadable(alloc, path)?)),
    }
}

// The object in a file, whose bytes are moved, not copied.
fn object_in(
    alloc: Global,
    path: &PathText,
    limit: Option<u64>,
    bytes: ByteList,
) -> Result<Result<Option<(Kind, ByteList)>, Error>, NoMemory>
    ensures object { IfOk result (λ told. told ≡ object_from path.now limit (spelled_in bytes)) }
{
    let (kind, expected, header_len) = match spelled(bytes.as_slice()) {
        Ok(header) => header,
        Err(flaw) => return Ok(Err(flawed(alloc, path, flaw)?)),
    };
    if !is_within(limit, expected) {
        return Ok(Err(Error::OutOfMemory { size: expected }));
    }
    let data = behind(bytes, header_len);
    let actual = data.len() as u64;
    if actual != expected {
        return Ok(Err(Error::SizeMismatch {
            actual,
            expected,
            path: path.try_clone(alloc)?,
        }));
    }
    Ok(Ok(Some((kind, data))))
}

// The header of a file.
fn header_in(
    alloc: Global,
    path: &PathText,
    bytes: &[u8],
) -> Result<Result<Option<(u64, Kind)>, Error>, NoMemory>
    ensures header { IfOk result (λ told. told ≡ header_from path.now (spelled_in bytes.now)) }
{
    match spelled(bytes) {
        Ok((kind, size, _)) => Ok(Ok(Some((size, kind)))),
        Err(flaw) => Ok(Err(flawed(alloc, path, flaw)?)),
    }
}

// The kind, the size and the length of a file's header.
fn spelled(bytes: &[u8]) -> Result<(Kind, u64, usize), Flaw>
    ensures found { IfOk result (λ header. spelled_in bytes.now ≡ Ok (record { kind = header.0; size = header.1; rest = drop header.2 bytes.now })) }
    ensures within { IfOk result (λ header. header.2 ≤ length bytes.now) }
    ensures flawed { IfErr result (λ flaw. spelled_in bytes.now ≡ Err flaw) }
{
    if bytes.is_empty() {
        return Err(Flaw::Empty);
    }
    match decode::loose_header(bytes) {
        Ok(header) => Ok(header),
        Err(_) => Err(Flaw::NoHeader),
    }
}

// The bytes after the first `len`, in the same buffer.
fn behind(bytes: ByteList, len: usize) -> ByteList
    requires within { len ≤ length bytes }
    ensures rest { result ≡ drop len bytes }
{
    let mut bytes = bytes.into_vec();
    let _ = bytes.drain(..len);
    ByteList::from_vec(bytes)
}

fn flawed(alloc: Global, path: &PathText, flaw: Flaw) -> Result<Error, NoMemory>
    ensures error { IfOk result (λ error. error ≡ flaw_error path.now flaw) }
{
    match flaw {
        Flaw::Empty => unreadable(alloc, path),
        Flaw::NoHeader => Ok(Error::Decode),
    }
}

fn unreadable(alloc: Global, path: &PathText) -> Result<Error, NoMemory>
    ensures error { IfOk result (λ error. error ≡ unreadable_at path.now) }
{
    Ok(Error::Io {
        action: Action::OpenOrMap,
        path: path.try_clone(alloc)?,
    })
}
