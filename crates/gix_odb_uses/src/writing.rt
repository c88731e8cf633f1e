//! Calls that write: keeping bytes and finding them again, copying an object, storing data from a source.
ghost use Rattle.std.specs.Prelude.{◌≡◌, ◌≤◌, ◌↔◌, None, Some, IfOk, IfErr, IfSome, IsTrue};
ghost use Rattle.gix_hash.specs.ObjectId.{kind_of};
ghost use Rattle.gix_object.specs.Id.{object_id};
ghost use Rattle.gix_object.specs.Stream.{IsWhole};
ghost use Rattle.gix_odb_loose.specs.Store.{store_hash};
ghost use Rattle.gix_odb_loose.specs.WriteRuns.{WriteRuns, disk_seen, streamed, write_into};
ghost use Rattle.gix_odb_loose.specs.WriteStreams.{TakesFrom};
ghost use Rattle.gix_odb_uses.specs.Objects.{IsHeld};
ghost use Rattle.gix_odb_uses.specs.Written.{CanBeRead, IsCopied, IsRefusedCopy, IsRefusedKeep, IsWrite, TellsLength, blob_id, copied_on, kept_on};

use crate::Error;
use gix_hash::ObjectId;
use gix_object::Kind;
use gix_odb_loose::{Store, write};
use odb_base::Source;
use odb_disk::Disk;
use std::alloc::Global;

/// Keeps bytes as a blob, and checks that they are found again: the id of the blob.
pub fn keep<D: Disk>(
    alloc: Global,
    disk: &mut D,
    store: &Store,
    bytes: &[u8],
) -> Result<ObjectId, Error>
    ensures id { IfOk result (λ id. id ≡ blob_id store.now bytes.now) }
    ensures held { IfSome (D.state disk.new) (λ s. IfOk result (λ id. IsHeld store.now id s Kind.Blob bytes.now)) }
    ensures written { IfOk result (λ id. IsWrite store.now Kind.Blob bytes.now None
        (kept_on D.state D.faults D.answered store.now bytes.now disk.old disk.new) (Ok id)) }
    ensures refused { IfErr result (IsRefusedKeep store.now bytes.now
        (kept_on D.state D.faults D.answered store.now bytes.now disk.old disk.new)) }
    ensures later { D.faults disk.old ≤ D.faults disk.new }
    ensures streams { D.streams disk.new ≡ D.streams disk.old }
{
    let id = store.write_buf(alloc, disk, Kind::Blob, bytes)?;
    let mut found = Vec::new(alloc);
    let kind = store.find_into(alloc, disk, &id, &mut found)?;
    if is_blob(kind, found.as_slice(), bytes) {
        Ok(id)
    } else {
        Err(Error::NotKept)
    }
}

// Whether a blob of these bytes was found.
fn is_blob(kind: Option<Kind>, found: &[u8], bytes: &[u8]) -> bool
    ensures told { IsTrue result ↔ (kind ≡ Some Kind.Blob) × (found.now ≡ bytes.now) }
{
    match kind {
        Some(Kind::Blob) => found == bytes,
        Some(Kind::Tree | Kind::Commit | Kind::Tag) | None => false,
    }
}

/// Copies an object from one store to another, under its id. Returns whether there was one to copy.
pub fn copy<D: Disk>(
    alloc: Global,
    disk: &mut D,
    from: &Store,
    to: &Store,
    id: &ObjectId,
) -> Result<bool, Error>
    requires hash { kind_of id.now ≡ store_hash from.now }
    requires same { store_hash to.now ≡ store_hash from.now }
    ensures copied { IfOk result (IsCopied from.now to.now id.now
        (copied_on D.state D.faults D.answered from.now id.now disk.old disk.new)) }
    ensures read_back { IfSome (D.state disk.old)
        (λ s. IfOk result (CanBeRead from.now to.now id.now s (D.state disk.new))) }
    ensures refused { IfErr result (IsRefusedCopy from.now to.now id.now
        (copied_on D.state D.faults D.answered from.now id.now disk.old disk.new)) }
    ensures later { D.faults disk.old ≤ D.faults disk.new }
    ensures streams { D.streams disk.new ≡ D.streams disk.old }
{
    let mut bytes = Vec::new(alloc);
    match from.find_into(alloc, disk, id, &mut bytes)? {
        Some(kind) => {
            to.write_buf_with_known_id(alloc, disk, kind, bytes.as_slice(), *id)?;
            Ok(true)
        }
        None => Ok(false),
    }
}

/// Stores `size` bytes from a source as a blob: its id. The bytes pass through memory in pieces.
///
/// `StdSource::new(reader)` makes a source of a reader.
pub fn put<D: Disk, S: Source>(
    alloc: Global,
    disk: &mut D,
    store: &Store,
    size: u64,
    from: &mut S,
) -> Result<ObjectId, write::Error>
    ensures id { IfOk result
        (λ id. IfSome (S.left from.old) (λ bytes. id ≡ object_id (store_hash store.now) Kind.Blob bytes)) }
    ensures whole { IfOk result (λ _. IsWhole size (S.left from.old) (S.left from.new)) }
    ensures spared { IfOk result (λ _. S.faults from.new ≡ S.faults from.old) }
    ensures run { WriteRuns (write_into store.now Kind.Blob size None
        (streamed S.left S.faults from.old from.new)
        (disk_seen D.state D.faults D.answered disk.old disk.new) result) }
    ensures length { IfErr result (TellsLength size (S.left from.old)) }
    ensures few { TakesFrom size (S.left from.old) (S.left from.new) (S.faults from.old) (S.faults from.new) }
    ensures later { D.faults disk.old ≤ D.faults disk.new }
    ensures streams { D.streams disk.new ≡ D.streams disk.old }
{
    store.write_stream(alloc, disk, Kind::Blob, size, from)
}
