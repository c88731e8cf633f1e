//! Calls that only read: the kinds of objects, and whether an object is sound, damaged or absent.
ghost use Rattle.std.specs.Prelude.{◌≡◌, ◌≤◌, ◌++◌, ◌∷◌, [], All, IfOk, IfErr, IfSome, OnOk, Some};
ghost use Rattle.std.specs.List.{AllZip};
ghost use Rattle.odb_base.specs.Faults.{Rose};
ghost use Rattle.gix_hash.specs.ObjectId.{kind_of};
ghost use Rattle.gix_odb_loose.specs.Answers.{HeaderRefused, path_in};
ghost use Rattle.gix_odb_loose.specs.Store.{store_hash};
ghost use Rattle.gix_odb_uses.specs.Objects.{IsKindAt, IsRefusedAmong};
ghost use Rattle.gix_odb_uses.specs.Conditions.{IsIn, TellsFound, condition_by};
ghost use Rattle.gix_odb_uses.specs.Reads.{MayRead, MayReadEach};

use gix_hash::ObjectId;
use gix_object::{Kind, compute_hash};
use gix_odb_loose::{Store, find};
use odb_base::NoMemory;
use odb_disk::Disk;
use std::alloc::Global;

/// The kinds of objects, in the order of their ids. `None` is an object that isn't there.
pub fn kinds_of<D: Disk>(
    alloc: Global,
    disk: &mut D,
    store: &Store,
    ids: &[ObjectId],
) -> Result<Vec<Option<Kind>>, find::Error>
    requires hash { All (λ id. kind_of id ≡ store_hash store.now) ids.now }
    ensures kinds { IfSome (D.state disk.old)
        (λ s. IfOk result (λ kinds. AllZip (IsKindAt store.now s) ids.now kinds.items)) }
    ensures refused { IfErr result (IsRefusedAmong store.now ids.now (D.state disk.old)
        (Rose (D.faults disk.old) (D.faults disk.new))) }
    ensures kept { D.state disk.new ≡ D.state disk.old }
    ensures later { D.faults disk.old ≤ D.faults disk.new }
    ensures streams { D.streams disk.new ≡ D.streams disk.old }
    ensures asked { MayReadEach D.answered store.now ids.now disk.old disk.new }
{
    let mut kinds = Vec::new(alloc);
    for id in ids {
        let kind = kind_at(alloc, disk, store, id)?;
        add(&mut kinds, kind)?;
    }
    Ok(kinds)
}

// The kind of an object, if it is there.
fn kind_at<D: Disk>(
    alloc: Global,
    disk: &mut D,
    store: &Store,
    id: &ObjectId,
) -> Result<Option<Kind>, find::Error>
    requires hash { kind_of id.now ≡ store_hash store.now }
    ensures kind { IfSome (D.state disk.old) (λ s. IfOk result (IsKindAt store.now s id.now)) }
    ensures refused { IfErr result (HeaderRefused store.now id.now (D.state disk.old)
        (Rose (D.faults disk.old) (D.faults disk.new))) }
    ensures kept { D.state disk.new ≡ D.state disk.old }
    ensures later { D.faults disk.old ≤ D.faults disk.new }
    ensures streams { D.streams disk.new ≡ D.streams disk.old }
    ensures asked { MayRead D.answered (path_in store.now id.now) disk.old disk.new }
{
    match store.try_header(alloc, disk, id)? {
        Some((_, kind)) => Ok(Some(kind)),
        None => Ok(None),
    }
}

fn add(kinds: &mut Vec<Option<Kind>>, kind: Option<Kind>) -> Result<(), NoMemory>
    ensures ok { OnOk result (kinds.new.items ≡ kinds.old.items ++ kind ∷ []) }
{
    Ok(kinds.push(kind)?)
}

/// What is known of an object by its file.
#[derive(Clone, Copy, Debug, PartialEq, Eq)]
pub enum Condition {
    /// The file holds an object, and this id is the hash of it.
    Sound,
    /// Nothing is at the object's path.
    Absent,
    /// The file begins with no header, has more or fewer bytes of data than its header says, or holds an object of
    /// another id.
    Damaged,
    /// It couldn't be read: a call of the disk failed, the path leads to no file or to an empty one, or the header says
    /// more than the limit of the store.
    Unread,
}

/// Distinguishes a damaged object from an absent one. The only error is `NoMemory`.
pub fn condition_of<D: Disk>(
    alloc: Global,
    disk: &mut D,
    store: &Store,
    id: &ObjectId,
) -> Result<Condition, NoMemory>
    requires hash { kind_of id.now ≡ store_hash store.now }
    ensures condition { IfSome (D.state disk.old)
        (λ s. IfOk result (IsIn store.now id.now s (Rose (D.faults disk.old) (D.faults disk.new)))) }
    ensures kept { D.state disk.new ≡ D.state disk.old }
    ensures later { D.faults disk.old ≤ D.faults disk.new }
    ensures streams { D.streams disk.new ≡ D.streams disk.old }
    ensures asked { MayRead D.answered (path_in store.now id.now) disk.old disk.new }
{
    let mut bytes = Vec::new(alloc);
    match store.find_into(alloc, disk, id, &mut bytes) {
        Ok(Some(kind)) => condition_found(alloc, store.object_hash(), id, kind, bytes.as_slice()),
        Ok(None) => Ok(Condition::Absent),
        Err(error) => condition_refused(&error),
    }
}

// The condition of an object that was found with this kind and data.
fn condition_found(
    alloc: Global,
    hash: gix_hash::Kind,
    id: &ObjectId,
    kind: Kind,
    bytes: &[u8],
) -> Result<Condition, NoMemory>
    ensures found { IfOk result (TellsFound hash id.now kind bytes.now) }
{
    if compute_hash(alloc, hash, kind, bytes)? == *id {
        Ok(Condition::Sound)
    } else {
        Ok(Condition::Damaged)
    }
}

// The condition of an object whose find was refused.
fn condition_refused(error: &find::Error) -> Result<Condition, NoMemory>
    ensures refused { IfOk result (λ condition. condition_by error.now ≡ Some condition) }
{
    match error {
        find::Error::Decode | find::Error::SizeMismatch { .. } => Ok(Condition::Damaged),
        find::Error::OutOfMemory { .. } | find::Error::Io { .. } => Ok(Condition::Unread),
        find::Error::NoMemory => Err(NoMemory),
    }
}
