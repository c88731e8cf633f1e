//! What is sought of an object in packs, and what a pack gives.
ghost use Rattle.std.specs.Prelude.{◌≡◌, IfOk, IfErr};
ghost use Rattle.gix_odb_search.specs.Goal.{error_of, given_by};

use gix_hash::ObjectId;
use gix_object::{Kind, Want};
use gix_pack_read::data;
use odb_base::{ByteList, NoMemory};
use std::alloc::Global;
use thiserror::Error;

/// An object that is sought: its id, what is wanted of it, and the most bytes of data that it may have, if there is a limit.
#[derive(Clone, Copy)]
pub struct Goal {
    pub id: ObjectId,
    pub want: Want,
    pub limit: Option<u64>,
}

/// What was found of an object.
#[derive(Drop)]
pub enum Found {
    Object { kind: Kind, bytes: ByteList },
    Header { kind: Kind, size: u64 },
    Presence,
}

/// Why an index that has the id leads to no object.
#[derive(Clone, Copy, Debug, Error)]
pub enum Error {
    /// The pack could not be read, or is no pack.
    #[error("the pack could not be read")]
    LoadPack,
    /// There is no entry at the offset that the index names.
    #[error("there is no entry where the index says")]
    Pack,
    /// The entry has a type that is no kind of object.
    #[error("{code} is no type of an entry")]
    EntryType { code: u8 },
    /// The entry is a delta.
    #[error("the entry is a delta")]
    DeltaEntry,
    /// The size of the object is above the limit.
    #[error("an object of {size} bytes is above the limit")]
    OutOfMemory { size: u64 },
}

fn error_of(error: data::Error) -> Error
    ensures error { result ≡ error_of error }
{
    match error {
        data::Error::BadPack => Error::LoadPack,
        data::Error::BadEntry => Error::Pack,
        data::Error::DeltaEntry => Error::DeltaEntry,
        data::Error::OutOfMemory { size } => Error::OutOfMemory { size },
        data::Error::EntryType { code } => Error::EntryType { code },
    }
}

impl Goal {
    /// Returns what a pack gives at an offset. The outer error: memory ran out.
    pub(crate) fn given_by(
        &self,
        alloc: Global,
        pack: &data::File,
        offset: u64,
    ) -> Result<Result<Found, Error>, NoMemory>
        ensures given { IfOk result (λ given. given ≡ given_by self.now.want self.now.limit pack.now offset) }
    {
        match self.want {
            Want::Object => object_at(alloc, pack, offset, self.limit),
            Want::Header => Ok(header_at(pack, offset)),
            Want::Presence => Ok(Ok(Found::Presence)),
        }
    }
}

fn object_at(
    alloc: Global,
    pack: &data::File,
    offset: u64,
    limit: Option<u64>,
) -> Result<Result<Found, Error>, NoMemory>
    ensures given { IfOk result (λ given. given ≡ given_by Want.Object limit pack.now offset) }
{
    match pack.entry(offset, limit) {
        Ok(entry) => Ok(Ok(Found::Object {
            kind: entry.kind,
            bytes: ByteList::from_slice(alloc, entry.bytes)?,
        })),
        Err(error) => Ok(Err(error_of(error))),
    }
}

fn header_at(pack: &data::File, offset: u64) -> Result<Found, Error>
    ensures given { result ≡ given_by Want.Header None pack.now offset }
{
    match pack.decode_header(offset) {
        Ok(header) => Ok(Found::Header {
            kind: header.kind,
            size: header.size,
        }),
        Err(error) => Err(error_of(error)),
    }
}
