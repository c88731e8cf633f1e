//! A call on an open handle: what it asks for, what it ends with, and why it is refused.
ghost use Rattle.std.specs.Prelude.{◌≡◌, Some, IfOk};
ghost use Rattle.gix_odb_calls.specs.Hashes.{is_of_hash};
ghost use Rattle.gix_odb_calls.specs.Query.{query_of};

use crate::hashes::is_id_of;
use crate::query::Query;
use crate::{find, init, write};
use gix_hash::ObjectId;
use gix_object::{Kind, Want};
use odb_base::{ByteList, NoMemory};
use std::alloc::Global;
use thiserror::Error;

/// A call on an open handle.
#[derive(Drop)]
pub enum Call {
    /// Finds an object by its id.
    Find(ObjectId),
    /// Returns the kind and the size of an object by its id.
    Header(ObjectId),
    /// Tests whether an object is there.
    Test(ObjectId),
    /// Writes an object with `size` bytes of data, under the id if it is known.
    Write {
        kind: Kind,
        size: u64,
        bytes: ByteList,
        id: Option<ObjectId>,
    },
}

impl Call {
    /// The query of the call; a write has none.
    pub fn query(&self) -> Option<Query>
        ensures query { result ≡ query_of self.now }
    {
        match self {
            Call::Find(id) => asked(Want::Object, *id),
            Call::Header(id) => asked(Want::Header, *id),
            Call::Test(id) => asked(Want::Presence, *id),
            Call::Write { .. } => None,
        }
    }

    /// A copy of the call.
    pub fn try_clone(&self, alloc: Global) -> Result<Call, NoMemory>
        ensures copied { IfOk result (λ copy. copy ≡ self.now) }
    {
        match self {
            Call::Find(id) => Ok(Call::Find(*id)),
            Call::Header(id) => Ok(Call::Header(*id)),
            Call::Test(id) => Ok(Call::Test(*id)),
            Call::Write {
                kind,
                size,
                bytes,
                id,
            } => Ok(Call::Write {
                kind: *kind,
                size: *size,
                bytes: bytes.try_clone(alloc)?,
                id: *id,
            }),
        }
    }

    /// Whether the ids of the call are of this hash. A write of an object whose id isn't known has none.
    pub fn is_of_hash(&self, hash: gix_hash::Kind) -> bool
        ensures of_hash { result ≡ is_of_hash hash self.now }
    {
        match self {
            Call::Find(id) | Call::Header(id) | Call::Test(id) => is_id_of(hash, *id),
            Call::Write { id: Some(id), .. } => is_id_of(hash, *id),
            Call::Write { id: None, .. } => true,
        }
    }
}

fn asked(want: Want, of: ObjectId) -> Option<Query>
    ensures query { result ≡ Some (record { want = want; of = of }) }
{
    Some(Query { want, of })
}

/// The end of a call, or of an opening.
#[derive(Debug, Drop)]
pub enum Reply {
    /// The store is open, and has this many slots.
    Opened { slots: u16 },
    Found { kind: Kind, bytes: ByteList },
    Header(find::Header),
    /// Whether the object is there.
    Tested(bool),
    NotFound,
    /// The object has its name, this id.
    Wrote(ObjectId),
    Refused(CallError),
}

impl Reply {
    /// A copy of the reply.
    pub fn try_clone(&self, alloc: Global) -> Result<Reply, NoMemory>
        ensures copied { IfOk result (λ copy. copy ≡ self.now) }
    {
        match self {
            Reply::Opened { slots } => Ok(Reply::Opened { slots: *slots }),
            Reply::Found { kind, bytes } => Ok(Reply::Found {
                kind: *kind,
                bytes: bytes.try_clone(alloc)?,
            }),
            Reply::Header(header) => Ok(Reply::Header(*header)),
            Reply::Tested(there) => Ok(Reply::Tested(*there)),
            Reply::NotFound => Ok(Reply::NotFound),
            Reply::Wrote(id) => Ok(Reply::Wrote(*id)),
            Reply::Refused(error) => Ok(Reply::Refused(error.try_clone(alloc)?)),
        }
    }
}

/// Why a call was refused, by the kind of call.
#[derive(Debug, Drop, Error)]
pub enum CallError {
    #[error("{0}")]
    Open(init::Error),
    #[error("{0}")]
    Find(find::Error),
    #[error("{0}")]
    Write(write::Error),
}

impl CallError {
    /// A copy of the error.
    pub fn try_clone(&self, alloc: Global) -> Result<CallError, NoMemory>
        ensures copied { IfOk result (λ copy. copy ≡ self.now) }
    {
        match self {
            CallError::Open(error) => Ok(CallError::Open(error.try_clone(alloc)?)),
            CallError::Find(error) => Ok(CallError::Find(error.try_clone(alloc)?)),
            CallError::Write(error) => Ok(CallError::Write(error.try_clone(alloc)?)),
        }
    }
}
