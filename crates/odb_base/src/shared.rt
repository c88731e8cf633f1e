//! Values with several owners.
ghost use Rattle.std.specs.Prelude.{◌≡◌, ◌++◌, IfOk, OnOk, OnErr};

use crate::{ByteList, NoMemory};
use std::alloc::Global;
use std::marker::Model;
use std::sync::Arc;

/// A value with several owners, in any threads, which contracts see as the value.
///
/// It wraps an `Arc`. To contracts, an `Arc` and its clone differ, since the place in memory is a part of it; here
/// owners of one value are equal.
#[derive(Debug, Drop)]
pub struct Shared<T> {
    owner: Arc<T>,
}

impl<T> Model for Shared<T> {
    ghost Value = { T };

    ghost coded = { T.code };

    ghost view = { λ shared. shared.owner.value };
}

impl<T> Shared<T> {
    /// The first owner of a value.
    pub fn new(alloc: Global, value: T) -> Result<Shared<T>, NoMemory>
    where
        T: Drop,
        ensures value { IfOk result (λ shared. shared ≡ value) }
    {
        let owner = Arc::new(alloc, value)?;
        Ok(Shared { owner })
    }

    /// One more owner. It allocates no memory, and fails if there are too many.
    pub fn try_clone(&self) -> Result<Shared<T>, NoMemory>
        ensures value { IfOk result (λ shared. shared ≡ self.now) }
    {
        let owner = Arc::try_clone(&self.owner)?;
        Ok(Shared { owner })
    }

    /// The value.
    pub fn value(&self) -> &T
        ensures value { result.now ≡ self.now }
    {
        &self.owner
    }
}

impl Shared<ByteList> {
    /// The first owner of a copy of a list.
    pub fn copy_of(alloc: Global, list: &ByteList) -> Result<Shared<ByteList>, NoMemory>
        ensures copy { IfOk result (λ copy. copy ≡ list.now) }
    {
        let copy = list.try_clone(alloc)?;
        Shared::new(alloc, copy)
    }

    /// A copy of the list.
    pub fn to_list(&self, alloc: Global) -> Result<ByteList, NoMemory>
        ensures copy { IfOk result (λ list. list ≡ self.now) }
    {
        self.value().try_clone(alloc)
    }

    /// Adds bytes at the end. If the list has other owners, this one gets a list of its own, and theirs stays as it was.
    /// On error nothing changes.
    pub fn extend_from_slice(&mut self, alloc: Global, bytes: &[u8]) -> Result<(), NoMemory>
        ensures ok { OnOk result (self.new ≡ self.old ++ bytes.now) }
        ensures err { OnErr result (self.new ≡ self.old) }
    {
        match Arc::get_mut(&mut self.owner) {
            Some(list) => list.extend_from_slice(bytes),
            None => self.extend_copy(alloc, bytes),
        }
    }

    /// Gets a list of its own, with bytes added at the end. On error nothing changes.
    fn extend_copy(&mut self, alloc: Global, bytes: &[u8]) -> Result<(), NoMemory>
        ensures ok { OnOk result (self.new ≡ self.old ++ bytes.now) }
        ensures err { OnErr result (self.new ≡ self.old) }
    {
        let mut list = self.to_list(alloc)?;
        list.extend_from_slice(bytes)?;
        self.owner = Arc::new(alloc, list)?;
        Ok(())
    }
}
