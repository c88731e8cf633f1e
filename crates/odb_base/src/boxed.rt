//! Values on the heap.
ghost use Rattle.std.specs.Prelude.{◌≡◌, IfOk};

use crate::NoMemory;
use std::alloc::Global;
use std::marker::Model;

/// A value on the heap, which contracts see as the value.
///
/// It wraps a `Box`. A large and rare part of a list's items is kept in one, so that items without it don't take its room.
#[derive(Debug, Drop)]
pub struct Boxed<T> {
    owner: Box<T>,
}

impl<T> Model for Boxed<T> {
    ghost Value = { T };

    ghost coded = { T.code };

    ghost view = { λ boxed. boxed.owner.value };
}

impl<T> Boxed<T> {
    /// Moves a value to the heap.
    pub fn new(alloc: Global, value: T) -> Result<Boxed<T>, NoMemory>
    where
        T: Drop,
        ensures value { IfOk result (λ boxed. boxed ≡ value) }
    {
        let owner = Box::new(alloc, value)?;
        Ok(Boxed { owner })
    }

    /// The value.
    pub fn get(&self) -> &T
        ensures value { result.now ≡ self.now }
    {
        &self.owner
    }

    /// The value itself.
    pub fn into_inner(self) -> T
        ensures value { result ≡ self }
    {
        Box::into_inner(self.owner)
    }
}
