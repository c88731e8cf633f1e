//! Lists of bytes.
ghost use Rattle.std.specs.Prelude.{◌≡◌, ◌==◌, ◌↔◌, List, ℕ, [], ◌∷◌, ◌++◌, length, IfOk, OnOk, OnErr, IsTrue, nat_eq, slice_get};
ghost use Rattle.std.specs.Cmp.Lexicographic.{nat_list_eq_equiv};
ghost use Rattle.std.specs.Cmp.{partial_equiv_from_equiv};
ghost use lib.Pointwise.{pointwise};

use crate::NoMemory;
use std::alloc::Global;
use std::marker::Model;

/// A list of bytes, as the contents of a file.
///
/// It wraps a `Vec<u8>` and is seen as the list of its bytes: two lists with the same bytes are equal.
#[derive(Debug, Drop)]
pub struct ByteList {
    bytes: Vec<u8>,
}

impl Model for ByteList {
    ghost Value = { List ℕ };

    ghost view = { λ list. list.bytes.items };
}

impl ByteList {
    /// An empty list. It allocates no memory.
    pub fn new(alloc: Global) -> ByteList
        ensures empty { result ≡ [] }
    {
        ByteList {
            bytes: Vec::new(alloc),
        }
    }

    /// The bytes of a vector, which becomes the list.
    pub fn from_vec(bytes: Vec<u8>) -> ByteList
        ensures bytes { result ≡ bytes.items }
    {
        ByteList { bytes }
    }

    /// A copy of the bytes of a slice.
    pub fn from_slice(alloc: Global, bytes: &[u8]) -> Result<ByteList, NoMemory>
        ensures bytes { IfOk result (λ list. list ≡ bytes.now) }
    {
        let bytes = bytes.to_vec(alloc)?;
        Ok(ByteList { bytes })
    }

    /// The vector of the bytes.
    pub fn into_vec(self) -> Vec<u8>
        ensures items { result.items ≡ self }
    {
        self.bytes
    }

    /// The bytes as a slice.
    pub fn as_slice(&self) -> &[u8]
        ensures value { result.now ≡ self.now }
    {
        &self.bytes
    }

    /// The number of bytes.
    pub fn len(&self) -> usize
        ensures len { result ≡ length self.now }
    {
        self.bytes.len()
    }

    /// Whether there is no byte.
    pub fn is_empty(&self) -> bool
        ensures empty { IsTrue result ↔ (self.now ≡ []) }
    {
        self.bytes.is_empty()
    }

    /// The byte at an index, counted from 0, if there is one.
    pub fn get(&self, index: usize) -> Option<u8>
        ensures value { result ≡ slice_get self.now index }
    {
        self.bytes.get(index).copied()
    }

    /// Adds a byte at the end. On error nothing changes.
    pub fn push(&mut self, byte: u8) -> Result<(), NoMemory>
        ensures ok { OnOk result (self.new ≡ self.old ++ byte ∷ []) }
        ensures err { OnErr result (self.new ≡ self.old) }
    {
        self.bytes.push(byte)?;
        Ok(())
    }

    /// Adds bytes at the end. On error nothing changes.
    pub fn extend_from_slice(&mut self, bytes: &[u8]) -> Result<(), NoMemory>
        ensures ok { OnOk result (self.new ≡ self.old ++ bytes.now) }
        ensures err { OnErr result (self.new ≡ self.old) }
    {
        self.bytes.extend_from_slice(bytes)?;
        Ok(())
    }

    /// A copy of the list.
    pub fn try_clone(&self, alloc: Global) -> Result<ByteList, NoMemory>
        ensures copy { IfOk result (λ list. list ≡ self.now) }
    {
        ByteList::from_slice(alloc, &self.bytes)
    }
}

impl PartialEq for ByteList {
    ghost eq = { pointwise nat_eq };

    fn eq(&self, other: &ByteList) -> bool {
        self.bytes.as_slice() == other.bytes.as_slice()
    }

    ghost laws = { partial_equiv_from_equiv nat_list_eq_equiv };
}

impl Eq for ByteList {
    ghost laws = { nat_list_eq_equiv };
}
