//! Caches of pack entries and objects.
ghost use Rattle.std.specs.Prelude.{◌≡◌, [], Option, None, IfOk, OnOk, OnErr};
ghost use Rattle.gix_pack.specs.Cache.{entry_of, got, put_of, Entries, GainsAtMost, GainsNone, IsLast, KeepsAll, Put};

use gix_hash::ObjectId;
use gix_object::Kind;
use odb_base::NoMemory;
use std::alloc::Global;

/// A cache of the data of a pack's entries. It has no model, since it is never asked.
pub trait DecodeEntry {
    /// Keeps the data of an entry, or doesn't.
    fn put(
        &mut self,
        alloc: Global,
        pack_id: u32,
        offset: u64,
        bytes: &[u8],
        kind: Kind,
        entry_size: usize,
    ) -> Result<(), NoMemory>;

    /// The kind and the size of an entry whose data are kept; the data are put into `out`.
    fn get(
        &mut self,
        alloc: Global,
        pack_id: u32,
        offset: u64,
        out: &mut Vec<u8>,
    ) -> Result<Option<(Kind, usize)>, NoMemory>;
}

/// A cache of objects.
pub trait Object {
    /// What it keeps.
    ghost entries: { Self → Entries };

    /// The last object that was put, if the type reports it.
    ghost last: { Self → Option Put };

    /// Keeps an object, or doesn't, and may drop others.
    fn put(&mut self, alloc: Global, id: ObjectId, kind: Kind, bytes: &[u8]) -> Result<(), NoMemory>
        ensures kept { OnOk result (GainsAtMost (entries self.old) (put_of id kind bytes.now) (entries self.new)) }
        ensures last { OnOk result (IsLast (last self.new) (put_of id kind bytes.now)) }
        ensures refused { OnErr result (GainsNone (entries self.old) (entries self.new)) }
        ensures refused_last { OnErr result (last self.new ≡ last self.old) };

    /// The kind of an object that is kept, whose data are put into `out`, cleared before.
    fn get(
        &mut self,
        alloc: Global,
        id: &ObjectId,
        out: &mut Vec<u8>,
    ) -> Result<Option<Kind>, NoMemory>
        ensures found { IfOk result (λ kind. got kind out.new.items ≡ entry_of (entries self.old) id.now) }
        ensures entries { KeepsAll (entries self.old) (entries self.new) }
        ensures last { last self.new ≡ last self.old };
}

/// The cache that keeps nothing.
#[derive(Clone, Copy)]
pub struct Never;

impl DecodeEntry for Never {
    fn put(
        &mut self,
        _: Global,
        _: u32,
        _: u64,
        _: &[u8],
        _: Kind,
        _: usize,
    ) -> Result<(), NoMemory> {
        Ok(())
    }

    fn get(
        &mut self,
        _: Global,
        _: u32,
        _: u64,
        _: &mut Vec<u8>,
    ) -> Result<Option<(Kind, usize)>, NoMemory> {
        Ok(None)
    }
}

impl Object for Never {
    ghost entries = { λ _. [] };

    ghost last = { λ _. None };

    fn put(
        &mut self,
        _alloc: Global,
        _id: ObjectId,
        _kind: Kind,
        _bytes: &[u8],
    ) -> Result<(), NoMemory> {
        Ok(())
    }

    fn get(
        &mut self,
        _alloc: Global,
        _id: &ObjectId,
        _out: &mut Vec<u8>,
    ) -> Result<Option<Kind>, NoMemory> {
        Ok(None)
    }
}
