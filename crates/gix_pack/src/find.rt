//! Databases that find objects and their locations in packs, and look-ups by location.
ghost use Rattle.std.specs.Prelude.{◌≡◌, ℕ, Bool, List, Option, Result, IfOk, IfSome};
ghost use Rattle.gix_hash.specs.declared.kind.Kind.{Kind as hash_kind};
ghost use Rattle.gix_hash.specs.declared.object_id.ObjectId.{ObjectId as object_id};
ghost use Rattle.gix_hash.specs.ObjectId.{kind_of};
ghost use Rattle.gix_pack.specs.PackFind.{found_at, rows_listed, Found, IsPackOfGiven, KeepsGiven};
ghost use Rattle.gix_pack_read.specs.declared.data.entry.Location.{Location as location_data};
ghost use Rattle.gix_pack.specs.declared.find.Entry.{Entry as entry_data};
ghost use Rattle.odb_base.specs.declared.no_memory.NoMemory.{NoMemory as no_memory};

use crate::cache::DecodeEntry;
use gix_hash::ObjectId;
use gix_object::Data;
use gix_pack_read::data::entry::Location;
use odb_base::{ByteList, NoMemory};
use std::alloc::Global;
use std::sync::Wait;

/// The bytes of a pack's entry, beginning with its header, and the version of the pack.
#[derive(Debug, Drop)]
pub struct Entry {
    pub bytes: ByteList,
    pub version: u32,
}

/// A database that finds objects by their ids, and in packs by their locations.
///
/// The answer of a call is a relation of its own, so that a wrapper can promise what the wrapped database answered in
/// that call. A location is asked for only if the database is stable: it then keeps the packs that it has loaded, and
/// takes no object for another.
pub trait Find {
    /// Why a find was refused.
    type Error: Drop;

    /// The hash of ids.
    ghost hash: { Self → hash_kind };

    /// Its locations stay valid.
    ghost is_stable: { Self → Type 0 };

    /// A location that it returned.
    ghost gave: { Self → location_data → Type 0 };

    /// A database is asked whether it has an id, gives an answer, and is another database afterwards.
    ghost tests: { Self → object_id → Result Bool Self.Error → Self → Type 0 };

    /// A database is asked to find an id, and answers with the object and its location; otherwise like `tests`.
    ghost finds: { Self → object_id → Result (Option Found) Self.Error → Self → Type 0 };

    /// A database is asked for the location of an id; otherwise like `tests`.
    ghost locates: { Self → object_id → Result (Option location_data) Self.Error → Self → Type 0 };

    /// A database is asked for the list of a pack's objects; otherwise like `tests`.
    ghost lists: { Self → ℕ → Result (List (ℕ × object_id)) no_memory → Self → Type 0 };

    /// A database is asked for the entry at a location; otherwise like `tests`.
    ghost reads: { Self → location_data → Result entry_data no_memory → Self → Type 0 };

    /// Whether there is an object with this id.
    fn contains<R: Wait>(
        &mut self,
        rt: &R,
        alloc: Global,
        id: &ObjectId,
    ) -> Result<bool, Self::Error>
        requires hash { kind_of id.now ≡ hash self.old }
        ensures answered { tests self.old id.now result self.new }
        ensures hash { hash self.new ≡ hash self.old }
        ensures stable { is_stable self.old → is_stable self.new }
        ensures given { KeepsGiven (gave self.old) (gave self.new) };

    /// Finds an object, whose data are put into `out`, cleared before, and its location in a pack, if it has one.
    /// None is an object that isn't there.
    fn try_find<'a, R: Wait>(
        &mut self,
        rt: &R,
        alloc: Global,
        id: &ObjectId,
        out: &'a mut Vec<u8>,
    ) -> Result<Option<(Data<'a>, Option<Location>)>, Self::Error>
        requires hash { kind_of id.now ≡ hash self.old }
        ensures answered { finds self.old id.now (found_at result) self.new }
        ensures object_hash { IfOk result (λ found. IfSome found (λ pair. pair.0.object_hash ≡ hash self.old)) }
        ensures hash { hash self.new ≡ hash self.old }
        ensures stable { is_stable self.old → is_stable self.new }
        ensures given { KeepsGiven (gave self.old) (gave self.new) };

    /// `try_find` with a cache of the data of entries, which it may ask and fill.
    fn try_find_cached<'a, R: Wait, C: DecodeEntry>(
        &mut self,
        rt: &R,
        alloc: Global,
        id: &ObjectId,
        out: &'a mut Vec<u8>,
        cache: &mut C,
    ) -> Result<Option<(Data<'a>, Option<Location>)>, Self::Error>
        requires hash { kind_of id.now ≡ hash self.old }
        ensures answered { finds self.old id.now (found_at result) self.new }
        ensures object_hash { IfOk result (λ found. IfSome found (λ pair. pair.0.object_hash ≡ hash self.old)) }
        ensures hash { hash self.new ≡ hash self.old }
        ensures stable { is_stable self.old → is_stable self.new }
        ensures given { KeepsGiven (gave self.old) (gave self.new) };

    /// The location of an object in a pack. None is an object that is in none.
    fn location_by_oid<R: Wait>(
        &mut self,
        rt: &R,
        alloc: Global,
        id: &ObjectId,
    ) -> Result<Option<Location>, Self::Error>
        requires hash { kind_of id.now ≡ hash self.old }
        requires stable { is_stable self.old }
        ensures answered { locates self.old id.now result self.new }
        ensures gives { IfOk result (λ found. IfSome found (gave self.new)) }
        ensures hash { hash self.new ≡ hash self.old }
        ensures stable { is_stable self.new }
        ensures given { KeepsGiven (gave self.old) (gave self.new) };

    /// The offset and the id of each object of the pack of a given location, in the order of its index.
    fn pack_offsets_and_oid<R: Wait>(
        &mut self,
        rt: &R,
        alloc: Global,
        pack_id: u32,
    ) -> Result<Vec<(u64, ObjectId)>, NoMemory>
        requires given { IsPackOfGiven (gave self.old) pack_id }
        requires stable { is_stable self.old }
        ensures answered { lists self.old pack_id (rows_listed result) self.new }
        ensures hash { hash self.new ≡ hash self.old }
        ensures stable { is_stable self.new }
        ensures given { KeepsGiven (gave self.old) (gave self.new) };

    /// The bytes of the entry at a given location, and the version of its pack.
    fn entry_by_location<R: Wait>(
        &mut self,
        rt: &R,
        alloc: Global,
        location: &Location,
    ) -> Result<Entry, NoMemory>
        requires given { gave self.old location.now }
        requires stable { is_stable self.old }
        ensures answered { reads self.old location.now result self.new }
        ensures hash { hash self.new ≡ hash self.old }
        ensures stable { is_stable self.new }
        ensures given { KeepsGiven (gave self.old) (gave self.new) };
}
