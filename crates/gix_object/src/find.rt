//! Databases in which objects, their headers or their existence are looked up.
ghost use Rattle.std.specs.Prelude.{◌≡◌, Option, Result, Bool, IfOk, IfSome};
ghost use Rattle.gix_hash.specs.declared.kind.Kind.{Kind as hash_kind};
ghost use Rattle.gix_hash.specs.declared.object_id.ObjectId.{ObjectId as object_id};
ghost use Rattle.gix_hash.specs.ObjectId.{kind_of};
ghost use Rattle.gix_object.specs.Data.{found_of, Object};
ghost use Rattle.gix_object.specs.declared.data.Header.{Header as header_data};

use crate::{Data, Header};
use gix_hash::ObjectId;
use std::alloc::Global;
use std::sync::Wait;

/// A database that finds objects by their ids.
///
/// The answer of a find is a relation of its own, so that a wrapper can promise what the wrapped database answered in
/// that call.
pub trait Find {
    /// Why a find was refused.
    type Error: Drop;

    /// The hash of ids.
    ghost hash: { Self → hash_kind };

    /// A database is asked for an id, gives an answer, and is another database afterwards.
    ghost finds: { Self → object_id → Result (Option Object) Self.Error → Self → Type 0 };

    /// Finds an object, whose data are put into `out`, cleared before. None is an object that isn't there.
    fn try_find<'a, R: Wait>(
        &mut self,
        rt: &R,
        alloc: Global,
        id: &ObjectId,
        out: &'a mut Vec<u8>,
    ) -> Result<Option<Data<'a>>, Self::Error>
        requires hash { kind_of id.now ≡ hash self.old }
        ensures answered { finds self.old id.now (found_of result) self.new }
        ensures object_hash { IfOk result (λ found. IfSome found (λ object. object.object_hash ≡ hash self.old)) }
        ensures hash { hash self.new ≡ hash self.old };
}

/// A database that returns the kind and the size of objects.
pub trait FindHeader {
    /// Why a look-up was refused.
    type Error: Drop;

    /// The hash of ids.
    ghost hash: { Self → hash_kind };

    /// A database is asked for the header of an id, gives an answer, and is another database afterwards.
    ghost finds_header: { Self → object_id → Result (Option header_data) Self.Error → Self → Type 0 };

    /// The kind of an object, and the size of its data in bytes. None is an object that isn't there.
    fn try_header<R: Wait>(
        &mut self,
        rt: &R,
        alloc: Global,
        id: &ObjectId,
    ) -> Result<Option<Header>, Self::Error>
        requires hash { kind_of id.now ≡ hash self.old }
        ensures answered { finds_header self.old id.now result self.new }
        ensures hash { hash self.new ≡ hash self.old };
}

/// A database that tests whether it has an object.
pub trait Exists {
    /// Why a test was refused.
    type Error: Drop;

    /// The hash of ids.
    ghost hash: { Self → hash_kind };

    /// A database is asked whether it has an id, gives an answer, and is another database afterwards.
    ghost tests: { Self → object_id → Result Bool Self.Error → Self → Type 0 };

    /// Whether there is an object with this id.
    fn exists<R: Wait>(&mut self, rt: &R, alloc: Global, id: &ObjectId) -> Result<bool, Self::Error>
        requires hash { kind_of id.now ≡ hash self.old }
        ensures answered { tests self.old id.now result self.new }
        ensures hash { hash self.new ≡ hash self.old };
}
