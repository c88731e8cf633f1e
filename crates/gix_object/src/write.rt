//! Objects that produce their data, and databases to which objects are written.
ghost use Rattle.std.specs.Prelude.{◌≡◌, ℕ, List, Option, Result, length, IfOk, IfSome, Some, None};
ghost use Rattle.odb_base.specs.Faults.{HasCause};
ghost use Rattle.gix_hash.specs.declared.kind.Kind.{Kind as hash_kind};
ghost use Rattle.gix_hash.specs.declared.object_id.ObjectId.{ObjectId as id_of_object};
ghost use Rattle.gix_hash.specs.ObjectId.{kind_of};
ghost use Rattle.gix_object.specs.declared.kind.Kind.{Kind as object_kind};
ghost use Rattle.gix_object.specs.Id.{object_id};
ghost use Rattle.gix_object.specs.Data.{Object};
ghost use Rattle.gix_object.specs.Stream.{stream_of, IsDrawn, IsWhole, Puts, Stream};

use crate::{Data, Kind};
use gix_hash::ObjectId;
use odb_base::{Failed, Sink, Source, write_all};
use std::alloc::Global;
use std::sync::Wait;

/// An object that can be written: a kind, and the bytes of its data.
pub trait WriteTo {
    /// Its kind.
    ghost kind: { Self → object_kind };

    /// Its data.
    ghost bytes: { Self → List ℕ };

    /// Its kind.
    fn kind(&self) -> Kind
        ensures kind { result ≡ kind self.now };

    /// The size of its data in bytes.
    fn size(&self) -> u64
        ensures size { result ≡ length (bytes self.now) };

    /// Writes the data to a sink, and fails only if the sink failed.
    fn write_to<K: Sink>(&self, out: &mut K) -> Result<(), Failed>
        ensures bytes { Puts (bytes self.now) (K.held out.old) (K.held out.new) result }
        ensures cause { HasCause (K.faults out.old) (K.faults out.new) result };
}

/// A database to which objects are written.
///
/// A write returns the id of the object, or the known id that was passed in with it. Its answer is a relation of its
/// own, so that a wrapper can promise what the wrapped database answered in that call.
pub trait Write {
    /// Why a write was refused.
    type Error: Drop;

    /// The hash of the ids.
    ghost hash: { Self → hash_kind };

    /// A database is given an object, and maybe the id that it is known to have, gives an answer, and is
    /// another database afterwards.
    ghost writes: { Self → Object → Option id_of_object → Result id_of_object Self.Error → Self → Type 0 };

    /// A database is given an object of this kind and size, whose bytes come from a source; otherwise like `writes`.
    ghost streams: { Self → object_kind → ℕ → Stream → Option id_of_object → Result id_of_object Self.Error → Self → Type 0 };

    /// Writes an object with these bytes as data, and returns its id.
    fn write_buf<R: Wait>(
        &mut self,
        rt: &R,
        alloc: Global,
        kind: Kind,
        from: &[u8],
    ) -> Result<ObjectId, Self::Error>
        ensures answered { writes self.old (record { kind = kind; bytes = from.now }) None result self.new }
        ensures id { IfOk result (λ id. id ≡ object_id (hash self.old) kind from.now) }
        ensures kind { IfOk result (λ id. kind_of id ≡ hash self.old) }
        ensures hash { hash self.new ≡ hash self.old };

    /// `write_buf` under an id that the object is known to have, which is returned.
    fn write_buf_with_known_id<R: Wait>(
        &mut self,
        rt: &R,
        alloc: Global,
        kind: Kind,
        from: &[u8],
        id: ObjectId,
    ) -> Result<ObjectId, Self::Error>
        requires hash { kind_of id ≡ hash self.old }
        ensures answered { writes self.old (record { kind = kind; bytes = from.now }) (Some id) result self.new }
        ensures id { IfOk result (λ answered. answered ≡ id) }
        ensures hash { hash self.new ≡ hash self.old };

    /// Writes an object with `size` bytes of data from a source, and returns its id. Fewer or more bytes are refused,
    /// and so is a source that fails.
    fn write_stream<S: Source, R: Wait>(
        &mut self,
        rt: &R,
        alloc: Global,
        kind: Kind,
        size: u64,
        from: &mut S,
    ) -> Result<ObjectId, Self::Error>
        ensures answered { streams self.old kind size (stream_of (S.left from.old) (S.faults from.old) (S.left from.new) (S.faults from.new)) None result self.new }
        ensures from { IsDrawn (stream_of (S.left from.old) (S.faults from.old) (S.left from.new) (S.faults from.new)) }
        ensures whole { IfOk result (λ id. IsWhole size (S.left from.old) (S.left from.new)) }
        ensures id { IfOk result (λ id. IfSome (S.left from.old) (λ bytes. id ≡ object_id (hash self.old) kind bytes)) }
        ensures kind { IfOk result (λ id. kind_of id ≡ hash self.old) }
        ensures hash { hash self.new ≡ hash self.old };

    /// `write_stream` under an id that the object is known to have, which is returned.
    fn write_stream_with_known_id<S: Source, R: Wait>(
        &mut self,
        rt: &R,
        alloc: Global,
        kind: Kind,
        size: u64,
        from: &mut S,
        id: ObjectId,
    ) -> Result<ObjectId, Self::Error>
        requires hash { kind_of id ≡ hash self.old }
        ensures answered { streams self.old kind size (stream_of (S.left from.old) (S.faults from.old) (S.left from.new) (S.faults from.new)) (Some id) result self.new }
        ensures from { IsDrawn (stream_of (S.left from.old) (S.faults from.old) (S.left from.new) (S.faults from.new)) }
        ensures whole { IfOk result (λ _. IsWhole size (S.left from.old) (S.left from.new)) }
        ensures id { IfOk result (λ answered. answered ≡ id) }
        ensures hash { hash self.new ≡ hash self.old };

    /// Writes an object that produces its own data, and returns its id.
    fn write<O: WriteTo, R: Wait>(
        &mut self,
        rt: &R,
        alloc: Global,
        object: &O,
    ) -> Result<ObjectId, Self::Error>
        ensures answered { writes self.old (record { kind = O.kind object.now; bytes = O.bytes object.now }) None result self.new }
        ensures id { IfOk result (λ id. id ≡ object_id (hash self.old) (O.kind object.now) (O.bytes object.now)) }
        ensures kind { IfOk result (λ id. kind_of id ≡ hash self.old) }
        ensures hash { hash self.new ≡ hash self.old };
}

/// An object that was found produces its data.
impl WriteTo for Data<'_> {
    ghost kind = { λ found. found.kind };

    ghost bytes = { λ found. found.bytes.now };

    fn kind(&self) -> Kind {
        self.kind
    }

    fn size(&self) -> u64 {
        self.bytes.len() as u64
    }

    #[tactic(auto, using(crate::proofs::SinkLemmas::puts_all))]
    fn write_to<K: Sink>(&self, out: &mut K) -> Result<(), Failed> {
        write_all(out, self.bytes)
    }
}
