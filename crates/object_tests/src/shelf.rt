//! A database of at most one object.
ghost use Rattle.std.specs.Prelude.{◌≡◌, ◌↔◌, length, false, IfNone, IfOk, IfSome, IsSome, IsTrue, Some};
ghost use Rattle.gix_object.specs.Stream.{stream_of, IsDrawn, IsWhole};

use gix_hash::ObjectId;
use gix_object::{Data, Exists, Find, FindHeader, Header, Kind, Write, WriteTo, compute_hash};
use odb_base::{ByteList, NoMemory};
use odb_mem_disk::{Failed, MemSink, Source};
use std::alloc::{AllocError, Global};
use std::sync::Wait;

/// The number of bytes of a source asked for at a time.
const PIECE: usize = 16;

/// A database of at most one object: a write replaces what was there.
#[derive(Drop)]
pub struct Shelf {
    pub hash: gix_hash::Kind,
    pub object: Option<Stored>,
}

/// An object under its id.
#[derive(Drop)]
pub struct Stored {
    pub id: ObjectId,
    pub kind: Kind,
    pub bytes: ByteList,
}

#[derive(Clone, Copy)]
pub enum ShelfError {
    SizeMismatch,
    Source,
    NoMemory,
}

impl From<Failed> for ShelfError {
    fn from(_: Failed) -> Self {
        ShelfError::Source
    }
}

impl From<NoMemory> for ShelfError {
    fn from(_: NoMemory) -> Self {
        ShelfError::NoMemory
    }
}

impl From<AllocError> for ShelfError {
    fn from(_: AllocError) -> Self {
        ShelfError::NoMemory
    }
}

impl Shelf {
    pub fn new(hash: gix_hash::Kind) -> Shelf
        ensures hash { result.hash ≡ hash }
    {
        Shelf { hash, object: None }
    }

    // The object with this id.
    fn stored(&self, id: &ObjectId) -> Option<&Stored>
        ensures id { IfSome result (λ stored. stored.now.id ≡ id.now) }
        ensures there { IfSome result (λ stored. self.now.object ≡ Some stored.now) }
        ensures none { IfNone result (IfSome self.now.object (λ stored. stored.id ≡ id.now → ⊥)) }
    {
        let stored = self.object.as_ref()?;
        if stored.id == *id { Some(stored) } else { None }
    }

    // Puts an object under an id.
    fn put(&mut self, id: ObjectId, kind: Kind, bytes: ByteList)
        ensures object { self.new ≡ record self.old { object = Some (record { id = id; kind = kind; bytes = bytes }) } }
    {
        self.object = Some(Stored { id, kind, bytes });
    }
}

impl Find for Shelf {
    type Error = ShelfError;

    ghost hash = { λ shelf. shelf.hash };

    ghost finds = { λ shelf id answer after. (after ≡ shelf) × IfOk answer (λ found.
        IfSome found (λ object. shelf.object ≡ Some (record { id = id; kind = object.kind; bytes = object.bytes }))
        × IfNone found (IfSome shelf.object (λ stored. stored.id ≡ id → ⊥))) };

    fn try_find<'a, R: Wait>(
        &mut self,
        _rt: &R,
        _alloc: Global,
        id: &ObjectId,
        out: &'a mut Vec<u8>,
    ) -> Result<Option<Data<'a>>, ShelfError> {
        out.clear();
        let Some(stored) = self.stored(id) else {
            return Ok(None);
        };
        out.extend_from_slice(stored.bytes.as_slice())?;
        Ok(Some(Data {
            kind: stored.kind,
            object_hash: self.hash,
            bytes: out.as_slice(),
        }))
    }
}

impl FindHeader for Shelf {
    type Error = ShelfError;

    ghost hash = { λ shelf. shelf.hash };

    ghost finds_header = { λ shelf id answer after. (after ≡ shelf) × IfOk answer (λ found.
        IfSome found (λ header. IsSome shelf.object
        × IfSome shelf.object (λ stored. (stored.id ≡ id) × (header.kind ≡ stored.kind) × (header.size ≡ length stored.bytes)))
        × IfNone found (IfSome shelf.object (λ stored. stored.id ≡ id → ⊥))) };

    fn try_header<R: Wait>(
        &mut self,
        _rt: &R,
        _alloc: Global,
        id: &ObjectId,
    ) -> Result<Option<Header>, ShelfError> {
        let Some(stored) = self.stored(id) else {
            return Ok(None);
        };
        Ok(Some(Header {
            kind: stored.kind,
            size: stored.bytes.len() as u64,
        }))
    }
}

impl Exists for Shelf {
    type Error = ShelfError;

    ghost hash = { λ shelf. shelf.hash };

    ghost tests = { λ shelf id answer after. (after ≡ shelf) × IfOk answer (λ there. IfSome shelf.object (λ stored. IsTrue there ↔ (stored.id ≡ id)) × IfNone shelf.object (there ≡ false)) };

    fn exists<R: Wait>(
        &mut self,
        _rt: &R,
        _alloc: Global,
        id: &ObjectId,
    ) -> Result<bool, ShelfError> {
        Ok(self.stored(id).is_some())
    }
}

impl Write for Shelf {
    type Error = ShelfError;

    ghost hash = { λ shelf. shelf.hash };

    ghost writes = { λ shelf object known answer after. IfOk answer (λ id. after ≡ record shelf { object = Some (record { id = id; kind = object.kind; bytes = object.bytes }) }) };

    ghost streams = { λ shelf kind size stream known answer after. IfOk answer (λ id.
        IfSome stream.left (λ bytes. after ≡ record shelf { object = Some (record { id = id; kind = kind; bytes = bytes }) })) };

    fn write_buf<R: Wait>(
        &mut self,
        _rt: &R,
        alloc: Global,
        kind: Kind,
        from: &[u8],
    ) -> Result<ObjectId, ShelfError> {
        let id = compute_hash(alloc, self.hash, kind, from)?;
        let bytes = ByteList::from_slice(alloc, from)?;
        self.put(id, kind, bytes);
        Ok(id)
    }

    fn write_buf_with_known_id<R: Wait>(
        &mut self,
        _rt: &R,
        alloc: Global,
        kind: Kind,
        from: &[u8],
        id: ObjectId,
    ) -> Result<ObjectId, ShelfError> {
        let bytes = ByteList::from_slice(alloc, from)?;
        self.put(id, kind, bytes);
        Ok(id)
    }

    fn write_stream<S: Source, R: Wait>(
        &mut self,
        _rt: &R,
        alloc: Global,
        kind: Kind,
        size: u64,
        from: &mut S,
    ) -> Result<ObjectId, ShelfError> {
        let bytes = read_whole(alloc, size, from)?;
        let id = compute_hash(alloc, self.hash, kind, bytes.as_slice())?;
        self.put(id, kind, bytes);
        Ok(id)
    }

    fn write_stream_with_known_id<S: Source, R: Wait>(
        &mut self,
        _rt: &R,
        alloc: Global,
        kind: Kind,
        size: u64,
        from: &mut S,
        id: ObjectId,
    ) -> Result<ObjectId, ShelfError> {
        let bytes = read_whole(alloc, size, from)?;
        self.put(id, kind, bytes);
        Ok(id)
    }

    fn write<O: WriteTo, R: Wait>(
        &mut self,
        _rt: &R,
        alloc: Global,
        object: &O,
    ) -> Result<ObjectId, ShelfError> {
        let mut sink = MemSink::new(alloc);
        object.write_to(&mut sink)?;
        let bytes = ByteList::from_vec(sink.into_bytes());
        let id = compute_hash(alloc, self.hash, object.kind(), bytes.as_slice())?;
        self.put(id, object.kind(), bytes);
        Ok(id)
    }
}

// The bytes of a source, whose number has to be `size`.
fn read_whole<S: Source>(alloc: Global, size: u64, from: &mut S) -> Result<ByteList, ShelfError>
    ensures drawn { IsDrawn (stream_of (S.left from.old) (S.faults from.old) (S.left from.new) (S.faults from.new)) }
    ensures whole { IfOk result (λ _. IsWhole size (S.left from.old) (S.left from.new)) }
    ensures bytes { IfOk result (λ bytes. IfSome (S.left from.old) (λ left. left ≡ bytes)) }
{
    let mut bytes = ByteList::new(alloc);
    let mut piece = [0u8; PIECE];
    'reading: while bytes.len() as u64 <= size {
        let count = from.read(&mut piece)?;
        if count == 0 {
            break 'reading;
        }
        bytes.extend_from_slice(&piece[..count])?;
    }
    if bytes.len() as u64 == size {
        Ok(bytes)
    } else {
        Err(ShelfError::SizeMismatch)
    }
}
