//! A layer over a database, through which the tests ask it.
ghost use Rattle.std.specs.Prelude.{◌≡◌};

use gix_hash::ObjectId;
use gix_object::{Data, Exists, Find, FindHeader, Header, Kind, Write, WriteTo};
use odb_mem_disk::Source;
use std::alloc::Global;
use std::sync::Wait;

/// A layer over a database, which answers what the database below it answered in that call.
#[derive(Drop)]
pub struct Front<D> {
    pub inner: D,
}

impl<D: Find> Find for Front<D> {
    type Error = D::Error;

    ghost hash = { λ front. D.hash front.inner };

    ghost finds = { λ front id answer after. D.finds front.inner id answer after.inner };

    fn try_find<'a, R: Wait>(
        &mut self,
        rt: &R,
        alloc: Global,
        id: &ObjectId,
        out: &'a mut Vec<u8>,
    ) -> Result<Option<Data<'a>>, D::Error> {
        self.inner.try_find(rt, alloc, id, out)
    }
}

impl<D: FindHeader> FindHeader for Front<D> {
    type Error = D::Error;

    ghost hash = { λ front. D.hash front.inner };

    ghost finds_header = { λ front id answer after. D.finds_header front.inner id answer after.inner };

    fn try_header<R: Wait>(
        &mut self,
        rt: &R,
        alloc: Global,
        id: &ObjectId,
    ) -> Result<Option<Header>, D::Error> {
        self.inner.try_header(rt, alloc, id)
    }
}

impl<D: Exists> Exists for Front<D> {
    type Error = D::Error;

    ghost hash = { λ front. D.hash front.inner };

    ghost tests = { λ front id answer after. D.tests front.inner id answer after.inner };

    fn exists<R: Wait>(&mut self, rt: &R, alloc: Global, id: &ObjectId) -> Result<bool, D::Error> {
        self.inner.exists(rt, alloc, id)
    }
}

impl<D: Write> Write for Front<D> {
    type Error = D::Error;

    ghost hash = { λ front. D.hash front.inner };

    ghost writes = { λ front object known answer after. D.writes front.inner object known answer after.inner };

    ghost streams = { λ front kind size stream known answer after. D.streams front.inner kind size stream known answer after.inner };

    fn write_buf<R: Wait>(
        &mut self,
        rt: &R,
        alloc: Global,
        kind: Kind,
        from: &[u8],
    ) -> Result<ObjectId, D::Error> {
        self.inner.write_buf(rt, alloc, kind, from)
    }

    fn write_buf_with_known_id<R: Wait>(
        &mut self,
        rt: &R,
        alloc: Global,
        kind: Kind,
        from: &[u8],
        id: ObjectId,
    ) -> Result<ObjectId, D::Error> {
        self.inner
            .write_buf_with_known_id(rt, alloc, kind, from, id)
    }

    fn write_stream<S: Source, R: Wait>(
        &mut self,
        rt: &R,
        alloc: Global,
        kind: Kind,
        size: u64,
        from: &mut S,
    ) -> Result<ObjectId, D::Error> {
        self.inner.write_stream(rt, alloc, kind, size, from)
    }

    fn write_stream_with_known_id<S: Source, R: Wait>(
        &mut self,
        rt: &R,
        alloc: Global,
        kind: Kind,
        size: u64,
        from: &mut S,
        id: ObjectId,
    ) -> Result<ObjectId, D::Error> {
        self.inner
            .write_stream_with_known_id(rt, alloc, kind, size, from, id)
    }

    fn write<O: WriteTo, R: Wait>(
        &mut self,
        rt: &R,
        alloc: Global,
        object: &O,
    ) -> Result<ObjectId, D::Error> {
        self.inner.write(rt, alloc, object)
    }
}
