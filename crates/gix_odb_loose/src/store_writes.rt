//! The calls of a store that write.
ghost use Rattle.std.specs.Prelude.{◌≡◌, ◌≤◌, Option, Some, None, length, IfOk, IfSome};
ghost use Rattle.gix_hash.specs.ObjectId.{kind_of};
ghost use Rattle.gix_object.specs.Id.{object_id};
ghost use Rattle.gix_object.specs.Stream.{stream_of, IsDrawn, IsWhole};
ghost use Rattle.gix_odb_loose.specs.Asked.{AreAllCalls};
ghost use Rattle.gix_odb_loose.specs.Store.{store_hash};
ghost use Rattle.gix_odb_loose.specs.StreamJobs.Progress.{Begun, write_made};
ghost use Rattle.gix_odb_loose.specs.StreamJobs.AtStage.{IsNew};
ghost use Rattle.gix_odb_loose.specs.StreamJobs.{IsSomeUnderway, IsToldBy, IsUnderway, Since};
ghost use Rattle.gix_odb_loose.specs.WriteRuns.{WriteRuns, AtHand, disk_seen, streamed, write_head, write_into};
ghost use Rattle.gix_odb_loose.specs.WriteStreams.{IsAtEnd, TakesFrom};

use crate::lent::Lent;
use crate::write_order::{Refusal, WriteHead};
use crate::write_streamed::StreamJob;
use crate::{Store, write};
use gix_hash::ObjectId;
use gix_object::{Kind, WriteTo};
use odb_base::{MemSink, NoMemory, Source};
use odb_disk::Disk;
use std::alloc::Global;

impl Store {
    /// Writes an object with these bytes as data, and returns its id.
    ///
    /// The rename to the object's name is the last step. After a refusal there is no new name of an object, and the
    /// temporary file is left only where its removal was refused too.
    pub fn write_buf<D: Disk>(
        &self,
        alloc: Global,
        disk: &mut D,
        kind: Kind,
        from: &[u8],
    ) -> Result<ObjectId, write::Error>
        ensures run { WriteRuns (write_into self.now kind (length from.now) None (AtHand from.now)
            (disk_seen D.state D.faults D.answered disk.old disk.new) result) }
        ensures id { IfOk result (λ id. id ≡ object_id (store_hash self.now) kind from.now) }
        ensures kind { IfOk result (λ id. kind_of id ≡ store_hash self.now) }
        ensures later { D.faults disk.old ≤ D.faults disk.new }
        ensures streams { D.streams disk.new ≡ D.streams disk.old }
    {
        let mut data = Lent::new(from);
        self.run_write(alloc, disk, kind, from.len() as u64, None, &mut data)
    }

    /// `write_buf` under an id that the object is known to have. The id isn't checked.
    pub fn write_buf_with_known_id<D: Disk>(
        &self,
        alloc: Global,
        disk: &mut D,
        kind: Kind,
        from: &[u8],
        id: ObjectId,
    ) -> Result<ObjectId, write::Error>
        requires hash { kind_of id ≡ store_hash self.now }
        ensures run { WriteRuns (write_into self.now kind (length from.now) (Some id) (AtHand from.now)
            (disk_seen D.state D.faults D.answered disk.old disk.new) result) }
        ensures id { IfOk result (λ answered. answered ≡ id) }
        ensures later { D.faults disk.old ≤ D.faults disk.new }
        ensures streams { D.streams disk.new ≡ D.streams disk.old }
    {
        let mut data = Lent::new(from);
        self.run_write(alloc, disk, kind, from.len() as u64, Some(id), &mut data)
    }

    /// Writes an object with `size` bytes of data from a source, and returns its id.
    ///
    /// The data are read in pieces of 65,536 bytes between the calls of the disk, at most one byte more than `size`.
    /// Fewer or more bytes are `SizeMismatch`, and a source that fails is `Io`: nothing is appended after a failure.
    pub fn write_stream<D: Disk, S: Source>(
        &self,
        alloc: Global,
        disk: &mut D,
        kind: Kind,
        size: u64,
        from: &mut S,
    ) -> Result<ObjectId, write::Error>
        ensures run { WriteRuns (write_into self.now kind size None (streamed S.left S.faults from.old from.new)
            (disk_seen D.state D.faults D.answered disk.old disk.new) result) }
        ensures from { IsDrawn (stream_of (S.left from.old) (S.faults from.old) (S.left from.new) (S.faults from.new)) }
        ensures few { TakesFrom size (S.left from.old) (S.left from.new) (S.faults from.old) (S.faults from.new) }
        ensures whole { IfOk result (λ _. IsWhole size (S.left from.old) (S.left from.new)) }
        ensures spared { IfOk result (λ _. S.faults from.new ≡ S.faults from.old) }
        ensures id { IfOk result (λ id. IfSome (S.left from.old) (λ bytes. id ≡ object_id (store_hash self.now) kind bytes)) }
        ensures kind { IfOk result (λ id. kind_of id ≡ store_hash self.now) }
        ensures later { D.faults disk.old ≤ D.faults disk.new }
        ensures streams { D.streams disk.new ≡ D.streams disk.old }
    {
        self.run_write(alloc, disk, kind, size, None, from)
    }

    /// `write_stream` under an id that the object is known to have. The id isn't checked.
    pub fn write_stream_with_known_id<D: Disk, S: Source>(
        &self,
        alloc: Global,
        disk: &mut D,
        kind: Kind,
        size: u64,
        from: &mut S,
        id: ObjectId,
    ) -> Result<ObjectId, write::Error>
        requires hash { kind_of id ≡ store_hash self.now }
        ensures run { WriteRuns (write_into self.now kind size (Some id) (streamed S.left S.faults from.old from.new)
            (disk_seen D.state D.faults D.answered disk.old disk.new) result) }
        ensures from { IsDrawn (stream_of (S.left from.old) (S.faults from.old) (S.left from.new) (S.faults from.new)) }
        ensures few { TakesFrom size (S.left from.old) (S.left from.new) (S.faults from.old) (S.faults from.new) }
        ensures whole { IfOk result (λ _. IsWhole size (S.left from.old) (S.left from.new)) }
        ensures spared { IfOk result (λ _. S.faults from.new ≡ S.faults from.old) }
        ensures id { IfOk result (λ answered. answered ≡ id) }
        ensures later { D.faults disk.old ≤ D.faults disk.new }
        ensures streams { D.streams disk.new ≡ D.streams disk.old }
    {
        self.run_write(alloc, disk, kind, size, Some(id), from)
    }

    /// Writes an object that produces its own data, and returns its id. The data are put into memory first.
    pub fn write<D: Disk, O: WriteTo>(
        &self,
        alloc: Global,
        disk: &mut D,
        object: &O,
    ) -> Result<ObjectId, write::Error>
        ensures run { WriteRuns (write_into self.now (O.kind object.now) (length (O.bytes object.now)) None (AtHand (O.bytes object.now))
            (disk_seen D.state D.faults D.answered disk.old disk.new) result) }
        ensures id { IfOk result (λ id. id ≡ object_id (store_hash self.now) (O.kind object.now) (O.bytes object.now)) }
        ensures kind { IfOk result (λ id. kind_of id ≡ store_hash self.now) }
        ensures later { D.faults disk.old ≤ D.faults disk.new }
        ensures streams { D.streams disk.new ≡ D.streams disk.old }
    {
        let mut data = MemSink::new(alloc);
        if object.write_to(&mut data).is_err() {
            return Err(write::Error::NoMemory);
        }
        self.write_buf(alloc, disk, object.kind(), data.bytes())
    }

    // Writes an object of this kind and size with data from a source: the result of the write.
    fn run_write<D: Disk, S: Source>(
        &self,
        alloc: Global,
        disk: &mut D,
        kind: Kind,
        size: u64,
        known: Option<ObjectId>,
        from: &mut S,
    ) -> Result<ObjectId, write::Error>
        ensures run { WriteRuns (write_into self.now kind size known (streamed S.left S.faults from.old from.new)
            (disk_seen D.state D.faults D.answered disk.old disk.new) result) }
        ensures taken { TakesFrom size (S.left from.old) (S.left from.new) (S.faults from.old) (S.faults from.new) }
        ensures ended { IfOk result (λ _. IsAtEnd (S.left from.new)) }
        ensures later { D.faults disk.old ≤ D.faults disk.new }
        ensures streams { D.streams disk.new ≡ D.streams disk.old }
    {
        let mut job = self.new_write(alloc, kind, size, known)?;
        let answer = answered(alloc, disk, from, &mut job);
        drop(job);
        answer
    }

    // A new write into the store, which has asked nothing and read nothing.
    fn new_write(
        &self,
        alloc: Global,
        kind: Kind,
        size: u64,
        known: Option<ObjectId>,
    ) -> Result<StreamJob, NoMemory>
        ensures begun { IfOk result (IsNew (write_head self.now kind size) (store_hash self.now) known) }
    {
        let head = WriteHead {
            objects: self.path().try_clone(alloc)?,
            kind,
            size,
        };
        StreamJob::start(alloc, self.object_hash(), head, known)
    }
}

// Runs a write in progress to its end, and returns its result.
fn answered<D: Disk, S: Source>(
    alloc: Global,
    disk: &mut D,
    from: &mut S,
    job: &mut StreamJob,
) -> Result<ObjectId, write::Error>
    requires underway { IsSomeUnderway D.answered disk.old (D.state disk.old) (D.faults disk.old) (S.left from.old) (S.faults from.old) job.old }
    ensures run { (w : Begun) (first : D) →
        Since D.answered first disk.old (λ past.
        IsUnderway w (D.state disk.old) (D.faults disk.old) past (S.left from.old) (S.faults from.old) job.old) →
        WriteRuns (write_made w (λ exchanges. AreAllCalls D.answered exchanges first disk.new) (D.state disk.new) (D.faults disk.new) (S.faults from.new) result) }
    ensures taken { (w : Begun) (first : D) →
        Since D.answered first disk.old (λ past.
        IsUnderway w (D.state disk.old) (D.faults disk.old) past (S.left from.old) (S.faults from.old) job.old) →
        TakesFrom w.head.size w.left (S.left from.new) w.source_faults (S.faults from.new) }
    ensures ended { IfOk result (λ _. IsAtEnd (S.left from.new)) }
    ensures later { D.faults disk.old ≤ D.faults disk.new }
    ensures streams { D.streams disk.new ≡ D.streams disk.old }
{
    let end = job.run(alloc, disk, from)?;
    told(alloc, &job.head, end)
}

// The result of a write with this end.
fn told(
    alloc: Global,
    head: &WriteHead,
    end: Result<ObjectId, Refusal>,
) -> Result<ObjectId, write::Error>
    ensures answer { IsToldBy head.now end result }
{
    match end {
        Ok(id) => Ok(id),
        Err(refusal) => Err(head.error(alloc, refusal)?),
    }
}
