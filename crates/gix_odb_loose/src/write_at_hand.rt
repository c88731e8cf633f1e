//! A write with all its data in memory: it passes them to the machine as they are asked for.
ghost use Rattle.std.specs.Prelude.{◌≡◌, IfOk};
ghost use Rattle.gix_odb_loose.specs.WriteJobs.{piece_at, piece_in, next_in, advance_by, supplied_with};
ghost use Rattle.gix_odb_loose.specs.WriteOrder.{number_made, temporary_of};
ghost use Rattle.gix_odb_loose.specs.WriteNames.{name_for};

use crate::naming::Naming;
use crate::write_order::{Refusal, WriteAsk, WriteHead, WriteStage, ended};
use crate::{paths, write};
use gix_hash::ObjectId;
use odb_base::{ByteList, NoMemory, PathText};
use odb_disk::DiskAnswer;
use std::alloc::Global;

/// A write in progress. It never waits for data: the next piece, or the end, is passed as soon as it is asked for.
#[derive(Drop)]
pub struct WriteJob {
    pub head: WriteHead,
    pub stage: WriteStage,
    pub bytes: ByteList,
    pub hash: gix_hash::Kind,
    /// The id that the object is known to have.
    pub known: Option<ObjectId>,
}

/// What follows the answer to a write's ask.
#[derive(Clone, Copy)]
pub enum Onward {
    /// The write goes on.
    Stage(WriteStage),
    /// It ends with this result.
    End(Result<ObjectId, Refusal>),
}

/// A write after the answer to its ask: its next stage, or its reply.
#[derive(Drop)]
pub enum Advance {
    Stage(WriteStage),
    Reply(Result<ObjectId, write::Error>),
}

impl WriteJob {
    /// The piece of the data that is appended next.
    pub fn piece(&self) -> &[u8]
        ensures piece { result.now ≡ piece_in self.now }
    {
        match self.stage.filling() {
            None => &[],
            Some(written) => self.piece_behind(written),
        }
    }

    // The piece after `written` bytes: as many as the machine takes, or those that are left.
    fn piece_behind(&self, written: u64) -> &[u8]
        ensures piece { result.now ≡ piece_at self.now.head.size self.now.bytes written }
    {
        let bytes = self.bytes.as_slice();
        let len = bytes.len();
        if len as u64 <= written {
            return &[];
        }
        let start = written as usize;
        let rest = &bytes[start..];
        let count = self.head.most(written).min(rest.len() as u64) as usize;
        &rest[..count]
    }

    /// The path of the temporary file, if it was made.
    pub fn temporary_file(&self, alloc: Global) -> Result<Option<PathText>, NoMemory>
        ensures path { IfOk result (λ path. path ≡ temporary_of self.now.head (number_made self.now.stage)) }
    {
        match self.stage.number_made() {
            Some(number) => Ok(Some(paths::temp_path(alloc, &self.head.objects, number)?)),
            None => Ok(None),
        }
    }

    /// What follows the answer to the write's ask. Where no data are left, their end follows at once.
    pub fn next(&self, alloc: Global, answer: &DiskAnswer) -> Result<Onward, NoMemory>
        ensures next { IfOk result (λ next. next ≡ next_in self.now answer.now) }
    {
        let piece = self.piece().len() as u64;
        match self.stage.next(self.head.size, piece, answer) {
            WriteAsk::Disk(stage) => Ok(Onward::Stage(stage)),
            WriteAsk::Data { number, written } => {
                Ok(Onward::Stage(self.supply(alloc, number, written)?))
            }
            WriteAsk::Done(end) => Ok(Onward::End(end)),
        }
    }

    /// `next` with the reply where the write ends.
    pub fn advance(&self, alloc: Global, answer: &DiskAnswer) -> Result<Advance, NoMemory>
        ensures by_answer { IfOk result (λ made. made ≡ advance_by self.now answer.now) }
    {
        match self.next(alloc, answer)? {
            Onward::Stage(stage) => Ok(Advance::Stage(stage)),
            Onward::End(end) => Ok(Advance::Reply(self.head.reply(alloc, end)?)),
        }
    }

    // The stage after data were asked for: the next piece is to be appended, or the data have ended.
    fn supply(&self, alloc: Global, number: u64, written: u64) -> Result<WriteStage, NoMemory>
        ensures supplied { IfOk result (λ stage. stage ≡ supplied_with self.now number written) }
    {
        if self.bytes.len() as u64 <= written {
            let id = self.name(alloc)?;
            Ok(ended(number, written, self.head.size, id))
        } else {
            Ok(WriteStage::Filling { number, written })
        }
    }

    fn name(&self, alloc: Global) -> Result<ObjectId, NoMemory>
        ensures name { IfOk result (λ id. id ≡ name_for self.now.known self.now.hash self.now.head self.now.bytes) }
    {
        let mut naming = Naming::start(alloc, self.hash, &self.head, self.known)?;
        naming.update(self.bytes.as_slice());
        Ok(naming.finish())
    }
}
