//! A write as a machine: it asks for calls of the disk and for its data, piece by piece. Its caller passes it the
//! data and their end.
ghost use Rattle.std.specs.Prelude.{◌≡◌, IfOk};
ghost use Rattle.gix_odb_loose.specs.WriteOrder.{write_ask, written_in, number_made, next_write};
ghost use Rattle.gix_odb_loose.specs.WriteOrder.{ended_with, source_failed};
ghost use Rattle.gix_odb_loose.specs.WritePieces.{room_behind};
ghost use Rattle.gix_odb_loose.specs.WriteOrder.{made_by, headed_by, filled_by, foldered_by, moved_by, refused_by, error_from, wrote_by};
ghost use Rattle.gix_object.specs.Loose.{header_of};
ghost use Rattle.gix_odb_loose.specs.LooseFile.{loose_path};
ghost use Rattle.gix_odb_loose.specs.WriteOrder.{prefix_path};
ghost use Rattle.gix_odb_loose.specs.WriteOrder.{temp_path as temp_path_of};

use crate::paths;
use crate::write::{Error, Message};
use gix_hash::ObjectId;
use gix_object::{Kind, encode};
use odb_base::{ByteList, NoMemory, PathText};
use odb_disk::{DiskAnswer, DiskAsk, DiskError};
use std::alloc::Global;

/// The most bytes of one append: `piece_size` of `specs/WritePieces.antt`. Each piece is held in memory whole, and
/// each costs a call of the disk.
pub const PIECE_SIZE: u64 = 65_536;

/// How many temporary names are tried: enough for concurrent writes, and a write ends soon where files left by others
/// have taken them all.
const TEMP_NAMES: u64 = 16;

/// Why a write is refused, without the paths of its error.
#[derive(Clone, Copy)]
pub enum Refusal {
    Io(Message),
    IoRaw,
    Persist(ObjectId),
    SizeMismatch { actual: u64 },
    NoMemory,
}

/// The stage of a write. `number` is that of the temporary file.
#[derive(Clone, Copy)]
pub enum WriteStage {
    /// The temporary file is to be made.
    Making { number: u64 },
    /// The header is to be appended to it.
    Heading { number: u64 },
    /// A piece of the data is to be appended, after `written` bytes of data.
    Filling { number: u64, written: u64 },
    /// The directory of the object is to be made.
    Foldering { number: u64, id: ObjectId },
    /// The temporary file is to be given the name of the object.
    Moving { number: u64, id: ObjectId },
    /// The temporary file is to be removed.
    Removing { number: u64, refusal: Refusal },
}

/// What a write asks for next.
#[derive(Clone, Copy)]
pub enum WriteAsk {
    /// The call of the disk of this stage.
    Disk(WriteStage),
    /// The next piece of the data, or their end, after `written` bytes of data in the temporary file `number`.
    /// `WriteHead::most` is how many bytes the machine takes.
    Data { number: u64, written: u64 },
    /// Nothing more: the write ended with this result.
    Done(Result<ObjectId, Refusal>),
}

/// What is to be written, and where.
#[derive(Drop)]
pub struct WriteHead {
    /// The objects directory.
    pub objects: PathText,
    pub kind: Kind,
    /// The size of the data in bytes.
    pub size: u64,
}

impl WriteStage {
    /// How many bytes are appended so far, if the next ask appends a piece of the data.
    pub fn filling(&self) -> Option<u64>
        ensures written { result ≡ written_in self.now }
    {
        match self {
            WriteStage::Filling { written, .. } => Some(*written),
            _ => None,
        }
    }

    /// The number of the temporary file, if it was made.
    pub fn number_made(&self) -> Option<u64>
        ensures number { result ≡ number_made self.now }
    {
        match self {
            WriteStage::Making { .. } => None,
            WriteStage::Heading { number } => Some(*number),
            WriteStage::Filling { number, .. } => Some(*number),
            WriteStage::Foldering { number, .. } => Some(*number),
            WriteStage::Moving { number, .. } => Some(*number),
            WriteStage::Removing { number, .. } => Some(*number),
        }
    }

    /// What a write asks for after the answer to its ask. `piece` is the length of the piece that was to be appended.
    pub fn next(self, size: u64, piece: u64, answer: &DiskAnswer) -> WriteAsk
        ensures next { result ≡ next_write size piece self answer.now }
    {
        match self {
            WriteStage::Making { number } => made(number, answer),
            WriteStage::Heading { number } => headed(number, answer),
            WriteStage::Filling { number, written } => filled(number, written, size, piece, answer),
            WriteStage::Foldering { number, id } => foldered(number, id, answer),
            WriteStage::Moving { number, id } => moved(number, id, answer),
            WriteStage::Removing { refusal, .. } => WriteAsk::Done(Err(refusal)),
        }
    }
}

impl WriteHead {
    /// The call of the disk at a stage. `piece` is the next piece of the data, which is moved into it.
    pub fn ask_at(
        &self,
        alloc: Global,
        stage: &WriteStage,
        piece: ByteList,
    ) -> Result<DiskAsk, NoMemory>
        ensures ask { IfOk result (λ ask. ask ≡ write_ask self.now piece stage.now) }
    {
        match stage {
            WriteStage::Making { number } => self.new_file_ask(alloc, *number),
            WriteStage::Heading { number } => self.header_ask(alloc, *number),
            WriteStage::Filling { number, .. } => self.append_ask(alloc, *number, piece),
            WriteStage::Foldering { id, .. } => self.make_dir_ask(alloc, id),
            WriteStage::Moving { number, id } => self.rename_ask(alloc, *number, id),
            WriteStage::Removing { number, .. } => self.remove_ask(alloc, *number),
        }
    }

    fn new_file_ask(&self, alloc: Global, number: u64) -> Result<DiskAsk, NoMemory>
        ensures ask { IfOk result (λ ask. ask ≡ DiskAsk.NewFile (temp_path_of self.now.objects number)) }
    {
        Ok(DiskAsk::NewFile {
            path: paths::temp_path(alloc, &self.objects, number)?,
        })
    }

    fn header_ask(&self, alloc: Global, number: u64) -> Result<DiskAsk, NoMemory>
        ensures ask { IfOk result (λ ask. ask ≡ DiskAsk.Append (temp_path_of self.now.objects number) (header_of self.now.kind self.now.size)) }
    {
        let header = encode::loose_header(alloc, self.kind, self.size)?;
        self.append_ask(alloc, number, header)
    }

    fn append_ask(&self, alloc: Global, number: u64, bytes: ByteList) -> Result<DiskAsk, NoMemory>
        ensures ask { IfOk result (λ ask. ask ≡ DiskAsk.Append (temp_path_of self.now.objects number) bytes) }
    {
        Ok(DiskAsk::Append {
            path: paths::temp_path(alloc, &self.objects, number)?,
            bytes,
        })
    }

    fn make_dir_ask(&self, alloc: Global, id: &ObjectId) -> Result<DiskAsk, NoMemory>
        ensures ask { IfOk result (λ ask. ask ≡ DiskAsk.MakeDir (prefix_path self.now.objects id.now)) }
    {
        Ok(DiskAsk::MakeDir {
            path: paths::prefix_folder(alloc, &self.objects, id)?,
        })
    }

    fn rename_ask(&self, alloc: Global, number: u64, id: &ObjectId) -> Result<DiskAsk, NoMemory>
        ensures ask { IfOk result (λ ask. ask ≡ DiskAsk.Rename (temp_path_of self.now.objects number) (loose_path self.now.objects id.now)) }
    {
        Ok(DiskAsk::Rename {
            from: paths::temp_path(alloc, &self.objects, number)?,
            to: paths::object_path(alloc, &self.objects, id)?,
        })
    }

    fn remove_ask(&self, alloc: Global, number: u64) -> Result<DiskAsk, NoMemory>
        ensures ask { IfOk result (λ ask. ask ≡ DiskAsk.Remove (temp_path_of self.now.objects number)) }
    {
        Ok(DiskAsk::Remove {
            path: paths::temp_path(alloc, &self.objects, number)?,
        })
    }

    /// The most bytes that the machine takes as the next piece, after `written`. One byte more than the size is
    /// taken, to see that there are too many.
    pub fn most(&self, written: u64) -> u64
        ensures most { result ≡ room_behind self.now.size written }
    {
        if written < self.size {
            PIECE_SIZE.min((self.size - written).saturating_add(1))
        } else {
            1
        }
    }

    /// The result of a write with this end.
    pub fn reply(
        &self,
        alloc: Global,
        end: Result<ObjectId, Refusal>,
    ) -> Result<Result<ObjectId, Error>, NoMemory>
        ensures reply { IfOk result (λ reply. reply ≡ wrote_by self.now end) }
    {
        match end {
            Ok(id) => Ok(Ok(id)),
            Err(refusal) => Ok(Err(self.error(alloc, refusal)?)),
        }
    }

    /// The error of a refused write, with its paths.
    pub fn error(&self, alloc: Global, refusal: Refusal) -> Result<Error, NoMemory>
        ensures error { IfOk result (λ error. error ≡ error_from self.now refusal) }
    {
        match refusal {
            Refusal::Io(message) => Ok(Error::Io {
                message,
                path: self.objects.try_clone(alloc)?,
            }),
            Refusal::IoRaw => Ok(Error::IoRaw),
            Refusal::Persist(id) => Ok(Error::Persist {
                target: paths::object_path(alloc, &self.objects, &id)?,
            }),
            Refusal::SizeMismatch { actual } => Ok(Error::SizeMismatch {
                expected: self.size,
                actual,
            }),
            Refusal::NoMemory => Ok(Error::NoMemory),
        }
    }
}

/// The stage after the end of the data, which have this id, where `written` bytes were appended.
pub fn ended(number: u64, written: u64, size: u64, id: ObjectId) -> WriteStage
    ensures ended { result ≡ ended_with size id number written }
{
    if written == size {
        WriteStage::Foldering { number, id }
    } else {
        WriteStage::Removing {
            number,
            refusal: Refusal::SizeMismatch { actual: written },
        }
    }
}

/// The stage after a source of the data failed.
pub fn failed(number: u64) -> WriteStage
    ensures failed { result ≡ source_failed number }
{
    WriteStage::Removing {
        number,
        refusal: Refusal::Io(Message::StreamData),
    }
}

// What follows the answer to the creation of the temporary file.
fn made(number: u64, answer: &DiskAnswer) -> WriteAsk
    ensures next { result ≡ made_by number answer.now }
{
    match answer {
        DiskAnswer::Done => WriteAsk::Disk(WriteStage::Heading { number }),
        DiskAnswer::Refused(DiskError::Exists) => {
            if number < TEMP_NAMES - 1 {
                WriteAsk::Disk(WriteStage::Making { number: number + 1 })
            } else {
                WriteAsk::Done(Err(Refusal::Io(Message::CreateTempFile)))
            }
        }
        other => WriteAsk::Done(Err(refused(Refusal::Io(Message::CreateTempFile), other))),
    }
}

// What follows the answer to the append of the header.
fn headed(number: u64, answer: &DiskAnswer) -> WriteAsk
    ensures next { result ≡ headed_by number answer.now }
{
    match answer {
        DiskAnswer::Done => WriteAsk::Data { number, written: 0 },
        other => removing(number, refused(Refusal::Io(Message::WriteHeader), other)),
    }
}

// What follows the answer to the append of a piece.
fn filled(number: u64, written: u64, size: u64, piece: u64, answer: &DiskAnswer) -> WriteAsk
    ensures next { result ≡ filled_by number written size piece answer.now }
{
    match answer {
        DiskAnswer::Done => {
            if written <= size && piece <= size - written {
                WriteAsk::Data {
                    number,
                    written: written + piece,
                }
            } else {
                removing(
                    number,
                    Refusal::SizeMismatch {
                        actual: written.saturating_add(piece),
                    },
                )
            }
        }
        other => removing(number, refused(Refusal::Io(Message::StreamData), other)),
    }
}

// What follows the answer to the creation of the object's directory.
fn foldered(number: u64, id: ObjectId, answer: &DiskAnswer) -> WriteAsk
    ensures next { result ≡ foldered_by number id answer.now }
{
    match answer {
        DiskAnswer::Done | DiskAnswer::Refused(DiskError::Exists) => {
            WriteAsk::Disk(WriteStage::Moving { number, id })
        }
        other => removing(number, refused(Refusal::IoRaw, other)),
    }
}

// What follows the answer to the rename.
fn moved(number: u64, id: ObjectId, answer: &DiskAnswer) -> WriteAsk
    ensures next { result ≡ moved_by number id answer.now }
{
    match answer {
        DiskAnswer::Done => WriteAsk::Done(Ok(id)),
        other => removing(number, refused(Refusal::Persist(id), other)),
    }
}

// The temporary file is removed next.
fn removing(number: u64, refusal: Refusal) -> WriteAsk
    ensures next { result ≡ WriteAsk.Disk (WriteStage.Removing number refusal) }
{
    WriteAsk::Disk(WriteStage::Removing { number, refusal })
}

// Running out of memory is passed on.
fn refused(refusal: Refusal, answer: &DiskAnswer) -> Refusal
    ensures refusal { result ≡ refused_by refusal answer.now }
{
    match answer {
        DiskAnswer::Refused(DiskError::NoMemory) => Refusal::NoMemory,
        _ => refusal,
    }
}
