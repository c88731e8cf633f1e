//! How the program may end, and its message on standard error.
ghost use Rattle.std.specs.Prelude.{◌≡◌};
ghost use Rattle.probe_index.specs.Status.{refusal_note};

use crate::probe::Refusal;
use odb_program::SessionStatus;

/// How the program ends.
#[derive(Clone, Copy)]
pub enum Status {
    /// 0: a line was written for each id, or a text about the program.
    Done,
    /// 1: there are no words.
    NoWords,
    /// 1: the words are no ids, or not all of one length.
    NotUnderstood,
    /// 2: the file is refused.
    Refused(Refusal),
    /// 3: the source failed.
    ReadFault,
    /// 4: the sink failed.
    WriteFault,
    /// 5: out of memory.
    NoMemory,
}

impl SessionStatus for Status {
    ghost use Rattle.probe_index.specs.Status.{code_of, note_of};
    ghost use Rattle.probe_index.specs.declared.status.Status.TheVariants.{WriteFault};

    ghost exits_with = { code_of };

    ghost failed_write = { WriteFault };

    ghost notes = { note_of };

    fn code(self) -> u8 {
        match self {
            Status::Done => 0,
            Status::NoWords | Status::NotUnderstood => 1,
            Status::Refused(_) => 2,
            Status::ReadFault => 3,
            Status::WriteFault => 4,
            Status::NoMemory => 5,
        }
    }

    fn write_fault() -> Status {
        Status::WriteFault
    }

    fn note(&self) -> &[u8] {
        match self {
            Status::Done => b"",
            Status::NoWords => b"no words: probe_index --help tells which there are",
            Status::NotUnderstood =>
                b"each word has to be an id, and all of one length: see probe_index --help",
            Status::Refused(why) => refusal_note(*why),
            Status::ReadFault => b"standard input can't be read",
            Status::WriteFault => b"standard output can't be written",
            Status::NoMemory => b"out of memory",
        }
    }
}

/// The message on a file that is refused.
fn refusal_note(why: Refusal) -> &'static [u8]
    ensures note { result.now ≡ refusal_note why }
{
    match why {
        Refusal::TooLong => b"standard input is no such file: more than 1073741824 bytes",
        Refusal::Unknown =>
            b"standard input is no such file: neither a pack index nor a multi-pack index",
        Refusal::BadIndex =>
            b"standard input is no such file: no pack index of version 2 with ids of this length",
        Refusal::BadMultiIndex =>
            b"standard input is no such file: no multi-pack index of version 1",
    }
}
