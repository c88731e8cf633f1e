//! How the program may end, and its messages on standard error.
use odb_base::ByteList;
use odb_program::SessionStatus;

/// How the program ends.
#[derive(Drop)]
pub enum Status {
    /// 0: done, and the source was read to its end if the command reads it.
    Done,
    /// 1: there are no words.
    NoWords,
    /// 1: the words are no command.
    NotUnderstood,
    /// 2: a line of the script is outside its grammar or its limits. It has the message about the line.
    Refused(ByteList),
    /// 3: the source failed.
    ReadFault,
    /// 4: the sink failed.
    WriteFault,
    /// 5: memory ran out.
    NoMemory,
    /// 8: a line of the script has a field that isn't built yet. It has the message about the line.
    NotBuilt(ByteList),
}

impl SessionStatus for Status {
    ghost use Rattle.gitodb.specs.Status.{code_of, note_of};
    ghost use Rattle.gitodb.specs.declared.status.Status.TheVariants.{WriteFault};

    ghost exits_with = { code_of };

    ghost failed_write = { WriteFault };

    ghost notes = { note_of };

    fn code(self) -> u8 {
        match self {
            Status::Done => 0,
            Status::NoWords | Status::NotUnderstood => 1,
            Status::Refused(_) => 2,
            Status::ReadFault => 3,
            Status::WriteFault => 4,
            Status::NoMemory => 5,
            Status::NotBuilt(_) => 8,
        }
    }

    fn write_fault() -> Status {
        Status::WriteFault
    }

    fn note(&self) -> &[u8] {
        match self {
            Status::Done => b"",
            Status::NoWords => b"no words: gitodb --help tells which there are",
            Status::NotUnderstood => b"no such words: gitodb --help tells which there are",
            Status::Refused(told) => told.as_slice(),
            Status::ReadFault => b"standard input can't be read",
            Status::WriteFault => b"standard output can't be written",
            Status::NoMemory => b"out of memory",
            Status::NotBuilt(told) => told.as_slice(),
        }
    }
}
