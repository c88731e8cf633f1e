//! How the program may end, and its message on standard error.
use odb_base::ByteList;
use odb_program::SessionStatus;

/// How the program ends.
#[derive(Drop)]
pub enum Status {
    /// 0: each item is an entry.
    Done,
    /// 1: the words aren't understood. It has the message on them.
    NotUnderstood(ByteList),
    /// 2: an item is an error.
    SomeErrors,
    /// 2: an item is an error, and `help` is the only word.
    HelpSought,
    /// 4: the sink of entries failed.
    WriteFault,
    /// 4: the sink of errors failed.
    ErrorFault,
    /// 5: out of memory.
    NoMemory,
}

impl SessionStatus for Status {
    ghost use Rattle.list_walk.specs.Status.{code_of, note_of};
    ghost use Rattle.list_walk.specs.declared.status.Status.TheVariants.{WriteFault};

    ghost exits_with = { code_of };

    ghost failed_write = { WriteFault };

    ghost notes = { note_of };

    fn code(self) -> u8 {
        match self {
            Status::Done => 0,
            Status::NotUnderstood(_) => 1,
            Status::SomeErrors | Status::HelpSought => 2,
            Status::WriteFault | Status::ErrorFault => 4,
            Status::NoMemory => 5,
        }
    }

    fn write_fault() -> Status {
        Status::WriteFault
    }

    fn note(&self) -> &[u8] {
        match self {
            Status::Done | Status::SomeErrors => b"",
            Status::NotUnderstood(told) => told.as_slice(),
            Status::HelpSought => {
                b"`help` is taken for a folder: list_walk --help tells which words there are"
            }
            Status::WriteFault => b"standard output can't be written",
            Status::ErrorFault => b"standard error can't be written",
            Status::NoMemory => b"out of memory",
        }
    }
}
