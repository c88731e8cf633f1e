//! Why a loose object wasn't written.
ghost use Rattle.std.specs.Prelude.{◌≡◌, codes, IfOk, Some};
ghost use Rattle.gix_odb_loose.specs.WriteOrder.{message_text};
ghost use Rattle.gix_odb_loose.specs.declared.write.Error.TheVariants.{NoMemory as out_of_memory};

use odb_base::{NoMemory, PathText};
use std::alloc::Global;
use std::fmt;
use thiserror::Error;

/// What was being done in the objects directory.
#[derive(Clone, Copy, Debug)]
pub enum Message {
    CreateTempFile,
    WriteHeader,
    StreamData,
}

/// The exact text of each, as printed before the path of the objects directory.
impl fmt::Display for Message {
    ghost output = { λ message. Some (message_text message) };

    fn fmt<W: fmt::Write>(&self, f: &mut fmt::Formatter<W>) -> fmt::Result {
        f.pad(match self {
            Message::CreateTempFile => "create named temp file in",
            Message::WriteHeader => "write header to tempfile in",
            Message::StreamData => "stream all data into tempfile in",
        })
    }
}

/// Why a write was refused. It made no name of an object.
#[derive(Debug, Drop, Error)]
pub enum Error {
    /// The temporary file couldn't be made or filled, or the source of the data failed. The path is that of the
    /// objects directory.
    #[error("could not {message} {path}")]
    Io { message: Message, path: PathText },
    /// The directory of the object, named by two hex digits, couldn't be made.
    #[error("could not make the directory of the object")]
    IoRaw,
    /// The temporary file couldn't be given the name of the object.
    #[error("could not turn the temporary file into {target}")]
    Persist { target: PathText },
    /// There were fewer or more bytes of data than expected. `actual` stops at `expected + 1`.
    #[error("expected {expected} bytes of data, and got {actual}")]
    SizeMismatch { expected: u64, actual: u64 },
    #[error("out of memory")]
    NoMemory,
}

impl From<NoMemory> for Error {
    ghost from_gives = { λ _ e. e ≡ out_of_memory };

    fn from(_: NoMemory) -> Self {
        Error::NoMemory
    }
}

impl Error {
    /// A copy of the error.
    pub fn try_clone(&self, alloc: Global) -> Result<Error, NoMemory>
        ensures copy { IfOk result (λ copy. copy ≡ self.now) }
    {
        match self {
            Error::Io { message, path } => Ok(Error::Io {
                message: *message,
                path: path.try_clone(alloc)?,
            }),
            Error::IoRaw => Ok(Error::IoRaw),
            Error::Persist { target } => Ok(Error::Persist {
                target: target.try_clone(alloc)?,
            }),
            Error::SizeMismatch { expected, actual } => Ok(Error::SizeMismatch {
                expected: *expected,
                actual: *actual,
            }),
            Error::NoMemory => Ok(Error::NoMemory),
        }
    }
}
