//! Why a loose object wasn't found.
ghost use Rattle.std.specs.Prelude.{◌≡◌, codes, IfOk, Some};
ghost use Rattle.gix_odb_loose.specs.declared.find.Error.TheVariants.{NoMemory as out_of_memory};

use odb_base::{NoMemory, PathText};
use std::alloc::Global;
use std::{error, fmt};

/// What was being done with a file.
#[derive(Clone, Copy, Debug)]
pub enum Action {
    OpenOrMap,
}

/// `open or map`.
impl fmt::Display for Action {
    ghost output = { λ action. Some (codes "open or map") };

    fn fmt<W: fmt::Write>(&self, f: &mut fmt::Formatter<W>) -> fmt::Result {
        f.pad(match self {
            Action::OpenOrMap => "open or map",
        })
    }
}

/// Why a find, a header look-up or a test of presence was refused.
#[derive(Debug, Drop)]
pub enum Error {
    /// The data are longer or shorter than the header says. Lengths in bytes.
    SizeMismatch {
        actual: u64,
        expected: u64,
        path: PathText,
    },
    /// The file begins with no header.
    Decode,
    /// The header says more bytes of data than the limit of the store allows.
    OutOfMemory {
        size: u64,
    },
    /// A call of the disk failed; or, in a find or header look-up, the path or a part of its way has the wrong kind
    /// or is a link loop, or the file is empty.
    Io {
        action: Action,
        path: PathText,
    },
    NoMemory,
}

impl fmt::Display for Error {
    fn fmt<W: fmt::Write>(&self, f: &mut fmt::Formatter<W>) -> fmt::Result {
        match self {
            Error::SizeMismatch {
                actual,
                expected,
                path,
            } => write_lengths(f, *actual, *expected, path),
            Error::Decode => write!(f, "the loose object has no header"),
            Error::OutOfMemory { size } => {
                write!(f, "an object of {size} bytes is above the limit")
            }
            Error::Io { action, path } => write!(f, "could not {action} {path}"),
            Error::NoMemory => write!(f, "out of memory"),
        }
    }
}

fn write_lengths<W: fmt::Write>(
    f: &mut fmt::Formatter<W>,
    actual: u64,
    expected: u64,
    path: &PathText,
) -> fmt::Result {
    write!(
        f,
        "{path} has {actual} bytes of data, and {expected} by its header"
    )
}

impl error::Error for Error {}

impl From<NoMemory> for Error {
    ghost from_gives = { λ _ e. e ≡ out_of_memory };

    fn from(_: NoMemory) -> Self {
        Error::NoMemory
    }
}

impl Error {
    /// A copy of the error.
    pub fn try_clone(&self, alloc: Global) -> Result<Error, NoMemory>
        ensures copy { IfOk result (λ copy. copy ≡ self.now) }
    {
        match self {
            Error::SizeMismatch {
                actual,
                expected,
                path,
            } => Ok(Error::SizeMismatch {
                actual: *actual,
                expected: *expected,
                path: path.try_clone(alloc)?,
            }),
            Error::Decode => Ok(Error::Decode),
            Error::OutOfMemory { size } => Ok(Error::OutOfMemory { size: *size }),
            Error::Io { action, path } => Ok(Error::Io {
                action: *action,
                path: path.try_clone(alloc)?,
            }),
            Error::NoMemory => Ok(Error::NoMemory),
        }
    }
}
