//! The errors of a walk: what went wrong at one place, and the text that says so.
ghost use Rattle.std.specs.Prelude.{◌≡◌, ℕ, Option, IfOk};
ghost use Rattle.std.specs.Option.{option_copied};
ghost use Rattle.walkdir.specs.Error.{refusal_name};

use odb_mem_disk::{DiskError, NoMemory, PathText};
use std::alloc::{AllocError, AllocFailed, Global};
use std::fmt;

/// What went wrong at one place of a walk.
///
/// It prints as `IO error for operation on PATH: NAME`, as `NAME` alone if no path is known, or as
/// `File system loop found: CHILD points to an ancestor ANCESTOR`. `NAME` is the name of the disk's error.
#[derive(Debug, Drop)]
pub struct Error {
    depth: usize,
    inner: ErrorInner,
}

#[derive(Debug, Drop)]
enum ErrorInner {
    /// A call of the disk was refused. An error in the middle of a directory has no path.
    Io {
        path: Option<PathText>,
        error: DiskError,
    },
    /// A link leads to a directory that the walk is in.
    Loop {
        ancestor: PathText,
        child: PathText,
    },
    /// Out of memory. The walk is over.
    NoMemory,
}

impl Error {
    ghost use Rattle.walkdir.specs.Error.{path_of, ancestor_of, depth_of, disk_error_of};
    ghost use Rattle.walkdir.specs.Error.{no_memory, is_no_memory, stream_failed, IsFromPath, IsFromLoop};

    /// The path at which it went wrong; of a loop, the link.
    pub fn path(&self) -> Option<&PathText>
        ensures told { option_copied result ≡ path_of self.now }
    {
        match &self.inner {
            ErrorInner::Io { path, .. } => path.as_ref(),
            ErrorInner::Loop { child, .. } => Some(child),
            ErrorInner::NoMemory => None,
        }
    }

    /// The directory that a loop leads back to, by the path under which the walk entered it.
    pub fn loop_ancestor(&self) -> Option<&PathText>
        ensures told { option_copied result ≡ ancestor_of self.now }
    {
        match &self.inner {
            ErrorInner::Io { .. } | ErrorInner::NoMemory => None,
            ErrorInner::Loop { ancestor, .. } => Some(ancestor),
        }
    }

    /// The depth in names below the root at which it went wrong; 0 when out of memory.
    pub fn depth(&self) -> usize
        ensures told { result ≡ depth_of self.now }
    {
        self.depth
    }

    /// The disk's error; None for a loop and when out of memory.
    pub fn io_error(&self) -> Option<DiskError>
        ensures told { result ≡ disk_error_of self.now }
    {
        match &self.inner {
            ErrorInner::Io { error, .. } => Some(*error),
            ErrorInner::Loop { .. } | ErrorInner::NoMemory => None,
        }
    }

    /// The disk's error; None for a loop and when out of memory.
    pub fn into_io_error(self) -> Option<DiskError>
        ensures told { result ≡ disk_error_of self }
    {
        self.io_error()
    }

    /// The error that a call on a path was refused with. Out of memory, if there is none for the path.
    pub fn from_path(alloc: Global, depth: usize, path: &PathText, error: DiskError) -> Error
        ensures made { IsFromPath depth path.now error result }
    {
        if error == DiskError::NoMemory {
            return Error::out_of_memory();
        }
        match path.try_clone(alloc) {
            Ok(path) => Error {
                depth,
                inner: ErrorInner::Io {
                    path: Some(path),
                    error,
                },
            },
            Err(NoMemory) => Error::out_of_memory(),
        }
    }

    /// A stream failed in the middle of a directory.
    pub(crate) fn from_stream(depth: usize, error: DiskError) -> Error
        ensures made { result ≡ stream_failed depth error }
    {
        if error == DiskError::NoMemory {
            return Error::out_of_memory();
        }
        Error {
            depth,
            inner: ErrorInner::Io { path: None, error },
        }
    }

    /// A link leads to a directory that the walk is in.
    pub(crate) fn from_loop(
        alloc: Global,
        depth: usize,
        ancestor: &PathText,
        child: &PathText,
    ) -> Error
        ensures made { IsFromLoop depth ancestor.now child.now result }
    {
        match (ancestor.try_clone(alloc), child.try_clone(alloc)) {
            (Ok(ancestor), Ok(child)) => Error {
                depth,
                inner: ErrorInner::Loop { ancestor, child },
            },
            _ => Error::out_of_memory(),
        }
    }

    /// The error that memory ran out.
    pub(crate) fn out_of_memory() -> Error
        ensures made { result ≡ no_memory }
    {
        Error {
            depth: 0,
            inner: ErrorInner::NoMemory,
        }
    }

    /// A copy of the error.
    pub fn try_clone(&self, alloc: Global) -> Result<Error, NoMemory>
        ensures copy { IfOk result (λ copy. copy ≡ self.now) }
    {
        Ok(Error {
            depth: self.depth,
            inner: self.inner.try_clone(alloc)?,
        })
    }

    /// Whether memory ran out.
    pub fn is_out_of_memory(&self) -> bool
        ensures told { result ≡ is_no_memory self.now }
    {
        matches!(&self.inner, ErrorInner::NoMemory)
    }
}

impl ErrorInner {
    fn try_clone(&self, alloc: Global) -> Result<ErrorInner, NoMemory>
        ensures copy { IfOk result (λ copy. copy ≡ self.now) }
    {
        match self {
            ErrorInner::Io { path: None, error } => Ok(ErrorInner::Io {
                path: None,
                error: *error,
            }),
            ErrorInner::Io {
                path: Some(path),
                error,
            } => Ok(ErrorInner::Io {
                path: Some(path.try_clone(alloc)?),
                error: *error,
            }),
            ErrorInner::Loop { ancestor, child } => Ok(ErrorInner::Loop {
                ancestor: ancestor.try_clone(alloc)?,
                child: child.try_clone(alloc)?,
            }),
            ErrorInner::NoMemory => Ok(ErrorInner::NoMemory),
        }
    }
}

/// The name of a disk's error, as it prints itself.
fn name_of(error: DiskError) -> &'static str
    ensures told { result.now ≡ refusal_name error }
{
    match error {
        DiskError::Absent => "Absent",
        DiskError::WrongKind => "WrongKind",
        DiskError::LinkLoop => "LinkLoop",
        DiskError::Exists => "Exists",
        DiskError::NotEmpty => "NotEmpty",
        DiskError::Failed => "Failed",
        DiskError::NoMemory => "NoMemory",
    }
}

impl fmt::Display for Error {
    ghost use Rattle.std.specs.Prelude.{Some};
    ghost use Rattle.walkdir.specs.Error.{text_of_error};

    ghost output = { λ error. Some (text_of_error error) };

    #[tactic(auto, unfolding(crate::specs::Error::text_of_error))]
    fn fmt<W: fmt::Write>(&self, f: &mut fmt::Formatter<W>) -> fmt::Result {
        match &self.inner {
            ErrorInner::Io { path: None, error } => {
                let name = name_of(*error);
                write!(f, "{name}")
            }
            ErrorInner::Io {
                path: Some(path),
                error,
            } => {
                let name = name_of(*error);
                write!(f, "IO error for operation on {path}: {name}")
            }
            ErrorInner::Loop { ancestor, child } => write!(
                f,
                "File system loop found: {child} points to an ancestor {ancestor}"
            ),
            ErrorInner::NoMemory => write!(f, "NoMemory"),
        }
    }
}

impl From<NoMemory> for Error {
    ghost use Rattle.walkdir.specs.Error.{no_memory};

    ghost from_gives = { λ _ e. e ≡ no_memory };

    fn from(_: NoMemory) -> Self {
        Error::out_of_memory()
    }
}

impl From<AllocError> for Error {
    ghost use Rattle.walkdir.specs.Error.{no_memory};

    ghost from_gives = { λ _ e. e ≡ no_memory };

    fn from(_: AllocError) -> Self {
        Error::out_of_memory()
    }
}

impl<T: Drop> From<AllocFailed<T>> for Error {
    ghost use Rattle.walkdir.specs.Error.{no_memory};

    ghost from_gives = { λ _ e. e ≡ no_memory };

    fn from(_: AllocFailed<T>) -> Self {
        Error::out_of_memory()
    }
}
