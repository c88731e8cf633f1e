//! How a real disk turns the system's answers into its own.
ghost use Rattle.std.specs.Prelude.{◌≡◌, length, nat_le, Ok, Err, IfOk, IfErr, if◌then◌else◌};
ghost use Rattle.std.specs.Result.{result_map_both};
ghost use Rattle.std.specs.IoError.{error_kind};
ghost use Rattle.odb_host.specs.HostDisk.{MetaOf, refusal_of, read_refusal, no_directory, only_file, replaceable, kind_of, meta_from, time_of};

use odb_mem_disk::{ByteList, DiskError, Kind, Meta, ReadError};
use std::fs::{FileType, Metadata};
use std::io::{self, ErrorKind};
use std::os::unix::fs::MetadataExt;

/// The answer to a stat, from the system's.
pub(crate) fn told_of(found: io::Result<Metadata>) -> Result<Meta, DiskError>
    ensures ok { IfOk found (λ metadata. MetaOf metadata result) }
    ensures err { IfErr found (λ e. result ≡ Err (refusal_of (error_kind e))) }
{
    match found {
        Ok(metadata) => meta_of(&metadata),
        Err(e) => Err(refusal_of(e.kind())),
    }
}

/// The answer to a call of the system: what it gives, or the refusal for its error.
pub(crate) fn answered<T>(made: io::Result<T>) -> Result<T, DiskError>
    ensures answered { result ≡ result_map_both (λ given. given) (λ e. refusal_of (error_kind e)) made }
{
    match made {
        Ok(given) => Ok(given),
        Err(e) => Err(refusal_of(e.kind())),
    }
}

/// The answer to a call of the system that makes a file. The file is closed.
pub(crate) fn created<F: Drop>(made: io::Result<F>) -> Result<(), DiskError>
    ensures created { result ≡ result_map_both (λ _. tt) (λ e. refusal_of (error_kind e)) made }
{
    match made {
        Ok(_) => Ok(()),
        Err(e) => Err(refusal_of(e.kind())),
    }
}

/// The answer to a write of all bytes of an append. Each error is a fault, since the file was opened.
pub(crate) fn appended(written: io::Result<()>) -> Result<(), DiskError>
    ensures appended { result ≡ result_map_both (λ done. done) (λ _. DiskError.Failed) written }
{
    match written {
        Ok(()) => Ok(()),
        Err(_) => Err(DiskError::Failed),
    }
}

/// Whether a call that needs a file goes on, by what the path leads to. A link is followed, unless something else has
/// just put it there.
pub(crate) fn only_file(meta: Meta) -> Result<(), DiskError>
    ensures only { result ≡ only_file meta.kind }
{
    match meta.kind {
        Kind::File => Ok(()),
        Kind::Dir => Err(DiskError::WrongKind),
        Kind::Link => Err(DiskError::Failed),
    }
}

/// Whether a rename goes on, by what is at its source.
pub(crate) fn no_directory(meta: Meta) -> Result<(), DiskError>
    ensures no_directory { result ≡ no_directory meta.kind }
{
    match meta.kind {
        Kind::Dir => Err(DiskError::WrongKind),
        Kind::File | Kind::Link => Ok(()),
    }
}

/// Whether a rename goes on, by a stat of its target. Nothing need be there.
pub(crate) fn replaceable(seen: Result<Meta, DiskError>) -> Result<(), DiskError>
    ensures replaceable { result ≡ replaceable seen }
{
    match seen {
        Ok(meta) => no_directory(meta),
        Err(DiskError::Absent) => Ok(()),
        Err(e) => Err(e),
    }
}

/// The answer to a read of a file of at most `longest` bytes: what was read, and the time from a stat of the file.
pub(crate) fn within(
    read: Result<Vec<u8>, ReadError>,
    longest: usize,
    meta: Meta,
) -> Result<(ByteList, u64), DiskError>
    ensures ok { IfOk read (λ bytes. result ≡ (if nat_le (length bytes.items) longest then Ok (bytes.items, meta.time) else Err DiskError.Failed)) }
    ensures err { IfErr read (λ e. result ≡ Err (read_refusal e)) }
{
    match read {
        Ok(bytes) if bytes.len() <= longest => Ok((ByteList::from_vec(bytes), meta.time)),
        Ok(_) | Err(ReadError::Failed) => Err(DiskError::Failed),
        Err(ReadError::NoMemory) => Err(DiskError::NoMemory),
    }
}

/// The answer to a stat, from the system's metadata. A node that is no file, directory or link is a fault.
fn meta_of(metadata: &Metadata) -> Result<Meta, DiskError>
    ensures meta { MetaOf metadata.now result }
{
    let time = time_of(metadata.mtime(), metadata.mtime_nsec());
    let node = Node {
        dev: metadata.dev(),
        ino: metadata.ino(),
        len: metadata.len(),
        time,
    };
    meta_from(kind_of(metadata.file_type()), node)
}

/// What the system reports of a node, except its kind.
#[derive(Clone, Copy)]
struct Node {
    dev: u64,
    ino: u64,
    len: u64,
    time: u64,
}

/// The answer to a stat of a node of this kind. A directory and a link have length 0 and time 0.
fn meta_from(kind: Option<Kind>, node: Node) -> Result<Meta, DiskError>
    ensures meta { result ≡ meta_from kind node.dev node.ino node.len node.time }
{
    let Some(kind) = kind else {
        return Err(DiskError::Failed);
    };
    let (len, time) = match kind {
        Kind::File => (node.len, node.time),
        Kind::Dir | Kind::Link => (0, 0),
    };
    Ok(Meta {
        kind,
        dev: node.dev,
        ino: node.ino,
        len,
        time,
    })
}

/// The kind of a node of the system, if it is one of the three.
fn kind_of(kind: FileType) -> Option<Kind>
    ensures kind { result ≡ kind_of kind }
{
    if kind.is_file() {
        Some(Kind::File)
    } else if kind.is_dir() {
        Some(Kind::Dir)
    } else if kind.is_symlink() {
        Some(Kind::Link)
    } else {
        None
    }
}

/// The number of nanoseconds in a second.
const NANOSECONDS_IN_SECOND: u64 = 1_000_000_000;

/// Nanoseconds since 1970, from seconds and the nanoseconds of the last one. An earlier time is 0.
fn time_of(seconds: i64, nanoseconds: i64) -> u64
    ensures time { result ≡ time_of seconds nanoseconds }
{
    match (u64::try_from(seconds), u64::try_from(nanoseconds)) {
        (Ok(seconds), Ok(nanoseconds)) => seconds
            .saturating_mul(NANOSECONDS_IN_SECOND)
            .saturating_add(nanoseconds),
        _ => 0,
    }
}

/// The refusal for an error of the system; `Failed` for any other than these.
pub(crate) fn refusal_of(kind: ErrorKind) -> DiskError
    ensures refusal { result ≡ refusal_of kind }
{
    match kind {
        ErrorKind::NotFound => DiskError::Absent,
        ErrorKind::NotADirectory => DiskError::WrongKind,
        ErrorKind::IsADirectory => DiskError::WrongKind,
        ErrorKind::FilesystemLoop => DiskError::LinkLoop,
        ErrorKind::AlreadyExists => DiskError::Exists,
        ErrorKind::DirectoryNotEmpty => DiskError::NotEmpty,
        _ => DiskError::Failed,
    }
}
