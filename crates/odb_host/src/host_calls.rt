//! Calls of the system that a real disk makes, each with its refusal.
ghost use Rattle.std.specs.Prelude.{◌≡◌, ◌≢◌, ◌≤◌, length, IfOk, IfErr, OnOk};
ghost use Rattle.std.specs.Result.{result_map_both};
ghost use Rattle.std.specs.Io.KnownBytes.{Appends};
ghost use Rattle.odb_host.specs.HostDisk.{append_options};

use crate::host_answers::{
    answered, appended, created, no_directory, only_file, replaceable, told_of, within,
};
use odb_mem_disk::{ByteList, DiskError, Kind, Meta, StdSource, read_file};
use std::alloc::Global;
use std::fs::{self, File, OpenFile, OpenOptions};
use std::io::Write;
use std::rt::Files;

/// Stats a path. A link in the last place is followed if `follow` is set.
pub(crate) fn look_at<R: Files>(rt: &R, path: &str, follow: bool) -> Result<Meta, DiskError>
    ensures bare { IfOk result (λ meta. meta.kind ≢ Kind.File → (meta.len ≡ 0) × (meta.time ≡ 0)) }
{
    told_of(if follow {
        fs::metadata(rt, path)
    } else {
        fs::symlink_metadata(rt, path)
    })
}

/// Makes an empty file where nothing is.
pub(crate) fn new_file_at<R: Files>(rt: &R, path: &str) -> Result<(), DiskError> {
    created(File::create_new(rt, path))
}

/// Appends bytes to a file, following links. What is no file is never opened, since that may block forever.
pub(crate) fn append_at<R: Files>(rt: &R, path: &str, bytes: &[u8]) -> Result<(), DiskError> {
    need_file(rt, path)?;
    let mut file = answered(append_options().open(rt, path))?;
    append_to(&mut file, bytes)
}

/// How a file is opened for appending.
fn append_options() -> OpenOptions
    ensures options { result ≡ append_options }
{
    let mut options = OpenOptions::new();
    options.append(true);
    options
}

/// Appends bytes to an open file. After a failure it may have a prefix of them.
fn append_to<W: Write>(file: &mut W, bytes: &[u8]) -> Result<(), DiskError>
    ensures added { OnOk result (Appends (W.contents file.old) (W.contents file.new) bytes.now) }
    ensures failed { IfErr result (λ e. e ≡ DiskError.Failed) }
{
    appended(file.write_all(bytes))
}

/// Whether a path leads to a file, following links.
fn need_file<R: Files>(rt: &R, path: &str) -> Result<(), DiskError> {
    only_file(look_at(rt, path, true)?)
}

/// Moves a file or a link. Both ends are statted first, since the system would move a directory.
pub(crate) fn rename_at<R: Files>(rt: &R, from: &str, to: &str) -> Result<(), DiskError> {
    no_directory(look_at(rt, from, false)?)?;
    replaceable(look_at(rt, to, false))?;
    answered(fs::rename(rt, from, to))
}

/// Removes a file, a link or an empty directory.
pub(crate) fn remove_at<R: Files>(rt: &R, path: &str) -> Result<(), DiskError> {
    match look_at(rt, path, false)?.kind {
        Kind::Dir => answered(fs::remove_dir(rt, path)),
        Kind::File | Kind::Link => answered(fs::remove_file(rt, path)),
    }
}

/// Reads a file of at most `longest` bytes, following links.
pub(crate) fn read_at<R: Files>(
    rt: &R,
    alloc: Global,
    path: &str,
    longest: usize,
) -> Result<(ByteList, u64), DiskError>
    ensures short { IfOk result (λ file. length file.0 ≤ longest) }
{
    let (file, meta) = open_at(rt, path)?;
    let read = read_file(alloc, &mut StdSource::new(file), longest);
    within(read, longest, meta)
}

/// Opens a file for reading, following links, and stats it. What is no file is never opened, since that may block
/// forever.
fn open_at<R: Files>(rt: &R, path: &str) -> Result<(R::File, Meta), DiskError> {
    need_file(rt, path)?;
    let file = answered(fs::open(rt, path))?;
    let found = told_of(file.metadata());
    with_meta(file, found)
}

/// An open file, with the result of a stat of it.
fn with_meta<F: Drop>(file: F, found: Result<Meta, DiskError>) -> Result<(F, Meta), DiskError>
    ensures opened { result ≡ result_map_both (λ meta. (file, meta)) (λ e. e) found }
{
    match found {
        Ok(meta) => Ok((file, meta)),
        Err(e) => Err(e),
    }
}
