//! A real disk: its runtime, its open streams, and how often a call failed.
ghost use Rattle.std.specs.Prelude.{◌≡◌, ◌≢◌, Err};
ghost use Rattle.odb_disk.specs.Disk.{FailsOnlyByFault};
ghost use Rattle.odb_disk.specs.Streams.{no_streams};

use odb_mem_disk::{DirStreams, DiskError};
use std::alloc::Global;
use std::rt::Files;

mod calls;
mod streams;

/// A real disk, through std's files. It doesn't report its tree.
///
/// A node counts as a fault of the disk if it is no file, directory or link, or is a file of more than 4,294,967,296
/// bytes or a directory of more than 16,777,216 entries. So does each error of the system, except that a node is
/// absent, a part of the way is no directory, there are too many links, a node is there already, or a directory has
/// entries or is in place of a file.
///
/// `open_dir` reads the whole directory. Names in it that aren't UTF-8, and nodes that are no file, directory or
/// link, are skipped: after the other entries one call of `next_entry` fails for them.
#[derive(Drop)]
pub struct HostDisk<R> {
    rt: R,
    streams: DirStreams,
    /// The open streams that skipped something, until a call failed for it.
    odd: Vec<u64>,
    faults: u64,
}

impl<R: Files> HostDisk<R> {
    /// The disk that a runtime reaches.
    pub fn new(alloc: Global, rt: R) -> HostDisk<R>
        ensures runtime { result.rt ≡ rt }
        ensures streams { result.streams ≡ no_streams }
        ensures faults { result.faults ≡ 0 }
    {
        HostDisk {
            rt,
            streams: DirStreams::new(alloc),
            odd: Vec::new(alloc),
            faults: 0,
        }
    }

    /// The number of calls that failed.
    pub fn faults(&self) -> u64
        ensures count { result ≡ self.now.faults }
    {
        self.faults
    }

    /// The runtime.
    pub fn into_runtime(self) -> R
        ensures runtime { result ≡ self.rt }
    {
        self.rt
    }
}

/// Passes an answer on, and counts a fault if it is that the disk failed.
fn counted<T>(faults: &mut u64, answer: Result<T, DiskError>) -> Result<T, DiskError>
    ensures answer { result ≡ answer }
    ensures cause { FailsOnlyByFault faults.old faults.new result }
    ensures still { result ≢ Err DiskError.Failed → faults.new ≡ faults.old }
{
    if let Err(DiskError::Failed) = &answer {
        *faults = faults.saturating_add(1);
    }
    answer
}
