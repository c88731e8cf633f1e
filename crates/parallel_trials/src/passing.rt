//! Bytes that go through a pipe.
ghost use Rattle.std.specs.Prelude.{◌<◌, ◌≤◌};

use gix_features_channel::pipe;
use gix_features_channel::pipe::{Reader, Writer};
use gix_features_workers::join;
use odb_base::NoMemory;
use std::alloc::Global;
use std::sync::Wait;
use std::thread::Threads;

/// The most pieces in flight.
const IN_FLIGHT: usize = 8;

/// Passes pieces of `kib` KiB from one thread to another. Returns how many bytes came.
pub fn pass<H: Threads + Wait + Sync>(
    rt: &H,
    alloc: Global,
    pieces: usize,
    kib: usize,
) -> Result<u64, NoMemory>
    requires few { kib ≤ 65_536 }
{
    let piece = filled(alloc, 7, kib)?;
    let buffer = match filled(alloc, 0, kib) {
        Ok(buffer) => buffer,
        Err(NoMemory) => {
            drop(piece);
            return Err(NoMemory);
        }
    };
    let (writer, reader) = match pipe::unidirectional(alloc, IN_FLIGHT) {
        Ok(ends) => ends,
        Err(NoMemory) => {
            drop(piece);
            drop(buffer);
            return Err(NoMemory);
        }
    };
    let (all, bytes) = join(
        rt,
        move || write_all(rt, alloc, writer, piece.as_slice(), pieces),
        || read_all(rt, reader, buffer),
    );
    if all { Ok(bytes) } else { Err(NoMemory) }
}

/// `kib` KiB of one byte.
fn filled(alloc: Global, byte: u8, kib: usize) -> Result<Vec<u8>, NoMemory>
    requires few { kib ≤ 65_536 }
{
    Ok(vec![in alloc; byte; kib * 1024]?)
}

/// Writes a piece `pieces` times, and drops the pipe. Returns whether all were written.
fn write_all<H: Wait>(
    rt: &H,
    alloc: Global,
    mut writer: Writer,
    piece: &[u8],
    pieces: usize,
) -> bool {
    let all = write_each(rt, alloc, &mut writer, piece, pieces);
    drop(writer);
    all
}

/// Writes a piece `pieces` times. Returns whether all were written.
fn write_each<H: Wait>(
    rt: &H,
    alloc: Global,
    writer: &mut Writer,
    piece: &[u8],
    pieces: usize,
) -> bool {
    for _ in 0..pieces {
        if writer.write(rt, alloc, piece).is_err() {
            return false;
        }
    }
    true
}

/// Reads to the end, and drops the pipe. Returns how many bytes came.
fn read_all<H: Wait>(rt: &H, mut reader: Reader, mut buffer: Vec<u8>) -> u64 {
    let bytes = read_each(rt, &mut reader, buffer.as_mut_slice());
    drop(reader);
    drop(buffer);
    bytes
}

/// Reads until a read doesn't fill the buffer, as at the end and after an error. Returns how many bytes came.
fn read_each<H: Wait>(rt: &H, reader: &mut Reader, buffer: &mut [u8]) -> u64 {
    let mut bytes = 0u64;
    for _ in rt.forever() {
        let count = reader.read(rt, buffer).unwrap_or(0);
        bytes = bytes.saturating_add(count as u64);
        if count < buffer.len() {
            break;
        }
    }
    bytes
}
