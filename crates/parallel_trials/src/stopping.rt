//! Workers that write into one pipe, and a slow reader that reads the first half.
ghost use Rattle.std.specs.Prelude.{◌<◌, ◌≤◌};
ghost use Rattle.std.specs.Thread.{IsSync};

use gix_features_channel::pipe;
use gix_features_channel::pipe::{Gone, Reader, Writer};
use gix_features_parts::parallel::Reduce;
use gix_features_workers::{ParallelError, in_parallel, join};
use odb_base::NoMemory;
use sha1::Sha1;
use std::alloc::Global;
use std::mem;
use std::sync::{Mutex, Wait};
use std::thread::Threads;

/// The most numbers in flight.
const IN_FLIGHT: usize = 4;

/// What was seen.
#[derive(Clone, Copy)]
pub struct Seen {
    /// How many different numbers were read.
    pub read: u32,
    /// How many were written.
    pub written: u32,
    /// How many came back whole, because the reader is gone.
    pub came_back: u32,
}

/// What became of a number.
#[derive(Clone, Copy)]
enum Fate {
    Written,
    CameBack,
    /// Memory ran out for it, or only a part of it came back.
    Lost,
}

/// Counts what became of numbers, up to the first that is lost.
#[derive(Drop)]
struct Counts {
    written: u32,
    came_back: u32,
}

impl Reduce for Counts {
    type Input = Fate;

    type FeedProduce = ();

    type Output = (u32, u32);

    type Error = NoMemory;

    fn feed(&mut self, fate: Fate) -> Result<(), NoMemory> {
        match fate {
            Fate::Written => self.written = self.written.saturating_add(1),
            Fate::CameBack => self.came_back = self.came_back.saturating_add(1),
            Fate::Lost => return Err(NoMemory),
        }
        Ok(())
    }

    fn finalize(self) -> Result<(u32, u32), NoMemory> {
        Ok((self.written, self.came_back))
    }
}

/// Has workers write `items` numbers into one pipe. A slow reader reads half as many, and stops.
pub fn stop_half_way<H: Threads + Wait + Sync>(
    rt: &H,
    alloc: Global,
    items: u32,
    workers: usize,
) -> Result<Seen, ParallelError<NoMemory>>
    requires some { 0 < workers }
{
    let is_new = notes(alloc, items as usize)?;
    let (writer, reader) = match pipe::unidirectional(alloc, IN_FLIGHT) {
        Ok(ends) => ends,
        Err(NoMemory) => {
            drop(is_new);
            return Err(ParallelError::NoMemory);
        }
    };
    let (counts, read) = join(
        rt,
        move || -> Result<(u32, u32), ParallelError<NoMemory>>
            requires { IsSync H.row × (0 < workers) }
        { write_all(rt, alloc, items, workers, writer) },
        || read_some(rt, reader, is_new, items / 2),
    );
    let (written, came_back) = counts?;
    Ok(Seen {
        read,
        written,
        came_back,
    })
}

/// For each of `items` numbers, that it didn't come yet.
fn notes(alloc: Global, items: usize) -> Result<Vec<bool>, NoMemory> {
    Ok(vec![in alloc; true; items]?)
}

/// How many of the numbers workers could write, and how many came back.
fn write_all<H: Threads + Wait + Sync>(
    rt: &H,
    alloc: Global,
    items: u32,
    workers: usize,
    writer: Writer,
) -> Result<(u32, u32), ParallelError<NoMemory>>
    requires some { 0 < workers }
{
    let shared = Mutex::new(writer);
    let to = &shared;
    let counts = Counts {
        written: 0,
        came_back: 0,
    };
    in_parallel(
        rt,
        alloc,
        0..items,
        Some(workers),
        1,
        |_| (),
        move |number, _state: &mut ()| write_one(rt, alloc, to, number),
        counts,
    )
}

/// Writes a number, as soon as no other worker writes and there is room.
fn write_one<H: Wait>(rt: &H, alloc: Global, to: &Mutex<Writer>, number: u32) -> Fate {
    let bytes = number.to_le_bytes();
    match to.lock(rt).write(rt, alloc, bytes.as_slice()) {
        Ok(_) => Fate::Written,
        Err(Gone::Piece(piece)) if piece.as_slice() == bytes.as_slice() => Fate::CameBack,
        Err(_) => Fate::Lost,
    }
}

/// Reads `count` numbers slowly. Returns how many different ones came.
fn read_some<H: Wait>(rt: &H, mut reader: Reader, mut is_new: Vec<bool>, count: u32) -> u32 {
    let mut fresh = 0u32;
    for _ in 0..count {
        let mut bytes = [0u8; 4];
        let len = reader.read(rt, &mut bytes).unwrap_or(0);
        if len == 4 && is_first(is_new.as_mut_slice(), u32::from_le_bytes(bytes)) {
            fresh = fresh.saturating_add(1);
        }
        linger();
    }
    fresh
}

/// Whether a number came for the first time. Marks it as seen.
fn is_first(is_new: &mut [bool], number: u32) -> bool {
    match is_new.get_mut(number as usize) {
        Some(is_new) => mem::replace(is_new, false),
        None => false,
    }
}

/// Takes a while.
pub fn linger() {
    let _ = Sha1::digest([0u8; 4096].as_slice());
}
