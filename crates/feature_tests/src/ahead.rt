//! How many numbers a worker draws before any is asked for.
ghost use Rattle.std.specs.Prelude.{◌<◌};
ghost use Rattle.std.specs.Iterator.{at_most};

use crate::waiting::wait_for;
use gix_features_channel::{EagerIter, EagerIterIf};
use odb_base::NoMemory;
use std::alloc::Global;
use std::sync::atomic::{AtomicU64, Ordering};
use std::sync::{Arc, Wait};
use std::test::Fail;
use std::thread;
use std::thread::Threads;
use std::time::{Clock, Duration};

/// The numbers there are: more than are ever drawn.
const ALL: u32 = 1_000;

type Shared = Arc<AtomicU64, Global>;

/// Numbers that are counted as they are drawn.
#[derive(Drop)]
struct Counted {
    left: u32,
    drawn: Shared,
}

impl Iterator for Counted {
    type Item = u32;

    ghost remaining = { λ s. at_most s.left };

    fn next(&mut self) -> Option<u32> {
        if self.left == 0 {
            return None;
        }
        self.left -= 1;
        self.drawn.fetch_add(1, Ordering::SeqCst);
        Some(self.left)
    }
}

/// Numbers, and how many of them are drawn.
fn fresh_numbers(alloc: Global) -> Result<(Counted, Shared), NoMemory> {
    let drawn = Arc::new(alloc, AtomicU64::new(0))?;
    let numbers = Counted {
        left: ALL,
        drawn: Arc::try_clone(&drawn)?,
    };
    Ok((numbers, drawn))
}

/// How many numbers were drawn a moment after `wanted` were, or some seconds later.
fn drawn_by<C: Clock>(clock: &C, drawn: &AtomicU64, wanted: u64) -> u64 {
    wait_for(clock, drawn, wanted);
    thread::sleep(clock, Duration::from_millis(20));
    drawn.load(Ordering::SeqCst)
}

/// Whether `wanted` numbers are drawn before any is asked for.
fn draws<H: Threads + Wait + Clock + Copy + Send + 'static>(
    rt: H,
    alloc: Global,
    chunk_size: usize,
    chunks_in_flight: usize,
    wanted: u64,
) -> Result<bool, NoMemory>
    requires size { 0 < chunk_size }
    requires in_flight { 0 < chunks_in_flight }
{
    let (numbers, drawn) = fresh_numbers(alloc)?;
    let numbers = EagerIter::new(rt, alloc, numbers, chunk_size, chunks_in_flight)?;
    let count = drawn_by(&rt, &drawn, wanted);
    drop(numbers);
    Ok(count == wanted)
}

/// Whether they are drawn so if it is chosen whether they are drawn ahead.
fn draws_if<H: Threads + Wait + Clock + Copy + Send + 'static>(
    rt: H,
    alloc: Global,
    ahead: bool,
    chunk_size: usize,
    chunks_in_flight: usize,
    wanted: u64,
) -> Result<bool, NoMemory>
    requires size { 0 < chunk_size }
    requires in_flight { 0 < chunks_in_flight }
{
    let (numbers, drawn) = fresh_numbers(alloc)?;
    let numbers = EagerIterIf::new(
        rt,
        alloc,
        move || ahead,
        numbers,
        chunk_size,
        chunks_in_flight,
    )?;
    let count = drawn_by(&rt, &drawn, wanted);
    drop(numbers);
    Ok(count == wanted)
}

// Catches items that are drawn only as they are asked for, and the size of a chunk in place of the number of chunks in flight:
// the chunks in flight are drawn, and one more, for which there is no room yet.
#[test]
fn draws_unasked(rt: HostRuntime) -> Result<(), Fail> {
    let alloc: Global = rt.alloc();
    assert!(rt; matches!(draws(rt, alloc, 64, 1, 128), Ok(true)));
    assert!(rt; matches!(draws(rt, alloc, 1, 64, 65), Ok(true)));
    Ok(())
}

// Catches the same if it is chosen whether they are drawn ahead.
#[test]
fn draws_unasked_if(rt: HostRuntime) -> Result<(), Fail> {
    let alloc: Global = rt.alloc();
    assert!(rt; matches!(draws_if(rt, alloc, true, 64, 1, 128), Ok(true)));
    assert!(rt; matches!(draws_if(rt, alloc, false, 64, 1, 0), Ok(true)));
    Ok(())
}
