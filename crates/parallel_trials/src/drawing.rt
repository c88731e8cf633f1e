//! Numbers that a worker draws ahead for a slow consumer, which stops half way.
ghost use Rattle.std.specs.Prelude.{◌<◌, ⊤};
ghost use Rattle.gix_features_channel.specs.Eager.{IsReady};

use crate::stopping::linger;
use gix_features_channel::EagerIter;
use odb_base::NoMemory;
use std::alloc::Global;
use std::ops::Range;
use std::sync::Wait;
use std::thread::Threads;

/// The most chunks in flight.
const IN_FLIGHT: usize = 2;

/// Takes the first half of `items` numbers slowly, while a worker draws them ahead in chunks. Returns how many came
/// in their turn.
pub fn draw_half<H: Threads + Wait + Copy + Send + 'static>(
    rt: H,
    alloc: Global,
    items: u32,
    chunk_size: usize,
) -> Result<u32, NoMemory>
    requires size { 0 < chunk_size }
{
    let mut numbers = EagerIter::new(rt, alloc, 0..items, chunk_size, IN_FLIGHT)?;
    let count = count_first(&mut numbers, items / 2);
    drop(numbers);
    count
}

/// How many of the first `wanted` numbers come in their turn.
fn count_first<H: Threads + Wait + Copy>(
    numbers: &mut EagerIter<Range<u32>, H>,
    wanted: u32,
) -> Result<u32, NoMemory>
    requires ready { IsReady (λ _. ⊤) numbers.old }
{
    let mut count = 0u32;
    for wanted in 0..wanted {
        match numbers.next() {
            Some(Ok(number)) if number == wanted => count = count.saturating_add(1),
            Some(Err(NoMemory)) => return Err(NoMemory),
            _ => {}
        }
        linger();
    }
    Ok(count)
}
