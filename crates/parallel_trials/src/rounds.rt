//! Numbers of a slice that workers double in rounds.
ghost use Rattle.std.specs.Prelude.{◌<◌, ◌≤◌};

use gix_features_workers::{ParallelError, in_parallel_with_slice};
use odb_base::NoMemory;
use std::alloc::Global;
use std::thread::Threads;

/// Has workers double `items` numbers, each of which is 1. Returns their sum.
pub fn double_all<H: Threads + Sync>(
    rt: &H,
    alloc: Global,
    items: usize,
    workers: usize,
) -> Result<u64, ParallelError<NoMemory>>
    requires some { 0 < workers }
{
    let mut numbers = ones(alloc, items)?;
    let doubled = double_each(rt, alloc, numbers.as_mut_slice(), workers);
    let sum = sum_of(numbers.as_slice());
    drop(numbers);
    doubled?;
    Ok(sum)
}

/// Has workers double each number.
fn double_each<H: Threads + Sync>(
    rt: &H,
    alloc: Global,
    numbers: &mut [u64],
    workers: usize,
) -> Result<(), ParallelError<NoMemory>>
    requires some { 0 < workers }
{
    in_parallel_with_slice(
        rt,
        alloc,
        numbers,
        Some(workers),
        1,
        |_| (),
        |number: &mut u64, _state: &mut ()| double(number),
        || Some(()),
        |_state| (),
    )?;
    Ok(())
}

/// `items` numbers, each of which is 1.
fn ones(alloc: Global, items: usize) -> Result<Vec<u64>, NoMemory> {
    Ok(vec![in alloc; 1u64; items]?)
}

/// Doubles a number, unless it is a large one.
fn double(number: &mut u64) -> Result<(), NoMemory> {
    *number = number.saturating_mul(2);
    Ok(())
}

/// The sum of numbers; it saturates.
fn sum_of(numbers: &[u64]) -> u64 {
    let mut sum = 0u64;
    for number in numbers {
        sum = sum.saturating_add(*number);
    }
    sum
}
