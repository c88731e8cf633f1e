//! Numbers that are drawn ahead.
ghost use Rattle.std.specs.Prelude.{◌<◌, ⊤};
ghost use Rattle.gix_features_channel.specs.Eager.{IsReadyIf};

use gix_features_channel::{EagerIter, EagerIterIf};
use odb_mem_disk::NoMemory;
use std::alloc::Global;
use std::ops::Range;
use std::sync::Wait;
use std::test::Fail;
use std::thread::Threads;

/// Stands for out of memory among numbers.
const WANT: u32 = u32::MAX;

/// The number that is returned, or 0 if there is none.
fn number_of(answer: Option<Result<u32, NoMemory>>) -> u32 {
    match answer {
        Some(Ok(number)) => number,
        Some(Err(NoMemory)) => WANT,
        None => 0,
    }
}

/// Whether the first four calls for the numbers from 1 on, below `end`, give these, with 0 for none.
fn is_drawn<H: Threads + Wait + Copy + Send + 'static>(
    rt: H,
    alloc: Global,
    end: u32,
    chunk_size: usize,
    chunks_in_flight: usize,
    wanted: [u32; 4],
) -> bool
    requires size { 0 < chunk_size }
    requires in_flight { 0 < chunks_in_flight }
{
    let Ok(mut numbers) = EagerIter::new(rt, alloc, 1..end, chunk_size, chunks_in_flight) else {
        return false;
    };
    let first = number_of(numbers.next());
    let second = number_of(numbers.next());
    let third = number_of(numbers.next());
    let fourth = number_of(numbers.next());
    [first, second, third, fourth] == wanted
}

// Catches an item of a chunk that is lost, an end before the last item, out of memory in place of the end, and an
// item after the end.
#[test]
fn draws_ahead(rt: HostRuntime) -> Result<(), Fail> {
    let alloc: Global = rt.alloc();
    let is_right = is_drawn(rt, alloc, 4, 2, 1, [1, 2, 3, 0])
        && is_drawn(rt, alloc, 3, 2, 1, [1, 2, 0, 0])
        && is_drawn(rt, alloc, 1, 1, 1, [0, 0, 0, 0])
        && is_drawn(rt, alloc, 9, 1, 3, [1, 2, 3, 4])
        && is_drawn(rt, alloc, 5, 9, 1, [1, 2, 3, 4]);
    assert!(rt; is_right);
    Ok(())
}

/// The result of a loop over numbers that are drawn ahead, which appends each as a digit.
fn digits<H: Threads + Wait + Copy + Send + 'static>(
    rt: H,
    alloc: Global,
    end: u32,
) -> Result<u32, NoMemory> {
    let mut digits = 0u32;
    for number in EagerIter::new(rt, alloc, 1..end, 2, 1)? {
        digits = digits.wrapping_mul(10).wrapping_add(number?);
    }
    Ok(digits)
}

// Catches an end that a loop doesn't see, and a number that it loses.
#[test]
fn loops(rt: HostRuntime) -> Result<(), Fail> {
    let alloc: Global = rt.alloc();
    assert!(rt; matches!(digits(rt, alloc, 6), Ok(12_345)));
    Ok(())
}

/// Whether the numbers from 1 to 3 are given and then the end.
fn gives_three<H: Threads + Wait + Copy>(numbers: &mut EagerIterIf<Range<u32>, H>) -> bool
    requires ready { IsReadyIf (λ _. ⊤) numbers.old }
{
    let Some(Ok(first)) = numbers.next() else {
        return false;
    };
    let Some(Ok(second)) = numbers.next() else {
        return false;
    };
    let Some(Ok(third)) = numbers.next() else {
        return false;
    };
    let last = number_of(numbers.next());
    [first, second, third, last] == [1, 2, 3, 0]
}

/// Whether they are given if it is chosen whether they are drawn ahead.
fn is_chosen<H: Threads + Wait + Copy + Send + 'static>(rt: H, alloc: Global, ahead: bool) -> bool {
    let Ok(mut numbers) = EagerIterIf::new(rt, alloc, move || ahead, 1..4u32, 2, 1) else {
        return false;
    };
    let is_ahead = matches!(&numbers, EagerIterIf::Eager(_));
    let is_given = gives_three(&mut numbers);
    drop(numbers);
    is_ahead == ahead && is_given
}

// Catches a condition that isn't heeded, and out of memory in place of the end.
#[test]
fn draws_ahead_if(rt: HostRuntime) -> Result<(), Fail> {
    let alloc: Global = rt.alloc();
    assert!(rt; is_chosen(rt, alloc, true) && is_chosen(rt, alloc, false));
    Ok(())
}
