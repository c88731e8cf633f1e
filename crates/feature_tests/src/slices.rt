//! Numbers of a slice that two workers double in rounds.
use gix_features_workers::{ParallelError, in_parallel_with_slice};
use std::alloc::Global;
use std::test::Fail;
use std::thread::Threads;

/// A call over three numbers, and its result.
struct Row {
    numbers: [u32; 3],
    /// Workers fail at this number and above.
    bad: u32,
    /// How many rounds there may be.
    rounds: u32,
    /// How many numbers each worker doubled, or the number at which it failed.
    answer: Result<[u32; 2], u32>,
    /// The numbers afterwards.
    left: [u32; 3],
}

const ROWS: [Row; 4] = [
    Row {
        numbers: [1, 2, 3],
        bad: 9,
        rounds: 9,
        answer: Ok([2, 1]),
        left: [2, 4, 6],
    },
    Row {
        numbers: [1, 2, 3],
        bad: 9,
        rounds: 1,
        answer: Ok([1, 1]),
        left: [2, 2, 6],
    },
    Row {
        numbers: [1, 5, 3],
        bad: 5,
        rounds: 9,
        answer: Err(5),
        left: [2, 5, 6],
    },
    Row {
        numbers: [6, 2, 5],
        bad: 5,
        rounds: 9,
        answer: Err(6),
        left: [6, 2, 5],
    },
];

/// Doubles a number and counts it, or fails if it is a bad one.
fn double(number: &mut u32, count: &mut u32, bad: u32) -> Result<(), u32> {
    if *number >= bad {
        return Err(*number);
    }
    *number = number.wrapping_mul(2);
    *count = count.wrapping_add(1);
    Ok(())
}

/// Whether a call gives what its row says.
fn is_right<H: Threads + Sync>(rt: &H, alloc: Global, row: &Row) -> bool {
    let mut numbers = row.numbers;
    let (bad, mut left) = (row.bad, row.rounds);
    let answer = in_parallel_with_slice(
        rt,
        alloc,
        &mut numbers,
        None,
        2,
        |_| 0,
        move |number: &mut u32, count: &mut u32| double(number, count, bad),
        move || {
            left = left.saturating_sub(1);
            if left == 0 { None } else { Some(()) }
        },
        |count| count,
    );
    numbers == row.left && is_same(answer, &row.answer)
}

/// Whether an answer is that of a row.
fn is_same(answer: Result<Vec<u32>, ParallelError<u32>>, wanted: &Result<[u32; 2], u32>) -> bool {
    match (answer, wanted) {
        (Ok(counts), Ok(wanted)) => counts.as_slice() == wanted.as_slice(),
        (Err(ParallelError::Reduce(bad)), Err(wanted)) => bad == *wanted,
        _ => false,
    }
}

// Catches a number that is left out or doubled twice, a round after the last, and an error of a later round.
#[test]
fn rounds(rt: HostRuntime) -> Result<(), Fail> {
    let alloc: Global = rt.alloc();
    for (number, row) in ROWS.iter().enumerate() {
        assert!(rt; is_right(&rt, alloc, row), "row {number}");
    }
    Ok(())
}
