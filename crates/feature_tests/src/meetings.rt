//! Two workers that wait for each other, in vain if one begins only once the other has ended.
use crate::waiting::wait_for;
use gix_features_parts::parallel::Reduce;
use gix_features_workers::{
    ParallelError, Stepwise, in_parallel, in_parallel_if, in_parallel_with_finalize,
    in_parallel_with_slice, join,
};
use odb_base::NoMemory;
use std::alloc::Global;
use std::sync::atomic::{AtomicU64, Ordering};
use std::test::Fail;
use std::thread::Threads;
use std::time::Clock;

/// Which of two workers are at work.
#[derive(Drop)]
struct Meeting {
    first: AtomicU64,
    second: AtomicU64,
}

impl Meeting {
    /// Neither is at work yet.
    fn new() -> Meeting {
        Meeting {
            first: AtomicU64::new(0),
            second: AtomicU64::new(0),
        }
    }

    /// Says that a worker is at work, and waits for the other one. Returns whether that was at work too.
    fn meets<C: Clock>(&self, clock: &C, worker: usize) -> bool {
        let (own, other) = if worker == 0 {
            (&self.first, &self.second)
        } else {
            (&self.second, &self.first)
        };
        own.store(1, Ordering::SeqCst);
        wait_for(clock, other, 1) == 1
    }
}

/// How many workers met the other one.
#[derive(Drop)]
struct Met {
    count: u32,
}

impl Reduce for Met {
    type Input = bool;

    type FeedProduce = ();

    type Output = u32;

    type Error = NoMemory;

    fn feed(&mut self, met: bool) -> Result<(), NoMemory> {
        if met {
            self.count = self.count.saturating_add(1);
        }
        Ok(())
    }

    fn finalize(self) -> Result<u32, NoMemory> {
        Ok(self.count)
    }
}

/// A worker's state is its number.
fn own_number(worker: usize) -> usize {
    worker
}

/// Nothing was met at the end.
fn nobody(_worker: usize) -> bool {
    false
}

/// A call that has two workers.
#[derive(Clone, Copy)]
enum Call {
    Plain,
    If,
    Finalized,
    Steps,
}

/// How many of two workers met the other one.
fn met_in<H: Threads + Clock + Sync>(
    rt: &H,
    alloc: Global,
    call: Call,
) -> Result<u32, ParallelError<NoMemory>> {
    let meeting = Meeting::new();
    let shared = &meeting;
    let consume = move |_item: u32, worker: &mut usize| shared.meets(rt, *worker);
    let met = Met { count: 0 };
    match call {
        Call::Plain => in_parallel(rt, alloc, 0..2u32, None, 2, own_number, consume, met),
        Call::If => in_parallel_if(
            rt,
            alloc,
            || true,
            0..2u32,
            None,
            2,
            own_number,
            consume,
            met,
        ),
        Call::Finalized => in_parallel_with_finalize(
            rt,
            alloc,
            0..2u32,
            None,
            2,
            own_number,
            consume,
            nobody,
            met,
        ),
        Call::Steps => {
            let steps = Stepwise::new(rt, alloc, 0..2u32, None, 2, own_number, consume, met)?;
            steps.finalize(rt)
        }
    }
}

const CALLS: [Call; 4] = [Call::Plain, Call::If, Call::Finalized, Call::Steps];

// Catches workers of which one begins only once the other has ended, in either order.
#[test]
fn workers_meet(rt: HostRuntime) -> Result<(), Fail> {
    let alloc: Global = rt.alloc();
    for (number, call) in CALLS.iter().enumerate() {
        assert!(rt; matches!(met_in(&rt, alloc, *call), Ok(2)), "call {number}");
    }
    Ok(())
}

/// Which of the two workers of a round met the other one.
fn met_in_round<H: Threads + Clock + Sync>(rt: &H, alloc: Global) -> [bool; 2] {
    let meeting = Meeting::new();
    let shared = &meeting;
    let mut met = [false; 2];
    let answer = in_parallel_with_slice(
        rt,
        alloc,
        &mut met,
        None,
        2,
        own_number,
        move |met: &mut bool, worker: &mut usize| -> Result<(), NoMemory> {
            *met = shared.meets(rt, *worker);
            Ok(())
        },
        || Some(()),
        |worker: usize| worker,
    );
    drop(answer);
    met
}

/// Which of two functions that are called at once met the other one.
fn met_in_join<H: Threads + Clock + Sync>(rt: &H) -> (bool, bool) {
    let meeting = Meeting::new();
    let shared = &meeting;
    join(rt, || shared.meets(rt, 0), || shared.meets(rt, 1))
}

// Catches that for the workers of a round.
#[test]
fn rounds_meet(rt: HostRuntime) -> Result<(), Fail> {
    let alloc: Global = rt.alloc();
    assert!(rt; met_in_round(&rt, alloc) == [true, true]);
    Ok(())
}

// Catches that for two functions.
#[test]
fn functions_meet(rt: HostRuntime) -> Result<(), Fail> {
    assert!(rt; met_in_join(&rt) == (true, true));
    Ok(())
}
