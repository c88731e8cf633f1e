//! Numbers that any number of workers may add, and one sum.
ghost use Rattle.std.specs.Prelude.{◌≡◌, ◌<◌, ◌+◌, Ok, min};
ghost use Rattle.gix_features_workers.specs.Reduced.{IfReduced};

use gix_features_parts::parallel::Reduce;
use gix_features_workers::{ParallelError, in_parallel};
use odb_base::NoMemory;
use std::alloc::Global;
use std::test::Fail;
use std::thread::Threads;

/// Adds what it is fed; it saturates.
#[derive(Drop)]
struct Sum {
    total: u64,
}

impl Reduce for Sum {
    type Input = u64;

    type FeedProduce = ();

    type Output = u64;

    type Error = NoMemory;

    ghost feeds = { λ s number given t. (given ≡ Ok tt) × (t.total ≡ min (s.total + number) 18446744073709551615) };

    ghost comes_to = { λ s answer. answer ≡ Ok s.total };

    fn feed(&mut self, number: u64) -> Result<(), NoMemory> {
        self.total = self.total.saturating_add(number);
        Ok(())
    }

    fn finalize(self) -> Result<u64, NoMemory> {
        Ok(self.total)
    }
}

/// No worker has a state.
fn stateless(_worker: usize) {}

/// A number is its own output, whichever worker consumes it.
fn itself(number: u32, _state: &mut ()) -> u64
    ensures { result ≡ number }
{
    u64::from(number)
}

type SumOrNone = Result<u64, ParallelError<NoMemory>>;

/// The sums of the numbers below `end` by `one` and by `other` workers.
fn sums<H: Threads + Sync>(
    rt: &H,
    alloc: Global,
    end: u32,
    one: usize,
    other: usize,
) -> (SumOrNone, SumOrNone)
    requires some { (0 < one) × (0 < other) }
    ensures same { IfReduced result.0 (λ a. IfReduced result.1 (λ b. a ≡ b)) }
{
    let first = in_parallel(
        rt,
        alloc,
        0..end,
        Some(one),
        1,
        stateless,
        itself,
        Sum { total: 0 },
    );
    let second = in_parallel(
        rt,
        alloc,
        0..end,
        Some(other),
        1,
        stateless,
        itself,
        Sum { total: 0 },
    );
    (first, second)
}

// Catches a sum that is never returned, of which no clause speaks.
#[test]
fn sums_are_there(rt: HostRuntime) -> Result<(), Fail> {
    let alloc: Global = rt.alloc();
    let (first, second) = sums(&rt, alloc, 5, 1, 3);
    assert!(rt; matches!(first, Ok(10)) && matches!(second, Ok(10)));
    Ok(())
}
