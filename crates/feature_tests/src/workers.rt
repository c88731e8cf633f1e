//! Numbers to which two workers append their counts, or which they double, and that go into a list.
use gix_features_parts::parallel::Reduce;
use gix_features_workers::{
    Finalize, ParallelError, Stepwise, in_parallel, in_parallel_if, in_parallel_with_finalize,
};
use std::alloc::Global;
use std::sync::atomic::{AtomicU64, Ordering};
use std::test::Fail;
use std::thread::Threads;

/// Why there is no list.
#[derive(Clone, Copy, PartialEq)]
enum Refused {
    /// This number isn't accepted.
    Number(u32),
    /// The list isn't returned.
    List,
    NoMemory,
}

/// Puts what it is fed into a list.
#[derive(Drop)]
struct Collected<'f> {
    all: Vec<u32>,
    /// The number that isn't accepted, or that the list isn't returned.
    refuses: Option<Refused>,
    /// How many numbers were fed.
    fed: &'f AtomicU64,
}

impl<'f> Reduce for Collected<'f> {
    type Input = u32;

    type FeedProduce = ();

    type Output = Vec<u32>;

    type Error = Refused;

    fn feed(&mut self, item: u32) -> Result<(), Refused> {
        self.fed.fetch_add(1, Ordering::SeqCst);
        if self.refuses == Some(Refused::Number(item)) {
            return Err(Refused::Number(item));
        }
        if self.all.push(item).is_err() {
            return Err(Refused::NoMemory);
        }
        Ok(())
    }

    fn finalize(self) -> Result<Vec<u32>, Refused> {
        if self.refuses == Some(Refused::List) {
            Err(Refused::List)
        } else {
            Ok(self.all)
        }
    }
}

/// Ten times a number, and how many numbers its worker had.
fn counted(item: u32, count: &mut u32) -> u32 {
    *count = count.wrapping_add(1);
    item.wrapping_mul(10).wrapping_add(*count)
}

/// The double of a number, which is counted.
fn doubled(item: u32, count: &mut u32) -> u32 {
    *count = count.wrapping_add(1);
    item.wrapping_mul(2)
}

/// A worker's count at the beginning.
fn none(_worker: usize) -> u32 {
    0
}

/// A worker's count at the end.
fn last(count: u32) -> u32 {
    count
}

/// A call.
#[derive(Clone, Copy)]
enum Call {
    Plain,
    /// It has two workers if this holds.
    If(bool),
    /// How many numbers each worker had is fed too.
    Counted,
    /// The list is made step by step, this many of them one by one.
    Steps(u32),
}

/// The result of a call over the numbers from 1 to 3.
fn answer_of<'f, H: Threads + Sync, C: Fn(u32, &mut u32) -> u32 + Sync + Drop>(
    rt: &H,
    alloc: Global,
    call: Call,
    consume: C,
    list: Collected<'f>,
) -> Result<Vec<u32>, ParallelError<Refused>>
    requires consumes { C.IsAlwaysCallable consume }
{
    match call {
        Call::Plain => in_parallel(rt, alloc, 1..4u32, None, 2, none, consume, list),
        Call::If(holds) => in_parallel_if(
            rt,
            alloc,
            move || holds,
            1..4u32,
            None,
            2,
            none,
            consume,
            list,
        ),
        Call::Counted => in_parallel_with_finalize(
            rt,
            alloc,
            1..4u32,
            Some(2),
            1,
            none,
            consume,
            last,
            list,
        ),
        Call::Steps(steps) => stepped(rt, alloc, steps, consume, list),
    }
}

/// The result of `steps` steps, whatever they give, and of the rest.
fn stepped<'f, H: Threads + Sync, C: Fn(u32, &mut u32) -> u32 + Sync + Drop>(
    rt: &H,
    alloc: Global,
    steps: u32,
    consume: C,
    list: Collected<'f>,
) -> Result<Vec<u32>, ParallelError<Refused>>
    requires consumes { C.IsAlwaysCallable consume }
{
    let mut rest = Stepwise::new(rt, alloc, 1..4u32, None, 2, none, consume, list)?;
    for _ in 0..steps {
        let _ = rest.next(rt);
    }
    end(rt, rest)
}

/// The result of the rest.
fn end<H: Threads, F: Finalize>(
    rt: &H,
    steps: F,
) -> Result<<F::Reduce as Reduce>::Output, ParallelError<<F::Reduce as Reduce>::Error>> {
    steps.finalize(rt)
}

/// A call over the numbers from 1 to 3; what its list refuses; the list, with 0 after its end, or why there is none;
/// and how many numbers were fed.
type Row = (Call, Option<Refused>, Result<[u32; 5], Refused>, u64);

const FIRST: Refused = Refused::Number(11);

const SECOND: Refused = Refused::Number(21);

const LAST: Refused = Refused::Number(1);

const ROWS: [Row; 14] = [
    (Call::Plain, None, Ok([11, 21, 32, 0, 0]), 3),
    (Call::Plain, Some(SECOND), Err(SECOND), 2),
    (Call::Plain, Some(Refused::List), Err(Refused::List), 3),
    (Call::If(true), None, Ok([11, 21, 32, 0, 0]), 3),
    (Call::If(true), Some(FIRST), Err(FIRST), 1),
    (Call::If(false), None, Ok([11, 22, 33, 0, 0]), 3),
    (Call::If(false), Some(Refused::List), Err(Refused::List), 3),
    (Call::Counted, None, Ok([11, 21, 32, 2, 1]), 5),
    (Call::Counted, Some(LAST), Err(LAST), 5),
    (Call::Counted, Some(SECOND), Err(SECOND), 2),
    (Call::Steps(1), None, Ok([11, 21, 32, 0, 0]), 3),
    (Call::Steps(3), Some(SECOND), Ok([11, 32, 0, 0, 0]), 3),
    (Call::Steps(0), Some(SECOND), Err(SECOND), 2),
    (Call::Steps(4), Some(Refused::List), Err(Refused::List), 3),
];

/// Calls whose workers double.
const DOUBLED: [Row; 5] = [
    (Call::Plain, None, Ok([2, 4, 6, 0, 0]), 3),
    (Call::If(true), None, Ok([2, 4, 6, 0, 0]), 3),
    (Call::If(false), None, Ok([2, 4, 6, 0, 0]), 3),
    (Call::Counted, None, Ok([2, 4, 6, 2, 1]), 5),
    (Call::Steps(1), None, Ok([2, 4, 6, 0, 0]), 3),
];

/// Whether a call gives what its row says.
fn is_right<H: Threads + Sync, C: Fn(u32, &mut u32) -> u32 + Sync + Drop>(
    rt: &H,
    alloc: Global,
    consume: C,
    row: &Row,
) -> bool
    requires consumes { C.IsAlwaysCallable consume }
{
    let (call, refuses, wanted, count) = row;
    let fed = AtomicU64::new(0);
    let list = Collected {
        all: Vec::new(alloc),
        refuses: *refuses,
        fed: &fed,
    };
    let answer = answer_of(rt, alloc, *call, consume, list);
    is_same(answer, wanted) && fed.load(Ordering::SeqCst) == *count
}

/// Whether an answer is that of a row.
fn is_same(
    answer: Result<Vec<u32>, ParallelError<Refused>>,
    wanted: &Result<[u32; 5], Refused>,
) -> bool {
    match (answer, wanted) {
        (Ok(all), Ok(wanted)) => is_list(all.as_slice(), wanted),
        (Err(ParallelError::Reduce(refused)), Err(wanted)) => refused == *wanted,
        _ => false,
    }
}

/// Whether these numbers are those, followed by zeros, if any.
fn is_list(all: &[u32], wanted: &[u32; 5]) -> bool {
    let count = all.len().min(5);
    all.len() <= 5 && all == &wanted[..count] && wanted[count..].iter().all(|number| *number == 0)
}

// Catches an output that is lost, fed twice, or fed out of the order of the items; an error that doesn't stop the feed, or is
// lost; a condition that isn't heeded; items that aren't dealt in turn; and a step after an error that feeds nothing.
#[test]
fn lists(rt: HostRuntime) -> Result<(), Fail> {
    let alloc: Global = rt.alloc();
    for (number, row) in ROWS.iter().enumerate() {
        assert!(rt; is_right(&rt, alloc, counted, row), "row {number}");
    }
    Ok(())
}

// Catches an output that is lost, fed twice, or fed out of the order of the items, if it follows from its item alone;
// and counts that aren't in the order of the workers.
#[test]
fn doubles(rt: HostRuntime) -> Result<(), Fail> {
    let alloc: Global = rt.alloc();
    for (number, row) in DOUBLED.iter().enumerate() {
        assert!(rt; is_right(&rt, alloc, doubled, row), "row {number}");
    }
    Ok(())
}
