//! Items that are dealt to workers in turn.
ghost use Rattle.std.specs.Prelude.{◌≡◌, ◌<◌, List, length, IfOk};
ghost use Rattle.std.specs.Iterator.{IsFinite, Drains};
ghost use Rattle.gix_features_workers.specs.Dealt.{AreDealt, HaveNone, turn_after};

use odb_base::NoMemory;
use std::alloc::Global;

/// The work of one worker.
#[derive(Drop)]
pub(crate) struct Job<T> {
    /// The worker's number.
    pub(crate) worker: usize,
    /// Its items, in their order.
    pub(crate) items: Vec<T>,
}

/// Deals all items of an iterator to workers: the first to the first worker, and after the last worker to the first
/// one again.
pub(crate) fn deal<I: Iterator + Drop>(
    alloc: Global,
    input: I,
    workers: usize,
) -> Result<Vec<Job<I::Item>>, NoMemory>
where
    I::Item: Drop,
    requires some { 0 < workers }
    requires can { I.can_next input }
    requires finite { IsFinite (I.remaining input) }
    ensures dealt { IfOk result (λ jobs. (items : List I.Item) × Drains I.next_gives input items
        × AreDealt workers items jobs.items) }
{
    let mut jobs = idle(alloc, workers)?;
    let mut turn = 0;
    for item in input {
        let job = &mut jobs[turn];
        job.items.push(item)?;
        turn = next_turn(turn, workers);
    }
    Ok(jobs)
}

/// Workers with nothing to do.
fn idle<T: Drop>(alloc: Global, workers: usize) -> Result<Vec<Job<T>>, NoMemory>
    ensures idle { IfOk result (λ jobs. HaveNone workers jobs.items) }
{
    let mut jobs = Vec::new(alloc);
    for worker in 0..workers {
        let items = Vec::new(alloc);
        jobs.push(Job { worker, items })?;
    }
    Ok(jobs)
}

/// The worker after another one.
pub(crate) fn next_turn(turn: usize, workers: usize) -> usize
    requires { turn < workers }
    ensures turn { result ≡ turn_after workers turn }
    ensures below { result < workers }
{
    if turn + 1 == workers { 0 } else { turn + 1 }
}
