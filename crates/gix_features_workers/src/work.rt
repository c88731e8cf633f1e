//! What one worker does.
ghost use Rattle.std.specs.Prelude.{IfOk};
ghost use Rattle.gix_features_workers.specs.Workers.{BeginsAs, ConsumesTo, EndsAs, IsWorked};

use crate::deal::Job;
use odb_base::NoMemory;
use std::alloc::Global;

/// A worker's outputs, and the result of its last state.
#[derive(Drop)]
pub(crate) struct Worked<O, L> {
    /// An output for each item.
    pub(crate) outputs: Vec<O>,
    /// The result of the state after the last item.
    pub(crate) last: L,
}

/// Consumes a worker's items one after another, from its first state on.
pub(crate) fn work<T, S, O, L, N, C, F>(
    alloc: Global,
    job: Job<T>,
    new_thread_state: &N,
    consume: &C,
    end: &F,
) -> Result<Worked<O, L>, NoMemory>
where
    T: Drop,
    S: Send + Drop,
    O: Drop,
    N: Fn(usize) -> S,
    C: Fn(T, &mut S) -> O,
    F: Fn(S) -> L,
    requires begins { N.pre new_thread_state.now job.worker }
    requires consumes { C.IsAlwaysCallable consume.now }
    requires ends { F.IsAlwaysCallable end.now }
    ensures worked { IfOk result (λ w. IsWorked (BeginsAs N.Fn new_thread_state.now) (ConsumesTo C.Fn consume.now)
        (EndsAs F.Fn end.now) job.worker job.items.items w.outputs.items w.last) }
{
    let Job { worker, items } = job;
    let mut state = new_thread_state(worker);
    let mut outputs = Vec::new(alloc);
    for item in items {
        outputs.push(consume(item, &mut state))?;
    }
    let last = end(state);
    Ok(Worked { outputs, last })
}
