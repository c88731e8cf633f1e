//! Items that several workers consume, or change in rounds, as `parallel` of the crate `gix-features` 0.50.
//!
//! One result is made of the workers' outputs, at the end or step by step. In rounds each worker has a run of the slice's items,
//! and changes the item at one place of its run. A caller may start threads of its own.
//! ```rust
//! let sizes = in_parallel(&rt, alloc, paths, None, cores, |_| Buffer::new(), read_size, Total::new())?;
//! in_parallel_with_slice(&rt, alloc, entries, None, cores, |_| Buffer::new(), resolve, || Some(()), |_| ())?;
//! ```
#![tactic(auto)]

mod calls;
mod deal;
mod outputs;
mod reducing;
mod rounds;
mod scopes;
mod slice;
mod stepwise;
mod work;

pub use calls::{ParallelError, in_parallel, in_parallel_if, in_parallel_with_finalize};
pub use scopes::{Scope, build_thread, join, threads};
pub use slice::in_parallel_with_slice;
pub use stepwise::{Finalize, Stepwise};
