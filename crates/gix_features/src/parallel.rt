//! Items that several workers consume at once, how work in parallel is split, and how its results are put in order again.
pub mod reduce;

pub use gix_features_channel::{EagerIter, EagerIterIf};
pub use gix_features_parts::parallel::{
    InOrderError, InOrderIter, Reduce, SequenceId, num_threads,
    optimize_chunk_size_and_thread_limit,
};
pub use gix_features_workers::{
    ParallelError, Scope, Stepwise, build_thread, in_parallel, in_parallel_if,
    in_parallel_with_finalize, in_parallel_with_slice, join, threads,
};
