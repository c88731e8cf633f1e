//! How work in parallel is split, and how its results are put in order again.
mod in_order;
pub mod reduce;
mod sizes;

pub use in_order::{InOrderError, InOrderIter, SequenceId};
pub use reduce::Reduce;
pub use sizes::{num_threads, optimize_chunk_size_and_thread_limit};
