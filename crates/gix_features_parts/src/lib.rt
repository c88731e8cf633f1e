//! The parts of the crate `gix-features` 0.50 that start no thread of their own.
//!
//! `interrupt` ends iterators, reads and writes when a flag is set, and `progress` counts the bytes that pass.
//! `decode` reads numbers of variable length, `iter` cuts items into chunks, and `cache` takes a cache's counts.
//! `parallel` splits work and puts its results in order again, and `threading` names what threads share.
//! ```rust
//! let mut lines = interrupt::Iter::new(lines, AtomicFlag::new(&stop));
//! while let Some(line) = lines.next() {
//!     work(line)?;
//! }
//! ```
#![tactic(auto)]

pub mod cache;
pub mod decode;
pub mod interrupt;
pub mod iter;
pub mod parallel;
pub mod progress;
pub mod threading;
