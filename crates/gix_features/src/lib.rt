//! Walks in Git's order and work in parallel, of the crate `gix-features` 0.50.
//!
//! The object database doesn't use it yet: tests do, and a program that measures the parts which start threads.
//!
//! `fs` wraps the walks of the crate `walkdir`: unsorted, or in the order of Git's trees, and with names in Unicode's
//! form NFC if that is asked for. The other modules are those of `gix_features_parts`: `interrupt` ends work when a
//! flag is set, `progress` counts the bytes that pass, `decode` reads numbers of variable length, `iter` cuts items
//! into chunks, `cache` takes a cache's counts, `threading` names what threads share, and `parallel` splits work and
//! puts its results in order again. It also has the calls of
//! `gix_features_workers` and `gix_features_channel`: items consumed by several workers at once, and items that are drawn
//! ahead. `io::pipe` is a pipe from one thread to another, that of `gix_features_channel`.
//! ```rust
//! let root = PathText::parse(alloc, "/src")?;
//! let walk = fs::walkdir_sorted_new(root, Parallelism::Serial, usize::MAX, true);
//! for entry in walk.into_iter_on(alloc, &mut disk)? {
//!     println!(rt; "{}", entry?.path(alloc)?)?;
//! }
//! ```
#![tactic(auto)]

pub mod fs;
pub mod io;
pub mod parallel;

pub use gix_features_parts::{cache, decode, interrupt, iter, progress, threading};
