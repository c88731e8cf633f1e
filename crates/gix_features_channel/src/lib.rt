//! Between two threads: the rule of a channel, `io::pipe`, and `parallel::EagerIter`, as in the crate `gix-features` 0.50.
//!
//! What is taken from a channel is what was sent first (`ends`). A pipe carries bytes in pieces, and the errors that the writer
//! sent between them. An eager iterator's items are drawn ahead by a worker, in chunks, and come in the iterator's order:
//! the law of its channel (`messages`) says that each chunk is the iterator's.
//! ```rust
//! let (mut writer, mut reader) = pipe::unidirectional(alloc, 8)?;
//! writer.write(&rt, alloc, b"blob")?;
//! for path in EagerIter::new(rt, alloc, paths, 64, 8)? {
//!     work(path?)?;
//! }
//! ```
#![tactic(auto)]

mod choice;
mod elsewhere;
pub mod ends;
mod iter;
pub mod messages;
pub mod pipe;
mod source;
mod starting;
pub mod taker;
mod worker;

pub use choice::EagerIterIf;
pub use iter::EagerIter;
