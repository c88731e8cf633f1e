//! What the crates of tests share: rows of words, changes of a disk in words, and texts that are compared.
//!
//! A row is what is done, then a bar, then what must follow.
#![tactic(auto)]

mod change;
mod row;
mod text;

pub use change::change_of;
pub use row::{add, compare, cut, halves, wide_halves};
pub use text::Text;
