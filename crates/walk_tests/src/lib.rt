//! What walks give on disks in memory, and what the crates on walks make of it: Git's order, composed names, and the
//! answers that callers get from a walk.
//!
//! It has tests alone. Most are tables: a row has what is walked and how, and after a bar what is written of it.
#![tactic(auto)]

#[cfg(test)]
mod composed;
#[cfg(test)]
mod entries;
#[cfg(test)]
mod led;
#[cfg(test)]
mod names;
#[cfg(test)]
mod skips;
#[cfg(test)]
mod streams;
#[cfg(test)]
mod uses;
#[cfg(test)]
mod walks;
#[cfg(test)]
mod words;
