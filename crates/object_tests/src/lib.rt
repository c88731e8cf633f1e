//! What ids, hashes, objects, packs and their indices answer to values from outside: Git's own ids, headers and files, what
//! `sha1sum` and `sha256sum` print, and damaged files.
//!
//! Each test is a table of what is asked and what is answered, as text.
#![tactic(auto)]

#[cfg(test)]
mod changed_indices;
#[cfg(test)]
mod changed_multi_indices;
#[cfg(test)]
mod databases;
#[cfg(test)]
mod encoders;
#[cfg(test)]
mod finds;
#[cfg(test)]
mod front;
#[cfg(test)]
mod git_multi_indices;
#[cfg(test)]
mod git_packs;
#[cfg(test)]
mod hashes;
#[cfg(test)]
mod headers;
#[cfg(test)]
mod ids;
#[cfg(test)]
mod indices;
#[cfg(test)]
mod multi_indices;
#[cfg(test)]
mod pack_words;
#[cfg(test)]
mod packs;
#[cfg(test)]
mod shelf;
