//! What no clause of `gix_odb_search` says: that packs are found, by which calls and events, and what ends a search;
//! and openings and calls of `gix_odb`, driven to their replies.
//!
//! Each test is a table of rows in words, played on a disk in memory and on a core. A row changes the disk, or asks a
//! question, and has after a bar the expected result; `table` defines the words.
#![tactic(auto)]

#[cfg(test)]
mod call_rows;
#[cfg(test)]
mod calls;
#[cfg(test)]
mod disks;
#[cfg(test)]
mod errors;
#[cfg(test)]
mod files;
#[cfg(test)]
mod happening;
#[cfg(test)]
mod listed_rows;
#[cfg(test)]
mod listing;
#[cfg(test)]
mod opening_rows;
#[cfg(test)]
mod openings;
#[cfg(test)]
mod shown;
#[cfg(test)]
mod table;
#[cfg(test)]
mod tried_rows;
#[cfg(test)]
mod trying;
