//! What no clause of a store of loose objects says: that calls succeed, the results for damaged files, Git's ids, and
//! the texts of errors.
//!
//! Each test is a table. A row is a call or a change in words, and after a bar the expected result; `calls` defines
//! the words.
#![tactic(auto)]

#[cfg(test)]
mod calls;
#[cfg(test)]
mod changes;
#[cfg(test)]
mod error_texts;
#[cfg(test)]
mod found_and_refused;
#[cfg(test)]
mod machine;
#[cfg(test)]
mod machine_by_hand;
#[cfg(test)]
mod paths_of_objects;
#[cfg(test)]
mod prefix_calls;
#[cfg(test)]
mod prefixes;
#[cfg(test)]
mod real_disk;
#[cfg(test)]
mod same_calls_from_a_source;
#[cfg(test)]
mod uses;
#[cfg(test)]
mod words;
#[cfg(test)]
mod written_and_refused;
