//! What no clause of the core of a store says: that events succeed, the worked rows, and that a plain second model agrees.
//!
//! Each test is a table. A row is an event in words, and after a bar the expected result; `events` and `shown` define the words.
#![tactic(auto)]

#[cfg(test)]
mod apart;
#[cfg(test)]
mod events;
#[cfg(test)]
mod file_states;
#[cfg(test)]
mod files;
#[cfg(test)]
mod generator;
#[cfg(test)]
mod happening;
#[cfg(test)]
mod lent;
#[cfg(test)]
mod made_up;
#[cfg(test)]
mod many_rows;
#[cfg(test)]
mod model;
#[cfg(test)]
mod model_files;
#[cfg(test)]
mod model_shown;
#[cfg(test)]
mod pack_ids;
#[cfg(test)]
mod refusals;
#[cfg(test)]
mod refused;
#[cfg(test)]
mod reports;
#[cfg(test)]
mod rows;
#[cfg(test)]
mod shared_lists;
#[cfg(test)]
mod shelf;
#[cfg(test)]
mod shown;
#[cfg(test)]
mod table;
#[cfg(test)]
mod words;
