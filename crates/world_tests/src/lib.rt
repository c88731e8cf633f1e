//! What no clause of a world says and no script shows: records and journals, texts of errors, counts of turns, bytes of files.
//!
//! It has only tests. Steps are lines of scripts, which `steps` reads; `played` makes them and returns their outcomes.
#![tactic(auto)]

#[cfg(test)]
mod bounds;
#[cfg(test)]
mod contents;
#[cfg(test)]
mod counts;
#[cfg(test)]
mod lines;
#[cfg(test)]
mod misuse;
#[cfg(test)]
mod played;
#[cfg(test)]
mod records;
#[cfg(test)]
mod steps;
#[cfg(test)]
mod taken_names;
#[cfg(test)]
mod texts;
