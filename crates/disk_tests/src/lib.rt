//! Tests of paths, lists, numbers, disks and watched paths: what no contract says of them.
//!
//! A row of words says what is done, and after a bar what it returns.
#![tactic(auto)]

#[cfg(test)]
mod calls;
#[cfg(test)]
mod lists;
#[cfg(test)]
mod memory;
#[cfg(test)]
mod numbers;
#[cfg(test)]
mod paths;
#[cfg(test)]
mod real;
#[cfg(test)]
mod real_calls;
#[cfg(test)]
mod real_folders;
#[cfg(test)]
mod real_links;
#[cfg(test)]
mod real_numbers;
#[cfg(test)]
mod rows;
#[cfg(test)]
mod shown_words;
#[cfg(test)]
mod sources;
#[cfg(test)]
mod streams;
#[cfg(test)]
mod words;
#[cfg(test)]
mod writes;
