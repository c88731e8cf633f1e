//! Trials of the parts of `gix_features` that start threads, for measuring.
//!
//! `parallel_trials hash WORKERS MESSAGES KIB` has workers hash messages of KIB KiB, and prints a number from all
//! hashes. `parallel_trials pipe PIECES KIB` passes pieces of KIB KiB from one thread to another, and prints how many
//! bytes came. `parallel_trials stop ITEMS WORKERS` has workers write ITEMS numbers into one pipe, whose slow reader
//! stops half way, and prints what was seen. `parallel_trials draw ITEMS CHUNK` has a worker draw ITEMS numbers
//! ahead, half of which a slow consumer takes. `parallel_trials slice ITEMS WORKERS` has workers change the items of
//! a slice in rounds.
#![tactic(auto)]

mod drawing;
mod fault;
mod hashing;
mod passing;
mod rounds;
mod show;
mod stopping;
mod trial;

use crate::fault::Fault;
use crate::show::show;
use crate::trial::trial_of;
use odb_program::command_words;
use std::alloc::Global;

fn main(rt: HostRuntime) -> Result<(), Fault> {
    let alloc: Global = rt.alloc();
    let words = command_words(&rt, alloc)?;
    match trial_of(&words) {
        Some(trial) => show(&rt, alloc, trial),
        None => Err(Fault::NotUnderstood),
    }
}
