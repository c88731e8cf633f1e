//! Runs trials, and prints their results.
ghost use Rattle.parallel_trials.specs.Asked.{IsBounded};

use crate::drawing::draw_half;
use crate::fault::Fault;
use crate::hashing::hash_of_all;
use crate::passing::pass;
use crate::rounds::double_all;
use crate::stopping::{Seen, stop_half_way};
use crate::trial::Trial;
use std::alloc::Global;
use std::sync::Wait;
use std::thread::Threads;

/// Runs a trial, and prints its result.
pub fn show<R: Threads + Wait + Print + Copy + Send + Sync + 'static>(
    rt: &R,
    alloc: Global,
    trial: Trial,
) -> Result<(), Fault>
    requires bounded { IsBounded trial }
{
    match trial {
        Trial::Hash {
            workers,
            messages,
            kib,
        } => show_number(rt, hash_of_all(rt, alloc, workers, messages, kib)?),
        Trial::Pipe { pieces, kib } => show_number(rt, pass(rt, alloc, pieces, kib)?),
        Trial::Stop { items, workers } => show_seen(rt, stop_half_way(rt, alloc, items, workers)?),
        Trial::Draw { items, chunk_size } => {
            let count = draw_half(*rt, alloc, items, chunk_size)?;
            show_number(rt, u64::from(count))
        }
        Trial::Slice { items, workers } => show_number(rt, double_all(rt, alloc, items, workers)?),
    }
}

/// Prints a number.
fn show_number<R: Print>(rt: &R, number: u64) -> Result<(), Fault> {
    Ok(println!(rt; "{number}")?)
}

/// Prints what was seen of workers whose reader stops.
fn show_seen<R: Print>(rt: &R, seen: Seen) -> Result<(), Fault> {
    let (read, written, back) = (seen.read, seen.written, seen.came_back);
    Ok(println!(rt; "read {read}, written {written}, came back {back}")?)
}
