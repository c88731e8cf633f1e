//! Steps, by the lines of scripts.
use gix_odb_world::{Line, Slots, Step};
use odb_script::{Item, item_of};
use std::alloc::Global;
use std::test::Fail;

/// A line to play.
pub(crate) fn line_of(alloc: Global, text: &str) -> Result<Line, Fail> {
    match item_of(alloc, text.as_bytes())? {
        Item::Play(line) => Ok(line),
        _ => Err(Fail::new(format_args!("no line to play: {text}"))),
    }
}

/// One step: a line of a script, or an opening with an option of its own at the end, `counted=PERCENT:MINIMUM`, which scripts lack.
pub(crate) fn step_of(alloc: Global, text: &str) -> Result<Step, Fail> {
    match text.split_once(" counted=") {
        Some((line, counted)) => Ok(with_slots(one_of(alloc, line)?, counted_of(counted)?)),
        None => one_of(alloc, text),
    }
}

fn one_of(alloc: Global, text: &str) -> Result<Step, Fail> {
    match line_of(alloc, text)? {
        Line::One(step) => Ok(step),
        Line::Finish { .. } => Err(Fail::new(format_args!("more than one step: {text}"))),
    }
}

fn with_slots(step: Step, slots: Slots) -> Step {
    let mut step = step;
    if let Step::Open { options, .. } = &mut step {
        options.slots = slots;
    }
    step
}

/// So many slots for a hundred indices, and a number at least.
fn counted_of(text: &str) -> Result<Slots, Fail> {
    let (percent, minimum) = text.split_once(':').unwrap_or((text, ""));
    Ok(Slots::AsNeededByDiskState {
        percent: percent.parse::<u32>()?,
        minimum: minimum.parse::<u32>()?,
    })
}
