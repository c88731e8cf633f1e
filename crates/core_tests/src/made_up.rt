//! Random events, played both on a core and on the second model.
use crate::generator::{Numbers, Ways, put_made_up};
use crate::model::{Model, Opening};
use crate::table::{check_core, core_of};
use gix_odb_core::Core;
use std::alloc::Global;
use std::test::Fail;
use test_words::{Text, cut};

const EVENTS: usize = 2_000;

/// The first words of answers.
const WORDS: [&str; 10] = [
    "seen",
    "reported",
    "removed",
    "stored",
    "left",
    "published",
    "unchanged",
    "outdated",
    "insufficient",
    "overflow",
];

/// How often each first word still has to come.
type Wanted = [u64; 10];

fn lower(wanted: &mut Wanted, place: usize) {
    if let Some(left) = wanted.get_mut(place) {
        *left = left.saturating_sub(1);
    }
}

/// Counts an answer.
fn note(wanted: &mut Wanted, answer: &str) {
    let (first, _) = cut(answer);
    for (place, word) in WORDS.iter().enumerate() {
        if *word == first {
            lower(wanted, place);
        }
    }
}

/// Fails if a word didn't come as often as it has to.
fn check_all_came(wanted: &Wanted) -> Result<(), Fail> {
    for (place, word) in WORDS.iter().enumerate() {
        if wanted.get(place) != Some(&0) {
            return Err(Fail::new(*word));
        }
    }
    Ok(())
}

/// Random events, and what they have to lead to.
struct Run {
    opening: Opening,
    seed: u64,
    ways: Ways,
    /// The values that the generation and the state number reach at least.
    counters: (u32, u64),
    wanted: Wanted,
}

/// Plays an event on the second model, and then on the core. It compares the answer, the newest journal entry, the view and the counts.
fn step(
    alloc: Global,
    core: &mut Core,
    model: &mut Model,
    wanted: &mut Wanted,
    line: &str,
) -> Result<(), Fail> {
    let mut want = Text::new(alloc);
    model.play(line, &mut want);
    note(wanted, want.as_str());
    check_core(alloc, core, line, want.as_str())?;
    check_newest(alloc, core, model.entries, line, want.as_str())?;
    check_present(alloc, core, model)
}

fn check_newest(
    alloc: Global,
    core: &mut Core,
    number: u64,
    line: &str,
    answer: &str,
) -> Result<(), Fail> {
    let mut want = Text::new(alloc);
    want.marked("", number);
    want.marked(" ", line);
    want.marked(": ", answer);
    check_core(alloc, core, "newest", want.as_str())
}

fn check_present(alloc: Global, core: &mut Core, model: &Model) -> Result<(), Fail> {
    let mut want = Text::new(alloc);
    model.put_present(&mut want);
    check_core(alloc, core, "now", want.as_str())
}

/// Plays the next event.
fn play_next(
    alloc: Global,
    core: &mut Core,
    model: &mut Model,
    wanted: &mut Wanted,
    numbers: &mut Numbers,
    ways: &Ways,
) -> Result<(), Fail> {
    let mut line = Text::new(alloc);
    put_made_up(&mut line, numbers, ways, model);
    step(alloc, core, model, wanted, line.as_str())
}

/// Fails if a counter doesn't reach the value that it has to.
fn check_counters(model: &Model, counters: (u32, u64)) -> Result<(), Fail> {
    let (generation, state) = counters;
    if model.generation >= generation && model.state >= state {
        return Ok(());
    }
    Err(Fail::new("the counters"))
}

fn play(alloc: Global, core: &mut Core, run: &Run) -> Result<(), Fail> {
    let mut model = Model::new(alloc, run.opening);
    let mut wanted = run.wanted;
    let mut numbers = Numbers { state: run.seed };
    for _ in 0..EVENTS {
        play_next(
            alloc,
            core,
            &mut model,
            &mut wanted,
            &mut numbers,
            &run.ways,
        )?;
    }
    check_counters(&model, run.counters)?;
    check_all_came(&wanted)
}

fn check(alloc: Global, run: &Run) -> Result<(), Fail> {
    let mut core = core_of(alloc, run.opening)?;
    play(alloc, &mut core, run)
}

const RUNS: &[Run] = &[
    // Few slots, so that listings often find too few; handles are registered and removed.
    Run {
        opening: (3, 1, 0, 0),
        counters: (0, 0),
        seed: 1,
        ways: Ways {
            stable: 1,
            upgraded: 2,
            removed: 15,
            rows: 6,
        },
        wanted: [100, 10, 10, 50, 50, 50, 20, 20, 50, 0],
    },
    // Handles are mostly stable, so that slots keep what no listing has any more, until all handles are gone.
    Run {
        opening: (9, 4, 0, 0),
        counters: (0, 0),
        seed: 2,
        ways: Ways {
            stable: 4,
            upgraded: 6,
            removed: 15,
            rows: 5,
        },
        wanted: [100, 10, 10, 50, 50, 50, 20, 20, 20, 0],
    },
    // The state number, and then the generation, reach their greatest values.
    Run {
        opening: (5, 2, u32::MAX - 15, u64::MAX - 250),
        counters: (u32::MAX, u64::MAX),
        seed: 3,
        ways: Ways {
            stable: 1,
            upgraded: 1,
            removed: 14,
            rows: 5,
        },
        wanted: [100, 10, 10, 50, 50, 50, 20, 20, 20, 30],
    },
];

#[test]
fn made_up_events(rt: HostRuntime) -> Result<(), Fail> {
    for run in RUNS {
        check(rt.alloc(), run)?;
    }
    Ok(())
}
