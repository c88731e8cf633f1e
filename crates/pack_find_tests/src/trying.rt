//! Seeking an object in the packs that a core lists.
ghost use Rattle.std.specs.Prelude.{IfOk};
ghost use Rattle.gix_odb_events.specs.Asks.{IsAnswerTo};
ghost use Rattle.gix_odb_search.specs.TryOrder.{ask_of};

use crate::files::id_of;
use crate::happening::happen_for;
use crate::shown::{put_ask, put_end, put_event};
use gix_object::Want;
use gix_odb_core::{Core, Refusal, View};
use gix_odb_search::{Answer, Ask, Goal, Notes, Tried, Trier};
use odb_base::NoMemory;
use odb_mem_disk::MemDisk;
use std::alloc::Global;
use test_words::{Text, cut};

fn want_of(verb: &str) -> Want {
    match verb {
        "find" => Want::Object,
        "header" => Want::Header,
        _ => Want::Presence,
    }
}

// A word, and a limit if there is one.
fn goal_of(alloc: Global, verb: &str, words: &str) -> Result<Goal, NoMemory> {
    let (word, limit) = cut(words);
    Ok(Goal {
        id: id_of(alloc, word)?,
        want: want_of(verb),
        limit: limit.parse::<u64>().ok(),
    })
}

fn carried_out(
    alloc: Global,
    disk: &mut MemDisk,
    core: &mut Core,
    ask: Ask,
    text: &mut Text,
) -> Answer
    ensures suits { IsAnswerTo ask result }
{
    match ask {
        Ask::Disk(ask) => {
            put_ask(text, &ask);
            Answer::Disk(ask.carry_out(alloc, disk))
        }
        Ask::Core(event) => {
            put_event(text, &event);
            Answer::Core(happen_for(alloc, core, event))
        }
        // A search never asks for a new core.
        Ask::NewCore { .. } => Answer::Core(Err(Refusal::NoMemory)),
    }
}

/// The answer to the next call or event of a search, which is appended to a text.
fn answered(
    alloc: Global,
    disk: &mut MemDisk,
    core: &mut Core,
    trier: &Trier,
    text: &mut Text,
) -> Result<Answer, NoMemory>
    ensures suits { IfOk result (λ answer. IsAnswerTo (ask_of trier.now) answer) }
{
    let ask = trier.ask(alloc)?;
    Ok(carried_out(alloc, disk, core, ask, text))
}

fn step(
    alloc: Global,
    disk: &mut MemDisk,
    core: &mut Core,
    trier: Trier,
    text: &mut Text,
) -> Result<Tried, NoMemory> {
    let answer = answered(alloc, disk, core, &trier, text)?;
    trier.feed(alloc, answer)
}

/// Goes on to the end.
fn finish(
    alloc: Global,
    disk: &mut MemDisk,
    core: &mut Core,
    mut tried: Tried,
    text: &mut Text,
) -> Result<Tried, NoMemory> {
    for _ in 0..100 {
        match tried {
            Tried::More(trier) => tried = step(alloc, disk, core, trier, text)?,
            end => return Ok(end),
        }
    }
    Ok(tried)
}

/// Begins with the view of a core.
fn begun(alloc: Global, view: &View, goal: Goal) -> Result<Tried, NoMemory> {
    let indices = view.snapshot.indices.rest()?;
    let todo = view.todo.rest()?;
    let notes = Notes::new(alloc);
    Trier::start(alloc, goal, indices, todo, notes)
}

/// Appends the calls, the events and the end of a search to a text.
pub fn put_tried(
    alloc: Global,
    disk: &mut MemDisk,
    core: &mut Core,
    verb: &str,
    words: &str,
    text: &mut Text,
) -> Result<(), NoMemory> {
    let goal = goal_of(alloc, verb, words)?;
    let tried = begun(alloc, core.look(), goal)?;
    let end = finish(alloc, disk, core, tried, text)?;
    put_end(text, &end);
    Ok(())
}
