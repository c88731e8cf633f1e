//! `world`: reads a script, and writes a line for each of its step lines.
ghost use Rattle.std.specs.Prelude.{◌≡◌, ◌++◌, ℕ, List, IfOk, OnOk};
ghost use Rattle.std.specs.Option.{option_copied};
ghost use Rattle.gix_odb_world.specs.Play.{IsPlayed};
ghost use Rattle.odb_script.specs.Print.{printed_at, line_of};
ghost use Rattle.odb_script.specs.Script.{reading_of};
ghost use Rattle.odb_script.specs.Told.{told_by};
ghost use Rattle.gitodb.specs.Session.{Answers, AnswersWith, Says, ending_text, status_by};

use crate::status::Status;
use gix_odb_history::OutcomeList;
use gix_odb_world::{Line, Outcome, Play, World};
use odb_base::{ByteList, NoMemory, Sequence};
use odb_mem_disk::MemDisk;
use odb_program::{labelled, text};
use odb_script::{Ending, Reading, print_outcome, read, told_of};
use std::alloc::Global;

/// The output for a script, and the status. The script itself isn't kept while its lines are played.
pub fn answer_script(alloc: Global, script: Vec<u8>) -> Result<(Vec<u8>, Status), NoMemory>
    ensures answered { IfOk result (λ answer. AnswersWith script.items answer.0.items answer.1) }
{
    let (reading, told) = understood(alloc, script)?;
    let (disk, lines, ending) = reading.into_parts(alloc)?;
    let out = answer_lines(alloc, disk, lines, ending)?;
    Ok((out, status_by(ending, told)))
}

/// The contents of a script, and the message about it.
fn understood(alloc: Global, script: Vec<u8>) -> Result<(Reading, Vec<u8>), NoMemory>
    ensures reading { IfOk result (λ understood. understood.0 ≡ reading_of script.items) }
    ensures told { IfOk result (λ understood. understood.1.items ≡ told_by understood.0.script script.items understood.0.ending) }
{
    let reading = read(alloc, &script)?;
    let told = told_of(alloc, &script, &reading)?;
    Ok((reading, told))
}

/// The output for a script that makes this disk, plays these lines on it, and has this ending.
fn answer_lines(
    alloc: Global,
    disk: MemDisk,
    lines: Sequence<Line>,
    ending: Ending,
) -> Result<Vec<u8>, NoMemory>
    ensures answered { (script : List ℕ) → Says script disk lines ending → IfOk result (λ out. Answers script out.items ending) }
{
    let play = played(alloc, disk, &lines)?;
    printed(alloc, &play, ending)
}

/// The play of lines on a disk.
fn played<'a>(alloc: Global, disk: MemDisk, lines: &'a Sequence<Line>) -> Result<Play<'a>, NoMemory>
    ensures played { IfOk result (IsPlayed disk lines.now) }
{
    World::play(alloc, disk, lines.as_slice())
}

/// The output for a play, and for the ending of its script.
fn printed(alloc: Global, play: &Play<'_>, ending: Ending) -> Result<Vec<u8>, NoMemory>
    ensures written { IfOk result (λ out. out.items ≡ printed_at play.now.run.outcomes play.now.last ++ ending_text ending) }
{
    let mut out = Vec::new(alloc);
    print_places(alloc, &mut out, &play.run.outcomes, play.last.as_slice())?;
    print_ending(alloc, &mut out, ending)?;
    Ok(out)
}

/// Adds a line for the outcome at each place.
fn print_places(
    alloc: Global,
    out: &mut Vec<u8>,
    outcomes: &OutcomeList,
    places: &[usize],
) -> Result<(), NoMemory>
    ensures ok { OnOk result (out.new.items ≡ out.old.items ++ printed_at outcomes.now places.now) }
{
    for place in places {
        print_line(alloc, out, outcomes.get(*place))?;
    }
    Ok(())
}

/// Adds the line of an outcome.
fn print_line(alloc: Global, out: &mut Vec<u8>, outcome: Option<&Outcome>) -> Result<(), NoMemory>
    ensures ok { OnOk result (out.new.items ≡ out.old.items ++ line_of (option_copied outcome.entry)) }
{
    match outcome {
        None => Ok(()),
        Some(outcome) => {
            print_outcome(alloc, out, outcome)?;
            text(out, b"\n")
        }
    }
}

/// Adds the text with which a script ends.
fn print_ending(alloc: Global, out: &mut Vec<u8>, ending: Ending) -> Result<(), NoMemory>
    ensures ok { OnOk result (out.new.items ≡ out.old.items ++ ending_text ending) }
{
    match ending {
        Ending::Whole => Ok(()),
        Ending::RefusedAt(line) => {
            labelled(alloc, out, b"line ", line)?;
            text(out, b" refused")?;
            text(out, b"\n")
        }
        Ending::NotBuiltAt(line) => {
            labelled(alloc, out, b"line ", line)?;
            text(out, b" not built")?;
            text(out, b"\n")
        }
    }
}

/// The status of a script with this ending and this message.
fn status_by(ending: Ending, told: Vec<u8>) -> Status
    ensures status { result ≡ status_by ending told.items }
{
    match ending {
        Ending::Whole => Status::Done,
        Ending::RefusedAt(_) => Status::Refused(ByteList::from_vec(told)),
        Ending::NotBuiltAt(_) => Status::NotBuilt(ByteList::from_vec(told)),
    }
}
