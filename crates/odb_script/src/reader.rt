//! Scripts, read line by line.
ghost use Rattle.std.specs.Prelude.{◌≡◌, ◌+◌, ◌≤◌, ◌<◌, ◌∷◌, [], length, IfOk, IfSome, IsNone, if◌then◌else◌};
ghost use Rattle.odb_disk.specs.Tree.Change.{is_possible};
ghost use Rattle.odb_disk.specs.MemDisk.{after_outside_change};
ghost use Rattle.odb_script.specs.Line.{item_of};
ghost use Rattle.odb_script.specs.Script.{taken, disk_of, lines_of, items_in, last_item, reading_at, reading_from, reading_of};
ghost use Rattle.odb_script.specs.Split.{lines_in};

use crate::item::{Item, item_of};
use crate::split::first_part;
use gix_odb_calls::Line;
use odb_base::{NoMemory, Sequence};
use odb_mem_disk::{Change, Impossible, MemDisk};
use std::alloc::Global;

/// The most bytes of a script, 64 MiB: a source that never ends is refused.
pub const SCRIPT_LIMIT: usize = 67_108_864;

/// How far a script is read: first the calls that will fail, then the setup of the disk, then the lines to play.
#[derive(Drop)]
pub enum Script {
    Faults(Sequence<u64>),
    Setup(MemDisk),
    Steps {
        disk: MemDisk,
        lines: Sequence<Line>,
    },
}

/// What a line does to a script.
#[derive(Drop)]
pub enum Taken {
    GoesOn(Script),
    RefusedHere(Script),
    NotBuiltHere(Script),
}

/// Where a script ends: after its last line, or at the line with this number, counted from 1.
#[derive(Clone, Copy)]
pub enum Ending {
    Whole,
    RefusedAt(u64),
    NotBuiltAt(u64),
}

/// A script as far as it is read, and where it ends.
#[derive(Drop)]
pub struct Reading {
    pub script: Script,
    pub ending: Ending,
}

impl Script {
    /// The script with one more line. A line that is out of place is refused, and so is a change of the setup that is
    /// impossible.
    #[tactic(auto, unfolding(crate::specs::Script::taken))]
    pub fn take(self, alloc: Global, item: Item) -> Result<Taken, NoMemory>
        ensures taken { IfOk result (λ t. t ≡ taken self item) }
    {
        match item {
            Item::Blank => Ok(Taken::GoesOn(self)),
            Item::NotBuilt => Ok(Taken::NotBuiltHere(self)),
            Item::Refused => Ok(Taken::RefusedHere(self)),
            Item::Fail(number) => with_fault(self, number),
            Item::Setup(change) => set_up(self, alloc, &change),
            Item::Steps => begun(self, alloc),
            Item::Play(line) => with_line(self, line),
        }
    }
}

#[tactic(auto, unfolding(crate::specs::Script::taken))]
fn with_fault(script: Script, number: u64) -> Result<Taken, NoMemory>
    ensures taken { IfOk result (λ t. t ≡ taken script (Item.Fail number)) }
{
    match script {
        Script::Faults(mut numbers) => {
            numbers.push(number)?;
            Ok(Taken::GoesOn(Script::Faults(numbers)))
        }
        script => Ok(Taken::RefusedHere(script)),
    }
}

#[tactic(auto, unfolding(crate::specs::Script::taken))]
fn with_line(script: Script, line: Line) -> Result<Taken, NoMemory>
    ensures taken { IfOk result (λ t. t ≡ taken script (Item.Play line)) }
{
    match script {
        Script::Steps { disk, lines } => one_more(disk, lines, line),
        script => Ok(Taken::RefusedHere(script)),
    }
}

#[tactic(auto, unfolding(crate::specs::Script::taken))]
fn one_more(disk: MemDisk, lines: Sequence<Line>, line: Line) -> Result<Taken, NoMemory>
    ensures taken { IfOk result (λ t. t ≡ taken (Script.Steps disk lines) (Item.Play line)) }
{
    let mut lines = lines;
    lines.push(line)?;
    Ok(Taken::GoesOn(Script::Steps { disk, lines }))
}

/// The steps begin.
#[tactic(auto, unfolding(crate::specs::Script::taken))]
fn begun(script: Script, alloc: Global) -> Result<Taken, NoMemory>
    ensures taken { IfOk result (λ t. t ≡ taken script Item.Steps) }
{
    let lines = Sequence::new(alloc);
    match script {
        Script::Faults(numbers) => {
            let disk = MemDisk::with_faults(alloc, numbers.as_slice())?;
            Ok(Taken::GoesOn(Script::Steps { disk, lines }))
        }
        Script::Setup(disk) => Ok(Taken::GoesOn(Script::Steps { disk, lines })),
        script => Ok(Taken::RefusedHere(script)),
    }
}

#[tactic(auto, unfolding(crate::specs::Script::taken))]
fn set_up(script: Script, alloc: Global, change: &Change) -> Result<Taken, NoMemory>
    ensures taken { IfOk result (λ t. t ≡ taken script (Item.Setup change.now)) }
{
    match script {
        Script::Faults(numbers) => first_change(numbers, alloc, change),
        Script::Setup(disk) => next_change(disk, alloc, change),
        script => Ok(Taken::RefusedHere(script)),
    }
}

#[tactic(auto, unfolding(crate::specs::Script::taken))]
fn first_change(numbers: Sequence<u64>, alloc: Global, change: &Change) -> Result<Taken, NoMemory>
    ensures taken { IfOk result (λ t. t ≡ taken (Script.Faults numbers) (Item.Setup change.now)) }
{
    let mut disk = MemDisk::with_faults(alloc, numbers.as_slice())?;
    if try_change(&mut disk, alloc, change)? {
        Ok(Taken::GoesOn(Script::Setup(disk)))
    } else {
        Ok(Taken::RefusedHere(Script::Faults(numbers)))
    }
}

#[tactic(auto, unfolding(crate::specs::Script::taken))]
fn next_change(disk: MemDisk, alloc: Global, change: &Change) -> Result<Taken, NoMemory>
    ensures taken { IfOk result (λ t. t ≡ taken (Script.Setup disk) (Item.Setup change.now)) }
{
    let mut disk = disk;
    if try_change(&mut disk, alloc, change)? {
        Ok(Taken::GoesOn(Script::Setup(disk)))
    } else {
        Ok(Taken::RefusedHere(Script::Setup(disk)))
    }
}

/// Makes a change, if it is possible.
fn try_change(disk: &mut MemDisk, alloc: Global, change: &Change) -> Result<bool, NoMemory>
    ensures made { IfOk result (λ made. made ≡ is_possible disk.old.state change.now) }
    ensures changed { IfOk result (λ made. disk.new ≡ (if made then after_outside_change disk.old change.now else disk.old)) }
{
    match disk.change(alloc, change) {
        Ok(()) => Ok(true),
        Err(Impossible::Impossible) => Ok(false),
        Err(Impossible::NoMemory) => Err(NoMemory),
    }
}

impl Reading {
    /// The disk of the script, its lines and where it ends.
    pub fn into_parts(self, alloc: Global) -> Result<(MemDisk, Sequence<Line>, Ending), NoMemory>
        ensures disk { IfOk result (λ parts. parts.0 ≡ disk_of self.script) }
        ensures lines { IfOk result (λ parts. parts.1 ≡ lines_of self.script) }
        ensures ending { IfOk result (λ parts. parts.2 ≡ self.ending) }
    {
        let Reading { script, ending } = self;
        match script {
            Script::Faults(numbers) => {
                let disk = MemDisk::with_faults(alloc, numbers.as_slice())?;
                Ok((disk, Sequence::new(alloc), ending))
            }
            Script::Setup(disk) => Ok((disk, Sequence::new(alloc), ending)),
            Script::Steps { disk, lines } => Ok((disk, lines, ending)),
        }
    }
}

/// Reads a script, or a prefix of one that is longer than the limit, up to the first line that is refused or isn't
/// built.
#[tactic(auto, unfolding(crate::specs::Script::items_of))]
pub fn read(alloc: Global, bytes: &[u8]) -> Result<Reading, NoMemory>
    ensures reading { IfOk result (λ reading. reading ≡ reading_of bytes.now) }
{
    if bytes.len() <= SCRIPT_LIMIT {
        read_lines(alloc, bytes, false)
    } else {
        read_lines(alloc, &bytes[..SCRIPT_LIMIT], true)
    }
}

/// Reads lines. If they are cut off, the last is refused.
#[tactic(auto, using(crate::proofs::ScriptLemmas::goes_on, crate::proofs::ScriptLemmas::refused, crate::proofs::ScriptLemmas::not_built, crate::proofs::ScriptLemmas::last))]
fn read_lines(alloc: Global, bytes: &[u8], is_cut: bool) -> Result<Reading, NoMemory>
    requires short { length bytes.now ≤ SCRIPT_LIMIT }
    ensures reading { IfOk result (λ reading. reading ≡ reading_from (items_in is_cut (lines_in bytes.now)) 1 (Script.Faults [])) }
{
    let mut script = Script::Faults(Sequence::new(alloc));
    let mut rest = bytes;
    let mut number = 1;
    while let Some((line, more)) = next_line(rest) {
        match with_text(script, alloc, line)? {
            Taken::GoesOn(next) => script = next,
            Taken::RefusedHere(script) => return Ok(refused_at(script, number)),
            Taken::NotBuiltHere(script) => return Ok(not_built_at(script, number)),
        }
        rest = more;
        number += 1;
    }
    with_last(script, alloc, rest, is_cut, number)
}

/// The script with one more line, these bytes.
fn with_text(script: Script, alloc: Global, line: &[u8]) -> Result<Taken, NoMemory>
    ensures taken { IfOk result (λ t. t ≡ taken script (item_of line.now)) }
{
    let item = item_of(alloc, line)?;
    script.take(alloc, item)
}

/// The reading of a script with its last line, which has this number.
fn with_last(
    script: Script,
    alloc: Global,
    line: &[u8],
    is_cut: bool,
    number: u64,
) -> Result<Reading, NoMemory>
    ensures reading { IfOk result (λ reading. reading ≡ reading_at number (taken script (last_item is_cut line.now))) }
{
    let item = last_item(alloc, line, is_cut)?;
    Ok(reading_at(script.take(alloc, item)?, number))
}

fn last_item(alloc: Global, line: &[u8], is_cut: bool) -> Result<Item, NoMemory>
    ensures item { IfOk result (λ item. item ≡ last_item is_cut line.now) }
{
    if is_cut {
        Ok(Item::Refused)
    } else {
        item_of(alloc, line)
    }
}

/// The reading of a script that goes no further.
#[tactic(auto, unfolding(crate::specs::Script::reading_from))]
fn reading_at(taken: Taken, number: u64) -> Reading
    ensures reading { result ≡ reading_at number taken }
{
    match taken {
        Taken::GoesOn(script) => Reading {
            script,
            ending: Ending::Whole,
        },
        Taken::RefusedHere(script) => refused_at(script, number),
        Taken::NotBuiltHere(script) => not_built_at(script, number),
    }
}

fn refused_at(script: Script, number: u64) -> Reading
    ensures reading { result ≡ record { script = script; ending = Ending.RefusedAt number } }
{
    Reading {
        script,
        ending: Ending::RefusedAt(number),
    }
}

fn not_built_at(script: Script, number: u64) -> Reading
    ensures reading { result ≡ record { script = script; ending = Ending.NotBuiltAt number } }
{
    Reading {
        script,
        ending: Ending::NotBuiltAt(number),
    }
}

/// The next line, up to a line feed, and what follows it.
fn next_line(bytes: &[u8]) -> Option<(&[u8], &[u8])>
    ensures found { IfSome result (λ parts. lines_in bytes.now ≡ parts.0.now ∷ lines_in parts.1.now) }
    ensures shorter { IfSome result (λ parts. length parts.1.now < length bytes.now) }
    ensures none { IsNone result → lines_in bytes.now ≡ bytes.now ∷ [] }
{
    first_part(bytes, b'\n')
}
