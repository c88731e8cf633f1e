//! Runs of a world by lines, of which one may take several steps.
ghost use Rattle.std.specs.Prelude.{◌≡◌, ◌-◌, [], ◌∷◌, ◌++◌, length, IfOk, OnOk};
ghost use Rattle.gix_odb_world.specs.Play.{IsPlayed};
ghost use Rattle.gix_odb_world.specs.Played.{MakesOne, PlaysLine, PlaysTurns};

use crate::step_list::StepList;
use crate::world::World;
use gix_odb_calls::{Line, Step};
use gix_odb_history::Run;
use odb_base::{NoMemory, Sequence};
use odb_mem_disk::MemDisk;
use std::alloc::Global;

/// The result of lines: the run of the steps that they stand for, these steps, and for each line the place of its last step.
#[derive(Drop)]
pub struct Play<'a> {
    pub run: Run,
    /// The steps that were made, one for each of the run's outcomes. Those of lines are lent.
    pub steps: StepList<'a>,
    /// Counted from 0, in the steps and in the run's outcomes.
    pub last: Sequence<usize>,
}

impl World {
    /// Makes the steps that lines stand for, line after line.
    pub fn play<'a>(alloc: Global, disk: MemDisk, lines: &'a [Line]) -> Result<Play<'a>, NoMemory>
        ensures played { IfOk result (IsPlayed disk lines.now) }
    {
        let mut world = World::new(alloc, disk);
        let mut steps = StepList::new(alloc);
        let mut last = Sequence::new(alloc);
        for line in lines {
            play_next(alloc, &mut world, &mut steps, &mut last, line)?;
        }
        let run = world.finish(alloc)?;
        Ok(Play { run, steps, last })
    }
}

/// Makes the steps that a line stands for, and adds the place of the last one.
fn play_next<'a>(
    alloc: Global,
    world: &mut World,
    steps: &mut StepList<'a>,
    last: &mut Sequence<usize>,
    line: &'a Line,
) -> Result<(), NoMemory>
    ensures plays { OnOk result (PlaysLine world.old world.new steps.old steps.new line.now) }
    ensures placed { OnOk result (last.new ≡ last.old ++ (length world.new.outcomes - 1) ∷ []) }
{
    play_line(alloc, world, steps, line)?;
    last.push(world.count() - 1)?;
    Ok(())
}

/// Makes the steps that a line stands for.
fn play_line<'a>(
    alloc: Global,
    world: &mut World,
    steps: &mut StepList<'a>,
    line: &'a Line,
) -> Result<(), NoMemory>
    ensures plays { OnOk result (PlaysLine world.old world.new steps.old steps.new line.now) }
{
    match line {
        Line::One(step) => make(alloc, world, steps, step),
        Line::Finish { handle } => play_turns(alloc, world, steps, *handle),
    }
}

/// Turns a handle until its outcome isn't pending.
fn play_turns(
    alloc: Global,
    world: &mut World,
    steps: &mut StepList<'_>,
    handle: u32,
) -> Result<(), NoMemory>
    ensures plays { OnOk result (PlaysLine world.old world.new steps.old steps.new (Line.Finish handle)) }
{
    'turning: loop {
        make_turn(alloc, world, steps, handle)?;
        if !world.is_pending() {
            return Ok(());
        }
    }
}

/// Makes one turn of a handle.
fn make_turn(
    alloc: Global,
    world: &mut World,
    steps: &mut StepList<'_>,
    handle: u32,
) -> Result<(), NoMemory>
    ensures makes { OnOk result (MakesOne world.old world.new steps.old steps.new (Step.Turn handle)) }
{
    steps.push_turn(handle)?;
    let turn = Step::Turn { handle };
    world.advance(alloc, &turn)
}

/// Makes one step, and adds it to those that were made: it is lent, and not copied.
fn make<'a>(
    alloc: Global,
    world: &mut World,
    steps: &mut StepList<'a>,
    step: &'a Step,
) -> Result<(), NoMemory>
    ensures makes { OnOk result (MakesOne world.old world.new steps.old steps.new step.now) }
{
    steps.push(step)?;
    world.advance(alloc, step)
}
