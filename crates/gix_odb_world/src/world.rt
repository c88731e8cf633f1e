//! A world: its steps, one after another, and their run.
ghost use Rattle.std.specs.Prelude.{◌↔◌, ◌∷◌, ◌++◌, ◌<◌, ◌^◌, ◌≡◌, [], IfOk, IsTrue, List, OnErr, OnOk, length};
ghost use Rattle.odb_disk.specs.MemDisk.{Volume};
ghost use Rattle.gix_odb_history.specs.Event.{Event};
ghost use Rattle.gix_odb_world.specs.Headline.{Headline, IsRun};
ghost use Rattle.gix_odb_world.specs.Table.{HasOneMore};
ghost use Rattle.gix_odb_world.specs.Valid.{IsReason};
ghost use Rattle.gix_odb_world.specs.World.{Continues, Explains, GoesOn};

use crate::course::Course;
use gix_odb_calls::{Outcome, Step, Why};
use gix_odb_history::Run;
use odb_base::NoMemory;
use odb_mem_disk::MemDisk;
use std::alloc::Global;
use std::marker::Model;

/// A disk, the handles on it, and the results of the steps so far. Some events lead there, from some first disk.
#[derive(Drop)]
pub struct World {
    course: Course,
}

impl Model for World {
    ghost use Rattle.gix_odb_world.specs.declared.course.Course.{Course};
    ghost use Rattle.gix_odb_world.specs.contracts.course.Course as course_type;

    ghost Value = { Course };

    ghost coded = { course_type.the_row.coded };

    ghost use Rattle.gix_odb_world.specs.World.{IsExplained};

    ghost view = { λ world. world.course };

    ghost invariant = { λ world. IsExplained world.course };
}

/// Returns the first reason why a step isn't valid now, or `None` where it is.
pub fn is_valid(alloc: Global, world: &World, step: &Step) -> Result<Option<Why>, NoMemory>
    ensures reason { IfOk result (λ why. (first : Volume) (events : List Event) → Explains first events world.now → IsReason first events step.now why) }
{
    world.course.why_not(alloc, step)
}

impl World {
    /// Returns a world at its first state: nothing open, and no step made.
    pub fn new(alloc: Global, disk: MemDisk) -> World
        ensures explained { Explains disk [] result }
    {
        World {
            course: Course::new(alloc, disk),
        }
    }

    /// Makes the steps in their order, with one outcome and one record for each.
    pub fn run(alloc: Global, disk: MemDisk, steps: &[Step]) -> Result<Run, NoMemory>
        ensures headline { IfOk result (λ run. Headline disk steps.now run) }
    {
        let mut world = World::new(alloc, disk);
        for step in steps {
            world.advance(alloc, step)?;
        }
        let run = world.finish(alloc)?;
        Ok(run)
    }

    /// Makes one step, and returns its outcome, whose reply the run shares. Where memory runs out, the steps so far are
    /// forgotten, and the world is a new one on its disk as it is then.
    pub fn step(&mut self, alloc: Global, step: &Step) -> Result<Outcome, NoMemory>
        ensures goes_on { IfOk result (λ outcome. (first : Volume) (events : List Event) → Explains first events self.old → GoesOn first events step.now outcome self.new) }
        ensures anew { OnErr result (Explains self.new.disk [] self.new) }
    {
        self.advance(alloc, step)?;
        match self.course.last_outcome().try_clone() {
            Ok(outcome) => Ok(outcome),
            Err(error) => {
                self.course.begin_anew(alloc);
                Err(error)
            }
        }
    }

    /// Returns the run of the steps so far. It is the run of every history that leads to the world.
    pub fn finish(self, alloc: Global) -> Result<Run, NoMemory>
        ensures run { IfOk result (λ run. (first : Volume) (events : List Event) → Explains first events self → IsRun first events run) }
    {
        let World { course } = self;
        course.finish(alloc)
    }

    /// Makes one step.
    pub(crate) fn advance(&mut self, alloc: Global, step: &Step) -> Result<(), NoMemory>
        ensures continues { OnOk result (Continues self.old step.now self.new) }
        ensures noted { OnOk result (HasOneMore self.old self.new) }
        ensures anew { OnErr result (Explains self.new.disk [] self.new) }
    {
        match self.course.advance(alloc, step) {
            Ok(()) => Ok(()),
            Err(error) => {
                self.course.begin_anew(alloc);
                Err(error)
            }
        }
    }

    /// Returns how many steps were made.
    pub(crate) fn count(&self) -> usize
        ensures count { result ≡ length self.now.outcomes }
    {
        self.course.count()
    }

    /// Returns whether the last step was a turn after which its call goes on.
    pub(crate) fn is_pending(&self) -> bool
        ensures pending { (before : List Outcome) (outcome : Outcome) → self.now.outcomes ≡ before ++ outcome ∷ [] → IsTrue result ↔ (outcome ≡ Outcome.Pending) }
        ensures fits { length self.now.outcomes < 2 ^ 64 }
    {
        self.course.is_pending()
    }
}
