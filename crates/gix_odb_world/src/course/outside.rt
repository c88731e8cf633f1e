//! Changes of the disk that other programs make.
ghost use Rattle.std.specs.Prelude.{OnOk, None};
ghost use Rattle.odb_disk.specs.Tree.{tree_of};
ghost use Rattle.odb_disk.specs.Tree.Change.{changed};
ghost use Rattle.gix_odb_watch.specs.Revealed.{IsRevealed};
ghost use Rattle.gix_odb_world.specs.World.{Continues, IsExplained};
ghost use Rattle.gix_odb_world.specs.Table.{HasOneMore, IsReasonNow};

use super::Course;
use gix_odb_calls::{Outcome, Step};
use gix_odb_history::{Did, copy_of_change};
use gix_odb_watch::Revealed;
use odb_base::NoMemory;
use odb_mem_disk::{Change, Impossible};
use std::alloc::Global;

impl Course {
    /// Makes a change that another program makes.
    pub(super) fn change(&mut self, alloc: Global, change: &Change) -> Result<(), NoMemory>
        requires explained { IsExplained self.old }
        ensures continues { OnOk result (Continues self.old (Step.Disk change.now) self.new) }
        ensures noted { OnOk result (HasOneMore self.old self.new) }
    {
        let judged = self.judged_change(alloc, change)?;
        match judged {
            Ok(revealed) => self.make_change(alloc, change, revealed),
            Err(why) => self.misuse(why),
        }
    }

    /// Makes another program's valid change, of which it is known what it makes watched paths show.
    fn make_change(
        &mut self,
        alloc: Global,
        change: &Change,
        revealed: Revealed,
    ) -> Result<(), NoMemory>
        requires explained { IsExplained self.old }
        requires valid { IsReasonNow self.old (Step.Disk change.now) None }
        requires tells { IsRevealed self.old.shown.folders (tree_of self.old.disk.state) (changed (tree_of self.old.disk.state) change.now) revealed }
        ensures continues { OnOk result (Continues self.old (Step.Disk change.now) self.new) }
        ensures noted { OnOk result (HasOneMore self.old self.new) }
    {
        self.shown.keep(revealed)?;
        match self.disk.change(alloc, change) {
            Ok(()) => {
                let made = copy_of_change(alloc, change)?;
                self.note(Outcome::Applied, Did::Nothing, Some(made))
            }
            Err(Impossible::Impossible) => unreachable!("the change is possible"),
            Err(Impossible::NoMemory) => Err(NoMemory),
        }
    }
}
