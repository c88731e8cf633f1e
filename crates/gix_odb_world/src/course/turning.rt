//! The turn of a handle: it is checked, carried out, fed, finished and recorded.
ghost use Rattle.std.specs.Prelude.{◌≡◌, OnOk, None, Some};
ghost use Rattle.std.specs.Option.{option_map};
ghost use Rattle.odb_disk.specs.Tree.{tree_of};
ghost use Rattle.gix_odb_history.specs.Run.{change_asked};
ghost use Rattle.gix_odb_world.specs.Handle.{seen};
ghost use Rattle.gix_odb_world.specs.Watch.{TellsChange};
ghost use Rattle.gix_odb_world.specs.World.{Continues, IsExplained, handle_at, stored_at};
ghost use Rattle.gix_odb_world.specs.Table.{CanHappenAt, FeedsTurn, HasOneMore, IsReasonNow, IsToldTo, IsUnderWay, KeepsTurn, Settles, TakesTurnOf, ask_by_handle, would_change_now};

use super::Course;
use crate::handle::BoxedHandle;
use crate::turn::{Carried, Turned, carried_out, fed};
use crate::watch::{Judged, keep};
use gix_odb_calls::Step;
use gix_odb_history::{ChangeMade, Did};
use gix_odb_watch::Revealed;
use odb_base::NoMemory;
use std::alloc::Global;

impl Course {
    /// Lets a handle carry out the one thing that its work asks for.
    pub(super) fn turn(&mut self, alloc: Global, number: u32) -> Result<(), NoMemory>
        requires explained { IsExplained self.old }
        ensures continues { OnOk result (Continues self.old (Step.Turn number) self.new) }
        ensures noted { OnOk result (HasOneMore self.old self.new) }
    {
        let checked = self.check_turn(alloc, number)?;
        match checked {
            Ok(judged) => self.make_turn(alloc, number, judged),
            Err(why) => self.misuse(why),
        }
    }

    /// Makes a turn that is valid, and of which was told what its work asks for, the change that this makes, and what watched paths
    /// show by it.
    fn make_turn(&mut self, alloc: Global, number: u32, judged: Judged) -> Result<(), NoMemory>
        requires explained { IsExplained self.old }
        requires valid { IsReasonNow self.old (Step.Turn number) None }
        requires asked { judged.ask ≡ ask_by_handle (handle_at self.old number) }
        requires change { judged.change ≡ change_asked self.old.disk judged.ask }
        requires tells { TellsChange self.old.shown.folders (tree_of self.old.disk.state) (would_change_now self.old (Step.Turn number)) judged.revealed }
        ensures continues { OnOk result (Continues self.old (Step.Turn number) self.new) }
        ensures noted { OnOk result (HasOneMore self.old self.new) }
    {
        match self.take_work(number) {
            Ok(handle) => self.carry_out(alloc, number, handle, judged),
            Err(why) => {
                drop(judged);
                self.misuse(why)
            }
        }
    }

    /// Carries out what the work of a handle asked for that was taken out of the table; what follows of the turn is made then.
    fn carry_out(
        &mut self,
        alloc: Global,
        number: u32,
        handle: BoxedHandle,
        judged: Judged,
    ) -> Result<(), NoMemory>
        requires under_way { IsUnderWay (seen handle).work }
        requires asked { judged.ask ≡ ask_by_handle (Some (seen handle)) }
        requires change { judged.change ≡ change_asked self.old.disk judged.ask }
        requires can_happen { CanHappenAt self.old.cores.items number (seen handle).state judged.ask }
        requires free { stored_at self.old number ≡ None }
        ensures takes { OnOk result (TakesTurnOf self.old self.new number (seen handle) judged.revealed) }
    {
        // The proof takes from this call that the disk shows a tree, each node of which lies in a directory: what a call of
        // the disk changes and what it leaves alone is told of trees.
        let _ = self.disk.tree();
        let Judged {
            ask,
            change,
            revealed,
        } = judged;
        match carried_out(alloc, &mut self.disk, &mut self.cores, number, &handle, ask) {
            Ok(carried) => self.feed_turn(alloc, number, handle, carried, change, revealed),
            Err(error) => {
                drop((handle, change, revealed));
                Err(error)
            }
        }
    }

    /// Tells a handle what its turn came to, and records the turn.
    fn feed_turn(
        &mut self,
        alloc: Global,
        number: u32,
        handle: BoxedHandle,
        carried: Carried,
        change: ChangeMade,
        revealed: Option<Revealed>,
    ) -> Result<(), NoMemory>
        requires under_way { IsUnderWay (seen handle).work }
        requires answers { IsToldTo (ask_by_handle (Some (seen handle))) carried.told }
        requires free { stored_at self.old number ≡ None }
        ensures feeds { OnOk result (FeedsTurn self.old self.new number (seen handle) carried change revealed) }
    {
        let Carried { did, told } = carried;
        match fed(alloc, handle, told) {
            Ok(turned) => self.finish_turn(number, turned, did, change, revealed),
            Err(error) => {
                drop((did, change, revealed));
                Err(error)
            }
        }
    }

    /// Keeps what a turn made watched paths show, puts its handle back, and records the turn.
    fn finish_turn(
        &mut self,
        number: u32,
        turned: Turned,
        did: Did,
        change: ChangeMade,
        revealed: Option<Revealed>,
    ) -> Result<(), NoMemory>
        requires free { stored_at self.old number ≡ None }
        ensures keeps { OnOk result (KeepsTurn self.old self.new number (option_map seen turned.handle) turned.outcome did change revealed) }
    {
        match keep(&mut self.shown, revealed, &change) {
            Ok(()) => self.record(number, turned, did, change),
            Err(error) => {
                drop((turned, did, change));
                Err(error)
            }
        }
    }

    /// Puts a handle back after its turn, and adds the outcome and the record of the turn.
    fn record(
        &mut self,
        number: u32,
        turned: Turned,
        did: Did,
        change: ChangeMade,
    ) -> Result<(), NoMemory>
        requires free { stored_at self.old number ≡ None }
        ensures settles { OnOk result (Settles self.old self.new number (option_map seen turned.handle) turned.outcome did change) }
    {
        let Turned { outcome, handle } = turned;
        match self.set(number, handle) {
            Ok(()) => self.note(outcome, did, change),
            Err(error) => {
                drop((outcome, did, change));
                Err(error)
            }
        }
    }
}
