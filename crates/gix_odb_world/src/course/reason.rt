//! The first reason why a step isn't valid.
ghost use Rattle.std.specs.Prelude.{◌≡◌, IfOk};
ghost use Rattle.std.specs.Result.{result_err};
ghost use Rattle.odb_disk.specs.Tree.{tree_of};
ghost use Rattle.odb_disk.specs.Tree.Change.{changed};
ghost use Rattle.gix_odb_watch.specs.Kept.{Fits};
ghost use Rattle.gix_odb_watch.specs.Revealed.{IsRevealed};
ghost use Rattle.gix_odb_history.specs.Run.{change_asked};
ghost use Rattle.gix_odb_world.specs.Table.{IsReasonNow, ask_by_handle, phase_of_handle, would_change_now};
ghost use Rattle.gix_odb_world.specs.Valid as valid;
ghost use Rattle.gix_odb_world.specs.Valid.{is_openable};
ghost use Rattle.gix_odb_world.specs.Watch.{TellsChange};
ghost use Rattle.gix_odb_world.specs.World.{handle_at};

use super::Course;
use crate::handle::HandleAt;
use crate::opening;
use crate::watch::{Judged, judged_work};
use gix_odb_calls::{IdPairs, Options, PathList, Step, Why};
use gix_odb_watch::Revealed;
use odb_base::NoMemory;
use odb_mem_disk::{Change, PathText};
use std::alloc::Global;

impl Course {
    /// Returns the first reason why a step isn't valid now, or `None` where it is.
    pub(super) fn first_reason(&self, alloc: Global, step: &Step) -> Result<Option<Why>, NoMemory>
        requires fits { Fits self.now.shown (tree_of self.now.disk.state) }
        ensures reason { IfOk result (IsReasonNow self.now step.now) }
    {
        match step {
            Step::Open {
                handle,
                path,
                folders,
                hash,
                replacements,
                options,
            } => self.why_not_open(alloc, *handle, path, folders, *hash, replacements, *options),
            Step::Clone { handle, from } => Ok(self.why_not_clone(*handle, *from)),
            Step::Close { handle } => Ok(self.why_not_idle(*handle)),
            Step::Never { handle } => Ok(self.why_not_idle(*handle)),
            Step::Ignore { handle } => Ok(self.why_not_idle(*handle)),
            Step::Start { handle, call } => Ok(self.why_not_start(*handle, call)),
            Step::Turn { handle } => self.why_not_turn(alloc, *handle),
            Step::Disk(change) => self.why_not_change(alloc, change),
        }
    }

    /// Returns why an open step isn't valid.
    fn why_not_open(
        &self,
        alloc: Global,
        number: u32,
        path: &PathText,
        folders: &PathList,
        hash: gix_hash::Kind,
        replacements: &IdPairs,
        options: Options,
    ) -> Result<Option<Why>, NoMemory>
        ensures why { IfOk result (λ why. why ≡ valid.why_not_open (phase_of_handle (handle_at self.now number)) (is_openable path.now folders.now hash replacements.now options.max_changes)) }
    {
        if let Some(why) = self.why_not_free(number) {
            return Ok(Some(why));
        }
        if opening::is_good(alloc, path, folders, hash, replacements, options)? {
            Ok(None)
        } else {
            Ok(Some(Why::BadOpen))
        }
    }

    /// Returns why another program's change isn't valid.
    fn why_not_change(&self, alloc: Global, change: &Change) -> Result<Option<Why>, NoMemory>
        requires fits { Fits self.now.shown (tree_of self.now.disk.state) }
        ensures why { IfOk result (IsReasonNow self.now (Step.Disk change.now)) }
    {
        match self.judged_change(alloc, change)? {
            Ok(revealed) => {
                drop(revealed);
                Ok(None)
            }
            Err(why) => Ok(Some(why)),
        }
    }

    /// Returns what another program's change would make watched paths show. The error says why it isn't valid.
    pub(super) fn judged_change(
        &self,
        alloc: Global,
        change: &Change,
    ) -> Result<Result<Revealed, Why>, NoMemory>
        requires fits { Fits self.now.shown (tree_of self.now.disk.state) }
        ensures why { IfOk result (λ judged. IsReasonNow self.now (Step.Disk change.now) (result_err judged)) }
        ensures tells { IfOk result (λ judged. IfOk judged (IsRevealed self.now.shown.folders (tree_of self.now.disk.state) (changed (tree_of self.now.disk.state) change.now))) }
    {
        if !self.disk.is_possible(alloc, change)? {
            return Ok(Err(Why::ImpossibleChange));
        }
        let revealed = self.shown.revealed(alloc, self.disk.tree(), change)?;
        if self.shown.has_second(&revealed) {
            return Ok(Err(Why::TwoContents));
        }
        Ok(Ok(revealed))
    }

    /// Returns what a turn's work asks for, its change, and what watched paths would show by it; or why it isn't valid.
    pub(super) fn check_turn(
        &self,
        alloc: Global,
        number: u32,
    ) -> Result<Result<Judged, Why>, NoMemory>
        requires fits { Fits self.now.shown (tree_of self.now.disk.state) }
        ensures why { IfOk result (λ judged. IsReasonNow self.now (Step.Turn number) (result_err judged)) }
        ensures asked { IfOk result (λ judged. IfOk judged (λ told. told.ask ≡ ask_by_handle (handle_at self.now number))) }
        ensures change { IfOk result (λ judged. IfOk judged (λ told. told.change ≡ change_asked self.now.disk told.ask)) }
        ensures tells { IfOk result (λ judged. IfOk judged (λ told. TellsChange self.now.shown.folders (tree_of self.now.disk.state) (would_change_now self.now (Step.Turn number)) told.revealed)) }
    {
        match self.handles.get(&number) {
            None => Ok(Err(Why::NoHandle)),
            Some(handle) => {
                let handle = handle.get();
                match handle.at {
                    HandleAt::Resting(_) => Ok(Err(Why::NotRunning)),
                    HandleAt::Opening(_) | HandleAt::Calling(_) => {
                        judged_work(alloc, &self.disk, &self.shown, handle)
                    }
                }
            }
        }
    }

    /// Returns why a turn isn't valid.
    fn why_not_turn(&self, alloc: Global, number: u32) -> Result<Option<Why>, NoMemory>
        requires fits { Fits self.now.shown (tree_of self.now.disk.state) }
        ensures why { IfOk result (IsReasonNow self.now (Step.Turn number)) }
    {
        match self.check_turn(alloc, number)? {
            Ok(judged) => {
                drop(judged);
                Ok(None)
            }
            Err(why) => Ok(Some(why)),
        }
    }
}
