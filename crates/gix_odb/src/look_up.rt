//! The order of work of a look-up: the handle's snapshot, the loose folders, the list of the store's core, and listings of
//! the folders of packs.
ghost use Rattle.std.specs.Prelude.{◌≡◌, IfOk, None, Some};
ghost use Rattle.std.specs.Option.{option_copied, option_map};
ghost use Rattle.std.specs.Result.{result_ok};
ghost use Rattle.gix_odb.specs.Answers.{IsAnswerOf};
ghost use Rattle.gix_odb.specs.LookUpOrder.{setting_of};
ghost use Rattle.gix_odb.specs.LookUpOrder as order;

mod answered;
mod checking;
mod listing;
mod loose;
mod refreshing;
mod replies;
mod trying;

use crate::{Refresh, RefreshMode};
use gix_hash::ObjectId;
use gix_object::Want;
use gix_odb_calls::verdict::FolderCall;
use gix_odb_calls::{Reply, StoreParts};
use gix_odb_events::{Answer, Ask, Event, LoadedList, View};
use gix_odb_search::{Notes, Trier};
use odb_base::{NoMemory, PathText};
use std::alloc::Global;

/// The store that a look-up is made in: its parts, and how many lists of others the look-up may meet.
#[derive(Clone, Copy)]
pub struct Setting<'a> {
    pub parts: &'a StoreParts,
    pub max_changes: u32,
    /// The indices that the handle's snapshot shows loaded.
    pub loaded: &'a LoadedList,
}

/// The state of a look-up on a handle.
///
/// `ask` names the next call of the disk or the next event of the store's core, `feed` takes its answer, and so on until
/// the look-up has its reply.
#[derive(Drop)]
pub struct LookUp {
    head: LookHead,
    stage: LookStage,
}

/// What a look-up is for, and how many lists it met.
#[derive(Clone, Copy)]
pub struct LookHead {
    /// The mode of its handle, whose list it refreshes or not.
    pub mode: RefreshMode,
    pub want: Want,
    /// The id that is sought.
    pub id: ObjectId,
    /// The number of the list in the first view that the core passed.
    pub begun: Option<u64>,
    /// How many lists the look-up published itself.
    pub own: u64,
}

/// Which list is tried.
#[derive(Clone, Copy)]
pub enum Part {
    /// That of the handle's snapshot.
    Snapshot,
    /// That of the core, of a number; whether the loose folders are still to be tried before the folders are listed.
    List { list_no: u64, loose: bool },
    /// The one that the look-up's own listing published or confirmed, of a number.
    Published { list_no: u64 },
}

/// What the core's list is read for.
#[derive(Clone, Copy)]
pub enum Purpose {
    /// A list that was read before is to be tried; whether the loose folders are, too.
    First { loose: bool },
    /// The folders are to be listed again; or, by a handle that never refreshes its list, this is to be read once more, and
    /// tried.
    Again,
}

/// The state of a look-up among the loose folders.
#[derive(Drop)]
pub struct LooseRound {
    /// The place of the folder that comes next, among those besides the objects directory.
    pub next: usize,
    pub notes: Notes,
    /// The list that was tried before them.
    pub part: Part,
}

/// The stage of a look-up.
#[derive(Drop)]
pub enum LookStage {
    /// The indices of a list are tried.
    Trying {
        trier: Trier,
        part: Part,
    },
    /// The loose objects of a folder are asked, by one call of the disk.
    Loose {
        round: LooseRound,
        call: FolderCall,
    },
    /// The list of the core is read, or brought up to date.
    Refreshing {
        refresh: Refresh,
        purpose: Purpose,
        notes: Notes,
    },
    /// The core's state is to be read: whether the list of this number, which was tried, is still the newest.
    Checking {
        list_no: u64,
        notes: Notes,
    },
    Done(Reply),
}

/// Returns a look-up at a stage.
fn at(head: LookHead, stage: LookStage) -> LookUp
    ensures at { result ≡ order.at head stage }
{
    LookUp { head, stage }
}

impl LookHead {
    /// Returns the head, which notes the list's number in the first view that an answer passes.
    fn seen(self, answer: &Answer) -> LookHead
        ensures seen { result ≡ order.seen self answer.now }
    {
        match (self.begun, view_in(answer)) {
            (None, Some(view)) => LookHead {
                begun: Some(view.list_no),
                ..self
            },
            _ => self,
        }
    }
}

/// Returns the view that an answer passes.
fn view_in(answer: &Answer) -> Option<&View>
    ensures view { option_copied result ≡ order.view_of answer.now }
{
    match answer {
        Answer::Core(Ok(effect)) => effect.view(),
        _ => None,
    }
}

impl LookUp {
    /// Returns a new look-up of an id, from a handle's snapshot. It asks nothing yet; where the snapshot has all that is
    /// needed, it is done.
    pub fn start(
        alloc: Global,
        setting: &Setting<'_>,
        mode: RefreshMode,
        snapshot: &View,
        want: Want,
        id: ObjectId,
    ) -> Result<LookUp, NoMemory>
        ensures begun { IfOk result (λ look. look ≡ order.started (setting_of setting.now) mode snapshot.now want id) }
    {
        let head = LookHead {
            mode,
            want,
            id,
            begun: None,
            own: 0,
        };
        let notes = Notes::new(alloc);
        let stage = if snapshot.read {
            trying::try_snapshot(alloc, setting, head, snapshot, notes)?
        } else {
            LookStage::Refreshing {
                refresh: Refresh::Reading,
                purpose: Purpose::First { loose: true },
                notes,
            }
        };
        Ok(LookUp { head, stage })
    }

    /// Returns what comes next: a call of the disk, or an event of the store's core; `None` where the look-up is done.
    pub fn ask(&self, alloc: Global) -> Result<Option<Ask>, NoMemory>
        ensures asked { IfOk result (λ ask. ask ≡ order.ask_of self.now) }
    {
        match &self.stage {
            LookStage::Trying { trier, .. } => Ok(Some(trier.ask(alloc)?)),
            LookStage::Loose { call, .. } => Ok(Some(Ask::Disk(call.ask(alloc)?))),
            LookStage::Refreshing { refresh, .. } => Ok(Some(refresh.ask(alloc)?)),
            LookStage::Checking { .. } => Ok(Some(Ask::Core(Event::Look))),
            LookStage::Done(_) => Ok(None),
        }
    }

    /// Returns the directory of the open stream that the next call of the disk reads, where it reads one.
    pub fn opened(&self) -> Option<&PathText>
        ensures opened { option_map (λ path. path.now) result ≡ order.opened_in self.now }
    {
        match &self.stage {
            LookStage::Refreshing { refresh, .. } => refresh.opened(),
            _ => None,
        }
    }

    /// Returns the look-up after the answer to what it asked for, on the handle that it was started on.
    pub fn feed(
        self,
        alloc: Global,
        setting: &Setting<'_>,
        answer: Answer,
    ) -> Result<LookUp, NoMemory>
        requires suits { IsAnswerOf (order.ask_of self) answer }
        ensures fed { IfOk result (λ look. look ≡ order.fed (setting_of setting.now) self answer) }
    {
        let LookUp { head, stage } = self;
        answered::fed(alloc, setting, head.seen(&answer), stage, answer)
    }

    /// Returns the reply of a look-up that is done, which is lent: `into_reply` moves it out.
    pub fn reply(&self) -> Option<&Reply>
        ensures reply { option_map (λ reply. reply.now) result ≡ result_ok (order.result_of self.now) }
    {
        match &self.stage {
            LookStage::Done(reply) => Some(reply),
            _ => None,
        }
    }

    /// Returns the reply of a look-up that is done. The error is the look-up that goes on.
    pub fn into_reply(self) -> Result<Reply, LookUp>
        ensures replied { result ≡ order.result_of self }
    {
        let LookUp { head, stage } = self;
        match stage {
            LookStage::Done(reply) => Ok(reply),
            stage => Err(LookUp { head, stage }),
        }
    }
}
