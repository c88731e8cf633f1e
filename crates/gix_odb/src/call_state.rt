//! The order of work of a call on a handle: an object is looked for, or written.
ghost use Rattle.std.specs.Prelude.{◌≡◌, IfErr, IfOk, MatchResult, Ok, Err, OnErr, OnOk, Some, None, true};
ghost use Rattle.std.specs.Option.{option_map};
ghost use Rattle.std.specs.Result.{result_ok};
ghost use Rattle.gix_odb_calls.specs.declared.load_index.Error.TheVariants as load_errors;
ghost use Rattle.gix_odb_events.specs.Asks.{IsAnswerTo};
ghost use Rattle.gix_odb.specs.Answers.{IsAnswerOf};
ghost use Rattle.gix_odb.specs.CallOrder.{Asks, HasSize, IsOfHash, ask_of, fronted, is_for_writes, opened_in, result_of, started};
ghost use Rattle.gix_odb.specs.CallOrder as calls;
ghost use Rattle.gix_odb.specs.LookUpOrder as looks;
ghost use Rattle.gix_odb.specs.RefreshOrder as refreshes;
ghost use Rattle.gix_odb.specs.HandleState.{IsAlike, hash_of, setting_at, sought_by, told_by};

mod loose_write;

use self::loose_write::{begun, write_ask, write_ended, write_reply, written_on};
use crate::ask::Ask as CallAsk;
use crate::handle_state::HandleState;
use crate::see::see;
use crate::{LookUp, Refresh, RefreshStep, Setting};
use gix_odb_calls::{Call, CallError, Query, Reply, load_index, write};
use gix_odb_events::{Answer, Ask};
use gix_odb_loose::LooseCall;
use odb_base::{NoMemory, PathText};
use std::alloc::Global;
use std::mem::replace;

/// A call on a handle on its way.
///
/// `ask` names the next call of the disk or the next event of the store's core, `feed` takes its answer, and so on until the
/// call has its reply. Meanwhile the handle is the call's: each view that an answer passes is its snapshot from then on.
#[derive(Drop)]
pub struct CallState {
    handle: HandleState,
    stage: CallStage,
    /// The call of the objects directory that it has, where it has one, writes.
    ghost writes: { is_for_writes stage ≡ true },
}

/// The stage of a call.
#[derive(Drop)]
pub enum CallStage {
    /// An object is looked for in the store.
    Looking(LookUp),
    /// The list of the store is read, so that the write can begin.
    Refreshing { refresh: Refresh, write: LooseCall },
    /// An object is being written, by a call of the objects directory, whose reply is that of the write.
    Writing(LooseCall),
    /// The list of the store could not be read, so nothing is written; or memory ran out in any call.
    Refused(load_index::Error),
}

impl CallState {
    /// A new call on a copy of a handle, whose ids are of the store's hash. It asks for nothing yet; where the handle's
    /// snapshot has all that a query takes, the query is done.
    #[tactic(auto, using(crate::proofs::CallLemmas::started_writes_by))]
    pub fn start(alloc: Global, handle: &HandleState, call: Call) -> Result<CallState, NoMemory>
        requires of_hash { IsOfHash (hash_of handle.now) call }
        ensures handle { IfOk result (λ state. IsAlike state.handle handle.now) }
        ensures begun { IfOk result (λ state. state.stage ≡ started (setting_at handle.now) (hash_of handle.now) handle.now.refresh handle.now.view (sought_by handle.now) call) }
        ensures sized { HasSize call }
    {
        let stage = first_stage(alloc, handle, call)?;
        let handle = handle.try_clone()?;
        Ok(CallState { handle, stage })
    }

    /// What the call does next. A reply is copied: `into_reply` moves it out.
    #[tactic(auto, using(crate::proofs::AskLaws::asks_no_new_core, crate::proofs::AskLaws::asks_or_is_done, crate::proofs::AskLaws::done_with))]
    pub fn ask(&self, alloc: Global) -> Result<CallAsk, NoMemory>
        ensures asked { IfOk result (λ ask. Asks self.now.stage ask) }
    {
        match self.next_ask(alloc)? {
            Some(Ask::Disk(ask)) => Ok(CallAsk::Disk(ask)),
            Some(Ask::Core(event)) => Ok(CallAsk::Core(event)),
            Some(Ask::NewCore { .. }) => unreachable!("no call has a core made"),
            None => match self.stage.reply_copy(alloc)? {
                Some(reply) => Ok(CallAsk::Done(reply)),
                None => unreachable!("a call that asks for nothing has its reply"),
            },
        }
    }

    /// What comes next: a call of the disk, or an event of the store's core; there is none where the call is done.
    /// It copies no reply, which `into_reply` gives then.
    pub fn next_ask(&self, alloc: Global) -> Result<Option<Ask>, NoMemory>
        ensures asked { IfOk result (λ ask. ask ≡ ask_of self.now.stage) }
    {
        match &self.stage {
            CallStage::Looking(look) => look.ask(alloc),
            CallStage::Refreshing { refresh, .. } => Ok(Some(refresh.ask(alloc)?)),
            CallStage::Writing(call) => write_ask(alloc, call),
            CallStage::Refused(_) => Ok(None),
        }
    }

    /// The path with which the stream was opened that the next call of the disk is on, where it is on one.
    pub fn opened(&self) -> Option<&PathText>
        ensures opened { option_map (λ path. path.now) result ≡ opened_in self.now.stage }
    {
        match &self.stage {
            CallStage::Looking(look) => look.opened(),
            CallStage::Refreshing { refresh, .. } => refresh.opened(),
            CallStage::Writing(_) | CallStage::Refused(_) => None,
        }
    }

    /// Takes the answer to what the call asked for. The handle has the view that the answer passes, even where memory runs
    /// out; the call is refused then.
    #[tactic(auto, using(crate::proofs::HandleLemmas::fed_by))]
    pub fn feed(&mut self, alloc: Global, answer: Answer) -> Result<(), NoMemory>
        requires answers { IsAnswerOf (ask_of self.old.stage) answer }
        ensures fed { OnOk result (self.new.stage ≡ calls.fed (setting_at self.old.handle) self.old.stage answer) }
        ensures handle { self.new.handle ≡ told_by self.old.handle answer }
        ensures refused { OnErr result (self.new.stage ≡ CallStage.Refused load_errors.NoMemory) }
    {
        let refused = CallStage::Refused(load_index::Error::NoMemory);
        let stage = replace(&mut self.stage, refused);
        match see(&mut self.handle, answer) {
            Ok(answer) => {
                let next = stage.fed(alloc, &self.handle, answer)?;
                drop(replace(&mut self.stage, next));
                Ok(())
            }
            Err(error) => {
                drop(stage);
                Err(error)
            }
        }
    }

    /// The reply of a call that is done, with its handle, or the call that goes on.
    pub fn into_reply(self) -> Result<(Reply, HandleState), CallState>
        ensures replied { MatchResult result (λ done. (result_of self.stage ≡ Ok done.0) × (done.1 ≡ self.handle)) (λ call. (result_of self.stage ≡ Err call.stage) × (call.handle ≡ self.handle)) }
    {
        let CallState { handle, stage } = self;
        match stage.into_reply() {
            Ok(reply) => Ok((reply, handle)),
            Err(stage) => Err(CallState { handle, stage }),
        }
    }

    /// The handle as it is now: with the view that was passed to it last.
    pub fn into_state(self) -> HandleState
        ensures state { result ≡ self.handle }
    {
        let CallState { handle, stage } = self;
        drop(stage);
        handle
    }
}

impl CallStage {
    // A copy of the reply of a call that is done.
    fn reply_copy(&self, alloc: Global) -> Result<Option<Reply>, NoMemory>
        requires writes { is_for_writes self.now ≡ true }
        ensures copied { IfOk result (λ reply. reply ≡ result_ok (result_of self.now)) }
    {
        match self {
            CallStage::Looking(look) => match look.reply() {
                Some(reply) => Ok(Some(reply.try_clone(alloc)?)),
                None => Ok(None),
            },
            CallStage::Refreshing { .. } => Ok(None),
            CallStage::Writing(call) => write_reply(alloc, call),
            CallStage::Refused(error) => Ok(Some(unlisted(error.try_clone(alloc)?))),
        }
    }

    // The stage after the answer to what it asked for, on the handle of the call.
    fn fed(self, alloc: Global, handle: &HandleState, answer: Answer) -> Result<CallStage, NoMemory>
        requires suits { IsAnswerOf (ask_of self) answer }
        ensures fed { IfOk result (λ stage. stage ≡ calls.fed (setting_at handle.now) self answer) }
    {
        match self {
            CallStage::Looking(look) => {
                let setting = setting_of(handle);
                Ok(CallStage::Looking(look.feed(alloc, &setting, answer)?))
            }
            CallStage::Refreshing { refresh, write } => {
                refreshed_on(alloc, handle, refresh, write, answer)
            }
            CallStage::Writing(call) => Ok(CallStage::Writing(written_on(alloc, call, answer)?)),
            CallStage::Refused(_) => unreachable!("a refused call asks nothing"),
        }
    }

    // The reply of a call that is done, or the stage that it is at.
    fn into_reply(self) -> Result<Reply, CallStage>
        requires writes { is_for_writes self ≡ true }
        ensures replied { result ≡ result_of self }
        ensures writes { IfErr result (λ stage. is_for_writes stage ≡ true) }
    {
        match self {
            CallStage::Looking(look) => match look.into_reply() {
                Ok(reply) => Ok(reply),
                Err(look) => Err(CallStage::Looking(look)),
            },
            CallStage::Refreshing { refresh, write } => Err(CallStage::Refreshing {
                refresh,
                write,
            }),
            CallStage::Writing(call) => match write_ended(call) {
                Ok(wrote) => Ok(wrote),
                Err(call) => Err(CallStage::Writing(call)),
            },
            CallStage::Refused(error) => Ok(unlisted(error)),
        }
    }
}

// The first stage of a call.
fn first_stage(alloc: Global, handle: &HandleState, call: Call) -> Result<CallStage, NoMemory>
    requires of_hash { IsOfHash (hash_of handle.now) call }
    ensures begun { IfOk result (λ stage. stage ≡ started (setting_at handle.now) (hash_of handle.now) handle.now.refresh handle.now.view (sought_by handle.now) call) }
    ensures sized { HasSize call }
{
    match call {
        Call::Write {
            kind,
            size,
            bytes,
            id,
        } => {
            let parts = handle.parts();
            let write = begun(
                alloc,
                &parts.objects,
                parts.object_hash,
                kind,
                size,
                bytes,
                id,
            )?;
            Ok(refreshed(handle, write))
        }
        call => match call.query() {
            Some(query) => looking(alloc, handle, query),
            None => unreachable!("a call that writes nothing asks"),
        },
    }
}

// A write after an answer to the refresh before it.
fn refreshed_on(
    alloc: Global,
    handle: &HandleState,
    refresh: Refresh,
    write: LooseCall,
    answer: Answer,
) -> Result<CallStage, NoMemory>
    requires suits { IsAnswerTo (refreshes.ask_of refresh) answer }
    ensures fed { IfOk result (λ stage. stage ≡ calls.fed (setting_at handle.now) (CallStage.Refreshing refresh write) answer) }
{
    match refresh.feed(alloc, handle.parts(), &handle.view.snapshot.indices, answer) {
        Ok(step) => Ok(fronted(step, write)),
        Err(error) => {
            drop(write);
            Err(error)
        }
    }
}

// What a look-up is told of a handle's store.
fn setting_of(handle: &HandleState) -> Setting<'_>
    ensures setting { looks.setting_of result ≡ setting_at handle.now }
{
    let parts = handle.parts();
    Setting {
        parts,
        max_changes: handle.max_changes,
        loaded: &handle.view.snapshot.indices,
    }
}

// A new query, from the snapshot of its handle.
fn looking(alloc: Global, handle: &HandleState, query: Query) -> Result<CallStage, NoMemory>
    ensures begun { IfOk result (λ stage. stage ≡ calls.looking (setting_at handle.now) handle.now.refresh handle.now.view (sought_by handle.now) query) }
{
    let id = handle.sought(query);
    let setting = setting_of(handle);
    let look = LookUp::start(
        alloc,
        &setting,
        handle.refresh,
        &handle.view,
        query.want,
        id,
    )?;
    Ok(CallStage::Looking(look))
}

// A new write, before which the list of the store is read where the handle has seen none that was.
fn refreshed(handle: &HandleState, write: LooseCall) -> CallStage
    ensures begun { result ≡ fronted (refreshes.started handle.now.view) write }
{
    if handle.view.read {
        CallStage::Writing(write)
    } else {
        CallStage::Refreshing {
            refresh: Refresh::Reading,
            write,
        }
    }
}

// A write and the refresh before it: it begins where the core has a list that was read.
fn fronted(step: RefreshStep, write: LooseCall) -> CallStage
    ensures fronted { result ≡ fronted step write }
{
    match step {
        RefreshStep::More(refresh) => CallStage::Refreshing { refresh, write },
        RefreshStep::Refused(error) => {
            drop(write);
            CallStage::Refused(error)
        }
        step => {
            drop(step);
            CallStage::Writing(write)
        }
    }
}

// The reply of a write whose store could not be listed.
fn unlisted(error: load_index::Error) -> Reply
    ensures unlisted { result ≡ calls.unlisted error }
{
    Reply::Refused(CallError::Write(write::Error::LoadIndex(error)))
}
