//! The order of work of an opening.
ghost use Rattle.std.specs.Prelude.{◌≡◌, ◌∷◌, List, IfOk, OnErr, OnOk, ℕ, length, true};
ghost use Rattle.std.specs.Option.{option_map};
ghost use Rattle.gix_odb_calls.specs.StoreParts.{parts_of_store};
ghost use Rattle.gix_odb_calls.specs.declared.init.Error.TheVariants as opening_errors;
ghost use Rattle.gix_odb_events.specs.declared.answer.Answer.TheVariants as told;
ghost use Rattle.gix_odb.specs.Answers.{IsDiskAsk};
ghost use Rattle.gix_odb.specs.OpenOrder.{IsAskOf, ask_of, opened_in, result_of};
ghost use Rattle.gix_odb.specs.OpenOrder as order;
ghost use Rattle.gix_odb.specs.OpenState.{at_stage, ends_with, opened_handle};
ghost use Rattle.gix_odb.specs.Store.{listed_for};

use crate::ask::OpenAsk;
use crate::handle_state::HandleState;
use crate::refresh::{listed_for, too_many};
use crate::refresh_mode::RefreshMode;
use gix_hash::ObjectId;
use gix_odb_calls::{
    CallError, Options, PathList, Replacements, Reply, Slots, StoreParts, init, load_index,
};
use gix_odb_events::{Ask, View};
use gix_odb_search::{ListStep, Lister};
use odb_base::{NoMemory, PathText};
use odb_disk::{DiskAnswer, DiskAsk, DiskError, Kind};
use std::alloc::Global;
use std::mem::replace;
use std::sync::Arc;

/// The most slots that a store may have: 2^15 - 1. A pack's number has 32 bits, and the lowest 15 of them are the slot
/// of its index (`PackId::to_intrinsic_pack_id` of `gix_odb_events`).
const MAX_SLOTS: u64 = 32767;

/// The state of the opening of a store.
///
/// `ask` names the next call of the disk, `feed` takes its answer, and so on until the opening is refused, or asks for a
/// core. Whoever makes that core registers a handle there, and gets it by `into_state`.
#[derive(Drop)]
pub struct OpenState {
    info: Arc<StoreParts, Global>,
    max_changes: u32,
    stage: OpenStage,
}

/// The stage of an opening.
#[derive(Drop)]
pub enum OpenStage {
    /// The objects directory is to be statted.
    Looking,
    /// The folders of packs are listed, since the store is to have slots for a percentage of its indices, and for a minimum
    /// at least.
    Listing {
        lister: Lister,
        percent: u32,
        minimum: u32,
    },
    /// The store's core is to be made, with so many slots, and the handle to be registered at it.
    Registering {
        slots: u16,
    },
    Done(Reply),
}

impl OpenState {
    /// Returns the opening of a store of these folders, the objects directory first, which asks for nothing yet.
    ///
    /// The conditions of opening (folders that differ, ids of the hash, few changes) are neither tested nor required here. A
    /// caller that gets them tests them first.
    pub fn start(
        alloc: Global,
        path: &PathText,
        folders: &[PathText],
        hash: gix_hash::Kind,
        replacements: &[(ObjectId, ObjectId)],
        options: Options,
    ) -> Result<OpenState, NoMemory>
        ensures parts { IfOk result (λ opening. opening.info.value ≡ parts_of_store path.now folders.now hash replacements.now options) }
        ensures changes { IfOk result (λ opening. opening.max_changes ≡ options.max_changes) }
        ensures started { IfOk result (λ opening. opening.stage ≡ order.started) }
    {
        let parts = StoreParts {
            objects: path.try_clone(alloc)?,
            folders: list_of(alloc, folders)?,
            object_hash: hash,
            replacements: Replacements::from_pairs(alloc, replacements)?,
            use_multi_pack_index: options.use_multi_pack_index,
            alloc_limit_bytes: options.alloc_limit_bytes,
            slots: options.slots,
        };
        Ok(OpenState {
            info: Arc::new(alloc, parts)?,
            max_changes: options.max_changes,
            stage: OpenStage::Looking,
        })
    }

    /// Returns what the opening does next. A reply is copied: `into_reply` moves it out.
    pub fn ask(&self, alloc: Global) -> Result<OpenAsk, NoMemory>
        ensures asked { IfOk result (λ ask. IsAskOf self.now.info.value.objects self.now.info.value.folders self.now.stage ask) }
    {
        match &self.stage {
            OpenStage::Looking => Ok(OpenAsk::Disk(look_at(alloc, &self.info.objects)?)),
            OpenStage::Listing { lister, .. } => Ok(OpenAsk::Disk(lister.ask(alloc)?)),
            OpenStage::Registering { slots } => Ok(OpenAsk::Register { slots: *slots }),
            OpenStage::Done(reply) => Ok(OpenAsk::Done(reply.try_clone(alloc)?)),
        }
    }

    /// Returns what comes next, a call of the disk or the core that is to be made; `None` where the opening is done. It copies
    /// no reply, which `into_reply` gives then.
    pub fn next_ask(&self, alloc: Global) -> Result<Option<Ask>, NoMemory>
        ensures asked { IfOk result (λ ask. ask ≡ ask_of self.now.info.value.objects self.now.info.value.folders self.now.stage) }
    {
        match &self.stage {
            OpenStage::Looking => Ok(Some(Ask::Disk(look_at(alloc, &self.info.objects)?))),
            OpenStage::Listing { lister, .. } => Ok(Some(Ask::Disk(lister.ask(alloc)?))),
            OpenStage::Registering { slots } => Ok(Some(core_for(&self.info, *slots))),
            OpenStage::Done(_) => Ok(None),
        }
    }

    /// Returns the directory of the open stream that the next call of the disk reads, where it reads one.
    pub fn opened(&self) -> Option<&PathText>
        ensures opened { option_map (λ path. path.now) result ≡ opened_in self.now.stage }
    {
        match &self.stage {
            OpenStage::Listing { lister, .. } => Some(lister.folder()),
            _ => None,
        }
    }

    /// Takes the answer to the call of the disk that the opening asked for. Where memory runs out the opening is refused.
    pub fn feed(&mut self, alloc: Global, answer: DiskAnswer) -> Result<(), NoMemory>
        requires asks { IsDiskAsk (ask_of self.old.info.value.objects self.old.info.value.folders self.old.stage) }
        ensures fed { OnOk result (self.new ≡ at_stage self.old (order.fed self.old.info.value.objects (listed_for self.old.info.value) self.old.info.value.slots self.old.stage (told.Disk answer))) }
        ensures refused { OnErr result (self.new ≡ at_stage self.old (order.refused opening_errors.NoMemory)) }
    {
        let stage = replace(&mut self.stage, refused(init::Error::NoMemory));
        let next = by_disk(alloc, &self.info, stage, answer)?;
        drop(replace(&mut self.stage, next));
        Ok(())
    }

    /// Returns the handle, which is registered at the core that the opening asked for, and was passed this view there.
    pub fn into_state(self, view: View) -> HandleState
        requires registers { (slots : ℕ) × IsAskOf self.info.value.objects self.info.value.folders self.stage (OpenAsk.Register slots) }
        ensures state { result ≡ opened_handle self view }
    {
        let OpenState {
            info,
            max_changes,
            stage,
        } = self;
        drop(stage);
        HandleState {
            info,
            refresh: RefreshMode::default(),
            ignore_replacements: false,
            max_changes,
            view,
        }
    }

    /// Returns the reply of an opening that is done. The error is the opening that goes on.
    pub fn into_reply(self) -> Result<Reply, OpenState>
        ensures replied { result ≡ ends_with self (result_of self.stage) }
    {
        let OpenState {
            info,
            max_changes,
            stage,
        } = self;
        match stage {
            OpenStage::Done(reply) => {
                drop(info);
                Ok(reply)
            }
            stage => Err(OpenState {
                info,
                max_changes,
                stage,
            }),
        }
    }
}

/// Collects paths into a list.
fn list_of(alloc: Global, paths: &[PathText]) -> Result<PathList, NoMemory>
    ensures copied { IfOk result (λ list. list ≡ paths.now) }
{
    let mut list = PathList::new(alloc);
    for path in paths {
        list.push(path.try_clone(alloc)?)?;
    }
    Ok(list)
}

fn look_at(alloc: Global, objects: &PathText) -> Result<DiskAsk, NoMemory>
    ensures look { IfOk result (λ ask. ask ≡ DiskAsk.Look objects.now true) }
{
    Ok(DiskAsk::Look {
        path: objects.try_clone(alloc)?,
        follow: true,
    })
}

/// Returns the core that a store is to have: the objects directory is one of its folders.
fn core_for(parts: &StoreParts, slots: u16) -> Ask
    ensures core { result ≡ Ask.NewCore slots (length (parts.now.objects ∷ parts.now.folders)) }
{
    let folders = parts.folders.as_slice().len() + 1;
    Ask::NewCore { slots, folders }
}

/// Returns the stage after an answer of the disk.
fn by_disk(
    alloc: Global,
    parts: &StoreParts,
    state: OpenStage,
    answer: DiskAnswer,
) -> Result<OpenStage, NoMemory>
    requires asks { IsDiskAsk (ask_of parts.now.objects parts.now.folders state) }
    ensures fed { IfOk result (λ next. next ≡ order.fed parts.now.objects (listed_for parts.now) parts.now.slots state (told.Disk answer)) }
{
    match state {
        OpenStage::Looking => after_look(alloc, parts, &answer),
        OpenStage::Listing {
            lister,
            percent,
            minimum,
        } => {
            let store = listed_for(parts, None);
            let step = lister.feed(alloc, &store, answer)?;
            Ok(listed_on(percent, minimum, step))
        }
        _ => unreachable!("such an opening has no call of the disk"),
    }
}

fn refused(error: init::Error) -> OpenStage
    ensures refused { result ≡ order.refused error }
{
    OpenStage::Done(Reply::Refused(CallError::Open(error)))
}

/// Returns the stage after the stat of the objects directory.
fn after_look(alloc: Global, parts: &StoreParts, answer: &DiskAnswer) -> Result<OpenStage, NoMemory>
    ensures after { IfOk result (λ next. next ≡ order.looked parts.now.objects parts.now.slots answer.now) }
{
    match answer {
        DiskAnswer::Meta(meta) if meta.kind == Kind::Dir => begun(
            alloc,
            &parts.objects,
            parts.slots,
        ),
        DiskAnswer::Refused(DiskError::Failed) => Ok(refused(init::Error::Io)),
        _ => Ok(refused(init::Error::NotADirectory)),
    }
}

/// Returns the stage where the objects directory is there: its core, or a listing, to count the indices.
fn begun(alloc: Global, objects: &PathText, slots: Slots) -> Result<OpenStage, NoMemory>
    ensures begun { IfOk result (λ next. next ≡ order.begun objects.now slots) }
{
    match slots {
        Slots::Given(slots) => Ok(numbered(u64::from(slots))),
        Slots::AsNeededByDiskState { percent, minimum } => Ok(OpenStage::Listing {
            lister: Lister::start(alloc, objects, 0)?,
            percent,
            minimum,
        }),
    }
}

/// Returns the stage after a step of the listing.
fn listed_on(percent: u32, minimum: u32, step: ListStep) -> OpenStage
    ensures listed { result ≡ order.listed_on percent minimum step }
{
    match step {
        ListStep::More(lister) => OpenStage::Listing {
            lister,
            percent,
            minimum,
        },
        ListStep::Listed(listing) => numbered(slots_for(percent, minimum, listing.rows.len())),
        ListStep::Broken => refused(init::Error::LoadIndex(load_index::Error::Io)),
        ListStep::TooManyPacks { actual, path } => {
            refused(init::Error::LoadIndex(too_many(actual, path)))
        }
    }
}

/// Returns how many slots a store is to have for so many indices.
#[tactic(auto, using(crate::proofs::SlotsLemmas::part_fits))]
fn slots_for(percent: u32, minimum: u32, indices: usize) -> u64
    ensures slots { result ≡ order.slots_for percent minimum indices }
{
    let part = indices as u128 * u128::from(percent) / 100;
    let slots = part.max(u128::from(minimum));
    if slots <= u128::from(MAX_SLOTS) {
        slots as u64
    } else {
        indices as u64
    }
}

/// Returns the stage that asks for a core, unless no store may have so many slots.
fn numbered(slots: u64) -> OpenStage
    ensures numbered { result ≡ order.numbered slots }
{
    if slots <= MAX_SLOTS {
        let slots = slots as u16;
        OpenStage::Registering { slots }
    } else {
        refused(init::Error::TooManySlots { asked: slots })
    }
}
