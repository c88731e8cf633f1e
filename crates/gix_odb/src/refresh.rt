//! The order of work of a refresh: the store's core is read, and where its list was never read, the folders of packs are
//! listed, and the listing is published.
ghost use Rattle.std.specs.Prelude.{◌≡◌, IfOk, Err, Ok, Some};
ghost use Rattle.std.specs.Option.{option_map};
ghost use Rattle.odb_base.specs.Path.{Path};
ghost use Rattle.gix_odb_events.specs.Asks.{IsAnswerTo};
ghost use Rattle.gix_odb_events.specs.declared.answer.Answer.TheVariants as told;
ghost use Rattle.gix_odb_events.specs.declared.view.View as views;
ghost use Rattle.gix_odb.specs.RefreshOrder.{ask_of, opened_in, view_shown};
ghost use Rattle.gix_odb.specs.RefreshOrder as order;
ghost use Rattle.gix_odb_calls.specs.declared.load_index.Error.TheVariants as load_errors;
ghost use Rattle.gix_odb_search.specs.ListedStore.{ListedStore as ListedStoreValue, listed_store};
ghost use Rattle.gix_odb_search.specs.MultiPack.{most_packs};
ghost use Rattle.gix_odb.specs.Store.{listed_for};

use crate::refusals::of_refusal;
use gix_odb_calls::{StoreParts, load_index};
use gix_odb_events::{Answer, Ask, Effect, Event, Listing, LoadedList, Refusal, View};
use gix_odb_search::{ListStep, ListedStore, Lister, MOST_PACKS, MultiUse};
use odb_base::{NoMemory, PathText};
use odb_disk::DiskAnswer;
use std::alloc::Global;

/// The state of a refresh, which begins by reading the core's state.
///
/// `ask` names the next call of the disk or the next event of the store's core, `feed` takes its answer.
#[derive(Drop)]
pub enum Refresh {
    /// The core's list is to be read.
    Reading,
    /// The folders of packs are listed.
    Listing(Lister),
    /// The listing is to be published.
    Publishing(Listing),
}

/// The step after an answer to a refresh.
#[derive(Drop)]
pub enum RefreshStep {
    /// It goes on.
    More(Refresh),
    /// The core's list was read before, and this view shows it.
    Read(View),
    /// The core's list is the listing; `own` says whether the listing made it or changed nothing.
    Current { view: View, own: bool },
    /// Another list, of this number, was published since the core was read.
    Outdated { list_no: u64 },
    /// The folders can't be listed, or the core refused the event.
    Refused(load_index::Error),
}

impl Refresh {
    /// Returns a refresh whose core was read, and had the list of this number then.
    pub fn listing(alloc: Global, parts: &StoreParts, base: u64) -> Result<Refresh, NoMemory>
        ensures lists { IfOk result (λ refresh. refresh ≡ order.listing_from parts.now.objects base) }
    {
        Ok(Refresh::Listing(Lister::start(alloc, &parts.objects, base)?))
    }

    /// Returns what comes next: a call of the disk, or an event of the store's core.
    pub fn ask(&self, alloc: Global) -> Result<Ask, NoMemory>
        ensures asked { IfOk result (λ ask. ask ≡ ask_of self.now) }
    {
        match self {
            Refresh::Reading => Ok(Ask::Core(Event::Look)),
            Refresh::Listing(lister) => Ok(Ask::Disk(lister.ask(alloc)?)),
            Refresh::Publishing(listing) => {
                let listing = listing.try_clone(alloc)?;
                Ok(Ask::Core(Event::Publish(listing)))
            }
        }
    }

    /// Returns the directory of the open stream that the next call reads, where it reads one.
    pub fn opened(&self) -> Option<&PathText>
        ensures opened { option_map (λ path. path.now) result ≡ opened_in self.now }
    {
        match self {
            Refresh::Listing(lister) => Some(lister.folder()),
            _ => None,
        }
    }

    /// Returns the step after the answer to what was asked for, in a store of these parts. A multi-pack index that is loaded isn't parsed again.
    pub fn feed(
        self,
        alloc: Global,
        parts: &StoreParts,
        loaded: &LoadedList,
        answer: Answer,
    ) -> Result<RefreshStep, NoMemory>
        requires suits { IsAnswerTo (ask_of self) answer }
        ensures fed { IfOk result (λ step. step ≡ order.fed parts.now.objects (listed_for parts.now) self answer) }
    {
        match answer {
            Answer::Disk(answer) => by_disk(alloc, parts, loaded, self, answer),
            Answer::Core(Ok(effect)) => by_effect(alloc, parts, self, effect),
            Answer::Core(Err(Refusal::NoMemory)) => Err(NoMemory),
            Answer::Core(Err(refusal)) => Ok(by_refusal(self, refusal)),
        }
    }
}

/// Returns what a listing is told of a store, and of its loaded indices.
pub(crate) fn listed_for<'a>(
    parts: &'a StoreParts,
    loaded: Option<&'a LoadedList>,
) -> ListedStore<'a>
    ensures store { listed_store result ≡ listed_for parts.now }
{
    let multi = if parts.use_multi_pack_index {
        Some(MultiUse {
            hash: parts.object_hash,
            limit: parts.alloc_limit_bytes,
        })
    } else {
        None
    };
    ListedStore {
        folders: parts.folders.as_slice(),
        multi,
        loaded,
    }
}

/// Returns the step after an answer of the disk.
fn by_disk(
    alloc: Global,
    parts: &StoreParts,
    loaded: &LoadedList,
    refresh: Refresh,
    answer: DiskAnswer,
) -> Result<RefreshStep, NoMemory>
    requires suits { IsAnswerTo (ask_of refresh) (told.Disk answer) }
    ensures fed { IfOk result (λ step. step ≡ order.fed parts.now.objects (listed_for parts.now) refresh (told.Disk answer)) }
{
    match refresh {
        Refresh::Listing(lister) => {
            let store = listed_for(parts, Some(loaded));
            let step = lister.feed(alloc, &store, answer)?;
            Ok(by_listed(step))
        }
        _ => unreachable!("only the listing makes calls of the disk"),
    }
}

/// Returns the step after a step of the listing.
fn by_listed(step: ListStep) -> RefreshStep
    ensures by { result ≡ order.by_listed step }
{
    match step {
        ListStep::More(lister) => RefreshStep::More(Refresh::Listing(lister)),
        ListStep::Listed(listing) => RefreshStep::More(Refresh::Publishing(listing)),
        ListStep::Broken => RefreshStep::Refused(load_index::Error::Io),
        ListStep::TooManyPacks { actual, path } => RefreshStep::Refused(too_many(actual, path)),
    }
}

/// Returns the error of a multi-pack index that names more packs than a store may use.
pub(crate) fn too_many(actual: u32, path: PathText) -> load_index::Error
    ensures error { result ≡ load_errors.TooManyPacksInMultiIndex actual most_packs path }
{
    load_index::Error::TooManyPacksInMultiIndex {
        actual,
        limit: MOST_PACKS,
        index_path: path,
    }
}

/// Returns the step after an event that wasn't refused.
fn by_effect(
    alloc: Global,
    parts: &StoreParts,
    refresh: Refresh,
    effect: Effect,
) -> Result<RefreshStep, NoMemory>
    requires suits { IsAnswerTo (ask_of refresh) (told.Core (Ok effect)) }
    ensures fed { IfOk result (λ step. step ≡ order.fed parts.now.objects (listed_for parts.now) refresh (told.Core (Ok effect))) }
{
    match refresh {
        Refresh::Reading => by_look(alloc, parts, shown_by(effect)),
        Refresh::Publishing(listing) => Ok(by_published(listing, effect)),
        Refresh::Listing(_) => unreachable!("the listing has no event"),
    }
}

/// Returns the view that an effect passes.
fn shown_by(effect: Effect) -> Option<View>
    ensures view { result ≡ view_shown effect }
{
    match effect {
        Effect::Seen(view) => Some(view),
        Effect::Published(view) => Some(view),
        Effect::Unchanged(view) => Some(view),
        Effect::Reported {
            view,
            report: _report,
        } => Some(view),
        Effect::Put {
            view,
            stored: _stored,
        } => Some(view),
        Effect::Removed => None,
        Effect::Outdated { list_no: _list_no } => None,
    }
}

/// Returns the step after the core's state was read: the folders are listed where its list was never read.
fn by_look(alloc: Global, parts: &StoreParts, view: Option<View>) -> Result<RefreshStep, NoMemory>
    requires seen { (seen : views.View) × (view ≡ Some seen) }
    ensures by { IfOk result (λ step. step ≡ order.by_look parts.now.objects view) }
{
    match view {
        None => unreachable!("the core's state is answered by a view"),
        Some(view) if view.read => Ok(RefreshStep::Read(view)),
        Some(view) => Ok(RefreshStep::More(Refresh::listing(alloc, parts, view.list_no)?)),
    }
}

/// Returns the step after a listing was published, or came too late.
fn by_published(listing: Listing, effect: Effect) -> RefreshStep
    requires suits { IsAnswerTo (ask_of (Refresh.Publishing listing)) (told.Core (Ok effect)) }
    ensures by { result ≡ order.by_published listing effect }
{
    match effect {
        Effect::Published(view) => RefreshStep::Current { view, own: true },
        Effect::Unchanged(view) => RefreshStep::Current { view, own: false },
        Effect::Outdated { list_no } => RefreshStep::Outdated { list_no },
        _ => unreachable!("a listing is answered by its result"),
    }
}

/// Returns the step after an event was refused.
fn by_refusal(refresh: Refresh, refusal: Refusal) -> RefreshStep
    requires suits { IsAnswerTo (ask_of refresh) (told.Core (Err refusal)) }
    ensures fed { (objects : Path) → (store : ListedStoreValue) → result ≡ order.fed objects store refresh (told.Core (Err refusal)) }
{
    match refresh {
        Refresh::Reading | Refresh::Publishing(_) => RefreshStep::Refused(of_refusal(refusal)),
        Refresh::Listing(_) => unreachable!("the listing has no event"),
    }
}
