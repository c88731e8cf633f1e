//! One index of a list is loaded: it is read, and then stored in the store's core, or passed over.
ghost use Rattle.std.specs.Prelude.{◌≡◌, IfOk};
ghost use Rattle.gix_odb_events.specs.Asks.{IsAnswerTo};
ghost use Rattle.gix_odb_search.specs.LoadOrder.{ask_of, index_or_bad, place_of, put_index};
ghost use Rattle.gix_odb_search.specs.LoadOrder as order;

mod stored;

use gix_hash::Kind;
use gix_odb_events::{Answer, Ask, Effect, Event, PassWhy, Refusal, Shared, SnapshotIndex, Todo};
use gix_pack_read::index;
use odb_base::{ByteList, NoMemory, PathText};
use odb_disk::{DiskAnswer, DiskAsk, DiskError};
use std::alloc::Global;
use stored::index_stored;

/// Where an index is: its slot, and its path.
#[derive(Drop)]
pub struct IndexPlace {
    pub slot: u16,
    pub path: PathText,
}

/// The state of loading an index.
///
/// `ask` names the next call of the disk or the next event of the store's core, `feed` takes its answer. What the loaded index
/// is used for is up to the caller.
#[derive(Drop)]
pub enum IndexLoader {
    /// The index is to be read.
    Reading(IndexPlace),
    /// It was read, and is to be stored.
    Storing {
        place: IndexPlace,
        file: Shared<index::File>,
    },
    /// It can't be loaded, which is to be noted in the core.
    Passing {
        place: IndexPlace,
        why: PassWhy,
    },
}

/// The result of a step of loading.
#[derive(Drop)]
pub enum LoadStep {
    /// It goes on.
    More(IndexLoader),
    /// The index is stored. It is as the core shows it, or as it was read where its slot no longer holds its path.
    Loaded(SnapshotIndex),
    /// The index is passed over.
    Missed(PassWhy),
    /// The core refused an event.
    Broken(Refusal),
}

/// Returns the call of the disk that reads a path, which is copied.
pub(crate) fn read_of(alloc: Global, path: &PathText) -> Result<Ask, NoMemory>
    ensures asks { IfOk result (λ ask. ask ≡ order.read_of path.now) }
{
    let path = path.try_clone(alloc)?;
    Ok(Ask::Disk(DiskAsk::Read { path }))
}

/// Returns the event that a file of a slot could not be read.
pub(crate) fn pass_of(
    alloc: Global,
    slot: u16,
    path: &PathText,
    why: PassWhy,
) -> Result<Ask, NoMemory>
    ensures asks { IfOk result (λ ask. ask ≡ order.pass_of slot path.now why) }
{
    let path = path.try_clone(alloc)?;
    Ok(Ask::Core(Event::PassOver { slot, path, why }))
}

/// Returns the event that an index was read.
fn put_index(alloc: Global, place: &IndexPlace, file: &Shared<index::File>) -> Result<Ask, NoMemory>
    ensures asks { IfOk result (λ ask. ask ≡ put_index place.now file.now) }
{
    let file = file.try_clone()?;
    let path = place.path.try_clone(alloc)?;
    let slot = place.slot;
    Ok(Ask::Core(Event::PutIndex { slot, path, file }))
}

impl IndexPlace {
    /// Returns where a listed index is.
    pub fn of(alloc: Global, todo: &Todo) -> Result<IndexPlace, NoMemory>
        ensures place { IfOk result (λ place. place ≡ place_of todo.now) }
    {
        let path = todo.path.value().try_clone(alloc)?;
        Ok(IndexPlace {
            slot: todo.slot,
            path,
        })
    }
}

impl IndexLoader {
    /// Begins to load the index at a place.
    pub fn start(place: IndexPlace) -> IndexLoader
        ensures begun { result ≡ IndexLoader.Reading place }
    {
        IndexLoader::Reading(place)
    }

    /// Returns what comes next: a call of the disk, or an event of the store's core.
    pub fn ask(&self, alloc: Global) -> Result<Ask, NoMemory>
        ensures asked { IfOk result (λ ask. ask ≡ ask_of self.now) }
    {
        match self {
            IndexLoader::Reading(place) => read_of(alloc, &place.path),
            IndexLoader::Storing { place, file } => put_index(alloc, place, file),
            IndexLoader::Passing { place, why } => pass_of(alloc, place.slot, &place.path, *why),
        }
    }

    /// Returns the step after the answer to what was asked for, where ids come from a hash.
    pub fn feed(self, alloc: Global, hash: Kind, answer: Answer) -> Result<LoadStep, NoMemory>
        requires suits { IsAnswerTo (ask_of self) answer }
        ensures fed { IfOk result (λ step. step ≡ order.fed hash self answer) }
    {
        match answer {
            Answer::Disk(answer) => Ok(LoadStep::More(after_disk(alloc, hash, self, answer)?)),
            Answer::Core(answer) => after_core(alloc, self, answer),
        }
    }
}

/// Returns the stage after the disk answered. Fails where memory runs out.
fn after_disk(
    alloc: Global,
    hash: Kind,
    loader: IndexLoader,
    answer: DiskAnswer,
) -> Result<IndexLoader, NoMemory>
    requires suits { IsAnswerTo (ask_of loader) (Answer.Disk answer) }
    ensures read { IfOk result (λ next. next ≡ order.after_disk hash loader answer) }
{
    match loader {
        IndexLoader::Reading(place) => index_read(alloc, hash, place, answer),
        _ => unreachable!("only the read of the index is a call of the disk"),
    }
}

/// Returns the step after the core answered. Fails where memory runs out.
fn after_core(
    alloc: Global,
    loader: IndexLoader,
    answer: Result<Effect, Refusal>,
) -> Result<LoadStep, NoMemory>
    requires suits { IsAnswerTo (ask_of loader) (Answer.Core answer) }
    ensures answered { IfOk result (λ step. step ≡ order.after_core loader answer) }
{
    match loader {
        IndexLoader::Reading(_) => unreachable!("the read of the index is no event"),
        IndexLoader::Storing { place, file } => after_storing(alloc, place, file, answer),
        IndexLoader::Passing { place, why } => after_passing(place, why, answer),
    }
}

/// Returns the step after the core stored an index.
fn after_storing(
    alloc: Global,
    place: IndexPlace,
    file: Shared<index::File>,
    answer: Result<Effect, Refusal>,
) -> Result<LoadStep, NoMemory>
    ensures stored { IfOk result (λ step. step ≡ order.after_core (IndexLoader.Storing place file) answer) }
{
    match answer {
        Ok(effect) => {
            let index = index_stored(alloc, place, file, &effect);
            drop(effect);
            Ok(LoadStep::Loaded(index?))
        }
        Err(refusal) => {
            drop(place);
            drop(file);
            broken(refusal)
        }
    }
}

/// Returns the step after the core noted an index that can't be loaded.
fn after_passing(
    place: IndexPlace,
    why: PassWhy,
    answer: Result<Effect, Refusal>,
) -> Result<LoadStep, NoMemory>
    ensures passed { IfOk result (λ step. step ≡ order.after_core (IndexLoader.Passing place why) answer) }
{
    drop(place);
    match answer {
        Ok(effect) => {
            drop(effect);
            Ok(LoadStep::Missed(why))
        }
        Err(refusal) => broken(refusal),
    }
}

/// Ends the work by a refusal of the core. Fails where memory ran out.
fn broken(refusal: Refusal) -> Result<LoadStep, NoMemory>
    ensures broken { IfOk result (λ step. step ≡ LoadStep.Broken refusal) }
{
    match refusal {
        Refusal::NoMemory => Err(NoMemory),
        refusal => Ok(LoadStep::Broken(refusal)),
    }
}

/// Returns why a file is passed over, by the answer to its read.
fn why_of(answer: &DiskAnswer) -> PassWhy
    ensures why { result ≡ order.why_of answer.now }
{
    match answer {
        DiskAnswer::Refused(DiskError::Absent) => PassWhy::Absent,
        DiskAnswer::Refused(DiskError::Failed) => PassWhy::Failed,
        DiskAnswer::Refused(DiskError::LinkLoop) => PassWhy::LinkLoop,
        _ => PassWhy::WrongKind,
    }
}

/// Returns the stage after bytes were read of an index.
fn index_or_bad(
    alloc: Global,
    hash: Kind,
    place: IndexPlace,
    bytes: ByteList,
) -> Result<IndexLoader, NoMemory>
    ensures stage { IfOk result (λ loader. loader ≡ index_or_bad hash place bytes) }
{
    match index::File::parse(bytes, hash) {
        Ok(file) => Ok(IndexLoader::Storing {
            place,
            file: Shared::new(alloc, file)?,
        }),
        Err(_) => Ok(IndexLoader::Passing {
            place,
            why: PassWhy::Bad,
        }),
    }
}

/// Returns the stage after an index was read. Fails where memory runs out.
fn index_read(
    alloc: Global,
    hash: Kind,
    place: IndexPlace,
    answer: DiskAnswer,
) -> Result<IndexLoader, NoMemory>
    ensures read { IfOk result (λ loader. loader ≡ order.index_read hash place answer) }
{
    match answer {
        DiskAnswer::File { bytes, .. } => index_or_bad(alloc, hash, place, bytes),
        DiskAnswer::Refused(DiskError::NoMemory) => {
            drop(place);
            Err(NoMemory)
        }
        answer => {
            let why = why_of(&answer);
            drop(answer);
            Ok(IndexLoader::Passing { place, why })
        }
    }
}
