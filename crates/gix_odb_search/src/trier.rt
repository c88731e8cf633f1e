//! The indices of a list are tried, one after another, until one leads to the object.
ghost use Rattle.std.specs.Prelude.{◌≡◌, IfOk};
ghost use Rattle.gix_odb_events.specs.Asks.{IsAnswerTo};
ghost use Rattle.gix_odb_search.specs.LoadOrder as load;
ghost use Rattle.gix_odb_search.specs.TryOrder.{ask_at, ask_of, at_search, at_todo, seek};
ghost use Rattle.gix_odb_search.specs.TryOrder as order;

mod loading;
mod read;
mod stored;

use crate::goal::{Error, Found, Goal};
use crate::index_loader::{IndexLoader, IndexPlace, pass_of, read_of};
use crate::search::{Notes, Sought, WantedPack};
use gix_odb_events::{
    Answer, Ask, Event, LoadedRest, PackId, PassWhy, Refusal, Shared, Todo, TodoRest,
};
use gix_pack_read::data;
use loading::after_load;
use odb_base::NoMemory;
use read::pack_read;
use std::alloc::Global;
use stored::{pack_passed, pack_stored};

/// The state of trying the indices of a list.
///
/// `ask` names the next call of the disk or the next event of the store's core, `feed` takes its answer.
#[derive(Drop)]
pub struct Trier {
    goal: Goal,
    ahead: Ahead,
    stage: Stage,
}

/// What is still to be tried.
#[derive(Drop)]
pub struct Ahead {
    /// The loaded indices that are left.
    indices: LoadedRest,
    /// The listed indices that are left to be loaded.
    todo: TodoRest,
    notes: Notes,
}

/// The stage of the work.
#[derive(Drop)]
pub enum Stage {
    /// An index is being loaded.
    Loading(IndexLoader),
    /// A pack is to be read.
    ReadingPack(WantedPack),
    /// It was read, and is to be stored.
    StoringPack {
        pack: WantedPack,
        file: Shared<data::File>,
    },
    /// It was absent, which is to be noted.
    PassingPack(WantedPack),
}

/// The result of a step of trying.
#[derive(Drop)]
pub enum Tried {
    /// It goes on.
    More(Trier),
    /// An index led to the object.
    Hit(Found),
    /// No index led to the object.
    Missed(Notes),
    /// An index that has the id leads to no object.
    Bad(Error),
    /// The core refused a file.
    Broken(Refusal),
}

/// Returns the event that a pack was read.
fn put_pack(alloc: Global, pack: &WantedPack, file: &Shared<data::File>) -> Result<Ask, NoMemory>
    ensures asks { IfOk result (λ ask. ask ≡ order.put_pack pack.now file.now) }
{
    let file = file.try_clone()?;
    let path = pack.path.try_clone(alloc)?;
    let pack = PackId {
        index: pack.slot as usize,
        multipack_index: pack.place,
    };
    Ok(Ask::Core(Event::PutPack { pack, path, file }))
}

impl Trier {
    /// Begins to try indices that are loaded, and after them those that are still to be loaded.
    pub fn start(
        alloc: Global,
        goal: Goal,
        indices: LoadedRest,
        todo: TodoRest,
        notes: Notes,
    ) -> Result<Tried, NoMemory>
        ensures begun { IfOk result (λ tried. tried ≡ seek goal (record { indices = indices; todo = todo; notes = notes })) }
    {
        let ahead = Ahead {
            indices,
            todo,
            notes,
        };
        seek(alloc, goal, ahead)
    }

    /// Returns what comes next: a call of the disk, or an event of the store's core.
    pub fn ask(&self, alloc: Global) -> Result<Ask, NoMemory>
        ensures asked { IfOk result (λ ask. ask ≡ ask_of self.now) }
    {
        match &self.stage {
            Stage::Loading(loader) => loader.ask(alloc),
            Stage::ReadingPack(pack) => read_of(alloc, &pack.path),
            Stage::StoringPack { pack, file } => put_pack(alloc, pack, file),
            Stage::PassingPack(pack) => { pass_of(alloc, pack.slot, &pack.path, PassWhy::Absent) }
        }
    }

    /// Returns the step after the answer to what was asked for.
    pub fn feed(self, alloc: Global, answer: Answer) -> Result<Tried, NoMemory>
        requires suits { IsAnswerTo (ask_of self) answer }
        ensures fed { IfOk result (λ tried. tried ≡ order.fed self answer) }
    {
        let Trier { goal, ahead, stage } = self;
        match stage {
            Stage::Loading(loader) => fed_loading(alloc, goal, ahead, loader, answer),
            Stage::ReadingPack(pack) => fed_reading(alloc, goal, ahead, pack, answer),
            Stage::StoringPack { pack, file } => {
                fed_storing(alloc, goal, ahead, pack, file, answer)
            }
            Stage::PassingPack(pack) => fed_passing(alloc, goal, ahead, pack, answer),
        }
    }
}

/// Returns the same work at a stage.
fn at(goal: Goal, ahead: Ahead, stage: Stage) -> Tried
    ensures at { result ≡ order.at goal ahead stage }
{
    Tried::More(Trier { goal, ahead, stage })
}

/// Returns the step after an answer to the loading of an index.
fn fed_loading(
    alloc: Global,
    goal: Goal,
    ahead: Ahead,
    loader: IndexLoader,
    answer: Answer,
) -> Result<Tried, NoMemory>
    requires suits { IsAnswerTo (load.ask_of loader) answer }
    ensures fed { IfOk result (λ tried. tried ≡ order.by_answer goal ahead (Stage.Loading loader) answer) }
{
    match loader.feed(alloc, goal.id.kind(), answer) {
        Ok(step) => after_load(alloc, goal, ahead, step),
        Err(error) => {
            drop(ahead);
            Err(error)
        }
    }
}

/// Returns the step after the read of a pack.
fn fed_reading(
    alloc: Global,
    goal: Goal,
    ahead: Ahead,
    pack: WantedPack,
    answer: Answer,
) -> Result<Tried, NoMemory>
    requires suits { IsAnswerTo (ask_at (Stage.ReadingPack pack)) answer }
    ensures fed { IfOk result (λ tried. tried ≡ order.by_answer goal ahead (Stage.ReadingPack pack) answer) }
{
    match answer {
        Answer::Disk(answer) => pack_read(alloc, goal, ahead, pack, answer),
        Answer::Core(_) => unreachable!("the read of a pack is no event"),
    }
}

/// Returns the step after a pack was to be stored.
fn fed_storing(
    alloc: Global,
    goal: Goal,
    ahead: Ahead,
    pack: WantedPack,
    file: Shared<data::File>,
    answer: Answer,
) -> Result<Tried, NoMemory>
    requires suits { IsAnswerTo (ask_at (Stage.StoringPack pack file)) answer }
    ensures fed { IfOk result (λ tried. tried ≡ order.by_answer goal ahead (Stage.StoringPack pack file) answer) }
{
    match answer {
        Answer::Core(Ok(effect)) => {
            drop(ahead);
            let tried = pack_stored(alloc, goal, pack, file, &effect);
            drop(effect);
            tried
        }
        Answer::Core(Err(refusal)) => {
            drop(ahead);
            drop(pack);
            drop(file);
            broken(refusal)
        }
        Answer::Disk(_) => unreachable!("a pack is stored by the core"),
    }
}

/// Returns the step after a pack was to be passed over.
fn fed_passing(
    alloc: Global,
    goal: Goal,
    ahead: Ahead,
    pack: WantedPack,
    answer: Answer,
) -> Result<Tried, NoMemory>
    requires suits { IsAnswerTo (ask_at (Stage.PassingPack pack)) answer }
    ensures fed { IfOk result (λ tried. tried ≡ order.by_answer goal ahead (Stage.PassingPack pack) answer) }
{
    match answer {
        Answer::Core(Ok(effect)) => {
            drop(effect);
            pack_passed(alloc, goal, ahead, pack)
        }
        Answer::Core(Err(refusal)) => {
            drop(ahead);
            drop(pack);
            broken(refusal)
        }
        Answer::Disk(_) => unreachable!("a pack is passed over by the core"),
    }
}

/// Ends the work by a refusal of the core. Fails where memory ran out.
fn broken(refusal: Refusal) -> Result<Tried, NoMemory>
    ensures broken { IfOk result (λ tried. tried ≡ Tried.Broken refusal) }
{
    match refusal {
        Refusal::NoMemory => Err(NoMemory),
        refusal => Ok(Tried::Broken(refusal)),
    }
}

/// Searches in the loaded indices that are left, and after them in those that are still to be loaded.
fn seek(alloc: Global, goal: Goal, mut ahead: Ahead) -> Result<Tried, NoMemory>
    ensures sought { IfOk result (λ tried. tried ≡ seek goal ahead) }
{
    let found = goal.search(alloc, &ahead.notes, &mut ahead.indices)?;
    at_search(alloc, goal, ahead, found)
}

/// Returns what a search leads to: it ends the work, wants a pack, or leaves the indices that are still to be loaded.
fn at_search(alloc: Global, goal: Goal, ahead: Ahead, found: Sought) -> Result<Tried, NoMemory>
    ensures at { IfOk result (λ tried. tried ≡ at_search goal ahead found) }
{
    match found {
        Sought::Nowhere => at_todo(alloc, goal, ahead),
        Sought::Finds(found) => {
            drop(ahead);
            Ok(Tried::Hit(found))
        }
        Sought::Fails(error) => {
            drop(ahead);
            Ok(Tried::Bad(error))
        }
        Sought::Wants(pack) => Ok(at(goal, ahead, Stage::ReadingPack(pack))),
    }
}

/// Loads the next index that is still to be loaded, if there is one.
fn at_todo(alloc: Global, goal: Goal, mut ahead: Ahead) -> Result<Tried, NoMemory>
    ensures at { IfOk result (λ tried. tried ≡ at_todo goal ahead ahead.todo) }
{
    match ahead.todo.pop() {
        Ok(Some(todo)) => at_index(alloc, goal, ahead, &todo),
        Ok(None) => Ok(missed(ahead)),
        Err(error) => {
            drop(ahead);
            Err(error)
        }
    }
}

/// Loads an index that is still to be loaded.
fn at_index(alloc: Global, goal: Goal, ahead: Ahead, todo: &Todo) -> Result<Tried, NoMemory>
    ensures loads { IfOk result (λ tried. tried ≡ order.at goal ahead (Stage.Loading (IndexLoader.Reading (load.place_of todo.now)))) }
{
    match IndexPlace::of(alloc, todo) {
        Ok(place) => Ok(at(goal, ahead, Stage::Loading(IndexLoader::start(place)))),
        Err(error) => {
            drop(ahead);
            Err(error)
        }
    }
}

/// Ends where nothing is left to be tried.
fn missed(ahead: Ahead) -> Tried
    ensures missed { result ≡ Tried.Missed ahead.notes }
{
    let Ahead {
        indices,
        todo,
        notes,
    } = ahead;
    drop(indices);
    drop(todo);
    Tried::Missed(notes)
}
