//! The cores of a world's stores: how they are made, how clones and closes change them, and the journals that they leave.
ghost use Rattle.std.specs.Prelude.{◌≡◌, ◌<◌, ◌≤◌, [], All, IfOk, IsSome, None, OnOk, Some, false, length, map};
ghost use Rattle.gix_odb_core.specs.History.{History, opened, present};
ghost use Rattle.gix_odb_core.specs.Journal.{entries_of};
ghost use Rattle.gix_odb_core.specs.Replay.{CanHappen, number_behind};
ghost use Rattle.gix_odb_events.specs.Answers.{view_in};
ghost use Rattle.gix_odb_events.specs.PackId.{most_slots};
ghost use Rattle.gix_odb_history.specs.Cores.{answer_behind, cores_after_asked, entered, history_at, registered_at};
ghost use Rattle.gix_odb_history.specs.Event.{OfCore, OfNewCore};
ghost use Rattle.gix_odb_history.specs.Held.{IsHeld};
ghost use Rattle.gix_odb_history.specs.JournalKept.{IsJournal};
ghost use Rattle.gix_odb_history.specs.Made.{first_answer, joined_answer};

use crate::kept_core::{KeptCore, register};
use crate::record::Did;
use gix_odb_core::{Core, Journal};
use gix_odb_events::{Effect, Event, Refusal, View};
use odb_base::{NoMemory, Sequence};
use std::alloc::Global;

/// The journals of the cores of a run, one for each store that was opened.
pub type JournalList = Sequence<Journal>;

/// Makes the core of a store, with so many slots and folders, at which a handle is registered: what that did, and the view that
/// it passed to the handle.
pub fn added(
    alloc: Global,
    cores: &mut Vec<KeptCore>,
    slots: u16,
    folders: usize,
    seat: u32,
) -> Result<(Did, View), NoMemory>
    requires few { slots ≤ most_slots }
    ensures did { IfOk result (λ added. added.0 ≡ Did.Core (length cores.old.items) (number_behind [])) }
    ensures view { IfOk result (λ added. view_in (first_answer slots folders seat) ≡ Some added.1) }
    ensures cores { OnOk result (cores.new.items ≡ cores_after_asked cores.old.items (OfNewCore slots folders (length cores.old.items) seat (first_answer slots folders seat))) }
{
    let store = cores.len() as u64;
    let (core, view) = core_with(alloc, slots, folders, seat)?;
    cores.push(core)?;
    Ok((Did::Core { store, entry: 1 }, view))
}

/// A core with so many slots and folders, at which a handle is registered; and the view that this passes to it.
fn core_with(
    alloc: Global,
    slots: u16,
    folders: usize,
    seat: u32,
) -> Result<(KeptCore, View), NoMemory>
    requires few { slots ≤ most_slots }
    ensures core { IfOk result (λ made. made.0 ≡ entered (opened slots folders 0 0) seat (Event.Register false) (first_answer slots folders seat)) }
    ensures view { IfOk result (λ made. view_in (first_answer slots folders seat) ≡ Some made.1) }
{
    let core = Core::new(alloc, slots, folders)?;
    let mut core = Box::new(alloc, core)?;
    match register(alloc, &mut core, seat) {
        Ok(view) => Ok((KeptCore::held(core), view)),
        Err(error) => {
            drop(core);
            Err(error)
        }
    }
}

/// Registers a seat at the core of a store, where it is free and another one is registered: the `Did`, and the view
/// of the answer.
pub fn joined(
    alloc: Global,
    cores: &mut Vec<KeptCore>,
    store: usize,
    seat: u32,
) -> Result<(Did, View), NoMemory>
    requires there { store < length cores.old.items }
    requires held { IsHeld (history_at cores.old.items store) }
    requires free { registered_at cores.old.items store seat ≡ None }
    ensures did { IfOk result (λ joined. joined.0 ≡ Did.Core store (number_behind (history_at cores.old.items store).entries)) }
    ensures view { IfOk result (λ joined. view_in (joined_answer cores.old.items store seat) ≡ Some joined.1) }
    ensures cores { OnOk result (cores.new.items ≡ cores_after_asked cores.old.items (OfCore store seat (Event.Register false) (joined_answer cores.old.items store seat))) }
{
    let core = &mut cores[store];
    let entry = core.next_entry();
    let view = core.join(alloc, seat)?;
    let did = Did::Core {
        store: store as u64,
        entry,
    };
    Ok((did, view))
}

/// Removes a seat from the core of a store at which it is registered: the `Did`.
pub fn removed(alloc: Global, cores: &mut Vec<KeptCore>, store: usize, seat: u32) -> Did
    requires there { store < length cores.old.items }
    requires registered { IsSome (registered_at cores.old.items store seat) }
    ensures did { result ≡ Did.Core store (number_behind (history_at cores.old.items store).entries) }
    ensures cores { cores.new.items ≡ cores_after_asked cores.old.items (OfCore store seat Event.Remove (answer_behind (history_at cores.old.items store) seat Event.Remove)) }
{
    let core = &mut cores[store];
    let entry = core.next_entry();
    core.remove(alloc, seat);
    Did::Core {
        store: store as u64,
        entry,
    }
}

/// The `Did` of an event of a core, with the answer.
#[derive(Drop)]
pub struct EventDone {
    pub did: Did,
    pub answer: Result<Effect, Refusal>,
}

/// Applies an event of a registered handle to the core of a store: the `Did`, and the answer.
pub fn applied(
    alloc: Global,
    cores: &mut Vec<KeptCore>,
    store: usize,
    seat: u32,
    event: Event,
) -> Result<EventDone, NoMemory>
    requires there { store < length cores.old.items }
    requires registered { IsSome (registered_at cores.old.items store seat) }
    requires can_happen { CanHappen (present (history_at cores.old.items store)) seat event }
    ensures did { IfOk result (λ applied. applied.did ≡ Did.Core store (number_behind (history_at cores.old.items store).entries)) }
    ensures answer { IfOk result (λ applied. applied.answer ≡ answer_behind (history_at cores.old.items store) seat event) }
    ensures cores { OnOk result (cores.new.items ≡ cores_after_asked cores.old.items (OfCore store seat event (answer_behind (history_at cores.old.items store) seat event))) }
{
    let core = &mut cores[store];
    let entry = core.next_entry();
    let answer = core.answer(alloc, seat, event)?;
    let did = Did::Core {
        store: store as u64,
        entry,
    };
    Ok(EventDone { did, answer })
}

/// The journals of cores that are no longer in use.
pub fn journals_of(alloc: Global, cores: Vec<KeptCore>) -> Result<JournalList, NoMemory>
    ensures entries { IfOk result (λ journals. map entries_of journals ≡ map (λ (h : History). h.entries) cores.items) }
    ensures journals { IfOk result (λ journals. All IsJournal cores.items) }
{
    let mut journals = JournalList::new(alloc);
    for core in cores {
        journals.push(core.into_journal())?;
    }
    Ok(journals)
}
