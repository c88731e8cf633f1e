//! The core of a store as a run keeps it: whole while a handle is registered at it, and then what remains of it.
ghost use Rattle.std.specs.Prelude.{◌≡◌, IfOk, None, OnOk, Some, false, length};
ghost use Rattle.gix_odb_core.specs.Handles.{IsRegistered, registered};
ghost use Rattle.gix_odb_core.specs.History.{opened, present};
ghost use Rattle.gix_odb_core.specs.Journal.{entries_of};
ghost use Rattle.gix_odb_core.specs.Possible.{IsComplete};
ghost use Rattle.gix_odb_core.specs.Replay.{CanHappen, number_behind};
ghost use Rattle.gix_odb_events.specs.Answers.{view_in};
ghost use Rattle.gix_odb_history.specs.Cores.{answer_behind, entered};
ghost use Rattle.gix_odb_history.specs.Held.{IsHeld};
ghost use Rattle.gix_odb_history.specs.JournalKept.{IsJournal};

use gix_odb_core::{Core, Journal, Remains};
use gix_odb_events::{Effect, Event, Refusal, View};
use odb_base::NoMemory;
use std::alloc::Global;
use std::marker::Model;
use std::mem::replace;

/// The core of a store as a run keeps it, which contracts see as its history. No entry of its journal was refused for lack
/// of memory: then the run ends.
///
/// It is whole while a handle is registered at it. Once the last one is removed no handle can join any more: a handle
/// joins by making the core, or as a clone of a registered one. Then it is asked only for its journal.
#[derive(Drop)]
pub struct KeptCore {
    state: CoreState,
}

/// A whole core is in a box of its own, so that what remains of one takes no more than it needs.
#[derive(Drop)]
enum CoreState {
    Held(Box<Core>),
    /// No handle is registered.
    Left(Remains),
}

impl Model for KeptCore {
    ghost use Rattle.gix_odb_core.specs.History.{History};

    ghost Value = { History };

    ghost use Rattle.gix_odb_history.specs.KeptCore.{IsKeptCore, history_of};

    ghost view = { history_of };

    ghost invariant = { IsKeptCore };
}

impl KeptCore {
    /// A whole core.
    pub(crate) fn held(core: Box<Core>) -> KeptCore
        requires complete { IsComplete core.value.entries }
        ensures same { result ≡ core.value }
    {
        KeptCore {
            state: CoreState::Held(core),
        }
    }

    /// A whole core, or what remains of it if no handle is registered.
    fn kept(core: Box<Core>) -> KeptCore
        requires complete { IsComplete core.value.entries }
        ensures same { result ≡ core.value }
    {
        if core.handle_count() == 0 {
            KeptCore::left(core)
        } else {
            KeptCore::held(core)
        }
    }

    /// What remains of a core without a registered handle.
    fn left(core: Box<Core>) -> KeptCore
        requires none { length (present core.value).handles ≡ 0 }
        requires complete { IsComplete core.value.entries }
        ensures same { result ≡ core.value }
    {
        KeptCore {
            state: CoreState::Left(Box::into_inner(core).into_remains()),
        }
    }

    /// A placeholder for a core. It takes no memory.
    fn empty(alloc: Global) -> KeptCore
        ensures opened { result ≡ opened 0 0 0 0 }
    {
        KeptCore {
            state: CoreState::Left(Remains::empty(alloc)),
        }
    }

    /// The number of the next entry in its journal.
    pub(crate) fn next_entry(&self) -> u64
        ensures number { result ≡ number_behind self.now.entries }
    {
        match &self.state {
            CoreState::Held(core) => number_after(core.journal()),
            CoreState::Left(remains) => number_after(remains.journal()),
        }
    }

    /// Registers a free seat, besides the handles that are registered: the view of the answer.
    pub(crate) fn join(&mut self, alloc: Global, seat: u32) -> Result<View, NoMemory>
        requires held { IsHeld self.old }
        requires free { registered (present self.old).handles seat ≡ None }
        ensures view { IfOk result (λ view. view_in (answer_behind self.old seat (Event.Register false)) ≡ Some view) }
        ensures entered { OnOk result (self.new ≡ entered self.old seat (Event.Register false) (answer_behind self.old seat (Event.Register false))) }
    {
        match &mut self.state {
            CoreState::Held(core) => {
                let view = register(alloc, core, seat)?;
                Ok(view)
            }
            CoreState::Left(_) => unreachable!("a handle is registered"),
        }
    }

    /// The answer to an event of a registered handle, unless memory ran out.
    pub(crate) fn answer(
        &mut self,
        alloc: Global,
        seat: u32,
        event: Event,
    ) -> Result<Result<Effect, Refusal>, NoMemory>
        requires registered { IsRegistered (present self.old).handles seat }
        requires can_happen { CanHappen (present self.old) seat event }
        ensures answer { IfOk result (λ answer. answer ≡ answer_behind self.old seat event) }
        ensures entered { OnOk result (self.new ≡ entered self.old seat event (answer_behind self.old seat event)) }
    {
        match &mut self.state {
            CoreState::Held(core) => {
                let answer = answered(alloc, core, seat, event)?;
                Ok(answer)
            }
            CoreState::Left(_) => unreachable!("a handle is registered"),
        }
    }

    /// Removes a registered handle. If it was the last one, only what remains of the core is kept from then on.
    pub(crate) fn remove(&mut self, alloc: Global, seat: u32)
        requires registered { IsRegistered (present self.old).handles seat }
        ensures entered { self.new ≡ entered self.old seat Event.Remove (answer_behind self.old seat Event.Remove) }
    {
        let before = replace(self, KeptCore::empty(alloc));
        let after = before.without(alloc, seat);
        drop(replace(self, after));
    }

    /// The core without a registered handle.
    fn without(self, alloc: Global, seat: u32) -> KeptCore
        requires registered { IsRegistered (present self).handles seat }
        ensures entered { result ≡ entered self seat Event.Remove (answer_behind self seat Event.Remove) }
    {
        match self.state {
            CoreState::Held(core) => whole_without(alloc, core, seat),
            CoreState::Left(_) => unreachable!("a handle is registered"),
        }
    }

    /// Its journal, moved out when the core is no longer in use.
    pub(crate) fn into_journal(self) -> Journal
        ensures entries { entries_of result ≡ self.entries }
        ensures journal { IsJournal self }
    {
        match self.state {
            CoreState::Held(core) => journal_of_whole(core),
            CoreState::Left(remains) => journal_of_remains(remains),
        }
    }
}

/// Registers a free seat at a core: the view that this hands over.
pub(crate) fn register(alloc: Global, core: &mut Core, seat: u32) -> Result<View, NoMemory>
    requires free { registered (present core.old).handles seat ≡ None }
    ensures view { IfOk result (λ view. view_in (answer_behind core.old seat (Event.Register false)) ≡ Some view) }
    ensures entered { OnOk result (core.new ≡ entered core.old seat (Event.Register false) (answer_behind core.old seat (Event.Register false))) }
    ensures complete { IsComplete core.old.entries → IsComplete core.new.entries }
{
    match core.apply(alloc, seat, Event::Register { stable: false }) {
        Ok(Effect::Seen(view)) => Ok(view),
        Err(Refusal::NoMemory) => Err(NoMemory),
        // The answer to a registration is a view, and it is refused only for lack of memory.
        _ => unreachable!(),
    }
}

/// The answer of a core to an event, unless memory ran out.
fn answered(
    alloc: Global,
    core: &mut Core,
    seat: u32,
    event: Event,
) -> Result<Result<Effect, Refusal>, NoMemory>
    requires can_happen { CanHappen (present core.old) seat event }
    ensures answer { IfOk result (λ answer. answer ≡ answer_behind core.old seat event) }
    ensures entered { OnOk result (core.new ≡ entered core.old seat event (answer_behind core.old seat event)) }
    ensures complete { IsComplete core.old.entries → IsComplete core.new.entries }
{
    match core.apply(alloc, seat, event) {
        Ok(effect) => Ok(Ok(effect)),
        Err(Refusal::NoMemory) => Err(NoMemory),
        Err(refusal) => Ok(Err(refusal)),
    }
}

/// A whole core after a registered handle was removed.
fn whole_without(alloc: Global, mut core: Box<Core>, seat: u32) -> KeptCore
    requires registered { IsRegistered (present core.value).handles seat }
    requires complete { IsComplete core.value.entries }
    ensures entered { result ≡ entered core.value seat Event.Remove (answer_behind core.value seat Event.Remove) }
{
    remove(alloc, &mut core, seat);
    KeptCore::kept(core)
}

/// Removes a registered handle from a core.
fn remove(alloc: Global, core: &mut Core, seat: u32)
    requires registered { IsRegistered (present core.old).handles seat }
    ensures entered { core.new ≡ entered core.old seat Event.Remove (answer_behind core.old seat Event.Remove) }
    ensures complete { IsComplete core.old.entries → IsComplete core.new.entries }
{
    match core.apply(alloc, seat, Event::Remove) {
        Ok(effect) => drop(effect),
        // A removal is never refused.
        Err(_) => unreachable!(),
    }
}

/// The number of the entry after those of a journal.
fn number_after(journal: &Journal) -> u64
    ensures number { result ≡ number_behind (entries_of journal.now) }
{
    (journal.len() as u64).saturating_add(1)
}

fn journal_of_whole(core: Box<Core>) -> Journal
    requires complete { IsComplete core.value.entries }
    ensures entries { entries_of result ≡ core.value.entries }
    ensures journal { IsJournal core.value }
{
    Box::into_inner(core).into_journal()
}

fn journal_of_remains(remains: Remains) -> Journal
    requires complete { IsComplete remains.entries }
    ensures entries { entries_of result ≡ remains.entries }
    ensures journal { IsJournal remains }
{
    remains.into_journal()
}
