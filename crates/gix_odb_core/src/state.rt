//! The present state of a core, beside its journal.
ghost use Rattle.std.specs.Prelude.{◌≡◌, ◌+◌, ◌<◌, ◌≤◌, ◌++◌, ◌∷◌, [], IfOk, OnOk, OnErr, length, if◌then◌else◌};
ghost use Rattle.gix_odb_core.specs.Countable.{LeavesFewPacks};
ghost use Rattle.gix_odb_core.specs.Handles.{IsRegistered};
ghost use Rattle.gix_odb_core.specs.Replay.{CanHappen, IsNeverRefused, is_refresh, number_behind, report_of};
ghost use Rattle.gix_odb_core.specs.Steps.{opening_shape};
ghost use Rattle.gix_odb_core.specs.State.{HasRoom, IsKept, IsNextState, IsPlan, IsRefusedState, IsRoomFor, IsSameState, entered, entries_for, entries_in, entry_of, noted, removed, settled_with};
ghost use Rattle.gix_odb_core.specs.Turn.{turn_of};
ghost use Rattle.gix_odb_events.specs.PackId.{most_slots};

use crate::Shared;
use crate::journal::{Entry, Journal};
use crate::plan::{Plan, planned};
use crate::report::report_listed;
use crate::shape::{Shape, Shelf};
use crate::turn::{Told, Turn};
use gix_odb_events::{Effect, Event, PassWhy, Passed, PassedList, Refusal, Report, View};
use odb_base::{NoMemory, PathText};
use std::alloc::Global;

/// The present state of a core, beside its journal.
#[derive(Drop)]
pub struct State {
    pub(crate) shape: Shape,
    /// The view of the shape, with the number of the newest entry.
    pub(crate) view: View,
    /// The files that were passed over.
    pub(crate) passed: PassedList,
    /// How many listings were published or confirmed the list.
    pub(crate) refreshes: usize,
    pub(crate) journal: Journal,
}

/// Records that a file was passed over. If memory runs out, the list is unchanged.
fn note_passed(
    alloc: Global,
    passed: &mut PassedList,
    path: &PathText,
    why: PassWhy,
) -> Result<(), NoMemory>
    ensures noted { OnOk result (passed.new ≡ passed.old ++ (record { path = path.now; why = why }) ∷ []) }
    ensures kept { OnErr result (passed.new ≡ passed.old) }
{
    let path = Shared::new(alloc, path.try_clone(alloc)?)?;
    let file = Shared::new(alloc, Passed { path, why })?;
    *passed = passed.with_next(alloc, file)?;
    Ok(())
}

/// One if an answer published a listing or confirmed the list, else zero.
fn refreshes_in(answer: &Result<Effect, Refusal>) -> usize
    ensures refreshes { result ≡ (if is_refresh answer.now then 1 else 0) }
{
    match answer {
        Ok(Effect::Published(_)) | Ok(Effect::Unchanged(_)) => 1,
        _ => 0,
    }
}

impl State {
    /// Its journal, moved out.
    pub(crate) fn into_journal(self) -> Journal
        ensures journal { result ≡ self.journal }
    {
        let State {
            shape,
            view,
            passed,
            refreshes: _,
            journal,
        } = self;
        drop(shape);
        drop(view);
        drop(passed);
        journal
    }

    /// The state of a new core, with an empty journal.
    pub(crate) fn opening(
        alloc: Global,
        slots: u16,
        folders: usize,
        generation: u32,
        state_id: u64,
    ) -> Result<State, NoMemory>
        requires few { slots ≤ most_slots }
        ensures shape { IfOk result (λ state. state.shape ≡ opening_shape slots folders generation state_id) }
        ensures entries { IfOk result (λ state. state.journal.entries ≡ []) }
        ensures kept { IfOk result IsKept }
    {
        let shelf = Shelf::opening(slots, generation, state_id);
        let view = shelf.view(alloc, 0)?;
        Ok(State {
            shape: Shape::without_handles(alloc, folders, shelf),
            view,
            passed: PassedList::empty(),
            refreshes: 0,
            journal: Journal::new(alloc),
        })
    }

    /// The report of a core on itself.
    fn report(&self, alloc: Global) -> Result<Shared<Report>, NoMemory>
        requires kept { IsKept self.now }
        ensures report { IfOk result (λ report. report ≡ report_of self.now.shape self.now.journal.entries) }
    {
        let list = self.shape.list.as_slice();
        let listed = report_listed(alloc, self.shape.slots.list(), list)?;
        let passed_over = self.passed.try_clone()?;
        let report = Report {
            metrics: self.shape.metrics(self.refreshes),
            listed,
            passed_over,
        };
        Ok(Shared::new(alloc, report)?)
    }

    /// The turn of an event.
    fn turn(&self, alloc: Global, event: &Event) -> Result<Turn, NoMemory>
        requires kept { IsKept self.now }
        ensures turn { IfOk result (λ turn. turn ≡ turn_of self.now.journal.entries self.now.shape event.now) }
        ensures few_packs { IfOk result (λ turn. LeavesFewPacks event.now turn.shelf) }
    {
        match event {
            Event::Register { .. } | Event::Upgrade | Event::Look => Ok(Turn::quiet(Told::Seen)),
            Event::Remove => Ok(Turn::quiet(Told::Removed)),
            Event::Report => Ok(Turn::quiet(Told::Reported(self.report(alloc)?))),
            Event::PutIndex { slot, path, file } => {
                self.shape.put_index(alloc, *slot as usize, path, file)
            }
            Event::PutPack { pack, path, file } => {
                self.shape.put_pack(alloc, pack.index, path, file)
            }
            Event::PassOver { slot, path, .. } => self.shape.pass_over(alloc, *slot as usize, path),
            Event::Publish(listing) => self.shape.publish(alloc, listing),
        }
    }

    /// The number of the next entry, which stays at its greatest value.
    pub(crate) fn next_number(&self) -> u64
        ensures number { result ≡ number_behind self.now.journal.entries }
    {
        (self.journal.len() as u64).saturating_add(1)
    }

    /// Makes room for the event's entry, and for one more for each handle registered after it.
    fn make_room(&mut self, event: &Event) -> Result<(), NoMemory>
        ensures same { self.new ≡ entered self.old self.new.journal }
        ensures entries { self.new.journal.entries ≡ self.old.journal.entries }
        ensures grows { self.old.journal.room ≤ self.new.journal.room }
        ensures room { OnOk result (IsRoomFor event.now (length self.old.shape.handles) self.new.journal) }
    {
        let handles = self.shape.handles.len();
        let room = match event {
            Event::Register { .. } => handles + 2,
            _ => handles + 1,
        };
        self.journal.make_room(room)
    }

    /// Makes room for one entry more than those that remove the registered handles. If memory runs out, only spare room
    /// changes.
    pub(crate) fn make_room_for_one(&mut self) -> Result<(), NoMemory>
        requires kept { IsKept self.old }
        ensures same { IsSameState self.old self.new }
        ensures room { OnOk result (HasRoom self.new) }
    {
        let handles = self.shape.handles.len();
        self.journal.make_room(handles + 1)
    }

    /// Records an event's effects on the handles and on files passed over. If memory runs out, nothing changes.
    fn note(&mut self, alloc: Global, seat: u32, event: &Event) -> Result<(), NoMemory>
        requires stays { ¬ (event.now ≡ Event.Remove) }
        requires can_happen { CanHappen self.old.shape seat event.now }
        ensures noted { OnOk result (self.new ≡ noted self.old seat event.now) }
        ensures handles { OnOk result (length self.new.shape.handles + 1 ≤ length self.old.shape.handles + entries_for event.now) }
        ensures kept { OnErr result (self.new ≡ self.old) }
    {
        match event {
            Event::Register { stable } => self.shape.handles.set(seat, *stable),
            Event::Upgrade => self.shape.handles.set(seat, true),
            Event::PassOver { path, why, .. } => {
                note_passed(alloc, &mut self.passed, path, *why)
            }
            _ => Ok(()),
        }
    }

    /// The plan of an event.
    fn plan(&self, alloc: Global, event: &Event) -> Result<Plan, NoMemory>
        requires kept { IsKept self.now }
        ensures plan { IfOk result (λ plan. IsPlan self.now.view (turn_of self.now.journal.entries self.now.shape event.now) (number_behind self.now.journal.entries) plan) }
        ensures few_packs { IfOk result (λ plan. LeavesFewPacks event.now plan.shelf) }
    {
        let turn = self.turn(alloc, event)?;
        planned(alloc, &self.view, turn, self.next_number())
    }

    /// Records those other effects of an event, and returns its plan. If memory runs out, nothing changes.
    fn note_with(
        &mut self,
        alloc: Global,
        seat: u32,
        event: &Event,
        plan: Plan,
    ) -> Result<Plan, NoMemory>
        requires stays { ¬ (event.now ≡ Event.Remove) }
        requires can_happen { CanHappen self.old.shape seat event.now }
        ensures plan { IfOk result (λ given. given ≡ plan) }
        ensures noted { OnOk result (self.new ≡ noted self.old seat event.now) }
        ensures handles { OnOk result (length self.new.shape.handles + 1 ≤ length self.old.shape.handles + entries_for event.now) }
        ensures kept { OnErr result (self.new ≡ self.old) }
    {
        match self.note(alloc, seat, event) {
            Ok(()) => Ok(plan),
            Err(lack) => {
                drop(plan);
                Err(lack)
            }
        }
    }

    /// Plans an event, makes room for it, and records its other effects. If memory runs out, only spare room changes.
    fn prepare(&mut self, alloc: Global, seat: u32, event: &Event) -> Result<Plan, NoMemory>
        requires kept { IsKept self.old }
        requires stays { ¬ (event.now ≡ Event.Remove) }
        requires can_happen { CanHappen self.old.shape seat event.now }
        ensures plan { IfOk result (λ plan. IsPlan self.old.view (turn_of self.old.journal.entries self.old.shape event.now) (number_behind self.old.journal.entries) plan) }
        ensures few_packs { IfOk result (λ plan. LeavesFewPacks event.now plan.shelf) }
        ensures noted { OnOk result (self.new ≡ entered (noted self.old seat event.now) self.new.journal) }
        ensures kept { OnErr result (self.new ≡ entered self.old self.new.journal) }
        ensures entries { self.new.journal.entries ≡ self.old.journal.entries }
        ensures grows { self.old.journal.room ≤ self.new.journal.room }
        ensures room { OnOk result (IsRoomFor event.now (length self.old.shape.handles) self.new.journal) }
        ensures handles { OnOk result (length self.new.shape.handles + 1 ≤ length self.old.shape.handles + entries_for event.now) }
    {
        self.make_room(event)?;
        let plan = self.plan(alloc, event)?;
        self.note_with(alloc, seat, event, plan)
    }

    /// Takes over what an event leaves, and journals it.
    fn settle(&mut self, seat: u32, event: Event, plan: Plan) -> Result<Effect, Refusal>
        requires room { 0 < self.old.journal.room }
        requires counted { self.old.refreshes ≤ length (entries_in self.old) }
        ensures settled { self.new ≡ entered (settled_with self.old plan) self.new.journal }
        ensures entries { entries_in self.new ≡ entries_in self.old ++ entry_of (entries_in self.old) seat event plan.kept ∷ [] }
        ensures room { self.new.journal.room + 1 ≡ self.old.journal.room }
        ensures answer { result ≡ plan.given }
    {
        let Plan {
            shelf,
            view,
            kept,
            given,
        } = plan;
        let number = self.next_number();
        self.shape.settle_by(shelf);
        self.view = view;
        let refreshes = refreshes_in(&kept);
        self.journal.push(Entry {
            number,
            seat,
            event,
            answer: kept,
        });
        self.refreshes += refreshes;
        given
    }

    /// Removes a handle, and journals it. There has been room for this entry since the handle was registered.
    fn remove(&mut self, seat: u32) -> Result<Effect, Refusal>
        requires room { 0 < self.old.journal.room }
        requires registered { IsRegistered self.old.shape.handles seat }
        ensures handles { length self.new.shape.handles + 1 ≡ length self.old.shape.handles }
        ensures removed { self.new ≡ entered (removed self.old seat) self.new.journal }
        ensures entries { entries_in self.new ≡ entries_in self.old ++ entry_of (entries_in self.old) seat Event.Remove (Ok Effect.Removed) ∷ [] }
        ensures room { self.new.journal.room + 1 ≡ self.old.journal.room }
        ensures answer { result ≡ Ok Effect.Removed }
    {
        let number = self.next_number();
        self.shape.handles.remove(seat);
        self.view.snapshot.entry = number;
        self.journal.push(Entry {
            number,
            seat,
            event: Event::Remove,
            answer: Ok(Effect::Removed),
        });
        Ok(Effect::Removed)
    }

    /// Journals an event that is refused for lack of memory. There is room for its entry.
    pub(crate) fn refuse(&mut self, seat: u32, event: Event)
        requires kept { IsKept self.old }
        requires room { HasRoom self.old }
        ensures refused { IsRefusedState self.old seat event self.new }
    {
        let number = self.next_number();
        self.view.snapshot.entry = number;
        self.journal.push(Entry {
            number,
            seat,
            event,
            answer: Err(Refusal::NoMemory),
        });
    }

    /// Applies an event that is no removal.
    fn take_in(&mut self, alloc: Global, seat: u32, event: Event) -> Result<Effect, Refusal>
        requires kept { IsKept self.old }
        requires stays { ¬ (event ≡ Event.Remove) }
        requires can_happen { CanHappen self.old.shape seat event }
        ensures memory { result ≡ Err Refusal.NoMemory → IsSameState self.old self.new }
        ensures next { ¬ (result ≡ Err Refusal.NoMemory) → IsNextState self.old seat event result self.new }
    {
        let plan = self.prepare(alloc, seat, &event)?;
        self.settle(seat, event, plan)
    }

    /// Applies an event: its answer, what it leaves, and its entry.
    pub(crate) fn apply(
        &mut self,
        alloc: Global,
        seat: u32,
        event: Event,
    ) -> Result<Effect, Refusal>
        requires kept { IsKept self.old }
        requires can_happen { CanHappen self.old.shape seat event }
        ensures memory { result ≡ Err Refusal.NoMemory → IsSameState self.old self.new }
        ensures next { ¬ (result ≡ Err Refusal.NoMemory) → IsNextState self.old seat event result self.new }
        ensures never_refused { IsNeverRefused event result }
    {
        if let Event::Remove = event {
            return self.remove(seat);
        }
        self.take_in(alloc, seat, event)
    }

    /// Applies an event for whose entry there is room: it leaves one also if memory runs out.
    pub(crate) fn enter(
        &mut self,
        alloc: Global,
        seat: u32,
        event: Event,
    ) -> Result<Effect, Refusal>
        requires kept { IsKept self.old }
        requires room { HasRoom self.old }
        requires can_happen { CanHappen self.old.shape seat event }
        ensures refused { result ≡ Err Refusal.NoMemory → IsRefusedState self.old seat event self.new }
        ensures next { ¬ (result ≡ Err Refusal.NoMemory) → IsNextState self.old seat event result self.new }
        ensures never_refused { IsNeverRefused event result }
    {
        if let Event::Remove = event {
            return self.remove(seat);
        }
        self.enter_other(alloc, seat, event)
    }

    /// Applies an event that is no removal, and for whose entry there is room.
    fn enter_other(&mut self, alloc: Global, seat: u32, event: Event) -> Result<Effect, Refusal>
        requires kept { IsKept self.old }
        requires room { HasRoom self.old }
        requires stays { ¬ (event ≡ Event.Remove) }
        requires can_happen { CanHappen self.old.shape seat event }
        ensures refused { result ≡ Err Refusal.NoMemory → IsRefusedState self.old seat event self.new }
        ensures next { ¬ (result ≡ Err Refusal.NoMemory) → IsNextState self.old seat event result self.new }
    {
        match self.prepare(alloc, seat, &event) {
            Ok(plan) => self.settle(seat, event, plan),
            Err(_) => {
                self.refuse(seat, event);
                Err(Refusal::NoMemory)
            }
        }
    }
}
