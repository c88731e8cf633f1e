//! The core of a store: its state, and the journal of what happened to it; and what remains of a core when it is no
//! longer in use.
use crate::journal::Journal;
use crate::state::State;
use gix_hash::Steps;
use gix_odb_events::{Effect, Event, Metrics, Refusal, View};
use odb_base::{NoMemory, PathText};
use std::alloc::Global;
use std::marker::Model;
use std::sync::ledger::Ledger;

/// How a core was made.
#[derive(Clone, Copy)]
pub(crate) struct Opening {
    slots: u16,
    folders: usize,
    generation: u32,
    state: u64,
}

/// The core of a store, which contracts see as its history: the shape that it was made with, and the entries of its journal.
///
/// It reads no disk and never waits. Its present shape is what the journal replays to.
#[derive(Drop)]
pub struct Core {
    pub(crate) opening: Opening,
    pub(crate) state: State,
}

impl Model for Core {
    ghost use Rattle.gix_odb_core.specs.History.{History};

    ghost Value = { History };

    ghost use Rattle.gix_odb_core.specs.Core.{IsCore, history_of};

    ghost view = { history_of };

    ghost invariant = { IsCore };
}

impl Core {
    ghost use Rattle.std.specs.Prelude.{◌≡◌, ℕ, ◌≤◌, ◌⊎◌, IfOk, OnErr, length};
    ghost use Rattle.gix_odb_core.specs.Causes.{HasTooFewSlots, StandsAtLast};
    ghost use Rattle.gix_odb_core.specs.Handles.{registered};
    ghost use Rattle.gix_odb_core.specs.History.{opened, present};
    ghost use Rattle.gix_odb_core.specs.Journal.{entries_of};
    ghost use Rattle.gix_odb_core.specs.Metrics.{metrics_of};
    ghost use Rattle.gix_odb_core.specs.Possible.{IsComplete, IsOpened, IsPossible};
    ghost use Rattle.gix_odb_core.specs.Replay.{Appends, CanHappen, IsLegal, IsNeverRefused, answer_of, number_behind, refreshes_in};
    ghost use Rattle.gix_odb_core.specs.SlotTable.{filled_count, slot_of};
    ghost use Rattle.gix_odb_core.specs.State.{newest};
    ghost use Rattle.gix_hash.specs.Steps.{IsSearch};
    ghost use Rattle.gix_odb_core.specs.Steps.{IsShape, after};
    ghost use Rattle.gix_odb_core.specs.Views.{view_of};
    ghost use Rattle.gix_odb_events.specs.PackId.{most_slots};

    /// A core with `slots` empty slots, of a store with `folders` objects directories.
    pub fn new(alloc: Global, slots: u16, folders: usize) -> Result<Core, NoMemory>
        requires few { slots ≤ most_slots }
        ensures opened { IfOk result (λ core. core ≡ opened slots folders 0 0) }
    {
        Core::at_counts(alloc, slots, folders, 0, 0)
    }

    /// A core whose generation and state number start at given values.
    pub fn at_counts(
        alloc: Global,
        slots: u16,
        folders: usize,
        generation: u32,
        state: u64,
    ) -> Result<Core, NoMemory>
        requires few { slots ≤ most_slots }
        ensures opened { IfOk result (λ core. core ≡ opened slots folders generation state) }
    {
        let opening = Opening {
            slots,
            folders,
            generation,
            state,
        };
        Ok(Core {
            opening,
            state: State::opening(alloc, slots, folders, generation, state)?,
        })
    }

    /// Applies an event of a handle, and returns its answer.
    pub fn apply(&mut self, alloc: Global, seat: u32, event: Event) -> Result<Effect, Refusal>
        requires can_happen { CanHappen (present self.old) seat event }
        ensures opening { self.new.opening ≡ self.old.opening }
        ensures answer { (result ≡ Err Refusal.NoMemory) ⊎ (result ≡ answer_of self.old.entries (present self.old) (number_behind self.old.entries) seat event) }
        ensures replayed { ¬ (result ≡ Err Refusal.NoMemory) → present self.new ≡ after (present self.old) seat event }
        ensures appended { ¬ (result ≡ Err Refusal.NoMemory) → Appends self.old.opening self.old.entries self.new.entries seat event result }

        // A refused event leaves slots, list, counters and handles unchanged; `NoMemory` leaves the journal too, so no entry
        // reports it.
        ensures refused { OnErr result (present self.new ≡ present self.old) }
        ensures memory { result ≡ Err Refusal.NoMemory → self.new ≡ self.old }
        ensures complete { IsComplete self.old.entries → IsComplete self.new.entries }
        ensures never_refused { IsNeverRefused event result }

        // Why it is refused.
        ensures too_few { (current needed : ℕ) → result ≡ Err (Refusal.InsufficientSlots current needed) → HasTooFewSlots (present self.old) event current needed }
        ensures at_last { result ≡ Err Refusal.GenerationOverflow → StandsAtLast (present self.old) event }
    {
        self.state.apply(alloc, seat, event)
    }

    /// The slot that holds the index of a path, if one does: as a pack index where no time is given, and else as the
    /// multi-pack index of that time. Each comparison of two paths with their times counts as one step.
    pub fn slot_of_counted<L: Ledger>(
        &self,
        path: &PathText,
        time: Option<u64>,
        steps: &mut Steps<L>,
    ) -> Option<u16>
        ensures slot { result ≡ slot_of path.now time (present self.now).slots }
        ensures steps { IsSearch (filled_count (present self.now).slots) steps.old steps.new }
    {
        self.state.shape.slots.slot_of_counted(path, time, steps)
    }

    /// The slot that holds the index of a path, if one does, without a count of steps.
    pub fn slot_of(&self, path: &PathText, time: Option<u64>) -> Option<u16>
        ensures slot { result ≡ slot_of path.now time (present self.now).slots }
    {
        self.state.shape.slots.slot_of(path, time)
    }

    /// The view of its present shape, with the number of the newest entry.
    pub fn look(&self) -> &View
        ensures view { result.now ≡ view_of (present self.now) (newest self.now.entries) }
        ensures shape { IsShape (present self.now) }
        ensures few { length (present self.now).slots ≤ most_slots }
    {
        &self.state.view
    }

    /// What happened to it. It is legal, and each event could happen when it came.
    pub fn journal(&self) -> &Journal
        ensures entries { entries_of result.now ≡ self.now.entries }
        ensures legal { IsLegal self.now.opening self.now.entries }
        ensures opened { IsOpened self.now.opening }
        ensures possible { IsPossible self.now.opening self.now.entries }
    {
        &self.state.journal
    }

    /// Its journal, moved out of a core that is no longer in use.
    pub fn into_journal(self) -> Journal
        ensures entries { entries_of result ≡ self.entries }
        ensures legal { IsLegal self.opening self.entries }
        ensures opened { IsOpened self.opening }
        ensures possible { IsPossible self.opening self.entries }
    {
        let Core { opening: _, state } = self;
        state.into_journal()
    }

    /// What remains of it when it is no longer in use. It takes no memory.
    pub fn into_remains(self) -> Remains
        ensures same { result ≡ self }
    {
        let Core { opening, state } = self;
        let State {
            shape,
            view,
            passed,
            refreshes: _,
            journal,
        } = state;
        drop(shape);
        drop(view);
        drop(passed);
        Remains { opening, journal }
    }

    /// How many handles are registered.
    pub fn handle_count(&self) -> usize
        ensures count { result ≡ length (present self.now).handles }
    {
        self.state.shape.handles.len()
    }

    /// Whether the handle of a seat is stable, if one is registered.
    pub fn handle(&self, seat: u32) -> Option<bool>
        ensures handle { result ≡ registered (present self.now).handles seat }
    {
        self.state.shape.handles.get(seat)
    }

    /// Its counts.
    pub fn metrics(&self) -> Metrics
        ensures metrics { result ≡ metrics_of (present self.now) (refreshes_in self.now.entries) }
    {
        self.state.shape.metrics(self.state.refreshes)
    }
}

/// What remains of a core that is no longer in use: what it was made with, and its journal. Contracts see it as the
/// history that the core was seen as.
///
/// Apart from the journal, it takes a tenth of a core's memory: no slots, no view and no handles.
#[derive(Drop)]
pub struct Remains {
    opening: Opening,
    journal: Journal,
}

impl Model for Remains {
    ghost use Rattle.gix_odb_core.specs.History.{History};

    ghost Value = { History };

    ghost use Rattle.gix_odb_core.specs.Remains.{IsRemains, history_left};

    ghost view = { history_left };

    ghost invariant = { IsRemains };
}

impl Remains {
    ghost use Rattle.std.specs.Prelude.{◌≡◌};
    ghost use Rattle.gix_odb_core.specs.History.{opened};
    ghost use Rattle.gix_odb_core.specs.Journal.{entries_of};
    ghost use Rattle.gix_odb_core.specs.Possible.{IsOpened, IsPossible};
    ghost use Rattle.gix_odb_core.specs.Replay.{IsLegal};

    /// What remains of a core without slots and folders, to which nothing happened. It takes no memory.
    pub fn empty(alloc: Global) -> Remains
        ensures opened { result ≡ opened 0 0 0 0 }
    {
        Remains {
            opening: Opening {
                slots: 0,
                folders: 0,
                generation: 0,
                state: 0,
            },
            journal: Journal::new(alloc),
        }
    }

    /// What happened to the core.
    pub fn journal(&self) -> &Journal
        ensures entries { entries_of result.now ≡ self.now.entries }
    {
        &self.journal
    }

    /// The journal, moved out. It is legal, and each event could happen when it came.
    pub fn into_journal(self) -> Journal
        ensures entries { entries_of result ≡ self.entries }
        ensures legal { IsLegal self.opening self.entries }
        ensures opened { IsOpened self.opening }
        ensures possible { IsPossible self.opening self.entries }
    {
        let Remains {
            opening: _,
            journal,
        } = self;
        journal
    }
}
