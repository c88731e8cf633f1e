//! A core with room for the entry of one more event, which leaves an entry also where it is refused for lack of memory.
ghost use Rattle.std.specs.Prelude.{◌≡◌, ℕ, IfErr, IfOk, OnErr};
ghost use Rattle.gix_odb_core.specs.Causes.{HasTooFewSlots, StandsAtLast};
ghost use Rattle.gix_odb_core.specs.History.{present};
ghost use Rattle.gix_odb_core.specs.Replay.{Appends, CanHappen, IsNeverRefused};
ghost use Rattle.gix_odb_core.specs.Steps.{after};

use crate::apply::{Core, Opening};
use crate::state::State;
use gix_odb_events::{Effect, Event, Refusal};
use std::alloc::Global;
use std::marker::Model;

/// A core with room for the entry of one more event, which contracts see as the core's history.
///
/// The room is made before the event, so the event leaves an entry even if memory runs out.
#[derive(Drop)]
pub struct ReadyCore {
    opening: Opening,
    state: State,
}

impl Model for ReadyCore {
    ghost use Rattle.gix_odb_core.specs.History.{History};

    ghost Value = { History };

    ghost use Rattle.gix_odb_core.specs.Ready.{IsReady, history_ready};

    ghost view = { history_ready };

    ghost invariant = { IsReady };
}

impl Core {
    /// Makes room for the entry of one more event. Without memory for it no event is begun: the core is returned as it was.
    pub fn with_room(self) -> Result<ReadyCore, Core>
        ensures ready { IfOk result (λ ready. ready ≡ self) }
        ensures kept { IfErr result (λ core. core ≡ self) }
    {
        let Core { opening, mut state } = self;
        match state.make_room_for_one() {
            Ok(()) => {
                let ready = ReadyCore { opening, state };
                Ok(ready)
            }
            Err(_) => {
                let core = Core { opening, state };
                Err(core)
            }
        }
    }
}

impl ReadyCore {
    /// Journals an event that is refused for lack of memory: a removal never is. It takes no memory, and changes nothing else.
    pub fn refuse(self, seat: u32, event: Event) -> Core
        requires can_happen { CanHappen (present self) seat event }
        requires stays { ¬ (event ≡ Event.Remove) }
        ensures opening { result.opening ≡ self.opening }
        ensures appended { Appends self.opening self.entries result.entries seat event (Err Refusal.NoMemory) }
        ensures unchanged { present result ≡ present self }
    {
        let ReadyCore { opening, mut state } = self;
        state.refuse(seat, event);
        Core { opening, state }
    }

    /// Applies an event of a handle: the core after it, and its answer. It leaves an entry also if memory runs out, and
    /// changes nothing else then.
    pub fn apply(self, alloc: Global, seat: u32, event: Event) -> (Core, Result<Effect, Refusal>)
        requires can_happen { CanHappen (present self) seat event }
        ensures opening { result.0.opening ≡ self.opening }
        ensures appended { Appends self.opening self.entries result.0.entries seat event result.1 }
        ensures replayed { ¬ (result.1 ≡ Err Refusal.NoMemory) → present result.0 ≡ after (present self) seat event }
        ensures refused { OnErr result.1 (present result.0 ≡ present self) }
        ensures never_refused { IsNeverRefused event result.1 }

        // Why it is refused.
        ensures too_few { (current needed : ℕ) → result.1 ≡ Err (Refusal.InsufficientSlots current needed) → HasTooFewSlots (present self) event current needed }
        ensures at_last { result.1 ≡ Err Refusal.GenerationOverflow → StandsAtLast (present self) event }
    {
        let ReadyCore { opening, mut state } = self;
        let answer = state.enter(alloc, seat, event);
        let core = Core { opening, state };
        (core, answer)
    }
}
