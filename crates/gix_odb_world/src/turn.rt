//! A turn of a handle: it carries out the one thing that its work asks for, of the disk or of the cores, and feeds the work
//! the answer; where the work is done, the handle rests or is gone.
ghost use Rattle.std.specs.Prelude.{◌≡◌, ◌<◌, ◌≤◌, [], length, IfOk, IsSome, OnOk, None, Some, true};
ghost use Rattle.std.specs.Option.{option_map};
ghost use Rattle.odb_disk.specs.Ask.{after_ask, answer_now};
ghost use Rattle.gix_odb.specs.CallOrder as calls;
ghost use Rattle.gix_odb.specs.OpenOrder as openings;
ghost use Rattle.gix_odb.specs.OpenState.{opened_handle};
ghost use Rattle.gix_odb.specs.declared.open_state.OpenStage.TheVariants as opens;
ghost use Rattle.gix_odb_core.specs.History.{present};
ghost use Rattle.gix_odb_core.specs.Replay.{CanHappen, number_behind};
ghost use Rattle.gix_odb_events.specs.PackId.{most_slots};
ghost use Rattle.gix_odb_events.specs.declared.answer.Answer.TheVariants as told;
ghost use Rattle.gix_odb_history.specs.Cores.{answer_behind, cores_after_asked, history_at, registered_at};
ghost use Rattle.gix_odb_history.specs.Event.{OfCore};
ghost use Rattle.gix_odb_history.specs.Made.{first_answer};
ghost use Rattle.gix_odb_history.specs.Run.{stand, told_now};
ghost use Rattle.gix_odb_world.specs.Handle.{opening_parts, parts_of, seen};
ghost use Rattle.gix_odb_world.specs.Headline.{outcome_of};
ghost use Rattle.gix_odb_world.specs.Status.{after_reply, refuses_opening};
ghost use Rattle.gix_odb_world.specs.Table as tables;
ghost use Rattle.gix_odb_world.specs.Table.{CanHappenAt, CarriesOut, IsToldTo, IsTurned, IsUnderWay, TurnsHandle, after_turn, ask_by_handle, did_now, new_core, opened_by};
ghost use Rattle.gix_odb_world.specs.Work.{Calling, Opening};
ghost use Rattle.gix_odb_world.specs.WorkOrder.{result_in};

use crate::handle::{BoxedHandle, Handle, HandleAt};
use gix_odb::{CallState, HandleState, OpenState};
use gix_odb_calls::{CallError, Outcome, Reply};
use gix_odb_events::{Answer, Ask, Event, View};
use gix_odb_history::cores::{EventDone, added, applied};
use gix_odb_history::{Did, KeptCore};
use odb_base::{NoMemory, Shared};
use odb_disk::{DiskAnswer, DiskAsk};
use odb_mem_disk::{MemDisk, PathText};
use std::alloc::Global;

/// What a turn did, and what its handle is fed for it.
#[derive(Drop)]
pub struct Carried {
    pub did: Did,
    pub told: Told,
}

/// What a handle is fed in a turn.
#[derive(Drop)]
pub enum Told {
    /// Nothing, since its work asked for nothing.
    Nothing,
    /// The answer of the disk, or of the core of its store.
    Answer(Answer),
    /// A core was made for its store, with so many slots; it has this number and passed this view to the handle.
    Core {
        number: usize,
        slots: u16,
        view: View,
    },
}

/// The result of a turn: its outcome, and its handle after it, if it is not gone.
#[derive(Drop)]
pub struct Turned {
    pub outcome: Outcome,
    pub handle: Option<BoxedHandle>,
}

// ---- carrying out

/// Carries out the one thing that the work of a handle asked for, of the disk or of the cores. The handle has a seat there.
pub fn carried_out(
    alloc: Global,
    disk: &mut MemDisk,
    cores: &mut Vec<KeptCore>,
    seat: u32,
    handle: &BoxedHandle,
    ask: Option<Ask>,
) -> Result<Carried, NoMemory>
    requires can_happen { CanHappenAt cores.old.items seat (seen handle.now).state ask }
    ensures carried { IfOk result (CarriesOut disk.old disk.new cores.old.items cores.new.items (opened_by (seen handle.now).work) ask (told_now (stand cores.old.items (seen handle.now).state.core seat) disk.old ask)) }
{
    carried_out_for(alloc, disk, cores, seat, handle.get(), ask)
}

/// Carries out what the work of a handle asked for.
fn carried_out_for(
    alloc: Global,
    disk: &mut MemDisk,
    cores: &mut Vec<KeptCore>,
    seat: u32,
    handle: &Handle,
    ask: Option<Ask>,
) -> Result<Carried, NoMemory>
    requires can_happen { CanHappenAt cores.old.items seat (seen handle.now).state ask }
    ensures carried { IfOk result (CarriesOut disk.old disk.new cores.old.items cores.new.items (opened_by (seen handle.now).work) ask (told_now (stand cores.old.items (seen handle.now).state.core seat) disk.old ask)) }
{
    match ask {
        None => Ok(Carried {
            did: Did::Nothing,
            told: Told::Nothing,
        }),
        Some(Ask::Disk(ask)) => on_disk(alloc, disk, handle.opened(), &ask),
        Some(Ask::Core(event)) => at_own_core(alloc, cores, handle.core, seat, event),
        Some(Ask::NewCore { slots, folders }) => at_new_core(alloc, cores, slots, folders, seat),
    }
}

/// Makes a call of the disk.
fn on_disk(
    alloc: Global,
    disk: &mut MemDisk,
    opened: Option<&PathText>,
    ask: &DiskAsk,
) -> Result<Carried, NoMemory>
    ensures did { IfOk result (λ carried. carried.did ≡ did_now (option_map (λ path. path.now) opened.entry) disk.old ask.now) }
    ensures told { IfOk result (λ carried. carried.told ≡ Told.Answer (told.Disk (answer_now disk.old ask.now))) }
    ensures left { OnOk result (disk.new ≡ after_ask disk.old ask.now) }
{
    let (did, answer) = answered(alloc, disk, opened, ask)?;
    Ok(Carried {
        did,
        told: Told::Answer(Answer::Disk(answer)),
    })
}

/// Makes a call of the disk, and returns what it did with the answer.
fn answered(
    alloc: Global,
    disk: &mut MemDisk,
    opened: Option<&PathText>,
    ask: &DiskAsk,
) -> Result<(Did, DiskAnswer), NoMemory>
    ensures did { IfOk result (λ answered. answered.0 ≡ did_now (option_map (λ path. path.now) opened.entry) disk.old ask.now) }
    ensures answer { IfOk result (λ answered. answered.1 ≡ answer_now disk.old ask.now) }
    ensures left { OnOk result (disk.new ≡ after_ask disk.old ask.now) }
{
    let answer = disk.carry_out(alloc, ask)?;
    let did = Did::of(alloc, opened, ask, &answer)?;
    Ok((did, answer))
}

/// Makes an event of the core that has a number, at which the seat is registered.
fn at_own_core(
    alloc: Global,
    cores: &mut Vec<KeptCore>,
    core: usize,
    seat: u32,
    event: Event,
) -> Result<Carried, NoMemory>
    requires there { core < length cores.old.items }
    requires registered { IsSome (registered_at cores.old.items core seat) }
    requires can_happen { CanHappen (present (history_at cores.old.items core)) seat event }
    ensures did { IfOk result (λ carried. carried.did ≡ Did.Core core (number_behind (history_at cores.old.items core).entries)) }
    ensures told { IfOk result (λ carried. carried.told ≡ Told.Answer (told.Core (answer_behind (history_at cores.old.items core) seat event))) }
    ensures cores { OnOk result (cores.new.items ≡ cores_after_asked cores.old.items (OfCore core seat event (answer_behind (history_at cores.old.items core) seat event))) }
{
    let EventDone { did, answer } = applied(alloc, cores, core, seat, event)?;
    Ok(Carried {
        did,
        told: Told::Answer(Answer::Core(answer)),
    })
}

/// Makes a core, at which the seat is registered.
fn at_new_core(
    alloc: Global,
    cores: &mut Vec<KeptCore>,
    slots: u16,
    folders: usize,
    seat: u32,
) -> Result<Carried, NoMemory>
    requires few { slots ≤ most_slots }
    ensures did { IfOk result (λ carried. carried.did ≡ Did.Core (length cores.old.items) (number_behind [])) }
    ensures told { IfOk result (λ carried. tables.TellsCore (length cores.old.items) slots (first_answer slots folders seat) carried.told) }
    ensures cores { OnOk result (cores.new.items ≡ cores_after_asked cores.old.items (new_core cores.old.items slots folders seat)) }
{
    let number = cores.len();
    let (did, view) = added(alloc, cores, slots, folders, seat)?;
    Ok(Carried {
        did,
        told: Told::Core {
            number,
            slots,
            view,
        },
    })
}

// ---- feeding the handle

/// Returns the result of a turn in which a handle is fed this.
pub fn fed(alloc: Global, handle: BoxedHandle, told: Told) -> Result<Turned, NoMemory>
    requires under_way { IsUnderWay (seen handle).work }
    requires answers { IsToldTo (ask_by_handle (Some (seen handle))) told }
    ensures turned { IfOk result (TurnsHandle (seen handle) told) }
{
    fed_handle(alloc, handle.into_inner(), told)
}

/// Returns the result of a turn in which a handle that left the heap is fed this.
fn fed_handle(alloc: Global, handle: Handle, told: Told) -> Result<Turned, NoMemory>
    requires under_way { IsUnderWay (seen handle).work }
    requires answers { IsToldTo (ask_by_handle (Some (seen handle))) told }
    ensures turned { IfOk result (TurnsHandle (seen handle) told) }
{
    let Handle { core, at } = handle;
    match at {
        HandleAt::Opening(opening) => fed_opening(alloc, core, opening, told),
        HandleAt::Calling(call) => fed_call(alloc, core, call, told),
        HandleAt::Resting(_) => unreachable!("the handle is at work"),
    }
}

/// Returns the result of a turn of an opening that is fed this.
fn fed_opening(
    alloc: Global,
    core: usize,
    mut opening: OpenState,
    told: Told,
) -> Result<Turned, NoMemory>
    requires under_way { IsUnderWay (Some (Opening opening.stage)) }
    requires answers { IsToldTo (openings.ask_of opening.info.value.objects opening.info.value.folders opening.stage) told }
    ensures turned { IfOk result (IsTurned (opening_parts core opening) (Opening opening.stage) told) }
{
    match told {
        Told::Answer(Answer::Disk(answer)) => {
            opening.feed(alloc, answer)?;
            finished_opening(alloc, core, opening)
        }
        Told::Core {
            number,
            slots,
            view,
        } => opened(alloc, number, opening, slots, view),
        _ => unreachable!("an opening asks for a call of the disk, or for a core"),
    }
}

/// Returns the result of a turn of a call that is fed this.
fn fed_call(alloc: Global, core: usize, mut call: CallState, told: Told) -> Result<Turned, NoMemory>
    requires answers { IsToldTo (calls.ask_of call.stage) told }
    ensures turned { IfOk result (IsTurned (parts_of core call.handle) (Calling call.stage) told) }
{
    match told {
        Told::Nothing => finished_call(alloc, core, call),
        Told::Answer(answer) => {
            call.feed(alloc, answer)?;
            finished_call(alloc, core, call)
        }
        Told::Core { .. } => unreachable!("no call has a core made"),
    }
}

// ---- where the work is done, the handle rests or is gone

/// Returns the result of a turn that opened a store: its handle rests.
fn opened(
    alloc: Global,
    core: usize,
    opening: OpenState,
    slots: u16,
    view: View,
) -> Result<Turned, NoMemory>
    requires registers { opening.stage ≡ opens.Registering slots }
    ensures outcome { IfOk result (λ turned. turned.outcome ≡ Outcome.Reply (Reply.Opened slots)) }
    ensures handle { IfOk result (λ turned. option_map seen turned.handle ≡ Some (record { state = parts_of core (opened_handle opening view); work = None })) }
{
    let reply = Shared::new(alloc, Reply::Opened { slots })?;
    let handle = resting(alloc, core, opening.into_state(view))?;
    Ok(Turned {
        outcome: Outcome::Reply(reply),
        handle: Some(handle),
    })
}

/// Returns the result of a turn that left an opening so. Where it is done it was refused, and the handle is gone.
fn finished_opening(alloc: Global, core: usize, opening: OpenState) -> Result<Turned, NoMemory>
    requires refused { (reply : Reply) → opening.stage ≡ opens.Done reply → refuses_opening reply ≡ true }
    ensures outcome { IfOk result (λ turned. turned.outcome ≡ outcome_of (result_in (Opening opening.stage))) }
    ensures handle { IfOk result (λ turned. option_map seen turned.handle ≡ after_turn (opening_parts core opening) (result_in (Opening opening.stage))) }
{
    match opening.into_reply() {
        Ok(reply) => Ok(Turned {
            outcome: Outcome::Reply(Shared::new(alloc, reply)?),
            handle: None,
        }),
        Err(opening) => going_on(alloc, core, HandleAt::Opening(opening)),
    }
}

/// Returns the result of a turn that left a call so.
fn finished_call(alloc: Global, core: usize, call: CallState) -> Result<Turned, NoMemory>
    ensures outcome { IfOk result (λ turned. turned.outcome ≡ outcome_of (result_in (Calling call.stage))) }
    ensures handle { IfOk result (λ turned. option_map seen turned.handle ≡ after_turn (parts_of core call.handle) (result_in (Calling call.stage))) }
{
    match call.into_reply() {
        Ok((reply, state)) => replied(alloc, core, state, reply),
        Err(call) => going_on(alloc, core, HandleAt::Calling(call)),
    }
}

/// Returns the result of a turn after which the work goes on.
fn going_on(alloc: Global, core: usize, at: HandleAt) -> Result<Turned, NoMemory>
    ensures outcome { IfOk result (λ turned. turned.outcome ≡ Outcome.Pending) }
    ensures handle { IfOk result (λ turned. turned.handle ≡ Some (record { core = core; at = at })) }
{
    let handle = BoxedHandle::new(alloc, Handle { core, at })?;
    Ok(Turned {
        outcome: Outcome::Pending,
        handle: Some(handle),
    })
}

/// Returns the result of a turn that finished a call.
fn replied(alloc: Global, core: usize, state: HandleState, reply: Reply) -> Result<Turned, NoMemory>
    ensures outcome { IfOk result (λ turned. turned.outcome ≡ Outcome.Reply reply) }
    ensures handle { IfOk result (λ turned. option_map seen turned.handle ≡ after_reply None (tables.at_rest (parts_of core state)) reply) }
{
    match Shared::new(alloc, reply) {
        Ok(reply) => {
            let handle = at_rest(alloc, core, state, reply.value())?;
            Ok(Turned {
                outcome: Outcome::Reply(reply),
                handle,
            })
        }
        Err(error) => {
            drop(state);
            Err(error)
        }
    }
}

/// Returns a handle after the reply to its work: none after a refused opening, else one at rest.
fn at_rest(
    alloc: Global,
    core: usize,
    state: HandleState,
    reply: &Reply,
) -> Result<Option<BoxedHandle>, NoMemory>
    ensures rests { IfOk result (λ rests. option_map seen rests ≡ after_reply None (tables.at_rest (parts_of core state)) reply.now) }
{
    match reply {
        Reply::Refused(CallError::Open(_)) => Ok(None),
        _ => {
            let handle = resting(alloc, core, state)?;
            Ok(Some(handle))
        }
    }
}

/// Returns a handle at rest.
fn resting(alloc: Global, core: usize, state: HandleState) -> Result<BoxedHandle, NoMemory>
    ensures rests { IfOk result (λ handle. seen handle ≡ record { state = parts_of core state; work = None }) }
{
    let handle = Handle {
        core,
        at: HandleAt::Resting(state),
    };
    BoxedHandle::new(alloc, handle)
}
