//! Events on a core, if they can happen.
ghost use Rattle.std.specs.Prelude.{◌≡◌, true};
ghost use Rattle.gix_odb_core.specs.History.{present};
ghost use Rattle.gix_odb_core.specs.Replay.{CanHappen};
ghost use Rattle.gix_odb_events.specs.PackFiles.{HasDifferentPaths};
ghost use Rattle.gix_odb_events.specs.declared.answer.Answer.TheVariants as told;
ghost use Rattle.gix_odb_events.specs.declared.answer.Ask.TheVariants as asks;
ghost use Rattle.gix_odb_events.specs.declared.listing.Listing.{Listing};
ghost use Rattle.gix_odb_events.specs.Asks.{IsAnswerTo};

use gix_odb_core::{Core, Effect, Event, ListingRow, Refusal};
use std::alloc::Global;

/// Whether these are at most two rows, of different paths.
fn are_apart(rows: &[ListingRow]) -> bool
    ensures apart { result ≡ true → HasDifferentPaths rows.now }
{
    match rows {
        [] | [_] => true,
        [first, second] => first.path != second.path,
        _ => false,
    }
}

/// Whether an event of the first seat can happen.
fn can_happen(core: &Core, event: &Event) -> bool
    ensures can_happen { result ≡ true → CanHappen (present core.now) 0 event.now }
{
    match event {
        Event::Register { .. } => core.handle(0).is_none(),
        Event::Upgrade | Event::Remove => false,
        Event::Publish(listing) => are_apart(listing.rows.as_slice()),
        _ => true,
    }
}

/// The answer to an event of the first seat. One that can't happen is refused here, in a way that no row expects.
pub fn happen(alloc: Global, core: &mut Core, event: Event) -> Result<Effect, Refusal> {
    if can_happen(core, &event) {
        core.apply(alloc, 0, event)
    } else {
        Err(Refusal::NoMemory)
    }
}

/// Returns what an event of the first seat answers, as an answer that the event can have.
pub fn happen_for(alloc: Global, core: &mut Core, event: Event) -> Result<Effect, Refusal>
    ensures suits { IsAnswerTo (asks.Core event) (told.Core result) }
{
    match event {
        Event::Look => seen(happen(alloc, core, Event::Look)),
        Event::Publish(listing) => published(happen(alloc, core, Event::Publish(listing))),
        event => happen(alloc, core, event),
    }
}

fn seen(answer: Result<Effect, Refusal>) -> Result<Effect, Refusal>
    ensures suits { IsAnswerTo (asks.Core Event.Look) (told.Core result) }
{
    match answer {
        Ok(Effect::Seen(view)) => Ok(Effect::Seen(view)),
        Err(refusal) => Err(refusal),
        _ => Err(Refusal::NoMemory),
    }
}

fn published(answer: Result<Effect, Refusal>) -> Result<Effect, Refusal>
    ensures suits { (listing : Listing) → IsAnswerTo (asks.Core (Event.Publish listing)) (told.Core result) }
{
    match answer {
        Ok(Effect::Published(view)) => Ok(Effect::Published(view)),
        Ok(Effect::Unchanged(view)) => Ok(Effect::Unchanged(view)),
        Ok(Effect::Outdated { list_no }) => Ok(Effect::Outdated { list_no }),
        Err(refusal) => Err(refusal),
        _ => Err(Refusal::NoMemory),
    }
}
