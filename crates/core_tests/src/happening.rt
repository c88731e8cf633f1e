//! Events on a core, if they can happen.
ghost use Rattle.std.specs.Prelude.{◌≡◌, true};
ghost use Rattle.gix_odb_core.specs.History.{present};
ghost use Rattle.gix_odb_core.specs.Replay.{CanHappen};

use crate::apart::can_be_published;
use crate::events::event_of;
use crate::shown::put_answer;
use gix_odb_core::{Core, Event};
use std::alloc::Global;
use std::test::Fail;
use test_words::{Text, cut};

/// Whether an event can happen.
pub fn can_happen(core: &Core, seat: u32, event: &Event) -> bool
    ensures can_happen { result ≡ true → CanHappen (present core.now) seat event.now }
{
    match event {
        Event::Register { .. } => core.handle(seat).is_none(),
        Event::Upgrade => matches!(core.handle(seat), Some(false)),
        Event::Remove => core.handle(seat).is_some(),
        Event::Publish(listing) => can_be_published(listing.rows.as_slice()),
        _ => true,
    }
}

/// Appends the answer to an event to a text, if it can happen.
fn put_happening(alloc: Global, core: &mut Core, seat: u32, event: Event, text: &mut Text) {
    if can_happen(core, seat, &event) {
        let answer = core.apply(alloc, seat, event);
        put_answer(text, &answer);
    } else {
        text.put("it can't happen");
    }
}

/// Appends the answer to an event in words to a text.
pub fn happen(alloc: Global, core: &mut Core, line: &str, text: &mut Text) -> Result<(), Fail> {
    let (verb, rest) = cut(line);
    let (seat, rest) = cut(rest);
    let seat = seat.parse::<u32>()?;
    let event = event_of(alloc, verb, rest)?;
    put_happening(alloc, core, seat, event, text);
    Ok(())
}
