//! Events in words, both ways.
//!
//! `register SEAT`, `register SEAT stable`, `upgrade SEAT`, `remove SEAT`, `look SEAT`, `report SEAT`, `index SEAT
//! SLOT PATH COUNT` and `pack SEAT SLOT PATH COUNT` for files of COUNT objects (`SLOT.PLACE` for a pack of a
//! multi-pack index), `pass SEAT SLOT PATH WHY`, and `publish SEAT BASE ROW ROW ..`. A row is `PATH` or `PATH+TIME`
//! for a single index, and `PATH@TIME` for a multi-pack index.
use crate::files::{index_file, multi_file, pack_file};
use crate::words::parts_of;
use gix_odb_core::{Event, Listing, ListingRow, ListingRowList, PackId, PassWhy, Shared};
use gix_pack::multi_index;
use odb_base::PathText;
use std::alloc::Global;
use std::test::Fail;
use test_words::{Text, cut};

/// The event of a verb and the words after the seat.
pub fn event_of(alloc: Global, verb: &str, rest: &str) -> Result<Event, Fail> {
    match verb {
        "register" => Ok(Event::Register {
            stable: rest == "stable",
        }),
        "upgrade" => Ok(Event::Upgrade),
        "remove" => Ok(Event::Remove),
        "look" => Ok(Event::Look),
        "report" => Ok(Event::Report),
        "index" => put_index(alloc, rest),
        "pack" => put_pack(alloc, rest),
        "pass" => pass_over(alloc, rest),
        "publish" => publish(alloc, rest),
        _ => Err(Fail::new("no such event")),
    }
}

fn put_index(alloc: Global, text: &str) -> Result<Event, Fail> {
    let (slot, rest) = cut(text);
    let (path, count) = cut(rest);
    let slot = slot.parse::<u16>()?;
    let path = PathText::parse(alloc, path)?;
    let file = index_file(alloc, count)?;
    Ok(Event::PutIndex { slot, path, file })
}

fn put_pack(alloc: Global, text: &str) -> Result<Event, Fail> {
    let (pack, rest) = cut(text);
    let (path, count) = cut(rest);
    let pack = pack_id_of(pack)?;
    let path = PathText::parse(alloc, path)?;
    let file = pack_file(alloc, count)?;
    Ok(Event::PutPack { pack, path, file })
}

/// `SLOT`, or `SLOT.PLACE`.
fn pack_id_of(word: &str) -> Result<PackId, Fail> {
    let (slot, place) = word.split_once('.').unwrap_or((word, ""));
    Ok(PackId {
        index: slot.parse::<usize>()?,
        multipack_index: place.parse::<u32>().ok(),
    })
}

fn pass_over(alloc: Global, text: &str) -> Result<Event, Fail> {
    let (slot, rest) = cut(text);
    let (path, why) = cut(rest);
    let slot = slot.parse::<u16>()?;
    let path = PathText::parse(alloc, path)?;
    let why = why_of(why);
    Ok(Event::PassOver { slot, path, why })
}

fn why_of(word: &str) -> PassWhy {
    match word {
        "absent" => PassWhy::Absent,
        "kind" => PassWhy::WrongKind,
        "link" => PassWhy::LinkLoop,
        "bad" => PassWhy::Bad,
        _ => PassWhy::Failed,
    }
}

pub fn word_of_why(why: PassWhy) -> &'static str {
    match why {
        PassWhy::Absent => "absent",
        PassWhy::Failed => "failed",
        PassWhy::WrongKind => "kind",
        PassWhy::LinkLoop => "link",
        PassWhy::Bad => "bad",
    }
}

fn publish(alloc: Global, text: &str) -> Result<Event, Fail> {
    let (base, rest) = cut(text);
    let base = base.parse::<u64>()?;
    let rows = rows_of(alloc, rest)?;
    Ok(Event::Publish(Listing { base, rows }))
}

fn rows_of(alloc: Global, text: &str) -> Result<ListingRowList, Fail> {
    let mut rows = ListingRowList::new(alloc);
    for word in text.split(' ') {
        push_row(alloc, &mut rows, word)?;
    }
    Ok(rows)
}

fn push_row(alloc: Global, rows: &mut ListingRowList, word: &str) -> Result<(), Fail> {
    if word.is_empty() {
        return Ok(());
    }
    Ok(rows.push(row_of(alloc, word)?)?)
}

fn row_of(alloc: Global, word: &str) -> Result<ListingRow, Fail> {
    let (path, time, is_multi) = parts_of(word);
    let time = time.parse::<u64>()?;
    let path = PathText::parse(alloc, path)?;
    let multi = multi_at(alloc, time, is_multi)?;
    Ok(ListingRow {
        path,
        time,
        len: 100,
        multi,
    })
}

fn multi_at(
    alloc: Global,
    time: u64,
    is_multi: bool,
) -> Result<Option<Shared<multi_index::File>>, Fail> {
    if is_multi {
        Ok(Some(multi_file(alloc, time)?))
    } else {
        Ok(None)
    }
}

fn verb_of(event: &Event) -> &'static str {
    match event {
        Event::Register { .. } => " register ",
        Event::Upgrade => " upgrade ",
        Event::Remove => " remove ",
        Event::Look => " look ",
        Event::Report => " report ",
        Event::PutIndex { .. } => " index ",
        Event::PutPack { .. } => " pack ",
        Event::PassOver { .. } => " pass ",
        Event::Publish(_) => " publish ",
    }
}

/// Appends the words of a seat's event to a text, each after a space.
pub fn put_event(text: &mut Text, seat: u32, event: &Event) {
    text.marked(verb_of(event), u64::from(seat));
    match event {
        Event::Register { stable } => text.put(if *stable { " stable" } else { "" }),
        Event::PutIndex { slot, path, file } => {
            text.marked(" ", u64::from(*slot));
            put_file(text, path, file.value().num_objects());
        }
        Event::PutPack { pack, path, file } => {
            put_pack_id(text, *pack);
            put_file(text, path, file.value().num_objects());
        }
        Event::PassOver { slot, path, why } => {
            text.marked(" ", u64::from(*slot));
            text.marked(" ", path);
            text.marked(" ", word_of_why(*why));
        }
        Event::Publish(listing) => put_listing(text, listing),
        _ => {}
    }
}

fn put_file(text: &mut Text, path: &PathText, count: u32) {
    text.marked(" ", path);
    text.marked(" ", u64::from(count));
}

fn put_pack_id(text: &mut Text, pack: PackId) {
    text.marked(" ", pack.index as u64);
    if let Some(place) = pack.multipack_index {
        text.marked(".", u64::from(place));
    }
}

fn put_listing(text: &mut Text, listing: &Listing) {
    text.marked(" ", listing.base);
    for row in listing.rows.as_slice() {
        text.marked(" ", &row.path);
        put_time(text, row.multi.is_some(), row.time);
    }
}

/// Appends the time of a row to its path.
pub fn put_time(text: &mut Text, multi: bool, time: u64) {
    if multi {
        text.marked("@", time);
    } else if time != 0 {
        text.marked("+", time);
    }
}
