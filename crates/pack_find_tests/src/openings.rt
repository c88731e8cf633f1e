//! Openings, driven by their asks.
use crate::happening::happen;
use crate::shown::{put_ask, put_numbered, put_reply};
use gix_hash::Kind;
use gix_odb::{OpenAsk, OpenState, Options, Reply, Slots};
use gix_odb_core::{Core, Event, View};
use odb_base::{NoMemory, PathText};
use odb_mem_disk::{DiskAnswer, DiskAsk, MemDisk};
use std::alloc::Global;
use std::test::Fail;
use test_words::{Text, cut};

fn disk_answer(alloc: Global, disk: &mut MemDisk, ask: DiskAsk, text: &mut Text) -> DiskAnswer {
    put_ask(text, &ask);
    let answer = ask.carry_out(alloc, disk);
    drop(ask);
    answer
}

/// Returns the view of a core that has read nothing yet. No opening reads how many slots a core has.
pub fn first_view(alloc: Global) -> Result<View, Fail> {
    let mut core = Core::new(alloc, 1, 1)?;
    let answer = happen(alloc, &mut core, Event::Register { stable: false });
    drop(core);
    match answer?.view() {
        Some(view) => Ok(view.try_clone()?),
        None => Err(Fail::new("no view")),
    }
}

/// Feeds an opening the answer to what it asks for, unless it is done or its core is to be made: how many slots this is to
/// have, if it is.
fn opening_step(
    alloc: Global,
    disk: &mut MemDisk,
    state: &mut OpenState,
    text: &mut Text,
) -> Result<Next, NoMemory> {
    match state.ask(alloc)? {
        OpenAsk::Disk(ask) => {
            let answer = disk_answer(alloc, disk, ask, text);
            state.feed(alloc, answer)?;
            Ok(Next::More)
        }
        OpenAsk::Register { slots } => Ok(Next::Register(slots)),
        OpenAsk::Done(reply) => {
            let told = put_reply(alloc, text, &reply);
            drop(reply);
            told?;
            Ok(Next::Done)
        }
    }
}

/// What comes next of an opening.
enum Next {
    More,
    Register(u16),
    Done,
}

fn finish_opening(
    alloc: Global,
    disk: &mut MemDisk,
    state: &mut OpenState,
    text: &mut Text,
) -> Result<(), NoMemory> {
    for _ in 0..100 {
        match opening_step(alloc, disk, state, text)? {
            Next::More => {}
            Next::Register(slots) => return put_opened(alloc, slots, text),
            Next::Done => return Ok(()),
        }
    }
    text.next("no end");
    Ok(())
}

/// Puts the registration of a handle, and the reply that comes of it.
fn put_opened(alloc: Global, slots: u16, text: &mut Text) -> Result<(), NoMemory> {
    put_numbered(text, "register", u64::from(slots));
    put_reply(alloc, text, &Reply::Opened { slots })
}

// The slots that a store has: so many in a hundred of its indices, and a number at least.
fn options_of(words: &str) -> Options {
    let (percent, minimum) = cut(words);
    let mut options = Options::default();
    if let (Ok(percent), Ok(minimum)) = (percent.parse::<u32>(), minimum.parse::<u32>()) {
        options.slots = Slots::AsNeededByDiskState { percent, minimum };
    }
    options
}

/// Appends the calls of an opening, the slots with which it registers its handle, and its reply to a text.
pub fn put_opening(
    alloc: Global,
    disk: &mut MemDisk,
    words: &str,
    text: &mut Text,
) -> Result<(), Fail> {
    let (word, slots) = cut(words);
    let path = PathText::parse(alloc, word)?;
    let mut state = OpenState::start(alloc, &path, &[], Kind::Sha1, &[], options_of(slots))?;
    Ok(finish_opening(alloc, disk, &mut state, text)?)
}
