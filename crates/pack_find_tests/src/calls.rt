//! Calls on a handle, driven by their asks.
use crate::files::{bytes_of, id_of};
use crate::happening::happen_for;
use crate::openings::first_view;
use crate::shown::{put_ask, put_event, put_reply};
use gix_hash::Kind;
use gix_odb::{
    Answer, Ask, Call, CallState, HandleState, PathList, RefreshMode, Replacements, Slots,
    StoreParts,
};
use gix_odb_core::Core;
use odb_base::{NoMemory, PathText};
use odb_mem_disk::{DiskAnswer, DiskAsk, MemDisk};
use std::alloc::Global;
use std::sync::Arc;
use std::test::Fail;
use test_words::{Text, cut};

fn disk_answer(alloc: Global, disk: &mut MemDisk, ask: DiskAsk, text: &mut Text) -> DiskAnswer {
    put_ask(text, &ask);
    let answer = ask.carry_out(alloc, disk);
    drop(ask);
    answer
}

/// Feeds a call the answer to what it asks for, unless it is done: whether it goes on.
fn step(
    alloc: Global,
    disk: &mut MemDisk,
    core: &mut Core,
    state: &mut CallState,
    text: &mut Text,
) -> Result<bool, NoMemory> {
    match state.ask(alloc)? {
        Ask::Disk(ask) => {
            let answer = disk_answer(alloc, disk, ask, text);
            state.feed(alloc, Answer::Disk(answer))?;
            Ok(true)
        }
        Ask::Core(event) => {
            put_event(text, &event);
            let answer = happen_for(alloc, core, event);
            state.feed(alloc, Answer::Core(answer))?;
            Ok(true)
        }
        Ask::Done(reply) => {
            let told = put_reply(alloc, text, &reply);
            drop(reply);
            told?;
            Ok(false)
        }
    }
}

fn finish(
    alloc: Global,
    disk: &mut MemDisk,
    core: &mut Core,
    state: &mut CallState,
    text: &mut Text,
) -> Result<(), NoMemory> {
    for _ in 0..100 {
        if !step(alloc, disk, core, state, text)? {
            return Ok(());
        }
    }
    text.next("no end");
    Ok(())
}

fn write_of(alloc: Global, word: &str) -> Result<Call, NoMemory> {
    let bytes = bytes_of(alloc, word)?;
    Ok(Call::Write {
        kind: gix_object::Kind::Blob,
        size: bytes.len() as u64,
        bytes,
        id: None,
    })
}

fn query_of(alloc: Global, verb: &str, word: &str) -> Result<Call, NoMemory> {
    let id = id_of(alloc, word)?;
    Ok(match verb {
        "find" => Call::Find(id),
        "header" => Call::Header(id),
        _ => Call::Test(id),
    })
}

fn call_of(alloc: Global, words: &str) -> Result<Call, NoMemory> {
    let (verb, word) = cut(words);
    if verb == "write" {
        return write_of(alloc, word);
    }
    query_of(alloc, verb, word)
}

fn put_finished(
    alloc: Global,
    disk: &mut MemDisk,
    core: &mut Core,
    mut state: CallState,
    text: &mut Text,
) -> Result<(), NoMemory> {
    finish(alloc, disk, core, &mut state, text)
}

fn put_on(
    alloc: Global,
    disk: &mut MemDisk,
    core: &mut Core,
    handle: &HandleState,
    call: Call,
    text: &mut Text,
) -> Result<(), NoMemory> {
    if call.is_of_hash(handle.parts().object_hash) {
        let state = CallState::start(alloc, handle, call)?;
        return put_finished(alloc, disk, core, state, text);
    }
    drop(call);
    text.next("another hash");
    Ok(())
}

fn store_parts(alloc: Global) -> Result<StoreParts, Fail> {
    Ok(StoreParts {
        objects: PathText::parse(alloc, "/o")?,
        folders: PathList::new(alloc),
        object_hash: Kind::Sha1,
        replacements: Replacements::from_pairs(alloc, &[])?,
        use_multi_pack_index: true,
        alloc_limit_bytes: None,
        slots: Slots::Given(1),
    })
}

/// A handle on `/o` that has no view yet.
fn new_handle(alloc: Global) -> Result<HandleState, Fail> {
    let parts = store_parts(alloc)?;
    let view = first_view(alloc)?;
    Ok(HandleState {
        info: Arc::new(alloc, parts)?,
        ignore_replacements: false,
        max_changes: 16,
        refresh: RefreshMode::default(),
        view,
    })
}

fn put_on_new(
    alloc: Global,
    disk: &mut MemDisk,
    core: &mut Core,
    call: Call,
    text: &mut Text,
) -> Result<(), Fail> {
    let handle = new_handle(alloc)?;
    Ok(put_on(alloc, disk, core, &handle, call, text)?)
}

/// Appends the disk calls, the events and the reply of a call on a new handle to a text.
pub fn put_call(
    alloc: Global,
    disk: &mut MemDisk,
    core: &mut Core,
    words: &str,
    text: &mut Text,
) -> Result<(), Fail> {
    let call = call_of(alloc, words)?;
    put_on_new(alloc, disk, core, call, text)
}
