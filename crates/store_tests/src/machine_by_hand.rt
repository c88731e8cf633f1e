//! Calls by hand: their asks, and their replies to an answer.
use crate::calls::store_at;
use crate::machine::{reply_shown, write_started};
use crate::words::{HELLO, id_of, word_of};
use gix_hash::Kind::Sha1;
use gix_odb_loose::{LooseAsk, LooseCall, LooseJob, Store};
use odb_base::{ByteList, NoMemory};
use odb_mem_disk::{DiskAnswer, DiskAsk, DiskError};
use std::alloc::Global;
use std::test::Fail;
use test_words::{compare, cut, halves};

/// A call on the blob `hello`, by its name in words.
fn started(alloc: Global, store: &Store, word: &str) -> Result<LooseCall, Fail> {
    let id = id_of(store, HELLO)?;
    match word {
        "find" => Ok(LooseCall::start(alloc, store, LooseJob::Find(id))?),
        "header" => Ok(LooseCall::start(alloc, store, LooseJob::Header(id))?),
        _ => Ok(LooseCall::start(alloc, store, LooseJob::Contains(id))?),
    }
}

/// An answer of the disk in words: a file by its bytes, or a refusal.
fn answer_of(alloc: Global, text: &str) -> Result<DiskAnswer, NoMemory> {
    let (verb, rest) = cut(text);
    let refusal = match verb {
        "file" => {
            let bytes = ByteList::from_slice(alloc, rest.as_bytes())?;
            return Ok(DiskAnswer::File { bytes, time: 1 });
        }
        "WrongKind" => DiskError::WrongKind,
        "LinkLoop" => DiskError::LinkLoop,
        "Failed" => DiskError::Failed,
        "NoMemory" => DiskError::NoMemory,
        _ => DiskError::Absent,
    };
    Ok(DiskAnswer::Refused(refusal))
}

fn ask_shown(alloc: Global, ask: DiskAsk) -> Result<String, Fail> {
    match ask {
        DiskAsk::Look { path, follow: true } => Ok(format!(in alloc; "follow {path}")?),
        DiskAsk::Read { path } => Ok(format!(in alloc; "read {path}")?),
        _ => word_of(alloc, "another call"),
    }
}

/// The ask of a call, or its reply.
fn asked(alloc: Global, call: &LooseCall) -> Result<String, Fail> {
    match call.ask(alloc)? {
        LooseAsk::Disk(ask) => ask_shown(alloc, ask),
        LooseAsk::Done(reply) => reply_shown(alloc, &reply),
    }
}

/// Feeds a call an answer, and then, when it is done, another one.
fn fed(alloc: Global, call: LooseCall, text: &str) -> Result<LooseCall, NoMemory> {
    let answer = answer_of(alloc, text)?;
    let call = call.feed(alloc, answer)?;
    call.feed(alloc, DiskAnswer::Refused(DiskError::Absent))
}

/// The reply of a call to an answer.
fn replied(alloc: Global, call: LooseCall, answer: &str) -> Result<String, Fail> {
    let call = fed(alloc, call, answer)?;
    asked(alloc, &call)
}

/// The ask of a call, and its reply to an answer.
fn by_hand(alloc: Global, store: &Store, text: &str) -> Result<String, Fail> {
    let (job, answer) = cut(text);
    let call = started(alloc, store, job)?;
    let ask = asked(alloc, &call)?;
    let reply = replied(alloc, call, answer)?;
    Ok(format!(in alloc; "{ask}, {reply}")?)
}

fn check_row(alloc: Global, store: &Store, row: &str) -> Result<(), Fail> {
    let (text, want) = halves(row);
    let found = by_hand(alloc, store, text)?;
    compare(text, found.as_str(), want)
}

// A call that asks for something else, an answer mistaken for another one, or a reply that changes.
#[test]
fn finds_by_hand(rt: HostRuntime) -> Result<(), Fail> {
    let store = store_at(rt.alloc(), "/o", Sha1, None)?;
    for row in [
        "find file blob 5\0hello|read /o/b6/fc4c620b67d95f953a5c1c1230aaab5db5a1b0, blob hello",
        "find Absent|read /o/b6/fc4c620b67d95f953a5c1c1230aaab5db5a1b0, none",
        "find WrongKind|read /o/b6/fc4c620b67d95f953a5c1c1230aaab5db5a1b0, io",
        "find LinkLoop|read /o/b6/fc4c620b67d95f953a5c1c1230aaab5db5a1b0, io",
        "find Failed|read /o/b6/fc4c620b67d95f953a5c1c1230aaab5db5a1b0, io",
        "header file blob 5\0hell|read /o/b6/fc4c620b67d95f953a5c1c1230aaab5db5a1b0, blob 5",
        "header NoMemory|read /o/b6/fc4c620b67d95f953a5c1c1230aaab5db5a1b0, memory",
        "test Absent|follow /o/b6/fc4c620b67d95f953a5c1c1230aaab5db5a1b0, no",
        "test WrongKind|follow /o/b6/fc4c620b67d95f953a5c1c1230aaab5db5a1b0, no",
        "test LinkLoop|follow /o/b6/fc4c620b67d95f953a5c1c1230aaab5db5a1b0, no",
        "test Failed|follow /o/b6/fc4c620b67d95f953a5c1c1230aaab5db5a1b0, io",
        "test NoMemory|follow /o/b6/fc4c620b67d95f953a5c1c1230aaab5db5a1b0, memory",
    ] {
        check_row(rt.alloc(), &store, row)?;
    }
    Ok(())
}

fn file_shown(alloc: Global, call: &LooseCall) -> Result<String, Fail> {
    match call.temporary_file(alloc)? {
        Some(path) => Ok(format!(in alloc; "{path}")?),
        None => word_of(alloc, "none"),
    }
}

fn check_file(alloc: Global, call: &LooseCall, want: &str) -> Result<(), Fail> {
    let found = file_shown(alloc, call)?;
    compare("temporary file", found.as_str(), want)
}

fn check_write(alloc: Global, store: &Store) -> Result<(), Fail> {
    let call = write_started(alloc, store, 5, "hello")?;
    check_file(alloc, &call, "none")?;
    let call = call.feed(alloc, DiskAnswer::Done)?;
    check_file(alloc, &call, "/o/tmp_obj_0")
}

// A temporary file that is reported before it is made, or isn't reported after it.
#[test]
fn temporary_file(rt: HostRuntime) -> Result<(), Fail> {
    let store = store_at(rt.alloc(), "/o", Sha1, None)?;
    check_write(rt.alloc(), &store)
}
