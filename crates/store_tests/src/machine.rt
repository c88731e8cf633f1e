//! Calls of a store as machines.
use crate::prefix_calls::{outcome_shown, prefix_of};
use crate::words::{
    HELLO, data_of, find_word, header_shown, id_of, object_shown, presence_shown, word_of,
    wrote_shown,
};
use gix_object::Kind;
use gix_odb_loose::lookup::Outcome;
use gix_odb_loose::{IdList, LooseCall, LooseJob, LooseReply, Store, iter};
use odb_base::{ByteList, NoMemory};
use odb_mem_disk::Disk;
use std::alloc::Global;
use std::test::Fail;
use test_words::cut;

pub fn reply_shown(alloc: Global, reply: &LooseReply) -> Result<String, Fail> {
    match reply {
        LooseReply::Contains(answer) => word_of(alloc, presence_shown(answer)),
        LooseReply::Found(Ok(Some((kind, bytes)))) => object_shown(alloc, *kind, bytes.as_slice()),
        LooseReply::Found(Ok(None)) => word_of(alloc, "none"),
        LooseReply::Found(Err(error)) => word_of(alloc, find_word(error)),
        LooseReply::Header(answer) => header_shown(alloc, answer),
        LooseReply::Prefix { answer, names } => candidates_shown(alloc, answer, names),
        LooseReply::Wrote(answer) => wrote_shown(alloc, answer),
    }
}

/// The result of a look-up of a prefix, and how many names were found.
fn candidates_shown(
    alloc: Global,
    answer: &Result<Option<Outcome>, iter::Error>,
    names: &IdList,
) -> Result<String, Fail> {
    let text = outcome_shown(alloc, answer)?;
    let count = names.len();
    Ok(format!(in alloc; "{text}, {count}")?)
}

/// A write of a blob with these data and the stated `size`, under the id of the blob `hello`.
pub fn write_started(
    alloc: Global,
    store: &Store,
    size: u64,
    data: &str,
) -> Result<LooseCall, Fail> {
    let known = id_of(store, HELLO)?;
    let bytes = ByteList::from_vec(data_of(alloc, data)?);
    let job = LooseJob::Write {
        kind: Kind::Blob,
        size,
        bytes,
        id: Some(known),
    };
    Ok(LooseCall::start(alloc, store, job)?)
}

/// One call of the disk, and its answer; a call that is done stays unchanged.
fn turn<D: Disk>(alloc: Global, disk: &mut D, call: LooseCall) -> Result<LooseCall, NoMemory> {
    match call.disk_ask(alloc)? {
        Some(ask) => call.feed(alloc, ask.carry_out(alloc, disk)),
        None => Ok(call),
    }
}

/// At most thirty calls of the disk.
fn run<D: Disk>(alloc: Global, disk: &mut D, call: LooseCall) -> Result<LooseCall, NoMemory> {
    let mut call = call;
    for _ in 0..30 {
        call = turn(alloc, disk, call)?;
    }
    Ok(call)
}

/// `machine SIZE DATA`: the reply of such a write, or `asks` if it isn't done.
pub fn machine_reply<D: Disk>(
    alloc: Global,
    store: &Store,
    disk: &mut D,
    rest: &str,
) -> Result<String, Fail> {
    let (size, data) = cut(rest);
    let call = write_started(alloc, store, size.parse::<u64>()?, data)?;
    done_shown(alloc, run(alloc, disk, call)?)
}

/// `lookup DIGITS`: the reply of a look-up of a prefix whose candidates are gathered, or `asks` if it isn't done.
pub fn lookup_reply<D: Disk>(
    alloc: Global,
    store: &Store,
    disk: &mut D,
    digits: &str,
) -> Result<String, Fail> {
    let prefix = prefix_of(store, digits)?;
    let job = LooseJob::Prefix {
        prefix,
        gather: true,
    };
    let call = LooseCall::start(alloc, store, job)?;
    done_shown(alloc, run(alloc, disk, call)?)
}

fn done_shown(alloc: Global, call: LooseCall) -> Result<String, Fail> {
    match call.into_reply() {
        Ok(reply) => reply_shown(alloc, &reply),
        Err(_) => word_of(alloc, "asks"),
    }
}
