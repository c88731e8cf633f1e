//! A database through each bound of the traits: its calls and what they answer.
ghost use Rattle.std.specs.Prelude.{◌≡◌, IfOk, IfSome};
ghost use Rattle.gix_hash.specs.ObjectId.{kind_of};

use crate::front::Front;
use crate::shelf::Shelf;
use gix_hash::ObjectId;
use gix_object::{Data, Exists, Find, FindHeader, Header, Kind, Write, WriteTo};
use odb_mem_disk::{MemSink, MemSource};
use std::alloc::{AllocError, Global};
use std::sync::Wait;
use std::test::Fail;
use test_words::compare;

// ---- calls through the bounds

/// What a find answers: the kind and the data, `none` or `refused`.
fn found<D: Find, R: Wait>(
    rt: &R,
    alloc: Global,
    database: &mut D,
    id: &ObjectId,
) -> Result<String, AllocError>
    requires hash { kind_of id.now ≡ D.hash database.old }
    ensures hash { D.hash database.new ≡ D.hash database.old }
{
    let mut out = Vec::from_slice(alloc, b"before")?;
    let shown = match database.try_find(rt, alloc, id, &mut out) {
        Ok(Some(object)) => return object_shown(alloc, object.kind, object.bytes),
        Ok(None) => "none",
        Err(_) => "refused",
    };
    let left = if out.is_empty() {
        ""
    } else {
        " with what was there"
    };
    format!(in alloc; "{shown}{left}")
}

fn object_shown(alloc: Global, kind: Kind, bytes: &[u8]) -> Result<String, AllocError> {
    let data = String::from_utf8_lossy(alloc, bytes)?;
    format!(in alloc; "{kind} {data}")
}

/// What a query for a header answers: the kind and the size, `none` or `refused`.
fn header<D: FindHeader, R: Wait>(
    rt: &R,
    alloc: Global,
    database: &mut D,
    id: &ObjectId,
) -> Result<String, AllocError>
    requires hash { kind_of id.now ≡ D.hash database.old }
    ensures hash { D.hash database.new ≡ D.hash database.old }
{
    match database.try_header(rt, alloc, id) {
        Ok(Some(Header { kind, size })) => format!(in alloc; "{kind} {size}"),
        Ok(None) => "none".to_string(alloc),
        Err(_) => "refused".to_string(alloc),
    }
}

/// What a test of presence answers: `yes`, `no` or `refused`.
fn presence<D: Exists, R: Wait>(
    rt: &R,
    alloc: Global,
    database: &mut D,
    id: &ObjectId,
) -> &'static str
    requires hash { kind_of id.now ≡ D.hash database.old }
{
    match database.exists(rt, alloc, id) {
        Ok(true) => "yes",
        Ok(false) => "no",
        Err(_) => "refused",
    }
}

/// What a write answers: the id or `refused`.
fn id_shown<E: Drop>(alloc: Global, answer: Result<ObjectId, E>) -> Result<String, AllocError> {
    match answer {
        Ok(id) => format!(in alloc; "{id}"),
        Err(_) => "refused".to_string(alloc),
    }
}

/// What a write of bytes answers, under a known id if there is one.
fn wrote<D: Write, R: Wait>(
    rt: &R,
    alloc: Global,
    database: &mut D,
    kind: Kind,
    data: &[u8],
    known: Option<ObjectId>,
) -> Result<String, AllocError>
    requires hash { IfSome known (λ id. kind_of id ≡ D.hash database.old) }
{
    match known {
        Some(id) => id_shown(
            alloc,
            database.write_buf_with_known_id(rt, alloc, kind, data, id),
        ),
        None => id_shown(alloc, database.write_buf(rt, alloc, kind, data)),
    }
}

/// What a write of `size` bytes of a source answers, under a known id if there is one.
fn streamed<D: Write, R: Wait>(
    rt: &R,
    alloc: Global,
    database: &mut D,
    kind: Kind,
    size: u64,
    from: &mut MemSource,
    known: Option<ObjectId>,
) -> Result<String, AllocError>
    requires hash { IfSome known (λ id. kind_of id ≡ D.hash database.old) }
{
    match known {
        Some(id) => id_shown(
            alloc,
            database.write_stream_with_known_id(rt, alloc, kind, size, from, id),
        ),
        None => id_shown(alloc, database.write_stream(rt, alloc, kind, size, from)),
    }
}

/// What a write of an object that gives its own data answers.
fn gave<D: Write, R: Wait>(
    rt: &R,
    alloc: Global,
    database: &mut D,
    object: &Data,
) -> Result<String, AllocError> {
    id_shown(alloc, database.write(rt, alloc, object))
}

// ---- rows

/// What is asked of a database.
#[derive(Clone, Copy)]
enum Call {
    /// A find, a query for a header and a test of presence, of an id.
    Ask(&'static str),
    /// A write of data, under an id if there is one.
    Write(Option<&'static str>, Kind, &'static str),
    /// A write of as many bytes as the first number says, from a source whose read with the second number fails.
    Stream(Option<&'static str>, Kind, u64, u64, &'static str),
    /// A write of an object that gives its own data.
    Give(Kind, &'static str),
}

/// An id of this hash, by its hex digits.
fn id_of(hash: gix_hash::Kind, hex: &str) -> Result<ObjectId, Fail>
    ensures hash { IfOk result (λ id. kind_of id ≡ hash) }
{
    let id = ObjectId::from_hex(hex.as_bytes())?;
    if id.kind() == hash {
        return Ok(id);
    }
    Err(Fail::new("an id of the other hash"))
}

fn known_of(hash: gix_hash::Kind, hex: Option<&str>) -> Result<Option<ObjectId>, Fail>
    ensures hash { IfOk result (λ known. IfSome known (λ id. kind_of id ≡ hash)) }
{
    match hex {
        Some(hex) => Ok(Some(id_of(hash, hex)?)),
        None => Ok(None),
    }
}

fn asked<R: Wait>(
    rt: &R,
    alloc: Global,
    database: &mut Front<Shelf>,
    hex: &str,
) -> Result<String, Fail> {
    let id = id_of(database.inner.hash, hex)?;
    let found = found(rt, alloc, database, &id)?;
    let header = header(rt, alloc, database, &id)?;
    let presence = presence(rt, alloc, database, &id);
    Ok(format!(in alloc; "{found}, {header}, {presence}")?)
}

/// A source of which the read with this number fails.
fn source_of(alloc: Global, failing: u64, data: &str) -> Result<MemSource, Fail> {
    let data = data.as_bytes().to_vec(alloc)?;
    Ok(MemSource::with_faults(alloc, data, &[failing])?)
}

fn written<R: Wait>(
    rt: &R,
    alloc: Global,
    database: &mut Front<Shelf>,
    hex: Option<&str>,
    kind: Kind,
    data: &str,
) -> Result<String, Fail> {
    let known = known_of(database.inner.hash, hex)?;
    Ok(wrote(rt, alloc, database, kind, data.as_bytes(), known)?)
}

fn drawn<R: Wait>(
    rt: &R,
    alloc: Global,
    database: &mut Front<Shelf>,
    hex: Option<&str>,
    kind: Kind,
    size: u64,
    mut from: MemSource,
) -> Result<String, Fail> {
    let known = known_of(database.inner.hash, hex)?;
    Ok(streamed(rt, alloc, database, kind, size, &mut from, known)?)
}

fn answered<R: Wait>(
    rt: &R,
    alloc: Global,
    database: &mut Front<Shelf>,
    call: Call,
) -> Result<String, Fail> {
    match call {
        Call::Ask(hex) => asked(rt, alloc, database, hex),
        Call::Write(hex, kind, data) => written(rt, alloc, database, hex, kind, data),
        Call::Stream(hex, kind, size, failing, data) => {
            let from = source_of(alloc, failing, data)?;
            drawn(rt, alloc, database, hex, kind, size, from)
        }
        Call::Give(kind, data) => {
            let object = Data {
                kind,
                object_hash: database.inner.hash,
                bytes: data.as_bytes(),
            };
            Ok(gave(rt, alloc, database, &object)?)
        }
    }
}

/// Git's id of the blob `hello`.
const HELLO: &str = "b6fc4c620b67d95f953a5c1c1230aaab5db5a1b0";

/// An id that no object here has for its data.
const GIVEN: &str = "0000000000000000000000000000000000000000";

/// What a row shows, the call, and what it answers.
type Row = (&'static str, Call, &'static str);

const ROWS: &[Row] = &[
    ("empty", Call::Ask(HELLO), "none, none, no"),
    ("written", Call::Write(None, Kind::Blob, "hello"), HELLO),
    ("found", Call::Ask(HELLO), "blob hello, blob 5, yes"),
    ("another", Call::Ask(GIVEN), "none, none, no"),
    ("known", Call::Write(Some(GIVEN), Kind::Tag, "t"), GIVEN),
    ("found by it", Call::Ask(GIVEN), "tag t, tag 1, yes"),
    ("no more", Call::Ask(HELLO), "none, none, no"),
    (
        "long",
        Call::Stream(None, Kind::Blob, 4, 0, "hello"),
        "refused",
    ),
    (
        "short",
        Call::Stream(None, Kind::Blob, 6, 0, "hello"),
        "refused",
    ),
    (
        "fails",
        Call::Stream(None, Kind::Blob, 5, 2, "hello"),
        "refused",
    ),
    ("as before", Call::Ask(GIVEN), "tag t, tag 1, yes"),
    (
        "whole",
        Call::Stream(None, Kind::Blob, 5, 0, "hello"),
        HELLO,
    ),
    (
        "no data under a known id",
        Call::Stream(Some(GIVEN), Kind::Tree, 0, 0, ""),
        GIVEN,
    ),
    ("no data", Call::Ask(GIVEN), "tree , tree 0, yes"),
    ("given", Call::Give(Kind::Blob, "hello"), HELLO),
    ("found again", Call::Ask(HELLO), "blob hello, blob 5, yes"),
];

fn check_row<R: Wait>(
    rt: &R,
    alloc: Global,
    database: &mut Front<Shelf>,
    row: &Row,
) -> Result<(), Fail> {
    let (shows, call, want) = row;
    let found = answered(rt, alloc, database, *call)?;
    compare(shows, found.as_str(), want)
}

/// The results of each row, in turn, through a layer over a database of one object.
fn check<R: Wait>(rt: &R, alloc: Global, rows: &[Row]) -> Result<(), Fail> {
    let mut database = Front {
        inner: Shelf::new(gix_hash::Kind::Sha1),
    };
    for row in rows {
        check_row(rt, alloc, &mut database, row)?;
    }
    Ok(())
}

// A layer that answers something else than the database below it, data after what `out` held, a stream that is taken
// although it is too short, too long or fails, an id that was passed in and isn't returned.
#[test]
fn through_the_bounds(rt: HostRuntime) -> Result<(), Fail> {
    check(&rt, rt.alloc(), ROWS)
}

/// What an object of five bytes writes to a sink of which the write with this number fails.
fn given(alloc: Global, failing: u64) -> Result<String, Fail> {
    let object = Data {
        kind: Kind::Blob,
        object_hash: gix_hash::Kind::Sha1,
        bytes: b"hello",
    };
    let mut sink = MemSink::with_faults(alloc, &[failing])?;
    let written = object.write_to(&mut sink).is_ok();
    let text = String::from_utf8_lossy(alloc, sink.bytes())?;
    let size = object.size();
    Ok(format!(in alloc; "{written} {size} {text}")?)
}

// An object that gives other bytes than its data, or goes on after a fault.
#[test]
fn objects_give_their_data(rt: HostRuntime) -> Result<(), Fail> {
    for (failing, want) in [(0, "true 5 hello"), (1, "false 5 ")] {
        let found = given(rt.alloc(), failing)?;
        compare(want, found.as_str(), want)?;
    }
    Ok(())
}
