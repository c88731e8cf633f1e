//! Calls of a store and its disk in words.
ghost use Rattle.std.specs.Prelude.{◌≡◌, IfOk};
ghost use Rattle.gix_hash.specs.ObjectId.{kind_of};
ghost use Rattle.gix_odb_loose.specs.Store.{store_hash};

use crate::machine::{lookup_reply, machine_reply};
use crate::prefix_calls;
use crate::words::{
    HELLO, data_of, found_shown, header_shown, id_of, object_shown, presence_shown, wrote_shown,
};
use gix_object::{Data, Kind};
use gix_odb_loose::{Options, Store};
use odb_base::PathText;
use odb_mem_disk::{Disk, MemSource};
use std::alloc::Global;
use std::test::Fail;
use test_words::cut;

pub fn store_at(
    alloc: Global,
    path: &str,
    hash: gix_hash::Kind,
    limit: Option<u64>,
) -> Result<Store, Fail>
    ensures hash { IfOk result (λ store. store_hash store ≡ hash) }
{
    let path = PathText::parse(alloc, path)?;
    let options = Options {
        alloc_limit_bytes: limit,
    };
    Ok(Store::at_opts(alloc, &path, hash, options)?)
}

/// `find HEX`: the result of a find.
fn find<D: Disk>(alloc: Global, store: &Store, disk: &mut D, hex: &str) -> Result<String, Fail> {
    let id = id_of(store, hex)?;
    let mut out = Vec::from_slice(alloc, b"before")?;
    let found = store.try_find(alloc, disk, &id, &mut out);
    found_shown(alloc, &found)
}

/// `left HEX`: what a find leaves in its buffer, which held `before`.
fn left<D: Disk>(alloc: Global, store: &Store, disk: &mut D, hex: &str) -> Result<String, Fail> {
    let id = id_of(store, hex)?;
    let mut out = Vec::from_slice(alloc, b"before")?;
    drop(store.try_find(alloc, disk, &id, &mut out));
    Ok(String::from_utf8_lossy(alloc, out.as_slice())?)
}

/// `into HEX`: the kind of the found object, and the contents of the buffer then, which held `before`.
fn find_into<D: Disk>(
    alloc: Global,
    store: &Store,
    disk: &mut D,
    hex: &str,
) -> Result<String, Fail> {
    let id = id_of(store, hex)?;
    let mut out = Vec::from_slice(alloc, b"before")?;
    let kind = store.find_into(alloc, disk, &id, &mut out).unwrap_or(None);
    match kind {
        Some(kind) => object_shown(alloc, kind, out.as_slice()),
        None => Ok(String::from_utf8_lossy(alloc, out.as_slice())?),
    }
}

/// `header HEX`: the result of a header look-up.
fn header<D: Disk>(alloc: Global, store: &Store, disk: &mut D, hex: &str) -> Result<String, Fail> {
    let id = id_of(store, hex)?;
    let found = store.try_header(alloc, disk, &id);
    header_shown(alloc, &found)
}

/// `ask HEX`: the results of a find, a header look-up and a test of presence.
fn answers<D: Disk>(alloc: Global, store: &Store, disk: &mut D, hex: &str) -> Result<String, Fail> {
    let found = find(alloc, store, disk, hex)?;
    let head = header(alloc, store, disk, hex)?;
    let id = id_of(store, hex)?;
    let there = presence_shown(&store.contains(alloc, disk, &id));
    Ok(format!(in alloc; "{found}, {head}, {there}")?)
}

/// The kind and the data of `KIND DATA`.
fn kind_and_data(alloc: Global, text: &str) -> Result<(Kind, Vec<u8>), Fail> {
    let (kind, data) = cut(text);
    let kind = Kind::from_bytes(kind.as_bytes()).ok_or("a kind")?;
    Ok((kind, data_of(alloc, data)?))
}

/// `write KIND DATA`.
fn write<D: Disk>(alloc: Global, store: &Store, disk: &mut D, rest: &str) -> Result<String, Fail> {
    let (kind, data) = kind_and_data(alloc, rest)?;
    let written = store.write_buf(alloc, disk, kind, data.as_slice());
    wrote_shown(alloc, &written)
}

/// `object KIND DATA`, by an object that produces its own data.
fn object<D: Disk>(alloc: Global, store: &Store, disk: &mut D, rest: &str) -> Result<String, Fail> {
    let (kind, data) = kind_and_data(alloc, rest)?;
    let object = Data {
        kind,
        object_hash: store.object_hash(),
        bytes: data.as_slice(),
    };
    let written = store.write(alloc, disk, &object);
    wrote_shown(alloc, &written)
}

/// `as KIND DATA`, under the id of the blob `hello`.
fn write_as<D: Disk>(
    alloc: Global,
    store: &Store,
    disk: &mut D,
    rest: &str,
) -> Result<String, Fail> {
    let id = id_of(store, HELLO)?;
    let (kind, data) = kind_and_data(alloc, rest)?;
    let written = store.write_buf_with_known_id(alloc, disk, kind, data.as_slice(), id);
    wrote_shown(alloc, &written)
}

/// The size and the source of `SIZE FAILING DATA`; the read with the number FAILING fails.
fn size_and_source(alloc: Global, text: &str) -> Result<(u64, MemSource), Fail> {
    let (size, rest) = cut(text);
    let (failing, data) = cut(rest);
    let numbers = [failing.parse::<u64>()?];
    let size = size.parse::<u64>()?;
    let data = data_of(alloc, data)?;
    Ok((size, MemSource::with_faults(alloc, data, &numbers)?))
}

/// `stream SIZE FAILING DATA`: a blob from such a source.
fn stream<D: Disk>(alloc: Global, store: &Store, disk: &mut D, rest: &str) -> Result<String, Fail> {
    let (size, mut from) = size_and_source(alloc, rest)?;
    let written = store.write_stream(alloc, disk, Kind::Blob, size, &mut from);
    wrote_shown(alloc, &written)
}

/// `streamas SIZE FAILING DATA`: `stream` under the id of the blob `hello`.
fn stream_as<D: Disk>(
    alloc: Global,
    store: &Store,
    disk: &mut D,
    rest: &str,
) -> Result<String, Fail> {
    let id = id_of(store, HELLO)?;
    let (size, mut from) = size_and_source(alloc, rest)?;
    let written = store.write_stream_with_known_id(alloc, disk, Kind::Blob, size, &mut from, id);
    wrote_shown(alloc, &written)
}

/// `read PATH`: the bytes of a file, as a text, or why the disk refuses to read it.
fn read<D: Disk>(alloc: Global, disk: &mut D, path: &str) -> Result<String, Fail> {
    let path = PathText::parse(alloc, path)?;
    match disk.read(alloc, &path) {
        Ok((bytes, _)) => Ok(String::from_utf8_lossy(alloc, bytes.as_slice())?),
        Err(error) => Ok(format!(in alloc; "{error}")?),
    }
}

/// The result of a call of a store or its disk. `hello` asks for the blob `hello`.
pub fn called<D: Disk>(
    alloc: Global,
    store: &Store,
    disk: &mut D,
    text: &str,
) -> Result<String, Fail> {
    let (verb, rest) = cut(text);
    match verb {
        "hello" => answers(alloc, store, disk, HELLO),
        "ask" => answers(alloc, store, disk, rest),
        "find" => find(alloc, store, disk, rest),
        "left" => left(alloc, store, disk, rest),
        "into" => find_into(alloc, store, disk, rest),
        "read" => read(alloc, disk, rest),
        "stream" => stream(alloc, store, disk, rest),
        "streamas" => stream_as(alloc, store, disk, rest),
        "object" => object(alloc, store, disk, rest),
        "as" => write_as(alloc, store, disk, rest),
        "machine" => machine_reply(alloc, store, disk, rest),
        "prefix" => prefix_calls::prefix(alloc, store, disk, rest),
        "gather" => prefix_calls::gather(alloc, store, disk, rest),
        "lookup" => lookup_reply(alloc, store, disk, rest),
        "search" => prefix_calls::search(alloc, store, disk, rest),
        "streams" => prefix_calls::streams(alloc, disk),
        "twice" => prefix_calls::twice(alloc, store, rest),
        _ => write(alloc, store, disk, rest),
    }
}
