//! What lists are given is in them.
use odb_base::{ByteList, NoMemory, Sequence};
use std::alloc::{AllocError, Global};
use std::test::Fail;
use test_words::{compare, cut};

/// A list of a word's bytes, a blank, and the bytes of the rest.
fn bytes_of(alloc: Global, text: &str) -> Result<ByteList, NoMemory> {
    let (first, rest) = cut(text);
    let mut bytes = ByteList::from_slice(alloc, first.as_bytes())?;
    bytes.push(b' ')?;
    bytes.extend_from_slice(rest.as_bytes())?;
    Ok(bytes)
}

/// Whether a copy of these bytes equals them, and its text.
fn bytes_shown(alloc: Global, text: &str) -> Result<String, Fail> {
    let bytes = bytes_of(alloc, text)?;
    let copy = bytes.try_clone(alloc)?;
    let same = copy == bytes;
    Ok(copy_shown(alloc, same, copy.into_vec().as_slice())?)
}

fn copy_shown(alloc: Global, same: bool, bytes: &[u8]) -> Result<String, AllocError> {
    let text = str::from_utf8(bytes).unwrap_or("no text");
    format!(in alloc; "{same} {text}")
}

fn items_of(alloc: Global, first: u8, second: u8) -> Result<Sequence<u8>, NoMemory> {
    let mut items: Sequence<u8> = Sequence::new(alloc);
    items.push(first)?;
    items.push(second)?;
    Ok(items)
}

/// The items at 1 and at 2 of a list of two, and the list.
fn items_shown(alloc: Global, first: u8, second: u8) -> Result<String, Fail> {
    let items = items_of(alloc, first, second)?;
    let (last, past) = (items.get(1).copied(), items.get(2).copied());
    let items = items.into_vec();
    Ok(format!(in alloc; "{last:?} {past:?} {items:?}")?)
}

// Catches a call that runs out of memory where there is some, and a copy that is cut.
#[test]
fn lists(rt: HostRuntime) -> Result<(), Fail> {
    compare(
        "bytes",
        bytes_shown(rt.alloc(), "blob 0")?.as_str(),
        "true blob 0",
    )?;
    compare(
        "items",
        items_shown(rt.alloc(), 7, 9)?.as_str(),
        "Some(9) None [7, 9]",
    )
}
