//! What is read of indices whose bytes were changed, put into another order, cut or lengthened.
use crate::indices::{
    ONE_WIDE, Parts, REFUSED, SHA1, SHOWN_SHA1, SIGNATURE, VERSIONS, check, index_of, put_rest,
};
use crate::pack_words::{changed, joined, put_counts};
use gix_hash::{Kind, ObjectId};
use gix_pack::index::File;
use odb_base::ByteList;
use std::alloc::{AllocError, Global};
use std::test::Fail;
use test_words::compare;

// The offsets of an index of two rows.
fn offsets_shown(alloc: Global, bytes: ByteList) -> Result<String, AllocError> {
    match File::parse(bytes, Kind::Sha1) {
        Ok(index) => two_offsets(alloc, &index),
        Err(error) => format!(in alloc; "{error:?}"),
    }
}

fn two_offsets(alloc: Global, index: &File) -> Result<String, AllocError> {
    if index.num_objects() != 2 {
        return "another number of rows".to_string(alloc);
    }
    let first = index.pack_offset_at_index(0);
    let second = index.pack_offset_at_index(1);
    format!(in alloc; "{first} {second}")
}

const WIDE: Parts<'static> = Parts {
    offsets: ONE_WIDE,
    wides: &[0, 0, 0, 1, 0, 0, 0, 0],
    ..VERSIONS
};

// Changes of a byte of the two rows with a wide offset, and the offsets that are then read, if any.
const CHANGES: &[(&str, usize, u8, &str)] = &[
    ("no change", 0, 255, "4294967296 12"),
    ("no mark", 0, 254, REFUSED),
    ("version 1", 7, 1, REFUSED),
    ("version 3", 7, 3, REFUSED),
    ("a count too early", 131, 1, REFUSED),
    ("the high byte of a count", 132, 1, REFUSED),
    ("a count that falls", 171, 2, REFUSED),
    ("a count that passes the rows", 431, 3, REFUSED),
    ("one object less", 1031, 1, REFUSED),
    ("one object more", 1031, 3, REFUSED),
    ("an id that is not counted", 1032, 32, REFUSED),
    ("ids out of order", 1032, 200, REFUSED),
    ("another id", 1051, 59, "4294967296 12"),
    ("a CRC value", 1072, 7, "4294967296 12"),
    ("no such wide row", 1083, 1, REFUSED),
    ("a narrow offset", 1084, 127, "4294967296 2130706444"),
    ("a wide offset", 1088, 255, "18374686483966590976 12"),
    ("the own hash", 1135, 1, "4294967296 12"),
];

fn check_changes(alloc: Global, whole: &[u8]) -> Result<(), Fail> {
    for (name, place, byte, want) in CHANGES {
        let found = offsets_shown(alloc, changed(alloc, whole, *place, *byte)?)?;
        compare(name, found.as_str(), want)?;
    }
    Ok(())
}

// A count that is not compared, a wide row that does not exist, or bytes that matter although reading ignores them.
#[test]
fn reads_changed_indices(rt: HostRuntime) -> Result<(), Fail> {
    let bytes = index_of(rt.alloc(), &WIDE)?;
    check_changes(rt.alloc(), bytes.as_slice())
}

// The low byte of the first of the 256 counts.
const FIRST_COUNT: usize = 11;

fn check_count(alloc: Global, whole: &[u8], place: usize, count: u8) -> Result<(), Fail> {
    let bytes = changed(alloc, whole, place, count)?;
    let want = if bytes.as_slice() == whole {
        "4294967296 12"
    } else {
        REFUSED
    };
    let found = offsets_shown(alloc, bytes)?;
    compare("another count", found.as_str(), want)
}

fn check_counts(alloc: Global, whole: &[u8]) -> Result<(), Fail> {
    for byte in 0..256usize {
        for count in 0..=3u8 {
            check_count(alloc, whole, FIRST_COUNT + 4 * byte, count)?;
        }
    }
    Ok(())
}

// A count that falls, or passes the two rows, at each place.
#[test]
fn refuses_other_counts(rt: HostRuntime) -> Result<(), Fail> {
    let bytes = index_of(rt.alloc(), &WIDE)?;
    check_counts(rt.alloc(), bytes.as_slice())
}

// Orders of the five ids in which two neighbours have changed places, or one id is there twice.
const OUT_OF_ORDER: &[[usize; 5]] = &[
    [1, 0, 2, 3, 4],
    [0, 2, 1, 3, 4],
    [0, 1, 3, 2, 4],
    [0, 1, 2, 4, 3],
    [0, 0, 2, 3, 4],
    [0, 1, 1, 3, 4],
    [0, 1, 2, 2, 4],
    [0, 1, 2, 3, 3],
];

fn put_order(bytes: &mut ByteList, order: &[usize]) -> Result<(), Fail> {
    for place in order {
        if let Some(id) = SHA1.ids.get(*place) {
            bytes.extend_from_slice(ObjectId::from_hex(id)?.as_bytes())?;
        }
    }
    Ok(())
}

fn in_order(alloc: Global, order: &[usize]) -> Result<ByteList, Fail> {
    let mut bytes = ByteList::from_slice(alloc, SIGNATURE)?;
    put_counts(&mut bytes, SHA1.counts)?;
    put_order(&mut bytes, order)?;
    put_rest(&mut bytes, &SHA1)?;
    Ok(bytes)
}

// Two ids that are not compared, at each place.
#[test]
fn refuses_ids_out_of_order(rt: HostRuntime) -> Result<(), Fail> {
    check(
        rt.alloc(),
        in_order(rt.alloc(), &[0, 1, 2, 3, 4])?,
        Kind::Sha1,
        SHOWN_SHA1,
    )?;
    for order in OUT_OF_ORDER {
        check(
            rt.alloc(),
            in_order(rt.alloc(), order)?,
            Kind::Sha1,
            REFUSED,
        )?;
    }
    Ok(())
}

const HIGH: Parts<'static> = Parts {
    offsets: &[128, 0, 0, 1, 128, 0, 0, 0],
    wides: &[0, 0, 0, 0, 255, 255, 255, 255, 0, 0, 0, 0, 128, 0, 0, 0],
    ..VERSIONS
};

const SHOWN_HIGH: &str = "2147483648 4294967295";

fn check_cuts(alloc: Global, whole: &[u8]) -> Result<(), Fail> {
    for cut in 1..=whole.len() {
        let found = offsets_shown(alloc, joined(alloc, &[whole], cut)?)?;
        compare("cut", found.as_str(), REFUSED)?;
    }
    Ok(())
}

// A wide offset that no row refers to is allowed.
fn check_more(alloc: Global, whole: &[u8]) -> Result<(), Fail> {
    for more in 0..=16usize {
        let found = offsets_shown(alloc, joined(alloc, &[whole, &[0; 16]], 16 - more)?)?;
        let want = if more % 8 == 0 { SHOWN_HIGH } else { REFUSED };
        compare("with more", found.as_str(), want)?;
    }
    Ok(())
}

// A length that is not compared, of an index that is cut or has more bytes.
#[test]
fn reads_other_lengths(rt: HostRuntime) -> Result<(), Fail> {
    let bytes = index_of(rt.alloc(), &HIGH)?;
    check_cuts(rt.alloc(), bytes.as_slice())?;
    check_more(rt.alloc(), bytes.as_slice())
}
