//! What is read of multi-pack indices whose ids were put into another order, or whose counts were changed.
use crate::git_multi_indices::{SHA1, SHOWN_SHA1, TWO};
use crate::multi_indices::{READ, REFUSED, file_of, file_shown, in_order, put_ids, two_shown};
use crate::pack_words::{changed, put_counts};
use odb_base::ByteList;
use std::alloc::Global;
use std::test::Fail;
use test_words::compare;

// Orders of the four ids in which two neighbours have changed places, or one id is there twice.
const OUT_OF_ORDER: &[[usize; 4]] = &[
    [1, 0, 2, 3],
    [0, 2, 1, 3],
    [0, 1, 3, 2],
    [0, 0, 2, 3],
    [0, 1, 1, 3],
    [0, 1, 2, 2],
];

fn put_order(bytes: &mut ByteList, order: &[usize]) -> Result<(), Fail> {
    for place in order {
        if let Some(id) = SHA1.ids.get(*place) {
            put_ids(bytes, &[*id])?;
        }
    }
    Ok(())
}

fn check_order(alloc: Global, order: &[usize], want: &str) -> Result<(), Fail> {
    let mut counts = ByteList::new(alloc);
    put_counts(&mut counts, SHA1.counts)?;
    let mut ids = ByteList::new(alloc);
    put_order(&mut ids, order)?;
    let bytes = in_order(alloc, &SHA1, counts.as_slice(), ids.as_slice())?;
    let found = file_shown(alloc, bytes)?;
    compare(want, found.as_str(), want)
}

// Two ids that are not compared, at each place.
#[test]
fn refuses_ids_out_of_order(rt: HostRuntime) -> Result<(), Fail> {
    check_order(rt.alloc(), &[0, 1, 2, 3], SHOWN_SHA1)?;
    for order in OUT_OF_ORDER {
        check_order(rt.alloc(), order, REFUSED)?;
    }
    Ok(())
}

// The low byte of the first of the 256 counts of the multi-index of two objects.
const FIRST_COUNT: usize = 99;

fn check_count(alloc: Global, whole: &[u8], place: usize, count: u8) -> Result<(), Fail> {
    let bytes = changed(alloc, whole, place, count)?;
    let want = if bytes.as_slice() == whole {
        READ
    } else {
        REFUSED
    };
    let found = two_shown(alloc, bytes)?;
    compare("another count", found.as_str(), want)
}

fn check_counts(alloc: Global, whole: &[u8]) -> Result<(), Fail> {
    for byte in 0..256usize {
        for count in 0..=3u8 {
            check_count(alloc, whole, FIRST_COUNT + 4 * byte, count)?;
        }
    }
    Ok(())
}

// A count that falls, or passes the two rows, at each place.
#[test]
fn refuses_other_counts(rt: HostRuntime) -> Result<(), Fail> {
    let bytes = file_of(rt.alloc(), &TWO)?;
    check_counts(rt.alloc(), bytes.as_slice())
}
