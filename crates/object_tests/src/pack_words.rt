//! What the tests share: comparisons, and joining, changing and counting bytes.
ghost use Rattle.std.specs.Prelude.{◌≤◌, length};

use odb_base::{ByteList, NoMemory};
use std::alloc::Global;
use std::ops::Range;
use std::test::Fail;

/// Fails where bytes are others than are wanted.
pub fn compare_bytes(asked: &str, found: &ByteList, want: &ByteList) -> Result<(), Fail> {
    if found == want {
        return Ok(());
    }
    Err(Fail::new(asked))
}

/// Parts one after another, without the last `cut` bytes.
pub fn joined(alloc: Global, parts: &[&[u8]], cut: usize) -> Result<ByteList, NoMemory> {
    let mut whole = ByteList::new(alloc);
    for part in parts {
        whole.extend_from_slice(part)?;
    }
    let kept = whole.len().saturating_sub(cut);
    ByteList::from_slice(alloc, first_of(whole.as_slice(), kept))
}

fn first_of(bytes: &[u8], kept: usize) -> &[u8]
    requires room { kept ≤ length bytes.now }
{
    let (front, _) = bytes.split_at(kept);
    front
}

/// The bytes with one changed.
pub fn changed(alloc: Global, bytes: &[u8], place: usize, byte: u8) -> Result<ByteList, NoMemory> {
    let mut other = ByteList::new(alloc);
    for (at, old) in bytes.iter().enumerate() {
        other.push(if at == place { byte } else { *old })?;
    }
    Ok(other)
}

/// Counts of ids as numbers of four bytes: how many rows have which number.
pub fn put_counts(table: &mut ByteList, counts: &[(u16, u8)]) -> Result<(), NoMemory> {
    for (times, count) in counts {
        for _ in 0..*times {
            table.extend_from_slice(&[0, 0, 0, *count])?;
        }
    }
    Ok(())
}

/// The rows of a range, if it has any.
pub fn rows_in(run: Range<u32>) -> Option<(u32, u32)> {
    if run.start < run.end {
        Some((run.start, run.end))
    } else {
        None
    }
}
