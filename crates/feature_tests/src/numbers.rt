//! Numbers of variable length, numbers of threads, and sizes of chunks.
ghost use Rattle.std.specs.Prelude.{◌≡◌, IsSome, IsErrOf};

use gix_features_parts::decode::{Error, leb64_from_read};
use gix_features_parts::iter::Chunks;
use gix_features_parts::parallel::{num_threads, optimize_chunk_size_and_thread_limit};
use odb_mem_disk::{MemSource, NoMemory, Source};
use std::alloc::{AllocError, Global};
use std::test::Fail;
use test_words::{add, compare, halves};

/// The bytes that a text of hex digits spells.
fn bytes_of(alloc: Global, digits: &str) -> Result<Vec<u8>, AllocError> {
    let mut bytes = Vec::new(alloc);
    for pair in digits.as_bytes().chunks(2) {
        let pair = str::from_utf8(pair).unwrap_or("");
        bytes.push(u8::from_str_radix(pair, 16).unwrap_or(0))?;
    }
    Ok(bytes)
}

fn error_word(error: Error) -> &'static str {
    match error {
        Error::Overflow => "overflow",
        Error::Source => "source",
        Error::Truncated => "truncated",
    }
}

/// The number at the front of a source and its length, or why there is none, and how many bytes are left.
fn number_shown(alloc: Global, source: &mut MemSource) -> Result<String, AllocError> {
    let read = leb64_from_read(source);
    let left = source.left().len();
    match read {
        Ok((number, count)) => format!(in alloc; "{number} {count} {left}"),
        Err(error) => {
            let word = error_word(error);
            format!(in alloc; "{word} {left}")
        }
    }
}

/// Bytes in hex, and the number that they begin with. Spellings by Git's rule for offsets of deltas.
const NUMBERS: &str = "\
    00|0 1 0;\
    7f|127 1 0;\
    8000|128 2 0;\
    8101|257 2 0;\
    ff7f|16511 2 0;\
    808000|16512 3 0;\
    05aa|5 1 1;\
    80fefefefefefefefe7f|18446744073709551615 10 0;\
    80fefefefefefefeff00|overflow 0;\
    ffffffffffffffffffffff7f|overflow 2;\
    |truncated 0;\
    80|truncated 0;\
    8080|truncated 0";

fn number_row(alloc: Global, row: &str) -> Result<(), Fail> {
    let (digits, want) = halves(row);
    let mut source = MemSource::new(bytes_of(alloc, digits)?);
    compare(digits, number_shown(alloc, &mut source)?.as_str(), want)
}

// Catches bits in a wrong order, a longer spelling that begins with 0, a value that wraps, and a byte too many that is
// read.
#[test]
fn numbers(rt: HostRuntime) -> Result<(), Fail> {
    for row in NUMBERS.split(';') {
        number_row(rt.alloc(), row)?;
    }
    Ok(())
}

// Catches a failed read that is taken for the end.
#[test]
fn failed_read(rt: HostRuntime) -> Result<(), Fail> {
    let bytes = bytes_of(rt.alloc(), "8000")?;
    let mut source = MemSource::with_faults(rt.alloc(), bytes, &[2])?;
    let shown = number_shown(rt.alloc(), &mut source)?;
    compare("a second read that fails", shown.as_str(), "source 1")
}

/// A number and how many bytes it has, or why there is none.
type Number = Result<(u64, usize), Error>;

/// The numbers at the front of two sources that have the same bytes left: the law of numbers, as a clause.
fn read_both<S: Source, T: Source>(one: &mut S, other: &mut T) -> (Number, Number)
    requires told { IsSome (S.left one.old) }
    requires alike { T.left other.old ≡ S.left one.old }
    ensures same { (IsErrOf result.0 Error.Source → ⊥) → (IsErrOf result.1 Error.Source → ⊥) → result.0 ≡ result.1 }
{
    let first = leb64_from_read(one);
    let second = leb64_from_read(other);
    (first, second)
}

// Catches a number that is never read, of which no clause speaks.
#[test]
fn one_number(rt: HostRuntime) -> Result<(), Fail> {
    let mut one = MemSource::new(b"\x81\x01".to_vec(rt.alloc())?);
    let mut other = MemSource::new(b"\x81\x01".to_vec(rt.alloc())?);
    let (first, second) = read_both(&mut one, &mut other);
    drop(one);
    drop(other);
    assert!(rt; matches!(first, Ok((257, 2))) && matches!(second, Ok((257, 2))));
    Ok(())
}

/// A plan: how large chunks are, the limit of threads, and how many there are.
type Plan = (usize, Option<usize>, usize);

/// Fails if a plan isn't the one that is wanted.
fn plan_row(alloc: Global, text: &str, plan: Plan, want: &str) -> Result<(), Fail> {
    let (chunk, limit, threads) = plan;
    let shown = format!(in alloc; "{chunk} {limit:?} {threads}")?;
    compare(text, shown.as_str(), want)
}

// Catches a chunk above the greatest size, an empty one, and threads that would have nothing to do.
#[test]
fn sizes_of_known_items(rt: HostRuntime) -> Result<(), Fail> {
    let alloc: Global = rt.alloc();
    let hundred = optimize_chunk_size_and_thread_limit(10, Some(100), None, Some(4), 1);
    plan_row(alloc, "100 items", hundred, "12 Some(4) 4")?;
    let few = optimize_chunk_size_and_thread_limit(10, Some(3), None, Some(4), 1);
    plan_row(alloc, "3 items", few, "1 Some(1) 1")?;
    let many = optimize_chunk_size_and_thread_limit(10, Some(100_000), None, Some(4), 1);
    plan_row(alloc, "100000 items", many, "1000 Some(4) 4")
}

// Catches bounds of a chunk that are mixed up, and a limit below the number of threads.
#[test]
fn sizes_of_unknown_items(rt: HostRuntime) -> Result<(), Fail> {
    let alloc: Global = rt.alloc();
    let small = optimize_chunk_size_and_thread_limit(10, None, None, Some(4), 1);
    plan_row(alloc, "small chunks", small, "50 Some(4) 4")?;
    let large = optimize_chunk_size_and_thread_limit(5000, None, Some(2), Some(4), 1);
    plan_row(alloc, "large chunks", large, "1000 Some(2) 2")?;
    let one = optimize_chunk_size_and_thread_limit(7, None, Some(0), None, 1);
    plan_row(alloc, "one core", one, "7 Some(1) 1")
}

// Catches a limit of 0 that is taken for no thread.
#[test]
fn threads(rt: HostRuntime) -> Result<(), Fail> {
    let chosen = (
        num_threads(None, 4),
        num_threads(Some(0), 4),
        num_threads(Some(3), 4),
    );
    let shown = format!(in rt.alloc(); "{chosen:?}")?;
    compare("threads", shown.as_str(), "(4, 4, 3)")
}

/// Adds a chunk, if there is memory for it.
fn add_chunk(
    alloc: Global,
    all: &mut String,
    chunk: Result<Vec<u8>, NoMemory>,
) -> Result<(), Fail> {
    let text = format!(in alloc; "{:?}", chunk?)?;
    Ok(add(all, text.as_str())?)
}

/// Numbers in chunks of a size.
fn chunks_shown(alloc: Global, all: &mut String, numbers: &[u8], size: usize) -> Result<(), Fail> {
    for chunk in Chunks::new(alloc, numbers.iter().copied(), size.max(1)) {
        add_chunk(alloc, all, chunk)?;
    }
    Ok(())
}

/// Fails if numbers come in other chunks than those that are wanted.
fn chunk_row(alloc: Global, numbers: &[u8], size: usize, want: &str) -> Result<(), Fail> {
    let mut all = String::new(alloc);
    chunks_shown(alloc, &mut all, numbers, size)?;
    compare("chunks", all.as_str(), want)
}

// Catches a last chunk that is lost, and an empty one after a full one.
#[test]
fn chunks(rt: HostRuntime) -> Result<(), Fail> {
    let alloc: Global = rt.alloc();
    chunk_row(alloc, &[1, 2, 3], 2, "[1, 2], [3]")?;
    chunk_row(alloc, &[1, 2, 3, 4], 2, "[1, 2], [3, 4]")?;
    chunk_row(alloc, &[], 2, "")
}
