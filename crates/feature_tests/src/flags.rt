//! What ends early where a flag is set.
use gix_features_parts::interrupt::{self, AtomicFlag, Flag, Iter, IterWithErr, SetAfter};
use odb_mem_disk::{MemSink, MemSource};
use std::alloc::{AllocError, Global};
use std::fmt::Debug;
use std::sync::atomic::{AtomicBool, Ordering};
use std::test::Fail;
use test_words::{add, compare};

const NUMBERS: [u8; 3] = [1, 2, 3];

/// Adds what is given of an item.
fn add_item<T: Debug>(alloc: Global, all: &mut String, item: &T) -> Result<(), AllocError> {
    let text = format!(in alloc; "{item:?}")?;
    add(all, text.as_str())
}

fn until_set(alloc: Global, all: &mut String, flag: SetAfter) -> Result<(), AllocError> {
    for number in Iter::new(NUMBERS.iter().copied(), flag) {
        add_item(alloc, all, &number)?;
    }
    Ok(())
}

fn error_when_set(alloc: Global, all: &mut String, flag: SetAfter) -> Result<(), AllocError> {
    for number in IterWithErr::new(NUMBERS.iter().copied(), || "stopped", flag) {
        add_item(alloc, all, &number)?;
    }
    Ok(())
}

/// Fails if other numbers are given until a flag is set than those that are wanted.
fn ended_row(alloc: Global, questions: u64, want: &str) -> Result<(), Fail> {
    let mut all = String::new(alloc);
    until_set(alloc, &mut all, SetAfter::new(questions))?;
    compare("until the flag is set", all.as_str(), want)
}

/// Fails so for numbers with an error when the flag is set.
fn failed_row(alloc: Global, questions: u64, want: &str) -> Result<(), Fail> {
    let mut all = String::new(alloc);
    error_when_set(alloc, &mut all, SetAfter::new(questions))?;
    compare("an error where the flag is set", all.as_str(), want)
}

// Catches a flag that is asked only once, an item after the flag, and an error that is given twice or at the inner end.
#[test]
fn items(rt: HostRuntime) -> Result<(), Fail> {
    let alloc: Global = rt.alloc();
    ended_row(alloc, 2, "1, 2")?;
    ended_row(alloc, 9, "1, 2, 3")?;
    failed_row(alloc, 1, "Ok(1), Err(\"stopped\")")?;
    failed_row(alloc, 9, "Ok(1), Ok(2), Ok(3)")
}

// Catches a flag that isn't read again.
#[test]
fn atomic(rt: HostRuntime) -> Result<(), Fail> {
    let word = AtomicBool::new(false);
    let mut flag = AtomicFlag::new(&word);
    let before = flag.is_set();
    word.store(true, Ordering::SeqCst);
    let after = flag.is_set();
    assert!(rt; !before && after);
    Ok(())
}

fn answer_word(answer: Result<usize, interrupt::Error>) -> &'static str {
    match answer {
        Ok(2) => "two",
        Ok(_) => "other",
        Err(interrupt::Error::Interrupted) => "interrupted",
        Err(interrupt::Error::Failed) => "failed",
    }
}

/// A source under a flag that is set after two reads of it.
type Reading = interrupt::Read<MemSource, SetAfter>;

/// Fails if a read is answered otherwise.
fn read_row(source: &mut Reading, text: &str, want: &str) -> Result<(), Fail> {
    let mut out = [0; 2];
    compare(text, answer_word(source.read(&mut out)), want)
}

/// Three reads.
fn read_thrice(source: &mut Reading) -> Result<(), Fail> {
    read_row(source, "first read", "two")?;
    read_row(source, "second read", "failed")?;
    read_row(source, "third read", "interrupted")
}

// Catches a read after the flag was set, and a failed one that is taken for an interruption.
#[test]
fn reads(rt: HostRuntime) -> Result<(), Fail> {
    let bytes = b"abcdef".to_vec(rt.alloc())?;
    let inner = MemSource::with_faults(rt.alloc(), bytes, &[2])?;
    let mut source = interrupt::Read {
        inner,
        should_interrupt: SetAfter::new(2),
    };
    let read = read_thrice(&mut source);
    let is_left = source.inner.left() == b"cdef".as_slice();
    drop(source);
    read?;
    assert!(rt; is_left);
    Ok(())
}

/// A sink under a flag that is set after two reads of it.
type Writing = interrupt::Write<MemSink, SetAfter>;

/// Three writes.
fn write_thrice(sink: &mut Writing) -> Result<(), Fail> {
    compare("first write", answer_word(sink.write(b"ab")), "two")?;
    compare("second write", answer_word(sink.write(b"cd")), "failed")?;
    compare("third write", answer_word(sink.write(b"ef")), "interrupted")
}

// Catches a write after the flag was set, and a failed one that is taken for an interruption.
#[test]
fn writes(rt: HostRuntime) -> Result<(), Fail> {
    let mut sink = interrupt::Write {
        inner: MemSink::with_faults(rt.alloc(), &[2])?,
        should_interrupt: SetAfter::new(2),
    };
    let written = write_thrice(&mut sink);
    let is_written = sink.inner.bytes() == b"ab".as_slice();
    drop(sink);
    written?;
    assert!(rt; is_written);
    Ok(())
}
