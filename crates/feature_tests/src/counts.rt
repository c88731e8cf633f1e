//! Counts of bytes that pass, numbers of bytes in words, and a cache's counts that aren't kept.
use gix_features_parts::cache;
use gix_features_parts::progress::{self, ByteSize, Count};
use odb_mem_disk::{MemSink, MemSource, Sink, Source};
use std::test::Fail;
use test_words::compare;

/// A count in memory.
#[derive(Drop)]
struct Total(usize);

impl Count for Total {
    ghost steps = { λ total. total.0 };

    fn inc_by(&mut self, step: usize) {
        self.0 = self.0.saturating_add(step);
    }

    fn step(&self) -> usize {
        self.0
    }
}

/// Reads four bytes and the last one, between which a read fails. Returns how many are counted, or 0 if a read is
/// answered otherwise.
fn counted_reads(source: &mut progress::Read<MemSource, Total>) -> usize {
    let mut out = [0; 4];
    let first = source.read(&mut out).is_ok();
    let second = source.read(&mut out).is_err();
    let third = source.read(&mut out).is_ok();
    if first && second && third {
        source.progress.step()
    } else {
        0
    }
}

// Catches bytes that aren't counted, and a failed read that is.
#[test]
fn reads(rt: HostRuntime) -> Result<(), Fail> {
    let bytes = b"abcde".to_vec(rt.alloc())?;
    let mut source = progress::Read {
        inner: MemSource::with_faults(rt.alloc(), bytes, &[2])?,
        progress: Total(0),
    };
    let count = counted_reads(&mut source);
    drop(source);
    assert!(rt; count == 5);
    Ok(())
}

/// Writes three bytes, and fails to write two. Returns how many are counted, or 0 if a write is answered otherwise.
fn counted_writes(sink: &mut progress::Write<MemSink, Total>) -> usize {
    let first = sink.write(b"abc").is_ok();
    let second = sink.write(b"de").is_err();
    if first && second {
        sink.progress.step()
    } else {
        0
    }
}

// Catches bytes that aren't counted, and a failed write that is.
#[test]
fn writes(rt: HostRuntime) -> Result<(), Fail> {
    let mut sink = progress::Write {
        inner: MemSink::with_faults(rt.alloc(), &[2])?,
        progress: Total(0),
    };
    let count = counted_writes(&mut sink);
    drop(sink);
    assert!(rt; count == 3);
    Ok(())
}

// Catches a number that is rounded or has a unit.
#[test]
fn byte_size(rt: HostRuntime) -> Result<(), Fail> {
    let size = ByteSize(1024);
    let shown = format!(in rt.alloc(); "{size}")?;
    compare("a number of bytes", shown.as_str(), "1024")
}

// Catches counts that are kept.
#[test]
fn cache_counts(rt: HostRuntime) -> Result<(), Fail> {
    let mut counts = cache::Debug::new(String::from_str(rt.alloc(), "packs")?);
    counts.put();
    counts.hit();
    counts.miss();
    assert!(rt; size_of::<cache::Debug>() == 0);
    Ok(())
}
