//! Sources and sinks that fail.
use crate::run::run;
use odb_mem_disk::{MemDisk, MemSink, MemSource};
use odb_program::SessionStatus;
use std::alloc::Global;
use std::test::Fail;

/// The code of the status of a word if the calls with these numbers fail and nothing was written.
fn code_of(alloc: Global, word: &str, reads: &[u64], writes: &[u64]) -> Result<Option<u8>, Fail> {
    let words = vec![in alloc; word.to_string(alloc)?]?;
    let mut source = script_of(alloc, reads)?;
    code_over(alloc, &words, &mut source, writes)
}

fn code_over(
    alloc: Global,
    words: &[String],
    source: &mut MemSource,
    writes: &[u64],
) -> Result<Option<u8>, Fail> {
    let mut sink = MemSink::with_faults(alloc, writes)?;
    let mut disk = MemDisk::new(alloc)?;
    let status = run(&(), alloc, words, source, &mut sink, &mut disk);
    Ok(sink.bytes().is_empty().then_some(status.code()))
}

fn script_of(alloc: Global, reads: &[u64]) -> Result<MemSource, Fail> {
    let script = b"steps\nturn 0\n".to_vec(alloc)?;
    Ok(MemSource::with_faults(alloc, script, reads)?)
}

fn is_read_fault(alloc: Global, call: u64) -> Result<bool, Fail> {
    Ok(code_of(alloc, "world", &[call], &[])? == Some(3))
}

fn is_write_fault(alloc: Global, word: &str) -> Result<bool, Fail> {
    Ok(code_of(alloc, word, &[], &[1])? == Some(4))
}

// A failed read that is taken for the end, at the first call or after the whole script.
#[test]
fn tells_of_failed_reads(rt: HostRuntime) -> Result<(), Fail> {
    for call in [1, 2] {
        assert!(rt; is_read_fault(rt.alloc(), call)?);
    }
    Ok(())
}

// A failed write that is taken for success.
#[test]
fn tells_of_failed_writes(rt: HostRuntime) -> Result<(), Fail> {
    for word in ["world", "--help", "--version", "frob"] {
        assert!(rt; is_write_fault(rt.alloc(), word)?);
    }
    Ok(())
}
