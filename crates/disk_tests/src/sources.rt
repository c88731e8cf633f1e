//! What sources and sinks give and take, in memory and over readers and writers of std.
ghost use Rattle.std.specs.Prelude.{◌≤◌, IfOk};

use crate::real::count;
use odb_mem_disk::{Failed, MemSink, MemSource, Sink, Source, StdSink, StdSource};
use std::alloc::{AllocError, Global};
use std::io::{self, ErrorKind, Read, Write};
use std::test::Fail;
use test_words::{compare, halves};

/// What a read gives, and what the buffer then holds.
fn read_shown(
    alloc: Global,
    read: Result<usize, Failed>,
    out: &[u8],
) -> Result<String, AllocError> {
    match read {
        Ok(count) => buffer_shown(alloc, count, out),
        Err(Failed) => "failed".to_string(alloc),
    }
}

fn buffer_shown(alloc: Global, count: usize, out: &[u8]) -> Result<String, AllocError> {
    let text = str::from_utf8(out).unwrap_or("no text");
    format!(in alloc; "{count} {text}")
}

/// Reads into one buffer of four bytes, once for each line, and compares.
fn check_reads<S: Source>(alloc: Global, source: &mut S, lines: &str) -> Result<(), Fail> {
    let mut out = [b'.'; 4];
    for want in lines.split('\n') {
        let read = source.read(&mut out);
        let found = read_shown(alloc, read, &out)?;
        compare("read", found.as_str(), want)?;
    }
    Ok(())
}

fn compare_bytes(found: &[u8], want: &[u8]) -> Result<(), Fail> {
    if found == want {
        return Ok(());
    }
    Err(Fail::new("other bytes"))
}

fn check_faulty_source(alloc: Global, source: &mut MemSource) -> Result<(), Fail> {
    check_reads(alloc, source, "4 abcd\nfailed")?;
    compare_bytes(source.left(), b"ef")?;
    count(source.faults(), 1)?;
    check_reads(alloc, source, "2 ef..\n0 ef..")
}

// Catches a failed read that takes bytes, and one that isn't counted.
#[test]
fn a_source_in_memory(rt: HostRuntime) -> Result<(), Fail> {
    let bytes = b"abcdef".to_vec(rt.alloc())?;
    let mut source = MemSource::with_faults(rt.alloc(), bytes, &[2])?;
    check_faulty_source(rt.alloc(), &mut source)
}

// Catches a read that gives more than is left.
#[test]
fn a_plain_source_in_memory(rt: HostRuntime) -> Result<(), Fail> {
    let mut source = MemSource::new(b"x".to_vec(rt.alloc())?);
    check_reads(rt.alloc(), &mut source, "1 x...\n0 x...")?;
    count(source.faults(), 0)
}

/// What a write gives.
fn write_shown(alloc: Global, written: Result<usize, Failed>) -> Result<String, AllocError> {
    match written {
        Ok(count) => format!(in alloc; "{count}"),
        Err(Failed) => "failed".to_string(alloc),
    }
}

/// Writes the text of each row, in turn, and compares what the write gives.
fn check_writes<S: Sink>(alloc: Global, sink: &mut S, rows: &str) -> Result<(), Fail> {
    for row in rows.split('\n') {
        let (text, want) = halves(row);
        let found = write_shown(alloc, sink.write(text.as_bytes()))?;
        compare(text, found.as_str(), want)?;
    }
    Ok(())
}

fn check_faulty_sink(alloc: Global, sink: &mut MemSink) -> Result<(), Fail> {
    check_writes(alloc, sink, "abc|3\ndef|failed\ngh|2")?;
    compare_bytes(sink.bytes(), b"abcgh")?;
    count(sink.faults(), 1)
}

// Catches a failed write that adds bytes, and one that fails twice.
#[test]
fn a_sink_in_memory(rt: HostRuntime) -> Result<(), Fail> {
    let mut sink = MemSink::with_faults(rt.alloc(), &[2, 2])?;
    check_faulty_sink(rt.alloc(), &mut sink)?;
    compare_bytes(sink.into_bytes().as_slice(), b"abcgh")
}

// Catches a write of nothing that fails.
#[test]
fn a_plain_sink_in_memory(rt: HostRuntime) -> Result<(), Fail> {
    let mut sink = MemSink::new(rt.alloc());
    check_writes(rt.alloc(), &mut sink, "|0")?;
    count(sink.faults(), 0)
}

/// A reader and a writer that fails so at its first call, serves the second, and then fails.
#[derive(Drop)]
struct Shaky {
    first: ErrorKind,
    calls: u8,
}

impl Shaky {
    fn new(first: ErrorKind) -> Shaky {
        Shaky { first, calls: 0 }
    }

    fn serve(&mut self, len: usize) -> io::Result<usize>
        ensures within { IfOk result (λ n. n ≤ len) }
    {
        self.calls = self.calls.saturating_add(1);
        match self.calls {
            1 => Err(io::Error::from(self.first)),
            2 => Ok(len.min(3)),
            _ => Err(io::Error::from(ErrorKind::BrokenPipe)),
        }
    }
}

impl Read for Shaky {
    fn read(&mut self, buf: &mut [u8]) -> io::Result<usize> {
        self.serve(buf.len())
    }
}

impl Write for Shaky {
    fn write(&mut self, buf: &[u8]) -> io::Result<usize> {
        self.serve(buf.len())
    }

    fn flush(&mut self) -> io::Result<()> {
        Ok(())
    }
}

/// A reader and a writer that is interrupted each time.
#[derive(Drop)]
struct Stuck;

impl Read for Stuck {
    fn read(&mut self, _buf: &mut [u8]) -> io::Result<usize> {
        Err(io::Error::from(ErrorKind::Interrupted))
    }
}

/// A writer that takes nothing.
#[derive(Drop)]
struct Full;

impl Write for Full {
    fn write(&mut self, _buf: &[u8]) -> io::Result<usize> {
        Ok(0)
    }

    fn flush(&mut self) -> io::Result<()> {
        Ok(())
    }
}

/// Reads from a reader, once for each line, and compares what the reads give and how many failed.
fn check_reader<R: Read + Drop>(
    alloc: Global,
    reader: R,
    lines: &str,
    faults: u64,
) -> Result<(), Fail> {
    let mut source = StdSource::new(reader);
    check_reads(alloc, &mut source, lines)?;
    count(source.faults(), faults)
}

/// Writes the text of each row to a writer, and compares what the writes give and how many failed.
fn check_writer<W: Write + Drop>(
    alloc: Global,
    writer: W,
    rows: &str,
    faults: u64,
) -> Result<(), Fail> {
    let mut sink = StdSink::new(writer);
    check_writes(alloc, &mut sink, rows)?;
    count(sink.faults(), faults)
}

/// What a reader that has an end gives, and that nothing of it is left.
fn check_slice(alloc: Global) -> Result<(), Fail> {
    let mut source = StdSource::new(b"abcde".as_slice());
    check_reads(alloc, &mut source, "4 abcd\n1 ebcd\n0 ebcd")?;
    count(source.faults(), 0)?;
    compare_bytes(source.into_inner(), b"")
}

fn check_shaky_reader(
    alloc: Global,
    first: ErrorKind,
    lines: &str,
    faults: u64,
) -> Result<(), Fail> {
    check_reader(alloc, Shaky::new(first), lines, faults)
}

// Catches a read that gives more than the reader did, an interrupted one that is reported as a failure, a failure
// that is reported as the end, and a read that is retried forever.
#[test]
fn readers_of_std(rt: HostRuntime) -> Result<(), Fail> {
    check_slice(rt.alloc())?;
    check_shaky_reader(rt.alloc(), ErrorKind::Interrupted, "3 ....", 0)?;
    check_shaky_reader(rt.alloc(), ErrorKind::Interrupted, "3 ....\nfailed", 1)?;
    check_reader(rt.alloc(), Stuck, "failed", 1)
}

// Catches a read that is retried though it wasn't interrupted, a failure that is counted twice, and one after which
// no read is served.
#[test]
fn readers_that_fail_once(rt: HostRuntime) -> Result<(), Fail> {
    check_shaky_reader(rt.alloc(), ErrorKind::BrokenPipe, "failed\n3 ....", 1)?;
    check_shaky_reader(rt.alloc(), ErrorKind::WouldBlock, "failed\n3 ....", 1)?;
    check_shaky_reader(rt.alloc(), ErrorKind::UnexpectedEof, "failed\n3 ....", 1)
}

/// What a list that grows takes, and what it then holds.
fn check_list(alloc: Global) -> Result<(), Fail> {
    let mut sink = StdSink::new(Vec::new(alloc));
    check_writes(alloc, &mut sink, "abc|3\n|0\nd|1")?;
    count(sink.faults(), 0)?;
    compare_bytes(sink.into_inner().as_slice(), b"abcd")
}

fn check_shaky_writer(
    alloc: Global,
    first: ErrorKind,
    rows: &str,
    faults: u64,
) -> Result<(), Fail> {
    check_writer(alloc, Shaky::new(first), rows, faults)
}

// Catches a write that loses bytes, an interrupted one that is reported as a failure, and a writer that takes nothing
// but whose write is reported as done.
#[test]
fn writers_of_std(rt: HostRuntime) -> Result<(), Fail> {
    check_list(rt.alloc())?;
    check_shaky_writer(rt.alloc(), ErrorKind::Interrupted, "abcd|3\nd|failed", 1)?;
    check_writer(rt.alloc(), Full, "|0\na|failed", 1)
}

// Catches a write that is retried though it wasn't interrupted, a failure that is counted twice, and one after which
// no write is served.
#[test]
fn writers_that_fail_once(rt: HostRuntime) -> Result<(), Fail> {
    check_shaky_writer(rt.alloc(), ErrorKind::BrokenPipe, "abcd|failed\nabcd|3", 1)?;
    check_shaky_writer(rt.alloc(), ErrorKind::WouldBlock, "abcd|failed\nabcd|3", 1)?;
    check_shaky_writer(rt.alloc(), ErrorKind::WriteZero, "abcd|failed\nabcd|3", 1)
}
