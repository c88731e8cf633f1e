//! Sources and sinks over readers and writers of std.
ghost use Rattle.std.specs.Prelude.{◌≡◌, ◌≤◌, length, None, IfOk, OnOk};
ghost use Rattle.std.specs.Io.KnownBytes.{ReadConsumes, WriteAppends};
ghost use Rattle.odb_base.specs.Faults.{HasCause, Rose};
ghost use Rattle.odb_base.specs.Retry.{is_retried};

use crate::{Failed, Sink, Source};
use std::io::{ErrorKind, Read, Write};

/// How often an interrupted read or write is tried. One that is interrupted each time fails, so that none goes on
/// forever.
const TRIES: u32 = 1_000_000;

/// Whether a read or a write that failed so is tried again: only if it was interrupted.
fn is_retried(kind: ErrorKind) -> bool
    ensures retried { result ≡ is_retried kind }
{
    kind == ErrorKind::Interrupted
}

/// A source over a reader of std. It doesn't report its bytes; if the reader does, a read gives them in order, and
/// nothing only at their end.
#[derive(Drop)]
pub struct StdSource<R> {
    inner: R,
    faults: u64,
}

impl<R: Read> StdSource<R> {
    /// A source that reads from a reader.
    pub fn new(inner: R) -> StdSource<R>
        ensures inner { result.inner ≡ inner }
        ensures faults { result.faults ≡ 0 }
    {
        StdSource { inner, faults: 0 }
    }

    /// The reader.
    pub fn into_inner(self) -> R
        ensures inner { result ≡ self.inner }
    {
        self.inner
    }

    /// The number of reads that failed.
    pub fn faults(&self) -> u64
        ensures count { result ≡ self.now.faults }
    {
        self.faults
    }
}

impl<R: Read> Source for StdSource<R> {
    ghost left = { λ _. None };

    ghost faults = { λ s. s.faults };

    fn read(&mut self, out: &mut [u8]) -> Result<usize, Failed>
        ensures count { IfOk result (λ n. n ≤ length out.old) }
        ensures known { ReadConsumes (R.remaining self.old.inner) (R.remaining self.new.inner) result out.new }
        ensures cause { HasCause self.old.faults self.new.faults result }
        ensures same { OnOk result (self.new.faults ≡ self.old.faults) }
    {
        for _ in 0..TRIES {
            match self.inner.read(out) {
                Ok(count) => return Ok(count),
                Err(e) if is_retried(e.kind()) => {}
                Err(_) => break,
            }
        }
        self.faults = self.faults.saturating_add(1);
        Err(Failed)
    }
}

/// A sink over a writer of std. It doesn't report its bytes; if the writer does, a write adds what it takes at their end.
#[derive(Drop)]
pub struct StdSink<W> {
    inner: W,
    faults: u64,
}

impl<W: Write> StdSink<W> {
    /// A sink that writes to a writer.
    pub fn new(inner: W) -> StdSink<W>
        ensures inner { result.inner ≡ inner }
        ensures faults { result.faults ≡ 0 }
    {
        StdSink { inner, faults: 0 }
    }

    /// The writer.
    pub fn into_inner(self) -> W
        ensures inner { result ≡ self.inner }
    {
        self.inner
    }

    /// The number of writes that failed.
    pub fn faults(&self) -> u64
        ensures count { result ≡ self.now.faults }
    {
        self.faults
    }

    /// Counts a write that failed.
    fn fault(&mut self) -> Failed
        ensures inner { self.new.inner ≡ self.old.inner }
        ensures later { self.old.faults ≤ self.new.faults }
        ensures rose { Rose self.old.faults self.new.faults }
    {
        self.faults = self.faults.saturating_add(1);
        Failed
    }
}

impl<W: Write> Sink for StdSink<W> {
    ghost held = { λ _. None };

    ghost faults = { λ s. s.faults };

    fn write(&mut self, bytes: &[u8]) -> Result<usize, Failed>
        ensures count { IfOk result (λ n. n ≤ length bytes.now) }
        ensures some { IfOk result (λ n. n ≡ 0 → length bytes.now ≡ 0) }
        ensures known { WriteAppends (W.contents self.old.inner) (W.contents self.new.inner) result bytes.now }
        ensures cause { HasCause self.old.faults self.new.faults result }
    {
        for _ in 0..TRIES {
            match self.inner.write(bytes) {
                Ok(0) if !bytes.is_empty() => return Err(self.fault()),
                Ok(count) => return Ok(count),
                Err(e) if is_retried(e.kind()) => {}
                Err(_) => return Err(self.fault()),
            }
        }
        Err(self.fault())
    }
}
