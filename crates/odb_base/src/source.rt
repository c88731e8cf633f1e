//! Sources and sinks: bytes that come in and go out, and both in memory.
ghost use Rattle.std.specs.Prelude.{◌≡◌, ℕ, ◌≤◌, List, Option, length, take, IfOk, OnOk, OnErr, IsErrOf};
ghost use Rattle.odb_base.specs.Faults.{HasCause, Rose};
ghost use Rattle.odb_base.specs.Source.{Reads, Writes, ReadsFile, Adds};

use crate::NoMemory;
use crate::calls::Calls;
use std::alloc::Global;
use std::marker::Model;
use thiserror::Error;

/// A source or a sink failed: its count of faults rose.
#[derive(Clone, Copy, Debug, Error)]
#[error("failed")]
pub struct Failed;

/// Why a source wasn't read to its end.
#[derive(Clone, Copy, Debug, Error)]
pub enum ReadError {
    #[error("failed")]
    Failed,
    #[error("out of memory")]
    NoMemory,
}

/// The number of bytes asked for at a time: `piece_length` of `specs/Source.antt`.
const PIECE: usize = 65_536;

/// Bytes that come in. A source allocates no memory.
pub trait Source {
    /// The bytes that are left, if the source reports them.
    ghost left: { Self → Option (List ℕ) };

    /// How often a read has failed: a count that never falls, and rises only then.
    ghost faults: { Self → ℕ };

    /// Reads bytes to the front of `out`, and returns their number. 0 for a buffer that isn't empty is the end.
    fn read(&mut self, out: &mut [u8]) -> Result<usize, Failed>
        ensures count { IfOk result (λ n. n ≤ length out.old) }
        ensures bytes { Reads (left self.old) (left self.new) out.new result }
        ensures cause { HasCause (faults self.old) (faults self.new) result }
        ensures same { OnOk result (faults self.new ≡ faults self.old) };
}

/// Where bytes go out. A sink allocates no memory of its caller's.
pub trait Sink {
    /// The bytes that the sink holds, if it reports them.
    ghost held: { Self → Option (List ℕ) };

    /// How often a write has failed: a count that never falls.
    ghost faults: { Self → ℕ };

    /// Writes bytes from the front of `bytes`, and returns their number: at least one, if there are any.
    fn write(&mut self, bytes: &[u8]) -> Result<usize, Failed>
        ensures count { IfOk result (λ n. n ≤ length bytes.now) }
        ensures some { IfOk result (λ n. n ≡ 0 → length bytes.now ≡ 0) }
        ensures bytes { Writes (held self.old) (held self.new) bytes.now result }
        ensures cause { HasCause (faults self.old) (faults self.new) result };
}

/// Reads a source to its end, or until it has given more than `limit` bytes.
pub fn read_file<S: Source>(
    alloc: Global,
    source: &mut S,
    limit: usize,
) -> Result<Vec<u8>, ReadError>
    ensures read { IfOk result (λ bytes. ReadsFile limit (S.left source.old) (S.left source.new) bytes.items) }
    ensures later { S.faults source.old ≤ S.faults source.new }
    ensures failed { IsErrOf result ReadError.Failed → Rose (S.faults source.old) (S.faults source.new) }
{
    let mut bytes = Vec::new(alloc);
    let mut piece = [0u8; PIECE];
    'reading: while bytes.len() <= limit {
        let count = match source.read(&mut piece) {
            Ok(count) => count,
            Err(Failed) => return Err(ReadError::Failed),
        };
        if count == 0 {
            break 'reading;
        }
        if bytes.extend_from_slice(&piece[..count]).is_err() {
            return Err(ReadError::NoMemory);
        }
    }
    Ok(bytes)
}

/// Writes all of some bytes.
pub fn write_all<K: Sink>(sink: &mut K, bytes: &[u8]) -> Result<(), Failed>
    ensures ok { OnOk result (Adds (K.held sink.old) (K.held sink.new) bytes.now) }
    ensures err { OnErr result ((count : ℕ) × Adds (K.held sink.old) (K.held sink.new) (take count bytes.now)) }
    ensures cause { HasCause (K.faults sink.old) (K.faults sink.new) result }
{
    let mut rest = bytes;
    'writing: while !rest.is_empty() {
        let count = sink.write(rest)?;
        let (_, after) = rest.split_at(count);
        rest = after;
    }
    Ok(())
}

/// A source in memory.
///
/// It numbers its reads from 1. A read whose number is listed fails and takes nothing; each other one takes as many
/// bytes as are left and fit.
#[derive(Drop)]
pub struct MemSource {
    bytes: Vec<u8>,
    /// The number of bytes already read.
    taken: usize,
    calls: Calls,
}

impl Model for MemSource {
    ghost use Rattle.odb_base.specs.MemStream.{SourceState, coded_source};

    ghost Value = { SourceState };

    ghost coded = { coded_source };

    ghost use Rattle.std.specs.Prelude.{◌≤◌, drop, vec_len};

    ghost view = { λ s. record { left = drop s.taken s.bytes.items; calls = s.calls } };

    ghost invariant = { λ s. s.taken ≤ vec_len s.bytes };
}

impl MemSource {
    ghost use Rattle.std.specs.FinSet as set;
    ghost use Rattle.odb_base.specs.Calls.{no_calls};

    /// A source of these bytes. No read will fail.
    pub fn new(bytes: Vec<u8>) -> MemSource
        ensures whole { result ≡ record { left = bytes.items; calls = no_calls set.empty } }
    {
        let calls = Calls::new(*bytes.allocator());
        MemSource {
            bytes,
            taken: 0,
            calls,
        }
    }

    /// A source of these bytes. The reads with these numbers, counted from 1, will fail.
    pub fn with_faults(alloc: Global, bytes: Vec<u8>, calls: &[u64]) -> Result<MemSource, NoMemory>
        ensures whole { IfOk result (λ source. source ≡ record { left = bytes.items; calls = no_calls (set.from_list calls.now) }) }
    {
        let calls = Calls::with_faults(alloc, calls)?;
        Ok(MemSource {
            bytes,
            taken: 0,
            calls,
        })
    }

    /// The bytes that are left.
    pub fn left(&self) -> &[u8]
        ensures value { result.now ≡ self.now.left }
    {
        &self.bytes[self.taken..]
    }

    /// The number of reads that failed.
    pub fn faults(&self) -> u64
        ensures count { result ≡ self.now.calls.faults }
    {
        self.calls.faults()
    }
}

impl Source for MemSource {
    ghost use Rattle.std.specs.Prelude.{Some, min, is_err};
    ghost use Rattle.odb_base.specs.Calls.{next_fails, after_call};

    ghost left = { λ s. Some s.left };

    ghost faults = { λ s. s.calls.faults };

    fn read(&mut self, out: &mut [u8]) -> Result<usize, Failed>
        ensures count { IfOk result (λ n. n ≤ length out.old) }
        ensures bytes { Reads (Some self.old.left) (Some self.new.left) out.new result }
        ensures cause { HasCause self.old.calls.faults self.new.calls.faults result }
        ensures same { OnOk result (self.new.calls.faults ≡ self.old.calls.faults) }
        ensures most { IfOk result (λ n. n ≡ min (length out.old) (length self.old.left)) }
        ensures failed { is_err result ≡ next_fails self.old.calls }
        ensures counted { self.new.calls ≡ after_call (is_err result) self.old.calls }
    {
        let failed = self.calls.next_fails();
        self.calls.count(failed);
        if failed {
            return Err(Failed);
        }
        let left = &self.bytes[self.taken..];
        let count = out.len().min(left.len());
        out[..count].copy_from_slice(&left[..count]);
        self.taken += count;
        Ok(count)
    }
}

/// A sink in memory.
///
/// It numbers its writes from 1. A write whose number is listed fails and adds nothing; each other one adds its whole
/// piece, and fails only if there is no memory to grow.
#[derive(Drop)]
pub struct MemSink {
    bytes: Vec<u8>,
    calls: Calls,
}

impl Model for MemSink {
    ghost use Rattle.odb_base.specs.MemStream.{SinkState, coded_sink};

    ghost Value = { SinkState };

    ghost coded = { coded_sink };

    ghost use Rattle.std.specs.Prelude.{vec_capacity};

    ghost view = { λ s. record { held = s.bytes.items; room = vec_capacity s.bytes; calls = s.calls } };
}

impl MemSink {
    ghost use Rattle.std.specs.Prelude.{[]};
    ghost use Rattle.std.specs.FinSet as set;
    ghost use Rattle.odb_base.specs.Calls.{no_calls};

    /// An empty sink. No write will fail.
    pub fn new(alloc: Global) -> MemSink
        ensures held { result.held ≡ [] }
        ensures calls { result.calls ≡ no_calls set.empty }
    {
        MemSink {
            bytes: Vec::new(alloc),
            calls: Calls::new(alloc),
        }
    }

    /// An empty sink. The writes with these numbers, counted from 1, will fail.
    pub fn with_faults(alloc: Global, calls: &[u64]) -> Result<MemSink, NoMemory>
        ensures held { IfOk result (λ sink. sink.held ≡ []) }
        ensures calls { IfOk result (λ sink. sink.calls ≡ no_calls (set.from_list calls.now)) }
    {
        let calls = Calls::with_faults(alloc, calls)?;
        Ok(MemSink {
            bytes: Vec::new(alloc),
            calls,
        })
    }

    /// The bytes that were written.
    pub fn bytes(&self) -> &[u8]
        ensures value { result.now ≡ self.now.held }
    {
        &self.bytes
    }

    /// The bytes that were written, as a vector.
    pub fn into_bytes(self) -> Vec<u8>
        ensures items { result.items ≡ self.held }
    {
        self.bytes
    }

    /// The number of writes that failed.
    pub fn faults(&self) -> u64
        ensures count { result ≡ self.now.calls.faults }
    {
        self.calls.faults()
    }
}

impl Sink for MemSink {
    ghost use Rattle.std.specs.Prelude.{Some, ◌<◌, ◌+◌, ◌⊎◌, true, OnErr, is_err};
    ghost use Rattle.odb_base.specs.Calls.{next_fails, after_call};

    ghost held = { λ s. Some s.held };

    ghost faults = { λ s. s.calls.faults };

    fn write(&mut self, bytes: &[u8]) -> Result<usize, Failed>
        ensures count { IfOk result (λ n. n ≤ length bytes.now) }
        ensures some { IfOk result (λ n. n ≡ 0 → length bytes.now ≡ 0) }
        ensures bytes { Writes (Some self.old.held) (Some self.new.held) bytes.now result }
        ensures cause { HasCause self.old.calls.faults self.new.calls.faults result }
        ensures whole { IfOk result (λ n. n ≡ length bytes.now) }
        ensures listed { next_fails self.old.calls ≡ true → is_err result ≡ true }
        ensures full { OnErr result ((next_fails self.old.calls ≡ true) ⊎ (self.old.room < length self.old.held + length bytes.now)) }
        ensures counted { self.new.calls ≡ after_call (is_err result) self.old.calls }
    {
        let failed = self.calls.next_fails() || self.bytes.extend_from_slice(bytes).is_err();
        self.calls.count(failed);
        if failed { Err(Failed) } else { Ok(bytes.len()) }
    }
}
