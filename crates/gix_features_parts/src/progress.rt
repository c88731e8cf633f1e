//! Counts of what has been done, and reads and writes whose bytes are counted.
ghost use Rattle.std.specs.Prelude.{◌≡◌, ◌+◌, ◌≤◌, ℕ, min, length, IfOk, OnOk, OnErr};
ghost use Rattle.odb_base.specs.Faults.{HasCause};
ghost use Rattle.odb_mem_disk.specs.Source.{Reads, Writes};
ghost use Rattle.gix_features_parts.specs.Progress.{counted, CountsBytes};

use odb_mem_disk::{Failed, Sink, Source};
use std::fmt;

/// A count of what has been done.
pub trait Count {
    /// The count; it saturates.
    ghost steps: { Self → ℕ };

    /// Adds `step` to the count.
    fn inc_by(&mut self, step: usize)
        ensures counted { steps self.new ≡ counted (steps self.old) step };

    /// The count so far.
    fn step(&self) -> usize
        ensures told { result ≡ steps self.now };
}

/// A source whose bytes are counted as they are read.
#[derive(Drop)]
pub struct Read<T, P> {
    /// The source.
    pub inner: T,
    /// The count, to which each read adds.
    pub progress: P,
}

impl<T: Source, P: Count> Source for Read<T, P> {
    ghost left = { λ s. T.left s.inner };

    ghost faults = { λ s. T.faults s.inner };

    fn read(&mut self, out: &mut [u8]) -> Result<usize, Failed>
        ensures count { IfOk result (λ n. n ≤ length out.old) }
        ensures bytes { Reads (T.left self.old.inner) (T.left self.new.inner) out.new result }
        ensures cause { HasCause (T.faults self.old.inner) (T.faults self.new.inner) result }
        ensures same { OnOk result (T.faults self.new.inner ≡ T.faults self.old.inner) }
        ensures progress { CountsBytes (P.steps self.old.progress) (P.steps self.new.progress) result }
        ensures unread { OnErr result (self.new.progress ≡ self.old.progress) }
    {
        let count = self.inner.read(out)?;
        self.progress.inc_by(count);
        Ok(count)
    }
}

/// A sink whose bytes are counted as they are written.
#[derive(Drop)]
pub struct Write<T, P> {
    /// The sink.
    pub inner: T,
    /// The count, to which each write adds.
    pub progress: P,
}

impl<T: Sink, P: Count> Sink for Write<T, P> {
    ghost held = { λ s. T.held s.inner };

    ghost faults = { λ s. T.faults s.inner };

    fn write(&mut self, bytes: &[u8]) -> Result<usize, Failed>
        ensures count { IfOk result (λ n. n ≤ length bytes.now) }
        ensures some { IfOk result (λ n. n ≡ 0 → length bytes.now ≡ 0) }
        ensures bytes { Writes (T.held self.old.inner) (T.held self.new.inner) bytes.now result }
        ensures cause { HasCause (T.faults self.old.inner) (T.faults self.new.inner) result }
        ensures progress { CountsBytes (P.steps self.old.progress) (P.steps self.new.progress) result }
        ensures unwritten { OnErr result (self.new.progress ≡ self.old.progress) }
    {
        let count = self.inner.write(bytes)?;
        self.progress.inc_by(count);
        Ok(count)
    }
}

/// A number of bytes, which is printed in decimal.
#[derive(Clone, Copy, Debug, PartialEq, Eq, PartialOrd, Ord, Hash)]
pub struct ByteSize(pub u64);

impl fmt::Display for ByteSize {
    ghost use Rattle.std.specs.Prelude.{Some};
    ghost use Rattle.std.specs.Fmt.{decimal};

    ghost output = { λ size. Some (decimal size.0) };

    fn fmt<W: fmt::Write>(&self, f: &mut fmt::Formatter<W>) -> fmt::Result {
        let size = self.0;
        write!(f, "{size}")
    }
}
