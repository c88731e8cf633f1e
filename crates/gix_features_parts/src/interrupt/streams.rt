//! Reads and writes that fail when a flag is set.
ghost use Rattle.std.specs.Prelude.{◌≡◌, ◌≤◌, true, false, length, IfOk, OnOk};
ghost use Rattle.odb_base.specs.Faults.{HasCause};
ghost use Rattle.odb_mem_disk.specs.Source.{Reads, Writes};
ghost use Rattle.gix_features_parts.specs.Interrupt.{Asked};
ghost use Rattle.gix_features_parts.specs.InterruptedCall.{is_interrupted, inner_answer};

use super::Flag;
use odb_mem_disk::{Failed, Sink, Source};
use thiserror::Error;

/// Why a read or a write under a flag failed.
#[derive(Clone, Copy, Debug, Error)]
pub enum Error {
    /// The flag was set. Nothing was read or written.
    #[error("interrupted")]
    Interrupted,
    /// The source or the sink failed.
    #[error("failed")]
    Failed,
}

/// A source that is read only while a flag isn't set.
#[derive(Drop)]
pub struct Read<R, G> {
    /// The source.
    pub inner: R,
    /// The flag, which is asked at each read.
    pub should_interrupt: G,
}

impl<R: Source, G: Flag> Read<R, G> {
    /// Reads bytes to the front of `out`, and returns their number, unless the flag is set.
    pub fn read(&mut self, out: &mut [u8]) -> Result<usize, Error>
        ensures flag { Asked G.tells G.count self.old.should_interrupt (is_interrupted result)
            self.new.should_interrupt }
        ensures interrupted { is_interrupted result ≡ true →
            (self.new.inner ≡ self.old.inner) × (out.new ≡ out.old) }
        ensures count { IfOk result (λ n. n ≤ length out.old) }
        ensures bytes { Reads (R.left self.old.inner) (R.left self.new.inner) out.new (inner_answer result) }
        ensures cause { is_interrupted result ≡ false →
            HasCause (R.faults self.old.inner) (R.faults self.new.inner) (inner_answer result) }
        ensures same { OnOk result (R.faults self.new.inner ≡ R.faults self.old.inner) }
    {
        if self.should_interrupt.is_set() {
            return Err(Error::Interrupted);
        }
        match self.inner.read(out) {
            Ok(count) => Ok(count),
            Err(Failed) => Err(Error::Failed),
        }
    }
}

/// A sink that is written to only while a flag isn't set.
#[derive(Drop)]
pub struct Write<W, G> {
    /// The sink.
    pub inner: W,
    /// The flag, which is asked at each write.
    pub should_interrupt: G,
}

impl<W: Sink, G: Flag> Write<W, G> {
    /// Writes bytes from the front of `bytes`, and returns their number, unless the flag is set.
    pub fn write(&mut self, bytes: &[u8]) -> Result<usize, Error>
        ensures flag { Asked G.tells G.count self.old.should_interrupt (is_interrupted result)
            self.new.should_interrupt }
        ensures interrupted { is_interrupted result ≡ true → self.new.inner ≡ self.old.inner }
        ensures count { IfOk result (λ n. n ≤ length bytes.now) }
        ensures some { IfOk result (λ n. n ≡ 0 → length bytes.now ≡ 0) }
        ensures bytes { Writes (W.held self.old.inner) (W.held self.new.inner) bytes.now (inner_answer result) }
        ensures cause { is_interrupted result ≡ false →
            HasCause (W.faults self.old.inner) (W.faults self.new.inner) (inner_answer result) }
    {
        if self.should_interrupt.is_set() {
            return Err(Error::Interrupted);
        }
        match self.inner.write(bytes) {
            Ok(count) => Ok(count),
            Err(Failed) => Err(Error::Failed),
        }
    }
}
