//! Numbers of variable length.
ghost use Rattle.std.specs.Prelude.{◌≡◌, ◌+◌, ◌*◌, ◌<◌, ◌≤◌, ◌^◌, ℕ, List, [], ◌∷◌};
ghost use Rattle.std.specs.Prelude.{IsErrOf, OnErr, IfOk, IfSome, MatchOption};
ghost use Rattle.odb_base.specs.Faults.{Rose};
ghost use Rattle.gix_features_parts.specs.Leb64.{low_bits, goes_on};
ghost use Rattle.gix_features_parts.specs.Leb64Reads.{TakesBytes, IsAtEnd, Decodes};

use odb_mem_disk::{Failed, Source};
use thiserror::Error;

/// Why a number couldn't be read.
#[derive(Clone, Copy, Debug, Error)]
pub enum Error {
    /// The number is above 64 bits.
    #[error("the number has more than 64 bits")]
    Overflow,
    /// The source failed.
    #[error("the source failed")]
    Source,
    /// The source ended before the number's last byte.
    #[error("the number is cut off")]
    Truncated,
}

/// Reads a number from a source, and returns it with the number of its bytes. It allocates no memory.
pub fn leb64_from_read<S: Source>(source: &mut S) -> Result<(u64, usize), Error>
    ensures decoded { (bytes : List ℕ) × TakesBytes (S.left source.old) (S.left source.new) bytes
        × Decodes bytes result }
    ensures truncated { IsErrOf result Error.Truncated → IsAtEnd (S.left source.new) }
    ensures later { S.faults source.old ≤ S.faults source.new }
    ensures failed { IsErrOf result Error.Source → Rose (S.faults source.old) (S.faults source.new) }
    ensures same { (IsErrOf result Error.Source → ⊥) → S.faults source.new ≡ S.faults source.old }
{
    let first = next_byte(source)?;
    let mut value = low_bits(first);
    let mut more = goes_on(first);
    let mut count = 1;
    'reading: while more {
        let byte = next_byte(source)?;
        let Some(longer) = with_byte(value, byte) else {
            return Err(Error::Overflow);
        };
        value = longer;
        more = goes_on(byte);
        count += 1;
    }
    Ok((value, count))
}

/// Whether a byte says that another one follows.
fn goes_on(byte: u8) -> bool
    ensures more { result ≡ goes_on byte }
{
    byte >= 0x80
}

/// A byte's seven bits of the number.
fn low_bits(byte: u8) -> u64
    ensures bits { result ≡ low_bits byte }
{
    u64::from(byte % 0x80)
}

/// The number with one more byte, unless it is above 64 bits.
fn with_byte(value: u64, byte: u8) -> Option<u64>
    ensures number { MatchOption result (2 ^ 64 ≤ (value + 1) * 128 + low_bits byte)
        (λ n. n ≡ (value + 1) * 128 + low_bits byte) }
    ensures fits { IfSome result (λ n. n < 2 ^ 64) }
{
    value
        .checked_add(1)?
        .checked_mul(0x80)?
        .checked_add(low_bits(byte))
}

/// The next byte of a source.
fn next_byte<S: Source>(source: &mut S) -> Result<u8, Error>
    ensures taken { IfOk result (λ byte. TakesBytes (S.left source.old) (S.left source.new) (byte ∷ [])) }
    ensures untaken { OnErr result (TakesBytes (S.left source.old) (S.left source.new) []) }
    ensures read { IsErrOf result Error.Overflow → ⊥ }
    ensures truncated { IsErrOf result Error.Truncated → IsAtEnd (S.left source.new) }
    ensures later { S.faults source.old ≤ S.faults source.new }
    ensures failed { IsErrOf result Error.Source → Rose (S.faults source.old) (S.faults source.new) }
    ensures same { (IsErrOf result Error.Source → ⊥) → S.faults source.new ≡ S.faults source.old }
{
    let mut byte = [0];
    match source.read(&mut byte) {
        Ok(0) => Err(Error::Truncated),
        Ok(_) => Ok(byte[0]),
        Err(Failed) => Err(Error::Source),
    }
}
