//! The header of an entry, read from the bytes at whose start it is.
ghost use Rattle.std.specs.Prelude.{◌≡◌, ◌<◌, ◌≤◌, length, nat_lt, IfSome};
ghost use Rattle.std.specs.List.{position};
ghost use Rattle.gix_pack_read.specs.Pack.{longest_header, most_size_bytes, size_bits};
ghost use Rattle.gix_pack_read.specs.PackHead.{head_from, head_seen, head_whole};

use super::Error;
use crate::bytes::{behind_first, part_of};

// The length of the longest header: a first byte with four bits of the size, and nine with seven each.
const LONGEST_HEADER: usize = 10;

// A size below 2^64 has four bits in the first byte, and a number below this in the others.
const HIGH_LIMIT: u64 = 1 << 60;

// The contents of an entry's header, whatever its type.
#[derive(Clone, Copy)]
pub(super) struct Head {
    pub(super) code: u8,
    pub(super) size: u64,
    pub(super) header_len: usize,
}

// The header at the start of bytes; only its last byte has bit 7 clear.
#[tactic(auto, using(crate::proofs::EntryLemmas::head_missing, crate::proofs::EntryLemmas::head_long, crate::proofs::EntryLemmas::head_found))]
pub(super) fn read_head(rest: &[u8]) -> Result<Head, Error>
    ensures head { head_seen result ≡ head_from rest.now }
{
    let Some(last) = place_of_last(rest) else {
        return Err(Error::BadEntry);
    };
    if last >= LONGEST_HEADER {
        return Err(Error::BadEntry);
    }
    head_in(part_of(rest, 0, last + 1))
}

// The place of the first byte whose bit 7 is clear.
fn place_of_last(rest: &[u8]) -> Option<usize>
    ensures first { result ≡ position (λ b. nat_lt b 128) rest.now }
    ensures within { IfSome result (λ last. last < length rest.now) }
{
    rest.iter().position(|byte| *byte < 128)
}

// A header that is not longer than the longest.
#[tactic(auto, using(crate::proofs::EntryLemmas::head_too_large, crate::proofs::EntryLemmas::head_that_fits))]
fn head_in(header: &[u8]) -> Result<Head, Error>
    requires some { 0 < length header.now }
    requires short { length header.now ≤ longest_header }
    ensures head { head_seen result ≡ head_whole header.now }
{
    let first = header[0];
    let high = size_bits_in(behind_first(header, 1));
    if high >= HIGH_LIMIT {
        return Err(Error::BadEntry);
    }
    Ok(Head {
        code: first / 16 % 8,
        size: high * 16 + (first % 16) as u64,
        header_len: header.len(),
    })
}

// The number in bytes of seven bits, the lowest first.
#[tactic(auto, using(crate::proofs::EntryLemmas::bits_none, crate::proofs::EntryLemmas::bits_before, crate::proofs::EntryLemmas::bits_small, crate::proofs::EntryLemmas::bits_fit))]
fn size_bits_in(bytes: &[u8]) -> u64
    requires short { length bytes.now ≤ most_size_bytes }
    ensures size { result ≡ size_bits bytes.now }
{
    let mut value = 0;
    let mut place = bytes.len();
    while place > 0 {
        place -= 1;
        value = (bytes[place] % 128) as u64 + 128 * value;
    }
    value
}
