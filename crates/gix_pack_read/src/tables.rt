//! Tests of the tables of an index.
ghost use Rattle.std.specs.Prelude.{◌≡◌, ◌*◌, ◌<◌, ◌≤◌, ◌↔◌, true, length, IsTrue};
ghost use Rattle.std.specs.List.{list_all};
ghost use Rattle.gix_hash.specs.Kind.{len_in_bytes_of};
ghost use Rattle.gix_pack_read.specs.Bytes.{numbers, same};
ghost use Rattle.gix_pack_read.specs.Rows.{count_to, counts_len, counts_of, ids_of, is_named_below, is_rising as ids_rise};

use crate::bytes::{behind_first, id_of, number_at, part_of};
use gix_hash::Kind;

/// The high bit of four bytes: it marks those that refer to a wide offset.
pub const HIGH_BIT: u32 = 1 << 31;

/// The length of a wide offset in its table, in bytes.
pub const WIDE_LEN: usize = 8;

/// The length of the 256 counts in bytes, four each.
pub const COUNTS_LEN: usize = 1024;

/// Whether each of n ids is below the next.
#[tactic(auto, using(crate::proofs::RowsLemmas::rising_step, crate::proofs::RowsLemmas::rising_short))]
pub fn is_rising(kind: Kind, n: usize, ids: &[u8]) -> bool
    requires room { n * len_in_bytes_of kind ≤ length ids.now }
    ensures rising { result ≡ ids_rise (ids_of kind n ids.now) }
{
    let size = kind.len_in_bytes();
    let mut rest = ids;
    let mut left = n;
    while left > 1 {
        let (id, more) = rest.split_at(size);
        if !id.cmp(&more[..size]).is_lt() {
            return false;
        }
        rest = more;
        left -= 1;
    }
    true
}

/// Whether each of n offsets that refers to a wide one refers to one of the first `wides`.
#[tactic(auto, using(crate::proofs::RowsLemmas::named_step, crate::proofs::RowsLemmas::named_none))]
pub fn are_named(n: usize, offsets: &[u8], wides: u64) -> bool
    requires room { n * 4 ≤ length offsets.now }
    ensures named { result ≡ list_all (is_named_below wides) (numbers n offsets.now) }
{
    let mut rest = offsets;
    let mut left = n;
    while left > 0 {
        if !is_named(number_at(rest, 0), wides) {
            return false;
        }
        rest = behind_first(rest, 4);
        left -= 1;
    }
    true
}

/// Whether an offset refers to one of the first `wides` wide ones, if it refers to one.
pub fn is_named(narrow: u32, wides: u64) -> bool
    ensures named { result ≡ is_named_below wides narrow }
{
    narrow < HIGH_BIT || ((narrow - HIGH_BIT) as u64) < wides
}

/// Whether the 256 counts are those of n ids that rise.
#[tactic(auto, using(crate::proofs::RowsLemmas::counts_next, crate::proofs::RowsLemmas::counts_done))]
pub fn counts_agree(counts: &[u8], kind: Kind, n: usize, ids: &[u8]) -> bool
    requires counts { counts_len ≤ length counts.now }
    requires ids { n * len_in_bytes_of kind ≤ length ids.now }
    requires rising { ids_rise (ids_of kind n ids.now) ≡ true }
    ensures agree { result ≡ same (numbers 256 counts.now) (counts_of (ids_of kind n ids.now)) }
{
    let mut rest = counts;
    for first in 0..256 {
        if !is_count(ids, kind, n, first, number_at(rest, 0) as usize) {
            return false;
        }
        rest = behind_first(rest, 4);
    }
    true
}

// Whether so many of n ids that rise begin with a byte or a lower one: the last of so many does, and none after it.
fn is_count(ids: &[u8], kind: Kind, n: usize, first: usize, count: usize) -> bool
    requires ids { n * len_in_bytes_of kind ≤ length ids.now }
    requires rising { ids_rise (ids_of kind n ids.now) ≡ true }
    ensures count { IsTrue result ↔ (count ≡ count_to (ids_of kind n ids.now) first) }
{
    count <= n
        && (count == 0 || is_counted(ids, kind, n, first, count - 1))
        && (count == n || !is_counted(ids, kind, n, first, count))
}

// Whether the id of a row begins with a byte or a lower one, as those do that come before so many.
#[tactic(auto, using(crate::proofs::SearchLemmas::row_fits, crate::proofs::SearchLemmas::row_id))]
fn is_counted(ids: &[u8], kind: Kind, n: usize, first: usize, row: usize) -> bool
    requires ids { n * len_in_bytes_of kind ≤ length ids.now }
    requires rising { ids_rise (ids_of kind n ids.now) ≡ true }
    requires row { row < n }
    ensures counted { IsTrue result ↔ (row < count_to (ids_of kind n ids.now) first) }
{
    let size = kind.len_in_bytes();
    id_of(kind, part_of(ids, row * size, size)).first_byte() as usize <= first
}
