//! A table of ids that rise, with the counts of their first bytes: the row of an id, and the rows of a prefix.
//!
//! The counts say which rows begin with a byte. Among those a search halves what is left with each comparison.
ghost use Rattle.std.specs.Prelude.{◌≡◌, ◌*◌, ◌≤◌, true, length};
ghost use Rattle.hex.specs.Hex.{IsBytes};
ghost use Rattle.gix_hash.specs.Kind.{len_in_bytes_of};
ghost use Rattle.gix_pack_read.specs.Rows.{counts_fit, counts_len, ids_of, is_rising};

use crate::bytes::{id_of, number_at, part_of};
use gix_hash::{Kind, ObjectId, Prefix, Steps};
use std::cmp::Ordering;
use std::ops::Range;
use std::sync::ledger::Ledger;

// The length of a count in bytes.
const COUNT_LEN: usize = 4;

/// A table of ids that rise, and the 256 counts of their first bytes.
#[derive(Drop)]
pub struct IdTable<'a> {
    kind: Kind,
    count: u32,
    counts: &'a [u8],
    ids: &'a [u8],
    ghost counts_room: { counts_len ≤ length counts.now },
    ghost ids_room: { count * len_in_bytes_of kind ≤ length ids.now },
    ghost bytes: { IsBytes ids.now },
    ghost rising: { is_rising (ids_of kind count ids.now) ≡ true },
    ghost agree: { counts_fit counts.now (ids_of kind count ids.now) ≡ true },
}

impl<'a> IdTable<'a> {
    ghost use Rattle.std.specs.Prelude.{ℕ, ◌+◌, ◌-◌, ◌<◌, ◌↔◌, slice_get, Some, None, IfSome, IsTrue};
    ghost use Rattle.gix_hash.specs.ObjectId.{first_byte_of};
    ghost use Rattle.gix_hash.specs.Prefix.{prefix_cmp};
    ghost use Rattle.gix_hash.specs.Steps.{AreTwoSearches, IsSearch};
    ghost use Rattle.gix_pack_read.specs.Rows.{begin_with, count_below, count_to, IsPrefixRun, IsRowOf};
    ghost use Rattle.gix_pack_read.specs.IdTable.{ids_in, IsFront};

    /// The table of `count` ids in these bytes.
    pub fn new(kind: Kind, count: u32, counts: &'a [u8], ids: &'a [u8]) -> IdTable<'a>
        requires counts { counts_len ≤ length counts.now }
        requires room { count * len_in_bytes_of kind ≤ length ids.now }
        requires rising { is_rising (ids_of kind count ids.now) ≡ true }
        requires agree { counts_fit counts.now (ids_of kind count ids.now) ≡ true }
        ensures ids { ids_in result ≡ ids_of kind count ids.now }
        ensures count { result.count ≡ count }
    {
        IdTable {
            kind,
            count,
            counts,
            ids,
        }
    }

    /// The id of a row.
    #[tactic(auto, using(crate::proofs::SearchLemmas::row_fits, crate::proofs::SearchLemmas::row_id))]
    pub fn id_at(&self, row: u32) -> ObjectId
        requires row { row < self.now.count }
        ensures id { slice_get (ids_in self.now) row ≡ Some result }
    {
        let size = self.kind.len_in_bytes();
        id_of(self.kind, part_of(self.ids, row as usize * size, size))
    }

    // How many ids begin with a byte or a lower one.
    fn count_to(&self, first: u8) -> u32
        ensures count { result ≡ count_to (ids_in self.now) first }
    {
        number_at(self.counts, first as usize * COUNT_LEN)
    }

    // How many ids begin with a lower byte.
    #[tactic(auto, using(crate::proofs::FirstByteLemmas::none_below_zero, crate::proofs::FirstByteLemmas::below_next))]
    fn count_below(&self, first: u8) -> u32
        ensures count { result ≡ count_below (ids_in self.now) first }
    {
        match first.checked_sub(1) {
            None => 0,
            Some(before) => self.count_to(before),
        }
    }

    // The rows of the ids that begin with a byte: from the first one up to the one after the last.
    fn rows_of_byte(&self, first: u8) -> (u32, u32)
        ensures count { result.1 ≡ result.0 + begin_with (ids_in self.now) first }
        ensures within { result.1 ≤ self.now.count }
        ensures exact { (row : ℕ) (id : ObjectId) → slice_get (ids_in self.now) row ≡ Some id → first_byte_of id ≡ first → (result.0 ≤ row) × (row < result.1) }
    {
        (self.count_below(first), self.count_to(first))
    }

    /// The row of an id.
    pub fn row_of<L: Ledger>(&self, id: &ObjectId, steps: &mut Steps<L>) -> Option<u32>
        ensures row { IsRowOf (ids_in self.now) id.now result }
        ensures steps { IsSearch (begin_with (ids_in self.now) (first_byte_of id.now)) steps.old steps.new }
    {
        let (start, end) = self.rows_of_byte(id.first_byte());
        self.row_between(start, end, id, steps)
    }

    // The row of an id from `start` on, up to `end`.
    fn row_between<L: Ledger>(
        &self,
        start: u32,
        end: u32,
        id: &ObjectId,
        steps: &mut Steps<L>,
    ) -> Option<u32>
        requires order { start ≤ end }
        requires within { end ≤ self.now.count }
        ensures found { IfSome result (λ row. slice_get (ids_in self.now) row ≡ Some id.now) }
        ensures none { result ≡ None → (row : ℕ) → start ≤ row → row < end → slice_get (ids_in self.now) row ≡ Some id.now → ⊥ }
        ensures steps { IsSearch (end - start) steps.old steps.new }
    {
        let mut low = start;
        let mut high = end;
        while low < high {
            let middle = low + (high - low) / 2;
            match self.id_at(middle).cmp_counted(id, steps) {
                Ordering::Less => low = middle + 1,
                Ordering::Equal => return Some(middle),
                Ordering::Greater => high = middle,
            }
        }
        None
    }

    /// The rows of a prefix: those that begin with its first byte and are below it are passed, and then those that have it.
    pub fn rows_of_prefix<L: Ledger>(&self, prefix: &Prefix, steps: &mut Steps<L>) -> Range<u32>
        ensures run { IsPrefixRun (ids_in self.now) prefix.now result.start result.end }
        ensures steps { AreTwoSearches (begin_with (ids_in self.now) (first_byte_of prefix.now.id)) steps.old steps.new }
    {
        let (first, behind) = self.rows_of_byte(prefix.as_oid().first_byte());
        let start = self.other_row(first, behind, prefix, Ordering::Greater, steps);
        let end = self.other_row(start, behind, prefix, Ordering::Equal, steps);
        start..end
    }

    // The first row from `start` on, up to `end`, whose id doesn't compare with a prefix in this way, if no later one does.
    fn other_row<L: Ledger>(
        &self,
        start: u32,
        end: u32,
        prefix: &Prefix,
        order: Ordering,
        steps: &mut Steps<L>,
    ) -> u32
        requires order { start ≤ end }
        requires within { end ≤ self.now.count }
        requires front { IsFront prefix.now order (ids_in self.now) start end }
        ensures from { start ≤ result }
        ensures to { result ≤ end }
        ensures passed { (row : ℕ) (id : ObjectId) → start ≤ row → row < result → slice_get (ids_in self.now) row ≡ Some id → prefix_cmp prefix.now id ≡ order }
        ensures others { (row : ℕ) (id : ObjectId) → result ≤ row → row < end → slice_get (ids_in self.now) row ≡ Some id → prefix_cmp prefix.now id ≡ order → ⊥ }
        ensures steps { IsSearch (end - start) steps.old steps.new }
    {
        let mut low = start;
        let mut high = end;
        while low < high {
            let middle = low + (high - low) / 2;
            if self.compares(middle, prefix, order, steps) {
                low = middle + 1;
            } else {
                high = middle;
            }
        }
        low
    }

    // Whether a prefix compares with the id of a row in this way.
    fn compares<L: Ledger>(
        &self,
        row: u32,
        prefix: &Prefix,
        order: Ordering,
        steps: &mut Steps<L>,
    ) -> bool
        requires row { row < self.now.count }
        ensures compared { IfSome (slice_get (ids_in self.now) row) (λ id. IsTrue result ↔ (prefix_cmp prefix.now id ≡ order)) }
        ensures step { steps.new ≡ steps.old + 1 }
    {
        prefix.cmp_oid_counted(&self.id_at(row), steps) == order
    }
}
