//! Pack indices, version 2: the offsets of the objects of a pack.
ghost use Rattle.std.specs.Prelude.{◌≡◌, ◌^◌, ◌<◌, ◌≤◌, ◌↔◌, length, slice_get, true, IfOk, IsOk, IsTrue, Some};
ghost use Rattle.gix_pack_read.specs.IndexRows.{rows_left};
ghost use Rattle.gix_hash.specs.ObjectId.{first_byte_of};
ghost use Rattle.gix_hash.specs.Steps.{AreTwoSearches, IsSearch};
ghost use Rattle.gix_pack_read.specs.IdTable.{ids_in};
ghost use Rattle.gix_pack_read.specs.Rows.{begin_with, IsPrefixRun, IsRowOf};
ghost use Rattle.gix_pack_read.specs.Index.{has_length as length_fits, ids_place, index_ids, index_offsets, index_rows, is_index};
ghost use Rattle.gix_pack_read.specs.Index.{narrow_offsets, objects_in, offsets_place, tables_agree, wide_offsets, wides_in, wides_place};

mod walk;

use crate::file_bytes::FileBytes;
use crate::id_table::IdTable;
use crate::tables::{self, HIGH_BIT, WIDE_LEN};
use gix_hash::{Kind, ObjectId, Prefix, SHA1_LEN, SHA256_LEN, Steps};
use odb_base::ByteList;
use std::marker::{Brand, Model};
use std::ops::Range;
use std::sync::ledger::{Blank, Ledger};
use thiserror::Error;
pub use walk::Iter;

/// The first bytes of each index: the magic number of indices with a version, and version 2.
pub const SIGNATURE: [u8; 8] = [255, 116, 79, 99, 0, 0, 0, 2];

// The offset of the 256 counts: after the magic number and the version.
const COUNTS_PLACE: usize = 8;

// The offset of the last count, the number of objects: after the magic number, the version and 255 counts.
const LAST_COUNT_PLACE: usize = 1028;

// The offset of the ids: after the magic number, the version and the counts.
const IDS_PLACE: usize = 1032;

// The length of a CRC value.
const CHECK_LEN: usize = 4;

// The length of an offset that isn't wide.
const OFFSET_LEN: usize = 4;

/// The bytes are no pack index of version 2.
#[derive(Clone, Copy, Debug, Error)]
#[error("the bytes are no pack index of version 2")]
pub struct BadIndex;

/// A pack index.
///
/// Contracts see it as its bytes and the hash of its ids.
#[derive(Drop)]
pub struct File {
    file: FileBytes,
}

impl Model for File {
    ghost use Rattle.std.specs.Prelude.{◌≡◌, true};
    ghost use Rattle.gix_pack_read.specs.FileBytes.{FileBytes as seen};
    ghost use Rattle.gix_pack_read.specs.Index.{is_index};

    ghost Value = { seen };

    ghost view = { λ index. record { kind = index.file.kind; bytes = index.file.bytes } };

    ghost invariant = { λ index. is_index index.file.kind index.file.bytes ≡ true };
}

/// A row of an index.
#[derive(Clone, Copy, Debug)]
pub struct Entry {
    pub oid: ObjectId,
    pub pack_offset: u64,
    /// Always None: CRC values are not read.
    pub crc32: Option<u32>,
}

impl File {
    /// Reads an index from its bytes, which it keeps.
    pub fn parse(bytes: ByteList, kind: Kind) -> Result<File, BadIndex>
        ensures found { IfOk result (λ index. index ≡ record { kind = kind; bytes = bytes }) }
        ensures exact { IsOk result ↔ IsTrue (is_index kind bytes) }
    {
        let file = FileBytes { kind, bytes };
        if is_whole(&file) {
            Ok(File { file })
        } else {
            Err(BadIndex)
        }
    }

    /// How many objects the index has.
    #[tactic(auto, using(crate::proofs::IndexLemmas::has_ids))]
    pub fn num_objects(&self) -> u32
        ensures count { result ≡ objects_in self.now.bytes }
        ensures index { is_index self.now.kind self.now.bytes ≡ true }
    {
        count_of(&self.file)
    }

    // The ids, with the counts of their first bytes.
    #[tactic(auto, using(crate::proofs::IndexLemmas::has_ids))]
    fn table(&self) -> IdTable<'_>
        ensures ids { ids_in result ≡ index_ids self.now.kind self.now.bytes }
        ensures count { result.count ≡ objects_in self.now.bytes }
    {
        IdTable::new(
            self.file.kind,
            count_of(&self.file),
            self.file.behind(COUNTS_PLACE),
            self.file.behind(IDS_PLACE),
        )
    }

    /// The id of a row.
    pub fn oid_at_index(&self, n: u32) -> ObjectId
        requires row { n < objects_in self.now.bytes }
        ensures id { slice_get (index_ids self.now.kind self.now.bytes) n ≡ Some result }
    {
        self.table().id_at(n)
    }

    /// The offset in the pack of a row's object.
    pub fn pack_offset_at_index(&self, n: u32) -> u64
        requires row { n < objects_in self.now.bytes }
        ensures offset { slice_get (index_offsets self.now.kind self.now.bytes) n ≡ Some result }
    {
        let narrow = self.narrow_at(n);
        if narrow < HIGH_BIT {
            return narrow as u64;
        }
        self.wide_at(narrow - HIGH_BIT)
    }

    // The four bytes of a row's offset.
    #[tactic(auto, using(crate::proofs::IndexLemmas::has_ids))]
    fn narrow_at(&self, row: u32) -> u32
        requires row { row < objects_in self.now.bytes }
        ensures offset { slice_get (narrow_offsets self.now.kind self.now.bytes) row ≡ Some result }
        ensures index { is_index self.now.kind self.now.bytes ≡ true }
    {
        let place = offsets_place_of(self.file.kind, count_of(&self.file));
        self.file.number_at(place + row as usize * OFFSET_LEN)
    }

    // A row of the wide offsets.
    #[tactic(auto, using(crate::proofs::IndexLemmas::has_ids))]
    fn wide_at(&self, wide: u32) -> u64
        requires wide { wide < wides_in self.now.kind self.now.bytes }
        ensures offset { slice_get (wide_offsets self.now.kind self.now.bytes) wide ≡ Some result }
    {
        let place = wides_place_of(self.file.kind, count_of(&self.file));
        self.file.long_at(place + wide as usize * WIDE_LEN)
    }

    /// The row of an id, if it has one.
    pub fn lookup(&self, id: &ObjectId) -> Option<u32>
        ensures row { IsRowOf (index_ids self.now.kind self.now.bytes) id.now result }
    {
        self.lookup_uncounted::<Brand>(id, Blank::new(1))
    }

    // The row of an id, by a counter that is dropped.
    fn lookup_uncounted<L: Ledger>(&self, id: &ObjectId, blank: Blank) -> Option<u32>
        requires name { blank.name ≡ L.name }
        requires parts { blank.parts ≡ L.parts }
        requires some { 0 < blank.parts }
        ensures row { IsRowOf (index_ids self.now.kind self.now.bytes) id.now result }
    {
        self.lookup_counted(id, &mut Steps::<L>::new(blank))
    }

    /// The row of an id, if it has one, by binary search among those that begin with the same byte.
    pub fn lookup_counted<L: Ledger>(&self, id: &ObjectId, steps: &mut Steps<L>) -> Option<u32>
        ensures row { IsRowOf (index_ids self.now.kind self.now.bytes) id.now result }
        ensures steps { IsSearch (begin_with (index_ids self.now.kind self.now.bytes) (first_byte_of id.now)) steps.old steps.new }
    {
        self.table().row_of(id, steps)
    }

    /// The range of rows whose ids begin with a prefix.
    pub fn lookup_prefix(&self, prefix: &Prefix) -> Range<u32>
        ensures run { IsPrefixRun (index_ids self.now.kind self.now.bytes) prefix.now result.start result.end }
    {
        self.lookup_prefix_uncounted::<Brand>(prefix, Blank::new(1))
    }

    // The range of rows of a prefix, by a counter that is dropped.
    fn lookup_prefix_uncounted<L: Ledger>(&self, prefix: &Prefix, blank: Blank) -> Range<u32>
        requires name { blank.name ≡ L.name }
        requires parts { blank.parts ≡ L.parts }
        requires some { 0 < blank.parts }
        ensures run { IsPrefixRun (index_ids self.now.kind self.now.bytes) prefix.now result.start result.end }
    {
        self.lookup_prefix_counted(prefix, &mut Steps::<L>::new(blank))
    }

    /// The range of rows whose ids begin with a prefix, by two binary searches among those that begin with its first byte.
    pub fn lookup_prefix_counted<L: Ledger>(
        &self,
        prefix: &Prefix,
        steps: &mut Steps<L>,
    ) -> Range<u32>
        ensures run { IsPrefixRun (index_ids self.now.kind self.now.bytes) prefix.now result.start result.end }
        ensures steps { AreTwoSearches (begin_with (index_ids self.now.kind self.now.bytes) (first_byte_of prefix.now.id)) steps.old steps.new }
    {
        self.table().rows_of_prefix(prefix, steps)
    }

    /// The rows, in the order of their ids.
    pub fn iter(&self) -> Iter<'_>
        ensures rows { rows_left result ≡ index_rows self.now.kind self.now.bytes }
    {
        Iter {
            index: self,
            row: 0,
        }
    }
}

// Whether bytes are an index.
#[tactic(auto, using(crate::proofs::IndexLemmas::short_file), unfolding(crate::specs::Index::is_index))]
fn is_whole(file: &FileBytes) -> bool
    ensures whole { result ≡ is_index file.now.kind file.now.bytes }
{
    file.bytes.as_slice().starts_with(&SIGNATURE)
        && file.len() >= IDS_PLACE
        && has_length(file)
        && has_tables(file)
}

// Whether the length is that of the number of objects and of a number of wide offsets.
fn has_length(file: &FileBytes) -> bool
    requires room { ids_place ≤ length file.now.bytes }
    ensures length { result ≡ length_fits file.now.kind file.now.bytes }
{
    let fixed = wides_place_of(file.kind, count_of(file)) + 2 * file.hash_len();
    file.len() == fixed + WIDE_LEN * wides_of(file)
}

// Whether the tables of an index of the right length agree with each other.
#[tactic(auto, using(crate::proofs::IndexLemmas::table_rooms), unfolding(crate::specs::Index::tables_agree))]
fn has_tables(file: &FileBytes) -> bool
    requires length { length_fits file.now.kind file.now.bytes ≡ true }
    ensures agree { result ≡ tables_agree file.now.kind file.now.bytes }
{
    let count = count_of(file);
    let n = count as usize;
    let ids = file.behind(IDS_PLACE);
    let offsets = file.behind(offsets_place_of(file.kind, count));
    tables::is_rising(file.kind, n, ids)
        && tables::counts_agree(file.behind(COUNTS_PLACE), file.kind, n, ids)
        && tables::are_named(n, offsets, wides_of(file) as u64)
}

// The number of objects, from the last of the counts.
fn count_of(file: &FileBytes) -> u32
    requires room { ids_place ≤ length file.now.bytes }
    ensures count { result ≡ objects_in file.now.bytes }
{
    file.number_at(LAST_COUNT_PLACE)
}

// How many wide offsets the length leaves room for.
fn wides_of(file: &FileBytes) -> usize
    requires room { ids_place ≤ length file.now.bytes }
    ensures wides { result ≡ wides_in file.now.kind file.now.bytes }
{
    let fixed = wides_place_of(file.kind, count_of(file)) + 2 * file.hash_len();
    file.len().saturating_sub(fixed) / WIDE_LEN
}

// Where the offsets of `count` objects begin: after the ids and the CRC values.
fn offsets_place_of(kind: Kind, count: u32) -> usize
    ensures place { result ≡ offsets_place kind count }
    ensures small { result < 2 ^ 40 }
{
    match kind {
        Kind::Sha1 => IDS_PLACE + count as usize * (SHA1_LEN + CHECK_LEN),
        Kind::Sha256 => IDS_PLACE + count as usize * (SHA256_LEN + CHECK_LEN),
    }
}

// Where the wide offsets of `count` objects begin: after the offsets.
fn wides_place_of(kind: Kind, count: u32) -> usize
    ensures place { result ≡ wides_place kind count }
    ensures small { result < 2 ^ 40 }
{
    match kind {
        Kind::Sha1 => IDS_PLACE + count as usize * (SHA1_LEN + CHECK_LEN + OFFSET_LEN),
        Kind::Sha256 => IDS_PLACE + count as usize * (SHA256_LEN + CHECK_LEN + OFFSET_LEN),
    }
}
