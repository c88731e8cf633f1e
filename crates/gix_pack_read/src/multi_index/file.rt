//! Multi-pack indices: reading them from bytes, and look-ups.
ghost use Rattle.std.specs.Prelude.{◌≡◌, ◌↔◌, ◌<◌, IsTrue, length, map, option_map, slice_get, Some, Ok, IfOk, IfErr};
ghost use Rattle.gix_pack_read.specs.MultiIndex.{multi_index_of, read_of, told, IsRefusal};
ghost use Rattle.gix_pack_read.specs.MultiIndexLayout.{rows_at, IsLaidOut};
ghost use Rattle.gix_pack_read.specs.MultiIndexRows.{rows_left};
ghost use Rattle.gix_hash.specs.ObjectId.{first_byte_of};
ghost use Rattle.gix_hash.specs.Steps.{IsSearch};
ghost use Rattle.gix_pack_read.specs.IdTable.{ids_in};
ghost use Rattle.gix_pack_read.specs.Rows.{begin_with, PackRow, IsPrefixRun, IsRowOf};

use crate::bytes::is_within;
use crate::id_table::IdTable;
use crate::multi_index::layout::Layout;
use crate::multi_index::parts::read;
use crate::multi_index::rows::Rows;
use crate::multi_index::walk::Iter;
use gix_hash::{Kind, ObjectId, Prefix, Steps};
use odb_base::{ByteList, NoMemory, PathName, Sequence};
use std::alloc::Global;
use std::marker::{Brand, Model};
use std::ops::Range;
use std::sync::ledger::{Blank, Ledger};
use thiserror::Error;

/// Why bytes are no multi-pack index.
#[derive(Clone, Copy, Debug, Error)]
pub enum Error {
    /// The bytes are outside the format.
    #[error("the bytes are no multi-pack index of version 1")]
    BadMultiIndex,
    /// There are more bytes than the limit allows.
    #[error("the multi-pack index is longer than the limit")]
    AboveLimit,
    #[error("out of memory")]
    NoMemory,
}

impl From<NoMemory> for Error {
    ghost use Rattle.std.specs.Prelude.{◌≡◌};
    ghost use Rattle.gix_pack_read.specs.declared.multi_index.file.Error.TheVariants.{NoMemory as out_of_memory};

    ghost from_gives = { λ _ e. e ≡ out_of_memory };

    fn from(_: NoMemory) -> Self {
        Error::NoMemory
    }
}

/// A multi-pack index.
///
/// Contracts see it as its bytes, which hold the hash of its ids, the names of its packs, and its rows.
#[derive(Drop)]
pub struct File {
    kind: Kind,
    bytes: ByteList,
    names: Sequence<PathName>,
    layout: Layout,
}

impl Model for File {
    ghost use Rattle.std.specs.Prelude.{List, ℕ};
    ghost use Rattle.gix_pack_read.specs.MultiIndexLayout.{IsRead};

    ghost Value = { List ℕ };

    ghost view = { λ file. file.bytes };

    ghost invariant = { λ file. IsRead file.kind file.names file.layout file.bytes };
}

/// A row of a multi-pack index.
#[derive(Clone, Copy, Debug)]
pub struct Entry {
    pub oid: ObjectId,
    pub pack_offset: u64,
    pub pack_index: u32,
}

impl File {
    /// Reads a multi-pack index from its bytes, which it keeps. The limit in bytes, if there is one, is tested first:
    /// longer input is `AboveLimit`, and other bytes that are no multi-pack index `BadMultiIndex`.
    #[tactic(auto, using(crate::proofs::ReadLemmas::above, crate::proofs::ReadLemmas::outside, crate::proofs::ReadLemmas::inside))]
    pub fn parse(alloc: Global, bytes: ByteList, limit: Option<u64>) -> Result<File, Error>
        ensures kept { IfOk result (λ file. file ≡ bytes) }
        ensures usable { IfOk result (λ _. read_of limit bytes ≡ Ok (told bytes)) }
        ensures refused { IfErr result (IsRefusal limit bytes) }
    {
        if !is_within(limit, bytes.len() as u64) {
            return Err(Error::AboveLimit);
        }
        match read(alloc, bytes.as_slice())? {
            None => Err(Error::BadMultiIndex),
            Some(found) => Ok(File {
                kind: found.kind,
                bytes,
                names: found.names,
                layout: found.layout,
            }),
        }
    }

    /// Whether these are its bytes, so that they needn't be read again: they are a multi-pack index.
    #[tactic(auto, using(crate::proofs::ReadLemmas::is_told))]
    pub fn has_bytes(&self, bytes: &[u8]) -> bool
        ensures same { IsTrue result ↔ (self.now ≡ bytes.now) }
        ensures index { multi_index_of self.now ≡ Some (told self.now) }
    {
        self.bytes.as_slice() == bytes
    }

    // The rows in the bytes.
    #[tactic(auto, using(crate::proofs::ReadLemmas::told_rows, crate::proofs::ReadLemmas::told_count))]
    fn rows(&self) -> Rows<'_>
        ensures rows { rows_at result.kind result.layout result.bytes.now ≡ (told self.now).rows }
        ensures count { result.layout.count ≡ length (told self.now).rows }
        ensures laid_out { IsLaidOut result.kind result.layout result.bytes.now }
    {
        Rows {
            kind: self.kind,
            layout: self.layout,
            bytes: self.bytes.as_slice(),
        }
    }

    /// The hash of the ids.
    #[tactic(auto, using(crate::proofs::ReadLemmas::told_kind))]
    pub fn object_hash(&self) -> Kind
        ensures hash { result ≡ (told self.now).kind }
    {
        self.kind
    }

    /// The number of packs.
    #[tactic(auto, using(crate::proofs::ReadLemmas::told_names))]
    pub fn num_indices(&self) -> u32
        ensures count { result ≡ length (told self.now).names }
    {
        self.names.len() as u32
    }

    /// The number of objects.
    #[tactic(auto, using(crate::proofs::ReadLemmas::told_count, crate::proofs::ReadLemmas::is_told))]
    pub fn num_objects(&self) -> u32
        ensures count { result ≡ length (told self.now).rows }
        ensures multi_index { multi_index_of self.now ≡ Some (told self.now) }
    {
        self.layout.count
    }

    /// The names of the packs' indices.
    #[tactic(auto, using(crate::proofs::ReadLemmas::told_names))]
    pub fn index_names(&self) -> &[PathName]
        ensures names { result.now ≡ (told self.now).names }
    {
        self.names.as_slice()
    }

    /// The id of a row.
    pub fn oid_at_index(&self, n: u32) -> ObjectId
        requires row { n < length (told self.now).rows }
        ensures id { option_map (λ (row : PackRow). row.id) (slice_get (told self.now).rows n) ≡ Some result }
    {
        self.rows().id_at(n)
    }

    /// The number of a row's pack among the names, and the offset of the row's object in that pack.
    pub fn pack_id_and_pack_offset_at_index(&self, n: u32) -> (u32, u64)
        requires row { n < length (told self.now).rows }
        ensures pack { option_map (λ (row : PackRow). row.pack) (slice_get (told self.now).rows n) ≡ Some result.0 }
        ensures offset { option_map (λ (row : PackRow). row.offset) (slice_get (told self.now).rows n) ≡ Some result.1 }
    {
        self.rows().place_at(n)
    }

    // The ids of the rows, with the counts of their first bytes.
    fn table(&self) -> IdTable<'_>
        ensures ids { ids_in result ≡ map (λ (row : PackRow). row.id) (told self.now).rows }
    {
        self.rows().table()
    }

    /// The row of an id, if it has one.
    pub fn lookup(&self, id: &ObjectId) -> Option<u32>
        ensures row { IsRowOf (map (λ (row : PackRow). row.id) (told self.now).rows) id.now result }
    {
        self.lookup_uncounted::<Brand>(id, Blank::new(1))
    }

    // The row of an id, by a counter that is dropped.
    fn lookup_uncounted<L: Ledger>(&self, id: &ObjectId, blank: Blank) -> Option<u32>
        requires name { blank.name ≡ L.name }
        requires parts { blank.parts ≡ L.parts }
        requires some { 0 < blank.parts }
        ensures row { IsRowOf (map (λ (row : PackRow). row.id) (told self.now).rows) id.now result }
    {
        self.lookup_counted(id, &mut Steps::<L>::new(blank))
    }

    /// The row of an id, if it has one, by binary search among those that begin with the same byte.
    pub fn lookup_counted<L: Ledger>(&self, id: &ObjectId, steps: &mut Steps<L>) -> Option<u32>
        ensures row { IsRowOf (map (λ (row : PackRow). row.id) (told self.now).rows) id.now result }
        ensures steps { IsSearch (begin_with (map (λ (row : PackRow). row.id) (told self.now).rows) (first_byte_of id.now)) steps.old steps.new }
    {
        self.table().row_of(id, steps)
    }

    /// The range of rows whose ids begin with a prefix.
    pub fn lookup_prefix(&self, prefix: &Prefix) -> Range<u32>
        ensures run { IsPrefixRun (map (λ (row : PackRow). row.id) (told self.now).rows) prefix.now result.start result.end }
    {
        self.lookup_prefix_uncounted::<Brand>(prefix, Blank::new(1))
    }

    // The range of rows of a prefix, by two binary searches and a counter that is dropped.
    fn lookup_prefix_uncounted<L: Ledger>(&self, prefix: &Prefix, blank: Blank) -> Range<u32>
        requires name { blank.name ≡ L.name }
        requires parts { blank.parts ≡ L.parts }
        requires some { 0 < blank.parts }
        ensures run { IsPrefixRun (map (λ (row : PackRow). row.id) (told self.now).rows) prefix.now result.start result.end }
    {
        self.table()
            .rows_of_prefix(prefix, &mut Steps::<L>::new(blank))
    }

    /// The rows, in the order of their ids.
    pub fn iter(&self) -> Iter<'_>
        ensures rows { rows_left result ≡ (told self.now).rows }
    {
        Iter {
            index: self,
            row: 0,
        }
    }
}
