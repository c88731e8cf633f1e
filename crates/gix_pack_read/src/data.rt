//! Packs: the entries of objects, one after another.
ghost use Rattle.std.specs.Prelude.{◌≡◌, ◌≤◌, ◌↔◌, length, option_map, true, IfOk, IfErr, IsOk, IsTrue};
ghost use Rattle.gix_pack_read.specs.Pack.{entries_place, entry_at, entry_seen, head_at, header_at, is_pack, is_version as version_is_read};
ghost use Rattle.gix_pack_read.specs.Pack.{kind_of_code, object_behind, objects_in, slice_at, version_in};
ghost use Rattle.gix_pack_read.specs.Bytes.{trailer_place};
ghost use Rattle.gix_pack_read.specs.PackHead.{head_seen};

pub mod entry;
mod entry_head;

use crate::bytes::{behind_first, is_within};
use crate::file_bytes::FileBytes;
pub use entry::{Entry, Header};
use entry_head::{Head, read_head};
use gix_hash::Kind;
use odb_base::ByteList;
use std::marker::Model;
use thiserror::Error;

/// The offset of the entries in a pack: after `PACK`, the version and the number of objects, of four bytes each.
pub const ENTRIES_PLACE: u64 = 12;

// The offset of the version: after `PACK`.
const VERSION_PLACE: usize = 4;

// The offset of the number of objects: after the version.
const COUNT_PLACE: usize = 8;

/// Why a pack, or an entry in it, is refused.
#[derive(Clone, Copy, Debug, Error)]
pub enum Error {
    /// The bytes don't begin with `PACK` and version 2 or 3, or are too short.
    #[error("the bytes are no pack of version 2 or 3")]
    BadPack,
    /// There is no header at the offset, or the data extend into the trailing hash.
    #[error("there is no entry at this offset")]
    BadEntry,
    /// The entry is a delta: a change of another object.
    #[error("the entry is a delta")]
    DeltaEntry,
    /// The size is above the limit.
    #[error("an object of {size} bytes is above the limit")]
    OutOfMemory { size: u64 },
    /// The entry has a type that is no kind.
    #[error("{code} is no type of an entry")]
    EntryType { code: u8 },
}

/// A pack.
///
/// Contracts see it as its bytes and the hash of its ids.
#[derive(Drop)]
pub struct File {
    file: FileBytes,
}

impl Model for File {
    ghost use Rattle.std.specs.Prelude.{◌≡◌, true};
    ghost use Rattle.gix_pack_read.specs.FileBytes.{FileBytes as seen};

    ghost Value = { seen };

    ghost use Rattle.gix_pack_read.specs.Pack.{is_pack};

    ghost view = { λ pack. record { kind = pack.file.kind; bytes = pack.file.bytes } };

    ghost invariant = { λ pack. is_pack pack.file.kind pack.file.bytes ≡ true };
}

impl File {
    /// Reads a pack from its bytes, which it keeps.
    pub fn parse(bytes: ByteList, kind: Kind) -> Result<File, Error>
        ensures found { IfOk result (λ pack. pack ≡ record { kind = kind; bytes = bytes }) }
        ensures exact { IsOk result ↔ IsTrue (is_pack kind bytes) }
        ensures refused { IfErr result (λ error. error ≡ Error.BadPack) }
    {
        let file = FileBytes { kind, bytes };
        if is_whole(&file) {
            Ok(File { file })
        } else {
            Err(Error::BadPack)
        }
    }

    /// The version, 2 or 3.
    #[tactic(auto, using(crate::proofs::PackLemmas::has_room))]
    pub fn version(&self) -> u32
        ensures version { result ≡ version_in self.now.bytes }
        ensures pack { is_pack self.now.kind self.now.bytes ≡ true }
    {
        version_of(&self.file)
    }

    /// The number of objects in the pack's header.
    #[tactic(auto, using(crate::proofs::PackLemmas::has_room))]
    pub fn num_objects(&self) -> u32
        ensures count { result ≡ objects_in self.now.bytes }
        ensures pack { is_pack self.now.kind self.now.bytes ≡ true }
    {
        self.file.number_at(COUNT_PLACE)
    }

    // The end of the entries: the offset of the trailing hash.
    #[tactic(auto, using(crate::proofs::PackLemmas::has_room))]
    fn entries_end(&self) -> u64
        ensures end { result ≡ trailer_place self.now.kind self.now.bytes }
    {
        self.file.trailer_place() as u64
    }

    // The header at an offset, whatever its type is.
    #[tactic(auto, using(crate::proofs::PackLemmas::has_room, crate::proofs::EntryLemmas::head_before, crate::proofs::EntryLemmas::head_behind, crate::proofs::EntryLemmas::head_within))]
    fn head_at_offset(&self, offset: u64) -> Result<Head, Error>
        ensures head { head_seen result ≡ head_at self.now.kind self.now.bytes offset }
    {
        let end = self.file.trailer_place();
        if offset < ENTRIES_PLACE || offset >= end as u64 {
            return Err(Error::BadEntry);
        }
        read_head(behind_first(self.file.part(0, end), offset as usize))
    }

    /// The kind and the size of the object at an offset, and the length of its header.
    #[tactic(auto, unfolding(crate::specs::Pack::header_at))]
    pub fn decode_header(&self, offset: u64) -> Result<Header, Error>
        ensures header { result ≡ header_at self.now.kind self.now.bytes offset }
    {
        let head = self.head_at_offset(offset)?;
        let kind = kind_of(head.code)?;
        Ok(Header {
            kind,
            size: head.size,
            header_len: head.header_len,
        })
    }

    /// The object at an offset, if its size is within the limit.
    #[tactic(auto, unfolding(crate::specs::Pack::entry_at))]
    pub fn entry(&self, offset: u64, limit: Option<u64>) -> Result<Entry<'_>, Error>
        ensures entry { entry_seen result ≡ entry_at self.now.kind self.now.bytes offset limit }
    {
        let header = self.decode_header(offset)?;
        self.entry_behind(offset, limit, header)
    }

    // The object whose header was read at an offset.
    #[tactic(auto, using(crate::proofs::EntryLemmas::Objects::object_above))]
    fn entry_behind(
        &self,
        offset: u64,
        limit: Option<u64>,
        header: Header,
    ) -> Result<Entry<'_>, Error>
        requires header { header_at self.now.kind self.now.bytes offset ≡ Ok header }
        ensures entry { entry_seen result ≡ object_behind self.now.kind self.now.bytes offset limit header }
    {
        if !is_within(limit, header.size) {
            return Err(Error::OutOfMemory { size: header.size });
        }
        let end = self.entries_end();
        let place = offset + header.header_len as u64;
        if header.size > end - place {
            return Err(Error::BadEntry);
        }
        Ok(Entry {
            kind: header.kind,
            size: header.size,
            header_len: header.header_len,
            bytes: self.file.part(place as usize, header.size as usize),
        })
    }

    /// `len` bytes of entries from an offset on, or None if they extend beyond the entries.
    #[tactic(auto, using(crate::proofs::PackLemmas::has_room))]
    pub fn entry_slice(&self, offset: u64, len: u64) -> Option<&[u8]>
        ensures slice { option_map (λ slice. slice.now) result ≡ slice_at self.now.kind self.now.bytes offset len }
    {
        let end = self.entries_end();
        if offset < ENTRIES_PLACE || offset > end || len > end - offset {
            return None;
        }
        Some(self.file.part(offset as usize, len as usize))
    }
}

// Whether bytes are a pack.
#[tactic(auto, unfolding(crate::specs::Pack::is_pack))]
fn is_whole(file: &FileBytes) -> bool
    ensures whole { result ≡ is_pack file.now.kind file.now.bytes }
{
    file.bytes.as_slice().starts_with(b"PACK")
        && file.len() >= ENTRIES_PLACE as usize + file.hash_len()
        && is_version(version_of(file))
}

fn is_version(number: u32) -> bool
    ensures version { result ≡ version_is_read number }
{
    number == 2 || number == 3
}

// The version of a pack.
fn version_of(file: &FileBytes) -> u32
    requires room { entries_place ≤ length file.now.bytes }
    ensures version { result ≡ version_in file.now.bytes }
{
    file.number_at(VERSION_PLACE)
}

// The kind of an entry's type code.
#[tactic(auto, unfolding(crate::specs::Pack::kind_of_code))]
fn kind_of(code: u8) -> Result<gix_object::Kind, Error>
    ensures kind { result ≡ kind_of_code code }
{
    match code {
        1 => Ok(gix_object::Kind::Commit),
        2 => Ok(gix_object::Kind::Tree),
        3 => Ok(gix_object::Kind::Blob),
        4 => Ok(gix_object::Kind::Tag),
        6 | 7 => Err(Error::DeltaEntry),
        code => Err(Error::EntryType { code }),
    }
}
