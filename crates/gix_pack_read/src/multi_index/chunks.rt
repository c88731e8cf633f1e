//! The chunk table of a multi-pack index: whether it is sound, and the place of a chunk.
ghost use Rattle.std.specs.Prelude.{◌≡◌, ◌-◌, ◌+◌, ◌*◌, ◌≤◌, ◌&&◌, true, length, take, option_map, IfSome};
ghost use Rattle.gix_pack_read.specs.Bytes.{same};
ghost use Rattle.gix_pack_read.specs.MultiIndex.{at_most_one as at_most_one_of, parts_of};
ghost use Rattle.gix_pack_read.specs.MultiIndex.Chunks.{chunk_rows, ends_at, header_len, name_len, row_len};
ghost use Rattle.gix_pack_read.specs.MultiIndex.Chunks.{has_header as header_fits, has_room as room_fits, kind_in, named, the_one as the_one_of, trailer_place as end_of_chunks};
ghost use Rattle.gix_pack_read.specs.ChunkTable.{first_place, next_place, rows_left};
ghost use Rattle.gix_pack_read.specs.MultiIndexLayout.{AreIn, IsIn, IsInIfThere, parts_at, span_of};

use crate::bytes::{behind_first, long_at, part_of, trailer_place};
use crate::multi_index::layout::{Span, Spans};
use gix_hash::Kind;

/// The length of the header: `MIDX`, version, hash number, number of chunks, number of base files, number of packs.
pub const HEADER_LEN: usize = 12;

/// The length of a row of the chunk table: a name of four bytes, and a place of eight.
pub const ROW_LEN: usize = 12;

/// Where the header has the number of packs.
pub(crate) const PACK_COUNT_PLACE: usize = 8;

/// The length of the name of a chunk, which is before the place in a row.
pub const NAME_LEN: usize = 4;

// Where the place of the next row is.
const NEXT_PLACE: usize = ROW_LEN + NAME_LEN;

// Where the header has the hash.
const HASH_PLACE: usize = 5;

// Where it has the number of chunks.
const CHUNK_COUNT_PLACE: usize = 6;

// Where it has the number of base files.
const BASE_COUNT_PLACE: usize = 7;

// Whether bytes begin with a header (the magic, version 1, a hash, and no base file), and have room for the chunk table
// and the trailing hash. Fewer bytes than a header has have no such room.
#[tactic(auto, using(crate::proofs::ChunkLemmas::short_front))]
pub(crate) fn has_front(bytes: &[u8]) -> bool
    ensures front { result ≡ (header_fits bytes.now && room_fits bytes.now) }
{
    bytes.len() >= HEADER_LEN && has_header(bytes) && has_room(bytes)
}

#[tactic(auto, using(crate::proofs::ChunkLemmas::known_hash))]
fn has_header(bytes: &[u8]) -> bool
    requires room { header_len ≤ length bytes.now }
    ensures header { result ≡ header_fits bytes.now }
{
    let hash = bytes[HASH_PLACE];
    bytes.starts_with(b"MIDX\x01") && (hash == 1 || hash == 2) && bytes[BASE_COUNT_PLACE] == 0
}

fn has_room(bytes: &[u8]) -> bool
    requires room { header_len ≤ length bytes.now }
    ensures room { result ≡ room_fits bytes.now }
{
    let chunks = bytes[CHUNK_COUNT_PLACE] as usize;
    bytes.len() >= HEADER_LEN + ROW_LEN * (chunks + 1) + kind_of(bytes).len_in_bytes()
}

// The hash of the ids.
pub(crate) fn kind_of(bytes: &[u8]) -> Kind
    requires room { header_len ≤ length bytes.now }
    ensures kind { result ≡ kind_in bytes.now }
{
    if bytes[HASH_PLACE] == 2 {
        Kind::Sha256
    } else {
        Kind::Sha1
    }
}

// Whether the places of the chunks never fall, and the last row ends them at the trailing hash.
#[tactic(auto, using(crate::proofs::ChunkLemmas::table_rows))]
pub(crate) fn has_table(bytes: &[u8]) -> bool
    requires room { room_fits bytes.now ≡ true }
    ensures table { result ≡ ends_at (end_of_chunks bytes.now) (chunk_rows bytes.now) }
{
    let end = trailer_place(kind_of(bytes), bytes);
    let mut rest = behind_first(bytes, HEADER_LEN);
    let mut left = bytes[CHUNK_COUNT_PLACE];
    while left > 0 {
        if long_at(rest, NAME_LEN) > long_at(rest, NEXT_PLACE) {
            return false;
        }
        rest = behind_first(rest, ROW_LEN);
        left -= 1;
    }
    is_end(rest, end)
}

// Whether the first row is the end of the table, at a place.
#[tactic(auto, using(crate::proofs::ChunkLemmas::ends_last))]
fn is_end(rest: &[u8], end: usize) -> bool
    requires room { row_len ≤ length rest.now }
    ensures end { result ≡ ends_at end (rows_left 0 rest.now) }
{
    part_of(rest, 0, NAME_LEN) == b"\0\0\0\0".as_slice() && long_at(rest, NAME_LEN) == end as u64
}

// The place of the chunk of a name, if there is one; None if there are more.
#[tactic(auto, using(crate::proofs::ChunkLemmas::named_rows))]
pub(crate) fn at_most_one(bytes: &[u8], name: &[u8; 4]) -> Option<Option<Span>>
    requires room { room_fits bytes.now ≡ true }
    requires table { ends_at (end_of_chunks bytes.now) (chunk_rows bytes.now) ≡ true }
    ensures chunk { at_most_one_of (named name.now bytes.now) ≡ option_map (option_map (span_of bytes.now)) result }
    ensures within { IfSome result (λ found. IsInIfThere bytes.now found) }
{
    let mut found = None;
    let mut rest = behind_first(bytes, HEADER_LEN);
    let mut left = bytes[CHUNK_COUNT_PLACE];
    while left > 0 {
        if has_name(rest, name) {
            if found.is_some() {
                return None;
            }
            found = Some(span_at(rest));
        }
        rest = behind_first(rest, ROW_LEN);
        left -= 1;
    }
    Some(found)
}

fn has_name(row: &[u8], name: &[u8; 4]) -> bool
    requires room { name_len ≤ length row.now }
    ensures name { result ≡ same (take name_len row.now) name.now }
{
    part_of(row, 0, NAME_LEN) == name.as_slice()
}

// The place of the chunk of the first row, which ends where that of the next row begins.
fn span_at(rows: &[u8]) -> Span
    requires room { 2 * row_len ≤ length rows.now }
    requires order { first_place rows.now ≤ next_place rows.now }
    ensures span { result ≡ record { start = first_place rows.now; len = next_place rows.now - first_place rows.now } }
{
    let start = long_at(rows, NAME_LEN) as usize;
    let end = long_at(rows, NEXT_PLACE) as usize;
    Span {
        start,
        len: end - start,
    }
}

// The place of the only chunk of a name; None if there is none, or more.
#[tactic(auto, using(crate::proofs::ChunkLemmas::one_of))]
fn the_one(bytes: &[u8], name: &[u8; 4]) -> Option<Span>
    requires room { room_fits bytes.now ≡ true }
    requires table { ends_at (end_of_chunks bytes.now) (chunk_rows bytes.now) ≡ true }
    ensures chunk { the_one_of (named name.now bytes.now) ≡ option_map (span_of bytes.now) result }
    ensures within { IfSome result (λ span. IsIn bytes.now span) }
{
    at_most_one(bytes, name)?
}

// The places of the chunks with names and rows, if each that is required is there exactly once.
#[tactic(auto, unfolding(crate::specs::MultiIndex::parts_of))]
pub(crate) fn spans_of(bytes: &[u8]) -> Option<Spans>
    requires room { room_fits bytes.now ≡ true }
    requires table { ends_at (end_of_chunks bytes.now) (chunk_rows bytes.now) ≡ true }
    ensures parts { parts_of bytes.now ≡ option_map (parts_at bytes.now) result }
    ensures within { IfSome result (λ spans. AreIn bytes.now spans) }
{
    Some(Spans {
        names: the_one(bytes, b"PNAM")?,
        counts: the_one(bytes, b"OIDF")?,
        ids: the_one(bytes, b"OIDL")?,
        offsets: the_one(bytes, b"OOFF")?,
        wides: at_most_one(bytes, b"LOFF")?,
    })
}
