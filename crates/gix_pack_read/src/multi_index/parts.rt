//! The parts of a multi-pack index: whether they agree, and their places.
ghost use Rattle.std.specs.Prelude.{◌≡◌, ◌*◌, ◌/◌, ◌%◌, ◌==◌, ◌≤◌, ◌&&◌, true, length, take, option_map, None, IfOk, IfSome, IfNone};
ghost use Rattle.std.specs.List.{list_all};
ghost use Rattle.gix_hash.specs.Kind.{len_in_bytes_of};
ghost use Rattle.gix_pack_read.specs.Bytes.{table};
ghost use Rattle.gix_pack_read.specs.Rows.{counts_len, wide_len};
ghost use Rattle.gix_pack_read.specs.MultiIndex.{have_lengths, multi_index_of, objects_in, offset_row_len};
ghost use Rattle.gix_pack_read.specs.declared.multi_index.layout.Span as span;
ghost use Rattle.gix_pack_read.specs.MultiIndexLayout.{AreIn, AreTables, IsIn, IsRead, ids_agree, is_offset, is_row};
ghost use Rattle.gix_pack_read.specs.MultiIndexLayout.{layout_in, len_of, parts_at, rows_agree, rows_name, span_of, spans_have_lengths, tables_agree};

use crate::bytes::{behind_first, number_at, part_of};
use crate::multi_index::chunks::{PACK_COUNT_PLACE, has_front, has_table, kind_of, spans_of};
use crate::multi_index::layout::{Layout, Span, Spans};
use crate::multi_index::names::names_in;
use crate::tables::{COUNTS_LEN, WIDE_LEN, counts_agree, is_named, is_rising};
use gix_hash::{Kind, SHA1_LEN, SHA256_LEN};
use odb_base::{NoMemory, PathName, Sequence};
use std::alloc::Global;

// The place of the last of the counts among them, which is the number of rows.
const LAST_COUNT_PLACE: usize = 1020;

/// The length of a row of the offsets: the number of a pack, and an offset, of four bytes each.
pub(crate) const OFFSET_ROW_LEN: usize = 8;

// What was read of a multi-index: the hash of its ids, the names of its packs, and the places of its rows.
#[derive(Drop)]
pub(crate) struct Found {
    pub(crate) kind: Kind,
    pub(crate) names: Sequence<PathName>,
    pub(crate) layout: Layout,
}

// Reads a multi-index; None if the bytes are none.
#[tactic(auto, using(crate::proofs::PartLemmas::tables_front))]
pub(crate) fn read(alloc: Global, bytes: &[u8]) -> Result<Option<Found>, NoMemory>
    ensures found { IfOk result (λ found. IfSome found (λ read. IsRead read.kind read.names read.layout bytes.now)) }
    ensures none { IfOk result (λ found. IfNone found (multi_index_of bytes.now ≡ None)) }
{
    let Some(tables) = tables_in(bytes) else {
        return Ok(None);
    };
    let packs = number_at(bytes, PACK_COUNT_PLACE);
    match names_in(alloc, span_in(bytes, tables.0.names), packs)? {
        None => Ok(None),
        Some(names) => Ok(Some(Found {
            kind: kind_of(bytes),
            names,
            layout: tables.1,
        })),
    }
}

// The places of the chunks, and of the rows in them, if all is sound except perhaps the names.
#[tactic(auto, using(crate::proofs::PartLemmas::each_part, crate::proofs::ChunkLemmas::front_room))]
fn tables_in(bytes: &[u8]) -> Option<(Spans, Layout)>
    ensures found { IfSome result (λ found. AreTables found.0 found.1 bytes.now) }
    ensures none { IfNone result (multi_index_of bytes.now ≡ None) }
{
    if !has_front(bytes) || !has_table(bytes) {
        return None;
    }
    let spans = spans_of(bytes)?;
    if are_tables(
        bytes,
        kind_of(bytes),
        number_at(bytes, PACK_COUNT_PLACE),
        spans,
    ) {
        Some((spans, layout_of(bytes, spans)))
    } else {
        None
    }
}

// The bytes of a chunk.
pub(crate) fn span_in(bytes: &[u8], span: Span) -> &[u8]
    requires within { IsIn bytes.now span }
    ensures part { result.now ≡ span_of bytes.now span }
{
    part_of(bytes, span.start, span.len)
}

// The places of the rows.
fn layout_of(bytes: &[u8], spans: Spans) -> Layout
    requires within { IsIn bytes.now spans.counts }
    requires counts { spans.counts.len ≡ counts_len }
    ensures layout { result ≡ layout_in bytes.now spans }
{
    Layout {
        count: number_at(span_in(bytes, spans.counts), LAST_COUNT_PLACE),
        counts: spans.counts,
        ids: spans.ids,
        offsets: spans.offsets,
        wides: spans.wides,
    }
}

// Whether the parts have their lengths and agree, except perhaps for the names.
#[tactic(auto, using(crate::proofs::PartLemmas::lengths_found), unfolding(crate::specs::MultiIndexLayout::tables_agree))]
fn are_tables(bytes: &[u8], kind: Kind, packs: u32, spans: Spans) -> bool
    requires within { AreIn bytes.now spans }
    ensures agree { result ≡ tables_agree kind packs (parts_at bytes.now spans) }
{
    spans.counts.len == COUNTS_LEN
        && has_lengths(kind, layout_of(bytes, spans))
        && are_rows(bytes, kind, packs, spans)
}

// Whether ids, offsets and wide offsets have the lengths of tables of `count` rows.
fn has_lengths(kind: Kind, layout: Layout) -> bool
    ensures lengths { result ≡ spans_have_lengths kind layout }
{
    layout.ids.len == ids_len(kind, layout.count)
        && layout.offsets.len == layout.count as usize * OFFSET_ROW_LEN
        && wides_len(layout.wides) % WIDE_LEN == 0
}

// The length of `count` ids in bytes.
fn ids_len(kind: Kind, count: u32) -> usize
    ensures len { result ≡ count * len_in_bytes_of kind }
{
    match kind {
        Kind::Sha1 => count as usize * SHA1_LEN,
        Kind::Sha256 => count as usize * SHA256_LEN,
    }
}

// How many bytes of wide offsets there are.
fn wides_len(wides: Option<Span>) -> usize
    ensures len { result ≡ len_of wides }
{
    match wides {
        None => 0,
        Some(span) => span.len,
    }
}

// Whether the ids rise strictly, the counts are theirs, and each row has a pack and an offset.
#[tactic(auto, using(crate::proofs::PartLemmas::counts_span, crate::proofs::PartLemmas::offsets_span), unfolding(crate::specs::MultiIndexLayout::rows_agree))]
fn are_rows(bytes: &[u8], kind: Kind, packs: u32, spans: Spans) -> bool
    requires within { AreIn bytes.now spans }
    requires lengths { have_lengths kind (parts_at bytes.now spans) ≡ true }
    ensures agree { result ≡ rows_agree kind packs (parts_at bytes.now spans) }
{
    are_ids(bytes, kind, spans) && name_packs(bytes, packs, spans)
}

// Whether the ids rise strictly, and the counts are theirs.
#[tactic(auto, using(crate::proofs::PartLemmas::counts_len, crate::proofs::PartLemmas::ids_len, crate::proofs::PackRowLemmas::length_span))]
fn are_ids(bytes: &[u8], kind: Kind, spans: Spans) -> bool
    requires within { AreIn bytes.now spans }
    requires lengths { have_lengths kind (parts_at bytes.now spans) ≡ true }
    ensures agree { result ≡ ids_agree kind (parts_at bytes.now spans) }
{
    let n = layout_of(bytes, spans).count as usize;
    let ids = span_in(bytes, spans.ids);
    is_rising(kind, n, ids) && counts_agree(span_in(bytes, spans.counts), kind, n, ids)
}

// Whether each row has a pack and an offset.
#[tactic(auto, using(crate::proofs::PartLemmas::wides_found, crate::proofs::PackRowLemmas::length_span))]
fn name_packs(bytes: &[u8], packs: u32, spans: Spans) -> bool
    requires within { AreIn bytes.now spans }
    requires counts { spans.counts.len ≡ counts_len }
    requires offsets { spans.offsets.len ≡ objects_in (parts_at bytes.now spans) * offset_row_len }
    ensures named { result ≡ rows_name packs (parts_at bytes.now spans) }
{
    let n = layout_of(bytes, spans).count as usize;
    are_named(
        span_in(bytes, spans.offsets),
        n,
        packs,
        rows_of(spans.wides),
    )
}

// How many wide offsets there are, if there is a chunk of them.
fn rows_of(wides: Option<Span>) -> Option<u64>
    ensures count { result ≡ option_map (λ (place : span.Span). place.len / wide_len) wides }
{
    match wides {
        None => None,
        Some(span) => Some((span.len / WIDE_LEN) as u64),
    }
}

// Whether each of n rows has one of `packs` packs, and an offset.
#[tactic(auto, using(crate::proofs::PartLemmas::Rows::rows_step, crate::proofs::PartLemmas::Rows::rows_none))]
fn are_named(rows: &[u8], n: usize, packs: u32, wides: Option<u64>) -> bool
    requires room { n * offset_row_len ≤ length rows.now }
    ensures named { result ≡ list_all (is_row packs wides) (table offset_row_len n rows.now) }
{
    let mut rest = rows;
    let mut left = n;
    while left > 0 {
        if !is_sound(rest, packs, wides) {
            return false;
        }
        rest = behind_first(rest, OFFSET_ROW_LEN);
        left -= 1;
    }
    true
}

// Whether the first row has a pack, and an offset.
#[tactic(auto, using(crate::proofs::PartLemmas::Rows::first_of))]
fn is_sound(rows: &[u8], packs: u32, wides: Option<u64>) -> bool
    requires room { offset_row_len ≤ length rows.now }
    ensures sound { result ≡ is_row packs wides (take offset_row_len rows.now) }
{
    number_at(rows, 0) < packs && has_offset(wides, number_at(rows, 4))
}

// Whether four bytes are an offset: if there are wide ones, those with the high bit refer to one of them.
fn has_offset(wides: Option<u64>, narrow: u32) -> bool
    ensures named { result ≡ is_offset wides narrow }
{
    match wides {
        None => true,
        Some(wides) => is_named(narrow, wides),
    }
}
