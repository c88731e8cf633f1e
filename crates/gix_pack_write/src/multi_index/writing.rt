//! Writing multi-pack indices: the header, the chunk table, the chunks one after another, and the hash.
ghost use Rattle.std.specs.Prelude.{◌≡◌, ◌+◌, ◌*◌, ◌++◌, ◌∷◌, [], ◌^◌, ◌<◌, ◌≤◌, ◌↔◌, true, false, codes, length, map, IfOk, IsTrue, OnOk};
ghost use Rattle.std.specs.Int.{w32, to_be_bytes};
ghost use Rattle.std.specs.List.{flat_map, AllByRecursion};
ghost use Rattle.gix_hash.specs.ObjectId.{bytes_of};
ghost use Rattle.gix_pack_read.specs.MultiIndex.Held.{are_names};
ghost use Rattle.gix_pack_write.specs.MultiIndexChunks.{below_first, bytes_over, chunk_seen, front_with, most_chunks, names_given};
ghost use Rattle.gix_pack_write.specs.MultiIndexChunks.{narrow_chunk, objects_over, offset_chunks, one_chunk, place_bytes, wide_rows_chunk, Gains};
ghost use Rattle.gix_pack_write.specs.PlacedRow.{id_of, offset_of, pack_of, ArePlaced, IsPlaced};
ghost use Rattle.gix_pack_write.specs.PlacedPackRow.{pack_row_of, placed_in, rows_given};
ghost use Rattle.gix_pack_read.specs.Rows.{counts_of, is_rising, rows_limit};
ghost use Rattle.gix_pack_write.specs.WrittenTables.{narrow_from, number_bytes};
ghost use Rattle.gix_pack_write.specs.WrittenMultiIndex.{chunk_table, chunks_place, chunks_written, hash_number, multi_index_of_packs};
ghost use Rattle.gix_pack_write.specs.WrittenMultiIndex.{name_bytes, named_seen, needs_wide as need_wide, padded, CanBeWritten, IsMultiIndexOf, ReadsMultiIndex};

use crate::bytes::{put_hash, put_long, put_number, put_zeros};
use crate::multi_index::named_pack::NamedPack;
use crate::rows::{Placed, put_rows, table_of};
use crate::tables::{is_wide, narrow_of, put_counts, put_ids, put_wide};
use gix_hash::Kind;
use gix_pack_read::multi_index::{HEADER_LEN, NAME_LEN, ROW_LEN, is_name};
use odb_base::{ByteList, NoMemory, PathName};
use std::alloc::Global;

// There are fewer packs than this, and fewer objects in all: a row of the offsets refers to a wide one by 31 bits.
const ROWS_LIMIT: usize = 1 << 31;

// The length of the chunk of names is a multiple of this, so that the next one is aligned.
const ALIGNMENT: usize = 4;

// A chunk: its name, and its bytes.
#[derive(Drop)]
struct Chunk {
    name: [u8; 4],
    bytes: ByteList,
}

/// Whether a multi-pack index can be written of some packs: fewer than 2^31 with fewer than 2^31 objects in all, and
/// names of indices, each of which is below the next by its bytes.
pub fn can_be_written(packs: &[NamedPack]) -> bool
    ensures exact { IsTrue result ↔ CanBeWritten (map named_seen packs.now) }
{
    packs.len() < ROWS_LIMIT && have_few(packs) && have_names(packs)
}

// Whether the packs have fewer than 2^31 objects in all.
#[tactic(auto, using(crate::proofs::WrittenMultiIndexLemmas::left_on, crate::proofs::WrittenMultiIndexLemmas::left_over, crate::proofs::WrittenMultiIndexLemmas::left_all))]
fn have_few(packs: &[NamedPack]) -> bool
    ensures few { IsTrue result ↔ (objects_over (map named_seen packs.now) < rows_limit) }
{
    let mut left = ROWS_LIMIT - 1;
    for pack in packs {
        if pack.objects.len() > left {
            return false;
        }
        left -= pack.objects.len();
    }
    true
}

// Whether the names are those of indices, and rise.
#[tactic(auto, using(crate::proofs::WrittenMultiIndexLemmas::Loops::each_name))]
fn have_names(packs: &[NamedPack]) -> bool
    ensures names { result ≡ are_names (names_given packs.now) }
{
    for (i, pack) in packs.iter().enumerate() {
        if !is_name(pack.name.as_str().as_bytes()) {
            return false;
        }
        let (_, behind) = packs.split_at(i + 1);
        if !is_below(&pack.name, behind) {
            return false;
        }
    }
    true
}

// Whether a name is below that of the first of some packs, if there is one.
fn is_below(name: &PathName, packs: &[NamedPack]) -> bool
    ensures below { result ≡ below_first name.now (names_given packs.now) }
{
    match packs {
        [] => true,
        [pack, ..] => *name < pack.name,
    }
}

/// The multi-pack index (Git's, version 1) of some packs: for an id, the first object in the first pack with it.
///
/// Wide offsets are written if an offset doesn't fit four bytes. The only error is running out of memory.
pub fn encode(alloc: Global, packs: &[NamedPack], kind: Kind) -> Result<ByteList, NoMemory>
    requires can { CanBeWritten (map named_seen packs.now) }
    ensures written { IfOk result (λ file. file ≡ multi_index_of_packs kind (map named_seen packs.now)) }
    ensures table { IfOk result (IsMultiIndexOf kind (map named_seen packs.now)) }
    ensures read_back { IfOk result (ReadsMultiIndex kind (map named_seen packs.now)) }
{
    let chunks = chunks_of_packs(alloc, packs, kind)?;
    let mut file = ByteList::new(alloc);
    put_file(&mut file, packs.len() as u32, chunks.as_slice(), kind)?;
    put_hash(&mut file, kind)?;
    Ok(file)
}

// The chunks of a multi-index of some packs.
fn chunks_of_packs(alloc: Global, packs: &[NamedPack], kind: Kind) -> Result<Vec<Chunk>, NoMemory>
    requires can { CanBeWritten (map named_seen packs.now) }
    ensures chunks { IfOk result (λ chunks. map chunk_seen chunks.items ≡ chunks_written (names_given packs.now) (rows_given kind packs.now)) }
    ensures few { IfOk result (λ chunks. length chunks.items ≤ most_chunks) }
    ensures placed { IfOk result (λ _. AllByRecursion (IsPlaced kind) (placed_in kind 0 (map named_seen packs.now))) }
{
    let rows = rows_of(alloc, packs, kind)?;
    let table = table_of(alloc, rows)?;
    let chunks = chunks_of(alloc, packs, table.as_slice())?;
    Ok(chunks)
}

// A multi-index of `packs` packs and some chunks, without its hash.
#[tactic(auto, using(crate::proofs::WrittenMultiIndexLemmas::Loops::bytes_step, crate::proofs::WrittenMultiIndexLemmas::Loops::bytes_end))]
fn put_file(file: &mut ByteList, packs: u32, chunks: &[Chunk], kind: Kind) -> Result<(), NoMemory>
    requires empty { file.old ≡ [] }
    requires few { length chunks.now < 256 }
    ensures front { OnOk result (file.new ≡ front_with kind packs (map chunk_seen chunks.now)) }
    ensures small { OnOk result (chunks_place (length chunks.now) + bytes_over (map chunk_seen chunks.now) < 2 ^ 64) }
{
    put_front(file, packs, chunks.len() as u8, kind)?;
    put_table(file, chunks)?;
    for chunk in chunks {
        file.extend_from_slice(chunk.bytes.as_slice())?;
    }
    Ok(())
}

// The rows of all packs, in the order of the packs and of their objects.
#[tactic(auto, using(crate::proofs::WrittenMultiIndexLemmas::Loops::packs_step, crate::proofs::WrittenMultiIndexLemmas::Loops::packs_end))]
fn rows_of(alloc: Global, packs: &[NamedPack], kind: Kind) -> Result<Vec<Placed>, NoMemory>
    requires few { length packs.now < rows_limit }
    ensures rows { IfOk result (λ rows. rows.items ≡ placed_in kind 0 (map named_seen packs.now)) }
    ensures placed { IfOk result (λ rows. AllByRecursion (IsPlaced kind) rows.items) }
{
    let mut rows = Vec::new(alloc);
    let mut number = 0u32;
    for pack in packs {
        put_rows(alloc, &mut rows, number, pack.objects.as_slice(), kind)?;
        number += 1;
    }
    Ok(rows)
}

// The header, with the numbers of packs and chunks.
fn put_front(file: &mut ByteList, packs: u32, chunks: u8, kind: Kind) -> Result<(), NoMemory>
    ensures put { OnOk result (file.new ≡ file.old ++ (codes "MIDX" ++ 1 ∷ hash_number kind ∷ chunks ∷ 0 ∷ to_be_bytes w32 packs)) }
{
    file.extend_from_slice(b"MIDX")?;
    file.extend_from_slice(&[1, number_of(kind), chunks, 0])?;
    put_number(file, packs)?;
    Ok(())
}

// The number of a hash.
fn number_of(kind: Kind) -> u8
    ensures number { result ≡ hash_number kind }
{
    match kind {
        Kind::Sha1 => 1,
        Kind::Sha256 => 2,
    }
}

// The chunk table. A place of 2^64 or more counts as running out of memory.
fn put_table(file: &mut ByteList, chunks: &[Chunk]) -> Result<(), NoMemory>
    requires few { length chunks.now < 256 }
    ensures table { OnOk result (file.new ≡ file.old ++ chunk_table (chunks_place (length chunks.now)) (map chunk_seen chunks.now)) }
    ensures small { OnOk result (chunks_place (length chunks.now) + bytes_over (map chunk_seen chunks.now) < 2 ^ 64) }
{
    let mut place = (HEADER_LEN + ROW_LEN * (chunks.len() + 1)) as u64;
    for chunk in chunks {
        file.extend_from_slice(&chunk.name)?;
        put_long(file, place)?;
        place = place.checked_add(chunk.bytes.len() as u64).ok_or(NoMemory)?;
    }
    put_zeros(file, NAME_LEN)?;
    put_long(file, place)?;
    Ok(())
}

// The chunks.
fn chunks_of(alloc: Global, packs: &[NamedPack], rows: &[Placed]) -> Result<Vec<Chunk>, NoMemory>
    requires few { length rows.now < rows_limit }
    requires rising { is_rising (map id_of rows.now) ≡ true }
    requires placed { ArePlaced rows.now }
    ensures chunks { IfOk result (λ chunks. map chunk_seen chunks.items ≡ chunks_written (names_given packs.now) (map pack_row_of rows.now)) }
    ensures few { IfOk result (λ chunks. length chunks.items ≤ most_chunks) }
{
    let mut chunks = Vec::new(alloc);
    push_names(alloc, &mut chunks, packs)?;
    push_counts(alloc, &mut chunks, rows)?;
    push_ids(alloc, &mut chunks, rows)?;
    push_offsets(alloc, &mut chunks, rows)?;
    Ok(chunks)
}

// Appends a chunk to others.
fn push_chunk(chunks: &mut Vec<Chunk>, name: [u8; 4], bytes: ByteList) -> Result<(), NoMemory>
    ensures chunk { OnOk result (Gains chunks.old.items chunks.new.items (one_chunk name bytes)) }
    ensures few { OnOk result (length chunks.new.items ≡ length chunks.old.items + 1) }
{
    chunks.push(Chunk { name, bytes })?;
    Ok(())
}

// The chunk of the names.
fn push_names(alloc: Global, chunks: &mut Vec<Chunk>, packs: &[NamedPack]) -> Result<(), NoMemory>
    ensures chunk { OnOk result (Gains chunks.old.items chunks.new.items (one_chunk (codes "PNAM") (padded (name_bytes (names_given packs.now))))) }
    ensures few { OnOk result (length chunks.new.items ≡ length chunks.old.items + 1) }
{
    let mut names = ByteList::new(alloc);
    put_padded(&mut names, packs)?;
    push_chunk(chunks, *b"PNAM", names)
}

// The names, and NULs after them up to a length that is aligned.
fn put_padded(names: &mut ByteList, packs: &[NamedPack]) -> Result<(), NoMemory>
    requires empty { names.old ≡ [] }
    ensures put { OnOk result (names.new ≡ padded (name_bytes (names_given packs.now))) }
{
    put_names(names, packs)?;
    let padding = (ALIGNMENT - names.len() % ALIGNMENT) % ALIGNMENT;
    put_zeros(names, padding)
}

// The chunk of the 256 counts.
fn push_counts(alloc: Global, chunks: &mut Vec<Chunk>, rows: &[Placed]) -> Result<(), NoMemory>
    requires few { length rows.now < rows_limit }
    requires rising { is_rising (map id_of rows.now) ≡ true }
    requires placed { ArePlaced rows.now }
    ensures chunk { OnOk result (Gains chunks.old.items chunks.new.items (one_chunk (codes "OIDF") (number_bytes (counts_of (map id_of rows.now))))) }
    ensures few { OnOk result (length chunks.new.items ≡ length chunks.old.items + 1) }
{
    let mut counts = ByteList::new(alloc);
    put_counts(&mut counts, rows)?;
    push_chunk(chunks, *b"OIDF", counts)?;
    Ok(())
}

// The chunk of the ids.
fn push_ids(alloc: Global, chunks: &mut Vec<Chunk>, rows: &[Placed]) -> Result<(), NoMemory>
    ensures chunk { OnOk result (Gains chunks.old.items chunks.new.items (one_chunk (codes "OIDL") (flat_map bytes_of (map id_of rows.now)))) }
    ensures few { OnOk result (length chunks.new.items ≡ length chunks.old.items + 1) }
{
    let mut ids = ByteList::new(alloc);
    put_ids(&mut ids, rows)?;
    push_chunk(chunks, *b"OIDL", ids)
}

// The names, each ended by NUL.
#[tactic(auto, using(crate::proofs::WrittenMultiIndexLemmas::Loops::names_step, crate::proofs::WrittenMultiIndexLemmas::Loops::names_end))]
fn put_names(list: &mut ByteList, packs: &[NamedPack]) -> Result<(), NoMemory>
    ensures put { OnOk result (list.new ≡ list.old ++ name_bytes (names_given packs.now)) }
{
    for pack in packs {
        list.extend_from_slice(pack.name.as_str().as_bytes())?;
        list.push(0)?;
    }
    Ok(())
}

// The chunk of the packs and offsets, and that of the wide offsets if one is needed.
fn push_offsets(alloc: Global, chunks: &mut Vec<Chunk>, rows: &[Placed]) -> Result<(), NoMemory>
    requires few { length rows.now < rows_limit }
    ensures chunks { OnOk result (Gains chunks.old.items chunks.new.items (offset_chunks (map pack_of rows.now) (map offset_of rows.now))) }
    ensures few { OnOk result (length chunks.new.items ≤ length chunks.old.items + 2) }
{
    if needs_wide(rows) {
        push_narrow(alloc, chunks, rows)?;
        push_wide(alloc, chunks, rows)
    } else {
        push_whole(alloc, chunks, rows)
    }
}

// The chunk of packs and offsets if there are wide ones.
fn push_narrow(alloc: Global, chunks: &mut Vec<Chunk>, rows: &[Placed]) -> Result<(), NoMemory>
    requires few { length rows.now < rows_limit }
    ensures chunk { OnOk result (Gains chunks.old.items chunks.new.items (narrow_chunk rows.now)) }
    ensures few { OnOk result (length chunks.new.items ≡ length chunks.old.items + 1) }
{
    let mut offsets = ByteList::new(alloc);
    put_narrow(&mut offsets, rows)?;
    push_chunk(chunks, *b"OOFF", offsets)
}

// The chunk of the wide offsets.
fn push_wide(alloc: Global, chunks: &mut Vec<Chunk>, rows: &[Placed]) -> Result<(), NoMemory>
    ensures chunk { OnOk result (Gains chunks.old.items chunks.new.items (wide_rows_chunk rows.now)) }
    ensures few { OnOk result (length chunks.new.items ≡ length chunks.old.items + 1) }
{
    let mut wide = ByteList::new(alloc);
    put_wide(&mut wide, rows)?;
    push_chunk(chunks, *b"LOFF", wide)
}

// The chunk of packs and offsets if none is wide.
fn push_whole(alloc: Global, chunks: &mut Vec<Chunk>, rows: &[Placed]) -> Result<(), NoMemory>
    requires low { need_wide (map offset_of rows.now) ≡ false }
    ensures chunk { OnOk result (Gains chunks.old.items chunks.new.items (one_chunk (codes "OOFF") (place_bytes rows.now (map offset_of rows.now)))) }
    ensures few { OnOk result (length chunks.new.items ≡ length chunks.old.items + 1) }
{
    let mut offsets = ByteList::new(alloc);
    put_whole(&mut offsets, rows)?;
    push_chunk(chunks, *b"OOFF", offsets)
}

// Whether an offset doesn't fit four bytes.
#[tactic(auto, using(crate::proofs::WrittenMultiIndexLemmas::Loops::each_offset))]
fn needs_wide(rows: &[Placed]) -> bool
    ensures wide { result ≡ need_wide (map offset_of rows.now) }
{
    for row in rows {
        if row.offset >= 1 << 32 {
            return true;
        }
    }
    false
}

// Packs and offsets, each of which fits four bytes.
#[tactic(auto, using(crate::proofs::WrittenMultiIndexLemmas::Loops::fits_four))]
fn put_whole(list: &mut ByteList, rows: &[Placed]) -> Result<(), NoMemory>
    requires low { need_wide (map offset_of rows.now) ≡ false }
    ensures put { OnOk result (list.new ≡ list.old ++ place_bytes rows.now (map offset_of rows.now)) }
{
    for row in rows {
        put_number(list, row.pack)?;
        put_number(list, row.offset as u32)?;
    }
    Ok(())
}

// Packs and offsets: a wide one is the high bit and its number among the wide ones.
fn put_narrow(list: &mut ByteList, rows: &[Placed]) -> Result<(), NoMemory>
    requires few { length rows.now < rows_limit }
    ensures put { OnOk result (list.new ≡ list.old ++ place_bytes rows.now (narrow_from 0 (map offset_of rows.now))) }
{
    let mut wide = 0u32;
    for row in rows {
        put_number(list, row.pack)?;
        put_number(list, narrow_of(row.offset, wide))?;
        if is_wide(row.offset) {
            wide += 1;
        }
    }
    Ok(())
}
