//! Reading multi-pack indices: those that Git made, and ones with other chunks, changes and lengths.
use crate::git_multi_indices::{
    NAMES, Parts, SHA1, SHA1_WIDE, SHA256, SHOWN_SHA1, SHOWN_SHA256, SHOWN_TWO, SHOWN_WIDE, TWO,
};
use crate::pack_words::{changed, joined, put_counts, rows_in};
use gix_hash::{Hasher, Kind, ObjectId, Prefix};
use gix_pack::multi_index::{Entry, File};
use odb_base::{ByteList, NoMemory};
use std::alloc::{AllocError, Global};
use std::test::Fail;
use test_words::compare;

pub(crate) fn put_ids(table: &mut ByteList, ids: &[&[u8]]) -> Result<(), Fail> {
    for id in ids {
        table.extend_from_slice(ObjectId::from_hex(id)?.as_bytes())?;
    }
    Ok(())
}

// The name of a chunk, and its bytes.
type Chunk<'a> = ([u8; 4], &'a [u8]);

// The rows of the chunk table.
fn put_table(bytes: &mut ByteList, first: u64, chunks: &[Chunk<'_>]) -> Result<(), NoMemory> {
    let mut place = first;
    for (name, chunk) in chunks {
        bytes.extend_from_slice(name)?;
        bytes.extend_from_slice(&place.to_be_bytes())?;
        place = place.saturating_add(chunk.len() as u64);
    }
    bytes.extend_from_slice(&[0; 4])?;
    bytes.extend_from_slice(&place.to_be_bytes())
}

fn put_chunks(bytes: &mut ByteList, chunks: &[Chunk<'_>]) -> Result<(), NoMemory> {
    for (_, chunk) in chunks {
        bytes.extend_from_slice(chunk)?;
    }
    Ok(())
}

// A multi-index of two packs with these chunks.
fn with_chunks(
    alloc: Global,
    hash: u8,
    chunks: &[Chunk<'_>],
    own: &[u8],
) -> Result<ByteList, Fail> {
    let count = u8::try_from(chunks.len()).unwrap_or(u8::MAX);
    let front = [77, 73, 68, 88, 1, hash, count, 0, 0, 0, 0, 2];
    let mut bytes = ByteList::from_slice(alloc, &front)?;
    put_table(&mut bytes, 24 + 12 * u64::from(count), chunks)?;
    put_chunks(&mut bytes, chunks)?;
    put_ids(&mut bytes, &[own])?;
    Ok(bytes)
}

// A multi-index from its parts, in git's order.
pub(crate) fn file_of(alloc: Global, parts: &Parts<'static>) -> Result<ByteList, Fail> {
    let mut counts = ByteList::new(alloc);
    put_counts(&mut counts, parts.counts)?;
    let mut ids = ByteList::new(alloc);
    put_ids(&mut ids, parts.ids)?;
    in_order(alloc, parts, counts.as_slice(), ids.as_slice())
}

pub(crate) fn in_order<'a>(
    alloc: Global,
    parts: &Parts<'static>,
    counts: &'a [u8],
    ids: &'a [u8],
) -> Result<ByteList, Fail> {
    let chunks = [
        (*b"PNAM", NAMES),
        (*b"OIDF", counts),
        (*b"OIDL", ids),
        (*b"OOFF", parts.offsets),
        (*b"LOFF", parts.wides),
    ];
    let count = if parts.wides.is_empty() { 4 } else { 5 };
    with_chunks(alloc, parts.hash, &chunks[..count], parts.own)
}

pub(crate) const REFUSED: &str = "BadMultiIndex";

// The front and the rows, or why there are none.
pub(crate) fn file_shown(alloc: Global, bytes: ByteList) -> Result<String, AllocError> {
    match File::parse(alloc, bytes, None) {
        Ok(index) => rows_shown(alloc, &index),
        Err(error) => format!(in alloc; "{error:?}"),
    }
}

fn rows_shown(alloc: Global, index: &File) -> Result<String, AllocError> {
    let mut text = front_shown(alloc, index)?;
    for row in index.iter() {
        text.push_str(row_shown(alloc, index, row)?.as_str())?;
    }
    Ok(text)
}

// The hash, the numbers of packs and rows, and the names.
fn front_shown(alloc: Global, index: &File) -> Result<String, AllocError> {
    let (hash, packs, rows) = (
        index.object_hash(),
        index.num_indices(),
        index.num_objects(),
    );
    let mut text = format!(in alloc; "{hash} {packs} {rows}")?;
    for name in index.index_names() {
        text.push_str(" ")?;
        text.push_str(name.as_str())?;
    }
    text.push_str("\n")?;
    Ok(text)
}

fn row_shown(alloc: Global, index: &File, row: Entry) -> Result<String, AllocError> {
    let (pack, offset, id) = (row.pack_index, row.pack_offset, row.oid);
    let found = index.lookup(&id);
    let run = run_of(index, &id, 7);
    format!(in alloc; "{pack} {offset} {id} {found:?} {run:?}\n")
}

fn run_of(index: &File, id: &ObjectId, digits: usize) -> Option<(u32, u32)> {
    let prefix = Prefix::new(id, digits).ok()?;
    rows_in(index.lookup_prefix(&prefix))
}

// Whether bytes end with their hash, as git's do.
fn is_hashed(bytes: &[u8], kind: Kind) -> bool {
    let (front, own) = bytes.split_at(bytes.len().saturating_sub(kind.len_in_bytes()));
    let mut hasher = Hasher::new(kind);
    hasher.update(front);
    hasher.finalize().as_bytes() == own
}

fn check_file(alloc: Global, bytes: ByteList, kind: Kind, want: &str) -> Result<(), Fail> {
    if !is_hashed(bytes.as_slice(), kind) {
        return Err(Fail::new("other bytes than git's"));
    }
    let found = file_shown(alloc, bytes)?;
    compare(want, found.as_str(), want)
}

const FILES: &[(&Parts<'static>, Kind, &str)] = &[
    (&TWO, Kind::Sha1, SHOWN_TWO),
    (&SHA1, Kind::Sha1, SHOWN_SHA1),
    (&SHA1_WIDE, Kind::Sha1, SHOWN_WIDE),
    (&SHA256, Kind::Sha256, SHOWN_SHA256),
];

// The neighbour's offset or pack, a wide offset that is not followed, ids of the other length, or an absent id that has
// a row.
#[test]
fn reads_multi_indices_of_git(rt: HostRuntime) -> Result<(), Fail> {
    for (parts, kind, want) in FILES {
        check_file(rt.alloc(), file_of(rt.alloc(), parts)?, *kind, want)?;
    }
    Ok(())
}

// Prefixes of the four SHA-1 ids: the first row and the end of the range of each, and the row of the id that
// continues with zeros.
const PREFIXES: &[(&str, &str)] = &[
    ("6cf4", "Some((1, 3)) None"),
    ("6cf44", "Some((1, 3)) None"),
    ("6cf45", "None None"),
    ("6cf44b", "Some((2, 3)) None"),
    (
        "83baae61804e65cc73a7201a7252750c76066a30",
        "Some((3, 4)) Some(3)",
    ),
    ("83baae61804e65cc73a7201a7252750c76066a31", "None None"),
    ("0000000000000000000000000000000000000000", "None None"),
    ("ffffffffffffffffffffffffffffffffffffffff", "None None"),
];

fn prefix_shown(alloc: Global, index: &File, digits: &str) -> Result<String, Fail> {
    let prefix = Prefix::from_hex(digits.as_bytes())?;
    let run = rows_in(index.lookup_prefix(&prefix));
    let row = index.lookup(prefix.as_oid());
    Ok(format!(in alloc; "{run:?} {row:?}")?)
}

fn check_prefixes(alloc: Global, index: &File) -> Result<(), Fail> {
    for (digits, want) in PREFIXES {
        let found = prefix_shown(alloc, index, digits)?;
        compare(digits, found.as_str(), want)?;
    }
    Ok(())
}

// A range without its first or last row, or an absent id that has a row.
#[test]
fn finds_prefixes(rt: HostRuntime) -> Result<(), Fail> {
    let bytes = file_of(rt.alloc(), &SHA1)?;
    let index = File::parse(rt.alloc(), bytes, None)?;
    check_prefixes(rt.alloc(), &index)
}

// The packs and offsets of the two rows of a multi-index that has two.
pub(crate) fn two_shown(alloc: Global, bytes: ByteList) -> Result<String, AllocError> {
    match File::parse(alloc, bytes, None) {
        Ok(index) => two_rows(alloc, &index),
        Err(error) => format!(in alloc; "{error:?}"),
    }
}

fn two_rows(alloc: Global, index: &File) -> Result<String, AllocError> {
    if index.num_objects() != 2 {
        return "another number of rows".to_string(alloc);
    }
    let (pack, offset) = index.pack_id_and_pack_offset_at_index(0);
    let (second, behind) = index.pack_id_and_pack_offset_at_index(1);
    format!(in alloc; "{pack} {offset} {second} {behind}")
}

pub(crate) const READ: &str = "1 12 0 12";

// Changes of a byte of the multi-index of two objects, and the rows that are then read, if any.
const CHANGES: &[(&str, usize, u8, &str)] = &[
    ("no change", 0, b'M', READ),
    ("no mark", 0, b'm', REFUSED),
    ("version 2", 4, 2, REFUSED),
    ("no such hash", 5, 3, REFUSED),
    ("the other hash", 5, 2, REFUSED),
    ("a chunk less", 6, 3, REFUSED),
    ("a chunk more", 6, 5, REFUSED),
    ("a base file", 7, 1, REFUSED),
    ("a pack less", 11, 1, REFUSED),
    ("a pack more", 11, 3, REFUSED),
    ("packs without end", 8, 255, REFUSED),
    ("no names", 12, b'p', REFUSED),
    ("ids in two chunks", 27, b'L', REFUSED),
    ("a place that falls", 35, 71, REFUSED),
    ("a place behind all", 28, 1, REFUSED),
    ("a name of the end", 63, 1, REFUSED),
    ("an end before the hash", 71, 0x97, REFUSED),
    ("a chunk that begins further on", 23, 73, READ),
    ("a name without `.idx`", 81, b'y', REFUSED),
    ("a slash in a name", 76, b'/', REFUSED),
    ("names that fall", 77, b'c', REFUSED),
    ("one name twice", 77, b'b', REFUSED),
    ("a name that is no text", 72, 255, REFUSED),
    ("another name", 72, b'P', READ),
    ("a name without its NUL", 82, b'x', REFUSED),
    ("a byte behind the names", 95, 1, REFUSED),
    ("a count too early", 219, 1, REFUSED),
    ("the high byte of a count", 220, 1, REFUSED),
    ("a count that falls", 259, 2, REFUSED),
    ("a count that passes the rows", 519, 3, REFUSED),
    ("an object less", 1119, 1, REFUSED),
    ("an object more", 1119, 3, REFUSED),
    ("an id that is not counted", 1120, 32, REFUSED),
    ("ids out of order", 1120, 200, REFUSED),
    ("another id", 1139, 59, READ),
    ("no such pack", 1163, 2, REFUSED),
    ("the other pack", 1163, 0, "0 12 0 12"),
    ("a high offset", 1164, 128, "1 2147483660 0 12"),
    ("the own hash", 1195, 1, READ),
];

fn check_changes(alloc: Global, whole: &[u8]) -> Result<(), Fail> {
    for (name, place, byte, want) in CHANGES {
        let found = two_shown(alloc, changed(alloc, whole, *place, *byte)?)?;
        compare(name, found.as_str(), want)?;
    }
    Ok(())
}

// A field that is not compared.
#[test]
fn reads_changed_multi_indices(rt: HostRuntime) -> Result<(), Fail> {
    let bytes = file_of(rt.alloc(), &TWO)?;
    check_changes(rt.alloc(), bytes.as_slice())
}

// The chunk of a letter: names (n without NULs after them), counts, ids and offsets, offsets of which one refers to a
// wide one (h), wide offsets (w: one, e: none, v: one and a half), and a chunk without meaning (x).
fn chunk_of<'a>(letter: u8, counts: &'a [u8], ids: &'a [u8]) -> Chunk<'a> {
    match letter {
        b'N' => (*b"PNAM", NAMES),
        b'n' => (*b"PNAM", b"pack-a.idx\0pack-b.idx\0"),
        b'C' => (*b"OIDF", counts),
        b'I' => (*b"OIDL", ids),
        b'O' => (*b"OOFF", TWO.offsets),
        b'h' => (*b"OOFF", b"\0\0\0\x01\x80\0\0\0\0\0\0\0\0\0\0\x0c"),
        b'w' => (*b"LOFF", b"\0\0\0\x01\0\0\0\x05"),
        b'v' => (*b"LOFF", b"\0\0\0\x01\0\0\0\x05\0\0\0\0"),
        b'e' => (*b"LOFF", b""),
        _ => (*b"RIDX", b"\0\0\0\x01\0"),
    }
}

const CHUNKS: &[(&str, &str)] = &[
    ("NCIO", READ),
    ("OICn", READ),
    ("xNCxIO", READ),
    ("NCIOw", READ),
    ("NCIOe", READ),
    ("NCIh", "1 2147483648 0 12"),
    ("NCIhw", "1 4294967301 0 12"),
    ("wNCIh", "1 4294967301 0 12"),
    ("NCIhe", REFUSED),
    ("NCIOv", REFUSED),
    ("NCIOww", REFUSED),
    ("CIO", REFUSED),
    ("NIO", REFUSED),
    ("NCO", REFUSED),
    ("NCI", REFUSED),
    ("NCION", REFUSED),
    ("NCCIO", REFUSED),
    ("NCIIO", REFUSED),
    ("ONCIO", REFUSED),
    ("", REFUSED),
];

fn with_letters(alloc: Global, letters: &str, counts: &[u8], ids: &[u8]) -> Result<ByteList, Fail> {
    let mut chunks = Vec::new(alloc);
    for letter in letters.as_bytes() {
        chunks.push(chunk_of(*letter, counts, ids))?;
    }
    with_chunks(alloc, 1, chunks.as_slice(), TWO.own)
}

fn check_chunks(alloc: Global, counts: &[u8], ids: &[u8]) -> Result<(), Fail> {
    for (letters, want) in CHUNKS {
        let bytes = with_letters(alloc, letters, counts, ids)?;
        let found = two_shown(alloc, bytes)?;
        compare(letters, found.as_str(), want)?;
    }
    Ok(())
}

// A chunk that is missing or there twice, or one that matters although it has no meaning.
#[test]
fn reads_other_chunks(rt: HostRuntime) -> Result<(), Fail> {
    let mut counts = ByteList::new(rt.alloc());
    put_counts(&mut counts, TWO.counts)?;
    let mut ids = ByteList::new(rt.alloc());
    put_ids(&mut ids, TWO.ids)?;
    check_chunks(rt.alloc(), counts.as_slice(), ids.as_slice())
}

fn check_cuts(alloc: Global, whole: &[u8]) -> Result<(), Fail> {
    for cut in 1..=whole.len() {
        let found = two_shown(alloc, joined(alloc, &[whole], cut)?)?;
        compare("cut", found.as_str(), REFUSED)?;
    }
    let found = two_shown(alloc, joined(alloc, &[whole, b"\0"], 0)?)?;
    compare("a byte more", found.as_str(), REFUSED)
}

// A length that is not compared.
#[test]
fn reads_other_lengths(rt: HostRuntime) -> Result<(), Fail> {
    let bytes = file_of(rt.alloc(), &SHA1_WIDE)?;
    check_cuts(rt.alloc(), bytes.as_slice())
}

// The result of reading within a limit.
fn limit_shown(alloc: Global, bytes: &[u8], limit: u64) -> Result<String, Fail> {
    match File::parse(alloc, ByteList::from_slice(alloc, bytes)?, Some(limit)) {
        Ok(_) => Ok("read".to_string(alloc)?),
        Err(error) => Ok(format!(in alloc; "{error:?}")?),
    }
}

fn check_limits(alloc: Global, whole: &[u8]) -> Result<(), Fail> {
    let len = whole.len() as u64;
    for (bytes, limit, want) in [
        (whole, 9, "AboveLimit"),
        (whole, len.saturating_sub(1), "AboveLimit"),
        (whole, len, "read"),
        (b"MIDX", 3, "AboveLimit"),
        (b"MIDX", 4, REFUSED),
    ] {
        let found = limit_shown(alloc, bytes, limit)?;
        compare("within a limit", found.as_str(), want)?;
    }
    Ok(())
}

// A limit that is tested late.
#[test]
fn reads_within_limits(rt: HostRuntime) -> Result<(), Fail> {
    let bytes = file_of(rt.alloc(), &SHA1_WIDE)?;
    check_limits(rt.alloc(), bytes.as_slice())
}
