//! Hashes of bytes in pieces, and ids, their order and their prefixes, as text.
ghost use Rattle.std.specs.Prelude.{◌<◌};

use gix_hash::{Hasher, Kind, ObjectId, Prefix};
use std::alloc::{AllocError, Global};
use std::test::Fail;
use test_words::{compare, cut};

// The answer to a question, whose first word says what is asked.
fn shown(alloc: Global, asked: &str) -> Result<String, Fail> {
    let (word, rest) = cut(asked);
    match word {
        "id" => Ok(id_shown(alloc, rest.as_bytes())?),
        "order" => order_shown(alloc, rest),
        "prefix" => Ok(prefix_shown(alloc, rest.as_bytes())?),
        "beside" => beside_shown(alloc, rest),
        _ => Ok(kind_shown(alloc, kind_of(rest))?),
    }
}

fn check(alloc: Global, rows: &[(&'static str, &'static str)]) -> Result<(), Fail> {
    for (asked, want) in rows {
        let found = shown(alloc, asked)?;
        compare(asked, found.as_str(), want)?;
    }
    Ok(())
}

fn kind_of(word: &str) -> Kind {
    if word == "sha1" {
        Kind::Sha1
    } else {
        Kind::Sha256
    }
}

// The kind of an id, the number of its bytes, the first and the last of them, and its text, made and printed.
fn id_shown(alloc: Global, text: &[u8]) -> Result<String, Fail> {
    match ObjectId::from_hex(text) {
        Ok(id) => Ok(read_id(alloc, &id, id.to_hex(alloc)?.as_str())?),
        Err(error) => Ok(format!(in alloc; "{error:?}")?),
    }
}

fn read_id(alloc: Global, id: &ObjectId, text: &str) -> Result<String, AllocError> {
    let bytes = id.as_bytes();
    let first = bytes.first().copied().unwrap_or(0);
    let last = bytes.last().copied().unwrap_or(0);
    let (kind, count) = (id.kind(), bytes.len());
    format!(in alloc; "{kind} {count} {first} {last} {text} {id}")
}

// A reader that swaps the digits of a byte, starts at the wrong end, tests the length after the digits, or leaves a
// digit at an end untested. The first two are Git's ids of the empty blob.
#[test]
fn reads_and_writes_ids(rt: HostRuntime) -> Result<(), Fail> {
    check(
        rt.alloc(),
        &[
            (
                "id e69de29bb2d1d6434b8b29ae775ad8c2e48c5391",
                "sha1 20 230 145 e69de29bb2d1d6434b8b29ae775ad8c2e48c5391 e69de29bb2d1d6434b8b29ae775ad8c2e48c5391",
            ),
            (
                "id 473a0f4c3be8a93681a267e3b1e9a7dcda1185436fe141f7749120a303721813",
                "sha256 32 71 19 473a0f4c3be8a93681a267e3b1e9a7dcda1185436fe141f7749120a303721813 \
                473a0f4c3be8a93681a267e3b1e9a7dcda1185436fe141f7749120a303721813",
            ),
            ("id ", "Length"),
            ("id e69de29bb2d1d6434b8b29ae775ad8c2e48c539", "Length"),
            ("id 473a0f4c3be8a93681a267e3b1e9a7dcda1185436", "Length"),
            (
                "id 473a0f4c3be8a93681a267e3b1e9a7dcda1185436fe141f7749120a30372181",
                "Length",
            ),
            (
                "id 473a0f4c3be8a93681a267e3b1e9a7dcda1185436fe141f7749120a303721813\n",
                "Length",
            ),
            ("id g69de29bb2d1d6434b8b29ae775ad8c2e48c539", "Length"),
            ("id E69DE29BB2D1D6434B8B29AE775AD8C2E48C5391", "Invalid"),
            ("id e69de29bb2d1d6434b8b29ae775ad8C2e48c5391", "Invalid"),
            ("id g69de29bb2d1d6434b8b29ae775ad8c2e48c5391", "Invalid"),
            ("id e69de29bb2d1d6434b8b29ae775ad8c2e48c539:", "Invalid"),
            (
                "id 473a0f4c3be8a93681a267e3b1e9a7dcda1185436fe141f7749120a30372181/",
                "Invalid",
            ),
        ],
    )
}

fn order_shown(alloc: Global, ids: &str) -> Result<String, Fail> {
    let (first, second) = cut(ids);
    let a = ObjectId::from_hex(first.as_bytes())?;
    let b = ObjectId::from_hex(second.as_bytes())?;
    let order = a.cmp(&b);
    Ok(format!(in alloc; "{order:?}")?)
}

// Kinds in the other order, or bytes that are compared from the end.
#[test]
fn orders_by_kind_and_then_bytes(rt: HostRuntime) -> Result<(), Fail> {
    check(
        rt.alloc(),
        &[
            (
                "order 0101010101010101010101010101010101010101 0101010101010101010101010101010101010101",
                "Equal",
            ),
            (
                "order 0101010101010101010101010101010101010101 0101010101010101010101010101010101010102",
                "Less",
            ),
            (
                "order 0201010101010101010101010101010101010100 0101010101010101010101010101010101010102",
                "Greater",
            ),
            (
                "order 0000000000000000000000000000000000000000000000000000000000000000 \
                0101010101010101010101010101010101010101",
                "Greater",
            ),
        ],
    )
}

// The kind of a prefix.
fn prefix_shown(alloc: Global, digits: &[u8]) -> Result<String, AllocError> {
    match Prefix::from_hex(digits) {
        Ok(prefix) => {
            let kind = prefix.as_oid().kind();
            format!(in alloc; "{kind}")
        }
        Err(error) => format!(in alloc; "{error:?}"),
    }
}

// How a prefix compares with an id that begins with `e69de2`.
fn beside_shown(alloc: Global, digits: &str) -> Result<String, Fail> {
    let id = ObjectId::from_hex(b"e69de29bb2d1d6434b8b29ae775ad8c2e48c5391")?;
    let order = Prefix::from_hex(digits.as_bytes())?.cmp_oid(&id);
    Ok(format!(in alloc; "{order:?}")?)
}

// A length that is tested after the digits, a text of more than 40 digits taken for SHA-1, a prefix that ignores half
// a byte, or one that takes the wrong half.
#[test]
fn reads_and_compares_prefixes(rt: HostRuntime) -> Result<(), Fail> {
    check(
        rt.alloc(),
        &[
            ("prefix e69d", "sha1"),
            ("prefix e69de29bb2d1d6434b8b29ae775ad8c2e48c539", "sha1"),
            ("prefix e69de29bb2d1d6434b8b29ae775ad8c2e48c5391", "sha1"),
            ("prefix 473a0f4c3be8a93681a267e3b1e9a7dcda1185436", "sha256"),
            (
                "prefix 473a0f4c3be8a93681a267e3b1e9a7dcda1185436fe141f7749120a303721813",
                "sha256",
            ),
            ("prefix e69", "TooShort { hex_len: 3 }"),
            ("prefix E69", "TooShort { hex_len: 3 }"),
            (
                "prefix ggggggggggggggggggggggggggggggggggggggggggggggggggggggggggggggggg",
                "TooLong { hex_len: 65 }",
            ),
            ("prefix E69D", "Invalid"),
            ("beside e69d", "Equal"),
            ("beside e69de", "Equal"),
            ("beside e69de29bb2d1d6434b8b29ae775ad8c2e48c5391", "Equal"),
            ("beside e69c", "Less"),
            ("beside e69e", "Greater"),
            ("beside e69dd", "Less"),
            ("beside e69df", "Greater"),
        ],
    )
}

// The digits of a kind's ids, and its id of zeros.
fn kind_shown(alloc: Global, kind: Kind) -> Result<String, AllocError> {
    let digits = kind.len_in_hex();
    let null = ObjectId::null(kind);
    format!(in alloc; "{kind} {digits} {null}")
}

/// The id of bytes that are passed in pieces of at most `most` bytes.
fn hashed(kind: Kind, bytes: &[u8], most: usize) -> ObjectId
    requires some { 0 < most }
{
    let mut hasher = Hasher::new(kind);
    for piece in bytes.chunks(most) {
        hasher.update(piece);
    }
    hasher.finalize()
}

// Another name, the number of bytes in place of that of digits, or an id of ones.
#[test]
fn prints_kinds(rt: HostRuntime) -> Result<(), Fail> {
    check(
        rt.alloc(),
        &[
            (
                "kind sha1",
                "sha1 40 0000000000000000000000000000000000000000",
            ),
            (
                "kind sha256",
                "sha256 64 0000000000000000000000000000000000000000000000000000000000000000",
            ),
        ],
    )
}

const LETTERS: &str = "\
    aaaaaaaaaaaaaaaaaaaaaaaaaaaaaaaaaaaaaaaaaaaaaaaaaaaaaaaaaaaaaaaaaaaaaaaaaaaaaaaaaaaaaaaaaaaaaaaaaaaa\
    aaaaaaaaaaaaaaaaaaaaaaaaaaaaaaaaaaaaaaaaaaaaaaaaaaaaaaaaaaaaaaaaaaaaaaaaaaaaaaaaaaaaaaaaaaaaaaaaaaaa";

const HASHES: &[(Kind, &str, &str)] = &[
    (Kind::Sha1, "", "da39a3ee5e6b4b0d3255bfef95601890afd80709"),
    (
        Kind::Sha1,
        "abc",
        "a9993e364706816aba3e25717850c26c9cd0d89d",
    ),
    (
        Kind::Sha1,
        LETTERS,
        "e61cfffe0d9195a525fc6cf06ca2d77119c24a40",
    ),
    (
        Kind::Sha256,
        "",
        "e3b0c44298fc1c149afbf4c8996fb92427ae41e4649b934ca495991b7852b855",
    ),
    (
        Kind::Sha256,
        "abc",
        "ba7816bf8f01cfea414140de5dae2223b00361a396177a9cb410ff61f20015ad",
    ),
    (
        Kind::Sha256,
        LETTERS,
        "c2a908d98f5df987ade41b5fce213067efbcc21ef2240212a41e54b5e7c28ae5",
    ),
];

// A hasher that loses bytes between two pieces, or is of the other kind. The hashes are what `sha1sum` and `sha256sum`
// print of nothing, of `abc`, and of 200 times `a`.
#[test]
fn hashes_in_pieces(rt: HostRuntime) -> Result<(), Fail> {
    for (kind, text, want) in HASHES {
        for most in [1, 7, 64, 1000] {
            let found = hashed(*kind, text.as_bytes(), most).to_hex(rt.alloc())?;
            compare(text, found.as_str(), want)?;
        }
    }
    Ok(())
}
