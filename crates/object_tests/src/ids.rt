//! Ids of objects, compared with Git's.
use gix_object::{Kind, compute_hash};
use std::alloc::Global;
use std::test::Fail;
use test_words::compare;

/// A kind, some data, and the ids that Git reported by SHA-1 and by SHA-256.
const SHORT: &[(Kind, &str, &str, &str)] = &[
    (
        Kind::Commit,
        "",
        "dcf5b16e76cce7425d0beaef62d79a7d10fce1f5",
        "9f2a7f3b00f22334f6adc2721fb1f89cd969f02264d37cf6a2c32ba09beb6822",
    ),
    (
        Kind::Commit,
        "hello\n",
        "656d88de433ec9f9c5d4ed9b2c643844127a0fb4",
        "0dc599b3b0ab7db2ef28ab7bcd9a37ac991827a78d0d53a1ae438f3731f374d7",
    ),
    (
        Kind::Tree,
        "",
        "4b825dc642cb6eb9a060e54bf8d69288fbee4904",
        "6ef19b41225c5369f1c104d45d8d85efa9b057b53b14b4b9b939dd74decc5321",
    ),
    (
        Kind::Tree,
        "hello\n",
        "149e5b19a5281f340f976d2ba38d4f02d8a6e967",
        "ae1e4b5e47ccab8d4387bf290e90c0d2d633e15d9a929cb082d628942ddcaa51",
    ),
    (
        Kind::Blob,
        "",
        "e69de29bb2d1d6434b8b29ae775ad8c2e48c5391",
        "473a0f4c3be8a93681a267e3b1e9a7dcda1185436fe141f7749120a303721813",
    ),
    (
        Kind::Blob,
        "hello\n",
        "ce013625030ba8dba906f756967f9e9ca394464a",
        "2cf8d83d9ee29543b34a87727421fdecb7e3f3a183d337639025de576db9ebb4",
    ),
    (
        Kind::Tag,
        "",
        "d994c6bb648123a17e8f70a966857c546b2a6f94",
        "6e7ed4b07c5862439af3921bf57e6533151bf440e1297a331c8124ac15cdd16a",
    ),
    (
        Kind::Tag,
        "hello\n",
        "57f49ce8d3d3f00202b6d7e56edbb69bc94b7aa8",
        "c554f36acda28e3357190737ffedd6673c915f9a9baf0d10d052c7a9bd4ef5dc",
    ),
];

/// The ids of 70,000 letters `a`.
const LONG: &[(Kind, &str, &str)] = &[
    (
        Kind::Commit,
        "d3ba4ff38491724dcc06ae5832f3e1924ac59eab",
        "a7e291bd67dd0e7fe8a9dd479c70db7c7de83d259a221d97d01c84e234f8251a",
    ),
    (
        Kind::Tree,
        "72d99c3ac98c3db55aa13ef5cd42626ce0496699",
        "e87914195e11f09fd5687212910d23a203c14403b754eb25c8613f05cbe78045",
    ),
    (
        Kind::Blob,
        "a4468a72cf236519af2d10907beb2b1877bfc244",
        "52215a03cfffe1009159eb9f4b440d5b469e224737d258cdf4d3c36f97840679",
    ),
    (
        Kind::Tag,
        "b8cdcae309f3ca53e6ad77acb3c61bc33147d9ab",
        "0f8f927495694e51d75426181127216d0117a4ad6af2608afd51866f0df1aebe",
    ),
];

// Fails if an object has another id than these by SHA-1 and SHA-256.
fn check(alloc: Global, kind: Kind, bytes: &[u8], sha1: &str, sha256: &str) -> Result<(), Fail> {
    let first = id_shown(alloc, gix_hash::Kind::Sha1, kind, bytes)?;
    compare(sha1, first.as_str(), sha1)?;
    let second = id_shown(alloc, gix_hash::Kind::Sha256, kind, bytes)?;
    compare(sha256, second.as_str(), sha256)
}

fn id_shown(alloc: Global, hash: gix_hash::Kind, kind: Kind, bytes: &[u8]) -> Result<String, Fail> {
    Ok(compute_hash(alloc, hash, kind, bytes)?.to_hex(alloc)?)
}

// Git's ids: an id of the data alone, of another header, or of a part of long data. Git 2.39.5 reported them by `git
// hash-object --literally -t KIND --stdin`, the second of each row in a repository made by `git init
// --object-format=sha256`.
#[test]
fn ids_equal_those_of_git(rt: HostRuntime) -> Result<(), Fail> {
    for (kind, text, sha1, sha256) in SHORT {
        check(rt.alloc(), *kind, text.as_bytes(), sha1, sha256)?;
    }
    Ok(())
}

fn check_long(alloc: Global, bytes: &[u8]) -> Result<(), Fail> {
    for (kind, sha1, sha256) in LONG {
        check(alloc, *kind, bytes, sha1, sha256)?;
    }
    Ok(())
}

// An id of a part of long data.
#[test]
fn ids_of_long_data_equal_those_of_git(rt: HostRuntime) -> Result<(), Fail> {
    let long = vec![in rt.alloc(); b'a'; 70_000]?;
    check_long(rt.alloc(), long.as_slice())
}
