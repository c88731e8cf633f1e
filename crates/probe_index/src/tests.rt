//! The program as one call, over files, and over sources and sinks that fail.
mod files;

use crate::run::{ABOUT, USAGE, run};
use files::file_of;
use odb_mem_disk::{MemSink, MemSource};
use odb_program::SessionStatus;
use std::alloc::{AllocError, Global};
use std::str;
use std::test::Fail;

/// A file, words, the read and the write that fail (0 is none), and the status with the output.
type Row = (&'static str, &'static str, u64, u64, &'static str);

fn words_of(alloc: Global, text: &str) -> Result<Vec<String>, AllocError> {
    let mut words = Vec::new(alloc);
    for word in text.split(' ') {
        words.push(word.to_string(alloc)?)?;
    }
    Ok(words)
}

/// The status and the output.
fn answered(alloc: Global, row: &Row) -> Result<String, Fail> {
    let words = words_of(alloc, row.1)?;
    let mut source = MemSource::with_faults(alloc, file_of(alloc, row.0)?, &[row.2])?;
    session(alloc, words.as_slice(), &mut source, row.3)
}

fn session(
    alloc: Global,
    words: &[String],
    source: &mut MemSource,
    failing: u64,
) -> Result<String, Fail> {
    let mut sink = MemSink::with_faults(alloc, &[failing])?;
    let status = run(alloc, words, source, &mut sink).code();
    Ok(shown(alloc, status, sink.bytes())?)
}

fn shown(alloc: Global, status: u8, output: &[u8]) -> Result<String, AllocError> {
    let text = str::from_utf8(output).unwrap_or("no text");
    let text = named(text);
    format!(in alloc; "{status} {text}")
}

/// The name of a text about the program, and any other text as it is.
fn named(text: &str) -> &str {
    match text.strip_prefix(USAGE) {
        Some(rest) if rest.is_empty() => "usage",
        Some(rest) if rest == ABOUT => "help",
        _ => text,
    }
}

/// Fails if a row gives something else than is wanted.
fn compare(row: &Row, found: &str) -> Result<(), Fail> {
    if found == row.4 {
        return Ok(());
    }
    let (file, words, want) = (row.0, row.1, row.4);
    Err(Fail::new(format_args!("{file} {words}: {found} in place of {want}")))
}

// The ids are Git's of the blobs `version 1` and `version 2`, each with a line feed.
const ROWS: &[Row] = &[
    (
        "wide",
        "1f7a7a472abf3dd9643fd615f6da379c4acb3e3a",
        0,
        0,
        "0 1f7a7a472abf3dd9643fd615f6da379c4acb3e3a 4294967296\n",
    ),
    (
        "cut",
        "1f7a7a472abf3dd9643fd615f6da379c4acb3e3a",
        0,
        0,
        "2 refused: no pack index of version 2 with ids of this length\n",
    ),
    (
        "index",
        "473a0f4c3be8a93681a267e3b1e9a7dcda1185436fe141f7749120a303721813",
        0,
        0,
        "2 refused: no pack index of version 2 with ids of this length\n",
    ),
    (
        "SHA-256",
        "bd965fae20eb0dd136c5fb90b7c99ea1863ab46bb9a2647be049f38751749e61",
        0,
        0,
        "0 bd965fae20eb0dd136c5fb90b7c99ea1863ab46bb9a2647be049f38751749e61 23\n",
    ),
    (
        "packs",
        "83baae61804e65cc73a7201a7252750c76066a30 1f7a7a472abf3dd9643fd615f6da379c4acb3e3a",
        0,
        0,
        "0 83baae61804e65cc73a7201a7252750c76066a30 12 pack-a.idx\n\
        1f7a7a472abf3dd9643fd615f6da379c4acb3e3a 23 pack-b.idx\n",
    ),
    (
        "packs",
        "473a0f4c3be8a93681a267e3b1e9a7dcda1185436fe141f7749120a303721813",
        0,
        0,
        "0 473a0f4c3be8a93681a267e3b1e9a7dcda1185436fe141f7749120a303721813 absent\n",
    ),
    (
        "packs cut",
        "1f7a7a472abf3dd9643fd615f6da379c4acb3e3a",
        0,
        0,
        "2 refused: no multi-pack index of version 1\n",
    ),
    (
        "empty",
        "1f7a7a472abf3dd9643fd615f6da379c4acb3e3a",
        0,
        0,
        "2 refused: neither a pack index nor a multi-pack index\n",
    ),
    (
        "other",
        "1f7a7a472abf3dd9643fd615f6da379c4acb3e3a",
        0,
        0,
        "2 refused: neither a pack index nor a multi-pack index\n",
    ),
    ("index", "", 0, 0, "1 usage"),
    ("index", "--help", 1, 0, "0 help"),
    ("index", "--version", 1, 0, "0 probe_index 0.1.0\n"),
    ("index", "--help --version", 1, 0, "1 usage"),
    (
        "index",
        "1f7a7a472abf3dd9643fd615f6da379c4acb3e",
        0,
        0,
        "1 usage",
    ),
    (
        "index",
        "1f7a7a472abf3dd9643fd615f6da379c4acb3e3A",
        0,
        0,
        "1 usage",
    ),
    (
        "index",
        "1f7a7a472abf3dd9643fd615f6da379c4acb3e3a ",
        0,
        0,
        "1 usage",
    ),
    (
        "index",
        "1f7a7a472abf3dd9643fd615f6da379c4acb3e3a 473a0f4c3be8a93681a267e3b1e9a7dcda1185436fe141f7749120a303721813",
        0,
        0,
        "1 usage",
    ),
    (
        "index",
        "473a0f4c3be8a93681a267e3b1e9a7dcda1185436fe141f7749120a303721813 1f7a7a472abf3dd9643fd615f6da379c4acb3e3a",
        0,
        0,
        "1 usage",
    ),
    (
        "index",
        "1f7a7a472abf3dd9643fd615f6da379c4acb3e3a",
        1,
        0,
        "3 ",
    ),
    (
        "index",
        "1f7a7a472abf3dd9643fd615f6da379c4acb3e3a",
        2,
        0,
        "3 ",
    ),
    (
        "index",
        "1f7a7a472abf3dd9643fd615f6da379c4acb3e3a",
        0,
        1,
        "4 ",
    ),
    ("index", "--help", 0, 1, "4 "),
];

// Catches a line of another id, an offset or a name of another row, a damaged file that is answered, words that are
// taken for ids, a failed read that is taken for the end, or a failed write that is taken for success.
#[test]
fn answers_rows(rt: HostRuntime) -> Result<(), Fail> {
    for row in ROWS {
        let found = answered(rt.alloc(), row)?;
        compare(row, found.as_str())?;
    }
    Ok(())
}
