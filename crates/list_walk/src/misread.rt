//! Why words aren't understood, and the message on it.
ghost use Rattle.std.specs.Prelude.{◌≡◌, ◌++◌, IfOk, OnOk};
ghost use Rattle.list_walk.specs.Told.{name_of, or_none, told_of, with_help, word_behind};

use crate::words::Count;
use odb_base::{ByteList, NoMemory};
use odb_program::text;
use std::alloc::Global;

/// Why a word isn't understood, or all of them together.
#[derive(Clone, Copy)]
pub enum Misread {
    /// There are none.
    NoWords,
    /// None of them names a folder.
    NoFolderNamed,
    /// A folder's name has `..` after a name.
    UpBehindName,
    /// A word is no name of a folder.
    NoFolder,
    /// A word begins with `-` and is no option.
    NoSuchOption,
    /// The number of an option is missing, or another word is in its place.
    NoNumber(Count),
}

/// The message on words that aren't understood, with the first such word, if it is one of them.
pub fn told_of(alloc: Global, why: Misread, word: &str) -> Result<ByteList, NoMemory>
    ensures told { IfOk result (λ told. told ≡ told_of why word.now) }
{
    let mut out = Vec::new(alloc);
    add_told(&mut out, why, word)?;
    Ok(ByteList::from_vec(out))
}

fn add_told(out: &mut Vec<u8>, why: Misread, word: &str) -> Result<(), NoMemory>
    ensures ok { OnOk result (out.new.items ≡ out.old.items ++ told_of why word.now) }
{
    match why {
        Misread::NoWords => text(out, b"no words: list_walk --help tells which there are"),
        Misread::NoFolderNamed => text(out, b"no folder is named: list_walk --help tells how"),
        Misread::UpBehindName => text(
            out,
            b"`..` behind a name isn't followed: a link may stand in its place",
        ),
        Misread::NoFolder => {
            text(out, b"no folder: ")?;
            text(out, or_none(word).as_bytes())
        }
        Misread::NoSuchOption => add_no_such_option(out, word),
        Misread::NoNumber(count) => add_no_number(out, count, word),
    }
}

fn add_no_such_option(out: &mut Vec<u8>, word: &str) -> Result<(), NoMemory>
    ensures ok { OnOk result (out.new.items ≡ out.old.items ++ told_of Misread.NoSuchOption word.now) }
{
    text(out, b"no such option: ")?;
    add_with_help(out, word)
}

/// Adds a word, and the hint at help.
fn add_with_help(out: &mut Vec<u8>, word: &str) -> Result<(), NoMemory>
    ensures ok { OnOk result (out.new.items ≡ out.old.items ++ with_help word.now) }
{
    text(out, word.as_bytes())?;
    text(out, b": list_walk --help tells which there are")
}

fn add_no_number(out: &mut Vec<u8>, count: Count, word: &str) -> Result<(), NoMemory>
    ensures ok { OnOk result (out.new.items ≡ out.old.items ++ told_of (Misread.NoNumber count) word.now) }
{
    text(out, b"no number behind ")?;
    add_count(out, count, word)
}

/// Adds the name of an option, and the word after it.
fn add_count(out: &mut Vec<u8>, count: Count, word: &str) -> Result<(), NoMemory>
    ensures ok { OnOk result (out.new.items ≡ out.old.items ++ (name_of count ++ word_behind word.now)) }
{
    text(out, name_of(count))?;
    add_word(out, word)
}

/// Adds a word after the message, if there is one.
fn add_word(out: &mut Vec<u8>, word: &str) -> Result<(), NoMemory>
    ensures ok { OnOk result (out.new.items ≡ out.old.items ++ word_behind word.now) }
{
    if word.is_empty() {
        return Ok(());
    }
    text(out, b": ")?;
    text(out, word.as_bytes())
}

/// A word, or a text for an empty one: each word is empty if one of them is no text.
fn or_none(word: &str) -> &str
    ensures word { result.now ≡ or_none word.now }
{
    if word.is_empty() {
        "(nothing, or no text)"
    } else {
        word
    }
}

/// The name of an option that has a number.
fn name_of(count: Count) -> &'static [u8]
    ensures name { result.now ≡ name_of count }
{
    match count {
        Count::MaxOpen => b"--max-open",
        Count::MinDepth => b"--min-depth",
        Count::MaxDepth => b"--max-depth",
    }
}
