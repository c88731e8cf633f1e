//! What is expected of the fields after a word.
ghost use Rattle.std.specs.Prelude.{◌≡◌, IfOk};
ghost use Rattle.odb_script.specs.Expected.{expected_of, expected_of_change, further_of, is_spelled, name_of};

use crate::{ChangeWord, Word, choice_of, content_of, data_of, handle_of, id_of, kind_of, path_of};
use odb_base::{NoMemory, parse_decimal};
use std::alloc::Global;

/// What a field has to be.
#[derive(Clone, Copy, PartialEq, Eq)]
pub enum Expected {
    Handle,
    Path,
    /// A time, a size, or the number of a call.
    Number,
    Kind,
    Id,
    Data,
    Content,
    /// An option of an opening.
    Choice,
    /// A word that may follow `do`.
    Change,
}

/// What the fields after a word have to be, except the options of an opening and what follows `do`.
pub fn expected_of(word: Word) -> &'static [Expected]
    ensures expected { result.now ≡ expected_of word }
{
    match word {
        Word::Steps | Word::NotBuilt => &[],
        Word::Fail => &[Expected::Number],
        Word::Mkdir => expected_of_change(ChangeWord::Mkdir),
        Word::Put => expected_of_change(ChangeWord::Put),
        Word::Link => expected_of_change(ChangeWord::Link),
        Word::Open => &[Expected::Handle, Expected::Path],
        Word::Clone => &[Expected::Handle, Expected::Handle],
        Word::Close | Word::Never | Word::Ignore | Word::Turn | Word::Finish => &[Expected::Handle],
        Word::Ask(_) => &[Expected::Handle, Expected::Id],
        Word::Write => &[Expected::Handle, Expected::Kind, Expected::Data],
        Word::Stream => &[
            Expected::Handle,
            Expected::Kind,
            Expected::Number,
            Expected::Data,
        ],
        Word::WriteAs => &[
            Expected::Handle,
            Expected::Kind,
            Expected::Id,
            Expected::Data,
        ],
        Word::Do => &[Expected::Change],
    }
}

/// What the fields after a word that follows `do` have to be.
pub fn expected_of_change(word: ChangeWord) -> &'static [Expected]
    ensures expected { result.now ≡ expected_of_change word }
{
    match word {
        ChangeWord::Mkdir | ChangeWord::Remove => &[Expected::Path],
        ChangeWord::Put => &[Expected::Path, Expected::Number, Expected::Content],
        ChangeWord::Link | ChangeWord::Rename => &[Expected::Path, Expected::Path],
        ChangeWord::Time => &[Expected::Path, Expected::Number],
    }
}

/// What any further fields after a word have to be, if there may be any.
pub(crate) fn further_of(word: Word) -> Option<Expected>
    ensures further { result ≡ further_of word }
{
    match word {
        Word::Open => Some(Expected::Choice),
        _ => None,
    }
}

/// Whether a field is what it has to be.
pub(crate) fn is_spelled(alloc: Global, expected: Expected, text: &str) -> Result<bool, NoMemory>
    ensures spelled { IfOk result (λ spelled. spelled ≡ is_spelled expected text.now) }
{
    match expected {
        Expected::Handle => Ok(handle_of(text).is_some()),
        Expected::Path => Ok(path_of(alloc, text)?.is_some()),
        Expected::Number => Ok(parse_decimal(text).is_some()),
        Expected::Kind => Ok(kind_of(text).is_some()),
        Expected::Id => Ok(id_of(text).is_some()),
        Expected::Data => Ok(data_of(alloc, text)?.is_some()),
        Expected::Content => Ok(content_of(alloc, text)?.is_some()),
        Expected::Choice => Ok(choice_of(alloc, text)?.is_some()),
        Expected::Change => Ok(crate::change_word_of(text).is_some()),
    }
}

/// What a field has to be, in words.
pub(crate) fn name_of(expected: Expected) -> &'static [u8]
    ensures name { result.now ≡ name_of expected }
{
    match expected {
        Expected::Handle => b"a handle",
        Expected::Path => b"a path",
        Expected::Number => b"a number",
        Expected::Kind => b"a kind",
        Expected::Id => b"an id",
        Expected::Data => b"data",
        Expected::Content => b"contents",
        Expected::Choice => b"an option",
        Expected::Change => b"a change",
    }
}
