//! Folders and options among the words of the command line.
ghost use Rattle.std.specs.Prelude.{◌≡◌, ◌==◌, IfOk, Some, Ok, map, string_bytes};
ghost use Rattle.std.specs.List.{before_first, after_first};
ghost use Rattle.list_walk.specs.Words.{asked_by_next, asked_of, asked_with, count_of, counted, flagged, is_option, no_choices, no_words, or_told};
ghost use Rattle.list_walk.specs.Words.{with_any, with_count, with_folder, with_number, with_option, with_value, with_word, words_of};
ghost use Rattle.list_walk.specs.Folder.{folder_of};
ghost use Rattle.odb_base.specs.Decimal.{number_of};

use crate::folder::folder_of;
use crate::misread::{Misread, told_of};
use odb_base::{ByteList, NoMemory, Sequence, parse_decimal};
use odb_mem_disk::PathText;
use std::alloc::Global;

/// What is listed: folders, at least one, in their order, and how each of them is walked.
#[derive(Drop)]
pub struct Asked {
    pub folders: Sequence<PathText>,
    pub choices: Choices,
}

/// How a folder is walked.
#[derive(Clone, Copy)]
pub struct Choices {
    /// `--follow`: links are followed.
    pub follow: bool,
    /// `--sort`: the entries of each directory are given in the order of the bytes of their names.
    pub sort: bool,
    /// `--contents-first`: a directory is given after its contents.
    pub contents_first: bool,
    /// `--same-file-system`: directories on other devices aren't entered.
    pub same_file_system: bool,
    /// `-0`: an entry ends with NUL, not with a line feed.
    pub nul: bool,
    /// `--max-open N`
    pub max_open: Option<usize>,
    /// `--min-depth N`
    pub min_depth: Option<usize>,
    /// `--max-depth N`
    pub max_depth: Option<usize>,
}

/// The words that are read so far.
#[derive(Drop)]
pub struct Words {
    pub folders: Sequence<PathText>,
    pub choices: Choices,
    pub next: Next,
}

/// What the next word may be.
#[derive(Clone, Copy)]
pub enum Next {
    /// An option or a folder.
    Any,
    /// The number of an option.
    Number(Count),
    /// A folder, since `--` precedes it.
    Folder,
}

/// An option with a number.
#[derive(Clone, Copy)]
pub enum Count {
    MaxOpen,
    MinDepth,
    MaxDepth,
}

/// What is to be listed, if each word is understood and one of them is a folder; else the message.
pub fn asked_of(
    alloc: Global,
    home: &Option<PathText>,
    words: &[String],
) -> Result<Result<Asked, ByteList>, NoMemory>
    ensures asked { IfOk result (λ asked. asked ≡ asked_of home.now (map (λ word. string_bytes word) words.now)) }
{
    match words_of(alloc, home, words)? {
        Ok(words) => or_told(alloc, asked_with(words)),
        Err(told) => Ok(Err(told)),
    }
}

/// What is to be listed, or the message on all words together.
fn or_told(
    alloc: Global,
    asked: Result<Asked, Misread>,
) -> Result<Result<Asked, ByteList>, NoMemory>
    ensures asked { IfOk result (λ told. told ≡ or_told asked) }
{
    match asked {
        Ok(asked) => Ok(Ok(asked)),
        Err(why) => Ok(Err(told_of(alloc, why, "")?)),
    }
}

/// What the words that are read ask for: there has to be a folder among them.
fn asked_with(words: Words) -> Result<Asked, Misread>
    ensures asked { result ≡ asked_with words.next words.folders words.choices }
{
    let Words {
        folders,
        choices,
        next,
    } = words;
    match folders.as_slice() {
        [] => Err(Misread::NoFolderNamed),
        [_, ..] => asked_by_next(next, folders, choices),
    }
}

/// What is to be listed, unless the number of an option is missing.
fn asked_by_next(
    next: Next,
    folders: Sequence<PathText>,
    choices: Choices,
) -> Result<Asked, Misread>
    ensures asked { result ≡ asked_by_next next folders choices }
{
    match next {
        Next::Any => Ok(Asked { folders, choices }),
        Next::Folder => Ok(Asked { folders, choices }),
        Next::Number(count) => Err(Misread::NoNumber(count)),
    }
}

/// Reads all words one after the other, if each is understood; else returns the message on the first that isn't.
#[tactic(auto, unfolding(crate::specs::Words::words_of))]
fn words_of(
    alloc: Global,
    home: &Option<PathText>,
    words: &[String],
) -> Result<Result<Words, ByteList>, NoMemory>
    ensures read { IfOk result (λ read. read ≡ words_of home.now no_words (map (λ word. string_bytes word) words.now)) }
{
    let mut read = no_words(alloc);
    let mut rest = words;
    while let [word, more @ ..] = rest {
        match with_word(alloc, home, read, word.as_str())? {
            Ok(next) => read = next,
            Err(why) => return Ok(Err(told_of(alloc, why, word.as_str())?)),
        }
        rest = more;
    }
    Ok(Ok(read))
}

fn no_words(alloc: Global) -> Words
    ensures words { result ≡ no_words }
{
    Words {
        folders: Sequence::new(alloc),
        choices: Choices::none(),
        next: Next::Any,
    }
}

impl Choices {
    /// No option.
    pub fn none() -> Choices
        ensures choices { result ≡ no_choices }
    {
        Choices {
            follow: false,
            sort: false,
            contents_first: false,
            same_file_system: false,
            nul: false,
            max_open: None,
            min_depth: None,
            max_depth: None,
        }
    }
}

/// The words with one more, if it is understood.
fn with_word(
    alloc: Global,
    home: &Option<PathText>,
    words: Words,
    word: &str,
) -> Result<Result<Words, Misread>, NoMemory>
    ensures words { IfOk result (λ more. more ≡ with_word home.now words.next words word.now) }
{
    match words.next {
        Next::Any => with_any(alloc, home, words, word),
        Next::Number(count) => Ok(with_number(words, count, word)),
        Next::Folder => with_folder(alloc, home, words, word),
    }
}

/// The words with an option or a folder.
fn with_any(
    alloc: Global,
    home: &Option<PathText>,
    words: Words,
    word: &str,
) -> Result<Result<Words, Misread>, NoMemory>
    ensures words { IfOk result (λ more. more ≡ with_any home.now words word.now) }
{
    if is_option(word) {
        Ok(with_option(words, word))
    } else {
        with_folder(alloc, home, words, word)
    }
}

/// Whether a word begins with `-`.
#[tactic(auto, using(std::proofs::lemmas::Str::Pattern::starts_text))]
fn is_option(word: &str) -> bool
    ensures option { result ≡ is_option word.now }
{
    word.starts_with("-")
}

fn with_folder(
    alloc: Global,
    home: &Option<PathText>,
    words: Words,
    word: &str,
) -> Result<Result<Words, Misread>, NoMemory>
    ensures words { IfOk result (λ more. more ≡ with_folder words (folder_of home.now word.now)) }
{
    match folder_of(alloc, home, word)? {
        Ok(folder) => one_more(words, folder),
        Err(why) => Ok(Err(why)),
    }
}

fn one_more(mut words: Words, folder: PathText) -> Result<Result<Words, Misread>, NoMemory>
    ensures words { IfOk result (λ more. more ≡ with_folder words (Ok folder)) }
{
    words.folders.push(folder)?;
    Ok(Ok(words))
}

/// The words with an option: one without a number, one whose number is the next word, one whose number follows `=`,
/// or `--`.
fn with_option(words: Words, option: &str) -> Result<Words, Misread>
    ensures words { result ≡ with_option words option.now }
{
    if option == "--" {
        return Ok(expecting(words, Next::Folder));
    }
    match flagged(words.choices, option) {
        Some(choices) => Ok(choosing(words, choices)),
        None => with_count(words, option),
    }
}

fn expecting(mut words: Words, next: Next) -> Words
    ensures words { result ≡ record words { next = next } }
{
    words.next = next;
    words
}

fn choosing(mut words: Words, choices: Choices) -> Words
    ensures words { result ≡ record words { choices = choices } }
{
    words.choices = choices;
    words
}

/// The choices with an option without a number.
#[tactic(auto, unfolding(crate::specs::Words::flagged))]
fn flagged(mut choices: Choices, option: &str) -> Option<Choices>
    ensures choices { result ≡ flagged choices option.now }
{
    match option {
        "--follow" => choices.follow = true,
        "--sort" => choices.sort = true,
        "--contents-first" => choices.contents_first = true,
        "--same-file-system" => choices.same_file_system = true,
        "-0" => choices.nul = true,
        _ => return None,
    }
    Some(choices)
}

/// The words with an option that takes a number.
fn with_count(words: Words, option: &str) -> Result<Words, Misread>
    ensures words { result ≡ with_count words option.now (count_of option.now) }
{
    match count_of(option) {
        Some(count) => Ok(expecting(words, Next::Number(count))),
        None => with_value(words, option),
    }
}

/// The words with an option whose number follows `=`.
fn with_value(words: Words, option: &str) -> Result<Words, Misread>
    ensures words { result ≡ with_value words (before_first (λ b. b == 61) option.now) (after_first (λ b. b == 61) option.now) }
{
    let (name, number) = at_equals(option);
    match count_of(name) {
        Some(count) => with_number(words, count, number),
        None => Err(Misread::NoSuchOption),
    }
}

/// The text before the first `=`, and the text after it; without one, all of it and nothing.
fn at_equals(text: &str) -> (&str, &str)
    ensures before { result.0.now ≡ before_first (λ b. b == 61) text.now }
    ensures after { result.1.now ≡ after_first (λ b. b == 61) text.now }
{
    match text.split_once('=') {
        Some((before, after)) => (before, after),
        None => (text, ""),
    }
}

/// The option with a number that has this name.
#[tactic(auto, unfolding(crate::specs::Words::count_of))]
fn count_of(name: &str) -> Option<Count>
    ensures count { result ≡ count_of name.now }
{
    match name {
        "--max-open" => Some(Count::MaxOpen),
        "--min-depth" => Some(Count::MinDepth),
        "--max-depth" => Some(Count::MaxDepth),
        _ => None,
    }
}

/// The words with the number of an option.
fn with_number(words: Words, count: Count, number: &str) -> Result<Words, Misread>
    ensures words { result ≡ with_number words count (number_of number.now) }
{
    match parse_decimal(number) {
        Some(number) => {
            let choices = counted(words.choices, count, number as usize);
            Ok(expecting(choosing(words, choices), Next::Any))
        }
        None => Err(Misread::NoNumber(count)),
    }
}

/// The choices with the number of an option. If an option is repeated the last one counts.
fn counted(mut choices: Choices, count: Count, number: usize) -> Choices
    ensures choices { result ≡ counted choices count number }
{
    match count {
        Count::MaxOpen => choices.max_open = Some(number),
        Count::MinDepth => choices.min_depth = Some(number),
        Count::MaxDepth => choices.max_depth = Some(number),
    }
    choices
}
