//! The text of `--help`, compared with the words by which scripts are read.
use crate::run::HELP;
use gix_object::Want;
use odb_script::{ChangeWord, Choice, Word, change_word_of, choice_of, word_of};
use std::alloc::Global;
use std::test::Fail;

/// Each word of a line that is built, except `do`, which comes before those of changes.
const WORDS: [Word; 18] = [
    Word::Fail,
    Word::Mkdir,
    Word::Put,
    Word::Link,
    Word::Steps,
    Word::Open,
    Word::Clone,
    Word::Close,
    Word::Never,
    Word::Ignore,
    Word::Ask(Want::Object),
    Word::Ask(Want::Header),
    Word::Ask(Want::Presence),
    Word::Write,
    Word::Stream,
    Word::WriteAs,
    Word::Turn,
    Word::Finish,
];

/// Each word after `do`.
const CHANGES: [ChangeWord; 6] = [
    ChangeWord::Mkdir,
    ChangeWord::Put,
    ChangeWord::Link,
    ChangeWord::Rename,
    ChangeWord::Remove,
    ChangeWord::Time,
];

/// How the lines of a word are spelled. A new word doesn't compile without an arm here.
fn spelled(word: Word) -> &'static str {
    match word {
        Word::Fail => "fail N",
        Word::Mkdir => "mkdir PATH",
        Word::Put => "put PATH TIME CONTENT",
        Word::Link => "link PATH TARGET",
        Word::Steps => "steps",
        Word::Open => "open H PATH ",
        Word::Clone => "clone NEW H",
        Word::Close => "close H",
        Word::Never => "never H",
        Word::Ignore => "ignore H",
        Word::Ask(Want::Object) => "find H HEX",
        Word::Ask(Want::Header) => "header H HEX",
        Word::Ask(Want::Presence) => "test H HEX",
        Word::Write => "write H KIND DATA",
        Word::Stream => "stream H KIND SIZE DATA",
        Word::WriteAs => "writeas H KIND HEX DATA",
        Word::Turn => "turn H",
        Word::Finish => "finish H",
        Word::Do | Word::NotBuilt => "",
    }
}

/// How the lines of a word after `do` are spelled, without `do `.
fn spelled_behind_do(word: ChangeWord) -> &'static str {
    match word {
        ChangeWord::Mkdir => "mkdir PATH",
        ChangeWord::Put => "put PATH TIME CONTENT",
        ChangeWord::Link => "link PATH TARGET",
        ChangeWord::Rename => "rename PATH PATH",
        ChangeWord::Remove => "remove PATH",
        ChangeWord::Time => "time PATH TIME",
    }
}

/// The first field of a line.
fn first_field(line: &str) -> &str {
    line.split_once(' ').unwrap_or((line, "")).0
}

/// Whether a line of the text describes lines that begin with `front` and continue with a spelling.
fn tells_of(line: &str, front: &str, spelling: &str) -> bool {
    match line.strip_prefix(front) {
        Some(rest) => stands_alone(rest.strip_prefix(spelling)),
        None => false,
    }
}

/// Whether a spelling is followed by nothing or by the text about it.
fn stands_alone(rest: Option<&str>) -> bool {
    match rest {
        Some(rest) => rest.is_empty() || rest.starts_with("  "),
        None => false,
    }
}

/// Whether the text describes lines that begin with `front` and continue with a spelling.
fn is_told(front: &str, spelling: &str) -> bool {
    let mut is_told = false;
    for line in HELP.split('\n') {
        is_told |= tells_of(line, front, spelling);
    }
    is_told
}

fn check(is_right: bool, spelling: &str) -> Result<(), Fail> {
    if is_right {
        return Ok(());
    }
    Err(Fail::new(format_args!("no line tells of {spelling}")))
}

fn check_word(word: Word) -> Result<(), Fail> {
    let spelling = spelled(word);
    let is_read = word_of(first_field(spelling)) == Some(word);
    check(is_read && is_told("  ", spelling), spelling)
}

fn check_change_word(word: ChangeWord) -> Result<(), Fail> {
    let spelling = spelled_behind_do(word);
    let is_read = change_word_of(first_field(spelling)) == Some(word);
    check(is_read && is_told("  do ", spelling), spelling)
}

// A word that is understood and left out.
#[test]
fn tells_of_each_word(_rt: HostRuntime) -> Result<(), Fail> {
    for word in WORDS {
        check_word(word)?;
    }
    for word in CHANGES {
        check_change_word(word)?;
    }
    Ok(())
}

/// Whether a line of the text describes a word that is built, or none.
fn is_known(line: &str) -> bool {
    match line.strip_prefix("  ") {
        Some(rest) if !rest.starts_with(" ") => is_built(rest),
        _ => true,
    }
}

/// Whether a line begins with a word that is built, and continues with one if it begins with `do`.
fn is_built(line: &str) -> bool {
    match word_of(first_field(line)) {
        Some(Word::Do) => is_change(line),
        Some(Word::NotBuilt) | None => false,
        Some(_) => true,
    }
}

fn is_change(line: &str) -> bool {
    match line.strip_prefix("do ") {
        Some(rest) => change_word_of(first_field(rest)).is_some(),
        None => false,
    }
}

// A word that isn't understood, or isn't built.
#[test]
fn tells_of_no_other_word(rt: HostRuntime) {
    for line in HELP.split('\n') {
        assert!(rt; is_known(line));
    }
}

/// How an option of an opening is spelled. A new option doesn't compile without an arm here.
fn option_spelled(choice: &Choice) -> &'static str {
    match choice {
        Choice::Folder(_) => "folder=PATH",
        Choice::Replacement(_, _) => "replace=HEX:HEX",
        Choice::Slots(_) => "slots=N",
        Choice::Limit(_) => "limit=N",
        Choice::Changes(_) => "changes=N",
        Choice::NoMultiPackIndex => "midx=no",
        Choice::Sha256 => "hash=sha256",
    }
}

/// Whether an option is understood, and the text names it.
fn is_named(alloc: Global, option: &str) -> Result<bool, Fail> {
    match choice_of(alloc, option)? {
        Some(choice) => Ok(HELP.contains(option_spelled(&choice))),
        None => Ok(false),
    }
}

/// An option of each kind.
const OPTIONS: [&str; 7] = [
    "slots=4",
    "limit=5",
    "changes=6",
    "midx=no",
    "hash=sha256",
    "folder=/p",
    "replace=e69de29bb2d1d6434b8b29ae775ad8c2e48c5391:ce013625030ba8dba906f756967f9e9ca394464a",
];

// An option that is understood and left out.
#[test]
fn names_each_option(rt: HostRuntime) -> Result<(), Fail> {
    for option in OPTIONS {
        check(is_named(rt.alloc(), option)?, option)?;
    }
    Ok(())
}

/// Each word that is known and isn't built.
const UNBUILT_WORDS: [&str; 5] = ["ids", "upgrade", "prefix", "locate", "entry"];

// A word that isn't built, and is left out.
#[test]
fn names_what_is_not_built(_rt: HostRuntime) -> Result<(), Fail> {
    for word in UNBUILT_WORDS {
        let is_unbuilt = word_of(word) == Some(Word::NotBuilt);
        check(is_unbuilt && HELP.contains(word), word)?;
    }
    Ok(())
}
