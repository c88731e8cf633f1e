//! The texts of errors.
use gix_odb_loose::find::{self, Action};
use gix_odb_loose::write::{self, Message};
use odb_base::PathText;
use std::alloc::Global;
use std::test::Fail;
use test_words::compare;

/// An error of a find by its word, with 6 bytes of data instead of 5.
fn find_error(path: PathText, word: &str) -> find::Error {
    let action = Action::OpenOrMap;
    let (actual, expected) = (6, 5);
    match word {
        "find io" => find::Error::Io { action, path },
        "find size" => find::Error::SizeMismatch {
            actual,
            expected,
            path,
        },
        "find decode" => find::Error::Decode,
        "find limit" => find::Error::OutOfMemory { size: 7 },
        _ => find::Error::NoMemory,
    }
}

/// An error of a write by its word, with 6 bytes of data instead of 5.
fn write_error(path: PathText, word: &str) -> write::Error {
    let (actual, expected) = (6, 5);
    let message = match word {
        "raw" => return write::Error::IoRaw,
        "persist" => return write::Error::Persist { target: path },
        "size" => return write::Error::SizeMismatch { expected, actual },
        "memory" => return write::Error::NoMemory,
        "create" => Message::CreateTempFile,
        "header" => Message::WriteHeader,
        _ => Message::StreamData,
    };
    write::Error::Io { message, path }
}

fn find_text(alloc: Global, word: &str) -> Result<String, Fail> {
    let path = PathText::parse(alloc, "/o/ab")?;
    let error = find_error(path, word).try_clone(alloc)?;
    Ok(format!(in alloc; "{error}")?)
}

fn write_text(alloc: Global, word: &str) -> Result<String, Fail> {
    let path = PathText::parse(alloc, "/o/ab")?;
    let error = write_error(path, word).try_clone(alloc)?;
    Ok(format!(in alloc; "{error}")?)
}

/// The text of a copy of an error with the path `/o/ab`.
fn text_of(alloc: Global, word: &str) -> Result<String, Fail> {
    if word.starts_with("find") {
        return find_text(alloc, word);
    }
    write_text(alloc, word)
}

// Other texts than these.
#[test]
fn errors(rt: HostRuntime) -> Result<(), Fail> {
    for (word, want) in [
        ("find io", "could not open or map /o/ab"),
        (
            "find size",
            "/o/ab has 6 bytes of data, and 5 by its header",
        ),
        ("find limit", "an object of 7 bytes is above the limit"),
        ("find decode", "the loose object has no header"),
        ("find memory", "out of memory"),
        ("create", "could not create named temp file in /o/ab"),
        ("header", "could not write header to tempfile in /o/ab"),
        ("data", "could not stream all data into tempfile in /o/ab"),
        ("raw", "could not make the directory of the object"),
        ("persist", "could not turn the temporary file into /o/ab"),
        ("size", "expected 5 bytes of data, and got 6"),
        ("memory", "out of memory"),
    ] {
        let found = text_of(rt.alloc(), word)?;
        compare(word, found.as_str(), want)?;
    }
    Ok(())
}
