//! How a line is split into fields, and a field into its parts.
ghost use Rattle.std.specs.Prelude.{◌≡◌, ◌==◌, ◌<◌, ◌∷◌, [], length, position, IfOk, IfSome, IsNone};
ghost use Rattle.std.specs.List.{slice_split};
ghost use Rattle.odb_script.specs.Split.{after_colon, after_equals, before_colon, before_equals, fields_of, texts_of};

use memchr::memchr;
use std::alloc::{AllocError, Global};

/// The fields of a line, which single spaces separate.
pub fn fields_of<'a>(alloc: Global, line: &'a str) -> Result<Vec<&'a str>, AllocError>
    ensures fields { IfOk result (λ fields. texts_of fields.items ≡ fields_of line.now) }
{
    parts_of(alloc, line, ' ')
}

/// The text before the first colon, and the text after it; without a colon, all of it and nothing.
pub fn at_colon(text: &str) -> (&str, &str)
    ensures before { result.0.now ≡ before_colon text.now }
    ensures after { result.1.now ≡ after_colon text.now }
{
    match text.split_once(':') {
        Some((before, after)) => (before, after),
        None => (text, ""),
    }
}

/// The text before the first `=`, and the text after it; without one, all of it and nothing.
pub fn at_equals(text: &str) -> (&str, &str)
    ensures before { result.0.now ≡ before_equals text.now }
    ensures after { result.1.now ≡ after_equals text.now }
{
    match text.split_once('=') {
        Some((before, after)) => (before, after),
        None => (text, ""),
    }
}

/// The parts of a text, which one ASCII character separates.
pub fn parts_of<'a>(
    alloc: Global,
    text: &'a str,
    separator: char,
) -> Result<Vec<&'a str>, AllocError>
    requires ascii { separator < 128 }
    ensures parts { IfOk result (λ parts. texts_of parts.items ≡ slice_split (λ b. b == separator) text.now) }
{
    text.split(separator).collect(alloc)
}

/// The bytes before a separator, and those after it; None if it isn't there.
pub fn first_part(bytes: &[u8], separator: u8) -> Option<(&[u8], &[u8])>
    ensures found { IfSome result (λ parts. slice_split (λ b. b == separator) bytes.now ≡ parts.0.now ∷ slice_split (λ b. b == separator) parts.1.now) }
    ensures shorter { IfSome result (λ parts. length parts.1.now < length bytes.now) }
    ensures none { IsNone result → slice_split (λ b. b == separator) bytes.now ≡ bytes.now ∷ [] }
{
    match first_place(bytes, separator) {
        Some(end) => Some((&bytes[..end], &bytes[end + 1..])),
        None => None,
    }
}

fn first_place(bytes: &[u8], byte: u8) -> Option<usize>
    ensures place { result ≡ position (λ b. b == byte) bytes.now }
{
    memchr(byte, bytes)
}
