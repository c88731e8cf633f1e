//! Rows of words, and what is compared.
use std::alloc::AllocError;
use std::test::Fail;

/// Returns the first word of a text and what is after it, which is empty where there is only one word.
pub fn cut(text: &str) -> (&str, &str) {
    text.split_once(' ').unwrap_or((text, ""))
}

/// Returns what a row does, and what must follow.
pub fn halves(row: &str) -> (&str, &str) {
    row.split_once('|').unwrap_or((row, ""))
}

/// Returns both halves without the blanks around the bar.
pub fn wide_halves(row: &str) -> (&str, &str) {
    let (done, want) = halves(row);
    (done.trim_end(), want.trim_start())
}

/// Fails where a row gives something else than is wanted.
pub fn compare(row: &str, found: &str, want: &str) -> Result<(), Fail> {
    if found == want {
        return Ok(());
    }
    Err(Fail::new(format_args!("{row}: {found} in place of {want}")))
}

/// Adds a text to a list of texts with commas between them.
pub fn add(all: &mut String, text: &str) -> Result<(), AllocError> {
    if !all.is_empty() {
        all.push_str(", ")?;
    }
    all.push_str(text)
}
