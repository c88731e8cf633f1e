//! Texts that are put together.
use crate::row::compare;
use std::alloc::Global;
use std::fmt::Display;
use std::test::Fail;

/// A text to which parts are added. Out of memory is noted, and then the text is none that is wanted.
#[derive(Drop)]
pub struct Text {
    text: String,
    is_cut: bool,
}

impl Text {
    pub fn new(alloc: Global) -> Text {
        Text {
            text: String::new(alloc),
            is_cut: false,
        }
    }

    pub fn as_str(&self) -> &str {
        self.text.as_str()
    }

    /// Fails where a row gives another text than is wanted, or memory ran out.
    pub fn check(&self, row: &str, want: &str) -> Result<(), Fail> {
        if self.is_cut {
            return Err(Fail::new("out of memory"));
        }
        compare(row, self.as_str(), want)
    }

    pub fn put(&mut self, part: &str) {
        if self.text.push_str(part).is_err() {
            self.is_cut = true;
        }
    }

    /// Adds a mark, and a value as it is printed.
    pub fn marked<T: Display + Drop>(&mut self, mark: &str, value: T) {
        if write!(self.text, "{mark}{value}").is_err() {
            self.is_cut = true;
        }
    }

    /// Adds numbers, each after a space.
    pub fn numbers(&mut self, numbers: &[u64]) {
        for number in numbers {
            self.marked(" ", *number);
        }
    }

    /// Adds a comma, unless a bracket was just opened.
    pub fn comma(&mut self) {
        if !self.text.ends_with("[") {
            self.put(", ");
        }
    }

    /// Adds a word, after a semicolon unless it is the first.
    pub fn next(&mut self, word: &str) {
        if !self.text.is_empty() {
            self.put("; ");
        }
        self.put(word);
    }
}
