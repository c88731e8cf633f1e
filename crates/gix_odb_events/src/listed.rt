//! The row of a listed slot in a report.
use crate::Shared;
use odb_base::{PathText, Sequence};

/// A listed slot.
#[derive(Drop)]
pub struct Listed {
    pub path: Shared<PathText>,
    /// Whether it is a multi-pack index.
    pub multi: bool,
    /// Whether the index is loaded.
    pub loaded: bool,
    /// Whether one of its files is garbage or missing.
    pub disposable: bool,
}

/// Listed slots, in the order of the list. A report that is returned and its entry in the journal share them.
pub type ListedList = Shared<Sequence<Listed>>;
