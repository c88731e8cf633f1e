//! The counts of a core, and its report.

use crate::event::PassWhy;
use crate::{ListedList, Shared, SharedSequence};
use odb_base::PathText;

/// Counts over a core.
#[derive(Clone, Copy, Debug, Default, PartialEq, Eq)]
pub struct Metrics {
    /// How many handles are registered.
    pub num_handles: usize,
    /// How many listings were published or confirmed the list.
    pub num_refreshes: usize,
    /// How many listed slots have their index loaded.
    pub open_reachable_indices: usize,
    /// How many slots are listed.
    pub known_reachable_indices: usize,
    /// How many packs of listed slots are loaded.
    pub open_reachable_packs: usize,
    /// How many packs the listed slots have.
    pub known_packs: usize,
    /// How many slots are empty.
    pub unused_slots: usize,
    /// How many filled slots have a file that is garbage or missing.
    pub unreachable_indices: usize,
    /// How many packs of these are loaded.
    pub unreachable_packs: usize,
    /// How many folders there are.
    pub loose_dbs: usize,
}

/// A file that was passed over.
#[derive(Drop)]
pub struct Passed {
    pub path: Shared<PathText>,
    pub why: PassWhy,
}

/// The files that were passed over, in the order of the journal. A report shares them with the core.
pub type PassedList = SharedSequence<Passed>;

/// The report of a core on itself. The one that is returned and the one in the journal are the same.
#[derive(Drop)]
pub struct Report {
    pub metrics: Metrics,
    pub listed: ListedList,
    pub passed_over: PassedList,
}
