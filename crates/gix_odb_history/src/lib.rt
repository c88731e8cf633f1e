//! A run of a world: its events and their records, and the disk and the cores of the stores after them.
//!
//! Besides its outcome, a step of a world has at most one effect: a call of the disk, an event of the core of a
//! store, or a change by another program. This crate records these, and applies events to cores; `gix_odb_world` says
//! which step has which. Read `specs/Event.antt` and `specs/Run.antt` first, then `record` and `cores`.
//! ```rust
//! let (did, view) = cores::added(alloc, &mut cores, 32, 1, seat)?;
//! let journals = cores::journals_of(alloc, cores)?;
//! ```
#![tactic(auto)]

pub mod cores;
mod kept_core;
mod record;

pub use cores::JournalList;
pub use kept_core::KeptCore;
pub use record::{
    ChangeMade, Did, OutcomeList, Record, RecordList, Run, boxed_change, copy_of_change,
};
