//! Interleaved runs of calls over one disk that other programs change too.
//!
//! A world takes steps: it opens stores over some folders, begins clones of their handles and closes them, starts calls
//! that look for objects or write them, lets a handle make one call of the disk or one event of the core of its store, and
//! lets other programs change the tree. For every disk and every list of steps `World::run` returns one outcome for each
//! step; what is found was held by the store's files, a not-found means that no sound object stayed unchanged throughout,
//! each call ends within its bound, and each error has its cause: `specs/Headline.antt` says it.
//! ```rust
//! let run = World::run(alloc, disk, &steps)?;
//! for outcome in run.outcomes.as_slice() { .. }
//! ```
#![tactic(auto)]

mod bound;
mod course;
mod handle;
mod opening;
mod play;
mod step_list;
mod turn;
mod watch;
mod world;

pub use bound::bound_of;
pub use gix_odb_calls::{
    Call, CallError, IdPairs, Line, Options, Outcome, PathList, Reply, Slots, Step, Why, find,
    init, load_index, write,
};
pub use gix_odb_history::{Did, JournalList, OutcomeList, Record, RecordList, Run};
pub use play::Play;
pub use step_list::StepList;
pub use world::{World, is_valid};
