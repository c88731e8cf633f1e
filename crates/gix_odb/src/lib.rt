//! A store over several folders: what it holds, and the calls on a handle of it.
//!
//! A call is a machine: it names one call of the disk or one event of the store's core at a time, takes the answer, and ends with
//! a reply. Openings, look-ups, refreshes and writes have their order of work in `specs/{OpenOrder,LookUpOrder,RefreshOrder,
//! CallOrder}.antt`; what a store holds, and for how long, is in `specs/{Contents,Moments,Held}.antt`. The laws in
//! `proofs/*Laws.antt` are for the crates that drive the machines over some disk.
//! ```rust
//! let mut state = CallState::start(alloc, &handle, Call::Find(id))?;
//! let reply = loop {
//!     match state.ask(alloc)? {
//!         Ask::Disk(ask) => state.feed(alloc, ..)?,    // with the answer of the disk
//!         Ask::Core(event) => state.feed(alloc, ..)?,  // or with that of the core
//!         Ask::Done(reply) => break reply,
//!     }
//! };
//! let handle = state.into_state();
//! ```
#![tactic(auto)]

mod ask;
mod call_state;
mod handle_state;
mod look_up;
mod open_state;
mod refresh;
mod refresh_mode;
mod refusals;
mod see;

pub use ask::{Ask, OpenAsk};
pub use call_state::{CallStage, CallState};
pub use gix_odb_calls::{
    Call, CallError, IdPairs, Options, PathList, Query, Replacements, Reply, Slots, StoreParts,
    copy_of_pairs, copy_of_paths, find, init, load_index, write,
};
pub use gix_odb_events::Answer;
pub use handle_state::HandleState;
pub use look_up::{LookHead, LookStage, LookUp, LooseRound, Part, Purpose, Setting};
pub use open_state::{OpenStage, OpenState};
pub use refresh::{Refresh, RefreshStep};
pub use refresh_mode::RefreshMode;
pub use refusals::of_refusal;
