//! What the programs share: the words of a command line, statuses, how an output is put together and delivered, and
//! what is written to standard error.
//!
//! A program is one call over any source and sink, which returns a status of its own. `specs/Session.antt` has the
//! words by which its contract says what each status means; `main` binds the call to the real streams.
//! ```rust
//! let words = command_words(&rt, alloc)?;
//! let status = answer(&mut sink, NOT_UNDERSTOOD.as_bytes(), Status::NotUnderstood);
//! finish(&mut errors, "gitodb", status)
//! ```
#![tactic(auto)]

mod command_line;
mod delivery;
mod ending;
mod folder;
mod output;
mod standard_error;
mod status;

pub use command_line::{NOT_UNDERSTOOD, command_words};
pub use delivery::answer;
pub use ending::finish;
pub use folder::working_folder;
pub use output::{labelled, number, text};
pub use status::SessionStatus;
