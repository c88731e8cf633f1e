//! The language of scripts: what their lines say, why a line is refused, and the lines that are written for outcomes.
//!
//! `read` reads a script up to the first line that is refused or isn't built, and `item_of` one line; for any bytes both return
//! what `specs/{Script,Line}.antt` define. `told_of` says in words which field of a refused line is the first that is wrong, and
//! how. `print_outcome` writes an outcome, byte for byte as `specs/Print.antt` says. The language in words is `docs/SCRIPT.md`.
//! ```rust
//! let (disk, lines, ending) = read(alloc, script)?.into_parts(alloc)?;
//! let play = World::play(alloc, disk, lines.as_slice())?;
//! print_outcome(alloc, &mut out, &Outcome::Applied)?;    // applied
//! ```
#![tactic(auto)]

mod change;
mod choice;
mod content;
mod expected;
mod fault;
mod field;
mod item;
mod objects;
mod opening;
mod part;
mod print;
mod reader;
mod reason;
mod split;
mod unbuilt;
mod word;
mod wording;
mod write;

pub use choice::{Choice, choice_of};
pub use content::content_of;
pub use expected::{Expected, expected_of, expected_of_change};
pub use fault::{Fault, Mistake};
pub use field::{data_of, handle_of, id_of, kind_of, path_of};
pub use item::{Item, item_of};
pub use part::{Part, part_at};
pub use print::print_outcome;
pub use reader::{Ending, Reading, SCRIPT_LIMIT, Script, Taken, read};
pub use reason::{Reason, reason_of};
pub use split::{fields_of, first_part};
pub use word::{ChangeWord, Word, change_word_of, word_of};
pub use wording::told_of;
