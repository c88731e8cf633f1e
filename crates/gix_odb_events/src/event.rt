//! The events of a core, and its answers.
ghost use Rattle.std.specs.Prelude.{◌≡◌, Ok};
ghost use Rattle.std.specs.Option.{option_copied};
ghost use Rattle.gix_odb_events.specs.Answers.{view_in};
ghost use Rattle.gix_odb_events.specs.declared.event.Refusal.TheVariants.{NoMemory as out_of_memory};

use crate::metrics::Report;
use crate::view::View;
use crate::{Listing, PackId, Shared};
use gix_pack_read::{data, index};
use odb_base::{NoMemory, PathText};
use thiserror::Error;

/// Why a file was passed over.
#[derive(Clone, Copy, Debug, PartialEq, Eq)]
pub enum PassWhy {
    /// Nothing was at its path.
    Absent,
    /// The call of the disk failed.
    Failed,
    /// Something other than a file was there.
    WrongKind,
    /// Too many links were followed.
    LinkLoop,
    /// The bytes are no valid index or pack.
    Bad,
}

/// What happens to a core, by a handle that has a seat.
#[derive(Drop)]
pub enum Event {
    /// The handle begins.
    Register {
        stable: bool,
    },
    /// The handle is stable from now on.
    Upgrade,
    /// The handle ends.
    Remove,
    /// The handle takes a view.
    Look,
    /// The handle asks for a report.
    Report,
    /// An index was read.
    PutIndex {
        slot: u16,
        path: PathText,
        file: Shared<index::File>,
    },
    /// A pack was read.
    PutPack {
        pack: PackId,
        path: PathText,
        file: Shared<data::File>,
    },
    /// A file could not be read.
    PassOver {
        slot: u16,
        path: PathText,
        why: PassWhy,
    },
    /// The folders were listed.
    Publish(Listing),
}

/// The answer to an event.
#[derive(Drop)]
pub enum Effect {
    /// The view.
    Seen(View),
    /// The report, and the view.
    Reported { view: View, report: Shared<Report> },
    /// The handle is gone.
    Removed,
    /// Whether the file was stored, and the view.
    Put { view: View, stored: bool },
    /// There is a new list.
    Published(View),
    /// The list is unchanged.
    Unchanged(View),
    /// Another list was published since the listing began.
    Outdated { list_no: u64 },
}

impl Effect {
    /// The view, if it has one.
    pub fn view(&self) -> Option<&View>
        ensures view { option_copied result ≡ view_in (Ok self.now) }
    {
        match self {
            Effect::Seen(view) | Effect::Published(view) | Effect::Unchanged(view) => Some(view),
            Effect::Reported { view, .. } | Effect::Put { view, .. } => Some(view),
            Effect::Removed | Effect::Outdated { .. } => None,
        }
    }
}

/// Why an event was refused.
#[derive(Clone, Copy, Debug, Error)]
pub enum Refusal {
    /// There are more new rows than free slots.
    #[error("{current} slots are too few: {needed} more are needed")]
    InsufficientSlots { current: usize, needed: usize },
    /// A counter is at its greatest value, and would have to rise.
    #[error("the generation or the state number cannot rise any more")]
    GenerationOverflow,
    #[error("out of memory")]
    NoMemory,
}

impl From<NoMemory> for Refusal {
    ghost from_gives = { λ _ e. e ≡ out_of_memory };

    fn from(_: NoMemory) -> Refusal {
        Refusal::NoMemory
    }
}
