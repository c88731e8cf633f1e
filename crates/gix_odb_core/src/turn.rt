//! The result of an event, before its view is made.
ghost use Rattle.std.specs.Prelude.{◌≡◌, IfOk};
ghost use Rattle.gix_odb_core.specs.Turn.{answer_with, quiet};

use crate::Shared;
use crate::shape::Shelf;
use gix_odb_events::{Effect, Refusal, Report, View};
use odb_base::NoMemory;

/// The answer to an event, without its view.
#[derive(Drop)]
pub(crate) enum Told {
    Seen,
    Reported(Shared<Report>),
    Removed,
    Put { stored: bool },
    Published,
    Unchanged,
    Outdated { list_no: u64 },
    Refused(Refusal),
}

/// The result of an event: the shelf that it leaves, if it changes the slots, and its answer.
#[derive(Drop)]
pub(crate) struct Turn {
    pub shelf: Option<Shelf>,
    pub told: Told,
}

impl Turn {
    /// A turn that leaves the slots, the list and the counters unchanged.
    pub(crate) fn quiet(told: Told) -> Turn
        ensures turn { result ≡ quiet told }
    {
        Turn { shelf: None, told }
    }
}

fn reported(report: &Shared<Report>, view: &View) -> Result<Effect, NoMemory>
    ensures effect { IfOk result (λ effect. effect ≡ Effect.Reported view.now report.now) }
{
    let view = view.try_clone()?;
    let report = report.try_clone()?;
    Ok(Effect::Reported { view, report })
}

/// The answer, with a copy of the view if it has one.
pub(crate) fn answer(told: &Told, view: &View) -> Result<Result<Effect, Refusal>, NoMemory>
    ensures answer { IfOk result (λ answer. answer ≡ answer_with told.now view.now) }
{
    match told {
        Told::Seen => Ok(Ok(Effect::Seen(view.try_clone()?))),
        Told::Reported(report) => Ok(Ok(reported(report, view)?)),
        Told::Removed => Ok(Ok(Effect::Removed)),
        Told::Put { stored } => Ok(Ok(Effect::Put {
            view: view.try_clone()?,
            stored: *stored,
        })),
        Told::Published => Ok(Ok(Effect::Published(view.try_clone()?))),
        Told::Unchanged => Ok(Ok(Effect::Unchanged(view.try_clone()?))),
        Told::Outdated { list_no } => Ok(Ok(Effect::Outdated { list_no: *list_no })),
        Told::Refused(refusal) => Ok(Err(*refusal)),
    }
}
