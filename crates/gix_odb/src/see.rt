//! What a handle sees of an answer.
ghost use Rattle.std.specs.Prelude.{◌≡◌, IfOk, Ok};
ghost use Rattle.gix_odb_events.specs.Answers.{view_in};
ghost use Rattle.gix_odb.specs.LookUpOrder.{view_of};
ghost use Rattle.gix_odb.specs.HandleState.{told_by};

use crate::handle_state::HandleState;
use gix_odb_events::{Answer, Effect, View};
use odb_base::NoMemory;

/// The handle has the view that an answer passes, if it passes one. The answer is given back.
pub fn see(handle: &mut HandleState, answer: Answer) -> Result<Answer, NoMemory>
    ensures seen { handle.new ≡ told_by handle.old answer }
    ensures same { IfOk result (λ same. same ≡ answer) }
{
    match view_copy(&answer) {
        Ok(None) => Ok(answer),
        Ok(Some(view)) => {
            handle.view = view;
            Ok(answer)
        }
        Err(error) => {
            if let Some(view) = into_view(answer) {
                handle.view = view;
            }
            Err(error)
        }
    }
}

// A copy of the view that an answer passes.
fn view_copy(answer: &Answer) -> Result<Option<View>, NoMemory>
    ensures copied { IfOk result (λ view. view ≡ view_of answer.now) }
{
    match answer {
        Answer::Core(Ok(effect)) => match effect.view() {
            Some(view) => Ok(Some(view.try_clone()?)),
            None => Ok(None),
        },
        Answer::Core(Err(_)) | Answer::Disk(_) => Ok(None),
    }
}

// The view that an answer passes.
fn into_view(answer: Answer) -> Option<View>
    ensures view { result ≡ view_of answer }
{
    match answer {
        Answer::Core(answer) => match answer {
            Ok(effect) => effect_view(effect),
            Err(_) => None,
        },
        Answer::Disk(_) => None,
    }
}

// The view that an effect passes.
fn effect_view(effect: Effect) -> Option<View>
    ensures view { result ≡ view_in (Ok effect) }
{
    match effect {
        Effect::Seen(view) => Some(view),
        Effect::Published(view) => Some(view),
        Effect::Unchanged(view) => Some(view),
        Effect::Reported { view, report } => {
            drop(report);
            Some(view)
        }
        Effect::Put { view, .. } => Some(view),
        Effect::Removed | Effect::Outdated { .. } => None,
    }
}
