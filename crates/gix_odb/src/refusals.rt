//! The error of a call whose event was refused by the core of its store.
ghost use Rattle.std.specs.Prelude.{◌≡◌};
ghost use Rattle.gix_odb.specs.LoadIndex.{of_refusal};

use gix_odb_calls::load_index::Error;
use gix_odb_events::Refusal;

/// Returns the error of a call whose event was refused.
pub fn of_refusal(refusal: Refusal) -> Error
    ensures error { result ≡ of_refusal refusal }
{
    match refusal {
        Refusal::InsufficientSlots { current, needed } => {
            Error::InsufficientSlots { current, needed }
        }
        Refusal::GenerationOverflow => Error::GenerationOverflow,
        Refusal::NoMemory => Error::NoMemory,
    }
}
