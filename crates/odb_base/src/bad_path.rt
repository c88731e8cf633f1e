//! The error of texts that are no paths.
ghost use Rattle.std.specs.Prelude.{◌≡◌};
ghost use Rattle.odb_base.specs.declared.bad_path.BadPath.TheVariants.{NoMemory as out_of_memory};

use crate::NoMemory;
use std::alloc::AllocError;
use thiserror::Error;

/// Why a text is no path.
#[derive(Clone, Copy, Debug, Error)]
pub enum BadPath {
    /// The text doesn't begin with `/`, or a name is empty, `.`, `..`, or holds NUL or `/`.
    #[error("bad path")]
    Malformed,
    #[error("out of memory")]
    NoMemory,
}

impl From<NoMemory> for BadPath {
    ghost from_gives = { λ _ e. e ≡ out_of_memory };

    fn from(_: NoMemory) -> Self {
        BadPath::NoMemory
    }
}

impl From<AllocError> for BadPath {
    ghost from_gives = { λ _ e. e ≡ out_of_memory };

    fn from(_: AllocError) -> Self {
        BadPath::NoMemory
    }
}
