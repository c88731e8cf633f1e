//! Why an object wasn't kept or copied.
ghost use Rattle.std.specs.Prelude.{◌≡◌};
ghost use Rattle.gix_odb_uses.specs.declared.error.Error.TheVariants.{NotRead, NotWritten};

use gix_odb_loose::{find, write};
use thiserror::Error;

/// Why an object wasn't kept, or wasn't copied.
#[derive(Debug, Drop, Error)]
pub enum Error {
    /// Its file couldn't be read, or holds no object.
    #[error("not read: {0}")]
    NotRead(find::Error),
    /// It couldn't be written.
    #[error("not written: {0}")]
    NotWritten(write::Error),
    /// It was written, and then nothing or something else was found: another program changed the file, or the way to it
    /// goes through a link that the write replaced.
    #[error("written, and not found again")]
    NotKept,
}

impl From<find::Error> for Error {
    ghost from_gives = { λ error e. e ≡ NotRead error };

    fn from(error: find::Error) -> Error {
        Error::NotRead(error)
    }
}

impl From<write::Error> for Error {
    ghost from_gives = { λ error e. e ≡ NotWritten error };

    fn from(error: write::Error) -> Error {
        Error::NotWritten(error)
    }
}
