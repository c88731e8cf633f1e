//! Why a trial failed.
use gix_features_workers::ParallelError;
use odb_base::NoMemory;
use std::io;
use thiserror::Error;

/// Why a trial failed.
#[derive(Debug, Drop, Error)]
pub enum Fault {
    #[error("words not understood")]
    NotUnderstood,
    #[error("out of memory")]
    NoMemory,
    #[error("the output can't be written")]
    Output,
}

impl From<NoMemory> for Fault {
    fn from(_: NoMemory) -> Fault {
        Fault::NoMemory
    }
}

impl From<ParallelError<NoMemory>> for Fault {
    fn from(_: ParallelError<NoMemory>) -> Fault {
        Fault::NoMemory
    }
}

impl From<io::Error> for Fault {
    fn from(_: io::Error) -> Fault {
        Fault::Output
    }
}
