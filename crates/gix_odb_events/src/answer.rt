//! What machines ask for, and the answers.
use crate::event::{Effect, Event, Refusal};
use odb_disk::{DiskAnswer, DiskAsk};

/// What a machine asks for.
#[derive(Drop)]
pub enum Ask {
    /// A call of the disk.
    Disk(DiskAsk),
    /// An event of the store's core.
    Core(Event),
    /// A core for its store, with this many slots and folders, at which its handle is registered.
    NewCore { slots: u16, folders: usize },
}

/// The answer to an ask.
#[derive(Drop)]
pub enum Answer {
    Disk(DiskAnswer),
    Core(Result<Effect, Refusal>),
}
