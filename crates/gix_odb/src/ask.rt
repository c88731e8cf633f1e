//! What calls and openings ask for, and their replies.
use gix_odb_calls::Reply;
use gix_odb_events::Event;
use odb_disk::DiskAsk;

/// What a call on a handle does next.
#[derive(Drop)]
pub enum Ask {
    /// It waits for the answer to a call of the disk.
    Disk(DiskAsk),
    /// It waits for the answer of the store's core to an event.
    Core(Event),
    /// It is done, and this is its reply.
    Done(Reply),
}

/// What an opening does next.
#[derive(Drop)]
pub enum OpenAsk {
    /// It waits for the answer to a call of the disk.
    Disk(DiskAsk),
    /// It waits until a core is made for the store, with so many slots, and its handle is registered there.
    Register { slots: u16 },
    /// It is done, and this is its reply.
    Done(Reply),
}
