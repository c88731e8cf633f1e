//! Messages that several workers hash.
ghost use Rattle.std.specs.Prelude.{◌<◌};

use gix_features_parts::parallel::Reduce;
use gix_features_workers::{ParallelError, in_parallel};
use odb_base::NoMemory;
use sha1::Sha1;
use std::alloc::Global;
use std::thread::Threads;

/// Hashes hashes one after another.
#[derive(Drop)]
struct Hashes {
    hasher: Sha1,
}

impl Reduce for Hashes {
    type Input = [u8; 20];

    type FeedProduce = ();

    type Output = u64;

    type Error = NoMemory;

    fn feed(&mut self, hash: [u8; 20]) -> Result<(), NoMemory> {
        self.hasher.update(hash.as_slice());
        Ok(())
    }

    fn finalize(self) -> Result<u64, NoMemory> {
        let Hashes { hasher } = self;
        let [a, b, c, d, e, f, g, h, ..] = hasher.finalize();
        Ok(u64::from_be_bytes([a, b, c, d, e, f, g, h]))
    }
}

/// A message: one KiB, repeated.
#[derive(Drop)]
struct Message {
    piece: Vec<u8>,
    kib: usize,
}

/// The first eight bytes of a hash of the hashes of `count` messages of `kib` KiB, as a number. Workers take the hashes.
pub fn hash_of_all<H: Threads + Sync>(
    rt: &H,
    alloc: Global,
    workers: usize,
    count: usize,
    kib: usize,
) -> Result<u64, ParallelError<NoMemory>>
    requires some { 0 < workers }
{
    let messages = messages_of(alloc, count, kib)?;
    let hashes = Hashes {
        hasher: Sha1::new(),
    };
    in_parallel(
        rt,
        alloc,
        messages.into_iter(),
        Some(workers),
        1,
        |_| (),
        hash_of,
        hashes,
    )
}

/// `count` messages of `kib` KiB. They take little memory, so that the work of the workers is measured.
fn messages_of(alloc: Global, count: usize, kib: usize) -> Result<Vec<Message>, NoMemory> {
    let mut messages = Vec::new(alloc);
    for number in 0..count {
        match add_message(alloc, &mut messages, number, kib) {
            Ok(()) => {}
            Err(NoMemory) => {
                drop(messages);
                return Err(NoMemory);
            }
        }
    }
    Ok(messages)
}

/// Adds the message with a number.
fn add_message(
    alloc: Global,
    messages: &mut Vec<Message>,
    number: usize,
    kib: usize,
) -> Result<(), NoMemory> {
    let piece = vec![in alloc; (number % 256) as u8; 1024]?;
    messages.push(Message { piece, kib })?;
    Ok(())
}

/// The hash of a message.
fn hash_of(message: Message, _state: &mut ()) -> [u8; 20] {
    let Message { piece, kib } = message;
    let mut hasher = Sha1::new();
    for _ in 0..kib {
        hasher.update(piece.as_slice());
    }
    hasher.finalize()
}
