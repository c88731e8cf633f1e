//! The receiver of a worker's messages.
ghost use Rattle.std.specs.Prelude.{◌++◌, List, IfOk, MatchOption};
ghost use Rattle.std.specs.Iterator.{Drains};
ghost use Rattle.gix_features_channel.specs.Messages.{AreTaken};
ghost use Rattle.gix_features_channel.specs.Taking.{MayTake, taken_of, CameBy};

use crate::ends::Takes;
use crate::messages::{EagerPass, Faithful, Message, Receiver};
use odb_base::NoMemory;
use std::sync::Wait;
use std::thread::{JoinHandle, Threads};

/// A worker at work, as seen by the receiver of its messages. It has to be ended.
pub struct Worker<I: Iterator>
where
    I::Item: Drop,
{
    pub receiver: Receiver<I>,
    pub pass: EagerPass<I>,
    pub handle: JoinHandle<()>,
}

impl<I: Iterator> Worker<I>
where
    I::Item: Drop,
{
    /// The next chunk, once it is there; None if the worker said that there are no more. A worker that broke off is
    /// out of memory.
    pub fn take<H: Wait>(&mut self, rt: &H) -> Result<Option<Vec<I::Item>>, NoMemory>
        requires ready { MayTake self.old }
        ensures ready { MayTake self.new }
        ensures taken { IfOk result (λ next. (first : I) (items : List I.Item) → AreTaken first (taken_of self.old) items
            → MatchOption next (Drains I.next_gives first items)
            (λ chunk. CameBy I.next_gives first self.new (items ++ chunk.items))) }
    {
        match self
            .receiver
            .recv_as::<Takes<Faithful>, H>(rt, &mut self.pass)
        {
            Ok(Message::Chunk(chunk)) => Ok(Some(chunk)),
            Ok(Message::Whole) => Ok(None),
            Ok(Message::Begun(_)) => unreachable!(),
            Err(_) => Err(NoMemory),
        }
    }

    /// Ends the worker, which breaks off if nobody takes what it sends.
    pub fn end<H: Threads>(self, rt: &H) {
        let Worker {
            receiver,
            pass: _,
            handle,
        } = self;
        drop(receiver);
        handle.join(rt);
    }
}
