//! The messages of a worker that draws items, and their channel.
ghost use Rattle.std.specs.Prelude.{◌≡◌, ◌<◌, true, [], IfOk};
ghost use Rattle.crossbeam_channel.specs.Ends.{sends_on, receives_on};
ghost use Rattle.crossbeam_channel.specs.Claims.{view, IsSeatAt};
ghost use Rattle.gix_features_channel.specs.Ends.{hand};

use crate::ends::{Hand, InOrder, Law};
use crossbeam_channel::{Pass, RuledReceiver, RuledSender, bounded_with};
use odb_base::NoMemory;
use std::alloc::Global;
use std::snapshot::Snapshot;

/// A message of a worker about an iterator.
#[derive(Drop)]
pub enum Message<I, T> {
    /// The iterator before any of its items was drawn. It is sent before the worker begins.
    Begun(Snapshot<I>),
    /// The next items.
    Chunk(Vec<T>),
    /// There are no more items.
    Whole,
}

/// What is sent is what the iterator gives; that there are no more items, only once it gave none.
pub struct Faithful;

impl<I: Iterator> Law<Message<I, I::Item>> for Faithful {
    ghost use Rattle.gix_features_channel.specs.Messages.{IsTold};

    ghost keeps = { IsTold I.next_gives };
}

pub type MessageOf<I> = Message<I, <I as Iterator>::Item>;

pub type Sender<I> = RuledSender<MessageOf<I>, Hand<MessageOf<I>>, InOrder<Faithful>>;

pub type Receiver<I> = RuledReceiver<MessageOf<I>, Hand<MessageOf<I>>, InOrder<Faithful>>;

pub type EagerPass<I> = Pass<MessageOf<I>, Hand<MessageOf<I>>>;

/// A channel for the items of an iterator, and the pass of an end that sends and takes.
pub fn channel<I: Iterator>(
    alloc: Global,
    in_flight: usize,
) -> Result<(Sender<I>, Receiver<I>, EagerPass<I>), NoMemory>
where
    I::Item: Drop,
    requires { 0 < in_flight }
    ensures ends { IfOk result (λ r. (receives_on r.1 ≡ sends_on r.0) × IsSeatAt (sends_on r.0) r.2 × (view r.2 ≡ hand true true [] [])) }
{
    Ok(bounded_with(alloc, in_flight)?)
}
