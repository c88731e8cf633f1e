//! What goes through a pipe, and the channel that it goes through.
ghost use Rattle.std.specs.Prelude.{◌≡◌, ◌<◌, true, [], IfOk};
ghost use Rattle.crossbeam_channel.specs.Ends.{sends_on, receives_on};
ghost use Rattle.crossbeam_channel.specs.Claims.{view, IsSeatAt};
ghost use Rattle.gix_features_channel.specs.Ends.{hand};

use crate::ends::{Anything, Hand, InOrder};
use bytes::Bytes;
use crossbeam_channel::{Pass, RuledReceiver, RuledSender, bounded_with};
use odb_base::{ByteList, NoMemory};
use std::alloc::Global;
use thiserror::Error;

/// An error that comes through a pipe.
#[derive(Debug, Drop, Error)]
pub enum PipeError {
    /// The writer sent it.
    #[error("the writer failed")]
    Sent(ByteList),
}

/// What goes through a pipe at once.
#[derive(Drop)]
pub(crate) enum Piece {
    Written(Bytes),
    Failed(PipeError),
}

pub(crate) type Sender = RuledSender<Piece, Hand<Piece>, InOrder<Anything>>;

pub(crate) type Receiver = RuledReceiver<Piece, Hand<Piece>, InOrder<Anything>>;

pub(crate) type PipePass = Pass<Piece, Hand<Piece>>;

/// A channel for pieces, and the pass of an end that sends and takes.
pub(crate) fn channel(
    alloc: Global,
    in_flight: usize,
) -> Result<(Sender, Receiver, PipePass), NoMemory>
    requires { 0 < in_flight }
    ensures ends { IfOk result (λ r. (receives_on r.1 ≡ sends_on r.0) × IsSeatAt (sends_on r.0) r.2 × (view r.2 ≡ hand true true [] [])) }
{
    Ok(bounded_with(alloc, in_flight)?)
}
