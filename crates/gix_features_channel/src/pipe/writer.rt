//! The end of a pipe that writes.
ghost use Rattle.std.specs.Prelude.{◌≡◌, ◌∷◌, ◌++◌, [], List, length, true, Ok, OnOk, IfOk, IfErr, OnErr};
ghost use Rattle.crossbeam_channel.specs.Ends.{sends_on};
ghost use Rattle.crossbeam_channel.specs.Claims.{view, IsSeatAt};
ghost use Rattle.gix_features_channel.specs.PipeSeats.{seat_props};

use super::ends::{Piece, PipeError, PipePass, Sender};
use crate::ends::Sends;
use bytes::Bytes;
use crossbeam_channel::SendError;
use odb_base::NoMemory;
use std::alloc::Global;
use std::sync::Wait;
use thiserror::Error;

/// Why bytes weren't written.
#[derive(Debug, Drop, Error)]
pub enum Gone {
    /// The reader is gone. The piece is returned.
    #[error("the reader is gone")]
    Piece(Bytes),
    /// Out of memory for the piece.
    #[error("out of memory")]
    NoMemory,
}

/// The end of a pipe that writes.
#[derive(Drop)]
pub struct Writer {
    pub(crate) sender: Sender,
    pub(crate) pass: PipePass,
    ghost seated: { IsSeatAt (sends_on sender) pass } by { Prim.hlevel seat_props },
    ghost sends: { (view pass).sends ≡ true },
}

impl Writer {
    ghost use Rattle.std.specs.Prelude.{ℕ};
    ghost use Rattle.gix_features_channel.specs.Pipe.{written, IsUnwritten};
    ghost use Rattle.gix_features_channel.specs.declared.pipe.ends.Piece.TheVariants.{Written, Failed};

    /// The end of a new pipe, with its pass.
    pub(crate) fn new(sender: Sender, pass: PipePass) -> Writer
        requires seated { IsSeatAt (sends_on sender) pass }
        requires sends { (view pass).sends ≡ true }
        ensures parts { (result.sender ≡ sender) × (result.pass ≡ pass) }
    {
        Writer { sender, pass }
    }

    /// Writes bytes as one piece, once there is room in the pipe. Returns their number: always all.
    pub fn write<R: Wait>(&mut self, rt: &R, alloc: Global, bytes: &[u8]) -> Result<usize, Gone>
        ensures all { IfOk result (λ count. count ≡ length bytes.now) }
        ensures written { OnOk result (written self.new ≡ written self.old ++ Written bytes.now ∷ []) }
        ensures unwritten { IfErr result (λ error. IsUnwritten bytes.now error) }
        ensures unchanged { OnErr result (written self.new ≡ written self.old) }
        ensures pipe { sends_on self.new.sender ≡ sends_on self.old.sender }
    {
        let Ok(piece) = Bytes::copy_from_slice(alloc, bytes) else {
            return Err(Gone::NoMemory);
        };
        match self.send(rt, Piece::Written(piece)) {
            Ok(()) => Ok(bytes.len()),
            Err(Piece::Written(piece)) => Err(Gone::Piece(piece)),
            Err(Piece::Failed(_)) => unreachable!(),
        }
    }

    /// Does nothing: what was written is in the pipe.
    pub fn flush(&mut self) -> Result<(), Gone>
        ensures done { result ≡ Ok tt }
        ensures same { written self.new ≡ written self.old }
        ensures pipe { sends_on self.new.sender ≡ sends_on self.old.sender }
    {
        Ok(())
    }

    /// Sends an error, which the reader gets after the bytes that were written before. The error is returned if the
    /// reader is gone.
    pub fn send_error<R: Wait>(&mut self, rt: &R, error: PipeError) -> Result<(), PipeError>
        ensures sent { OnOk result (written self.new ≡ written self.old ++ Failed error ∷ []) }
        ensures unsent { IfErr result (λ back. back ≡ error) }
        ensures unchanged { OnErr result (written self.new ≡ written self.old) }
        ensures pipe { sends_on self.new.sender ≡ sends_on self.old.sender }
    {
        match self.send(rt, Piece::Failed(error)) {
            Ok(()) => Ok(()),
            Err(Piece::Failed(error)) => Err(error),
            Err(Piece::Written(_)) => unreachable!(),
        }
    }

    /// Sends a piece, once there is room in the pipe.
    fn send<R: Wait>(&mut self, rt: &R, piece: Piece) -> Result<(), Piece>
        ensures sent { OnOk result (written self.new ≡ written self.old ++ piece ∷ []) }
        ensures unsent { IfErr result (λ back. back ≡ piece) }
        ensures unchanged { OnErr result (written self.new ≡ written self.old) }
        ensures pipe { sends_on self.new.sender ≡ sends_on self.old.sender }
    {
        match self.sender.send_as::<Sends, R>(rt, &mut self.pass, piece) {
            Ok(()) => Ok(()),
            Err(SendError::Disconnected(piece)) => Err(piece),
            Err(SendError::OutOfMemory(_)) => unreachable!(),
        }
    }
}
