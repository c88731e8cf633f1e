//! The end of a pipe that reads.
ghost use Rattle.std.specs.Prelude.{◌≡◌, ◌∷◌, ◌++◌, ◌<◌, ◌≤◌, ◌-◌, ◌⊎◌, [], List, length, map, take, drop, min, true, false, Some, IfSome, IfNone, OnOk, IfOk, IfErr, OnErr, MatchResult};
ghost use Rattle.crossbeam_channel.specs.Ends.{receives_on};
ghost use Rattle.crossbeam_channel.specs.Claims.{view, IsSeatAt};
ghost use Rattle.gix_features_channel.specs.PipeSeats.{seat_props};

use super::ends::{Piece, PipeError, PipePass, Receiver};
use crate::ends::{Anything, Takes};
use bytes::Bytes;
use std::mem;
use std::sync::Wait;

/// The end of a pipe that reads.
#[derive(Drop)]
pub struct Reader {
    pub(crate) receiver: Receiver,
    pub(crate) pass: PipePass,
    /// What is buffered of the last piece that was taken out of the channel.
    pub(crate) next: Piece,
    /// Whether the reader has noted the end of the pipe. Each read begins without the note, and only `refill` makes
    /// it, when the channel answers that no more pieces come. That it answered so is in no clause.
    pub(crate) has_ended: bool,
    ghost seated: { IsSeatAt (receives_on receiver) pass } by { Prim.hlevel seat_props },
    ghost takes: { (view pass).takes ≡ true },
}

impl Reader {
    ghost use Rattle.gix_features_channel.specs.Pipe.{Byte, Failure, taken, Reads, HasEnded, HeldNone, IsNoted, IsShort, HasAtHand, HasFailed, LendsAll, IsFailure, at_hand, gives_something};
    ghost use Rattle.gix_features_channel.specs.declared.pipe.ends.Piece.TheVariants.{Written, Failed};

    /// The end of a pipe, with its pass, and what it knows.
    pub(crate) fn new(receiver: Receiver, pass: PipePass, next: Piece, has_ended: bool) -> Reader
        requires seated { IsSeatAt (receives_on receiver) pass }
        requires takes { (view pass).takes ≡ true }
        ensures parts { (result.receiver ≡ receiver) × (result.pass ≡ pass) × (result.next ≡ next) }
        ensures ended { result.has_ended ≡ has_ended }
    {
        Reader {
            receiver,
            pass,
            next,
            has_ended,
        }
    }

    /// Reads as many bytes as are asked for; fewer only before an error that the writer sent, and at the end.
    pub fn read<R: Wait>(&mut self, rt: &R, out: &mut [u8]) -> Result<usize, PipeError>
        ensures count { IfOk result (λ count. count ≤ length out.old) }
        ensures given { IfOk result (λ count. Reads self.old self.new (map Byte (take count out.new))) }
        ensures rest { IfOk result (λ count. drop count out.new ≡ drop count out.old) }
        ensures short { IfOk result (λ count. count < length out.old → IsShort self.new count) }
        ensures error { IfErr result (λ error. Reads self.old self.new (Failure error ∷ []) × (out.new ≡ out.old)) }
        ensures noted { IsNoted self.new }
    {
        self.begin();
        let mut filled = 0;
        'filling: for _ in rt.forever() {
            if filled == out.len() || !self.reach(rt) {
                return Ok(filled);
            }
            if filled == 0 {
                if let Some(error) = self.failure() {
                    return Err(error);
                }
            }
            let given = self.give(&mut out[filled..]);
            if given == 0 {
                return Ok(filled);
            }
            filled += given;
        }
        unreachable!()
    }

    /// The buffered bytes, once there are some. There are none only at the end.
    ///
    /// What was buffered before is lent, or returned, as it is. Of bytes and errors that the call waits for, the
    /// clause says only that they could come out of some channel; of a reader whose bytes were lent it says nothing,
    /// since no clause can name it beside an error that owns memory. To prove what is read, call `fill` and `front`.
    pub fn fill_buf<R: Wait>(&mut self, rt: &R) -> Result<&[u8], PipeError>
        ensures at_hand { MatchResult result (HasAtHand self.old) (HasFailed self.old) }
        ensures there { gives_something self.old.next ≡ true → MatchResult result (LendsAll self.old.next) (IsFailure self.old.next) }
    {
        self.fill(rt)?;
        Ok(self.front())
    }

    /// Marks `count` of the buffered bytes as used; all, if there are fewer.
    pub fn consume(&mut self, count: usize)
        ensures given { Reads self.old self.new (map Byte (take count (at_hand self.old))) }
        ensures note { self.new.has_ended ≡ self.old.has_ended }
    {
        if let Piece::Written(bytes) = &mut self.next {
            let used = count.min(bytes.len());
            bytes.advance(used);
        }
    }

    /// Takes pieces out of the channel until bytes are buffered; returns an error that comes before them.
    pub fn fill<R: Wait>(&mut self, rt: &R) -> Result<(), PipeError>
        ensures filled { OnOk result (Reads self.old self.new []) }
        ensures end { OnOk result (at_hand self.new ≡ [] → HasEnded self.new) }
        ensures error { IfErr result (λ error. Reads self.old self.new (Failure error ∷ [])) }
        ensures there { gives_something self.old.next ≡ true
            → MatchResult result (λ _. self.new.next ≡ self.old.next) (IsFailure self.old.next) }
        ensures noted { IsNoted self.new }
    {
        self.begin();
        if !self.reach(rt) {
            return Ok(());
        }
        match self.failure() {
            Some(error) => Err(error),
            None => Ok(()),
        }
    }

    /// The buffered bytes.
    pub fn front(&self) -> &[u8]
        ensures bytes { result.now ≡ at_hand self.now }
    {
        match &self.next {
            Piece::Written(bytes) => bytes.as_slice(),
            Piece::Failed(_) => &[],
        }
    }

    /// Clears the note of earlier calls.
    fn begin(&mut self)
        ensures nothing { Reads self.old self.new [] }
        ensures none { self.new.has_ended ≡ false }
        ensures same { self.new.next ≡ self.old.next }
    {
        self.has_ended = false;
    }

    /// Takes pieces out of the channel until there is something to give. Returns whether there is.
    fn reach<R: Wait>(&mut self, rt: &R) -> bool
        ensures nothing { Reads self.old self.new [] }
        ensures there { result ≡ true → gives_something self.new.next ≡ true }
        ensures ended { result ≡ false → HasEnded self.new }
        ensures same { gives_something self.old.next ≡ true → self.new.next ≡ self.old.next }
        ensures note { result ≡ true → self.new.has_ended ≡ self.old.has_ended }
    {
        'reaching: for _ in rt.forever() {
            if self.has_something() {
                return true;
            }
            if !self.refill(rt) {
                return false;
            }
        }
        unreachable!()
    }

    /// Whether there is something to give.
    fn has_something(&self) -> bool
        ensures is { result ≡ gives_something self.now.next }
    {
        match &self.next {
            Piece::Written(bytes) => !bytes.is_empty(),
            Piece::Failed(_) => true,
        }
    }

    /// Takes the next piece out of the channel, once there is one, or makes the note if the channel answers that no
    /// more come.
    fn refill<R: Wait>(&mut self, rt: &R) -> bool
        ensures took { result ≡ true → taken self.new ≡ taken self.old ++ self.new.next ∷ [] }
        ensures ended { result ≡ false → (taken self.new ≡ taken self.old) × (self.new.next ≡ self.old.next)
            × (self.new.has_ended ≡ true) × HeldNone }
        ensures note { result ≡ true → self.new.has_ended ≡ self.old.has_ended }
        ensures channel { receives_on self.new.receiver ≡ receives_on self.old.receiver }
    {
        match self
            .receiver
            .recv_as::<Takes<Anything>, R>(rt, &mut self.pass)
        {
            Ok(piece) => {
                self.next = piece;
                true
            }
            Err(_) => {
                self.has_ended = true;
                false
            }
        }
    }

    /// The buffered piece's error, if it is one.
    fn failure(&mut self) -> Option<PipeError>
        ensures given { IfSome result (λ error. Reads self.old self.new (Failure error ∷ [])) }
        ensures is { IfSome result (IsFailure self.old.next) }
        ensures none { IfNone result ((self.new ≡ self.old) × ((error : PipeError) → self.old.next ≡ Failed error → ⊥)) }
        ensures note { self.new.has_ended ≡ self.old.has_ended }
    {
        if let Piece::Written(_) = self.next {
            return None;
        }
        match mem::replace(&mut self.next, Piece::Written(Bytes::new())) {
            Piece::Failed(error) => Some(error),
            Piece::Written(_) => unreachable!(),
        }
    }

    /// Gives as many of the buffered bytes as there is room for. Returns their number.
    fn give(&mut self, out: &mut [u8]) -> usize
        ensures count { result ≤ length out.old }
        ensures given { Reads self.old self.new (map Byte (take result out.new)) }
        ensures rest { drop result out.new ≡ drop result out.old }
        ensures none { result ≡ 0 → 0 < length out.old → gives_something self.old.next ≡ true
            → (error : PipeError) × (self.new.next ≡ Failed error) }
        ensures note { self.new.has_ended ≡ self.old.has_ended }
    {
        let Piece::Written(bytes) = &mut self.next else {
            return 0;
        };
        let count = bytes.len().min(out.len());
        out[..count].copy_from_slice(&bytes.as_slice()[..count]);
        bytes.advance(count);
        count
    }
}
