//! A pipe, which one thread writes to and another reads from.
ghost use Rattle.std.specs.Prelude.{◌≡◌, ◌<◌, ◌++◌, [], List, IfOk};
ghost use Rattle.gix_features_channel.specs.Pipe.{AreEnds, written, taken, IsBegun};

mod ends;
mod reader;
mod writer;

use crate::ends::{Both, Roles};
use bytes::Bytes;
pub use ends::PipeError;
use ends::{Piece, channel};
use odb_base::NoMemory;
pub use reader::Reader;
use std::alloc::Global;
pub use writer::{Gone, Writer};

/// Both ends, in one thread again: what was taken out of the pipe is what was written first.
pub fn together(writer: Writer, reader: Reader) -> (Writer, Reader)
    requires ends { AreEnds writer reader }
    ensures ends { AreEnds result.0 result.1 }
    ensures prefix { (rest : List Piece) × (written result.0 ≡ taken result.1 ++ rest) }
    ensures same { (written result.0 ≡ written writer) × (taken result.1 ≡ taken reader) × (result.1.next ≡ reader.next)
        × (result.1.has_ended ≡ reader.has_ended) }
{
    let Writer { sender, mut pass } = writer;
    let Reader {
        receiver,
        pass: other,
        next,
        has_ended,
    } = reader;
    sender.absorb::<Roles>(&mut pass, other);
    sender.learn_as::<Both>(&mut pass);
    let other = sender.another::<Roles>(&mut pass);
    (
        Writer::new(sender, pass),
        Reader::new(receiver, other, next, has_ended),
    )
}

/// The two ends of a new pipe, with at most `in_flight` pieces in it.
pub fn unidirectional(alloc: Global, in_flight: usize) -> Result<(Writer, Reader), NoMemory>
    requires { 0 < in_flight }
    ensures ends { IfOk result (λ ends. AreEnds ends.0 ends.1 × (written ends.0 ≡ []) × IsBegun ends.1) }
{
    let (sender, receiver, mut pass) = channel(alloc, in_flight)?;
    let other = sender.another::<Roles>(&mut pass);
    Ok((
        Writer::new(sender, pass),
        Reader::new(receiver, other, Piece::Written(Bytes::new()), false),
    ))
}
