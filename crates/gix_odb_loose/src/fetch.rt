//! The next bytes of a source.
ghost use Rattle.std.specs.Prelude.{IfOk, OnErr};
ghost use Rattle.gix_odb_loose.specs.StreamJobs.Reads.{Fetches, Loses};

use odb_base::{ByteList, NoMemory, Source};
use std::alloc::Global;

/// The most bytes that one read asks for: the length of an array on the stack that they pass through.
const CHUNK: usize = 8_192;

/// What a source returned.
#[derive(Drop)]
pub enum Fetched {
    Piece(ByteList),
    Failed,
}

/// The next bytes of a source, `most` at most; fewer only at its end.
pub fn next_piece<S: Source>(alloc: Global, from: &mut S, most: usize) -> Result<Fetched, NoMemory>
    ensures fetched { IfOk result (Fetches most (S.left from.old) (S.left from.new) (S.faults from.old) (S.faults from.new)) }
    ensures lost { OnErr result (Loses most (S.left from.old) (S.left from.new) (S.faults from.old) (S.faults from.new)) }
{
    let mut bytes = Vec::with_capacity(alloc, most)?;
    let mut chunk = [0u8; CHUNK];
    'reads: while bytes.len() < most {
        let wanted = CHUNK.min(most - bytes.len());
        let Ok(count) = from.read(&mut chunk[..wanted]) else {
            return Ok(Fetched::Failed);
        };
        if count == 0 {
            break;
        }
        bytes.extend_from_slice(&chunk[..count])?;
    }
    Ok(Fetched::Piece(ByteList::from_vec(bytes)))
}
