//! A file in, and the lines of the ids that are asked for out.
ghost use Rattle.std.specs.Prelude.{◌≡◌, Some, IfOk};
ghost use Rattle.probe_index.specs.Probe.{format_of, index_refusal, multi_index_refusal, WritesIn, WritesOf};
ghost use Rattle.probe_index.specs.Refusal.{refusal_text};

use crate::asked::Asked;
use crate::lines::{index_lines, pack_lines};
use crate::status::Status;
use gix_pack::{index, multi_index};
use odb_base::{ByteList, NoMemory};
use std::alloc::Global;

/// The most bytes that a file may have, 1 GiB: a source that never ends is refused.
pub const FILE_LIMIT: usize = 1_073_741_824;

/// The bytes that a pack index begins with, from version 2 on.
const INDEX_START: [u8; 4] = [255, 116, 79, 99];

/// The bytes that a multi-pack index begins with.
const MULTI_INDEX_START: &[u8] = b"MIDX";

/// What a file is.
#[derive(Clone, Copy)]
pub enum Format {
    /// A pack index, version 2.
    Index,
    /// A multi-pack index, version 1.
    MultiIndex,
}

/// Why a file is refused.
#[derive(Clone, Copy)]
pub enum Refusal {
    TooLong,
    /// It begins like neither format.
    Unknown,
    BadIndex,
    BadMultiIndex,
}

/// What is written for the bytes of a file, and the status.
pub fn answer_file(
    alloc: Global,
    bytes: Vec<u8>,
    asked: &Asked,
) -> Result<(Vec<u8>, Status), NoMemory>
    ensures writes { IfOk result (λ answer. WritesOf asked.now bytes.items answer.0.items answer.1) }
{
    if bytes.len() > FILE_LIMIT {
        return refused(alloc, Refusal::TooLong);
    }
    match format_of(&bytes) {
        Some(Format::Index) => answer_index(alloc, ByteList::from_vec(bytes), asked),
        Some(Format::MultiIndex) => answer_multi_index(alloc, ByteList::from_vec(bytes), asked),
        None => refused(alloc, Refusal::Unknown),
    }
}

/// The format by the first four bytes.
fn format_of(bytes: &[u8]) -> Option<Format>
    ensures format { result ≡ format_of bytes.now }
{
    if bytes.starts_with(&INDEX_START) {
        Some(Format::Index)
    } else if bytes.starts_with(MULTI_INDEX_START) {
        Some(Format::MultiIndex)
    } else {
        None
    }
}

fn answer_index(
    alloc: Global,
    bytes: ByteList,
    asked: &Asked,
) -> Result<(Vec<u8>, Status), NoMemory>
    requires begins { format_of bytes ≡ Some Format.Index }
    ensures writes { IfOk result (λ answer. WritesIn asked.now bytes answer.0.items answer.1 (index_refusal asked.now.kind bytes)) }
{
    match index::File::parse(bytes, asked.kind) {
        Ok(index) => {
            let lines = index_lines(alloc, &index, asked.ids.as_slice())?;
            Ok((lines, Status::Done))
        }
        Err(index::BadIndex) => refused(alloc, Refusal::BadIndex),
    }
}

fn answer_multi_index(
    alloc: Global,
    bytes: ByteList,
    asked: &Asked,
) -> Result<(Vec<u8>, Status), NoMemory>
    requires begins { format_of bytes ≡ Some Format.MultiIndex }
    ensures writes { IfOk result (λ answer. WritesIn asked.now bytes answer.0.items answer.1 (multi_index_refusal bytes)) }
{
    match multi_index::File::parse(alloc, bytes, None) {
        Ok(index) => {
            let lines = pack_lines(alloc, &index, asked.ids.as_slice())?;
            Ok((lines, Status::Done))
        }
        Err(multi_index::Error::NoMemory) => Err(NoMemory),
        Err(_) => refused(alloc, Refusal::BadMultiIndex),
    }
}

/// The line that says why a file is refused, and the status.
fn refused(alloc: Global, why: Refusal) -> Result<(Vec<u8>, Status), NoMemory>
    ensures text { IfOk result (λ answer. answer.0.items ≡ refusal_text why) }
    ensures status { IfOk result (λ answer. answer.1 ≡ Status.Refused why) }
{
    Ok((text_of(why).to_vec(alloc)?, Status::Refused(why)))
}

fn text_of(why: Refusal) -> &'static [u8]
    ensures text { result.now ≡ refusal_text why }
{
    match why {
        Refusal::TooLong => b"refused: more than 1073741824 bytes\n",
        Refusal::Unknown => b"refused: neither a pack index nor a multi-pack index\n",
        Refusal::BadIndex => b"refused: no pack index of version 2 with ids of this length\n",
        Refusal::BadMultiIndex => b"refused: no multi-pack index of version 1\n",
    }
}
