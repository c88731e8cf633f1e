//! The writes that lines start.
ghost use Rattle.std.specs.Prelude.{◌≡◌, Some, IfOk};
ghost use Rattle.odb_script.specs.Line.{texts_of, line_item, size_of, write_of, write_under};

use crate::field::{data_of, handle_of, id_of, kind_of};
use crate::item::{Item, step_item};
use crate::word::Word;
use gix_hash::ObjectId;
use gix_object::Kind;
use gix_odb_calls::{Call, Step};
use odb_base::{ByteList, NoMemory, parse_decimal};
use std::alloc::Global;

/// A write of data by the handle, the kind and the data. The size is that of the data.
#[tactic(auto, unfolding(crate::specs::Line::line_item))]
pub fn write(alloc: Global, fields: &[&str]) -> Result<Item, NoMemory>
    ensures item { IfOk result (λ item. item ≡ line_item (Some Word.Write) (texts_of fields.now)) }
{
    match fields {
        [handle, kind, data] => {
            let data = data_of(alloc, data)?;
            let size = size_of(&data);
            Ok(write_of(handle_of(handle), kind_of(kind), size, data, None))
        }
        _ => Ok(Item::Refused),
    }
}

/// A write of data with the size that the line gives.
#[tactic(auto, unfolding(crate::specs::Line::line_item))]
pub fn stream(alloc: Global, fields: &[&str]) -> Result<Item, NoMemory>
    ensures item { IfOk result (λ item. item ≡ line_item (Some Word.Stream) (texts_of fields.now)) }
{
    match fields {
        [handle, kind, size, data] => {
            let data = data_of(alloc, data)?;
            let size = parse_decimal(size);
            Ok(write_of(handle_of(handle), kind_of(kind), size, data, None))
        }
        _ => Ok(Item::Refused),
    }
}

/// A write of data under the id that the line gives.
#[tactic(auto, unfolding(crate::specs::Line::line_item))]
pub fn writeas(alloc: Global, fields: &[&str]) -> Result<Item, NoMemory>
    ensures item { IfOk result (λ item. item ≡ line_item (Some Word.WriteAs) (texts_of fields.now)) }
{
    match fields {
        [handle, kind, id, data] => {
            let data = data_of(alloc, data)?;
            Ok(write_under(handle_of(handle), kind_of(kind), id_of(id), data))
        }
        _ => Ok(Item::Refused),
    }
}

/// The number of bytes of data.
fn size_of(bytes: &Option<ByteList>) -> Option<u64>
    ensures size { result ≡ size_of bytes.now }
{
    match bytes {
        Some(bytes) => Some(bytes.len() as u64),
        None => None,
    }
}

/// The start of a write under an id that is known.
fn write_under(
    handle: Option<u32>,
    kind: Option<Kind>,
    id: Option<ObjectId>,
    bytes: Option<ByteList>,
) -> Item
    ensures item { result ≡ write_under handle kind id bytes }
{
    match id {
        None => Item::Refused,
        Some(_) => {
            let size = size_of(&bytes);
            write_of(handle, kind, size, bytes, id)
        }
    }
}

/// The start of a write of data with a given size.
fn write_of(
    handle: Option<u32>,
    kind: Option<Kind>,
    size: Option<u64>,
    bytes: Option<ByteList>,
    id: Option<ObjectId>,
) -> Item
    ensures item { result ≡ write_of handle kind size bytes id }
{
    match (handle, kind, size, bytes) {
        (Some(handle), Some(kind), Some(size), Some(bytes)) => step_item(Step::Start {
            handle,
            call: Call::Write {
                kind,
                size,
                bytes,
                id,
            },
        }),
        _ => Item::Refused,
    }
}
