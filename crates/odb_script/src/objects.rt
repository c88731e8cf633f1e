//! Objects and packs as fields of a line spell them.
ghost use Rattle.std.specs.Prelude.{◌≡◌, ◌++◌, IfOk, IsTrue, codes, map};
ghost use Rattle.gix_pack_write.specs.WrittenMultiIndex.{named_seen, CanBeWritten};
ghost use Rattle.odb_script.specs.Content.{are_few, can_be_written, named_pack_of, object_by, object_of, objects_of, packs_of};

use crate::field::{data_of, kind_of};
use crate::split::{at_colon, at_equals, parts_of};
use gix_object::Kind;
use gix_pack_write::multi_index::NamedPack;
use gix_pack_write::{Object, multi_index};
use odb_base::{ByteList, NoMemory, PathName, Sequence};
use std::alloc::Global;

/// Packs and indices have fewer objects: a row of an index names a wide offset by 31 bits.
const OBJECT_LIMIT: usize = 1 << 31;

/// `KIND:DATA`, by the first colon.
#[tactic(auto, unfolding(crate::specs::Content::object_of))]
pub fn object_of(alloc: Global, text: &str) -> Result<Option<Object>, NoMemory>
    ensures object { IfOk result (λ object. object ≡ object_of text.now) }
{
    let (kind, bytes) = at_colon(text);
    Ok(object_by(kind_of(kind), data_of(alloc, bytes)?))
}

fn object_by(kind: Option<Kind>, bytes: Option<ByteList>) -> Option<Object>
    ensures object { result ≡ object_by kind bytes }
{
    match (kind, bytes) {
        (Some(kind), Some(bytes)) => Some(Object { kind, bytes }),
        _ => None,
    }
}

/// `OBJ,OBJ..`: at least one object.
#[tactic(auto, unfolding(crate::specs::Content::items_of))]
pub fn objects_of(alloc: Global, text: &str) -> Result<Option<Sequence<Object>>, NoMemory>
    ensures objects { IfOk result (λ objects. objects ≡ objects_of text.now) }
{
    let texts = parts_of(alloc, text, ',')?;
    let mut objects = Sequence::new(alloc);
    let mut rest = texts.as_slice();
    while let [text, more @ ..] = rest {
        match object_of(alloc, text)? {
            Some(object) => objects.push(object)?,
            None => return Ok(None),
        }
        rest = more;
    }
    Ok(Some(objects))
}

/// `STEM=OBJ,OBJ..`, by the first `=`: the pack whose index is `STEM.idx`.
#[tactic(auto, unfolding(crate::specs::Content::named_pack_of))]
fn named_pack_of(alloc: Global, text: &str) -> Result<Option<NamedPack>, NoMemory>
    ensures pack { IfOk result (λ pack. pack ≡ named_pack_of text.now) }
{
    let (stem, objects) = at_equals(text);
    match objects_of(alloc, objects)? {
        Some(objects) => Ok(Some(NamedPack {
            name: index_name(alloc, stem)?,
            objects,
        })),
        None => Ok(None),
    }
}

fn index_name(alloc: Global, stem: &str) -> Result<PathName, NoMemory>
    ensures name { IfOk result (λ name. name ≡ stem.now ++ codes ".idx") }
{
    let name = format!(in alloc; "{stem}.idx")?;
    PathName::new(alloc, name.as_str())
}

/// `STEM=OBJ,OBJ..;STEM=..`: at least one pack.
#[tactic(auto, unfolding(crate::specs::Content::items_of))]
pub fn packs_of(alloc: Global, text: &str) -> Result<Option<Sequence<NamedPack>>, NoMemory>
    ensures packs { IfOk result (λ packs. packs ≡ packs_of text.now) }
{
    let texts = parts_of(alloc, text, ';')?;
    let mut packs = Sequence::new(alloc);
    let mut rest = texts.as_slice();
    while let [text, more @ ..] = rest {
        match named_pack_of(alloc, text)? {
            Some(pack) => packs.push(pack)?,
            None => return Ok(None),
        }
        rest = more;
    }
    Ok(Some(packs))
}

/// Whether a pack can have this many objects.
pub fn are_few(objects: &[Object]) -> bool
    ensures few { result ≡ are_few objects.now }
{
    objects.len() < OBJECT_LIMIT
}

/// Whether packs can be in a multi-index.
pub fn can_be_written(packs: &[NamedPack]) -> bool
    ensures exact { result ≡ can_be_written (map named_seen packs.now) }
    ensures allowed { IsTrue result → CanBeWritten (map named_seen packs.now) }
{
    multi_index::can_be_written(packs)
}
