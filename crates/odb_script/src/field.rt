//! What single fields of a line spell: a path, a handle, an id, a kind, data.
ghost use Rattle.std.specs.Prelude.{◌≡◌, IfOk};
ghost use Rattle.odb_base.specs.Path.{path_of};
ghost use Rattle.gix_hash.specs.ObjectId.{id_of};
ghost use Rattle.gix_object.specs.Kind.{kind_of_word};
ghost use Rattle.odb_script.specs.Content.{data_of};
ghost use Rattle.odb_script.specs.Opening.{handle_of};

use gix_hash::ObjectId;
use gix_object::Kind;
use odb_base::{ByteList, NoMemory, parse_decimal};
use odb_mem_disk::{BadPath, PathText};
use std::alloc::Global;

/// The path that a text spells.
pub fn path_of(alloc: Global, text: &str) -> Result<Option<PathText>, NoMemory>
    ensures path { IfOk result (λ path. path ≡ path_of text.now) }
{
    match PathText::parse(alloc, text) {
        Ok(path) => Ok(Some(path)),
        Err(BadPath::Malformed) => Ok(None),
        Err(BadPath::NoMemory) => Err(NoMemory),
    }
}

/// The number of a handle.
#[tactic(auto, unfolding(odb_base::specs::Decimal::number_below))]
pub fn handle_of(text: &str) -> Option<u32>
    ensures handle { result ≡ handle_of text.now }
{
    u32::try_from(parse_decimal(text)?).ok()
}

/// The id that a text spells.
pub fn id_of(text: &str) -> Option<ObjectId>
    ensures id { result ≡ id_of text.now }
{
    ObjectId::from_hex(text.as_bytes()).ok()
}

/// The kind of objects that a word names.
pub fn kind_of(word: &str) -> Option<Kind>
    ensures kind { result ≡ kind_of_word word.now }
{
    Kind::from_bytes(word.as_bytes())
}

/// Data: `-` for nothing, else an even number of hex digits, at least two.
#[tactic(auto, unfolding(crate::specs::Content::data_of))]
pub fn data_of(alloc: Global, text: &str) -> Result<Option<ByteList>, NoMemory>
    ensures bytes { IfOk result (λ found. found ≡ data_of text.now) }
{
    match text {
        "" => Ok(None),
        "-" => Ok(Some(ByteList::new(alloc))),
        _ => match hex::decode(alloc, text) {
            Ok(bytes) => Ok(Some(ByteList::from_vec(bytes))),
            Err(hex::FromHexError::OutOfMemory) => Err(NoMemory),
            Err(_) => Ok(None),
        },
    }
}
