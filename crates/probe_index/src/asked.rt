//! The words of the command line.
ghost use Rattle.std.specs.Prelude.{◌≡◌, [], IfOk, map};
ghost use Rattle.std.specs.String.{string_bytes};
ghost use Rattle.gix_hash.specs.ObjectId.{id_of};
ghost use Rattle.probe_index.specs.Asked.{asked_of, asked_with, ids_of, kept};

use gix_hash::{Kind, ObjectId};
use odb_base::{NoMemory, Sequence};
use std::alloc::Global;

/// What the words ask for: ids of one hash, in their order.
#[derive(Drop)]
pub struct Asked {
    pub kind: Kind,
    pub ids: Sequence<ObjectId>,
}

/// What the words ask for, if each of them is an id, and all are as long as the first.
#[tactic(auto, unfolding(crate::specs::Asked::asked_of))]
pub fn asked_of(alloc: Global, words: &[String]) -> Result<Option<Asked>, NoMemory>
    ensures asked { IfOk result (λ asked. asked ≡ asked_of (map (λ word. string_bytes word) words.now)) }
{
    let [first, ..] = words else {
        return Ok(None);
    };
    match id_of(first.as_str()) {
        Some(id) => asked_with(alloc, id.kind(), words),
        None => Ok(None),
    }
}

fn asked_with(alloc: Global, kind: Kind, words: &[String]) -> Result<Option<Asked>, NoMemory>
    ensures asked { IfOk result (λ asked. asked ≡ asked_with kind (map (λ word. string_bytes word) words.now)) }
{
    match ids_of(alloc, kind, words)? {
        Some(ids) => Ok(Some(Asked { kind, ids })),
        None => Ok(None),
    }
}

#[tactic(auto, unfolding(crate::specs::Asked::ids_of))]
fn ids_of(
    alloc: Global,
    kind: Kind,
    words: &[String],
) -> Result<Option<Sequence<ObjectId>>, NoMemory>
    ensures ids { IfOk result (λ ids. ids ≡ ids_of kind (map (λ word. string_bytes word) words.now) []) }
{
    let mut ids = Sequence::new(alloc);
    let mut rest = words;
    while let [word, more @ ..] = rest {
        match kept(kind, id_of(word.as_str())) {
            Some(id) => ids.push(id)?,
            None => return Ok(None),
        }
        rest = more;
    }
    Ok(Some(ids))
}

/// An id, if it is of the hash.
fn kept(kind: Kind, id: Option<ObjectId>) -> Option<ObjectId>
    ensures kept { result ≡ kept kind id }
{
    match (kind, id) {
        (Kind::Sha1, Some(ObjectId::Sha1(bytes))) => Some(ObjectId::Sha1(bytes)),
        (Kind::Sha256, Some(ObjectId::Sha256(bytes))) => Some(ObjectId::Sha256(bytes)),
        _ => None,
    }
}

/// The id that a text spells.
fn id_of(text: &str) -> Option<ObjectId>
    ensures id { result ≡ id_of text.now }
{
    ObjectId::from_hex(text.as_bytes()).ok()
}
