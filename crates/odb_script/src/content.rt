//! Contents of files as fields of a line spell them.
ghost use Rattle.std.specs.Prelude.{◌≡◌, IfOk, option_and_then, option_map};
ghost use Rattle.odb_script.specs.Content.{content_of, data_of, encoded, index_file, is_encoded, loose_file, multi_index_file, object_of, objects_of, pack_file, packs_of};

use crate::field::data_of;
use crate::objects::{are_few, can_be_written, object_of, objects_of, packs_of};
use crate::split::at_colon;
use gix_hash::Kind;
use gix_object::encode;
use gix_pack_write::multi_index::NamedPack;
use gix_pack_write::{Object, data, index, multi_index};
use odb_base::{ByteList, NoMemory};
use std::alloc::Global;

/// The contents that a word gives: objects that are encoded, or plain data.
#[tactic(auto, unfolding(crate::specs::Content::content_of))]
pub fn content_of(alloc: Global, text: &str) -> Result<Option<ByteList>, NoMemory>
    ensures content { IfOk result (λ content. content ≡ content_of text.now) }
{
    if is_encoded(text) {
        let (word, rest) = at_colon(text);
        encoded(alloc, word, rest)
    } else {
        data_of(alloc, text)
    }
}

/// Whether a text begins with `@`.
#[tactic(auto, using(std::proofs::lemmas::Str::Pattern::starts_text))]
fn is_encoded(text: &str) -> bool
    ensures encoded { result ≡ is_encoded text.now }
{
    text.starts_with("@")
}

/// Encoded contents, by the word before the colon and what follows it.
fn encoded(alloc: Global, word: &str, rest: &str) -> Result<Option<ByteList>, NoMemory>
    ensures content { IfOk result (λ content. content ≡ encoded word.now rest.now) }
{
    match word {
        "@loose" => loose(alloc, rest),
        "@pack" => pack(alloc, rest),
        "@idx" => idx(alloc, rest),
        "@midx" => midx(alloc, rest),
        _ => Ok(None),
    }
}

/// An object as the bytes of its loose file.
fn loose(alloc: Global, text: &str) -> Result<Option<ByteList>, NoMemory>
    ensures content { IfOk result (λ content. content ≡ option_map loose_file (object_of text.now)) }
{
    match object_of(alloc, text)? {
        Some(object) => Ok(Some(loose_file(alloc, &object)?)),
        None => Ok(None),
    }
}

/// A loose file: the header, and then the data.
fn loose_file(alloc: Global, object: &Object) -> Result<ByteList, NoMemory>
    ensures file { IfOk result (λ file. file ≡ loose_file object.now) }
{
    let bytes = object.bytes.as_slice();
    let mut file = encode::loose_header(alloc, object.kind, bytes.len() as u64)?;
    file.extend_from_slice(bytes)?;
    Ok(file)
}

/// Objects as the bytes of their pack.
fn pack(alloc: Global, text: &str) -> Result<Option<ByteList>, NoMemory>
    ensures content { IfOk result (λ content. content ≡ option_and_then pack_file (objects_of text.now)) }
{
    match objects_of(alloc, text)? {
        Some(objects) => pack_file(alloc, objects.as_slice()),
        None => Ok(None),
    }
}

fn pack_file(alloc: Global, objects: &[Object]) -> Result<Option<ByteList>, NoMemory>
    ensures content { IfOk result (λ content. content ≡ pack_file objects.now) }
{
    if !are_few(objects) {
        return Ok(None);
    }
    Ok(Some(data::encode(alloc, objects, Kind::Sha1)?))
}

/// Objects as the bytes of the index of their pack.
fn idx(alloc: Global, text: &str) -> Result<Option<ByteList>, NoMemory>
    ensures content { IfOk result (λ content. content ≡ option_and_then index_file (objects_of text.now)) }
{
    match objects_of(alloc, text)? {
        Some(objects) => index_file(alloc, objects.as_slice()),
        None => Ok(None),
    }
}

fn index_file(alloc: Global, objects: &[Object]) -> Result<Option<ByteList>, NoMemory>
    ensures content { IfOk result (λ content. content ≡ index_file objects.now) }
{
    if !are_few(objects) {
        return Ok(None);
    }
    Ok(Some(index::encode(alloc, objects, Kind::Sha1)?))
}

/// Packs as the bytes of their multi-index.
fn midx(alloc: Global, text: &str) -> Result<Option<ByteList>, NoMemory>
    ensures content { IfOk result (λ content. content ≡ option_and_then multi_index_file (packs_of text.now)) }
{
    match packs_of(alloc, text)? {
        Some(packs) => multi_index_file(alloc, packs.as_slice()),
        None => Ok(None),
    }
}

fn multi_index_file(alloc: Global, packs: &[NamedPack]) -> Result<Option<ByteList>, NoMemory>
    ensures content { IfOk result (λ content. content ≡ multi_index_file packs.now) }
{
    if !can_be_written(packs) {
        return Ok(None);
    }
    Ok(Some(multi_index::encode(alloc, packs, Kind::Sha1)?))
}
