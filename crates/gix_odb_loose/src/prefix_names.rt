//! Names in the directory of a prefix, the ids that they stand for, and the entries that may be candidates.
ghost use Rattle.std.specs.Prelude.{◌≡◌, ◌++◌, Some, take, IfOk};
ghost use Rattle.std.specs.String.{string_bytes};
ghost use Rattle.gix_hash.specs.ObjectId.{hex_of, id_of};
ghost use Rattle.gix_odb_loose.specs.PrefixNames as names;
ghost use Rattle.gix_odb_loose.specs.PrefixOrder as order;

use crate::prefix_search::Match;
use gix_hash::{ObjectId, Prefix};
use odb_base::NoMemory;
use odb_disk::{Entry, Kind};
use std::alloc::Global;
use std::cmp::Ordering;

/// What an entry of the directory of a prefix is to a look-up, if it has the name of a candidate.
pub fn match_of(alloc: Global, prefix: &Prefix, entry: &Entry) -> Result<Option<Match>, NoMemory>
    ensures found { IfOk result (λ found. found ≡ order.match_of prefix.now entry.now) }
{
    let named = id_named(alloc, prefix, entry.name.as_str())?;
    Ok(match_by(entry.kind, named))
}

fn match_by(kind: Kind, named: Option<ObjectId>) -> Option<Match>
    ensures found { result ≡ order.match_by kind named }
{
    match (kind, named) {
        (Kind::File, Some(id)) => Some(Match::File(id)),
        (Kind::Link, Some(id)) => Some(Match::Link(id)),
        _ => None,
    }
}

// The id of the object whose file has this name in the directory of a prefix, if the id has the prefix.
fn id_named(alloc: Global, prefix: &Prefix, name: &str) -> Result<Option<ObjectId>, NoMemory>
    ensures named { IfOk result (λ id. id ≡ names.id_named prefix.now name.now) }
{
    let id = prefix.as_oid();
    if name.len() + 2 != id.kind().len_in_hex() {
        return Ok(None);
    }
    let text = after_digits(alloc, id, name)?;
    Ok(with_prefix(prefix, text.as_str()))
}

// The first two digits of an id, and then a name.
fn after_digits(alloc: Global, id: &ObjectId, name: &str) -> Result<String, NoMemory>
    ensures text { IfOk result (λ text. string_bytes text ≡ take 2 (hex_of id.now) ++ name.now) }
{
    let hex = id.to_hex(alloc)?;
    prove!(id.as_bytes().len() > 1);
    let (digits, _) = hex.as_str().split_at(2);
    let mut text = String::from_str(alloc, digits)?;
    text.push_str(name)?;
    Ok(text)
}

fn with_prefix(prefix: &Prefix, text: &str) -> Option<ObjectId>
    ensures id { result ≡ names.with_prefix prefix.now (id_of text.now) }
{
    match ObjectId::from_hex(text.as_bytes()) {
        Ok(id) => if_prefix(prefix, id),
        Err(_) => None,
    }
}

fn if_prefix(prefix: &Prefix, id: ObjectId) -> Option<ObjectId>
    ensures id { result ≡ names.with_prefix prefix.now (Some id) }
{
    match prefix.cmp_oid(&id) {
        Ordering::Equal => Some(id),
        _ => None,
    }
}
