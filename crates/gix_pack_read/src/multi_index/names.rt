//! The names of a multi-pack index, read from their chunk.
ghost use Rattle.std.specs.Prelude.{◌≡◌, ◌==◌, ◌<◌, ◌≤◌, ℕ, List, ◌∷◌, length, take, IfOk, IfSome, IfNone, false, true, is_some};
ghost use Rattle.std.specs.List.{list_all, position};
ghost use Rattle.std.specs.Ordering.{is_lt};
ghost use Rattle.std.specs.Str.{is_utf8};
ghost use Rattle.odb_base.specs.Path.{name_cmp};
ghost use Rattle.gix_pack_read.specs.MultiIndex.Held.{has_form as form_fits, holds_names, is_index_name as name_fits, name_parts};
ghost use Rattle.gix_pack_read.specs.MultiIndexNames.{go_on};

use crate::bytes::behind_first;
use odb_base::{NoMemory, PathName, Sequence};
use std::alloc::Global;

// The length of `.idx`.
const ENDING_LEN: usize = 4;

// The names, `packs` of them, each ended by NUL and then only NULs; None if the chunk holds something else.
#[tactic(auto, using(crate::proofs::NameLemmas::all_names, crate::proofs::NameLemmas::nuls_behind))]
pub(crate) fn names_in(
    alloc: Global,
    chunk: &[u8],
    packs: u32,
) -> Result<Option<Sequence<PathName>>, NoMemory>
    ensures found { IfOk result (λ found. IfSome found (λ names. names ≡ take packs (name_parts chunk.now))) }
    ensures few { IfOk result (λ found. IfSome found (λ names. length names ≤ packs)) }
    ensures fits { IfOk result (λ found. IfSome found (λ names. holds_names packs chunk.now ≡ true)) }
    ensures none { IfOk result (λ found. IfNone found (holds_names packs chunk.now ≡ false)) }
{
    let mut names = Vec::new(alloc);
    let mut rest = chunk;
    let mut last: &[u8] = &[];
    let mut left = packs;
    while left > 0 {
        let Some(found) = first_name(rest) else {
            return Ok(None);
        };
        if !is_above(found.0, last) {
            return Ok(None);
        }
        names.push(PathName::new(alloc, found.0)?)?;
        last = found.0.as_bytes();
        rest = found.1;
        left -= 1;
    }
    if !are_nuls(rest) {
        return Ok(None);
    }
    Ok(Some(Sequence::from_vec(names)))
}

// The first name, and the bytes after its NUL.
#[tactic(auto, using(crate::proofs::NameLemmas::at_nul, crate::proofs::NameLemmas::without_nul, crate::proofs::NameLemmas::no_end))]
fn first_name(bytes: &[u8]) -> Option<(&str, &[u8])>
    ensures parts { IfSome result (λ found. name_parts bytes.now ≡ found.0.now ∷ name_parts found.1.now) }
    ensures fits { IfSome result (λ found. name_fits found.0.now ≡ true) }
    ensures none { IfNone result ((last : List ℕ) (left : ℕ) → 0 < left → go_on last left bytes.now ≡ false) }
{
    let end = place_of_nul(bytes)?;
    let (name, rest) = bytes.split_at(end);
    let text = index_name(name)?;
    Some((text, behind_first(rest, 1)))
}

// The place of the first NUL.
fn place_of_nul(bytes: &[u8]) -> Option<usize>
    ensures place { result ≡ position (λ b. b == 0) bytes.now }
{
    bytes.iter().position(|byte| *byte == 0)
}

// Whether a name is above another, by their bytes.
fn is_above(name: &str, last: &[u8]) -> bool
    ensures above { result ≡ is_lt (name_cmp last.now name.now) }
{
    last.cmp(name.as_bytes()).is_lt()
}

fn are_nuls(bytes: &[u8]) -> bool
    ensures nuls { result ≡ list_all (λ b. b == 0) bytes.now }
{
    bytes.iter().all(|byte| *byte == 0)
}

// The name of an index, as text.
#[tactic(auto, unfolding(crate::specs::MultiIndex::Held::is_index_name))]
fn index_name(name: &[u8]) -> Option<&str>
    ensures same { IfSome result (λ text. text.now ≡ name.now) }
    ensures exact { is_some result ≡ name_fits name.now }
{
    if !has_form(name) {
        return None;
    }
    text_of(name)
}

// The text with these bytes, if they are one.
#[tactic(auto, using(crate::proofs::NameLemmas::utf8, crate::proofs::NameLemmas::not_utf8))]
fn text_of(bytes: &[u8]) -> Option<&str>
    ensures same { IfSome result (λ text. text.now ≡ bytes.now) }
    ensures exact { is_some result ≡ is_utf8 bytes.now }
{
    match std::str::from_utf8(bytes) {
        Ok(text) => Some(text),
        Err(_) => None,
    }
}

// Whether a name has no NUL and no slash, and ends in `.idx` with more before that.
fn has_form(name: &[u8]) -> bool
    ensures form { result ≡ form_fits name.now }
{
    !name.contains(&0)
        && !name.contains(&b'/')
        && name.len() > ENDING_LEN
        && name.ends_with(b".idx")
}

/// Whether bytes are the name of an index.
pub fn is_name(name: &[u8]) -> bool
    ensures name { result ≡ name_fits name.now }
{
    index_name(name).is_some()
}
