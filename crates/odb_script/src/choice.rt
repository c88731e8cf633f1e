//! What the options of an opening choose.
ghost use Rattle.std.specs.Prelude.{◌≡◌, ◌^◌, IfOk, IfSome, is_some};
ghost use Rattle.std.specs.Option.{option_map};
ghost use Rattle.odb_base.specs.Decimal.{number_of, number_below};
ghost use Rattle.odb_script.specs.Line.{texts_of};
ghost use Rattle.odb_script.specs.Opening.{has_value, name_in, value_in, replacement, first_id, second_id, midx_choice, hash_choice, named_choice, choice_of, with_choice, nothing_chosen, chosen_by};

use crate::field::{id_of, path_of};
use crate::split::at_colon;
use gix_hash::{Kind, ObjectId};
use gix_odb_calls::{IdPairs, PathList};
use odb_base::{NoMemory, parse_decimal};
use odb_mem_disk::PathText;
use std::alloc::Global;

/// What one option chooses.
#[derive(Drop)]
pub enum Choice {
    /// An alternate object directory.
    Folder(PathText),
    /// An id, and the one that is looked up instead.
    Replacement(ObjectId, ObjectId),
    Slots(u16),
    /// The most bytes of an object.
    Limit(u64),
    /// The most changes of the list of indices that a call tolerates.
    Changes(u32),
    /// The multi-pack indices of the folders aren't used.
    NoMultiPackIndex,
    /// The ids of the store are of SHA-256.
    Sha256,
}

/// The changes of the list of indices that a call tolerates by default.
const DEFAULT_CHANGES: u32 = 16;

/// What options choose together.
#[derive(Drop)]
pub struct Chosen {
    /// The alternates, in the order of the options; so are the replacements.
    pub folders: PathList,
    pub replacements: IdPairs,
    pub slots: Option<u16>,
    /// Whether the multi-pack indices of the folders are used.
    pub use_multi_pack_index: bool,
    /// The most bytes of an object.
    pub limit: Option<u64>,
    /// The most changes of the list of indices that a call tolerates.
    pub max_changes: u32,
    /// The hash of the store's ids.
    pub hash: Kind,
}

/// What options choose, if each of them chooses something.
#[tactic(auto, unfolding(crate::specs::Opening::chosen_by))]
pub fn chosen_by(alloc: Global, options: &[&str]) -> Result<Option<Chosen>, NoMemory>
    ensures chosen { IfOk result (λ chosen. chosen ≡ chosen_by (texts_of options.now) nothing_chosen) }
{
    let mut chosen = nothing_chosen(alloc);
    let mut rest = options;
    while let [option, more @ ..] = rest {
        match choice_of(alloc, option)? {
            Some(choice) => chosen = with_choice(chosen, choice)?,
            None => return Ok(None),
        }
        rest = more;
    }
    Ok(Some(chosen))
}

fn nothing_chosen(alloc: Global) -> Chosen
    ensures chosen { result ≡ nothing_chosen }
{
    Chosen {
        folders: PathList::new(alloc),
        replacements: IdPairs::new(alloc),
        slots: None,
        use_multi_pack_index: true,
        limit: None,
        max_changes: DEFAULT_CHANGES,
        hash: Kind::Sha1,
    }
}

/// What is chosen with one more option: each folder and each replacement adds one; of slots, of limits and of changes
/// the last counts.
fn with_choice(mut chosen: Chosen, choice: Choice) -> Result<Chosen, NoMemory>
    ensures chosen { IfOk result (λ more. more ≡ with_choice chosen choice) }
{
    match choice {
        Choice::Folder(path) => chosen.folders.push(path)?,
        Choice::Replacement(id, by) => chosen.replacements.push((id, by))?,
        Choice::Slots(slots) => chosen.slots = Some(slots),
        Choice::Limit(bytes) => chosen.limit = Some(bytes),
        Choice::Changes(changes) => chosen.max_changes = changes,
        Choice::NoMultiPackIndex => chosen.use_multi_pack_index = false,
        Choice::Sha256 => chosen.hash = Kind::Sha256,
    }
    Ok(chosen)
}

/// What an option chooses, if it chooses something.
pub fn choice_of(alloc: Global, option: &str) -> Result<Option<Choice>, NoMemory>
    ensures choice { IfOk result (λ choice. choice ≡ choice_of option.now) }
{
    match name_and_value(option) {
        Some((name, value)) => named_choice(alloc, name, value),
        None => Ok(None),
    }
}

/// What a name chooses with its value.
fn named_choice(alloc: Global, name: &str, value: &str) -> Result<Option<Choice>, NoMemory>
    ensures choice { IfOk result (λ choice. choice ≡ named_choice name.now value.now) }
{
    match name {
        "folder" => Ok(path_of(alloc, value)?.map(Choice::Folder)),
        "replace" => {
            let (id, by) = id_pair(value);
            Ok(replacement(id, by))
        }
        "slots" => Ok(slots(value)),
        "limit" => Ok(limit(value)),
        "changes" => Ok(changes(value)),
        "midx" => Ok(midx(value)),
        "hash" => Ok(hash(value)),
        _ => Ok(None),
    }
}

fn replacement(id: Option<ObjectId>, by: Option<ObjectId>) -> Option<Choice>
    ensures choice { result ≡ replacement id by }
{
    match (id, by) {
        (Some(id), Some(by)) => Some(Choice::Replacement(id, by)),
        _ => None,
    }
}

#[tactic(auto, unfolding(odb_base::specs::Decimal::number_below))]
fn slots(value: &str) -> Option<Choice>
    ensures choice { result ≡ option_map Choice.Slots (number_below (2 ^ 16) value.now) }
{
    u16::try_from(parse_decimal(value)?).ok().map(Choice::Slots)
}

fn limit(value: &str) -> Option<Choice>
    ensures choice { result ≡ option_map Choice.Limit (number_of value.now) }
{
    parse_decimal(value).map(Choice::Limit)
}

#[tactic(auto, unfolding(odb_base::specs::Decimal::number_below))]
fn changes(value: &str) -> Option<Choice>
    ensures choice { result ≡ option_map Choice.Changes (number_below (2 ^ 32) value.now) }
{
    u32::try_from(parse_decimal(value)?)
        .ok()
        .map(Choice::Changes)
}

fn midx(value: &str) -> Option<Choice>
    ensures choice { result ≡ midx_choice value.now }
{
    match value {
        "no" => Some(Choice::NoMultiPackIndex),
        _ => None,
    }
}

fn hash(value: &str) -> Option<Choice>
    ensures choice { result ≡ hash_choice value.now }
{
    match value {
        "sha256" => Some(Choice::Sha256),
        _ => None,
    }
}

/// The two ids of a value, which `:` separates; each is None if it is no id.
fn id_pair(value: &str) -> (Option<ObjectId>, Option<ObjectId>)
    ensures first { result.0 ≡ first_id value.now }
    ensures second { result.1 ≡ second_id value.now }
{
    let (id, by) = at_colon(value);
    (id_of(id), id_of(by))
}

/// The name of an option and its value, which `=` separates.
fn name_and_value(option: &str) -> Option<(&str, &str)>
    ensures found { is_some result ≡ has_value option.now }
    ensures name { IfSome result (λ parts. parts.0.now ≡ name_in option.now) }
    ensures value { IfSome result (λ parts. parts.1.now ≡ value_in option.now) }
{
    option.split_once('=')
}
