//! The opening of a store by its fields.
ghost use Rattle.std.specs.Prelude.{◌≡◌, IfOk};
ghost use Rattle.odb_script.specs.Line.{texts_of};
ghost use Rattle.odb_script.specs.Opening.{opening_at, open_with, open_of, slots_of};

use crate::choice::{Chosen, chosen_by};
use crate::field::{handle_of, path_of};
use crate::item::Item;
use gix_odb_calls::{Line, Options, Slots, Step};
use odb_base::NoMemory;
use odb_mem_disk::PathText;
use std::alloc::Global;

/// The opening of a store by its fields.
#[tactic(auto, unfolding(crate::specs::Opening::open_of))]
pub fn open_of(alloc: Global, handle: &str, path: &str, options: &[&str]) -> Result<Item, NoMemory>
    ensures item { IfOk result (λ item. item ≡ open_of handle.now path.now (texts_of options.now)) }
{
    let path = path_of(alloc, path)?;
    let chosen = chosen_by(alloc, options)?;
    Ok(open_with(handle_of(handle), path, chosen))
}

fn open_with(handle: Option<u32>, path: Option<PathText>, chosen: Option<Chosen>) -> Item
    ensures item { result ≡ open_with handle path chosen }
{
    match (handle, path, chosen) {
        (Some(handle), Some(path), Some(chosen)) => opening_at(handle, path, chosen),
        _ => Item::Refused,
    }
}

/// An opening by what its options chose.
fn opening_at(handle: u32, path: PathText, chosen: Chosen) -> Item
    ensures item { result ≡ opening_at handle path chosen }
{
    let Chosen {
        folders,
        replacements,
        slots,
        use_multi_pack_index,
        limit,
        max_changes,
        hash,
    } = chosen;
    Item::Play(Line::One(Step::Open {
        handle,
        path,
        folders,
        hash,
        replacements,
        options: Options {
            slots: slots_of(slots),
            use_multi_pack_index,
            alloc_limit_bytes: limit,
            max_changes,
        },
    }))
}

/// The number of slots that was chosen, or as many as the store needs.
fn slots_of(slots: Option<u16>) -> Slots
    ensures slots { result ≡ slots_of slots }
{
    match slots {
        Some(slots) => Slots::Given(slots),
        None => Slots::default(),
    }
}
