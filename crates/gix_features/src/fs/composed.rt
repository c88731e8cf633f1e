//! Names in Unicode's form NFC.
ghost use Rattle.std.specs.Prelude.{◌≡◌, ◌++◌, ◌∷◌, [], true, map, IfOk, string_bytes};
ghost use Rattle.std.specs.List.{list_all};
ghost use Rattle.odb_base.specs.Path.{is_name};
ghost use Rattle.gix_features.specs.Composed.{composed_path, composed_part, composed_name};

use odb_mem_disk::{BadPath, NoMemory, PathText};
use std::alloc::Global;
use unicode_normalization::to_nfc;

/// A name in form NFC.
#[tactic(auto, unfolding(crate::specs::Composed::composed_name))]
pub(crate) fn composed_name(alloc: Global, name: &str) -> Result<String, NoMemory>
    ensures composed { IfOk result (λ composed. string_bytes composed ≡ composed_name name.now) }
{
    Ok(to_nfc(alloc, name)?)
}

/// A path whose names are in form NFC. A name that can't be in a path in that form stays as it is.
pub(crate) fn composed_path(alloc: Global, path: &PathText) -> Result<PathText, NoMemory>
    ensures composed { IfOk result (λ composed. composed ≡ composed_path path.now) }
{
    let names = path.names(alloc)?;
    composed_names(alloc, &names)
}

/// The path of these names, composed.
fn composed_names(alloc: Global, names: &[&str]) -> Result<PathText, NoMemory>
    requires names { list_all is_name (map (λ name. name.now) names.now) ≡ true }
    ensures composed { IfOk result (λ composed. composed ≡ composed_path (map (λ name. name.now) names.now)) }
{
    let mut composed = PathText::root(alloc);
    for name in names {
        composed = joined(alloc, &composed, name)?;
    }
    Ok(composed)
}

/// A path with one more name, composed if the result can be in a path.
fn joined(alloc: Global, path: &PathText, name: &str) -> Result<PathText, NoMemory>
    requires name { is_name name.now ≡ true }
    ensures joined { IfOk result (λ joined. joined ≡ path.now ++ composed_part name.now ∷ []) }
{
    let composed = composed_name(alloc, name)?;
    match path.join(alloc, composed.as_str()) {
        Ok(joined) => Ok(joined),
        Err(BadPath::NoMemory) => Err(NoMemory),
        Err(BadPath::Malformed) => plainly_joined(alloc, path, name),
    }
}

/// A path with one more name.
fn plainly_joined(alloc: Global, path: &PathText, name: &str) -> Result<PathText, NoMemory>
    requires name { is_name name.now ≡ true }
    ensures joined { IfOk result (λ joined. joined ≡ path.now ++ name.now ∷ []) }
{
    match path.join(alloc, name) {
        Ok(joined) => Ok(joined),
        Err(BadPath::NoMemory) => Err(NoMemory),
        Err(BadPath::Malformed) => unreachable!("it is a name of a path"),
    }
}
