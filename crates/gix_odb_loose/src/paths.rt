//! The paths of a store: of an object's file, of its directory, and of a temporary file.
ghost use Rattle.std.specs.Prelude.{◌≡◌, ◌++◌, ◌∷◌, [], true, IfOk};
ghost use Rattle.std.specs.String.{string_bytes};
ghost use Rattle.odb_base.specs.Path.{is_name};
ghost use Rattle.gix_odb_loose.specs.LooseFile.{loose_path as loose_path_of};
ghost use Rattle.gix_odb_loose.specs.WriteOrder.{prefix_path, temp_path as temp_path_of, temp_name};

use gix_hash::ObjectId;
use odb_base::{BadPath, NoMemory, PathText};
use std::alloc::Global;

/// The path of an object's file: `xx/rest` in the objects directory.
pub fn object_path(alloc: Global, objects: &PathText, id: &ObjectId) -> Result<PathText, NoMemory>
    ensures path { IfOk result (λ path. path ≡ loose_path_of objects.now id.now) }
{
    let folder = prefix_folder(alloc, objects, id)?;
    let hex = id.to_hex(alloc)?;
    prove!(id.as_bytes().len() > 1);
    let (_, rest) = hex.as_str().split_at(2);
    joined(alloc, &folder, rest)
}

/// The directory of an object's file.
pub fn prefix_folder(alloc: Global, objects: &PathText, id: &ObjectId) -> Result<PathText, NoMemory>
    ensures path { IfOk result (λ path. path ≡ prefix_path objects.now id.now) }
{
    let hex = id.to_hex(alloc)?;
    prove!(id.as_bytes().len() > 1);
    let (prefix, _) = hex.as_str().split_at(2);
    joined(alloc, objects, prefix)
}

/// The path of a temporary file: `tmp_obj_` and a number in the objects directory.
pub fn temp_path(alloc: Global, objects: &PathText, number: u64) -> Result<PathText, NoMemory>
    ensures path { IfOk result (λ path. path ≡ temp_path_of objects.now number) }
{
    let name = temp_file(alloc, number)?;
    joined(alloc, objects, name.as_str())
}

#[tactic(auto, unfolding(crate::specs::WriteOrder::temp_name))]
fn temp_file(alloc: Global, number: u64) -> Result<String, NoMemory>
    ensures name { IfOk result (λ name. string_bytes name ≡ temp_name number) }
{
    Ok(format!(in alloc; "tmp_obj_{number}")?)
}

// A path with one more name.
fn joined(alloc: Global, path: &PathText, name: &str) -> Result<PathText, NoMemory>
    requires name { is_name name.now ≡ true }
    ensures path { IfOk result (λ joined. joined ≡ path.now ++ name.now ∷ []) }
{
    match path.join(alloc, name) {
        Ok(path) => Ok(path),
        Err(BadPath::NoMemory) => Err(NoMemory),
        Err(BadPath::Malformed) => unreachable!("it is a name"),
    }
}
