//! The packs of an index.
ghost use Rattle.std.specs.Prelude.{◌≡◌, ◌≤◌, IfOk, length, map, [], ◌∷◌};
ghost use Rattle.gix_pack_read.specs.MultiIndex.{told};
ghost use Rattle.gix_odb_events.specs.PackFiles.{new_pack, new_packs};

use crate::on_disk_file::FileState;
use crate::pack_place::{folder_of, name_of, pack_in};
use crate::{OnDiskFile, PackFileList, Shared};
use gix_pack_read::{data, multi_index};
use odb_base::{NoMemory, PathText};
use std::alloc::Global;

/// A pack of a slot.
pub type PackFile = OnDiskFile<Shared<data::File>>;

/// The packs of a new row.
pub fn new_packs(
    alloc: Global,
    path: &PathText,
    multi: &Option<Shared<multi_index::File>>,
) -> Result<PackFileList, NoMemory>
    ensures packs { IfOk result (λ packs. packs ≡ new_packs path.now multi.now) }
    ensures few { IfOk result (λ packs. length packs ≤ 4294967296) }
{
    let folder = folder_of(alloc, path)?;
    match multi {
        None => only_pack(alloc, &folder, name_of(path)),
        Some(file) => named_packs(alloc, &folder, file.value()),
    }
}

/// The packs of an index that was not listed: the one beside it, which is to be read.
pub fn packs_beside(alloc: Global, path: &PathText) -> Result<Shared<PackFileList>, NoMemory>
    ensures packs { IfOk result (λ packs. packs ≡ new_packs path.now None) }
{
    Ok(Shared::new(alloc, new_packs(alloc, path, &None)?)?)
}

/// A pack that is to be read.
fn new_pack(alloc: Global, folder: &PathText, name: &str) -> Result<PackFile, NoMemory>
    ensures pack { IfOk result (λ pack. pack ≡ new_pack folder.now name.now) }
{
    let path = Shared::new(alloc, pack_in(alloc, folder, name)?)?;
    Ok(OnDiskFile::new(path, FileState::Unloaded))
}

/// The pack beside a pack index.
fn only_pack(alloc: Global, folder: &PathText, name: &str) -> Result<PackFileList, NoMemory>
    ensures pack { IfOk result (λ packs. packs ≡ new_pack folder.now name.now ∷ []) }
{
    let pack = new_pack(alloc, folder, name)?;
    Ok(PackFileList::one(Shared::new(alloc, pack)?))
}

/// The packs that a multi-pack index names, in the order of the names.
fn named_packs(
    alloc: Global,
    folder: &PathText,
    file: &multi_index::File,
) -> Result<PackFileList, NoMemory>
    ensures packs { IfOk result (λ packs. packs ≡ map (new_pack folder.now) (told file.now).names) }
    ensures few { IfOk result (λ packs. length packs ≤ 4294967296) }
{
    // The header has the number of packs in 32 bits, so there are no more.
    let mut packs = Vec::with_capacity(alloc, file.num_indices() as usize)?;
    for name in file.index_names() {
        let pack = new_pack(alloc, folder, name.as_str())?;
        packs.push(Shared::new(alloc, pack)?)?;
    }
    PackFileList::from_vec(alloc, packs)
}
