//! The bound on the turns of a call as a number.
ghost use Rattle.std.specs.Prelude.{◌≡◌, ◌≤◌, ◌+◌};
ghost use Rattle.gix_odb_world.specs.Bound.{most_changes, turn_bound};
ghost use Rattle.gix_odb_world.specs.Valid.{most_folders};

use gix_odb_loose::PIECE_SIZE;

/// The turns of a lap through a store for its list, for each slot and for each entry of a listed folder: fewer are needed
/// to read, stat, open, close and put one.
const TURNS_EACH: u128 = 8;

/// The turns of a lap for a folder, besides those for its entries: its listings and its loose file take fewer.
const TURNS_OF_FOLDER: u128 = 16;

/// The laps that no change of the list causes: the first, and the one that finds the list unchanged.
const LAPS_WITHOUT_CHANGE: u128 = 2;

/// The turns of a write besides those of its pieces. It takes fewer: one for each name that it tries, and one each for its
/// header, its directory, its rename and the removal of its file.
const TURNS_BESIDE_PIECES: u128 = 40;

/// The most turns that a call may take, by the slots and the folders of its store, the changes of the list
/// that it tolerates, the greatest number of entries in a `pack` or prefix folder, and the bytes of a write.
pub fn bound_of(
    slots: u16,
    folders: u32,
    max_changes: u32,
    entries: u64,
    write: Option<u64>,
) -> u128
    requires folders_few { folders ≤ most_folders + 1 }
    requires changes_few { max_changes ≤ most_changes }
    ensures bound { result ≡ turn_bound slots folders max_changes entries write }
{
    let per_folder = TURNS_EACH * u128::from(entries) + TURNS_OF_FOLDER;
    let lap = TURNS_EACH + TURNS_EACH * u128::from(slots) + u128::from(folders) * per_folder;
    let writing = match write {
        None => 0,
        Some(bytes) => TURNS_BESIDE_PIECES + u128::from(bytes).div_ceil(PIECE_SIZE as u128),
    };
    (u128::from(max_changes) + LAPS_WITHOUT_CHANGE) * lap + writing
}
