//! Folders that are added to a set.
ghost use Rattle.std.specs.Prelude.{◌≡◌, ◌||◌, OnOk};
ghost use Rattle.odb_base.specs.Path.{Path};
ghost use Rattle.gix_odb_watch.specs.Revealed.{is_in};

use odb_base::{NoMemory, PathText};
use std::collections::BTreeSet;

#[tactic(auto, using(crate::proofs::KeptLemmas::adds_next))]
pub(crate) fn add_all(set: &mut BTreeSet<PathText>, folders: Vec<PathText>) -> Result<(), NoMemory>
    ensures added { OnOk result ((folder : Path) → is_in set.new.keys folder ≡ (is_in folders.items folder || is_in set.old.keys folder)) }
{
    for folder in folders {
        set.insert(folder)?;
    }
    Ok(())
}
