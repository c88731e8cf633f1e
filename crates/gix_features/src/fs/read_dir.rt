//! Entries of a directory that is read without a walk.
ghost use Rattle.std.specs.Prelude.{◌++◌, ◌∷◌, [], ◌≡◌, true};
ghost use Rattle.odb_base.specs.Path.{is_name};

use super::api::DirEntryApi;
use odb_mem_disk::{BadPath, Entry, Kind, NoMemory, PathText};
use std::alloc::Global;

/// An entry that a stream gave, and the directory that contains it.
#[derive(Drop)]
pub struct Item {
    pub dir: PathText,
    pub entry: Entry,
    /// The name is one that a path can have.
    ghost named: { is_name entry.name ≡ true },
}

/// An entry of a directory, with its names composed if that is asked for.
pub type DirEntry = super::DirEntry<Item>;

impl DirEntryApi for Item {
    ghost path_of = { λ item. item.dir ++ item.entry.name ∷ [] };

    ghost name_of = { λ item. item.entry.name };

    ghost type_of = { λ item. item.entry.kind };

    fn path(&self, alloc: Global) -> Result<PathText, NoMemory> {
        match self.dir.join(alloc, self.entry.name.as_str()) {
            Ok(path) => Ok(path),
            Err(BadPath::NoMemory) => Err(NoMemory),
            Err(BadPath::Malformed) => unreachable!("the name is one that a path can have"),
        }
    }

    fn file_name(&self, alloc: Global) -> Result<String, NoMemory> {
        Ok(String::from_str(alloc, self.entry.name.as_str())?)
    }

    fn file_type(&self) -> Kind {
        self.entry.kind
    }
}
