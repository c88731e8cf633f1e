//! What a wrapper needs of the entry in it.
ghost use Rattle.std.specs.Prelude.{◌≡◌, IfOk, string_bytes};
ghost use Rattle.odb_base.specs.Path.{Path, Name};
ghost use Rattle.walkdir.specs.Entry.{file_name_of};
ghost use Rattle.odb_disk.specs.declared.meta.Kind.{Kind as KindValue};

use odb_mem_disk::{Kind, NoMemory, PathText};
use std::alloc::Global;

/// An entry of a directory.
pub trait DirEntryApi {
    /// The path, the last name, and the kind of what is there.
    ghost path_of: { Self → Path };

    ghost name_of: { Self → Name };

    ghost type_of: { Self → KindValue };

    /// The path of the entry.
    fn path(&self, alloc: Global) -> Result<PathText, NoMemory>
        ensures told { IfOk result (λ path. path ≡ path_of self.now) };

    /// The last name of the path.
    fn file_name(&self, alloc: Global) -> Result<String, NoMemory>
        ensures told { IfOk result (λ name. string_bytes name ≡ name_of self.now) };

    /// The kind of what is there. It allocates no memory.
    fn file_type(&self) -> Kind
        ensures told { result ≡ type_of self.now };
}

impl DirEntryApi for walkdir::DirEntry {
    ghost path_of = { λ entry. entry.path };

    ghost name_of = { file_name_of };

    ghost type_of = { λ entry. entry.kind };

    fn path(&self, alloc: Global) -> Result<PathText, NoMemory> {
        walkdir::DirEntry::path(self).try_clone(alloc)
    }

    fn file_name(&self, alloc: Global) -> Result<String, NoMemory> {
        Ok(String::from_str(alloc, walkdir::DirEntry::file_name(self))?)
    }

    fn file_type(&self) -> Kind {
        walkdir::DirEntry::file_type(self)
    }
}
