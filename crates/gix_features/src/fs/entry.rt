//! An entry whose names can be composed.
ghost use Rattle.std.specs.Prelude.{◌≡◌, IfOk, string_bytes};
ghost use Rattle.gix_features.specs.Composed.{name_if, path_if};

use super::api::DirEntryApi;
use super::composed::{composed_name, composed_path};
use odb_mem_disk::{Kind, NoMemory, PathText};
use std::alloc::Global;

/// An entry, with its names in Unicode's form NFC if that is asked for.
#[derive(Debug, Drop)]
pub struct DirEntry<T> {
    inner: T,
    precompose_unicode: bool,
}

impl<T: DirEntryApi> DirEntry<T> {
    /// An entry and whether its names are composed.
    pub fn new(inner: T, precompose_unicode: bool) -> DirEntry<T>
        ensures inner { result.inner ≡ inner }
        ensures precompose { result.precompose_unicode ≡ precompose_unicode }
    {
        DirEntry {
            inner,
            precompose_unicode,
        }
    }

    /// The path, each name of it composed if that was asked for.
    pub fn path(&self, alloc: Global) -> Result<PathText, NoMemory>
        ensures composed { IfOk result (λ path.
            path ≡ path_if self.now.precompose_unicode (T.path_of self.now.inner)) }
    {
        let path = self.inner.path(alloc)?;
        if self.precompose_unicode {
            composed_path(alloc, &path)
        } else {
            Ok(path)
        }
    }

    /// The last name, composed if that was asked for.
    pub fn file_name(&self, alloc: Global) -> Result<String, NoMemory>
        ensures composed { IfOk result (λ name.
            string_bytes name ≡ name_if self.now.precompose_unicode (T.name_of self.now.inner)) }
    {
        let name = self.inner.file_name(alloc)?;
        if self.precompose_unicode {
            composed_name(alloc, name.as_str())
        } else {
            Ok(name)
        }
    }

    /// The kind of what is there; of the target, if a link was followed. It allocates no memory.
    pub fn file_type(&self) -> Kind
        ensures told { result ≡ T.type_of self.now.inner }
    {
        self.inner.file_type()
    }
}
