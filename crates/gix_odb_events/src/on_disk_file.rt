//! A file of a slot: its path, and whether it is loaded.
ghost use Rattle.std.specs.Prelude.{◌≡◌, IfOk};
ghost use Rattle.std.specs.Option.{option_copied};
ghost use Rattle.gix_odb_events.specs.OnDiskFile.{file_at, file_path, file_state, is_disposable, is_loaded, is_unloaded, loaded, put_back, trashed, with_state};

use crate::Shared;
use odb_base::{NoMemory, PathText};

/// Whether a file is loaded, and whether a listing still has it.
#[derive(Drop)]
pub enum FileState<T> {
    /// It wasn't read yet.
    Unloaded,
    /// It was read.
    Loaded(T),
    /// It was read, and its index is no longer listed. A stable handle may still need it.
    Garbage(T),
    /// It could not be read when it was wanted.
    Missing,
}

/// A file of a slot.
#[derive(Drop)]
pub struct OnDiskFile<T> {
    path: Shared<PathText>,
    state: FileState<T>,
}

impl<T> OnDiskFile<T> {
    /// A file at a path, in a state.
    pub fn new(path: Shared<PathText>, state: FileState<T>) -> OnDiskFile<T>
        ensures file { result ≡ file_at path state }
    {
        OnDiskFile { path, state }
    }

    /// The path of the file on the disk.
    pub fn path(&self) -> &PathText
        ensures path { result.now ≡ file_path self.now }
    {
        self.path.value()
    }

    /// Its path, shared with one more owner.
    pub fn shared_path(&self) -> Result<Shared<PathText>, NoMemory>
        ensures path { IfOk result (λ path. path ≡ file_path self.now) }
    {
        self.path.try_clone()
    }

    /// Whether its bytes are in memory.
    pub fn is_loaded(&self) -> bool
        ensures loaded { result ≡ is_loaded (file_state self.now) }
    {
        matches!(&self.state, FileState::Loaded(_) | FileState::Garbage(_))
    }

    /// Whether it is to be read, and wasn't missing.
    pub fn is_unloaded(&self) -> bool
        ensures unloaded { result ≡ is_unloaded (file_state self.now) }
    {
        matches!(&self.state, FileState::Unloaded)
    }

    /// What was read, if it is in memory.
    pub fn loaded(&self) -> Option<&T>
        ensures loaded { option_copied result ≡ loaded (file_state self.now) }
    {
        match &self.state {
            FileState::Loaded(file) | FileState::Garbage(file) => Some(file),
            FileState::Unloaded | FileState::Missing => None,
        }
    }

    /// Whether no listing needs it in this state: it is garbage, or it was missing.
    pub fn is_disposable(&self) -> bool
        ensures disposable { result ≡ is_disposable (file_state self.now) }
    {
        matches!(&self.state, FileState::Garbage(_) | FileState::Missing)
    }
}

impl<T: Drop> OnDiskFile<T> {
    /// A listing has it again: what is garbage is loaded, and what was missing is to be read.
    pub fn put_back(&mut self)
        ensures put_back { self.new ≡ file_at (file_path self.old) (put_back (file_state self.old)) }
    {
        let state = std::mem::replace(&mut self.state, FileState::Unloaded);
        self.state = match state {
            FileState::Garbage(file) => FileState::Loaded(file),
            FileState::Missing => FileState::Unloaded,
            other => other,
        };
    }

    /// No listing has it any more: what is loaded is garbage.
    pub fn trash(&mut self)
        ensures trashed { self.new ≡ file_at (file_path self.old) (trashed (file_state self.old)) }
    {
        let state = std::mem::replace(&mut self.state, FileState::Unloaded);
        self.state = match state {
            FileState::Loaded(file) => FileState::Garbage(file),
            other => other,
        };
    }
}

impl<F: Drop> FileState<Shared<F>> {
    /// The same state, with one more owner of what was read.
    fn try_clone(&self) -> Result<FileState<Shared<F>>, NoMemory>
        ensures copy { IfOk result (λ copy. copy ≡ self.now) }
    {
        match self {
            FileState::Unloaded => Ok(FileState::Unloaded),
            FileState::Loaded(file) => Ok(FileState::Loaded(file.try_clone()?)),
            FileState::Garbage(file) => Ok(FileState::Garbage(file.try_clone()?)),
            FileState::Missing => Ok(FileState::Missing),
        }
    }
}

impl<F: Drop> OnDiskFile<Shared<F>> {
    /// A copy of the file of a slot, which shares its path and what was read.
    pub fn try_clone(&self) -> Result<OnDiskFile<Shared<F>>, NoMemory>
        ensures copy { IfOk result (λ copy. copy ≡ self.now) }
    {
        let path = self.path.try_clone()?;
        Ok(OnDiskFile::new(path, self.state.try_clone()?))
    }

    /// A copy that is put back.
    pub fn copy_put_back(&self) -> Result<OnDiskFile<Shared<F>>, NoMemory>
        ensures put_back { IfOk result (λ copy. copy ≡ with_state put_back self.now) }
    {
        let mut copy = self.try_clone()?;
        copy.put_back();
        Ok(copy)
    }

    /// A copy that is trashed.
    pub fn copy_trashed(&self) -> Result<OnDiskFile<Shared<F>>, NoMemory>
        ensures trashed { IfOk result (λ copy. copy ≡ with_state trashed self.now) }
    {
        let mut copy = self.try_clone()?;
        copy.trash();
        Ok(copy)
    }
}
