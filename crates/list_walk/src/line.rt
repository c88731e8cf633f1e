//! The lines that are written: entries to one sink, errors to another.
ghost use Rattle.std.specs.Prelude.{◌≡◌, ◌≤◌, ℕ, Ok, Err, take, string_bytes, IfOk, OnOk, OnErr, IsErrOf};
ghost use Rattle.list_walk.specs.Lines.{error_of, line_of, system_words};
ghost use Rattle.odb_base.specs.Faults.{Rose};
ghost use Rattle.odb_mem_disk.specs.Source.{Adds};

use odb_mem_disk::{DiskError, Failed, Sink, write_all};
use std::alloc::{AllocError, Global};
use walkdir::DirEntry;

/// The bytes that are gathered before they are written: 32 KiB, so that one call of the sink serves many lines.
const PIECE: usize = 32_768;

/// Lines of entries, buffered for a sink.
#[derive(Drop)]
pub struct Lines {
    text: String,
    /// Whether they end with NUL, not with a line feed.
    nul: bool,
}

/// Why a line wasn't written.
#[derive(Clone, Copy)]
pub enum LineError {
    /// The sink of entries failed.
    OutputFailed,
    /// The sink of errors failed.
    ErrorsFailed,
    NoMemory,
}

impl From<AllocError> for LineError {
    ghost use Rattle.std.specs.Prelude.{◌≡◌};
    ghost use Rattle.list_walk.specs.declared.line.LineError.TheVariants.{NoMemory};

    ghost from_gives = { λ _ e. e ≡ NoMemory };

    fn from(_: AllocError) -> Self {
        LineError::NoMemory
    }
}

/// A sink that failed is that of entries, unless it is said otherwise.
impl From<Failed> for LineError {
    ghost use Rattle.std.specs.Prelude.{◌≡◌};
    ghost use Rattle.list_walk.specs.declared.line.LineError.TheVariants.{OutputFailed};

    ghost from_gives = { λ _ e. e ≡ OutputFailed };

    fn from(_: Failed) -> Self {
        LineError::OutputFailed
    }
}

impl Lines {
    ghost use Rattle.std.specs.Prelude.{◌≡◌, ◌++◌, ◌≤◌, [], ℕ, Ok, take, string_bytes, OnOk, OnErr, IsErrOf};
    ghost use Rattle.odb_base.specs.Faults.{HasCause, Rose};
    ghost use Rattle.odb_mem_disk.specs.Source.{Adds};
    ghost use Rattle.list_walk.specs.Lines.{error_of, line_of, TakesFront};

    /// No lines. It allocates no memory.
    pub fn new(alloc: Global, nul: bool) -> Lines
        ensures empty { string_bytes result.text ≡ [] }
        ensures nul { result.nul ≡ nul }
    {
        Lines {
            text: String::new(alloc),
            nul,
        }
    }

    /// Adds the line of an item: of an entry here, of an error to the other sink.
    #[tactic(auto, unfolding(crate::specs::Lines::line_of, crate::specs::Lines::error_of))]
    pub fn put<K: Sink, E: Sink>(
        &mut self,
        alloc: Global,
        sink: &mut K,
        errors: &mut E,
        item: walkdir::Result<DirEntry>,
    ) -> Result<(), LineError>
        ensures added { OnOk result (TakesFront (K.held sink.old) (K.held sink.new) (string_bytes self.old.text ++ line_of self.old.nul item) (string_bytes self.new.text)) }
        ensures told { OnOk result (Adds (E.held errors.old) (E.held errors.new) (error_of item)) }
        ensures cut { OnErr result ((count : ℕ) × Adds (K.held sink.old) (K.held sink.new) (take count (string_bytes self.old.text ++ line_of self.old.nul item))) }
        ensures told_cut { OnErr result ((count : ℕ) × Adds (E.held errors.old) (E.held errors.new) (take count (error_of item))) }
        ensures later { K.faults sink.old ≤ K.faults sink.new }
        ensures later_errors { E.faults errors.old ≤ E.faults errors.new }
        ensures cause { IsErrOf result LineError.OutputFailed → Rose (K.faults sink.old) (K.faults sink.new) }
        ensures cause_errors { IsErrOf result LineError.ErrorsFailed → Rose (E.faults errors.old) (E.faults errors.new) }
        ensures nul { self.new.nul ≡ self.old.nul }
    {
        match item {
            Ok(entry) => self.add(alloc, sink, entry),
            Err(error) => tell(alloc, errors, error),
        }
    }

    /// Adds the line of an entry, and writes what is gathered if that is much.
    #[tactic(auto, unfolding(crate::specs::Lines::line_of))]
    fn add<K: Sink>(
        &mut self,
        alloc: Global,
        sink: &mut K,
        entry: DirEntry,
    ) -> Result<(), LineError>
        ensures added { OnOk result (TakesFront (K.held sink.old) (K.held sink.new) (string_bytes self.old.text ++ line_of self.old.nul (Ok entry)) (string_bytes self.new.text)) }
        ensures failed { IsErrOf result LineError.OutputFailed → (count : ℕ) × Adds (K.held sink.old) (K.held sink.new) (take count (string_bytes self.old.text ++ line_of self.old.nul (Ok entry))) }
        ensures lost { IsErrOf result LineError.NoMemory → Adds (K.held sink.old) (K.held sink.new) [] }
        ensures no_other { ¬ (IsErrOf result LineError.ErrorsFailed) }
        ensures later { K.faults sink.old ≤ K.faults sink.new }
        ensures cause { IsErrOf result LineError.OutputFailed → Rose (K.faults sink.old) (K.faults sink.new) }
        ensures nul { self.new.nul ≡ self.old.nul }
    {
        let line = line_of(alloc, entry, self.nul)?;
        self.text.push_str(line.as_str())?;
        if self.text.len() < PIECE {
            return Ok(());
        }
        self.flush(sink)?;
        Ok(())
    }

    /// Writes what is gathered.
    pub fn flush<K: Sink>(&mut self, sink: &mut K) -> Result<(), Failed>
        ensures ok { OnOk result (Adds (K.held sink.old) (K.held sink.new) (string_bytes self.old.text)) }
        ensures empty { OnOk result (string_bytes self.new.text ≡ []) }
        ensures err { OnErr result ((count : ℕ) × Adds (K.held sink.old) (K.held sink.new) (take count (string_bytes self.old.text))) }
        ensures cause { HasCause (K.faults sink.old) (K.faults sink.new) result }
        ensures nul { self.new.nul ≡ self.old.nul }
    {
        write_all(sink, self.text.as_bytes())?;
        self.text.clear();
        Ok(())
    }
}

/// The line of an entry: its path.
#[tactic(auto, unfolding(crate::specs::Lines::line_of))]
fn line_of(alloc: Global, entry: DirEntry, nul: bool) -> Result<String, AllocError>
    ensures line { IfOk result (λ line. string_bytes line ≡ line_of nul (Ok entry)) }
{
    let path = entry.path();
    if nul {
        format!(in alloc; "{path}\0")
    } else {
        format!(in alloc; "{path}\n")
    }
}

/// Writes the line of an error.
fn tell<E: Sink>(alloc: Global, errors: &mut E, error: walkdir::Error) -> Result<(), LineError>
    ensures told { OnOk result (Adds (E.held errors.old) (E.held errors.new) (error_of (Err error))) }
    ensures cut { OnErr result ((count : ℕ) × Adds (E.held errors.old) (E.held errors.new) (take count (error_of (Err error)))) }
    ensures later { E.faults errors.old ≤ E.faults errors.new }
    ensures cause { IsErrOf result LineError.ErrorsFailed → Rose (E.faults errors.old) (E.faults errors.new) }
    ensures no_other { ¬ (IsErrOf result LineError.OutputFailed) }
{
    let line = error_line(alloc, error)?;
    match write_all(errors, line.as_bytes()) {
        Ok(()) => Ok(()),
        Err(Failed) => Err(LineError::ErrorsFailed),
    }
}

/// The line of an error, after the program's name, with the system's words for it.
#[tactic(auto, unfolding(crate::specs::Lines::error_of))]
fn error_line(alloc: Global, error: walkdir::Error) -> Result<String, AllocError>
    ensures line { IfOk result (λ line. string_bytes line ≡ error_of (Err error)) }
{
    let words = system_words(error.io_error());
    format!(in alloc; "list_walk: {error}{words}\n")
}

/// The system's words for a disk's error. A disk that failed doesn't keep them, so others are used.
fn system_words(error: Option<DiskError>) -> &'static str
    ensures words { result.now ≡ system_words error }
{
    match error {
        Some(DiskError::Absent) => " (No such file or directory)",
        Some(DiskError::WrongKind) => " (Not a directory)",
        Some(DiskError::LinkLoop) => " (Too many levels of symbolic links)",
        Some(DiskError::Exists) => " (File exists)",
        Some(DiskError::NotEmpty) => " (Directory not empty)",
        Some(DiskError::NoMemory) => " (Cannot allocate memory)",
        Some(DiskError::Failed) => " (refused by the system, or an entry that can't be listed)",
        None => "",
    }
}
