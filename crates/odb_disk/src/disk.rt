//! The trait of a disk.
ghost use Rattle.std.specs.Prelude.{◌≡◌, ℕ, Option, IfOk, IfSome, OnOk, OnErr};
ghost use Rattle.odb_disk.specs.Tree.{IsTree, State, tree_of};
ghost use Rattle.odb_disk.specs.Tree.Follow.{looked, read_of};
ghost use Rattle.odb_disk.specs.Tree.Write.{change_of_make_dir, change_of_new_file, change_of_append, change_of_rename, change_of_remove, done, written_as};
ghost use Rattle.odb_disk.specs.Disk.{FailsOnlyByFault};
ghost use Rattle.odb_disk.specs.Answers.{Answers, AnswersWrite};
ghost use Rattle.odb_disk.specs.Streams.{Streams, AnswersOpen, Opens, Gives, with_closed};
ghost use Rattle.odb_disk.specs.Entries.{opened};
ghost use Rattle.odb_disk.specs.Told.{told_look, told_read, told_open, told_next, told_write};
ghost use Rattle.odb_disk.specs.declared.ask.DiskAsk.{DiskAsk as ask_value};
ghost use Rattle.odb_disk.specs.declared.ask.DiskAsk.TheVariants as asks;
ghost use Rattle.odb_disk.specs.declared.ask.DiskAnswer.{DiskAnswer as answer_value};
ghost use Rattle.odb_disk.specs.declared.ask.DiskAnswer.TheVariants as answers;

use crate::{DiskError, Entry, Meta};
use odb_base::{ByteList, PathText};
use std::alloc::Global;
use std::marker::Model;

/// The number of an open stream of a directory.
#[derive(Clone, Copy, Debug)]
pub struct DirId {
    number: u64,
}

impl Model for DirId {
    ghost use Rattle.std.specs.Prelude.{ℕ};

    ghost Value = { ℕ };

    ghost view = { λ dir. dir.number };

    ghost inverse = { λ number. record { number = number } };
}

impl DirId {
    /// The stream with this number.
    pub fn new(number: u64) -> DirId
        ensures number { result ≡ number }
    {
        DirId { number }
    }

    /// The number of the stream.
    pub fn number(&self) -> u64
        ensures number { result ≡ self.now }
    {
        self.number
    }
}

/// A disk: a tree of directories, files and links that other programs change too.
///
/// A state that is known shows a tree. A call that fails leaves it as it was, and a call that writes makes the change
/// that its word in `specs/Tree/Write.antt` of `odb_mem_disk` gives. Each disk reports its open streams: `open_dir`,
/// `next_entry` and `close_dir` change them as `specs/Streams.antt` says, and no other call does.
pub trait Disk {
    /// The state of the disk, if it reports it.
    ghost state: { Self → Option State };

    /// The open streams, and the most that were open at one time so far.
    ghost streams: { Self → Streams };

    /// How often a call has failed: a count that never falls.
    ghost faults: { Self → ℕ };

    /// A disk is asked, answers, and is another disk afterwards. Each call keeps to it, so what a caller promises by
    /// it alone holds on every disk, also on one that reports no state.
    ghost answered: { Self → ask_value → answer_value → Self → Type 0 } = { λ _ _ _ _. Unit {0} };

    /// Stats a path. A link in the last place is followed if `follow` is set.
    fn look(&mut self, alloc: Global, path: &PathText, follow: bool) -> Result<Meta, DiskError>
        ensures answer { IfSome (state self.old) (λ s. Answers result (looked (tree_of s) path.now follow)) }
        ensures tree { IfSome (state self.old) (λ s. IsTree (tree_of s)) }
        ensures kept { state self.new ≡ state self.old }
        ensures streams { streams self.new ≡ streams self.old }
        ensures cause { FailsOnlyByFault (faults self.old) (faults self.new) result }
        ensures answered { answered self.old (asks.Look path.now follow) (told_look result) self.new };

    /// Reads the bytes and the time of a file, following links.
    fn read(&mut self, alloc: Global, path: &PathText) -> Result<(ByteList, u64), DiskError>
        ensures answer { IfSome (state self.old) (λ s. Answers result (read_of (tree_of s) path.now)) }
        ensures tree { IfSome (state self.old) (λ s. IsTree (tree_of s)) }
        ensures kept { state self.new ≡ state self.old }
        ensures streams { streams self.new ≡ streams self.old }
        ensures cause { FailsOnlyByFault (faults self.old) (faults self.new) result }
        ensures answered { answered self.old (asks.Read path.now) (told_read result) self.new };

    /// Opens a directory, following links. What its stream will give is then fixed.
    fn open_dir(&mut self, alloc: Global, path: &PathText) -> Result<DirId, DiskError>
        ensures answer { IfSome (state self.old) (λ s. AnswersOpen result (opened (tree_of s) path.now)) }
        ensures opened { IfOk result (λ dir. Opens (state self.old) path.now (streams self.old) (streams self.new) dir) }
        ensures refused { OnErr result (streams self.new ≡ streams self.old) }
        ensures tree { IfSome (state self.old) (λ s. IsTree (tree_of s)) }
        ensures kept { state self.new ≡ state self.old }
        ensures cause { FailsOnlyByFault (faults self.old) (faults self.new) result }
        ensures answered { answered self.old (asks.OpenDir path.now) (told_open result) self.new };

    /// Takes the next entry of a stream, if one is left. A stream that isn't open is absent.
    fn next_entry(&mut self, alloc: Global, dir: &DirId) -> Result<Option<Entry>, DiskError>
        ensures gives { Gives (streams self.old) (streams self.new) dir.now result }
        ensures tree { IfSome (state self.old) (λ s. IsTree (tree_of s)) }
        ensures kept { state self.new ≡ state self.old }
        ensures cause { FailsOnlyByFault (faults self.old) (faults self.new) result }
        ensures answered { answered self.old (asks.NextEntry dir.now) (told_next result) self.new };

    /// Closes a stream; does nothing if it isn't open. It allocates no memory, and never fails.
    fn close_dir(&mut self, dir: DirId)
        ensures closed { streams self.new ≡ with_closed (streams self.old) dir }
        ensures tree { IfSome (state self.old) (λ s. IsTree (tree_of s)) }
        ensures kept { state self.new ≡ state self.old }
        ensures faults { faults self.new ≡ faults self.old }
        ensures answered { answered self.old (asks.CloseDir dir) answers.Done self.new };

    /// Makes a directory where nothing is. A link in the last place isn't followed.
    fn make_dir(&mut self, alloc: Global, path: &PathText) -> Result<(), DiskError>
        ensures answer { IfSome (state self.old) (λ s. AnswersWrite result (done (change_of_make_dir (tree_of s) path.now))) }
        ensures tree { IfSome (state self.old) (λ s. IsTree (tree_of s)) }
        ensures made { OnOk result (state self.new ≡ written_as (λ t. change_of_make_dir t path.now) (state self.old)) }
        ensures kept { OnErr result (state self.new ≡ state self.old) }
        ensures streams { streams self.new ≡ streams self.old }
        ensures cause { FailsOnlyByFault (faults self.old) (faults self.new) result }
        ensures answered { answered self.old (asks.MakeDir path.now) (told_write result) self.new };

    /// Makes an empty file where nothing is. A link in the last place isn't followed.
    fn new_file(&mut self, alloc: Global, path: &PathText) -> Result<(), DiskError>
        ensures answer { IfSome (state self.old) (λ s. AnswersWrite result (done (change_of_new_file (tree_of s) path.now))) }
        ensures tree { IfSome (state self.old) (λ s. IsTree (tree_of s)) }
        ensures made { OnOk result (state self.new ≡ written_as (λ t. change_of_new_file t path.now) (state self.old)) }
        ensures kept { OnErr result (state self.new ≡ state self.old) }
        ensures streams { streams self.new ≡ streams self.old }
        ensures cause { FailsOnlyByFault (faults self.old) (faults self.new) result }
        ensures answered { answered self.old (asks.NewFile path.now) (told_write result) self.new };

    /// Appends bytes to a file, following links. If the tree is known, its time stays as it was.
    fn append(&mut self, alloc: Global, path: &PathText, bytes: &[u8]) -> Result<(), DiskError>
        ensures answer { IfSome (state self.old) (λ s. AnswersWrite result (done (change_of_append (tree_of s) path.now bytes.now))) }
        ensures tree { IfSome (state self.old) (λ s. IsTree (tree_of s)) }
        ensures made { OnOk result (state self.new ≡ written_as (λ t. change_of_append t path.now bytes.now) (state self.old)) }
        ensures kept { OnErr result (state self.new ≡ state self.old) }
        ensures streams { streams self.new ≡ streams self.old }
        ensures cause { FailsOnlyByFault (faults self.old) (faults self.new) result }
        ensures answered { answered self.old (asks.Append path.now bytes.now) (told_write result) self.new };

    /// Moves a file or a link over nothing, a file or a link. A link in the last place isn't followed.
    fn rename(&mut self, alloc: Global, from: &PathText, to: &PathText) -> Result<(), DiskError>
        ensures answer { IfSome (state self.old) (λ s. AnswersWrite result (done (change_of_rename (tree_of s) from.now to.now))) }
        ensures tree { IfSome (state self.old) (λ s. IsTree (tree_of s)) }
        ensures made { OnOk result (state self.new ≡ written_as (λ t. change_of_rename t from.now to.now) (state self.old)) }
        ensures kept { OnErr result (state self.new ≡ state self.old) }
        ensures streams { streams self.new ≡ streams self.old }
        ensures cause { FailsOnlyByFault (faults self.old) (faults self.new) result }
        ensures answered { answered self.old (asks.Rename from.now to.now) (told_write result) self.new };

    /// Removes a file, a link or an empty directory. A link in the last place isn't followed.
    fn remove(&mut self, alloc: Global, path: &PathText) -> Result<(), DiskError>
        ensures answer { IfSome (state self.old) (λ s. AnswersWrite result (done (change_of_remove (tree_of s) path.now))) }
        ensures tree { IfSome (state self.old) (λ s. IsTree (tree_of s)) }
        ensures made { OnOk result (state self.new ≡ written_as (λ t. change_of_remove t path.now) (state self.old)) }
        ensures kept { OnErr result (state self.new ≡ state self.old) }
        ensures streams { streams self.new ≡ streams self.old }
        ensures cause { FailsOnlyByFault (faults self.old) (faults self.new) result }
        ensures answered { answered self.old (asks.Remove path.now) (told_write result) self.new };
}
