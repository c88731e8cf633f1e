//! What was shown first, by path and time.
ghost use Rattle.std.specs.Prelude.{◌≡◌, ◌∷◌, [], OnOk};
ghost use Rattle.std.specs.List.{list_any};
ghost use Rattle.std.specs.FinMap as finite;
ghost use Rattle.gix_odb_watch.specs.Files.{KeepsFiles, differs};

use crate::shown_file::ShownFile;
use odb_base::{ByteList, NoMemory, PathText, Shared};
use std::alloc::Global;
use std::collections::BTreeMap;
use std::marker::Model;

/// The first bytes that were shown, by path and time, shared with what showed them.
#[derive(Drop)]
pub(crate) struct Contents {
    bytes: BTreeMap<(PathText, u64), Shared<ByteList>>,
}

impl Model for Contents {
    ghost use Rattle.std.specs.FinMap as finite;
    ghost use Rattle.gix_odb_watch.specs.Kept.{Contents as ContentsValue, coded_contents};

    ghost Value = { ContentsValue };

    ghost coded = { coded_contents };

    ghost view = { λ c. finite.from_entries c.bytes.entries };
}

impl Contents {
    /// Returns empty contents: nothing was shown.
    pub(crate) fn new(alloc: Global) -> Contents
        ensures empty { result ≡ finite.empty }
    {
        Contents {
            bytes: BTreeMap::new(alloc),
        }
    }

    /// Returns whether other bytes than a file's are kept under its key.
    #[tactic(auto, using(crate::proofs::FilesLemmas::differs_absent, crate::proofs::FilesLemmas::differs_there))]
    fn differs(&self, file: &ShownFile) -> bool
        ensures differs { result ≡ differs self.now file.now }
    {
        match self.bytes.get(&file.key) {
            None => false,
            Some(first) => *first.value() != *file.bytes.value(),
        }
    }

    /// Returns whether other bytes are kept under the key of one of these files.
    pub(crate) fn differs_from_one(&self, files: &[ShownFile]) -> bool
        ensures differs { result ≡ list_any (differs self.now) files.now }
    {
        files.iter().any(|file| self.differs(file))
    }

    /// Keeps what a file shows, unless something is kept under its key.
    fn keep(&mut self, file: ShownFile) -> Result<(), NoMemory>
        ensures kept { OnOk result (KeepsFiles self.old (file ∷ []) self.new) }
    {
        let ShownFile { key, bytes } = file;
        if self.bytes.contains_key(&key) {
            return Ok(());
        }
        self.bytes.insert(key, bytes)?;
        Ok(())
    }

    /// Keeps what files show, one by one.
    #[tactic(auto, using(crate::proofs::FilesLemmas::keeps_none, crate::proofs::FilesLemmas::keeps_next))]
    pub(crate) fn keep_all(&mut self, files: Vec<ShownFile>) -> Result<(), NoMemory>
        ensures kept { OnOk result (KeepsFiles self.old files.items self.new) }
    {
        for file in files {
            self.keep(file)?;
        }
        Ok(())
    }
}
