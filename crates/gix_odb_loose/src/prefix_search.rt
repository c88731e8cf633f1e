//! The look-up of a prefix in a folder of loose objects, as a machine.
ghost use Rattle.std.specs.Prelude.{◌≡◌, IfOk};
ghost use Rattle.gix_odb_loose.specs.PrefixOrder.{ask_of, begun, folder_of};
ghost use Rattle.gix_odb_loose.specs.PrefixOrder as order;
ghost use Rattle.gix_odb_loose.specs.Store.{store_path};

use crate::name_set::{IdList, NameSet};
use crate::prefix_steps::fed_at;
use crate::queue::Queue;
use crate::{Store, iter, lookup, paths};
use gix_hash::{ObjectId, Prefix};
use odb_base::{NoMemory, PathText};
use odb_disk::{DirId, DiskAnswer, DiskAsk, DiskError};
use std::alloc::Global;

/// A look-up of a prefix in progress.
///
/// `ask` returns the next call of the disk, `feed` takes its answer, and so on until it is done. At most one stream is
/// open, and none at the end, also after a call that failed.
#[derive(Drop)]
pub struct PrefixSearch {
    pub(crate) head: SearchHead,
    pub(crate) stage: SearchStage,
}

/// What is looked up, and what was found so far.
#[derive(Drop)]
pub struct SearchHead {
    /// The objects directory.
    pub objects: PathText,
    pub prefix: Prefix,
    /// Whether all candidates are gathered. Else two are enough.
    pub gather: bool,
    /// The candidates that were found.
    pub names: NameSet,
}

/// An entry of the directory with the name of a candidate.
#[derive(Drop)]
pub enum Match {
    /// A file, which is one.
    File(ObjectId),
    /// A link, which is one if it leads to a file.
    Link(ObjectId),
}

/// The stage of a look-up of a prefix.
#[derive(Drop)]
pub enum SearchStage {
    /// The two-digit directory is to be statted: first itself, and if it is a link, where that leads.
    Statting {
        follow: bool,
    },
    /// It is to be opened.
    Opening,
    /// Its stream is read.
    Reading {
        dir: DirId,
        matches: Queue<Match>,
    },
    /// The stream is to be closed: it was read to its end, or couldn't be read on.
    Closing {
        dir: DirId,
        read: Result<Queue<Match>, DiskError>,
    },
    /// A link with the name of a candidate is to be statted, followed. Other matches are left.
    Linked {
        id: ObjectId,
        left: Queue<Match>,
    },
}

/// What a look-up of a prefix found.
#[derive(Drop)]
pub struct Candidates {
    pub answer: Result<Option<lookup::Outcome>, iter::Error>,
    /// Each once.
    pub names: IdList,
}

/// A look-up of a prefix after an answer.
#[derive(Drop)]
pub enum SearchStep {
    /// It goes on.
    More(PrefixSearch),
    Done(Candidates),
}

impl PrefixSearch {
    /// A new look-up in a store. It asks nothing of the disk yet.
    pub fn start(
        alloc: Global,
        store: &Store,
        prefix: Prefix,
        gather: bool,
    ) -> Result<PrefixSearch, NoMemory>
        ensures begun { IfOk result (λ search. search ≡ begun (store_path store.now) prefix gather) }
    {
        Ok(PrefixSearch {
            head: SearchHead {
                objects: store.path().try_clone(alloc)?,
                prefix,
                gather,
                names: NameSet::new(alloc),
            },
            stage: SearchStage::Statting { follow: false },
        })
    }

    /// The next call of the disk.
    pub fn ask(&self, alloc: Global) -> Result<DiskAsk, NoMemory>
        ensures asked { IfOk result (λ ask. ask ≡ ask_of self.now) }
    {
        match &self.stage {
            SearchStage::Statting { follow } => {
                let path = self.head.folder(alloc)?;
                Ok(DiskAsk::Look {
                    path,
                    follow: *follow,
                })
            }
            SearchStage::Opening => {
                let path = self.head.folder(alloc)?;
                Ok(DiskAsk::OpenDir { path })
            }
            SearchStage::Reading { dir, .. } => Ok(DiskAsk::NextEntry { dir: *dir }),
            SearchStage::Closing { dir, .. } => Ok(DiskAsk::CloseDir { dir: *dir }),
            SearchStage::Linked { id, .. } => {
                let path = paths::object_path(alloc, &self.head.objects, id)?;
                Ok(DiskAsk::Look { path, follow: true })
            }
        }
    }

    /// The look-up after the answer to its call of the disk.
    ///
    /// An answer that the disk ran out of memory is no `NoMemory` here: the look-up reports it.
    pub fn feed(self, alloc: Global, answer: DiskAnswer) -> Result<SearchStep, NoMemory>
        ensures fed { IfOk result (λ step. step ≡ order.fed self answer) }
    {
        let PrefixSearch { head, stage } = self;
        fed_at(alloc, head, stage, answer)
    }
}

impl SearchHead {
    /// The two-digit directory.
    pub(crate) fn folder(&self, alloc: Global) -> Result<PathText, NoMemory>
        ensures folder { IfOk result (λ path. path ≡ folder_of self.now) }
    {
        paths::prefix_folder(alloc, &self.objects, self.prefix.as_oid())
    }

    /// Whether nothing more is to be asked: there are several, and they aren't gathered.
    pub(crate) fn is_settled(&self) -> bool
        ensures settled { result ≡ order.is_settled self.now }
    {
        self.names.is_ambiguous() && !self.gather
    }
}
