//! A call of a store as a machine: it asks for a call of the disk, takes the answer, and ends with a reply.
ghost use Rattle.std.specs.Prelude.{◌≡◌, true, None, Some, IfOk, MatchResult};
ghost use Rattle.gix_hash.specs.ObjectId.{kind_of};
ghost use Rattle.gix_odb_loose.specs.Store.{store_hash};
ghost use Rattle.gix_odb_loose.specs.LooseFile.{id_asked};
ghost use Rattle.gix_odb_loose.specs.LooseOrder.{asking_of, want_ask, want_reply, started, ask_of, asked_as, asked_at, disk_ask_of, reply_of, temporary_in, next_stage, searched_to, written_to};
ghost use Rattle.gix_odb_loose.specs.WriteJobs.{advance_by};
ghost use Rattle.gix_odb_loose.specs.LooseOrder.{fed as fed_with};
ghost use Rattle.gix_odb_loose.specs.PrefixOrder.{fed as search_fed_with};

use crate::lookup::Outcome;
use crate::name_set::IdList;
use crate::prefix_search::{PrefixSearch, SearchStep};
use crate::write_at_hand::{Advance, WriteJob};
use crate::write_order::{WriteHead, WriteStage};
use crate::{Store, find, iter, reply, write};
use gix_hash::{ObjectId, Prefix};
use gix_object::{Kind, Want};
use odb_base::{ByteList, NoMemory, PathText};
use odb_disk::{DiskAnswer, DiskAsk};
use std::alloc::Global;

/// What is to be done, and with which objects.
#[derive(Drop)]
pub enum LooseJob {
    Contains(ObjectId),
    Find(ObjectId),
    Header(ObjectId),
    /// A prefix is to be looked up. Two candidates are enough, unless all are gathered.
    Prefix {
        prefix: Prefix,
        gather: bool,
    },
    /// An object is to be written: `size` bytes of data, under this id if it is known.
    Write {
        kind: Kind,
        size: u64,
        bytes: ByteList,
        id: Option<ObjectId>,
    },
}

/// What a call does next.
#[derive(Drop)]
pub enum LooseAsk {
    /// It waits for the answer to a call of the disk.
    Disk(DiskAsk),
    Done(LooseReply),
}

/// The result of a call.
#[derive(Drop)]
pub enum LooseReply {
    Contains(Result<bool, find::Error>),
    Found(Result<Option<(Kind, ByteList)>, find::Error>),
    Header(Result<Option<(u64, Kind)>, find::Error>),
    /// `names` are the candidates that were found, each once.
    Prefix {
        answer: Result<Option<Outcome>, iter::Error>,
        names: IdList,
    },
    Wrote(Result<ObjectId, write::Error>),
}

/// The stage of a call.
#[derive(Drop)]
pub enum Stage {
    /// The path is to be statted for a test of presence, or read for the data or the header.
    Asking {
        want: Want,
        path: PathText,
        limit: Option<u64>,
    },
    /// A prefix is being looked up.
    Searching(PrefixSearch),
    /// An object is being written.
    Writing(WriteJob),
    Done(LooseReply),
}

/// What a call does next, with its reply borrowed.
#[derive(Drop)]
pub enum Next<'a> {
    Disk(DiskAsk),
    Done(&'a LooseReply),
}

/// A call of a store in progress.
///
/// `ask` returns the next call of the disk, `feed` takes its answer, and so on until the call is done. The path of
/// the object is made at the start.
#[derive(Drop)]
pub struct LooseCall {
    stage: Stage,
}

impl LooseCall {
    /// A new call. It asks nothing of the disk yet.
    pub fn start(alloc: Global, store: &Store, job: LooseJob) -> Result<LooseCall, NoMemory>
        requires hash { kind_of (id_asked (store_hash store.now) job) ≡ store_hash store.now }
        ensures first { IfOk result (λ call. call ≡ started store.now job) }
    {
        let stage = match job {
            LooseJob::Contains(id) => asking(alloc, store, Want::Presence, id)?,
            LooseJob::Find(id) => asking(alloc, store, Want::Object, id)?,
            LooseJob::Header(id) => asking(alloc, store, Want::Header, id)?,
            LooseJob::Prefix { prefix, gather } => {
                Stage::Searching(PrefixSearch::start(alloc, store, prefix, gather)?)
            }
            LooseJob::Write {
                kind,
                size,
                bytes,
                id,
            } => Stage::Writing(WriteJob {
                head: WriteHead {
                    objects: store.path().try_clone(alloc)?,
                    kind,
                    size,
                },
                stage: WriteStage::Making { number: 0 },
                bytes,
                hash: store.object_hash(),
                known: id,
            }),
        };
        Ok(LooseCall { stage })
    }

    /// What the call does next. A reply is copied: `into_reply` moves it out.
    pub fn ask(&self, alloc: Global) -> Result<LooseAsk, NoMemory>
        ensures ask { IfOk result (λ ask. ask ≡ ask_of self.now) }
    {
        match self.stage.next(alloc)? {
            Next::Disk(ask) => Ok(LooseAsk::Disk(ask)),
            Next::Done(reply) => Ok(LooseAsk::Done(reply.try_clone(alloc)?)),
        }
    }

    /// The next call of the disk; None once the call is done.
    pub fn disk_ask(&self, alloc: Global) -> Result<Option<DiskAsk>, NoMemory>
        ensures ask { IfOk result (λ ask. ask ≡ disk_ask_of self.now) }
    {
        match self.stage.next(alloc)? {
            Next::Disk(ask) => Ok(Some(ask)),
            Next::Done(_) => Ok(None),
        }
    }

    /// The call after the answer to its call of the disk. A call that is done stays unchanged.
    ///
    /// An answer that the disk ran out of memory is no `NoMemory` here: the reply reports it.
    pub fn feed(self, alloc: Global, answer: DiskAnswer) -> Result<LooseCall, NoMemory>
        ensures fed { IfOk result (λ call. call ≡ fed_with self answer) }
    {
        let stage = self.stage.fed(alloc, answer)?;
        Ok(LooseCall { stage })
    }

    /// The temporary file of a write, if it was made and is neither moved nor removed.
    pub fn temporary_file(&self, alloc: Global) -> Result<Option<PathText>, NoMemory>
        ensures path { IfOk result (λ path. path ≡ temporary_in self.now) }
    {
        match &self.stage {
            Stage::Writing(job) => job.temporary_file(alloc),
            _ => Ok(None),
        }
    }

    /// The reply of a call that is done, or the call that goes on.
    pub fn into_reply(self) -> Result<LooseReply, LooseCall>
        ensures replied { MatchResult result (λ reply. reply_of self ≡ Some reply) (λ call. (call ≡ self) × (reply_of self ≡ None)) }
    {
        match self.stage {
            Stage::Done(reply) => Ok(reply),
            stage => Err(LooseCall { stage }),
        }
    }
}

impl Stage {
    // What a call at this stage does next.
    fn next(&self, alloc: Global) -> Result<Next<'_>, NoMemory>
        ensures next { IfOk result (λ next. asked_as next ≡ asked_at self.now) }
    {
        match self {
            Stage::Asking { want, path, .. } => Ok(Next::Disk(ask_for(alloc, *want, path)?)),
            Stage::Searching(search) => Ok(Next::Disk(search.ask(alloc)?)),
            Stage::Writing(job) => {
                let piece = ByteList::from_slice(alloc, job.piece())?;
                Ok(Next::Disk(job.head.ask_at(alloc, &job.stage, piece)?))
            }
            Stage::Done(reply) => Ok(Next::Done(reply)),
        }
    }

    // The stage after the answer to the call's ask.
    fn fed(self, alloc: Global, answer: DiskAnswer) -> Result<Stage, NoMemory>
        ensures next { IfOk result (λ next. next ≡ next_stage self answer) }
    {
        match self {
            Stage::Asking { want, path, limit } => asking_fed(alloc, want, &path, limit, answer),
            Stage::Searching(search) => search_fed(alloc, search, answer),
            Stage::Writing(job) => write_fed(alloc, job, answer),
            Stage::Done(reply) => Ok(Stage::Done(reply)),
        }
    }
}

// A call that only asks for an object, before its first call of the disk.
fn asking(alloc: Global, store: &Store, want: Want, id: ObjectId) -> Result<Stage, NoMemory>
    requires hash { kind_of id ≡ store_hash store.now }
    ensures first { IfOk result (λ stage. stage ≡ asking_of store.now want id) }
{
    Ok(Stage::Asking {
        want,
        path: store.object_path(alloc, &id)?,
        limit: store.limit(),
    })
}

fn ask_for(alloc: Global, want: Want, path: &PathText) -> Result<DiskAsk, NoMemory>
    ensures ask { IfOk result (λ ask. ask ≡ want_ask want path.now) }
{
    match want {
        Want::Presence => look_at(alloc, path),
        Want::Object | Want::Header => read_of(alloc, path),
    }
}

fn asking_fed(
    alloc: Global,
    want: Want,
    path: &PathText,
    limit: Option<u64>,
    answer: DiskAnswer,
) -> Result<Stage, NoMemory>
    ensures next { IfOk result (λ next. next ≡ Stage.Done (want_reply want path.now limit answer)) }
{
    match want {
        Want::Object => find_fed(alloc, path, limit, answer),
        Want::Header => header_fed(alloc, path, answer),
        Want::Presence => test_fed(alloc, path, answer),
    }
}

fn test_fed(alloc: Global, path: &PathText, answer: DiskAnswer) -> Result<Stage, NoMemory>
    ensures next { IfOk result (λ next. next ≡ Stage.Done (want_reply Want.Presence path.now None answer)) }
{
    let there = reply::tested(alloc, path, &answer)?;
    drop(answer);
    Ok(Stage::Done(LooseReply::Contains(there)))
}

fn find_fed(
    alloc: Global,
    path: &PathText,
    limit: Option<u64>,
    answer: DiskAnswer,
) -> Result<Stage, NoMemory>
    ensures next { IfOk result (λ next. next ≡ Stage.Done (want_reply Want.Object path.now limit answer)) }
{
    let found = reply::found(alloc, path, limit, answer)?;
    Ok(Stage::Done(LooseReply::Found(found)))
}

fn header_fed(alloc: Global, path: &PathText, answer: DiskAnswer) -> Result<Stage, NoMemory>
    ensures next { IfOk result (λ next. next ≡ Stage.Done (want_reply Want.Header path.now None answer)) }
{
    let header = reply::headed(alloc, path, &answer)?;
    drop(answer);
    Ok(Stage::Done(LooseReply::Header(header)))
}

fn search_fed(alloc: Global, search: PrefixSearch, answer: DiskAnswer) -> Result<Stage, NoMemory>
    ensures next { IfOk result (λ next. next ≡ searched_to (search_fed_with search answer)) }
{
    match search.feed(alloc, answer)? {
        SearchStep::More(search) => Ok(Stage::Searching(search)),
        SearchStep::Done(found) => Ok(Stage::Done(LooseReply::Prefix {
            answer: found.answer,
            names: found.names,
        })),
    }
}

fn write_fed(alloc: Global, job: WriteJob, answer: DiskAnswer) -> Result<Stage, NoMemory>
    ensures next { IfOk result (λ next. next ≡ written_to job (advance_by job answer)) }
{
    let advance = job.advance(alloc, &answer)?;
    drop(answer);
    Ok(advanced(job, advance))
}

// The stage of a write after an advance: it goes on, or has its reply.
fn advanced(job: WriteJob, advance: Advance) -> Stage
    ensures next { result ≡ written_to job advance }
{
    match advance {
        Advance::Stage(stage) => {
            let mut job = job;
            job.stage = stage;
            Stage::Writing(job)
        }
        Advance::Reply(reply) => Stage::Done(LooseReply::Wrote(reply)),
    }
}

/// A stat of a path, links followed.
pub fn look_at(alloc: Global, path: &PathText) -> Result<DiskAsk, NoMemory>
    ensures ask { IfOk result (λ ask. ask ≡ DiskAsk.Look path.now true) }
{
    Ok(DiskAsk::Look {
        path: path.try_clone(alloc)?,
        follow: true,
    })
}

/// A read of a path.
pub fn read_of(alloc: Global, path: &PathText) -> Result<DiskAsk, NoMemory>
    ensures ask { IfOk result (λ ask. ask ≡ DiskAsk.Read path.now) }
{
    Ok(DiskAsk::Read {
        path: path.try_clone(alloc)?,
    })
}
