//! What a query asks of a folder of loose objects, and what the answer means for it.
ghost use Rattle.std.specs.Prelude.{◌≡◌, IfOk};
ghost use Rattle.gix_odb_loose.specs.LooseOrder.Answered.{found_by, header_by, tested_by};
ghost use Rattle.gix_odb_calls.specs.Verdict.{asking, folder_ask};
ghost use Rattle.gix_odb_calls.specs.Verdict as queries;

use crate::call::{CallError, Reply};
use crate::find;
use gix_hash::ObjectId;
use gix_object::{Kind, Want};
use gix_odb_loose::reply;
use odb_base::{ByteList, NoMemory, PathText};
use odb_disk::{DiskAnswer, DiskAsk};
use std::alloc::Global;

/// The call of a folder that is asked for the object that a query seeks: one call of the disk, on the object's path.
#[derive(Drop)]
pub struct FolderCall {
    pub want: Want,
    /// The path that the object has in the folder.
    pub path: PathText,
    /// The most bytes that the object may have, where there is a limit.
    pub limit: Option<u64>,
}

/// What the answer of one folder means for the query.
pub enum Verdict {
    /// The query ends.
    Ends(Reply),
    /// The object isn't in this folder, so the next one is searched.
    Misses,
    /// The folder can't tell. The error is recorded, and the next folder is searched.
    Notes(gix_odb_loose::find::Error),
}

impl FolderCall {
    /// A new call. It asks nothing of the disk yet.
    pub fn new(
        alloc: Global,
        folder: &PathText,
        limit: Option<u64>,
        want: Want,
        id: ObjectId,
    ) -> Result<FolderCall, NoMemory>
        ensures asking { IfOk result (λ call. call ≡ asking limit want id folder.now) }
    {
        let store = gix_odb_loose::Store::at(alloc, folder, id.kind())?;
        let path = store.object_path(alloc, &id)?;
        Ok(FolderCall { want, path, limit })
    }

    /// Its call of the disk: a test looks at the path, links followed; a find and a header read it.
    pub fn ask(&self, alloc: Global) -> Result<DiskAsk, NoMemory>
        ensures asked { IfOk result (λ ask. ask ≡ folder_ask self.now) }
    {
        let path = self.path.try_clone(alloc)?;
        match self.want {
            Want::Object | Want::Header => Ok(DiskAsk::Read { path }),
            Want::Presence => Ok(DiskAsk::Look { path, follow: true }),
        }
    }

    /// What the query makes of the answer.
    pub fn verdict(self, alloc: Global, answer: DiskAnswer) -> Result<Verdict, NoMemory>
        ensures verdict { IfOk result (λ verdict. verdict ≡ queries.folder_verdict self answer) }
    {
        let FolderCall { want, path, limit } = self;
        match want {
            Want::Object => object_verdict(alloc, &path, limit, answer),
            Want::Header => header_verdict(alloc, &path, answer),
            Want::Presence => presence_verdict(alloc, &path, answer),
        }
    }
}

// What a find makes of the answer.
fn object_verdict(
    alloc: Global,
    path: &PathText,
    limit: Option<u64>,
    answer: DiskAnswer,
) -> Result<Verdict, NoMemory>
    ensures verdict { IfOk result (λ verdict. verdict ≡ queries.verdict_on_find (found_by path.now limit answer)) }
{
    Ok(verdict_on_find(reply::found(alloc, path, limit, answer)?))
}

// What a look for a header makes of the answer. No limit refuses one.
fn header_verdict(alloc: Global, path: &PathText, answer: DiskAnswer) -> Result<Verdict, NoMemory>
    ensures verdict { IfOk result (λ verdict. verdict ≡ queries.verdict_on_header (header_by path.now answer)) }
{
    Ok(verdict_on_header(reply::headed(alloc, path, &answer)?))
}

// What a test makes of the answer.
fn presence_verdict(alloc: Global, path: &PathText, answer: DiskAnswer) -> Result<Verdict, NoMemory>
    ensures verdict { IfOk result (λ verdict. verdict ≡ queries.verdict_on_test (tested_by path.now answer)) }
{
    Ok(verdict_on_test(reply::tested(alloc, path, &answer)?))
}

// An object ends a find, as an error does; nothing at the path is a miss.
fn verdict_on_find(answer: Result<Option<(Kind, ByteList)>, gix_odb_loose::find::Error>) -> Verdict
    ensures verdict { result ≡ queries.verdict_on_find answer }
{
    match answer {
        Ok(Some((kind, bytes))) => Verdict::Ends(Reply::Found { kind, bytes }),
        Ok(None) => Verdict::Misses,
        Err(error) => Verdict::Ends(refused(error)),
    }
}

// A header or an error ends a header look-up; nothing at the path is a miss.
fn verdict_on_header(answer: Result<Option<(u64, Kind)>, gix_odb_loose::find::Error>) -> Verdict
    ensures verdict { result ≡ queries.verdict_on_header answer }
{
    match answer {
        Ok(Some((size, kind))) => Verdict::Ends(Reply::Header(find::Header::Loose { kind, size })),
        Ok(None) => Verdict::Misses,
        Err(error) => Verdict::Ends(refused(error)),
    }
}

// A failed test is recorded, so that another folder may still say yes.
fn verdict_on_test(answer: Result<bool, gix_odb_loose::find::Error>) -> Verdict
    ensures verdict { result ≡ queries.verdict_on_test answer }
{
    match answer {
        Ok(true) => Verdict::Ends(Reply::Tested(true)),
        Ok(false) => Verdict::Misses,
        Err(gix_odb_loose::find::Error::NoMemory) => {
            Verdict::Ends(refused(gix_odb_loose::find::Error::NoMemory))
        }
        Err(error) => Verdict::Notes(error),
    }
}

/// The reply that passes on the error of a folder.
pub fn refused(error: gix_odb_loose::find::Error) -> Reply
    ensures refused { result ≡ queries.refused error }
{
    Reply::Refused(CallError::Find(find::Error::Loose(error)))
}
