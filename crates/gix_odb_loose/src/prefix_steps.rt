//! The look-up of a prefix after an answer of the disk.
ghost use Rattle.std.specs.Prelude.{◌≡◌, ◌++◌, [], IfOk, MatchOption};
ghost use Rattle.std.specs.List.{cons_option};
ghost use Rattle.gix_odb_loose.specs.LooseFile.{loose_path};
ghost use Rattle.gix_odb_loose.specs.PrefixOrder as order;
ghost use Rattle.gix_odb_loose.specs.PrefixOrder.{folder_of, with_taken};

use crate::prefix_names::match_of;
use crate::prefix_search::{Candidates, Match, PrefixSearch, SearchHead, SearchStage, SearchStep};
use crate::queue::Queue;
use crate::{iter, lookup, paths};
use gix_hash::ObjectId;
use odb_base::NoMemory;
use odb_disk::{DirId, DiskAnswer, DiskError, Entry, Kind};
use std::alloc::Global;

/// The look-up after an answer at a stage.
pub fn fed_at(
    alloc: Global,
    head: SearchHead,
    stage: SearchStage,
    answer: DiskAnswer,
) -> Result<SearchStep, NoMemory>
    ensures fed { IfOk result (λ step. step ≡ order.fed_at head stage answer) }
{
    match stage {
        SearchStage::Statting { follow } => statted(alloc, head, follow, answer),
        SearchStage::Opening => opened(alloc, head, answer),
        SearchStage::Reading { dir, matches } => read(alloc, head, dir, matches, answer),
        SearchStage::Closing { read, .. } => {
            drop(answer);
            closed(alloc, head, read)
        }
        SearchStage::Linked { id, left } => linked(alloc, head, id, left, answer),
    }
}

fn more(head: SearchHead, stage: SearchStage) -> SearchStep
    ensures more { result ≡ order.more head stage }
{
    SearchStep::More(PrefixSearch { head, stage })
}

fn ended(head: SearchHead, answer: Result<Option<lookup::Outcome>, iter::Error>) -> SearchStep
    ensures ended { result ≡ order.ended head answer }
{
    SearchStep::Done(Candidates {
        answer,
        names: head.names.into_list(),
    })
}

fn done(head: SearchHead) -> SearchStep
    ensures done { result ≡ order.done head }
{
    let outcome = head.names.outcome();
    ended(head, Ok(outcome))
}

// The directory can't be listed.
fn broken(alloc: Global, head: SearchHead, error: DiskError) -> Result<SearchStep, NoMemory>
    ensures broken { IfOk result (λ step. step ≡ order.failed head 0 (folder_of head) error) }
{
    let path = head.folder(alloc)?;
    let error = iter::refused(alloc, 0, &path, error)?;
    Ok(ended(head, Err(error)))
}

fn unlisted(alloc: Global, head: SearchHead, error: DiskError) -> Result<SearchStep, NoMemory>
    ensures unlisted { IfOk result (λ step. step ≡ order.unlisted head error) }
{
    match error {
        DiskError::Absent => Ok(done(head)),
        _ => broken(alloc, head, error),
    }
}

fn error_in(answer: &DiskAnswer) -> DiskError
    ensures error { result ≡ order.error_in answer.now }
{
    match answer {
        DiskAnswer::Refused(error) => *error,
        _ => DiskError::WrongKind,
    }
}

fn statted(
    alloc: Global,
    head: SearchHead,
    follow: bool,
    answer: DiskAnswer,
) -> Result<SearchStep, NoMemory>
    ensures statted { IfOk result (λ step. step ≡ order.statted head follow answer) }
{
    match answer {
        DiskAnswer::Meta(meta) => Ok(by_kind(head, follow, meta.kind)),
        other => {
            let error = error_in(&other);
            drop(other);
            unlisted(alloc, head, error)
        }
    }
}

fn by_kind(head: SearchHead, follow: bool, kind: Kind) -> SearchStep
    ensures by_kind { result ≡ order.by_kind head follow kind }
{
    match (kind, follow) {
        (Kind::Dir, _) => more(head, SearchStage::Opening),
        (Kind::Link, false) => more(head, SearchStage::Statting { follow: true }),
        _ => done(head),
    }
}

fn opened(alloc: Global, head: SearchHead, answer: DiskAnswer) -> Result<SearchStep, NoMemory>
    ensures opened { IfOk result (λ step. step ≡ order.opened head answer) }
{
    match answer {
        DiskAnswer::Dir(dir) => Ok(reading(head, dir, Queue::new(alloc))),
        other => {
            let error = error_in(&other);
            drop(other);
            unlisted(alloc, head, error)
        }
    }
}

fn reading(head: SearchHead, dir: DirId, matches: Queue<Match>) -> SearchStep
    ensures reading { result ≡ order.more head (SearchStage.Reading dir matches) }
{
    more(head, SearchStage::Reading { dir, matches })
}

fn read(
    alloc: Global,
    head: SearchHead,
    dir: DirId,
    matches: Queue<Match>,
    answer: DiskAnswer,
) -> Result<SearchStep, NoMemory>
    ensures read { IfOk result (λ step. step ≡ order.read head dir matches answer) }
{
    match answer {
        DiskAnswer::Entry(entry) => with_entry(alloc, head, dir, matches, entry),
        DiskAnswer::End => Ok(closing(head, dir, matches)),
        other => {
            let error = error_in(&other);
            drop(other);
            drop(matches);
            Ok(breaking(head, dir, error))
        }
    }
}

// The stream was read to its end.
fn closing(head: SearchHead, dir: DirId, matches: Queue<Match>) -> SearchStep
    ensures closing { result ≡ order.more head (SearchStage.Closing dir (Ok matches)) }
{
    let read = Ok(matches);
    more(head, SearchStage::Closing { dir, read })
}

// The stream couldn't be read on.
fn breaking(head: SearchHead, dir: DirId, error: DiskError) -> SearchStep
    ensures breaking { result ≡ order.more head (SearchStage.Closing dir (Err error)) }
{
    let read = Err(error);
    more(head, SearchStage::Closing { dir, read })
}

fn with_entry(
    alloc: Global,
    head: SearchHead,
    dir: DirId,
    matches: Queue<Match>,
    entry: Entry,
) -> Result<SearchStep, NoMemory>
    ensures read { IfOk result (λ step. step ≡ order.read head dir matches (DiskAnswer.Entry entry)) }
{
    let found = match_of(alloc, &head.prefix, &entry)?;
    let matches = with_match(matches, found)?;
    Ok(reading(head, dir, matches))
}

// The matches with one more, if there is one.
fn with_match(matches: Queue<Match>, found: Option<Match>) -> Result<Queue<Match>, NoMemory>
    ensures matches { IfOk result (λ all. all ≡ matches ++ cons_option found []) }
{
    let mut matches = matches;
    if let Some(found) = found {
        matches.push(found)?;
    }
    Ok(matches)
}

// The stream was closed.
fn closed(
    alloc: Global,
    head: SearchHead,
    read: Result<Queue<Match>, DiskError>,
) -> Result<SearchStep, NoMemory>
    ensures closed { IfOk result (λ step. step ≡ order.closed head read) }
{
    match read {
        Ok(matches) => next(head, matches),
        Err(error) => broken(alloc, head, error),
    }
}

// The next call after a match, or the end.
fn next(head: SearchHead, left: Queue<Match>) -> Result<SearchStep, NoMemory>
    ensures next { IfOk result (λ step. step ≡ order.next head left) }
{
    let mut head = head;
    let mut left = left;
    match next_link(&mut head, &mut left)? {
        None => Ok(done(head)),
        Some(id) => Ok(more(head, SearchStage::Linked { id, left })),
    }
}

// Takes files up to the next link, whose id is returned. None, if there is no link or it needn't be followed.
fn next_link(head: &mut SearchHead, left: &mut Queue<Match>) -> Result<Option<ObjectId>, NoMemory>
    ensures next { IfOk result (λ link. MatchOption link (order.next head.old left.old ≡ order.done head.new)
        (λ id. order.next head.old left.old ≡ order.more head.new (SearchStage.Linked id left.new))) }
{
    'matches: while !head.is_settled() {
        match left.pop() {
            None => return Ok(None),
            Some(Match::File(id)) => head.names.take(id)?,
            Some(Match::Link(id)) => return Ok(Some(id)),
        }
    }
    Ok(None)
}

fn linked(
    alloc: Global,
    head: SearchHead,
    id: ObjectId,
    left: Queue<Match>,
    answer: DiskAnswer,
) -> Result<SearchStep, NoMemory>
    ensures linked { IfOk result (λ step. step ≡ order.linked head id left answer) }
{
    match answer {
        DiskAnswer::Meta(meta) => leads_to(head, id, left, meta.kind),
        DiskAnswer::Refused(DiskError::Failed) => unfollowed(alloc, head, &id, DiskError::Failed),
        DiskAnswer::Refused(DiskError::NoMemory) => {
            unfollowed(alloc, head, &id, DiskError::NoMemory)
        }
        other => {
            drop(other);
            next(head, left)
        }
    }
}

fn leads_to(
    head: SearchHead,
    id: ObjectId,
    left: Queue<Match>,
    kind: Kind,
) -> Result<SearchStep, NoMemory>
    ensures leads { IfOk result (λ step. step ≡ order.leads_to head id left kind) }
{
    match kind {
        Kind::File => next(taken(head, id)?, left),
        _ => next(head, left),
    }
}

fn taken(head: SearchHead, id: ObjectId) -> Result<SearchHead, NoMemory>
    ensures taken { IfOk result (λ grown. grown ≡ with_taken head id) }
{
    let mut head = head;
    head.names.take(id)?;
    Ok(head)
}

// A link can't be statted.
fn unfollowed(
    alloc: Global,
    head: SearchHead,
    id: &ObjectId,
    error: DiskError,
) -> Result<SearchStep, NoMemory>
    ensures failed { IfOk result (λ step. step ≡ order.failed head 1 (loose_path head.objects id.now) error) }
{
    let path = paths::object_path(alloc, &head.objects, id)?;
    let error = iter::refused(alloc, 1, &path, error)?;
    Ok(ended(head, Err(error)))
}
