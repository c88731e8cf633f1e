//! Copies of replies.
ghost use Rattle.std.specs.Prelude.{◌≡◌, IfOk};

use crate::call::LooseReply;
use crate::lookup::Outcome;
use crate::name_set::IdList;
use crate::{find, iter, write};
use gix_hash::ObjectId;
use gix_object::Kind;
use odb_base::{ByteList, NoMemory};
use std::alloc::Global;

impl LooseReply {
    /// A copy of the reply.
    pub fn try_clone(&self, alloc: Global) -> Result<LooseReply, NoMemory>
        ensures copy { IfOk result (λ copy. copy ≡ self.now) }
    {
        match self {
            LooseReply::Contains(answer) => presence_copy(alloc, answer),
            LooseReply::Found(answer) => object_copy(alloc, answer),
            LooseReply::Header(answer) => header_copy(alloc, answer),
            LooseReply::Prefix { answer, names } => prefix_copy(alloc, answer, names),
            LooseReply::Wrote(answer) => id_copy(alloc, answer),
        }
    }
}

fn presence_copy(alloc: Global, answer: &Result<bool, find::Error>) -> Result<LooseReply, NoMemory>
    ensures copy { IfOk result (λ copy. copy ≡ LooseReply.Contains answer.now) }
{
    match answer {
        Ok(there) => Ok(LooseReply::Contains(Ok(*there))),
        Err(error) => Ok(LooseReply::Contains(Err(error.try_clone(alloc)?))),
    }
}

fn object_copy(
    alloc: Global,
    answer: &Result<Option<(Kind, ByteList)>, find::Error>,
) -> Result<LooseReply, NoMemory>
    ensures copy { IfOk result (λ copy. copy ≡ LooseReply.Found answer.now) }
{
    match answer {
        Ok(None) => Ok(LooseReply::Found(Ok(None))),
        Ok(Some((kind, bytes))) => Ok(LooseReply::Found(Ok(Some((
            *kind,
            bytes.try_clone(alloc)?,
        ))))),
        Err(error) => Ok(LooseReply::Found(Err(error.try_clone(alloc)?))),
    }
}

fn header_copy(
    alloc: Global,
    answer: &Result<Option<(u64, Kind)>, find::Error>,
) -> Result<LooseReply, NoMemory>
    ensures copy { IfOk result (λ copy. copy ≡ LooseReply.Header answer.now) }
{
    match answer {
        Ok(found) => Ok(LooseReply::Header(Ok(*found))),
        Err(error) => Ok(LooseReply::Header(Err(error.try_clone(alloc)?))),
    }
}

fn prefix_copy(
    alloc: Global,
    answer: &Result<Option<Outcome>, iter::Error>,
    names: &IdList,
) -> Result<LooseReply, NoMemory>
    ensures copy { IfOk result (λ copy. copy ≡ LooseReply.Prefix answer.now names.now) }
{
    let answer = outcome_copy(alloc, answer)?;
    let names = IdList::from_vec(Vec::from_slice(alloc, names.as_slice())?);
    Ok(LooseReply::Prefix { answer, names })
}

fn outcome_copy(
    alloc: Global,
    answer: &Result<Option<Outcome>, iter::Error>,
) -> Result<Result<Option<Outcome>, iter::Error>, NoMemory>
    ensures copy { IfOk result (λ copy. copy ≡ answer.now) }
{
    match answer {
        Ok(outcome) => Ok(Ok(*outcome)),
        Err(error) => Ok(Err(error.try_clone(alloc)?)),
    }
}

fn id_copy(alloc: Global, answer: &Result<ObjectId, write::Error>) -> Result<LooseReply, NoMemory>
    ensures copy { IfOk result (λ copy. copy ≡ LooseReply.Wrote answer.now) }
{
    match answer {
        Ok(id) => Ok(LooseReply::Wrote(Ok(*id))),
        Err(error) => Ok(LooseReply::Wrote(Err(error.try_clone(alloc)?))),
    }
}
