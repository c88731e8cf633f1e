//! The write of a call into the objects directory: how it begins, what it asks of the disk, what follows, and its reply.
ghost use Rattle.std.specs.Prelude.{◌≡◌, ◌<◌, ◌^◌, IfErr, IfOk, true};
ghost use Rattle.std.specs.Result.{result_ok};
ghost use Rattle.gix_odb_loose.specs.LooseOrder.{disk_ask_of};
ghost use Rattle.gix_odb.specs.Answers.{IsAnswerOf};
ghost use Rattle.gix_odb.specs.CallOrder.{IsOfHash, is_write, is_written, loose_ask, result_of_write, writing, written_on, wrote_as};

use gix_hash::ObjectId;
use gix_object::Kind;
use gix_odb_calls::{Call, CallError, Reply, write};
use gix_odb_events::{Answer, Ask};
use gix_odb_loose::{LooseAsk, LooseCall, LooseJob, LooseReply};
use odb_base::{ByteList, NoMemory, PathText};
use std::alloc::Global;

/// The write of an object into a folder, with a hash.
pub(super) fn begun(
    alloc: Global,
    folder: &PathText,
    hash: gix_hash::Kind,
    kind: Kind,
    size: u64,
    bytes: ByteList,
    id: Option<ObjectId>,
) -> Result<LooseCall, NoMemory>
    requires of_hash { IsOfHash hash (Call.Write kind size bytes id) }
    ensures begun { IfOk result (λ call. call ≡ writing folder.now hash kind size bytes id) }
    ensures sized { size < 2 ^ 64 }
{
    let options = gix_odb_loose::Options {
        alloc_limit_bytes: None,
    };
    let store = gix_odb_loose::Store::at_opts(alloc, folder, hash, options)?;
    let job = LooseJob::Write {
        kind,
        size,
        bytes,
        id,
    };
    LooseCall::start(alloc, &store, job)
}

/// What a write asks of the disk.
pub(super) fn write_ask(alloc: Global, call: &LooseCall) -> Result<Option<Ask>, NoMemory>
    ensures asked { IfOk result (λ ask. ask ≡ loose_ask (disk_ask_of call.now)) }
{
    match call.disk_ask(alloc)? {
        None => Ok(None),
        Some(ask) => Ok(Some(Ask::Disk(ask))),
    }
}

/// A write after the answer to what it asked of the disk.
pub(super) fn written_on(
    alloc: Global,
    call: LooseCall,
    answer: Answer,
) -> Result<LooseCall, NoMemory>
    requires suits { IsAnswerOf (loose_ask (disk_ask_of call)) answer }
    ensures fed { IfOk result (λ next. next ≡ written_on call answer) }
{
    match answer {
        Answer::Disk(answer) => call.feed(alloc, answer),
        Answer::Core(_) => unreachable!("a write makes calls of the disk alone"),
    }
}

/// A copy of the reply of a write that is done.
#[tactic(auto, using(crate::proofs::CallLemmas::write_asked_done, crate::proofs::CallLemmas::write_copied, crate::proofs::CallLemmas::write_asks_on))]
pub(super) fn write_reply(alloc: Global, call: &LooseCall) -> Result<Option<Reply>, NoMemory>
    requires writes { is_write call.now ≡ true }
    ensures copied { IfOk result (λ reply. reply ≡ result_ok (result_of_write call.now)) }
{
    match call.ask(alloc)? {
        LooseAsk::Disk(ask) => {
            drop(ask);
            Ok(None)
        }
        LooseAsk::Done(reply) => Ok(Some(wrote(written(reply)))),
    }
}

/// The reply of a write that is done, or the write.
#[tactic(auto, using(crate::proofs::CallLemmas::write_replies, crate::proofs::CallLemmas::write_ends, crate::proofs::CallLemmas::write_stays))]
pub(super) fn write_ended(call: LooseCall) -> Result<Reply, LooseCall>
    requires writes { is_write call ≡ true }
    ensures ended { result ≡ result_of_write call }
    ensures same { IfErr result (λ same. same ≡ call) }
{
    match call.into_reply() {
        Ok(reply) => Ok(wrote(written(reply))),
        Err(call) => Err(call),
    }
}

// What a write came to.
fn written(reply: LooseReply) -> Result<ObjectId, gix_odb_loose::write::Error>
    requires written { is_written reply ≡ true }
    ensures written { reply ≡ LooseReply.Wrote result }
{
    match reply {
        LooseReply::Wrote(answer) => answer,
        _ => unreachable!("a write replies what it wrote"),
    }
}

// The reply of a write that came to this.
fn wrote(answer: Result<ObjectId, gix_odb_loose::write::Error>) -> Reply
    ensures told { result ≡ wrote_as answer }
{
    match answer {
        Ok(id) => Reply::Wrote(id),
        Err(error) => Reply::Refused(CallError::Write(write::Error::LooseWrite(error))),
    }
}
