//! A worker that draws the items of an iterator and sends them.
ghost use Rattle.std.specs.Prelude.{◌≡◌, true, ◌∷◌, ◌++◌, [], IfOk};
ghost use Rattle.crossbeam_channel.specs.Ends.{sends_on};
ghost use Rattle.crossbeam_channel.specs.Claims.{view, IsSeatAt};
ghost use Rattle.gix_features_channel.specs.Messages.{IsTold};
ghost use Rattle.gix_features_channel.specs.EagerJobs.{CanBegin, AreDrawn};

use crate::elsewhere::Task;
use crate::ends::Sends;
use crate::messages::{EagerPass, Message, Sender};
use odb_base::NoMemory;
use std::alloc::Global;
use std::sync::Wait;

/// What a worker begins with.
#[derive(Drop)]
pub(crate) struct Job<I: Iterator>
where
    I::Item: Drop,
{
    pub(crate) iter: I,
    pub(crate) sender: Sender<I>,
    pub(crate) pass: EagerPass<I>,
    pub(crate) alloc: Global,
    /// The number of items sent at once.
    pub(crate) size: usize,
}

impl<I: Iterator> Job<I>
where
    I::Item: Drop,
{
    /// The iterator.
    pub(crate) fn into_inner(self) -> I
        ensures same { result ≡ self.iter }
    {
        let Job {
            iter,
            sender: _,
            pass: _,
            alloc: _,
            size: _,
        } = self;
        iter
    }
}

impl<I: Iterator + Drop> Task for Job<I>
where
    I::Item: Drop,
{
    ghost can_begin = { CanBegin I.can_next I.next_gives };

    fn run<H: Wait>(self, rt: &H) {
        let mut job = self;
        draw_all(rt, &mut job);
        drop(job);
    }
}

/// Draws an iterator's items and sends them in chunks, and then that there are no more. It ends early if nobody takes
/// them, or if memory runs out.
fn draw_all<I: Iterator, H: Wait>(rt: &H, job: &mut Job<I>)
where
    I::Item: Drop,
    requires can { CanBegin I.can_next I.next_gives job.old }
{
    'drawing: for _ in rt.forever() {
        if !draw_some(rt, job) {
            return;
        }
    }
}

/// Draws the next items and sends them; if there are no more, sends that too. Returns whether there may be more that
/// somebody takes.
fn draw_some<I: Iterator, H: Wait>(rt: &H, job: &mut Job<I>) -> bool
where
    I::Item: Drop,
    requires can { CanBegin I.can_next I.next_gives job.old }
    ensures can { result ≡ true → CanBegin I.can_next I.next_gives job.new }
{
    let Ok((chunk, has_ended)) = next_chunk(job.alloc, &mut job.iter, job.size) else {
        return false;
    };
    if !send(rt, &job.sender, &mut job.pass, Message::Chunk(chunk)) {
        return false;
    }
    if has_ended {
        let _ = send(rt, &job.sender, &mut job.pass, Message::Whole);
        return false;
    }
    true
}

/// Sends a message, once there is room for it. Returns whether somebody may take it.
fn send<I: Iterator, H: Wait>(
    rt: &H,
    sender: &Sender<I>,
    pass: &mut EagerPass<I>,
    message: Message<I, I::Item>,
) -> bool
where
    I::Item: Drop,
    requires seated { IsSeatAt (sends_on sender.now) pass.old }
    requires sends { (view pass.old).sends ≡ true }
    requires told { IsTold I.next_gives ((view pass.old).sent ++ message ∷ []) }
    ensures seated { IsSeatAt (sends_on sender.now) pass.new × ((view pass.new).sends ≡ true) }
    ensures sent { result ≡ true → (view pass.new).sent ≡ (view pass.old).sent ++ message ∷ [] }
{
    match sender.send_as::<Sends, H>(rt, pass, message) {
        Ok(()) => true,
        Err(back) => {
            drop(back);
            false
        }
    }
}

/// The next items of an iterator, at most `size`, and whether there are no more.
fn next_chunk<I: Iterator>(
    alloc: Global,
    iter: &mut I,
    size: usize,
) -> Result<(Vec<I::Item>, bool), NoMemory>
where
    I::Item: Drop,
    requires can { I.can_next iter.old }
    ensures drawn { IfOk result (λ r. AreDrawn I.can_next I.next_gives iter.old r.0.items r.1 iter.new) }
{
    let mut chunk = Vec::new(alloc);
    'filling: while chunk.len() < size {
        let Some(item) = iter.next() else {
            return Ok((chunk, true));
        };
        chunk.push(item)?;
    }
    Ok((chunk, false))
}
