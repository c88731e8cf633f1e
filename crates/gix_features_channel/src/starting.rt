//! Starting a worker, such that its messages are known from the first to be about the iterator.
ghost use Rattle.std.specs.Prelude.{◌≡◌, ◌<◌, [], true, IfOk, OnOk};
ghost use Rattle.crossbeam_channel.specs.Ends.{sends_on, receives_on};
ghost use Rattle.crossbeam_channel.specs.Claims.{view, IsSeatAt};
ghost use Rattle.gix_features_channel.specs.Ends.{hand};
ghost use Rattle.gix_features_channel.specs.Messages.{IsSent, AreTaken};
ghost use Rattle.gix_features_channel.specs.EagerJobs.{IsBegun, IsKnown};
ghost use Rattle.gix_features_channel.specs.Eager.{MayDraw, Came};

use crate::elsewhere::run_elsewhere;
use crate::ends::{Roles, Sends, Takes};
use crate::messages::{EagerPass, Faithful, Message, Receiver, Sender, channel};
use crate::source::Source;
use crate::taker::Worker;
use crate::worker::Job;
use odb_base::NoMemory;
use std::alloc::Global;
use std::snapshot::Snapshot;
use std::sync::Wait;
use std::thread::Threads;

/// Both ends of a channel, through which only the iterator as it was went.
struct Ends<I: Iterator>
where
    I::Item: Drop,
{
    sender: Sender<I>,
    sends: EagerPass<I>,
    receiver: Receiver<I>,
    takes: EagerPass<I>,
}

/// The ends of a new channel. The iterator as it is now is sent and taken, so that both ends know it.
fn ends_for<I: Iterator, H: Wait>(
    rt: &H,
    alloc: Global,
    iter: &I,
    in_flight: usize,
) -> Result<Ends<I>, NoMemory>
where
    I::Item: Drop,
    requires { 0 < in_flight }
    ensures sends { IfOk result (λ e. IsSeatAt (sends_on e.sender) e.sends × ((view e.sends).sends ≡ true)
        × IsSent I.next_gives (view e.sends).sent iter.now) }
    ensures takes { IfOk result (λ e. IsSeatAt (receives_on e.receiver) e.takes × ((view e.takes).takes ≡ true)
        × AreTaken iter.now (view e.takes).taken []) }
{
    let (sender, receiver, mut sends) = channel(alloc, in_flight)?;
    match make_known(rt, &sender, &receiver, &mut sends, iter) {
        Ok(()) => {}
        Err(NoMemory) => {
            drop(sender);
            drop(receiver);
            drop(sends);
            return Err(NoMemory);
        }
    }
    let takes = sender.another::<Roles>(&mut sends);
    Ok(Ends {
        sender,
        sends,
        receiver,
        takes,
    })
}

/// Sends and takes the iterator as it is, through a new channel.
fn make_known<I: Iterator, H: Wait>(
    rt: &H,
    sender: &Sender<I>,
    receiver: &Receiver<I>,
    pass: &mut EagerPass<I>,
    iter: &I,
) -> Result<(), NoMemory>
where
    I::Item: Drop,
    requires one { receives_on receiver.now ≡ sends_on sender.now }
    requires seated { IsSeatAt (sends_on sender.now) pass.old }
    requires fresh { view pass.old ≡ hand true true [] [] }
    ensures seated { IsSeatAt (sends_on sender.now) pass.new }
    ensures known { OnOk result (IsKnown I.next_gives iter.now (view pass.new)) }
{
    send_begun(rt, sender, pass, iter)?;
    take_begun(rt, receiver, pass)?;
    Ok(())
}

/// Sends the iterator as it is, through a new channel.
fn send_begun<I: Iterator, H: Wait>(
    rt: &H,
    sender: &Sender<I>,
    pass: &mut EagerPass<I>,
    iter: &I,
) -> Result<(), NoMemory>
where
    I::Item: Drop,
    requires seated { IsSeatAt (sends_on sender.now) pass.old }
    requires fresh { view pass.old ≡ hand true true [] [] }
    ensures seated { IsSeatAt (sends_on sender.now) pass.new }
    ensures sent { OnOk result (IsBegun iter.now (view pass.new)) }
{
    let start = Snapshot::of(iter);
    match sender.send_as::<Sends, H>(rt, pass, Message::Begun(start)) {
        Ok(()) => Ok(()),
        Err(back) => {
            drop(back);
            Err(NoMemory)
        }
    }
}

/// Takes the iterator as it was, if that alone was sent.
fn take_begun<I: Iterator, H: Wait>(
    rt: &H,
    receiver: &Receiver<I>,
    pass: &mut EagerPass<I>,
) -> Result<(), NoMemory>
where
    I::Item: Drop,
    requires seated { IsSeatAt (receives_on receiver.now) pass.old }
    requires takes { (view pass.old).takes ≡ true }
    ensures seated { IsSeatAt (receives_on receiver.now) pass.new }
    ensures taken { OnOk result ((first : I) → IsBegun first (view pass.old) → IsKnown I.next_gives first (view pass.new)) }
{
    match receiver.recv_as::<Takes<Faithful>, H>(rt, pass) {
        Ok(message) => {
            drop(message);
            Ok(())
        }
        Err(_) => Err(NoMemory),
    }
}

/// A worker that draws an iterator's items; or the iterator, if no thread can be started.
pub(crate) fn start<I, H>(
    rt: H,
    alloc: Global,
    iter: I,
    size: usize,
    in_flight: usize,
) -> Result<Source<I>, NoMemory>
where
    I: Iterator + Send + Drop + 'static,
    I::Item: Send + Drop + 'static,
    H: Threads + Wait + Copy + Send + 'static,
    requires in_flight { 0 < in_flight }
    requires can { I.can_next iter }
    ensures ready { IfOk result (MayDraw I.can_next) }
    ensures none { IfOk result (λ source. Came I.next_gives iter source []) }
{
    let Ends {
        sender,
        sends,
        receiver,
        takes,
    } = match ends_for(&rt, alloc, &iter, in_flight) {
        Ok(ends) => ends,
        Err(NoMemory) => {
            drop(iter);
            return Err(NoMemory);
        }
    };
    let job = Job {
        iter,
        sender,
        pass: sends,
        alloc,
        size,
    };
    match run_elsewhere(rt, alloc, job) {
        Ok(Ok(handle)) => Ok(Source::Elsewhere(Worker {
            receiver,
            pass: takes,
            handle,
        })),
        Ok(Err(job)) => {
            drop(receiver);
            drop(takes);
            Ok(Source::Here(job.into_inner()))
        }
        Err(NoMemory) => {
            drop(receiver);
            drop(takes);
            Err(NoMemory)
        }
    }
}
