//! A task that is done on a thread of its own. It comes back if no thread can be started.
ghost use Rattle.std.specs.Prelude.{◌≡◌, [], true, IfOk, IfErr};
ghost use Rattle.crossbeam_channel.specs.Ends.{sends_on, receives_on};
ghost use Rattle.crossbeam_channel.specs.Claims.{view, IsSeatAt};
ghost use Rattle.gix_features_channel.specs.Ends.{hand};

use crate::ends::{Hand, InOrder, Law, Roles, Sends, Takes};
use crossbeam_channel::{Pass, RuledReceiver, RuledSender, SendError, bounded_with};
use odb_base::NoMemory;
use std::alloc::Global;
use std::sync::Wait;
use std::thread;
use std::thread::{JoinHandle, Threads};

/// What a thread can do.
pub trait Task: Drop {
    ghost can_begin: { Self → Type 0 };

    fn run<H: Wait>(self, rt: &H)
        requires { can_begin self };
}

/// Only what can begin is passed on.
pub struct Ready;

impl<K: Task> Law<K> for Ready {
    ghost use Rattle.std.specs.Prelude.{All};

    ghost keeps = { λ tasks. All K.can_begin tasks };
}

type TaskSender<K> = RuledSender<K, Hand<K>, InOrder<Ready>>;

type TaskReceiver<K> = RuledReceiver<K, Hand<K>, InOrder<Ready>>;

type TaskPass<K> = Pass<K, Hand<K>>;

/// Does a task on a thread of its own, which awaits it. Returns the task if no thread can be started.
pub(crate) fn run_elsewhere<K, H>(
    rt: H,
    alloc: Global,
    task: K,
) -> Result<Result<JoinHandle<()>, K>, NoMemory>
where
    K: Task + Send + Drop + 'static,
    H: Threads + Wait + Copy + Send + 'static,
    requires can { K.can_begin task }
    ensures same { IfOk result (λ r. IfErr r (λ back. back ≡ task)) }
{
    let (to, tasks, mut pass) = match task_channel(alloc) {
        Ok(ends) => ends,
        Err(NoMemory) => {
            drop(task);
            return Err(NoMemory);
        }
    };
    let theirs = to.another::<Roles>(&mut pass);
    let await_task = move ||
        requires { IsSeatAt (receives_on tasks) theirs × ((view theirs).takes ≡ true) × ((view theirs).taken ≡ []) }
    { work(&rt, tasks, theirs) };
    match thread::spawn(&rt, await_task) {
        Ok(handle) => Ok(hand_over(&rt, to, pass, handle, task)),
        Err(refused) => {
            drop(refused);
            drop(to);
            drop(pass);
            Ok(Err(task))
        }
    }
}

/// Sends a task to the thread that awaits it. If the thread is gone, joins it and returns the task.
fn hand_over<K, H>(
    rt: &H,
    to: TaskSender<K>,
    mut pass: TaskPass<K>,
    handle: JoinHandle<()>,
    task: K,
) -> Result<JoinHandle<()>, K>
where
    K: Task + Drop,
    H: Threads + Wait,
    requires can { K.can_begin task }
    requires seated { IsSeatAt (sends_on to) pass }
    requires sends { (view pass).sends ≡ true }
    ensures same { IfErr result (λ back. back ≡ task) }
{
    let sent = to.send_as::<Sends, H>(rt, &mut pass, task);
    drop(pass);
    match sent {
        Ok(()) => {
            drop(to);
            Ok(handle)
        }
        Err(SendError::Disconnected(task)) => Err(join_first(rt, to, handle, task)),
        Err(SendError::OutOfMemory(task)) => Err(join_first(rt, to, handle, task)),
    }
}

/// Joins a thread that got no task.
fn join_first<K: Task, H: Threads>(rt: &H, to: TaskSender<K>, handle: JoinHandle<()>, task: K) -> K
    ensures same { result ≡ task }
{
    drop(to);
    handle.join(rt);
    task
}

/// A channel for one task, and the pass of an end that sends and takes it.
fn task_channel<K: Task>(
    alloc: Global,
) -> Result<(TaskSender<K>, TaskReceiver<K>, TaskPass<K>), NoMemory>
    ensures ends { IfOk result (λ r. (receives_on r.1 ≡ sends_on r.0) × IsSeatAt (sends_on r.0) r.2 × (view r.2 ≡ hand true true [] [])) }
{
    Ok(bounded_with(alloc, 1)?)
}

/// Awaits a task, and does it. There is none if the sender is gone.
fn work<K: Task, H: Wait>(rt: &H, tasks: TaskReceiver<K>, mut pass: TaskPass<K>)
    requires seated { IsSeatAt (receives_on tasks) pass }
    requires takes { (view pass).takes ≡ true }
    requires none { (view pass).taken ≡ [] }
{
    if let Ok(task) = tasks.recv_as::<Takes<Ready>, H>(rt, &mut pass) {
        drop(tasks);
        task.run(rt);
    }
}
