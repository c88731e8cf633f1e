//! The steps of a world, and their outcomes.
ghost use Rattle.std.specs.Prelude.{◌≡◌, IfOk};

use crate::call::{Call, Reply};
use crate::init::{IdPairs, Options, PathList, copy_of_pairs, copy_of_paths};
use odb_base::{NoMemory, PathText, Shared};
use odb_disk::Change;
use std::alloc::Global;

/// A step of a world.
#[derive(Drop)]
pub enum Step {
    /// Begins the opening of a store under a free handle number.
    Open {
        handle: u32,
        /// The objects directory, which is the first folder of the store.
        path: PathText,
        /// The alternates: the other folders, in the order in which they are searched, at most 255.
        folders: PathList,
        /// The hash of the store's ids.
        hash: gix_hash::Kind,
        /// Each id with its replacement, which is sought instead.
        replacements: IdPairs,
        options: Options,
    },
    /// Opens another handle on the store of an idle one, in the same modes, under a free handle number.
    Clone {
        handle: u32,
        from: u32,
    },
    /// Closes an idle handle; its number is then free.
    Close {
        handle: u32,
    },
    /// From now on an idle handle answers from the list of its store's core as it is: its look-ups list the folders only where
    /// that list was never read.
    Never {
        handle: u32,
    },
    /// From now on an idle handle seeks each id itself, and not its replacement.
    Ignore {
        handle: u32,
    },
    /// Begins a call on an idle handle.
    Start {
        handle: u32,
        call: Call,
    },
    /// Lets a handle that runs a call, or is opening, make one call of the disk or one event of the core of its store.
    Turn {
        handle: u32,
    },
    /// Makes a change as another program.
    Disk(Change),
}

impl Step {
    /// A copy of the step.
    pub fn try_clone(&self, alloc: Global) -> Result<Step, NoMemory>
        ensures copied { IfOk result (λ copy. copy ≡ self.now) }
    {
        match self {
            Step::Open {
                handle,
                path,
                folders,
                hash,
                replacements,
                options,
            } => opening_copy(alloc, *handle, path, folders, *hash, replacements, *options),
            Step::Clone { handle, from } => Ok(Step::Clone {
                handle: *handle,
                from: *from,
            }),
            Step::Close { handle } => Ok(Step::Close { handle: *handle }),
            Step::Never { handle } => Ok(Step::Never { handle: *handle }),
            Step::Ignore { handle } => Ok(Step::Ignore { handle: *handle }),
            Step::Start { handle, call } => Ok(Step::Start {
                handle: *handle,
                call: call.try_clone(alloc)?,
            }),
            Step::Turn { handle } => Ok(Step::Turn { handle: *handle }),
            Step::Disk(change) => Ok(Step::Disk(change.try_clone(alloc)?)),
        }
    }
}

fn opening_copy(
    alloc: Global,
    handle: u32,
    path: &PathText,
    folders: &PathList,
    hash: gix_hash::Kind,
    replacements: &IdPairs,
    options: Options,
) -> Result<Step, NoMemory>
    ensures copied { IfOk result (λ copy. copy ≡ Step.Open handle path.now folders.now hash replacements.now options) }
{
    Ok(Step::Open {
        handle,
        path: path.try_clone(alloc)?,
        folders: copy_of_paths(alloc, folders)?,
        hash,
        replacements: copy_of_pairs(alloc, replacements)?,
        options,
    })
}

/// The outcome of a step.
#[derive(Drop)]
pub enum Outcome {
    Applied,
    /// The call goes on.
    Pending,
    /// The call is over. Its reply is on the heap, since most steps have none, and copies of the outcome share it.
    Reply(Shared<Reply>),
    /// The step wasn't valid, and changed nothing.
    Misuse(Why),
}

impl Outcome {
    /// A copy of the outcome, which shares its reply. It allocates no memory, and fails if there are too many copies.
    pub fn try_clone(&self) -> Result<Outcome, NoMemory>
        ensures copied { IfOk result (λ copy. copy ≡ self.now) }
    {
        match self {
            Outcome::Applied => Ok(Outcome::Applied),
            Outcome::Pending => Ok(Outcome::Pending),
            Outcome::Reply(reply) => Ok(Outcome::Reply(reply.try_clone()?)),
            Outcome::Misuse(why) => Ok(Outcome::Misuse(*why)),
        }
    }
}

/// The first reason why a step isn't valid.
#[derive(Clone, Copy, Debug)]
pub enum Why {
    /// The handle number isn't free.
    HandleTaken,
    /// A folder is named twice or is the objects directory, an id is replaced twice, an id is of another hash than
    /// the store, there are more than 255 alternates, or a call may tolerate more than 1,000,000 changes.
    BadOpen,
    /// No handle has the number.
    NoHandle,
    /// The handle runs no call.
    NotRunning,
    /// The handle runs a call.
    Busy,
    /// The id of the call is of another hash than the store.
    WrongHash,
    /// The change is impossible in the tree.
    ImpossibleChange,
    /// A path of an index or of a pack would show a second content, or a multi-pack index one at the same time.
    TwoContents,
}
