//! A handle: an open store, or one that is opening, and what the handle is at.
ghost use Rattle.std.specs.Prelude.{◌≡◌, IfOk, Some};
ghost use Rattle.std.specs.Option.{option_map};
ghost use Rattle.gix_odb_world.specs.Handle.{seen};
ghost use Rattle.gix_odb_world.specs.Table.{ask_by_handle, calling_handle, frozen_handle, ignoring_handle, opened_by};

use gix_odb::{CallState, HandleState, OpenState};
use gix_odb_events::Ask;
use odb_base::NoMemory;
use odb_mem_disk::PathText;
use std::alloc::Global;
use std::marker::Model;
use std::mem::replace;

/// A handle of a world.
#[derive(Drop)]
pub struct Handle {
    /// The number of the core of its store, among those of the world. It is 0 while the store is opening.
    pub core: usize,
    pub at: HandleAt,
}

/// A handle on the heap, which contracts see as the handle. So a table of handles moves one word where a turn takes its
/// handle out and puts it back.
#[derive(Drop)]
pub struct BoxedHandle {
    owner: Box<Handle>,
}

impl Model for BoxedHandle {
    ghost use Rattle.gix_odb_world.specs.declared.handle.Handle.{Handle};
    ghost use Rattle.gix_odb_world.specs.contracts.handle.Handle as handle_type;

    ghost Value = { Handle };

    ghost coded = { handle_type.the_row.coded };

    ghost view = { λ handle. handle.owner.value };
}

/// What a handle is at.
#[derive(Drop)]
pub enum HandleAt {
    Opening(OpenState),
    Resting(HandleState),
    Calling(CallState),
}

impl Handle {
    /// Returns what its work asks for next: a call of the disk, an event of the core of its store, or a core that is to be
    /// made for it; `None` where the work is done, or the handle is at rest.
    pub fn ask(&self, alloc: Global) -> Result<Option<Ask>, NoMemory>
        ensures asked { IfOk result (λ ask. ask ≡ ask_by_handle (Some (seen self.now))) }
    {
        match &self.at {
            HandleAt::Opening(opening) => opening.next_ask(alloc),
            HandleAt::Resting(_) => Ok(None),
            HandleAt::Calling(call) => call.next_ask(alloc),
        }
    }

    /// Returns the directory of the open stream that its next call of the disk reads, where it reads one.
    pub fn opened(&self) -> Option<&PathText>
        ensures opened { option_map (λ path. path.now) result ≡ opened_by (seen self.now).work }
    {
        match &self.at {
            HandleAt::Opening(opening) => opening.opened(),
            HandleAt::Resting(_) => None,
            HandleAt::Calling(call) => call.opened(),
        }
    }

    /// Makes a handle at rest answer from the list of its store as it is from now on.
    pub fn freeze(&mut self)
        ensures frozen { self.new ≡ frozen_handle self.old }
    {
        if let HandleAt::Resting(state) = &mut self.at {
            state.refresh.never();
        }
    }

    /// Makes a handle at rest ignore replacements from now on.
    pub fn ignore(&mut self)
        ensures ignoring { self.new ≡ ignoring_handle self.old }
    {
        if let HandleAt::Resting(state) = &mut self.at {
            state.ignore_replacements = true;
        }
    }
    /// Begins a call.
    pub fn begin(&mut self, call: CallState)
        ensures calling { self.new ≡ calling_handle call self.old }
    {
        drop(replace(&mut self.at, HandleAt::Calling(call)));
    }
}

impl BoxedHandle {
    /// Moves a handle to the heap.
    pub fn new(alloc: Global, handle: Handle) -> Result<BoxedHandle, NoMemory>
        ensures value { IfOk result (λ boxed. boxed ≡ handle) }
    {
        let owner = Box::new(alloc, handle)?;
        Ok(BoxedHandle { owner })
    }

    /// Returns the handle, which is lent.
    pub fn get(&self) -> &Handle
        ensures value { result.now ≡ self.now }
    {
        &self.owner
    }

    /// Returns the handle itself.
    pub fn into_inner(self) -> Handle
        ensures value { result ≡ self }
    {
        Box::into_inner(self.owner)
    }

    /// Begins a call, in place.
    pub fn begin(&mut self, call: CallState)
        ensures calling { self.new ≡ calling_handle call self.old }
    {
        self.owner.begin(call);
    }

    /// Makes a handle at rest answer from the list of its store as it is from now on.
    pub fn freeze(&mut self)
        ensures frozen { self.new ≡ frozen_handle self.old }
    {
        self.owner.freeze();
    }

    /// Makes a handle at rest ignore replacements from now on.
    pub fn ignore(&mut self)
        ensures ignoring { self.new ≡ ignoring_handle self.old }
    {
        self.owner.ignore();
    }
}
