//! The handles of a world, each under its number.
ghost use Rattle.std.specs.Prelude.{◌≡◌, IfOk, OnErr, OnOk, true, None, Some};
ghost use Rattle.std.specs.Result.{result_err};
ghost use Rattle.gix_odb.specs.CallOrder.{IsOfHash};
ghost use Rattle.gix_odb.specs.HandleState.{hash_of};
ghost use Rattle.gix_odb_world.specs.Valid as reasons;
ghost use Rattle.gix_odb_world.specs.World.{handle_at, stored_at};
ghost use Rattle.gix_odb_world.specs.Table.{PutsHandle, phase_of_handle, with_call, with_frozen, with_ignoring};

use super::Course;
use crate::handle::{BoxedHandle, Handle, HandleAt};
use gix_odb::{CallState, HandleState};
use gix_odb_calls::{Call, Why};
use odb_base::NoMemory;
use std::alloc::Global;

/// A handle at rest: the number of the core of its store, and its state.
#[derive(Clone, Copy)]
pub(super) struct Idle<'a> {
    pub core: usize,
    pub state: &'a HandleState,
}

impl Course {
    /// Puts a new handle under a number.
    pub(super) fn put(&mut self, alloc: Global, number: u32, handle: Handle) -> Result<(), NoMemory>
        ensures puts { OnOk result (PutsHandle self.old self.new number (Some handle)) }
    {
        let boxed = BoxedHandle::new(alloc, handle)?;
        self.put_back(number, boxed)
    }

    /// Puts a handle under a number, from where it was on the heap before.
    fn put_back(&mut self, number: u32, handle: BoxedHandle) -> Result<(), NoMemory>
        ensures puts { OnOk result (PutsHandle self.old self.new number (Some handle)) }
    {
        let old = self.handles.insert(number, handle)?;
        drop(old);
        Ok(())
    }

    pub(super) fn remove(&mut self, number: u32)
        ensures puts { PutsHandle self.old self.new number None }
    {
        let old = self.handles.remove(&number);
        drop(old);
    }

    /// Takes a handle at work out of the table. The error says why the number has none; any other handle stays in place.
    pub(super) fn take_work(&mut self, number: u32) -> Result<BoxedHandle, Why>
        ensures taken { IfOk result (λ handle. stored_at self.old number ≡ Some handle) }
        ensures puts { OnOk result (PutsHandle self.old self.new number None) }
        ensures why { result_err result ≡ reasons.why_not_running (phase_of_handle (handle_at self.old number)) }
        ensures kept { OnErr result (self.new ≡ self.old) }
    {
        if let Some(why) = self.why_not_running(number) {
            return Err(why);
        }
        match self.handles.remove(&number) {
            None => Err(Why::NoHandle),
            Some(handle) => Ok(handle),
        }
    }

    /// Puts a handle, if there is one, under a number that has none.
    pub(super) fn set(&mut self, number: u32, handle: Option<BoxedHandle>) -> Result<(), NoMemory>
        requires free { stored_at self.old number ≡ None }
        ensures puts { OnOk result (PutsHandle self.old self.new number handle) }
    {
        match handle {
            Some(handle) => self.put_back(number, handle),
            None => Ok(()),
        }
    }

    /// Begins a call on a handle.
    pub(super) fn set_call(&mut self, number: u32, call: CallState)
        ensures puts { PutsHandle self.old self.new number (with_call call (stored_at self.old number)) }
    {
        match self.handles.get_mut(&number) {
            Some(handle) => handle.begin(call),
            None => drop(call),
        }
    }

    pub(super) fn set_frozen(&mut self, number: u32)
        ensures puts { PutsHandle self.old self.new number (with_frozen (stored_at self.old number)) }
    {
        if let Some(handle) = self.handles.get_mut(&number) {
            handle.freeze();
        }
    }

    pub(super) fn set_ignoring(&mut self, number: u32)
        ensures puts { PutsHandle self.old self.new number (with_ignoring (stored_at self.old number)) }
    {
        if let Some(handle) = self.handles.get_mut(&number) {
            handle.ignore();
        }
    }

    /// Returns why a number isn't free.
    pub(super) fn why_not_free(&self, number: u32) -> Option<Why>
        ensures why { result ≡ reasons.why_not_open (phase_of_handle (handle_at self.now number)) true }
    {
        match self.handles.get(&number) {
            None => None,
            Some(_) => Some(Why::HandleTaken),
        }
    }

    /// Returns why a clone isn't valid.
    pub(super) fn why_not_clone(&self, number: u32, from: u32) -> Option<Why>
        ensures why { result ≡ reasons.why_not_clone (phase_of_handle (handle_at self.now number)) (phase_of_handle (handle_at self.now from)) }
    {
        match self.handles.get(&number) {
            None => self.why_not_idle(from),
            Some(_) => Some(Why::HandleTaken),
        }
    }

    /// Returns the handle that has a number, if it is idle. The error says why it isn't.
    pub(super) fn idle(&self, number: u32) -> Result<Idle<'_>, Why>
        ensures handle { IfOk result (λ idle. stored_at self.now number ≡ Some (record { core = idle.core; at = HandleAt.Resting idle.state.now })) }
        ensures why { result_err result ≡ reasons.why_not_idle (phase_of_handle (handle_at self.now number)) }
    {
        match self.handles.get(&number) {
            None => Err(Why::NoHandle),
            Some(handle) => {
                let handle = handle.get();
                match &handle.at {
                    HandleAt::Resting(state) => Ok(Idle {
                        core: handle.core,
                        state,
                    }),
                    HandleAt::Opening(_) | HandleAt::Calling(_) => Err(Why::Busy),
                }
            }
        }
    }

    /// Returns the handle that has a number, if a call may start on it: it is idle, and the call's ids have its hash.
    pub(super) fn ready(&self, number: u32, call: &Call) -> Result<Idle<'_>, Why>
        ensures handle { IfOk result (λ idle. stored_at self.now number ≡ Some (record { core = idle.core; at = HandleAt.Resting idle.state.now })) }
        ensures of_hash { IfOk result (λ idle. IsOfHash (hash_of idle.state.now) call.now) }
        ensures why { result_err result ≡ reasons.why_not_start (phase_of_handle (handle_at self.now number)) call.now }
    {
        let idle = self.idle(number)?;
        if call.is_of_hash(idle.state.parts().object_hash) {
            Ok(idle)
        } else {
            Err(Why::WrongHash)
        }
    }

    /// Returns why the start of a call isn't valid.
    pub(super) fn why_not_start(&self, number: u32, call: &Call) -> Option<Why>
        ensures why { result ≡ reasons.why_not_start (phase_of_handle (handle_at self.now number)) call.now }
    {
        self.ready(number, call).err()
    }

    /// Returns why a step that needs an idle handle isn't valid.
    pub(super) fn why_not_idle(&self, number: u32) -> Option<Why>
        ensures why { result ≡ reasons.why_not_idle (phase_of_handle (handle_at self.now number)) }
    {
        self.idle(number).err()
    }

    /// Returns why a turn isn't valid.
    pub(super) fn why_not_running(&self, number: u32) -> Option<Why>
        ensures why { result ≡ reasons.why_not_running (phase_of_handle (handle_at self.now number)) }
    {
        match self.handles.get(&number) {
            None => Some(Why::NoHandle),
            Some(handle) => match handle.get().at {
                HandleAt::Resting(_) => Some(Why::NotRunning),
                HandleAt::Opening(_) | HandleAt::Calling(_) => None,
            },
        }
    }
}
