//! The registered handles of a core.
ghost use Rattle.std.specs.Prelude.{◌≡◌, ◌+◌, ◌^◌, ◌<◌, [], OnOk, OnErr, is_some, length, if◌then◌else◌};
ghost use Rattle.gix_odb_core.specs.Handles.{is_any_stable, registered, stable_at, with_seat, without_seat};

use odb_base::NoMemory;
use std::alloc::Global;
use std::collections::BTreeMap;
use std::marker::Model;

/// The registered handles by their seats, each with whether it is stable.
#[derive(Drop)]
pub struct HandleTable {
    seats: BTreeMap<u32, bool>,
    /// How many of them are stable, so that no publish iterates over the handles.
    stable: usize,
}

impl Model for HandleTable {
    ghost use Rattle.std.specs.Prelude.{◌≡◌, Bool, List, ℕ};

    ghost Value = { List (ℕ × Bool) };

    ghost use Rattle.gix_odb_core.specs.Handles.{stable_count};

    ghost view = { λ table. table.seats.entries };

    ghost invariant = { λ table. table.stable ≡ stable_count table.seats.entries };
}

/// How many stable handles there are at a seat with this registration.
fn stable_at(handle: Option<bool>) -> usize
    ensures count { result ≡ stable_at handle }
{
    match handle {
        Some(true) => 1,
        _ => 0,
    }
}

impl HandleTable {
    /// No handle.
    pub(crate) fn new(alloc: Global) -> HandleTable
        ensures empty { result ≡ [] }
    {
        HandleTable {
            seats: BTreeMap::new(alloc),
            stable: 0,
        }
    }

    /// How many handles are registered.
    pub(crate) fn len(&self) -> usize
        ensures len { result ≡ length self.now }
        ensures small { result < 2 ^ 63 }
    {
        self.seats.len()
    }

    /// Whether a handle is stable, if it is registered.
    pub(crate) fn get(&self, seat: u32) -> Option<bool>
        ensures stable { result ≡ registered self.now seat }
    {
        self.seats.get(&seat).copied()
    }

    /// Registers a handle, or makes one stable.
    pub(crate) fn set(&mut self, seat: u32, stable: bool) -> Result<(), NoMemory>
        ensures set { OnOk result (self.new ≡ with_seat self.old seat stable) }
        ensures len { OnOk result (length self.new ≡ length self.old + (if is_some (registered self.old seat) then 0 else 1)) }
        ensures kept { OnErr result (self.new ≡ self.old) }
    {
        // There are no more stable handles than handles, so the count stays small.
        let handles = self.seats.len();
        prove!(self.stable <= handles);
        let before = self.seats.insert(seat, stable)?;
        self.stable -= stable_at(before);
        self.stable += stable_at(Some(stable));
        Ok(())
    }

    /// Removes a handle.
    pub(crate) fn remove(&mut self, seat: u32)
        ensures removed { self.new ≡ without_seat self.old seat }
        ensures len { length self.new + (if is_some (registered self.old seat) then 1 else 0) ≡ length self.old }
    {
        let removed = self.seats.remove(&seat);
        self.stable -= stable_at(removed);
    }

    /// Whether any handle is stable.
    pub(crate) fn is_any_stable(&self) -> bool
        ensures stable { result ≡ is_any_stable self.now }
    {
        self.stable > 0
    }
}
