//! Names for what threads share, and for what one of them at a time changes.
ghost use Rattle.std.specs.Prelude.{◌≡◌, ◌⊎◌, IfOk};
ghost use Rattle.std.specs.Arc.{arc_value, arc_follows_make_mut};
ghost use Rattle.std.specs.Borrow.{sem};
ghost use Rattle.std.specs.contracts.alloc.Global.{the_row};
ghost use Rattle.std.specs.Fn.{FnOnceReturnsAt};
ghost use Rattle.std.specs.Sync.RwLock.{read_guard_value};

use odb_mem_disk::NoMemory;
pub use once_cell::race::OnceBox;
use std::alloc::{Allocator, Global};
pub use std::sync::OnceLock;
use std::sync::{Arc, Mutex, MutexGuard, RwLock, RwLockReadGuard, RwLockWriteGuard, Wait};

/// A value that several owners share.
pub type OwnShared<T> = Arc<T, Global>;

/// A value that many read, or one changes.
pub type MutableOnDemand<T> = RwLock<T>;

/// A value that one at a time reads or changes.
pub type Mutable<T> = Mutex<T>;

/// Holds a value for reading.
pub type RefGuard<'a, T> = RwLockReadGuard<'a, T>;

/// Holds a value of which a part is read, by `with_ref`.
pub type MappedRefGuard<'a, T> = RwLockReadGuard<'a, T>;

/// Holds a value for reading, as soon as no one changes it.
pub fn get_ref<'a, T, R: Wait>(rt: &R, value: &'a MutableOnDemand<T>) -> RefGuard<'a, T> {
    value.read(rt)
}

/// Holds a value for changes, as soon as no one else holds it.
pub fn get_mut<'a, T, R: Wait>(rt: &R, value: &'a MutableOnDemand<T>) -> RwLockWriteGuard<'a, T> {
    value.write(rt)
}

/// The value of an owner, to change. If it has other owners, this one gets a copy of it first, in memory of the
/// allocator that made it.
pub fn make_mut<T: Clone>(this: &mut OwnShared<T>) -> Result<&mut T, NoMemory>
    ensures* writes_back { sem 𝓛 (arc_follows_make_mut T.row the_row ⟦<Global as Allocator>⟧ T.is_clone
        this.entry result) }
    ensures value { IfOk result (λ x. (x.now ≡ arc_value this.old) ⊎ T.is_clone (arc_value this.old) x.now) }
{
    Ok(Arc::make_mut(this)?)
}

/// Holds a value, as soon as no one else holds it.
pub fn lock<'a, T, R: Wait>(rt: &R, value: &'a Mutable<T>) -> MutexGuard<'a, T> {
    value.lock(rt)
}

/// Ends a change, and holds the value for reading. Another one may change it in between.
pub fn downgrade_mut_to_ref<'a, T, R: Wait>(
    rt: &R,
    guard: RwLockWriteGuard<'a, T>,
    value: &'a MutableOnDemand<T>,
) -> RefGuard<'a, T> {
    drop(guard);
    value.read(rt)
}

/// The result of a function on the value that is held.
pub fn with_ref<T, U, F: FnOnce(&T) -> U>(guard: &MappedRefGuard<'_, T>, f: F) -> U
    requires { (x : _) → x.now ≡ read_guard_value guard.now → F.pre f x }
    ensures { FnOnceReturnsAt F.FnOnce f (read_guard_value guard.now) result }
{
    f(guard)
}
