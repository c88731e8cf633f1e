//! The names of `threading`.
ghost use Rattle.std.specs.Prelude.{◌≡◌, OnOk};
ghost use Rattle.std.specs.Arc.{arc_value};

use gix_features_parts::threading::{
    Mutable, MutableOnDemand, OnceBox, OnceLock, OwnShared, downgrade_mut_to_ref, get_mut, get_ref,
    lock, make_mut, with_ref,
};
use odb_mem_disk::NoMemory;
use std::alloc::{AllocError, Global};
use std::sync::Wait;
use std::test::Fail;

/// Whether a change is there after the guard that made it.
fn is_changed<R: Wait>(rt: &R) -> bool {
    let value: MutableOnDemand<u8> = MutableOnDemand::new(1);
    let before = *get_ref(rt, &value);
    let mut guard = get_mut(rt, &value);
    *guard = 2;
    let guard = downgrade_mut_to_ref(rt, guard, &value);
    let after = with_ref(&guard, |x| *x / 2);
    before == 1 && after == 1
}

/// Whether a change is there after a lock's guard.
fn is_held<R: Wait>(rt: &R) -> bool {
    let value: Mutable<u8> = Mutable::new(1);
    *lock(rt, &value) = 3;
    let held = *lock(rt, &value);
    held == 3
}

// Catches a change that is lost between two guards.
#[test]
fn guards(rt: HostRuntime) {
    let is_right = is_changed(&rt) && is_held(&rt);
    assert!(rt; is_right);
}

/// Gives an owner another value.
fn put(owner: &mut OwnShared<u8>, value: u8) -> Result<(), NoMemory>
    ensures { OnOk result (arc_value owner.new ≡ value) }
{
    *make_mut(owner)? = value;
    Ok(())
}

/// The values of two owners of one value, after one was given another.
fn values(alloc: Global) -> Result<(u8, u8), Fail> {
    let mut one: OwnShared<u8> = OwnShared::new(alloc, 1)?;
    let other = OwnShared::try_clone(&one)?;
    let put = put(&mut one, 2);
    let values = (*one, *other);
    drop(one);
    drop(other);
    put?;
    Ok(values)
}

// Catches an owner whose change is seen by another one.
#[test]
fn owners(rt: HostRuntime) -> Result<(), Fail> {
    let (changed, kept) = values(rt.alloc())?;
    assert!(rt; changed == 2 && kept == 1);
    Ok(())
}

/// Whether a cell that waits takes one value, and keeps it.
fn keeps_first<R: Wait>(rt: &R) -> bool {
    let cell: OnceLock<u8> = OnceLock::new();
    let first = cell.set(rt, 1).is_ok();
    let second = cell.set(rt, 2).is_ok();
    first && !second && cell.get().copied() == Some(1)
}

/// Whether a cell takes a value in a box.
fn is_set(alloc: Global, cell: &OnceBox<u8>, value: u8) -> Result<bool, AllocError> {
    let value = Box::new(alloc, value)?;
    Ok(cell.set(value).is_ok())
}

/// Whether a cell that doesn't wait takes one value, and keeps it.
fn keeps_first_box(alloc: Global) -> Result<bool, AllocError> {
    let cell: OnceBox<u8> = OnceBox::new(alloc);
    let first = is_set(alloc, &cell, 3);
    let second = is_set(alloc, &cell, 4);
    let kept = cell.get().copied();
    drop(cell);
    Ok(first? && !second? && kept == Some(3))
}

// Catches a cell that is set twice, and one that forgets its value.
#[test]
fn cells(rt: HostRuntime) -> Result<(), Fail> {
    let keeps = keeps_first_box(rt.alloc())? && keeps_first(&rt);
    assert!(rt; keeps);
    Ok(())
}
