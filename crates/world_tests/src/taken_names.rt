//! A write that finds all temporary names taken, and what it leaves on the disk.
use crate::played::{check_row, told, tree_shown};
use gix_odb_world::World;
use odb_mem_disk::MemDisk;
use std::alloc::Global;
use std::test::Fail;
use test_words::compare;

/// Takes all temporary names.
fn take_names(alloc: Global, world: &mut World) -> Result<(), Fail> {
    told(alloc, world, "do mkdir /o")?;
    for number in 0..16_u8 {
        let step = format!(in alloc; "do put /o/tmp_obj_{number} 1 78")?;
        told(alloc, world, step.as_str())?;
    }
    Ok(())
}

/// The disk after steps where all temporary names are taken. The outcomes of the steps are compared.
fn disk_after(alloc: Global, row: &str) -> Result<MemDisk, Fail> {
    let mut world = World::new(alloc, MemDisk::new(alloc)?);
    take_names(alloc, &mut world)?;
    check_row(alloc, &mut world, row)?;
    Ok(world.finish(alloc)?.disk)
}

/// Its tree, where so many calls of it were made.
fn tree_after(alloc: Global, row: &str, calls: u64) -> Result<String, Fail> {
    let disk = disk_after(alloc, row)?;
    if disk.calls() != calls {
        return Err(Fail::new(format_args!("{row}: other calls than {calls}")));
    }
    tree_shown(alloc, &disk)
}

// A seventeenth name, one of the others' files that is written or removed, or anything else that changes.
#[test]
fn leaves_all_names_that_are_taken(rt: HostRuntime) -> Result<(), Fail> {
    let before = tree_after(rt.alloc(), "open 0 /o slots=32|", 0)?;
    let row = "open 0 /o slots=32; finish 0; write 0 blob -; finish 0|\
        2: 32 slots; 19: could not create named temp file in /o";
    let after = tree_after(rt.alloc(), row, 18)?;
    compare("the tree", after.as_str(), before.as_str())
}
