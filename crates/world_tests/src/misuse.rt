//! Steps that aren't valid, of which `is_valid` gives the reason beforehand.
use crate::played::{check_each, check_run};
use std::alloc::Global;
use std::test::Fail;

// A reason that `is_valid` gives for none, for another, or for a valid step.
const MISUSES: &str = "\
    do mkdir /o; turn 0; close 0|misuse NoHandle; misuse NoHandle\n\
    open 0 /o slots=4; open 0 /o slots=4; clone 0 1; clone 1 0|misuse HandleTaken; misuse HandleTaken; misuse Busy\n\
    turn 0; turn 0; turn 0|pending; 4 slots; misuse NotRunning\n\
    find 0 8aec4e4876f854f688d0ebfc8f37598f38e5fd6903cccc850ca36591175aeb60|misuse WrongHash\n\
    write 0 blob -; ignore 0; finish 0; ignore 0|misuse Busy; 7: wrote e69de29bb2d1d6434b8b29ae775ad8c2e48c5391\n\
    open 1 /o slots=4 folder=/o|misuse BadOpen\n\
    do remove /x; do mkdir /o/pack; do put /o/pack/a.idx 1 00; do put /o/pack/a.idx 1 01|\
    misuse ImpossibleChange; misuse TwoContents\n\
    clone 1 0; close 0; find 0 e69de29bb2d1d6434b8b29ae775ad8c2e48c5391|misuse NoHandle";

#[test]
fn tells_misuse_beforehand(rt: HostRuntime) -> Result<(), Fail> {
    check_run(rt.alloc(), MISUSES)?;
    Ok(())
}

/// A row that opens a store with so many alternates.
fn folders_row(alloc: Global, count: u16, want: &str) -> Result<String, Fail> {
    let mut row = "open 0 /o".to_string(alloc)?;
    for number in 0..count {
        row = format!(in alloc; "{row} folder=/{number}")?;
    }
    Ok(format!(in alloc; "{row}|{want}")?)
}

// One folder too many, or too few.
#[test]
fn takes_255_folders(rt: HostRuntime) -> Result<(), Fail> {
    for (count, want) in [(255_u16, ""), (256, "misuse BadOpen")] {
        let row = folders_row(rt.alloc(), count, want)?;
        check_each(rt.alloc(), "do mkdir /o", row.as_str())?;
    }
    Ok(())
}
