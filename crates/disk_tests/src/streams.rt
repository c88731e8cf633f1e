//! What streams of a disk in memory give, and the numbers that they have.
use crate::memory::check_anew;
use std::test::Fail;

// Catches a stream that sees later changes or forgets its order, an entry that is given twice or lost by a failed
// call, a number that isn't the least free one, and a close that is counted.
const ROWS: &str = "\
    make /a 3|done\n\
    make /a/b 3|done\n\
    put /a/b/c 7 hi|done\n\
    put /a/b.x 7 hi|done\n\
    put /a/b0 7 hi|done\n\
    link /l /a|done\n\
    put /f 7 hi|done\n\
    open /f|WrongKind\n\
    open /x|Absent\n\
    open /f/x|WrongKind\n\
    open /l|0\n\
    open /|1\n\
    open /a/b|2\n\
    next 0|b Dir 3\n\
    take /a/b0|done\n\
    put /a/z 7 hi|done\n\
    next 0|b.x File 5\n\
    next 1|a Dir 2\n\
    close 1|done\n\
    next 1|Absent\n\
    close 1|done\n\
    open /a/b|1\n\
    next 2|c File 4\n\
    next 1|c File 4\n\
    next 0|Failed\n\
    next 0|b0 File 6\n\
    next 0|end\n\
    next 0|end\n\
    next 7|Absent\n\
    close 0|done\n\
    open /a|0\n\
    next 0|b Dir 3\n\
    counts|20 1";

// Catches a directory made by a call that gives another name than the last, is removed with its contents, or stays
// open for nothing.
const MADE_BY_CALLS: &str = "\
    mkdir /d|done\n\
    new /d/f|done\n\
    append /d/f a|done\n\
    rename /d/f /d/g|done\n\
    open /d|0\n\
    next 0|g File 3\n\
    next 0|end\n\
    remove /d|NotEmpty\n\
    read /d/g|a 0\n\
    remove /d/g|done\n\
    remove /d|done\n\
    next 0|end\n\
    close 0|done\n\
    open /d|Absent";

// Catches a file that is taken for a directory.
const AT_A_FILE: &str = "\
    put /a 7 hi|done\n\
    read /a|hi 7\n\
    open /a|WrongKind\n\
    follow /a/b|WrongKind\n\
    mkdir /a|Exists\n\
    remove /x|Absent";

// Catches a call of streams as a value that is another call, reports another number, or is counted when it closes.
const VALUES: &str = "\
    make /a 3|done\n\
    put /a/f 7 hi|done\n\
    value open /x|OpenDir Absent\n\
    value open /a|OpenDir 0\n\
    value open /|OpenDir 1\n\
    value next 0|NextEntry f File 3\n\
    value next 0|NextEntry end\n\
    value next 5|NextEntry Absent\n\
    value close 0|CloseDir done\n\
    value next 1|NextEntry Failed\n\
    value next 0|NextEntry Absent\n\
    value open /a|OpenDir 0\n\
    next 1|a Dir 2\n\
    counts|10 1";

// Catches what the lines above the tables say.
#[test]
fn streams(rt: HostRuntime) -> Result<(), Fail> {
    check_anew(rt.alloc(), &[14], ROWS)?;
    check_anew(rt.alloc(), &[], MADE_BY_CALLS)?;
    check_anew(rt.alloc(), &[7], VALUES)?;
    check_anew(rt.alloc(), &[], AT_A_FILE)
}
