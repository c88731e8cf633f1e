//! Which paths lead where in a small tree with links, and what each call and each change that writes leaves there.
use crate::memory::check_each;
use std::test::Fail;

/// The folder `/o`, the file `/o/f`, links to both, to nowhere and to itself, an empty folder `/e` and a link
/// to it.
const MADE: &str = "\
    make /o 3|done\n\
    put /o/f 7 hi|done\n\
    link /d /o|done\n\
    link /o/l /d/f|done\n\
    link /n /x|done\n\
    link /s /s|done\n\
    make /e 3|done\n\
    link /o/d /e|done";

// Catches a link that isn't followed on the way or in the last place, and a walk along links with no end.
const LINKS: &str = "\
    look /d|Link 0 4 0 0\n\
    follow /d|Dir 3 2 0 0\n\
    look /d/f|File 3 3 2 7\n\
    look /d/l|Link 3 5 0 0\n\
    follow /d/l|File 3 3 2 7\n\
    follow /d/l/x|WrongKind\n\
    follow /n|Absent\n\
    look /n|Link 0 6 0 0\n\
    follow /s|LinkLoop\n\
    look /s/x|LinkLoop";

// Catches a link in the last place that is followed, or one on the way that isn't; a refusal for another one;
// a device or a number that isn't the new directory's.
const DIRECTORIES: &str = "\
    mkdir /p; look /p|done, Dir 0 10 0 0\n\
    mkdir /d/p; look /o/p|done, Dir 3 10 0 0\n\
    mkdir /o/d/p; look /e/p|done, Dir 3 10 0 0\n\
    mkdir /; look /|Exists, Dir 0 1 0 0\n\
    mkdir /o; look /o|Exists, Dir 3 2 0 0\n\
    mkdir /d/f; look /o/f|Exists, File 3 3 2 7\n\
    mkdir /n; look /n|Exists, Link 0 6 0 0\n\
    mkdir /x/p; look /x|Absent, Absent\n\
    mkdir /o/f/p; look /o/f|WrongKind, File 3 3 2 7\n\
    mkdir /o/l/p; look /o/f|WrongKind, File 3 3 2 7\n\
    mkdir /s/p; look /s|LinkLoop, Link 0 7 0 0";

// Catches the same for files, and a file that is made over another node.
const FILES: &str = "\
    new /d/p; look /o/p|done, File 3 10 0 0\n\
    new /; look /|Exists, Dir 0 1 0 0\n\
    new /o/f; look /o/f|Exists, File 3 3 2 7\n\
    new /n; look /x|Exists, Absent\n\
    new /n/p; look /n|Absent, Link 0 6 0 0\n\
    new /o/f/p; look /o/f|WrongKind, File 3 3 2 7\n\
    new /s/p; look /s|LinkLoop, Link 0 7 0 0";

// Catches a link in the last place that isn't followed, a file that loses its bytes, its time or its number.
const APPENDS: &str = "\
    append /o/f abc; look /o/f|done, File 3 3 5 7\n\
    append /d/l abc; look /o/f|done, File 3 3 5 7\n\
    append / abc; look /|WrongKind, Dir 0 1 0 0\n\
    append /d abc; look /o|WrongKind, Dir 3 2 0 0\n\
    append /n abc; look /x|Absent, Absent\n\
    append /o/f/x abc; look /o/f|WrongKind, File 3 3 2 7\n\
    append /s abc; look /s|LinkLoop, Link 0 7 0 0";

// Catches a link whose target is removed, a directory that is removed with what is in it, and the root.
const REMOVES: &str = "\
    remove /d/f; look /o/f|done, Absent\n\
    remove /d; look /d|done, Absent\n\
    remove /d; look /o|done, Dir 3 2 0 0\n\
    remove /e; look /e|done, Absent\n\
    remove /o; look /o|NotEmpty, Dir 3 2 0 0\n\
    remove /; look /|NotEmpty, Dir 0 1 0 0\n\
    remove /x; look /x|Absent, Absent\n\
    remove /o/f/x; look /o/f|WrongKind, File 3 3 2 7\n\
    remove /s/x; look /s|LinkLoop, Link 0 7 0 0";

// Catches a rename that leaves its source, takes another node's number, follows a link in the last place, or
// moves a directory.
const RENAMES: &str = "\
    rename /o/f /g; look /o/f; look /g|done, Absent, File 3 3 2 7\n\
    rename /d/f /o/d/g; look /d/f; look /e/g|done, Absent, File 3 3 2 7\n\
    rename /o/f /n; look /o/f; look /n|done, Absent, File 3 3 2 7\n\
    rename /n /o/f; look /n; look /o/f|done, Absent, Link 0 6 0 0\n\
    rename /o/f /d/f; look /o/f; look /o/f|done, File 3 3 2 7, File 3 3 2 7\n\
    rename /x /g; look /x; look /g|Absent, Absent, Absent\n\
    rename /o /g; look /o; look /g|WrongKind, Dir 3 2 0 0, Absent\n\
    rename /o/f /e; look /o/f; look /e|WrongKind, File 3 3 2 7, Dir 3 8 0 0\n\
    rename /o/f /; look /o/f; look /|WrongKind, File 3 3 2 7, Dir 0 1 0 0\n\
    rename / /g; look /; look /g|WrongKind, Dir 0 1 0 0, Absent\n\
    rename /o/f /x/g; look /o/f; look /x|Absent, File 3 3 2 7, Absent\n\
    rename /o/f /o/f/g; look /o/f; look /o/f|WrongKind, File 3 3 2 7, File 3 3 2 7\n\
    rename /o/f /s/g; look /o/f; look /s|LinkLoop, File 3 3 2 7, Link 0 7 0 0";

// Catches a directory that is moved without what is below it, into itself or over something.
const MOVES: &str = "\
    move /o /g; look /o; look /g/f|done, Absent, File 3 3 2 7\n\
    move /o /e/g; look /o; look /e/g/l|done, Absent, Link 3 5 0 0\n\
    move /o/f /g; look /o/f; look /g|done, Absent, File 3 3 2 7\n\
    move /o/f /n; look /o/f; look /n|done, Absent, File 3 3 2 7\n\
    move /o/f /o/f; look /o/f; look /o/f|done, File 3 3 2 7, File 3 3 2 7\n\
    move /o /o; look /o; look /o|impossible change, Dir 3 2 0 0, Dir 3 2 0 0\n\
    move /o /o/g; look /o; look /o/g|impossible change, Dir 3 2 0 0, Absent\n\
    move /o /e; look /o; look /e|impossible change, Dir 3 2 0 0, Dir 3 8 0 0\n\
    move /e /o/f; look /e; look /o/f|impossible change, Dir 3 8 0 0, File 3 3 2 7\n\
    move /o/f /e; look /o/f; look /e|impossible change, File 3 3 2 7, Dir 3 8 0 0\n\
    move /o/f /d/g; look /o/f; look /o/g|impossible change, File 3 3 2 7, Absent\n\
    move /x /g; look /x; look /g|impossible change, Absent, Absent\n\
    move / /g; look /; look /g|impossible change, Dir 0 1 0 0, Absent\n\
    move /o/f /; look /o/f; look /|impossible change, File 3 3 2 7, Dir 0 1 0 0";

// Catches a link that takes a new node where one is already or keeps that of a file, a change made through a link,
// and a time set on what is no file.
const PUTS: &str = "\
    link /d /e; look /d; follow /d/d|done, Link 0 4 0 0, Absent\n\
    link /o/f /e; look /o/f|done, Link 3 10 0 0\n\
    put /d 7 hi; look /d|done, File 0 10 2 7\n\
    link /o /e|impossible change\n\
    link / /e|impossible change\n\
    link /x/y /e|impossible change\n\
    link /d/y /e|impossible change\n\
    time /o/f 9; look /o/f; new /t; time /t 9; look /t|done, File 3 3 2 9, done, done, File 0 10 0 9\n\
    time /d 9|impossible change\n\
    time /o 9|impossible change\n\
    time /d/f 9|impossible change\n\
    time /x 9|impossible change";

const TABLES: [&str; 8] = [
    LINKS,
    DIRECTORIES,
    FILES,
    APPENDS,
    REMOVES,
    RENAMES,
    MOVES,
    PUTS,
];

// Catches what the lines above the tables say.
#[test]
fn writes(rt: HostRuntime) -> Result<(), Fail> {
    for rows in TABLES {
        check_each(rt.alloc(), MADE, rows)?;
    }
    Ok(())
}
