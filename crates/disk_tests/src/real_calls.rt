//! What calls of a real disk return in a folder that the system made, and what they leave there.
use crate::real::{check_here, enter};
use std::os::unix::fs::symlink;
use std::test::Fail;
use std::{fs, io};

/// Makes a folder and goes there. It has a directory `d`, a file `f` of many pieces, and links to the file
/// and in a circle.
fn enter_folder(rt: &HostRuntime, folder: &str) -> io::Result<()> {
    enter(rt, folder)?;
    fs::create_dir(rt, "d")?;
    fs::write(rt, "f", [7u8; 100_000])?;
    symlink(rt, "f", "to_f")?;
    symlink(rt, "circle", "circle")
}

// Catches a read of one piece alone, a name that is lost or given twice, `.` and `..`, an entry that is a link and is
// followed, and something opened that is no directory.
const READS: &str = "\
    follow d|Dir 0\n\
    look f|File 100000\n\
    follow to_f|File 100000\n\
    look to_f|Link 0\n\
    look circle|Link 0\n\
    follow circle|LinkLoop\n\
    follow none|Absent\n\
    follow f/x|WrongKind\n\
    read f|100000\n\
    read to_f|100000\n\
    read d|WrongKind\n\
    read circle|LinkLoop\n\
    read none|Absent\n\
    read f/x|WrongKind\n\
    list|circle Link, d Dir, f File, to_f Link, end; end; Absent\n\
    list d|end; end; Absent\n\
    list f|WrongKind\n\
    list to_f|WrongKind\n\
    list circle|LinkLoop\n\
    list none|Absent";

// Catches a call on another kind than it needs, a link that is followed where it mustn't be or isn't where it must,
// something that is made over another or counts as made, and an append that forgets what was there or writes over it.
const WRITES: &str = "\
    mkdir m|done\n\
    mkdir m|Exists\n\
    mkdir f|Exists\n\
    mkdir circle|Exists\n\
    mkdir none/x|Absent\n\
    mkdir f/x|WrongKind\n\
    mkdir circle/x|LinkLoop\n\
    new m/n|done\n\
    new m/n|Exists\n\
    new d|Exists\n\
    new to_f|Exists\n\
    new none/x|Absent\n\
    new f/x|WrongKind\n\
    append m/n abc|done\n\
    append m/n abc|done\n\
    append to_f abc|done\n\
    append d abc|WrongKind\n\
    append none abc|Absent\n\
    append circle abc|LinkLoop\n\
    remove m|NotEmpty\n\
    remove m/n|done\n\
    remove m/n|Absent\n\
    remove m|done\n\
    remove to_f|done\n\
    remove circle|done\n\
    remove f/x|WrongKind\n\
    read f|100003\n\
    new n|done\n\
    append n one |done\n\
    append n|done\n\
    append n two|done\n\
    new n|Exists\n\
    read n|one two";

// Catches a directory that is moved, or moved over, as the system would, and a link that is followed.
const RENAMES: &str = "\
    rename f g|done\n\
    rename f g|Absent\n\
    rename circle to_f|done\n\
    rename to_f g|done\n\
    rename d e|WrongKind\n\
    rename g d|WrongKind\n\
    rename g none/x|Absent\n\
    rename g d/x|done\n\
    look d/x|Link 0";

// Catches a failure that isn't counted, a device that is opened, and a read or a write of an open file that the system
// refuses but that is reported as done. Of the two files of `/proc`, one has no first byte, and one takes only numbers.
const FAILURES: &str = "\
    follow /dev/null|Failed\n\
    read /dev/null|Failed\n\
    append /dev/null abc|Failed\n\
    follow /proc/self/mem|File 0\n\
    read /proc/self/mem|Failed\n\
    follow /proc/self/oom_score_adj|File 0\n\
    append /proc/self/oom_score_adj abc|Failed";

// Catches what the lines above the tables say.
#[test]
fn calls(rt: HostRuntime) -> Result<(), Fail> {
    for rows in [READS, WRITES, RENAMES] {
        enter_folder(&rt, "out/calls")?;
        check_here(&rt, rows, 0)?;
    }
    check_here(&rt, FAILURES, 5)
}
