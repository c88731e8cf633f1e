//! Where links on a real disk lead, and how a pipe is reported.
use crate::real::{check_here, enter};
use std::alloc::{AllocError, Global};
use std::os::fd::AsRawFd;
use std::os::unix::fs::symlink;
use std::test::Fail;
use std::{fs, io};

/// Makes a folder and goes there. It has a directory `d` with a file of three bytes, and links to the directory, to
/// its file, to nothing, to itself, to a device and, in `d`, to the folder.
fn enter_links(rt: &HostRuntime, folder: &str) -> io::Result<()> {
    enter(rt, folder)?;
    fs::create_dir(rt, "d")?;
    fs::write(rt, "d/f", b"abc")?;
    for (target, link) in LINKS {
        symlink(rt, target, link)?;
    }
    Ok(())
}

const LINKS: [(&str, &str); 6] = [
    ("d", "to_dir"),
    ("d/f", "to_file"),
    ("none", "to_none"),
    ("itself", "itself"),
    ("/dev/null", "to_device"),
    ("..", "d/up"),
];

const LOOKS: &str = "\
    look to_file|Link 0\n\
    follow to_file|File 3\n\
    read to_file|abc\n\
    follow to_file/x|WrongKind\n\
    look to_dir|Link 0\n\
    follow to_dir|Dir 0\n\
    read to_dir|WrongKind\n\
    read to_dir/f|abc\n\
    look to_none|Link 0\n\
    follow to_none|Absent\n\
    read to_none|Absent\n\
    follow to_none/x|Absent\n\
    look itself|Link 0\n\
    follow itself|LinkLoop\n\
    read itself|LinkLoop\n\
    look itself/x|LinkLoop\n\
    look d/up|Link 0\n\
    follow d/up|Dir 0\n\
    read d/up|WrongKind\n\
    read d/up/to_file|abc\n\
    read d/up/to_dir/up/d/f|abc\n\
    look to_device|Link 0\n\
    follow to_device|Failed\n\
    read to_device|Failed";

const LISTS: &str = "\
    list|d Dir, itself Link, to_device Link, to_dir Link, to_file Link, to_none Link, end; end; Absent\n\
    list to_dir|f File, up Link, end; end; Absent\n\
    list d/up|d Dir, itself Link, to_device Link, to_dir Link, to_file Link, to_none Link, end; end; Absent\n\
    list to_dir/up/to_dir|f File, up Link, end; end; Absent\n\
    list to_file|WrongKind\n\
    list to_none|Absent\n\
    list itself|LinkLoop\n\
    list to_device|WrongKind";

// Catches a link that is followed where it mustn't be or isn't where it must, a link whose target is reported as
// another error, and a directory behind a link that isn't read, or isn't left again.
#[test]
fn links(rt: HostRuntime) -> Result<(), Fail> {
    enter_links(&rt, "out/links")?;
    check_here(&rt, LOOKS, 2)?;
    check_here(&rt, LISTS, 0)
}

const WRITES: &str = "\
    new to_none|Exists\n\
    mkdir to_none|Exists\n\
    append to_none x|Absent\n\
    follow to_none|Absent\n\
    append to_file de|done\n\
    look to_file|Link 0\n\
    read d/f|abcde\n\
    append to_dir x|WrongKind\n\
    append itself x|LinkLoop\n\
    append to_device x|Failed\n\
    rename to_dir moved|done\n\
    look moved|Link 0\n\
    follow moved|Dir 0\n\
    rename to_file moved|done\n\
    read moved|abcde\n\
    look d|Dir 0";

const REMOVALS: &str = "\
    remove moved|done\n\
    read d/f|abcde\n\
    remove d/up|done\n\
    remove to_none|done\n\
    remove itself|done\n\
    remove to_device|done\n\
    list|d Dir, end; end; Absent\n\
    list d|f File, end; end; Absent";

// Catches an append that makes a file or puts one in place of a link, something that is made where a link leads, and
// a link that is moved or removed with its target, or not at all.
#[test]
fn changes_of_links(rt: HostRuntime) -> Result<(), Fail> {
    enter_links(&rt, "out/changes_of_links")?;
    check_here(&rt, WRITES, 1)?;
    check_here(&rt, REMOVALS, 0)
}

const PIPES: &str = "\
    look d/pipe|Link 0\n\
    follow d/pipe|Failed\n\
    read d/pipe|Failed\n\
    list d|f File, pipe Link, up Link, end; end; Absent\n\
    list d/pipe|WrongKind";

fn pipe_text(alloc: Global, number: i32) -> Result<String, AllocError> {
    format!(in alloc; "/proc/self/fd/{number}")
}

fn check_pipe(rt: &HostRuntime, number: i32) -> Result<(), Fail> {
    let pipe = pipe_text(rt.alloc(), number)?;
    symlink(rt, pipe.as_str(), "d/pipe")?;
    check_here(rt, PIPES, 2)
}

// Catches a pipe that is opened, which would wait for bytes that nobody writes.
#[test]
fn pipes(rt: HostRuntime) -> Result<(), Fail> {
    enter_links(&rt, "out/pipes")?;
    let (reader, writer) = io::pipe(&rt)?;
    check_pipe(&rt, reader.as_raw_fd())?;
    drop(writer);
    Ok(())
}
