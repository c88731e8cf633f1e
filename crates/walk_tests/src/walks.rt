//! Which items walks give.
use super::led::Led;
use super::words::check;
use std::test::Fail;

const NESTED: &str = "make /t, make /t/a, put /t/a/x 0, put /t/a.b 0, put /t/a0 0, link /t/l /t";

const LOOPS: &str = "\
    /t; sort, follow|/t /t/a /t/a/x /t/a.b /t/a0 [File system loop found: /t/l points to an ancestor /t 1]\n\
    /t; sort, follow, open 0|/t /t/a /t/a/x /t/a.b /t/a0 [File system loop found: /t/l points to an ancestor /t 1]\n\
    /t; sort, follow, max 3, min 5|[File system loop found: /t/l points to an ancestor /t 1]\n\
    /t; sort|/t /t/a /t/a/x /t/a.b /t/a0 /t/l@\n\
    /t/l; sort|/t/l@ /t/l/a /t/l/a/x /t/l/a.b /t/l/a0 /t/l/l@\n\
    /t/l; sort, noroot|/t/l@\n\
    /t/l; follow|/t/l@ /t/l/a /t/l/a/x /t/l/a.b /t/l/a0 [File system loop found: /t/l/l points to an ancestor /t/l 1]\n\
    /t; open 1, first|/t/a/x /t/a /t/a.b /t/a0 /t/l@ /t\n\
    /t/l; first|/t/l@ /t/l/a/x /t/l/a /t/l/a.b /t/l/a0 /t/l/l@\n\
    /t/l; first, follow|/t/l/a/x /t/l/a /t/l/a.b /t/l/a0 [File system loop found: /t/l/l points to an ancestor /t/l 1] /t/l@\n\
    /t/a0|/t/a0\n\
    /x|[IO error for operation on /x: Absent 0]\n\
    /t; min 1|/t/a /t/a/x /t/a.b /t/a0 /t/l@\n\
    /t; max 1|/t /t/a /t/a.b /t/a0 /t/l@\n\
    /t; max 0|/t\n\
    /t; min 2|/t/a/x\n\
    /t; min 1, max 1, first|/t/a /t/a.b /t/a0 /t/l@";

// Catches a loop that is entered or named wrongly, a link followed when it shouldn't be, a root link that is lost,
// and depths that are off by one.
#[test]
fn links_and_depths(rt: HostRuntime) -> Result<(), Fail> {
    check(rt.alloc(), &Led, NESTED, LOOPS)
}

const TARGETS: &str =
    "make /t, link /t/d /u, link /t/f /u/x, link /t/n /none, link /t/o /t/o, make /u, put /u/x 0, \
    link /u/b /u, link /r /u, link /s /none";

const FOLLOWED: &str = "\
    /t; follow|/t /t/d@ [File system loop found: /t/d/b points to an ancestor /t/d 2] /t/d/x /t/f@ \
[IO error for operation on /t/n: Absent 1] [IO error for operation on /t/o: LinkLoop 1]\n\
    /t|/t /t/d@ /t/f@ /t/n@ /t/o@\n\
    /r|/r@ /r/b@ /r/x\n\
    /r; follow|/r@ [File system loop found: /r/b points to an ancestor /r 1] /r/x\n\
    /r; noroot|/r@\n\
    /r; max 0|/r@\n\
    /s|[IO error for operation on /s: Absent 0]\n\
    /s; noroot|/s@\n\
    /s; same, noroot|[IO error for operation on /s: Absent 0]\n\
    /s; follow|[IO error for operation on /s: Absent 0]\n\
    /t/f; follow|/t/f@\n\
    /t/f|/t/f@\n\
    /t/f/y|[IO error for operation on /t/f/y: WrongKind 0]";

// Catches a failed target that is dropped or given twice, a loop named by the link's target, and a root link that is
// entered when it shouldn't be.
#[test]
fn targets(rt: HostRuntime) -> Result<(), Fail> {
    check(rt.alloc(), &Led, TARGETS, FOLLOWED)
}

const NEAREST: &str = "make /t, make /t/a, link /t/a/d /t, link /t/a/e /t/a";

const NEAREST_NAMED: &str = "\
    /t/a; follow|/t/a /t/a/d@ /t/a/d/a \
[File system loop found: /t/a/d/a/d points to an ancestor /t/a/d 3] \
[File system loop found: /t/a/d/a/e points to an ancestor /t/a/d/a 3] \
[File system loop found: /t/a/e points to an ancestor /t/a 1]";

// Catches an outer directory that is named when a nearer one is the same.
#[test]
fn nearest(rt: HostRuntime) -> Result<(), Fail> {
    check(rt.alloc(), &Led, NEAREST, NEAREST_NAMED)
}

const DEVICES: &str =
    "make /t, make /t/m 7, put /t/m/x 0, make /t/n, link /t/o /t/m, put /t/n/y 0, make /v 7, \
    link /v/t /t, make /v/w 7, put /v/w/q 0, link /z /v";

const STAYING: &str = "\
    /t; same|/t /t/m /t/n /t/n/y /t/o@\n\
    /t; same, follow|/t /t/m /t/n /t/n/y /t/o@\n\
    /t; follow|/t /t/m /t/m/x /t/n /t/n/y /t/o@ /t/o/x\n\
    /t; same, first|/t/m /t/n/y /t/n /t/o@ /t\n\
    /v; same, follow|/v /v/t@ /v/w /v/w/q\n\
    /z; same|/z@ /z/t@ /z/w /z/w/q\n\
    /x; same|[IO error for operation on /x: Absent 0]";

// Catches a root's device that is forgotten or taken from its link, and a directory on another device that is entered or
// not given.
#[test]
fn devices(rt: HostRuntime) -> Result<(), Fail> {
    check(rt.alloc(), &Led, DEVICES, STAYING)
}

const SMALL: &str = "make /t, make /t/a, put /t/a/x 0, put /t/b 0";

const FAULTS: &str = "\
    fail 1 /t|[IO error for operation on /t: Failed 0]\n\
    fail 1 /t; same|[IO error for operation on /t: Failed 0]\n\
    fail 2 /t|/t [IO error for operation on /t: Failed 0]\n\
    fail 2 /t; same|[IO error for operation on /t: Failed 0]\n\
    fail 3 /t|/t [Failed 1]\n\
    fail 4 /t|/t /t/a [IO error for operation on /t/a: Failed 1] /t/b\n\
    fail 5 /t|/t /t/a [Failed 2] /t/b\n\
    fail 6 /t|/t /t/a /t/a/x [Failed 2] /t/b\n\
    fail 7 /t|/t /t/a /t/a/x [Failed 1]\n\
    fail 8 /t|/t /t/a /t/a/x /t/b [Failed 1]\n\
    fail 9 /t|/t /t/a /t/a/x /t/b\n\
    fail 2 /t; first|[IO error for operation on /t: Failed 0] /t\n\
    fail 4 /t; first|[IO error for operation on /t/a: Failed 1] /t/a /t/b /t\n\
    fail 4 /t; sort|/t [Failed 1] /t/a /t/a/x\n\
    fail 5 /t; sort|/t [Failed 1] /t/a /t/a/x /t/b\n\
    fail 4 /t; open 1|/t /t/a /t/a/x [Failed 1]\n\
    fail 5 /t; open 1|/t /t/a /t/a/x /t/b [Failed 1]\n\
    fail 6 /t; open 1|/t /t/a [IO error for operation on /t/a: Failed 1] /t/b\n\
    fail 2 /t; follow|[IO error for operation on /t: Failed 0]\n\
    fail 5 /t; follow|/t [IO error for operation on /t/a: Failed 1] /t/b\n\
    fail 4 /t; open 0|/t /t/a /t/a/x [Failed 1]\n\
    fail 6 /t; open 0|/t /t/a [IO error for operation on /t/a: Failed 1] /t/b";

const LINKED: &str = "make /t, link /t/l /u, put /t/m 0, make /u, put /u/x 0, link /r /u";

const LINK_FAULTS: &str = "\
    fail 5 /t; follow|/t [IO error for operation on /t/l: Failed 1] /t/m\n\
    fail 2 /r|[IO error for operation on /r: Failed 0]\n\
    fail 2 /r; follow|[IO error for operation on /r: Failed 0]\n\
    fail 3 /r|/r@ [IO error for operation on /r: Failed 0]";

// Catches an error that is dropped, at a wrong depth or with a wrong path, and a stream that goes on after one.
#[test]
fn faults(rt: HostRuntime) -> Result<(), Fail> {
    check(rt.alloc(), &Led, SMALL, FAULTS)?;
    check(rt.alloc(), &Led, LINKED, LINK_FAULTS)
}
