//! The bound of a call's turns as a number.
use gix_odb_world::bound_of;

// Computed by hand: (changes + 2) * (8 + 8 * slots + folders * (8 * entries + 16)), and for a write 40 more and one
// for each 65,536 bytes or part of them.
#[test]
fn bounds_turns(rt: HostRuntime) {
    for (slots, changes, entries, write, want) in [
        (0, 0, 0, None, 48),
        (32, 16, 4, None, 5616),
        (32, 16, 4, Some(0), 5656),
        (32, 16, 4, Some(65536), 5657),
        (32, 16, 4, Some(65537), 5658),
    ] {
        assert!(rt; bound_of(slots, 1, changes, entries, write) == want);
    }
}
