//! A write from a source, compared with one of the same bytes by the machine.
use crate::changes::check;
use gix_hash::Kind::Sha1;
use std::test::Fail;

/// Each write ends after as many calls of the disk as the one before it, and with the same result. In the last three
/// pairs the seventh call fails: the creation of the directory, and the removal of the temporary file.
const PAIRS: [&str; 33] = [
    "make /o|done",
    "machine 0 0|b6fc4c620b67d95f953a5c1c1230aaab5db5a1b0",
    "calls|4",
    "streamas 0 0 0|b6fc4c620b67d95f953a5c1c1230aaab5db5a1b0",
    "calls|8",
    "machine 65536 65536|b6fc4c620b67d95f953a5c1c1230aaab5db5a1b0",
    "calls|13",
    "streamas 65536 0 65536|b6fc4c620b67d95f953a5c1c1230aaab5db5a1b0",
    "calls|18",
    "machine 65537 65537|b6fc4c620b67d95f953a5c1c1230aaab5db5a1b0",
    "calls|24",
    "streamas 65537 0 65537|b6fc4c620b67d95f953a5c1c1230aaab5db5a1b0",
    "calls|30",
    "machine 200000 200000|raw",
    "calls|38",
    "read /o/tmp_obj_0|Absent",
    "streamas 200000 0 200000|raw",
    "calls|47",
    "read /o/tmp_obj_0|Absent",
    "machine 199999 200000|size 200000",
    "calls|55",
    "take /o/tmp_obj_0|done",
    "streamas 199999 0 200000|size 200000",
    "calls|62",
    "take /o/tmp_obj_0|done",
    "machine 200001 200000|size 200000",
    "calls|69",
    "take /o/tmp_obj_0|done",
    "streamas 200001 0 200000|size 200000",
    "calls|76",
    "take /o/tmp_obj_0|done",
    "find b6fc4c620b67d95f953a5c1c1230aaab5db5a1b0|blob 65537",
    "read /o/tmp_obj_0|Absent",
];

// A write from a source that makes more or fewer calls of the disk than a write of the same bytes from memory, or
// that ends otherwise.
#[test]
fn same_calls(rt: HostRuntime) -> Result<(), Fail> {
    check(rt.alloc(), Sha1, None, &[37, 46, 55, 62, 69, 76], &PAIRS)
}
