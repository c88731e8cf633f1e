//! The texts of errors, which scripts print as words: each with the path and the numbers of its call.
use crate::played::{check_each, check_faults};
use std::test::Fail;

const WRITE_STEPS: &str = "\
    do mkdir /o; open 0 /o slots=32; finish 0; write 0 blob 68656c6c6f; finish 0; \
    find 0 b6fc4c620b67d95f953a5c1c1230aaab5db5a1b0; finish 0; do remove /o/tmp_obj_0";

// The opening makes call 1, the write those from 2 on, of which the first opens the folder of packs, and the find reads the loose
// object. The last column is of the temporary file that isn't there.
// An error that is reported of another call, an object that is there nevertheless, a write that is made though the store could not be
// listed, or a temporary file that is left though it could be removed.
const WRITE_FAULTS: &str = "\
    99|2: 32 slots; 8: wrote b6fc4c620b67d95f953a5c1c1230aaab5db5a1b0; 1: Blob hello; misuse ImpossibleChange\n\
    2|2: 32 slots; 2: a call of the disk failed, or a folder of packs is none; 5: not found; misuse ImpossibleChange\n\
    3|2: 32 slots; 4: could not create named temp file in /o; 6: not found; misuse ImpossibleChange\n\
    4|2: 32 slots; 6: could not write header to tempfile in /o; 6: not found; misuse ImpossibleChange\n\
    5|2: 32 slots; 7: could not stream all data into tempfile in /o; 6: not found; misuse ImpossibleChange\n\
    6|2: 32 slots; 8: could not make the directory of the object; 6: not found; misuse ImpossibleChange\n\
    7|2: 32 slots; 9: could not turn the temporary file into /o/b6/fc4c620b67d95f953a5c1c1230aaab5db5a1b0; \
    6: not found; misuse ImpossibleChange\n\
    4 5|2: 32 slots; 6: could not write header to tempfile in /o; 6: not found\n\
    5 6|2: 32 slots; 7: could not stream all data into tempfile in /o; 6: not found\n\
    6 7|2: 32 slots; 8: could not make the directory of the object; 6: not found\n\
    7 8|2: 32 slots; 9: could not turn the temporary file into /o/b6/fc4c620b67d95f953a5c1c1230aaab5db5a1b0; \
    6: not found\n\
    8|2: 32 slots; 8: wrote b6fc4c620b67d95f953a5c1c1230aaab5db5a1b0; \
    1: could not open or map /o/b6/fc4c620b67d95f953a5c1c1230aaab5db5a1b0; misuse ImpossibleChange";

#[test]
fn tells_which_call_of_a_write_failed(rt: HostRuntime) -> Result<(), Fail> {
    check_faults(rt.alloc(), WRITE_STEPS, WRITE_FAULTS)
}

const OPENING_FAULTS: &str = "\
    1|1: the objects directory could not be looked at\n\
    2|2: a call of the disk failed, or a folder of packs is none\n\
    3|3: 32 slots";

const FRONT: &str = "do mkdir /o; do mkdir /o/e6; open 0 /o slots=32 limit=4; finish 0";

// A number or a path of another field.
const TEXTS: &str = "\
    do put /o/e6/9de29bb2d1d6434b8b29ae775ad8c2e48c5391 1 626c6f6220340078; \
    find 0 e69de29bb2d1d6434b8b29ae775ad8c2e48c5391; finish 0|\
    4: /o/e6/9de29bb2d1d6434b8b29ae775ad8c2e48c5391 has 1 bytes of data, and 4 by its header\n\
    do put /o/e6/9de29bb2d1d6434b8b29ae775ad8c2e48c5391 1 @loose:blob:68656c6c6f; \
    find 0 e69de29bb2d1d6434b8b29ae775ad8c2e48c5391; finish 0|4: an object of 5 bytes is above the limit\n\
    do put /o/e6/9de29bb2d1d6434b8b29ae775ad8c2e48c5391 1 78; \
    find 0 e69de29bb2d1d6434b8b29ae775ad8c2e48c5391; finish 0|4: the loose object has no header\n\
    stream 0 blob 6 68656c6c6f; finish 0|7: expected 6 bytes of data, and got 5\n\
    open 1 /x slots=4; finish 1|1: the objects directory is not a directory\n\
    open 1 /o slots=32768; finish 1|1: 32768 slots are too many";

#[test]
fn tells_numbers_and_paths(rt: HostRuntime) -> Result<(), Fail> {
    check_faults(
        rt.alloc(),
        "do mkdir /o; open 0 /o; finish 0",
        OPENING_FAULTS,
    )?;
    check_each(rt.alloc(), FRONT, TEXTS)
}
