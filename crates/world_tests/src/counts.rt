//! Openings that count a store's indices, with other shares and minima than scripts have.
use crate::played::check_each;
use std::test::Fail;

const FRONT: &str = "\
    do mkdir /o; do mkdir /o/pack; do put /o/pack/a.idx 1 -; do put /o/pack/a.pack 1 -; \
    do put /o/pack/b.idx 1 -; do put /o/pack/b.pack 1 -; do put /o/pack/c.idx 1 -";

// The stat, the opening of the folder, six calls for its entries and its close, a stat of each index and of its pack, and the
// registration. A multi-pack index takes a call for its entry, and one that reads it.
// An index that is counted without its pack, before its stat, or though it is gone then; a share that is rounded up; a number
// that is cut off where it is more than a store may have; a multi-pack index that isn't counted, or an index beside the one that names it.
const COUNTED: &str = "\
    open 0 /o counted=110:32; finish 0|16: 32 slots\n\
    open 0 /o counted=300:0; finish 0|16: 6 slots\n\
    open 0 /o counted=149:0; finish 0|16: 2 slots\n\
    open 0 /o counted=150:5; finish 0|16: 5 slots\n\
    open 0 /o counted=4294967295:1; finish 0|16: 2 slots\n\
    open 0 /o counted=0:32768; finish 0|16: 2 slots\n\
    open 0 /o counted=0:32767; finish 0|16: 32767 slots\n\
    open 0 /o counted=0:0; finish 0; find 0 0000000000000000000000000000000000000001; finish 0|\
    16: 0 slots; 16: 0 slots are too few: 2 more are needed\n\
    open 0 /o counted=300:0; turn 0; turn 0; turn 0; turn 0; turn 0; turn 0; turn 0; turn 0; turn 0; \
    do remove /o/pack/b.idx; finish 0|\
    pending; pending; pending; pending; pending; pending; pending; pending; pending; 6: 3 slots\n\
    do mkdir /p; open 0 /p; finish 0; open 1 /p folder=/o counted=300:1; finish 1|3: 32 slots; 17: 6 slots\n\
    do put /o/pack/multi-pack-index 1 @midx:a=blob:-; open 0 /o counted=300:0; finish 0|18: 6 slots\n\
    do put /o/pack/multi-pack-index 1 @midx:c=blob:-; open 0 /o counted=300:0; finish 0|18: 9 slots\n\
    do put /o/pack/multi-pack-index 1 @midx:c=blob:-; open 0 /o midx=no counted=300:0; finish 0|17: 6 slots\n\
    clone 1 0; open 0 /o counted=300:0; finish 0; clone 1 0; write 1 blob -; finish 1|\
    misuse NoHandle; 16: 6 slots; 20: wrote e69de29bb2d1d6434b8b29ae775ad8c2e48c5391";

#[test]
fn counts_indices(rt: HostRuntime) -> Result<(), Fail> {
    check_each(rt.alloc(), FRONT, COUNTED)
}
