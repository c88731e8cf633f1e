//! The files of the tests, made by hand from the formats: two ids, the second one's object first in the pack.
use std::alloc::{AllocError, Global};

const SIGNATURE: &[u8] = &[255, 116, 79, 99, 0, 0, 0, 2];

const IDS: &[u8] = &[
    31, 122, 122, 71, 42, 191, 61, 217, 100, 63, 214, 21, 246, 218, 55, 156, 74, 203, 62, 58, 131,
    186, 174, 97, 128, 78, 101, 204, 115, 167, 32, 26, 114, 82, 117, 12, 118, 6, 106, 48,
];

// The SHA-256 ids of the same blobs, the first one's object first in the pack.
const LONG_IDS: &[u8] = &[
    88, 166, 126, 209, 193, 97, 164, 232, 154, 17, 9, 104, 49, 15, 227, 30, 57, 146, 14, 246, 141,
    76, 124, 126, 13, 102, 149, 121, 117, 51, 245, 13, 189, 150, 95, 174, 32, 235, 13, 209, 54,
    197, 251, 144, 183, 201, 158, 161, 134, 58, 180, 107, 185, 162, 100, 123, 224, 73, 243, 135,
    81, 116, 158, 97,
];

// The chunk table of four chunks of 24, 1,024, 40 and 16 bytes.
const CHUNKS: &[u8] = b"\
    MIDX\x01\x01\x04\0\0\0\0\x02\
    PNAM\0\0\0\0\0\0\0\x48\
    OIDF\0\0\0\0\0\0\0\x60\
    OIDL\0\0\0\0\0\0\x04\x60\
    OOFF\0\0\0\0\0\0\x04\x88\
    \0\0\0\0\0\0\0\0\0\0\x04\x98\
    pack-a.idx\0pack-b.idx\0\0\0";

/// A file of the two ids: the bytes before its counts, and the parts after them.
fn with_counts(
    alloc: Global,
    front: &[u8],
    low: u16,
    high: u16,
    behind: &[&[u8]],
) -> Result<Vec<u8>, AllocError> {
    let mut file = front.to_vec(alloc)?;
    for first in 0..256u16 {
        let count = u8::from(first >= low) + u8::from(first >= high);
        file.extend_from_slice(&[0, 0, 0, count])?;
    }
    for part in behind {
        file.extend_from_slice(part)?;
    }
    Ok(file)
}

/// An index with these offsets, its checks zeros, and zeros in place of hashes.
fn index(alloc: Global, offsets: &[u8], hashes: &[u8]) -> Result<Vec<u8>, AllocError> {
    with_counts(alloc, SIGNATURE, 31, 131, &[IDS, &[0; 8], offsets, hashes])
}

/// A multi-pack index whose second id is in the first pack, with zeros in place of its hash.
fn packs(alloc: Global, hash: &[u8]) -> Result<Vec<u8>, AllocError> {
    let offsets = b"\0\0\0\x01\0\0\0\x17\0\0\0\0\0\0\0\x0c";
    with_counts(alloc, CHUNKS, 31, 131, &[IDS, offsets, hash])
}

/// An index with ids of SHA-256.
fn long_index(alloc: Global) -> Result<Vec<u8>, AllocError> {
    let offsets = b"\0\0\0\x0c\0\0\0\x17";
    with_counts(
        alloc,
        SIGNATURE,
        88,
        189,
        &[LONG_IDS, &[0; 8], offsets, &[0; 64]],
    )
}

/// The file that a row names.
pub(super) fn file_of(alloc: Global, name: &str) -> Result<Vec<u8>, AllocError> {
    match name {
        "index" => index(alloc, b"\0\0\0\x17\0\0\0\x0c", &[0; 40]),
        "wide" => index(alloc, b"\x80\0\0\0\0\0\0\x0c\0\0\0\x01\0\0\0\0", &[0; 40]),
        "cut" => index(alloc, b"\0\0\0\x17\0\0\0\x0c", &[0; 39]),
        "SHA-256" => long_index(alloc),
        "packs" => packs(alloc, &[0; 20]),
        "packs cut" => packs(alloc, &[0; 19]),
        "empty" => Ok(Vec::new(alloc)),
        _ => b"MIDI".to_vec(alloc),
    }
}
