//! Multi-pack indices that Git made, in parts, and Git's output for them.

// Git's ids of the blobs `version 2` and `version 1`, each with a line feed.
const SECOND: &[u8] = b"1f7a7a472abf3dd9643fd615f6da379c4acb3e3a";

const FIRST: &[u8] = b"83baae61804e65cc73a7201a7252750c76066a30";

pub const NAMES: &[u8] = b"pack-a.idx\0pack-b.idx\0\0\0";

// The parts of a multi-index of the packs `pack-a` and `pack-b`. Its counts are how many rows have which number.
#[derive(Clone, Copy)]
pub struct Parts<'a> {
    pub hash: u8,
    pub counts: &'a [(u16, u8)],
    pub ids: &'a [&'a [u8]],
    pub offsets: &'a [u8],
    pub wides: &'a [u8],
    pub own: &'a [u8],
}

// Multi-indices that git made of packs which hold `version 1` (a) and `version 2` (b), and for the others 285 (a, b) and
// 914 (b), each with a line feed:
//     git pack-objects .git/objects/pack/pack; ..; git multi-pack-index write
// For the wide offsets the index of `pack-b` was given the offsets 12, 2^31 and 2^32 + 44 before.
pub const TWO: Parts<'static> = Parts {
    hash: 1,
    counts: &[(31, 0), (100, 1), (125, 2)],
    ids: &[SECOND, FIRST],
    offsets: b"\0\0\0\x01\0\0\0\x0c\0\0\0\0\0\0\0\x0c",
    wides: &[],
    own: b"71684154f23c4615050eeb1a5fad29bb5d36f53d",
};

pub const SHA1: Parts<'static> = Parts {
    hash: 1,
    counts: &[(31, 0), (77, 1), (23, 3), (125, 4)],
    ids: &[
        SECOND,
        b"6cf44528e2d9c5e4b4b27a4fc1456eb5b2987a97",
        b"6cf44bc0b0a2c1d11d2939b6a406f951ea73213b",
        FIRST,
    ],
    offsets: b"\0\0\0\x01\0\0\0\x0c\0\0\0\x01\0\0\0\x1f\0\0\0\x01\0\0\0\x2c\0\0\0\0\0\0\0\x0c",
    wides: &[],
    own: b"85d899cd99d0f8fc5b79469a3c8f1f4c1fb5520f",
};

pub const SHA1_WIDE: Parts<'static> = Parts {
    offsets: b"\0\0\0\x01\0\0\0\x0c\0\0\0\x01\x80\0\0\0\0\0\0\x01\x80\0\0\x01\0\0\0\0\0\0\0\x0c",
    wides: b"\0\0\0\0\x80\0\0\0\0\0\0\x01\0\0\0\x2c",
    own: b"3cae06e2c77bb0c7a0e5257730f46685ccd73b41",
    ..SHA1
};

pub const SHA256: Parts<'static> = Parts {
    hash: 2,
    counts: &[(12, 0), (25, 1), (51, 2), (101, 3), (67, 4)],
    ids: &[
        b"0c011714debec7ace4a95a303569fd9cb5d777df9cf87ec33beb75897e840d92",
        b"253f12f0138ab208403bf5a1c5d1cc36776bf2e5e75cbf8f35c7a24e967852ef",
        b"58a67ed1c161a4e89a110968310fe31e39920ef68d4c7c7e0d6695797533f50d",
        b"bd965fae20eb0dd136c5fb90b7c99ea1863ab46bb9a2647be049f38751749e61",
    ],
    offsets: b"\0\0\0\x01\0\0\0\x1f\0\0\0\x01\0\0\0\x2c\0\0\0\0\0\0\0\x0c\0\0\0\x01\0\0\0\x0c",
    wides: &[],
    own: b"8e0f9b6ff3d67cc917e3f34a2697c539993a5314fcd028e3328d42f6682060b3",
};

// The hash, the names, and the rows as `git show-index` prints them for each pack: pack, offset and id. After each
// row comes where its id is found, and the range of the first seven digits.
pub const SHOWN_TWO: &str = "sha1 2 2 pack-a.idx pack-b.idx
1 12 1f7a7a472abf3dd9643fd615f6da379c4acb3e3a Some(0) Some((0, 1))
0 12 83baae61804e65cc73a7201a7252750c76066a30 Some(1) Some((1, 2))
";

pub const SHOWN_SHA1: &str = "sha1 2 4 pack-a.idx pack-b.idx
1 12 1f7a7a472abf3dd9643fd615f6da379c4acb3e3a Some(0) Some((0, 1))
1 31 6cf44528e2d9c5e4b4b27a4fc1456eb5b2987a97 Some(1) Some((1, 2))
1 44 6cf44bc0b0a2c1d11d2939b6a406f951ea73213b Some(2) Some((2, 3))
0 12 83baae61804e65cc73a7201a7252750c76066a30 Some(3) Some((3, 4))
";

pub const SHOWN_WIDE: &str = "sha1 2 4 pack-a.idx pack-b.idx
1 12 1f7a7a472abf3dd9643fd615f6da379c4acb3e3a Some(0) Some((0, 1))
1 2147483648 6cf44528e2d9c5e4b4b27a4fc1456eb5b2987a97 Some(1) Some((1, 2))
1 4294967340 6cf44bc0b0a2c1d11d2939b6a406f951ea73213b Some(2) Some((2, 3))
0 12 83baae61804e65cc73a7201a7252750c76066a30 Some(3) Some((3, 4))
";

pub const SHOWN_SHA256: &str = "sha256 2 4 pack-a.idx pack-b.idx
1 31 0c011714debec7ace4a95a303569fd9cb5d777df9cf87ec33beb75897e840d92 Some(0) Some((0, 1))
1 44 253f12f0138ab208403bf5a1c5d1cc36776bf2e5e75cbf8f35c7a24e967852ef Some(1) Some((1, 2))
0 12 58a67ed1c161a4e89a110968310fe31e39920ef68d4c7c7e0d6695797533f50d Some(2) Some((2, 3))
1 12 bd965fae20eb0dd136c5fb90b7c99ea1863ab46bb9a2647be049f38751749e61 Some(3) Some((3, 4))
";
