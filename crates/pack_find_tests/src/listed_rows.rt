//! Rows of listings. An index of one object has 1,100 bytes, and 28 for each further one. A multi-pack index of two packs
//! `hello` and `world`, each of one object, has 1,192 bytes: 72 up to its chunks, 20 of names, 1,024 of counts, 56 of rows, and 20. One of 65,535
//! packs without objects has 720,888 bytes of names, of ten letters and a NUL each and three more NULs.
use crate::table::{Opening, check};
use std::test::Fail;

const BARE: &[&str] = &["make /o"];

const NO_INDICES: &[&str] = &[
    "list /o | open /o/pack; rows",
    "make /o/pack",
    "list /o | open /o/pack; next; close; rows",
    "take /o/pack",
    "text /o/pack none",
    "list /o | open /o/pack; broken",
    "take /o/pack",
    "link /o/pack /o/pack",
    "list /o | open /o/pack; broken",
    "list /absent | open /absent/pack; rows",
];

const LINKED: &[&str] = &[
    "make /p",
    "index /p/a.idx hello",
    "pack /p/a.pack hello",
    "link /o/pack /p",
    "list /o | open /o/pack; next; next; next; close; look /o/pack/a.idx; look! /o/pack/a.pack; rows /o/pack/a.idx 1100",
];

const KINDS_OF_INDICES: &[&str] = &[
    "make /o/pack",
    "text /o/pack/.idx none",
    "index /o/pack/a.idx hello",
    "pack /o/pack/a.pack hello",
    "index /o/pack/b.idx hello",
    "pack /o/pack/c.pack hello",
    "make /o/pack/d.idx",
    "pack /o/pack/d.pack hello",
    "link /o/pack/l.idx /o/pack/a.idx",
    "pack /o/pack/l.pack hello",
    "list /o | open /o/pack; next; next; next; next; next; next; next; next; next; next; close; \
    look /o/pack/a.idx; look! /o/pack/a.pack; look /o/pack/b.idx; look! /o/pack/b.pack; rows /o/pack/a.idx 1100",
];

const KINDS_OF_PACKS: &[&str] = &[
    "make /o/pack",
    "pack /o/packed hello",
    "index /o/pack/a.idx hello",
    "link /o/pack/a.pack /o/packed",
    "index /o/pack/b.idx hello",
    "make /o/pack/b.pack",
    "index /o/pack/c.idx hello",
    "link /o/pack/c.pack /nowhere",
    "list /o | open /o/pack; next; next; next; next; next; next; next; close; \
    look /o/pack/a.idx; look! /o/pack/a.pack; look /o/pack/b.idx; look! /o/pack/b.pack; \
    look /o/pack/c.idx; look! /o/pack/c.pack; rows /o/pack/a.idx 1100",
];

const TWO_FOLDERS: &[&str] = &[
    "make /s",
    "make /s/pack",
    "index /s/pack/a.idx hello",
    "pack /s/pack/a.pack hello",
    "list /o /s | open /o/pack; open /s/pack; next; next; next; close; \
    look /s/pack/a.idx; look! /s/pack/a.pack; rows /s/pack/a.idx 1100",
    "make /o/pack",
    "index /o/pack/b.idx hello",
    "pack /o/pack/b.pack hello",
    "list /o /s | open /o/pack; next; next; next; close; look /o/pack/b.idx; look! /o/pack/b.pack; \
    open /s/pack; next; next; next; close; look /s/pack/a.idx; look! /s/pack/a.pack; \
    rows /o/pack/b.idx 1100 /s/pack/a.idx 1100",
    "order /o /s | rows /o/pack/b.idx 1100 /s/pack/a.idx 1100",
    "index /s/pack/a.idx hello world",
    "order /o /s | rows /s/pack/a.idx 1128 /o/pack/b.idx 1100",
    "publish /o /s | todo 0:/s/pack/a.idx 1:/o/pack/b.idx",
];

const LENGTHS: &[&str] = &[
    "make /o/pack",
    "index /o/pack/a.idx hello",
    "pack /o/pack/a.pack hello",
    "index /o/pack/b.idx hello world",
    "pack /o/pack/b.pack hello world",
    "index /o/pack/c.idx world",
    "pack /o/pack/c.pack world",
    "index /o/pack/d.idx hello world again",
    "pack /o/pack/d.pack hello world again",
    "order /o | rows /o/pack/d.idx 1156 /o/pack/b.idx 1128 /o/pack/a.idx 1100 /o/pack/c.idx 1100",
];

/// A disk with one index and its pack.
pub const ONE: &[&str] = &[
    "make /o",
    "make /o/pack",
    "index /o/pack/a.idx hello",
    "pack /o/pack/a.pack hello",
];

/// A disk with a multi-pack index of more packs than a store uses.
pub const TOO_MANY: &[&str] = &[
    "make /o",
    "make /o/pack",
    "many /o/pack/multi-pack-index 65536",
];

/// A disk with three indices and their packs, two of them in a multi-pack index.
const THREE: &[&str] = &[
    "make /o",
    "make /o/pack",
    "index /o/pack/again.idx again",
    "pack /o/pack/again.pack again",
    "index /o/pack/hello.idx hello",
    "pack /o/pack/hello.pack hello",
    "index /o/pack/world.idx world",
    "pack /o/pack/world.pack world",
    "multi /o/pack/multi-pack-index hello world",
];

const MULTI: &[&str] = &[
    "list /o | open /o/pack; next; next; next; next; next; next; next; next; close; \
    look /o/pack/again.idx; look! /o/pack/again.pack; look /o/pack/hello.idx; look! /o/pack/hello.pack; \
    read /o/pack/multi-pack-index; look /o/pack/world.idx; look! /o/pack/world.pack; \
    rows /o/pack/multi-pack-index 1192*2 /o/pack/again.idx 1100",
    "plain /o | open /o/pack; next; next; next; next; next; next; next; next; close; \
    look /o/pack/again.idx; look! /o/pack/again.pack; look /o/pack/hello.idx; look! /o/pack/hello.pack; \
    look /o/pack/world.idx; look! /o/pack/world.pack; \
    rows /o/pack/again.idx 1100 /o/pack/hello.idx 1100 /o/pack/world.idx 1100",
    "publish /o | todo 1:/o/pack/again.idx",
    "find hello | read /o/pack/hello.pack; put-pack 0; found blob 6 hello\n",
    "take /o/pack/world.pack",
    "find world | read /o/pack/world.pack; pass-over 0 absent; read /o/pack/again.idx; put-index 1; missed 0:/o/pack/world.pack",
    "has world | present",
    "multi /o/pack/multi-pack-index hello",
    "order /o | rows /o/pack/multi-pack-index 1156*1 /o/pack/again.idx 1100",
    "multi /o/pack/multi-pack-index again hello world",
    "order /o | rows /o/pack/multi-pack-index 1232*3",
    "take /o/pack/multi-pack-index",
    "order /o | rows /o/pack/again.idx 1100 /o/pack/hello.idx 1100",
];

const UNUSABLE: &[&str] = &[
    "text /o/pack/multi-pack-index none",
    "order /o | rows /o/pack/again.idx 1100 /o/pack/hello.idx 1100 /o/pack/world.idx 1100",
    "multi-256 /o/pack/multi-pack-index hello world",
    "order /o | rows /o/pack/again.idx 1100 /o/pack/hello.idx 1100 /o/pack/world.idx 1100",
    "take /o/pack/multi-pack-index",
    "multi /o/names hello world",
    "link /o/pack/multi-pack-index /o/names",
    "order /o | rows /o/pack/again.idx 1100 /o/pack/hello.idx 1100 /o/pack/world.idx 1100",
    "take /o/pack/multi-pack-index",
    "make /o/pack/multi-pack-index",
    "order /o | rows /o/pack/again.idx 1100 /o/pack/hello.idx 1100 /o/pack/world.idx 1100",
];

const LIMITED: &[&str] = &[
    "take /o/pack/again.idx",
    "take /o/pack/again.pack",
    "take /o/pack/hello.pack",
    "limited 1192 /o | open /o/pack; next; next; next; next; next; close; look /o/pack/hello.idx; look! /o/pack/hello.pack; \
    read /o/pack/multi-pack-index; look /o/pack/world.idx; look! /o/pack/world.pack; rows /o/pack/multi-pack-index 1192*2",
    "limited 1191 /o | open /o/pack; next; next; next; next; next; close; look /o/pack/hello.idx; look! /o/pack/hello.pack; \
    read /o/pack/multi-pack-index; look /o/pack/world.idx; look! /o/pack/world.pack; rows /o/pack/world.idx 1100",
];

// The names in a multi-pack index are those of its own folder.
const OTHER_FOLDER: &[&str] = &[
    "make /s",
    "make /s/pack",
    "index /s/pack/hello.idx hello",
    "pack /s/pack/hello.pack hello",
    "order /o /s | rows /o/pack/multi-pack-index 1192*2 /o/pack/again.idx 1100 /s/pack/hello.idx 1100",
    "multi /s/pack/multi-pack-index hello",
    "order /o /s | rows /o/pack/multi-pack-index 1192*2 /s/pack/multi-pack-index 1156*1 /o/pack/again.idx 1100",
];

/// A disk with an empty folder of packs.
const EMPTY: &[&str] = &["make /o", "make /o/pack"];

const MOST_PACKS: &[&str] = &[
    "many /o/pack/multi-pack-index 65535",
    "order /o | rows /o/pack/multi-pack-index 722004*65535",
];

const ONE_PACK_MORE: &[&str] = &[
    "list /o | open /o/pack; next; next; close; read /o/pack/multi-pack-index; too many packs 65536 /o/pack/multi-pack-index",
    "plain /o | open /o/pack; next; next; close; rows",
];

// The stream had a file, which became a link before it was read: what the link leads to counts.
const SWAPPED: &[&str] = &[
    "multi /o/pack/multi-pack-index hello",
    "multi /o/names hello world",
    "swapped /o/names /o | open /o/pack; next; next; next; next; next; next; next; next; close; \
    look /o/pack/again.idx; look! /o/pack/again.pack; look /o/pack/hello.idx; look! /o/pack/hello.pack; \
    read /o/pack/multi-pack-index; look /o/pack/world.idx; look! /o/pack/world.pack; \
    rows /o/pack/multi-pack-index 1192*2 /o/pack/again.idx 1100",
    "order /o | rows /o/pack/again.idx 1100 /o/pack/hello.idx 1100 /o/pack/world.idx 1100",
];

const READ: &[&str] = &[
    "list /o | open /o/pack; next; next; next; next; next; next; next; next; close; \
    look /o/pack/again.idx; look! /o/pack/again.pack; look /o/pack/hello.idx; look! /o/pack/hello.pack; \
    read /o/pack/multi-pack-index; broken",
    "order /o | rows /o/pack/multi-pack-index 1192*2 /o/pack/again.idx 1100",
];

// A call that fails, and then none.
const OPEN: &[&str] = &[
    "list /o | open /o/pack; broken",
    "order /o | rows /o/pack/a.idx 1100",
];

const FIRST_NEXT: &[&str] = &[
    "list /o | open /o/pack; next; close; broken",
    "order /o | rows /o/pack/a.idx 1100",
];

const LAST_NEXT: &[&str] = &[
    "list /o | open /o/pack; next; next; next; close; broken",
    "order /o | rows /o/pack/a.idx 1100",
];

const LOOK: &[&str] = &[
    "list /o | open /o/pack; next; next; next; close; look /o/pack/a.idx; broken",
    "order /o | rows /o/pack/a.idx 1100",
];

const LOOK_AT_THE_PACK: &[&str] = &[
    "list /o | open /o/pack; next; next; next; close; look /o/pack/a.idx; look! /o/pack/a.pack; broken",
    "order /o | rows /o/pack/a.idx 1100",
];

/// The tables, each with the mistakes that it would catch.
const TABLES: &[(Opening, &[&str], &[&str])] = &[
    // An absent folder taken for a broken one, or the other way round; a linked folder that is left out.
    ((&[], 0), BARE, NO_INDICES),
    ((&[], 0), BARE, LINKED),
    // An index by its name alone, a pack without its index or the other way round, or a link mistaken for its target.
    ((&[], 0), BARE, KINDS_OF_INDICES),
    ((&[], 0), BARE, KINDS_OF_PACKS),
    // A folder that ends the listing, or rows of equal length in the wrong order.
    ((&[], 0), BARE, TWO_FOLDERS),
    ((&[], 0), BARE, LENGTHS),
    // A multi-pack index that is left out or read where it isn't to be; an index next to the one that names it; rows by the
    // old names.
    ((&[], 0), THREE, MULTI),
    // A damaged multi-pack index, one of another hash, or a link that is used.
    ((&[], 0), THREE, UNUSABLE),
    ((&[], 0), THREE, LIMITED),
    // An index that is left out by the names of another folder.
    ((&[], 0), THREE, OTHER_FOLDER),
    ((&[], 0), THREE, SWAPPED),
    // A failed call that is passed over, or a stream that stays open after it.
    ((&[1], 0), ONE, OPEN),
    ((&[2], 0), ONE, FIRST_NEXT),
    ((&[4], 0), ONE, LAST_NEXT),
    ((&[5], 0), ONE, LOOK),
    ((&[6], 0), ONE, LOOK_AT_THE_PACK),
    ((&[14], 0), THREE, READ),
];

#[test]
fn listings(rt: HostRuntime) -> Result<(), Fail> {
    for (opening, disk, rows) in TABLES {
        check(rt.alloc(), *opening, disk, rows)?;
    }
    Ok(())
}

// A multi-pack index that is left out though a store uses as many packs.
#[test]
fn lists_the_most_packs(rt: HostRuntime) -> Result<(), Fail> {
    check(rt.alloc(), (&[], 0), EMPTY, MOST_PACKS)
}

// One of more packs that is listed, passed over, or read where it isn't to be.
#[test]
fn refuses_one_pack_more(rt: HostRuntime) -> Result<(), Fail> {
    check(rt.alloc(), (&[], 0), TOO_MANY, ONE_PACK_MORE)
}
