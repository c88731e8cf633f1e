//! The paths of objects and of the objects directory.
use crate::calls::store_at;
use crate::words::{FILE, HELLO, id_of};
use gix_hash::Kind::{Sha1, Sha256};
use std::alloc::Global;
use std::test::Fail;
use test_words::compare;

/// The path of an object of a copy of a store in `/o`, as a text.
fn path_of(alloc: Global, hash: gix_hash::Kind, hex: &str) -> Result<String, Fail> {
    let store = store_at(alloc, "/o", hash, None)?.try_clone(alloc)?;
    let id = id_of(&store, hex)?;
    Ok(store.object_path(alloc, &id)?.to_text(alloc)?)
}

// A path that is cut at another digit, or after an id of the other hash. The second id is from `git hash-object` in a
// repository of SHA-256, the third is Git's example of a blob, `hello` and a line feed.
#[test]
fn paths(rt: HostRuntime) -> Result<(), Fail> {
    for (hash, hex, path) in [
        (Sha1, HELLO, FILE),
        (
            Sha256,
            "8aec4e4876f854f688d0ebfc8f37598f38e5fd6903cccc850ca36591175aeb60",
            "/o/8a/ec4e4876f854f688d0ebfc8f37598f38e5fd6903cccc850ca36591175aeb60",
        ),
        (
            Sha1,
            "ce013625030ba8dba906f756967f9e9ca394464a",
            "/o/ce/013625030ba8dba906f756967f9e9ca394464a",
        ),
    ] {
        let found = path_of(rt.alloc(), hash, hex)?;
        compare(hex, found.as_str(), path)?;
    }
    let store = store_at(rt.alloc(), "/o/p", Sha1, None)?;
    let folder = store.path().to_text(rt.alloc())?;
    compare("folder", folder.as_str(), "/o/p")
}
