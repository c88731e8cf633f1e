//! The order of Git's trees.
ghost use Rattle.std.specs.Prelude.{◌≡◌};
ghost use Rattle.gix_features.specs.GitOrder.{git_order, git_order_total, slash_behind};

use odb_mem_disk::Kind;
use std::cmp::Ordering;
use walkdir::{DirEntry, Sorter};

/// The order of name bytes in which a directory's name counts as if `/` followed it: Git's order of tree entries.
#[derive(Clone, Copy)]
pub struct GitOrder;

impl Sorter for GitOrder {
    ghost order = { λ _. git_order };

    fn compare(&self, a: &DirEntry, b: &DirEntry) -> Ordering {
        let own = a.file_name().as_bytes().iter().chain(slash_behind(a));
        let other = b.file_name().as_bytes().iter().chain(slash_behind(b));
        own.cmp(other)
    }

    ghost total = { λ _. git_order_total };
}

/// What counts after the name of an entry: a slash after that of a directory, else nothing.
fn slash_behind(entry: &DirEntry) -> &'static [u8]
    ensures told { result.now ≡ slash_behind entry.now }
{
    if entry.file_type() == Kind::Dir {
        b"/"
    } else {
        &[]
    }
}
