//! Orders for the entries of a directory.
ghost use Rattle.std.specs.Prelude.{◌≡◌};
ghost use Rattle.std.specs.Cmp.{IsTotalOrder};
ghost use Rattle.odb_base.specs.Path.{name_cmp};
ghost use Rattle.walkdir.specs.Entry.{file_name_of};
ghost use Rattle.walkdir.specs.Sorted.{all_equal, all_equal_total, by_name_total, by_key, by_key_total};
ghost use Rattle.walkdir.specs.declared.dent.DirEntry.{DirEntry as EntryValue};
ghost use Rattle.std.specs.declared.cmp.Ordering.{Ordering as OrderingValue};

use crate::DirEntry;
use std::cmp::Ordering;

/// An order of entries. Entries that it takes for equal stay in the order of the stream.
pub trait Sorter {
    /// The order.
    ghost order: { Self → EntryValue → EntryValue → OrderingValue };

    /// Compares two entries.
    fn compare(&self, a: &DirEntry, b: &DirEntry) -> Ordering
        ensures compared { result ≡ order self.now a.now b.now };

    /// It is a total order.
    ghost total: { (sorter : Self) → IsTotalOrder (order sorter) };
}

/// A key of entries.
pub trait KeyOf {
    type Key: Ord + Drop;

    /// The key.
    ghost key_of: { Self → EntryValue → Self.Key };

    /// The key of an entry.
    fn key(&self, entry: &DirEntry) -> Self::Key
        ensures told { result ≡ key_of self.now entry.now };
}

/// No order: entries stay in the order of the stream, and no directory is read before it is walked.
#[derive(Clone, Copy)]
pub struct NoSort;

impl Sorter for NoSort {
    ghost order = { λ _. all_equal };

    fn compare(&self, _a: &DirEntry, _b: &DirEntry) -> Ordering {
        Ordering::Equal
    }

    ghost total = { λ _. all_equal_total };
}

/// The order of the bytes of file names.
#[derive(Clone, Copy)]
pub struct ByName;

impl Sorter for ByName {
    ghost order = { λ _ a b. name_cmp (file_name_of a) (file_name_of b) };

    fn compare(&self, a: &DirEntry, b: &DirEntry) -> Ordering {
        a.file_name().as_bytes().cmp(b.file_name().as_bytes())
    }

    ghost total = { λ _. by_name_total };
}

/// The order of entries' keys.
#[derive(Drop)]
pub struct ByKey<K> {
    key: K,
}

impl<K> ByKey<K> {
    pub(crate) fn new(key: K) -> ByKey<K>
        ensures key { result.key ≡ key }
    {
        ByKey { key }
    }
}

impl<K: KeyOf> Sorter for ByKey<K> {
    ghost order = { λ sorter. by_key K.Key.cmp (K.key_of sorter.key) };

    fn compare(&self, a: &DirEntry, b: &DirEntry) -> Ordering {
        self.key.key(a).cmp(&self.key.key(b))
    }

    ghost total = { λ sorter. by_key_total K.Key.total (K.key_of sorter.key) };
}
