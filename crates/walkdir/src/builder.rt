//! Builds a walk from its root, options and order.
ghost use Rattle.std.specs.Prelude.{◌≡◌, min, max, IfOk, IfErr, Some, None, true};
ghost use Rattle.walkdir.specs.Options.{default_options, with_options};

use crate::iter::{IntoIter, OnDisk};
use crate::sort::{ByKey, ByName, KeyOf, NoSort, Sorter};
use crate::stack::Stack;
use odb_disk::Disk;
use odb_mem_disk::{NoMemory, PathText};
use std::alloc::Global;
use std::marker::Model;

/// The default for the number of directories open at once, as in the crate `walkdir`.
const DEFAULT_MAX_OPEN: usize = 10;

/// The options of a walk.
#[derive(Clone, Copy)]
pub struct Options {
    pub(crate) follow_links: bool,
    pub(crate) follow_root_links: bool,
    pub(crate) max_open: usize,
    pub(crate) min_depth: usize,
    pub(crate) max_depth: usize,
    pub(crate) contents_first: bool,
    pub(crate) same_file_system: bool,
}

/// Builds a walk of the tree below a root.
///
/// Without other calls a walk gives a directory before its contents, in the order of the disk's streams, follows no
/// link but the root, and keeps at most ten directories open.
#[derive(Drop)]
pub struct WalkDir<S> {
    root: PathText,
    options: Options,
    sorter: Option<S>,
}

impl<S> Model for WalkDir<S> {
    ghost use Rattle.walkdir.specs.Options.{AreBuilt, Built, coded_built};

    ghost Value = { Built S };

    ghost coded = { coded_built S.code };

    ghost view = { λ walk. record { root = walk.root; options = walk.options; sorter = walk.sorter } };

    ghost invariant = { λ walk. AreBuilt walk.options };
}

impl WalkDir<NoSort> {
    /// A walk from a root, which it takes. It allocates no memory.
    pub fn at(root: PathText) -> WalkDir<NoSort>
        ensures root { result.root ≡ root }
        ensures options { result.options ≡ default_options }
        ensures sorter { result.sorter ≡ None }
    {
        let options = Options {
            follow_links: false,
            follow_root_links: true,
            max_open: DEFAULT_MAX_OPEN,
            min_depth: 0,
            max_depth: usize::MAX,
            contents_first: false,
            same_file_system: false,
        };
        WalkDir {
            root,
            options,
            sorter: None,
        }
    }

    /// A walk from a root, which may be a file or a link.
    pub fn new(alloc: Global, root: &PathText) -> Result<WalkDir<NoSort>, NoMemory>
        ensures root { IfOk result (λ walk. walk.root ≡ root.now) }
        ensures options { IfOk result (λ walk. walk.options ≡ default_options) }
        ensures sorter { IfOk result (λ walk. walk.sorter ≡ None) }
    {
        Ok(WalkDir::at(root.try_clone(alloc)?))
    }
}

impl<S: Drop> WalkDir<S> {
    ghost use Rattle.odb_disk.specs.Streams.{Streams};
    ghost use Rattle.odb_disk.specs.Tree.{Tree};
    ghost use Rattle.walkdir.specs.BuiltWalk.{walking};
    ghost use Rattle.walkdir.specs.Progress.{begun, has_its_streams};
    ghost use Rattle.walkdir.specs.StackProgress.{progress};
    ghost use Rattle.walkdir.specs.Walk.{Order};
    ghost use Rattle.walkdir.specs.WalkLaws.{GiveOneList};

    /// Gives entries from this depth on. The root has depth 0, and a depth above `max_depth` is cut to it.
    pub fn min_depth(mut self, depth: usize) -> Self
        ensures options { result ≡ with_options self (record self.options { min_depth = min depth self.options.max_depth }) }
    {
        self.options.min_depth = depth.min(self.options.max_depth);
        self
    }

    /// Gives entries up to this depth, and enters no directory there. A depth below `min_depth` is raised to it.
    pub fn max_depth(mut self, depth: usize) -> Self
        ensures options { result ≡ with_options self (record self.options { max_depth = max depth self.options.min_depth }) }
    {
        self.options.max_depth = depth.max(self.options.min_depth);
        self
    }

    /// Whether links are followed. If so, a link that leads to a directory above it is an error.
    pub fn follow_links(mut self, yes: bool) -> Self
        ensures options { result ≡ with_options self (record self.options { follow_links = yes }) }
    {
        self.options.follow_links = yes;
        self
    }

    /// Whether a root that is a link to a directory is entered. Its entry is a link even then.
    pub fn follow_root_links(mut self, yes: bool) -> Self
        ensures options { result ≡ with_options self (record self.options { follow_root_links = yes }) }
    {
        self.options.follow_root_links = yes;
        self
    }

    /// The most directories that are open at one time; 0 counts as 1. Beyond it, the rest of a directory is read into
    /// memory. On a tree that doesn't change and without failures, what the walk gives doesn't depend on it.
    pub fn max_open(mut self, count: usize) -> Self
        ensures options { result ≡ with_options self (record self.options { max_open = max count 1 }) }
        ensures same { (tree : Tree) (order : S → Order)
            → GiveOneList (walking order tree self) (walking order tree result) }
    {
        self.options.max_open = count.max(1);
        self
    }

    /// Whether a directory is given after its contents.
    pub fn contents_first(mut self, yes: bool) -> Self
        ensures options { result ≡ with_options self (record self.options { contents_first = yes }) }
    {
        self.options.contents_first = yes;
        self
    }

    /// Whether directories on other devices than the root's are given, but not entered.
    pub fn same_file_system(mut self, yes: bool) -> Self
        ensures options { result ≡ with_options self (record self.options { same_file_system = yes }) }
    {
        self.options.same_file_system = yes;
        self
    }

    /// Gives the entries of each directory in an order.
    pub fn sort_by<T: Sorter>(self, sorter: T) -> WalkDir<T>
        ensures sorted { result ≡ record { root = self.root; options = self.options; sorter = Some sorter } }
    {
        WalkDir {
            root: self.root,
            options: self.options,
            sorter: Some(sorter),
        }
    }

    /// Gives the entries of each directory in the order of their keys.
    pub fn sort_by_key<K: KeyOf>(self, key: K) -> WalkDir<ByKey<K>>
        ensures sorted { result
            ≡ record { root = self.root; options = self.options; sorter = Some (record { key = key }) } }
    {
        self.sort_by(ByKey::new(key))
    }

    /// Gives the entries of each directory in the order of the bytes of their names.
    pub fn sort_by_file_name(self) -> WalkDir<ByName>
        ensures sorted { result ≡ record { root = self.root; options = self.options; sorter = Some (record {}) } }
    {
        self.sort_by(ByName)
    }

    /// The state of the walk without its disk, before it begins.
    pub fn into_stack(self, alloc: Global) -> Stack<S>
    where
        S: Sorter,
        ensures begun { (streams : Streams) → progress S.order result streams ≡ begun S.order self streams }
    {
        Stack::new(alloc, self.options, self.sorter, self.root)
    }

    /// The walk on a disk, which it borrows while it goes on. It never fails.
    pub fn into_iter_on<'d, D: Disk>(
        self,
        alloc: Global,
        disk: &'d mut D,
    ) -> Result<IntoIter<'d, D, S>, NoMemory>
    where
        S: Sorter,
        ensures made { IfErr result (λ _. ⊥) }
        ensures begun { IfOk result
            (λ walk. progress S.order walk.walk (D.streams walk.disk.now) ≡ begun S.order self (D.streams disk.old)) }
        ensures own { IfOk result
            (λ walk. has_its_streams (progress S.order walk.walk (D.streams walk.disk.now)) ≡ true) }
        ensures disk { IfOk result (λ walk. walk.disk.ghost_name ≡ disk.entry.ghost_name) }
        ensures same { IfOk result (λ walk. walk.disk.now ≡ disk.old) }
    {
        Ok(OnDisk::new(disk, self.into_stack(alloc)))
    }
}
