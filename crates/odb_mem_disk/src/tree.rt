//! The tree of a disk in memory: its nodes, and what is at a path by its names alone.
use crate::node_map::{
    append, copied, copied_numbers, number_for, put_content, put_over, use_number,
};
use crate::{NoMemory, PathText};
use odb_disk::{Content, Node};
use std::alloc::Global;
use std::collections::{BTreeMap, BTreeSet};
use std::marker::Model;

mod apply;
mod follow;
mod list;
mod possible;
mod write;

pub use list::end_of;

/// The tree of a disk in memory: what is at each path.
///
/// Nodes are kept by their paths, so a look-up is a search in a map. The least inode number that no node has is the
/// least of `free_inos`, else `next_ino`: each number from 1 below `next_ino` is a node's or free.
#[derive(Debug, Drop)]
pub struct Tree {
    nodes: BTreeMap<PathText, Node>,
    next_ino: u64,
    free_inos: BTreeSet<u64>,
}

impl Model for Tree {
    ghost use Rattle.odb_disk.specs.Tree.{Tree as TreeValue, coded_tree, tree_of_entries};

    ghost Value = { TreeValue };

    ghost coded = { coded_tree };

    ghost use Rattle.odb_mem_disk.specs.WellKept.{IsWellKept};

    ghost view = { λ t. tree_of_entries t.nodes.entries };

    ghost invariant = { IsWellKept };
}

/// The most links that are followed on the way of a path: as many as in Linux (`MAXSYMLINKS`).
const MAX_LINKS: u8 = 40;

impl Tree {
    ghost use Rattle.std.specs.Prelude.{◌≡◌, true, false, IfOk, OnOk, OnErr, IsSome, IfSome, Some, None};
    ghost use Rattle.std.specs.Option.{option_copied};
    ghost use Rattle.odb_disk.specs.Tree.{IsTree, node_at, with_node, bare_tree, is_directory};
    ghost use Rattle.odb_disk.specs.Tree.Change.{is_file, is_file_content, longer, parent_node, device_of, lies_in_directory, least_free};
    ghost use Rattle.odb_disk.specs.Tree.Way.{is_link};
    ghost use Rattle.odb_disk.specs.declared.node.Node.{Node as NodeValue};

    /// The root alone, on device 0, with inode number 1.
    pub fn bare(alloc: Global) -> Result<Tree, NoMemory>
        ensures bare { IfOk result (λ tree. tree ≡ bare_tree) }
    {
        let root = Node {
            dev: 0,
            ino: 1,
            content: Content::Dir,
        };
        let mut nodes = BTreeMap::new(alloc);
        nodes.insert(PathText::root(alloc), root)?;
        Ok(Tree {
            nodes,
            next_ino: 2,
            free_inos: BTreeSet::new(alloc),
        })
    }

    /// The node at a path, by its names alone.
    pub fn node(&self, path: &PathText) -> Option<&Node>
        ensures value { option_copied result ≡ node_at self.now path.now }
        ensures is_tree { IsTree self.now }
    {
        self.nodes.get(path)
    }

    /// A copy of the tree.
    pub fn try_clone(&self, alloc: Global) -> Result<Tree, NoMemory>
        ensures copy { IfOk result (λ tree. tree ≡ self.now) }
    {
        Ok(Tree {
            nodes: copied(alloc, &self.nodes)?,
            next_ino: self.next_ino,
            free_inos: copied_numbers(&self.free_inos)?,
        })
    }

    fn lies_in_directory(&self, alloc: Global, path: &PathText) -> Result<bool, NoMemory>
        ensures lies { IfOk result (λ lies. lies ≡ lies_in_directory self.now path.now) }
    {
        let Some(parent) = path.parent(alloc)? else {
            return Ok(false);
        };
        Ok(self.stands_directory(&parent))
    }

    fn stands_directory(&self, path: &PathText) -> bool
        ensures directory { result ≡ is_directory (node_at self.now path.now) }
    {
        match self.node(path) {
            None => false,
            Some(node) => node.is_dir(),
        }
    }

    /// Whether a link is at a path, by its names alone.
    fn stands_link(&self, path: &PathText) -> bool
        ensures link { result ≡ is_link (node_at self.now path.now) }
    {
        match self.node(path) {
            None => false,
            Some(node) => node.is_link(),
        }
    }

    /// Whether a file is at a path, by its names alone.
    fn stands_file(&self, path: &PathText) -> bool
        ensures file { result ≡ is_file (node_at self.now path.now) }
    {
        match self.node(path) {
            None => false,
            Some(node) => node.is_file(),
        }
    }

    /// The device of the directory that contains a path.
    fn device_above(&self, alloc: Global, path: &PathText) -> Result<u64, NoMemory>
        requires lies { lies_in_directory self.now path.now ≡ true }
        ensures device { IfOk result (λ dev. dev ≡ device_of (parent_node self.now path.now)) }
    {
        let Some(parent) = path.parent(alloc)? else {
            unreachable!("it lies in a directory");
        };
        match self.node(&parent) {
            Some(node) => Ok(node.dev),
            None => unreachable!("it lies in a directory"),
        }
    }

    /// Puts a new node at a path, with the least free inode number. On error nothing changes.
    fn put_new(
        &mut self,
        alloc: Global,
        path: &PathText,
        dev: u64,
        content: Content,
    ) -> Result<(), NoMemory>
        requires lies { lies_in_directory self.old path.now ≡ true }
        requires no_directory { is_directory (node_at self.old path.now) ≡ false }
        ensures made { OnOk result (self.new ≡ with_node self.old path.now (record { dev = dev; ino = least_free self.old; content = content })) }
        ensures kept { OnErr result (self.new ≡ self.old) }
    {
        let ino = number_for(&self.nodes, path, &mut self.free_inos, self.next_ino)?;
        put_over(alloc, &mut self.nodes, path, Node { dev, ino, content })?;
        use_number(ino, &mut self.free_inos, &mut self.next_ino);
        Ok(())
    }

    /// Gives the node at a path other contents.
    fn put_content(&mut self, path: &PathText, content: Content)
        requires lies { lies_in_directory self.old path.now ≡ true }
        requires no_directory { is_directory (node_at self.old path.now) ≡ false }
        requires stands { IsSome (node_at self.old path.now) }
        ensures made { (node : NodeValue) → node_at self.old path.now ≡ Some node → self.new ≡ with_node self.old path.now (record node { content = content }) }
    {
        put_content(&mut self.nodes, path, content);
    }

    /// Appends bytes to the file at a path. On error nothing changes.
    fn append_at(&mut self, alloc: Global, path: &PathText, more: &[u8]) -> Result<(), NoMemory>
        requires stands { IsSome (node_at self.old path.now) }
        requires file { IfSome (node_at self.old path.now) (λ node. is_file_content node.content ≡ true) }
        ensures made { OnOk result ((node : NodeValue) → node_at self.old path.now ≡ Some node → self.new ≡ with_node self.old path.now (record node { content = longer node.content more.now })) }
        ensures kept { OnErr result (self.new ≡ self.old) }
    {
        append(alloc, &mut self.nodes, path, more)
    }
}
