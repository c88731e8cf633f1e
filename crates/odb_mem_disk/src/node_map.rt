//! The nodes of a tree by their paths, and its free inode numbers.
ghost use Rattle.std.specs.Prelude.{◌≡◌, ◌≢◌, ◌↔◌, ◌==◌, ◌&&◌, ◌+◌, ◌-◌, ◌^◌, ◌<◌, ℕ, true, false, not, IfOk, OnOk, OnErr, IsTrue, IsSome, Some, None, if◌then◌else◌};
ghost use Rattle.odb_base.specs.Path.{Path};
ghost use Rattle.odb_disk.specs.Tree.{node_at, tree_of_entries, with_node, without, IsTree, names_in};
ghost use Rattle.std.specs.Option.{option_copied};
ghost use Rattle.odb_disk.specs.Tree.Change.{is_nil, longer, with_time};
ghost use Rattle.odb_disk.specs.TreeCalls.{IsLastBefore};
ghost use Rattle.odb_disk.specs.TreeNumbers.{is_listed, last_number, Frees, IsLeastFree};
ghost use Rattle.odb_disk.specs.declared.node.Node.{Node as NodeValue};

use crate::{NoMemory, PathText};
use odb_disk::{Content, Node};
use std::alloc::Global;
use std::collections::{BTreeMap, BTreeSet};
use std::ops::Bound;

/// Puts a node at a path. It fails only if nothing is there, and then changes nothing.
pub(crate) fn put(
    nodes: &mut BTreeMap<PathText, Node>,
    path: PathText,
    node: Node,
) -> Result<(), NoMemory>
    ensures made { OnOk result (tree_of_entries nodes.new.entries ≡ with_node (tree_of_entries nodes.old.entries) path node) }
    ensures kept { OnErr result (nodes.new.entries ≡ nodes.old.entries) }
    ensures absent { OnErr result (node_at (tree_of_entries nodes.old.entries) path ≡ None) }
{
    nodes.insert(path, node)?;
    Ok(())
}

/// Gives the node at a path other contents.
pub(crate) fn put_content(nodes: &mut BTreeMap<PathText, Node>, path: &PathText, content: Content)
    ensures made { (node : NodeValue) → node_at (tree_of_entries nodes.old.entries) path.now ≡ Some node
        → tree_of_entries nodes.new.entries ≡ with_node (tree_of_entries nodes.old.entries) path.now (record node { content = content }) }
{
    if let Some(node) = nodes.get_mut(path) {
        node.content = content;
    }
}

/// Sets the time of the file at a path.
pub(crate) fn put_time(nodes: &mut BTreeMap<PathText, Node>, path: &PathText, time: u64)
    ensures made { tree_of_entries nodes.new.entries ≡ with_time (tree_of_entries nodes.old.entries) path.now time (node_at (tree_of_entries nodes.old.entries) path.now) }
{
    if let Some(node) = nodes.get_mut(path) {
        node.set_time(time);
    }
}

/// Appends bytes to the file at a path. On error nothing changes.
pub(crate) fn append(
    alloc: Global,
    nodes: &mut BTreeMap<PathText, Node>,
    path: &PathText,
    more: &[u8],
) -> Result<(), NoMemory>
    ensures made { OnOk result ((node : NodeValue) → node_at (tree_of_entries nodes.old.entries) path.now ≡ Some node
        → tree_of_entries nodes.new.entries ≡ with_node (tree_of_entries nodes.old.entries) path.now (record node { content = longer node.content more.now })) }
    ensures kept { OnErr result (tree_of_entries nodes.new.entries ≡ tree_of_entries nodes.old.entries) }
{
    match nodes.get_mut(path) {
        None => Ok(()),
        Some(node) => node.append(alloc, more),
    }
}

/// Moves the node at a path to another path, over what is there. It fails only if nothing is there, and then changes
/// nothing.
pub(crate) fn move_node(
    alloc: Global,
    nodes: &mut BTreeMap<PathText, Node>,
    from: &PathText,
    to: &PathText,
) -> Result<(), NoMemory>
    ensures made { OnOk result ((node : NodeValue) → node_at (tree_of_entries nodes.old.entries) from.now ≡ Some node → from.now ≢ to.now
        → tree_of_entries nodes.new.entries ≡ with_node (without (tree_of_entries nodes.old.entries) from.now) to.now node) }
    ensures kept { OnErr result (tree_of_entries nodes.new.entries ≡ tree_of_entries nodes.old.entries) }
    ensures absent { OnErr result (node_at (tree_of_entries nodes.old.entries) to.now ≡ None) }
{
    make_room(alloc, nodes, to)?;
    if let Some(node) = nodes.remove(from) {
        put_node(nodes, to, node);
    }
    Ok(())
}

/// Puts a node where nothing is, as room for another. It fails only if nothing is there, and then changes nothing.
fn make_room(
    alloc: Global,
    nodes: &mut BTreeMap<PathText, Node>,
    path: &PathText,
) -> Result<(), NoMemory>
    ensures stands { OnOk result (IsSome (node_at (tree_of_entries nodes.new.entries) path.now)) }
    ensures others { OnOk result ((q : Path) → q ≢ path.now → node_at (tree_of_entries nodes.new.entries) q ≡ node_at (tree_of_entries nodes.old.entries) q) }
    ensures kept { OnErr result (tree_of_entries nodes.new.entries ≡ tree_of_entries nodes.old.entries) }
    ensures absent { OnErr result (node_at (tree_of_entries nodes.old.entries) path.now ≡ None) }
{
    let None = nodes.get(path) else {
        return Ok(());
    };
    let room = Node {
        dev: 0,
        ino: 0,
        content: Content::Dir,
    };
    put(nodes, path.try_clone(alloc)?, room)
}

/// Puts a node at a path, over what is there. It fails only if nothing is there, and then changes nothing.
pub(crate) fn put_over(
    alloc: Global,
    nodes: &mut BTreeMap<PathText, Node>,
    path: &PathText,
    node: Node,
) -> Result<(), NoMemory>
    ensures made { OnOk result (tree_of_entries nodes.new.entries ≡ with_node (tree_of_entries nodes.old.entries) path.now node) }
    ensures kept { OnErr result (tree_of_entries nodes.new.entries ≡ tree_of_entries nodes.old.entries) }
    ensures absent { OnErr result (node_at (tree_of_entries nodes.old.entries) path.now ≡ None) }
{
    make_room(alloc, nodes, path)?;
    put_node(nodes, path, node);
    Ok(())
}

/// Puts a node over the one at a path.
fn put_node(nodes: &mut BTreeMap<PathText, Node>, path: &PathText, node: Node)
    ensures made { IsSome (node_at (tree_of_entries nodes.old.entries) path.now)
        → tree_of_entries nodes.new.entries ≡ with_node (tree_of_entries nodes.old.entries) path.now node }
{
    if let Some(old) = nodes.get_mut(path) {
        *old = node;
    }
}

/// Removes the node at a path.
pub(crate) fn take(nodes: &mut BTreeMap<PathText, Node>, path: &PathText)
    ensures taken { tree_of_entries nodes.new.entries ≡ without (tree_of_entries nodes.old.entries) path.now }
{
    let _ = nodes.remove(path);
}

/// Whether a directory has names in it, by the first path after its own.
pub(crate) fn has_names(nodes: &BTreeMap<PathText, Node>, directory: &PathText) -> bool
    requires is_tree { IsTree (tree_of_entries nodes.now.entries) }
    ensures names { result ≡ not (is_nil (names_in (tree_of_entries nodes.now.entries) directory.now)) }
{
    match nodes
        .range((Bound::Excluded(directory), Bound::Unbounded))
        .next()
    {
        None => false,
        Some((path, _)) => path.starts_with(directory),
    }
}

/// The last path with a node before another path.
pub(crate) fn path_before<'a>(
    nodes: &'a BTreeMap<PathText, Node>,
    path: &PathText,
) -> Option<&'a PathText>
    ensures last { IsLastBefore (tree_of_entries nodes.now.entries) path.now (option_copied result) }
{
    match nodes
        .range((Bound::Unbounded, Bound::Excluded(path)))
        .next_back()
    {
        None => None,
        Some((last, _)) => Some(last),
    }
}

/// The number of a new node at a path: the least that is free. The number of the node already there is freed. On
/// error nothing changes.
pub(crate) fn number_for(
    nodes: &BTreeMap<PathText, Node>,
    path: &PathText,
    free: &mut BTreeSet<u64>,
    next: u64,
) -> Result<u64, NoMemory>
    ensures least { IfOk result (IsLeastFree free.old.keys next) }
    ensures freed { OnOk result (Frees (node_at (tree_of_entries nodes.now.entries) path.now) free.old.keys free.new.keys) }
    ensures kept { OnErr result (free.new.keys ≡ free.old.keys) }
{
    let number = least_number(free, next)?;
    free_number(nodes, path, free)?;
    Ok(number)
}

/// The least free number: the least of `free`, else `next`, unless no number can follow that.
fn least_number(free: &BTreeSet<u64>, next: u64) -> Result<u64, NoMemory>
    ensures least { IfOk result (IsLeastFree free.now.keys next) }
{
    match free.first() {
        Some(number) => Ok(*number),
        None if next < u64::MAX => Ok(next),
        None => Err(NoMemory),
    }
}

/// Frees the number of the node at a path, if there is one. On error nothing changes.
pub(crate) fn free_number(
    nodes: &BTreeMap<PathText, Node>,
    path: &PathText,
    free: &mut BTreeSet<u64>,
) -> Result<(), NoMemory>
    ensures freed { OnOk result (Frees (node_at (tree_of_entries nodes.now.entries) path.now) free.old.keys free.new.keys) }
    ensures kept { OnErr result (free.new.keys ≡ free.old.keys) }
{
    if let Some(node) = nodes.get(path) {
        free.insert(node.ino)?;
    }
    Ok(())
}

/// Takes a free number for a node.
pub(crate) fn use_number(number: u64, free: &mut BTreeSet<u64>, next: &mut u64)
    requires room { number ≡ next.old → next.old < last_number }
    ensures next { next.new ≡ (if number == next.old then next.old + 1 else next.old) }
    ensures used { (n : ℕ) → is_listed free.new.keys n ≡ (if number == next.old then is_listed free.old.keys n else not (number == n) && is_listed free.old.keys n) }
{
    if number == *next {
        *next += 1;
    } else {
        let _ = free.remove(&number);
    }
}

/// A copy of the nodes.
pub(crate) fn copied(
    alloc: Global,
    nodes: &BTreeMap<PathText, Node>,
) -> Result<BTreeMap<PathText, Node>, NoMemory>
    ensures copy { IfOk result (λ copy. tree_of_entries copy.entries ≡ tree_of_entries nodes.now.entries) }
{
    let mut copy = BTreeMap::new(alloc);
    for (path, node) in nodes {
        put(&mut copy, path.try_clone(alloc)?, node.try_clone(alloc)?)?;
    }
    Ok(copy)
}

/// A copy of a set of numbers.
pub(crate) fn copied_numbers(numbers: &BTreeSet<u64>) -> Result<BTreeSet<u64>, NoMemory>
    ensures copy { IfOk result (λ copy. copy.keys ≡ numbers.now.keys) }
{
    Ok(numbers.clone()?)
}
