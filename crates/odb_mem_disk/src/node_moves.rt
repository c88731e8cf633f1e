//! Moves of a directory with all below it: its nodes are copied to their new paths, and then removed from the old
//! ones, so that a move that runs out of memory changes nothing.
ghost use Rattle.std.specs.Prelude.{◌≡◌, ◌++◌, ◌∷◌, [], ℕ, true, false, map, length, drop, IfOk, OnOk, OnErr, IsSome, IfSome, Some, None};
ghost use Rattle.std.specs.Option.{IfNone};
ghost use Rattle.std.specs.List.{starts_with};
ghost use Rattle.odb_base.specs.Path.{Path, same_name};
ghost use Rattle.odb_disk.specs.Tree.{node_at, tree_of_entries, is_directory, IsTree};
ghost use Rattle.odb_disk.specs.Tree.Change.{with_moved};
ghost use Rattle.odb_mem_disk.specs.TreeMoves.{IsNextBelow, NoneBehind, ArePathsBelow, moved_path, is_among, with_copy, with_copies, without_all};

use crate::node_map::{put, take};
use crate::{NoMemory, PathText};
use odb_disk::Node;
use std::alloc::Global;
use std::collections::BTreeMap;
use std::ops::Bound;

/// Moves a directory and what is below it to where nothing is. On error nothing changes.
pub(crate) fn move_below(
    alloc: Global,
    nodes: &mut BTreeMap<PathText, Node>,
    from: &PathText,
    to: &PathText,
) -> Result<(), NoMemory>
    requires is_tree { IsTree (tree_of_entries nodes.old.entries) }
    requires directory { is_directory (node_at (tree_of_entries nodes.old.entries) from.now) ≡ true }
    requires absent { node_at (tree_of_entries nodes.old.entries) to.now ≡ None }
    requires outside { starts_with same_name to.now from.now ≡ false }
    ensures made { OnOk result (tree_of_entries nodes.new.entries ≡ with_moved (tree_of_entries nodes.old.entries) from.now to.now) }
    ensures kept { OnErr result (tree_of_entries nodes.new.entries ≡ tree_of_entries nodes.old.entries) }
{
    let (sources, targets) = paths_below(alloc, nodes, from, to)?;
    match put_copies(alloc, nodes, &sources, &targets) {
        Ok(()) => {
            take_all(nodes, &sources);
            Ok(())
        }
        Err(e) => {
            take_all(nodes, &targets);
            Err(e)
        }
    }
}

/// The paths of the nodes at and below `from`, and the path to which each of them moves.
fn paths_below(
    alloc: Global,
    nodes: &BTreeMap<PathText, Node>,
    from: &PathText,
    to: &PathText,
) -> Result<(Vec<PathText>, Vec<PathText>), NoMemory>
    requires stands { IsSome (node_at (tree_of_entries nodes.now.entries) from.now) }
    ensures sources { IfOk result (λ paths. ArePathsBelow (tree_of_entries nodes.now.entries) from.now paths.0.items) }
    ensures targets { IfOk result (λ paths. paths.1.items ≡ map (moved_path from.now to.now) paths.0.items) }
{
    let mut sources = Vec::new(alloc);
    let mut targets = Vec::new(alloc);
    let mut last = from;
    add_move(alloc, &mut sources, &mut targets, from, from, to)?;
    while let Some((path, _)) = next_below(nodes, from, last) {
        add_move(alloc, &mut sources, &mut targets, path, from, to)?;
        last = path;
    }
    Ok((sources, targets))
}

/// Adds a path that is `from` or below it, and the path to which it moves.
fn add_move(
    alloc: Global,
    sources: &mut Vec<PathText>,
    targets: &mut Vec<PathText>,
    path: &PathText,
    from: &PathText,
    to: &PathText,
) -> Result<(), NoMemory>
    requires below { starts_with same_name path.now from.now ≡ true }
    ensures source { OnOk result (sources.new.items ≡ sources.old.items ++ path.now ∷ []) }
    ensures target { OnOk result (targets.new.items ≡ targets.old.items ++ moved_path from.now to.now path.now ∷ []) }
{
    sources.push(path.try_clone(alloc)?)?;
    targets.push(moved_path(alloc, path, from, to)?)?;
    Ok(())
}

/// The first node after a path, if it is below a directory. The path is the directory's or below it.
pub(crate) fn next_below<'a>(
    nodes: &'a BTreeMap<PathText, Node>,
    base: &PathText,
    last: &PathText,
) -> Option<(&'a PathText, &'a Node)>
    requires below { starts_with same_name last.now base.now ≡ true }
    ensures next { IfSome result (λ next. IsNextBelow (tree_of_entries nodes.now.entries) base.now last.now next.0.now) }
    ensures node { IfSome result (λ next. node_at (tree_of_entries nodes.now.entries) next.0.now ≡ Some next.1.now) }
    ensures none { IfNone result (NoneBehind (tree_of_entries nodes.now.entries) base.now last.now) }
{
    match nodes
        .range((Bound::Excluded(last), Bound::Unbounded))
        .next()
    {
        Some((path, node)) if path.starts_with(base) => Some((path, node)),
        _ => None,
    }
}

/// The path to which a path moves that is `from` or below it.
pub(crate) fn moved_path(
    alloc: Global,
    path: &PathText,
    from: &PathText,
    to: &PathText,
) -> Result<PathText, NoMemory>
    requires below { starts_with same_name path.now from.now ≡ true }
    ensures path { IfOk result (λ moved. moved ≡ moved_path from.now to.now path.now) }
{
    match path.strip_prefix(alloc, from)? {
        Some(rest) => to.followed_by(alloc, &rest),
        None => unreachable!(),
    }
}

/// Puts a copy of each node at a path of its own. On error what is elsewhere stays.
fn put_copies(
    alloc: Global,
    nodes: &mut BTreeMap<PathText, Node>,
    sources: &[PathText],
    targets: &[PathText],
) -> Result<(), NoMemory>
    requires paired { length targets.now ≡ length sources.now }
    ensures made { OnOk result (tree_of_entries nodes.new.entries ≡ with_copies (tree_of_entries nodes.old.entries) sources.now targets.now) }
    ensures others { OnErr result ((q : Path) → is_among q targets.now ≡ false → node_at (tree_of_entries nodes.new.entries) q ≡ node_at (tree_of_entries nodes.old.entries) q) }
{
    for i in 0..sources.len() {
        put_copy(alloc, nodes, &sources[i], &targets[i])?;
    }
    Ok(())
}

/// Puts a copy of the node at a path to another path. On error nothing changes.
fn put_copy(
    alloc: Global,
    nodes: &mut BTreeMap<PathText, Node>,
    source: &PathText,
    target: &PathText,
) -> Result<(), NoMemory>
    ensures made { OnOk result (tree_of_entries nodes.new.entries ≡ with_copy (tree_of_entries nodes.old.entries) source.now target.now) }
    ensures kept { OnErr result (tree_of_entries nodes.new.entries ≡ tree_of_entries nodes.old.entries) }
{
    let Some(node) = nodes.get(source) else {
        return Ok(());
    };
    let copy = node.try_clone(alloc)?;
    put(nodes, target.try_clone(alloc)?, copy)
}

/// Removes what is at each of these paths.
fn take_all(nodes: &mut BTreeMap<PathText, Node>, paths: &[PathText])
    ensures taken { tree_of_entries nodes.new.entries ≡ without_all (tree_of_entries nodes.old.entries) paths.now }
{
    for path in paths {
        take(nodes, path);
    }
}
