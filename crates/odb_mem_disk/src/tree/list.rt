//! The entries of a directory.
ghost use Rattle.std.specs.Prelude.{◌≡◌, ◌≢◌, [], ◌∷◌, ◌++◌, true, IfOk, IfSome, OnOk, Err, IsSome};
ghost use Rattle.std.specs.Option.{IfNone, option_copied};
ghost use Rattle.std.specs.List.{filter_map, starts_with};
ghost use Rattle.std.specs.String.{string_bytes};
ghost use Rattle.std.specs.declared.cmp.Ordering.TheVariants.{Less};
ghost use Rattle.odb_base.specs.Path.{Path, path_cmp, same_name};
ghost use Rattle.odb_disk.specs.Answers.{Answers};
ghost use Rattle.odb_disk.specs.Entries.{opened, entries_in, entry_in};
ghost use Rattle.odb_mem_disk.specs.Listing.{GoesTo, entries_after};
ghost use Rattle.odb_disk.specs.Tree.{node_at, tree_of_entries};

use super::{MAX_LINKS, Tree};
use crate::node_map::path_before;
use crate::{BadPath, NoMemory, PathName, PathText};
use odb_disk::{DiskError, Entry, EntryQueue, Node};
use std::alloc::Global;
use std::collections::BTreeMap;
use std::ops::Bound;

impl Tree {
    /// The entries of the directory that a path leads to, following links, in the order of the bytes of their names.
    pub fn entries(&self, alloc: Global, path: &PathText) -> Result<EntryQueue, DiskError>
        ensures answer { Answers result (opened self.now path.now) }
        ensures never_fails { result ≢ Err DiskError.Failed }
    {
        let place = self.place(alloc, path, MAX_LINKS)?;
        if !self.stands_directory(&place) {
            return Err(DiskError::WrongKind);
        }
        Ok(entries_below(alloc, &self.nodes, &place)?)
    }
}

/// The entries of a directory. What is below one of them comes right after it, and is passed in one step.
fn entries_below(
    alloc: Global,
    nodes: &BTreeMap<PathText, Node>,
    directory: &PathText,
) -> Result<EntryQueue, NoMemory>
    ensures entries { IfOk result (λ entries. entries ≡ entries_in (tree_of_entries nodes.now.entries) directory.now) }
{
    let mut entries = EntryQueue::new(alloc);
    let mut last = directory;
    while let Some(path) = add_entries(alloc, &mut entries, nodes, directory, last)? {
        last = last_below(alloc, nodes, path)?;
    }
    Ok(entries)
}

/// Adds the entries of a directory after a path, up to the first that has a node below it, and returns its path.
fn add_entries<'a>(
    alloc: Global,
    entries: &mut EntryQueue,
    nodes: &'a BTreeMap<PathText, Node>,
    directory: &PathText,
    last: &PathText,
) -> Result<Option<&'a PathText>, NoMemory>
    requires below { starts_with same_name last.now directory.now ≡ true }
    ensures went { IfOk result (λ to. IfSome to (λ to. GoesTo (tree_of_entries nodes.now.entries) directory.now last.now to.now entries.old entries.new)) }
    ensures ended { IfOk result (λ to. IfNone to (entries.new ≡ entries.old ++ entries_after (tree_of_entries nodes.now.entries) directory.now last.now)) }
{
    let mut previous: Option<&'a PathText> = None;
    for (path, node) in nodes.range((Bound::Excluded(last), Bound::Unbounded)) {
        match previous {
            Some(entry) if path.starts_with(entry) => return Ok(Some(entry)),
            _ => {}
        }
        let Some(rest) = path.strip_prefix(alloc, directory)? else {
            return Ok(None);
        };
        add_entry(alloc, entries, &rest, node)?;
        previous = if_directory(path, node);
    }
    Ok(None)
}

/// The path of a node, if others may be below it.
fn if_directory<'a>(path: &'a PathText, node: &Node) -> Option<&'a PathText>
    ensures directory { IfSome (option_copied result) (λ directory. directory ≡ path.now) }
{
    if node.is_dir() { Some(path) } else { None }
}

/// The last path of the nodes below a node, or its own if there are none.
fn last_below<'a>(
    alloc: Global,
    nodes: &'a BTreeMap<PathText, Node>,
    path: &'a PathText,
) -> Result<&'a PathText, NoMemory>
    requires stands { IsSome (node_at (tree_of_entries nodes.now.entries) path.now) }
    ensures below { IfOk result (λ last. starts_with same_name last.now path.now ≡ true) }
    ensures stands { IfOk result (λ last. IsSome (node_at (tree_of_entries nodes.now.entries) last.now)) }
{
    let Some(end) = end_of(alloc, path)? else {
        return Ok(path);
    };
    match path_before(nodes, &end) {
        Some(last) if last.starts_with(path) => Ok(last),
        _ => Ok(path),
    }
}

/// A path after all that is below another one: a name has no NUL, so only what begins with a name comes between it
/// and the name with the byte 1 added. The root has no such path.
pub fn end_of(alloc: Global, path: &PathText) -> Result<Option<PathText>, NoMemory>
    ensures end { IfOk result (λ end. IfSome end (λ end. (rest : Path) → path_cmp (path.now ++ rest) end ≡ Less)) }
{
    let Some(directory) = path.parent(alloc)? else {
        return Ok(None);
    };
    let Some(name) = path.file_name() else {
        return Ok(None);
    };
    let behind = name_behind(alloc, name)?;
    match directory.join(alloc, behind.as_str()) {
        Ok(end) => Ok(Some(end)),
        Err(BadPath::NoMemory) => Err(NoMemory),
        Err(_) => Ok(None),
    }
}

/// A name with the byte 1 after it.
fn name_behind(alloc: Global, name: &str) -> Result<String, NoMemory>
    ensures behind { IfOk result (λ behind. string_bytes behind ≡ name.now ++ 1 ∷ []) }
{
    let mut behind = name.to_string(alloc)?;
    behind.push_str("\u{1}")?;
    Ok(behind)
}

/// Adds the entry of a node whose path has one name below the directory.
fn add_entry(
    alloc: Global,
    entries: &mut EntryQueue,
    below: &PathText,
    node: &Node,
) -> Result<(), NoMemory>
    ensures added { OnOk result (entries.new ≡ entries.old ++ filter_map (entry_in []) ((below.now, node.now) ∷ [])) }
{
    let names = below.names(alloc)?;
    let [name] = names.as_slice() else {
        return Ok(());
    };
    entries.push(Entry {
        name: PathName::new(alloc, name)?,
        kind: node.kind(),
        ino: node.ino,
    })
}
