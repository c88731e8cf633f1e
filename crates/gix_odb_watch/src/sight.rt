//! A tree as it is, or as it will be after a change, with no copy of it.
ghost use Rattle.std.specs.Prelude.{◌≡◌, ◌++◌, [], true, None, Some, is_some, IfOk, OnOk};
ghost use Rattle.std.specs.Option.{option_copied};
ghost use Rattle.std.specs.Result.{result_ok};
ghost use Rattle.odb_base.specs.Path.{Path};
ghost use Rattle.odb_disk.specs.Tree.{IsTree};
ghost use Rattle.odb_disk.specs.Tree.Change.{changed, is_possible_in};
ghost use Rattle.odb_disk.specs.Tree.Follow.{at_last, file_of, followed_within, pass, read_of};
ghost use Rattle.odb_disk.specs.declared.node.Node.{Node};
ghost use Rattle.odb_mem_disk.specs.PassCalls.{onward_of};
ghost use Rattle.gix_odb_watch.specs.Files.{listed_paths};
ghost use Rattle.gix_odb_watch.specs.Over.{content_at, place_put};
ghost use Rattle.gix_odb_watch.specs.Sight.{ArePathsIn, IsEnd, IsFound, put_path};

use crate::over::{Over, content, moved, origin, over_of, put_place};
use crate::shown_file::listed;
use crate::watched::joined;
use odb_base::{ByteList, NoMemory, PathText, Shared};
use odb_disk::{Change, Content};
use odb_mem_disk::Tree;
use std::alloc::Global;
use std::marker::Model;

/// The most links that are followed on the way of a path.
const MAX_LINKS: u8 = 40;

/// A tree as it is, or as it will be after a change.
#[derive(Drop)]
pub(crate) struct Sight<'a> {
    tree: &'a Tree,
    change: Option<&'a Change>,
    over: Over,
}

impl<'a> Model for Sight<'a> {
    ghost use Rattle.odb_disk.specs.Tree.{Tree as TreeValue, coded_tree};
    ghost use Rattle.std.specs.Option.{option_copied};
    ghost use Rattle.odb_disk.specs.Tree.Write.{changed_by};
    ghost use Rattle.gix_odb_watch.specs.Over.{IsLaid};

    ghost Value = { TreeValue };

    ghost coded = { coded_tree };

    ghost view = { λ s. changed_by s.tree.now (option_copied s.change) };

    ghost invariant = { λ s. IsLaid s.tree.now s.over (changed_by s.tree.now (option_copied s.change)) };
}

/// Where one pass along the names of a path ends.
#[derive(Drop)]
pub(crate) enum End<'a> {
    /// At this, which is no link.
    At(&'a Content),
    /// A link leads on to this path.
    Onward(PathText),
    Nowhere,
}

/// What a path leads to.
#[derive(Drop)]
pub(crate) struct Found<'a> {
    pub place: PathText,
    pub content: &'a Content,
}

impl<'a> Sight<'a> {
    /// Returns the tree as it is.
    pub(crate) fn now(tree: &'a Tree) -> Sight<'a>
        requires is_tree { IsTree tree.now }
        ensures now { result ≡ tree.now }
    {
        Sight {
            tree,
            change: None,
            over: Over::Nothing,
        }
    }

    /// Returns the tree as it will be after a change.
    pub(crate) fn after(
        alloc: Global,
        tree: &'a Tree,
        change: &'a Change,
    ) -> Result<Sight<'a>, NoMemory>
        requires is_tree { IsTree tree.now }
        requires possible { is_possible_in tree.now change.now ≡ true }
        ensures after { IfOk result (λ sight. sight ≡ changed tree.now change.now) }
    {
        Ok(Sight {
            tree,
            change: Some(change),
            over: over_of(alloc, tree, change)?,
        })
    }

    /// Returns whether a link leads on from a path.
    pub(crate) fn leads_on(&self, alloc: Global, path: &PathText) -> Result<bool, NoMemory>
        ensures leads { IfOk result (λ leads. leads ≡ is_some (onward_of (pass self.now true [] path.now))) }
    {
        Ok(matches!(self.pass(alloc, path)?, End::Onward(_)))
    }

    /// Returns the bytes, shared, and the time of the file that a path leads to, if it leads to one.
    #[tactic(auto, using(crate::proofs::SightLemmas::found_read, crate::proofs::SightLemmas::refused_read))]
    pub(crate) fn read(
        &self,
        alloc: Global,
        path: &PathText,
    ) -> Result<Option<(Shared<ByteList>, u64)>, NoMemory>
        ensures read { IfOk result (λ file. file ≡ result_ok (read_of self.now path.now)) }
    {
        match self.follow(alloc, path, MAX_LINKS)? {
            None => Ok(None),
            Some(found) => file_of(found.content),
        }
    }

    /// Returns the paths of a directory at which there is something, and perhaps more.
    pub(crate) fn paths_in(
        &self,
        alloc: Global,
        directory: &PathText,
    ) -> Result<Vec<PathText>, NoMemory>
        ensures paths { IfOk result (λ paths. ArePathsIn self.now directory.now paths.items) }
    {
        match self.follow(alloc, directory, MAX_LINKS)? {
            None => Ok(Vec::new(alloc)),
            Some(found) => {
                let listed_at = origin(alloc, &self.over, &found.place)?;
                paths_at(alloc, self.tree, &self.over, &listed_at, directory)
            }
        }
    }

    /// Returns what a path leads to, with so many links left.
    fn follow<'b>(
        &'b self,
        alloc: Global,
        path: &PathText,
        links: u8,
    ) -> Result<Option<Found<'b>>, NoMemory>
        ensures found { IfOk result (IsFound (followed_within links self.now true path.now)) }
    {
        match self.pass(alloc, path)? {
            End::At(content) => Ok(Some(Found {
                place: path.try_clone(alloc)?,
                content,
            })),
            End::Nowhere => Ok(None),
            End::Onward(_) if links == 0 => Ok(None),
            End::Onward(onward) => self.follow(alloc, &onward, links - 1),
        }
    }

    /// Passes along the names of a path once. Where nothing is at a path, its directory says where the pass ends.
    fn pass<'b>(&'b self, alloc: Global, path: &PathText) -> Result<End<'b>, NoMemory>
        ensures end { IfOk result (λ end. IsEnd path.now end (pass self.now true [] path.now)) }
    {
        match self.content(alloc, path)? {
            Some(content) => end_at(alloc, content),
            None => match path.parent(alloc)? {
                None => Ok(End::Nowhere),
                Some(directory) => match self.pass(alloc, &directory)? {
                    End::Onward(onward) => Ok(End::Onward(moved(
                        alloc, &directory, &onward, path,
                    )?)),
                    End::At(_) => Ok(End::Nowhere),
                    End::Nowhere => Ok(End::Nowhere),
                },
            },
        }
    }

    /// Returns what is at a path, by its names alone.
    fn content<'b>(
        &'b self,
        alloc: Global,
        path: &PathText,
    ) -> Result<Option<&'b Content>, NoMemory>
        ensures content { IfOk result (λ content. option_copied content ≡ content_at self.now path.now) }
        ensures is_tree { IsTree self.now }
    {
        content(alloc, self.tree, &self.over, path)
    }
}

/// Returns where a pass ends that has no names left at this.
fn end_at<'a>(alloc: Global, content: &'a Content) -> Result<End<'a>, NoMemory>
    ensures end { IfOk result (λ end. (path : Path) (node : Node) → node.content ≡ content.now → IsEnd path end (at_last true path node content.now)) }
{
    match content {
        Content::Link(target) => Ok(End::Onward(target.try_clone(alloc)?)),
        Content::File { .. } => Ok(End::At(content)),
        Content::Dir => Ok(End::At(content)),
    }
}

/// Returns the bytes of a file, which are shared, and its time. Anything else has none.
fn file_of(content: &Content) -> Result<Option<(Shared<ByteList>, u64)>, NoMemory>
    ensures file { IfOk result (λ file. file ≡ result_ok (file_of content.now)) }
{
    match content {
        Content::File { bytes, time } => Ok(Some((bytes.try_clone()?, *time))),
        Content::Dir | Content::Link(_) => Ok(None),
    }
}

/// Returns the paths of a directory by where it was before the change, and that of what the change puts.
fn paths_at(
    alloc: Global,
    tree: &Tree,
    over: &Over,
    listed_at: &PathText,
    directory: &PathText,
) -> Result<Vec<PathText>, NoMemory>
    ensures paths { IfOk result (λ paths. paths.items ≡ listed_paths tree.now listed_at.now directory.now ++ put_path directory.now (place_put over.now)) }
{
    let mut paths = Vec::new(alloc);
    add_listed(alloc, tree, listed_at, directory, &mut paths)?;
    add_put(alloc, over, directory, &mut paths)?;
    Ok(paths)
}

/// Adds the paths of a directory at which there is something, by another path that leads to it.
fn add_listed(
    alloc: Global,
    tree: &Tree,
    listed_at: &PathText,
    directory: &PathText,
    paths: &mut Vec<PathText>,
) -> Result<(), NoMemory>
    ensures added { OnOk result (paths.new.items ≡ paths.old.items ++ listed_paths tree.now listed_at.now directory.now) }
{
    let mut entries = listed(alloc, tree, listed_at)?;
    while let Some(entry) = entries.pop() {
        paths.push(joined(alloc, directory, &entry.name)?)?;
    }
    Ok(())
}

/// Adds the path of a directory with the last name of what the change puts.
#[tactic(auto, using(crate::proofs::EntryLemmas::begins_directory))]
fn add_put(
    alloc: Global,
    over: &Over,
    directory: &PathText,
    paths: &mut Vec<PathText>,
) -> Result<(), NoMemory>
    ensures added { OnOk result (paths.new.items ≡ paths.old.items ++ put_path directory.now (place_put over.now)) }
{
    let Some(place) = put_place(over) else {
        return Ok(());
    };
    let Some(front) = place.parent(alloc)? else {
        return Ok(());
    };
    paths.push(moved(alloc, &front, directory, place)?)?;
    Ok(())
}
