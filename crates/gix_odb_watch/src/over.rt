//! A change as what it lays over a tree.
ghost use Rattle.std.specs.Prelude.{◌≡◌, true, IfOk, Some};
ghost use Rattle.std.specs.List.{starts_with};
ghost use Rattle.std.specs.Option.{option_copied, option_map};
ghost use Rattle.std.specs.Result.{result_ok};
ghost use Rattle.odb_base.specs.Path.{same_name};
ghost use Rattle.odb_disk.specs.Tree.Change.{longer, timed};
ghost use Rattle.odb_disk.specs.Tree.Write.{file_spot};
ghost use Rattle.gix_odb_watch.specs.Over.{content_at, laid_over, longer_over, moved, origin_of, over_of, place_put};

use crate::touched::file_spot;
use odb_base::{ByteList, NoMemory, PathText, Shared};
use odb_disk::{Change, Content};
use odb_mem_disk::Tree;
use std::alloc::Global;

/// What a change lays over a tree.
#[derive(Drop)]
pub(crate) enum Over {
    Nothing,
    /// This is at the path, or nothing.
    At(PathText, Option<Content>),
    /// What was at the first path and below it is at the second.
    Moved(PathText, PathText),
}

/// Returns what a change lays over a tree.
pub(crate) fn over_of(alloc: Global, tree: &Tree, change: &Change) -> Result<Over, NoMemory>
    ensures over { IfOk result (λ over. over ≡ over_of tree.now change.now) }
{
    match change {
        Change::PutFile { path, time, bytes } => file_at(alloc, path, *time, bytes),
        Change::MakeDir { path, .. } => Ok(Over::At(path.try_clone(alloc)?, Some(Content::Dir))),
        Change::PutLink { path, target } => link_at(alloc, path, target),
        Change::Rename { from, to } => moved_to(alloc, from, to),
        Change::Append { path, bytes } => longer(alloc, tree, path, bytes),
        Change::Remove { path } => Ok(Over::At(path.try_clone(alloc)?, None)),
        Change::SetTime { path, time } => timed(alloc, tree, path, *time),
    }
}

fn file_at(alloc: Global, path: &PathText, time: u64, bytes: &ByteList) -> Result<Over, NoMemory>
    ensures over { IfOk result (λ over. over ≡ Over.At path.now (Some (Content.File bytes.now time))) }
{
    let place = path.try_clone(alloc)?;
    let bytes = Shared::copy_of(alloc, bytes)?;
    Ok(Over::At(place, Some(Content::File { bytes, time })))
}

fn link_at(alloc: Global, path: &PathText, target: &PathText) -> Result<Over, NoMemory>
    ensures over { IfOk result (λ over. over ≡ Over.At path.now (Some (Content.Link target.now))) }
{
    let place = path.try_clone(alloc)?;
    let target = target.try_clone(alloc)?;
    Ok(Over::At(place, Some(Content::Link(target))))
}

fn moved_to(alloc: Global, from: &PathText, to: &PathText) -> Result<Over, NoMemory>
    ensures over { IfOk result (λ over. over ≡ Over.Moved from.now to.now) }
{
    let source = from.try_clone(alloc)?;
    let target = to.try_clone(alloc)?;
    Ok(Over::Moved(source, target))
}

/// Returns what an append lays over: a longer file where the path leads.
fn longer(alloc: Global, tree: &Tree, path: &PathText, more: &ByteList) -> Result<Over, NoMemory>
    ensures over { IfOk result (λ over. over ≡ longer_over tree.now more.now (result_ok (file_spot tree.now path.now))) }
{
    match file_spot(alloc, tree, path)? {
        Some(place) => longer_at(alloc, tree, place, more),
        None => Ok(Over::Nothing),
    }
}

fn longer_at(alloc: Global, tree: &Tree, place: PathText, more: &ByteList) -> Result<Over, NoMemory>
    ensures over { IfOk result (λ over. over ≡ Over.At place (option_map (λ content. longer content more.now) (content_at tree.now place))) }
{
    let Some(node) = tree.node(&place) else {
        return Ok(Over::At(place, None));
    };
    let mut copy = node.try_clone(alloc)?;
    copy.append(alloc, more.as_slice())?;
    Ok(Over::At(place, Some(copy.content)))
}

/// Returns what another time of a file lays over.
fn timed(alloc: Global, tree: &Tree, path: &PathText, time: u64) -> Result<Over, NoMemory>
    ensures over { IfOk result (λ over. over ≡ Over.At path.now (option_map (timed time) (content_at tree.now path.now))) }
{
    let place = path.try_clone(alloc)?;
    let Some(node) = tree.node(&place) else {
        return Ok(Over::At(place, None));
    };
    let mut copy = node.try_clone(alloc)?;
    copy.set_time(time);
    Ok(Over::At(place, Some(copy.content)))
}

/// Returns what is at a path, by its names alone.
fn before<'a>(tree: &'a Tree, path: &PathText) -> Option<&'a Content>
    ensures content { option_copied result ≡ content_at tree.now path.now }
{
    match tree.node(path) {
        None => None,
        Some(node) => Some(&node.content),
    }
}

/// Returns what is at a path where this is laid over the tree.
pub(crate) fn content<'a>(
    alloc: Global,
    tree: &'a Tree,
    over: &'a Over,
    path: &PathText,
) -> Result<Option<&'a Content>, NoMemory>
    ensures content { IfOk result (λ content. option_copied content ≡ laid_over (content_at tree.now) over.now path.now) }
{
    match over {
        Over::Nothing => Ok(before(tree, path)),
        Over::At(place, content) => Ok(if path == place {
            content.as_ref()
        } else {
            before(tree, path)
        }),
        Over::Moved(from, to) => moved_content(alloc, tree, from, to, path),
    }
}

fn moved_content<'a>(
    alloc: Global,
    tree: &'a Tree,
    from: &PathText,
    to: &PathText,
    path: &PathText,
) -> Result<Option<&'a Content>, NoMemory>
    ensures content { IfOk result (λ content. option_copied content ≡ laid_over (content_at tree.now) (Over.Moved from.now to.now) path.now) }
{
    if path.starts_with(to) {
        return Ok(before(tree, &moved(alloc, to, from, path)?));
    }
    if path.starts_with(from) {
        return Ok(None);
    }
    Ok(before(tree, path))
}

/// Returns where what is at a path was before, unless the change put it there.
pub(crate) fn origin(alloc: Global, over: &Over, path: &PathText) -> Result<PathText, NoMemory>
    ensures origin { IfOk result (λ origin. origin ≡ origin_of over.now path.now) }
{
    match over {
        Over::Moved(from, to) if path.starts_with(to) => moved(alloc, to, from, path),
        _ => path.try_clone(alloc),
    }
}

/// Returns the path where the change put something.
pub(crate) fn put_place<'a>(over: &'a Over) -> Option<&'a PathText>
    ensures place { option_copied result ≡ place_put over.now }
{
    match over {
        Over::Nothing => None,
        Over::At(place, _) => Some(place),
        Over::Moved(_, to) => Some(to),
    }
}

/// Returns what lies below one path, below another.
pub(crate) fn moved(
    alloc: Global,
    from: &PathText,
    to: &PathText,
    path: &PathText,
) -> Result<PathText, NoMemory>
    requires behind { starts_with same_name path.now from.now ≡ true }
    ensures moved { IfOk result (λ result. result ≡ moved from.now to.now path.now) }
{
    match path.strip_prefix(alloc, from)? {
        Some(rest) => to.followed_by(alloc, &rest),
        None => unreachable!("the path begins with the other one"),
    }
}
