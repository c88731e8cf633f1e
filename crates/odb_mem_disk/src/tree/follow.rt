//! Where a path leads in a tree, following links.
use super::{MAX_LINKS, Tree};
use crate::node_map::path_before;
use crate::{ByteList, NoMemory, PathText};
use odb_disk::{Content, DiskError, Meta, Node};
use std::alloc::Global;

/// Where one pass along the names of a path ends.
#[derive(Drop)]
pub(super) enum Way<'a> {
    Reached(&'a Node),
    Onward(PathText),
}

impl Tree {
    ghost use Rattle.std.specs.Prelude.{◌≡◌, ◌≢◌, Bool, [], ◌++◌, true, Some, None, Err, IfOk, OnOk};
    ghost use Rattle.std.specs.List.{starts_with};
    ghost use Rattle.odb_base.specs.Path.{Path, same_name};
    ghost use Rattle.odb_disk.specs.Tree.{IsTree, node_at};
    ghost use Rattle.odb_disk.specs.Tree.Follow.{Missing, looked, read_of, pass, past, followed, followed_within, most_links};
    ghost use Rattle.odb_disk.specs.Tree.Way.{ways_within};
    ghost use Rattle.odb_disk.specs.Answers.{Answers};
    ghost use Rattle.odb_disk.specs.TreeCalls.{ComesOnward, Leads};
    ghost use Rattle.odb_mem_disk.specs.PassCalls.{Comes, onward_of};

    /// Stats a path. A link in the last place is followed if `follow` is set.
    pub fn look(&self, alloc: Global, path: &PathText, follow: bool) -> Result<Meta, DiskError>
        ensures answer { Answers result (looked self.now path.now follow) }
        ensures never_fails { result ≢ Err DiskError.Failed }
    {
        let node = self.follow(alloc, path, follow, MAX_LINKS)?;
        Ok(node.meta())
    }

    /// The bytes and the time of a file, following links.
    pub fn read(&self, alloc: Global, path: &PathText) -> Result<(ByteList, u64), DiskError>
        ensures answer { Answers result (read_of self.now path.now) }
        ensures never_fails { result ≢ Err DiskError.Failed }
    {
        let node = self.follow(alloc, path, true, MAX_LINKS)?;
        match &node.content {
            Content::File { bytes, time } => Ok((bytes.to_list(alloc)?, *time)),
            Content::Dir | Content::Link(_) => Err(DiskError::WrongKind),
        }
    }

    /// The paths along which a path is followed: the path itself, and after each link the one that it leads on to.
    pub fn ways(&self, alloc: Global, path: &PathText) -> Result<Vec<PathText>, NoMemory>
        ensures ways { IfOk result (λ ways. ways.items ≡ ways_within most_links self.now true path.now) }
    {
        let mut ways = Vec::new(alloc);
        self.add_ways(alloc, path, MAX_LINKS, &mut ways)?;
        Ok(ways)
    }

    /// Adds the paths along which a path is followed, with `links` more links to follow.
    fn add_ways(
        &self,
        alloc: Global,
        path: &PathText,
        links: u8,
        ways: &mut Vec<PathText>,
    ) -> Result<(), NoMemory>
        ensures added { OnOk result (ways.new.items ≡ ways.old.items ++ ways_within links self.now true path.now) }
    {
        ways.push(path.try_clone(alloc)?)?;
        if links == 0 {
            return Ok(());
        }
        match self.onward(alloc, path)? {
            None => Ok(()),
            Some(onward) => self.add_ways(alloc, &onward, links - 1, ways),
        }
    }

    /// The path that the first link on the way of a path leads on to, if there is a link.
    fn onward(&self, alloc: Global, path: &PathText) -> Result<Option<PathText>, NoMemory>
        ensures onward { IfOk result (λ onward. onward ≡ onward_of (pass self.now true [] path.now)) }
    {
        match self.pass(alloc, path, true) {
            Ok(Way::Onward(onward)) => Ok(Some(onward)),
            Err(DiskError::NoMemory) => Err(NoMemory),
            Ok(Way::Reached(_)) | Err(_) => Ok(None),
        }
    }

    /// The node that a path leads to, following at most `links` links.
    fn follow<'a>(
        &'a self,
        alloc: Global,
        path: &PathText,
        follow: bool,
        links: u8,
    ) -> Result<&'a Node, DiskError>
        ensures leads { Leads result (followed_within links self.now follow path.now) }
    {
        match self.pass(alloc, path, follow)? {
            Way::Reached(node) => Ok(node),
            Way::Onward(onward) => {
                if links == 0 {
                    return Err(DiskError::LinkLoop);
                }
                self.follow(alloc, &onward, follow, links - 1)
            }
        }
    }

    /// Passes along the names of a path once: to its node, or to the first link that has to be followed.
    pub(super) fn pass<'a>(
        &'a self,
        alloc: Global,
        path: &PathText,
        follow: bool,
    ) -> Result<Way<'a>, DiskError>
        ensures comes { Comes path.now result (pass self.now follow [] path.now) }
    {
        let Some(node) = self.node(path) else {
            return Ok(Way::Onward(self.onward_by_link(alloc, path)?));
        };
        match &node.content {
            Content::Link(target) if follow => Ok(Way::Onward(target.try_clone(alloc)?)),
            _ => Ok(Way::Reached(node)),
        }
    }

    /// Where the first link on the way of a missing path leads. Each node is below directories alone, so only the
    /// last node on the way can be a file or a link. What is just before the path begins with it.
    fn onward_by_link(&self, alloc: Global, path: &PathText) -> Result<PathText, DiskError>
        requires absent { node_at self.now path.now ≡ None }
        requires tree { IsTree self.now }
        ensures onward { (follow : Bool) → ComesOnward result (pass self.now follow [] path.now) }
    {
        let Some(before) = path_before(&self.nodes, path) else {
            return Err(DiskError::Absent);
        };
        let last = path.common_front(alloc, before)?;
        let Some(node) = self.node(&last) else {
            return Err(DiskError::Absent);
        };
        Tree::onward_past(alloc, path, &last, &node.content)
    }

    /// Where a path leads that goes beyond the last node on its way.
    fn onward_past(
        alloc: Global,
        path: &PathText,
        last: &PathText,
        content: &Content,
    ) -> Result<PathText, DiskError>
        requires front { starts_with same_name path.now last.now ≡ true }
        ensures onward { (rest : Path) → path.now ≡ last.now ++ rest → ComesOnward result (past content.now rest Missing) }
    {
        match content {
            Content::File { .. } => Err(DiskError::WrongKind),
            Content::Dir => Err(DiskError::Absent),
            Content::Link(target) => match path.strip_prefix(alloc, last)? {
                Some(rest) => Ok(target.followed_by(alloc, &rest)?),
                None => unreachable!("the path begins with the last node on its way"),
            },
        }
    }
}
