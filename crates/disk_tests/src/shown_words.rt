//! Changes in words, and their results.
ghost use Rattle.std.specs.Prelude.{OnOk};
ghost use Rattle.gix_odb_watch.specs.Kept.{Fits};

use gix_odb_watch::Shown;
use odb_base::PathText;
use odb_mem_disk::{Change, Tree};
use std::alloc::Global;
use std::test::Fail;
use test_words::{change_of, cut};

/// The words that put so many links, each of which leads to the one before and the first to `/0`, and their result.
pub(crate) fn chain(alloc: Global, count: u32) -> Result<(String, String), Fail> {
    let mut links = String::new(alloc);
    let mut come = String::new(alloc);
    for before in 0..count {
        let link = format!(in alloc; "link /{} /{before}, ", before + 1)?;
        links.push_str(link.as_str())?;
        come.push_str("made ")?;
    }
    Ok((links, come))
}

/// Makes a change, unless a watched path would show a second content after it, and returns the outcome.
fn made(
    alloc: Global,
    shown: &mut Shown,
    tree: &mut Tree,
    change: &Change,
) -> Result<&'static str, Fail>
    requires fits { Fits shown.old tree.old }
    ensures fits { OnOk result (Fits shown.new tree.new) }
{
    if !tree.is_possible(alloc, change)? {
        return Ok("no ");
    }
    let revealed = shown.revealed(alloc, tree, change)?;
    if shown.has_second(&revealed) {
        return Ok("second ");
    }
    shown.keep(revealed)?;
    tree.change(alloc, change)?;
    Ok("made ")
}

/// Makes a change in words, or watches a folder.
fn made_by(
    alloc: Global,
    shown: &mut Shown,
    tree: &mut Tree,
    words: &str,
) -> Result<&'static str, Fail>
    requires fits { Fits shown.old tree.old }
    ensures fits { OnOk result (Fits shown.new tree.new) }
{
    let (verb, rest) = cut(words);
    if verb == "watch" {
        let folder = PathText::parse(alloc, rest)?;
        shown.watch(alloc, &folder, tree)?;
        return Ok("watched ");
    }
    let change = change_of(alloc, verb, rest)?;
    made(alloc, shown, tree, &change)
}

/// The result of the changes of a row, one after another, on a tree with the root alone.
pub(crate) fn made_all(alloc: Global, row: &str) -> Result<String, Fail> {
    let mut shown = Shown::new(alloc);
    let mut tree = Tree::bare(alloc)?;
    let mut all = String::new(alloc);
    for words in row.split(", ") {
        all.push_str(made_by(alloc, &mut shown, &mut tree, words)?)?;
    }
    Ok(all)
}
