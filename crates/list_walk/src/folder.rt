//! Folders as people name them.
ghost use Rattle.std.specs.Prelude.{◌≡◌, ◌==◌, true, map, IfOk};
ghost use Rattle.std.specs.List.{slice_split};
ghost use Rattle.list_walk.specs.Folder.{above, along, folder_of, is_absolute, led, led_from, or_same, start_of, with_part};

use crate::misread::Misread;
use odb_base::NoMemory;
use odb_mem_disk::{BadPath, PathText};
use std::alloc::{AllocError, Global};

/// The path so far, as the parts of a name lead.
#[derive(Drop)]
pub struct Way {
    pub path: PathText,
    /// Whether no name has been followed yet, so that `..` goes up: a name may be a link, after which up isn't back.
    pub is_front: bool,
}

/// The path of a folder by its name: absolute, or below `home`, if that is known.
///
/// Empty parts and `.` lead nowhere, so slashes may be doubled or at the end. `..` goes up at the front; after a name
/// it isn't followed.
#[tactic(auto, unfolding(crate::specs::Folder::folder_of))]
pub fn folder_of(
    alloc: Global,
    home: &Option<PathText>,
    name: &str,
) -> Result<Result<PathText, Misread>, NoMemory>
    ensures folder { IfOk result (λ folder. folder ≡ folder_of home.now name.now) }
{
    if name.is_empty() {
        return Ok(Err(Misread::NoFolder));
    }
    match start_of(alloc, home, name)? {
        Some(start) => led_from(alloc, start, name),
        None => Ok(Err(Misread::NoFolder)),
    }
}

/// Where a name begins: at the root, or at `home`.
fn start_of(
    alloc: Global,
    home: &Option<PathText>,
    name: &str,
) -> Result<Option<PathText>, NoMemory>
    ensures start { IfOk result (λ start. start ≡ start_of home.now name.now) }
{
    if is_absolute(name) {
        return Ok(Some(PathText::root(alloc)));
    }
    match home {
        Some(home) => Ok(Some(home.try_clone(alloc)?)),
        None => Ok(None),
    }
}

#[tactic(auto, using(std::proofs::lemmas::Str::Pattern::starts_text))]
fn is_absolute(name: &str) -> bool
    ensures absolute { result ≡ is_absolute name.now }
{
    name.starts_with("/")
}

/// The path that the parts of a name lead to.
fn led_from(
    alloc: Global,
    start: PathText,
    name: &str,
) -> Result<Result<PathText, Misread>, NoMemory>
    ensures path { IfOk result (λ path. path ≡ led_from start name.now) }
{
    let parts = parts_of(alloc, name)?;
    let way = Way {
        path: start,
        is_front: true,
    };
    match led(alloc, way, &parts)? {
        Ok(way) => Ok(Ok(way.path)),
        Err(why) => Ok(Err(why)),
    }
}

/// The parts of a text between slashes.
fn parts_of<'a>(alloc: Global, text: &'a str) -> Result<Vec<&'a str>, AllocError>
    ensures parts { IfOk result (λ parts. map (λ part. part.now) parts.items ≡ slice_split (λ b. b == 47) text.now) }
{
    text.split('/').collect(alloc)
}

/// Where parts lead.
#[tactic(auto, unfolding(crate::specs::Folder::led))]
fn led(alloc: Global, start: Way, parts: &[&str]) -> Result<Result<Way, Misread>, NoMemory>
    ensures way { IfOk result (λ way. way ≡ led start (map (λ part. part.now) parts.now)) }
{
    let mut way = start;
    let mut rest = parts;
    while let [part, more @ ..] = rest {
        match with_part(alloc, way, part)? {
            Ok(next) => way = next,
            Err(why) => return Ok(Err(why)),
        }
        rest = more;
    }
    Ok(Ok(way))
}

/// Where one part leads.
fn with_part(alloc: Global, way: Way, part: &str) -> Result<Result<Way, Misread>, NoMemory>
    ensures way { IfOk result (λ next. next ≡ with_part way part.now) }
{
    match part {
        "" | "." => Ok(Ok(way)),
        ".." => going_up(alloc, way),
        _ => going_on(alloc, way, part),
    }
}

fn going_up(alloc: Global, way: Way) -> Result<Result<Way, Misread>, NoMemory>
    ensures way { IfOk result (λ next. next ≡ above way) }
{
    if !way.is_front {
        return Ok(Err(Misread::UpBehindName));
    }
    let up = way.path.parent(alloc)?;
    Ok(Ok(or_same(way, up)))
}

/// The way at a path, or as it is.
fn or_same(mut way: Way, path: Option<PathText>) -> Way
    ensures way { result ≡ or_same way path }
{
    if let Some(path) = path {
        way.path = path;
    }
    way
}

fn going_on(alloc: Global, way: Way, name: &str) -> Result<Result<Way, Misread>, NoMemory>
    ensures way { IfOk result (λ next. next ≡ along way name.now) }
{
    match way.path.join(alloc, name) {
        Ok(path) => Ok(Ok(Way {
            path,
            is_front: false,
        })),
        Err(BadPath::Malformed) => Ok(Err(Misread::NoFolder)),
        Err(BadPath::NoMemory) => Err(NoMemory),
    }
}
