//! Changes of the disk as a word and its fields.
ghost use Rattle.std.specs.Prelude.{◌≡◌, IfOk};
ghost use Rattle.odb_script.specs.Line.{texts_of};
ghost use Rattle.odb_script.specs.Change.{change_of, file_of};

use crate::content::content_of;
use crate::field::path_of;
use crate::word::ChangeWord;
use odb_base::{ByteList, NoMemory, parse_decimal};
use odb_mem_disk::{Change, PathText};
use std::alloc::Global;

/// The device of all directories that a script makes: it has no word for devices.
const DEVICE: u64 = 0;

/// The change that a word and the fields after it spell, if they spell one.
#[tactic(auto, unfolding(crate::specs::Change::change_of))]
pub fn change_of(
    alloc: Global,
    word: ChangeWord,
    fields: &[&str],
) -> Result<Option<Change>, NoMemory>
    ensures change { IfOk result (λ change. change ≡ change_of word (texts_of fields.now)) }
{
    match word {
        ChangeWord::Mkdir => mkdir(alloc, fields),
        ChangeWord::Put => put(alloc, fields),
        ChangeWord::Link => link(alloc, fields),
        ChangeWord::Rename => rename(alloc, fields),
        ChangeWord::Remove => remove(alloc, fields),
        ChangeWord::Time => time(alloc, fields),
    }
}

#[tactic(auto, unfolding(crate::specs::Change::change_of))]
fn mkdir(alloc: Global, fields: &[&str]) -> Result<Option<Change>, NoMemory>
    ensures change { IfOk result (λ change. change ≡ change_of ChangeWord.Mkdir (texts_of fields.now)) }
{
    match fields {
        [path] => match path_of(alloc, path)? {
            Some(path) => Ok(Some(Change::MakeDir { path, dev: DEVICE })),
            None => Ok(None),
        },
        _ => Ok(None),
    }
}

#[tactic(auto, unfolding(crate::specs::Change::change_of))]
fn put(alloc: Global, fields: &[&str]) -> Result<Option<Change>, NoMemory>
    ensures change { IfOk result (λ change. change ≡ change_of ChangeWord.Put (texts_of fields.now)) }
{
    match fields {
        [path, time, content] => {
            let path = path_of(alloc, path)?;
            let content = content_of(alloc, content)?;
            Ok(file_of(path, parse_decimal(time), content))
        }
        _ => Ok(None),
    }
}

fn file_of(path: Option<PathText>, time: Option<u64>, content: Option<ByteList>) -> Option<Change>
    ensures change { result ≡ file_of path time content }
{
    match (path, time, content) {
        (Some(path), Some(time), Some(bytes)) => Some(Change::PutFile { path, time, bytes }),
        _ => None,
    }
}

#[tactic(auto, unfolding(crate::specs::Change::change_of))]
fn link(alloc: Global, fields: &[&str]) -> Result<Option<Change>, NoMemory>
    ensures change { IfOk result (λ change. change ≡ change_of ChangeWord.Link (texts_of fields.now)) }
{
    match fields {
        [path, target] => match (path_of(alloc, path)?, path_of(alloc, target)?) {
            (Some(path), Some(target)) => Ok(Some(Change::PutLink { path, target })),
            _ => Ok(None),
        },
        _ => Ok(None),
    }
}

#[tactic(auto, unfolding(crate::specs::Change::change_of))]
fn rename(alloc: Global, fields: &[&str]) -> Result<Option<Change>, NoMemory>
    ensures change { IfOk result (λ change. change ≡ change_of ChangeWord.Rename (texts_of fields.now)) }
{
    match fields {
        [from, to] => match (path_of(alloc, from)?, path_of(alloc, to)?) {
            (Some(from), Some(to)) => Ok(Some(Change::Rename { from, to })),
            _ => Ok(None),
        },
        _ => Ok(None),
    }
}

#[tactic(auto, unfolding(crate::specs::Change::change_of))]
fn remove(alloc: Global, fields: &[&str]) -> Result<Option<Change>, NoMemory>
    ensures change { IfOk result (λ change. change ≡ change_of ChangeWord.Remove (texts_of fields.now)) }
{
    match fields {
        [path] => match path_of(alloc, path)? {
            Some(path) => Ok(Some(Change::Remove { path })),
            None => Ok(None),
        },
        _ => Ok(None),
    }
}

#[tactic(auto, unfolding(crate::specs::Change::change_of))]
fn time(alloc: Global, fields: &[&str]) -> Result<Option<Change>, NoMemory>
    ensures change { IfOk result (λ change. change ≡ change_of ChangeWord.Time (texts_of fields.now)) }
{
    match fields {
        [path, time] => match (path_of(alloc, path)?, parse_decimal(time)) {
            (Some(path), Some(time)) => Ok(Some(Change::SetTime { path, time })),
            _ => Ok(None),
        },
        _ => Ok(None),
    }
}
