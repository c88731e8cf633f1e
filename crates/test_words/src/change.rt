//! Changes of a disk in words.
use crate::row::cut;
use odb_base::{ByteList, PathText};
use odb_disk::Change;
use std::alloc::Global;
use std::test::Fail;

/// A change: `make PATH` or `make PATH DEVICE`, `put PATH TIME TEXT`, `more PATH TEXT` at the end of a file, `time PATH TIME`,
/// `link PATH TARGET`, `move PATH PATH`; any other verb removes what is at the path.
pub fn change_of(alloc: Global, verb: &str, rest: &str) -> Result<Change, Fail> {
    let (path, rest) = cut(rest);
    let path = PathText::parse(alloc, path)?;
    match verb {
        "make" => Ok(make_of(path, rest)),
        "put" => put_of(alloc, path, rest),
        "more" => more_of(alloc, path, rest),
        "time" => time_of(path, rest),
        "link" | "move" => two_paths(verb, path, PathText::parse(alloc, rest)?),
        _ => Ok(Change::Remove { path }),
    }
}

fn make_of(path: PathText, device: &str) -> Change {
    let dev = device.parse::<u64>().unwrap_or(0);
    Change::MakeDir { path, dev }
}

fn put_of(alloc: Global, path: PathText, rest: &str) -> Result<Change, Fail> {
    let (time, text) = cut(rest);
    let time = time.parse::<u64>()?;
    let bytes = ByteList::from_slice(alloc, text.as_bytes())?;
    Ok(Change::PutFile { path, time, bytes })
}

fn more_of(alloc: Global, path: PathText, text: &str) -> Result<Change, Fail> {
    let bytes = ByteList::from_slice(alloc, text.as_bytes())?;
    Ok(Change::Append { path, bytes })
}

fn time_of(path: PathText, time: &str) -> Result<Change, Fail> {
    let time = time.parse::<u64>()?;
    Ok(Change::SetTime { path, time })
}

fn two_paths(verb: &str, path: PathText, other: PathText) -> Result<Change, Fail> {
    Ok(match verb {
        "link" => Change::PutLink {
            path,
            target: other,
        },
        _ => Change::Rename {
            from: path,
            to: other,
        },
    })
}
