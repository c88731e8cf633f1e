//! Which texts are paths, and what their calls give.
use odb_base::{BadPath, NoMemory, PathName, PathText};
use std::alloc::{AllocError, Global};
use std::test::Fail;
use test_words::{compare, cut, halves};

/// The result of a call of paths, in words.
fn told(alloc: Global, text: &str) -> Result<String, Fail> {
    let (verb, rest) = cut(text);
    match verb {
        "path" => parsed(alloc, rest),
        "join" => joined(alloc, rest),
        "name" => Ok(named(alloc, rest)?),
        "parent" => parent(alloc, rest),
        "last" => last(alloc, rest),
        "order" => order(alloc, rest),
        "below" => below(alloc, rest),
        _ => front(alloc, rest),
    }
}

/// The number of names of a path, whether it is the root, and its text by either call.
fn parsed(alloc: Global, text: &str) -> Result<String, Fail> {
    match PathText::parse(alloc, text) {
        Ok(path) => Ok(path_shown(alloc, &path)?),
        Err(error) => Ok(refused(alloc, error)?),
    }
}

fn path_shown(alloc: Global, path: &PathText) -> Result<String, NoMemory> {
    let (names, root) = (path.names(alloc)?.len(), path.is_root());
    let text = path.to_text(alloc)?;
    Ok(format!(in alloc; "{names} {root} {path} {text}")?)
}

fn refused(alloc: Global, error: BadPath) -> Result<String, AllocError> {
    format!(in alloc; "{error:?}")
}

/// A path with one more name.
fn joined(alloc: Global, text: &str) -> Result<String, Fail> {
    let (path, name) = cut(text);
    let path = PathText::parse(alloc, path)?;
    Ok(joined_shown(alloc, path.join(alloc, name))?)
}

fn joined_shown(alloc: Global, joined: Result<PathText, BadPath>) -> Result<String, AllocError> {
    match joined {
        Ok(path) => format!(in alloc; "{path}"),
        Err(error) => refused(alloc, error),
    }
}

/// The text of a name's copy, and whether it can be in a path.
fn named(alloc: Global, text: &str) -> Result<String, NoMemory> {
    let name = PathName::new(alloc, text)?.try_clone(alloc)?;
    let (text, is_name) = (name.as_str(), name.is_name());
    Ok(format!(in alloc; "{text} {is_name}")?)
}

/// The directory that contains a path.
fn parent(alloc: Global, text: &str) -> Result<String, Fail> {
    let path = PathText::parse(alloc, text)?;
    let parent = path.parent(alloc)?;
    Ok(parent_shown(alloc, parent)?)
}

fn parent_shown(alloc: Global, parent: Option<PathText>) -> Result<String, AllocError> {
    match parent {
        Some(parent) => format!(in alloc; "{parent}"),
        None => "none".to_string(alloc),
    }
}

/// The last name of a path and its extension.
fn last(alloc: Global, text: &str) -> Result<String, Fail> {
    let path = PathText::parse(alloc, text)?;
    let (name, extension) = (path.file_name(), path.extension());
    Ok(format!(in alloc; "{name:?} {extension:?}")?)
}

fn two_paths(alloc: Global, text: &str) -> Result<(PathText, PathText), BadPath> {
    let (one, other) = cut(text);
    let one = PathText::parse(alloc, one)?;
    let other = PathText::parse(alloc, other)?;
    Ok((one, other))
}

/// How one path compares with another: whether it is before, equals it, and equals its own copy.
fn order(alloc: Global, text: &str) -> Result<String, Fail> {
    let (one, other) = two_paths(alloc, text)?;
    Ok(order_shown(alloc, &one, &other)?)
}

fn order_shown(alloc: Global, one: &PathText, other: &PathText) -> Result<String, NoMemory> {
    let copy = one.try_clone(alloc)?;
    let (before, same, copied) = (one < other, one == other, *one == copy);
    Ok(format!(in alloc; "{before} {same} {copied}")?)
}

/// Whether a path is another or below it, its names after those, and these appended to the other's again.
fn below(alloc: Global, text: &str) -> Result<String, Fail> {
    let (path, base) = two_paths(alloc, text)?;
    Ok(rest_shown(alloc, &path, &base)?)
}

fn rest_shown(alloc: Global, path: &PathText, base: &PathText) -> Result<String, NoMemory> {
    let starts = path.starts_with(base);
    match path.strip_prefix(alloc, base)? {
        Some(rest) => below_shown(alloc, starts, base, &rest),
        None => Ok(format!(in alloc; "{starts}")?),
    }
}

fn below_shown(
    alloc: Global,
    starts: bool,
    base: &PathText,
    rest: &PathText,
) -> Result<String, NoMemory> {
    let whole = base.followed_by(alloc, rest)?;
    Ok(format!(in alloc; "{starts} {rest} {whole}")?)
}

/// The names that two paths both begin with, asked of either.
fn front(alloc: Global, text: &str) -> Result<String, Fail> {
    let (one, other) = two_paths(alloc, text)?;
    Ok(fronts_shown(alloc, &one, &other)?)
}

fn fronts_shown(alloc: Global, one: &PathText, other: &PathText) -> Result<String, NoMemory> {
    let first = one.common_front(alloc, other)?;
    let second = other.common_front(alloc, one)?;
    Ok(format!(in alloc; "{first} {second}")?)
}

fn check(alloc: Global, rows: &str) -> Result<(), Fail> {
    for row in rows.split('\n') {
        let (text, want) = halves(row);
        compare(text, told(alloc, text)?.as_str(), want)?;
    }
    Ok(())
}

// Catches a rule for names that is read too widely or too narrowly.
const TEXTS: &str = "\
    path /|0 true / /\n\
    path /a|1 false /a /a\n\
    path /a/b|2 false /a/b /a/b\n\
    path /..a/.b/...|3 false /..a/.b/... /..a/.b/...\n\
    path |Malformed\n\
    path a|Malformed\n\
    path a/b|Malformed\n\
    path //|Malformed\n\
    path /a//b|Malformed\n\
    path /a/|Malformed\n\
    path /.|Malformed\n\
    path /..|Malformed\n\
    path /a/../b|Malformed\n\
    path /a\0b|Malformed\n\
    join / a|/a\n\
    join /a/b c|/a/b/c\n\
    join /a b.c|/a/b.c\n\
    join /a ...|/a/...\n\
    join / |Malformed\n\
    join / .|Malformed\n\
    join / ..|Malformed\n\
    join / a/b|Malformed\n\
    join / /|Malformed\n\
    join / a\0|Malformed\n\
    name a|a true\n\
    name ...|... true\n\
    name a b|a b true\n\
    name | false\n\
    name .|. false\n\
    name ..|.. false\n\
    name a/b|a/b false\n\
    name a\0|a\0 false";

// Catches a last name or an extension that isn't that of Rust's `Path`, except for `..a`, which has a dot after its
// first byte.
const PARTS: &str = "\
    parent /a|/\n\
    parent /a/b|/a\n\
    parent /a/b/c|/a/b\n\
    parent /|none\n\
    last /x/a.tar.gz|Some(\"a.tar.gz\") Some(\"gz\")\n\
    last /x.y/a|Some(\"a\") None\n\
    last /.a|Some(\".a\") None\n\
    last /a.|Some(\"a.\") Some(\"\")\n\
    last /..a|Some(\"..a\") Some(\"a\")\n\
    last /.a.b|Some(\".a.b\") Some(\"b\")\n\
    last /|None None";

// Catches an order of whole texts, which puts `/a.b` before `/a/b`, since `.` is below `/`.
const ORDER: &str = "\
    order / /a|true false true\n\
    order /a /a/b|true false true\n\
    order /a/b /a/b/c|true false true\n\
    order /a/b/c /a.b|true false true\n\
    order /a.b /abcdef|true false true\n\
    order /abcdef /abcdef/a|true false true\n\
    order /abcdef/a /abcdefg|true false true\n\
    order /abcdefg /abcdefg/a|true false true\n\
    order /abcdefg/a /abcdefgh|true false true\n\
    order /abcdefgh /abcdefghi|true false true\n\
    order /abcdefghi /abcdefh|true false true\n\
    order /abcdefh /b|true false true\n\
    order /b /é|true false true\n\
    order /é /b|false false true";

// Catches a comparison of texts only, which puts `/ab` below `/a`; texts that agree within a name, and names that
// are left out.
const PAIRS: &str = "\
    below /a/b/c /a|true /b/c /a/b/c\n\
    below /a/b /a/b|true / /a/b\n\
    below /a /|true /a /a\n\
    below / /|true / /\n\
    below /ab /a|false\n\
    below /a.b/c /a|false\n\
    below /a /a/b|false\n\
    below /b/a /a|false\n\
    front /a/b/c /a/b/d|/a/b /a/b\n\
    front /a/bc /a/bd|/a /a\n\
    front /a/b /a/b/c|/a/b /a/b\n\
    front /a /a.b|/ /\n\
    front / /a|/ /\n\
    front /é/ê /é/è|/é /é";

// Catches what the lines above the tables say.
#[test]
fn paths(rt: HostRuntime) -> Result<(), Fail> {
    for rows in [TEXTS, PARTS, ORDER, PAIRS] {
        check(rt.alloc(), rows)?;
    }
    Ok(())
}
