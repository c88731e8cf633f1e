//! Paths: how they are read, written, joined, split and ordered.
ghost use Rattle.std.specs.Prelude.{◌≡◌, ◌↔◌, ◌==◌, false, map, drop, [], ◌∷◌, ◌++◌, IfOk, OnOk, IfSome, IsTrue, IsErrOf, None, Some};
ghost use Rattle.std.specs.Option.{option_copied};
ghost use Rattle.std.specs.List.{slice_split, list_all, starts_with};
ghost use Rattle.std.specs.String.{string_bytes};
ghost use Rattle.odb_base.specs.Path.{HasSameFirst, nul, slash};
ghost use Rattle.odb_base.specs.JoinedPath.{joined, slashed, head_of};

use crate::path_name::{extension_in, is_name};
use crate::{BadPath, NoMemory};
use std::alloc::{AllocError, Global};
use std::cmp::Ordering;
use std::fmt;
use std::marker::Model;

/// An absolute path: a list of names, none of them empty, `.` or `..`, or with NUL or `/` in it.
/// The empty list is the root, `/`.
///
/// The names are in one text, each after a NUL: the order of these texts by bytes is that of paths, name by name.
///
/// The first eight bytes of the text are also kept as a number, the head: big-endian, missing bytes are zeros. Paths whose
/// heads differ are in the order of their heads. Only if these are equal is the text read, which is elsewhere in memory.
#[derive(Debug, Drop)]
pub struct PathText {
    head: u64,
    joined: String,
}

impl Model for PathText {
    ghost use Rattle.std.specs.Prelude.{◌≡◌, List, ℕ};
    ghost use Rattle.std.specs.String.{string_bytes};
    ghost use Rattle.odb_base.specs.JoinedPath.{names_joined, head_of, IsJoined};

    ghost Value = { List (List ℕ) };

    ghost view = { λ path. names_joined (string_bytes path.joined) };

    ghost invariant = { λ path. IsJoined (string_bytes path.joined) × (path.head ≡ head_of (string_bytes path.joined)) };
}

impl PathText {
    ghost use Rattle.odb_base.specs.Path.{is_name, same_name, text_of, path_of, parent_of, last_name, extension_of, IsCommonFront};
    ghost use Rattle.odb_base.specs.JoinedPath.{joined, names_joined, IsJoined, IsBehind};
    ghost use Rattle.std.specs.List.{list_all, starts_with};
    ghost use Rattle.std.specs.Prelude.{true, map, option_and_then};
    ghost use Rattle.std.specs.String.{string_bytes};

    /// The path of a text.
    fn of(joined: String) -> PathText
        requires joined { IsJoined (string_bytes joined) }
        ensures names { result ≡ names_joined (string_bytes joined) }
    {
        let head = head_of(&joined);
        PathText { head, joined }
    }

    /// The path of a list of names, each of which is tested. `room` is the length of its text.
    fn from_names(alloc: Global, texts: &[&str], room: usize) -> Result<PathText, BadPath>
        ensures path { IfOk result (λ path. path ≡ map (λ text. text.now) texts.now) }
        ensures are_names { IfOk result (λ path. list_all is_name path ≡ true) }
        ensures refused { IsErrOf result BadPath.Malformed → list_all is_name (map (λ text. text.now) texts.now) ≡ false }
    {
        let mut joined = String::with_capacity(alloc, room)?;
        for text in texts {
            if !is_name(text) {
                return Err(BadPath::Malformed);
            }
            push_name(&mut joined, text)?;
        }
        Ok(PathText::of(joined))
    }

    /// The root. It allocates no memory.
    pub fn root(alloc: Global) -> PathText
        ensures empty { result ≡ [] }
    {
        PathText::of(String::new(alloc))
    }

    /// Parses a path.
    pub fn parse(alloc: Global, text: &str) -> Result<PathText, BadPath>
        ensures parsed { IfOk result (λ path. path_of text.now ≡ Some path) }
        ensures spelled { IfOk result (λ path. text_of path ≡ text.now) }
        ensures names { IfOk result (λ path. list_all is_name path ≡ true) }
        ensures refused { IsErrOf result BadPath.Malformed → path_of text.now ≡ None }
    {
        let Some(rest) = text.strip_prefix('/') else {
            return Err(BadPath::Malformed);
        };
        if rest.is_empty() {
            return Ok(PathText::root(alloc));
        }
        let parts = parts_of(alloc, rest)?;
        PathText::from_names(alloc, &parts, text.len())
    }

    /// The path with one more name.
    pub fn join(&self, alloc: Global, name: &str) -> Result<PathText, BadPath>
        ensures joined { IfOk result (λ path. path ≡ self.now ++ name.now ∷ []) }
        ensures refused { IsErrOf result BadPath.Malformed ↔ (is_name name.now ≡ false) }
    {
        if !is_name(name) {
            return Err(BadPath::Malformed);
        }
        let room = self
            .joined
            .len()
            .saturating_add(name.len())
            .saturating_add(1);
        let mut joined = String::with_capacity(alloc, room)?;
        joined.push_str(&self.joined)?;
        push_name(&mut joined, name)?;
        Ok(PathText::of(joined))
    }

    /// The path followed by the names of another.
    pub fn followed_by(&self, alloc: Global, rest: &PathText) -> Result<PathText, NoMemory>
        ensures path { IfOk result (λ path. path ≡ self.now ++ rest.now) }
    {
        let room = self.joined.len().saturating_add(rest.joined.len());
        let mut joined = String::with_capacity(alloc, room)?;
        joined.push_str(&self.joined)?;
        joined.push_str(&rest.joined)?;
        Ok(PathText::of(joined))
    }

    /// The directory that contains the path: the path without its last name. None for the root.
    pub fn parent(&self, alloc: Global) -> Result<Option<PathText>, NoMemory>
        ensures parent { IfOk result (λ parent. parent ≡ parent_of self.now) }
    {
        match self.joined.rsplit_once('\0') {
            None => Ok(None),
            Some((before, _)) => Ok(Some(PathText::of(String::from_str(alloc, before)?))),
        }
    }

    /// The text of the path: a slash before each name, and `/` for the root.
    pub fn to_text(&self, alloc: Global) -> Result<String, NoMemory>
        ensures text { IfOk result (λ text. string_bytes text ≡ text_of self.now) }
    {
        Ok(format!(in alloc; "{self}")?)
    }

    /// The names, from the root on.
    pub fn names(&self, alloc: Global) -> Result<Vec<&str>, NoMemory>
        ensures value { IfOk result (λ names. map (λ name. name.now) names.items ≡ self.now) }
        ensures are_names { list_all is_name self.now ≡ true }
    {
        match self.joined.strip_prefix('\0') {
            None => Ok(Vec::new(alloc)),
            Some(rest) => Ok(names_in(alloc, rest)?),
        }
    }

    /// The names that both this path and another begin with, up to the first that differs.
    pub fn common_front<'a>(
        &'a self,
        alloc: Global,
        other: &'a PathText,
    ) -> Result<PathText, NoMemory>
        ensures front { IfOk result (λ front. IsCommonFront self.now other.now front) }
    {
        let own = self.names(alloc)?;
        let its = other.names(alloc)?;
        let mut joined = String::new(alloc);
        let mut shared = 0;
        while let Some(name) = same_at(&own, &its, shared) {
            push_name(&mut joined, name)?;
            shared += 1;
        }
        Ok(PathText::of(joined))
    }

    /// Whether the path is the root, which has no names.
    pub fn is_root(&self) -> bool
        ensures root { IsTrue result ↔ (self.now ≡ []) }
    {
        self.joined.is_empty()
    }

    /// Whether the path is another one or is below it.
    pub fn starts_with(&self, base: &PathText) -> bool
        ensures starts { result ≡ starts_with same_name self.now base.now }
    {
        self.behind(base).is_some()
    }

    /// The path's names after those of another one that it is or is below.
    pub fn strip_prefix(&self, alloc: Global, base: &PathText) -> Result<Option<PathText>, NoMemory>
        ensures below { IfOk result (λ below. IfSome below (λ rest. base.now ++ rest ≡ self.now)) }
        ensures apart { IfOk result (λ below. below ≡ None → starts_with same_name self.now base.now ≡ false) }
    {
        match self.behind(base) {
            None => Ok(None),
            Some(rest) => Ok(Some(PathText::of(String::from_str(alloc, rest)?))),
        }
    }

    /// The text after that of another path.
    fn behind(&self, base: &PathText) -> Option<&str>
        ensures behind { IsBehind self.now base.now (option_copied result) }
    {
        let rest = self.joined.strip_prefix(base.joined.as_str())?;
        if rest.is_empty() {
            return Some(rest);
        }
        if rest.starts_with('\0') {
            return Some(rest);
        }
        None
    }

    /// The last name; None for the root.
    pub fn file_name(&self) -> Option<&str>
        ensures name { option_copied result ≡ last_name self.now }
    {
        match self.joined.rsplit_once('\0') {
            None => None,
            Some((_, name)) => Some(name),
        }
    }

    /// What follows the last dot of the last name. None if there is no dot, or only one at the front.
    pub fn extension(&self) -> Option<&str>
        ensures extension { option_copied result ≡ option_and_then extension_of (last_name self.now) }
    {
        let name = self.file_name()?;
        extension_in(name)
    }

    /// A copy of the path.
    pub fn try_clone(&self, alloc: Global) -> Result<PathText, NoMemory>
        ensures copy { IfOk result (λ path. path ≡ self.now) }
    {
        Ok(PathText::of(String::from_str(alloc, &self.joined)?))
    }
}

impl PartialEq for PathText {
    ghost use Rattle.odb_base.specs.Path.{same_name};
    ghost use Rattle.std.specs.Cmp.{partial_equiv_from_equiv};
    ghost use Rattle.std.specs.Cmp.Lexicographic.{nat_list_eq_equiv, lists_equiv};
    ghost use lib.Pointwise.{pointwise};

    ghost eq = { pointwise same_name };

    fn eq(&self, other: &PathText) -> bool {
        self.head == other.head && self.joined.as_str() == other.joined.as_str()
    }

    ghost laws = { partial_equiv_from_equiv (lists_equiv nat_list_eq_equiv) };
}

impl Eq for PathText {
    ghost use Rattle.std.specs.Cmp.Lexicographic.{nat_list_eq_equiv, lists_equiv};

    ghost laws = { lists_equiv nat_list_eq_equiv };
}

impl PartialOrd for PathText {
    ghost use Rattle.std.specs.Ordering.{as_partial_cmp, nat_cmp};
    ghost use Rattle.std.specs.Cmp.Lexicographic.{slice_cmp, nat_list_cmp_total, texts_ties, lists_total, lists_ties};
    ghost use Rattle.std.specs.Cmp.{po};
    ghost use Rattle.odb_base.specs.Path.{path_cmp};

    ghost partial_cmp = { as_partial_cmp path_cmp };

    ghost laws = { po (lists_total nat_list_cmp_total) (lists_ties (slice_cmp nat_cmp) texts_ties) };

    fn partial_cmp(&self, other: &PathText) -> Option<Ordering> {
        Some(self.cmp(other))
    }
}

impl Ord for PathText {
    ghost use Rattle.std.specs.Prelude.{refl};
    ghost use Rattle.std.specs.Ordering.{nat_cmp};
    ghost use Rattle.std.specs.Cmp.Lexicographic.{slice_cmp, nat_list_cmp_total, texts_ties, lists_total, lists_ties};
    ghost use Rattle.odb_base.specs.Path.{path_cmp};

    ghost cmp = { path_cmp };

    ghost total = { lists_total nat_list_cmp_total };

    ghost matches_partial_cmp = { λ _ _. refl };

    ghost matches_eq = { lists_ties (slice_cmp nat_cmp) texts_ties };

    fn cmp(&self, other: &PathText) -> Ordering {
        match self.head.cmp(&other.head) {
            Ordering::Equal => self.joined.as_str().cmp(other.joined.as_str()),
            apart => apart,
        }
    }
}

impl fmt::Display for PathText {
    ghost use Rattle.std.specs.Prelude.{Some};
    ghost use Rattle.odb_base.specs.Path.{text_of};

    ghost output = { λ path. Some (text_of path) };

    fn fmt<W: fmt::Write>(&self, f: &mut fmt::Formatter<W>) -> fmt::Result {
        if self.is_root() {
            return write!(f, "/");
        }
        let mut rest = self.joined.as_str();
        while let Some((name, more)) = rest.split_once('\0') {
            write!(f, "{name}/")?;
            rest = more;
        }
        write!(f, "{rest}")
    }
}

/// The first eight bytes of a text as a big-endian number. Missing bytes count as zeros.
fn head_of(text: &str) -> u64
    ensures head { result ≡ head_of text.now }
{
    let bytes = text.as_bytes();
    match bytes.first_chunk::<8>() {
        Some(first) => u64::from_be_bytes(*first),
        None => {
            let mut first = [0; 8];
            first[..bytes.len()].copy_from_slice(bytes);
            u64::from_be_bytes(first)
        }
    }
}

/// Adds a name to the text of a path.
fn push_name(joined: &mut String, name: &str) -> Result<(), AllocError>
    ensures pushed { OnOk result (string_bytes joined.new ≡ string_bytes joined.old ++ nul ∷ name.now) }
{
    joined.push('\0')?;
    joined.push_str(name)
}

/// The parts of a text between slashes.
fn parts_of<'a>(alloc: Global, text: &'a str) -> Result<Vec<&'a str>, AllocError>
    ensures parts { IfOk result (λ parts. map (λ part. part.now) parts.items ≡ slice_split (λ b. b == slash) text.now) }
{
    text.split('/').collect(alloc)
}

/// The names in a text, which are separated by NULs.
fn names_in<'a>(alloc: Global, text: &'a str) -> Result<Vec<&'a str>, AllocError>
    ensures names { IfOk result (λ names. map (λ name. name.now) names.items ≡ slice_split (λ b. b == nul) text.now) }
{
    text.split('\0').collect(alloc)
}

/// The name at an index of both lists, if they have the same one there.
fn same_at<'a>(own: &[&'a str], its: &[&'a str], index: usize) -> Option<&'a str>
    ensures same { HasSameFirst (drop index (map (λ name. name.now) own.now)) (drop index (map (λ name. name.now) its.now)) (option_copied result) }
{
    let Some(name) = own.get(index) else {
        return None;
    };
    let Some(twin) = its.get(index) else {
        return None;
    };
    if name == twin { Some(*name) } else { None }
}
