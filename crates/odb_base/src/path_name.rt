//! Names of paths.
ghost use Rattle.std.specs.Prelude.{◌≡◌, IfOk};
ghost use Rattle.std.specs.Option.{option_copied};
ghost use Rattle.odb_base.specs.Path.{is_name, extension_of};

use crate::NoMemory;
use std::alloc::Global;
use std::cmp::Ordering;
use std::marker::Model;

/// A name in a path, seen as the list of its bytes.
#[derive(Debug, Drop)]
pub struct PathName {
    text: String,
}

impl Model for PathName {
    ghost use Rattle.std.specs.Prelude.{List, ℕ};
    ghost use Rattle.std.specs.String.{string_bytes};

    ghost Value = { List ℕ };

    ghost view = { λ name. string_bytes name.text };
}

impl PathName {
    /// The name with this text.
    pub fn new(alloc: Global, text: &str) -> Result<PathName, NoMemory>
        ensures name { IfOk result (λ name. name ≡ text.now) }
    {
        let text = String::from_str(alloc, text)?;
        Ok(PathName { text })
    }

    /// The text of the name.
    pub fn as_str(&self) -> &str
        ensures value { result.now ≡ self.now }
    {
        self.text.as_str()
    }

    /// Whether it can be in a path: not empty, not `.` or `..`, and without NUL and `/`.
    pub fn is_name(&self) -> bool
        ensures named { result ≡ is_name self.now }
    {
        is_name(self.as_str())
    }

    /// A copy of the name.
    pub fn try_clone(&self, alloc: Global) -> Result<PathName, NoMemory>
        ensures copy { IfOk result (λ name. name ≡ self.now) }
    {
        PathName::new(alloc, self.as_str())
    }
}

impl PartialEq for PathName {
    ghost use Rattle.std.specs.Prelude.{nat_eq};
    ghost use Rattle.std.specs.Cmp.{partial_equiv_from_equiv};
    ghost use Rattle.std.specs.Cmp.Lexicographic.{nat_list_eq_equiv};
    ghost use lib.Pointwise.{pointwise};

    ghost eq = { pointwise nat_eq };

    fn eq(&self, other: &PathName) -> bool {
        self.text.as_bytes() == other.text.as_bytes()
    }

    ghost laws = { partial_equiv_from_equiv nat_list_eq_equiv };
}

impl Eq for PathName {
    ghost use Rattle.std.specs.Cmp.Lexicographic.{nat_list_eq_equiv};

    ghost laws = { nat_list_eq_equiv };
}

impl PartialOrd for PathName {
    ghost use Rattle.std.specs.Ordering.{as_partial_cmp};
    ghost use Rattle.std.specs.Cmp.Lexicographic.{nat_list_cmp_total, texts_ties};
    ghost use Rattle.std.specs.Cmp.{po};
    ghost use Rattle.odb_base.specs.Path.{name_cmp};

    ghost partial_cmp = { as_partial_cmp name_cmp };

    ghost laws = { po nat_list_cmp_total texts_ties };

    fn partial_cmp(&self, other: &PathName) -> Option<Ordering> {
        Some(self.cmp(other))
    }
}

impl Ord for PathName {
    ghost use Rattle.std.specs.Prelude.{refl};
    ghost use Rattle.std.specs.Cmp.Lexicographic.{nat_list_cmp_total, texts_ties};
    ghost use Rattle.odb_base.specs.Path.{name_cmp};

    ghost cmp = { name_cmp };

    ghost total = { nat_list_cmp_total };

    ghost matches_partial_cmp = { λ _ _. refl };

    ghost matches_eq = { texts_ties };

    fn cmp(&self, other: &PathName) -> Ordering {
        self.text.as_bytes().cmp(other.text.as_bytes())
    }
}

/// Whether a text is a name.
#[tactic(auto, unfolding(crate::specs::Path::is_name))]
pub(crate) fn is_name(text: &str) -> bool
    ensures named { result ≡ is_name text.now }
{
    let bytes = text.as_bytes();
    let reserved = text == "" || text == "." || text == "..";
    !(reserved || bytes.contains(&0) || bytes.contains(&b'/'))
}

/// What follows the last dot of a name. None if there is no dot, or only one at the front.
pub(crate) fn extension_in(name: &str) -> Option<&str>
    ensures extension { option_copied result ≡ extension_of name.now }
{
    let (before, extension) = name.rsplit_once('.')?;
    if before.is_empty() {
        None
    } else {
        Some(extension)
    }
}
