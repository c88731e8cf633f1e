//! The four kinds of objects, and the words for them.
ghost use Rattle.std.specs.Prelude.{◌≡◌, Some};
ghost use Rattle.gix_object.specs.Kind.{kind_of_word, kind_word};

use std::fmt;

/// The type of an object: one of the four kinds that Git's headers name.
#[derive(Clone, Copy, Debug, PartialEq, Eq, PartialOrd, Ord, Hash)]
pub enum Kind {
    Commit,
    Tree,
    Blob,
    Tag,
}

impl Kind {
    /// The kind with this name: `commit`, `tree`, `blob` or `tag`. None for any other word.
    #[tactic(auto, unfolding(crate::specs::Kind::kind_of_word))]
    pub fn from_bytes(word: &[u8]) -> Option<Kind>
        ensures kind { result ≡ kind_of_word word.now }
    {
        if word == b"commit".as_slice() {
            Some(Kind::Commit)
        } else if word == b"tree".as_slice() {
            Some(Kind::Tree)
        } else if word == b"blob".as_slice() {
            Some(Kind::Blob)
        } else if word == b"tag".as_slice() {
            Some(Kind::Tag)
        } else {
            None
        }
    }

    /// The word for the kind, as in a header.
    pub fn as_bytes(self) -> &'static [u8]
        ensures word { result.now ≡ kind_word self }
    {
        match self {
            Kind::Commit => b"commit",
            Kind::Tree => b"tree",
            Kind::Blob => b"blob",
            Kind::Tag => b"tag",
        }
    }
}

/// The word for the kind.
impl fmt::Display for Kind {
    ghost output = { λ kind. Some (kind_word kind) };

    fn fmt<W: fmt::Write>(&self, f: &mut fmt::Formatter<W>) -> fmt::Result {
        f.pad(match self {
            Kind::Commit => "commit",
            Kind::Tree => "tree",
            Kind::Blob => "blob",
            Kind::Tag => "tag",
        })
    }
}
