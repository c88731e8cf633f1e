//! The kinds of hash, and the lengths of their ids.
ghost use Rattle.std.specs.Prelude.{◌≡◌, Some};
ghost use Rattle.gix_hash.specs.Kind.{digits_in, len_in_bytes_of, name_of};

use std::fmt;

/// The bytes of a digest of SHA-1, which has 160 bits (FIPS 180-4).
pub const SHA1_LEN: usize = 20;

/// The bytes of a digest of SHA-256, which has 256 bits (FIPS 180-4).
pub const SHA256_LEN: usize = 32;

/// The hex digits of an id of SHA-1, two for each byte.
pub(crate) const SHA1_DIGITS: usize = 2 * SHA1_LEN;

/// The hex digits of an id of SHA-256, the most that an id has.
pub(crate) const SHA256_DIGITS: usize = 2 * SHA256_LEN;

/// The hash function that an id comes from.
#[derive(Clone, Copy, Debug, PartialEq, Eq, PartialOrd, Ord, Hash)]
pub enum Kind {
    Sha1,
    Sha256,
}

impl Kind {
    /// The length of an id of this kind, in bytes.
    pub fn len_in_bytes(self) -> usize
        ensures size { result ≡ len_in_bytes_of self }
    {
        match self {
            Kind::Sha1 => SHA1_LEN,
            Kind::Sha256 => SHA256_LEN,
        }
    }

    /// The length of an id of this kind as text, in hex digits.
    pub fn len_in_hex(self) -> usize
        ensures digits { result ≡ digits_in self }
    {
        2 * self.len_in_bytes()
    }
}

/// Writes `sha1` or `sha256`.
impl fmt::Display for Kind {
    ghost output = { λ kind. Some (name_of kind) };

    fn fmt<W: fmt::Write>(&self, f: &mut fmt::Formatter<W>) -> fmt::Result {
        f.pad(match self {
            Kind::Sha1 => "sha1",
            Kind::Sha256 => "sha256",
        })
    }
}
