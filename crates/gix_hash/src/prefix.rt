//! Prefixes of ids: made from ids, read from digits, and compared with ids.
ghost use Rattle.std.specs.Prelude.{◌≡◌, ◌+◌, ◌-◌, ◌*◌, ◌/◌, ◌%◌, ◌<◌, ◌≤◌, ◌++◌, ◌↔◌, length, slice_index, take, IfOk, IsErrOf, IsFalse, IsOk, IsTrue};
ghost use Rattle.std.specs.Ordering.{nat_cmp};
ghost use Rattle.std.specs.Cmp.Lexicographic.{slice_cmp};
ghost use Rattle.hex.specs.Hex.{encode_lower};
ghost use Rattle.gix_hash.specs.Kind.{digits_in, most_digits};
ghost use Rattle.gix_hash.specs.ObjectId.{hex_of, is_lower_text, kind_of, IsId};
ghost use Rattle.gix_hash.specs.Prefix.{digits_of, fewest_digits, kind_of_digits, prefix_cmp, zero_digits, HasPrefix, IsPrefix};

use crate::kind::{SHA1_DIGITS, SHA256_DIGITS};
use crate::{HexError, Kind, ObjectId, Steps};
use std::cmp::Ordering;
use std::marker::Model;
use std::sync::ledger::Ledger;
use thiserror::Error;

/// The first hex digits of an id, at least four.
///
/// It is kept as the id whose other digits are zeros.
#[derive(Clone, Copy, Debug)]
pub struct Prefix {
    id: ObjectId,
    hex_len: usize,
}

impl Model for Prefix {
    ghost use Rattle.gix_hash.specs.Prefix.{PrefixOf, IsPrefix};

    ghost Value = { PrefixOf };

    ghost view = { λ prefix. record { id = prefix.id; hex_len = prefix.hex_len } };

    ghost invariant = { λ prefix. IsPrefix (record { id = prefix.id; hex_len = prefix.hex_len }) };

    ghost inverse = { λ prefix. record { id = prefix.id; hex_len = prefix.hex_len } };
}

/// Why there is no such prefix.
#[derive(Clone, Copy, Debug, Error)]
pub enum PrefixError {
    /// Fewer than four digits.
    #[error("a prefix has at least 4 hex digits, and not {hex_len}")]
    TooShort { hex_len: usize },
    /// More digits than an id has.
    #[error("an id has fewer hex digits than {hex_len}")]
    TooLong { hex_len: usize },
    /// A byte that is no hex digit in lower case.
    #[error("a prefix has hex digits in lower case alone")]
    Invalid,
}

impl Prefix {
    /// The fewest digits of a prefix: fewer would match too many ids of one repository.
    pub const MIN_HEX_LEN: usize = 4;

    /// The first `hex_len` digits of an id.
    pub fn new(id: &ObjectId, hex_len: usize) -> Result<Prefix, PrefixError>
        ensures prefix { IfOk result (λ prefix. HasPrefix prefix id.now) }
        ensures hex_len { IfOk result (λ prefix. prefix.hex_len ≡ hex_len) }
        ensures is_prefix { IfOk result IsPrefix }
        ensures short { IsErrOf result (PrefixError.TooShort hex_len) ↔ (hex_len < fewest_digits) }
        ensures long { IsErrOf result (PrefixError.TooLong hex_len) ↔ (digits_in (kind_of id.now) < hex_len) }
        ensures otherwise { IsOk result ↔ ((fewest_digits ≤ hex_len) × (hex_len ≤ digits_in (kind_of id.now))) }
    {
        if hex_len < Prefix::MIN_HEX_LEN {
            return Err(PrefixError::TooShort { hex_len });
        }
        if hex_len > id.kind().len_in_hex() {
            return Err(PrefixError::TooLong { hex_len });
        }
        let mut room = [0; SHA256_DIGITS];
        let text = id.write_hex(&mut room);
        let digits = text.as_bytes();
        match padded(&digits[..hex_len], id.kind()) {
            Ok(id) => Ok(Prefix { id, hex_len }),
            Err(_) => unreachable!("the digits of an id are digits"),
        }
    }

    /// Reads a prefix from its digits, in lower case. Up to 40 are a prefix of SHA-1, and more of SHA-256.
    pub fn from_hex(text: &[u8]) -> Result<Prefix, PrefixError>
        ensures digits { IfOk result (λ prefix. digits_of prefix ≡ text.now) }
        ensures hex_len { IfOk result (λ prefix. prefix.hex_len ≡ length text.now) }
        ensures kind { IfOk result (λ prefix. kind_of prefix.id ≡ kind_of_digits (length text.now)) }
        ensures is_prefix { IfOk result IsPrefix }
        ensures short { IsErrOf result (PrefixError.TooShort (length text.now)) ↔ (length text.now < fewest_digits) }
        ensures long { IsErrOf result (PrefixError.TooLong (length text.now)) ↔ (most_digits < length text.now) }
        ensures invalid { IsErrOf result PrefixError.Invalid ↔ ((fewest_digits ≤ length text.now) × (length text.now ≤ most_digits) × IsFalse (is_lower_text text.now)) }
        ensures otherwise { IsOk result ↔ ((fewest_digits ≤ length text.now) × (length text.now ≤ most_digits) × IsTrue (is_lower_text text.now)) }
    {
        let hex_len = text.len();
        if hex_len < Prefix::MIN_HEX_LEN {
            return Err(PrefixError::TooShort { hex_len });
        }
        if hex_len > SHA256_DIGITS {
            return Err(PrefixError::TooLong { hex_len });
        }
        match padded(text, kind_of_len(hex_len)) {
            Ok(id) => Ok(Prefix { id, hex_len }),
            Err(_) => Err(PrefixError::Invalid),
        }
    }

    /// The prefix as an id, with zeros after its digits.
    pub fn as_oid(&self) -> &ObjectId
        ensures id { result.now ≡ self.now.id }
        ensures prefix { IsPrefix self.now }
    {
        &self.id
    }

    /// The number of digits of the prefix.
    pub fn hex_len(&self) -> usize
        ensures digits { result ≡ self.now.hex_len }
        ensures prefix { IsPrefix self.now }
    {
        self.hex_len
    }

    /// How the prefix compares with an id, of which only the kind and as many digits count.
    pub fn cmp_oid(&self, id: &ObjectId) -> Ordering
        ensures order { result ≡ prefix_cmp self.now id.now }
        ensures equal { (result ≡ Ordering.Equal) ↔ HasPrefix self.now id.now }
    {
        match self.id.kind().cmp(&id.kind()) {
            Ordering::Equal => cmp_digits(self.id.as_bytes(), id.as_bytes(), self.hex_len),
            order => order,
        }
    }

    /// How the prefix compares with an id, which counts as one step.
    pub fn cmp_oid_counted<L: Ledger>(&self, id: &ObjectId, steps: &mut Steps<L>) -> Ordering
        ensures order { result ≡ prefix_cmp self.now id.now }
        ensures equal { (result ≡ Ordering.Equal) ↔ HasPrefix self.now id.now }
        ensures step { steps.new ≡ steps.old + 1 }
    {
        steps.tick();
        self.cmp_oid(id)
    }
}

// The kind of id that a text of `hex_len` digits is a prefix of.
fn kind_of_len(hex_len: usize) -> Kind
    ensures kind { result ≡ kind_of_digits hex_len }
{
    if hex_len <= SHA1_DIGITS {
        Kind::Sha1
    } else {
        Kind::Sha256
    }
}

// The id whose text begins with these digits, followed by zeros.
fn padded(digits: &[u8], kind: Kind) -> Result<ObjectId, HexError>
    requires fits { length digits.now ≤ digits_in kind }
    ensures id { IfOk result IsId }
    ensures kind { IfOk result (λ id. kind_of id ≡ kind) }
    ensures text { IfOk result (λ id. hex_of id ≡ digits.now ++ zero_digits (digits_in kind - length digits.now)) }
    ensures digits { IsOk result ↔ IsTrue (is_lower_text digits.now) }
{
    ObjectId::from_hex(&with_zeros(digits)[..kind.len_in_hex()])
}

// Digits with zeros after them, as many as the longest text has.
fn with_zeros(digits: &[u8]) -> [u8; SHA256_DIGITS]
    requires fits { length digits.now ≤ most_digits }
    ensures text { result ≡ digits.now ++ zero_digits (most_digits - length digits.now) }
{
    let mut text = [b'0'; SHA256_DIGITS];
    text[..digits.len()].copy_from_slice(digits);
    text
}

// The order of the first digits of two ids' texts. Two digits are a byte, and the first of them is its higher half.
fn cmp_digits(own: &[u8], its: &[u8], digits: usize) -> Ordering
    requires own { digits ≤ 2 * length own.now }
    requires its { digits ≤ 2 * length its.now }
    ensures order { result ≡ slice_cmp nat_cmp (take digits (encode_lower own.now)) (take digits (encode_lower its.now)) }
{
    let whole = digits / 2;
    own[..whole]
        .cmp(&its[..whole])
        .then(cmp_half(own, its, digits))
}

// The order of the last digits, if their number is odd.
fn cmp_half(own: &[u8], its: &[u8], digits: usize) -> Ordering
    requires own { digits ≤ 2 * length own.now }
    requires its { digits ≤ 2 * length its.now }
    ensures odd { digits % 2 ≡ 1 → result ≡ nat_cmp (slice_index own.now (digits / 2) / 16) (slice_index its.now (digits / 2) / 16) }
    ensures even { digits % 2 ≡ 0 → result ≡ Ordering.Equal }
{
    if digits % 2 == 1 {
        (own[digits / 2] / 16).cmp(&(its[digits / 2] / 16))
    } else {
        Ordering::Equal
    }
}
