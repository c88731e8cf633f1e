//! Ids of objects: read from their hex text, written as such, and ordered.
ghost use Rattle.std.specs.Prelude.{◌≡◌, ◌+◌, ◌*◌, ◌↔◌, length, replicate, IfOk, IfErr, IsErr, IsErrOf, IsFalse, IsOk, IsTrue, MatchOption, Some};
ghost use Rattle.std.specs.String.{string_bytes};
ghost use Rattle.hex.specs.Hex.{decode_of, IsBytes};
ghost use Rattle.gix_hash.specs.Kind.{len_in_bytes_of};
ghost use Rattle.gix_hash.specs.ObjectId.{bytes_of, first_byte_of, hex_of, id_cmp, id_of, is_lower_digit, is_lower_text, kind_of, IsHexOf, IsId, IsIdLength};

use crate::kind::{SHA1_DIGITS, SHA1_LEN, SHA256_DIGITS, SHA256_LEN};
use crate::{Kind, Steps};
use hex::FromHex;
use odb_base::NoMemory;
use std::alloc::Global;
use std::cmp::Ordering;
use std::fmt;
use std::sync::ledger::Ledger;
use thiserror::Error;

/// The id of an object.
#[derive(Clone, Copy, Debug, PartialEq, Eq, Hash)]
pub enum ObjectId {
    Sha1([u8; SHA1_LEN]),
    Sha256([u8; SHA256_LEN]),
}

/// Why a text is no id.
#[derive(Clone, Copy, Debug, Error)]
pub enum HexError {
    /// It has neither 40 nor 64 bytes.
    #[error("an id has 40 or 64 hex digits")]
    Length,
    /// It has a byte that is no hex digit in lower case.
    #[error("an id has hex digits in lower case alone")]
    Invalid,
}

impl ObjectId {
    /// Reads an id from its hex text, 40 digits in lower case for SHA-1 or 64 for SHA-256.
    pub fn from_hex(text: &[u8]) -> Result<ObjectId, HexError>
        ensures exact { MatchOption (id_of text.now) (IsErr result) (λ id. result ≡ Ok id) }
        ensures found { IfOk result (λ id. IsHexOf text.now id) }
        ensures id { IfOk result IsId }
        ensures only { (id : ObjectId) → IsId id → IsHexOf text.now id → result ≡ Ok id }
        ensures length { IsErrOf result HexError.Length ↔ ¬ (IsIdLength (length text.now)) }
        ensures invalid { IsErrOf result HexError.Invalid ↔ (IsIdLength (length text.now) × IsFalse (is_lower_text text.now)) }
    {
        match text.len() {
            SHA1_DIGITS => Ok(ObjectId::Sha1(decoded(text)?)),
            SHA256_DIGITS => Ok(ObjectId::Sha256(decoded(text)?)),
            _ => Err(HexError::Length),
        }
    }

    /// The id whose bytes are all zero.
    pub fn null(kind: Kind) -> ObjectId
        ensures kind { kind_of result ≡ kind }
        ensures id { IsId result }
        ensures bytes { bytes_of result ≡ replicate (len_in_bytes_of kind) 0 }
    {
        match kind {
            Kind::Sha1 => ObjectId::Sha1([0; SHA1_LEN]),
            Kind::Sha256 => ObjectId::Sha256([0; SHA256_LEN]),
        }
    }

    /// The hash function that the id comes from.
    pub fn kind(&self) -> Kind
        ensures kind { result ≡ kind_of self.now }
    {
        match self {
            ObjectId::Sha1(_) => Kind::Sha1,
            ObjectId::Sha256(_) => Kind::Sha256,
        }
    }

    /// The 20 or 32 bytes of the id.
    pub fn as_bytes(&self) -> &[u8]
        ensures bytes { result.now ≡ bytes_of self.now }
        ensures id { IsId self.now }
    {
        match self {
            ObjectId::Sha1(bytes) => whole(bytes),
            ObjectId::Sha256(bytes) => whole(bytes),
        }
    }

    /// The first byte of the id.
    pub fn first_byte(&self) -> u8
        ensures first { result ≡ first_byte_of self.now }
    {
        match self {
            ObjectId::Sha1(bytes) => bytes[0],
            ObjectId::Sha256(bytes) => bytes[0],
        }
    }

    /// The hex text of the id, in lower case.
    pub fn to_hex(&self, alloc: Global) -> Result<String, NoMemory>
        ensures text { IfOk result (λ text. string_bytes text ≡ hex_of self.now) }
    {
        Ok(hex::encode(alloc, self.as_bytes())?)
    }

    /// How the id compares with another, which counts as one step.
    pub fn cmp_counted<L: Ledger>(&self, other: &ObjectId, steps: &mut Steps<L>) -> Ordering
        ensures order { result ≡ id_cmp self.now other.now }
        ensures step { steps.new ≡ steps.old + 1 }
    {
        steps.tick();
        self.cmp(other)
    }

    // The hex text, written into a buffer that has room for the longer kind.
    pub(crate) fn write_hex<'a>(&self, room: &'a mut [u8; SHA256_DIGITS]) -> &'a str
        ensures text { result.now ≡ hex_of self.now }
        ensures id { IsId self.now }
    {
        let bytes = self.as_bytes();
        let text = &mut room[..2 * bytes.len()];
        if hex::encode_to_slice(bytes, text).is_err() {
            unreachable!("the text is twice as long as the bytes");
        }
        match std::str::from_utf8(text) {
            Ok(text) => text,
            Err(_) => unreachable!("hex digits are ASCII"),
        }
    }
}

impl PartialOrd for ObjectId {
    ghost use Rattle.std.specs.Ordering.{as_partial_cmp};
    ghost use Rattle.std.specs.Cmp.{po};
    ghost use Rattle.gix_hash.specs.ObjectId.{id_cmp};
    ghost use Rattle.gix_hash.specs.IdOrder.{id_order, ids_tie};

    ghost partial_cmp = { as_partial_cmp id_cmp };

    ghost laws = { po id_order ids_tie };

    fn partial_cmp(&self, other: &ObjectId) -> Option<Ordering> {
        Some(self.cmp(other))
    }
}

/// The order of the kinds, and then of the bytes.
impl Ord for ObjectId {
    ghost use Rattle.std.specs.Prelude.{refl};
    ghost use Rattle.gix_hash.specs.ObjectId.{id_cmp};
    ghost use Rattle.gix_hash.specs.IdOrder.{id_order, ids_tie};

    ghost cmp = { id_cmp };

    ghost total = { id_order };

    ghost matches_partial_cmp = { λ _ _. refl };

    ghost matches_eq = { ids_tie };

    fn cmp(&self, other: &ObjectId) -> Ordering {
        match self.kind().cmp(&other.kind()) {
            Ordering::Equal => self.as_bytes().cmp(other.as_bytes()),
            apart => apart,
        }
    }
}

/// Writes the hex text, in lower case.
impl fmt::Display for ObjectId {
    ghost output = { λ id. Some (hex_of id) };

    fn fmt<W: fmt::Write>(&self, f: &mut fmt::Formatter<W>) -> fmt::Result {
        f.pad(self.write_hex(&mut [0; SHA256_DIGITS]))
    }
}

fn is_digit(byte: u8) -> bool
    ensures digit { result ≡ is_lower_digit byte }
{
    matches!(byte, b'0'..=b'9' | b'a'..=b'f')
}

fn is_lower(text: &[u8]) -> bool
    ensures lower { result ≡ is_lower_text text.now }
{
    text.iter().all(|byte| is_digit(*byte))
}

// The bytes of a text of lower-case hex digits.
fn decoded<const N: usize>(text: &[u8]) -> Result<[u8; N], HexError>
    ensures value { IfOk result (λ bytes. decode_of text.now ≡ Ok bytes) }
    ensures read { IsOk result ↔ ((length text.now ≡ 2 * N) × IsTrue (is_lower_text text.now)) }
    ensures refused { IfErr result (λ error. error ≡ HexError.Invalid) }
{
    if !is_lower(text) {
        return Err(HexError::Invalid);
    }
    <[u8; N]>::from_hex(text).map_err(|_| HexError::Invalid)
}

// The bytes of an array as a slice, and what its type says of them.
fn whole<const N: usize>(bytes: &[u8; N]) -> &[u8]
    ensures same { result.now ≡ bytes.now }
    ensures bytes { IsBytes bytes.now }
    ensures size { length bytes.now ≡ N }
{
    in_range(bytes)
}

// A slice, and what its type says of its elements.
fn in_range(bytes: &[u8]) -> &[u8]
    ensures same { result.now ≡ bytes.now }
    ensures bytes { IsBytes bytes.now }
{
    bytes
}
