//! Objects read from bytes.
ghost use Rattle.std.specs.Prelude.{◌≡◌, ◌<◌, ◌≤◌, ◌==◌, ◌↔◌, List, ℕ, take, drop, length, IfSome, IfNone, IfOk, IsErr, MatchOption, option_map, Some, None};
ghost use Rattle.std.specs.List.{position};
ghost use Rattle.gix_object.specs.Loose.{head_of, header_of, header_room, loose_of, spelled, IsLoose};

use crate::Kind;
use odb_base::parse_decimal;
use thiserror::Error;

// In how many first bytes of a file a header ends, with its NUL. The longest header has 28.
const HEADER_ROOM: usize = 64;

/// The bytes begin with no header of a loose object.
#[derive(Clone, Copy, Debug, PartialEq, Eq, Error)]
#[error("a loose object begins with its kind, a space, its size in decimal and NUL")]
pub struct InvalidHeader;

/// The header at the start of a loose object of Git: the kind, the size in bytes that it gives for the data, and its
/// own length in bytes.
///
/// A header is the kind's word, a space, the size in decimal without leading zeros, and NUL. It ends in the first 64
/// bytes, and what follows isn't read. Anything else is `InvalidHeader`.
pub fn loose_header(bytes: &[u8]) -> Result<(Kind, u64, usize), InvalidHeader>
    ensures found { IfOk result (λ header. IsLoose bytes.now header.0 header.1 (drop header.2 bytes.now)) }
    ensures length { IfOk result (λ header. header.2 ≡ length (header_of header.0 header.1)) }
    ensures within { IfOk result (λ header. header.2 ≤ length bytes.now) }
    ensures only { (kind : Kind) (size : ℕ) (rest : List ℕ) → IsLoose bytes.now kind size rest → result ≡ Ok (kind, size, length (header_of kind size)) }
    ensures invalid { IsErr result ↔ ((kind : Kind) (size : ℕ) (rest : List ℕ) → ¬ (IsLoose bytes.now kind size rest)) }
    ensures exact { MatchOption (loose_of bytes.now) (IsErr result) (λ object. result ≡ Ok (head_of object)) }
{
    header_in(bytes).ok_or(InvalidHeader)
}

// The header, if there is one.
fn header_in(bytes: &[u8]) -> Option<(Kind, u64, usize)>
    ensures header { result ≡ option_map head_of (loose_of bytes.now) }
{
    let nul = place_of_nul(bytes)?;
    let (kind, size) = parsed(&bytes[..nul])?;
    Some((kind, size, nul + 1))
}

// The place of the first NUL, if it is where a header may end.
fn place_of_nul(bytes: &[u8]) -> Option<usize>
    ensures first { result ≡ position (λ b. b == 0) (take header_room bytes.now) }
    ensures within { IfSome result (λ nul. nul < length bytes.now) }
{
    bytes.iter().take(HEADER_ROOM).position(|b| *b == 0)
}

// The kind and the size of a header without its NUL.
fn parsed(header: &[u8]) -> Option<(Kind, u64)>
    ensures found { IfSome result (λ header_read. (rest : List ℕ) → spelled header.now rest ≡ Some (record { kind = header_read.0; size = header_read.1; rest = rest })) }
    ensures none { IfNone result ((rest : List ℕ) → spelled header.now rest ≡ None) }
{
    let Ok(text) = std::str::from_utf8(header) else {
        return None;
    };
    let (word, size) = text.split_once(' ')?;
    Some((Kind::from_bytes(word.as_bytes())?, parse_decimal(size)?))
}
