//! A numbered line of a script, or field of a line.
ghost use Rattle.std.specs.Prelude.{◌≡◌, ◌==◌, ◌-◌, [], get_or, length, nat_le};
ghost use Rattle.std.specs.List.{slice_split};

use crate::first_part;

/// A part of some bytes, and whether it is the last one.
#[derive(Clone, Copy)]
pub struct Part<'a> {
    /// The bytes without their separator; none if no part has the number.
    pub bytes: &'a [u8],
    pub is_last: bool,
}

/// The part with a number, counted from 1, of bytes that a separator splits.
pub fn part_at(bytes: &[u8], separator: u8, number: u64) -> Part<'_>
    ensures part { result.bytes.now ≡ get_or (slice_split (λ b. b == separator) bytes.now) (number - 1) [] }
    ensures last { result.is_last ≡ nat_le (length (slice_split (λ b. b == separator) bytes.now)) number }
{
    let mut rest = bytes;
    let mut left = number;
    while let Some((part, more)) = first_part(rest, separator) {
        if left <= 1 {
            return Part {
                bytes: part,
                is_last: false,
            };
        }
        rest = more;
        left -= 1;
    }
    Part {
        bytes: if left <= 1 { rest } else { &[] },
        is_last: 1 <= left,
    }
}
