//! Objects as bytes.
ghost use Rattle.std.specs.Prelude.{◌≡◌, ◌≤◌, ℕ, List, ◌++◌, length, IfOk};
ghost use Rattle.gix_object.specs.Loose.{header_of, longest_header, loose_of, IsLoose};

use crate::Kind;
use odb_base::{ByteList, NoMemory};
use std::alloc::Global;

/// The header of a loose object of Git, for data of `size` bytes: the kind's word, a space, the size in decimal, and
/// NUL. The only error is running out of memory.
#[tactic(auto, unfolding(crate::specs::Loose::header_of))]
pub fn loose_header(alloc: Global, kind: Kind, size: u64) -> Result<ByteList, NoMemory>
    ensures header { IfOk result (λ header. header ≡ header_of kind size) }
    ensures grammar { IfOk result (λ header. (rest : List ℕ) → IsLoose (header ++ rest) kind size rest) }
    ensures read_back { IfOk result (λ header. (rest : List ℕ) → loose_of (header ++ rest) ≡ Some (record { kind = kind; size = size; rest = rest })) }
    ensures short { IfOk result (λ header. length header ≤ longest_header) }
{
    let header = format!(in alloc; "{kind} {size}\0")?;
    Ok(ByteList::from_vec(header.into_bytes()))
}
