//! What a look-up of a prefix finds.
use gix_hash::ObjectId;

/// What was found, if anything was.
#[derive(Clone, Copy, Debug, PartialEq, Eq)]
pub enum Outcome {
    /// The only object whose id has the prefix.
    One(ObjectId),
    /// There are several.
    Ambiguous,
}
