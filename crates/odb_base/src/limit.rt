//! Limits of the sizes of objects and files that are read.
ghost use Rattle.std.specs.Prelude.{◌≡◌};
ghost use Rattle.odb_base.specs.Limit.{is_within as size_is_within};

/// Whether a size is within a limit, if there is one.
pub fn is_within(limit: Option<u64>, size: u64) -> bool
    ensures within { result ≡ size_is_within limit size }
{
    match limit {
        None => true,
        Some(limit) => size <= limit,
    }
}
