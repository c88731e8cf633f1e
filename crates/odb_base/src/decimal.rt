//! Decimal numbers, read from texts.
ghost use Rattle.std.specs.Prelude.{◌≡◌, ◌&&◌, ◌==◌, ◌^◌, ◌<◌, ℕ, IfSome, Some, not, slice_index};
ghost use Rattle.std.specs.Fmt.{decimal};
ghost use Rattle.odb_base.specs.Decimal.{has_no_leading_zero, number_of};

/// The number in a text: decimal digits without a sign and without leading zeros, below 2^64.
pub fn parse_decimal(text: &str) -> Option<u64>
    ensures exact { result ≡ number_of text.now }
    ensures spelled { IfSome result (λ number. decimal number ≡ text.now) }
    ensures only { (number : ℕ) → number < 2 ^ 64 → decimal number ≡ text.now → result ≡ Some number }
{
    if is_plain(text.as_bytes()) {
        text.parse::<u64>().ok()
    } else {
        None
    }
}

/// Whether a text has neither a plus nor a leading zero, both of which `parse` accepts.
fn is_plain(text: &[u8]) -> bool
    ensures plain { result ≡ (has_no_leading_zero text.now && not (slice_index text.now 0 == 43)) }
{
    match text {
        [] => false,
        [first, rest @ ..] => (*first != b'0' || rest.is_empty()) && *first != b'+',
    }
}
