//! What is read as a decimal number.
use odb_base::parse_decimal;
use std::alloc::{AllocError, Global};
use std::test::Fail;
use test_words::{compare, halves};

fn shown(alloc: Global, text: &str) -> Result<String, AllocError> {
    match parse_decimal(text) {
        Some(number) => format!(in alloc; "{number}"),
        None => "none".to_string(alloc),
    }
}

/// Texts and their numbers, or `none`. One text ends in a line feed.
const ROWS: &str = "\
    0|0;\
    7|7;\
    100|100;\
    18446744073709551615|18446744073709551615;\
    18446744073709551616|none;\
    100000000000000000000|none;\
    |none;\
    00|none;\
    01|none;\
    +1|none;\
    -1|none;\
    +|none;\
    1a|none;\
    \u{20}1|none;\
    1\n|none;\
    ٣|none";

// Catches a reader that accepts what `parse` accepts, a plus and leading zeros, or that wraps past 64 bits.
#[test]
fn numbers(rt: HostRuntime) -> Result<(), Fail> {
    for row in ROWS.split(';') {
        let (text, want) = halves(row);
        compare(text, shown(rt.alloc(), text)?.as_str(), want)?;
    }
    Ok(())
}
