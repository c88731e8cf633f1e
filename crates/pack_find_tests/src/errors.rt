//! The texts of errors.
use gix_odb_search::Error;
use std::test::Fail;
use test_words::Text;

const TEXTS: &[(Error, &str)] = &[
    (Error::LoadPack, "the pack could not be read"),
    (Error::Pack, "there is no entry where the index says"),
    (Error::EntryType { code: 5 }, "5 is no type of an entry"),
    (Error::DeltaEntry, "the entry is a delta"),
    (
        Error::OutOfMemory { size: 6 },
        "an object of 6 bytes is above the limit",
    ),
];

// The text of another error, or one without its number.
#[test]
fn texts_of_errors(rt: HostRuntime) -> Result<(), Fail> {
    for (error, want) in TEXTS {
        let mut found = Text::new(rt.alloc());
        found.marked("", *error);
        found.check(want, want)?;
    }
    Ok(())
}
