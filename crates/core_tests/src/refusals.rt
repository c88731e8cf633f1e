//! The texts of refusals.
use gix_odb_core::Refusal;
use std::alloc::Global;
use std::test::Fail;

const TEXTS: [(Refusal, &str); 3] = [
    (
        Refusal::InsufficientSlots {
            current: 4,
            needed: 2,
        },
        "4 slots are too few: 2 more are needed",
    ),
    (
        Refusal::GenerationOverflow,
        "the generation or the state number cannot rise any more",
    ),
    (Refusal::NoMemory, "out of memory"),
];

fn check(alloc: Global, refusal: &Refusal, want: &str) -> Result<(), Fail> {
    let text = refusal.to_string(alloc)?;
    let found = text.as_str();
    if found == want {
        return Ok(());
    }
    Err(Fail::new(format_args!("{found} in place of {want}")))
}

// The two numbers swapped.
#[test]
fn texts_of_refusals(rt: HostRuntime) -> Result<(), Fail> {
    for (refusal, want) in TEXTS.iter() {
        check(rt.alloc(), refusal, want)?;
    }
    Ok(())
}
