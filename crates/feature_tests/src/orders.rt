//! Items that come in any order, and what reduces them.
ghost use Rattle.std.specs.Prelude.{ℕ, List, Ok, map, IfOk};
ghost use Rattle.std.specs.Iterator.{AlwaysYields, IsFinite};
ghost use Rattle.gix_features_parts.specs.InOrderRuns.{ArriveOnce, GivesInTurn, GivesItems};

use gix_features_parts::parallel::reduce::{IdentityWithResult, Reduce};
use gix_features_parts::parallel::{InOrderError, InOrderIter};
use std::alloc::{AllocError, Global};
use std::test::Fail;
use test_words::{add, compare, halves};

/// The error of an inner iterator.
#[derive(Clone, Copy, Debug, Drop)]
pub(crate) struct Broken;

/// A number and the name of an item, as `1b`. Another word is an error.
fn item_of(word: &str) -> Result<(usize, char), Broken> {
    let mut letters = word.chars();
    match (letters.next(), letters.next()) {
        (Some(number), Some(name)) => match number.to_digit(10) {
            Some(number) => Ok((number as usize, name)),
            None => Err(Broken),
        },
        _ => Err(Broken),
    }
}

/// What an iterator in order gives, as long as there is memory for it.
pub(crate) type Given<T, E> = Vec<Result<T, InOrderError<E>>>;

/// All that is given of items that come by their numbers: the law of items in order, as clauses.
pub(crate) fn drained<T: Drop, E: Drop, I>(
    alloc: Global,
    iter: I,
) -> Result<Given<T, E>, AllocError>
where
    I: Iterator<Item = Result<(usize, T), E>> + Drop,
    requires can { I.can_next iter }
    requires finite { IsFinite (I.remaining iter) }
    ensures in_turn { IfOk result (λ given. GivesInTurn I.next_gives iter given.items) }
    ensures in_order { IfOk result (λ given. (items : List T) (pairs : List (ℕ × T)) → ArriveOnce items pairs
        → AlwaysYields I.next_gives (λ a. a) iter (map Ok pairs) → GivesItems items given.items) }
{
    InOrderIter::from(alloc, iter).collect(alloc)
}

fn given_shown(
    alloc: Global,
    given: Result<char, InOrderError<Broken>>,
) -> Result<String, AllocError> {
    match given {
        Ok(name) => format!(in alloc; "{name}"),
        Err(InOrderError::Inner(Broken)) => "broken".to_string(alloc),
        Err(InOrderError::OutOfSequence { got, next }) => format!(in alloc; "{got} for {next}"),
        Err(InOrderError::NoMemory) => "no memory".to_string(alloc),
    }
}

/// Adds what is given.
fn add_given(
    alloc: Global,
    all: &mut String,
    given: Result<char, InOrderError<Broken>>,
) -> Result<(), AllocError> {
    let text = given_shown(alloc, given)?;
    add(all, text.as_str())
}

fn order_shown(alloc: Global, all: &mut String, words: &str) -> Result<(), AllocError> {
    for given in drained(alloc, words.split(' ').map(item_of))? {
        add_given(alloc, all, given)?;
    }
    Ok(())
}

/// Fails if a row's items are given in another order than is wanted.
fn order_row(alloc: Global, row: &str) -> Result<(), Fail> {
    let (words, want) = halves(row);
    let mut all = String::new(alloc);
    order_shown(alloc, &mut all, words)?;
    compare(words, all.as_str(), want)
}

/// Items as they come, and what is given.
const ORDERS: &str = "\
    0a 1b 2c|a, b, c;\
    1b 0a 2c|a, b, c;\
    2c 1b 0a|a, b, c;\
    2c 0a|a;\
    1b|;\
    0a 0b|a, 0 for 1;\
    1b 1c 0a|1 for 0;\
    1b 0a 1c|a, b, 1 for 2;\
    0a !|a, broken;\
    1b 0a !|a, b, broken;\
    1b ! 0a|broken";

// Catches an item that is given before its turn or twice, one that is lost at the end or by an error after it, and
// one that is given after an error.
#[test]
fn orders(rt: HostRuntime) -> Result<(), Fail> {
    for row in ORDERS.split(';') {
        order_row(rt.alloc(), row)?;
    }
    Ok(())
}

// Catches a reducer that gives another value than it is fed, keeps an error back, or gives one at the end.
#[test]
fn reduces(rt: HostRuntime) -> Result<(), Fail> {
    let mut reducer = IdentityWithResult::<u8, Broken>::default();
    let first = reducer.feed(Ok(7));
    let second = reducer.feed(Err(Broken));
    let last = reducer.finalize();
    let shown = format!(in rt.alloc(); "{first:?} {second:?} {last:?}")?;
    compare("fed", shown.as_str(), "Ok(7) Err(Broken) Ok(())")
}
