//! The first field of a line that is wrong.
ghost use Rattle.std.specs.Prelude.{◌≡◌, ◌+◌, ◌<◌, ◌^◌, Some, length, IfOk};
ghost use Rattle.odb_script.specs.Split.{texts_of};
ghost use Rattle.odb_script.specs.Fault.{but_first, change_fault, fault_behind, fault_in, first_wrong, judged, missing, next_expected};

use crate::expected::{Expected, expected_of, expected_of_change, further_of, is_spelled};
use crate::{ChangeWord, Word, change_word_of, word_of};
use odb_base::NoMemory;
use std::alloc::Global;

/// The first field of a line that is wrong. The word of the line is field 1.
#[derive(Clone, Copy)]
pub struct Fault {
    pub field: usize,
    pub mistake: Mistake,
}

/// What is wrong with a field.
#[derive(Clone, Copy)]
pub enum Mistake {
    /// No line begins with this word.
    NoSuchWord,
    /// No word that follows `do` is this.
    NoSuchChange,
    /// It isn't what it has to be.
    Not(Expected),
    /// The line ends before this field.
    Missing(Expected),
    /// The line should end before this field.
    TooMany,
}

/// The first field that is wrong, if any.
#[tactic(auto, unfolding(crate::specs::Fault::fault_in))]
pub(crate) fn fault_in(alloc: Global, fields: &[&str]) -> Result<Option<Fault>, NoMemory>
    ensures fault { IfOk result (λ fault. fault ≡ fault_in (texts_of fields.now)) }
{
    match fields {
        [] => Ok(None),
        [word, behind @ ..] => fault_behind(alloc, word_of(word), behind),
    }
}

/// The first field that is wrong, by the first word and the fields after it.
fn fault_behind(
    alloc: Global,
    word: Option<Word>,
    fields: &[&str],
) -> Result<Option<Fault>, NoMemory>
    requires few { length fields.now + 1 < 2 ^ 64 }
    ensures fault { IfOk result (λ fault. fault ≡ fault_behind word (texts_of fields.now)) }
{
    match word {
        None => Ok(wrong(1, Mistake::NoSuchWord)),
        Some(Word::NotBuilt) => Ok(None),
        Some(Word::Do) => change_fault(alloc, fields),
        Some(word) => first_wrong(alloc, fields, expected_of(word), further_of(word), 2),
    }
}

/// The first field after `do` that is wrong.
fn change_fault(alloc: Global, fields: &[&str]) -> Result<Option<Fault>, NoMemory>
    requires few { length fields.now + 1 < 2 ^ 64 }
    ensures fault { IfOk result (λ fault. fault ≡ change_fault (texts_of fields.now)) }
{
    let [word, behind @ ..] = fields else {
        return Ok(wrong(2, Mistake::Missing(Expected::Change)));
    };
    match change_word_of(word) {
        None => Ok(wrong(2, Mistake::NoSuchChange)),
        Some(word) => first_wrong(alloc, behind, expected_of_change(word), None, 3),
    }
}

/// The first field that isn't what it has to be; the first of the fields has this number.
#[tactic(auto, unfolding(crate::specs::Fault::first_wrong))]
fn first_wrong(
    alloc: Global,
    fields: &[&str],
    expected: &[Expected],
    further: Option<Expected>,
    first: usize,
) -> Result<Option<Fault>, NoMemory>
    requires few { first + length fields.now < 2 ^ 64 }
    ensures fault { IfOk result (λ fault. fault ≡ first_wrong further expected.now (texts_of fields.now) first) }
{
    let mut rest = fields;
    let mut left = expected;
    let mut number = first;
    while let [field, more @ ..] = rest {
        match judged(alloc, next_expected(left, further), field, number)? {
            Some(fault) => return Ok(Some(fault)),
            None => left = but_first(left),
        }
        rest = more;
        number += 1;
    }
    Ok(missing(left, number))
}

/// The fault of a field that has to be this, if there may be one.
fn judged(
    alloc: Global,
    expected: Option<Expected>,
    field: &str,
    number: usize,
) -> Result<Option<Fault>, NoMemory>
    ensures fault { IfOk result (λ fault. fault ≡ judged expected field.now number) }
{
    let Some(kind) = expected else {
        return Ok(wrong(number, Mistake::TooMany));
    };
    if is_spelled(alloc, kind, field)? {
        Ok(None)
    } else {
        Ok(wrong(number, Mistake::Not(kind)))
    }
}

/// What the next field has to be, if there may be one.
fn next_expected(expected: &[Expected], further: Option<Expected>) -> Option<Expected>
    ensures next { result ≡ next_expected further expected.now }
{
    match expected {
        [] => further,
        [kind, ..] => Some(*kind),
    }
}

fn but_first(expected: &[Expected]) -> &[Expected]
    ensures rest { result.now ≡ but_first expected.now }
{
    match expected {
        [] => expected,
        [_, more @ ..] => more,
    }
}

/// A field that is missing, if any.
fn missing(expected: &[Expected], number: usize) -> Option<Fault>
    ensures fault { result ≡ missing expected.now number }
{
    match expected {
        [] => None,
        [kind, ..] => wrong(number, Mistake::Missing(*kind)),
    }
}

fn wrong(field: usize, mistake: Mistake) -> Option<Fault>
    ensures fault { result ≡ Some (record { field = field; mistake = mistake }) }
{
    Some(Fault { field, mistake })
}
