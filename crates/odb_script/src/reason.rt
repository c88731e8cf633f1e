//! Why a line is refused.
ghost use Rattle.std.specs.Prelude.{◌≡◌, ◌≢◌, IfOk};
ghost use Rattle.odb_script.specs.Line.{item_of};
ghost use Rattle.odb_script.specs.Split.{fields_of};
ghost use Rattle.odb_script.specs.Fault.{fault_in};
ghost use Rattle.odb_script.specs.Reason.{by_fault, is_outside, line_reason, of_change, placed, reason_of};

use crate::fault::{Fault, Mistake, fault_in};
use crate::{Item, Script, fields_of, item_of};
use odb_base::NoMemory;
use std::alloc::Global;

/// Why a line is refused.
#[derive(Clone, Copy)]
pub enum Reason {
    /// The script is longer than allowed, and this line has the first byte too many.
    TooLong,
    /// The line isn't UTF-8.
    NotText,
    /// The first field that is wrong, counted from 1 with the word, and what is wrong with it.
    Field { number: usize, mistake: Mistake },
    /// A change of the setup that isn't possible on the disk after the lines before it.
    Impossible,
    /// A line that says something, but not in this place.
    OutOfPlace,
}

/// Why a script, read so far, refuses its next line, if it does.
pub fn reason_of(alloc: Global, script: &Script, line: &[u8]) -> Result<Reason, NoMemory>
    ensures reason { IfOk result (λ reason. reason ≡ reason_of script.now line.now) }

    // A line that is outside the language everywhere is never reported as out of place.
    ensures outside { item_of line.now ≡ Item.Refused → IfOk result (λ reason. reason ≢ Reason.OutOfPlace) }
{
    let (outside, placed) = judged(alloc, script, line)?;
    if outside {
        line_reason(alloc, line)
    } else {
        Ok(placed)
    }
}

/// Whether a line is outside the language everywhere, and why it is refused if it isn't.
fn judged(alloc: Global, script: &Script, line: &[u8]) -> Result<(bool, Reason), NoMemory>
    ensures outside { IfOk result (λ judged. judged.0 ≡ is_outside (item_of line.now)) }
    ensures placed { IfOk result (λ judged. judged.1 ≡ placed script.now (item_of line.now)) }
{
    let item = item_of(alloc, line)?;
    Ok((is_outside(&item), placed(script, &item)))
}

/// Whether a line is outside the language everywhere.
fn is_outside(item: &Item) -> bool
    ensures outside { result ≡ is_outside item.now }
{
    matches!(item, Item::Refused)
}

/// Why a line is refused that is outside the language everywhere.
#[tactic(auto, using(crate::proofs::TextLemmas::utf8_true, crate::proofs::TextLemmas::utf8_false), unfolding(crate::specs::Reason::line_reason))]
fn line_reason(alloc: Global, line: &[u8]) -> Result<Reason, NoMemory>
    ensures reason { IfOk result (λ reason. reason ≡ line_reason line.now) }
{
    match std::str::from_utf8(line) {
        Ok(text) => Ok(by_fault(text_fault(alloc, text)?)),
        Err(_) => Ok(Reason::NotText),
    }
}

fn text_fault(alloc: Global, line: &str) -> Result<Option<Fault>, NoMemory>
    ensures fault { IfOk result (λ fault. fault ≡ fault_in (fields_of line.now)) }
{
    let fields = fields_of(alloc, line)?;
    fault_in(alloc, &fields)
}

fn by_fault(fault: Option<Fault>) -> Reason
    ensures reason { result ≡ by_fault fault }
{
    match fault {
        Some(fault) => Reason::Field {
            number: fault.field,
            mistake: fault.mistake,
        },
        None => Reason::OutOfPlace,
    }
}

/// Why a line of the language is refused after the lines before it.
fn placed(script: &Script, item: &Item) -> Reason
    ensures reason { result ≡ placed script.now item.now }
{
    match item {
        Item::Setup(_) => of_change(script),
        _ => Reason::OutOfPlace,
    }
}

/// Why a change of the setup is refused.
fn of_change(script: &Script) -> Reason
    ensures reason { result ≡ of_change script.now }
{
    match script {
        Script::Faults(_) => Reason::Impossible,
        Script::Setup(_) => Reason::Impossible,
        Script::Steps { .. } => Reason::OutOfPlace,
    }
}
