//! Why a line is refused, in words.
ghost use Rattle.std.specs.Prelude.{◌≡◌, ◌++◌, [], IfOk, OnOk};
ghost use Rattle.odb_script.specs.Told.{is_printed, mistake_told, reason_told, shown, shown_byte, shown_bytes, shown_part, told, told_at, told_by, told_in};

use crate::expected::name_of;
use crate::fault::Mistake;
use crate::part::{Part, part_at};
use crate::reason::{Reason, reason_of};
use crate::unbuilt::unbuilt_at;
use crate::{Ending, Reading, SCRIPT_LIMIT, Script};
use odb_base::NoMemory;
use odb_program::{labelled, text};
use std::alloc::Global;

/// The most bytes of a field that are shown.
const MOST_SHOWN: usize = 60;

/// The message on a script that was read: why it refuses a line, or what of one isn't built yet; else nothing.
pub fn told_of(alloc: Global, bytes: &[u8], reading: &Reading) -> Result<Vec<u8>, NoMemory>
    ensures told { IfOk result (λ told. told.items ≡ told_by reading.now.script bytes.now reading.now.ending) }
{
    match reading.ending {
        Ending::RefusedAt(number) => told_at(alloc, &reading.script, bytes, number),
        Ending::Whole => Ok(Vec::new(alloc)),
        Ending::NotBuiltAt(number) => unbuilt_at(alloc, bytes, number),
    }
}

/// Why the line with this number is refused.
#[tactic(auto, unfolding(crate::specs::Told::told_at))]
fn told_at(alloc: Global, script: &Script, bytes: &[u8], number: u64) -> Result<Vec<u8>, NoMemory>
    ensures told { IfOk result (λ told. told.items ≡ told_at script.now bytes.now number) }
{
    if bytes.len() <= SCRIPT_LIMIT {
        told_in(alloc, script, bytes, false, number)
    } else {
        told_in(alloc, script, &bytes[..SCRIPT_LIMIT], true, number)
    }
}

/// Why the line is refused, in a script or in a prefix of one that is too long.
fn told_in(
    alloc: Global,
    script: &Script,
    bytes: &[u8],
    is_cut: bool,
    number: u64,
) -> Result<Vec<u8>, NoMemory>
    ensures told { IfOk result (λ told. told.items ≡ told_in is_cut script.now bytes.now number) }
{
    let Part {
        bytes: line,
        is_last,
    } = part_at(bytes, b'\n', number);
    let reason = if is_cut && is_last {
        Reason::TooLong
    } else {
        reason_of(alloc, script, line)?
    };
    told(alloc, number, line, reason)
}

/// Why the line with this number is refused, in words.
fn told(alloc: Global, number: u64, line: &[u8], reason: Reason) -> Result<Vec<u8>, NoMemory>
    ensures told { IfOk result (λ text. text.items ≡ told number line.now reason) }
{
    let mut out = Vec::new(alloc);
    labelled(alloc, &mut out, b"line ", number)?;
    add_reason(alloc, &mut out, line, reason)?;
    Ok(out)
}

/// Adds the reason after the number of the line.
fn add_reason(alloc: Global, out: &mut Vec<u8>, line: &[u8], reason: Reason) -> Result<(), NoMemory>
    ensures ok { OnOk result (out.new.items ≡ out.old.items ++ reason_told line.now reason) }
{
    match reason {
        Reason::TooLong => too_long(alloc, out),
        Reason::NotText => text(out, b": not UTF-8"),
        Reason::Field { number, mistake } => add_field(alloc, out, line, number, mistake),
        Reason::Impossible => text(out, b": impossible on the disk so far"),
        Reason::OutOfPlace => text(out, b": not in this place"),
    }
}

fn too_long(alloc: Global, out: &mut Vec<u8>) -> Result<(), NoMemory>
    ensures ok { OnOk result (out.new.items ≡ out.old.items ++ reason_told [] Reason.TooLong) }
{
    let limit = SCRIPT_LIMIT as u64;
    labelled(alloc, out, b": the script is longer than ", limit)?;
    text(out, b" bytes")
}

fn add_field(
    alloc: Global,
    out: &mut Vec<u8>,
    line: &[u8],
    number: usize,
    mistake: Mistake,
) -> Result<(), NoMemory>
    ensures ok { OnOk result (out.new.items ≡ out.old.items ++ reason_told line.now (Reason.Field number mistake)) }
{
    let number = number as u64;
    labelled(alloc, out, b", field ", number)?;
    text(out, b": ")?;
    add_mistake(alloc, out, part_at(line, b' ', number).bytes, mistake)
}

/// Adds what is wrong with a field.
fn add_mistake(
    alloc: Global,
    out: &mut Vec<u8>,
    field: &[u8],
    mistake: Mistake,
) -> Result<(), NoMemory>
    ensures ok { OnOk result (out.new.items ≡ out.old.items ++ mistake_told mistake field.now) }
{
    match mistake {
        Mistake::NoSuchWord => label_field(alloc, out, b"no such word: ", field),
        Mistake::NoSuchChange => label_field(alloc, out, b"no such word behind do: ", field),
        Mistake::Not(kind) => {
            text(out, b"not ")?;
            text(out, name_of(kind))?;
            label_field(alloc, out, b": ", field)
        }
        Mistake::Missing(kind) => {
            text(out, b"missing: ")?;
            text(out, name_of(kind))
        }
        Mistake::TooMany => label_field(alloc, out, b"one field too many: ", field),
    }
}

/// Adds a text and a field as it is shown.
pub(crate) fn label_field(
    alloc: Global,
    out: &mut Vec<u8>,
    label: &[u8],
    field: &[u8],
) -> Result<(), NoMemory>
    ensures ok { OnOk result (out.new.items ≡ out.old.items ++ (label.now ++ shown field.now)) }
{
    text(out, label)?;
    add_shown(alloc, out, field)
}

/// Adds a field as it is shown; an empty one in words.
fn add_shown(alloc: Global, out: &mut Vec<u8>, field: &[u8]) -> Result<(), NoMemory>
    ensures ok { OnOk result (out.new.items ≡ out.old.items ++ shown field.now) }
{
    match field {
        [] => text(out, b"(nothing)"),
        [_, ..] => add_part(alloc, out, field),
    }
}

/// Adds a field, or the front of it and two dots.
fn add_part(alloc: Global, out: &mut Vec<u8>, field: &[u8]) -> Result<(), NoMemory>
    ensures ok { OnOk result (out.new.items ≡ out.old.items ++ shown_part field.now) }
{
    if field.len() <= MOST_SHOWN {
        return add_bytes(alloc, out, field);
    }
    add_bytes(alloc, out, &field[..MOST_SHOWN])?;
    text(out, b"..")
}

fn add_bytes(alloc: Global, out: &mut Vec<u8>, bytes: &[u8]) -> Result<(), NoMemory>
    ensures ok { OnOk result (out.new.items ≡ out.old.items ++ shown_bytes bytes.now) }
{
    for byte in bytes {
        add_byte(alloc, out, *byte)?;
    }
    Ok(())
}

fn add_byte(alloc: Global, out: &mut Vec<u8>, byte: u8) -> Result<(), NoMemory>
    ensures ok { OnOk result (out.new.items ≡ out.old.items ++ shown_byte byte) }
{
    if is_printed(byte) {
        return text(out, &[byte]);
    }
    text(out, b"\\x")?;
    text(out, hex::encode(alloc, &[byte])?.as_bytes())
}

/// Whether a byte is a printed character of ASCII.
fn is_printed(byte: u8) -> bool
    ensures printed { result ≡ is_printed byte }
{
    33 <= byte && byte <= 126
}
