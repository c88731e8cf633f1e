//! What of a line isn't built yet: its word.
ghost use Rattle.std.specs.Prelude.{◌≡◌, IfOk};
ghost use Rattle.odb_script.specs.Reason.{line_at};
ghost use Rattle.odb_script.specs.Told.{unbuilt_at, unbuilt_line};

use crate::SCRIPT_LIMIT;
use crate::part::part_at;
use crate::wording::label_field;
use odb_base::NoMemory;
use odb_program::labelled;
use std::alloc::Global;

/// The message on the line with this number, whose word isn't built yet.
#[tactic(auto, unfolding(crate::specs::Told::unbuilt_at))]
pub(crate) fn unbuilt_at(alloc: Global, bytes: &[u8], number: u64) -> Result<Vec<u8>, NoMemory>
    ensures told { IfOk result (λ told. told.items ≡ unbuilt_at bytes.now number) }
{
    if bytes.len() <= SCRIPT_LIMIT {
        unbuilt_in_script(alloc, bytes, number)
    } else {
        unbuilt_in_script(alloc, &bytes[..SCRIPT_LIMIT], number)
    }
}

fn unbuilt_in_script(alloc: Global, bytes: &[u8], number: u64) -> Result<Vec<u8>, NoMemory>
    ensures told { IfOk result (λ told. told.items ≡ unbuilt_line number (line_at bytes.now number)) }
{
    unbuilt_line(alloc, number, part_at(bytes, b'\n', number).bytes)
}

fn unbuilt_line(alloc: Global, number: u64, line: &[u8]) -> Result<Vec<u8>, NoMemory>
    ensures told { IfOk result (λ told. told.items ≡ unbuilt_line number line.now) }
{
    let word = part_at(line, b' ', 1).bytes;
    let mut out = Vec::new(alloc);
    labelled(alloc, &mut out, b"line ", number)?;
    label_field(alloc, &mut out, b", field 1: not built yet: ", word)?;
    Ok(out)
}
