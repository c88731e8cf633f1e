//! Outputs as they are put together: texts and numbers, one after the other.
ghost use Rattle.std.specs.Prelude.{◌≡◌, ◌++◌, OnOk};
ghost use Rattle.std.specs.Fmt.{decimal};

use odb_base::NoMemory;
use std::alloc::Global;

/// Adds a text and a number in decimal.
pub fn labelled(alloc: Global, out: &mut Vec<u8>, label: &[u8], value: u64) -> Result<(), NoMemory>
    ensures ok { OnOk result (out.new.items ≡ out.old.items ++ (label.now ++ decimal value)) }
{
    text(out, label)?;
    number(alloc, out, value)
}

/// Adds a number in decimal.
pub fn number(alloc: Global, out: &mut Vec<u8>, number: u64) -> Result<(), NoMemory>
    ensures ok { OnOk result (out.new.items ≡ out.old.items ++ decimal number) }
{
    text(out, number.to_string(alloc)?.as_bytes())
}

/// Adds text.
pub fn text(out: &mut Vec<u8>, text: &[u8]) -> Result<(), NoMemory>
    ensures ok { OnOk result (out.new.items ≡ out.old.items ++ text.now) }
{
    Ok(out.extend_from_slice(text)?)
}
