//! The lines that are written for ids.
ghost use Rattle.std.specs.Prelude.{◌≡◌, ◌++◌, IfOk, OnOk, Some};
ghost use Rattle.gix_hash.specs.ObjectId.{hex_of};
ghost use Rattle.gix_pack.specs.Index.{index_rows};
ghost use Rattle.gix_pack.specs.MultiIndex.{told};
ghost use Rattle.probe_index.specs.Lines.{absent_line, name_at, offset_line, pack_line, AddsLine, AreLines, IsIndexLine, IsPackLine};

use gix_hash::ObjectId;
use gix_pack::{index, multi_index};
use odb_base::{NoMemory, PathName};
use odb_program::{number, text};
use std::alloc::Global;

/// The lines of ids by the rows of an index.
pub fn index_lines(
    alloc: Global,
    index: &index::File,
    ids: &[ObjectId],
) -> Result<Vec<u8>, NoMemory>
    ensures lines { IfOk result (λ lines. AreLines (IsIndexLine (index_rows index.now.kind index.now.bytes)) ids.now lines.items) }
{
    let mut lines = Vec::new(alloc);
    for id in ids {
        add_index_line(alloc, &mut lines, index, id)?;
    }
    Ok(lines)
}

fn add_index_line(
    alloc: Global,
    lines: &mut Vec<u8>,
    index: &index::File,
    id: &ObjectId,
) -> Result<(), NoMemory>
    ensures line { OnOk result (AddsLine (IsIndexLine (index_rows index.now.kind index.now.bytes) id.now) lines.old.items lines.new.items) }
{
    match index.lookup(id) {
        Some(row) => add_offset(alloc, lines, id, index.pack_offset_at_index(row)),
        None => add_absent(alloc, lines, id),
    }
}

/// The lines of ids by the names and rows of a multi-pack index.
pub fn pack_lines(
    alloc: Global,
    index: &multi_index::File,
    ids: &[ObjectId],
) -> Result<Vec<u8>, NoMemory>
    ensures lines { IfOk result (λ lines. AreLines (IsPackLine (told index.now)) ids.now lines.items) }
{
    let mut lines = Vec::new(alloc);
    for id in ids {
        add_pack_line(alloc, &mut lines, index, id)?;
    }
    Ok(lines)
}

fn add_pack_line(
    alloc: Global,
    lines: &mut Vec<u8>,
    index: &multi_index::File,
    id: &ObjectId,
) -> Result<(), NoMemory>
    ensures line { OnOk result (AddsLine (IsPackLine (told index.now) id.now) lines.old.items lines.new.items) }
{
    match index.lookup(id) {
        Some(row) => {
            let (pack, offset) = index.pack_id_and_pack_offset_at_index(row);
            let name = name_at(index.index_names(), pack);
            add_named_offset(alloc, lines, id, offset, name)
        }
        None => add_absent(alloc, lines, id),
    }
}

/// The name of the pack with a number. Each row of a multi-pack index names a pack that it has.
fn name_at(names: &[PathName], pack: u32) -> &str
    ensures name { result.now ≡ name_at names.now pack }
{
    match names.get(pack as usize) {
        Some(name) => name.as_str(),
        None => "",
    }
}

fn add_absent(alloc: Global, lines: &mut Vec<u8>, id: &ObjectId) -> Result<(), NoMemory>
    ensures ok { OnOk result (lines.new.items ≡ lines.old.items ++ absent_line id.now) }
{
    add_id(alloc, lines, id)?;
    text(lines, b" absent\n")
}

fn add_offset(
    alloc: Global,
    lines: &mut Vec<u8>,
    id: &ObjectId,
    offset: u64,
) -> Result<(), NoMemory>
    ensures ok { OnOk result (lines.new.items ≡ lines.old.items ++ offset_line id.now offset) }
{
    add_id(alloc, lines, id)?;
    text(lines, b" ")?;
    number(alloc, lines, offset)?;
    text(lines, b"\n")
}

fn add_named_offset(
    alloc: Global,
    lines: &mut Vec<u8>,
    id: &ObjectId,
    offset: u64,
    name: &str,
) -> Result<(), NoMemory>
    ensures ok { OnOk result (lines.new.items ≡ lines.old.items ++ pack_line id.now offset name.now) }
{
    add_id(alloc, lines, id)?;
    text(lines, b" ")?;
    number(alloc, lines, offset)?;
    text(lines, b" ")?;
    text(lines, name.as_bytes())?;
    text(lines, b"\n")
}

/// Adds an id in hex.
fn add_id(alloc: Global, lines: &mut Vec<u8>, id: &ObjectId) -> Result<(), NoMemory>
    ensures ok { OnOk result (lines.new.items ≡ lines.old.items ++ hex_of id.now) }
{
    text(lines, id.to_hex(alloc)?.as_bytes())
}
