//! What a program writes to standard error.
ghost use Rattle.std.specs.Prelude.{OnOk};
ghost use Rattle.odb_base.specs.Faults.{HasCause};
ghost use Rattle.odb_mem_disk.specs.Source.{Adds};
ghost use Rattle.odb_program.specs.Report.{line_of, report_of};

use odb_mem_disk::{Failed, Sink, write_all};

/// Writes a note as a line after the program's name; nothing if the note is empty. It allocates no memory.
#[tactic(auto, using(crate::proofs::AddsLaws::adds_nothing), unfolding(crate::specs::Report::report_of))]
pub(crate) fn report<K: Sink>(errors: &mut K, program: &str, told: &[u8]) -> Result<(), Failed>
    ensures told { OnOk result (Adds (K.held errors.old) (K.held errors.new) (report_of program.now told.now)) }
    ensures cause { HasCause (K.faults errors.old) (K.faults errors.new) result }
{
    match told {
        [] => Ok(()),
        [_, ..] => write_line(errors, program, told),
    }
}

fn write_line<K: Sink>(errors: &mut K, program: &str, told: &[u8]) -> Result<(), Failed>
    ensures told { OnOk result (Adds (K.held errors.old) (K.held errors.new) (line_of program.now told.now)) }
    ensures cause { HasCause (K.faults errors.old) (K.faults errors.new) result }
{
    write_all(errors, program.as_bytes())?;
    write_all(errors, b": ")?;
    write_all(errors, told)?;
    write_all(errors, b"\n")?;
    Ok(())
}
