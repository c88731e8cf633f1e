//! How a program ends: what it writes to standard error, and its exit code.
ghost use Rattle.std.specs.Prelude.{◌≡◌};
ghost use Rattle.std.specs.Process.{exit_status};
ghost use Rattle.odb_program.specs.Report.{Tells, report_of};
ghost use Rattle.odb_program.specs.Session.{output_of};

use crate::standard_error::report;
use crate::status::{SessionStatus, exit_code};
use odb_mem_disk::Sink;
use std::process::ExitCode;

/// Writes the note of a status to standard error, after the program's name, and returns the exit code.
pub fn finish<K: Sink, T: SessionStatus>(errors: &mut K, program: &str, status: T) -> ExitCode
    ensures told { Tells (output_of K.held K.faults errors.old errors.new) (report_of program.now (T.notes status)) }
    ensures code { exit_status result ≡ T.exits_with status }
{
    // If standard error fails too, the status alone says what happened.
    let _ = report(errors, program, status.note());
    exit_code(status)
}
