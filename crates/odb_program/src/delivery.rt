//! How an output is delivered.
ghost use Rattle.odb_program.specs.Session.{Delivers, output_of};

use crate::status::SessionStatus;
use odb_mem_disk::{Failed, Sink, write_all};

/// Writes an output, and returns its status; that of a failed write if the sink fails.
pub fn answer<K: Sink, T: SessionStatus>(sink: &mut K, output: &[u8], status: T) -> T
    ensures delivered { Delivers T.failed_write (output_of K.held K.faults sink.old sink.new) output.now status result }
{
    match write_all(sink, output) {
        Ok(()) => status,
        Err(Failed) => T::write_fault(),
    }
}
