//! Statuses and exit codes.
ghost use Rattle.std.specs.Prelude.{◌≡◌, ℕ, List};
ghost use Rattle.std.specs.Process.{exit_status};

use std::process::ExitCode;

/// How a program may end. Each program has statuses of its own.
pub trait SessionStatus: Drop {
    /// The exit status of the process.
    ghost exits_with: { Self → ℕ };

    /// The status of a session whose sink failed.
    ghost failed_write: { Self };

    /// What is written to standard error, without the program's name; nothing if nothing went wrong, or if it was
    /// written before.
    ghost notes: { Self → List ℕ };

    /// The exit status of the process.
    fn code(self) -> u8
        ensures code { result ≡ exits_with self };

    /// The status of a session whose sink failed.
    fn write_fault() -> Self
        ensures status { result ≡ failed_write };

    /// What is written to standard error, without the program's name.
    fn note(&self) -> &[u8]
        ensures note { result.now ≡ notes self.now };
}

/// The exit code of the process.
pub(crate) fn exit_code<T: SessionStatus>(status: T) -> ExitCode
    ensures code { exit_status result ≡ T.exits_with status }
{
    ExitCode::from(status.code())
}
