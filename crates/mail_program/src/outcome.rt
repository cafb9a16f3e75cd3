//! The outcome of a run of a program, and its exit status.
ghost use Rattle.std.specs.Prelude.{◌≡◌};
ghost use Rattle.std.specs.Process.{exit_status};
ghost use Rattle.mail_program.specs.Outcome.{ended_status, status, worse};

use crate::fault::Fault;
use std::io::ErrorKind;
use std::process::ExitCode;

/// The outcome of a run, or of a part of it.
#[derive(Clone, Copy, Debug, PartialEq, Eq)]
pub enum Outcome {
    /// All was read and written.
    Clean,
    /// All was read and written, except what was refused.
    Refused,
    /// Something could not be read or written.
    Failed,
}

impl Outcome {
    /// Returns the outcome of two parts of a run together: the worse of them.
    ///
    /// Does not allocate.
    ///
    /// # Examples
    ///
    /// ```rust
    /// use mail_program::Outcome;
    ///
    /// assert!(rt; Outcome::Clean.and(Outcome::Refused) == Outcome::Refused);
    /// assert!(rt; Outcome::Failed.and(Outcome::Refused) == Outcome::Failed);
    /// ```
    pub fn and(self, other: Outcome) -> Outcome
        ensures { result ≡ worse self other }
    {
        match (self, other) {
            (Outcome::Failed, _) | (_, Outcome::Failed) => Outcome::Failed,
            (Outcome::Refused, _) | (_, Outcome::Refused) => Outcome::Refused,
            _ => Outcome::Clean,
        }
    }

    /// Returns the exit status for this outcome: 0 if all went well, 3 if mails were refused, and 1
    /// if something failed.
    ///
    /// Does not allocate.
    ///
    /// # Examples
    ///
    /// ```rust
    /// use mail_program::Outcome;
    /// use std::process::ExitCode;
    ///
    /// assert!(rt; Outcome::Refused.status() == ExitCode::from(3));
    /// ```
    pub fn status(self) -> ExitCode
        ensures { exit_status result ≡ status self }
    {
        match self {
            Outcome::Clean => ExitCode::from(0),
            Outcome::Refused => ExitCode::from(3),
            Outcome::Failed => ExitCode::from(1),
        }
    }
}

/// Returns the exit status of a program that ended with this status or fault. For a fault it is 1,
/// and the fault is reported on standard error, after the name of the program, unless the output is
/// a broken pipe.
///
/// Does not allocate.
///
/// # Examples
///
/// ```rust
/// use mail_program::{Fault, status_of};
/// use std::io::{Error, ErrorKind};
/// use std::process::ExitCode;
///
/// let gone = Fault::Output(Error::from(ErrorKind::BrokenPipe));
/// assert!(rt; status_of(&rt, "rocktray", Err(gone)) == ExitCode::FAILURE);
/// assert!(rt; status_of(&rt, "rocktray", Ok(ExitCode::from(3))) == ExitCode::from(3));
/// ```
pub fn status_of(rt: &impl Eprint, program: &str, ended: Result<ExitCode, Fault>) -> ExitCode
    ensures { exit_status result ≡ ended_status ended }
{
    match ended {
        Ok(status) => status,
        Err(fault) => {
            if !is_broken_pipe(&fault) {
                let _ = eprintln!(rt; "{program}: {fault}");
            }
            ExitCode::from(1)
        }
    }
}

/// Returns whether the output is a broken pipe.
fn is_broken_pipe(fault: &Fault) -> bool {
    match fault {
        Fault::Output(error) => error.kind() == ErrorKind::BrokenPipe,
        _ => false,
    }
}
