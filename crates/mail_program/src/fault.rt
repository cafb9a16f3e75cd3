//! Why a program failed.
ghost use Rattle.std.specs.Prelude.{◌≡◌};

use mailparse::MailParseError;
use std::alloc::AllocError;
use std::io;
use thiserror::Error;

/// Why a program failed, wholly or in part.
#[derive(Debug, Drop, Error)]
pub enum Fault {
    /// The mail is refused, or memory runs out.
    #[error("{0}")]
    Mail(MailParseError),
    /// A read failed.
    #[error("input failed: {0}")]
    Input(io::Error),
    /// A write or the flush failed.
    #[error("output failed: {0}")]
    Output(io::Error),
}

impl From<MailParseError> for Fault {
    ghost use Rattle.mail_program.specs.declared.fault.Fault.TheVariants.{Mail};

    ghost from_gives = { λ e fault. fault ≡ Mail e };

    fn from(e: MailParseError) -> Fault {
        Fault::Mail(e)
    }
}

impl From<AllocError> for Fault {
    ghost use Rattle.mail_program.specs.declared.fault.Fault.TheVariants.{Mail};
    ghost use Rattle.mailparse.specs.declared.error.MailParseError.TheVariants.{Memory};

    ghost from_gives = { λ e fault. fault ≡ Mail (Memory e) };

    fn from(e: AllocError) -> Fault {
        Fault::Mail(MailParseError::Memory(e))
    }
}

/// An error that a `?` passes on is one of a write. A failed read names `Input` itself.
impl From<io::Error> for Fault {
    ghost use Rattle.mail_program.specs.declared.fault.Fault.TheVariants.{Output};

    ghost from_gives = { λ e fault. fault ≡ Output e };

    fn from(e: io::Error) -> Fault {
        Fault::Output(e)
    }
}
