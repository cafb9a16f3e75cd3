//! The place of a mail in a thread.
ghost use Rattle.std.specs.Prelude.{IfErr, IfOk};
ghost use Rattle.mailparse.specs.Mail.{root};
ghost use Rattle.mailparse.specs.Outcome.{IsMemory};
ghost use Rattle.mailparse.specs.Views.{tree_of};
ghost use Rattle.mail_jobs.specs.ThreadViews.{IsPlace};

use mail_data::archive::{message_id, parents};
use mailparse::{MailParseError, ParsedMail};
use std::alloc::Global;

/// The place of a mail in a thread: its id, and those of the mails before it, each once.
#[derive(Drop)]
pub struct ThreadPlace {
    pub message_id: Option<String>,
    pub parents: Vec<String>,
}

/// Returns the place of a mail in a thread.
pub fn thread_place(alloc: Global, mail: &ParsedMail<'_>) -> Result<ThreadPlace, MailParseError>
    ensures read { IfOk result (IsPlace (root (tree_of mail.now))) }
    ensures only_memory { IfErr result IsMemory }
{
    Ok(ThreadPlace {
        message_id: message_id(alloc, mail)?,
        parents: parents(alloc, mail)?,
    })
}
