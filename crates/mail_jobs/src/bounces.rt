//! The recipients that a mail did not reach, according to its delivery report.
ghost use Rattle.std.specs.Prelude.{◌≡◌, filter, map, Ok};
ghost use Rattle.mailparse.specs.Outcome.{AnswersOrMemory};
ghost use Rattle.mailparse.specs.Views.{tree_of};
ghost use Rattle.mail_data.specs.Bounce.{recipients};
ghost use Rattle.mail_data.specs.BounceViews.{delivery};
ghost use Rattle.mail_jobs.specs.Bounces.{has_failed};

use mail_data::bounce::{Recipient, recipients};
use mailparse::{KnownCharsets, MailParseError, ParsedMail};
use std::alloc::Global;

/// Returns the recipients whose action is `failed`, in any case and with nothing after it, in
/// order; none if the mail is no report.
pub fn failed_recipients<K: KnownCharsets>(
    alloc: Global,
    mail: &ParsedMail<'_>,
    known: &K,
) -> Result<Vec<Recipient>, MailParseError>
    ensures { AnswersOrMemory (λ failed. map delivery failed.items) result
        (Ok (filter has_failed (recipients (K.known known.now) (tree_of mail.now)))) }
{
    let mut failed = Vec::new(alloc);
    for recipient in recipients(alloc, mail, known)? {
        if has_failed(&recipient) {
            failed.push(recipient)?;
        }
    }
    Ok(failed)
}

/// Returns whether the action of a recipient is `failed`.
fn has_failed(recipient: &Recipient) -> bool
    ensures { result ≡ has_failed (delivery recipient.now) }
{
    match &recipient.action {
        Some(action) => action.eq_ignore_ascii_case("failed"),
        None => false,
    }
}
