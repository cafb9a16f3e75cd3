//! The index of a mail: the fields that a list of mails shows, and the text that a search reads.
ghost use Rattle.std.specs.Prelude.{◌≡◌, codes, option_map, IfErr, IfOk, Ok};
ghost use Rattle.mailparse.specs.Mail.{root};
ghost use Rattle.mailparse.specs.Map.{text_found};
ghost use Rattle.mailparse.specs.Outcome.{AnswersOrMemory, IsMemory};
ghost use Rattle.mailparse.specs.Views.{tree_of};
ghost use Rattle.mail_read.specs.lenient.TextViews.{text_view};
ghost use Rattle.mail_read.specs.lenient.Values.{first_header_text};
ghost use Rattle.mail_jobs.specs.Indexer.{date, sender, text};
ghost use Rattle.mail_jobs.specs.IndexerViews.{IsEntry};

use mail_address::lenient_sender_of;
use mail_data::archive::message_id;
use mail_data::texts::text_part;
use mail_read::lenient::{self, BodyText, DateError, body_text, first_header_text};
use mailparse::{KnownCharsets, MailParseError, ParsedMail};
use std::alloc::Global;

/// The entry of a mail in an index. A field that the mail does not have is `None`. A date that is
/// refused is kept as its error, so that no mail is lost for it. The text says whether it is
/// damaged.
#[derive(Drop)]
pub struct IndexEntry {
    pub subject: Option<String>,
    /// The address of the sender, in canonical form, if the mail names one.
    pub sender: Option<String>,
    /// The seconds from 1 January 1970, 0 h UTC.
    pub date: Option<Result<i64, DateError>>,
    /// The first id of `Message-ID`, without its angle brackets.
    pub message_id: Option<String>,
    pub text: Option<BodyText>,
}

/// Returns the entry of a mail, read under the charsets `known`.
pub fn index_entry<K: KnownCharsets>(
    alloc: Global,
    mail: &ParsedMail<'_>,
    known: &K,
) -> Result<IndexEntry, MailParseError>
    ensures read { IfOk result (IsEntry (K.known known.now) (tree_of mail.now)) }
    ensures only_memory { IfErr result IsMemory }
{
    Ok(IndexEntry {
        subject: value_of(alloc, mail, "Subject", known)?,
        sender: sender_address(alloc, mail)?,
        date: date_of(alloc, mail, known)?,
        message_id: message_id(alloc, mail)?,
        text: text_of(alloc, mail, known)?,
    })
}

/// Returns the text of the first header with this name.
fn value_of<K: KnownCharsets>(
    alloc: Global,
    mail: &ParsedMail<'_>,
    key: &str,
    known: &K,
) -> Result<Option<String>, MailParseError>
    ensures { AnswersOrMemory text_found result
        (Ok (first_header_text (K.known known.now) key.now (root (tree_of mail.now)).headers)) }
{
    let text = first_header_text(alloc, &mail.headers, key, known)?;
    Ok(text)
}

/// Returns the address of the sender, in canonical form.
fn sender_address(alloc: Global, mail: &ParsedMail<'_>) -> Result<Option<String>, MailParseError>
    ensures { AnswersOrMemory text_found result (Ok (sender (root (tree_of mail.now)))) }
{
    match lenient_sender_of(alloc, &mail.headers)? {
        Some(mailbox) => Ok(Some(mailbox.get_address(alloc)?)),
        None => Ok(None),
    }
}

/// Returns the date, or its error.
fn date_of<K: KnownCharsets>(
    alloc: Global,
    mail: &ParsedMail<'_>,
    known: &K,
) -> Result<Option<Result<i64, DateError>>, MailParseError>
    ensures { AnswersOrMemory (λ found. found) result
        (Ok (date (K.known known.now) (root (tree_of mail.now)))) }
{
    match value_of(alloc, mail, "Date", known)? {
        Some(date) => Ok(Some(lenient::date_of(date.as_str()))),
        None => Ok(None),
    }
}

/// Returns the text of a mail.
fn text_of<K: KnownCharsets>(
    alloc: Global,
    mail: &ParsedMail<'_>,
    known: &K,
) -> Result<Option<BodyText>, MailParseError>
    ensures { AnswersOrMemory (λ found. option_map text_view found) result
        (Ok (text (K.known known.now) (tree_of mail.now))) }
{
    let Some(part) = text_part(alloc, mail, known)? else {
        return Ok(None);
    };
    Ok(Some(body_text(alloc, part, known)?))
}
