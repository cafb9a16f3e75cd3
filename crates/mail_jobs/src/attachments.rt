//! The files of a mail, each with a safe name and the bytes that can be read.
ghost use Rattle.std.specs.Prelude.{◌≡◌, map, string_bytes, All, IfErr, IfOk, Ok};
ghost use Rattle.mailparse.specs.Mail.{root};
ghost use Rattle.mailparse.specs.Outcome.{AnswersOrMemory, GivesText, IsMemory};
ghost use Rattle.mailparse.specs.Views.{tree_of};
ghost use Rattle.mail_read.specs.FileNames.{IsSafeName};
ghost use Rattle.mail_read.specs.FileViews.{attachment_view};
ghost use Rattle.mail_read.specs.lenient.Content.{message_content};
ghost use Rattle.mail_read.specs.lenient.ContentViews.{content_view};
ghost use Rattle.mail_jobs.specs.Attachments.{stored, stored_files, stored_name};
ghost use Rattle.mail_jobs.specs.AttachmentViews.{stored_view};

use mail_read::files::{Attachment, attachments, safe_file_name};
use mail_read::lenient::{Content, lenient_body, lenient_content, lenient_file_name};
use mailparse::{KnownCharsets, MailParseError, ParsedMail};
use std::alloc::Global;

/// A file of a mail, ready to be stored.
#[derive(Drop)]
pub struct StoredFile<'m> {
    /// The position of its part in the mail, as IMAP numbers parts.
    pub path: String,
    /// A safe name, `unnamed` if the mail gives none. Two files may have the same.
    pub name: String,
    /// Its bytes; if its body is damaged, those that can be read.
    pub content: Content<'m>,
}

/// Returns the files of a mail in order. Their names are read under the charsets `known`.
pub fn stored_files<'m, K: KnownCharsets>(
    alloc: Global,
    mail: &'m ParsedMail<'_>,
    known: &K,
) -> Result<Vec<StoredFile<'m>>, MailParseError>
    ensures read { AnswersOrMemory (λ files. map stored_view files.items) result
        (Ok (stored_files (K.known known.now) (tree_of mail.now))) }
    ensures safe { IfOk result (λ files.
        All (λ file. IsSafeName (string_bytes file.name)) files.items) }
{
    let mut files = Vec::new(alloc);
    for file in attachments(alloc, mail, known)? {
        files.push(stored(alloc, file, known)?)?;
    }
    Ok(files)
}

/// Returns a file of a mail, as it is stored.
fn stored<'m, K: KnownCharsets>(
    alloc: Global,
    file: Attachment<'m, '_>,
    known: &K,
) -> Result<StoredFile<'m>, MailParseError>
    ensures read { AnswersOrMemory stored_view result
        (Ok (stored (K.known known.now) (attachment_view file.entry))) }
    ensures safe { IfOk result (λ kept. IsSafeName (string_bytes kept.name)) }
{
    Ok(StoredFile {
        path: file.path,
        name: stored_name(alloc, file.part, known)?,
        content: content_of(alloc, file.part)?,
    })
}

/// Returns the name of a file, made safe.
#[tactic(auto, unfolding(crate::specs::Attachments::stored_name))]
fn stored_name<K: KnownCharsets>(
    alloc: Global,
    part: &ParsedMail<'_>,
    known: &K,
) -> Result<String, MailParseError>
    ensures read { GivesText result
        (stored_name (K.known known.now) (root (tree_of part.now))) }
    ensures safe { IfOk result (λ name. IsSafeName (string_bytes name)) }
{
    let name = match lenient_file_name(alloc, part, known)? {
        Some(name) => safe_file_name(alloc, name.as_str())?,
        None => safe_file_name(alloc, "unnamed")?,
    };
    Ok(name)
}

/// Returns the bytes of a part that can be read.
fn content_of<'m>(alloc: Global, part: &'m ParsedMail<'_>) -> Result<Content<'m>, MailParseError>
    ensures read { IfOk result (λ content.
        content_view content ≡ message_content (root (tree_of part.now))) }
    ensures only_memory { IfErr result IsMemory }
{
    let body = lenient_body(alloc, part)?;
    lenient_content(alloc, &body)
}
