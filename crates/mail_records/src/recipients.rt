//! Records of the recipients of a delivery report.
ghost use Rattle.std.specs.Prelude.{◌≡◌, ◌++◌, [], ◌∷◌, length, map, IfOk, OnOk};
ghost use Rattle.mailparse.specs.Map.{text_found};
ghost use Rattle.mailparse.specs.Views.{tree_of};
ghost use Rattle.mail_data.specs.Bounce as report;
ghost use Rattle.mail_data.specs.BounceViews.{delivery};
ghost use Rattle.mail_records.specs.Codes.{IsCoded};
ghost use Rattle.mail_records.specs.Recipients.{bytes_of, deliveries_read, delivery_record};
ghost use Rattle.mail_records.specs.Recipients.{delivery_text, range_of, recipients_read};
ghost use Rattle.mail_records.specs.Rows.{AppendsRows, ListsRows, rows_view};

use crate::codes::{NO_MEMORY, code_of};
use crate::records::NONE;
use crate::results::NO_LIMIT;
use crate::rows::Rows;
use mail_data::bounce;
use mail_data::bounce::Recipient;
use mail_read::reading::read_mail;
use mailparse::{KnownCharsets, MailParseError, ParsedMail};
use std::alloc::{AllocError, Global};

/// A recipient of a delivery report, as `struct rocktray_recipient`. A range is that of a text in
/// the strings, or twice `NONE` if the report does not give it.
#[repr(C)]
#[derive(Clone, Copy)]
pub struct RecipientRecord {
    /// The start of the address of the recipient.
    pub final_start: u64,
    /// The end of that address.
    pub final_end: u64,
    /// The start of the address that the sender wrote.
    pub original_start: u64,
    /// The end of that address.
    pub original_end: u64,
    /// The start of the action.
    pub action_start: u64,
    /// The end of the action.
    pub action_end: u64,
    /// The start of the status code.
    pub status_start: u64,
    /// The end of the status code.
    pub status_end: u64,
    /// The start of the reply of the other mail system.
    pub diagnostic_start: u64,
    /// The end of that reply.
    pub diagnostic_end: u64,
}

/// Returns the records of the recipients that a mail reports, or the code of its refusal.
///
/// # Errors
///
/// The code of the refusal, or `NO_MEMORY`.
///
/// # Examples
///
/// ```rust
/// use mail_records::recipients::recipients;
///
/// let found = recipients(alloc, b"A: 1\n\nHello\n", &())?;
/// assert_eq!(rt; found.records.len(), 0);
/// ```
pub fn recipients<K: KnownCharsets>(
    alloc: Global,
    raw: &[u8],
    known: &K,
) -> Result<Rows<RecipientRecord>, u32>
    ensures { IsCoded rows_view result (recipients_read (K.known known.now) raw.now) }
{
    let mail = match read_mail(alloc, raw, NO_LIMIT, known) {
        Ok(mail) => mail,
        Err(error) => return Err(code_of(&error)),
    };
    match mail_recipients(alloc, &mail, known) {
        Ok(found) => Ok(found),
        Err(_) => Err(NO_MEMORY),
    }
}

/// Returns the records of the recipients that a mail reports.
fn mail_recipients<K: KnownCharsets>(
    alloc: Global,
    mail: &ParsedMail<'_>,
    known: &K,
) -> Result<Rows<RecipientRecord>, MailParseError>
    ensures { IfOk result (λ found. rows_view found
        ≡ deliveries_read (report.recipients (K.known known.now) (tree_of mail.now))) }
{
    let recipients = bounce::recipients(alloc, mail, known)?;
    Ok(records_of(alloc, recipients.as_slice())?)
}

/// Returns the records of recipients.
fn records_of(alloc: Global, recipients: &[Recipient]) -> Result<Rows<RecipientRecord>, AllocError>
    ensures { IfOk result (λ found.
        rows_view found ≡ deliveries_read (map delivery recipients.now)) }
{
    let mut found = Rows {
        records: Vec::new(alloc),
        strings: Vec::new(alloc),
    };
    push_recipients(&mut found, recipients)?;
    Ok(found)
}

/// Appends the records of recipients.
fn push_recipients(
    found: &mut Rows<RecipientRecord>,
    recipients: &[Recipient],
) -> Result<(), AllocError>
    ensures { OnOk result
        (ListsRows delivery_record delivery_text (map delivery recipients.now)
        found.old found.new) }
{
    for recipient in recipients {
        push_recipient(found, recipient)?;
    }
    Ok(())
}

/// Appends the record of a recipient.
fn push_recipient(
    found: &mut Rows<RecipientRecord>,
    recipient: &Recipient,
) -> Result<(), AllocError>
    ensures { OnOk result (AppendsRows delivery_record delivery_text (delivery recipient.now ∷ [])
        found.old found.new) }
{
    let last = push_text(&mut found.strings, &recipient.final_recipient)?;
    let original = push_text(&mut found.strings, &recipient.original_recipient)?;
    let action = push_text(&mut found.strings, &recipient.action)?;
    let status = push_text(&mut found.strings, &recipient.status)?;
    let diagnostic = push_text(&mut found.strings, &recipient.diagnostic_code)?;
    found.records.push(RecipientRecord {
        final_start: last.0,
        final_end: last.1,
        original_start: original.0,
        original_end: original.1,
        action_start: action.0,
        action_end: action.1,
        status_start: status.0,
        status_end: status.1,
        diagnostic_start: diagnostic.0,
        diagnostic_end: diagnostic.1,
    })?;
    Ok(())
}

/// Appends a text, if there is one. Returns its range in the strings, or `NONE` twice.
fn push_text(strings: &mut Vec<u8>, text: &Option<String>) -> Result<(u64, u64), AllocError>
    ensures range { IfOk result (λ range.
        range ≡ range_of (length strings.old.items) (text_found text.now)) }
    ensures written { OnOk result (strings.new.items
        ≡ strings.old.items ++ bytes_of (text_found text.now)) }
{
    let Some(text) = text else {
        return Ok((NONE, NONE));
    };
    let start = strings.len() as u64;
    strings.extend_from_slice(text.as_bytes())?;
    Ok((start, strings.len() as u64))
}
