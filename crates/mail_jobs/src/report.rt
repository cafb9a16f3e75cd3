//! The lines that the program writes for a mail. Texts of the mail are quoted and their control
//! characters escaped, so that no mail can forge a line or move the cursor.

use crate::attachments::{StoredFile, stored_files};
use crate::bounces::failed_recipients;
use crate::indexer::{IndexEntry, index_entry};
use crate::threads::{ThreadPlace, thread_place};
use mail_charsets::AllCharsets;
use mail_data::bounce::Recipient;
use mail_read::lenient::ContentFault;
use mailparse::{KnownCharsets, MailParseError, ParsedMail, parse_mail_in};
use std::alloc::{AllocError, Global};

/// Returns the lines of a mail, or one that says why it is refused.
pub fn report(alloc: Global, mail: &[u8]) -> Result<String, AllocError> {
    match lines_of(alloc, mail) {
        Ok(lines) => Ok(lines),
        Err(MailParseError::Memory(error)) => Err(error),
        Err(error) => format!(in alloc; "refused: {error}\n\n"),
    }
}

/// Returns the lines of a mail.
fn lines_of(alloc: Global, mail: &[u8]) -> Result<String, MailParseError> {
    let known = AllCharsets::standard();
    let mail = parse_mail_in(alloc, mail, &known)?;
    let mut lines = String::new(alloc);
    push_lines(alloc, &mut lines, &mail, &known)?;
    Ok(lines)
}

/// Writes the lines of a mail: its index, its files, the recipients that were not reached, its
/// parents, and an empty line.
fn push_lines<K: KnownCharsets>(
    alloc: Global,
    lines: &mut String,
    mail: &ParsedMail<'_>,
    known: &K,
) -> Result<(), MailParseError> {
    push_entry(lines, &index_entry(alloc, mail, known)?)?;
    push_files(lines, &stored_files(alloc, mail, known)?)?;
    push_failed(lines, &failed_recipients(alloc, mail, known)?)?;
    push_parents(lines, &thread_place(alloc, mail)?)?;
    Ok(lines.push('\n')?)
}

fn push_files(lines: &mut String, files: &[StoredFile<'_>]) -> Result<(), AllocError> {
    for file in files {
        push_file(lines, file)?;
    }
    Ok(())
}

fn push_failed(lines: &mut String, failed: &[Recipient]) -> Result<(), AllocError> {
    for recipient in failed {
        push_text(lines, "not reached", &recipient.final_recipient)?;
    }
    Ok(())
}

fn push_parents(lines: &mut String, place: &ThreadPlace) -> Result<(), AllocError> {
    for parent in &place.parents {
        write!(lines, "parent: {:?}\n", parent.as_str())?;
    }
    Ok(())
}

/// Writes the lines of an index entry.
fn push_entry(lines: &mut String, entry: &IndexEntry) -> Result<(), AllocError> {
    push_text(lines, "subject", &entry.subject)?;
    push_text(lines, "sender", &entry.sender)?;
    match &entry.date {
        Some(Ok(seconds)) => write!(lines, "date: {seconds}\n")?,
        Some(Err(error)) => write!(lines, "date: refused: {error}\n")?,
        None => {}
    }
    push_text(lines, "id", &entry.message_id)?;
    match &entry.text {
        Some(text) if text.is_damaged => write!(lines, "damaged text: {:?}\n", text.text.as_str()),
        Some(text) => write!(lines, "text: {:?}\n", text.text.as_str()),
        None => Ok(()),
    }
}

/// Writes the line of a text, if there is one.
fn push_text(lines: &mut String, name: &str, text: &Option<String>) -> Result<(), AllocError> {
    match text {
        Some(text) => write!(lines, "{name}: {:?}\n", text.as_str()),
        None => Ok(()),
    }
}

/// Writes the line of a file.
fn push_file(lines: &mut String, file: &StoredFile<'_>) -> Result<(), AllocError> {
    let size = file.content.bytes.as_slice().len();
    write!(
        lines,
        "file {}: {:?}, {size} bytes",
        file.path,
        file.name.as_str()
    )?;
    match file.content.fault {
        Some(ContentFault::Base64(fault)) => {
            write!(lines, ", and a fault in Base64 group {}\n", fault.group)
        }
        Some(ContentFault::Uuencode) => lines.push_str(", and no whole uuencoded file\n"),
        Some(ContentFault::TextFile) => lines.push_str(", and no line `end`\n"),
        None => lines.push('\n'),
    }
}
