//! The calls on files, on mailboxes, and on reports and threads. PART is the number of a part among
//! those of `parts`, 0 for the whole mail. The calls that end in `_with` read under all tables.
//!
//! ```text
//! attachments MAIL => PATH NAME BYTES..             NAME as of `file_name`; also attachments_with
//! file_name MAIL PART => NAME | none                also file_name_with
//! file_name_or_path MAIL PART => NAME | none
//! is_attachment MAIL PART => TRUTH                  also is_attachment_with
//! is_extracted MAIL PART => TRUTH
//! is_leaf MAIL PART => TRUTH
//! named_file DISPOSITION TYPE => NAME | none        `none` is the default disposition, an empty type
//! describes_attachment DISPOSITION TYPE => TRUTH    by that name and the kind of the disposition
//! filled_parameter TYPE NAME => VALUE | none
//! safe_file_name NAME => NAME
//! windows_file_name NAME => NAME
//! read_mailbox BYTES => FRONT, SEPARATOR MAIL ENDING..      also read_counted_mailbox
//! settled_entry BYTES => SEPARATOR MAIL ENDING REST | none  also settled_counted_entry
//! settled_front BYTES => IS_MAILBOX HAS_LINE HAS_FRONT
//! unquoted BYTES => BYTES
//! recipients MAIL => FINAL ORIGINAL ACTION STATUS CODE..    each of them may be `none`
//! report_blocks MAIL => NAME VALUE.. end .. | none
//! original_message_id MAIL => ID | none
//! message_id MAIL => ID | none
//! parents MAIL => ID..
//! ```

use crate::calls::under::all_tables;
use crate::notation::{Answer, Decision, FORM, Outcome, Row, Show, Word, calls, put};
use mail_data::archive::{message_id, parents};
use mail_data::bounce::{Recipient, original_message_id, recipients};
use mail_data::mailbox::quoted::unquoted;
use mail_data::mailbox::{
    Format, MailboxEntry, has_front, has_line, is_mailbox, read_mailbox, settled_entry,
};
use mail_data::reports::{Block, report_blocks};
use mail_read::files::{
    attachments, describes_attachment, file_name, file_name_or_path, filled_parameter,
    is_attachment, is_extracted, is_leaf, named_file, safe_file_name, windows_file_name,
};
use mailparse::{
    KnownCharsets, MailParseError, ParsedContentDisposition, ParsedContentType, ParsedMail,
    parse_content_disposition, parse_content_type, parse_mail_in,
};
use std::alloc::Global;
use std::collections::BTreeMap;

pub fn make(answer: &mut Answer, row: &Row) -> Decision {
    Ok(
        make_of_files(answer, row)?
            || make_of_mailboxes(answer, row)?
            || make_of_reports(answer, row)?,
    )
}

fn make_of_files(answer: &mut Answer, row: &Row) -> Decision {
    let alloc = row.alloc;
    calls! { answer, row.call.as_str();
        "attachments" => list_files(answer, row, &()),
        "attachments_with" => list_files(answer, row, &all_tables()),
        "file_name" | "file_name_or_path" | "is_attachment" | "is_extracted" | "is_leaf" =>
            look_at(answer, row, &()),
        "file_name_with" | "is_attachment_with" => look_at(answer, row, &all_tables()),
        "named_file" | "describes_attachment" => describe(answer, row),
        "filled_parameter" => get_parameter(answer, row),
        "safe_file_name" => safe_file_name(alloc, row.text(0)),
        "windows_file_name" => windows_file_name(alloc, row.text(0)),
    }
}

fn make_of_mailboxes(answer: &mut Answer, row: &Row) -> Decision {
    calls! { answer, row.call.as_str();
        "read_mailbox" => list_mails(answer, row, Format::Plain),
        "read_counted_mailbox" => list_mails(answer, row, Format::Counted),
        "settled_entry" => settled_entry(row.bytes(0), Format::Plain),
        "settled_counted_entry" => settled_entry(row.bytes(0), Format::Counted),
        "settled_front" =>
            (is_mailbox(row.bytes(0)), (has_line(row.bytes(0)), has_front(row.bytes(0)))),
        "unquoted" => unquoted(row.alloc, row.bytes(0)),
    }
}

fn make_of_reports(answer: &mut Answer, row: &Row) -> Decision {
    let alloc = row.alloc;
    calls! { answer, row.call.as_str(), mail = row.mail()?;
        "recipients" => recipients(alloc, &mail, &()),
        "report_blocks" => report_blocks(alloc, &mail, &()),
        "original_message_id" => original_message_id(alloc, &mail),
        "message_id" => message_id(alloc, &mail),
        "parents" => parents(alloc, &mail),
    }
}

/// Returns the part of a mail with this number, where 0 is the mail itself.
pub fn part_at<'m, 'a>(
    alloc: Global,
    mail: &'m ParsedMail<'a>,
    number: usize,
) -> Result<&'m ParsedMail<'a>, MailParseError> {
    mail.parts(alloc)?.nth(number).ok_or(FORM)
}

fn list_files<K: KnownCharsets>(answer: &mut Answer, row: &Row, known: &K) -> Outcome {
    let mail = parse_mail_in(row.alloc, row.bytes(0), known)?;
    for file in &attachments(row.alloc, &mail, known)? {
        put!(answer; &file.path, file_name(row.alloc, file.part, known));
        answer.put(file.part.get_body_raw(row.alloc));
    }
    Ok(())
}

fn look_at<K: KnownCharsets>(answer: &mut Answer, row: &Row, known: &K) -> Outcome {
    let mail = parse_mail_in(row.alloc, row.bytes(0), known)?;
    let part = part_at(row.alloc, &mail, row.number(1))?;
    match row.call.as_str() {
        "file_name" | "file_name_with" => answer.put(file_name(row.alloc, part, known)),
        "file_name_or_path" => answer.put(file_name_or_path(row.alloc, part, known)),
        "is_leaf" => answer.put(is_leaf(part)),
        "is_extracted" => answer.put(is_extracted(row.alloc, part, known)),
        _ => answer.put(is_attachment(row.alloc, part, known)),
    }
    Ok(())
}

/// Returns the disposition of the first input, and for `none` the default one, without allocating.
fn disposition_of(row: &Row) -> Result<ParsedContentDisposition, MailParseError> {
    match row.optional_text(0) {
        Some(text) => parse_content_disposition(row.alloc, text),
        None => Ok(ParsedContentDisposition::default(row.alloc)),
    }
}

/// Returns the type of an input, and for `none` an empty one, without allocating.
fn type_of(row: &Row, at: usize) -> Result<ParsedContentType, MailParseError> {
    match row.optional_text(at) {
        Some(text) => parse_content_type(row.alloc, text),
        None => Ok(ParsedContentType {
            mimetype: String::new(row.alloc),
            charset: String::new(row.alloc),
            params: BTreeMap::new(row.alloc),
        }),
    }
}

fn describe(answer: &mut Answer, row: &Row) -> Outcome {
    let disposition = disposition_of(row)?;
    let ctype = type_of(row, 1)?;
    let name = named_file(row.alloc, &disposition, &ctype)?;
    match row.call.as_str() {
        "named_file" => answer.put(name),
        _ => answer.put(describes_attachment(&Some(disposition.disposition), &name)),
    }
    Ok(())
}

fn get_parameter(answer: &mut Answer, row: &Row) -> Outcome {
    let ctype = type_of(row, 0)?;
    answer.put(filled_parameter(&ctype.params, row.text(1)));
    Ok(())
}

fn list_mails(answer: &mut Answer, row: &Row, format: Format) {
    let mails = read_mailbox(row.bytes(0), format);
    answer.put(mails.front());
    for entry in mails {
        answer.put(entry);
    }
}

impl Show for MailboxEntry<'_> {
    fn show(&self, answer: &mut Answer) {
        put!(answer; self.separator(), self.mail(), self.ending());
    }
}

impl Show for Recipient {
    fn show(&self, answer: &mut Answer) {
        put!(answer; &self.final_recipient, &self.original_recipient, &self.action);
        put!(answer; &self.status, &self.diagnostic_code);
    }
}

impl Show for Block {
    fn show(&self, answer: &mut Answer) {
        for field in &self.fields {
            put!(answer; &field.name, &field.value);
        }
        answer.put(Word("end"));
    }
}
