//! The tasks that are timed.

use mail_charsets::{AllCharsets, Encoding, Indexes};
use mail_check::read_findings;
use mail_codec::bytescan::{find, find_byte, strip_ascii_whitespace};
use mail_codec::transfer::{decode_base64, decode_base64_body, decode_quoted_printable};
use mail_data::mailbox::{Format, read_mailbox};
use mail_html::{Links, References, html_text};
use mailparse::{MailParseError, ParsedMail, parse_mail};
use std::alloc::{AllocError, Global};
use std::str;

/// Runs the task of this name. Returns the size of its result: bytes, lines, or headers of a
/// message.
pub fn run(alloc: Global, name: &str, input: &[u8]) -> Result<usize, MailParseError> {
    match name {
        "lines" => Ok(lines(input)),
        "absent" => Ok(find_byte(input, 0).unwrap_or(input.len())),
        "text" => Ok(find(input, b"\n\0").unwrap_or(input.len())),
        "whitespace" => Ok(strip_ascii_whitespace(alloc, input)?.len()),
        "base64" => length_of(decode_base64(alloc, input)?),
        "base64-body" => length_of(decode_base64_body(alloc, input)?),
        "quoted-printable" => Ok(decode_quoted_printable(alloc, input)?.len()),
        "parse" => Ok(parse_mail(alloc, input)?.headers.len()),
        "values" => values(alloc, &parse_mail(alloc, input)?),
        "full" => full(alloc, &parse_mail(alloc, input)?),
        "mailbox-parse" => mails(alloc, false, input),
        "mailbox-full" => mails(alloc, true, input),
        "mailbox-check" => checked(alloc, input),
        "html" => html(alloc, input),
        _ => decoded(alloc, name, input),
    }
}

/// Reads the text of HTML. Returns its length.
fn html(alloc: Global, input: &[u8]) -> Result<usize, MailParseError> {
    match str::from_utf8(input) {
        Ok(html) => {
            let text = html_text(alloc, html, Links::Omitted, &References::standard())?;
            Ok(text.len())
        }
        Err(_) => Err(MailParseError::Generic("the input is not UTF-8")),
    }
}

/// Decodes from the encoding of several bytes that has this label. Returns the length of the text.
fn decoded(alloc: Global, label: &str, input: &[u8]) -> Result<usize, MailParseError> {
    match text_of(alloc, label, input)? {
        Some(text) => Ok(text.len()),
        None => Err(MailParseError::Generic("no task has this name")),
    }
}

/// Returns the input, decoded from the encoding of several bytes that has this label, or `None` if
/// none has it.
pub fn text_of(alloc: Global, label: &str, input: &[u8]) -> Result<Option<String>, AllocError> {
    match Encoding::for_label(label.as_bytes()) {
        Some(encoding) => Ok(Some(encoding.decode_under(alloc, input, &Indexes::standard())?)),
        None => Ok(None),
    }
}

/// Finds each LF. Returns their number.
fn lines(input: &[u8]) -> usize {
    let mut rest = input;
    let mut count = 0usize;
    for _byte in input {
        let Some(after) = after_line(rest) else {
            break;
        };
        rest = after;
        count = count.saturating_add(1);
    }
    count
}

/// Returns the text after the first LF.
fn after_line(text: &[u8]) -> Option<&[u8]> {
    let end = find_byte(text, b'\n')?;
    Some(&text[end + 1..])
}

/// Returns the size of decoded Base64.
fn length_of(decoded: Result<Vec<u8>, usize>) -> Result<usize, MailParseError> {
    match decoded {
        Ok(bytes) => Ok(bytes.len()),
        Err(_) => Err(MailParseError::Generic("the input is not Base64")),
    }
}

/// Reads each message of a mailbox on its own. Returns the size of all results.
fn mails(alloc: Global, is_full: bool, mailbox: &[u8]) -> Result<usize, MailParseError> {
    let mut size = 0usize;
    for entry in read_mailbox(mailbox, Format::Plain) {
        size = size.saturating_add(mail(alloc, is_full, entry.mail())?);
    }
    Ok(size)
}

/// Reads a message; if `is_full`, also its values and bodies. Returns the size of the result, which
/// is 0 if the message is refused.
fn mail(alloc: Global, is_full: bool, input: &[u8]) -> Result<usize, MailParseError> {
    match parse_mail(alloc, input) {
        Ok(mail) if is_full => full(alloc, &mail),
        Ok(mail) => Ok(mail.headers.len()),
        Err(MailParseError::Memory(e)) => Err(MailParseError::Memory(e)),
        Err(_refusal) => Ok(0),
    }
}

/// Lists the findings of each message of a mailbox. Returns their number.
fn checked(alloc: Global, mailbox: &[u8]) -> Result<usize, MailParseError> {
    let known = AllCharsets::standard();
    let mut count = 0usize;
    for entry in read_mailbox(mailbox, Format::Plain) {
        count = count.saturating_add(finding_count(alloc, entry.mail(), &known)?);
    }
    Ok(count)
}

/// Lists the findings of a message. Returns their number, which is 0 if the message is refused.
fn finding_count(alloc: Global, mail: &[u8], known: &AllCharsets) -> Result<usize, MailParseError> {
    match read_findings(alloc, mail, usize::MAX, known) {
        Ok(found) => Ok(found.len()),
        Err(MailParseError::Memory(e)) => Err(MailParseError::Memory(e)),
        Err(_refusal) => Ok(0),
    }
}

/// Reads the value of each header of a message. Returns their number.
fn values(alloc: Global, mail: &ParsedMail<'_>) -> Result<usize, MailParseError> {
    for header in &mail.headers {
        let _value = header.get_value(alloc)?;
    }
    Ok(mail.headers.len())
}

/// Reads the value of each header and the whole body of a message and of each of its parts. Returns
/// the size of the decoded bodies.
fn full(alloc: Global, mail: &ParsedMail<'_>) -> Result<usize, MailParseError> {
    let mut bytes = 0usize;
    for part in mail.parts(alloc)? {
        bytes = bytes.saturating_add(part_bytes(alloc, part)?);
    }
    Ok(bytes)
}

/// Reads the value of each header and the body of a part. Returns the size of the decoded body,
/// which is 0 if it is refused.
fn part_bytes(alloc: Global, part: &ParsedMail<'_>) -> Result<usize, MailParseError> {
    let _headers = values(alloc, part)?;
    match part.get_body_raw(alloc) {
        Ok(body) => Ok(body.len()),
        Err(MailParseError::Memory(e)) => Err(MailParseError::Memory(e)),
        Err(_refusal) => Ok(0),
    }
}
