//! The calls on outlines. Their inputs are steps, and the last outline counts:
//!
//! - `header KEY VALUE` adds a header to the next outline;
//! - `leaf BODY` makes an outline with this body;
//! - `branch BOUNDARY COUNT` makes one whose parts are the last COUNT outlines, in the order in
//!   which they were made;
//! - `mixed BOUNDARY COUNT` does so with a last header `Content-Type` that names the boundary.
//!
//! ```text
//! render STEP.. => BYTES
//! is_well_formed STEP.. => TRUTH
//! read_outline STEP.. => LEVELS PARTS | differs
//! outline STEP.. => BYTES TRUTH             and after `true` what `read_outline` writes
//! ```
//!
//! LEVELS is the least limit on levels under which the bytes of the outline are read, and PARTS how
//! many messages the mail contains, if it is the mail that the outline represents.

use crate::calls::mails::{count_parts, least_levels};
use crate::notation::{Answer, Decision, FORM, Outcome, Row, Word, calls};
use mail_laws::render::{Outline, OutlineKind, encode_value, is_well_formed, render};
use mailparse::{
    MAX_LEVELS, MailHeader, MailParseError, ParsedMail, parse_mail, parse_mail_limited,
};
use std::alloc::{AllocError, Global};
use std::str::from_utf8;

pub fn make(answer: &mut Answer, row: &Row) -> Decision {
    calls! { answer, row.call.as_str(), outline = outline_of(row, 0)?;
        "render" => render(row.alloc, &outline),
        "is_well_formed" => is_well_formed(row.alloc, &outline),
        "read_outline" => read_back(answer, &outline),
        "outline" => put_outline(answer, &outline),
    }
}

fn put_outline(answer: &mut Answer, outline: &Outline) -> Outcome {
    answer.put(render(answer.alloc, outline));
    let is_well_formed = is_well_formed(answer.alloc, outline)?;
    answer.put(is_well_formed);
    if is_well_formed {
        read_back(answer, outline)
    } else {
        Ok(())
    }
}

fn read_back(answer: &mut Answer, outline: &Outline) -> Outcome {
    let alloc = answer.alloc;
    let bytes = render(alloc, outline)?;
    let levels = least_levels(alloc, bytes.as_slice())?;
    let mail = parse_mail_limited(alloc, bytes.as_slice(), levels.min(MAX_LEVELS))?;
    if is_message_of(alloc, outline, &mail)? {
        answer.put(usize::from(levels));
        put_mail(answer, outline, &parse_mail(alloc, bytes.as_slice())?)
    } else {
        answer.put(Word("differs"));
        Ok(())
    }
}

/// Writes how many messages a mail contains, or the word `differs`.
fn put_mail(answer: &mut Answer, outline: &Outline, mail: &ParsedMail<'_>) -> Outcome {
    if is_message_of(answer.alloc, outline, mail)? {
        answer.put(count_parts(answer.alloc, mail));
    } else {
        answer.put(Word("differs"));
    }
    Ok(())
}

/// Returns whether a message is the one that an outline represents: its bytes, its headers in
/// order, its raw body, and its parts in order.
fn is_message_of(alloc: Global, outline: &Outline, mail: &ParsedMail<'_>) -> Decision {
    if !has_bytes(alloc, outline, mail)? || !has_headers(alloc, outline, mail)? {
        return Ok(false);
    }
    match &outline.kind {
        OutlineKind::Leaf(body) => {
            Ok(mail.subparts.is_empty() && has_body(alloc, mail, body.as_slice())?)
        }
        OutlineKind::Branch { boundary: _, parts } => {
            if !has_body(alloc, mail, b"")? {
                return Ok(false);
            }
            let mut read = mail.subparts.iter();
            for part in parts {
                let Some(message) = read.next() else {
                    return Ok(false);
                };
                if !is_message_of(alloc, part, message)? {
                    return Ok(false);
                }
            }
            Ok(read.next().is_none())
        }
    }
}

fn has_bytes(alloc: Global, outline: &Outline, mail: &ParsedMail<'_>) -> Decision {
    Ok(mail.raw_bytes == render(alloc, outline)?.as_slice())
}

fn has_body(alloc: Global, mail: &ParsedMail<'_>, wanted: &[u8]) -> Decision {
    Ok(mail.get_body_encoded(alloc)?.get_raw() == wanted)
}

/// Returns whether a message has the headers of an outline, in order.
fn has_headers(alloc: Global, outline: &Outline, mail: &ParsedMail<'_>) -> Decision {
    for ((key, value), header) in outline.headers.iter().zip(mail.headers.iter()) {
        let has_key = header.get_key_raw() == key.as_slice();
        if !has_key || !has_value(alloc, header, from_utf8(value.as_slice()).unwrap_or("\0"))? {
            return Ok(false);
        }
    }
    Ok(mail.headers.len() == outline.headers.len())
}

/// Returns whether the value of a header is what a text is written as, and shows it.
fn has_value(alloc: Global, header: &MailHeader<'_>, text: &str) -> Decision {
    let is_written = header.get_value_raw() == encode_value(alloc, text)?.as_bytes();
    Ok(is_written && header.get_value(alloc)?.as_str() == text)
}

/// The results of the steps so far.
#[derive(Drop)]
struct Made {
    headers: Vec<(Vec<u8>, Vec<u8>)>,
    /// The outlines that are not part of another one.
    outlines: Vec<Outline>,
    alloc: Global,
}

/// Returns the last outline that the steps in the inputs from `from` onwards make.
pub fn outline_of(row: &Row, from: usize) -> Result<Outline, MailParseError> {
    let mut made = Made {
        headers: Vec::new(row.alloc),
        outlines: Vec::new(row.alloc),
        alloc: row.alloc,
    };
    let mut at = from;
    for _turn in 0..row.count() {
        if at >= row.count() {
            break;
        }
        let size = made.take(row, at)?;
        at = at.saturating_add(size);
    }
    made.outlines.pop().ok_or(FORM)
}

impl Made {
    /// Takes the step at this input, and returns how many inputs it has.
    fn take(&mut self, row: &Row, at: usize) -> Result<usize, MailParseError> {
        let (second, third) = (at.saturating_add(1), at.saturating_add(2));
        match row.text(at) {
            "header" => self.add_header(row.bytes(second), row.bytes(third))?,
            "branch" => self.add_branch(row.bytes(second), row.number(third))?,
            "mixed" => {
                let mut value = b"multipart/mixed; boundary=".to_vec(self.alloc)?;
                value.extend_from_slice(row.bytes(second))?;
                self.add_header(b"Content-Type", value.as_slice())?;
                self.add_branch(row.bytes(second), row.number(third))?;
            }
            "leaf" => {
                self.add(OutlineKind::Leaf(row.bytes(second).to_vec(self.alloc)?))?;
                return Ok(2);
            }
            _ => return Err(FORM),
        }
        Ok(3)
    }

    fn add_header(&mut self, key: &[u8], value: &[u8]) -> Result<(), AllocError> {
        Ok(
            self.headers
                .push((key.to_vec(self.alloc)?, value.to_vec(self.alloc)?))?,
        )
    }

    /// Makes an outline whose parts are the last `count` outlines.
    fn add_branch(&mut self, boundary: &[u8], count: usize) -> Outcome {
        let boundary = boundary.to_vec(self.alloc)?;
        let mut parts = Vec::new(self.alloc);
        for _part in 0..count {
            parts.push(self.outlines.pop().ok_or(FORM)?)?;
        }
        parts.reverse();
        Ok(self.add(OutlineKind::Branch { boundary, parts })?)
    }

    fn add(&mut self, kind: OutlineKind) -> Result<(), AllocError> {
        let headers = std::mem::replace(&mut self.headers, Vec::new(self.alloc));
        Ok(self.outlines.push(Outline { headers, kind })?)
    }
}
