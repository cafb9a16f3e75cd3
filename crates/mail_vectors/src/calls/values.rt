//! The texts of headers, dates, ids, encoded values, and errors.
//!
//! ```text
//! get_value RAW => TEXT                    RAW is the bytes of a header after its colon
//! get_value_utf8 RAW => TEXT
//! dateparse TEXT => SECONDS                since 1970
//! msgidparse TEXT => ID..
//! show_ids ID.. => DISPLAY DEBUG           of a list of these ids
//! equal_ids ID ID => TRUTH                 whether two lists of one id are equal
//! copy_ids ID.. => TRUTH LAST TRUTH LEFT.. copy ID..
//! encode_value TEXT => BYTES
//! read_encoded TEXT => TEXT                what `get_value` returns for the written value of a text
//! read_encoded_characters FRONT FIRST LAST => COUNT
//! read_encoded_lengths PIECE MOST => COUNT
//! error KIND => DISPLAY DEBUG SOURCE REFUSAL
//! from KIND => DEBUG                       the error that another one is converted to
//! fault KIND => DISPLAY DEBUG              the texts of a fault by itself
//! ```
//!
//! `copy_ids` writes whether a copy of the list is equal, the last id, which is taken off the list,
//! whether both are equal then, and the ids of both. `read_encoded_characters` counts the
//! characters from FIRST to LAST, by their numbers, that read back, each after FRONT, and
//! `read_encoded_lengths` the texts of 0 to MOST pieces.
//!
//! KIND is `generic`, whose text is `a "text"`, `encoding` and `owned_encoding`, whose text is `x`,
//! `memory`, `quoted-printable`, or `base64` and the number of a group. SOURCE is the Debug text of
//! the wrapped fault, and REFUSAL that of the kind of refusal; each may be `none`.

use crate::notation::{
    Answer, Debugged, Decision, Displayed, FORM, Outcome, Row, Show, Word, calls, debug_error, put,
};
use mail_laws::render::encode_value;
use mailparse::{
    Base64Fault, MailParseError, MessageIdList, QuotedPrintableFault, dateparse, msgidparse,
    parse_header,
};
use std::alloc::{AllocError, Global};
use std::borrow::CowStr;

pub fn make(answer: &mut Answer, row: &Row) -> Decision {
    let alloc = row.alloc;
    calls! { answer, row.call.as_str();
        "get_value" | "get_value_utf8" => value_of(row),
        "dateparse" => dateparse(row.text(0)),
        "msgidparse" => msgidparse(alloc, row.text(0)),
        "show_ids" => show_ids(answer, row),
        "equal_ids" => equal_ids(row),
        "copy_ids" => copy_ids(answer, row),
        "encode_value" => encode_value(alloc, row.text(0)),
        "read_encoded" => read_back(alloc, row.text(0)),
        "read_encoded_characters" => count_characters(row),
        "read_encoded_lengths" => count_lengths(row),
        "error" => show_error(answer, row),
        "from" => error_of(row).map(Debugged),
        "fault" => show_fault(answer, row),
    }
}

/// Returns a header whose value is an input.
pub fn raw_header(row: &Row, at: usize) -> Result<Vec<u8>, AllocError> {
    let mut raw = b"X:".to_vec(row.alloc)?;
    raw.extend_from_slice(row.bytes(at))?;
    Ok(raw)
}

fn value_of(row: &Row) -> Result<String, MailParseError> {
    let raw = raw_header(row, 0)?;
    let (header, _) = parse_header(raw.as_slice())?;
    match row.call.as_str() {
        "get_value" => header.get_value(row.alloc),
        _ => header.get_value_utf8(row.alloc),
    }
}

impl Show for MessageIdList {
    fn show(&self, answer: &mut Answer) {
        self.0.show(answer);
    }
}

/// Returns the list of the ids in the inputs `from..to`.
fn list_of(row: &Row, from: usize, to: usize) -> Result<MessageIdList, AllocError> {
    let mut list = MessageIdList(Vec::new(row.alloc));
    for at in from..to {
        list.push(String::from_str(row.alloc, row.text(at))?)?;
    }
    Ok(list)
}

fn show_ids(answer: &mut Answer, row: &Row) -> Outcome {
    let list = list_of(row, 0, row.count())?;
    put!(answer; Displayed(&list), Debugged(&list));
    Ok(())
}

fn equal_ids(row: &Row) -> Decision {
    Ok(list_of(row, 0, 1)? == list_of(row, 1, 2)?)
}

fn copy_ids(answer: &mut Answer, row: &Row) -> Outcome {
    let mut list = list_of(row, 0, row.count())?;
    let copy = list.clone(row.alloc)?;
    put!(answer; copy == list, list.pop(), copy == list, list, Word("copy"), copy);
    Ok(())
}

/// Returns what `get_value` returns for a header with the written value of a text.
fn read_back(alloc: Global, text: &str) -> Result<String, MailParseError> {
    let written = encode_value(alloc, text)?;
    let header = format!(in alloc; "Subject: {written}")?;
    let (header, _) = parse_header(header.as_bytes())?;
    header.get_value(alloc)
}

/// Returns 1 if a text reads back, otherwise 0.
fn reads_back(alloc: Global, text: &str) -> Result<usize, MailParseError> {
    Ok(usize::from(read_back(alloc, text)?.as_str() == text))
}

fn count_characters(row: &Row) -> Result<usize, MailParseError> {
    let mut count: usize = 0;
    for number in row.number(1)..=row.number(2) {
        if let Some(character) = char::from_u32(u32::try_from(number).unwrap_or(u32::MAX)) {
            let text = format!(in row.alloc; "{}{character}", row.text(0))?;
            count = count.saturating_add(reads_back(row.alloc, text.as_str())?);
        }
    }
    Ok(count)
}

fn count_lengths(row: &Row) -> Result<usize, MailParseError> {
    let mut text = String::new(row.alloc);
    let mut count: usize = 0;
    for _times in 0..=row.number(1) {
        count = count.saturating_add(reads_back(row.alloc, text.as_str())?);
        text.push_str(row.text(0))?;
    }
    Ok(count)
}

fn show_error(answer: &mut Answer, row: &Row) -> Outcome {
    let error = error_of(row)?;
    answer.put(Displayed(&error));
    debug_error(answer, &error);
    Ok(())
}

/// Returns the error that a row names, or that another one is converted to.
fn error_of(row: &Row) -> Result<MailParseError, MailParseError> {
    Ok(match row.text(0) {
        "generic" => MailParseError::Generic("a \"text\""),
        "encoding" => MailParseError::from(CowStr::Borrowed("x")),
        "owned_encoding" => {
            MailParseError::from(CowStr::Owned(String::from_str(row.alloc, "x")?))
        }
        "memory" => MailParseError::from(AllocError),
        "quoted-printable" => MailParseError::from(QuotedPrintableFault),
        "base64" => MailParseError::from(fault_of(row)),
        _ => return Err(FORM),
    })
}

/// Returns the fault in Base64 at the group that a row names.
fn fault_of(row: &Row) -> Base64Fault {
    Base64Fault {
        group: row.number(1),
    }
}

fn show_fault(answer: &mut Answer, row: &Row) {
    match row.text(0) {
        "base64" => put!(answer; Displayed(fault_of(row)), Debugged(fault_of(row))),
        "quoted-printable" => {
            put!(answer; Displayed(QuotedPrintableFault), Debugged(QuotedPrintableFault));
        }
        _ => row.reject(),
    }
}
