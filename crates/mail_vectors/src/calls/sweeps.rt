//! Sweeps: a call made on many texts, each slightly different from the one before.
//!
//! The results are written as runs: `2 none x 3` is 2 and then three times `none`.
//!
//! ```text
//! find_each_byte KIND MOST => OFFSET..
//! find_each_pair PAIR MOST => OFFSET..
//! places CALL LEAD BEFORE BYTES AFTER TRAIL FEWEST MOST NEEDLE => OFFSET..
//! places CALL LEAD BEFORE BYTES AFTER TRAIL FEWEST MOST READ => BYTES..
//! around CALL BEFORE AFTER FRONT BACK => BYTES.. | error GROUP..
//! fronts CALL TEXT FROM => WHOLE, FEWER.. | error GROUP.. | other FEWER..
//! ```
//!
//! `find_each_byte` tries each byte and each other byte, at each offset up to MOST, from which the
//! results are counted: the byte `among` the other, `between` two of the other, or `nowhere` beside
//! it. `find_each_pair` tries each byte as the first of the pair, as the second, and as both.
//!
//! `places` makes texts of repeated LEAD, BEFORE, one of BYTES, AFTER, and repeated TRAIL, where
//! LEAD and TRAIL occur at least FEWEST and at most MOST times in all: first all texts without
//! TRAIL, each with one LEAD more than the one before, then all with one TRAIL, and so on. The word
//! `any` means all 256 bytes. A search returns the offset of NEEDLE, counted from the start of
//! BEFORE. A decoder reads each LEAD and TRAIL as READ; what it reads from the rest for all of
//! BYTES is one item.
//!
//! `around` decodes BEFORE, a byte and AFTER for all 256 bytes in turn, and writes the bytes
//! between FRONT and BACK.
//!
//! `fronts` decodes TEXT, which gives WHOLE, and then the first FROM bytes of TEXT, one byte more,
//! and so on. Each gives a front of WHOLE, and FEWER is how many bytes it has fewer than its text,
//! or `other` bytes.

use super::codecs::offset;
use crate::notation::{Answer, Decision, FORM, Outcome, Row, Word, calls, push_times, put};
use mail_codec::bytescan::{find_byte, find_pair, strip_ascii_whitespace};
use mail_codec::charset::{Charset, decode_ascii, decode_latin1};
use mail_codec::transfer::{decode_base64, decode_base64_body, decode_quoted_printable};
use mailparse::MailParseError;
use std::alloc::{AllocError, Global};
use std::borrow::CowStr;

pub fn make(answer: &mut Answer, row: &Row) -> Decision {
    calls! { answer, row.call.as_str();
        "find_each_byte" => Sweep::new(row).find_each_byte(answer),
        "find_each_pair" => Sweep::new(row).find_each_pair(answer),
        "places" => Sweep::new(row).go_over_places(answer),
        "around" => Sweep::new(row).go_around(answer),
        "fronts" => Sweep::new(row).go_on(answer),
    }
}

/// A sweep of a row.
#[derive(Drop)]
struct Sweep<'r> {
    row: &'r Row,
    /// The text that a call is made on.
    text: Vec<u8>,
    /// The decoded bytes at one offset.
    joined: Vec<u8>,
    /// The range in the answer of the last item, and how often it occurred in a row.
    start: usize,
    end: usize,
    times: usize,
}

impl<'r> Sweep<'r> {
    fn new(row: &'r Row) -> Sweep<'r> {
        Sweep {
            row,
            text: Vec::new(row.alloc),
            joined: Vec::new(row.alloc),
            start: 0,
            end: 0,
            times: 0,
        }
    }

    /// Takes the item that was written from `from` onwards. An item that equals the last one is
    /// written once, with how often it occurred.
    fn take(&mut self, answer: &mut Answer, from: usize) {
        if self.times > 0 && answer.repeats(self.start, self.end, from) {
            answer.cut(self.end);
            self.times = self.times.saturating_add(1);
            put!(answer; Word("x"), self.times);
        } else {
            self.start = from;
            self.end = answer.len();
            self.times = 1;
        }
    }

    /// Writes an offset, counted from `start`, or `none`.
    fn put_offset(&mut self, answer: &mut Answer, found: Option<usize>, start: usize) {
        let from = answer.len();
        match found {
            Some(offset) => {
                let offset = i64::try_from(offset).unwrap_or(i64::MAX);
                answer.put(offset.saturating_sub(i64::try_from(start).unwrap_or(i64::MAX)));
            }
            None => answer.put(Word("none")),
        }
        self.take(answer, from);
    }

    /// Looks for each byte beside each other byte.
    fn find_each_byte(&mut self, answer: &mut Answer) -> Result<(), AllocError> {
        for number in 0..=u16::MAX {
            let [byte, other] = number.to_be_bytes();
            self.find_beside(answer, byte, other)?;
        }
        Ok(())
    }

    fn find_beside(&mut self, answer: &mut Answer, byte: u8, other: u8) -> Result<(), AllocError> {
        let filler = byte ^ 0x55;
        match self.row.text(0) {
            _ if byte == other => Ok(()),
            "among" => self.find_at_offsets(answer, &[byte], &[byte], [other, other]),
            "between" => {
                self.find_at_offsets(answer, &[byte], &[other, byte, other], [filler, filler])
            }
            _ => self.find_at_offsets(answer, &[byte], &[other], [other, other]),
        }
    }

    /// Looks for each pair that has a byte of this pair, and for each byte twice, among other bytes.
    fn find_each_pair(&mut self, answer: &mut Answer) -> Result<(), AllocError> {
        let [first, second] = self.row.bytes(0) else {
            self.row.reject();
            return Ok(());
        };
        for byte in 0..=255u8 {
            self.find_one_pair(answer, [byte, *second])?;
            self.find_one_pair(answer, [*first, byte])?;
            self.find_one_pair(answer, [byte, byte])?;
        }
        Ok(())
    }

    fn find_one_pair(&mut self, answer: &mut Answer, pair: [u8; 2]) -> Result<(), AllocError> {
        let [first, second] = pair;
        self.find_at_offsets(answer, &pair, &pair, [second ^ 0x2A, first ^ 0x55])
    }

    /// Looks for a byte or a pair at each offset of texts of one length, which are a middle between
    /// repetitions of one byte and repetitions of another.
    fn find_at_offsets(
        &mut self,
        answer: &mut Answer,
        needle: &[u8],
        middle: &[u8],
        [before, after]: [u8; 2],
    ) -> Result<(), AllocError> {
        let most = self.row.number(1);
        for lead in 0..=most {
            self.text.clear();
            push_times(&mut self.text, &[before], lead)?;
            self.text.extend_from_slice(middle)?;
            push_times(&mut self.text, &[after], most.saturating_sub(lead))?;
            let found = match needle {
                [first, second] => find_pair(self.text.as_slice(), *first, *second),
                _ => find_byte(self.text.as_slice(), needle.first().copied().unwrap_or(0)),
            };
            self.put_offset(answer, found, lead);
        }
        Ok(())
    }

    fn go_over_places(&mut self, answer: &mut Answer) -> Outcome {
        let (fewest, most) = (self.row.number(6), self.row.number(7));
        for trail in 0..=most {
            let leads = (fewest.saturating_sub(trail), most.saturating_sub(trail));
            self.try_places(answer, leads, trail)?;
        }
        Ok(())
    }

    /// Makes the call with each number of LEAD from the first to the last of two, before one number
    /// of TRAIL.
    fn try_places(
        &mut self,
        answer: &mut Answer,
        (fewest, most): (usize, usize),
        trail: usize,
    ) -> Outcome {
        for lead in fewest..=most {
            self.try_place(answer, lead, trail)?;
        }
        Ok(())
    }

    /// Tries the bytes at an offset, with these numbers of pieces before and after.
    fn try_place(&mut self, answer: &mut Answer, lead: usize, trail: usize) -> Outcome {
        self.joined.clear();
        for byte in 0..=255u8 {
            let bytes = self.row.bytes(3);
            if bytes == b"any".as_slice() || bytes == [byte].as_slice() {
                self.try_byte(answer, byte, lead, trail)?;
            }
        }
        if !self.row.text(0).starts_with("find") {
            let from = answer.len();
            answer.put(self.joined.as_slice());
            self.take(answer, from);
        }
        Ok(())
    }

    fn try_byte(&mut self, answer: &mut Answer, byte: u8, lead: usize, trail: usize) -> Outcome {
        let row = self.row;
        self.text.clear();
        push_times(&mut self.text, row.bytes(1), lead)?;
        self.push_between(row.bytes(2), byte, row.bytes(4))?;
        push_times(&mut self.text, row.bytes(5), trail)?;
        if row.text(0).starts_with("find") {
            let found = offset(row, row.text(0), self.text.as_slice(), row.bytes(8));
            self.put_offset(answer, found, lead.saturating_mul(row.bytes(1).len()));
            return Ok(());
        }
        match decode(row, self.text.as_slice())? {
            Ok(read) => {
                let middle = without_pieces(read.as_slice(), row.bytes(8), lead, trail);
                self.joined.extend_from_slice(middle)?;
            }
            Err(_group) => self.joined.push(b'!')?,
        }
        Ok(())
    }

    /// Appends a byte between two pieces to the text.
    fn push_between(&mut self, before: &[u8], byte: u8, after: &[u8]) -> Result<(), AllocError> {
        self.text.extend_from_slice(before)?;
        self.text.push(byte)?;
        self.text.extend_from_slice(after)
    }

    /// Decodes two texts with each byte between them.
    fn go_around(&mut self, answer: &mut Answer) -> Outcome {
        let row = self.row;
        for byte in 0..=255u8 {
            self.text.clear();
            self.push_between(row.bytes(1), byte, row.bytes(2))?;
            let from = answer.len();
            put_between(answer, row, decode(row, self.text.as_slice())?);
            self.take(answer, from);
        }
        Ok(())
    }

    /// Decodes a text, and then its fronts one after another.
    fn go_on(&mut self, answer: &mut Answer) -> Outcome {
        let (row, text) = (self.row, self.row.bytes(1));
        self.joined = decode(row, text)?.unwrap_or(Vec::new(row.alloc));
        answer.put(self.joined.as_slice());
        for length in row.number(2)..=text.len() {
            let from = answer.len();
            let front = text.get(..length).unwrap_or(text);
            put_front(answer, self.joined.as_slice(), length, decode(row, front)?);
            self.take(answer, from);
        }
        Ok(())
    }
}

/// Returns the bytes without `lead` pieces in front and `trail` pieces at the end, or all of them
/// if there are other bytes.
fn without_pieces<'b>(bytes: &'b [u8], piece: &[u8], lead: usize, trail: usize) -> &'b [u8] {
    let mut rest = bytes;
    for turn in 0..lead.saturating_add(trail) {
        let shorter = if turn < lead {
            rest.strip_prefix(piece)
        } else {
            rest.strip_suffix(piece)
        };
        let Some(inner) = shorter else {
            return bytes;
        };
        rest = inner;
    }
    rest
}

/// Decodes a text, or returns the group that is refused. The `borrowed` calls return the text if it
/// is borrowed, and nothing if it is not.
fn decode(row: &Row, text: &[u8]) -> Result<Result<Vec<u8>, usize>, MailParseError> {
    let alloc = row.alloc;
    let bytes = match row.text(0) {
        "decode_base64" => return Ok(decode_base64(alloc, text)?),
        "decode_base64_body" => return Ok(decode_base64_body(alloc, text)?),
        "strip_ascii_whitespace" => strip_ascii_whitespace(alloc, text),
        "decode_quoted_printable" => decode_quoted_printable(alloc, text),
        "windows-1252" => {
            let text = Charset::Windows1252.decode_without_bom_handling(alloc, text)?;
            return Ok(Ok(text.into_bytes()));
        }
        "decode_latin1" => bytes_of(alloc, decode_latin1(alloc, text), true),
        "borrowed_latin1" => bytes_of(alloc, decode_latin1(alloc, text), false),
        "borrowed_ascii" => bytes_of(alloc, decode_ascii(alloc, text), false),
        _ => return Err(FORM),
    };
    Ok(Ok(bytes?))
}

/// Returns the bytes of a text, or nothing if it is not borrowed and only a borrow counts.
fn bytes_of(
    alloc: Global,
    text: Result<CowStr<'_>, AllocError>,
    takes_owned: bool,
) -> Result<Vec<u8>, AllocError> {
    match text? {
        CowStr::Borrowed(text) => text.as_bytes().to_vec(alloc),
        CowStr::Owned(text) if takes_owned => Ok(text.into_bytes()),
        CowStr::Owned(_) => Ok(Vec::new(alloc)),
    }
}

/// Writes the decoded bytes between a front and a back, all of them if they have others, or the
/// refused group.
fn put_between(answer: &mut Answer, row: &Row, read: Result<Vec<u8>, usize>) {
    let Ok(bytes) = &read else {
        return answer.put(read);
    };
    let bytes = bytes.as_slice();
    let inner = bytes
        .strip_prefix(row.bytes(3))
        .and_then(|rest| rest.strip_suffix(row.bytes(4)));
    answer.put(inner.unwrap_or(bytes));
}

/// Writes how many bytes the front of a text with this length gives fewer, or the refused group.
fn put_front(answer: &mut Answer, whole: &[u8], length: usize, read: Result<Vec<u8>, usize>) {
    let Ok(bytes) = &read else {
        return answer.put(read);
    };
    if !whole.starts_with(bytes.as_slice()) {
        answer.put(Word("other"));
    }
    answer.put(length.saturating_sub(bytes.len()));
}
