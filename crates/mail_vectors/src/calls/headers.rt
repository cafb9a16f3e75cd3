//! The calls on single headers, on the block of headers, and those that look up headers by name.
//!
//! ```text
//! parse_header RAW => KEY VALUE LENGTH
//! header_places RAW => KEY_END VALUE_START VALUE_END LENGTH
//! parse_headers RAW => END, KEY VALUE..
//! different_headers RAW => END COUNT, KEY VALUE..     of each that differs from the one before it
//! get_key RAW => TEXT                                 also debug_header
//! get_key_ref RAW => borrowed | owned TEXT            also get_value_ref
//! header RAW => KEY TEXT STRICT                       `get_key`, `get_value`, `get_value_utf8`
//! strict_value RAW => TEXT                            STRICT, or the text in its refusal
//! get_first_header MAIL NAME => list VALUE | none, block VALUE | none     also get_first_value
//! get_all_headers MAIL NAME => list VALUE.., block VALUE..                also get_all_values
//! count_headers MAIL NAME => list COUNT, block COUNT
//! names_of_each BYTES NAMES => NAMES..
//! ```
//!
//! Headers are looked up in the list of headers of a mail and in its block, `Headers`. A header is
//! the bytes of its value, a value its text. `names_of_each` writes for each key of `k` and a byte
//! the characters of NAMES that make it match a name of `K` and the character.

use crate::notation::{Answer, Debugged, Decision, Outcome, Refusal, Row, Show, Word, calls, put};
use mailparse::{
    HeaderPlaces, MailHeader, MailHeaderMap, MailParseError, header_places, parse_header,
    parse_headers,
};
use std::alloc::{AllocError, Global};

pub fn make(answer: &mut Answer, row: &Row) -> Decision {
    Ok(make_of_blocks(answer, row)? || make_of_headers(answer, row)?)
}

fn make_of_blocks(answer: &mut Answer, row: &Row) -> Decision {
    calls! { answer, row.call.as_str();
        "parse_header" => parse_header(row.bytes(0)),
        "header_places" => header_places(row.bytes(0)),
        "parse_headers" | "different_headers" => put_block(answer, row),
        "get_first_header" | "get_all_headers" | "get_first_value" | "get_all_values"
            | "count_headers" => look_up(answer, row),
        "names_of_each" => put_names_of_each(answer, row),
    }
}

fn make_of_headers(answer: &mut Answer, row: &Row) -> Decision {
    let alloc = row.alloc;
    calls! { answer, row.call.as_str(), header = parse_header(row.bytes(0))?.0;
        "get_key" => header.get_key(alloc),
        "get_key_ref" => header.get_key_ref(alloc),
        "get_value_ref" => header.get_value_ref(alloc),
        "header" =>
            (header.get_key(alloc), (header.get_value(alloc), header.get_value_utf8(alloc))),
        "strict_value" => put_strict(answer, header.get_value_utf8(alloc)),
        "debug_header" => Debugged(header),
    }
}

/// A header is KEY and VALUE, its bytes.
impl Show for MailHeader<'_> {
    fn show(&self, answer: &mut Answer) {
        put!(answer; self.get_key_raw(), self.get_value_raw());
    }
}

/// The places in a header are their offsets and its length.
impl Show for HeaderPlaces {
    fn show(&self, answer: &mut Answer) {
        put!(answer; self.key_end, self.value_start, self.value_end, self.length);
    }
}

fn put_block(answer: &mut Answer, row: &Row) -> Outcome {
    let (headers, end) = parse_headers(row.alloc, row.bytes(0))?;
    answer.put(end);
    if row.call.as_str() == "parse_headers" {
        answer.put(headers);
    } else {
        put_different(answer, headers.as_slice());
    }
    Ok(())
}

/// Writes how many headers there are, and each that differs from the one before it.
fn put_different(answer: &mut Answer, headers: &[MailHeader<'_>]) {
    answer.put(headers.len());
    if let Some(header) = headers.first() {
        answer.put(header);
    }
    for pair in headers.windows(2) {
        put_second(answer, pair);
    }
}

/// Writes the second of two headers if its bytes are not those of the first.
fn put_second(answer: &mut Answer, pair: &[MailHeader<'_>]) {
    if let [before, header] = pair {
        let is_same = before.get_key_raw() == header.get_key_raw()
            && before.get_value_raw() == header.get_value_raw();
        if !is_same {
            answer.put(header);
        }
    }
}

/// Writes a text, or the text in the refusal.
fn put_strict(answer: &mut Answer, outcome: Result<String, MailParseError>) {
    match outcome {
        Ok(text) => answer.put(text),
        Err(MailParseError::EncodingError(text)) => put!(answer; Word("error"), text.as_str()),
        Err(error) => error.refuse(answer),
    }
}

fn look_up(answer: &mut Answer, row: &Row) -> Outcome {
    let mail = row.mail()?;
    answer.put(Word("list"));
    put_found(answer, row, &mail.headers)?;
    answer.put(Word("block"));
    put_found(answer, row, &mail.get_headers())
}

fn put_found<M: MailHeaderMap>(answer: &mut Answer, row: &Row, map: &M) -> Outcome {
    let (alloc, name) = (row.alloc, row.text(1));
    match row.call.as_str() {
        "get_first_header" => answer.put(map.get_first_header(name).map(|it| it.get_value_raw())),
        "get_first_value" => answer.put(map.get_first_value(alloc, name)),
        "get_all_values" => answer.put(map.get_all_values(alloc, name)),
        "count_headers" => answer.put(map.get_all_headers(alloc, name)?.len()),
        _ => {
            for header in &map.get_all_headers(alloc, name)? {
                answer.put(header.get_value_raw());
            }
        }
    }
    Ok(())
}

/// The separator after each name, which is not a character of a key.
const BETWEEN: char = '\u{20AC}';

/// Returns the names of `K` and one of these characters.
fn names_of(alloc: Global, characters: &str) -> Result<String, AllocError> {
    let mut names = String::new(alloc);
    for character in characters.chars() {
        write!(names, "K{character}{BETWEEN}")?;
    }
    Ok(names)
}

fn put_names_of_each(answer: &mut Answer, row: &Row) -> Outcome {
    let names = names_of(row.alloc, row.text(1))?;
    for byte in row.bytes(0) {
        answer.put(names_that_match(row.alloc, &[b'k', *byte, b':', b'v'], names.as_str()));
    }
    Ok(())
}

/// Returns the characters that follow `K` in names of this header.
fn names_that_match(alloc: Global, raw: &[u8], names: &str) -> Result<String, MailParseError> {
    let (headers, _) = parse_headers(alloc, raw)?;
    Ok(names_among(alloc, &headers, names)?)
}

/// Returns the characters that follow `K` in names of these headers.
fn names_among(
    alloc: Global,
    headers: &Vec<MailHeader<'_>>,
    names: &str,
) -> Result<String, AllocError> {
    let mut found = String::new(alloc);
    for name in names.split(BETWEEN) {
        if headers.get_first_header(name).is_some() {
            found.push_str(name.strip_prefix('K').unwrap_or(name))?;
        }
    }
    Ok(found)
}
