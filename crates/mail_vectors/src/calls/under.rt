//! The calls that take charsets. CHARSETS is `latin1`, the charset of `latin1.rt` alone; `all`,
//! those of the standard; or made-up tables, with the four charsets and the encodings of several
//! bytes. TABLES and OTHERS are `all`, the tables of `mail_charsets`, or made-up tables. Those are a
//! text, separated by semicolons, each as `LABEL,LABEL:CHARACTER`: the bytes from 0x80 onwards are
//! the 128 characters from this one onwards.
//!
//! ```text
//! table_for_label TABLES LABEL.. => NUMBER | none ..
//! labels_of_table NUMBER => LABEL.. | none
//! decode_with TABLES LABEL BYTES => TEXT | none       also decode_without_bom_handling_with
//! get_value_with TABLES RAW => TEXT                   of the header `X:RAW`; also value_under
//! value_text_under CHARSETS BYTES => TEXT
//! first_value_under CHARSETS MAIL NAME => list TEXT | none, block TEXT | none
//! all_values_under CHARSETS MAIL NAME => list TEXT.., block TEXT..
//! parse_content_type_with TABLES TEXT => MIMETYPE CHARSET, NAME VALUE..       also type_under
//! parse_content_disposition_with TABLES TEXT => KIND, NAME VALUE..     also disposition_under
//! body_with TABLES ENCODING LABEL BODY => TEXT                                also body_under
//! mail_under CHARSETS MAIL => NODE..
//! limited_mail_under CHARSETS MAIL LEVELS => NODE..   with parts at most LEVELS levels below it
//! mail_with TABLES OTHERS MAIL => NODE..              parsed under TABLES, read under OTHERS
//! tables MAIL => NODE..                               where TABLES and OTHERS are `all`
//! ```
//!
//! A NODE is SUBPARTS MIMETYPE CHARSET, NAME VALUE.., `header` KEY VALUE.., KIND, NAME VALUE.., TEXT.
//! KIND is as in `types.rt`. Values are looked up in the list of headers and in their block.

use crate::calls::latin1::OnlyLatin1;
use crate::calls::types::{Label, body_text};
use crate::calls::values::raw_header;
use crate::notation::{Answer, Decision, Outcome, Refusal, Row, Word, calls, put};
use mail_charsets::{AllCharsets, Indexes, TABLES};
use mail_codec::charset::{SingleByteTable, table_for_label};
use mailparse::body::Body;
use mailparse::{
    KnownCharsets, MailHeaderMap, MailParseError, ParsedMail, parse_content_disposition_in,
    parse_content_disposition_with, parse_content_type_in, parse_content_type_with, parse_header,
    parse_mail_in, parse_mail_limited_in, parse_mail_with, value_text_in,
};
use std::alloc::{AllocError, Global};

pub fn make(answer: &mut Answer, row: &Row) -> Decision {
    let call = row.call.as_str();
    if call.ends_with("_under") {
        return choose_charsets(answer, row);
    }
    if call.ends_with("_with") || call == "table_for_label" {
        return choose_tables(answer, row);
    }
    calls! { answer, row.call.as_str();
        "labels_of_table" => put_labels(answer, row),
        "tables" => put_read(answer, row.bytes(0), all_tables(), all_tables()),
    }
}

/// Returns the tables of `mail_charsets`. Each use of the constant itself is expensive to prove.
pub fn all_tables() -> &'static [SingleByteTable<'static>] {
    &TABLES
}

#[derive(Drop)]
struct MadeUp<'r> {
    labels: Vec<&'r str>,
    high: [char; 128],
}

fn made_up(alloc: Global, text: &str) -> Result<Vec<MadeUp<'_>>, AllocError> {
    let mut found = Vec::new(alloc);
    for table in text.split(';') {
        if let Some((labels, first)) = table.split_once(':') {
            let (labels, high) = (listed(alloc, labels)?, characters_from(first));
            found.push(MadeUp { labels, high })?;
        }
    }
    Ok(found)
}

/// Returns the labels, which commas separate.
fn listed(alloc: Global, labels: &str) -> Result<Vec<&str>, AllocError> {
    let mut list = Vec::new(alloc);
    for label in labels.split(',') {
        list.push(label)?;
    }
    Ok(list)
}

/// Returns the 128 characters from the first one of a text onwards.
fn characters_from(text: &str) -> [char; 128] {
    let mut characters = ['\u{FFFD}'; 128];
    let mut number = u32::from(text.chars().next().unwrap_or('\u{FFFD}'));
    for character in &mut characters {
        *character = char::from_u32(number).unwrap_or('\u{FFFD}');
        number = number.saturating_add(1);
    }
    characters
}

/// Returns made-up tables as the calls take them.
fn own_tables<'t>(
    alloc: Global,
    made_up: &'t [MadeUp<'_>],
) -> Result<Vec<SingleByteTable<'t>>, AllocError> {
    let mut tables = Vec::new(alloc);
    for table in made_up {
        tables.push(SingleByteTable {
            labels: table.labels.as_slice(),
            high: &table.high,
        })?;
    }
    Ok(tables)
}

fn put_labels(answer: &mut Answer, row: &Row) {
    match all_tables().get(row.number(0)) {
        Some(table) => put_all(answer, table.labels),
        None => answer.put(Word("none")),
    }
}

fn put_all(answer: &mut Answer, texts: &[&str]) {
    for text in texts {
        answer.put(*text);
    }
}

/// Makes the call of a row with the tables that it names.
fn choose_tables(answer: &mut Answer, row: &Row) -> Decision {
    if row.text(0) == "all" {
        return make_with(answer, row, all_tables());
    }
    let made_up = made_up(row.alloc, row.text(0))?;
    let tables = own_tables(row.alloc, made_up.as_slice())?;
    make_with(answer, row, tables.as_slice())
}

fn make_with(answer: &mut Answer, row: &Row, tables: &[SingleByteTable<'_>]) -> Decision {
    let alloc = row.alloc;
    calls! { answer, row.call.as_str();
        "table_for_label" => find_tables(answer, row, tables),
        "decode_with" | "decode_without_bom_handling_with" => decode(answer, row, tables),
        "get_value_with" => value_with(row, tables),
        "parse_content_type_with" => parse_content_type_with(alloc, row.text(1), tables),
        "parse_content_disposition_with" =>
            parse_content_disposition_with(alloc, row.text(1), tables),
        "body_with" => body_with(row, tables),
        "mail_with" => choose_others(answer, row, tables),
    }
}

fn value_with(row: &Row, tables: &[SingleByteTable<'_>]) -> Result<String, MailParseError> {
    let raw = raw_header(row, 1)?;
    let (header, _) = parse_header(raw.as_slice())?;
    header.get_value_with(row.alloc, tables)
}

fn body_with(row: &Row, tables: &[SingleByteTable<'_>]) -> Result<String, MailParseError> {
    let (alloc, label) = (row.alloc, Label::of(row, 1)?);
    let body = label.body(row.bytes(3));
    body_text!(body; get_decoded_as_string_with, get_as_string_with, alloc, tables)
}

fn find_tables(answer: &mut Answer, row: &Row, tables: &[SingleByteTable<'_>]) {
    for at in 1..row.count() {
        answer.put(table_for_label(row.bytes(at), tables));
    }
}

/// Writes a mail that is parsed under tables, and read under those that the row names as others.
fn choose_others(answer: &mut Answer, row: &Row, tables: &[SingleByteTable<'_>]) -> Outcome {
    if row.text(1) == "all" {
        return put_read(answer, row.bytes(2), tables, all_tables());
    }
    let made_up = made_up(row.alloc, row.text(1))?;
    let others = own_tables(row.alloc, made_up.as_slice())?;
    put_read(answer, row.bytes(2), tables, others.as_slice())
}

/// Writes the text of bytes under the table of a label.
fn decode(answer: &mut Answer, row: &Row, tables: &[SingleByteTable<'_>]) {
    let number = table_for_label(row.bytes(1), tables).unwrap_or(tables.len());
    let Some(table) = tables.get(number) else {
        return answer.put(Word("none"));
    };
    answer.put(match row.call.as_str() {
        "decode_with" => table.decode(row.alloc, row.bytes(2)),
        _ => table.decode_without_bom_handling(row.alloc, row.bytes(2)),
    });
}

/// Writes a part by itself, by its calls for the value of a header, the disposition and the body.
macro_rules! put_part {
    ($answer:expr; $part:expr, $value:ident, $disposition:ident, $body:ident, $known:expr) => {{
        let alloc = $answer.alloc;
        put!($answer; Word("part"), $part.subparts.len(), &$part.ctype);
        for header in &$part.headers {
            put!($answer; Word("header"), header.get_key(alloc), header.$value(alloc, $known));
        }
        put!($answer; $part.$disposition(alloc, $known), $part.$body(alloc, $known));
    }};
}

/// Writes a mail and its parts, parsed under tables, and read under others.
fn put_read(
    answer: &mut Answer,
    raw: &[u8],
    tables: &[SingleByteTable<'_>],
    others: &[SingleByteTable<'_>],
) -> Outcome {
    let mail = parse_mail_with(answer.alloc, raw, tables)?;
    for part in mail.parts(answer.alloc)? {
        put_part_with(answer, part, others);
    }
    Ok(())
}

fn put_part_with(answer: &mut Answer, part: &ParsedMail<'_>, tables: &[SingleByteTable<'_>]) {
    put_part!(answer; part, get_value_with, get_content_disposition_with, get_body_with, tables);
}

/// Makes the call of a row with the charsets that it names.
fn choose_charsets(answer: &mut Answer, row: &Row) -> Decision {
    match row.text(0) {
        "latin1" => make_under(answer, row, &OnlyLatin1),
        "all" => make_under(answer, row, &AllCharsets::standard()),
        text => {
            let made_up = made_up(row.alloc, text)?;
            let tables = own_tables(row.alloc, made_up.as_slice())?;
            Ok(made_under(answer, row, &(tables.as_slice(), Indexes::standard())))
        }
    }
}

/// Makes the call of a row under charsets, and writes a refusal. The borrow checker does not cover
/// a caller that names several lifetimes, as this one's does, and takes a `MailParseError`.
fn made_under<K: KnownCharsets>(answer: &mut Answer, row: &Row, known: &K) -> bool {
    match make_under(answer, row, known) {
        Ok(is_made) => is_made,
        Err(error) => {
            error.refuse(answer);
            true
        }
    }
}

fn make_under<K: KnownCharsets>(answer: &mut Answer, row: &Row, known: &K) -> Decision {
    let alloc = row.alloc;
    calls! { answer, row.call.as_str();
        "value_under" => value_under(row, known),
        "value_text_under" => value_text_in(alloc, row.bytes(1), known),
        "first_value_under" | "all_values_under" => look_up(answer, row, known),
        "type_under" => parse_content_type_in(alloc, row.text(1), known),
        "disposition_under" => parse_content_disposition_in(alloc, row.text(1), known),
        "body_under" => body_under(row, known),
        "mail_under" | "limited_mail_under" => put_mail(answer, row, known),
    }
}

fn value_under<K: KnownCharsets>(row: &Row, known: &K) -> Result<String, MailParseError> {
    let raw = raw_header(row, 1)?;
    let (header, _) = parse_header(raw.as_slice())?;
    header.get_value_in(row.alloc, known)
}

fn body_under<K: KnownCharsets>(row: &Row, known: &K) -> Result<String, MailParseError> {
    let (alloc, label) = (row.alloc, Label::of(row, 1)?);
    let body = label.body(row.bytes(3));
    body_text!(body; get_decoded_as_string_in, get_as_string_in, alloc, known)
}

fn look_up<K: KnownCharsets>(answer: &mut Answer, row: &Row, known: &K) -> Outcome {
    let mail = parse_mail_in(row.alloc, row.bytes(1), known)?;
    answer.put(Word("list"));
    put_values(answer, row, &mail.headers, known);
    answer.put(Word("block"));
    put_values(answer, row, &mail.get_headers(), known);
    Ok(())
}

fn put_values<M, K>(answer: &mut Answer, row: &Row, map: &M, known: &K)
where
    M: MailHeaderMap,
    K: KnownCharsets,
{
    match row.call.as_str() {
        "first_value_under" => answer.put(map.get_first_value_in(row.alloc, row.text(2), known)),
        _ => answer.put(map.get_all_values_in(row.alloc, row.text(2), known)),
    }
}

fn put_mail<K: KnownCharsets>(answer: &mut Answer, row: &Row, known: &K) -> Outcome {
    let mail = match row.call.as_str() {
        "mail_under" => parse_mail_in(row.alloc, row.bytes(1), known)?,
        _ => parse_mail_limited_in(row.alloc, row.bytes(1), row.levels(2), known)?,
    };
    for part in mail.parts(answer.alloc)? {
        put_part_in(answer, part, known);
    }
    Ok(())
}

fn put_part_in<K: KnownCharsets>(answer: &mut Answer, part: &ParsedMail<'_>, known: &K) {
    put_part!(answer; part, get_value_in, get_content_disposition_in, get_body_in, known);
}
