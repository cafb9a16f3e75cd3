//! The calls on whole mails: their limits, their parts in all, modified and truncated mails.
//!
//! ```text
//! max_levels => NUMBER
//! parse_mail_limited LEVELS MAIL => PARTS        how many parts there are, with parts of parts
//! parse_mail_within LEVELS ITEMS MAIL => PARTS   under a limit on parts and headers too
//! read_mail ITEMS MAIL => PARTS                  as the programs read mails, which sets the levels
//! kept_within ITEMS MAIL => PARTS                in the lenient manner, which keeps refused messages
//! levels MAIL => LEVELS PARTS PARTS              the least limit under which the mail is not refused
//!                                                for its depth, and PARTS then and of `parse_mail`
//! block_headers MAIL => HEADERS                  how many its block has, 0 if that is refused
//! count_parts MAIL => COUNT
//! next_parts MAIL TIMES => MIMETYPE | none ..    for each call of `next`
//! held MAIL => HEADERS BYTES PARTS               how many headers, bytes of bodies, and parts
//! get_headers MAIL => KEY VALUE..
//! debug_mail MAIL => TEXT                        also debug_headers
//! without_headers MAIL => COUNT BLOCK            after its headers were removed; also without_parts
//! under_charset MAIL LABEL => TEXT               the body after the charset of the type was set
//! truncated MAIL => COUNT                        see below
//! findings MAIL => NAME START END PATH..         under all charsets
//! read_findings LIMIT MAIL => the same, unless the mail has more messages and headers
//! ```
//!
//! `truncated` writes to how many lengths the mail can be truncated, from none of its bytes to all
//! of them, so that the front is read, with its bodies unless one is not Base64, and has no more
//! headers, bytes of bodies, and parts at three bytes each, than it has bytes. Each other length
//! precedes the count, with the refusal, or with the word `more`.

use crate::notation::{Answer, Debugged, Decision, Outcome, Refusal, Row, Show, Word, calls, put};
use mail_charsets::AllCharsets;
use mail_check::{Finding, findings, read_findings};
use mail_read::lenient::Lenient;
use mail_read::reading::read_mail;
use mailparse::{
    MAX_LEVELS, MailParseError, ParsedMail, Strict, count_headers, parse_mail, parse_mail_limited,
    parse_mail_within,
};
use std::alloc::Global;

pub fn make(answer: &mut Answer, row: &Row) -> Decision {
    Ok(make_within(answer, row)? || make_of_mails(answer, row)?)
}

fn make_within(answer: &mut Answer, row: &Row) -> Decision {
    let alloc = row.alloc;
    calls! { answer, row.call.as_str();
        "max_levels" => usize::from(MAX_LEVELS),
        "parse_mail_limited" =>
            count_below(alloc, parse_mail_limited(alloc, row.bytes(1), row.levels(0))),
        "parse_mail_within" => count_below(
            alloc,
            parse_mail_within(alloc, row.bytes(2), row.levels(0), row.number(1), &Strict(&())),
        ),
        "read_mail" => count_below(alloc, read_mail(alloc, row.bytes(1), row.number(0), &())),
        "kept_within" => count_below(
            alloc,
            parse_mail_within(alloc, row.bytes(1), MAX_LEVELS, row.number(0), &Lenient(&())),
        ),
        "levels" => put_levels(answer, row),
        "block_headers" => count_headers(row.bytes(0)),
        "without_headers" => put_without_headers(answer, row),
        "without_parts" => put_without_parts(answer, row),
        "under_charset" => put_under(answer, row),
        "truncated" => put_truncated(answer, row.bytes(0)),
        "read_findings" =>
            read_findings(alloc, row.bytes(1), row.number(0), &AllCharsets::standard()),
    }
}

fn make_of_mails(answer: &mut Answer, row: &Row) -> Decision {
    let alloc = row.alloc;
    calls! { answer, row.call.as_str(), mail = row.mail()?;
        "count_parts" => count_parts(alloc, &mail),
        "next_parts" => put_next(answer, &mail, row.number(1)),
        "held" => held(alloc, &mail),
        "get_headers" => put_headers(answer, &mail),
        "debug_headers" => Debugged(mail.get_headers()),
        "debug_mail" => Debugged(&mail),
        "findings" => findings(alloc, &mail, &AllCharsets::standard()),
    }
}

/// Returns how many messages a mail contains, with itself.
pub fn count_parts(alloc: Global, mail: &ParsedMail<'_>) -> Result<usize, MailParseError> {
    Ok(mail.parts(alloc)?.count())
}

/// Returns how many parts a mail has, with parts of parts, unless it is refused.
fn count_below(
    alloc: Global,
    mail: Result<ParsedMail<'_>, MailParseError>,
) -> Result<usize, MailParseError> {
    Ok(count_parts(alloc, &mail?)?.saturating_sub(1))
}

fn put_levels(answer: &mut Answer, row: &Row) -> Outcome {
    let levels = least_levels(row.alloc, row.bytes(0))?;
    answer.put(usize::from(levels));
    let limited = parse_mail_limited(row.alloc, row.bytes(0), levels.min(MAX_LEVELS));
    put!(answer; count_below(row.alloc, limited), count_below(row.alloc, row.mail()));
    Ok(())
}

/// Returns the least limit on levels under which a mail is not refused for its depth, or the
/// greatest.
pub fn least_levels(alloc: Global, raw: &[u8]) -> Result<u8, MailParseError> {
    for levels in 0..MAX_LEVELS {
        if !is_too_deep(parse_mail_limited(alloc, raw, levels.min(MAX_LEVELS)))? {
            return Ok(levels);
        }
    }
    Ok(MAX_LEVELS)
}

/// Returns whether a mail is refused for its depth.
fn is_too_deep(mail: Result<ParsedMail<'_>, MailParseError>) -> Decision {
    match mail {
        Err(MailParseError::Generic(text)) => Ok(text == "Recursion limit reached"),
        Err(MailParseError::Memory(e)) => Err(MailParseError::Memory(e)),
        _ => Ok(false),
    }
}

fn put_next(answer: &mut Answer, mail: &ParsedMail<'_>, times: usize) -> Outcome {
    let mut parts = mail.parts(answer.alloc)?;
    for _turn in 0..times {
        answer.put(parts.next().map(|part| part.ctype.mimetype.as_str()));
    }
    Ok(())
}

fn put_headers(answer: &mut Answer, mail: &ParsedMail<'_>) {
    for header in mail.get_headers() {
        answer.put(header);
    }
}

fn put_without_headers(answer: &mut Answer, row: &Row) -> Outcome {
    let mut mail = row.mail()?;
    let headers = &mut mail.headers;
    headers.clear();
    let block = mail.get_headers();
    let raw = block.get_raw_bytes();
    put!(answer; block.into_iter().count(), raw);
    Ok(())
}

fn put_without_parts(answer: &mut Answer, row: &Row) -> Outcome {
    let mut mail = row.mail()?;
    let subparts = &mut mail.subparts;
    subparts.clear();
    answer.put(count_parts(answer.alloc, &mail));
    Ok(())
}

fn put_under(answer: &mut Answer, row: &Row) -> Outcome {
    let mut mail = row.mail()?;
    let ctype = &mut mail.ctype;
    ctype.charset = String::from_str(row.alloc, row.text(1))?;
    answer.put(mail.get_body(row.alloc));
    Ok(())
}

/// How many headers, bytes of bodies, and parts with parts of parts a mail has.
type Held = (usize, (usize, usize));

/// Counts what a mail and its parts contain.
fn held(alloc: Global, mail: &ParsedMail<'_>) -> Result<Held, MailParseError> {
    let (mut headers, mut bytes, mut nodes) = (0usize, 0usize, 0usize);
    for node in mail.parts(alloc)? {
        headers = headers.saturating_add(node.headers.len());
        bytes = bytes.saturating_add(node.get_body_encoded(alloc)?.get_raw().len());
        nodes = nodes.saturating_add(1);
    }
    Ok((headers, (bytes, nodes.saturating_sub(1))))
}

fn put_truncated(answer: &mut Answer, raw: &[u8]) {
    let mut count = 0usize;
    for length in 0..=raw.len() {
        if is_read(answer, raw.get(..length).unwrap_or(raw)) {
            count = count.saturating_add(1);
        }
    }
    answer.put(count);
}

/// Returns whether the front of a mail is read and contains no more than its bytes; otherwise
/// writes why not.
fn is_read(answer: &mut Answer, front: &[u8]) -> bool {
    match bytes_held(answer.alloc, front) {
        Ok(bytes) if bytes <= front.len() => return true,
        Ok(_) => put!(answer; front.len(), Word("more")),
        Err(error) => {
            answer.put(front.len());
            error.refuse(answer);
        }
    }
    false
}

/// Returns how many bytes the front of a mail must have at least. Each body is decoded; one that is
/// not the Base64 that it claims to be is not an error.
fn bytes_held(alloc: Global, front: &[u8]) -> Result<usize, MailParseError> {
    let mail = parse_mail(alloc, front)?;
    for part in mail.parts(alloc)? {
        read_body(alloc, part)?;
    }
    let (headers, (bytes, parts)) = held(alloc, &mail)?;
    Ok(
        headers
            .saturating_add(bytes)
            .saturating_add(parts.saturating_mul(3)),
    )
}

fn read_body(alloc: Global, part: &ParsedMail<'_>) -> Outcome {
    match part.get_body_raw(alloc) {
        Ok(_) | Err(MailParseError::Base64DecodeError(_)) => Ok(()),
        Err(error) => Err(error),
    }
}

impl Show for Finding {
    fn show(&self, answer: &mut Answer) {
        put!(answer; self.name.text(), self.range.start, self.range.end, &self.path);
    }
}
