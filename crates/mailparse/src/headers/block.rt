//! The block of headers at the front of a message.
ghost use Rattle.std.specs.Prelude.{◌≡◌, ◌≤◌, [], ◌∷◌, ◌++◌, length, vec_len, IfOk, OnOk};
ghost use Rattle.mailparse.specs.Block.{block_end, header_count, read_headers};
ghost use Rattle.mailparse.specs.Limit.{headers_met};
ghost use Rattle.mailparse.specs.Outcome.{Answers, AnswersOrMemory};
ghost use Rattle.mailparse.specs.Views.{header_list};

use crate::error::MailParseError;
use crate::header::MailHeader;
use crate::header::parse::parse_header;
use std::alloc::{AllocError, Global};

/// The number of headers that the list has capacity for, at most, after the first one. Few blocks
/// have more, so the list seldom grows.
const FIRST_HEADERS: usize = 32;

/// The list has capacity for one header for each `HEADER_BYTES` bytes of the message. Few headers
/// are shorter, so that many small parts take little memory.
const HEADER_BYTES: usize = 32;

/// Reads the headers at the front of `raw`, up to the blank line that ends them or to the end of
/// input, and returns them with the offset of the body, just after the blank line (RFC 5322,
/// section 2.1).
///
/// A blank line is LF or CR LF. Allocates only the list of headers.
///
/// # Errors
///
/// The first of these in reading order:
///
/// - `MailParseError::Generic` with the text `Header cannot start with a space; it is likely an
///   overhanging line from a previous header`;
/// - `MailParseError::Generic` with the text `Headers were followed by an unexpected lone CR
///   character!`, for a CR without LF where a header or the blank line is expected;
/// - `MailParseError::Memory` if it runs out of memory.
///
/// A refusal before the first header does not allocate.
///
/// # Examples
///
/// ```rust
/// use mailparse::{MailHeaderMap, parse_headers};
///
/// let (headers, body) = parse_headers(alloc, b"Subject: Hi\nTo: you\n\nbody")?;
/// assert_eq!(rt; headers.len(), 2);
/// let to = headers.get_first_value(alloc, "to")?.ok_or("no header")?;
/// assert_eq!(rt; to.as_str(), "you");
/// assert_eq!(rt; body, 21);
/// ```
#[tactic(auto, using(crate::proofs::lemmas::Block::block_readings))]
pub fn parse_headers(
    alloc: Global,
    raw: &[u8],
) -> Result<(Vec<MailHeader<'_>>, usize), MailParseError>
    ensures read { AnswersOrMemory header_list result (read_headers raw.now) }
    ensures bounds { IfOk result (λ found.
        (vec_len found.0 ≤ found.1) × (found.1 ≤ length raw.now)) }
    ensures no_alloc { header_count raw.now ≡ 0 →
        Answers header_list result (read_headers raw.now) }
{
    let mut headers = Vec::new(alloc);
    let mut place = 0;
    loop {
        let rest = &raw[place..];
        if let Some(length) = end_of_block(rest)? {
            return Ok((headers, place + length));
        }
        let (header, length) = parse_header(rest)?;
        push_header(&mut headers, header, raw.len())?;
        place += length;
    }
}

/// Returns the number of headers that `parse_headers` reads at the front of `raw` (RFC 5322, section
/// 2.1), or 0 if it refuses them.
///
/// Does not allocate.
///
/// # Examples
///
/// ```rust
/// use mailparse::count_headers;
///
/// assert_eq!(rt; count_headers(b"Subject: Hi\nTo: you\n\nbody"), 2);
/// assert_eq!(rt; count_headers(b"Subject: Hi\n\rTo: you"), 0);
/// ```
#[inline(never)]
pub fn count_headers(raw: &[u8]) -> usize
    ensures { result ≡ headers_met (read_headers raw.now) }
{
    let mut place = 0;
    let mut count = 0;
    loop {
        let rest = &raw[place..];
        match end_of_block(rest) {
            Ok(Some(_)) => return count,
            Ok(None) => {}
            Err(_) => return 0,
        }
        let Ok((_, length)) = parse_header(rest) else {
            return 0;
        };
        count += 1;
        place += length;
    }
}

/// Adds a header to the list of a message of `bytes` bytes. The first one reserves capacity for
/// more.
fn push_header<'a>(
    headers: &mut Vec<MailHeader<'a>>,
    header: MailHeader<'a>,
    bytes: usize,
) -> Result<(), AllocError>
    ensures { OnOk result (headers.new.items ≡ headers.old.items ++ header.entry ∷ []) }
{
    if headers.is_empty() {
        headers.reserve(FIRST_HEADERS.min(1 + bytes / HEADER_BYTES))?;
    }
    headers.push(header)?;
    Ok(())
}

/// Returns the length of the blank line that ends the block here, 0 at the end of input, or `None`
/// if a header follows.
#[tactic(auto, using(crate::proofs::lemmas::Block::block_ends))]
fn end_of_block(rest: &[u8]) -> Result<Option<usize>, MailParseError>
    ensures { Answers (λ found. found) result (block_end rest.now) }
{
    if rest.is_empty() {
        return Ok(Some(0));
    }
    if rest.starts_with(b"\n") {
        return Ok(Some(1));
    }
    if rest.starts_with(b"\r\n") {
        return Ok(Some(2));
    }
    if rest.starts_with(b"\r") {
        return Err(MailParseError::Generic(
            "Headers were followed by an unexpected lone CR character!",
        ));
    }
    Ok(None)
}
