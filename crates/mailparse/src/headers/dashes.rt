//! Headers that end before a line that looks like a delimiter, where the blank line is missing.
ghost use Rattle.std.specs.Prelude.{◌≡◌, ◌≤◌, ◌||◌, drop, length, vec_len, IfOk};
ghost use Rattle.std.specs.List.{list_all};
ghost use Rattle.mail_codec.specs.Places.{first_place};
ghost use Rattle.mailparse.specs.Block.{before_dash_line, ends_header_lines, header_count};
ghost use Rattle.mailparse.specs.Block.{headers_end, is_dash_line, read_headers};
ghost use Rattle.mailparse.specs.Outcome.{Answers, AnswersOrMemory};
ghost use Rattle.mailparse.specs.Views.{header_list};
ghost use Rattle.mailparse.specs.private.Dashes.{is_dashless};

use super::block::parse_headers;
use crate::error::MailParseError;
use crate::header::MailHeader;
use crate::header::parse::{has_colon, line_feed_from};
use std::alloc::Global;

/// Reads the headers in the bytes that `before_dash_line` returns.
///
/// Few messages have such a line. So all bytes are read first, and those before such a line only if
/// the key of a header begins with `--`, or there is no header.
pub(crate) fn parse_headers_before_dashes(
    alloc: Global,
    raw: &[u8],
) -> Result<(Vec<MailHeader<'_>>, usize), MailParseError>
    ensures read { AnswersOrMemory header_list result (read_headers (before_dash_line raw.now)) }
    ensures bounds { IfOk result (λ found.
        (vec_len found.0 ≤ found.1) × (found.1 ≤ length raw.now)) }
    ensures no_alloc { header_count (before_dash_line raw.now) ≡ 0 →
        Answers header_list result (read_headers (before_dash_line raw.now)) }
{
    match parse_headers(alloc, raw) {
        Ok((headers, body)) => {
            if !headers.is_empty() && are_dashless(headers.as_slice()) {
                return Ok((headers, body));
            }
        }
        Err(refusal) => {
            if let MailParseError::Memory(e) = refusal {
                return Err(MailParseError::Memory(e));
            }
        }
    }
    parse_headers(alloc, before_dash_line(raw))
}

/// Returns whether no key begins with `--`.
fn are_dashless(headers: &[MailHeader<'_>]) -> bool
    ensures { result ≡ list_all is_dashless headers.now }
{
    headers.iter().all(|header| is_dashless(header))
}

/// Returns whether the key of a header does not begin with `--`.
fn is_dashless(header: &MailHeader<'_>) -> bool
    ensures { result ≡ is_dashless header.now }
{
    !header.get_key_raw().starts_with(b"--")
}

/// Returns the bytes before the first line that begins with `--` and has no colon, or all bytes if
/// there is none before the blank line that ends the headers (RFC 5322, section 2.1).
///
/// Such a line is no header, but looks like a delimiter (RFC 2046, section 5.1.1). The first line
/// of the bytes does not count. Does not allocate.
///
/// # Examples
///
/// ```rust
/// use mailparse::before_dash_line;
///
/// let raw = b"Content-Type: multipart/mixed; boundary=b\n \n--b\n\none\n--b--\n";
/// let part = before_dash_line(raw);
/// assert_eq!(rt; part, b"Content-Type: multipart/mixed; boundary=b\n \n".as_slice());
/// assert_eq!(rt; before_dash_line(b"A: b\n\n--b\n"), b"A: b\n\n--b\n".as_slice());
/// ```
// Not inlined, since the reader seldom calls it.
#[inline(never)]
pub fn before_dash_line(raw: &[u8]) -> &[u8]
    ensures { result.now ≡ before_dash_line raw.now }
{
    let feed = last_line_feed(raw);
    if feed >= raw.len() {
        return raw;
    }
    if !is_dash_line(&raw[feed + 1..]) {
        return raw;
    }
    &raw[..feed + 1]
}

/// Returns the offset of the first LF after which the blank line, the end of the bytes or a line
/// follows that looks like a delimiter, or the length if there is none.
fn last_line_feed(raw: &[u8]) -> usize
    ensures least { result ≡ first_place ends_header_lines raw.now }
    ensures bounds { result ≤ length raw.now }
{
    let mut feed = line_feed_from(raw, 0);
    while feed < raw.len() && !ends_lines(raw, feed + 1) {
        feed = line_feed_from(raw, feed + 1);
    }
    feed
}

/// Whether the line at `place` ends the headers, as the blank line or as one that looks like a
/// delimiter.
fn ends_lines(raw: &[u8], place: usize) -> bool
    requires within { place ≤ length raw.now }
    ensures { result ≡ (headers_end (drop place raw.now) || is_dash_line (drop place raw.now)) }
{
    let rest = &raw[place..];
    if ends_block(rest) {
        return true;
    }
    is_dash_line(rest)
}

/// Whether the bytes are empty or begin with the blank line.
#[tactic(auto, unfolding(crate::specs::Block::headers_end, crate::specs::Block::blank_line))]
fn ends_block(rest: &[u8]) -> bool
    ensures { result ≡ headers_end rest.now }
{
    if rest.is_empty() {
        return true;
    }
    if rest.starts_with(b"\n") {
        return true;
    }
    rest.starts_with(b"\r\n")
}

/// Whether the line begins with `--` and has no colon.
#[tactic(auto, unfolding(crate::specs::Block::is_dash_line))]
fn is_dash_line(line: &[u8]) -> bool
    ensures { result ≡ is_dash_line line.now }
{
    line.starts_with(b"--") && !has_colon(line)
}
