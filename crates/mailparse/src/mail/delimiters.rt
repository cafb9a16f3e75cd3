//! Finds the delimiters between the parts of a body, and the ranges of the parts (RFC 2046, section
//! 5.1.1).
//!
//! The dash-boundary is `--` and the boundary. A line delimiter is a LF and the dash-boundary.
ghost use Rattle.std.specs.Prelude.{◌≡◌, true, not, ℕ, suc, ◌+◌, ◌<◌, ◌≤◌, List, [], ◌∷◌, length, drop, option_map, IfSome};
ghost use Rattle.mail_codec.specs.Ascii.{is_blank, line_feed};
ghost use Rattle.mail_codec.specs.Places.{begins, first_place, text_place};
ghost use Rattle.mailparse.specs.Delimiters.{starts_line, is_delimiter, delimiter_from, delimiter_from_as, ends_line, is_blank_line, is_line_over, line_after, is_close_delimiter};
ghost use Rattle.mailparse.specs.Delimiters.{before_byte, before_line_end, end_from_as, first_part_as, next_part_as, preamble_end_as};
ghost use Rattle.mailparse.specs.private.Delimiters.{IsLineDelimiter};

use crate::header::parse::line_feed_from;
use bstr::ByteSlice;
use mail_codec::bytescan::{find_byte, find_pair};

/// Returns the end of the preamble that starts at `start`, and the start of the first part if there
/// is one. Without a delimiter the preamble is empty, or all that follows if whole lines are asked
/// for.
pub(super) fn cut_preamble(
    raw: &[u8],
    start: usize,
    line_delimiter: &[u8],
    whole: bool,
) -> (usize, Option<usize>)
    requires line_delimiter { IsLineDelimiter line_delimiter.now }
    requires within { start ≤ length raw.now }
    ensures end { result.0 ≡ preamble_end_as whole (drop 1 line_delimiter.now) raw.now start }
    ensures first { result.1 ≡ first_part_as whole (drop 1 line_delimiter.now) raw.now start }
    ensures bounds { (start ≤ result.0) × (result.0 ≤ length raw.now)
        × IfSome result.1 (λ next. (start < next) × (next ≤ length raw.now)) }
{
    let Some(at) = find_delimiter_as(raw, start, line_delimiter, whole) else {
        return (if whole { raw.len() } else { start }, None);
    };
    let end = before_line_end(raw, start, at);
    let first = line_after(raw, at + (line_delimiter.len() - 1));
    (end, first)
}

/// Returns the end of the part that starts at `start`, and the start of the next part if there is
/// one.
pub(super) fn cut_part(
    raw: &[u8],
    start: usize,
    line_delimiter: &[u8],
    whole: bool,
) -> (usize, Option<usize>)
    requires line_delimiter { IsLineDelimiter line_delimiter.now }
    requires within { start ≤ length raw.now }
    ensures end { result.0
        ≡ end_from_as whole (drop 1 line_delimiter.now) raw.now start (length raw.now) }
    ensures next { result.1 ≡ next_part_as whole (drop 1 line_delimiter.now) raw.now start }
    ensures bounds { (start ≤ result.0) × (result.0 ≤ length raw.now)
        × IfSome result.1 (λ next. (start < next) × (next ≤ length raw.now)) }
{
    let Some(at) = find_delimiter_as(raw, start, line_delimiter, whole) else {
        return (raw.len(), None);
    };
    let end = before_line_end(raw, start, at);
    let after = at + (line_delimiter.len() - 1);
    if is_close_delimiter(raw, after) {
        return (end, None);
    }
    (end, line_after(raw, after))
}

/// Whether the delimiter whose dash-boundary ends at `after` is the close-delimiter: fewer than two
/// bytes follow it, or `--` does.
fn is_close_delimiter(raw: &[u8], after: usize) -> bool
    requires within { after ≤ length raw.now }
    ensures { (at : ℕ) (dash_boundary : List ℕ) → at + length dash_boundary ≡ after →
        result ≡ is_close_delimiter dash_boundary raw.now at }
{
    if raw.len() - after < 2 {
        return true;
    }
    raw[after..].starts_with(b"--")
}

/// Returns the offset of the first delimiter at or after `start`, where `start` counts as the start
/// of a line; if whole lines are asked for, of the first one that is a whole line.
fn find_delimiter_as(raw: &[u8], start: usize, line_delimiter: &[u8], whole: bool) -> Option<usize>
    requires line_delimiter { IsLineDelimiter line_delimiter.now }
    requires within { start ≤ length raw.now }
    ensures least { result
        ≡ delimiter_from_as whole (drop 1 line_delimiter.now) raw.now start }
    ensures bounds { IfSome result (λ at.
        (start ≤ at) × (at + length (drop 1 line_delimiter.now) ≤ length raw.now)) }
{
    if !whole {
        return find_delimiter(raw, start, line_delimiter);
    }
    find_whole_line(raw, start, line_delimiter)
}

/// Returns the offset of the first delimiter at or after `start` that is a whole line, where
/// `start` counts as the start of a line. It is kept out of the frame of the function that
/// recurses.
#[inline(never)]
fn find_whole_line(raw: &[u8], start: usize, line_delimiter: &[u8]) -> Option<usize>
    requires line_delimiter { IsLineDelimiter line_delimiter.now }
    requires within { start ≤ length raw.now }
    ensures least { result
        ≡ delimiter_from_as true (drop 1 line_delimiter.now) raw.now start }
    ensures bounds { IfSome result (λ at.
        (start ≤ at) × (at + length (drop 1 line_delimiter.now) ≤ length raw.now)) }
{
    let mut from = start;
    'delimiters: while let Some(at) = find_delimiter(raw, from, line_delimiter) {
        if ends_line(&raw[at + (line_delimiter.len() - 1)..]) {
            return Some(at);
        }
        let Some(next) = line_after(raw, at) else {
            return None;
        };
        from = next;
    }
    None
}

/// Whether only `--`, or nothing, and then blanks precede the end of the line.
#[tactic(auto, unfolding(crate::specs::Delimiters::ends_line))]
fn ends_line(rest: &[u8]) -> bool
    ensures { result ≡ ends_line rest.now }
{
    if rest.starts_with(b"--") {
        return is_blank_line(&rest[2..]);
    }
    is_blank_line(rest)
}

/// Whether only blanks precede the end of the line, which may have several CRs.
#[tactic(auto, unfolding(crate::specs::Delimiters::is_blank_line))]
fn is_blank_line(rest: &[u8]) -> bool
    ensures { result ≡ is_blank_line rest.now }
{
    is_line_over(trim_blanks(rest))
}

/// Whether only CRs precede the next LF, or the end of the bytes.
fn is_line_over(rest: &[u8]) -> bool
    ensures { result ≡ is_line_over rest.now }
{
    let end = line_feed_from(rest, 0);
    rest[..end].iter().all(|byte| *byte == b'\r')
}

/// Returns the bytes without the blanks at their front.
fn trim_blanks(bytes: &[u8]) -> &[u8]
    ensures { result.now
        ≡ drop (first_place (begins (λ b. not (is_blank b))) bytes.now) bytes.now }
{
    for (place, byte) in bytes.iter().enumerate() {
        if *byte != b' ' && *byte != b'\t' {
            return &bytes[place..];
        }
    }
    &bytes[bytes.len()..]
}

/// Returns the offset of the first delimiter at or after `start`, where `start` counts as the start
/// of a line.
///
/// A dash-boundary that contains a LF is searched for as a whole, with the LF before it, and not
/// line by line, so that the time is linear in the two lengths.
fn find_delimiter(raw: &[u8], start: usize, line_delimiter: &[u8]) -> Option<usize>
    requires line_delimiter { IsLineDelimiter line_delimiter.now }
    requires within { start ≤ length raw.now }
    ensures least { result ≡ delimiter_from (drop 1 line_delimiter.now) raw.now start }
    ensures bounds { IfSome result (λ at.
        (start ≤ at) × (at + length (drop 1 line_delimiter.now) ≤ length raw.now)) }
{
    let dash_boundary = &line_delimiter[1..];
    if find_byte(dash_boundary, b'\n').is_none() {
        return find_delimiter_line(raw, start, dash_boundary);
    }
    let rest = &raw[start..];
    if rest.starts_with(dash_boundary) {
        return Some(start);
    }
    let offset = rest.find(line_delimiter)?;
    Some(start + offset + 1)
}

/// Returns the offset of the first line at or after `start` that begins with the dash-boundary,
/// where `start` counts as the start of a line.
///
/// Only lines that begin with the first byte of the dash-boundary are tested; all others are
/// skipped.
fn find_delimiter_line(raw: &[u8], start: usize, dash_boundary: &[u8]) -> Option<usize>
    requires some { 0 < length dash_boundary.now }
    requires within { start ≤ length raw.now }
    ensures least { result ≡ delimiter_from dash_boundary.now raw.now start }
    ensures bounds { IfSome result (λ at.
        (start ≤ at) × (at + length dash_boundary.now ≤ length raw.now)) }
{
    let mut at = start;
    'lines: while !is_delimiter(raw, start, at, dash_boundary) {
        at = find_line_starting_with(raw, at, dash_boundary[0])?;
    }
    Some(at)
}

/// Returns the offset of the first line after `start` that begins with `byte`.
fn find_line_starting_with(raw: &[u8], start: usize, byte: u8) -> Option<usize>
    requires within { start ≤ length raw.now }
    ensures least { result ≡ option_map (λ k. suc (start + k))
        (text_place (drop start raw.now) (line_feed ∷ byte ∷ [])) }
    ensures bounds { IfSome result (λ at. (start < at) × (at < length raw.now)) }
{
    let offset = find_pair(&raw[start..], b'\n', byte)?;
    Some(start + offset + 1)
}

/// Whether a line starts at `at` and begins with the dash-boundary, where `start` counts as the
/// start of a line.
fn is_delimiter(raw: &[u8], start: usize, at: usize, dash_boundary: &[u8]) -> bool
    requires low { start ≤ at }
    requires within { at ≤ length raw.now }
    ensures { result ≡ is_delimiter dash_boundary.now raw.now start at }
{
    if !starts_line(raw, start, at) {
        return false;
    }
    raw[at..].starts_with(dash_boundary)
}

/// Whether a line starts at `at`: it is `start`, or follows a LF.
fn starts_line(raw: &[u8], start: usize, at: usize) -> bool
    requires low { start ≤ at }
    requires within { at ≤ length raw.now }
    ensures { result ≡ starts_line raw.now start at }
{
    if at == start {
        return true;
    }
    raw[at - 1] == b'\n'
}

/// Returns the offset after the first LF at or after `at`.
fn line_after(raw: &[u8], at: usize) -> Option<usize>
    requires within { at ≤ length raw.now }
    ensures value { result ≡ line_after raw.now at }
    ensures bounds { IfSome result (λ next. (at < next) × (next ≤ length raw.now)) }
{
    let offset = find_byte(&raw[at..], b'\n')?;
    Some(at + offset + 1)
}

/// Returns `at`, or the start of the line end before it: one LF and then one CR are left out, but
/// nothing before `start`.
fn before_line_end(raw: &[u8], start: usize, at: usize) -> usize
    requires low { start ≤ at }
    requires within { at ≤ length raw.now }
    ensures value { result ≡ before_line_end raw.now start at }
    ensures bounds { (start ≤ result) × (result ≤ at) }
{
    before_byte(raw, start, before_byte(raw, start, at, b'\n'), b'\r')
}

/// Returns `at`, or `at - 1` if the byte there is `byte` and not before `start`.
fn before_byte(raw: &[u8], start: usize, at: usize, byte: u8) -> usize
    requires low { start ≤ at }
    requires within { at ≤ length raw.now }
    ensures value { result ≡ before_byte byte raw.now start at }
    ensures bounds { (start ≤ result) × (result ≤ at) }
{
    if start < at && raw[at - 1] == byte {
        at - 1
    } else {
        at
    }
}
