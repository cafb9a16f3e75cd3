//! The headers of a message as they are written, and what other programs may read differently in
//! one of them.
ghost use Rattle.std.specs.Prelude.{◌≡◌, ◌+◌, ◌^◌, ◌<◌, ◌≤◌, drop, length, map, option_map};
ghost use Rattle.std.specs.Prelude.{IfOk};
ghost use Rattle.std.specs.List.{list_all, position_or_len};
ghost use Rattle.mailparse.specs.Mail.{root};
ghost use Rattle.mailparse.specs.Views.{tree_of};
ghost use Rattle.mail_check.specs.LineViews.{line_view};
ghost use Rattle.mail_check.specs.Lines.{after_key, ends_block, has_blank_fold, has_comment_fold};
ghost use Rattle.mail_check.specs.Lines.{has_high_value, has_second_colon, has_value, header_lines};
ghost use Rattle.mail_check.specs.Lines.{is_bad_encoding, is_bad_key, is_encoding, is_named};
ghost use Rattle.mail_check.specs.Lines.{is_structured, is_visible, line_of, second_named};
ghost use Rattle.mail_check.specs.Lines.{single_names, trimmed_value};
ghost use Rattle.mail_check.specs.private.Folds.{is_folded};
ghost use Rattle.mail_check.specs.private.Singles.{has_repeated, none_yet, single_number};

use crate::scan::{Pattern, blank_count, first_match, from_offset, high_byte, is_same};
use mail_codec::bytescan::find_byte;
use mailparse::{ParsedMail, header_places};
use std::alloc::{AllocError, Global};

/// A header as it is written.
#[derive(Clone, Copy)]
pub(crate) struct HeaderLine<'m> {
    /// Where it begins in its block.
    pub(crate) start: usize,
    /// Where it ends there, after its line end.
    pub(crate) end: usize,
    /// Its bytes, with its line end.
    pub(crate) bytes: &'m [u8],
    /// Its key.
    pub(crate) key: &'m [u8],
    /// Its value.
    pub(crate) value: &'m [u8],
}

/// Returns the headers of a message.
pub(crate) fn header_lines<'m>(
    alloc: Global,
    part: &'m ParsedMail<'_>,
) -> Result<Vec<HeaderLine<'m>>, AllocError>
    ensures { IfOk result (λ lines.
        map line_view lines.items ≡ header_lines (root (tree_of part.now))) }
{
    let block = part.get_headers().get_raw_bytes();
    let mut lines = Vec::with_capacity(alloc, part.headers.len())?;
    let mut at = 0;
    for _header in &part.headers {
        let line = line_of(at, &block[at..]);
        at = line.end;
        lines.push(line)?;
    }
    Ok(lines)
}

/// Returns the header at the front of the rest of a block, which begins at an offset.
fn line_of(at: usize, rest: &[u8]) -> HeaderLine<'_>
    requires { at + length rest.now < 2 ^ 63 }
    ensures value { line_view result ≡ line_of at rest.now }
    ensures bounds { result.end ≤ at + length rest.now }
{
    let places = header_places(rest);
    HeaderLine {
        start: at,
        end: at + places.length,
        bytes: &rest[..places.length],
        key: &rest[..places.key_end],
        value: &rest[places.value_start..places.value_end],
    }
}

/// Returns whether the key of a header is this name, ignoring ASCII case.
#[inline(always)]
pub(crate) fn is_named(name: &[u8], line: &HeaderLine<'_>) -> bool
    ensures { result ≡ is_named name.now (line_view line.now) }
{
    is_same(line.key, name)
}

/// Returns whether a header has no colon or two, or a key that is empty or has another byte than
/// visible ASCII.
#[tactic(auto, unfolding(crate::specs::Lines::is_bad_key))]
pub(crate) fn is_bad_key(line: &HeaderLine<'_>) -> bool
    ensures { result ≡ is_bad_key (line_view line.now) }
{
    let rest = after_key(line);
    !rest.starts_with(b":")
        || (line.key.is_empty() || !are_visible(line.key))
        || has_second_colon(without_first(rest))
}

/// Returns the bytes after the key.
#[inline(always)]
fn after_key<'m>(line: &HeaderLine<'m>) -> &'m [u8]
    ensures { result.now ≡ after_key (line_view line.now) }
{
    from_offset(line.bytes, line.key.len())
}

/// Returns the bytes without the first.
#[inline(always)]
fn without_first(bytes: &[u8]) -> &[u8]
    ensures { result.now ≡ drop 1 bytes.now }
{
    from_offset(bytes, 1)
}

/// Returns whether all bytes are visible ASCII.
fn are_visible(bytes: &[u8]) -> bool
    ensures { result ≡ list_all is_visible bytes.now }
{
    bytes.iter().all(|byte| *byte > b' ' && *byte <= b'~')
}

/// Returns whether a byte is visible ASCII.
#[inline(always)]
pub(crate) fn is_visible(byte: u8) -> bool
    ensures { result ≡ is_visible byte }
{
    byte > b' ' && byte <= b'~'
}

/// Returns whether a colon comes after blanks.
#[inline(always)]
fn has_second_colon(rest: &[u8]) -> bool
    ensures { result ≡ has_second_colon rest.now }
{
    rest[blank_count(rest)..].starts_with(b":")
}

/// Returns whether a header has more than one line.
#[tactic(auto, unfolding(crate::specs::private::Folds::is_folded))]
pub(crate) fn is_folded(line: &HeaderLine<'_>) -> bool
    ensures { result ≡ is_folded (line_view line.now) }
{
    match find_byte(line.bytes, b'\n') {
        Some(at) => at + 1 < line.bytes.len(),
        None => false,
    }
}

/// Returns whether a line of a header consists of blanks.
pub(crate) fn has_blank_fold(line: &HeaderLine<'_>) -> bool
    ensures { result ≡ has_blank_fold (line_view line.now) }
{
    first_match(Pattern::BlankFold, line.bytes).is_some()
}

/// Returns whether a closing parenthesis comes before a fold of a header of addresses or ids.
#[tactic(auto, unfolding(crate::specs::Lines::has_comment_fold))]
pub(crate) fn has_comment_fold(line: &HeaderLine<'_>) -> bool
    ensures { result ≡ has_comment_fold (line_view line.now) }
{
    is_structured(line) && first_match(Pattern::CommentFold, line.bytes).is_some()
}

/// Returns whether a header is one of addresses or message ids.
fn is_structured(line: &HeaderLine<'_>) -> bool
    ensures { result ≡ is_structured (line_view line.now) }
{
    is_named(b"Message-ID", line)
        || is_named(b"In-Reply-To", line)
        || is_named(b"References", line)
        || is_named(b"From", line)
        || is_named(b"Sender", line)
        || is_named(b"To", line)
        || is_named(b"Cc", line)
        || is_named(b"Bcc", line)
        || is_named(b"Reply-To", line)
}

/// Returns whether a byte after the key of a header is not ASCII.
pub(crate) fn has_high_value(line: &HeaderLine<'_>) -> bool
    ensures { result ≡ has_high_value (line_view line.now) }
{
    high_byte(after_key(line)).is_some()
}

/// Returns whether a header ends where its block of this size ends.
#[inline(always)]
pub(crate) fn ends_block(size: usize, line: &HeaderLine<'_>) -> bool
    ensures { result ≡ ends_block size (line_view line.now) }
{
    line.end == size
}

/// Returns the second header with a name.
#[tactic(auto, using(crate::proofs::lemmas::Lines::second_begun, crate::proofs::lemmas::Lines::second_is, crate::proofs::lemmas::Lines::second_passed))]
pub(crate) fn second_named<'m>(name: &[u8], lines: &[HeaderLine<'m>]) -> Option<HeaderLine<'m>>
    ensures { option_map line_view result ≡ second_named name.now (map line_view lines.now) }
{
    let mut seen = false;
    for line in lines {
        if is_named(name, line) {
            if seen {
                return Some(*line);
            }
            seen = true;
        }
    }
    None
}

/// Returns whether a name of which a message has one header occurs twice among headers.
#[tactic(auto, using(crate::proofs::lemmas::Singles::number_past))]
pub(crate) fn has_repeated(lines: &[HeaderLine<'_>]) -> bool
    ensures { result ≡ has_repeated none_yet (map line_view lines.now) }
{
    let mut seen = [false; 17];
    for line in lines {
        let number = single_number(line);
        if number >= seen.len() {
            continue;
        }
        if seen[number] {
            return true;
        }
        seen[number] = true;
    }
    false
}

/// Returns the number of the name of a header among those of which a message has one, or 17.
#[tactic(auto, unfolding(crate::specs::private::Singles::single_number))]
fn single_number(line: &HeaderLine<'_>) -> usize
    ensures { result ≡ single_number (line_view line.now) }
{
    if is_named(b"Content-Type", line) {
        return 0;
    }
    if is_named(b"Content-Transfer-Encoding", line) {
        return 1;
    }
    if is_named(b"Content-Disposition", line) {
        return 2;
    }
    if is_named(b"Content-ID", line) {
        return 3;
    }
    if is_named(b"Content-Description", line) {
        return 4;
    }
    if is_named(b"MIME-Version", line) {
        return 5;
    }
    6 + address_number(line)
}

/// Returns its number among those from `From` onwards, or 11.
fn address_number(line: &HeaderLine<'_>) -> usize
    ensures { result
        ≡ position_or_len (λ name. is_named name (line_view line.now)) (drop 6 single_names) }
{
    if is_named(b"From", line) {
        return 0;
    }
    if is_named(b"Sender", line) {
        return 1;
    }
    if is_named(b"Reply-To", line) {
        return 2;
    }
    if is_named(b"To", line) {
        return 3;
    }
    if is_named(b"Cc", line) {
        return 4;
    }
    if is_named(b"Bcc", line) {
        return 5;
    }
    6 + message_number(line)
}

/// Returns its number among those from `Date` onwards, or 5.
fn message_number(line: &HeaderLine<'_>) -> usize
    ensures { result
        ≡ position_or_len (λ name. is_named name (line_view line.now)) (drop 12 single_names) }
{
    if is_named(b"Date", line) {
        return 0;
    }
    if is_named(b"Subject", line) {
        return 1;
    }
    if is_named(b"Message-ID", line) {
        return 2;
    }
    if is_named(b"In-Reply-To", line) {
        return 3;
    }
    if is_named(b"References", line) {
        return 4;
    }
    5
}

/// Returns the value of a header without blanks before it.
#[inline(always)]
pub(crate) fn trimmed_value<'m>(line: &HeaderLine<'m>) -> &'m [u8]
    ensures { result.now ≡ trimmed_value (line_view line.now) }
{
    &line.value[blank_count(line.value)..]
}

/// Returns whether the value of a header is a text, ignoring ASCII case.
#[inline(always)]
fn has_value(text: &[u8], line: &HeaderLine<'_>) -> bool
    ensures { result ≡ has_value text.now (line_view line.now) }
{
    is_same(trimmed_value(line), text)
}

/// Returns whether a header names a transfer encoding that has to be decoded.
pub(crate) fn is_encoding(line: &HeaderLine<'_>) -> bool
    ensures { result ≡ is_encoding (line_view line.now) }
{
    is_named(b"Content-Transfer-Encoding", line)
        && (has_value(b"base64", line) || has_value(b"quoted-printable", line))
}

/// Returns whether a header is to name a transfer encoding and does not.
#[tactic(auto, unfolding(crate::specs::Lines::is_bad_encoding))]
pub(crate) fn is_bad_encoding(line: &HeaderLine<'_>) -> bool
    ensures { result ≡ is_bad_encoding (line_view line.now) }
{
    is_named(b"Content-Transfer-Encoding", line)
        && !(has_value(b"7bit", line)
            || has_value(b"8bit", line)
            || has_value(b"binary", line)
            || has_value(b"base64", line)
            || has_value(b"quoted-printable", line))
}
