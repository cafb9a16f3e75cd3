//! Searches of bytes for what other programs may read differently.
ghost use Rattle.std.specs.Prelude.{◌≡◌, ◌<◌, ◌≤◌, ◌==◌, ◌||◌, ◌+◌, ◌&&◌, drop, length, not};
ghost use Rattle.std.specs.Prelude.{ℕ, false, is_some};
ghost use Rattle.std.specs.List.{list_all};
ghost use Rattle.std.specs.Str.{str_eq_ignore_ascii_case};
ghost use Rattle.mail_codec.specs.Places.{begins, first_place};
ghost use Rattle.mail_codec.specs.private.Vectors.{lane_mask};
ghost use Rattle.mail_codec.specs.Ascii.{carriage_return, is_blank, line_feed};
ghost use Rattle.mail_check.specs.Bytes.{earlier, is_bad_escape, is_control, is_end_blank};
ghost use Rattle.mail_check.specs.Bytes.{is_escape_digit};
ghost use Rattle.mail_check.specs.Bytes.{is_escaped_end, is_high, later};
ghost use Rattle.mail_check.specs.Bytes.{byte_at, first_byte, first_offset, is_line_left};
ghost use Rattle.mail_check.specs.Bytes.{is_bare_line_feed, is_blank_fold, is_comment_fold};
ghost use Rattle.mail_check.specs.Bytes.{is_lone_return, is_return_feed};
ghost use Rattle.mail_check.specs.LineTests.{begins_file, is_before, is_long_line};
ghost use Rattle.mail_check.specs.private.Patterns.{end_offset, has_even_ends, is_after_blank};
ghost use Rattle.mail_check.specs.private.Patterns.{is_blank_feed, is_odd_end, is_odd_escape};
ghost use Rattle.mail_check.specs.private.Patterns.{last_blank, lead, matches_at};

use crate::line_tests::{begins_file, is_long_line};
use mail_codec::bytescan::find_byte;
use std::simd::prelude::*;

/// The number of bytes in a vector.
const LANES: usize = 16;

/// What is searched for. Each has one byte at its offset.
#[derive(Clone, Copy)]
pub(crate) enum Pattern {
    /// A NUL.
    Nul,
    /// A CR without a LF after it.
    LoneReturn,
    /// A CR and a LF.
    ReturnFeed,
    /// A LF without a CR before it.
    BareLineFeed,
    /// A LF, and after it a line of blanks.
    BlankFold,
    /// A closing parenthesis before a line end and a blank.
    CommentFold,
    /// An equals sign that begins neither an escape nor a soft line break.
    BadEscape,
    /// A LF, and before it a blank, or a blank and a CR.
    BlankFeed,
    /// An equals sign before nothing but line ends, or an escaped CR or LF.
    EscapedEnd,
    /// An equals sign that is one of the two kinds above.
    OddEscape,
    /// A LF, and after it a line of more than 998 bytes.
    LongLine,
    /// A LF, and after it a line that begins a file.
    FileLine,
}

/// Returns the offset of the first occurrence of a pattern.
#[inline(always)]
pub(crate) fn first_match(pattern: Pattern, bytes: &[u8]) -> Option<usize>
    ensures value { result ≡ first_offset (matches_at pattern bytes.now) bytes.now }
{
    let mut from = 0;
    'places: while let Some(next) = find_byte(&bytes[from..], lead(pattern)) {
        let place = from + next;
        if matches_at(pattern, bytes, place) {
            return Some(place);
        }
        from = place + 1;
    }
    None
}

/// Returns the byte that a pattern has at its offset.
#[inline(always)]
fn lead(pattern: Pattern) -> u8
    ensures { result ≡ lead pattern }
{
    match pattern {
        Pattern::Nul => 0,
        Pattern::LoneReturn | Pattern::ReturnFeed => b'\r',
        Pattern::BareLineFeed
        | Pattern::BlankFold
        | Pattern::BlankFeed
        | Pattern::LongLine
        | Pattern::FileLine => b'\n',
        Pattern::CommentFold => b')',
        Pattern::BadEscape | Pattern::EscapedEnd | Pattern::OddEscape => b'=',
    }
}

/// Returns whether a pattern occurs at an offset.
fn matches_at(pattern: Pattern, bytes: &[u8], at: usize) -> bool
    requires within { at < length bytes.now }
    ensures { result ≡ matches_at pattern bytes.now at }
{
    match pattern {
        Pattern::Nul => byte_at(bytes, at, 0),
        Pattern::LoneReturn => is_lone_return(bytes, at),
        Pattern::ReturnFeed => is_return_feed(bytes, at),
        Pattern::BareLineFeed => is_bare_line_feed(bytes, at),
        Pattern::BlankFold => is_blank_fold(bytes, at),
        Pattern::CommentFold => is_comment_fold(bytes, at),
        Pattern::BadEscape => is_bad_escape(bytes, at),
        Pattern::BlankFeed => is_blank_feed(bytes, at),
        Pattern::EscapedEnd => is_escaped_end(bytes, at),
        Pattern::OddEscape => is_odd_escape(bytes, at),
        Pattern::LongLine => byte_at(bytes, at, b'\n') && is_long_line(&bytes[at + 1..]),
        Pattern::FileLine => byte_at(bytes, at, b'\n') && begins_file(&bytes[at + 1..]),
    }
}

/// Returns whether a byte is at an offset.
#[inline(always)]
pub(crate) fn byte_at(bytes: &[u8], at: usize, byte: u8) -> bool
    ensures { result ≡ byte_at bytes.now at byte }
{
    match bytes.get(at) {
        Some(found) => *found == byte,
        None => false,
    }
}

/// Returns whether a CR without a LF after it is at an offset.
fn is_lone_return(bytes: &[u8], at: usize) -> bool
    requires within { at < length bytes.now }
    ensures { result ≡ is_lone_return bytes.now at }
{
    byte_at(bytes, at, b'\r') && !byte_at(bytes, at + 1, b'\n')
}

/// Returns whether a CR and a LF are at an offset.
fn is_return_feed(bytes: &[u8], at: usize) -> bool
    requires within { at < length bytes.now }
    ensures { result ≡ is_return_feed bytes.now at }
{
    byte_at(bytes, at, b'\r') && byte_at(bytes, at + 1, b'\n')
}

/// Returns whether a LF without a CR before it is at an offset.
fn is_bare_line_feed(bytes: &[u8], at: usize) -> bool
    requires within { at < length bytes.now }
    ensures { result ≡ is_bare_line_feed bytes.now at }
{
    byte_at(bytes, at, b'\n') && !(at > 0 && byte_at(bytes, at - 1, b'\r'))
}

/// Returns whether all line ends are a CR and a LF. It is tested for the bytes of a vector at once.
pub(crate) fn has_even_ends(bytes: &[u8]) -> bool
    ensures { result ≡ has_even_ends bytes.now }
{
    !byte_at(bytes, 0, b'\n') && !has_odd_end(bytes)
}

/// Returns whether a CR is without a LF after it, or a LF after a byte that is no CR.
fn has_odd_end(bytes: &[u8]) -> bool
    ensures { result ≡ is_some (first_offset (is_odd_end bytes.now) bytes.now) }
{
    let mut at = even_len(bytes);
    'bytes: while at < bytes.len() {
        if is_odd_end(bytes, at) {
            return true;
        }
        at += 1;
    }
    false
}

/// Returns the number of bytes in the vectors at the front that have no such CR and LF.
fn even_len(bytes: &[u8]) -> usize
    ensures even { (p : ℕ) → p < result → is_odd_end bytes.now p ≡ false }
    ensures bounds { result ≤ length bytes.now }
{
    let mut at = 0;
    'vectors: while bytes.len() - at > LANES {
        let returns = byte_lanes(u8x16::from_slice(&bytes[at..]), b'\r');
        let feeds = byte_lanes(u8x16::from_slice(&bytes[at + 1..]), b'\n');
        if returns != feeds {
            break;
        }
        at += LANES;
    }
    at
}

/// Returns whether one of both is there: a CR at an offset, or a LF after it.
fn is_odd_end(bytes: &[u8], at: usize) -> bool
    requires within { at < length bytes.now }
    ensures { result ≡ is_odd_end bytes.now at }
{
    is_lone_return(bytes, at) || (byte_at(bytes, at + 1, b'\n') && !byte_at(bytes, at, b'\r'))
}

/// Returns the mask of the bytes of a vector that are this one.
#[inline(always)]
fn byte_lanes(bytes: u8x16, byte: u8) -> u64
    ensures { result ≡ lane_mask (λ b. b == byte) bytes }
{
    bytes.simd_eq(u8x16::splat(byte)).to_bitmask()
}

/// Returns whether a LF is at an offset, and after it a line that consists of blanks.
fn is_blank_fold(bytes: &[u8], at: usize) -> bool
    requires within { at < length bytes.now }
    ensures { result ≡ is_blank_fold bytes.now at }
{
    if !byte_at(bytes, at, b'\n') {
        return false;
    }
    let rest = &bytes[at + 1..];
    let count = blank_count(rest);
    count > 0 && is_line_left(&rest[count..])
}

/// Returns whether a closing parenthesis is at an offset, and after it blanks, a line end and a
/// blank.
fn is_comment_fold(bytes: &[u8], at: usize) -> bool
    requires within { at < length bytes.now }
    ensures { result ≡ is_comment_fold bytes.now at }
{
    if !byte_at(bytes, at, b')') {
        return false;
    }
    let rest = &bytes[at + 1..];
    let rest = &rest[blank_count(rest)..];
    rest.starts_with(b"\n ")
        || rest.starts_with(b"\n\t")
        || rest.starts_with(b"\r\n ")
        || rest.starts_with(b"\r\n\t")
}

/// Returns whether an equals sign is at an offset that begins neither an escape nor a soft line
/// break.
fn is_bad_escape(bytes: &[u8], at: usize) -> bool
    requires within { at < length bytes.now }
    ensures { result ≡ is_bad_escape bytes.now at }
{
    if !byte_at(bytes, at, b'=') {
        return false;
    }
    let rest = &bytes[at + 1..];
    !(rest.starts_with(b"\n") || rest.starts_with(b"\r\n") || has_escape_digits(rest))
}

/// Returns whether two digits of an escape are at the front.
fn has_escape_digits(rest: &[u8]) -> bool
    ensures { result
        ≡ (begins is_escape_digit rest.now && begins is_escape_digit (drop 1 rest.now)) }
{
    digit_at(rest, 0) && digit_at(rest, 1)
}

/// Returns whether a digit of an escape is at an offset.
fn digit_at(bytes: &[u8], at: usize) -> bool
    ensures { result ≡ begins is_escape_digit (drop at bytes.now) }
{
    match bytes.get(at) {
        Some(byte) => is_escape_digit(*byte),
        None => false,
    }
}

/// Returns whether a byte is a digit of an escape.
#[inline(always)]
pub(crate) fn is_escape_digit(byte: u8) -> bool
    ensures { result ≡ is_escape_digit byte }
{
    (byte >= b'0' && byte <= b'9') || (byte >= b'A' && byte <= b'F')
}

/// Returns whether a LF is at an offset, and before its line end a blank.
fn is_blank_feed(bytes: &[u8], at: usize) -> bool
    requires within { at < length bytes.now }
    ensures { result ≡ is_blank_feed bytes.now at }
{
    byte_at(bytes, at, b'\n') && is_after_blank(bytes, end_offset(bytes, at))
}

/// Returns the offset of the line end with a LF at an offset: that of a CR before it, if there is
/// one.
fn end_offset(bytes: &[u8], feed: usize) -> usize
    ensures { result ≡ end_offset bytes.now feed }
{
    if feed > 0 && byte_at(bytes, feed - 1, b'\r') {
        feed - 1
    } else {
        feed
    }
}

/// Returns whether a blank is before an offset.
fn is_after_blank(bytes: &[u8], at: usize) -> bool
    ensures { result ≡ is_after_blank bytes.now at }
{
    at > 0 && (byte_at(bytes, at - 1, b' ') || byte_at(bytes, at - 1, b'\t'))
}

/// Returns whether an equals sign is at an offset before nothing but line ends, or one that begins
/// an escaped CR or LF.
fn is_escaped_end(bytes: &[u8], at: usize) -> bool
    requires within { at < length bytes.now }
    ensures { result ≡ is_escaped_end bytes.now at }
{
    if !byte_at(bytes, at, b'=') {
        return false;
    }
    let rest = &bytes[at + 1..];
    are_line_ends(rest) || rest.starts_with(b"0D") || rest.starts_with(b"0A")
}

/// Returns whether an equals sign is at an offset that is one of the two kinds above.
fn is_odd_escape(bytes: &[u8], at: usize) -> bool
    requires within { at < length bytes.now }
    ensures { result ≡ is_odd_escape bytes.now at }
{
    is_bad_escape(bytes, at) || is_escaped_end(bytes, at)
}

/// Returns the offsets of the first bad escape and of the first at an end. Most texts have neither,
/// and both are searched at once.
pub(crate) fn odd_escapes(bytes: &[u8]) -> (Option<usize>, Option<usize>)
    ensures bad { result.0 ≡ first_offset (is_bad_escape bytes.now) bytes.now }
    ensures ended { result.1 ≡ first_offset (is_escaped_end bytes.now) bytes.now }
{
    if first_match(Pattern::OddEscape, bytes).is_none() {
        return (None, None);
    }
    (
        first_match(Pattern::BadEscape, bytes),
        first_match(Pattern::EscapedEnd, bytes),
    )
}

/// Returns whether all bytes are those of line ends.
fn are_line_ends(bytes: &[u8]) -> bool
    ensures { result ≡ list_all (λ b. b == carriage_return || b == line_feed) bytes.now }
{
    bytes.iter().all(|byte| *byte == b'\r' || *byte == b'\n')
}

/// Returns the offset of the first blank at the end of a line. Since most blanks are between words,
/// the line ends are searched, and not the blanks.
pub(crate) fn end_blank(bytes: &[u8]) -> Option<usize>
    ensures { result ≡ first_offset (is_end_blank bytes.now) bytes.now }
{
    match first_match(Pattern::BlankFeed, bytes) {
        Some(feed) => Some(end_offset(bytes, feed) - 1),
        None => last_blank(bytes),
    }
}

/// Returns the offset of the last byte, if it is a blank.
fn last_blank(bytes: &[u8]) -> Option<usize>
    ensures { result ≡ last_blank bytes.now }
{
    if is_after_blank(bytes, bytes.len()) {
        Some(bytes.len() - 1)
    } else {
        None
    }
}

/// Returns the offset of the first byte that is not ASCII. Most texts are ASCII, which is tested
/// many bytes at once.
pub(crate) fn high_byte(bytes: &[u8]) -> Option<usize>
    ensures { result ≡ first_byte is_high bytes.now }
{
    if bytes.is_ascii() {
        return None;
    }
    bytes.iter().position(|byte| *byte >= 128)
}

/// Returns the offset of the first control character that is no tab and no byte of a line end.
pub(crate) fn control_byte(bytes: &[u8]) -> Option<usize>
    ensures { result ≡ first_byte is_control bytes.now }
{
    let from = plain_len(bytes);
    match bytes[from..].iter().position(|byte| is_control(*byte)) {
        Some(place) => Some(from + place),
        None => None,
    }
}

/// Returns the number of bytes in the vectors at the front that have no such character.
fn plain_len(bytes: &[u8]) -> usize
    ensures passed { first_place (begins is_control) bytes.now
        ≡ result + first_place (begins is_control) (drop result bytes.now) }
    ensures bounds { result ≤ length bytes.now }
{
    let mut at = 0;
    'vectors: while bytes.len() - at >= LANES {
        if control_lanes(u8x16::from_slice(&bytes[at..])) != 0 {
            break;
        }
        at += LANES;
    }
    at
}

/// Returns the mask of such characters among the bytes of a vector.
#[inline(always)]
fn control_lanes(bytes: u8x16) -> u64
    ensures { result ≡ lane_mask is_control bytes }
{
    let low = bytes.simd_lt(u8x16::splat(9)) | bytes.simd_eq(u8x16::splat(127));
    let feeds = bytes.simd_eq(u8x16::splat(11)) | bytes.simd_eq(u8x16::splat(12));
    let high = bytes.simd_ge(u8x16::splat(14)) & bytes.simd_lt(u8x16::splat(32));
    (low | feeds | high).to_bitmask()
}

/// Returns whether a byte is such a control character.
#[inline(always)]
pub(crate) fn is_control(byte: u8) -> bool
    ensures { result ≡ is_control byte }
{
    (byte < 32 && !(byte == b'\t' || byte == b'\n' || byte == b'\r')) || byte == 127
}

/// Returns the earlier of two offsets, if there is one of them.
pub(crate) fn earlier(first: Option<usize>, second: Option<usize>) -> Option<usize>
    ensures { result ≡ earlier first second }
{
    match (first, second) {
        (None, second) => second,
        (Some(place), None) => Some(place),
        (Some(place), Some(other)) => Some(if other < place { other } else { place }),
    }
}

/// Returns the later of two offsets, if there are both.
pub(crate) fn later(first: Option<usize>, second: Option<usize>) -> Option<usize>
    ensures { result ≡ later first second }
{
    match (first, second) {
        (Some(place), Some(other)) => Some(if place < other { other } else { place }),
        _ => None,
    }
}

/// Returns whether two texts are equal, ignoring ASCII case. Most have other lengths, which are
/// compared without a call, and most that are equal are spelled in the same way.
#[inline(always)]
#[tactic(auto, using(crate::proofs::lemmas::SameTexts::other_length, crate::proofs::lemmas::SameTexts::same_spelling))]
pub(crate) fn is_same(text: &[u8], other: &[u8]) -> bool
    ensures { result ≡ str_eq_ignore_ascii_case text.now other.now }
{
    text.len() == other.len() && (text == other || text.eq_ignore_ascii_case(other))
}

/// Returns the bytes from an offset onwards, or none if there are fewer.
#[inline(always)]
pub(crate) fn from_offset(bytes: &[u8], at: usize) -> &[u8]
    ensures { result.now ≡ drop at bytes.now }
{
    if at < bytes.len() {
        &bytes[at..]
    } else {
        &bytes[bytes.len()..]
    }
}

/// Returns the number of blanks at the front.
#[inline(always)]
pub(crate) fn blank_count(bytes: &[u8]) -> usize
    ensures value { result ≡ first_place (begins (λ b. not (is_blank b))) bytes.now }
    ensures bounds { result ≤ length bytes.now }
{
    bytes
        .iter()
        .position(|byte| *byte != b' ' && *byte != b'\t')
        .unwrap_or(bytes.len())
}

/// Returns whether nothing of a line is left: whether the bytes begin with a line end or are at
/// their end.
#[inline(always)]
pub(crate) fn is_line_left(rest: &[u8]) -> bool
    ensures { result ≡ is_line_left rest.now }
{
    rest.is_empty() || rest.starts_with(b"\n") || rest.starts_with(b"\r\n")
}

/// Returns whether a byte is a blank.
#[inline(always)]
pub(crate) fn is_blank(byte: u8) -> bool
    ensures { result ≡ is_blank byte }
{
    byte == b' ' || byte == b'\t'
}
