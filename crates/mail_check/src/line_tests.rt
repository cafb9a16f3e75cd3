//! Lines that mail servers or other programs may change, by how they begin or how long they are.
ghost use Rattle.std.specs.Prelude.{◌≡◌, ◌<◌, ◌≤◌, ◌-◌, ◌==◌, drop, is_some, length, not, true};
ghost use Rattle.std.specs.List.{suffix_len};
ghost use Rattle.mail_codec.specs.Ascii.{line_feed};
ghost use Rattle.mail_codec.specs.Places.{begins};
ghost use Rattle.mail_check.specs.LineTests.{begins_file, feed_offset, first_line, has_mode};
ghost use Rattle.mail_check.specs.LineTests.{is_long_line, is_octal, line_size, next};
ghost use Rattle.mail_check.specs.private.Patterns.{is_begin, matches_at};
ghost use Rattle.mail_check.specs.Bytes.{byte_at, first_offset};

use crate::scan::{Pattern, byte_at, first_match, from_offset};
use mail_codec::bytescan::{find_byte, find_pair};

/// The least number of bytes that a long line has.
const LONG: usize = 999;

/// Returns the offset of the first line of more than 998 bytes. If a LF is among the next 999 bytes,
/// no line that ends there is long, so only the last LF among them is searched.
pub(crate) fn long_line(bytes: &[u8]) -> Option<usize>
    ensures { result ≡ first_line is_long_line bytes.now }
{
    let mut from = 0;
    'windows: while bytes.len() - from >= LONG {
        let size = lines_size(&bytes[from..from + LONG]);
        if size == 0 {
            return match first_long(&bytes[from..]) {
                Some(offset) => Some(from + offset),
                None => None,
            };
        }
        from += size;
    }
    None
}

/// Returns the number of bytes up to the last LF and with it, or 0 if there is none.
fn lines_size(window: &[u8]) -> usize
    ensures value { result
        ≡ length window.now - suffix_len (λ b. not (b == line_feed)) window.now }
    ensures feed { 0 < result → byte_at window.now (result - 1) line_feed ≡ true }
    ensures bounds { result ≤ length window.now }
{
    match window.iter().rposition(|byte| *byte == b'\n') {
        Some(last) => last + 1,
        None => 0,
    }
}

/// Returns the offset of the first line of more than 998 bytes. Each line is measured.
fn first_long(bytes: &[u8]) -> Option<usize>
    ensures { result ≡ first_line is_long_line bytes.now }
{
    if is_long_line(bytes) {
        return Some(0);
    }
    next_match(Pattern::LongLine, bytes)
}

/// Returns the offset of the first line that begins a file.
pub(crate) fn file_line(bytes: &[u8]) -> Option<usize>
    ensures { result ≡ first_line begins_file bytes.now }
{
    if !has_begin(bytes) {
        return None;
    }
    if begins_file(bytes) {
        return Some(0);
    }
    next_match(Pattern::FileLine, bytes)
}

/// Returns whether `begin` occurs, which each such line contains. The pair in its middle is
/// searched, since it is rare.
fn has_begin(bytes: &[u8]) -> bool
    ensures { result ≡ is_some (first_offset (is_begin bytes.now) bytes.now) }
{
    let mut from = 0;
    'pairs: while let Some(next) = find_pair(&bytes[from..], b'g', b'i') {
        let place = from + next;
        if is_begin(bytes, place) {
            return true;
        }
        from = place + 1;
    }
    false
}

/// Returns whether `begin` occurs with its third byte at an offset.
fn is_begin(bytes: &[u8], at: usize) -> bool
    requires within { at < length bytes.now }
    ensures { result ≡ is_begin bytes.now at }
{
    at > 1 && bytes[at - 2..].starts_with(b"begin")
}

/// Returns the offset after the first occurrence of a pattern.
fn next_match(pattern: Pattern, bytes: &[u8]) -> Option<usize>
    ensures { result ≡ next (first_offset (matches_at pattern bytes.now) bytes.now) }
{
    match first_match(pattern, bytes) {
        Some(place) => Some(place + 1),
        None => None,
    }
}

/// Returns whether the line at the front has more than 998 bytes.
pub(crate) fn is_long_line(rest: &[u8]) -> bool
    ensures { result ≡ is_long_line rest.now }
{
    line_size(rest) > 998
}

/// Returns the number of bytes of the line at the front, without a LF and a CR at its end.
fn line_size(rest: &[u8]) -> usize
    ensures { result ≡ line_size rest.now }
{
    let size = feed_offset(rest);
    if size > 0 && byte_at(rest, size - 1, b'\r') {
        size - 1
    } else {
        size
    }
}

/// Returns the number of bytes before the first LF.
fn feed_offset(rest: &[u8]) -> usize
    ensures { result ≡ feed_offset rest.now }
{
    find_byte(rest, b'\n').unwrap_or(rest.len())
}

/// Returns whether the line at the front begins a file: in uuencode, Base64 or yEnc.
pub(crate) fn begins_file(rest: &[u8]) -> bool
    ensures { result ≡ begins_file rest.now }
{
    (rest.starts_with(b"begin ") && has_mode(from_offset(rest, 6)))
        || (rest.starts_with(b"begin-base64 ") && has_mode(from_offset(rest, 13)))
        || rest.starts_with(b"=ybegin ")
}

/// Returns whether three or four digits of a mode and a space are at the front.
fn has_mode(rest: &[u8]) -> bool
    ensures { result ≡ has_mode rest.now }
{
    octal_at(rest, 0)
        && octal_at(rest, 1)
        && octal_at(rest, 2)
        && (byte_at(rest, 3, b' ') || (octal_at(rest, 3) && byte_at(rest, 4, b' ')))
}

/// Returns whether a digit of a mode is at an offset.
fn octal_at(bytes: &[u8], at: usize) -> bool
    ensures { result ≡ begins is_octal (drop at bytes.now) }
{
    match bytes.get(at) {
        Some(byte) => is_octal(*byte),
        None => false,
    }
}

/// Returns whether a byte is a digit of a mode.
fn is_octal(byte: u8) -> bool
    ensures { result ≡ is_octal byte }
{
    byte >= b'0' && byte <= b'7'
}
