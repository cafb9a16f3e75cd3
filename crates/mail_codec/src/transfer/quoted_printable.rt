//! Quoted-printable, over bytes (RFC 2045, section 6.7).
ghost use Rattle.std.specs.Prelude.{◌≡◌, ◌↔◌, ◌+◌, ◌*◌, ◌<◌, ◌≤◌, ◌≢◌, ◌-◌, ◌++◌, length, take, drop, slice_index, None, IfOk, OnOk, unwrap_or};
ghost use Rattle.std.specs.List.{suffix_len};
ghost use Rattle.mail_codec.specs.Ascii.{equals_sign, is_blank};
ghost use Rattle.mail_codec.specs.Places.{begins, first_place};
ghost use Rattle.mail_codec.specs.QuotedPrintable.{digit_value, ended_line, first_escape, line_bytes, quoted_printable};
ghost use Rattle.mail_codec.specs.private.QuotedPrintable.{is_special, HasNoEscape, IsSoftBreak};

mod blocks;

use crate::vectors::LANES;
use crate::vectors::masks::{either_lanes, first_lane, first_match};
use blocks::put_blocks;
use std::alloc::{AllocError, Global};
use std::simd::prelude::*;

/// The size of the buffer that is filled before it is appended. The standard's lines are shorter.
const BUFFER: usize = 4096;

/// The table's value for a byte that is not a digit: with it, two digits do not make a byte.
const NO_DIGIT: u32 = 1000;

/// The value of each byte that is a hexadecimal digit, of either case.
static DIGIT_VALUES: [u32; 256] = [
    1000, 1000, 1000, 1000, 1000, 1000, 1000, 1000, 1000, 1000, 1000, 1000, 1000, 1000, 1000, 1000,
    1000, 1000, 1000, 1000, 1000, 1000, 1000, 1000, 1000, 1000, 1000, 1000, 1000, 1000, 1000, 1000,
    1000, 1000, 1000, 1000, 1000, 1000, 1000, 1000, 1000, 1000, 1000, 1000, 1000, 1000, 1000, 1000,
    0x00, 0x01, 0x02, 0x03, 0x04, 0x05, 0x06, 0x07, 0x08, 0x09, 1000, 1000, 1000, 1000, 1000, 1000,
    1000, 0x0A, 0x0B, 0x0C, 0x0D, 0x0E, 0x0F, 1000, 1000, 1000, 1000, 1000, 1000, 1000, 1000, 1000,
    1000, 1000, 1000, 1000, 1000, 1000, 1000, 1000, 1000, 1000, 1000, 1000, 1000, 1000, 1000, 1000,
    1000, 0x0A, 0x0B, 0x0C, 0x0D, 0x0E, 0x0F, 1000, 1000, 1000, 1000, 1000, 1000, 1000, 1000, 1000,
    1000, 1000, 1000, 1000, 1000, 1000, 1000, 1000, 1000, 1000, 1000, 1000, 1000, 1000, 1000, 1000,
    1000, 1000, 1000, 1000, 1000, 1000, 1000, 1000, 1000, 1000, 1000, 1000, 1000, 1000, 1000, 1000,
    1000, 1000, 1000, 1000, 1000, 1000, 1000, 1000, 1000, 1000, 1000, 1000, 1000, 1000, 1000, 1000,
    1000, 1000, 1000, 1000, 1000, 1000, 1000, 1000, 1000, 1000, 1000, 1000, 1000, 1000, 1000, 1000,
    1000, 1000, 1000, 1000, 1000, 1000, 1000, 1000, 1000, 1000, 1000, 1000, 1000, 1000, 1000, 1000,
    1000, 1000, 1000, 1000, 1000, 1000, 1000, 1000, 1000, 1000, 1000, 1000, 1000, 1000, 1000, 1000,
    1000, 1000, 1000, 1000, 1000, 1000, 1000, 1000, 1000, 1000, 1000, 1000, 1000, 1000, 1000, 1000,
    1000, 1000, 1000, 1000, 1000, 1000, 1000, 1000, 1000, 1000, 1000, 1000, 1000, 1000, 1000, 1000,
    1000, 1000, 1000, 1000, 1000, 1000, 1000, 1000, 1000, 1000, 1000, 1000, 1000, 1000, 1000, 1000,
];

/// Returns the bytes that a quoted-printable text encodes (RFC 2045, section 6.7).
///
/// On each line, the spaces and tabs at its end are removed, then a final `=` together with the
/// line end, which is LF or CR LF. Then, from the left, each `=` with two hexadecimal digits of
/// either case becomes one byte. Every other byte is kept, so no text is refused. Allocates the
/// bytes, all at once; if the text has four kilobytes or more without a line end or an escape, up
/// to as much again temporarily.
///
/// # Errors
///
/// `AllocError` if it runs out of memory.
///
/// # Examples
///
/// ```rust
/// use mail_codec::transfer::decode_quoted_printable;
///
/// let bytes = decode_quoted_printable(alloc, b"caf=C3=A9=\r\n!  \n")?;
/// assert_eq!(rt; bytes.as_slice(), "café!\n".as_bytes());
/// ```
pub fn decode_quoted_printable(alloc: Global, text: &[u8]) -> Result<Vec<u8>, AllocError>
    ensures { IfOk result (λ bytes. bytes.items ≡ quoted_printable text.now) }
{
    if text.len() <= BUFFER {
        decode_at_once(alloc, text)
    } else {
        decode_by_buffers(alloc, text)
    }
}

/// Does the same with a list that is at first as long as the text.
fn decode_at_once(alloc: Global, text: &[u8]) -> Result<Vec<u8>, AllocError>
    ensures { IfOk result (λ bytes. bytes.items ≡ quoted_printable text.now) }
{
    let mut bytes = vec![in alloc; 0u8; text.len() + 1]?;
    let (len, _end) = put_lines(bytes.as_mut_slice(), text, 0);
    bytes.truncate(len);
    Ok(bytes)
}

/// Does the same with a buffer that is filled and appended in turn. If the text before a line end
/// or an escape does not fit into the buffer, the rest is decoded at once.
fn decode_by_buffers(alloc: Global, text: &[u8]) -> Result<Vec<u8>, AllocError>
    ensures { IfOk result (λ bytes. bytes.items ≡ quoted_printable text.now) }
{
    let mut bytes = Vec::with_capacity(alloc, text.len())?;
    let mut buffer = [0u8; BUFFER];
    let mut at = 0;
    'buffers: while at < text.len() {
        let (len, next) = put_lines(&mut buffer, text, at);
        if next == at {
            push_at_once(alloc, &mut bytes, &text[at..])?;
            return Ok(bytes);
        }
        bytes.extend_from_slice(&buffer[..len])?;
        at = next;
    }
    Ok(bytes)
}

/// Appends the bytes that a text encodes.
fn push_at_once(alloc: Global, bytes: &mut Vec<u8>, text: &[u8]) -> Result<(), AllocError>
    ensures { OnOk result (bytes.new.items ≡ bytes.old.items ++ quoted_printable text.now) }
{
    let rest = decode_at_once(alloc, text)?;
    bytes.extend_from_slice(rest.as_slice())?;
    Ok(())
}

/// Decodes the text from `from` onwards to the start of `output` until the buffer is full. Returns
/// the number of bytes written, and the offset where the text goes on. Here and below, the bytes
/// after them may be overwritten. After whole blocks the rest is read special byte by special byte.
///
/// The bytes copied since the last line end or escape, those from `plain` onwards, are dropped if a
/// line end shows that they are not kept, or if the buffer is full before the line ends.
fn put_lines(output: &mut [u8], text: &[u8], from: usize) -> (usize, usize)
    requires within { from ≤ length text.now }
    ensures bounds { result.1 ≤ length text.now }
    ensures after { from ≤ result.1 }
    ensures fits { result.0 ≤ length output.old }
    ensures whole { length text.now - from < length output.old → result.1 ≡ length text.now }
    ensures read { take result.0 output.new ++ quoted_printable (drop result.1 text.now)
        ≡ quoted_printable (drop from text.now) }
{
    let end = from + (text.len() - from).min(output.len());
    let read = put_blocks(output, text, from, end);
    let mut len = read.len;
    let mut plain = read.plain;
    let mut at = read.at;
    'specials: while at < end {
        let place = len + (at - plain);
        at += put_run(&mut output[place..], &text[at..end]);
        if at == end {
            continue;
        }
        if text[at] == b'\n' {
            len += put_ended_line(&mut output[len..], &text[plain..at]);
            at += 1;
            plain = at;
            continue;
        }
        let sign = len + (at - plain);
        let count = put_escapes(&mut output[sign..], text, at);
        let next = after_soft_break(text, at + 3 * count);
        if next == at {
            output[sign] = b'=';
            at += 1;
            continue;
        }
        len = sign + count;
        at = next;
        plain = next;
    }
    if at < text.len() {
        return (len, plain);
    }
    len += put_line(&mut output[len..], &text[plain..at], b"");
    (len, at)
}

/// Writes the bytes of the consecutive escapes from a `=` onwards until the buffer is full. Returns
/// their number.
#[inline(always)]
fn put_escapes(output: &mut [u8], text: &[u8], from: usize) -> usize
    requires capacity { 0 < length output.old }
    requires within { from < length text.now }
    requires sign { slice_index text.now from ≡ equals_sign }
    ensures bounds { from + 3 * result ≤ length text.now }
    ensures fits { result ≤ length output.old }
    ensures first { (result ≡ 0) ↔ (first_escape (drop from text.now) ≡ None) }
    ensures read { take result output.new ++ quoted_printable (drop (from + 3 * result) text.now)
        ≡ quoted_printable (drop from text.now) }
{
    let most = output.len().min((text.len() - from) / 3);
    let mut count = 0;
    'escapes: while count < most {
        let at = from + 3 * count;
        if text[at] != b'=' {
            return count;
        }
        let Some(byte) = escape_at(text, at) else {
            return count;
        };
        output[count] = byte;
        count += 1;
    }
    count
}

/// Returns the offset after the soft line break at `at`, which is a `=` and the line end after it;
/// or `at` if there is none.
#[inline(always)]
fn after_soft_break(text: &[u8], at: usize) -> usize
    requires within { at ≤ length text.now }
    ensures bounds { (at ≤ result) × (result ≤ length text.now) }
    ensures near { result ≤ at + 3 }
    ensures soft { result ≢ at → IsSoftBreak text.now at result }
{
    if text.len() - at < 2 || text[at] != b'=' {
        return at;
    }
    if text[at + 1] == b'\n' {
        return at + 2;
    }
    if text[at + 1] != b'\r' || text.len() - at < 3 || text[at + 2] != b'\n' {
        return at;
    }
    at + 3
}

/// Turns the bytes of a piece, which have been copied, into those of its line, whose LF follows the
/// piece: a CR at its end is part of the line end.
#[inline(always)]
fn put_ended_line(output: &mut [u8], piece: &[u8]) -> usize
    requires capacity { length piece.now < length output.old }
    requires copied { take (length piece.now) output.old ≡ piece.now }
    requires plain { HasNoEscape piece.now }
    ensures written { take result output.new ≡ line_bytes (ended_line piece.now) }
    ensures bounds { result ≤ length piece.now + 1 }
{
    if let Some(content) = piece.strip_suffix(b"\r") {
        return put_line(output, content, b"\r\n");
    }
    put_line(output, piece, b"\n")
}

/// Turns the bytes of a line's content, which have been copied, into those of the line.
#[inline(always)]
fn put_line(output: &mut [u8], content: &[u8], ending: &[u8]) -> usize
    requires capacity { length content.now + length ending.now ≤ length output.old }
    requires copied { take (length content.now) output.old ≡ content.now }
    requires plain { HasNoEscape content.now }
    ensures written { take result output.new
        ≡ line_bytes (record { content = content.now; ending = ending.now }) }
    ensures bounds { result ≤ length content.now + length ending.now }
{
    let kept = &content[..trimmed_len(content)];
    match kept.strip_suffix(b"=") {
        Some(joined) => joined.len(),
        None => {
            let len = kept.len();
            output[len..len + ending.len()].copy_from_slice(ending);
            len + ending.len()
        }
    }
}

/// Returns the number of bytes before the spaces and tabs at the end.
fn trimmed_len(content: &[u8]) -> usize
    ensures len { result ≡ length content.now - suffix_len is_blank content.now }
    ensures bounds { result ≤ length content.now }
{
    match content.iter().rposition(|byte| !is_blank(*byte)) {
        Some(last) => last + 1,
        None => 0,
    }
}

/// Whether the byte is a space or a tab.
fn is_blank(byte: u8) -> bool
    ensures { result ≡ is_blank byte }
{
    byte == b' ' || byte == b'\t'
}

/// Writes the bytes before the first `=` or LF, or all bytes if there is none. Each vector is
/// written whole before it is searched, so that a copy of a few bytes has a known length.
#[inline(always)]
fn put_run(output: &mut [u8], bytes: &[u8]) -> usize
    requires capacity { length bytes.now ≤ length output.old }
    ensures written { take result output.new ≡ take result bytes.now }
    ensures least { result ≡ first_place (begins is_special) bytes.now }
    ensures bounds { result ≤ length bytes.now }
{
    let mut at = 0;
    'vectors: while bytes.len() - at >= LANES {
        let vector = u8x16::from_slice(&bytes[at..]);
        vector.copy_to_slice(&mut output[at..]);
        let place = first_lane(either_lanes(vector, b'=', b'\n'));
        if place != LANES {
            return at + place;
        }
        at += LANES;
    }
    at + put_words(&mut output[at..], &bytes[at..])
}

/// Does the same by words.
#[inline(always)]
fn put_words(output: &mut [u8], bytes: &[u8]) -> usize
    requires capacity { length bytes.now ≤ length output.old }
    ensures written { take result output.new ≡ take result bytes.now }
    ensures least { result ≡ first_place (begins is_special) bytes.now }
    ensures bounds { result ≤ length bytes.now }
{
    let (words, tail) = bytes.as_chunks::<8>();
    let mut at = 0;
    for word in words {
        output[at..at + 8].copy_from_slice(word);
        let mask = either_lanes(u8x8::from_array(*word), b'=', b'\n');
        if mask != 0 {
            return at + first_match(mask);
        }
        at += 8;
    }
    at + put_tail(&mut output[at..], tail)
}

/// Does the same byte by byte.
#[inline(always)]
fn put_tail(output: &mut [u8], tail: &[u8]) -> usize
    requires capacity { length tail.now ≤ length output.old }
    ensures written { take result output.new ≡ take result tail.now }
    ensures least { result ≡ first_place (begins is_special) tail.now }
    ensures bounds { result ≤ length tail.now }
{
    for (place, byte) in tail.iter().enumerate() {
        if *byte == b'=' || *byte == b'\n' {
            return place;
        }
        output[place] = *byte;
    }
    tail.len()
}

/// Returns the byte of the escape at `at`, where a `=` is followed by two bytes or more.
#[inline(always)]
fn escape_at(text: &[u8], at: usize) -> Option<u8>
    requires within { at + 3 ≤ length text.now }
    requires sign { slice_index text.now at ≡ equals_sign }
    ensures read { result ≡ first_escape (drop at text.now) }
{
    let value = digit_value(text[at + 1]) * 16 + digit_value(text[at + 2]);
    if value >= NO_DIGIT {
        return None;
    }
    Some(value as u8)
}

/// Returns the value of a hexadecimal digit of either case, or 1000 for another byte.
#[inline(always)]
fn digit_value(digit: u8) -> u32
    ensures read { result ≡ unwrap_or (digit_value digit) 1000 }
    ensures bounds { result ≤ 1000 }
{
    DIGIT_VALUES[digit as usize]
}
