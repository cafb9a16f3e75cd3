//! The text of a JSON string between its quotation marks: runs of bytes, and escapes (RFC 8259,
//! section 7).
ghost use Rattle.std.specs.Prelude.{◌≡◌, ◌<◌, length, slice_index};
ghost use Rattle.std.specs.Char.{digit_char};
ghost use Rattle.mail_codec.specs.Hidden.{is_hidden};
ghost use Rattle.mail_json_text.specs.JsonText.{begins_three, begins_two, byte_text, escaped};
ghost use Rattle.mail_json_text.specs.JsonText.{first_text, four_digits, more_bytes, three_number};
ghost use Rattle.mail_json_text.specs.JsonText.{two_number, unicode_escape};
ghost use Rattle.mail_program.specs.Streams.{Writes};

use mail_codec::bytescan::find_escape;
use mail_codec::hidden::is_hidden;
use mail_program::Fault;
use std::io::Write;

/// Writes the text of a string between its quotation marks. Each run of bytes that need no escape
/// is written as it is.
pub(crate) fn write_escaped<W: Write>(out: &mut W, bytes: &[u8]) -> Result<(), Fault>
    ensures { Writes (W.contents out.old) (W.contents out.new) result (escaped bytes.now) }
{
    let mut at = 0;
    'runs: while let Some(passed) = find_escape(&bytes[at..]) {
        let place = at + passed;
        write_bytes(out, &bytes[at..place])?;
        write_first(out, &bytes[place..])?;
        at = place + 1 + more_bytes(&bytes[place..]);
    }
    write_bytes(out, &bytes[at..])
}

/// Writes the text of the first byte, or of the whole character if the bytes begin with a hidden
/// one that is not in ASCII.
#[inline(always)]
#[tactic(auto, unfolding(crate::specs::JsonText::first_text))]
fn write_first<W: Write>(out: &mut W, bytes: &[u8]) -> Result<(), Fault>
    ensures { Writes (W.contents out.old) (W.contents out.new) result (first_text bytes.now) }
{
    if begins_two(bytes) {
        return write_number(out, two_number(bytes));
    }
    if begins_three(bytes) {
        return write_number(out, three_number(bytes));
    }
    write_byte(out, byte_at(bytes, 0))
}

/// Returns the number of bytes after the first that this text is for.
#[inline(always)]
#[tactic(auto, unfolding(crate::specs::JsonText::more_bytes))]
fn more_bytes(bytes: &[u8]) -> usize
    requires { 0 < length bytes.now }
    ensures value { result ≡ more_bytes bytes.now }
    ensures bounds { result < length bytes.now }
{
    if begins_two(bytes) {
        1
    } else if begins_three(bytes) {
        2
    } else {
        0
    }
}

/// Returns whether the bytes begin with a hidden character of two bytes.
#[inline(always)]
fn begins_two(bytes: &[u8]) -> bool
    ensures { result ≡ begins_two bytes.now }
{
    (byte_at(bytes, 0) == 0xC2 || byte_at(bytes, 0) == 0xD8)
        && (byte_at(bytes, 1) / 64 == 2 && is_hidden_number(two_number(bytes)))
}

/// Returns whether the bytes begin with a hidden character of three bytes.
#[inline(always)]
fn begins_three(bytes: &[u8]) -> bool
    ensures { result ≡ begins_three bytes.now }
{
    byte_at(bytes, 0) == 0xE2
        && ((byte_at(bytes, 1) == 0x80 || byte_at(bytes, 1) == 0x81)
            && (byte_at(bytes, 2) / 64 == 2 && is_hidden_number(three_number(bytes))))
}

/// Returns the number of the character of two bytes at the start.
#[inline(always)]
fn two_number(bytes: &[u8]) -> u16
    ensures value { result ≡ two_number bytes.now }
    ensures bounds { result < 0x3000 }
{
    u16::from(byte_at(bytes, 0) % 32) * 64 + u16::from(byte_at(bytes, 1) % 64)
}

/// Returns the number of the character of three bytes at the start, the first of which is E2.
#[inline(always)]
fn three_number(bytes: &[u8]) -> u16
    ensures value { result ≡ three_number bytes.now }
    ensures bounds { result < 0x3000 }
{
    0x2000 + u16::from(byte_at(bytes, 1) % 64) * 64 + u16::from(byte_at(bytes, 2) % 64)
}

/// Returns whether the character with this number is hidden.
#[inline(always)]
fn is_hidden_number(number: u16) -> bool
    requires { number < 0x3000 }
    ensures { result ≡ is_hidden number }
{
    match char::from_u32(u32::from(number)) {
        Some(character) => is_hidden(character),
        None => true,
    }
}

/// Returns the byte at an offset, or 0 past the end.
#[inline(always)]
fn byte_at(bytes: &[u8], at: usize) -> u8
    ensures { result ≡ slice_index bytes.now at }
{
    if at < bytes.len() { bytes[at] } else { 0 }
}

/// Writes the text of a byte: its shortest escape, or the byte itself.
#[inline(always)]
#[tactic(auto, unfolding(json::specs::Print::escape_byte))]
fn write_byte<W: Write>(out: &mut W, byte: u8) -> Result<(), Fault>
    ensures { Writes (W.contents out.old) (W.contents out.new) result (byte_text byte) }
{
    match byte {
        b'\n' => write_bytes(out, b"\\n"),
        b'"' => write_bytes(out, b"\\\""),
        b'\\' => write_bytes(out, b"\\\\"),
        b'\t' => write_bytes(out, b"\\t"),
        b'\r' => write_bytes(out, b"\\r"),
        8 => write_bytes(out, b"\\b"),
        12 => write_bytes(out, b"\\f"),
        0..=31 | 127 => write_unicode(out, 0, byte),
        _ => write_bytes(out, &[byte]),
    }
}

/// Writes `\u` and the four digits of a number.
fn write_number<W: Write>(out: &mut W, number: u16) -> Result<(), Fault>
    ensures { Writes (W.contents out.old) (W.contents out.new) result (four_digits number) }
{
    write_unicode(out, (number / 256) as u8, (number % 256) as u8)
}

/// Writes `\u` and the digits of two bytes.
fn write_unicode<W: Write>(out: &mut W, upper: u8, lower: u8) -> Result<(), Fault>
    ensures { Writes (W.contents out.old) (W.contents out.new) result (unicode_escape upper lower) }
{
    let (first, second) = (digit_char(upper / 16), digit_char(upper % 16));
    let (third, fourth) = (digit_char(lower / 16), digit_char(lower % 16));
    write_bytes(out, &[b'\\', b'u', first, second, third, fourth])
}

/// Returns the hexadecimal digit of a number.
fn digit_char(number: u8) -> u8
    requires { number < 16 }
    ensures { result ≡ digit_char number }
{
    if number < 10 {
        b'0' + number
    } else {
        b'a' - 10 + number
    }
}

/// Writes bytes as they are.
#[inline(always)]
pub(crate) fn write_bytes<W: Write>(out: &mut W, bytes: &[u8]) -> Result<(), Fault>
    ensures { Writes (W.contents out.old) (W.contents out.new) result bytes.now }
{
    out.write_all(bytes)?;
    Ok(())
}
