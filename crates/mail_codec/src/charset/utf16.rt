//! UTF-16, two bytes for each unit (the WHATWG Encoding Standard, section 14).
ghost use Rattle.std.specs.Prelude.{◌≡◌, ◌<◌, ◌≤◌, ◌∷◌, ◌++◌, length, take, drop, IsUtf8, if◌then◌else◌, IsTrue, IfOk, encode_utf8_all, string_bytes};
ghost use Rattle.std.specs.Char.Utf16.{is_high_surrogate, is_low_surrogate, surrogate_pair_char};
ghost use Rattle.mail_codec.specs.Charset.{utf_16_chars};
ghost use Rattle.mail_codec.specs.private.Utf16.{unit_of};

use super::decoder::put_char;
use std::alloc::{AllocError, Global};
use std::str;

/// The number of bytes of text that are written together.
const BUFFER: usize = 256;

/// Which byte of a unit comes first.
#[derive(Clone, Copy)]
pub(crate) enum ByteOrder {
    /// The low byte.
    Little,
    /// The high byte.
    Big,
}

impl ByteOrder {
    /// Returns the unit of two bytes.
    fn unit(self, first: u8, second: u8) -> u16
        ensures { result ≡ unit_of self first second }
    {
        match self {
            ByteOrder::Little => u16::from(second) * 256 + u16::from(first),
            ByteOrder::Big => u16::from(first) * 256 + u16::from(second),
        }
    }
}

/// Returns the text of the bytes.
pub(crate) fn decode(alloc: Global, bytes: &[u8], order: ByteOrder) -> Result<String, AllocError>
    ensures { IfOk result
        (λ t. string_bytes t ≡ encode_utf8_all (utf_16_chars (unit_of order) bytes.now)) }
{
    let mut text = String::with_capacity(alloc, bytes.len() / 2)?;
    let mut buffer = [0; BUFFER];
    let mut rest = bytes;
    'rest: while !rest.is_empty() {
        let (taken, length) = encode_front(&mut buffer, rest, order);
        // SAFETY: `encode_front` writes whole characters.
        text.push_str(unsafe { str::from_utf8_unchecked(&buffer[..length]) })?;
        rest = &rest[taken..];
    }
    Ok(text)
}

/// Writes as many characters as fit into the buffer, and returns how many bytes were read and
/// written.
fn encode_front(buffer: &mut [u8], bytes: &[u8], order: ByteOrder) -> (usize, usize)
    requires capacity { 4 ≤ length buffer.old }
    requires some { 0 < length bytes.now }
    ensures written { encode_utf8_all (utf_16_chars (unit_of order) bytes.now)
        ≡ take result.1 buffer.new
        ++ encode_utf8_all (utf_16_chars (unit_of order) (drop result.0 bytes.now)) }
    ensures utf8 { IsUtf8 (take result.1 buffer.new) }
    ensures takes_some { 0 < result.0 }
    ensures bounds { result.0 ≤ length bytes.now }
    ensures fits { result.1 ≤ length buffer.old }
{
    let mut taken = 0;
    let mut at = 0;
    while taken < bytes.len() && 4 <= buffer.len() - at {
        let (character, length) = first_char(&bytes[taken..], order);
        at = put_char(buffer, at, character);
        taken += length;
    }
    (taken, at)
}

/// Returns the character at the front, and how many bytes it takes.
fn first_char(bytes: &[u8], order: ByteOrder) -> (char, usize)
    requires { 0 < length bytes.now }
    ensures chars { utf_16_chars (unit_of order) bytes.now
        ≡ result.0 ∷ utf_16_chars (unit_of order) (drop result.1 bytes.now) }
    ensures takes_some { 0 < result.1 }
    ensures bounds { result.1 ≤ length bytes.now }
{
    let count = bytes.len();
    if count < 2 {
        return (char::REPLACEMENT_CHARACTER, 1);
    }
    let unit = order.unit(bytes[0], bytes[1]);
    if let Some(character) = char::from_u32(u32::from(unit)) {
        return (character, 2);
    }
    if 0xDC00 <= unit {
        return (char::REPLACEMENT_CHARACTER, 2);
    }
    // A high surrogate at the end, followed by at most one byte.
    if count < 4 {
        return (char::REPLACEMENT_CHARACTER, count);
    }
    match pair(unit, order.unit(bytes[2], bytes[3])) {
        Some(character) => (character, 4),
        None => (char::REPLACEMENT_CHARACTER, 2),
    }
}

/// Returns the character of a high surrogate and the unit after it, or `None` if that unit is not a
/// low surrogate.
fn pair(high: u16, low: u16) -> Option<char>
    requires { IsTrue (is_high_surrogate high) }
    ensures { result
        ≡ (if is_low_surrogate low then Some (surrogate_pair_char high low) else None) }
{
    if low < 0xDC00 || 0xE000 <= low {
        return None;
    }
    let above = (u32::from(high) - 0xD800) * 0x400 + (u32::from(low) - 0xDC00);
    char::from_u32(0x1_0000 + above)
}
