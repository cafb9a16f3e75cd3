//! Shift_JIS (the WHATWG Encoding Standard, section 12.3).
ghost use Rattle.std.specs.Prelude.{◌≡◌, ◌≤◌, IfOk, string_bytes};
ghost use Rattle.mail_charsets.specs.Front.{no_long, characters_of};
ghost use Rattle.mail_charsets.specs.ShiftJis.{shift_jis_chars, shift_jis_is_lead, shift_jis_is_trail, shift_jis_pair, shift_jis_row, shift_jis_single, shift_jis_text};

use crate::encoded::{Encoded, decode};
use crate::front::{
    Characters, Front, characters_at, characters_of_code, column, is_within, offset_char,
};
use std::alloc::{AllocError, Global};

/// The encoding under the index of JIS X 0208.
#[derive(Clone, Copy)]
struct ShiftJis<'t> {
    index: &'t [u16],
}

impl<'t> Encoded for ShiftJis<'t> {
    ghost single = { λ encoding. shift_jis_single };

    ghost pairs = { λ encoding. shift_jis_pair encoding.index.now };

    ghost long = { λ encoding. no_long };

    fn single(&self, byte: u8) -> Option<char> {
        if is_lead(byte) {
            return None;
        }
        if is_within(byte, 0xA1, 0xDF) {
            return Some(offset_char('\u{FF61}', byte - 0xA1));
        }
        if byte == 0x80 {
            Some('\u{80}')
        } else {
            Some(char::REPLACEMENT_CHARACTER)
        }
    }

    fn pair(&self, lead: u8, trail: u8) -> Characters {
        if is_trail(trail) {
            characters(self.index, row(lead) * 188 + column(trail))
        } else {
            Characters::Nothing
        }
    }

    fn long(&self, _bytes: &[u8]) -> Option<Front> {
        None
    }
}

/// Returns whether the byte is a lead byte.
fn is_lead(byte: u8) -> bool
    ensures { result ≡ shift_jis_is_lead byte }
{
    is_within(byte, 0x81, 0x9F) || is_within(byte, 0xE0, 0xFC)
}

/// Returns whether the byte may follow a lead byte.
fn is_trail(byte: u8) -> bool
    ensures { result ≡ shift_jis_is_trail byte }
{
    is_within(byte, 0x40, 0x7E) || is_within(byte, 0x80, 0xFC)
}

/// Returns the row of a lead byte.
fn row(lead: u8) -> usize
    ensures value { result ≡ shift_jis_row lead }
    ensures bounds { result ≤ 255 }
{
    let first = if lead < 0xA0 { 0x81 } else { 0xC1 };
    usize::from(lead.saturating_sub(first))
}

/// Returns the characters at a pointer.
fn characters(index: &[u16], pointer: usize) -> Characters
    ensures { characters_of result ≡ shift_jis_chars index.now pointer }
{
    if 8836 <= pointer && pointer <= 10715 {
        characters_of_code(0xE000 + (pointer - 8836) as u32)
    } else {
        characters_at(index, pointer)
    }
}

/// Returns the text of the bytes in Shift_JIS under an index of JIS X 0208 (the WHATWG Encoding
/// Standard, section 12.3).
pub(crate) fn decode_shift_jis(
    alloc: Global,
    bytes: &[u8],
    index: &[u16],
) -> Result<String, AllocError>
    ensures { IfOk result (λ t. string_bytes t ≡ shift_jis_text index.now bytes.now) }
{
    decode(alloc, bytes, &ShiftJis { index })
}
