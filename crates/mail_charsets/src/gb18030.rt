//! GBK and gb18030, which decode alike (the WHATWG Encoding Standard, sections 10.1 and 10.2).
ghost use Rattle.std.specs.Prelude.{◌≡◌, ◌<◌, ◌≤◌, length, IfOk, string_bytes};
ghost use Rattle.mail_charsets.specs.Front.{characters_of, taken_of};
ghost use Rattle.mail_charsets.specs.Gb18030.{four_chars, four_pointer, gb18030_four, gb18030_is_trail, gb18030_long, gb18030_pair, gb18030_single, gb18030_text, range_code};

use crate::encoded::{Encoded, decode};
use crate::front::{
    Characters, Front, characters_at, characters_of_code, column, fault, front_or, is_within,
};
use std::alloc::{AllocError, Global};

/// The encoding under an index and ranges.
#[derive(Clone, Copy)]
struct Gb18030<'t> {
    index: &'t [u16],
    ranges: &'t [(u16, u16)],
}

impl<'t> Encoded for Gb18030<'t> {
    ghost single = { λ encoding. gb18030_single };

    ghost pairs = { λ encoding. gb18030_pair encoding.index.now };

    ghost long = { λ encoding. gb18030_long encoding.ranges.now };

    fn single(&self, byte: u8) -> Option<char> {
        if is_within(byte, 0x81, 0xFE) {
            return None;
        }
        if byte == 0x80 {
            Some('\u{20AC}')
        } else {
            Some(char::REPLACEMENT_CHARACTER)
        }
    }

    fn pair(&self, lead: u8, trail: u8) -> Characters {
        if is_trail(trail) {
            let row = usize::from(lead.saturating_sub(0x81));
            characters_at(self.index, row * 190 + column(trail))
        } else {
            Characters::Nothing
        }
    }

    fn long(&self, bytes: &[u8]) -> Option<Front> {
        if is_within(bytes[1], 0x30, 0x39) {
            Some(four(bytes, self.ranges))
        } else {
            None
        }
    }
}

/// Returns whether the byte may follow a lead byte.
fn is_trail(byte: u8) -> bool
    ensures { result ≡ gb18030_is_trail byte }
{
    is_within(byte, 0x40, 0x7E) || is_within(byte, 0x80, 0xFE)
}

/// Returns the front of bytes of which the second is a digit.
fn four(bytes: &[u8], ranges: &[(u16, u16)]) -> Front
    requires { 2 ≤ length bytes.now }
    ensures read { taken_of result ≡ gb18030_four ranges.now bytes.now }
    ensures takes_some { 0 < result.taken }
    ensures bounds { result.taken ≤ length bytes.now }
{
    if bytes.len() < 3 {
        return fault(2);
    }
    if !is_within(bytes[2], 0x81, 0xFE) {
        return fault(1);
    }
    if bytes.len() < 4 {
        return fault(3);
    }
    if !is_within(bytes[3], 0x30, 0x39) {
        return fault(1);
    }
    front_or(four_characters(ranges, pointer(bytes)), 4, 4)
}

/// Returns the pointer of four bytes.
fn pointer(bytes: &[u8]) -> u32
    requires { 4 ≤ length bytes.now }
    ensures { result ≡ four_pointer bytes.now }
{
    let first = u32::from(bytes[0].saturating_sub(0x81));
    let second = u32::from(bytes[1].saturating_sub(0x30));
    let third = u32::from(bytes[2].saturating_sub(0x81));
    let fourth = u32::from(bytes[3].saturating_sub(0x30));
    ((first * 10 + second) * 126 + third) * 10 + fourth
}

/// Returns the characters at a pointer of four bytes.
fn four_characters(ranges: &[(u16, u16)], pointer: u32) -> Characters
    ensures { characters_of result ≡ four_chars ranges.now pointer }
{
    if pointer == 7457 {
        return Characters::One('\u{E7C7}');
    }
    if pointer < 39420 {
        return characters_of_code(code(ranges, pointer));
    }
    if pointer < 189000 || 1237575 < pointer {
        return Characters::Nothing;
    }
    characters_of_code(0x1_0000 + (pointer - 189000))
}

/// Returns the code at a pointer, counted from the last range that begins at it or before it, or 0
/// if none does.
fn code(ranges: &[(u16, u16)], pointer: u32) -> u32
    requires { pointer < 39420 }
    ensures value { result ≡ range_code ranges.now 0 pointer }
    ensures bounds { result < 0x11_0000 }
{
    let mut found = 0;
    let mut at = 0;
    'rows: while at < ranges.len() && u32::from(ranges[at].0) <= pointer {
        found = u32::from(ranges[at].1) + (pointer - u32::from(ranges[at].0));
        at += 1;
    }
    found
}

/// Returns the text of the bytes in gb18030 under an index and ranges (the WHATWG Encoding
/// Standard, section 10.2).
pub(crate) fn decode_gb18030(
    alloc: Global,
    bytes: &[u8],
    index: &[u16],
    ranges: &[(u16, u16)],
) -> Result<String, AllocError>
    ensures { IfOk result
        (λ t. string_bytes t ≡ gb18030_text index.now ranges.now bytes.now) }
{
    decode(alloc, bytes, &Gb18030 { index, ranges })
}
