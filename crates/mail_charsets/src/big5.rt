//! Big5 (the WHATWG Encoding Standard, section 11.1).
ghost use Rattle.std.specs.Prelude.{◌≡◌, ◌<◌, ◌≤◌, IfOk, string_bytes};
ghost use Rattle.mail_charsets.specs.Front.{characters_of, no_long};
ghost use Rattle.mail_charsets.specs.Big5.{big5_chars, big5_column, big5_entry_chars, big5_is_trail, big5_pair, big5_single, big5_text};

use crate::encoded::{Encoded, decode};
use crate::front::{Characters, Front, characters_of_code, entry_at, is_within};
use std::alloc::{AllocError, Global};

/// The encoding under its two indexes.
#[derive(Clone, Copy)]
struct Big5<'t> {
    index: &'t [u16],
    plane: &'t [u16],
}

impl<'t> Encoded for Big5<'t> {
    ghost single = { λ encoding. big5_single };

    ghost pairs = { λ encoding. big5_pair encoding.index.now encoding.plane.now };

    ghost long = { λ encoding. no_long };

    fn single(&self, byte: u8) -> Option<char> {
        if is_within(byte, 0x81, 0xFE) {
            None
        } else {
            Some(char::REPLACEMENT_CHARACTER)
        }
    }

    fn pair(&self, lead: u8, trail: u8) -> Characters {
        if is_trail(trail) {
            let row = usize::from(lead.saturating_sub(0x81));
            characters(self.index, self.plane, row * 157 + column(trail))
        } else {
            Characters::Nothing
        }
    }

    fn long(&self, _bytes: &[u8]) -> Option<Front> {
        None
    }
}

/// Returns whether the byte may follow a lead byte.
fn is_trail(byte: u8) -> bool
    ensures { result ≡ big5_is_trail byte }
{
    is_within(byte, 0x40, 0x7E) || is_within(byte, 0xA1, 0xFE)
}

/// Returns the column of a trail byte.
fn column(trail: u8) -> usize
    ensures value { result ≡ big5_column trail }
    ensures bounds { result ≤ 255 }
{
    let first = if trail < 0x7F { 0x40 } else { 0x62 };
    usize::from(trail.saturating_sub(first))
}

/// Returns the characters at a pointer.
fn characters(index: &[u16], plane: &[u16], pointer: usize) -> Characters
    ensures { characters_of result ≡ big5_chars index.now plane.now pointer }
{
    match pointer {
        1133 => Characters::Two('\u{CA}', '\u{304}'),
        1135 => Characters::Two('\u{CA}', '\u{30C}'),
        1164 => Characters::Two('\u{EA}', '\u{304}'),
        1166 => Characters::Two('\u{EA}', '\u{30C}'),
        _ => entry_characters(plane, entry_at(index, pointer)),
    }
}

/// Returns the characters of an entry of the index.
fn entry_characters(plane: &[u16], entry: u16) -> Characters
    ensures { characters_of result ≡ big5_entry_chars plane.now entry }
{
    if entry < 0xD800 || 0xDFFF < entry {
        return characters_of_code(u32::from(entry));
    }
    characters_of_code(0x2_0000 + u32::from(entry_at(plane, usize::from(entry - 0xD800))))
}

/// Returns the text of the bytes in Big5 under its two indexes (the WHATWG Encoding Standard,
/// section 11.1).
pub(crate) fn decode_big5(
    alloc: Global,
    bytes: &[u8],
    index: &[u16],
    plane: &[u16],
) -> Result<String, AllocError>
    ensures { IfOk result (λ t. string_bytes t ≡ big5_text index.now plane.now bytes.now) }
{
    decode(alloc, bytes, &Big5 { index, plane })
}
