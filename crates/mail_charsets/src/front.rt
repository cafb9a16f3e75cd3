//! The characters at the front of bytes, and the number of bytes they take.
ghost use Rattle.std.specs.Prelude.{◌≡◌, ◌+◌, ◌<◌, ◌≤◌, ◌++◌, length, take, slice_index, IsUtf8, OnOk, encode_utf8_all, string_bytes};
ghost use Rattle.std.specs.Int.{is_in_range};
ghost use Rattle.mail_charsets.specs.Front.{chars_at, characters_of, code_chars, column, fault, faulty, taken_of, whole_or};

use mail_codec::charset::decoder::put_char;
use std::alloc::AllocError;
use std::str;

/// The number of bytes of text that are written together.
pub(crate) const BUFFER: usize = 512;

/// The length of the longest text of the characters of a front.
pub(crate) const LONGEST: usize = 8;

/// The characters of a front.
#[derive(Clone, Copy)]
pub(crate) enum Characters {
    /// None.
    Nothing,
    /// One.
    One(char),
    /// Two.
    Two(char, char),
}

/// The front of bytes.
#[derive(Clone, Copy)]
pub(crate) struct Front {
    /// Its characters.
    pub(crate) characters: Characters,
    /// The number of bytes it takes.
    pub(crate) taken: usize,
}

/// Appends bytes that are UTF-8.
#[inline(always)]
pub(crate) fn push_utf8(text: &mut String, bytes: &[u8]) -> Result<(), AllocError>
    requires { IsUtf8 bytes.now }
    ensures { OnOk result (string_bytes text.new ≡ string_bytes text.old ++ bytes.now) }
{
    // SAFETY: the bytes are UTF-8.
    text.push_str(unsafe { str::from_utf8_unchecked(bytes) })
}

/// Writes the characters into the buffer at `at`, and returns where they end.
pub(crate) fn put_characters(buffer: &mut [u8], at: usize, characters: Characters) -> usize
    requires capacity { at + 8 ≤ length buffer.old }
    ensures written { take result buffer.new
        ≡ take at buffer.old ++ encode_utf8_all (characters_of characters) }
    ensures utf8 { IsUtf8 (take at buffer.old) → IsUtf8 (take result buffer.new) }
    ensures bounds { result ≤ at + 8 }
{
    match characters {
        Characters::Nothing => at,
        Characters::One(character) => put_char(buffer, at, character),
        Characters::Two(first, second) => {
            let middle = put_char(buffer, at, first);
            put_char(buffer, middle, second)
        }
    }
}

/// Returns the front of `taken` bytes with these characters; without characters, that of `faulty`
/// invalid bytes.
pub(crate) fn front_or(characters: Characters, taken: usize, faulty: usize) -> Front
    requires some { 0 < faulty }
    requires less { faulty ≤ taken }
    ensures read { taken_of result ≡ whole_or (characters_of characters) taken faulty }
    ensures takes_some { 0 < result.taken }
    ensures bounds { result.taken ≤ taken }
{
    match characters {
        Characters::Nothing => fault(faulty),
        Characters::One(_) => Front { characters, taken },
        Characters::Two(_, _) => Front { characters, taken },
    }
}

/// Returns how many of `taken` bytes are invalid together: all, except that an ASCII byte at their
/// end is read again.
pub(crate) fn faulty(last: u8, taken: usize) -> usize
    requires { 1 < taken }
    ensures value { result ≡ faulty last taken }
    ensures some { 0 < result }
    ensures bounds { result ≤ taken }
{
    if last < 0x80 { taken - 1 } else { taken }
}

/// Returns the front of `taken` invalid bytes.
pub(crate) fn fault(taken: usize) -> Front
    ensures read { taken_of result ≡ fault taken }
    ensures taken { result.taken ≡ taken }
{
    Front {
        characters: Characters::One(char::REPLACEMENT_CHARACTER),
        taken,
    }
}

/// Returns the characters that an index has at a pointer.
pub(crate) fn characters_at(index: &[u16], pointer: usize) -> Characters
    ensures { characters_of result ≡ chars_at index.now pointer }
{
    characters_of_code(u32::from(entry_at(index, pointer)))
}

/// Returns the entry of an index at a pointer, or 0 past its end.
pub(crate) fn entry_at(index: &[u16], pointer: usize) -> u16
    ensures { result ≡ slice_index index.now pointer }
{
    if pointer < index.len() {
        index[pointer]
    } else {
        0
    }
}

/// Returns the characters of a code.
pub(crate) fn characters_of_code(code: u32) -> Characters
    requires { code < 0x11_0000 }
    ensures { characters_of result ≡ code_chars code }
{
    if code == 0 {
        return Characters::Nothing;
    }
    match char::from_u32(code) {
        Some(character) => Characters::One(character),
        None => Characters::Nothing,
    }
}

/// Returns the character `offset` after another.
pub(crate) fn offset_char(first: char, offset: u8) -> char
    requires below { first < 0xFF80 }
    requires above { 0xE000 ≤ first }
    ensures { result ≡ first + offset }
{
    char::from_u32(first as u32 + u32::from(offset)).unwrap_or(first)
}

/// Returns whether the byte is in the range from `first` to `last`, both included.
pub(crate) fn is_within(byte: u8, first: u8, last: u8) -> bool
    ensures { result ≡ is_in_range first last byte }
{
    first <= byte && byte <= last
}

/// Returns the column of a trail byte, where the trail bytes begin at 40 and 7F is left out.
pub(crate) fn column(trail: u8) -> usize
    ensures value { result ≡ column trail }
    ensures bounds { result ≤ 255 }
{
    let first = if trail < 0x7F { 0x40 } else { 0x41 };
    usize::from(trail.saturating_sub(first))
}
