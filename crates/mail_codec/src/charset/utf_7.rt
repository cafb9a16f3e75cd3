//! UTF-7 (RFC 2152), which is read only if a caller asks for it.
ghost use Rattle.std.specs.Prelude.{◌≡◌, true, ◌+◌, ◌<◌, ◌≤◌, ◌*◌, ◌==◌, ◌++◌, length, slice_index, map, encode_utf8_all, IfOk, string_bytes};
ghost use Rattle.std.specs.List.{range_with_len};
ghost use Rattle.mail_codec.specs.Charset.{ascii_char};
ghost use Rattle.mail_codec.specs.Utf7.{ends_whole, four_letters, is_letter, letter_number, letters_chars, letters_length, number_at, shifted, shifted_chars, unit_at, units_count, utf7_front, utf7_text, utf_7_charsets};

use super::decoder::is_among;
use super::known::{Decode, KnownCharsets};
use super::labels;
use std::alloc::{AllocError, Global};

/// UTF-7 (RFC 2152), as a charset and as the known charsets that consist of it alone. Its labels
/// are `csunicode11utf7`, `unicode-1-1-utf-7` and `utf-7`.
///
/// The Encoding Standard forbids it: in a browser, text that looks harmless may read as markup. So
/// it is known only where a caller adds it, as the second value of a pair.
///
/// # Examples
///
/// ```rust
/// use mail_codec::charset::{Decode, KnownCharsets, Utf7};
///
/// assert_eq!(rt; Utf7.decode(alloc, b"Hi Mom -+Jjo--!")?.as_str(), "Hi Mom -☺-!");
/// let charset = ((), Utf7).for_label(b"UTF-7").ok_or("an unknown label")?;
/// assert_eq!(rt; charset.decode(alloc, b"caf+AOk-")?.as_str(), "café");
/// ```
#[derive(Clone, Copy, Debug)]
pub struct Utf7;

impl Decode for Utf7 {
    ghost text = { λ _. utf7_text };

    fn decode_without_bom_handling(
        self,
        alloc: Global,
        bytes: &[u8],
    ) -> Result<String, AllocError> {
        decode_utf_7(alloc, bytes)
    }
}

impl KnownCharsets for Utf7 {
    type Decoder = Utf7;

    ghost known = { λ _. utf_7_charsets };

    fn for_label(&self, label: &[u8]) -> Option<Utf7> {
        if is_among(label.trim_ascii(), &labels::UTF_7) {
            Some(Utf7)
        } else {
            None
        }
    }
}

/// Returns the text of the bytes.
fn decode_utf_7(alloc: Global, bytes: &[u8]) -> Result<String, AllocError>
    ensures { IfOk result (λ t. string_bytes t ≡ utf7_text bytes.now) }
{
    let mut text = String::with_capacity(alloc, bytes.len())?;
    let mut rest = bytes;
    'rest: while !rest.is_empty() {
        let taken = push_front(alloc, &mut text, rest)?;
        rest = &rest[taken..];
    }
    Ok(text)
}

/// Appends the characters at the front of the bytes, and returns how many bytes they take.
fn push_front(alloc: Global, text: &mut String, bytes: &[u8]) -> Result<usize, AllocError>
    requires { 0 < length bytes.now }
    ensures pushed { IfOk result (λ taken. string_bytes text.new
        ≡ string_bytes text.old ++ encode_utf8_all (utf7_front bytes.now).0) }
    ensures taken { IfOk result (λ taken. taken ≡ (utf7_front bytes.now).1) }
    ensures takes_some { IfOk result (λ taken. 0 < taken) }
    ensures bounds { IfOk result (λ taken. taken ≤ length bytes.now) }
{
    if bytes[0] == b'+' {
        return push_shifted(alloc, text, &bytes[1..]);
    }
    text.push(ascii(bytes[0]))?;
    Ok(1)
}

/// Appends the characters of a plus and of the bytes after it that belong to it, and returns how
/// many bytes these are, including the plus.
fn push_shifted(alloc: Global, text: &mut String, bytes: &[u8]) -> Result<usize, AllocError>
    ensures pushed { IfOk result (λ taken. string_bytes text.new
        ≡ string_bytes text.old ++ encode_utf8_all (shifted bytes.now).0) }
    ensures taken { IfOk result (λ taken. taken ≡ (shifted bytes.now).1) }
    ensures takes_some { IfOk result (λ taken. 0 < taken) }
    ensures bounds { IfOk result (λ taken. taken ≤ 1 + length bytes.now) }
{
    let count = letters_length(bytes);
    let is_closed = is_minus(bytes, count);
    push_letters_or_plus(alloc, text, &bytes[..count], is_closed)?;
    if is_closed {
        Ok(count + 2)
    } else {
        Ok(count + 1)
    }
}

/// Returns whether the byte at the offset is a minus.
fn is_minus(bytes: &[u8], offset: usize) -> bool
    ensures value { result ≡ (slice_index bytes.now offset == 0x2D) }
    ensures bounds { result ≡ true → offset < length bytes.now }
{
    offset < bytes.len() && bytes[offset] == b'-'
}

/// Appends the characters of letters. If there are no letters, appends a plus if it is closed, and
/// U+FFFD otherwise.
fn push_letters_or_plus(
    alloc: Global,
    text: &mut String,
    letters: &[u8],
    is_closed: bool,
) -> Result<(), AllocError>
    ensures { IfOk result (λ _. string_bytes text.new
        ≡ string_bytes text.old ++ encode_utf8_all (shifted_chars letters.now is_closed)) }
{
    if !letters.is_empty() {
        return push_letters(alloc, text, letters);
    }
    if is_closed {
        return text.push('+');
    }
    text.push(char::REPLACEMENT_CHARACTER)
}

/// Returns the character of a byte outside of letters: itself if it is ASCII, and U+FFFD otherwise.
fn ascii(byte: u8) -> char
    ensures { result ≡ ascii_char byte }
{
    if byte < 0x80 {
        byte as char
    } else {
        char::REPLACEMENT_CHARACTER
    }
}

/// Returns the number of leading bytes that are letters of Base64.
fn letters_length(bytes: &[u8]) -> usize
    ensures value { result ≡ letters_length bytes.now }
    ensures bounds { result ≤ length bytes.now }
{
    bytes
        .iter()
        .position(|byte| !is_letter(*byte))
        .unwrap_or(bytes.len())
}

/// Returns whether the byte is a letter of Base64.
fn is_letter(byte: u8) -> bool
    ensures { result ≡ is_letter byte }
{
    byte.is_ascii_alphanumeric() || byte == b'+' || byte == b'/'
}

/// Appends the characters of letters.
fn push_letters(alloc: Global, text: &mut String, letters: &[u8]) -> Result<(), AllocError>
    ensures { IfOk result (λ _. string_bytes text.new
        ≡ string_bytes text.old ++ encode_utf8_all (letters_chars letters.now)) }
{
    let units = units(alloc, letters)?;
    let characters = String::from_utf16_lossy(alloc, units.as_slice())?;
    text.push_str(characters.as_str())?;
    if ends_whole(letters) {
        return Ok(());
    }
    text.push(char::REPLACEMENT_CHARACTER)?;
    Ok(())
}

/// Returns the whole units that letters have.
fn units(alloc: Global, letters: &[u8]) -> Result<Vec<u16>, AllocError>
    ensures { IfOk result (λ units. units.items
        ≡ map (unit_at letters.now) (range_with_len 0 (units_count letters.now))) }
{
    let count = units_count(letters);
    let mut units = Vec::with_capacity(alloc, count)?;
    let mut number = 0;
    'units: while number < count {
        units.push(unit(letters, number))?;
        number += 1;
    }
    Ok(units)
}

/// Returns the number of whole units that letters have: three for every eight letters.
fn units_count(letters: &[u8]) -> usize
    ensures value { result ≡ units_count letters.now }
    ensures bounds { 16 * result ≤ 6 * length letters.now }
{
    let length = letters.len();
    length / 8 * 3 + length % 8 * 3 / 8
}

/// Returns whether fewer than six bits are left after the last whole unit, all of them 0.
fn ends_whole(letters: &[u8]) -> bool
    ensures { result ≡ ends_whole letters.now }
{
    letters.len() % 8 * 6 % 16 < 6 && unit(letters, units_count(letters)) == 0
}

/// Returns the unit with this number, counted from 0; missing bits are 0.
fn unit(letters: &[u8], number: usize) -> u16
    requires { 16 * number ≤ 6 * length letters.now }
    ensures { result ≡ unit_at letters.now number }
{
    let group = number / 3 * 8;
    if number % 3 == 0 {
        return (four_letters(letters, group) / 0x100 % 0x1_0000) as u16;
    }
    if number % 3 == 1 {
        return (four_letters(letters, group + 2) / 0x10 % 0x1_0000) as u16;
    }
    (four_letters(letters, group + 5) / 0x40 % 0x1_0000) as u16
}

/// Returns the 24 bits of the four letters from an offset onwards; missing letters are 0.
fn four_letters(letters: &[u8], offset: usize) -> u32
    requires { offset ≤ length letters.now }
    ensures value { result ≡ four_letters letters.now offset }
    ensures bounds { result < 0x100_0000 }
{
    let first = number_at(letters, offset) * 0x4_0000;
    let second = number_at(letters, offset + 1) * 0x1000;
    let third = number_at(letters, offset + 2) * 0x40;
    first + second + third + number_at(letters, offset + 3)
}

/// Returns the value of the letter at an offset, and 0 past the end.
fn number_at(letters: &[u8], offset: usize) -> u32
    ensures value { result ≡ number_at letters.now offset }
    ensures bounds { result < 64 }
{
    if offset < letters.len() {
        u32::from(letter_number(letters[offset]))
    } else {
        0
    }
}

/// Returns the value of a letter, and 0 for any other byte.
fn letter_number(byte: u8) -> u8
    ensures value { result ≡ letter_number byte }
    ensures bounds { result < 64 }
{
    if byte.is_ascii_uppercase() {
        return byte - b'A';
    }
    if byte.is_ascii_lowercase() {
        return byte - b'a' + 26;
    }
    if byte.is_ascii_digit() {
        return byte - b'0' + 52;
    }
    match byte {
        b'+' => 62,
        b'/' => 63,
        _ => 0,
    }
}
