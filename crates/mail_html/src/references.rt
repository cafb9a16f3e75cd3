//! Character references.
ghost use Rattle.std.specs.Prelude.{◌≡◌, true, ◌+◌, ◌<◌, ◌≤◌, ◌==◌, ◌||◌, ◌++◌, length, slice_index, IfOk, IfSome, OnOk, drop};
ghost use Rattle.std.specs.Char.{is_ascii_alphanumeric, is_ascii_digit, is_ascii_hexdigit};
ghost use Rattle.std.specs.Int.{is_in_range};
ghost use Rattle.std.specs.List.{prefix_len};
ghost use Rattle.mail_codec.specs.Ascii.{equals_sign};
ghost use Rattle.mail_codec.specs.Places.{begins};
ghost use Rattle.mail_html.specs.References.{by_digits_or_none, by_row, character_of, digit_number, is_closed, is_refused, no_reference, number_of, numeric, reference, row_among, row_at, row_in, semicolon_length, value_text, with_digit};
ghost use Rattle.mail_html.specs.ReferenceViews.{read_view, referred_text};

use crate::named::named;
use crate::scans::begins_with;
use mail_codec::charset::decoder::put_char;
use std::alloc::{AllocError, Global};

/// The named character references that are known.
#[derive(Clone, Copy, Debug)]
pub struct References<'t> {
    /// The first letter of names, and these names, each with its text. Of two names that begin
    /// alike the longer one is before the shorter one.
    pub groups: [(u8, &'t [(&'t str, &'t str)]); 52],
}

impl References<'static> {
    /// Returns the references of the HTML Standard (section 13.5).
    ///
    /// Does not allocate.
    ///
    /// # Examples
    ///
    /// ```rust
    /// use mail_html::References;
    ///
    /// let references = References::standard();
    /// assert_eq!(rt; references.groups[0].0, b'A');
    /// assert_eq!(rt; references.groups[0].1[0], ("AElig;", "Æ"));
    /// ```
    pub fn standard() -> References<'static> {
        References { groups: named() }
    }
}

/// The text of a reference.
#[derive(Clone, Copy)]
pub(crate) enum Referred<'t> {
    /// A character.
    Character(char),
    /// The text of a name.
    Text(&'t [u8]),
}

/// A reference, or an ampersand that begins none.
#[derive(Clone, Copy)]
pub(crate) struct Reference<'t> {
    /// Its text.
    pub(crate) referred: Referred<'t>,
    /// How many bytes after the ampersand it takes.
    pub(crate) taken: usize,
}

/// The characters of the numbers from 80 to 9F, those of windows-1252.
static HIGH: [char; 32] = [
    '\u{20AC}', '\u{81}', '\u{201A}', '\u{192}', '\u{201E}', '\u{2026}', '\u{2020}', '\u{2021}',
    '\u{2C6}', '\u{2030}', '\u{160}', '\u{2039}', '\u{152}', '\u{8D}', '\u{17D}', '\u{8F}',
    '\u{90}', '\u{2018}', '\u{2019}', '\u{201C}', '\u{201D}', '\u{2022}', '\u{2013}', '\u{2014}',
    '\u{2DC}', '\u{2122}', '\u{161}', '\u{203A}', '\u{153}', '\u{9D}', '\u{17E}', '\u{178}',
];

/// Returns the character of a number.
fn character_of(number: u32) -> char
    ensures { result ≡ character_of number }
{
    if number == 0 {
        return char::REPLACEMENT_CHARACTER;
    }
    if is_high(number) {
        return HIGH[(number - 0x80) as usize];
    }
    match char::from_u32(number) {
        Some(character) => character,
        None => char::REPLACEMENT_CHARACTER,
    }
}

/// Returns whether a number is read as in windows-1252.
fn is_high(number: u32) -> bool
    ensures value { result ≡ is_in_range 0x80 0x9F number }
    ensures low { result ≡ true → 0x80 ≤ number }
    ensures high { result ≡ true → number < 0xA0 }
{
    0x80 <= number && number <= 0x9F
}

/// Returns the value of a digit of a base up to 16.
fn digit_number(digit: u8) -> u32
    ensures value { result ≡ digit_number digit }
    ensures bounds { result < 256 }
{
    if digit.is_ascii_digit() {
        return u32::from(digit) - 48;
    }
    if b'A' <= digit && digit <= b'F' {
        return u32::from(digit) - 55;
    }
    u32::from(digit.saturating_sub(87))
}

/// Returns the number that digits denote, or 0x110000 if it is greater.
fn number_of(base: u32, digits: &[u8]) -> u32
    requires { base ≤ 16 }
    ensures { result ≡ number_of base digits.now }
{
    let mut number = 0;
    for digit in digits {
        number = with_digit(base, number, *digit);
    }
    number
}

/// Returns a number with one more digit, or 0x110000 if it is greater.
fn with_digit(base: u32, number: u32, digit: u8) -> u32
    requires base { base ≤ 16 }
    requires number { number ≤ 0x110000 }
    ensures value { result ≡ with_digit base number digit }
    ensures bounds { result ≤ 0x110000 }
{
    (number * base + digit_number(digit)).min(0x11_0000)
}

/// Returns the number of hexadecimal digits at the front of bytes.
fn hexadecimal_length(bytes: &[u8]) -> usize
    ensures value { result ≡ prefix_len is_ascii_hexdigit bytes.now }
    ensures bounds { result ≤ length bytes.now }
{
    bytes
        .iter()
        .position(|byte| !byte.is_ascii_hexdigit())
        .unwrap_or(bytes.len())
}

/// Returns the number of decimal digits at the front of bytes.
fn decimal_length(bytes: &[u8]) -> usize
    ensures value { result ≡ prefix_len is_ascii_digit bytes.now }
    ensures bounds { result ≤ length bytes.now }
{
    bytes
        .iter()
        .position(|byte| !byte.is_ascii_digit())
        .unwrap_or(bytes.len())
}

/// Returns an ampersand that begins no reference.
fn no_reference() -> Reference<'static>
    ensures { read_view result ≡ no_reference }
{
    Reference {
        referred: Referred::Text(b"&"),
        taken: 0,
    }
}

/// Returns the reference by `count` digits from `start` onwards, or none without digits.
fn by_digits(base: u32, start: usize, count: usize, bytes: &[u8]) -> Reference<'static>
    requires base { base ≤ 16 }
    requires within { start + count ≤ length bytes.now }
    ensures read { read_view result ≡ by_digits_or_none base start count bytes.now }
    ensures bounds { result.taken ≤ length bytes.now }
{
    if count == 0 {
        return no_reference();
    }
    let end = start + count;
    let character = character_of(number_of(base, &bytes[start..end]));
    let taken = end + semicolon_length(&bytes[end..]);
    Reference {
        referred: Referred::Character(character),
        taken,
    }
}

/// Returns the number of bytes of a semicolon at the front.
fn semicolon_length(bytes: &[u8]) -> usize
    ensures value { result ≡ semicolon_length bytes.now }
    ensures bounds { result ≤ length bytes.now }
{
    if begins_with(bytes, b';') {
        return 1;
    }
    0
}

/// Returns whether bytes begin with `x` or `X`.
fn begins_x(bytes: &[u8]) -> bool
    ensures value { result ≡ begins (λ b. b == 0x78 || b == 0x58) bytes.now }
    ensures some { result ≡ true → 0 < length bytes.now }
{
    let Some((first, _)) = bytes.split_first() else {
        return false;
    };
    *first == b'x' || *first == b'X'
}

/// Returns the reference by a number.
fn numeric(bytes: &[u8]) -> Reference<'static>
    requires { 0 < length bytes.now }
    ensures read { read_view result ≡ numeric bytes.now }
    ensures bounds { result.taken ≤ length bytes.now }
{
    if begins_x(&bytes[1..]) {
        return by_digits(16, 2, hexadecimal_length(&bytes[2..]), bytes);
    }
    by_digits(10, 1, decimal_length(&bytes[1..]), bytes)
}

/// Returns the row whose name is at the front of bytes.
fn row_among<'t>(bytes: &[u8], rows: &'t [(&'t str, &'t str)]) -> Option<(&'t str, &'t str)>
    ensures row { result ≡ row_among bytes.now rows.now }
    ensures bounds { IfSome result (λ row. length row.0.now ≤ length bytes.now) }
{
    for row in rows {
        if bytes.starts_with(row.0.as_bytes()) {
            return Some(*row);
        }
    }
    None
}

/// Returns the row whose name, which begins with `first`, is at the front of bytes.
fn row_in<'t>(
    groups: &[(u8, &'t [(&'t str, &'t str)])],
    first: u8,
    bytes: &[u8],
) -> Option<(&'t str, &'t str)>
    ensures row { result ≡ row_in groups.now first bytes.now }
    ensures bounds { IfSome result (λ row. length row.0.now ≤ length bytes.now) }
{
    for group in groups {
        if group.0 == first {
            return row_among(bytes, group.1);
        }
    }
    None
}

/// Returns the row whose name is at the front of bytes.
fn row_at<'t>(references: &References<'t>, bytes: &[u8]) -> Option<(&'t str, &'t str)>
    ensures row { result ≡ row_at references.now bytes.now }
    ensures bounds { IfSome result (λ row. length row.0.now ≤ length bytes.now) }
{
    let (first, _) = bytes.split_first()?;
    row_in(&references.groups, *first, bytes)
}

/// Returns whether a name without a semicolon is no reference before these bytes, in the value of
/// an attribute.
fn is_refused(in_value: bool, name: &[u8], bytes: &[u8]) -> bool
    requires { length name.now ≤ length bytes.now }
    ensures { result ≡ is_refused in_value name.now bytes.now }
{
    if !in_value || is_closed(name) {
        return false;
    }
    goes_on(&bytes[name.len()..])
}

/// Returns whether a name ends in a semicolon.
fn is_closed(name: &[u8]) -> bool
    ensures { result ≡ is_closed name.now }
{
    let Some((last, _)) = name.split_last() else {
        return false;
    };
    *last == b';'
}

/// Returns whether bytes begin with a letter, a digit or an equals sign.
fn goes_on(bytes: &[u8]) -> bool
    ensures { result ≡ begins (λ b. is_ascii_alphanumeric b || b == equals_sign) bytes.now }
{
    let Some((first, _)) = bytes.split_first() else {
        return false;
    };
    first.is_ascii_alphanumeric() || *first == b'='
}

/// Returns the reference by a name.
fn read_named<'t>(references: &References<'t>, in_value: bool, bytes: &[u8]) -> Reference<'t>
    ensures read { read_view result ≡ by_row in_value bytes.now (row_at references.now bytes.now) }
    ensures bounds { result.taken ≤ length bytes.now }
{
    match row_at(references, bytes) {
        Some((name, text)) => {
            if is_refused(in_value, name.as_bytes(), bytes) {
                return no_reference();
            }
            Reference {
                referred: Referred::Text(text.as_bytes()),
                taken: name.len(),
            }
        }
        None => no_reference(),
    }
}

/// Returns the reference that an ampersand before the bytes begins.
pub(crate) fn read_reference<'t>(
    references: &References<'t>,
    in_value: bool,
    bytes: &[u8],
) -> Reference<'t>
    ensures read { read_view result ≡ reference references.now in_value bytes.now }
    ensures bounds { result.taken ≤ length bytes.now }
{
    if begins_with(bytes, b'#') {
        return numeric(bytes);
    }
    read_named(references, in_value, bytes)
}

/// Appends the text of a reference.
fn push_referred(text: &mut Vec<u8>, referred: Referred<'_>) -> Result<(), AllocError>
    ensures { OnOk result (text.new.items ≡ text.old.items ++ referred_text referred.entry) }
{
    match referred {
        Referred::Character(character) => {
            let mut buffer = [0; 4];
            let end = put_char(&mut buffer, 0, character);
            text.extend_from_slice(&buffer[..end])
        }
        Referred::Text(bytes) => text.extend_from_slice(bytes),
    }
}

/// Returns the text of the value of an attribute.
pub(crate) fn value_text(
    alloc: Global,
    references: &References<'_>,
    bytes: &[u8],
) -> Result<Vec<u8>, AllocError>
    ensures { IfOk result (λ text. text.items ≡ value_text 0 references.now bytes.now) }
{
    let mut text = Vec::new(alloc);
    let mut rest = bytes;
    'rest: while !rest.is_empty() {
        let taken = push_front(&mut text, references, rest)?;
        rest = &rest[taken..];
    }
    Ok(text)
}

/// Appends the text of the reference or the byte at the front of the value of an attribute, and
/// returns how many bytes it takes.
fn push_front(
    text: &mut Vec<u8>,
    references: &References<'_>,
    bytes: &[u8],
) -> Result<usize, AllocError>
    requires { 0 < length bytes.now }
    ensures pushed { IfOk result (λ taken.
        text.new.items ++ value_text 0 references.now (drop taken bytes.now)
        ≡ text.old.items ++ value_text 0 references.now bytes.now) }
    ensures some { IfOk result (λ taken. 0 < taken) }
    ensures bounds { IfOk result (λ taken. taken ≤ length bytes.now) }
{
    if bytes[0] == b'&' {
        let reference = read_reference(references, true, &bytes[1..]);
        push_referred(text, reference.referred)?;
        return Ok(1 + reference.taken);
    }
    text.push(bytes[0])?;
    Ok(1)
}
