//! Addresses of the type `utf-8` whose characters are written in ASCII (RFC 6533, section 3).
ghost use Rattle.std.specs.Prelude.{◌≡◌, ◌≤◌, ◌<◌, ◌++◌, [], ◌∷◌, length, option_map, string_bytes, IfOk, IfSome, MatchOption, OnOk, ◌==◌};
ghost use Rattle.std.specs.List.{slice_split};
ghost use Rattle.mail_data.specs.AddressEscapes.{cut_at, escaped, is_utf8_type, number_after};
ghost use Rattle.mail_data.specs.AddressEscapes.{read_piece, shown_character, typed_address, unescaped};
ghost use Rattle.mail_data.specs.AddressEscapes.{with_digit};

use std::alloc::{AllocError, Global};

/// The greatest number of a character.
const GREATEST: u32 = 0x10_FFFF;

/// Returns an address after its type, with the characters that are written in ASCII if the type is
/// `utf-8`.
#[tactic(auto, unfolding(crate::specs::AddressEscapes::typed_address))]
pub(super) fn typed_address(alloc: Global, text: &str) -> Result<String, AllocError>
    ensures { IfOk result (λ address. string_bytes address ≡ typed_address text.now) }
{
    let Some((kind, address)) = cut_at(text, ';') else {
        return String::from_str(alloc, text);
    };
    if is_utf8_type(kind) {
        return unescaped(alloc, address);
    }
    String::from_str(alloc, address)
}

/// Returns whether the type of an address is `utf-8`.
fn is_utf8_type(kind: &str) -> bool
    ensures { result ≡ is_utf8_type kind.now }
{
    kind.trim().eq_ignore_ascii_case("utf-8")
}

/// Cuts a text at the first of these ASCII characters: the text before and after it, or `None` if
/// there is none.
fn cut_at(text: &str, delimiter: char) -> Option<(&str, &str)>
    requires ascii { delimiter < 128 }
    ensures value { option_map (λ p. (p.0.now, p.1.now)) result ≡ cut_at delimiter text.now }
    ensures pieces { MatchOption result (slice_split (λ b. b == delimiter) text.now ≡ text.now ∷ [])
        (λ p. slice_split (λ b. b == delimiter) text.now
        ≡ p.0.now ∷ slice_split (λ b. b == delimiter) p.1.now) }
    ensures shorter { IfSome result (λ p. length p.1.now < length text.now) }
{
    text.split_once(delimiter)
}

/// Returns a text with the characters that are written as `\x{..}`.
fn unescaped(alloc: Global, text: &str) -> Result<String, AllocError>
    ensures { IfOk result (λ read. string_bytes read ≡ unescaped text.now) }
{
    let Some((front, first)) = cut_at(text, '\\') else {
        return String::from_str(alloc, text);
    };
    let mut read = String::from_str(alloc, front)?;
    let mut rest = first;
    'pieces: while let Some((piece, after)) = cut_at(rest, '\\') {
        push_piece(&mut read, piece)?;
        rest = after;
    }
    push_piece(&mut read, rest)?;
    Ok(read)
}

/// Appends the text after a backslash, with the character that it denotes, or with the backslash.
fn push_piece(read: &mut String, piece: &str) -> Result<(), AllocError>
    ensures { OnOk result (string_bytes read.new ≡ string_bytes read.old ++ read_piece piece.now) }
{
    match escaped(piece) {
        Some((character, rest)) => {
            read.push(character)?;
            read.push_str(rest)
        }
        None => {
            read.push('\\')?;
            read.push_str(piece)
        }
    }
}

/// Returns the character that a text after a backslash denotes, and the text after it.
#[tactic(auto, unfolding(crate::specs::AddressEscapes::escaped))]
fn escaped(piece: &str) -> Option<(char, &str)>
    ensures { option_map (λ p. (p.0, p.1.now)) result ≡ escaped piece.now }
{
    let (name, braced) = cut_at(piece, '{')?;
    if name != "x" {
        return None;
    }
    let (digits, rest) = cut_at(braced, '}')?;
    let number = number_of(digits.as_bytes())?;
    let character = shown_character(number)?;
    Some((character, rest))
}

/// Returns the number that hexadecimal digits denote, or `None` if a byte is no digit or the number
/// is too great for a character.
#[tactic(auto, using(crate::proofs::lemmas::AddressEscapes::number_next))]
fn number_of(digits: &[u8]) -> Option<u32>
    ensures value { result ≡ number_after 0 digits.now }
    ensures bounds { IfSome result (λ number. number ≤ 0x10_FFFF) }
{
    let mut number = 0;
    for digit in digits {
        number = with_digit(number, *digit)?;
    }
    Some(number)
}

/// Returns the number with one hexadecimal digit more.
fn with_digit(number: u32, byte: u8) -> Option<u32>
    requires { number ≤ 0x10_FFFF }
    ensures value { result ≡ with_digit number byte }
    ensures bounds { IfSome result (λ next. next ≤ 0x10_FFFF) }
{
    let digit = char::from(byte).to_digit(16)?;
    let next = 16 * number + digit;
    if next > GREATEST { None } else { Some(next) }
}

/// Returns the character with this number, unless it is a control character or a surrogate.
fn shown_character(number: u32) -> Option<char>
    requires { number ≤ 0x10_FFFF }
    ensures { result ≡ shown_character number }
{
    if number >= 0xD800 && number <= 0xDFFF {
        return None;
    }
    let character = char::from_u32(number)?;
    if character.is_control() {
        return None;
    }
    Some(character)
}
