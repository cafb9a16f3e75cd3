//! Whitespace and comments in a date, and the runs of bytes after them.
ghost use Rattle.std.specs.Prelude.{◌≡◌, ◌+◌, ◌≤◌, ◌<◌, ◌^◌, length, option_map};
ghost use Rattle.std.specs.Char.{is_ascii_alphabetic, is_ascii_digit};
ghost use Rattle.std.specs.List.{prefix_len};
ghost use Rattle.std.specs.Str.Parse.{AllDigits};
ghost use Rattle.mail_read.specs.lenient.Date.{after_comments, after_mark, after_separator, ends_whitespace};
ghost use Rattle.mail_read.specs.lenient.Date.{has_digit, has_letter, is_separator, is_sign, run_at};

use crate::lenient::comments::depth_after;

/// Skips the whitespace and the comments at the front.
#[tactic(auto, unfolding(crate::specs::lenient::Date::after_comments))]
pub(super) fn after_comments(text: &[u8]) -> &[u8]
    ensures { result.now ≡ after_comments text.now }
{
    let mut is_quoted = false;
    let mut depth = 0;
    for (place, byte) in text.iter().enumerate() {
        let byte = *byte;
        if !is_quoted && ends_whitespace(depth, byte) {
            let (_, rest) = text.split_at(place);
            return rest;
        }
        depth = depth_after(is_quoted, depth, char::from(byte));
        is_quoted = !is_quoted && byte == b'\\';
    }
    let (_, rest) = text.split_at(text.len());
    rest
}

/// Returns whether a byte ends whitespace: no comment is open, and the byte opens none and is no
/// whitespace.
fn ends_whitespace(depth: usize, byte: u8) -> bool
    ensures { result ≡ ends_whitespace depth byte }
{
    depth == 0 && !(byte.is_ascii_whitespace() || byte == b'(')
}

/// Returns the text after a delimiter at the front, which may follow whitespace and comments, or
/// `None` if another byte is there.
#[tactic(auto, unfolding(crate::specs::lenient::Date::after_mark))]
pub(super) fn after_mark(text: &[u8], mark: u8) -> Option<&[u8]>
    ensures { option_map (λ rest. rest.now) result ≡ after_mark mark text.now }
{
    let Some((byte, rest)) = after_comments(text).split_first() else {
        return None;
    };
    if *byte == mark { Some(rest) } else { None }
}

/// Skips whitespace and comments at the front, and one separator after them, if it is there.
#[tactic(auto, unfolding(crate::specs::lenient::Date::after_separator))]
pub(super) fn after_separator(text: &[u8]) -> &[u8]
    ensures { result.now ≡ after_separator text.now }
{
    let rest = after_comments(text);
    let Some((byte, after)) = rest.split_first() else {
        return rest;
    };
    if is_separator(*byte) { after } else { rest }
}

/// Returns whether a byte may separate the day, the month and the year.
fn is_separator(byte: u8) -> bool
    ensures { result ≡ is_separator byte }
{
    byte == b'-' || byte == b',' || byte == b'.' || byte == b'/'
}

/// Returns whether a letter is at the front, after whitespace and comments.
pub(super) fn has_letter(text: &[u8]) -> bool
    ensures { result ≡ has_letter text.now }
{
    let (letters, _) = letters_at(text);
    !letters.is_empty()
}

/// Returns whether a digit is at the front, after whitespace and comments.
pub(super) fn has_digit(text: &[u8]) -> bool
    ensures { result ≡ has_digit text.now }
{
    let (digits, _) = digits_at(text);
    !digits.is_empty()
}

/// Returns the letters at the front, after whitespace and comments, and the text after them.
#[tactic(auto, unfolding(crate::specs::lenient::Date::run_at))]
pub(super) fn letters_at(text: &[u8]) -> (&[u8], &[u8])
    ensures { (result.0.now, result.1.now) ≡ run_at is_ascii_alphabetic text.now }
{
    let rest = after_comments(text);
    rest.split_at(letters_len(rest))
}

/// Returns the number of letters at the front.
fn letters_len(text: &[u8]) -> usize
    ensures value { result ≡ prefix_len is_ascii_alphabetic text.now }
    ensures bounds { result ≤ length text.now }
{
    text.iter()
        .take_while(|byte| byte.is_ascii_alphabetic())
        .count()
}

/// Returns the digits at the front, after whitespace and comments, and the text after them.
#[tactic(auto, unfolding(crate::specs::lenient::Date::run_at))]
pub(super) fn digits_at(text: &[u8]) -> (&[u8], &[u8])
    ensures run { (result.0.now, result.1.now) ≡ run_at is_ascii_digit text.now }
    ensures digits { AllDigits 10 result.0.now }
{
    let rest = after_comments(text);
    rest.split_at(digits_len(rest))
}

/// Returns the number of digits at the front.
fn digits_len(text: &[u8]) -> usize
    ensures value { result ≡ prefix_len is_ascii_digit text.now }
    ensures bounds { result ≤ length text.now }
{
    text.iter().take_while(|byte| byte.is_ascii_digit()).count()
}

/// Returns the signs at the front, after whitespace and comments, and the text after them.
#[tactic(auto, unfolding(crate::specs::lenient::Date::run_at))]
pub(super) fn signs_at(text: &[u8]) -> (&[u8], &[u8])
    ensures { (result.0.now, result.1.now) ≡ run_at is_sign text.now }
{
    let rest = after_comments(text);
    rest.split_at(signs_len(rest))
}

/// Returns the number of signs at the front.
fn signs_len(text: &[u8]) -> usize
    ensures value { result ≡ prefix_len is_sign text.now }
    ensures bounds { result ≤ length text.now }
{
    text.iter().take_while(|byte| is_sign(**byte)).count()
}

/// Returns whether a byte is the sign of a zone.
fn is_sign(byte: u8) -> bool
    ensures { result ≡ is_sign byte }
{
    byte == b'+' || byte == b'-'
}
