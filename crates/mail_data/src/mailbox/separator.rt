//! The lines that separate the mails of a mailbox.
ghost use Rattle.std.specs.Prelude.{◌≡◌, ◌≤◌, length, map};
ghost use Rattle.mail_data.specs.Separator.{after_word, fits, fits_byte, has_time, is_clock};
ghost use Rattle.mail_data.specs.Separator.{is_day, is_month_at, is_name, is_offset};
ghost use Rattle.mail_data.specs.Separator.{is_separator, is_time_at, is_year_at, is_zone};
ghost use Rattle.mail_data.specs.Separator.{word, word_length};

use crate::line_ends::line_length;
use mail_codec::bytescan::find_byte;
use mail_codec::calendar::is_month_abbreviation;

static WEEKDAYS: [&str; 7] = ["Sun", "Mon", "Tue", "Wed", "Thu", "Fri", "Sat"];

/// Returns whether a separator is at the front: a line that begins with `From ` and contains a
/// time.
#[tactic(auto, unfolding(crate::specs::Separator::is_separator))]
pub(super) fn is_separator(bytes: &[u8]) -> bool
    ensures { result ≡ is_separator bytes.now }
{
    bytes.starts_with(b"From ") && has_time(&bytes[..line_length(bytes)])
}

/// Returns whether a time follows a space of the line.
fn has_time(line: &[u8]) -> bool
    ensures { result ≡ has_time line.now }
{
    let mut rest = line;
    'spaces: while let Some(place) = find_byte(rest, b' ') {
        rest = &rest[place + 1..];
        if is_time_at(rest) {
            return true;
        }
    }
    false
}

/// Returns whether a time is at the front: a weekday, a month, a day, a time of day and a year.
#[tactic(auto, unfolding(crate::specs::Separator::is_time_at))]
fn is_time_at(text: &[u8]) -> bool
    ensures { result ≡ is_time_at text.now }
{
    is_name(&WEEKDAYS, word(text)) && is_month_at(after_word(text))
}

/// Returns whether a month, a day, a time of day and a year are at the front.
#[tactic(auto, unfolding(crate::specs::Separator::is_month_at))]
fn is_month_at(text: &[u8]) -> bool
    ensures { result ≡ is_month_at text.now }
{
    let day = after_word(text);
    let clock = after_word(day);
    is_month_abbreviation(word(text))
        && is_day(word(day))
        && is_clock(word(clock))
        && is_year_at(after_word(clock))
}

/// Returns whether a year is at the front, perhaps with a zone before it.
#[tactic(auto, unfolding(crate::specs::Separator::is_year_at))]
fn is_year_at(text: &[u8]) -> bool
    ensures { result ≡ is_year_at text.now }
{
    fits(b"0000", word(text)) || (is_zone(word(text)) && fits(b"0000", word(after_word(text))))
}

/// Returns whether a word is a zone: an offset, or letters.
#[tactic(auto, unfolding(crate::specs::Separator::is_zone))]
fn is_zone(text: &[u8]) -> bool
    ensures { result ≡ is_zone text.now }
{
    is_offset(text) || text.iter().all(|byte| byte.is_ascii_alphabetic())
}

/// Returns whether a word is an offset from Greenwich: a sign and four digits.
#[tactic(auto, unfolding(crate::specs::Separator::is_offset))]
fn is_offset(text: &[u8]) -> bool
    ensures { result ≡ is_offset text.now }
{
    fits(b"+0000", text) || fits(b"-0000", text)
}

/// Returns whether a word is a time of day, with or without seconds.
#[tactic(auto, unfolding(crate::specs::Separator::is_clock))]
fn is_clock(text: &[u8]) -> bool
    ensures { result ≡ is_clock text.now }
{
    fits(b"00:00:00", text) || fits(b"00:00", text)
}

/// Returns whether a word is a day of a month: one digit or two.
#[tactic(auto, unfolding(crate::specs::Separator::is_day))]
fn is_day(text: &[u8]) -> bool
    ensures { result ≡ is_day text.now }
{
    fits(b"0", text) || fits(b"00", text)
}

/// Returns whether a text matches a pattern of its length, in which 0 matches any digit.
fn fits(pattern: &[u8], text: &[u8]) -> bool
    ensures { result ≡ fits pattern.now text.now }
{
    let mut rest = text;
    for sign in pattern {
        let Some((byte, after)) = rest.split_first() else {
            return false;
        };
        if !fits_byte(*sign, *byte) {
            return false;
        }
        rest = after;
    }
    rest.is_empty()
}

/// Returns whether a byte matches one of a pattern, in which 0 matches any digit.
fn fits_byte(sign: u8, byte: u8) -> bool
    ensures { result ≡ fits_byte sign byte }
{
    if sign == b'0' {
        byte.is_ascii_digit()
    } else {
        byte == sign
    }
}

/// Returns whether a word is one of the names.
fn is_name(names: &[&str], text: &[u8]) -> bool
    ensures { result ≡ is_name (map (λ name. name.now) names.now) text.now }
{
    names.iter().any(|name| text == name.as_bytes())
}

/// Returns the word at the front.
fn word(text: &[u8]) -> &[u8]
    ensures { result.now ≡ word text.now }
{
    &text[..word_length(text)]
}

/// Returns the text after the word at the front and the whitespace after that.
#[tactic(auto, unfolding(crate::specs::Separator::after_word))]
fn after_word(text: &[u8]) -> &[u8]
    ensures { result.now ≡ after_word text.now }
{
    text[word_length(text)..].trim_ascii_start()
}

/// Returns the number of bytes before the first whitespace.
#[tactic(auto, unfolding(crate::specs::Separator::word_length))]
fn word_length(text: &[u8]) -> usize
    ensures value { result ≡ word_length text.now }
    ensures bounds { result ≤ length text.now }
{
    text.iter()
        .take_while(|byte| !byte.is_ascii_whitespace())
        .count()
}
