//! The time of a date.
ghost use Rattle.std.specs.Prelude.{◌≡◌, ◌≤◌, ◌<◌, ◌+◌, ◌==◌, if◌then◌else◌, option_map, IfOk};
ghost use Rattle.std.specs.Int.{is_in_range};
ghost use Rattle.mail_read.specs.lenient.Date.{after_fraction, after_time_mark, clock_hour, minute_at};
ghost use Rattle.mail_read.specs.lenient.Date.{second_at, time_at};
ghost use Rattle.mail_read.specs.lenient.DateViews.{part_read};

use super::error::DateError;
use super::numbers::small_number;
use super::whitespace::{after_mark, digits_at, letters_at};

/// Reads the time at the front: the seconds from the start of the day, and the text after it.
#[tactic(auto, unfolding(crate::specs::lenient::Date::time_at))]
pub(super) fn time_at(text: &[u8]) -> Result<(u64, &[u8]), DateError>
    ensures read { part_read result ≡ time_at text.now }
    ensures bounds { IfOk result (λ p. p.0 < 86401) }
{
    let Some((written, rest)) = small_number(text, 23) else {
        return Err(DateError::Time);
    };
    let (minute, rest) = minute_at(rest)?;
    let (second, rest) = second_at(rest)?;
    let (hour, rest) = clock_hour(written, rest);
    Ok((3600 * hour + 60 * minute + second, rest))
}

/// Returns the hour of the day, given the hour that was read and the text after the time, and the
/// text after `AM` or `PM`.
#[tactic(auto, unfolding(crate::specs::lenient::Date::clock_hour))]
fn clock_hour(hour: u64, text: &[u8]) -> (u64, &[u8])
    requires { hour ≤ 23 }
    ensures value { (result.0, result.1.now) ≡ clock_hour hour text.now }
    ensures bounds { result.0 ≤ 23 }
{
    let (word, rest) = letters_at(text);
    if word.eq_ignore_ascii_case(b"AM") {
        return (morning_hour(hour), rest);
    }
    if word.eq_ignore_ascii_case(b"PM") {
        return (evening_hour(hour), rest);
    }
    (hour, text)
}

/// Returns the hour of the day before noon.
fn morning_hour(hour: u64) -> u64
    requires { hour ≤ 23 }
    ensures value { result ≡ (if hour == 12 then 0 else hour) }
    ensures bounds { result ≤ 23 }
{
    if hour == 12 { 0 } else { hour }
}

/// Returns the hour of the day after noon.
fn evening_hour(hour: u64) -> u64
    requires { hour ≤ 23 }
    ensures value { result ≡ (if is_in_range 1 11 hour then hour + 12 else hour) }
    ensures bounds { result ≤ 23 }
{
    if hour >= 1 && hour <= 11 {
        hour + 12
    } else {
        hour
    }
}

/// Reads the minute and the text after it.
#[tactic(auto, unfolding(crate::specs::lenient::Date::minute_at))]
fn minute_at(text: &[u8]) -> Result<(u64, &[u8]), DateError>
    ensures read { part_read result ≡ minute_at text.now }
    ensures bounds { IfOk result (λ p. p.0 ≤ 59) }
{
    let Some(rest) = after_time_mark(text) else {
        return Err(DateError::Time);
    };
    match small_number(rest, 59) {
        Some(minute) => Ok(minute),
        None => Err(DateError::Time),
    }
}

/// Reads the second, or 0 if the time ends after the minute, and the text after it.
#[tactic(auto, unfolding(crate::specs::lenient::Date::second_at))]
fn second_at(text: &[u8]) -> Result<(u64, &[u8]), DateError>
    ensures read { part_read result ≡ second_at text.now }
    ensures bounds { IfOk result (λ p. p.0 ≤ 60) }
{
    let Some(rest) = after_time_mark(text) else {
        return Ok((0, text));
    };
    match small_number(rest, 60) {
        Some((second, rest)) => Ok((second, after_fraction(rest))),
        None => Err(DateError::Time),
    }
}

/// Returns the text after a colon or a full stop at the front, or `None` if neither is there.
#[tactic(auto, unfolding(crate::specs::lenient::Date::after_time_mark))]
fn after_time_mark(text: &[u8]) -> Option<&[u8]>
    ensures { option_map (λ rest. rest.now) result ≡ after_time_mark text.now }
{
    match after_mark(text, b':') {
        Some(rest) => Some(rest),
        None => after_mark(text, b'.'),
    }
}

/// Skips a fraction of a second, if it is there.
#[tactic(auto, unfolding(crate::specs::lenient::Date::after_fraction))]
fn after_fraction(text: &[u8]) -> &[u8]
    ensures { result.now ≡ after_fraction text.now }
{
    let Some(rest) = after_mark(text, b'.') else {
        return text;
    };
    let (_, rest) = digits_at(rest);
    rest
}
