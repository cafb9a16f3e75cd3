//! The day, the month and the year of a date.
ghost use Rattle.std.specs.Prelude.{◌≡◌, ◌≤◌, ◌<◌, ◌*◌, ◌^◌, IfOk, IfSome};
ghost use Rattle.std.specs.Str.Parse.{AllDigits};
ghost use Rattle.mail_codec.specs.Names.{look_up};
ghost use Rattle.mail_read.specs.lenient.Date.{after_day_name, after_t, day_at, day_first, day_in, month_at};
ghost use Rattle.mail_read.specs.lenient.Date.{month_names, month_number, year_at, year_first, year_of};
ghost use Rattle.mail_read.specs.lenient.DateViews.{part_read};

use super::calendar::{day_number, month_length};
use super::error::DateError;
use super::numbers::{number_of, small_number};
use super::whitespace::{after_mark, after_separator, digits_at, letters_at};
use mail_codec::calendar;

/// Reads day, month and year: the days from 1 January 1900, and the text after a separator.
#[tactic(auto, unfolding(crate::specs::lenient::Date::day_first))]
pub(super) fn day_first(text: &[u8]) -> Result<(u64, &[u8]), DateError>
    ensures read { part_read result ≡ day_first text.now }
    ensures bounds { IfOk result (λ p. p.0 < 367 * 2 ^ 30) }
{
    let (day, rest) = day_at(text)?;
    let (month, rest) = month_at(after_separator(rest))?;
    let (year, rest) = year_at(after_separator(rest))?;
    let number = day_in(year, month, day)?;
    Ok((number, after_separator(rest)))
}

/// Reads year, month and day as numbers: the days from 1 January 1900, and the text after a `T`.
#[tactic(auto, unfolding(crate::specs::lenient::Date::year_first))]
pub(super) fn year_first(text: &[u8]) -> Result<(u64, &[u8]), DateError>
    ensures read { part_read result ≡ year_first text.now }
    ensures bounds { IfOk result (λ p. p.0 < 367 * 2 ^ 30) }
{
    let (year, rest) = year_at(text)?;
    let (month, rest) = month_number(after_separator(rest))?;
    let (day, rest) = day_at(after_separator(rest))?;
    let number = day_in(year, month, day)?;
    Ok((number, after_t(rest)))
}

/// Returns the days from 1 January 1900 to a day, which must exist in its month.
#[tactic(auto, unfolding(crate::specs::lenient::Date::day_in))]
pub(super) fn day_in(year: u64, month: usize, day: u64) -> Result<u64, DateError>
    requires year { (1900 ≤ year) × (year < 2 ^ 30) }
    requires month { month < 12 }
    ensures read { result ≡ day_in year month day }
    ensures bounds { IfOk result (λ number. number < 367 * 2 ^ 30) }
{
    if day < 1 || day > month_length(year, month) {
        return Err(DateError::Day);
    }
    Ok(day_number(year, month, day))
}

/// Reads the number of a day at the front, and the text after it.
#[tactic(auto, unfolding(crate::specs::lenient::Date::day_at))]
pub(super) fn day_at(text: &[u8]) -> Result<(u64, &[u8]), DateError>
    ensures { part_read result ≡ day_at text.now }
{
    match small_number(text, 31) {
        Some(day) => Ok(day),
        None => Err(DateError::Day),
    }
}

/// Reads the number of a month: the month, counted from 0, and the text after it.
#[tactic(auto, unfolding(crate::specs::lenient::Date::month_number))]
fn month_number(text: &[u8]) -> Result<(usize, &[u8]), DateError>
    ensures read { part_read result ≡ month_number text.now }
    ensures bounds { IfOk result (λ p. p.0 < 12) }
{
    let Some((month, rest)) = small_number(text, 12) else {
        return Err(DateError::Month);
    };
    if month == 0 {
        return Err(DateError::Month);
    }
    Ok(((month - 1) as usize, rest))
}

/// Skips a `T` before the time, if it is there.
#[tactic(auto, unfolding(crate::specs::lenient::Date::after_t))]
fn after_t(text: &[u8]) -> &[u8]
    ensures { result.now ≡ after_t text.now }
{
    let (word, rest) = letters_at(text);
    if word.eq_ignore_ascii_case(b"T") {
        rest
    } else {
        text
    }
}

/// Skips the name of a day of the week and a comma, each if it is there.
#[tactic(auto, unfolding(crate::specs::lenient::Date::after_day_name))]
pub(super) fn after_day_name(text: &[u8]) -> &[u8]
    ensures { result.now ≡ after_day_name text.now }
{
    let (_, rest) = letters_at(text);
    match after_mark(rest, b',') {
        Some(after) => after,
        None => rest,
    }
}

/// Reads the name of a month at the front: the month, counted from 0, and the text after it.
#[tactic(auto, unfolding(crate::specs::lenient::Date::month_at))]
pub(super) fn month_at(text: &[u8]) -> Result<(usize, &[u8]), DateError>
    ensures read { part_read result ≡ month_at text.now }
    ensures bounds { IfOk result (λ p. p.0 < 12) }
{
    let (word, rest) = letters_at(text);
    match month_named(word) {
        Some(month) => Ok((month, rest)),
        None => Err(DateError::Month),
    }
}

/// Returns the month with a name, counted from 0, or `None` if there is none.
pub(super) fn month_named(word: &[u8]) -> Option<usize>
    ensures value { result ≡ look_up month_names word.now }
    ensures bounds { IfSome result (λ month. month < 12) }
{
    if word.eq_ignore_ascii_case(b"Sept") {
        return Some(8);
    }
    calendar::month_named(word)
}

/// Reads the year at the front: the year, and the text after it.
#[tactic(auto, unfolding(crate::specs::lenient::Date::year_at))]
pub(super) fn year_at(text: &[u8]) -> Result<(u64, &[u8]), DateError>
    ensures read { part_read result ≡ year_at text.now }
    ensures bounds { IfOk result (λ p. (1900 ≤ p.0) × (p.0 < 2 ^ 30)) }
{
    let (digits, rest) = digits_at(text);
    match year_of(digits) {
        Ok(year) => Ok((year, rest)),
        Err(error) => Err(error),
    }
}

/// Returns the year that digits denote.
#[tactic(auto, unfolding(crate::specs::lenient::Date::year_of))]
fn year_of(digits: &[u8]) -> Result<u64, DateError>
    requires { AllDigits 10 digits.now }
    ensures read { result ≡ year_of digits.now }
    ensures bounds { IfOk result (λ year. (1900 ≤ year) × (year < 2 ^ 30)) }
{
    if digits.len() < 2 || digits.len() > 9 {
        return Err(DateError::Year);
    }
    let number = number_of(digits);
    if digits.len() == 2 && number < 50 {
        return Ok(2000 + number);
    }
    if digits.len() < 4 {
        return Ok(1900 + number);
    }
    if number < 1900 {
        return Err(DateError::Year);
    }
    Ok(number)
}
