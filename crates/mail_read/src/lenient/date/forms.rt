//! The forms of a date: the order of its day, month, year, time and zone.
ghost use Rattle.std.specs.Prelude.{◌≡◌, ◌≤◌, ◌<◌, ◌*◌, ◌^◌, neg_ℤ, pos, ◌≤ℤ◌, IfOk};
ghost use Rattle.mail_read.specs.lenient.Date.{clocked, has_time, is_month_first, is_year_first};
ghost use Rattle.mail_read.specs.lenient.Date.{moment_at, month_first, year_and_zone, year_last, year_next};

use super::days::{
    after_day_name, day_at, day_first, day_in, month_at, month_named, year_at, year_first,
};
use super::error::DateError;
use super::times::time_at;
use super::whitespace::{
    after_mark, after_separator, digits_at, has_digit, has_letter, letters_at,
};
use super::zones::zone_at;

/// The seconds from the start of 1900 to a date by the clocks of its zone, and the zone: the seconds
/// that it adds, and whether it is known.
pub(super) type Moment = (u64, (i64, bool));

/// Reads the date in a text.
#[tactic(auto, unfolding(crate::specs::lenient::Date::moment_at))]
pub(super) fn moment_at(text: &[u8]) -> Result<Moment, DateError>
    ensures read { result ≡ moment_at text.now }
    ensures bounds { IfOk result (λ moment. (moment.0 < 2 ^ 60)
        × ((neg_ℤ (pos (10 ^ 13)) ≤ℤ moment.1.0) × (moment.1.0 ≤ℤ pos (10 ^ 13)))) }
{
    let rest = after_day_name(text);
    if has_letter(rest) {
        return month_first(rest);
    }
    if is_year_first(rest) {
        let (number, rest) = year_first(rest)?;
        return clocked(number, rest);
    }
    if is_month_first(text, rest) {
        return month_first(text);
    }
    let (number, rest) = day_first(rest)?;
    clocked(number, rest)
}

/// Returns whether a year of four digits is at the front.
#[tactic(auto, unfolding(crate::specs::lenient::Date::is_year_first))]
fn is_year_first(text: &[u8]) -> bool
    ensures { result ≡ is_year_first text.now }
{
    let (digits, _) = digits_at(text);
    digits.len() == 4
}

/// Returns whether the first word of a text is a month and not a day of the week, given the text
/// after it.
#[tactic(auto, unfolding(crate::specs::lenient::Date::is_month_first))]
fn is_month_first(text: &[u8], rest: &[u8]) -> bool
    ensures { result ≡ is_month_first text.now rest.now }
{
    let (word, _) = letters_at(text);
    let (_, after) = digits_at(rest);
    month_named(word).is_some() && !has_letter(after_separator(after))
}

/// Reads month and day, and then the year, or a time and the year.
#[tactic(auto, unfolding(crate::specs::lenient::Date::month_first))]
fn month_first(text: &[u8]) -> Result<Moment, DateError>
    ensures read { result ≡ month_first text.now }
    ensures bounds { IfOk result (λ moment. (moment.0 < 2 ^ 60)
        × ((neg_ℤ (pos (10 ^ 13)) ≤ℤ moment.1.0) × (moment.1.0 ≤ℤ pos (10 ^ 13)))) }
{
    let (month, rest) = month_at(text)?;
    let (day, rest) = day_at(after_separator(rest))?;
    if has_time(rest) {
        return year_last(month, day, rest);
    }
    year_next(month, day, rest)
}

/// Returns whether a number and a colon are at the front.
#[tactic(auto, unfolding(crate::specs::lenient::Date::has_time))]
fn has_time(text: &[u8]) -> bool
    ensures { result ≡ has_time text.now }
{
    let (_, rest) = digits_at(text);
    after_mark(rest, b':').is_some()
}

/// Reads the year, the time and the zone, given the month and the day.
#[tactic(auto, unfolding(crate::specs::lenient::Date::year_next))]
fn year_next(month: usize, day: u64, text: &[u8]) -> Result<Moment, DateError>
    requires { month < 12 }
    ensures read { result ≡ year_next month day text.now }
    ensures bounds { IfOk result (λ moment. (moment.0 < 2 ^ 60)
        × ((neg_ℤ (pos (10 ^ 13)) ≤ℤ moment.1.0) × (moment.1.0 ≤ℤ pos (10 ^ 13)))) }
{
    let (year, rest) = year_at(after_separator(text))?;
    let number = day_in(year, month, day)?;
    clocked(number, after_separator(rest))
}

/// Reads the time, and the year and the zone, given the month and the day.
#[tactic(auto, unfolding(crate::specs::lenient::Date::year_last))]
fn year_last(month: usize, day: u64, text: &[u8]) -> Result<Moment, DateError>
    requires { month < 12 }
    ensures read { result ≡ year_last month day text.now }
    ensures bounds { IfOk result (λ moment. (moment.0 < 2 ^ 60)
        × ((neg_ℤ (pos (10 ^ 13)) ≤ℤ moment.1.0) × (moment.1.0 ≤ℤ pos (10 ^ 13)))) }
{
    let (time, rest) = time_at(text)?;
    let (year, zone) = year_and_zone(rest)?;
    let number = day_in(year, month, day)?;
    Ok((86_400 * number + time, zone))
}

/// Reads the year, and the zone before or after it.
#[tactic(auto, unfolding(crate::specs::lenient::Date::year_and_zone))]
fn year_and_zone(text: &[u8]) -> Result<(u64, (i64, bool)), DateError>
    ensures read { result ≡ year_and_zone text.now }
    ensures bounds { IfOk result (λ p. ((1900 ≤ p.0) × (p.0 < 2 ^ 30))
        × ((neg_ℤ (pos (10 ^ 13)) ≤ℤ p.1.0) × (p.1.0 ≤ℤ pos (10 ^ 13)))) }
{
    if has_digit(text) {
        let (year, rest) = year_at(text)?;
        let (zone, _) = zone_at(rest);
        return Ok((year, zone));
    }
    let (zone, rest) = zone_at(text);
    let (_, rest) = letters_at(rest);
    let (year, _) = year_at(rest)?;
    Ok((year, zone))
}

/// Reads a time and a zone, given the days from 1 January 1900.
#[tactic(auto, unfolding(crate::specs::lenient::Date::clocked))]
fn clocked(number: u64, text: &[u8]) -> Result<Moment, DateError>
    requires { number < 367 * 2 ^ 30 }
    ensures read { result ≡ clocked (number, text.now) }
    ensures bounds { IfOk result (λ moment. (moment.0 < 2 ^ 60)
        × ((neg_ℤ (pos (10 ^ 13)) ≤ℤ moment.1.0) × (moment.1.0 ≤ℤ pos (10 ^ 13)))) }
{
    let (time, rest) = time_at(text)?;
    let (zone, _) = zone_at(rest);
    Ok((86_400 * number + time, zone))
}
