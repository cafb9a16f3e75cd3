//! The date of a header as seconds (RFC 5322, sections 3.3 and 4.3).
ghost use Rattle.std.specs.Prelude.{◌≡◌, ◌<◌, ◌≤◌, [], IfOk, MatchOption};
ghost use Rattle.mailparse.specs.Date.{date_seconds, date_words, from_hour, from_year, words};
ghost use Rattle.mailparse.specs.Outcome.{Answers};
ghost use Rattle.mailparse.specs.private.Date.{IsFirstNumber, HasSizeAtMost};

mod fields;
mod words;

use crate::error::MailParseError;
use fields::{month_number, next_number, year_number, zone_seconds};
use mail_codec::calendar::day_number;
use words::next_word;

/// Returns the seconds from 1 January 1970, 00:00 UTC, to a date as written in mail (RFC 5322,
/// sections 3.3 and 4.3).
///
/// The words, separated by spaces and colons, are a day, a month, a year, an hour, a minute, a
/// second and a zone, in this order. Text before the first number below 256 and after the zone is
/// ignored. Words at the end may be missing: a text without a year gives 0. A year below 100 is one
/// from 1970 to 2069, and a day past the end of its month lies in the next one. Does not allocate.
///
/// # Errors
///
/// `MailParseError::Generic` for the first invalid word, with the text:
///
/// - `Invalid day` for a day that is not from 1 to 31,
/// - `Unrecognized month` for a month that is not a known name,
/// - `Invalid year` for a year that is not a number below 2^32,
/// - `Disallowed year` for a year from 100 to 1969,
/// - `Invalid hour`, `Invalid minute` or `Invalid second` for one that is not a number below 256,
/// - `Invalid timezone` for a zone that is neither a number from -2400 to 2400 nor a known name.
///
/// # Examples
///
/// ```rust
/// use mailparse::dateparse;
///
/// assert_eq!(rt; dateparse("Sun, 02 Oct 2016 07:06:22 -0700 (PDT)")?, 1475417182);
/// assert_eq!(rt; dateparse("1 Jan 70 00:01")?, 60);
/// assert!(rt; dateparse("1 Foo 2000").is_err());
/// ```
#[tactic(auto, unfolding(crate::specs::Date::date_seconds))]
pub fn dateparse(date: &str) -> Result<i64, MailParseError>
    ensures { Answers (λ seconds. seconds) result (date_seconds date.now) }
{
    let Some((day, rest)) = first_number(date) else {
        return Ok(0);
    };
    if day < 1 || day > 31 {
        return Err(MailParseError::Generic("Invalid day"));
    }
    let Some((word, rest)) = next_word(rest) else {
        return Ok(0);
    };
    let month = month_number(word)?;
    from_year(month, day, rest)
}

/// Returns the first word that is a number below 256, and the text after it.
#[tactic(auto, using(crate::proofs::lemmas::Date::numbers))]
fn first_number(date: &str) -> Option<(u8, &str)>
    ensures { MatchOption result (date_words (words date.now) ≡ [])
        (λ p. IsFirstNumber date.now p.0 p.1.now) }
{
    let mut rest = date;
    while let Some((word, after)) = next_word(rest) {
        rest = after;
        if let Ok(number) = word.parse::<u8>() {
            return Some((number, after));
        }
    }
    None
}

/// Returns the seconds from 1 January 1970 to the year and time that a text begins with, on a day
/// of a month.
fn from_year(month: usize, day: u8, text: &str) -> Result<i64, MailParseError>
    requires month { month < 12 }
    requires some { 1 ≤ day }
    requires day { day ≤ 31 }
    ensures { Answers (λ seconds. seconds) result (from_year month day (words text.now)) }
{
    let Some((word, rest)) = next_word(text) else {
        return Ok(0);
    };
    let year = year_number(word)?;
    Ok(86_400 * day_number(year, month, day) + time_of_day(rest)?)
}

/// Returns the seconds of the hour, the minute, the second and the zone that a text begins with.
/// Missing words add nothing.
fn time_of_day(text: &str) -> Result<i64, MailParseError>
    ensures read { Answers (λ seconds. seconds) result (from_hour (words text.now)) }
    ensures bounds { IfOk result (HasSizeAtMost 1100000) }
{
    let Some((hour, rest)) = next_number(text, "Invalid hour")? else {
        return Ok(0);
    };
    let Some((minute, rest)) = next_number(rest, "Invalid minute")? else {
        return Ok(i64::from(3600 * hour));
    };
    let Some((second, rest)) = next_number(rest, "Invalid second")? else {
        return Ok(i64::from(3600 * hour + 60 * minute));
    };
    Ok(i64::from(3600 * hour + 60 * minute + second) + zone_seconds(rest)?)
}
