//! The words of a date: month, year, hour, minute, second and zone.
ghost use Rattle.std.specs.Prelude.{◌≡◌, ◌≤◌, ◌<◌, ◌^◌, IfOk, IfSome, option_map};
ghost use Rattle.mailparse.specs.Date.{from_zone, month_of, words, year_of, zone_of};
ghost use Rattle.mailparse.specs.Outcome.{Answers};
ghost use Rattle.mailparse.specs.Refusal.{generic};
ghost use Rattle.mailparse.specs.private.Date.{HasSizeAtMost, next_number};

use super::words::next_word;
use crate::error::MailParseError;
use mail_codec::calendar::month_named;
use mail_codec::names::look_up;

/// The names of zones with their offsets east of Greenwich, in hours times 100.
static ZONES: [(&str, i32); 36] = [
    ("UTC", 0),
    ("UT", 0),
    ("GMT", 0),
    ("Z", 0),
    ("EDT", -400),
    ("EST", -500),
    ("CDT", -500),
    ("CST", -600),
    ("MDT", -600),
    ("MST", -700),
    ("PDT", -700),
    ("PST", -800),
    ("A", -100),
    ("B", -200),
    ("C", -300),
    ("D", -400),
    ("E", -500),
    ("F", -600),
    ("G", -700),
    ("H", -800),
    ("I", -900),
    ("K", -1000),
    ("L", -1100),
    ("M", -1200),
    ("N", 100),
    ("O", 200),
    ("P", 300),
    ("Q", 400),
    ("R", 500),
    ("S", 600),
    ("T", 700),
    ("U", 800),
    ("V", 900),
    ("W", 1000),
    ("X", 1100),
    ("Y", 1200),
];

/// Returns the month that a word names, counted from 0.
pub(super) fn month_number(word: &str) -> Result<usize, MailParseError>
    ensures read { Answers (λ month. month) result (month_of word.now) }
    ensures bounds { IfOk result (λ month. month < 12) }
{
    match month_named(word.as_bytes()) {
        Some(month) => Ok(month),
        None => Err(MailParseError::Generic("Unrecognized month")),
    }
}

/// Returns the year that a word gives: a number below 70 counts from 2000, one from 70 to 99 from
/// 1900.
#[tactic(auto, using(crate::proofs::lemmas::Date::numbers))]
pub(super) fn year_number(word: &str) -> Result<u32, MailParseError>
    ensures read { Answers (λ year. year) result (year_of word.now) }
    ensures bounds { IfOk result (λ year. (1970 ≤ year) × (year < 2 ^ 32)) }
{
    let Ok(year) = word.parse::<u32>() else {
        return Err(MailParseError::Generic("Invalid year"));
    };
    if year < 70 {
        return Ok(2000 + year);
    }
    if year < 100 {
        return Ok(1900 + year);
    }
    if year < 1970 {
        return Err(MailParseError::Generic("Disallowed year"));
    }
    Ok(year)
}

/// Returns the number below 256 that the first word of a text gives, and the text after it, or
/// `None` if there is no word. Any other word is refused with the text `refusal`.
#[tactic(auto, using(crate::proofs::lemmas::Date::numbers))]
pub(super) fn next_number<'t>(
    text: &'t str,
    refusal: &'static str,
) -> Result<Option<(u32, &'t str)>, MailParseError>
    ensures read { Answers (λ found. option_map (λ p. (p.0, words p.1.now)) found) result
        (next_number (generic refusal.now) (words text.now)) }
    ensures bounds { IfOk result (λ found. IfSome found (λ p. p.0 < 256)) }
{
    let Some((word, rest)) = next_word(text) else {
        return Ok(None);
    };
    match word.parse::<u8>() {
        Ok(number) => Ok(Some((u32::from(number), rest))),
        Err(_) => Err(MailParseError::Generic(refusal)),
    }
}

/// Returns the seconds that the zone at the front of a text adds.
pub(super) fn zone_seconds(text: &str) -> Result<i64, MailParseError>
    ensures read { Answers (λ seconds. seconds) result (from_zone (words text.now)) }
    ensures bounds { IfOk result (HasSizeAtMost 100000) }
{
    let Some((word, _)) = next_word(text) else {
        return Ok(0);
    };
    let zone = zone_number(word)?;
    let size = zone.unsigned_abs();
    let seconds = i64::from(3600 * (size / 100) + 60 * (size % 100));
    if zone < 0 { Ok(seconds) } else { Ok(-seconds) }
}

/// Returns the zone that a word gives, as hours times 100 plus minutes: a number, or a name.
#[tactic(auto, using(crate::proofs::lemmas::Date::zone_numbers), unfolding(crate::specs::Date::zone_of))]
fn zone_number(word: &str) -> Result<i32, MailParseError>
    ensures read { Answers (λ zone. zone) result (zone_of word.now) }
    ensures bounds { IfOk result (HasSizeAtMost 2400) }
{
    let Ok(zone) = word.parse::<i32>() else {
        return match look_up(&ZONES, word.as_bytes()) {
            Some(zone) => Ok(zone),
            None => Err(MailParseError::Generic("Invalid timezone")),
        };
    };
    if zone.unsigned_abs() > 2400 {
        return Err(MailParseError::Generic("Invalid timezone"));
    }
    Ok(zone)
}
