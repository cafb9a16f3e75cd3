//! Dates as mail writes them (RFC 5322, sections 3.3 and 4.3).
ghost use Rattle.std.specs.Prelude.{◌≡◌, ◌<◌, ◌^◌, neg_ℤ, pos, ◌≤ℤ◌, ◌+ℤ◌};
ghost use Rattle.mail_read.specs.lenient.Date.{date_and_offset_of, date_of, since_1970};
ghost use Rattle.mail_read.specs.lenient.Date.{zoned_date_of};

mod calendar;
mod days;
mod error;
mod forms;
mod numbers;
mod times;
mod whitespace;
mod zones;

pub use error::DateError;
use forms::moment_at;
pub use numbers::number_of;

/// Returns the seconds from 1 January 1970, 00:00 UTC, to a date as written in mail: in the forms
/// of RFC 5322, section 3.3, in the obsolete ones of section 4.3, or in those of other writers.
///
/// The parts of a date are a day of the week and a comma, which may be missing and are not compared
/// with the date; a day of one digit or two, which must exist in the month; the name of a month,
/// its first three letters or `Sept`, ignoring case; a year; a time of day, whose seconds may be
/// missing; and a zone. The month may be first, and then the year may be last, before or after the
/// zone; the year is first if it has four digits, and then the month is a number and a `T` may be
/// before the time. `-`, `,`, `.` or `/` may separate day, month and year.
///
/// A year of two digits is from 1950 to 2049, one of three is counted from 1900, and one of four to
/// nine must be at least 1900. The second may be 60, and have a fraction. `AM` or `PM` may follow
/// the time. A zone is signs, of which the last counts, and one to four digits, or hours, a colon
/// and minutes; or a name. The names of the standard and the common ones of the time zone database,
/// such as `EST`, `CEST` and `JST`, have their offset; every other name, including a single letter,
/// means UTC, and so does a missing zone and any other text. Digits may follow `GMT` and `UTC`. The
/// text after the date is ignored. ASCII whitespace and comments, which may be nested, are allowed
/// between the parts and at both ends.
///
/// Unlike `mailparse::dateparse`, this reads `20:57 +0200`, without seconds, as it is meant. Does
/// not allocate.
///
/// # Errors
///
/// The first fault, in the order of the parts; but whether the day exists in the month is checked
/// only after the year is read.
///
/// # Examples
///
/// ```rust
/// use mail_read::lenient::{DateError, date_of};
///
/// assert_eq!(rt; date_of("Sun, 29 Jul 2012 20:57 +0200").ok(), Some(1_343_588_220));
/// assert_eq!(rt; date_of("21 Nov 97 09:55:06 GMT").ok(), Some(880_106_106));
/// assert_eq!(rt; date_of("2003-02-17T07:45:56Z").ok(), Some(1_045_467_956));
/// assert_eq!(rt; date_of("Sat Mar 24 21:23:03 EDT 2007").ok(), Some(1_174_785_783));
/// assert_eq!(rt; date_of("30 Feb 2012 20:57 +0200").err(), Some(DateError::Day));
/// ```
pub fn date_of(text: &str) -> Result<i64, DateError>
    ensures { result ≡ date_of text.now }
{
    let (seconds, _) = zoned_date_of(text)?;
    Ok(seconds)
}

/// Returns the seconds that `date_of` returns, and whether the zone of the date is known (RFC 5322,
/// sections 3.3 and 4.3): false if there is no zone, if it is `-0000`, or if `date_of` does not
/// know it.
///
/// Does not allocate.
///
/// # Errors
///
/// Those of `date_of`.
///
/// # Examples
///
/// ```rust
/// use mail_read::lenient::zoned_date_of;
///
/// assert_eq!(rt; zoned_date_of("1 Jan 1970 09:00 JST").ok(), Some((0, true)));
/// assert_eq!(rt; zoned_date_of("1 Jan 1970 00:00 XYZ").ok(), Some((0, false)));
/// ```
#[tactic(auto, unfolding(crate::specs::lenient::Date::zoned_date_of))]
pub fn zoned_date_of(text: &str) -> Result<(i64, bool), DateError>
    ensures { result ≡ zoned_date_of text.now }
{
    let (seconds, offset) = date_and_offset_of(text)?;
    Ok((seconds, offset.is_some()))
}

/// Returns the seconds that `date_of` returns, and the offset of the date's zone: the seconds by
/// which its clocks are ahead of UTC, or `None` if `zoned_date_of` reports that the zone is not
/// known (RFC 5322, sections 3.3 and 4.3).
///
/// Does not allocate.
///
/// # Errors
///
/// Those of `date_of`.
///
/// # Examples
///
/// ```rust
/// use mail_read::lenient::date_and_offset_of;
///
/// assert_eq!(rt; date_and_offset_of("1 Jan 1970 09:00 JST").ok(), Some((0, Some(32_400))));
/// assert_eq!(rt; date_and_offset_of("31 Dec 1969 23:30 -0030").ok(), Some((0, Some(-1_800))));
/// assert_eq!(rt; date_and_offset_of("1 Jan 1970 00:00 -0000").ok(), Some((0, None)));
/// ```
#[tactic(auto, unfolding(crate::specs::lenient::Date::date_and_offset_of))]
pub fn date_and_offset_of(text: &str) -> Result<(i64, Option<i64>), DateError>
    ensures { result ≡ date_and_offset_of text.now }
{
    let (seconds, (zone, is_known)) = moment_at(text.as_bytes())?;
    let offset = if is_known { Some(-zone) } else { None };
    Ok((since_1970(seconds, zone), offset))
}

/// Converts seconds since the start of 1900 to seconds since 1 January 1970, 0 h UTC, given the
/// seconds that the zone adds.
#[tactic(auto, unfolding(crate::specs::lenient::Date::day_number))]
fn since_1970(seconds: u64, zone: i64) -> i64
    requires seconds { seconds < 2 ^ 60 }
    requires zone { (neg_ℤ (pos (10 ^ 13)) ≤ℤ zone) × (zone ≤ℤ pos (10 ^ 13)) }
    ensures { result ≡ since_1970 seconds +ℤ zone }
{
    seconds as i64 - 2_208_988_800 + zone
}
