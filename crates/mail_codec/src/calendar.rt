//! Days of the proleptic Gregorian calendar (ISO 8601), counted without a loop, and the English
//! names of its months.
ghost use Rattle.std.specs.Prelude.{◌≡◌, ◌≤◌, ◌<◌, ◌*◌, ◌^◌, map, take, sum, pos, IfSome};
ghost use Rattle.std.specs.List.{list_any};
ghost use Rattle.std.specs.Str.{bytes_eq};
ghost use Rattle.mail_codec.specs.Calendar.{day_number, days_of_years, is_leap_year, month_lengths};
ghost use Rattle.mail_codec.specs.Calendar.{is_month_abbreviation, months};
ghost use Rattle.mail_codec.specs.Names.{look_up, row_view};

use crate::names::look_up;

/// The number of days before each month, in a common year.
static DAYS_BEFORE: [u64; 12] = [0, 31, 59, 90, 120, 151, 181, 212, 243, 273, 304, 334];

/// The names of the months, abbreviated and in full, with the number of the month counted from 0.
static MONTHS: [(&str, usize); 23] = [
    ("Jan", 0),
    ("January", 0),
    ("Feb", 1),
    ("February", 1),
    ("Mar", 2),
    ("March", 2),
    ("Apr", 3),
    ("April", 3),
    ("May", 4),
    ("Jun", 5),
    ("June", 5),
    ("Jul", 6),
    ("July", 6),
    ("Aug", 7),
    ("August", 7),
    ("Sep", 8),
    ("September", 8),
    ("Oct", 9),
    ("October", 9),
    ("Nov", 10),
    ("November", 10),
    ("Dec", 11),
    ("December", 11),
];

/// Returns the number of days from 1 January 1970 to a day. Months are counted from 0, and a `day`
/// past the end of its month lies in the next one.
///
/// Does not allocate.
///
/// # Examples
///
/// ```rust
/// use mail_codec::calendar::day_number;
///
/// assert_eq!(rt; day_number(1970, 0, 1), 0);
/// assert_eq!(rt; day_number(2000, 1, 30), day_number(2000, 2, 1));
/// ```
pub fn day_number(year: u32, month: usize, day: u8) -> i64
    requires year { 1970 ≤ year }
    requires month { month < 12 }
    requires day { 1 ≤ day }
    ensures value { result ≡ pos (day_number year month day) }
    ensures bounds { day_number year month day < 2 ^ 41 }
{
    let year = u64::from(year);
    let days = days_of_years(year - 1970) + days_of_months(year, month);
    (days + u64::from(day) - 1) as i64
}

/// Returns whether a year is a leap year.
///
/// Does not allocate.
///
/// # Examples
///
/// ```rust
/// use mail_codec::calendar::is_leap_year;
///
/// assert!(rt; is_leap_year(2000));
/// assert!(rt; !is_leap_year(1900));
/// ```
pub fn is_leap_year(year: u64) -> bool
    ensures { result ≡ is_leap_year year }
{
    year % 4 == 0 && (year % 100 != 0 || year % 400 == 0)
}

/// The number of days of the first `count` years from 1970 onwards. 477 leap years precede 1970.
fn days_of_years(count: u64) -> u64
    requires { count < 2 ^ 32 }
    ensures value { result ≡ days_of_years count }
    ensures bounds { result < 366 * 2 ^ 32 }
{
    let last = 1969 + count;
    365 * count + (last / 4 - last / 100 + last / 400) - 477
}

/// Returns the number of days of a year before its month `month`, which is counted from 0.
///
/// Does not allocate.
///
/// # Examples
///
/// ```rust
/// use mail_codec::calendar::days_of_months;
///
/// assert_eq!(rt; days_of_months(2000, 2), 60);
/// assert_eq!(rt; days_of_months(2001, 2), 59);
/// ```
pub fn days_of_months(year: u64, month: usize) -> u64
    requires { month < 12 }
    ensures value { result ≡ sum (take month (month_lengths year)) }
    ensures bounds { result < 366 }
{
    if month > 1 && is_leap_year(year) {
        DAYS_BEFORE[month] + 1
    } else {
        DAYS_BEFORE[month]
    }
}

/// Returns the month that a word names, counted from 0, or `None` if it names no month. The word is
/// an English name in full or its first three letters (RFC 5322, section 3.3); ASCII case is
/// ignored.
///
/// Does not allocate.
///
/// # Examples
///
/// ```rust
/// use mail_codec::calendar::month_named;
///
/// assert_eq!(rt; month_named(b"feb"), Some(1));
/// assert_eq!(rt; month_named(b"December"), Some(11));
/// assert!(rt; month_named(b"Decem").is_none());
/// ```
pub fn month_named(word: &[u8]) -> Option<usize>
    ensures value { result ≡ look_up months word.now }
    ensures bounds { IfSome result (λ month. month < 12) }
{
    look_up(&MONTHS, word)
}

/// Returns whether a word is the name of a month in three letters, the first of them in upper case
/// (RFC 5322, section 3.3).
///
/// Does not allocate.
///
/// # Examples
///
/// ```rust
/// use mail_codec::calendar::is_month_abbreviation;
///
/// assert!(rt; is_month_abbreviation(b"Feb"));
/// assert!(rt; !is_month_abbreviation(b"feb"));
/// assert!(rt; !is_month_abbreviation(b"February"));
/// ```
pub fn is_month_abbreviation(word: &[u8]) -> bool
    ensures { result ≡ is_month_abbreviation word.now }
{
    word.len() == 3 && has_name(&MONTHS, word)
}

/// Whether a word is a name of a table, in the same case.
fn has_name(table: &[(&str, usize)], word: &[u8]) -> bool
    ensures { result ≡ list_any (λ row. bytes_eq word.now row.0) (map row_view table.now) }
{
    for (name, _) in table {
        if word == name.as_bytes() {
            return true;
        }
    }
    false
}
