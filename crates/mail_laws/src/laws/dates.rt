//! Days, in seconds, and the dates of mails.
ghost use Rattle.std.specs.Prelude.{◌*◌, ◌+◌, ◌-◌, ◌/◌, ◌<◌, ◌≡◌, ◌≤◌, ℕ, Ok, codes, pos, slice_index};
ghost use Rattle.mail_codec.specs.Calendar.{day_number, days_of_years, month_lengths};
ghost use Rattle.mail_read.specs.lenient.Date.{date_of};
ghost use Rattle.mailparse.specs.Date.{date_seconds};
ghost use Rattle.mail_laws.specs.StrictDates.{IsStrictDate, StrictDate, date_text, standard_date, strict_seconds};

/// The days of the years from 1970 up to a given year, added one by one, are 365 for each year and
/// one more for each leap year. Every fourth year is a leap year, except that only every fourth of
/// the full centuries is; 477 leap years come before 1970.
pub fn leap_days_are_counted()
    ensures { (year : ℕ) → 1970 ≤ year →
        days_of_years (year - 1970) + ((year - 1) / 100 + 477)
        ≡ 365 * (year - 1970) + ((year - 1) / 4 + (year - 1) / 400) }
{}

/// The seconds of a day and of the next differ by 86,400: within a month, from the last day of a
/// month to the first of the next, and from 31 December to 1 January.
pub fn days_follow_each_other()
    ensures in_month { (year month day : ℕ) → 1 ≤ day →
        86400 * day_number year month (day + 1) ≡ 86400 * day_number year month day + 86400 }
    ensures to_next_month { (year month : ℕ) → month < 11 →
        86400 * day_number year (month + 1) 1
        ≡ 86400 * day_number year month (slice_index (month_lengths year) month) + 86400 }
    ensures to_next_year { (year : ℕ) → 1970 ≤ year →
        86400 * day_number (year + 1) 0 1 ≡ 86400 * day_number year 11 31 + 86400 }
{}

/// A date in the form that the standard asks for (RFC 5322, section 3.3) is read alike by the port
/// and leniently: both count its seconds from 1970. The date has spaces between its pieces, and
/// seconds. Its day is one of its month, its year is at least 1970, its zone is at most 24 hours,
/// and comments may follow its zone after a space. The date of the standard's first example is one.
pub fn strict_dates_agree()
    ensures port { (date : StrictDate) → IsStrictDate date →
        date_seconds (date_text date) ≡ Ok (strict_seconds date) }
    ensures lenient { (date : StrictDate) → IsStrictDate date →
        date_of (date_text date) ≡ Ok (strict_seconds date) }
    ensures example { IsStrictDate standard_date }
    ensures example_text { date_text standard_date ≡ codes "Fri, 21 Nov 1997 09:55:06 -0600" }
    ensures example_seconds { strict_seconds standard_date ≡ pos 880127706 }
{}
