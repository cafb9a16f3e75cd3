//! Days of the Gregorian calendar from 1900 onwards, counted without a loop.
ghost use Rattle.std.specs.Prelude.{◌≡◌, ◌+◌, ◌≤◌, ◌<◌, ◌*◌, ◌^◌};
ghost use Rattle.mail_read.specs.lenient.Date.{day_number, days_of_years, month_length};

use mail_codec::calendar::{days_of_months, is_leap_year};

/// The lengths of the months of a common year in days.
static LENGTHS: [u64; 12] = [31, 28, 31, 30, 31, 30, 31, 31, 30, 31, 30, 31];

/// Returns the number of days from 1 January 1900 to a day; months are counted from 0.
#[tactic(auto, unfolding(crate::specs::lenient::Date::day_number))]
pub(super) fn day_number(year: u64, month: usize, day: u64) -> u64
    requires year { (1900 ≤ year) × (year < 2 ^ 30) }
    requires month { month < 12 }
    requires day { (1 ≤ day) × (day ≤ 31) }
    ensures value { result ≡ day_number year month day }
    ensures bounds { result < 367 * 2 ^ 30 }
{
    days_of_years(year - 1900) + days_of_months(year, month) + (day - 1)
}

/// Returns the number of days of a month, counted from 0.
#[tactic(auto, unfolding(crate::specs::lenient::Date::month_length))]
pub(super) fn month_length(year: u64, month: usize) -> u64
    requires { month < 12 }
    ensures value { result ≡ month_length year month }
    ensures bounds { result ≤ 31 }
{
    if month == 1 && is_leap_year(year) {
        29
    } else {
        LENGTHS[month]
    }
}

/// Returns the number of days of `count` years from 1900 onwards; there are 460 leap years before
/// 1900.
fn days_of_years(count: u64) -> u64
    requires { count < 2 ^ 30 }
    ensures value { result ≡ days_of_years count }
    ensures bounds { result < 366 * 2 ^ 30 + 1000 }
{
    let last = 1899 + count;
    365 * count + (last / 4 - last / 100 + last / 400) - 460
}
