//! The numbers in a date.
ghost use Rattle.std.specs.Prelude.{◌≡◌, ◌≤◌, ◌<◌, ◌^◌, length, option_map, IfSome};
ghost use Rattle.std.specs.Str.Parse.{AllDigits, digits_value};
ghost use Rattle.mail_read.specs.lenient.Date.{small_number};
ghost use Rattle.mail_read.specs.lenient.DateViews.{part_and_rest};

use super::whitespace::digits_at;

/// Reads a number of one digit or two, after whitespace and comments, if it is at most `most`, and
/// the text after it.
#[tactic(auto, unfolding(crate::specs::lenient::Date::small_number))]
pub(super) fn small_number(text: &[u8], most: u64) -> Option<(u64, &[u8])>
    ensures value { option_map part_and_rest result ≡ small_number most text.now }
    ensures bounds { IfSome result (λ p. p.0 ≤ most) }
{
    let (digits, rest) = digits_at(text);
    if digits.len() < 1 || digits.len() > 2 {
        return None;
    }
    let number = number_of(digits);
    if number > most {
        return None;
    }
    Some((number, rest))
}

/// Returns the number that at most nine ASCII digits denote, 0 for none.
///
/// # Examples
///
/// ```rust
/// use mail_read::lenient::number_of;
///
/// assert_eq!(rt; number_of(b"042"), 42);
/// ```
pub fn number_of(digits: &[u8]) -> u64
    requires digits { AllDigits 10 digits.now }
    requires short { length digits.now ≤ 9 }
    ensures value { result ≡ digits_value 10 digits.now }
    ensures bounds { result < 10 ^ 9 }
{
    let mut number = 0;
    for digit in digits {
        number = 10 * number + u64::from(*digit - b'0');
    }
    number
}
