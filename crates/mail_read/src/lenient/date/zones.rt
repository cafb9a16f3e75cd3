//! The zone of a date.
ghost use Rattle.std.specs.Prelude.{◌≡◌, ◌≤◌, ◌<◌, ◌*◌, ◌^◌, length, neg_ℤ, pos, ◌≤ℤ◌, option_map, IfSome};
ghost use Rattle.mail_codec.specs.Names.{look_up};
ghost use Rattle.mail_read.specs.lenient.Date.{after_quote, directed, ends_name, hours_then, is_name_end};
ghost use Rattle.mail_read.specs.lenient.Date.{is_universal, named_zone, offset_at, signed_at, zone_at, zone_names};
ghost use Rattle.mail_read.specs.lenient.DateViews.{part_and_rest};

use super::numbers::{number_of, small_number};
use super::whitespace::{after_mark, digits_at, has_letter, letters_at, signs_at};
use mail_codec::names::look_up;

/// The known names of zones, with the seconds that each adds: positive in the west of Greenwich,
/// where clocks are slow.
static ZONES: [(&str, i32); 45] = [
    ("UTC", 0),
    ("UT", 0),
    ("GMT", 0),
    ("Z", 0),
    ("EDT", 14_400),
    ("EST", 18_000),
    ("CDT", 18_000),
    ("CST", 21_600),
    ("MDT", 21_600),
    ("MST", 25_200),
    ("PDT", 25_200),
    ("PST", 28_800),
    ("NST", 12_600),
    ("NDT", 9_000),
    ("AST", 14_400),
    ("ADT", 10_800),
    ("AKST", 32_400),
    ("AKDT", 28_800),
    ("HST", 36_000),
    ("WET", 0),
    ("WEST", -3_600),
    ("CET", -3_600),
    ("CEST", -7_200),
    ("MET", -3_600),
    ("MEST", -7_200),
    ("MEZ", -3_600),
    ("MESZ", -7_200),
    ("EET", -7_200),
    ("EEST", -10_800),
    ("MSD", -14_400),
    ("WAT", -3_600),
    ("CAT", -7_200),
    ("SAST", -7_200),
    ("EAT", -10_800),
    ("PKT", -18_000),
    ("WIB", -25_200),
    ("HKT", -28_800),
    ("AWST", -28_800),
    ("JST", -32_400),
    ("ACST", -34_200),
    ("ACDT", -37_800),
    ("AEST", -36_000),
    ("AEDT", -39_600),
    ("NZST", -43_200),
    ("NZDT", -46_800),
];

/// Reads the zone at the front: the seconds that it adds, whether it is known, and the text after
/// it.
#[tactic(auto, unfolding(crate::specs::lenient::Date::zone_at))]
pub(super) fn zone_at(text: &[u8]) -> ((i64, bool), &[u8])
    ensures value { part_and_rest result ≡ zone_at text.now }
    ensures bounds { (neg_ℤ (pos (10 ^ 13)) ≤ℤ result.0.0) × (result.0.0 ≤ℤ pos (10 ^ 13)) }
{
    let (name, rest) = letters_at(after_quote(text));
    if name.is_empty() || is_universal(name) {
        if let Some(signed) = signed_at(rest) {
            return signed;
        }
    }
    (named_zone(name, rest), rest)
}

/// Skips a quotation mark at the front, if it is there.
#[tactic(auto, unfolding(crate::specs::lenient::Date::after_quote))]
fn after_quote(text: &[u8]) -> &[u8]
    ensures { result.now ≡ after_quote text.now }
{
    match after_mark(text, b'"') {
        Some(rest) => rest,
        None => text,
    }
}

/// Reads signs and digits: the seconds that they add, whether the zone is known, and the text after
/// them, or `None` if they are not both there.
#[tactic(auto, unfolding(crate::specs::lenient::Date::signed_at))]
fn signed_at(text: &[u8]) -> Option<((i64, bool), &[u8])>
    ensures read { option_map part_and_rest result ≡ signed_at text.now }
    ensures bounds { IfSome result (λ p.
        (neg_ℤ (pos (10 ^ 13)) ≤ℤ p.0.0) × (p.0.0 ≤ℤ pos (10 ^ 13))) }
{
    let (signs, rest) = signs_at(text);
    if signs.is_empty() {
        return None;
    }
    let (offset, rest) = offset_at(rest)?;
    Some((directed(signs, offset), rest))
}

/// Returns the zone of an offset after signs.
fn directed(signs: &[u8], offset: u64) -> (i64, bool)
    requires signs { 1 ≤ length signs.now }
    requires offset { offset ≤ 10 ^ 13 }
    ensures value { result ≡ directed signs.now offset }
    ensures bounds { (neg_ℤ (pos (10 ^ 13)) ≤ℤ result.0) × (result.0 ≤ℤ pos (10 ^ 13)) }
{
    if signs[signs.len() - 1] == b'-' {
        return (offset as i64, offset != 0);
    }
    (-(offset as i64), true)
}

/// Reads one to four digits at the front: the seconds that they denote, and the text after them.
#[tactic(auto, unfolding(crate::specs::lenient::Date::offset_at))]
fn offset_at(text: &[u8]) -> Option<(u64, &[u8])>
    ensures read { option_map part_and_rest result ≡ offset_at text.now }
    ensures bounds { IfSome result (λ p. p.0 ≤ 10 ^ 13) }
{
    let (digits, rest) = digits_at(text);
    if digits.len() < 1 || digits.len() > 4 {
        return None;
    }
    let number = number_of(digits);
    if digits.len() < 3 {
        return Some(hours_then(number, rest));
    }
    Some((3600 * (number / 100) + 60 * (number % 100), rest))
}

/// Returns the seconds of hours, and of the minutes after a colon, if they are there, and the text
/// after them.
#[tactic(auto, unfolding(crate::specs::lenient::Date::hours_then))]
fn hours_then(hours: u64, text: &[u8]) -> (u64, &[u8])
    requires { hours < 10 ^ 9 }
    ensures value { part_and_rest result ≡ hours_then hours text.now }
    ensures bounds { result.0 ≤ 3600 * 10 ^ 9 }
{
    let seconds = 3600 * hours;
    let Some(rest) = after_mark(text, b':') else {
        return (seconds, text);
    };
    match small_number(rest, 59) {
        Some((minutes, rest)) => (seconds + 60 * minutes, rest),
        None => (seconds, text),
    }
}

/// Returns whether digits may follow a name.
fn is_universal(name: &[u8]) -> bool
    ensures { result ≡ is_universal name.now }
{
    name.eq_ignore_ascii_case(b"GMT")
        || name.eq_ignore_ascii_case(b"UTC")
        || name.eq_ignore_ascii_case(b"UT")
}

/// Returns the zone with a name before a text: UTC if the name is not known or missing.
#[tactic(auto, unfolding(crate::specs::lenient::Date::named_zone))]
fn named_zone(name: &[u8], rest: &[u8]) -> (i64, bool)
    ensures value { result ≡ named_zone name.now rest.now }
    ensures bounds { (neg_ℤ (pos (10 ^ 13)) ≤ℤ result.0) × (result.0 ≤ℤ pos (10 ^ 13)) }
{
    if !is_name_end(rest) {
        return (0, false);
    }
    match zone_named(name) {
        Some(added) => (i64::from(added), true),
        None => (0, false),
    }
}

/// Returns whether the name of a zone ends before a text, and no word follows it.
#[tactic(auto, unfolding(crate::specs::lenient::Date::is_name_end))]
fn is_name_end(rest: &[u8]) -> bool
    ensures { result ≡ is_name_end rest.now }
{
    let Some((byte, _)) = rest.split_first() else {
        return !has_letter(rest);
    };
    ends_name(*byte) && !has_letter(rest)
}

/// Returns whether a byte may follow the name of a zone.
fn ends_name(byte: u8) -> bool
    ensures { result ≡ ends_name byte }
{
    byte.is_ascii_whitespace()
        || byte == b'('
        || byte == b'"'
        || byte == b','
        || byte == b'.'
        || byte == b';'
}

/// Returns the seconds that the zone with a name adds, or `None` if the name is not known.
fn zone_named(name: &[u8]) -> Option<i32>
    ensures { result ≡ look_up zone_names name.now }
{
    look_up(&ZONES, name)
}
