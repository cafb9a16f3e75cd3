//! Headers that clearly give no file name, so that their values need not be read.
ghost use Rattle.std.specs.Prelude.{◌≡◌, ◌≤◌, ◌∷◌, false, true, codes, get_or, is_some, length};
ghost use Rattle.std.specs.Str.{IsAscii};
ghost use Rattle.mailparse.specs.Mail.{root};
ghost use Rattle.mailparse.specs.Views.{tree_of};
ghost use Rattle.mail_records.specs.Nameless.{has_am_after, is_a, is_nameless, is_nameless_part};
ghost use Rattle.mail_records.specs.Nameless.{lacks_name};

use crate::lookup::first_header;
use mail_codec::bytescan::find_either;
use mailparse::{DispositionType, ParsedMail};

/// Returns whether a part with this disposition clearly has no file name: neither the header of its
/// disposition, which is read only if the part has one, nor its type gives one.
pub(crate) fn is_nameless_part(part: &ParsedMail<'_>, disposition: &Option<DispositionType>) -> bool
    requires { is_some disposition.now ≡ false →
        lacks_name (codes "Content-Disposition") (root (tree_of part.now)) ≡ true }
    ensures { result ≡ is_nameless_part (root (tree_of part.now)) }
{
    if disposition.is_none() {
        return lacks_name(part, "Content-Type");
    }
    if !lacks_name(part, "Content-Disposition") {
        return false;
    }
    lacks_name(part, "Content-Type")
}

/// Returns whether the first header of a part with this name clearly gives no file name, or there
/// is no such header.
fn lacks_name(part: &ParsedMail<'_>, header: &str) -> bool
    requires { IsAscii header.now }
    ensures { result ≡ lacks_name header.now (root (tree_of part.now)) }
{
    match first_header(part, header) {
        Some(found) => is_nameless(found.get_value_raw()),
        None => true,
    }
}

/// Returns whether the raw value of a header clearly gives no file name: it is ASCII and contains
/// neither `*` nor `?` nor `am`.
pub(crate) fn is_nameless(raw: &[u8]) -> bool
    ensures { result ≡ is_nameless raw.now }
{
    if !raw.is_ascii() {
        return false;
    }
    if find_either(raw, b'*', b'?').is_some() {
        return false;
    }
    !has_am(raw)
}

/// Returns whether a text contains `am` in any case, as `name` does.
fn has_am(text: &[u8]) -> bool
    ensures { result ≡ has_am_after 0 text.now }
{
    let mut rest = text;
    'letters: while let Some(place) = find_either(rest, b'm', b'M') {
        if is_a_before(rest, place) {
            return true;
        }
        rest = &rest[place + 1..];
    }
    false
}

/// Returns whether the byte before `place` is `a` or `A`.
fn is_a_before(text: &[u8], place: usize) -> bool
    requires { place ≤ length text.now }
    ensures { result ≡ is_a (get_or (0 ∷ text.now) place 0) }
{
    place > 0 && matches!(text[place - 1], b'a' | b'A')
}
