//! Texts without the whitespace around them.
ghost use Rattle.std.specs.Prelude.{◌≡◌, ◌<◌, ◌-◌, get_or, length, true};
ghost use Rattle.std.specs.Char.{is_ascii_graphic};
ghost use Rattle.std.specs.Str.{trim};

use crate::header::plain::begins_visibly;

/// Returns a text without the whitespace around it. Most texts begin with a visible character, or
/// with one space before it, and end with a visible character. They are not decoded.
pub(super) fn trimmed(text: &str) -> &str
    ensures { result.now ≡ trim text.now }
{
    let rest = after_space(text);
    let bytes = rest.as_bytes();
    if begins_visibly(bytes) && ends_visibly(bytes) {
        return rest;
    }
    rest.trim()
}

/// Returns a text without its first character if this is a space.
#[tactic(auto, using(crate::proofs::lemmas::Trims::spaces))]
fn after_space(text: &str) -> &str
    ensures { trim result.now ≡ trim text.now }
{
    let bytes = text.as_bytes();
    if bytes.is_empty() || bytes[0] != b' ' {
        return text;
    }
    &text[1..]
}

/// Returns whether the last byte is a visible ASCII character.
fn ends_visibly(bytes: &[u8]) -> bool
    ensures { result ≡ true → (0 < length bytes.now)
        × (is_ascii_graphic (get_or bytes.now (length bytes.now - 1) 0) ≡ true) }
{
    match bytes.last() {
        Some(byte) => byte.is_ascii_graphic(),
        None => false,
    }
}
