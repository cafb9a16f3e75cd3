//! Extended parameters whose charset is not known.
ghost use Rattle.std.specs.Prelude.{◌≡◌, IfOk, string_bytes};
ghost use Rattle.mail_read.specs.Files.{left_over_text, text_of_octets, untagged};

use mail_codec::charset::Charset;
use percent_encoding::percent_decode;
use std::alloc::{AllocError, Global};

/// Returns the text of an extended value whose charset is blank, unknown or missing.
#[tactic(auto, unfolding(crate::specs::Files::left_over_text))]
pub(super) fn left_over_text(alloc: Global, value: &str) -> Result<String, AllocError>
    ensures { IfOk result (λ text. string_bytes text ≡ left_over_text value.now) }
{
    let mut bytes = Vec::new(alloc);
    percent_decode(untagged(value).as_bytes()).append_to(&mut bytes)?;
    text_of_octets(alloc, bytes.as_slice())
}

/// Returns the text after the second apostrophe of an extended value, or the whole value if it has
/// fewer than two.
#[tactic(auto, unfolding(crate::specs::Files::untagged))]
fn untagged(value: &str) -> &str
    ensures { result.now ≡ untagged value.now }
{
    let Some((_, rest)) = value.split_once('\'') else {
        return value;
    };
    match rest.split_once('\'') {
        Some((_, text)) => text,
        None => value,
    }
}

/// Returns the text of bytes in an unknown charset: they are UTF-8 if all of them are, and otherwise
/// windows-1252. Allocates the text.
///
/// # Errors
///
/// `AllocError` if it runs out of memory.
///
/// # Examples
///
/// ```rust
/// use mail_read::files::text_of_octets;
///
/// assert_eq!(rt; text_of_octets(alloc, b"\xc3\xa9")?.as_str(), "\u{e9}");
/// assert_eq!(rt; text_of_octets(alloc, b"\xe9")?.as_str(), "\u{e9}");
/// ```
#[tactic(auto, unfolding(crate::specs::Files::text_of_octets))]
pub fn text_of_octets(alloc: Global, bytes: &[u8]) -> Result<String, AllocError>
    ensures { IfOk result (λ text. string_bytes text ≡ text_of_octets bytes.now) }
{
    match str::from_utf8(bytes) {
        Ok(text) => String::from_str(alloc, text),
        Err(_) => Charset::Windows1252.decode_without_bom_handling(alloc, bytes),
    }
}
