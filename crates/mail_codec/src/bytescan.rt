//! Searches in bytes. Offsets are counted in bytes from 0.
ghost use Rattle.std.specs.Prelude.{◌≡◌, ◌∷◌, [], IfOk};
ghost use Rattle.mail_codec.specs.Escapes.{escape_place};
ghost use Rattle.mail_codec.specs.Places.{byte_place, either_place, text_place, without_ascii_whitespace};

mod alternatives;
mod escapes;
mod pairs;
pub(crate) mod runs;
mod single;

use alternatives::either_len;
use escapes::escape_len;
use pairs::{WIDE, pair_len};
use runs::{RunEnd, push_runs};
use single::byte_len;
use std::alloc::{AllocError, Global};

/// Returns the offset of the first `byte` in `haystack`, or `None` if it does not occur.
///
/// Does not allocate.
///
/// # Examples
///
/// ```rust
/// use mail_codec::bytescan::find_byte;
///
/// assert_eq!(rt; find_byte(b"a: b", b':'), Some(1));
/// assert_eq!(rt; find_byte(b"a: b", b';'), None);
/// ```
#[inline(always)]
pub fn find_byte(haystack: &[u8], byte: u8) -> Option<usize>
    ensures { result ≡ byte_place haystack.now byte }
{
    let place = byte_len(haystack, byte);
    if place == haystack.len() {
        return None;
    }
    Some(place)
}

/// Returns the offset of the first `first` or `second` in `haystack`, or `None` if neither occurs.
///
/// Does not allocate.
///
/// # Examples
///
/// ```rust
/// use mail_codec::bytescan::find_either;
///
/// assert_eq!(rt; find_either(b"a: b\n", b'\n', b':'), Some(1));
/// assert_eq!(rt; find_either(b"a: b\n", b';', b'='), None);
/// ```
#[inline(always)]
pub fn find_either(haystack: &[u8], first: u8, second: u8) -> Option<usize>
    ensures { result ≡ either_place haystack.now first second }
{
    let place = either_len(haystack, first, second);
    if place == haystack.len() {
        return None;
    }
    Some(place)
}

/// Returns the offset of the first byte that JSON text may have to escape, or `None` if there is
/// none: a control below 0x20, `"`, `\`, DEL, 0xC2, 0xD8 or 0xE2.
///
/// With the last three UTF-8 begins the hidden characters of `hidden` that are not in ASCII, and
/// other characters too (RFC 8259, section 7). Does not allocate.
///
/// # Examples
///
/// ```rust
/// use mail_codec::bytescan::find_escape;
///
/// assert_eq!(rt; find_escape(b"a \"b\""), Some(2));
/// assert_eq!(rt; find_escape(b"caf\xC3\xA9"), None);
/// ```
#[inline(always)]
pub fn find_escape(text: &[u8]) -> Option<usize>
    ensures { result ≡ escape_place text.now }
{
    let place = escape_len(text);
    if place == text.len() {
        return None;
    }
    Some(place)
}

/// Returns the offset of the first `needle` in `haystack`, or `None` if it does not occur.
///
/// The empty needle never occurs. Each occurrence of the needle's first byte is compared in turn,
/// so if that byte is frequent, the time grows with the length of the needle. Does not allocate.
///
/// # Examples
///
/// ```rust
/// use mail_codec::bytescan::find;
///
/// assert_eq!(rt; find(b"hello world", b"o w"), Some(4));
/// assert_eq!(rt; find(b"hello world", b"ow"), None);
/// assert_eq!(rt; find(b"hello world", b""), None);
/// ```
pub fn find(haystack: &[u8], needle: &[u8]) -> Option<usize>
    ensures { result ≡ text_place haystack.now needle.now }
{
    let first = *needle.first()?;
    let mut at = 0;
    'candidates: while let Some(passed) = find_byte(&haystack[at..], first) {
        prove!(passed < haystack.len() - at);
        let place = at + passed;
        if haystack[place..].starts_with(needle) {
            return Some(place);
        }
        at = place + 1;
    }
    None
}

/// Returns the offset of the first `first` in `haystack` that `second` follows immediately, or
/// `None` if there is none.
///
/// The time does not depend on how frequent either byte is. Does not allocate.
///
/// # Examples
///
/// ```rust
/// use mail_codec::bytescan::find_pair;
///
/// assert_eq!(rt; find_pair(b"a-b\n-c\n--d", b'\n', b'-'), Some(3));
/// assert_eq!(rt; find_pair(b"a-b\n", b'\n', b'-'), None);
/// ```
pub fn find_pair(haystack: &[u8], first: u8, second: u8) -> Option<usize>
    ensures { result ≡ text_place haystack.now (first ∷ second ∷ []) }
{
    if haystack.len() <= WIDE {
        return find(haystack, &[first, second]);
    }
    let place = pair_len(haystack, first, second);
    if place == haystack.len() {
        return None;
    }
    Some(place)
}

/// Returns the bytes without ASCII whitespace: space, tab, LF, FF and CR.
///
/// The vertical tab (0x0B) is kept. Allocates the result.
///
/// # Errors
///
/// `AllocError` if it runs out of memory.
///
/// # Examples
///
/// ```rust
/// use mail_codec::bytescan::strip_ascii_whitespace;
///
/// let kept = strip_ascii_whitespace(alloc, b"a \x0Bb\tc\r\n")?;
/// assert_eq!(rt; kept.as_slice(), b"a\x0Bbc".as_slice());
/// ```
pub fn strip_ascii_whitespace(alloc: Global, bytes: &[u8]) -> Result<Vec<u8>, AllocError>
    ensures { IfOk result (λ kept. kept.items ≡ without_ascii_whitespace bytes.now) }
{
    let mut kept = Vec::with_capacity(alloc, bytes.len())?;
    push_runs(&mut kept, bytes, RunEnd::Whitespace)?;
    Ok(kept)
}
