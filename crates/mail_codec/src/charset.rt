//! The charsets of mail text: their labels, and the text of bytes in each.
//!
//! Four are built in: UTF-8, windows-1252 and UTF-16 in both byte orders. A caller may add charsets
//! in which each byte is one character as tables (`SingleByteTable`), and any other charset by the
//! traits `Decode` and `KnownCharsets`. A pair of values knows the charsets of both, so
//! `(tables, Utf7)` knows UTF-7 too, which the Encoding Standard forbids.
ghost use Rattle.std.specs.Prelude.{◌≡◌, ◌↔◌, IfOk, IsOk, IsAscii};
ghost use Rattle.std.specs.Cow.{cow_str_bytes, IsBorrowedStr};
ghost use Rattle.mail_codec.specs.Charset.{ascii_text};
ghost use Rattle.mail_codec.specs.Latin1.{latin1_text};

mod built_in;
pub mod decoder;
mod known;
mod labels;
mod single_byte;
mod tables;
mod utf16;
mod utf_7;

pub use self::built_in::Charset;
pub use self::known::{Decode, KnownCharsets};
pub use self::tables::{SingleByteTable, table_for_label};
pub use self::utf_7::Utf7;
use std::alloc::{AllocError, Global};
use std::borrow::CowStr;

/// Returns the Latin-1 text of the bytes: one character for each byte, the one with the same
/// number, from U+0000 to U+00FF (IANA's ISO-8859-1).
///
/// If all bytes are ASCII, the text borrows them, and the call succeeds without allocating.
/// Otherwise it allocates the text.
///
/// # Errors
///
/// `AllocError` if it runs out of memory.
///
/// # Examples
///
/// ```rust
/// use mail_codec::charset::decode_latin1;
///
/// assert_eq!(rt; decode_latin1(alloc, b"caf\xE9")?.as_str(), "café");
/// ```
#[tactic(auto, using(crate::proofs::lemmas::CharsetSingleByte::spelled_latin1))]
pub fn decode_latin1(alloc: Global, bytes: &[u8]) -> Result<CowStr<'_>, AllocError>
    ensures read { IfOk result (λ t. cow_str_bytes t ≡ latin1_text bytes.now) }
    ensures borrowed { IfOk result (λ t. IsBorrowedStr t ↔ IsAscii bytes.now) }
    ensures no_alloc { IsAscii bytes.now → IsOk result }
{
    single_byte::decode(alloc, bytes, &single_byte::LATIN_1)
}

/// Returns the ASCII text of the bytes, with U+FFFD for each byte at or above 0x80.
///
/// If all bytes are ASCII, the text borrows them, and the call succeeds without allocating.
/// Otherwise it allocates the text.
///
/// # Errors
///
/// `AllocError` if it runs out of memory.
///
/// # Examples
///
/// ```rust
/// use mail_codec::charset::decode_ascii;
///
/// assert_eq!(rt; decode_ascii(alloc, b"caf\xE9")?.as_str(), "caf\u{FFFD}");
/// ```
#[tactic(auto, using(crate::proofs::lemmas::CharsetSingleByte::spelled_ascii))]
pub fn decode_ascii(alloc: Global, bytes: &[u8]) -> Result<CowStr<'_>, AllocError>
    ensures read { IfOk result (λ t. cow_str_bytes t ≡ ascii_text bytes.now) }
    ensures borrowed { IfOk result (λ t. IsBorrowedStr t ↔ IsAscii bytes.now) }
    ensures no_alloc { IsAscii bytes.now → IsOk result }
{
    single_byte::decode(alloc, bytes, &single_byte::ASCII)
}
