//! Header values of any text, written so that `MailHeader::get_value` reads the text back.
ghost use Rattle.std.specs.Prelude.{◌≡◌, ◌<◌, ◌++◌, IfOk, OnOk, length};
ghost use Rattle.std.specs.List.{list_all};
ghost use Rattle.std.specs.Str.{chars};
ghost use Rattle.std.specs.String.{string_bytes};
ghost use Rattle.mail_address.specs.Encode.{is_plain_byte, is_plain_value, one_word, word_lines, words_of, written_value};

use base64::engine::general_purpose::STANDARD;
use mail_codec::bytescan::find;
use std::alloc::{AllocError, Global};

/// The most bytes of text that one encoded word carries: 60 letters, so the word has 72 of the 75
/// bytes that it may have (RFC 2047, section 2).
const WORD_BYTES: usize = 45;

/// Writes a text as a header value that is read back as this text (RFC 2047, sections 2, 4.1 and
/// 5).
///
/// Printable ASCII that does not begin with a space and does not contain `=?` is written as it is;
/// so is the empty text. Any other text is written as encoded words `=?utf-8?B?..?=`, separated by
/// CR LF and a space. From the left, each word takes as many whole characters as fit in 45 bytes.
/// Allocates the result.
///
/// The whole text is encoded, so this is for unstructured fields, such as `Subject` and `Comments`.
/// In a structured field, such as `From`, `To` or `Content-Type`, encoded words are allowed only in
/// comments and phrases, and never in an address or a parameter (RFC 2047, section 5). A text for
/// such a field would be encoded with its addresses, and other programs would not find them;
/// `write_addresses` writes lists of addresses.
///
/// A line with an encoded word may have 76 columns (RFC 2047, section 2). A word has up to 72, and
/// the key, a colon and a space come before the first one. So the first line is too long if a full
/// word follows a key of more than two characters; the other lines have at most 73 columns. A plain
/// text is never folded, even if it is longer than the 998 characters that a line may have (RFC
/// 5322, section 2.1.1).
///
/// # Errors
///
/// If memory runs out.
///
/// # Examples
///
/// ```rust
/// use mail_address::encode::encode_value;
///
/// assert_eq!(rt; encode_value(alloc, "a b")?.as_str(), "a b");
/// assert_eq!(rt; encode_value(alloc, "é")?.as_str(), "=?utf-8?B?w6k=?=");
/// ```
#[tactic(auto, unfolding(crate::specs::Encode::written_value))]
pub fn encode_value(alloc: Global, text: &str) -> Result<String, AllocError>
    ensures { IfOk result (λ written. string_bytes written ≡ written_value text.now) }
{
    if is_plain(text.as_bytes()) {
        return Ok(String::from_str(alloc, text)?);
    }
    let mut written = String::new(alloc);
    push_words(&mut written, text)?;
    Ok(written)
}

/// Returns whether a value is plain, so that `encode_value` writes it as it is: printable ASCII
/// that does not begin with a space and does not contain `=?` (RFC 2047, section 2).
///
/// Allocates nothing.
///
/// # Examples
///
/// ```rust
/// use mail_address::encode::is_plain;
///
/// assert!(rt; is_plain(b"a b"));
/// assert!(rt; !is_plain(b"=?utf-8?Q?a?="));
/// ```
pub fn is_plain(value: &[u8]) -> bool
    ensures { result ≡ is_plain_value value.now }
{
    has_plain_bytes(value) && !value.starts_with(b" ") && find(value, b"=?").is_none()
}

/// Returns whether all bytes are printable ASCII or spaces.
fn has_plain_bytes(value: &[u8]) -> bool
    ensures { result ≡ list_all is_plain_byte value.now }
{
    value
        .iter()
        .all(|byte| byte.is_ascii_graphic() || *byte == b' ')
}

/// Appends the encoded words of a text that is not empty, one to a line.
fn push_words(written: &mut String, text: &str) -> Result<(), AllocError>
    requires some { 0 < length text.now }
    ensures written { OnOk result (string_bytes written.new
        ≡ string_bytes written.old ++ word_lines (words_of (chars text.now))) }
{
    let mut start = 0;
    let mut end = 0;
    for c in text.chars() {
        let next = end + c.len_utf8();
        if next - start > WORD_BYTES {
            push_word(written, &text[start..end])?;
            written.push_str("\r\n ")?;
            start = end;
        }
        end = next;
    }
    push_word(written, &text[start..])
}

/// Appends a text as one encoded word.
pub(crate) fn push_word(written: &mut String, text: &str) -> Result<(), AllocError>
    ensures written { OnOk result (string_bytes written.new
        ≡ string_bytes written.old ++ one_word text.now) }
{
    written.push_str("=?utf-8?B?")?;
    STANDARD.encode_string(text.as_bytes(), written)?;
    written.push_str("?=")?;
    Ok(())
}
