//! Names that are cut out of headers, of people and of files, read leniently.
ghost use Rattle.std.specs.Prelude.{◌≡◌, ◌++◌, false, string_bytes, IfOk, OnOk};
ghost use Rattle.mail_read.specs.lenient.Names.{after_end, is_line_end, name_text, on_one_line};

use super::values::lenient_header_text;
use mail_codec::bytescan::find_either;
use mail_codec::charset::KnownCharsets;
use std::alloc::{AllocError, Global};

/// Returns the text of a name that was cut out of a header, read leniently: on one line, and with
/// its encoded words decoded as `lenient_header_text` decodes those of a value (RFC 2047, sections 2
/// and 4).
///
/// A CR or a LF in the name, with the whitespace after it, is one space (RFC 5322, section 2.2.3),
/// or nothing at the end. Bytes outside words that are not UTF-8 are windows-1252. Allocates the
/// text and the bytes of the words.
///
/// # Errors
///
/// `AllocError` if it runs out of memory.
///
/// # Examples
///
/// ```rust
/// use mail_read::lenient::lenient_name_text;
///
/// let text = lenient_name_text(alloc, b"Ann\r\n\tB. =?utf-8?B?w6k?=", &())?;
/// assert_eq!(rt; text.as_str(), "Ann B. é");
/// ```
#[tactic(auto, unfolding(crate::specs::lenient::Names::name_text))]
pub fn lenient_name_text<K: KnownCharsets>(
    alloc: Global,
    name: &[u8],
    known: &K,
) -> Result<String, AllocError>
    ensures { IfOk result (λ text. string_bytes text
        ≡ name_text (K.known known.now) name.now) }
{
    if find_either(name, b'\r', b'\n').is_none() {
        return lenient_header_text(alloc, name, known);
    }
    folded_name_text(alloc, name, known)
}

/// Returns the text of a name on several lines.
#[tactic(auto, unfolding(crate::specs::lenient::Names::name_text))]
fn folded_name_text<K: KnownCharsets>(
    alloc: Global,
    name: &[u8],
    known: &K,
) -> Result<String, AllocError>
    ensures { IfOk result (λ text. string_bytes text
        ≡ name_text (K.known known.now) name.now) }
{
    let line = on_one_line(alloc, name)?;
    lenient_header_text(alloc, line.as_slice(), known)
}

/// Returns bytes on one line.
pub(super) fn on_one_line(alloc: Global, bytes: &[u8]) -> Result<Vec<u8>, AllocError>
    ensures { IfOk result (λ line. line.items ≡ on_one_line false bytes.now) }
{
    let mut line = Vec::new(alloc);
    let mut has_ended = false;
    for byte in bytes {
        let byte = *byte;
        if is_line_end(byte) || has_ended && byte.is_ascii_whitespace() {
            has_ended = true;
        } else {
            push_after(&mut line, has_ended, byte)?;
            has_ended = false;
        }
    }
    Ok(line)
}

/// Returns whether a byte is a CR or a LF.
fn is_line_end(byte: u8) -> bool
    ensures { result ≡ is_line_end byte }
{
    byte == b'\r' || byte == b'\n'
}

/// Appends a byte, with a space in front if the end of a line is before it.
fn push_after(line: &mut Vec<u8>, has_ended: bool, byte: u8) -> Result<(), AllocError>
    ensures { OnOk result (line.new.items ≡ line.old.items ++ after_end has_ended byte) }
{
    if has_ended {
        return line.extend_from_slice(&[b' ', byte]);
    }
    line.push(byte)?;
    Ok(())
}
