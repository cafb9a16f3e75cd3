//! x-user-defined (the WHATWG Encoding Standard, section 14.5).
ghost use Rattle.std.specs.Prelude.{◌≡◌, map, encode_utf8_all, IfOk, string_bytes};
ghost use Rattle.mail_charsets.specs.Encoding.{x_user_defined_char};

use crate::front::offset_char;
use std::alloc::{AllocError, Global};

/// Returns the text of the bytes in x-user-defined.
pub(crate) fn decode_x_user_defined(alloc: Global, bytes: &[u8]) -> Result<String, AllocError>
    ensures { IfOk result
        (λ t. string_bytes t ≡ encode_utf8_all (map x_user_defined_char bytes.now)) }
{
    let mut text = String::with_capacity(alloc, bytes.len())?;
    for byte in bytes {
        text.push(character(*byte))?;
    }
    Ok(text)
}

/// Returns the character of a byte.
fn character(byte: u8) -> char
    ensures { result ≡ x_user_defined_char byte }
{
    if byte < 0x80 {
        return byte as char;
    }
    offset_char('\u{F780}', byte - 0x80)
}
