//! Bits of a body in Base64 that make no byte.
ghost use Rattle.std.specs.Prelude.{◌≡◌, ◌<◌, length};
ghost use Rattle.mail_codec.specs.Ascii.{equals_sign};
ghost use Rattle.mail_codec.specs.Places.{byte_place};
ghost use Rattle.mail_check.specs.HiddenBits.{padding_end, spare_group, spare_group_of};

use crate::scan::byte_at;
use crate::word_bytes::has_spare_bits;
use crate::words::up_to;
use mail_codec::bytescan::find_byte;

/// Returns the offset of the group in lines of Base64 that hides bits in its last letter.
pub(crate) fn spare_bits(lines: &[u8]) -> Option<usize>
    ensures { result ≡ spare_group_of lines.now (byte_place lines.now equals_sign) }
{
    match find_byte(lines, b'=') {
        Some(place) => spare_group(lines, padding_end(lines, place)),
        None => None,
    }
}

/// Returns the offset after the padding that begins at an offset.
fn padding_end(body: &[u8], start: usize) -> usize
    requires within { start < length body.now }
    ensures { result ≡ padding_end body.now start }
{
    if byte_at(body, start + 1, b'=') {
        start + 2
    } else {
        start + 1
    }
}

/// Returns the offset of the group that ends at one, if it hides bits in its last letter.
fn spare_group(body: &[u8], end: usize) -> Option<usize>
    ensures { result ≡ spare_group body.now end }
{
    if has_spare_bits(up_to(body, end)) {
        Some(end.saturating_sub(4))
    } else {
        None
    }
}
