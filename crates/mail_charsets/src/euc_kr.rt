//! EUC-KR (the WHATWG Encoding Standard, section 13.1).
ghost use Rattle.std.specs.Prelude.{◌≡◌, IfOk, string_bytes};
ghost use Rattle.mail_charsets.specs.EucKr.{euc_kr_pair, euc_kr_single, euc_kr_text};
ghost use Rattle.mail_charsets.specs.Front.{no_long};

use crate::encoded::{Encoded, decode};
use crate::front::{Characters, Front, characters_at, is_within};
use std::alloc::{AllocError, Global};

/// The encoding under an index.
#[derive(Clone, Copy)]
struct EucKr<'t> {
    index: &'t [u16],
}

impl<'t> Encoded for EucKr<'t> {
    ghost single = { λ encoding. euc_kr_single };

    ghost pairs = { λ encoding. euc_kr_pair encoding.index.now };

    ghost long = { λ encoding. no_long };

    fn single(&self, byte: u8) -> Option<char> {
        if is_within(byte, 0x81, 0xFE) {
            None
        } else {
            Some(char::REPLACEMENT_CHARACTER)
        }
    }

    fn pair(&self, lead: u8, trail: u8) -> Characters {
        if !is_within(trail, 0x41, 0xFE) {
            return Characters::Nothing;
        }
        let row = usize::from(lead.saturating_sub(0x81));
        characters_at(self.index, row * 190 + usize::from(trail - 0x41))
    }

    fn long(&self, _bytes: &[u8]) -> Option<Front> {
        None
    }
}

/// Returns the text of the bytes in EUC-KR under an index (the WHATWG Encoding Standard, section
/// 13.1).
pub(crate) fn decode_euc_kr(
    alloc: Global,
    bytes: &[u8],
    index: &[u16],
) -> Result<String, AllocError>
    ensures { IfOk result (λ t. string_bytes t ≡ euc_kr_text index.now bytes.now) }
{
    decode(alloc, bytes, &EucKr { index })
}
