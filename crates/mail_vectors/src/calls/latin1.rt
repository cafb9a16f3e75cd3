//! The charsets of a caller.
ghost use Rattle.std.specs.Prelude.{Some, None, codes, if◌then◌else◌};
ghost use Rattle.std.specs.Str.{str_eq_ignore_ascii_case};
ghost use Rattle.mail_codec.specs.Latin1.{latin1_text};

use mail_codec::charset::decode_latin1;
use mailparse::{Decode, KnownCharsets};
use std::alloc::{AllocError, Global};

/// Latin-1.
#[derive(Clone, Copy)]
pub struct Latin1;

impl Decode for Latin1 {
    ghost text = { λ _. latin1_text };

    fn decode_without_bom_handling(
        self,
        alloc: Global,
        bytes: &[u8],
    ) -> Result<String, AllocError> {
        decode_latin1(alloc, bytes)?.into_owned(alloc)
    }
}

/// Knows Latin-1 under the label `iso-8859-1`, and no other charset.
pub struct OnlyLatin1;

impl KnownCharsets for OnlyLatin1 {
    type Decoder = Latin1;

    ghost known = { λ _ label. if str_eq_ignore_ascii_case label (codes "iso-8859-1")
        then Some latin1_text else None };

    fn for_label(&self, label: &[u8]) -> Option<Latin1> {
        if label.eq_ignore_ascii_case(b"iso-8859-1") {
            Some(Latin1)
        } else {
            None
        }
    }
}
