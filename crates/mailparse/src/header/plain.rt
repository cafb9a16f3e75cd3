//! Values that show themselves as they are: one search recognizes most of them.
ghost use Rattle.std.specs.Prelude.{◌≡◌, IsTrue};
ghost use Rattle.std.specs.Char.{is_ascii_graphic};
ghost use Rattle.mail_codec.specs.Places.{begins};
ghost use Rattle.mailparse.specs.private.Plain.{IsBare};

use mail_codec::bytescan::find_either;

/// Whether the bytes begin with a visible character and contain neither a LF nor a `?`: as a value
/// they show themselves.
#[tactic(auto, using(crate::proofs::lemmas::Places::searches_in_vain))]
pub(super) fn is_bare(bytes: &[u8]) -> bool
    ensures { IsTrue result → IsBare bytes.now }
{
    if !begins_visibly(bytes) {
        return false;
    }
    find_either(bytes, b'\n', b'?').is_none()
}

/// Whether the first byte is a visible ASCII character.
pub(crate) fn begins_visibly(bytes: &[u8]) -> bool
    ensures { result ≡ begins is_ascii_graphic bytes.now }
{
    match bytes.first() {
        Some(byte) => byte.is_ascii_graphic(),
        None => false,
    }
}
