//! Values whose encoded words stay as they are.
ghost use Rattle.mail_read.specs.Files.{no_charsets};

use mail_codec::charset::{Charset, KnownCharsets};

/// No charsets: values that are read in these keep their encoded words (RFC 2047, section 2).
///
/// Message ids and the parameters that name files are read so, since an encoded word in them is
/// either no word or must not end a parameter.
#[derive(Clone, Copy, Debug)]
pub struct NoCharsets;

impl KnownCharsets for NoCharsets {
    type Decoder = Charset;

    ghost known = { λ _ label. no_charsets label };

    fn for_label(&self, _label: &[u8]) -> Option<Charset> {
        None
    }
}
