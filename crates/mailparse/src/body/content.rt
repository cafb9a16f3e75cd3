//! The content of a body, of whichever kind it is.
ghost use Rattle.std.specs.Prelude.{◌≡◌, string_bytes, IfOk};
ghost use Rattle.mailparse.specs.Body.{text_under_in};
ghost use Rattle.mailparse.specs.BodyViews.{content};
ghost use Rattle.mailparse.specs.Outcome.{GivesText};

use crate::content_type::ParsedContentType;
use crate::error::MailParseError;
use mail_codec::charset::{Decode, KnownCharsets, decode_ascii};
use std::alloc::{AllocError, Global};

/// The bytes of a body as they appear in the message, and its content type.
#[derive(Clone, Copy, Debug)]
pub(super) struct BodyContent<'a> {
    pub(super) raw: &'a [u8],
    pub(super) ctype: &'a ParsedContentType,
}

impl<'a> BodyContent<'a> {
    /// Returns the text of the bytes in the charset of the content type.
    pub(super) fn text_in<K: KnownCharsets>(
        &self,
        alloc: Global,
        known: &K,
    ) -> Result<String, MailParseError>
        ensures { GivesText result (text_under_in (K.known known.now)
            (content self.now).ctype.charset (content self.now).raw) }
    {
        Ok(text_under(alloc, self.ctype.charset.as_str(), self.raw, known)?)
    }
}

/// Decodes bytes in the charset with this label; if the label is unknown, as ASCII.
#[tactic(auto, unfolding(crate::specs::Body::text_under_in))]
pub(crate) fn text_under<K: KnownCharsets>(
    alloc: Global,
    label: &str,
    bytes: &[u8],
    known: &K,
) -> Result<String, AllocError>
    ensures { IfOk result (λ text. string_bytes text
        ≡ text_under_in (K.known known.now) label.now bytes.now) }
{
    match known.for_label(label.as_bytes()) {
        Some(charset) => charset.decode(alloc, bytes),
        None => decode_ascii(alloc, bytes)?.into_owned(alloc),
    }
}
