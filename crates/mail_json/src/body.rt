//! The encoding of a body.
ghost use Rattle.std.specs.Prelude.{◌≡◌};
ghost use Rattle.mailparse.specs.BodyViews.{Content};
ghost use Rattle.mail_read.specs.lenient.Encoding.{LenientKind};
ghost use Rattle.mail_read.specs.lenient.EncodingViews.{IsLenientBody};
ghost use Rattle.mail_json.specs.Body.{encoding_text};

use mail_read::lenient::LenientBody;
use mailparse::body::Body;

/// Returns the name of the transfer encoding of a body.
pub(crate) fn encoding_name(body: &LenientBody<'_>) -> &'static str
    ensures { (kind : LenientKind) (given : Content) → IsLenientBody kind given body.now →
        result.now ≡ encoding_text kind }
{
    match body {
        LenientBody::Standard(Body::Base64(_)) => "base64",
        LenientBody::Standard(Body::QuotedPrintable(_)) => "quoted-printable",
        LenientBody::Standard(Body::SevenBit(_)) => "7bit",
        LenientBody::Standard(Body::EightBit(_)) => "8bit",
        LenientBody::Standard(Body::Binary(_)) => "binary",
        LenientBody::Uuencode(_) => "x-uuencode",
    }
}
