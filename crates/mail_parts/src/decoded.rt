//! Parts with their contents: each body is decoded once, whoever reads it.
ghost use Rattle.std.specs.List.{AllByRecursion};
ghost use Rattle.std.specs.Prelude.{◌≡◌, map, option_map, true, Bool, IfErr, IfOk};
ghost use Rattle.mailparse.specs.BodyViews.{content_of};
ghost use Rattle.mailparse.specs.Mail.{Tree, root};
ghost use Rattle.mailparse.specs.Outcome.{IsMemory};
ghost use Rattle.mailparse.specs.Views.{tree_of};
ghost use Rattle.mail_read.specs.InnerMails.{holds_mail, mail_bytes};
ghost use Rattle.mail_read.specs.PlaceViews.{place_view};
ghost use Rattle.mail_read.specs.lenient.ContentViews.{content_view};
ghost use Rattle.mail_read.specs.lenient.Encoding.{lenient_body_kind};
ghost use Rattle.mail_read.specs.lenient.EncodingViews.{IsLenientBody};
ghost use Rattle.mail_parts.specs.Part.{content_if};
ghost use Rattle.mail_parts.specs.DecodedViews.{IsDecoded, decoded_place, mail_if};

use mail_read::inner_mails::holds_mail;
use mail_read::lenient::{Content, LenientBody, lenient_body, lenient_content};
use mail_read::places::Place;
use mailparse::MailParseError;
use std::alloc::Global;

/// A part with its body and its content, as `decoded_parts` returns it.
#[derive(Debug, Drop)]
pub struct Decoded<'p, 'm, 'a> {
    /// The part and its place.
    pub place: &'p Place<'m, 'a>,
    /// Its body.
    pub body: LenientBody<'m>,
    /// Its content, or `None` if bodies are not decoded.
    pub content: Option<Content<'m>>,
    /// If bodies are not decoded, the content of a part that contains a mail that is read.
    pub mail: Option<Content<'m>>,
}

/// Returns the parts at these places with their contents: their bodies without transfer encodings
/// (RFC 2045, section 6), as `lenient_content` returns them.
///
/// If bodies are not decoded, only the parts that contain a mail that is read have one. Allocates
/// the list, and each content that is encoded.
///
/// # Errors
///
/// `MailParseError::Memory` if it runs out of memory.
///
/// # Examples
///
/// ```rust
/// use mail_read::places::places;
/// use mail_parts::decoded_parts;
/// use mailparse::parse_mail;
///
/// let mail = parse_mail(alloc, b"Content-Transfer-Encoding: base64\n\nSGVsbG8=\n")?;
/// let places = places(alloc, &mail)?;
/// let parts = decoded_parts(alloc, places.as_slice(), true)?;
/// let content = parts[0].content.as_ref().ok_or("not decoded")?;
/// assert_eq!(rt; content.bytes.as_slice(), b"Hello".as_slice());
/// ```
#[inline(never)]
pub fn decoded_parts<'p, 'm, 'a>(
    alloc: Global,
    places: &'p [Place<'m, 'a>],
    decodes_bodies: bool,
) -> Result<Vec<Decoded<'p, 'm, 'a>>, MailParseError>
    ensures places { IfOk result (λ parts.
        map decoded_place parts.items ≡ map place_view places.now) }
    ensures decoded { IfOk result (λ parts.
        AllByRecursion (IsDecoded decodes_bodies) parts.items) }
    ensures only_memory { IfErr result IsMemory }
{
    let mut parts = Vec::new(alloc);
    for place in places {
        parts.push(decoded_part(alloc, place, decodes_bodies)?)?;
    }
    Ok(parts)
}

/// Returns a part with its content.
fn decoded_part<'p, 'm, 'a>(
    alloc: Global,
    place: &'p Place<'m, 'a>,
    decodes_bodies: bool,
) -> Result<Decoded<'p, 'm, 'a>, MailParseError>
    ensures place { IfOk result (λ part. decoded_place part ≡ place_view place.now) }
    ensures decoded { IfOk result (λ part. IsDecoded decodes_bodies part) }
    ensures only_memory { IfErr result IsMemory }
{
    let body = lenient_body(alloc, place.part)?;
    let content = content_if(alloc, &body, decodes_bodies)?;
    let mail = mail_if(alloc, place, &body, decodes_bodies)?;
    Ok(Decoded {
        place,
        body,
        content,
        mail,
    })
}

/// Returns the content of a body, or `None` if bodies are not decoded.
fn content_if<'b>(
    alloc: Global,
    body: &LenientBody<'b>,
    decodes_bodies: bool,
) -> Result<Option<Content<'b>>, MailParseError>
    ensures read { (part : Tree) →
        IsLenientBody (lenient_body_kind (root part)) (content_of (root part)) body.now →
        IfOk result (λ content.
        option_map content_view content ≡ content_if decodes_bodies (root part)) }
    ensures only_memory { IfErr result IsMemory }
{
    if !decodes_bodies {
        return Ok(None);
    }
    Ok(Some(lenient_content(alloc, body)?))
}

/// Returns the content of a part that contains a mail that is read, or `None` if bodies are
/// decoded.
fn mail_if<'b>(
    alloc: Global,
    place: &Place<'_, '_>,
    body: &LenientBody<'b>,
    decodes_bodies: bool,
) -> Result<Option<Content<'b>>, MailParseError>
    ensures read { let node = root (tree_of place.now.part.now) in
        IsLenientBody (lenient_body_kind node) (content_of node) body.now → IfOk result (λ content.
        option_map content_view content ≡ mail_if decodes_bodies (place_view place.now)) }
    ensures only_memory { IfErr result IsMemory }
{
    if decodes_bodies {
        return Ok(None);
    }
    if !holds_mail(place) {
        return Ok(None);
    }
    Ok(Some(lenient_content(alloc, body)?))
}

/// Returns the bytes of the mail that a part contains. They are those of its content, and empty if
/// bodies are not decoded and the part contains no mail that is read.
///
/// Does not allocate.
///
/// # Examples
///
/// ```rust
/// use mail_read::places::places;
/// use mail_parts::{decoded_parts, mail_in};
/// use mailparse::parse_mail;
///
/// let mail = parse_mail(alloc, b"Content-Type: message/rfc822\n\nSubject: inside\n\n")?;
/// let places = places(alloc, &mail)?;
/// let parts = decoded_parts(alloc, places.as_slice(), true)?;
/// assert_eq!(rt; mail_in(&parts[0]), b"Subject: inside\n\n".as_slice());
/// ```
pub fn mail_in<'c>(part: &'c Decoded<'_, '_, '_>) -> &'c [u8]
    ensures { (decodes : Bool) → IsDecoded decodes part.now →
        holds_mail (decoded_place part.now) ≡ true →
        result.now ≡ mail_bytes (decoded_place part.now) }
{
    if let Some(content) = &part.content {
        return content.bytes.as_slice();
    }
    if let Some(mail) = &part.mail {
        return mail.bytes.as_slice();
    }
    &[]
}
