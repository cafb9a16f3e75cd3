//! The mails inside a mail, with the paths of the parts that contain them.
ghost use Rattle.std.specs.Prelude.{◌≡◌, ◌||◌, ◌++◌, [], ◌∷◌, map, option_and_then, string_bytes};
ghost use Rattle.std.specs.Prelude.{Some, IfErr, IfOk, OnOk, Ok};
ghost use Rattle.mailparse.specs.BodyViews.{Content, content_of};
ghost use Rattle.mailparse.specs.Mail.{root};
ghost use Rattle.mailparse.specs.Outcome.{AnswersOrMemory, IsMemory, refusal_of};
ghost use Rattle.mailparse.specs.Views.{placements_of, tree_of};
ghost use Rattle.mail_read.specs.InnerMails.{forwards, holds_mail, inner_mails, inner_mails_as};
ghost use Rattle.mail_read.specs.InnerMails.{dot_count, is_plain, mail_start, path_within};
ghost use Rattle.mail_read.specs.InnerMails.{places_under};
ghost use Rattle.mail_read.specs.InnerMailViews.{inner_view};
ghost use Rattle.mail_read.specs.PlaceViews.{place_view};
ghost use Rattle.mail_read.specs.lenient.Content.{lenient_content};
ghost use Rattle.mail_read.specs.lenient.Encoding.{LenientKind, lenient_body_kind};
ghost use Rattle.mail_read.specs.lenient.EncodingViews.{IsLenientBody};

use crate::files::{is_leaf, path_under};
use crate::lenient::{LenientBody, lenient_body, lenient_content};
use crate::places::{Place, push_places};
use mail_codec::charset::KnownCharsets;
use mailparse::body::Body;
use mailparse::{MAX_LEVELS, MailParseError, ParsedMail, ReadingManner, Strict, parse_mail_as};
use std::alloc::{AllocError, Global};

/// A mail inside a mail, as `inner_mails` returns it.
#[derive(Debug, Drop)]
pub struct InnerMail {
    /// The path of the part that contains it, as IMAP numbers parts (RFC 3501, section 6.4.5):
    /// `2.1` is the first part of the mail in the second part.
    pub path: String,
    /// Its bytes, without a transfer encoding: `parse_mail_in` reads them, and `places_under`
    /// lists its parts.
    pub bytes: Vec<u8>,
    /// The offset of these bytes in the whole mail, or `None` if they do not occur there, since the
    /// mail, or one that contains it, is encoded.
    pub start: Option<usize>,
    /// The refusal of the mail, or `None` if it can be read.
    pub error: Option<MailParseError>,
}

/// Returns the mails inside a mail: those that its parts forward, in order, each before those
/// inside it. `forwards` says which parts forward a mail. A transfer encoding is removed as
/// `lenient::lenient_content` does, and each mail is read as `parse_mail_in` reads it in the
/// charsets `known`.
///
/// A mail that is refused is in the list with its error, but none inside it is. A part whose path
/// has `MAX_LEVELS` numbers or more is not searched, so the time grows with the bytes and the
/// levels alone. Allocates the list, the paths and a copy of each mail.
///
/// # Errors
///
/// `MailParseError::Memory` if it runs out of memory.
///
/// # Examples
///
/// ```rust
/// use mail_read::inner_mails::{inner_mails, places_under};
/// use mailparse::parse_mail;
///
/// let raw = b"Content-Type: multipart/mixed; boundary=b\n\n--b\n\nHi\n\
///     --b\nContent-Type: message/rfc822\n\nSubject: inside\n\nHello\n--b--\n";
/// let mail = parse_mail(alloc, raw)?;
/// let found = inner_mails(alloc, &mail, &())?;
/// assert_eq!(rt; found.len(), 1);
/// assert_eq!(rt; found[0].path.as_str(), "2");
/// assert_eq!(rt; found[0].start, Some(85));
/// let inside = parse_mail(alloc, found[0].bytes.as_slice())?;
/// let places = places_under(alloc, &inside, found[0].path.as_str())?;
/// assert_eq!(rt; places[0].path.as_str(), "2.1");
/// ```
#[tactic(auto, unfolding(mailparse::specs::Mail::read_mail_in))]
pub fn inner_mails<K: KnownCharsets>(
    alloc: Global,
    mail: &ParsedMail<'_>,
    known: &K,
) -> Result<Vec<InnerMail>, MailParseError>
    ensures { AnswersOrMemory (λ mails. map inner_view mails.items) result
        (Ok (inner_mails (K.known known.now) 100 [] (Some 0) (tree_of mail.now)
        (placements_of mail.now))) }
{
    inner_mails_as(alloc, mail, &Strict(known))
}

/// Returns the mails inside a mail as `inner_mails` does, but reads each of them as `parse_mail_as`
/// does in this manner, with parts at most `MAX_LEVELS` levels below it (RFC 2046, section 5.2.1).
///
/// In a manner that keeps refused messages, such as `lenient::Lenient`, no mail has an error.
/// Allocates the list, the paths and a copy of each mail.
///
/// # Errors
///
/// `MailParseError::Memory` if it runs out of memory.
///
/// # Examples
///
/// ```rust
/// use mail_read::inner_mails::inner_mails_as;
/// use mail_read::lenient::Lenient;
/// use mailparse::parse_mail;
///
/// let raw = b"Content-Type: message/rfc822\n\nContent-Type: message/rfc822 (x)\n\nSubject: Hi\n";
/// let mail = parse_mail(alloc, raw)?;
/// let found = inner_mails_as(alloc, &mail, &Lenient(&()))?;
/// assert_eq!(rt; found.len(), 2);
/// assert_eq!(rt; found[1].bytes.as_slice(), b"Subject: Hi\n".as_slice());
/// ```
pub fn inner_mails_as<M: ReadingManner>(
    alloc: Global,
    mail: &ParsedMail<'_>,
    manner: &M,
) -> Result<Vec<InnerMail>, MailParseError>
    ensures { AnswersOrMemory (λ mails. map inner_view mails.items) result
        (Ok (inner_mails_as (M.manner manner.now) 100 [] (Some 0) (tree_of mail.now)
        (placements_of mail.now))) }
{
    let mut mails = Vec::new(alloc);
    push_inner(alloc, &mut mails, mail, "", Some(0), MAX_LEVELS, manner)?;
    Ok(mails)
}

/// Appends the mails inside a mail, at most `most` mails deep, given the path of the part that
/// contains that mail and its offset.
fn push_inner<M: ReadingManner>(
    alloc: Global,
    mails: &mut Vec<InnerMail>,
    mail: &ParsedMail<'_>,
    path: &str,
    start: Option<usize>,
    most: u8,
    manner: &M,
) -> Result<(), MailParseError>
    ensures written { OnOk result (map inner_view mails.new.items ≡ map inner_view mails.old.items
        ++ inner_mails_as (M.manner manner.now) most path.now start (tree_of mail.now)
        (placements_of mail.now)) }
    ensures only_memory { IfErr result IsMemory }
{
    if most == 0 {
        return Ok(());
    }
    let places = places_under(alloc, mail, path)?;
    for place in &places {
        if holds_mail(place) {
            let body = lenient_body(alloc, place.part)?;
            let bytes = held_bytes(alloc, &body)?;
            let at = mail_start(start, place, &body);
            match parse_mail_as(alloc, bytes.as_slice(), MAX_LEVELS, manner) {
                Ok(inside) => {
                    push_mail(alloc, mails, place, bytes.as_slice(), at, None)?;
                    push_inner(
                        alloc,
                        mails,
                        &inside,
                        place.path.as_str(),
                        at,
                        most - 1,
                        manner,
                    )?;
                }
                Err(error) => push_refused(alloc, mails, place, bytes.as_slice(), at, error)?,
            }
        }
    }
    Ok(())
}

/// Returns the bytes of the mail in a body.
fn held_bytes(alloc: Global, body: &LenientBody<'_>) -> Result<Vec<u8>, MailParseError>
    ensures read { (kind : LenientKind) (given : Content) → IsLenientBody kind given body.now →
        IfOk result (λ bytes. bytes.items ≡ (lenient_content kind given.raw).bytes) }
    ensures only_memory { IfErr result IsMemory }
{
    let content = lenient_content(alloc, body)?;
    Ok(content.bytes.into_owned(alloc)?)
}

/// Appends a mail that is refused with this error, unless that is out of memory.
fn push_refused(
    alloc: Global,
    mails: &mut Vec<InnerMail>,
    place: &Place<'_, '_>,
    bytes: &[u8],
    start: Option<usize>,
    error: MailParseError,
) -> Result<(), MailParseError>
    ensures written { OnOk result (map inner_view mails.new.items
        ≡ map inner_view mails.old.items ++ record {
          path = (place_view place.now).path;
          bytes = bytes.now;
          start = start;
          refusal = refusal_of error;
        } ∷ []) }
    ensures passed_on { IfOk result (λ done. IsMemory error → ⊥) }
    ensures only_memory { IfErr result IsMemory }
{
    match error {
        MailParseError::Memory(error) => Err(MailParseError::Memory(error)),
        error => Ok(push_mail(alloc, mails, place, bytes, start, Some(error))?),
    }
}

/// Appends the mail in a part.
fn push_mail(
    alloc: Global,
    mails: &mut Vec<InnerMail>,
    place: &Place<'_, '_>,
    bytes: &[u8],
    start: Option<usize>,
    error: Option<MailParseError>,
) -> Result<(), AllocError>
    ensures { OnOk result (map inner_view mails.new.items
        ≡ map inner_view mails.old.items ++ record {
          path = (place_view place.now).path;
          bytes = bytes.now;
          start = start;
          refusal = option_and_then refusal_of error;
        } ∷ []) }
{
    mails.push(InnerMail {
        path: String::from_str(alloc, place.path.as_str())?,
        bytes: bytes.to_vec(alloc)?,
        start,
        error,
    })?;
    Ok(())
}

/// Returns whether a part contains a mail that `inner_mails` reads: it forwards one, and its path
/// has fewer than `MAX_LEVELS` numbers (RFC 2046, section 5.2.1).
///
/// Does not allocate.
///
/// # Examples
///
/// ```rust
/// use mail_read::inner_mails::holds_mail;
/// use mail_read::places::places;
/// use mailparse::parse_mail;
///
/// let mail = parse_mail(alloc, b"Content-Type: message/rfc822\n\nSubject: inside\n\nHello\n")?;
/// assert!(rt; holds_mail(&places(alloc, &mail)?[0]));
/// ```
#[tactic(auto, unfolding(crate::specs::InnerMails::holds_mail))]
pub fn holds_mail(place: &Place<'_, '_>) -> bool
    ensures { result ≡ holds_mail (place_view place.now) }
{
    forwards(place.part) && dot_count(place.path.as_str()) < 99
}

/// Returns whether a part forwards a mail: whether its type is `message/rfc822` (RFC 2046, section
/// 5.2.1) or `message/global` (RFC 6532, section 3.7). Does not allocate.
///
/// # Examples
///
/// ```rust
/// use mail_read::inner_mails::forwards;
/// use mailparse::parse_mail;
///
/// let mail = parse_mail(alloc, b"Content-Type: message/global\n\nSubject: inside\n\n")?;
/// assert!(rt; forwards(&mail));
/// let mail = parse_mail(alloc, b"Content-Type: message/partial; id=a\n\nSubject: inside\n\n")?;
/// assert!(rt; !forwards(&mail));
/// ```
pub fn forwards(part: &ParsedMail<'_>) -> bool
    ensures { result ≡ forwards (root (tree_of part.now)) }
{
    matches!(
        part.ctype.mimetype.as_str(),
        "message/rfc822" | "message/global"
    )
}

/// Returns the number of dots in a path, one less than its numbers.
#[tactic(auto, unfolding(crate::specs::InnerMails::dot_count))]
fn dot_count(path: &str) -> usize
    ensures { result ≡ dot_count path.now }
{
    path.as_bytes().iter().filter(|byte| **byte == b'.').count()
}

/// Returns the offset of the mail in the body of a part, given the offset of the mail that contains
/// the part, or `None` if it does not occur in the whole mail, since it is encoded. The body is that
/// of the part, as `lenient::lenient_body` returns it.
///
/// Does not allocate.
///
/// # Examples
///
/// ```rust
/// use mail_read::inner_mails::mail_start;
/// use mail_read::lenient::lenient_body;
/// use mail_read::places::places;
/// use mailparse::parse_mail;
///
/// let mail = parse_mail(alloc, b"Content-Type: message/rfc822\n\nSubject: inside\n\nHello\n")?;
/// let places = places(alloc, &mail)?;
/// let body = lenient_body(alloc, &mail)?;
/// assert_eq!(rt; mail_start(Some(0), &places[0], &body), Some(30));
/// ```
#[tactic(auto, unfolding(crate::specs::InnerMails::mail_start))]
pub fn mail_start(
    start: Option<usize>,
    place: &Place<'_, '_>,
    body: &LenientBody<'_>,
) -> Option<usize>
    ensures { let node = root (tree_of place.now.part.now) in
        IsLenientBody (lenient_body_kind node) (content_of node) body.now →
        result ≡ mail_start start (place_view place.now) }
{
    let Some(start) = start else {
        return None;
    };
    if !is_plain(body) {
        return None;
    }
    Some(start.saturating_add(place.body_range.start))
}

/// Returns whether a body is not encoded.
fn is_plain(body: &LenientBody<'_>) -> bool
    ensures { (kind : LenientKind) (given : Content) → IsLenientBody kind given body.now →
        result ≡ is_plain kind }
{
    match body {
        LenientBody::Standard(Body::Base64(_) | Body::QuotedPrintable(_)) => false,
        LenientBody::Standard(Body::SevenBit(_) | Body::EightBit(_) | Body::Binary(_)) => true,
        LenientBody::Uuencode(_) => false,
    }
}

/// Returns a mail inside the part with this path, and all parts of that mail, in the order of
/// `places`, with their paths and their ranges in that mail (RFC 3501, section 6.4.5).
///
/// The path of the mail itself is that of the part, since IMAP has one name for both. If the mail
/// has no parts, it is that of its body: below `2` it is `2.1`. With an empty path the result is
/// that of `places`. Allocates the list and the paths.
///
/// # Errors
///
/// `AllocError` if it runs out of memory.
///
/// # Examples
///
/// ```rust
/// use mail_read::inner_mails::places_under;
/// use mailparse::parse_mail;
///
/// let raw = b"Content-Type: multipart/mixed; boundary=b\n\n--b\n\none\n--b--\n";
/// let mail = parse_mail(alloc, raw)?;
/// let places = places_under(alloc, &mail, "2")?;
/// assert_eq!(rt; places[0].path.as_str(), "2");
/// assert_eq!(rt; places[1].path.as_str(), "2.1");
/// ```
#[tactic(auto, unfolding(crate::specs::InnerMails::places_under))]
pub fn places_under<'m, 'a>(
    alloc: Global,
    mail: &'m ParsedMail<'a>,
    path: &str,
) -> Result<Vec<Place<'m, 'a>>, AllocError>
    ensures { IfOk result (λ found. map place_view found.items
        ≡ places_under path.now (tree_of mail.now) (placements_of mail.now)) }
{
    let mut found = Vec::new(alloc);
    let path = path_within(alloc, path, mail)?;
    push_places(alloc, &mut found, mail, path.as_str())?;
    Ok(found)
}

/// Returns the path of a mail inside the part with this path.
#[tactic(auto, unfolding(crate::specs::InnerMails::path_within))]
fn path_within(alloc: Global, path: &str, mail: &ParsedMail<'_>) -> Result<String, AllocError>
    ensures { IfOk result (λ text. string_bytes text ≡ path_within path.now (tree_of mail.now)) }
{
    if is_leaf(mail) {
        path_under(alloc, path, 1)
    } else {
        String::from_str(alloc, path)
    }
}
