//! The limit on the bytes that are decoded while the mails inside a mail are read.
ghost use Rattle.std.specs.Prelude.{◌≡◌, false, true, IfErr, IfOk, Some};
ghost use Rattle.std.specs.Cow.{cow_slice_items};
ghost use Rattle.mailparse.specs.BodyViews as bodies;
ghost use Rattle.mailparse.specs.Mail.{root};
ghost use Rattle.mailparse.specs.Outcome.{AnswersOrMemory, IsMemory};
ghost use Rattle.mailparse.specs.Views.{placements_of, tree_of};
ghost use Rattle.mail_read.specs.Reading.{mail_placements};
ghost use Rattle.mail_read.specs.InnerMails.{is_plain};
ghost use Rattle.mail_read.specs.lenient.Content.{message_content};
ghost use Rattle.mail_read.specs.lenient.Encoding.{LenientKind};
ghost use Rattle.mail_read.specs.lenient.EncodingViews.{IsLenientBody};
ghost use Rattle.mail_parts.specs.DecodedSize.{bounded_reading, bytes_left, decoded_size};
ghost use Rattle.mail_parts.specs.DecodedSize.{mail_size, most_decoded, own_size};

use crate::reading::read_mail;
use mail_read::inner_mails::forwards;
use mail_read::lenient::{Content, LenientBody, lenient_body, lenient_content};
use mailparse::body::Body;
use mailparse::{KnownCharsets, MAX_LEVELS, MailParseError, ParsedMail};
use std::alloc::Global;

/// The number of bytes that are decoded for the mails inside a mail, whatever its size.
const FREE: usize = 64 * 1024 * 1024;

/// Returns a mail as `read_mail` does, but refuses one whose inner mails take too much memory: more
/// than `most` bytes are decoded while they are read. Without `most` that is eight times the size
/// of the mail and 64 MiB.
///
/// Counted are the bytes of each mail inside it that has a transfer encoding, in a part
/// `message/rfc822` or `message/global` (RFC 2046, section 5.2.1; RFC 6532, section 3.7), down to
/// 100 mails inside one another. Each of them has the `limit` for itself. So a mail of a megabyte
/// does not become a hundred, although quoted-printable text may be encoded again and again.
///
/// Allocates as `read_mail` does, and reads the mails inside in turn, with at most `most` bytes and
/// one body more.
///
/// # Errors
///
/// Those of `read_mail`; and `MailParseError::Generic` with the text `Too many decoded bytes` if
/// there are more than `most`.
///
/// # Examples
///
/// ```rust
/// use mail_parts::read_bounded;
/// use mail_read::reading::DEFAULT_LIMIT;
///
/// let raw = b"Content-Type: message/rfc822\nContent-Transfer-Encoding: base64\n\nQTogYgoK\n";
/// let mail = read_bounded(alloc, raw, DEFAULT_LIMIT, Some(6), &())?;
/// assert_eq!(rt; mail.headers.len(), 2);
/// let error = read_bounded(alloc, raw, DEFAULT_LIMIT, Some(5), &()).err().ok_or("no error")?;
/// assert!(rt; error.refusal().is_some());
/// ```
#[tactic(auto, unfolding(crate::specs::DecodedSize::bounded_reading, crate::specs::DecodedSize::bytes_left))]
pub fn read_bounded<'a, K: KnownCharsets>(
    alloc: Global,
    raw: &'a [u8],
    limit: usize,
    most: Option<usize>,
    known: &K,
) -> Result<ParsedMail<'a>, MailParseError>
    ensures read { AnswersOrMemory tree_of result
        (bounded_reading (K.known known.now) limit most raw.now) }
    ensures places { IfOk result (λ mail. placements_of mail ≡ mail_placements (tree_of mail)) }
{
    let mail = read_mail(alloc, raw, limit, known)?;
    let most = most_decoded(most, raw.len());
    match left_after_mails(alloc, &mail, MAX_LEVELS, most, limit, known)? {
        Some(_) => Ok(mail),
        None => Err(MailParseError::Generic("Too many decoded bytes")),
    }
}

/// Returns the greatest number of decoded bytes in a mail of this size.
fn most_decoded(chosen: Option<usize>, size: usize) -> usize
    ensures { result ≡ most_decoded chosen size }
{
    match chosen {
        Some(most) => most,
        None => size.saturating_mul(8).saturating_add(FREE),
    }
}

/// Returns what is left of `left` bytes after those that are decoded for the mails inside a mail,
/// at most `most` mails deep, or `None` if there are more.
#[cycle(left)]
fn left_after_mails<K: KnownCharsets>(
    alloc: Global,
    mail: &ParsedMail<'_>,
    most: u8,
    left: usize,
    limit: usize,
    known: &K,
) -> Result<Option<usize>, MailParseError>
    ensures read { IfOk result (λ rest. rest
        ≡ bytes_left left (decoded_size (K.known known.now) limit most (tree_of mail.now))) }
    ensures only_memory { IfErr result IsMemory }
{
    if most == 0 {
        return Ok(Some(left));
    }
    let mut rest = left;
    for part in mail.parts(alloc)? {
        if forwards(part) {
            match left_after_part(alloc, part, most - 1, rest, limit, known)? {
                Some(after) => rest = after,
                None => return Ok(None),
            }
        }
    }
    Ok(Some(rest))
}

/// Returns what is left of `left` bytes after those that are decoded for the mail that a part
/// forwards and for those inside it, or `None` if there are more.
#[cycle(left)]
fn left_after_part<K: KnownCharsets>(
    alloc: Global,
    part: &ParsedMail<'_>,
    most: u8,
    left: usize,
    limit: usize,
    known: &K,
) -> Result<Option<usize>, MailParseError>
    ensures read { IfOk result (λ rest. rest ≡ bytes_left left (mail_size (K.known known.now) limit
        (decoded_size (K.known known.now) limit most) (tree_of part.now))) }
    ensures only_memory { IfErr result IsMemory }
{
    let held = held_mail(alloc, part)?;
    if left < held.size {
        return Ok(None);
    }
    let rest = left - held.size;
    match read_mail(alloc, held.content.bytes.as_slice(), limit, known) {
        Ok(inside) => left_after_mails(alloc, &inside, most, rest, limit, known),
        Err(error) => left_if_refused(error, rest),
    }
}

/// Returns this number of bytes, unless the error is that memory ran out.
fn left_if_refused(error: MailParseError, left: usize) -> Result<Option<usize>, MailParseError>
    ensures same { IfOk result (λ rest. rest ≡ Some left) }
    ensures passed_on { IfOk result (λ rest. IsMemory error → ⊥) }
    ensures only_memory { IfErr result IsMemory }
{
    if is_memory(&error) {
        return Err(error);
    }
    Ok(Some(left))
}

/// Returns whether memory ran out.
fn is_memory(error: &MailParseError) -> bool
    ensures memory { result ≡ true → IsMemory error.now }
    ensures refused { result ≡ false → IsMemory error.now → ⊥ }
{
    matches!(error, MailParseError::Memory(_))
}

/// The mail that a part forwards.
#[derive(Drop)]
struct Held<'m> {
    /// Its bytes.
    content: Content<'m>,
    /// The number of them that were decoded.
    size: usize,
}

/// Returns the mail that a part forwards.
fn held_mail<'m>(alloc: Global, part: &'m ParsedMail<'_>) -> Result<Held<'m>, MailParseError>
    ensures bytes { IfOk result (λ held. cow_slice_items held.content.bytes
        ≡ (message_content (root (tree_of part.now))).bytes) }
    ensures size { IfOk result (λ held. held.size ≡ own_size (root (tree_of part.now))) }
    ensures only_memory { IfErr result IsMemory }
{
    let body = lenient_body(alloc, part)?;
    let content = lenient_content(alloc, &body)?;
    let size = if is_plain(&body) {
        0
    } else {
        content.bytes.as_slice().len()
    };
    Ok(Held { content, size })
}

/// Returns whether a body is not encoded.
fn is_plain(body: &LenientBody<'_>) -> bool
    ensures { (kind : LenientKind) (given : bodies.Content) → IsLenientBody kind given body.now →
        result ≡ is_plain kind }
{
    match body {
        LenientBody::Standard(Body::Base64(_) | Body::QuotedPrintable(_)) => false,
        LenientBody::Standard(Body::SevenBit(_) | Body::EightBit(_) | Body::Binary(_)) => true,
        LenientBody::Uuencode(_) => false,
    }
}
