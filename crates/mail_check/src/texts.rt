//! The bytes of texts that other programs may read as another text.
ghost use Rattle.std.specs.Prelude.{◌≡◌, IfErr, IfOk};
ghost use Rattle.std.specs.Cow.{cow_slice_items};
ghost use Rattle.mailparse.specs.Mail.{root};
ghost use Rattle.mailparse.specs.Outcome.{IsMemory};
ghost use Rattle.mailparse.specs.Views.{content_type, tree_of};
ghost use Rattle.mail_read.specs.lenient.Content.{message_content};
ghost use Rattle.mail_check.specs.Texts.{has_bad_text, is_bad_text, is_binary};

use crate::charsets::is_lacking;
use crate::multipart::begins_type;
use mail_codec::bytescan::find_byte;
use mail_codec::charset::{Charset, KnownCharsets};
use mail_read::lenient::{Content, lenient_body, lenient_content};
use mailparse::{MailParseError, ParsedContentType, ParsedMail};
use std::alloc::{AllocError, Global};

/// Returns whether a message is a text whose bytes programs read as different texts.
pub(crate) fn has_bad_text<K: KnownCharsets>(
    alloc: Global,
    part: &ParsedMail<'_>,
    known: &K,
) -> Result<bool, MailParseError>
    ensures read { IfOk result (λ is. is
        ≡ has_bad_text (K.known known.now) (root (tree_of part.now))) }
    ensures only_memory { IfErr result IsMemory }
{
    if !begins_type(b"text/", part) {
        return Ok(false);
    }
    let content = part_content(alloc, part)?;
    let octets = content.bytes.as_slice();
    Ok(is_bad_text(alloc, &part.ctype, octets, known)?)
}

/// Returns the bytes of the body of a message without its transfer encoding.
fn part_content<'m>(alloc: Global, part: &'m ParsedMail<'_>) -> Result<Content<'m>, MailParseError>
    ensures read { IfOk result (λ content.
        cow_slice_items content.bytes ≡ (message_content (root (tree_of part.now))).bytes) }
    ensures only_memory { IfErr result IsMemory }
{
    let body = lenient_body(alloc, part)?;
    lenient_content(alloc, &body)
}

/// Returns whether programs read bytes of a type as different texts.
fn is_bad_text<K: KnownCharsets>(
    alloc: Global,
    ctype: &ParsedContentType,
    octets: &[u8],
    known: &K,
) -> Result<bool, AllocError>
    ensures { IfOk result (λ is. is
        ≡ is_bad_text (K.known known.now) (content_type ctype.now).charset octets.now) }
{
    if is_binary(octets) {
        return Ok(true);
    }
    is_lacking(alloc, ctype.charset.as_bytes(), octets, known)
}

/// Returns whether bytes have a NUL or begin with a byte order mark.
fn is_binary(octets: &[u8]) -> bool
    ensures { result ≡ is_binary octets.now }
{
    find_byte(octets, 0).is_some() || Charset::for_bom(octets).is_some()
}
