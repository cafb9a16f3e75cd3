//! Dispositions, read leniently.
ghost use Rattle.std.specs.Prelude.{◌≡◌, option_map, IfSome, Ok};
ghost use Rattle.mailparse.specs.Disposition.{disposition_of};
ghost use Rattle.mailparse.specs.Mail.{root};
ghost use Rattle.mailparse.specs.Outcome.{AnswersOrMemory};
ghost use Rattle.mailparse.specs.Views.{kind, tree_of};
ghost use Rattle.mail_read.specs.lenient.Dispositions.{lenient_disposition, lenient_kind};

use super::comments::without_comments;
use super::values::lenient_header_text_ref;
use mail_codec::charset::KnownCharsets;
use mailparse::{
    DispositionType, MailHeaderMap, MailParseError, ParsedMail, parse_content_disposition,
};
use std::alloc::Global;

/// Returns the kind of the disposition of a part, read leniently, or `None` if it has no header
/// `Content-Disposition` (RFC 2183, section 2).
///
/// It is read as `mailparse` does, but in the text that `lenient_header_text` returns, and without
/// the comments in it (RFC 2045, section 5.1): `attachment (x)` is an attachment. An empty text is
/// `Inline`. Allocates the text and the parameters.
///
/// # Errors
///
/// `MailParseError::Memory` if it runs out of memory.
///
/// # Examples
///
/// ```rust
/// use mail_read::lenient::lenient_disposition;
/// use mailparse::{DispositionType, parse_mail};
///
/// let mail = parse_mail(alloc, b"Content-Disposition: (x) Attachment(y); filename=a\n\n")?;
/// let disposition = lenient_disposition(alloc, &mail, &())?;
/// assert!(rt; disposition == Some(DispositionType::Attachment));
/// assert!(rt; lenient_disposition(alloc, &parse_mail(alloc, b"A: b\n\n")?, &())?.is_none());
/// ```
#[tactic(auto, unfolding(crate::specs::lenient::Dispositions::lenient_disposition))]
pub fn lenient_disposition<K: KnownCharsets>(
    alloc: Global,
    part: &ParsedMail<'_>,
    known: &K,
) -> Result<Option<DispositionType>, MailParseError>
    ensures { AnswersOrMemory (λ found. option_map kind found) result
        (Ok (lenient_disposition (K.known known.now) (root (tree_of part.now)))) }
{
    let Some(header) = part.headers.get_first_header("Content-Disposition") else {
        return Ok(None);
    };
    let text = lenient_header_text_ref(alloc, header.get_value_raw(), known)?;
    Ok(Some(lenient_kind(alloc, text.as_str())?))
}

/// Returns the kind of the disposition in a text.
#[tactic(auto, unfolding(crate::specs::lenient::Dispositions::lenient_kind))]
fn lenient_kind(alloc: Global, text: &str) -> Result<DispositionType, MailParseError>
    ensures { AnswersOrMemory kind result (Ok (lenient_kind text.now)) }
{
    let plain = without_comments(alloc, text)?;
    if let Some(kind) = plain_kind(plain.as_str()) {
        return Ok(kind);
    }
    Ok(parse_content_disposition(alloc, plain.as_str())?.disposition)
}

/// Returns the kind of a disposition that is in lower case and has parameters, as most are. These
/// are not read.
#[tactic(auto, using(crate::proofs::lemmas::lenient::Dispositions::plain_kinds))]
fn plain_kind(text: &str) -> Option<DispositionType>
    ensures { IfSome result (λ found. kind found ≡ (disposition_of text.now).kind) }
{
    if text.starts_with("attachment;") {
        return Some(DispositionType::Attachment);
    }
    if text.starts_with("inline;") {
        return Some(DispositionType::Inline);
    }
    None
}
