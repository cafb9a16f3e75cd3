//! Why a message that a manner kept is refused by the strict reading.
ghost use Rattle.std.specs.Prelude.{◌≡◌, option_and_then, option_map, IfOk, Some};
ghost use Rattle.mailparse.specs.Mail.{root};
ghost use Rattle.mailparse.specs.Outcome.{refusal_of};
ghost use Rattle.mailparse.specs.Views.{tree_of};
ghost use Rattle.mail_read.specs.lenient.Refused.{kept_for, was_kept};

use mailparse::{MailParseError, ParsedMail, parse_lenient_headers};
use std::alloc::{AllocError, Global};

/// Returns why a message or part is refused by `parse_mail`, if a manner that keeps refused
/// messages read it, such as `Lenient`; or `None` if it is not refused.
///
/// A message was kept if it has no header block, not even a blank line, but has bytes. If its block
/// is not refused (RFC 5322, section 2.1), the message has too many levels. Reads its block again,
/// and allocates the headers.
///
/// # Errors
///
/// `AllocError` if it runs out of memory.
///
/// # Examples
///
/// ```rust
/// use mail_read::lenient::{Lenient, refusal};
/// use mailparse::parse_mail_as;
///
/// let raw = b"Content-Type: multipart/mixed; boundary=b\n\n\
///     --b\n Subject: Hi\n\none\n--b\n\ntwo\n--b--\n";
/// let mail = parse_mail_as(alloc, raw, 100, &Lenient(&()))?;
/// assert!(rt; refusal(alloc, &mail.subparts[0])?.is_some());
/// assert!(rt; refusal(alloc, &mail.subparts[1])?.is_none());
/// ```
#[tactic(auto, unfolding(crate::specs::lenient::Refused::kept_for))]
pub fn refusal(alloc: Global, mail: &ParsedMail<'_>) -> Result<Option<MailParseError>, AllocError>
    ensures read { IfOk result (λ found.
        option_map refusal_of found ≡ option_map Some (kept_for (root (tree_of mail.now)))) }
    ensures refused { IfOk result (λ found.
        option_and_then refusal_of found ≡ kept_for (root (tree_of mail.now))) }
{
    if !was_kept(mail) {
        return Ok(None);
    }
    match parse_lenient_headers(alloc, mail.raw_bytes) {
        Ok(_) => Ok(Some(MailParseError::Generic("Recursion limit reached"))),
        Err(MailParseError::Memory(error)) => Err(error),
        Err(error) => Ok(Some(error)),
    }
}

/// Returns whether a message or part was kept by a manner that keeps refused messages, such as
/// `Lenient`: it has bytes but no header block, not even a blank line (RFC 5322, section 2.1).
/// `refusal` returns why. Does not allocate.
///
/// # Examples
///
/// ```rust
/// use mail_read::lenient::{Lenient, was_kept};
/// use mailparse::parse_mail_as;
///
/// assert!(rt; was_kept(&parse_mail_as(alloc, b" Subject: Hi\n\n", 100, &Lenient(&()))?));
/// assert!(rt; !was_kept(&parse_mail_as(alloc, b"Subject: Hi\n\n", 100, &Lenient(&()))?));
/// ```
pub fn was_kept(mail: &ParsedMail<'_>) -> bool
    ensures { result ≡ was_kept (root (tree_of mail.now)) }
{
    mail.get_headers().get_raw_bytes().is_empty() && !mail.raw_bytes.is_empty()
}
