//! Why a mail is refused, and what is reported of other text.
ghost use Rattle.std.specs.Prelude.{◌≡◌, option_map, IfOk};
ghost use Rattle.std.specs.Char.{is_ascii_whitespace};
ghost use Rattle.std.specs.List.{list_all};
ghost use Rattle.mailparse.specs.Map.{text_found};
ghost use Rattle.mailparse.specs.Outcome.{IsMemory, refusal_of};
ghost use Rattle.mail_program.specs.Refusal.{refusal_text};

use mailparse::MailParseError;
use std::alloc::{AllocError, Global};

/// Returns why something is refused, as `Display` shows it, or `None` for an error that refuses
/// nothing.
///
/// Allocates the text.
///
/// # Errors
///
/// If it runs out of memory, and for `MailParseError::Memory`.
///
/// # Examples
///
/// ```rust
/// use mail_program::refusal_of;
/// use mailparse::MailParseError;
///
/// let text = refusal_of(alloc, &MailParseError::Generic("no mail"))?;
/// assert_eq!(rt; text.as_deref(), Some("no mail"));
/// ```
#[tactic(auto, unfolding(crate::specs::Refusal::refusal_text))]
pub fn refusal_of(alloc: Global, error: &MailParseError) -> Result<Option<String>, AllocError>
    ensures read { IfOk result (λ text.
        text_found text ≡ option_map refusal_text (refusal_of error.now)) }
    ensures passed_on { IfOk result (λ text. IsMemory error.now → ⊥) }
{
    let text = match error {
        MailParseError::Base64DecodeError(fault) => {
            let group = fault.group;
            format!(in alloc; "Base64 decode error: group {group} is no Base64 group")
        }
        MailParseError::EncodingError(text) => {
            let text = text.as_str();
            format!(in alloc; "Encoding error: {text}")
        }
        MailParseError::Generic(text) => String::from_str(alloc, text),
        MailParseError::QuotedPrintableDecodeError(_) => return Ok(None),
        MailParseError::Memory(_) => Err(AllocError),
    };
    Ok(Some(text?))
}

/// Returns whether all bytes are whitespace, so that there is nothing to report if they are before
/// the first mail of a mailbox.
///
/// Does not allocate.
///
/// # Examples
///
/// ```rust
/// use mail_program::is_all_whitespace;
///
/// assert!(rt; is_all_whitespace(b"\r\n \n"));
/// assert!(rt; !is_all_whitespace(b"\nHello\n"));
/// ```
pub fn is_all_whitespace(bytes: &[u8]) -> bool
    ensures { result ≡ list_all is_ascii_whitespace bytes.now }
{
    bytes.iter().all(|byte| byte.is_ascii_whitespace())
}
