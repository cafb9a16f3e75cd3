//! The findings of the bytes of a mail, in the one reading that all programs share.
ghost use Rattle.std.specs.Prelude.{map};
ghost use Rattle.mailparse.specs.Outcome.{AnswersOrMemory};
ghost use Rattle.mail_check.specs.FindingViews.{finding_view};
ghost use Rattle.mail_check.specs.Reading.{mail_findings};

use crate::listing::{Finding, findings};
use mailparse::{KnownCharsets, MAX_LEVELS, MailParseError, Strict, parse_mail_within};
use std::alloc::Global;

/// Reads a mail as `parse_mail_in` does (RFC 5322, section 2; RFC 2046, section 5.1), and returns
/// its `findings`.
///
/// `rocktray check` and `rocktray json --check` list these. A mail with more than `limit` messages,
/// parts and headers is refused, as by `parse_mail_within`. Allocates the mail and its findings.
///
/// # Errors
///
/// Those of `parse_mail_within`: a mail that is refused has no findings. `MailParseError::Memory`
/// if it runs out of memory.
///
/// # Examples
///
/// ```rust
/// use mail_check::{Name, read_findings};
///
/// let found = read_findings(alloc, b"A: b\0\n\nHi\n", 2, &())?;
/// assert_eq!(rt; found.len(), 1);
/// assert!(rt; found[0].name == Name::Nul);
/// assert!(rt; read_findings(alloc, b" A: b\n\nHi\n", 2, &()).is_err());
/// ```
#[tactic(auto, unfolding(crate::specs::Reading::mail_findings))]
pub fn read_findings<K: KnownCharsets>(
    alloc: Global,
    raw: &[u8],
    limit: usize,
    known: &K,
) -> Result<Vec<Finding>, MailParseError>
    ensures { AnswersOrMemory (λ found. map finding_view found.items) result
        (mail_findings (K.known known.now) limit raw.now) }
{
    let mail = parse_mail_within(alloc, raw, MAX_LEVELS, limit, &Strict(known))?;
    findings(alloc, &mail, known)
}
