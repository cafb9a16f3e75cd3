//! How the programs and the C library read a mail: in one manner, with a limit on its size as a
//! tree.
ghost use Rattle.std.specs.Prelude.{◌≡◌, ◌≤◌, IfOk};
ghost use Rattle.mailparse.specs.Bound.{items_within};
ghost use Rattle.mailparse.specs.Outcome.{AnswersOrMemory};
ghost use Rattle.mailparse.specs.Views.{placements_of, tree_of};
ghost use Rattle.mail_read.specs.Reading.{mail_placements, mail_reading};

use crate::lenient::Lenient;
use mail_codec::charset::KnownCharsets;
use mailparse::{MAX_LEVELS, MailParseError, ParsedMail, parse_mail_within};
use std::alloc::Global;

/// The limit on messages, parts and headers that the programs set unless they are asked for
/// another: no mail that people sent comes near it.
pub const DEFAULT_LIMIT: usize = 1_000_000;

/// Returns a mail as the programs and the C library read it: in the manner `lenient::Lenient`, with
/// parts at most `MAX_LEVELS` levels below it (RFC 2045, section 5; RFC 2046, section 5.1), but a
/// mail with more than `limit` messages, parts and headers is refused.
///
/// Counted are the mail itself, all its parts, and the headers of each. A mail inside it, in a part
/// `message/rfc822`, is a mail of its own. A message that `parse_mail_in` refuses is kept as plain
/// text without headers, and `lenient::refusal` returns why. Allocates as `parse_mail` does, and
/// for at most `limit` messages, parts and headers.
///
/// # Errors
///
/// `MailParseError::Generic` with the text `Too many parts and headers`, whose kind is
/// `RefusalKind::TooMany`, if there are more than `limit`; and `MailParseError::Memory` if it runs
/// out of memory.
///
/// # Examples
///
/// ```rust
/// use mail_read::lenient::refusal;
/// use mail_read::reading::{DEFAULT_LIMIT, read_mail};
/// use mailparse::RefusalKind;
///
/// let raw = b"Subject: Hi\nTo: ann@example.org\n\nHello\n";
/// let mail = read_mail(alloc, raw, DEFAULT_LIMIT, &())?;
/// assert_eq!(rt; mail.headers.len(), 2);
/// let kept = read_mail(alloc, b" Subject: Hi\n\nHello\n", DEFAULT_LIMIT, &())?;
/// assert!(rt; refusal(alloc, &kept)?.is_some());
/// let error = read_mail(alloc, raw, 2, &()).err().ok_or("no error")?;
/// assert!(rt; error.refusal() == Some(RefusalKind::TooMany));
/// ```
#[tactic(auto, unfolding(crate::specs::Reading::mail_reading))]
pub fn read_mail<'a, K: KnownCharsets>(
    alloc: Global,
    raw: &'a [u8],
    limit: usize,
    known: &K,
) -> Result<ParsedMail<'a>, MailParseError>
    ensures read { AnswersOrMemory tree_of result
        (mail_reading (K.known known.now) limit raw.now) }
    ensures items { IfOk result (λ mail. items_within (tree_of mail) ≤ limit) }
    ensures places { IfOk result (λ mail. placements_of mail ≡ mail_placements (tree_of mail)) }
{
    parse_mail_within(alloc, raw, MAX_LEVELS, limit, &Lenient(known))
}
