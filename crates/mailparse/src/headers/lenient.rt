//! Headers that are read leniently.
ghost use Rattle.std.specs.Prelude.{◌≡◌, ◌≤◌, ℕ, length, map, vec_len, IfOk};
ghost use Rattle.mailparse.specs.Block.{HeaderList, bare_header, before_dash_line};
ghost use Rattle.mailparse.specs.Block.{header_count, read_lenient_headers, with_bare_keys};
ghost use Rattle.mailparse.specs.Outcome.{Answers, AnswersOrMemory};
ghost use Rattle.mailparse.specs.Refusal.{Reads};
ghost use Rattle.mailparse.specs.Views.{header_list};

use super::dashes::parse_headers_before_dashes;
use crate::error::MailParseError;
use crate::header::MailHeader;
use crate::header::bare::make_key_bare;
use std::alloc::Global;

/// Reads the headers at the front of `raw` as `parse_headers` does, but more leniently: they also
/// end before a line that begins with `--` and has no colon, as `before_dash_line` returns them, and
/// spaces and tabs at the end of a key, before its colon, are left out (RFC 5322, section 4.5).
///
/// A key of spaces and tabs alone becomes empty. Allocates only the list of headers.
///
/// # Errors
///
/// Those of `parse_headers`, which a refusal before the first header returns without allocating.
///
/// # Examples
///
/// ```rust
/// use mailparse::{MailHeaderMap, parse_lenient_headers};
///
/// let raw = b"Subject : Hi\nTo\t: you\n--b\n";
/// let (headers, body) = parse_lenient_headers(alloc, raw)?;
/// assert_eq!(rt; headers.len(), 2);
/// let to = headers.get_first_value(alloc, "to")?.ok_or("no header")?;
/// assert_eq!(rt; to.as_str(), "you");
/// assert_eq!(rt; body, 22);
/// ```
pub fn parse_lenient_headers(
    alloc: Global,
    raw: &[u8],
) -> Result<(Vec<MailHeader<'_>>, usize), MailParseError>
    ensures read { AnswersOrMemory header_list result (read_lenient_headers raw.now) }
    ensures bounds { IfOk result (λ found.
        (vec_len found.0 ≤ found.1) × (found.1 ≤ length raw.now)) }
    ensures no_alloc { header_count (before_dash_line raw.now) ≡ 0 →
        Answers header_list result (read_lenient_headers raw.now) }
{
    with_bare_keys(parse_headers_before_dashes(alloc, raw))
}

/// Returns the headers that were read, without the blanks at the end of their keys.
pub(crate) fn with_bare_keys<'a>(
    read: Result<(Vec<MailHeader<'a>>, usize), MailParseError>,
) -> Result<(Vec<MailHeader<'a>>, usize), MailParseError>
    ensures read { (given : Reads HeaderList) → AnswersOrMemory header_list read.entry given →
        AnswersOrMemory header_list result (with_bare_keys given) }
    ensures bounds { (most : ℕ) →
        IfOk read.entry (λ found. (vec_len found.0 ≤ found.1) × (found.1 ≤ most)) →
        IfOk result (λ found. (vec_len found.0 ≤ found.1) × (found.1 ≤ most)) }
    ensures no_alloc { (given : Reads HeaderList) → Answers header_list read.entry given →
        Answers header_list result (with_bare_keys given) }
{
    match read {
        Ok((mut headers, body)) => {
            make_keys_bare(headers.as_mut_slice());
            Ok((headers, body))
        }
        Err(refusal) => Err(refusal),
    }
}

/// Removes the blanks at the end of each key.
fn make_keys_bare(headers: &mut [MailHeader<'_>])
    ensures { headers.new ≡ map bare_header headers.old }
{
    for header in headers.iter_mut() {
        make_key_bare(header);
    }
}
