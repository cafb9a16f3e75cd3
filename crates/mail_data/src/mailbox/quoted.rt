//! Mails of mailboxes in which each line that looks like a separator is quoted: the mboxrd format.
ghost use Rattle.std.specs.Prelude.{◌≡◌, ◌≤◌, length, IfOk};
ghost use Rattle.mail_data.specs.QuotedLines.{is_marked, quote_length};
ghost use Rattle.mail_data.specs.QuotedLines.{unquoted, unquoted_line, without_quote};

use crate::line_ends::line_length;
use std::alloc::{AllocError, Global};

/// Removes one `>` from each line of a mail that begins with `>`s and then `From ` (the mboxrd
/// format).
///
/// A writer of that format puts one `>` before each such line, and before each line that begins
/// with `From `, so the result is the original mail. Allocates the result.
///
/// # Errors
///
/// `AllocError` if it runs out of memory.
///
/// # Examples
///
/// ```rust
/// use mail_data::mailbox::quoted::unquoted;
///
/// let mail = unquoted(alloc, b"S: 1\n\n>From here\n>>From there\n> From\n")?;
/// assert_eq!(rt; mail.as_slice(), b"S: 1\n\nFrom here\n>From there\n> From\n".as_slice());
/// ```
pub fn unquoted(alloc: Global, mail: &[u8]) -> Result<Vec<u8>, AllocError>
    ensures { IfOk result (λ text. text.items ≡ unquoted mail.now) }
{
    let mut text = Vec::with_capacity(alloc, mail.len())?;
    let mut rest = mail;
    'lines: while !rest.is_empty() {
        text.extend_from_slice(unquoted_line(rest))?;
        rest = &rest[line_length(rest)..];
    }
    Ok(text)
}

/// Returns the first line without its `>`, if it is quoted.
#[tactic(auto, unfolding(crate::specs::QuotedLines::unquoted_line))]
fn unquoted_line(bytes: &[u8]) -> &[u8]
    ensures { result.now ≡ unquoted_line bytes.now }
{
    let line = without_quote(bytes);
    &line[..line_length(line)]
}

/// Returns the bytes without the `>` of the first line, if it is quoted.
fn without_quote(bytes: &[u8]) -> &[u8]
    ensures { result.now ≡ without_quote bytes.now }
{
    let Some((byte, rest)) = bytes.split_first() else {
        return bytes;
    };
    if *byte == b'>' && is_marked(rest) {
        rest
    } else {
        bytes
    }
}

/// Returns whether `From ` follows the `>`s at the front.
#[tactic(auto, unfolding(crate::specs::QuotedLines::is_marked))]
fn is_marked(bytes: &[u8]) -> bool
    ensures { result ≡ is_marked bytes.now }
{
    bytes[quote_length(bytes)..].starts_with(b"From ")
}

/// Returns the number of `>` at the front.
#[tactic(auto, unfolding(crate::specs::QuotedLines::quote_length))]
fn quote_length(bytes: &[u8]) -> usize
    ensures value { result ≡ quote_length bytes.now }
    ensures bounds { result ≤ length bytes.now }
{
    bytes.iter().take_while(|byte| **byte == b'>').count()
}
