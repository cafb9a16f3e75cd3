//! What the formats of mailboxes differ in: where a mail ends.
ghost use Rattle.std.specs.Prelude.{◌≡◌, ◌≤◌, length};
ghost use Rattle.mail_data.specs.Mailbox.{entry_by, next_by};
ghost use Rattle.mail_data.specs.MailboxFormats.{is_length_known, length_in};

use super::counted::{counted_length, is_count_known};
use super::{MailboxEntry, mail_length};
use crate::line_ends::{empty_line, line_length};

/// A format of mailboxes.
#[derive(Clone, Copy, Debug, PartialEq, Eq)]
pub enum Format {
    /// The mbox format of RFC 4155, appendix A.
    Plain,
    /// mboxrd: the same, but each line of a mail that consists of `>`s and then `From ` has one `>`
    /// too many, which `quoted::unquoted` removes.
    Quoted,
    /// mboxcl and mboxcl2: the field `Content-Length` of a mail gives the length of its body.
    Counted,
}

/// Returns the mail at the front of bytes that begin with its separator, and the bytes after it.
pub(super) fn cut_entry(bytes: &[u8], format: Format) -> (MailboxEntry<'_>, &[u8])
    ensures entry { result.0 ≡ entry_by (length_in format) bytes.now }
    ensures after { result.1.now ≡ next_by (length_in format) bytes.now }
{
    let (separator, body) = bytes.split_at(line_length(bytes));
    let (mail, after) = body.split_at(entry_length(body, format));
    let (ending, next) = after.split_at(empty_line(after));
    let entry = MailboxEntry {
        separator,
        mail,
        ending,
    };
    (entry, next)
}

/// Returns the length of the mail at the front.
fn entry_length(mail: &[u8], format: Format) -> usize
    ensures value { result ≡ length_in format mail.now }
    ensures bounds { result ≤ length mail.now }
{
    match format {
        Format::Plain | Format::Quoted => mail_length(mail),
        Format::Counted => counted_length(mail),
    }
}

/// Returns whether it is known where the mail at the front ends, once the separator after it was
/// read.
pub(super) fn is_length_known(mail: &[u8], format: Format) -> bool
    ensures { result ≡ is_length_known format mail.now }
{
    match format {
        Format::Plain | Format::Quoted => true,
        Format::Counted => is_count_known(mail),
    }
}
