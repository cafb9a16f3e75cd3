//! How much of an input is read before its mails are.
ghost use Rattle.std.specs.Prelude.{◌≡◌, drop};
ghost use Rattle.mail_data.specs.Mailbox.{has_line};
ghost use Rattle.mail_walk.specs.Wanted.{ReadsUntil, first_wanted, is_there};

use crate::kind::InputKind;
use mail_data::mailbox::{Format, has_front, has_line, settled_entry};
use mail_program::{Fault, read_more};
use std::alloc::Global;
use std::io::{self, ErrorKind, Read};

/// How much of an input is read before its mails are.
#[derive(Clone, Copy, Debug)]
pub enum Wanted {
    /// Its first line, which shows whether it is a mailbox.
    FirstLine,
    /// The text before the first separator of a mailbox.
    Front,
    /// The same, or the line that contains this offset, which shows that no mail begins before it.
    FrontBefore(usize),
    /// The first mail of a mailbox in this format.
    FirstMail(Format),
    /// All bytes.
    End,
}

/// Returns how much of an input of this kind is read before its mails are: what shows whether
/// it is a mailbox, and then the text before the first separator.
///
/// Does not allocate.
///
/// # Examples
///
/// ```rust
/// use mail_walk::{InputKind, Wanted, first_wanted};
///
/// assert!(rt; matches!(first_wanted(InputKind::Either), Wanted::FirstLine));
/// ```
pub fn first_wanted(kind: InputKind) -> Wanted
    ensures { result ≡ first_wanted kind }
{
    match kind {
        InputKind::Either => Wanted::FirstLine,
        InputKind::Mail => Wanted::End,
        InputKind::Mailbox(_) => Wanted::Front,
    }
}

/// Appends what the reader has left until the bytes contain what is wanted, or to its end. Returns
/// whether it is at its end. The bytes are doubled from one look to the next, so the time is
/// linear.
///
/// Allocates the bytes.
///
/// # Errors
///
/// `Fault::Input` if a read fails, and `Fault::Mail` with `MailParseError::Memory` if it runs out
/// of memory.
///
/// # Examples
///
/// ```rust
/// use mail_walk::{Wanted, read_until};
///
/// let mut reader = b"Subject: Hi\n\nHello\n".as_slice();
/// let mut bytes = Vec::new(alloc);
/// assert!(rt; !read_until(alloc, &mut bytes, &mut reader, Wanted::FirstLine)?);
/// assert!(rt; read_until(alloc, &mut bytes, &mut reader, Wanted::End)?);
/// assert_eq!(rt; bytes.as_slice(), b"Subject: Hi\n\nHello\n".as_slice());
/// ```
pub fn read_until<R: Read>(
    alloc: Global,
    bytes: &mut Vec<u8>,
    reader: &mut R,
    wanted: Wanted,
) -> Result<bool, Fault>
    ensures { ReadsUntil wanted (R.remaining reader.old) (R.remaining reader.new)
        bytes.old.items bytes.new.items result }
{
    for _turn in 0..u64::MAX {
        if is_there(wanted, bytes.as_slice()) {
            return Ok(false);
        }
        let most = next_length(wanted, bytes.len());
        if read_more(alloc, bytes, reader, most)? {
            return Ok(true);
        }
    }
    Err(Fault::Input(io::Error::from(ErrorKind::Interrupted)))
}

/// Returns the length at which the bytes are searched again, given the one at which they were:
/// twice that, but at first at most the offset after which the text before a separator is not
/// wanted.
fn next_length(wanted: Wanted, length: usize) -> usize {
    let doubled = length.saturating_mul(2);
    match wanted {
        Wanted::FrontBefore(end) if length < end => doubled.min(end),
        _ => doubled,
    }
}

/// Returns whether these bytes contain what is wanted.
fn is_there(wanted: Wanted, bytes: &[u8]) -> bool
    ensures { result ≡ is_there wanted bytes.now }
{
    match wanted {
        Wanted::FirstLine => has_line(bytes),
        Wanted::Front => has_front(bytes),
        Wanted::FrontBefore(end) => has_front(bytes) || has_line_at(bytes, end),
        Wanted::FirstMail(format) => settled_entry(bytes, format).is_some(),
        Wanted::End => false,
    }
}

/// Returns whether the line that contains an offset was read with at least one more byte.
fn has_line_at(bytes: &[u8], at: usize) -> bool
    ensures { result ≡ has_line (drop at bytes.now) }
{
    at < bytes.len() && has_line(&bytes[at..])
}
