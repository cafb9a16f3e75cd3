//! Mailboxes: the mails of an mbox file (RFC 4155, appendix A).
ghost use Rattle.std.specs.Prelude.{◌<◌, ◌≡◌, ◌++◌, ◌≤◌, IfSome, length, option_map, take};
ghost use Rattle.std.specs.List.{flat_map};
ghost use Rattle.mail_data.specs.Mailbox.{Entry, entry_bytes, front_length};
ghost use Rattle.mail_data.specs.Mailbox.{has_front, has_line, is_before_text, mail_length};
ghost use Rattle.mail_data.specs.MailboxFormats.{entries_in, settled_in};
ghost use Rattle.mail_data.specs.MailboxViews.{entries_left};
ghost use Rattle.mail_data.specs.Separator.{is_separator};

mod counted;
mod formats;
pub mod laws;
pub mod quoted;
mod separator;

use crate::line_ends::{empty_line, last_empty_line, line_length};
pub use formats::Format;
use formats::{cut_entry, is_length_known};
use mail_codec::bytescan::find_pair;
use separator::is_separator;
use std::marker::Model;

/// A mail of a mailbox (RFC 4155, appendix A): three slices that follow one another.
#[derive(Debug, Drop)]
pub struct MailboxEntry<'a> {
    separator: &'a [u8],
    mail: &'a [u8],
    ending: &'a [u8],
}

/// A contract sees the bytes of the three.
impl<'a> Model for MailboxEntry<'a> {
    ghost Value = { Entry };

    ghost view = { λ e.
        record { separator = e.separator.now; mail = e.mail.now; ending = e.ending.now } };
}

impl<'a> MailboxEntry<'a> {
    /// Returns the line before the mail, `From ` with an address and a time, including its line end
    /// (RFC 4155, appendix A).
    ///
    /// Does not allocate.
    ///
    /// # Examples
    ///
    /// ```rust
    /// use mail_data::mailbox::{Format, read_mailbox};
    ///
    /// let raw = b"From a Fri Jul  8 12:08:34 2011\nSubject: 1\n\none\n\n";
    /// for entry in read_mailbox(raw, Format::Plain) {
    ///     assert_eq!(rt; entry.separator(), b"From a Fri Jul  8 12:08:34 2011\n".as_slice());
    /// }
    /// ```
    pub fn separator(&self) -> &'a [u8]
        ensures { result.now ≡ self.now.separator }
    {
        self.separator
    }

    /// Returns the bytes of the mail (RFC 4155, appendix A).
    ///
    /// They are as in the mailbox: `quoted::unquoted` removes the `>` that a writer puts before a
    /// line `From `. Does not allocate.
    ///
    /// # Examples
    ///
    /// ```rust
    /// use mail_data::mailbox::{Format, read_mailbox};
    ///
    /// let raw = b"From a Fri Jul  8 12:08:34 2011\nSubject: 1\n\none\n\n";
    /// for entry in read_mailbox(raw, Format::Plain) {
    ///     assert_eq!(rt; entry.mail(), b"Subject: 1\n\none\n".as_slice());
    /// }
    /// ```
    pub fn mail(&self) -> &'a [u8]
        ensures { result.now ≡ self.now.mail }
    {
        self.mail
    }

    /// Returns the empty line that ends the mail (RFC 4155, appendix A), or no bytes if there is no
    /// such line.
    ///
    /// Does not allocate.
    ///
    /// # Examples
    ///
    /// ```rust
    /// use mail_data::mailbox::{Format, read_mailbox};
    ///
    /// let raw = b"From a Fri Jul  8 12:08:34 2011\nSubject: 1\n\none\n\n";
    /// for entry in read_mailbox(raw, Format::Plain) {
    ///     assert_eq!(rt; entry.ending(), b"\n".as_slice());
    /// }
    /// ```
    pub fn ending(&self) -> &'a [u8]
        ensures { result.now ≡ self.now.ending }
    {
        self.ending
    }
}

/// An iterator over the mails of a mailbox, as `read_mailbox` returns it.
///
/// Copies nothing and does not allocate.
#[derive(Debug, Drop)]
pub struct Mailbox<'a> {
    format: Format,
    front: &'a [u8],
    rest: &'a [u8],
}

impl<'a> Mailbox<'a> {
    /// Returns the bytes before the first separator: none if the mailbox begins with one.
    ///
    /// Does not allocate.
    ///
    /// # Examples
    ///
    /// ```rust
    /// use mail_data::mailbox::{Format, read_mailbox};
    ///
    /// let mails = read_mailbox(b"junk\n\nFrom a Fri Jul  8 12:08:34 2011\n", Format::Plain);
    /// assert_eq!(rt; mails.front(), b"junk\n\n".as_slice());
    /// ```
    pub fn front(&self) -> &'a [u8]
        ensures { result.now ≡ self.now.front.now }
    {
        self.front
    }
}

impl<'a> Iterator for Mailbox<'a> {
    ghost use Rattle.std.specs.Iterator.{YieldsFirst, item_count};
    ghost use Rattle.mail_data.specs.MailboxViews.{entries_left};

    type Item = MailboxEntry<'a>;

    ghost next_gives = { YieldsFirst entries_left };

    ghost remaining = { item_count entries_left };

    fn next(&mut self) -> Option<MailboxEntry<'a>> {
        let rest = self.rest;
        if !is_separator(rest) {
            return None;
        }
        let (entry, after) = cut_entry(rest, self.format);
        self.rest = after;
        Some(entry)
    }
}

/// Reads a mailbox: an iterator over its mails, each of which follows a separator, a line `From `
/// with an address and a time (the mbox format of RFC 4155, appendix A).
///
/// Such a line separates mails if it is the first one or follows an empty line; elsewhere it
/// belongs to the mail. The time is as `asctime` writes it, `Fri Jul  8 12:08:34 2011`, but the
/// seconds may be missing and a zone may precede the year; text after the year is ignored. A line
/// such as `From the start I knew` is text. Lines end with LF or CR LF. The empty line before a
/// separator, and one at the end of the mailbox, belongs to no mail. Neither does the text before
/// the first separator. All bytes are accepted, and none are changed: `>From ` stays as it is.
///
/// In `Format::Counted` the first field `Content-Length` of a mail's header block gives the length
/// of its body, in 1 to 9 digits on the line of the name. The mail ends that many bytes after the
/// block, whatever it contains, if the mailbox ends there or a separator of at most 1,000 bytes
/// follows, in both cases perhaps after an empty line. Otherwise, and without such a field, it ends
/// as in the other formats, and so does the text before the first separator. Does not allocate.
///
/// # Examples
///
/// ```rust
/// use mail_data::mailbox::{Format, read_mailbox};
///
/// let bytes = b"From a Fri Jul 8 12:08 2011\nS: 1\n\none\n\nFrom c Fri Jul 8 12:09 2011\n\ntwo\n";
/// let mut mails = Vec::new(alloc);
/// for entry in read_mailbox(bytes, Format::Plain) {
///     mails.push(entry.mail())?;
/// }
/// assert_eq!(rt; mails.len(), 2);
/// assert_eq!(rt; mails[0], b"S: 1\n\none\n".as_slice());
/// assert_eq!(rt; mails[1], b"\ntwo\n".as_slice());
///
/// let all = b"From a Fri Jul 8 12:08 2011\nContent-Length: 29\n\n\nFrom b Fri Jul 8 12:08 2011\n";
/// for entry in read_mailbox(all, Format::Counted) {
///     assert!(rt; entry.mail().ends_with(b"\n\nFrom b Fri Jul 8 12:08 2011\n"));
/// }
/// ```
pub fn read_mailbox(bytes: &[u8], format: Format) -> Mailbox<'_>
    ensures read { entries_left result ≡ entries_in format bytes.now }
    ensures front { result.front.now ≡ take (front_length bytes.now) bytes.now }
    ensures whole { result.front.now ++ flat_map entry_bytes (entries_left result) ≡ bytes.now }
{
    let (front, rest) = bytes.split_at(front_length(bytes));
    Mailbox {
        format,
        front,
        rest,
    }
}

/// Returns the mail at the front of the bytes of a mailbox that were read so far, and the bytes
/// after it, if no bytes that follow can change them.
///
/// This is so if the bytes begin with a separator, and the next separator follows the mail with its
/// whole line and at least one more byte. In `Format::Counted` the bytes must also decide where the
/// `Content-Length` ends the mail. Otherwise it returns `None`: read more, or at the end of the
/// mailbox call `read_mailbox`. Each call searches the mail from its start, so call it again after
/// reading twice as many bytes. Does not allocate.
///
/// # Examples
///
/// ```rust
/// use mail_data::mailbox::{Format, settled_entry};
///
/// let read = b"From a Fri Jul  8 12:08 2011\n\none\n\nFrom b Fri Jul  8 12:09 2011\n\ntw";
/// let Some((entry, rest)) = settled_entry(read, Format::Plain) else {
///     return Err("the mail is not settled".into());
/// };
/// assert_eq!(rt; entry.mail(), b"\none\n".as_slice());
/// assert!(rt; settled_entry(rest, Format::Plain).is_none());
/// ```
#[tactic(auto, unfolding(crate::specs::MailboxFormats::settled_in))]
pub fn settled_entry(bytes: &[u8], format: Format) -> Option<(MailboxEntry<'_>, &[u8])>
    ensures value { option_map (λ found. (found.0, found.1.now)) result
        ≡ settled_in format bytes.now }
    ensures shorter { IfSome result (λ found. length found.1.now < length bytes.now) }
{
    if !is_separator(bytes) || !is_length_known(&bytes[line_length(bytes)..], format) {
        return None;
    }
    let (entry, rest) = cut_entry(bytes, format);
    if is_before_text(rest) {
        Some((entry, rest))
    } else {
        None
    }
}

/// Returns whether the bytes begin with a separator, as a mailbox does (RFC 4155, appendix A).
///
/// Does not allocate.
///
/// # Examples
///
/// ```rust
/// use mail_data::mailbox::is_mailbox;
///
/// assert!(rt; is_mailbox(b"From a Fri Jul  8 12:08:34 2011\nSubject: 1\n"));
/// assert!(rt; !is_mailbox(b"Subject: 1\n"));
/// ```
pub fn is_mailbox(bytes: &[u8]) -> bool
    ensures { result ≡ is_separator bytes.now }
{
    is_separator(bytes)
}

/// Returns whether the first line was read with at least one more byte: further bytes then do not
/// change the result of `is_mailbox`.
///
/// Does not allocate.
///
/// # Examples
///
/// ```rust
/// use mail_data::mailbox::has_line;
///
/// assert!(rt; has_line(b"Subject: 1\n\n"));
/// assert!(rt; !has_line(b"Subject: 1\n"));
/// ```
pub fn has_line(bytes: &[u8]) -> bool
    ensures { result ≡ has_line bytes.now }
{
    line_length(bytes) < bytes.len()
}

/// Returns whether the first separator of a mailbox was read with its whole line and at least one
/// more byte: further bytes then do not change the bytes before it.
///
/// Does not allocate.
///
/// # Examples
///
/// ```rust
/// use mail_data::mailbox::has_front;
///
/// assert!(rt; has_front(b"junk\n\nFrom a Fri Jul  8 12:08:34 2011\n\n"));
/// assert!(rt; !has_front(b"junk\n\nFrom a Fri Jul  8 12:08"));
/// ```
#[tactic(auto, unfolding(crate::specs::Mailbox::has_front))]
pub fn has_front(bytes: &[u8]) -> bool
    ensures { result ≡ has_front bytes.now }
{
    is_before_text(&bytes[front_length(bytes)..])
}

/// Returns whether a separator is at the front with its whole line and at least one more byte.
#[tactic(auto, unfolding(crate::specs::Mailbox::is_before_text))]
fn is_before_text(bytes: &[u8]) -> bool
    ensures { result ≡ is_before_text bytes.now }
{
    is_separator(bytes) && has_line(bytes)
}

/// Returns the number of bytes before the first separator.
fn front_length(bytes: &[u8]) -> usize
    ensures value { result ≡ front_length bytes.now }
    ensures bounds { result ≤ length bytes.now }
{
    if is_separator(bytes) {
        return 0;
    }
    let length = mail_length(bytes);
    length + empty_line(&bytes[length..])
}

/// Returns the number of bytes before the first line at which a mail ends.
///
/// A separator begins with `F`, so only the lines that begin with it are tested.
fn mail_length(bytes: &[u8]) -> usize
    ensures value { result ≡ mail_length bytes.now }
    ensures bounds { result ≤ length bytes.now }
{
    let mut at = 0;
    'lines: while let Some(place) = find_pair(&bytes[at..], b'\n', b'F') {
        at += place + 1;
        let empty = last_empty_line(&bytes[..at]);
        if empty > 0 && is_separator(&bytes[at..]) {
            return at - empty;
        }
    }
    bytes.len() - last_empty_line(bytes)
}
