//! The calls whose results are numbers.
ghost use Rattle.std.specs.Prelude.{◌≡◌};
ghost use Rattle.mail_data.specs.Mailbox.{front_length};
ghost use Rattle.mail_data.specs.MailboxFormats.{entries_in};
ghost use Rattle.mail_records.specs.Numbers.{ReturnsDate, ReturnsOffset, ReturnsOffsets, date};
ghost use Rattle.mail_records.specs.Numbers.{first_offsets, format_named, no_mail_code};

use crate::codes::{ABSENT, DONE, NO_MAILBOX, NOT_UTF8, code_of_date};
use crate::results::text_in;
use mail_data::mailbox::{Format, read_mailbox};
use mail_read::lenient::date_and_offset_of;

/// Reads the value of a Date header. Returns `DONE`, or the code of its refusal.
///
/// # Examples
///
/// ```rust
/// use mail_records::codes::DONE;
/// use mail_records::numbers::date;
///
/// let (mut seconds, mut is_zone_known) = (0, 0);
/// let text = b"1 Jan 1970 00:00:05 +0000";
/// assert_eq!(rt; date(&mut seconds, &mut is_zone_known, text), DONE);
/// assert!(rt; seconds == 5 && is_zone_known == 1);
/// ```
pub fn date(seconds: &mut i64, is_zone_known: &mut u8, text: &[u8]) -> u32
    ensures { ReturnsDate (date text.now) seconds.old seconds.new is_zone_known.new result }
{
    let mut offset = 0;
    date_and_offset(seconds, &mut offset, is_zone_known, text)
}

/// Reads the value of a Date header, with the offset of its zone, 0 if that is not known. Returns
/// `DONE`, or the code of its refusal.
///
/// # Examples
///
/// ```rust
/// use mail_records::numbers::date_and_offset;
///
/// let (mut seconds, mut offset, mut is_zone_known) = (0, 0, 0);
/// let text = b"1 Jan 1970 01:00:05 +0100";
/// date_and_offset(&mut seconds, &mut offset, &mut is_zone_known, text);
/// assert!(rt; seconds == 5 && offset == 3600 && is_zone_known == 1);
/// ```
pub fn date_and_offset(
    seconds: &mut i64,
    offset: &mut i64,
    is_zone_known: &mut u8,
    text: &[u8],
) -> u32
    ensures date { ReturnsDate (date text.now) seconds.old seconds.new is_zone_known.new result }
    ensures offset { ReturnsOffset (date text.now) offset.old offset.new }
{
    match dated(text) {
        Ok((time, zone)) => {
            *seconds = time;
            *offset = zone.unwrap_or(0);
            *is_zone_known = if zone.is_some() { 1 } else { 0 };
            DONE
        }
        Err(code) => {
            *is_zone_known = 0;
            code
        }
    }
}

/// Returns the seconds since 1970 of a date and the offset of its zone, if that is known, or the
/// code of its refusal.
fn dated(text: &[u8]) -> Result<(i64, Option<i64>), u32>
    ensures { result ≡ date text.now }
{
    match text_in(text) {
        Ok(text) => match date_and_offset_of(text) {
            Ok(date) => Ok(date),
            Err(error) => Err(code_of_date(error)),
        },
        Err(_) => Err(NOT_UTF8),
    }
}

/// Finds the first mail of a mailbox: the offsets at which it begins and ends, and that of the next
/// separator. Returns `DONE`; `ABSENT` if there are no bytes, and `NO_MAILBOX` if they have no
/// separator.
///
/// # Examples
///
/// ```rust
/// use mail_records::codes::DONE;
/// use mail_records::numbers::next_mail;
///
/// let (mut start, mut end, mut next) = (0, 0, 0);
/// let mailbox = b"From a Fri Jul  8 12:08:34 2011\nA: 1\n\n";
/// assert_eq!(rt; next_mail(&mut start, &mut end, &mut next, mailbox, false), DONE);
/// assert!(rt; start == 32 && next == 38);
/// ```
pub fn next_mail(
    start: &mut usize,
    end: &mut usize,
    next: &mut usize,
    mailbox: &[u8],
    is_counted: bool,
) -> u32
    ensures { ReturnsOffsets
        (first_offsets (entries_in (format_named is_counted) mailbox.now) (front_length mailbox.now))
        (no_mail_code mailbox.now) (start.old, end.old, next.old) (start.new, end.new, next.new)
        result }
{
    let mut mails = read_mailbox(mailbox, format_named(is_counted));
    let front = mails.front().len();
    let Some(entry) = mails.next() else {
        return no_mail_code(mailbox);
    };
    *start = front + entry.separator().len();
    *end = *start + entry.mail().len();
    *next = *end + entry.ending().len();
    DONE
}

/// Returns the code for bytes without a mail.
fn no_mail_code(mailbox: &[u8]) -> u32
    ensures { result ≡ no_mail_code mailbox.now }
{
    if mailbox.is_empty() {
        ABSENT
    } else {
        NO_MAILBOX
    }
}

/// Returns the format of mails with a Content-Length, or that of RFC 4155.
fn format_named(is_counted: bool) -> Format
    ensures { result ≡ format_named is_counted }
{
    if is_counted {
        Format::Counted
    } else {
        Format::Plain
    }
}
