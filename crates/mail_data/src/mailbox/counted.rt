//! Mails with a field Content-Length that gives the length of their bodies: the mboxcl and mboxcl2
//! formats.
ghost use Rattle.std.specs.Prelude.{◌≡◌, ◌<◌, ◌≤◌, ◌^◌, IfSome, length, nat_le};
ghost use Rattle.std.specs.Char.{is_ascii_digit};
ghost use Rattle.std.specs.List.{list_all};
ghost use Rattle.std.specs.Str.{str_eq_ignore_ascii_case};
ghost use Rattle.mail_data.specs.CountedMails.{block_length, block_place, content_length};
ghost use Rattle.mail_data.specs.CountedMails.{counted_length, counted_place, field_text};
ghost use Rattle.mail_data.specs.CountedMails.{is_count_known, is_field, is_known, is_place_known};
ghost use Rattle.mail_data.specs.CountedMails.{is_short_separator, may_end, number};
ghost use Rattle.mail_data.specs.LineEnds.{line_length, line_place};

use super::mail_length;
use super::separator::is_separator;
use crate::line_ends::{empty_line, is_empty_line, line_length, line_place};
use mail_read::lenient::number_of;

/// The name of the field, with its colon.
const FIELD: &[u8] = b"Content-Length:";

/// The length of that name.
const FIELD_LENGTH: usize = 15;

/// The greatest length of a separator after a counted mail.
const MOST_SEPARATOR: usize = 1000;

/// Returns the length of a mail by its Content-Length, or else that of a mail of any mailbox.
#[tactic(auto, unfolding(crate::specs::CountedMails::counted_length))]
pub(super) fn counted_length(mail: &[u8]) -> usize
    ensures value { result ≡ counted_length mail.now }
    ensures bounds { result ≤ length mail.now }
{
    let Some(count) = content_length(&mail[..block_place(mail)]) else {
        return mail_length(mail);
    };
    match counted_place(mail, count) {
        Some(place) => place,
        None => mail_length(mail),
    }
}

/// Returns the offset `count` bytes after the header block, if the mail may end there.
#[tactic(auto, unfolding(crate::specs::CountedMails::counted_place))]
fn counted_place(mail: &[u8], count: u64) -> Option<usize>
    requires { count < 10 ^ 9 }
    ensures value { result ≡ counted_place mail.now count }
    ensures bounds { IfSome result (λ place. place ≤ length mail.now) }
{
    let place = block_length(mail) + count as usize;
    if place <= mail.len() && may_end(&mail[place..]) {
        Some(place)
    } else {
        None
    }
}

/// Returns whether a counted mail may end here: a separator or nothing follows, perhaps after an
/// empty line.
#[tactic(auto, unfolding(crate::specs::CountedMails::may_end))]
fn may_end(bytes: &[u8]) -> bool
    ensures { result ≡ may_end bytes.now }
{
    let after = &bytes[empty_line(bytes)..];
    after.is_empty() || is_short_separator(after)
}

/// Returns whether a separator of at most `MOST_SEPARATOR` bytes is at the front.
#[tactic(auto, unfolding(crate::specs::CountedMails::is_short_separator))]
fn is_short_separator(bytes: &[u8]) -> bool
    ensures { result ≡ is_short_separator bytes.now }
{
    has_short_line(bytes) && is_separator(bytes)
}

/// Returns whether the first line has at most `MOST_SEPARATOR` bytes. Reads at most one more.
fn has_short_line(bytes: &[u8]) -> bool
    ensures { result ≡ nat_le (line_length bytes.now) 1000 }
{
    if bytes.len() <= MOST_SEPARATOR {
        return true;
    }
    line_length(&bytes[..MOST_SEPARATOR + 1]) <= MOST_SEPARATOR
}

/// Returns whether enough was read to decide where the Content-Length of a mail ends it.
#[tactic(auto, unfolding(crate::specs::CountedMails::is_count_known))]
pub(super) fn is_count_known(mail: &[u8]) -> bool
    ensures { result ≡ is_count_known mail.now }
{
    let place = block_place(mail);
    place < mail.len() && is_place_known(mail, content_length(&mail[..place]))
}

/// Returns whether enough was read to decide if the mail may end `count` bytes after the header
/// block.
fn is_place_known(mail: &[u8], count: Option<u64>) -> bool
    requires { IfSome count (λ number. number < 10 ^ 9) }
    ensures { result ≡ is_place_known mail.now count }
{
    let Some(count) = count else {
        return true;
    };
    let place = block_length(mail) + count as usize;
    place < mail.len() && is_known(&mail[place..])
}

/// Returns whether the bytes decide if a counted mail may end here, whatever follows them.
#[tactic(auto, unfolding(crate::specs::CountedMails::is_known))]
fn is_known(bytes: &[u8]) -> bool
    ensures { result ≡ is_known bytes.now }
{
    let after = &bytes[empty_line(bytes)..];
    after.len() > MOST_SEPARATOR || line_length(after) < after.len()
}

/// Returns the offset of the empty line that ends the header block, or the length if there is no
/// empty line.
fn block_place(mail: &[u8]) -> usize
    ensures value { result ≡ block_place mail.now }
    ensures bounds { result ≤ length mail.now }
{
    line_place(mail, is_empty_line)
}

/// Returns the length of the header block, including the empty line that ends it.
#[tactic(auto, unfolding(crate::specs::CountedMails::block_length))]
fn block_length(mail: &[u8]) -> usize
    ensures value { result ≡ block_length mail.now }
    ensures bounds { result ≤ length mail.now }
{
    let place = block_place(mail);
    place + empty_line(&mail[place..])
}

/// Returns the number in the first field Content-Length of a header block.
#[tactic(auto, unfolding(crate::specs::CountedMails::content_length))]
fn content_length(block: &[u8]) -> Option<u64>
    ensures value { result ≡ content_length block.now }
    ensures bounds { IfSome result (λ number. number < 10 ^ 9) }
{
    number(field_text(&block[field_place(block)..]))
}

/// Returns the offset of the first field Content-Length, or the length if there is no such field.
fn field_place(block: &[u8]) -> usize
    ensures value { result ≡ line_place is_field block.now }
    ensures bounds { result ≤ length block.now }
{
    line_place(block, is_field)
}

/// Returns whether a field Content-Length begins here.
fn is_field(bytes: &[u8]) -> bool
    ensures { result ≡ is_field bytes.now }
{
    is_same(&bytes[..bytes.len().min(FIELD_LENGTH)], FIELD)
}

/// Returns whether two texts are equal, ignoring ASCII case.
fn is_same(text: &[u8], other: &[u8]) -> bool
    ensures { result ≡ str_eq_ignore_ascii_case text.now other.now }
{
    text.eq_ignore_ascii_case(other)
}

/// Returns the text after the colon on the line of the field, without the whitespace around it.
fn field_text(field: &[u8]) -> &[u8]
    ensures { result.now ≡ field_text field.now }
{
    let line = &field[..line_length(field)];
    line[line.len().min(FIELD_LENGTH)..].trim_ascii()
}

/// Returns the number that 1 to 9 digits denote.
#[tactic(auto, using(crate::proofs::lemmas::CountedMails::all_digits), unfolding(crate::specs::CountedMails::number))]
fn number(text: &[u8]) -> Option<u64>
    ensures value { result ≡ number text.now }
    ensures bounds { IfSome result (λ number. number < 10 ^ 9) }
{
    if text.len() < 1 || text.len() > 9 || !are_digits(text) {
        return None;
    }
    Some(number_of(text))
}

/// Returns whether all bytes are digits.
fn are_digits(text: &[u8]) -> bool
    ensures { result ≡ list_all is_ascii_digit text.now }
{
    text.iter().all(|byte| byte.is_ascii_digit())
}
