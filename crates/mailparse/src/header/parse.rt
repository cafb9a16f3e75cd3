//! Cutting the header at the front of the bytes into its key and its value.
ghost use Rattle.std.specs.Prelude.{◌≡◌, ◌==◌, ◌<◌, ◌≤◌, suc, min, not, length, take, drop, IfOk};
ghost use Rattle.std.specs.List.{list_all};
ghost use Rattle.mail_codec.specs.Ascii.{colon, is_blank, space};
ghost use Rattle.mail_codec.specs.Places.{first_place, place_from, begins};
ghost use Rattle.mailparse.specs.Header.{is_line_end, is_line_feed, has_colon, key_end, ends_header};
ghost use Rattle.mailparse.specs.Header.{header_of, header_length, read_header};
ghost use Rattle.mailparse.specs.Header.{value_end, value_start};
ghost use Rattle.mailparse.specs.Outcome.{Answers};

use super::MailHeader;
use crate::error::MailParseError;
use mail_codec::bytescan::{find_byte, find_either};

/// Reads the header at the front of `raw`, and returns it with the number of bytes that it takes
/// up, including its line end (RFC 5322, sections 2.2 and 2.2.3).
///
/// The key ends at the first colon; a line without a colon is a key alone. The value continues on
/// each line that begins with a space or a tab. Does not allocate.
///
/// # Errors
///
/// `MailParseError::Generic`: with the text `Empty string provided` for the empty input, and with
/// `Header cannot start with a space; it is likely an overhanging line from a previous header`
/// if the first byte is a space. Nothing else is refused.
///
/// # Examples
///
/// ```rust
/// use mailparse::parse_header;
///
/// let (header, length) = parse_header(b"Subject: Hello,\n  you\nTo: me")?;
/// assert_eq!(rt; header.get_key(alloc)?.as_str(), "Subject");
/// assert_eq!(rt; header.get_value(alloc)?.as_str(), "Hello, you");
/// assert_eq!(rt; length, 22);
/// ```
#[inline(always)]
#[tactic(auto, using(crate::proofs::lemmas::Header::header_readings))]
pub fn parse_header(raw: &[u8]) -> Result<(MailHeader<'_>, usize), MailParseError>
    ensures read { Answers (λ found. (found.0, found.1)) result (read_header raw.now) }
    ensures bounds { IfOk result (λ found. (0 < found.1) × (found.1 ≤ length raw.now)) }
{
    let Some(first) = raw.first() else {
        return Err(MailParseError::Generic("Empty string provided"));
    };
    if *first == b' ' {
        return Err(MailParseError::Generic(
            "Header cannot start with a space; it is likely an overhanging line from a previous header",
        ));
    }
    Ok(cut_header(raw))
}

/// Returns the header at the front of the bytes, and its length.
#[inline(always)]
fn cut_header(raw: &[u8]) -> (MailHeader<'_>, usize)
    ensures { result ≡ (header_of raw.now, header_length raw.now) }
{
    let places = header_places(raw);
    let key = &raw[..places.key_end];
    let value = &raw[places.value_start..places.value_end];
    (MailHeader { key, value }, places.length)
}

/// The offsets in a header, counted from its first byte, as `header_places` returns them. Its key
/// begins at 0.
#[derive(Clone, Copy, Debug, PartialEq, Eq)]
pub struct HeaderPlaces {
    /// The end of the key, which is before the colon, if there is one.
    pub key_end: usize,
    /// The start of the value, after the colon and the spaces after it.
    pub value_start: usize,
    /// The end of the value, before its line end.
    pub value_end: usize,
    /// The number of bytes that the header takes up, including its line end.
    pub length: usize,
}

/// Returns where the key and the value of the header at the front of `raw` are, and the length of
/// the header (RFC 5322, sections 2.2 and 2.2.3), as `parse_header` cuts it.
///
/// Any bytes are read as a header, also those that `parse_header` refuses. Does not allocate.
///
/// # Examples
///
/// ```rust
/// use mailparse::header_places;
///
/// let raw = b"Subject: Hello,\n  you\nTo: me";
/// let places = header_places(raw);
/// assert_eq!(rt; &raw[..places.key_end], b"Subject".as_slice());
/// assert_eq!(rt; &raw[places.value_start..places.value_end], b"Hello,\n  you".as_slice());
/// assert_eq!(rt; places.length, 22);
/// ```
#[inline(always)]
#[tactic(auto, using(crate::proofs::lemmas::Header::header_cuts))]
pub fn header_places(raw: &[u8]) -> HeaderPlaces
    ensures key { result.key_end ≡ key_end raw.now }
    ensures start { result.value_start ≡ value_start raw.now }
    ensures end { result.value_end ≡ value_end raw.now }
    ensures len { result.length ≡ header_length raw.now }
    ensures order { (result.key_end ≤ result.value_start) × (result.value_start ≤ result.value_end)
        × (result.value_end ≤ result.length) × (result.length ≤ length raw.now) }
{
    let place = key_end(raw);
    if !is_colon_at(raw, place) {
        return HeaderPlaces {
            key_end: place,
            value_start: place,
            value_end: place,
            length: length_to(raw, place),
        };
    }
    let end = header_end(raw, line_feed_from(raw, place + 1));
    let spaceless = trim_spaces(&raw[place + 1..end]);
    let value_start = end - spaceless.len();
    HeaderPlaces {
        key_end: place,
        value_start,
        value_end: value_start + trim_line_ends(spaceless).len(),
        length: length_to(raw, end),
    }
}

/// Returns where the key ends: at the first colon or LF, or at the end of the bytes.
#[tactic(auto, using(crate::proofs::lemmas::Places::searches), unfolding(crate::specs::Header::key_end))]
fn key_end(raw: &[u8]) -> usize
    ensures least { result ≡ key_end raw.now }
    ensures bounds { result ≤ length raw.now }
{
    match find_either(raw, b':', b'\n') {
        Some(place) => place,
        None => raw.len(),
    }
}

/// Returns whether a colon ends the key, and not a line end.
#[tactic(auto, unfolding(crate::specs::Header::has_colon))]
pub(crate) fn has_colon(raw: &[u8]) -> bool
    ensures { result ≡ has_colon raw.now }
{
    is_colon_at(raw, key_end(raw))
}

/// Returns whether the byte at `place` is a colon.
fn is_colon_at(raw: &[u8], place: usize) -> bool
    ensures { result ≡ begins (λ b. b == colon) (drop place raw.now) }
{
    matches!(raw.get(place), Some(b':'))
}

/// Returns the offset of the first LF at or after `from`, or the length if there is none.
#[tactic(auto, using(crate::proofs::lemmas::Places::searches_from))]
pub(crate) fn line_feed_from(raw: &[u8], from: usize) -> usize
    requires within { from ≤ length raw.now }
    ensures least { result ≡ place_from (begins is_line_feed) raw.now from }
    ensures bounds { result ≤ length raw.now }
{
    match find_byte(&raw[from..], b'\n') {
        Some(place) => from + place,
        None => raw.len(),
    }
}

/// Returns the end of a header whose first LF after its colon is at `first`: the first LF from
/// there onwards that no space or tab follows, or the end of the bytes.
fn header_end(raw: &[u8], first: usize) -> usize
    requires within { first ≤ length raw.now }
    requires found { place_from (begins is_line_feed) raw.now first ≡ first }
    ensures least { result ≡ place_from ends_header raw.now first }
    ensures bounds { result ≤ length raw.now }
{
    let mut end = first;
    while end < raw.len() && is_continued(raw, end + 1) {
        end = line_feed_from(raw, end + 1);
    }
    end
}

/// Returns whether the line that begins at `place` continues the header before it.
fn is_continued(raw: &[u8], place: usize) -> bool
    ensures { result ≡ begins is_blank (drop place raw.now) }
{
    matches!(raw.get(place), Some(b' ' | b'\t'))
}

/// Returns the length of a header that ends at `end`, including its LF.
fn length_to(raw: &[u8], end: usize) -> usize
    requires within { end ≤ length raw.now }
    ensures { result ≡ min (suc end) (length raw.now) }
{
    if end < raw.len() { end + 1 } else { end }
}

/// Returns the bytes without their leading spaces.
fn trim_spaces(bytes: &[u8]) -> &[u8]
    ensures { result.now ≡ drop (first_place (begins (λ b. not (b == space))) bytes.now) bytes.now }
{
    for (place, byte) in bytes.iter().enumerate() {
        if *byte != b' ' {
            return &bytes[place..];
        }
    }
    &bytes[bytes.len()..]
}

/// Returns the bytes without the CR and LF at their end.
fn trim_line_ends(bytes: &[u8]) -> &[u8]
    ensures { result.now ≡ take (first_place (list_all is_line_end) bytes.now) bytes.now }
{
    let mut rest = bytes;
    while let Some((last, front)) = rest.split_last() {
        if *last != b'\r' && *last != b'\n' {
            break;
        }
        rest = front;
    }
    rest
}
