//! Boundaries and delimiters that other programs may read differently.
ghost use Rattle.std.specs.Prelude.{◌≡◌, ◌<◌, ◌≤◌, ◌&&◌, ◌+◌, ◌-◌, ◌++◌, codes, drop, length};
ghost use Rattle.std.specs.Prelude.{option_map, true, IfOk};
ghost use Rattle.std.specs.List.{list_all};
ghost use Rattle.std.specs.Option.{unwrap_or};
ghost use Rattle.mail_codec.specs.Places.{text_place};
ghost use Rattle.mailparse.specs.Delimiters.{starts_line};
ghost use Rattle.mailparse.specs.Mail.{root};
ghost use Rattle.mailparse.specs.Views.{tree_of};
ghost use Rattle.mail_check.specs.Bytes.{first_byte, first_offset, is_line_left};
ghost use Rattle.mail_check.specs.Lines.{begins_type, is_composite, is_known_message};
ghost use Rattle.mail_check.specs.Lines.{is_other_message};
ghost use Rattle.mail_check.specs.Multiparts.{after_dash, dash_of, has_dash, is_bad_boundary};
ghost use Rattle.mail_check.specs.Multiparts.{is_boundary, is_boundary_byte, is_close, is_from};
ghost use Rattle.mail_check.specs.Multiparts.{is_inside, is_open, is_tailed, late_delimiter};
ghost use Rattle.mail_check.specs.Multiparts.{without_dashes};
ghost use Rattle.mail_check.specs.private.Delimiters.{AreFirst, found_or, is_other};

use crate::scan::{from_offset, is_line_left};
use mail_codec::bytescan::find_pair;
use mailparse::ParsedMail;
use std::alloc::{AllocError, Global};

/// The first offsets in the text of a multipart at which its dash-boundary occurs, for each way in
/// which it may occur.
#[derive(Clone, Copy)]
pub(crate) struct FirstDelimiters {
    /// Where no line starts.
    pub(crate) inside: Option<usize>,
    /// At the start of a line that has more than `--` after it.
    pub(crate) tailed: Option<usize>,
    /// At the start of a line, with nothing after it.
    pub(crate) opening: Option<usize>,
    /// At the start of a line, with `--` after it.
    pub(crate) close: Option<usize>,
}

/// Returns whether the type of a message begins with a text.
pub(crate) fn begins_type(text: &[u8], part: &ParsedMail<'_>) -> bool
    ensures { result ≡ begins_type text.now (root (tree_of part.now)).ctype }
{
    part.ctype.mimetype.as_bytes().starts_with(text)
}

/// Returns whether a message is of a type that must not be encoded.
pub(crate) fn is_composite(part: &ParsedMail<'_>) -> bool
    ensures { result ≡ is_composite (root (tree_of part.now)).ctype }
{
    begins_type(b"multipart", part) || begins_type(b"message/", part)
}

/// Returns whether a message is of a type of messages that not all readers know.
#[tactic(auto, unfolding(crate::specs::Lines::is_other_message))]
pub(crate) fn is_other_message(part: &ParsedMail<'_>) -> bool
    ensures { result ≡ is_other_message (root (tree_of part.now)).ctype }
{
    begins_type(b"message/", part) && !is_known_message(part)
}

/// Returns whether a message is of a type of messages that all readers know.
fn is_known_message(part: &ParsedMail<'_>) -> bool
    ensures { result ≡ is_known_message (root (tree_of part.now)).ctype }
{
    matches!(
        part.ctype.mimetype.as_str(),
        "message/rfc822" | "message/delivery-status" | "message/disposition-notification"
    )
}

/// Returns the parameter `boundary` of the type of a message.
fn boundary_of<'m>(part: &'m ParsedMail<'_>) -> Option<&'m str>
    ensures { option_map (λ text. text.now) result
        ≡ (root (tree_of part.now)).ctype.params (codes "boundary") }
{
    match part.ctype.params.get("boundary") {
        Some(text) => Some(text.as_str()),
        None => None,
    }
}

/// Returns the dash-boundary of a message, if it is a multipart with a boundary.
pub(crate) fn dash_of(alloc: Global, part: &ParsedMail<'_>) -> Result<Option<Vec<u8>>, AllocError>
    ensures { IfOk result (λ dash.
        option_map (λ bytes. bytes.items) dash ≡ dash_of (root (tree_of part.now)).ctype) }
{
    match valid_boundary(part) {
        Some(text) => Ok(Some(dashed(alloc, text)?)),
        None => Ok(None),
    }
}

/// Returns the boundary of a message, if it is a multipart with one.
fn valid_boundary<'m>(part: &'m ParsedMail<'_>) -> Option<&'m str>
    ensures { option_map (λ text. codes "--" ++ text.now) result
        ≡ dash_of (root (tree_of part.now)).ctype }
{
    if !begins_type(b"multipart/", part) {
        return None;
    }
    match boundary_of(part) {
        Some(text) if is_boundary(text.as_bytes()) => Some(text),
        _ => None,
    }
}

/// Returns two dashes and a boundary.
fn dashed(alloc: Global, boundary: &str) -> Result<Vec<u8>, AllocError>
    ensures { IfOk result (λ bytes. bytes.items ≡ codes "--" ++ boundary.now) }
{
    let mut bytes = Vec::new(alloc);
    bytes.extend_from_slice(b"--")?;
    bytes.extend_from_slice(boundary.as_bytes())?;
    Ok(bytes)
}

/// Returns whether a text is a boundary.
#[tactic(auto, unfolding(crate::specs::Multiparts::is_boundary))]
fn is_boundary(text: &[u8]) -> bool
    ensures { result ≡ is_boundary text.now }
{
    !text.is_empty() && text.len() < 71 && are_boundary_bytes(text) && !text.ends_with(b" ")
}

/// Returns whether all bytes are characters of a boundary.
fn are_boundary_bytes(text: &[u8]) -> bool
    ensures { result ≡ list_all is_boundary_byte text.now }
{
    text.iter().all(|byte| is_boundary_byte(*byte))
}

/// Returns whether a byte is a character of a boundary.
fn is_boundary_byte(byte: u8) -> bool
    ensures { result ≡ is_boundary_byte byte }
{
    byte.is_ascii_alphanumeric()
        || matches!(
            byte,
            b'\'' | b'(' | b')' | b'+' | b'_' | b','..=b'/' | b':' | b'=' | b'?' | b' '
        )
}

/// Returns whether a multipart has no boundary, or a message of another type has one.
#[tactic(auto, unfolding(crate::specs::Multiparts::is_bad_boundary))]
pub(crate) fn is_bad_boundary(part: &ParsedMail<'_>) -> bool
    ensures { result ≡ is_bad_boundary (root (tree_of part.now)).ctype }
{
    if begins_type(b"multipart", part) {
        valid_boundary(part).is_none()
    } else {
        boundary_of(part).is_some()
    }
}

/// Returns the first offsets in the text of a multipart at which the dash-boundary occurs.
pub(crate) fn first_delimiters(dash: &[u8], text: &[u8]) -> FirstDelimiters
    requires some { 1 < length dash.now }
    ensures { AreFirst dash.now text.now result }
{
    let mut found = FirstDelimiters {
        inside: None,
        tailed: None,
        opening: None,
        close: None,
    };
    let lead = lead(dash);
    let mut from = 0;
    'places: while let Some(next) = find_dash(dash, lead, &text[from..]) {
        let place = from + next;
        found = with_next(found, dash, text, place);
        from = place + 1;
    }
    found
}

/// Returns the first offsets, given those before the dash-boundary at an offset.
fn with_next(found: FirstDelimiters, dash: &[u8], text: &[u8], at: usize) -> FirstDelimiters
    requires within { at < length text.now }
    requires occurs { has_dash dash.now text.now at ≡ true }
    ensures inside { result.inside
        ≡ found_or found.inside at (is_inside dash.now text.now at) }
    ensures tailed { result.tailed
        ≡ found_or found.tailed at (is_tailed dash.now text.now at) }
    ensures opening { result.opening
        ≡ found_or found.opening at (is_open dash.now text.now at) }
    ensures close { result.close ≡ found_or found.close at (is_close dash.now text.now at) }
{
    let starts = starts_line(text, at);
    let rest = after_dash(dash, text, at);
    FirstDelimiters {
        inside: found_or(found.inside, at, !starts),
        tailed: found_or(
            found.tailed,
            at,
            starts && !is_line_left(without_dashes(rest)),
        ),
        opening: found_or(found.opening, at, starts && is_line_left(rest)),
        close: found_or(found.close, at, starts && rest.starts_with(b"--")),
    }
}

/// Returns the offset that was found, or otherwise this one if it passes.
fn found_or(found: Option<usize>, at: usize, passes: bool) -> Option<usize>
    ensures { result ≡ found_or found at passes }
{
    match found {
        Some(place) => Some(place),
        None if passes => Some(at),
        None => None,
    }
}

/// Returns the offset of the first delimiter that follows a close-delimiter, or is one that comes
/// before all delimiters with nothing after them.
pub(crate) fn late_delimiter(dash: &[u8], text: &[u8], first: FirstDelimiters) -> Option<usize>
    requires some { 1 < length dash.now }
    requires first { AreFirst dash.now text.now first }
    ensures { result ≡ late_delimiter dash.now text.now }
{
    let close = first.close?;
    match first.opening {
        Some(opening) if opening < close => delimiter_from(dash, text, close + 1),
        _ => delimiter_from(dash, text, close),
    }
}

/// Returns the offset of the first delimiter at an offset or after it.
fn delimiter_from(dash: &[u8], text: &[u8], start: usize) -> Option<usize>
    requires some { 1 < length dash.now }
    requires within { start ≤ length text.now }
    ensures { result ≡ first_offset (is_from dash.now text.now start) text.now }
{
    let lead = lead(dash);
    let mut from = start;
    'places: while let Some(next) = find_dash(dash, lead, &text[from..]) {
        let place = from + next;
        if is_delimiter(dash, text, place) {
            return Some(place);
        }
        from = place + 1;
    }
    None
}

/// Returns the offset of the first dash-boundary in a text. Searches for two of its bytes, that at
/// the offset `lead` and the next one, and compares the others where these occur.
fn find_dash(dash: &[u8], lead: usize, text: &[u8]) -> Option<usize>
    requires lead { lead + 1 < length dash.now }
    ensures { result ≡ text_place text.now dash.now }
{
    let rest = from_offset(text, lead);
    let mut from = 0;
    'pairs: while let Some(next) = find_pair(&rest[from..], dash[lead], dash[lead + 1]) {
        let place = from + next;
        if text[place..].starts_with(dash) {
            return Some(place);
        }
        from = place + 1;
    }
    None
}

/// Returns the offset of the last of the dashes at the front of a dash-boundary, or 0 if it
/// consists of dashes. A search for this dash and the byte after it does not stop in rows of
/// dashes, which are frequent in texts.
fn lead(dash: &[u8]) -> usize
    requires some { 1 < length dash.now }
    ensures value { result ≡ unwrap_or (first_byte is_other dash.now) 0 - 1 }
    ensures bounds { result + 1 < length dash.now }
{
    dash.iter()
        .position(|byte| *byte != b'-')
        .unwrap_or(0)
        .saturating_sub(1)
}

/// Returns whether a line starts at the offset of a dash-boundary, with at most `--` after that.
fn is_delimiter(dash: &[u8], text: &[u8], at: usize) -> bool
    requires within { at ≤ length text.now }
    ensures { result ≡ (starts_line text.now 0 at
        && is_line_left (without_dashes (after_dash dash.now text.now at))) }
{
    starts_line(text, at) && is_line_left(without_dashes(after_dash(dash, text, at)))
}

/// Returns the bytes after the dash-boundary at an offset.
fn after_dash<'m>(dash: &[u8], text: &'m [u8], at: usize) -> &'m [u8]
    requires within { at ≤ length text.now }
    ensures { result.now ≡ drop (at + length dash.now) text.now }
{
    from_offset(&text[at..], dash.len())
}

/// Returns whether a line starts at an offset.
fn starts_line(text: &[u8], at: usize) -> bool
    requires within { at ≤ length text.now }
    ensures { result ≡ starts_line text.now 0 at }
{
    at == 0 || text[at - 1] == b'\n'
}

/// Returns the bytes without two dashes at the front.
fn without_dashes(rest: &[u8]) -> &[u8]
    ensures { result.now ≡ without_dashes rest.now }
{
    if rest.starts_with(b"--") {
        &rest[2..]
    } else {
        rest
    }
}
