//! The conditions of a well-formed outline, one for each function.
ghost use Rattle.std.specs.Prelude.{◌≡◌, ◌&&◌, IfOk, Ok, codes, false, nat_le, not, option_map, true};
ghost use Rattle.std.specs.Char.{is_ascii_alphanumeric};
ghost use Rattle.std.specs.List.{list_all};
ghost use Rattle.std.specs.Option.{option_map_or};
ghost use Rattle.std.specs.Str.{bytes_eq, is_utf8, str_eq_ignore_ascii_case};
ghost use Rattle.mail_codec.specs.Places.{is_empty, has_prefix};
ghost use Rattle.mailparse.specs.Outcome.{AnswersOrMemory};
ghost use Rattle.mail_laws.specs.Boundaries.{boundary_type};
ghost use Rattle.mail_laws.specs.Render.{contains_delimiter, depth, is_key, mimetype_of, type_header};
ghost use Rattle.mail_laws.specs.RenderViews.{headers_seen, outline_tree};

use super::{Outline, OutlineKind};
use mail_codec::bytescan::find;
use mailparse::{MailParseError, parse_content_type};
use std::alloc::{AllocError, Global};
use std::str::from_utf8;

/// Returns whether each key is a valid key and each value is UTF-8.
pub(super) fn has_good_headers(headers: &Vec<(Vec<u8>, Vec<u8>)>) -> bool
    ensures { result ≡ (list_all (λ h. is_key h.key) (headers_seen headers.now)
        && list_all (λ h. is_utf8 h.value) (headers_seen headers.now)) }
{
    has_keys(headers) && has_texts(headers)
}

/// Returns whether each key is one or more printable bytes of ASCII except the space and the colon.
fn has_keys(headers: &Vec<(Vec<u8>, Vec<u8>)>) -> bool
    ensures { result ≡ list_all (λ h. is_key h.key) (headers_seen headers.now) }
{
    for header in headers {
        if !is_key(header.0.as_slice()) {
            return false;
        }
    }
    true
}

/// Returns whether a key is one or more printable bytes of ASCII except the space and the colon.
fn is_key(key: &[u8]) -> bool
    ensures { result ≡ is_key key.now }
{
    for byte in key {
        if !byte.is_ascii_graphic() || *byte == b':' {
            return false;
        }
    }
    !key.is_empty()
}

/// Returns whether each value is UTF-8.
fn has_texts(headers: &Vec<(Vec<u8>, Vec<u8>)>) -> bool
    ensures { result ≡ list_all (λ h. is_utf8 h.value) (headers_seen headers.now) }
{
    for header in headers {
        if !is_text(header.1.as_slice()) {
            return false;
        }
    }
    true
}

/// Returns whether bytes are UTF-8.
fn is_text(bytes: &[u8]) -> bool
    ensures { result ≡ is_utf8 bytes.now }
{
    from_utf8(bytes).is_ok()
}

/// Returns the value of the first header whose key is `Content-Type`, ignoring ASCII case.
fn type_value<'o>(headers: &'o Vec<(Vec<u8>, Vec<u8>)>) -> Option<&'o [u8]>
    ensures { option_map (λ value. value.now) result
        ≡ option_map (λ h. h.value) (type_header (headers_seen headers.now)) }
{
    for header in headers {
        if is_type_key(header.0.as_slice()) {
            return Some(header.1.as_slice());
        }
    }
    None
}

/// Returns whether a key is `Content-Type`, ignoring ASCII case.
fn is_type_key(key: &[u8]) -> bool
    ensures { result ≡ str_eq_ignore_ascii_case key.now (codes "Content-Type") }
{
    key.eq_ignore_ascii_case(b"Content-Type")
}

/// Returns whether the first `Content-Type` names the boundary, and the boundary is plain.
pub(super) fn has_boundary(headers: &Vec<(Vec<u8>, Vec<u8>)>, boundary: &[u8]) -> bool
    ensures { result ≡ (option_map_or (λ h. bytes_eq h.value (boundary_type boundary.now))
        (type_header (headers_seen headers.now)) false
        && (list_all is_ascii_alphanumeric boundary.now && not (is_empty boundary.now))) }
{
    names_boundary(headers, boundary) && is_plain_boundary(boundary)
}

/// Returns whether the first `Content-Type` is just `multipart/mixed; boundary=` and the boundary.
fn names_boundary(headers: &Vec<(Vec<u8>, Vec<u8>)>, boundary: &[u8]) -> bool
    ensures { result ≡ option_map_or (λ h. bytes_eq h.value (boundary_type boundary.now))
        (type_header (headers_seen headers.now)) false }
{
    let Some(value) = type_value(headers) else {
        return false;
    };
    let Some(named) = value.strip_prefix(b"multipart/mixed; boundary=") else {
        return false;
    };
    named == boundary
}

/// Returns whether a boundary is one or more letters and digits of ASCII.
fn is_plain_boundary(boundary: &[u8]) -> bool
    ensures { result ≡ (list_all is_ascii_alphanumeric boundary.now
        && not (is_empty boundary.now)) }
{
    for byte in boundary {
        if !byte.is_ascii_alphanumeric() {
            return false;
        }
    }
    !boundary.is_empty()
}

/// Returns whether the mimetype of the first `Content-Type`, if there is one, does not begin with
/// `multipart`. The values are UTF-8.
pub(super) fn is_not_multipart(
    alloc: Global,
    headers: &Vec<(Vec<u8>, Vec<u8>)>,
) -> Result<bool, MailParseError>
    requires texts { list_all (λ h. is_utf8 h.value) (headers_seen headers.now) ≡ true }
    ensures { AnswersOrMemory (λ answer. answer) result (Ok (option_map_or
        (λ h. not (has_prefix (codes "multipart") (mimetype_of h.value)))
        (type_header (headers_seen headers.now)) true)) }
{
    let Some(value) = type_value(headers) else {
        return Ok(true);
    };
    let Ok(text) = from_utf8(value) else {
        return Ok(false);
    };
    let ctype = parse_content_type(alloc, text)?;
    Ok(!ctype.mimetype.starts_with("multipart"))
}

/// Returns whether there is a dash-boundary at the start of the bytes or after a LF.
pub(super) fn contains_delimiter(
    alloc: Global,
    boundary: &[u8],
    bytes: &[u8],
) -> Result<bool, AllocError>
    ensures { IfOk result (λ answer. answer ≡ contains_delimiter boundary.now bytes.now) }
{
    let mut line = Vec::with_capacity(alloc, 3 + boundary.len())?;
    line.extend_from_slice(b"\n--")?;
    line.extend_from_slice(boundary)?;
    Ok(bytes.starts_with(&line[1..]) || find(bytes, line.as_slice()).is_some())
}

/// Returns whether no outline is more than `levels` levels below the whole.
pub(super) fn is_within_levels(outline: &Outline, levels: u8) -> bool
    ensures { result ≡ nat_le (depth (outline_tree outline.now)) levels }
{
    match &outline.kind {
        OutlineKind::Leaf(_) => true,
        OutlineKind::Branch { parts, .. } => {
            if levels == 0 {
                return parts.is_empty();
            }
            for part in parts {
                if !is_within_levels(part, levels - 1) {
                    return false;
                }
            }
            true
        }
    }
}
