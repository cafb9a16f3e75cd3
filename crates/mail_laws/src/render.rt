//! Outlines of messages: how they are written, and whether they read back.
//!
//! An outline is the headers of a message and its body, or its parts, each an outline of its own.
//! A program that sends mail writes a well-formed one with `render`; `mailparse::parse_mail` then
//! reads back exactly those headers, bodies and parts, and `MailHeader::get_value` the values,
//! which may be any text. `encode_value` writes a single value.
//!
//! Each value is written as unstructured text, whatever its key is. So the value of a structured
//! field, such as `From`, `To` or `Content-Type`, has to be plain ASCII; `encode_value` says why.
//! `mail_address::write_addresses` writes the value of a field with addresses.
ghost use Rattle.std.specs.Prelude.{◌≡◌, ◌++◌, OnOk, Ok, not};
ghost use Rattle.mailparse.specs.Outcome.{AnswersOrMemory, ReadsBytes};
ghost use Rattle.mail_laws.specs.Render.{dash_boundary, header_block, header_line, contains_delimiter, is_well_formed_within, rendered, well_formed, written_bytes, written_headers};
ghost use Rattle.mail_laws.specs.RenderViews.{headers_seen, outline_tree};

mod conditions;

use conditions::{
    contains_delimiter, has_boundary, has_good_headers, is_not_multipart, is_within_levels,
};
pub use mail_address::encode::{encode_value, is_plain};
use mailparse::{MAX_LEVELS, MailParseError};
use std::alloc::{AllocError, Global};
use std::str::from_utf8;

/// An outline of a message: its headers, and its body or its parts.
///
/// A value is one text. There is no form for addresses, phrases and parameters, so the value of a
/// structured field has to be plain, as `encode_value` explains.
///
/// Outlines may be nested to any depth. `render`, `Debug` and dropping an outline use stack for
/// each level: 8 MB are enough for 40,000 levels, and not for 60,000. `is_well_formed` uses stack
/// for 100 levels at most.
///
/// # Examples
///
/// ```rust
/// use mail_laws::render::{Outline, OutlineKind, is_well_formed, render};
/// use mailparse::parse_mail;
///
/// let mut headers = Vec::new(alloc);
/// headers.push((b"Subject".to_vec(alloc)?, "Grüße".as_bytes().to_vec(alloc)?))?;
/// let outline = Outline { headers, kind: OutlineKind::Leaf(b"body".to_vec(alloc)?) };
/// assert!(rt; is_well_formed(alloc, &outline)?);
/// let bytes = render(alloc, &outline)?;
/// let mail = parse_mail(alloc, bytes.as_slice())?;
/// assert_eq!(rt; mail.headers[0].get_value(alloc)?.as_str(), "Grüße");
/// assert_eq!(rt; mail.get_body(alloc)?.as_str(), "body");
/// ```
#[cycle(outline)]
#[derive(Debug, Drop)]
pub struct Outline {
    /// The headers in order, each its key and the text of its value, in UTF-8.
    pub headers: Vec<(Vec<u8>, Vec<u8>)>,
    /// The body or the parts.
    pub kind: OutlineKind,
}

/// The body or the parts of an outline.
///
/// # Examples
///
/// ```rust
/// use mail_laws::render::OutlineKind;
///
/// let kind = OutlineKind::Leaf(b"body".to_vec(alloc)?);
/// assert!(rt; matches!(kind, OutlineKind::Leaf(_)));
/// ```
#[cycle(outline)]
#[derive(Debug, Drop)]
pub enum OutlineKind {
    /// A body, which may be any bytes.
    Leaf(Vec<u8>),
    /// Parts, separated by delimiters.
    Branch {
        /// The boundary, which the first `Content-Type` names.
        boundary: Vec<u8>,
        /// The parts in order, each an outline of its own.
        parts: Vec<Outline>,
    },
}

/// Writes an outline as the bytes of a message (RFC 5322, section 2.1; RFC 2046, section 5.1.1).
///
/// For each header they are its key, `: `, its value and CR LF; then CR LF; and then the body, or
/// for each part `--`, the boundary, CR LF, the part and CR LF, and at the end `--`, the boundary,
/// `--` and CR LF. A value is written as `encode_value` writes it, and one that is not valid UTF-8
/// as it is. Every outline can be written, well formed or not. Allocates the bytes and one value at
/// a time, and uses stack for each level, as `Outline` says.
///
/// This is not for structured values, such as those of `From`, `To` and `Content-Type`, unless they
/// are plain. Lines may also be longer than the standards allow. `encode_value` says more about
/// both.
///
/// # Errors
///
/// `MailParseError::Memory` if memory runs out.
///
/// # Examples
///
/// ```rust
/// use mail_laws::render::{Outline, OutlineKind, render};
///
/// let part = Outline { headers: Vec::new(alloc), kind: OutlineKind::Leaf(b"x".to_vec(alloc)?) };
/// assert_eq!(rt; render(alloc, &part)?.as_slice(), b"\r\nx".as_slice());
/// let mut parts = Vec::new(alloc);
/// parts.push(part)?;
/// let kind = OutlineKind::Branch { boundary: b"q".to_vec(alloc)?, parts };
/// let whole = Outline { headers: Vec::new(alloc), kind };
/// let wanted = b"\r\n--q\r\n\r\nx\r\n--q--\r\n".as_slice();
/// assert_eq!(rt; render(alloc, &whole)?.as_slice(), wanted);
/// ```
pub fn render(alloc: Global, outline: &Outline) -> Result<Vec<u8>, MailParseError>
    ensures { ReadsBytes result (Ok (rendered (outline_tree outline.now))) }
{
    let mut bytes = Vec::new(alloc);
    push_outline(alloc, &mut bytes, outline)?;
    Ok(bytes)
}

/// Appends an outline: its header block, and then its body or its parts.
fn push_outline(alloc: Global, bytes: &mut Vec<u8>, outline: &Outline) -> Result<(), AllocError>
    ensures written { OnOk result (bytes.new.items
        ≡ bytes.old.items ++ rendered (outline_tree outline.now)) }
{
    push_header_block(alloc, bytes, &outline.headers)?;
    match &outline.kind {
        OutlineKind::Leaf(body) => bytes.extend_from_slice(body.as_slice()),
        OutlineKind::Branch { boundary, parts } => {
            for part in parts {
                push_delimiter(bytes, boundary.as_slice(), b"\r\n")?;
                push_outline(alloc, bytes, part)?;
                bytes.extend_from_slice(b"\r\n")?;
            }
            push_delimiter(bytes, boundary.as_slice(), b"--\r\n")
        }
    }
}

/// Appends a header block: each header in order, and the blank line.
fn push_header_block(
    alloc: Global,
    bytes: &mut Vec<u8>,
    headers: &Vec<(Vec<u8>, Vec<u8>)>,
) -> Result<(), AllocError>
    ensures written { OnOk result (bytes.new.items
        ≡ bytes.old.items ++ header_block (written_headers (headers_seen headers.now))) }
{
    for header in headers {
        push_header(alloc, bytes, header.0.as_slice(), header.1.as_slice())?;
    }
    bytes.extend_from_slice(b"\r\n")
}

/// Appends a header: its key, `: `, its written value and CR LF.
fn push_header(
    alloc: Global,
    bytes: &mut Vec<u8>,
    key: &[u8],
    value: &[u8],
) -> Result<(), AllocError>
    ensures written { OnOk result (bytes.new.items ≡ bytes.old.items
        ++ header_line (record { key = key.now; value = written_bytes value.now })) }
{
    bytes.extend_from_slice(key)?;
    bytes.extend_from_slice(b": ")?;
    push_value(alloc, bytes, value)?;
    bytes.extend_from_slice(b"\r\n")
}

/// Appends the written value of a header: bytes that are not UTF-8 as they are.
fn push_value(alloc: Global, bytes: &mut Vec<u8>, value: &[u8]) -> Result<(), AllocError>
    ensures written { OnOk result (bytes.new.items
        ≡ bytes.old.items ++ written_bytes value.now) }
{
    let Ok(text) = from_utf8(value) else {
        return bytes.extend_from_slice(value);
    };
    let written = encode_value(alloc, text)?;
    bytes.extend_from_slice(written.as_bytes())
}

/// Appends a dash-boundary and the rest of its line.
fn push_delimiter(bytes: &mut Vec<u8>, boundary: &[u8], rest: &[u8]) -> Result<(), AllocError>
    ensures written { OnOk result (bytes.new.items
        ≡ bytes.old.items ++ (dash_boundary boundary.now ++ rest.now)) }
{
    bytes.extend_from_slice(b"--")?;
    bytes.extend_from_slice(boundary)?;
    bytes.extend_from_slice(rest)
}

/// Returns whether an outline is well formed, so that the bytes that `render` writes read back as
/// this outline.
///
/// The outline, and every outline inside it, has to meet these conditions:
///
/// 1. Each key is one or more printable bytes of ASCII other than the space and the colon.
/// 2. Each value is UTF-8.
/// 3. In a branch, a header has the key `Content-Type`, ignoring ASCII case, and the value of the
///    first such header is exactly `multipart/mixed; boundary=` and the boundary.
/// 4. A boundary is one or more letters and digits of ASCII.
/// 5. In a leaf, the mimetype that the text of the first `Content-Type` names, if there is one,
///    does not begin with `multipart`.
/// 6. A branch has at least one part.
/// 7. No part, as it is written, has `--` and the boundary at its start or after a LF.
/// 8. No outline is more than 100 levels below the whole.
///
/// Bodies may be any bytes. The depth is checked first, so an outline of any depth uses no more
/// stack than one of 100 levels. Allocates the bytes of parts and a type.
///
/// # Errors
///
/// `MailParseError::Memory` if memory runs out.
///
/// # Examples
///
/// ```rust
/// use mail_laws::render::{Outline, OutlineKind, is_well_formed};
///
/// let mut headers = Vec::new(alloc);
/// headers.push((b"Subject".to_vec(alloc)?, b" Hi\n".to_vec(alloc)?))?;
/// let mut outline = Outline { headers, kind: OutlineKind::Leaf(b"\0\xFF".to_vec(alloc)?) };
/// assert!(rt; is_well_formed(alloc, &outline)?);
/// outline.headers.push((b"To".to_vec(alloc)?, b"\xFF".to_vec(alloc)?))?;
/// assert!(rt; !is_well_formed(alloc, &outline)?);
/// ```
pub fn is_well_formed(alloc: Global, outline: &Outline) -> Result<bool, MailParseError>
    ensures { AnswersOrMemory (λ answer. answer) result
        (Ok (well_formed (outline_tree outline.now))) }
{
    if !is_within_levels(outline, MAX_LEVELS) {
        return Ok(false);
    }
    is_well_formed_within(alloc, outline)
}

/// Returns whether an outline is well formed, whatever its depth.
fn is_well_formed_within(alloc: Global, outline: &Outline) -> Result<bool, MailParseError>
    ensures { AnswersOrMemory (λ answer. answer) result
        (Ok (is_well_formed_within (outline_tree outline.now))) }
{
    if !has_good_headers(&outline.headers) {
        return Ok(false);
    }
    match &outline.kind {
        OutlineKind::Leaf(_) => is_not_multipart(alloc, &outline.headers),
        OutlineKind::Branch { boundary, parts } => {
            if !has_boundary(&outline.headers, boundary.as_slice()) {
                return Ok(false);
            }
            if parts.is_empty() {
                return Ok(false);
            }
            for part in parts {
                if !is_clear(alloc, boundary.as_slice(), part)? {
                    return Ok(false);
                }
                if !is_well_formed_within(alloc, part)? {
                    return Ok(false);
                }
            }
            Ok(true)
        }
    }
}

/// Returns whether a part, as it is written, contains no delimiter.
fn is_clear(alloc: Global, boundary: &[u8], part: &Outline) -> Result<bool, MailParseError>
    ensures { AnswersOrMemory (λ answer. answer) result
        (Ok (not (contains_delimiter boundary.now (rendered (outline_tree part.now))))) }
{
    let bytes = render(alloc, part)?;
    Ok(!contains_delimiter(alloc, boundary, bytes.as_slice())?)
}
