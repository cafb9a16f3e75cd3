//! The report of the findings of a mail.
ghost use Rattle.std.specs.Char.{digit_char};
ghost use Rattle.std.specs.Prelude.{◌≡◌, ◌++◌, ◌<◌, drop, map, string_bytes, take};
ghost use Rattle.std.specs.Prelude.{IfOk, OnOk};
ghost use Rattle.mail_check.specs.FindingViews.{finding_view};
ghost use Rattle.mail_program.specs.Streams.{Writes};
ghost use Rattle.mail_view.specs.Line.{line, line_text, lines_text};
ghost use Rattle.mail_view.specs.Report.{between, byte_text, bytes_text};
ghost use Rattle.mail_view.specs.Report.{finding_lines};
ghost use Rattle.mail_view.specs.Report.{finding_text, hex_escape, is_itself, part_text};
ghost use Rattle.mail_view.specs.Report.{report_lines};

use crate::line::{Prefix, push_empty_line, push_line};
use mail_check::Finding;
use mail_program::Fault;
use std::alloc::{AllocError, Global};
use std::io::Write;

/// The greatest number of bytes that are shown before what was found, and after it.
const CONTEXT: usize = 32;

/// The greatest number of bytes that are shown of what was found.
const SHOWN_SIZE: usize = 64;

/// Writes what was found in a mail with these bytes. Each finding has five lines: its name, its
/// class, its part and its range; a sentence that says what programs read; the 32 bytes before it;
/// its first 64 bytes; and the 32 bytes after it. An empty line follows.
///
/// Printable ASCII is shown as it is, except for a backslash; any other byte has an escape: `\n`,
/// `\r`, `\t`, `\\`, or `\x` and two hexadecimal digits. Allocates the text.
///
/// # Errors
///
/// `Fault::Output` if a write fails, and `Fault::Mail` with `MailParseError::Memory` if it runs out
/// of memory.
///
/// # Examples
///
/// ```rust
/// use mail_check::findings;
/// use mail_view::write_report;
/// use mailparse::parse_mail;
///
/// let raw = b"A: b\0\n\nHi\n";
/// let found = findings(alloc, &parse_mail(alloc, raw)?, &())?;
/// let mut out = Vec::new(alloc);
/// write_report(alloc, &mut out, raw, found.as_slice())?;
/// let text = "Found:    nul (structure), part 1, bytes 4 to 5\n  \
///     The mail contains a NUL byte: readers in C may end the line or the mail there.\n\
///     Before:   A: b\nBytes:    \\x00\nAfter:    \\n\\nHi\\n\n\n";
/// assert_eq!(rt; str::from_utf8(out.as_slice())?, text);
/// ```
pub fn write_report<W: Write>(
    alloc: Global,
    out: &mut W,
    raw: &[u8],
    found: &[Finding],
) -> Result<(), Fault>
    ensures { Writes (W.contents out.old) (W.contents out.new) result
        (lines_text (report_lines raw.now (map finding_view found.now))) }
{
    let mut shown = String::new(alloc);
    push_report(alloc, &mut shown, raw, found)?;
    out.write_all(shown.as_bytes())?;
    Ok(())
}

/// Appends the lines of findings.
fn push_report(
    alloc: Global,
    shown: &mut String,
    raw: &[u8],
    found: &[Finding],
) -> Result<(), AllocError>
    ensures { OnOk result (string_bytes shown.new ≡ string_bytes shown.old
        ++ lines_text (report_lines raw.now (map finding_view found.now))) }
{
    for finding in found {
        push_finding(alloc, shown, raw, finding)?;
    }
    Ok(())
}

/// Appends the lines of a finding.
fn push_finding(
    alloc: Global,
    shown: &mut String,
    raw: &[u8],
    finding: &Finding,
) -> Result<(), AllocError>
    ensures { OnOk result (string_bytes shown.new ≡ string_bytes shown.old
        ++ lines_text (finding_lines raw.now (finding_view finding.now))) }
{
    let (start, end) = (finding.range.start, finding.range.end);
    let text = finding_text(alloc, finding)?;
    push_line(shown, Prefix::Found, text.as_str())?;
    push_line(shown, Prefix::Text, finding.name.sentence())?;
    let before = between(raw, start.saturating_sub(CONTEXT), start);
    push_bytes(alloc, shown, Prefix::Before, before)?;
    let bytes = front(between(raw, start, end), SHOWN_SIZE);
    push_bytes(alloc, shown, Prefix::Bytes, bytes)?;
    push_bytes(alloc, shown, Prefix::After, front(past(raw, end), CONTEXT))?;
    push_empty_line(shown)
}

/// Returns the name of a finding, its class, its part and its range.
fn finding_text(alloc: Global, finding: &Finding) -> Result<String, AllocError>
    ensures { IfOk result (λ text. string_bytes text ≡ finding_text (finding_view finding.now)) }
{
    let (name, class) = (finding.name.text(), finding.class.text());
    let (start, end) = (finding.range.start, finding.range.end);
    let part = part_text(alloc, finding.path.as_str())?;
    format!(in alloc; "{name} ({class}), {part}, bytes {start} to {end}")
}

/// Returns the text of a part with a path, or of the mail itself.
fn part_text(alloc: Global, path: &str) -> Result<String, AllocError>
    ensures { IfOk result (λ text. string_bytes text ≡ part_text path.now) }
{
    if path.is_empty() {
        return String::from_str(alloc, "the mail");
    }
    format!(in alloc; "part {path}")
}

/// Appends a line with the text of bytes after a prefix.
fn push_bytes(
    alloc: Global,
    shown: &mut String,
    prefix: Prefix,
    bytes: &[u8],
) -> Result<(), AllocError>
    ensures { OnOk result (string_bytes shown.new
        ≡ string_bytes shown.old ++ line_text (line prefix (bytes_text bytes.now))) }
{
    let text = bytes_text(alloc, bytes)?;
    push_line(shown, prefix, text.as_str())
}

/// Returns the text of bytes.
fn bytes_text(alloc: Global, bytes: &[u8]) -> Result<String, AllocError>
    ensures { IfOk result (λ text. string_bytes text ≡ bytes_text bytes.now) }
{
    let mut text = String::new(alloc);
    for byte in bytes {
        push_byte(&mut text, *byte)?;
    }
    Ok(text)
}

/// Appends the text of a byte: itself, or an escape.
#[tactic(auto, unfolding(crate::specs::Report::byte_text))]
fn push_byte(text: &mut String, byte: u8) -> Result<(), AllocError>
    ensures { OnOk result (string_bytes text.new ≡ string_bytes text.old ++ byte_text byte) }
{
    if is_itself(byte) {
        return text.push(byte as char);
    }
    match byte {
        b'\n' => text.push_str("\\n"),
        b'\r' => text.push_str("\\r"),
        b'\t' => text.push_str("\\t"),
        b'\\' => text.push_str("\\\\"),
        _ => push_hex(text, byte),
    }
}

/// Returns whether a byte is printable ASCII and no backslash.
fn is_itself(byte: u8) -> bool
    ensures { result ≡ is_itself byte }
{
    byte >= b' ' && byte <= b'~' && byte != b'\\'
}

/// Appends `\x` and the two digits of a byte.
fn push_hex(text: &mut String, byte: u8) -> Result<(), AllocError>
    ensures { OnOk result (string_bytes text.new ≡ string_bytes text.old ++ hex_escape byte) }
{
    text.push_str("\\x")?;
    text.push(digit_char(byte / 16) as char)?;
    text.push(digit_char(byte % 16) as char)
}

/// Returns the hexadecimal digit of a number.
fn digit_char(number: u8) -> u8
    requires { number < 16 }
    ensures { result ≡ digit_char number }
{
    if number < 10 {
        b'0' + number
    } else {
        b'a' - 10 + number
    }
}

/// Returns the bytes between two offsets.
fn between(bytes: &[u8], start: usize, end: usize) -> &[u8]
    ensures { result.now ≡ between start end bytes.now }
{
    front(past(bytes, start), end.saturating_sub(start))
}

/// Returns the bytes from an offset onwards.
fn past(bytes: &[u8], at: usize) -> &[u8]
    ensures { result.now ≡ drop at bytes.now }
{
    if at < bytes.len() {
        &bytes[at..]
    } else {
        &bytes[bytes.len()..]
    }
}

/// Returns the first bytes, up to this number.
fn front(bytes: &[u8], count: usize) -> &[u8]
    ensures { result.now ≡ take count bytes.now }
{
    if count < bytes.len() {
        &bytes[..count]
    } else {
        bytes
    }
}
