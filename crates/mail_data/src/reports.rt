//! The fields of reports on mail: of delivery status notifications (RFC 3464), feedback reports
//! (RFC 5965) and disposition notifications (RFC 8098).
ghost use Rattle.std.specs.Prelude.{◌≡◌, ◌≤◌, length, map, option_map, string_bytes, IfErr, IfOk, Ok};
ghost use Rattle.std.specs.Str.{trim};
ghost use Rattle.mailparse.specs.Mail.{root};
ghost use Rattle.mailparse.specs.Outcome.{AnswersOrMemory, IsMemory};
ghost use Rattle.mailparse.specs.Views.{tree_of};
ghost use Rattle.mail_data.specs.Reports.{after_block, block_at, block_fields, block_length, blocks};
ghost use Rattle.mail_data.specs.Reports.{field_pair, fields, has_report, has_status, has_type};
ghost use Rattle.mail_data.specs.Reports.{report_blocks};
ghost use Rattle.mail_data.specs.ReportViews.{block_view, field_view};

use crate::line_ends::{empty_line, is_empty_line, line_place};
use mail_codec::charset::KnownCharsets;
use mail_read::lenient::part_content;
use mailparse::{MailHeader, MailParseError, ParsedMail, parse_lenient_headers};
use std::alloc::{AllocError, Global};

/// A block of a report, as `report_blocks` returns it.
#[derive(Debug, Drop)]
pub struct Block {
    /// The fields, in order.
    pub fields: Vec<Field>,
}

/// A field of a block.
#[derive(Debug, Drop)]
pub struct Field {
    /// The name, as it is written.
    pub name: String,
    /// The text of the value, without whitespace around it.
    pub value: String,
}

/// Returns the blocks of a report, in order, or `None` if the type of the part is not
/// `message/delivery-status`, `message/global-delivery-status`, `message/feedback-report` or
/// `message/disposition-notification` (RFC 3464, section 2.1; RFC 6533, section 4; RFC 5965,
/// section 2; RFC 8098, section 3.1).
///
/// Blocks are separated by empty lines. The body is read without its transfer encoding, as
/// `lenient_content` reads it. A block is read as `parse_lenient_headers` reads one, and has no
/// fields if that refuses it; a value is read as `MailHeader::get_value_in` does, in the charsets
/// `known`. Allocates the body if it is encoded, the headers of each block, and the texts.
///
/// # Errors
///
/// `MailParseError::Memory` if it runs out of memory.
///
/// # Examples
///
/// ```rust
/// use mail_data::reports::report_blocks;
/// use mailparse::parse_mail;
///
/// let raw = b"Content-Type: message/feedback-report\n\n\
///     Feedback-Type: abuse\nUser-Agent: SomeGenerator/1.0\n";
/// let mail = parse_mail(alloc, raw)?;
/// let blocks = report_blocks(alloc, &mail, &())?.ok_or("no report")?;
/// assert_eq!(rt; blocks.len(), 1);
/// assert_eq!(rt; blocks[0].fields[0].name.as_str(), "Feedback-Type");
/// assert_eq!(rt; blocks[0].fields[0].value.as_str(), "abuse");
/// ```
#[tactic(auto, unfolding(crate::specs::Reports::report_blocks))]
pub fn report_blocks<K: KnownCharsets>(
    alloc: Global,
    part: &ParsedMail<'_>,
    known: &K,
) -> Result<Option<Vec<Block>>, MailParseError>
    ensures { AnswersOrMemory (λ found. option_map (λ blocks. map block_view blocks.items) found)
        result (Ok (report_blocks (K.known known.now) (root (tree_of part.now)))) }
{
    if !has_report(part) {
        return Ok(None);
    }
    let content = part_content(alloc, part)?;
    Ok(Some(read_blocks(alloc, content.bytes.as_slice(), known)?))
}

/// Returns the blocks of a report with this content, in order, as `report_blocks` reads them. The
/// content is that of its body without the transfer encoding, so that a caller who needs it too
/// decodes the body once.
///
/// Allocates the headers of each block, and the texts.
///
/// # Errors
///
/// `MailParseError::Memory` if it runs out of memory.
///
/// # Examples
///
/// ```rust
/// use mail_data::reports::read_blocks;
///
/// let blocks = read_blocks(alloc, b"Reporting-MTA: dns; mx.example\n\nAction: failed\n", &())?;
/// assert_eq!(rt; blocks.len(), 2);
/// assert_eq!(rt; blocks[1].fields[0].value.as_str(), "failed");
/// ```
pub fn read_blocks<K: KnownCharsets>(
    alloc: Global,
    report: &[u8],
    known: &K,
) -> Result<Vec<Block>, MailParseError>
    ensures read { IfOk result (λ found. map block_view found.items
        ≡ map (λ block. block_fields (K.known known.now) block) (blocks report.now)) }
    ensures only_memory { IfErr result IsMemory }
{
    let mut found = Vec::new(alloc);
    for block in blocks(alloc, report)? {
        found.push(read_block(alloc, block, known)?)?;
    }
    Ok(found)
}

/// Returns a block with its fields.
fn read_block<K: KnownCharsets>(
    alloc: Global,
    block: &[u8],
    known: &K,
) -> Result<Block, MailParseError>
    ensures read { IfOk result (λ found.
        block_view found ≡ block_fields (K.known known.now) block.now) }
    ensures only_memory { IfErr result IsMemory }
{
    let headers = fields(alloc, block)?;
    Ok(Block {
        fields: read_fields(alloc, &headers, known)?,
    })
}

/// Returns the fields of a block as texts.
fn read_fields<K: KnownCharsets>(
    alloc: Global,
    headers: &Vec<MailHeader<'_>>,
    known: &K,
) -> Result<Vec<Field>, MailParseError>
    ensures read { IfOk result (λ found. map field_view found.items
        ≡ map (λ header. field_pair (K.known known.now) header) headers.now.items) }
    ensures only_memory { IfErr result IsMemory }
{
    let mut found = Vec::new(alloc);
    for header in headers {
        found.push(read_field(alloc, header, known)?)?;
    }
    Ok(found)
}

/// Returns a field as texts.
fn read_field<K: KnownCharsets>(
    alloc: Global,
    header: &MailHeader<'_>,
    known: &K,
) -> Result<Field, MailParseError>
    ensures read { IfOk result (λ field.
        field_view field ≡ field_pair (K.known known.now) header.now) }
    ensures only_memory { IfErr result IsMemory }
{
    Ok(Field {
        name: header.get_key(alloc)?,
        value: trimmed(alloc, header.get_value_in(alloc, known)?.as_str())?,
    })
}

/// Returns whether a part is a report whose blocks `report_blocks` reads (RFC 3464, section 2.1; RFC
/// 6533, section 4; RFC 5965, section 2; RFC 8098, section 3.1).
///
/// Does not allocate.
///
/// # Examples
///
/// ```rust
/// use mail_data::reports::has_report;
/// use mailparse::parse_mail;
///
/// let mail = parse_mail(alloc, b"Content-Type: message/feedback-report\n\nVersion: 1\n")?;
/// assert!(rt; has_report(&mail));
/// assert!(rt; !has_report(&parse_mail(alloc, b"Content-Type: text/plain\n\nVersion: 1\n")?));
/// ```
pub fn has_report(part: &ParsedMail<'_>) -> bool
    ensures { result ≡ has_report (root (tree_of part.now)) }
{
    has_status(part)
        || has_type(part, "message/feedback-report")
        || has_type(part, "message/disposition-notification")
}

/// Returns whether a part has the status of deliveries (RFC 3464, section 2.1; RFC 6533, section 4).
///
/// Does not allocate.
///
/// # Examples
///
/// ```rust
/// use mail_data::reports::has_status;
/// use mailparse::parse_mail;
///
/// let mail = parse_mail(alloc, b"Content-Type: message/delivery-status\n\nAction: failed\n")?;
/// assert!(rt; has_status(&mail));
/// ```
pub fn has_status(part: &ParsedMail<'_>) -> bool
    ensures { result ≡ has_status (root (tree_of part.now)) }
{
    has_type(part, "message/delivery-status") || has_type(part, "message/global-delivery-status")
}

/// Returns whether a message has this type.
pub(crate) fn has_type(message: &ParsedMail<'_>, mimetype: &str) -> bool
    ensures { result ≡ has_type mimetype.now (root (tree_of message.now)) }
{
    message.ctype.mimetype.as_str() == mimetype
}

/// Returns the blocks between empty lines that are not empty.
pub(crate) fn blocks<'s>(alloc: Global, report: &'s [u8]) -> Result<Vec<&'s [u8]>, AllocError>
    ensures { IfOk result (λ found. map (λ block. block.now) found.items ≡ blocks report.now) }
{
    let mut found = Vec::new(alloc);
    let mut rest = report;
    'pieces: while !rest.is_empty() {
        let (block, after) = cut_block(rest);
        if !block.is_empty() {
            found.push(block)?;
        }
        rest = after;
    }
    Ok(found)
}

/// Returns the bytes before and after the first empty line.
fn cut_block(bytes: &[u8]) -> (&[u8], &[u8])
    ensures block { result.0.now ≡ block_at bytes.now }
    ensures after { result.1.now ≡ after_block bytes.now }
{
    let (block, rest) = bytes.split_at(block_length(bytes));
    let (_, after) = rest.split_at(empty_line(rest));
    (block, after)
}

/// Returns the number of bytes before the first empty line.
fn block_length(bytes: &[u8]) -> usize
    ensures value { result ≡ block_length bytes.now }
    ensures bounds { result ≤ length bytes.now }
{
    line_place(bytes, is_empty_line)
}

/// Returns the fields of a block, or none if it is refused.
#[tactic(auto, unfolding(crate::specs::Reports::fields))]
pub(crate) fn fields<'s>(
    alloc: Global,
    block: &'s [u8],
) -> Result<Vec<MailHeader<'s>>, MailParseError>
    ensures read { IfOk result (λ headers. headers.items ≡ fields block.now) }
    ensures only_memory { IfErr result IsMemory }
{
    match parse_lenient_headers(alloc, block) {
        Ok((headers, _)) => Ok(headers),
        Err(MailParseError::Memory(error)) => Err(MailParseError::Memory(error)),
        Err(_) => Ok(Vec::new(alloc)),
    }
}

/// Returns a text without the whitespace around it.
pub(crate) fn trimmed(alloc: Global, text: &str) -> Result<String, AllocError>
    ensures { IfOk result (λ trimmed. string_bytes trimmed ≡ trim text.now) }
{
    String::from_str(alloc, text.trim())
}
