//! The recipients that delivery status notifications (RFC 3464), or delivery reports, report.
ghost use Rattle.std.specs.Prelude.{◌≡◌, ◌++◌, flat_map, map, option_map, string_bytes};
ghost use Rattle.std.specs.Prelude.{IfErr, IfOk, Ok, OnOk};
ghost use Rattle.mailparse.specs.Mail.{root};
ghost use Rattle.mailparse.specs.Map.{text_found};
ghost use Rattle.mailparse.specs.Outcome.{AnswersOrMemory, IsMemory};
ghost use Rattle.mailparse.specs.Views.{tree_of};
ghost use Rattle.mail_data.specs.Bounce.{after_type, deliveries, delivery_in, delivery_or_none};
ghost use Rattle.mail_data.specs.Bounce.{delivery_to};
ghost use Rattle.mail_data.specs.Bounce.{failed_recipients, field, has_original, listed, named_in};
ghost use Rattle.mail_data.specs.Bounce.{original_message_id, recipients, report_part};
ghost use Rattle.mail_data.specs.BounceViews.{cleaned, delivery};
ghost use Rattle.mail_data.specs.Reports.{blocks};
ghost use Rattle.mail_data.specs.TextViews.{tree_found};

mod address_escapes;

use crate::archive::id_among;
use crate::reports::{blocks, fields, has_status, has_type, trimmed};
use address_escapes::typed_address;
use mail_codec::charset::KnownCharsets;
use mail_read::lenient::{part_content, without_comments};
use mailparse::{MailHeader, MailHeaderMap, MailParseError, ParsedMail};
use std::alloc::{AllocError, Global};

/// A recipient that a mail reports, as `recipients` returns it: the fields of a delivery report on
/// it, of which a missing one is `None` (RFC 3464, section 2.3).
#[derive(Debug, Drop)]
pub struct Recipient {
    /// The address of the recipient, without its type: `Final-Recipient`. It is never `None`.
    pub final_recipient: Option<String>,
    /// The address that the sender wrote, without its type: `Original-Recipient`.
    pub original_recipient: Option<String>,
    /// The action that was taken, such as `failed` or `delayed`: `Action`.
    pub action: Option<String>,
    /// The status code, such as `5.1.1` (RFC 3463): `Status`.
    pub status: Option<String>,
    /// The reply of the other mail system, without its type: `Diagnostic-Code`.
    pub diagnostic_code: Option<String>,
}

/// What is left out of the text of a field.
#[derive(Clone, Copy)]
enum Kind {
    /// Comments.
    Plain,
    /// The type, which is the text up to the first `;`.
    Typed,
    /// Comments and then the type.
    Address,
}

/// Returns the recipients that a mail reports: those of the delivery reports in it, in order (RFC
/// 3464, sections 2.1 to 2.3), and then those in its headers `X-Failed-Recipients`.
///
/// The reports are all parts of type `message/delivery-status` or `message/global-delivery-status`
/// (RFC 6533), wherever they are in the mail. Their blocks are those of `reports::report_blocks`;
/// each block that has a `Final-Recipient` is about one recipient. A field is found by its name,
/// ignoring ASCII case. Its text is read like the value of a header in the charsets `known`,
/// without whitespace around it. In an address or a diagnostic code, the text up to the first `;`
/// is its type and is left out. In an address of the type `utf-8` the characters that are written
/// in ASCII, as `\x{E9}`, are read. Comments in parentheses are left out of addresses, actions and
/// status codes. In the headers, which no standard defines, a comma separates addresses; such a
/// recipient has no other field. Allocates the blocks, their headers and the texts.
///
/// # Errors
///
/// `MailParseError::Memory` if it runs out of memory.
///
/// # Examples
///
/// ```rust
/// use mail_data::bounce::recipients;
/// use mailparse::parse_mail;
///
/// let raw = b"Content-Type: multipart/report; boundary=b\n\n\
///     --b\nContent-Type: message/delivery-status\n\n\
///     Reporting-MTA: dns; mx.example.org\n\n\
///     Final-Recipient: rfc822; ann@example.org\nAction: failed\nStatus: 5.1.1\n\n--b--\n";
/// let mail = parse_mail(alloc, raw)?;
/// for recipient in &recipients(alloc, &mail, &())? {
///     let address = recipient.final_recipient.as_ref().ok_or("no address")?;
///     assert_eq!(rt; address.as_str(), "ann@example.org");
/// }
/// ```
#[tactic(auto, unfolding(crate::specs::Bounce::recipients))]
pub fn recipients<K: KnownCharsets>(
    alloc: Global,
    mail: &ParsedMail<'_>,
    known: &K,
) -> Result<Vec<Recipient>, MailParseError>
    ensures { AnswersOrMemory (λ found. map delivery found.items) result
        (Ok (recipients (K.known known.now) (tree_of mail.now))) }
{
    let mut found = Vec::new(alloc);
    for part in mail.parts(alloc)? {
        push_deliveries(alloc, &mut found, part, known)?;
    }
    add_failed(alloc, &mut found, mail, known)?;
    Ok(found)
}

/// Returns the id of the mail that a delivery report is about, or `None` if the report does not
/// contain it (RFC 3464, section 2; RFC 6533, section 3).
///
/// The mail has to be a `multipart/report`; the first of its own parts that is a `message/rfc822`,
/// a `text/rfc822-headers`, a `message/global` or a `message/global-headers` is used. Its id is
/// read as `archive::message_id` reads one, in headers that `parse_lenient_headers` reads; if it
/// refuses them there is no id. The body is read without its transfer encoding, as
/// `lenient_content` reads it. Allocates the body if it is encoded, the headers and the id.
///
/// # Errors
///
/// `MailParseError::Memory` if it runs out of memory.
///
/// # Examples
///
/// ```rust
/// use mail_data::bounce::original_message_id;
/// use mailparse::parse_mail;
///
/// let raw = b"Content-Type: multipart/report; boundary=b\n\n\
///     --b\nContent-Type: text/rfc822-headers\n\nMessage-ID: <one@example.org>\n\n--b--\n";
/// let mail = parse_mail(alloc, raw)?;
/// let id = original_message_id(alloc, &mail)?.ok_or("no id")?;
/// assert_eq!(rt; id.as_str(), "one@example.org");
/// ```
#[tactic(auto, unfolding(crate::specs::Bounce::original_message_id))]
pub fn original_message_id(
    alloc: Global,
    mail: &ParsedMail<'_>,
) -> Result<Option<String>, MailParseError>
    ensures { AnswersOrMemory text_found result (Ok (original_message_id (tree_of mail.now))) }
{
    let Some(part) = original_part(mail) else {
        return Ok(None);
    };
    let content = part_content(alloc, part)?;
    let headers = fields(alloc, content.bytes.as_slice())?;
    id_among(alloc, &headers)
}

/// Returns the part that is the returned mail or its headers, if there is one.
fn original_part<'m, 'a>(mail: &'m ParsedMail<'a>) -> Option<&'m ParsedMail<'a>>
    ensures { tree_found result ≡ report_part has_original (tree_of mail.now) }
{
    if !has_type(mail, "multipart/report") {
        return None;
    }
    for part in &mail.subparts {
        if has_original(part) {
            return Some(part);
        }
    }
    None
}

/// Returns whether a part is the returned mail or its headers.
fn has_original(part: &ParsedMail<'_>) -> bool
    ensures { result ≡ has_original (root (tree_of part.now)) }
{
    has_type(part, "message/rfc822")
        || has_type(part, "text/rfc822-headers")
        || has_type(part, "message/global")
        || has_type(part, "message/global-headers")
}

/// Appends the recipients in the status of deliveries, if the part has one.
#[tactic(auto, unfolding(crate::specs::Bounce::deliveries))]
fn push_deliveries<K: KnownCharsets>(
    alloc: Global,
    found: &mut Vec<Recipient>,
    part: &ParsedMail<'_>,
    known: &K,
) -> Result<(), MailParseError>
    ensures written { OnOk result (map delivery found.new.items
        ≡ map delivery found.old.items
        ++ deliveries (K.known known.now) (root (tree_of part.now))) }
    ensures only_memory { IfErr result IsMemory }
{
    if !has_status(part) {
        return Ok(());
    }
    let content = part_content(alloc, part)?;
    add_reported(alloc, found, content.bytes.as_slice(), known)
}

/// Appends the recipients that a delivery report with this content is about, as `recipients` reads
/// them. The content is that of the body without its transfer encoding, so that a caller who needs
/// it too decodes the body once; `has_status` says which parts are such reports.
///
/// Allocates the blocks, their headers and the texts.
///
/// # Errors
///
/// `MailParseError::Memory` if it runs out of memory.
///
/// # Examples
///
/// ```rust
/// use mail_data::bounce::add_reported;
///
/// let report = b"Reporting-MTA: dns; mx.example.org\n\nFinal-Recipient: rfc822; ann@example.org\n";
/// let mut found = Vec::new(alloc);
/// add_reported(alloc, &mut found, report, &())?;
/// assert_eq!(rt; found.len(), 1);
/// assert_eq!(rt; found[0].final_recipient.as_deref(), Some("ann@example.org"));
/// ```
pub fn add_reported<K: KnownCharsets>(
    alloc: Global,
    found: &mut Vec<Recipient>,
    report: &[u8],
    known: &K,
) -> Result<(), MailParseError>
    ensures written { OnOk result (map delivery found.new.items ≡ map delivery found.old.items
        ++ flat_map (delivery_or_none (K.known known.now)) (blocks report.now)) }
    ensures only_memory { IfErr result IsMemory }
{
    for block in blocks(alloc, report)? {
        push_delivery(alloc, found, block, known)?;
    }
    Ok(())
}

/// Appends the recipient that a block is about, if there is one.
fn push_delivery<K: KnownCharsets>(
    alloc: Global,
    found: &mut Vec<Recipient>,
    block: &[u8],
    known: &K,
) -> Result<(), MailParseError>
    ensures written { OnOk result (map delivery found.new.items
        ≡ map delivery found.old.items ++ delivery_or_none (K.known known.now) block.now) }
    ensures only_memory { IfErr result IsMemory }
{
    if let Some(recipient) = recipient_in(alloc, block, known)? {
        found.push(recipient)?;
    }
    Ok(())
}

/// Reads the fields on a recipient, or returns `None` if the block names no recipient.
#[tactic(auto, unfolding(crate::specs::Bounce::delivery_in))]
fn recipient_in<K: KnownCharsets>(
    alloc: Global,
    block: &[u8],
    known: &K,
) -> Result<Option<Recipient>, MailParseError>
    ensures read { IfOk result (λ found.
        option_map delivery found ≡ delivery_in (K.known known.now) block.now) }
    ensures only_memory { IfErr result IsMemory }
{
    let headers = fields(alloc, block)?;
    match field(alloc, &headers, "Final-Recipient", Kind::Address, known)? {
        Some(address) => Ok(Some(recipient_to(alloc, address, &headers, known)?)),
        None => Ok(None),
    }
}

/// Reads the fields on the recipient with this address.
fn recipient_to<K: KnownCharsets>(
    alloc: Global,
    address: String,
    headers: &Vec<MailHeader<'_>>,
    known: &K,
) -> Result<Recipient, MailParseError>
    ensures read { IfOk result (λ recipient. delivery recipient
        ≡ delivery_to (K.known known.now) (string_bytes address) headers.now.items) }
    ensures only_memory { IfErr result IsMemory }
{
    Ok(Recipient {
        final_recipient: Some(address),
        original_recipient: field(alloc, headers, "Original-Recipient", Kind::Address, known)?,
        action: field(alloc, headers, "Action", Kind::Plain, known)?,
        status: field(alloc, headers, "Status", Kind::Plain, known)?,
        diagnostic_code: field(alloc, headers, "Diagnostic-Code", Kind::Typed, known)?,
    })
}

/// Returns the text of the first field with this name, without what its kind leaves out.
fn field<K: KnownCharsets>(
    alloc: Global,
    headers: &Vec<MailHeader<'_>>,
    name: &str,
    kind: Kind,
    known: &K,
) -> Result<Option<String>, MailParseError>
    ensures read { IfOk result (λ found. text_found found
        ≡ field (cleaned kind) (K.known known.now) name.now headers.now.items) }
    ensures only_memory { IfErr result IsMemory }
{
    match headers.get_first_value_in(alloc, name, known)? {
        Some(value) => Ok(Some(cleaned(alloc, value.as_str(), kind)?)),
        None => Ok(None),
    }
}

/// Returns a text without what its kind leaves out, and without whitespace around it.
fn cleaned(alloc: Global, text: &str, kind: Kind) -> Result<String, AllocError>
    ensures { IfOk result (λ clean. string_bytes clean ≡ cleaned kind text.now) }
{
    match kind {
        Kind::Plain => trimmed(alloc, without_comments(alloc, text)?.as_str()),
        Kind::Typed => trimmed(alloc, after_type(text)),
        Kind::Address => {
            let kept = without_comments(alloc, text)?;
            trimmed(alloc, typed_address(alloc, kept.as_str())?.as_str())
        }
    }
}

/// Returns the text after the first `;`, or the whole text if it contains no `;`.
#[tactic(auto, unfolding(crate::specs::Bounce::after_type))]
fn after_type(text: &str) -> &str
    ensures { result.now ≡ after_type text.now }
{
    match text.split_once(';') {
        Some((_, rest)) => rest,
        None => text,
    }
}

/// Appends the recipients in the headers `X-Failed-Recipients` of a mail, as `recipients` reads
/// them.
///
/// Allocates the values and the texts.
///
/// # Errors
///
/// `MailParseError::Memory` if it runs out of memory.
///
/// # Examples
///
/// ```rust
/// use mail_data::bounce::add_failed;
/// use mailparse::parse_mail;
///
/// let mail = parse_mail(alloc, b"X-Failed-Recipients: ann@example.org\n\n")?;
/// let mut found = Vec::new(alloc);
/// add_failed(alloc, &mut found, &mail, &())?;
/// assert_eq!(rt; found[0].final_recipient.as_deref(), Some("ann@example.org"));
/// ```
#[tactic(auto, unfolding(crate::specs::Bounce::failed_recipients))]
pub fn add_failed<K: KnownCharsets>(
    alloc: Global,
    found: &mut Vec<Recipient>,
    mail: &ParsedMail<'_>,
    known: &K,
) -> Result<(), MailParseError>
    ensures written { OnOk result (map delivery found.new.items
        ≡ map delivery found.old.items
        ++ failed_recipients (K.known known.now) (root (tree_of mail.now))) }
    ensures only_memory { IfErr result IsMemory }
{
    let values = mail
        .headers
        .get_all_values_in(alloc, "X-Failed-Recipients", known)?;
    for value in &values {
        push_listed(alloc, found, value.as_str())?;
    }
    Ok(())
}

/// Appends the recipients in a list of addresses.
#[tactic(auto, using(crate::proofs::lemmas::Bounce::listed_next), unfolding(crate::specs::Bounce::listed))]
fn push_listed(alloc: Global, found: &mut Vec<Recipient>, list: &str) -> Result<(), AllocError>
    ensures { OnOk result (map delivery found.new.items
        ≡ map delivery found.old.items ++ listed list.now) }
{
    for text in list.split(',') {
        push_named(alloc, found, text)?;
    }
    Ok(())
}

/// Appends the recipient in a text, unless that consists of whitespace.
fn push_named(alloc: Global, found: &mut Vec<Recipient>, text: &str) -> Result<(), AllocError>
    ensures { OnOk result (map delivery found.new.items
        ≡ map delivery found.old.items ++ named_in text.now) }
{
    let address = text.trim();
    if address.is_empty() {
        return Ok(());
    }
    found.push(Recipient {
        final_recipient: Some(String::from_str(alloc, address)?),
        original_recipient: None,
        action: None,
        status: None,
        diagnostic_code: None,
    })?;
    Ok(())
}
