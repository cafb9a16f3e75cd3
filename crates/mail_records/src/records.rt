//! Records of a mail, of its parts and of their headers.
ghost use Rattle.std.specs.Prelude.{Ok, Some, ◌≡◌, ◌≤◌, ◌<◌, ◌+◌, ◌++◌, [], ◌∷◌, length, map, true, vec_len, IfOk, IfSome, OnOk, option_map};
ghost use Rattle.std.specs.Char.{to_ascii_lowercase};
ghost use Rattle.mailparse.specs.BodyViews.{Content};
ghost use Rattle.mailparse.specs.Mail.{root, trees_within};
ghost use Rattle.mailparse.specs.Outcome.{AnswersOrMemory};
ghost use Rattle.mailparse.specs.Value.{lenient_value};
ghost use Rattle.mailparse.specs.Views as views;
ghost use Rattle.mailparse.specs.Views.{placement_of, placements_of, tree_of};
ghost use Rattle.mail_records.specs.Codes.{IsCoded};
ghost use Rattle.mail_records.specs.OwnHeaders.{AllOwn, AreFirstHeaders, HasOwnHeaders};
ghost use Rattle.mail_read.specs.lenient.Dispositions.{lenient_disposition};
ghost use Rattle.mail_read.specs.lenient.Encoding.{LenientKind, lenient_body_kind, lenient_kind};
ghost use Rattle.mail_read.specs.lenient.EncodingViews.{IsLenientBody};
ghost use Rattle.mail_read.specs.lenient.FileNames.{lenient_file_name};
ghost use Rattle.mail_records.specs.Records.{bit, disposition_number, encoding_number, families, flags};
ghost use Rattle.mail_records.specs.Records.{header_block, header_records, item_headers, items_of};
ghost use Rattle.mail_records.specs.Records.{kind_number, limited, none, part_record, records, records_in};
ghost use Rattle.mail_records.specs.RecordViews.{family_view, item_view, lists};
ghost use Rattle.mail_parts.specs.Part.{is_attachment};

use crate::codes::{NO_MEMORY, TOO_MANY, code_of};
use crate::lookup::first_header;
use crate::nameless::is_nameless_part;
use crate::places::{bare_key_end, places_of};
use mail_parts::is_read;
use mail_read::files::{is_attachment_disposition, is_leaf, is_shown};
use mail_read::inner_mails::forwards;
use mail_read::lenient::{LenientBody, lenient_body, lenient_disposition, lenient_file_name};
use mail_read::reading::read_mail;
use mailparse::body::Body;
use mailparse::{
    DispositionType, KnownCharsets, MailHeader, MailParseError, ParsedMail, before_dash_line,
    count_headers, header_places, parse_headers,
};
use std::alloc::{AllocError, Global};

/// The parent of a mail itself.
pub const NONE: u64 = 0xFFFF_FFFF_FFFF_FFFF;

/// A mail or a part of it, as `struct rocktray_part`.
#[repr(C)]
#[derive(Clone, Copy)]
pub struct Part {
    /// The index of the part that contains it, or `NONE`.
    pub parent: u64,
    /// Its level: 0 for a mail itself.
    pub level: u64,
    /// The start of its bytes.
    pub start: u64,
    /// Their end.
    pub end: u64,
    /// The start of its body.
    pub body_start: u64,
    /// The end of its body.
    pub body_end: u64,
    /// The index of its first header.
    pub first_header: u64,
    /// The number of its headers.
    pub header_count: u64,
    /// The number of its transfer encoding.
    pub encoding: u64,
    /// The number of its disposition.
    pub disposition: u64,
    /// The sum of its flags.
    pub flags: u64,
}

/// A header, as `struct rocktray_header_record`.
#[repr(C)]
#[derive(Clone, Copy)]
pub struct HeaderRecord {
    /// The start of the header and of its key.
    pub start: u64,
    /// The end of its key, before the blanks at the end of the key.
    pub key_end: u64,
    /// The start of its value.
    pub value_start: u64,
    /// The end of its value.
    pub value_end: u64,
    /// The end of the header.
    pub end: u64,
}

/// The records of a mail.
#[derive(Drop)]
pub struct Records {
    /// Those of the mail and of its parts, each before its own parts.
    pub parts: Vec<Part>,
    /// Those of all their headers.
    pub headers: Vec<HeaderRecord>,
}

/// A message of a mail, with the index of the part that contains it, and its level.
#[derive(Drop)]
struct Node<'m, 'a> {
    part: &'m ParsedMail<'a>,
    parent: u64,
    level: u64,
}

/// Returns the records of a mail, or the code of its refusal, `TOO_MANY` if there are more than
/// `limit`.
///
/// # Errors
///
/// The code of the refusal, or `NO_MEMORY`.
///
/// # Examples
///
/// ```rust
/// use mail_records::records::mail_records;
///
/// let found = mail_records(alloc, b"Subject: Hi\n\nHello\n", 1000, &())?;
/// assert!(rt; found.parts.len() == 1 && found.headers.len() == 1);
/// assert_eq!(rt; found.parts[0].body_start, 13);
/// ```
pub fn mail_records<K: KnownCharsets>(
    alloc: Global,
    raw: &[u8],
    limit: usize,
    known: &K,
) -> Result<Records, u32>
    ensures { IsCoded lists result (records (K.known known.now) limit raw.now) }
{
    match read_mail(alloc, raw, limit, known) {
        Ok(mail) => tree_records(alloc, &mail, known),
        Err(error) => Err(code_of(&error)),
    }
}

/// Returns the records of a mail that was read.
fn tree_records<K: KnownCharsets>(
    alloc: Global,
    mail: &ParsedMail<'_>,
    known: &K,
) -> Result<Records, u32>
    requires { AllOwn (trees_within (tree_of mail.now)) }
    ensures { let t = tree_of mail.now in IsCoded lists result (Ok (records_in (K.known known.now)
        (items_of (trees_within t) (placements_of mail.now) (families 0 none 0 t)))) }
{
    match records_of(alloc, mail, known) {
        Ok(found) => Ok(found),
        Err(_) => Err(NO_MEMORY),
    }
}

/// Returns the records of the headers of a message, or the code of the refusal of its block,
/// `TOO_MANY` if there are more than `limit`.
///
/// # Errors
///
/// The code of the refusal, or `NO_MEMORY`.
///
/// # Examples
///
/// ```rust
/// use mail_records::records::headers;
///
/// let found = headers(alloc, b"A: 1\nB: 2\n\nHello\n", 1000)?;
/// assert_eq!(rt; found[1].start, 5);
/// ```
pub fn headers(alloc: Global, raw: &[u8], limit: usize) -> Result<Vec<HeaderRecord>, u32>
    ensures { IsCoded (λ found. found.items) result (header_block limit raw.now) }
{
    let block = before_dash_line(raw);
    let count = count_headers(block);
    if 0 < count {
        return first_headers(alloc, block, count, limit);
    }
    match parse_headers(alloc, block) {
        Ok((headers, _)) => first_headers(alloc, block, headers.len(), limit),
        Err(error) => Err(code_of(&error)),
    }
}

/// Returns the records of the first `count` headers of a message, or `TOO_MANY` if that is more
/// than `limit`.
fn first_headers(
    alloc: Global,
    raw: &[u8],
    count: usize,
    limit: usize,
) -> Result<Vec<HeaderRecord>, u32>
    ensures { IsCoded (λ found. found.items) result
        (limited limit count (header_records 0 raw.now count)) }
{
    if limit < count {
        return Err(TOO_MANY);
    }
    let Ok(mut found) = Vec::with_capacity(alloc, count) else {
        return Err(NO_MEMORY);
    };
    match push_headers(&mut found, raw, 0, count) {
        Ok(()) => Ok(found),
        Err(_) => Err(NO_MEMORY),
    }
}

/// Returns the records of a mail that was read.
fn records_of<K: KnownCharsets>(
    alloc: Global,
    mail: &ParsedMail<'_>,
    known: &K,
) -> Result<Records, MailParseError>
    requires { AllOwn (trees_within (tree_of mail.now)) }
    ensures { let t = tree_of mail.now in IfOk result (λ found. lists found
        ≡ records_in (K.known known.now)
        (items_of (trees_within t) (placements_of mail.now) (families 0 none 0 t))) }
{
    // Most mails have no parts, and need no list.
    if is_leaf(mail) {
        let alone = [Node {
            part: mail,
            parent: NONE,
            level: 0,
        }];
        return records_in(alloc, &alone, known);
    }
    let mut nodes = Vec::new(alloc);
    push_nodes(&mut nodes, mail, NONE, 0)?;
    records_in(alloc, nodes.as_slice(), known)
}

/// Returns the records of messages.
fn records_in<K: KnownCharsets>(
    alloc: Global,
    nodes: &[Node<'_, '_>],
    known: &K,
) -> Result<Records, MailParseError>
    requires { AllOwn (map (λ node. tree_of node.part.now) nodes.now) }
    ensures { IfOk result (λ found. lists found
        ≡ records_in (K.known known.now) (map item_view nodes.now)) }
{
    let mut records = Records {
        parts: Vec::with_capacity(alloc, nodes.len())?,
        headers: Vec::with_capacity(alloc, header_total(nodes))?,
    };
    for node in nodes {
        push_record(alloc, &mut records, node, known)?;
    }
    Ok(records)
}

/// Returns the number of headers of messages, which is the capacity for their records.
fn header_total(nodes: &[Node<'_, '_>]) -> usize {
    let mut total: usize = 0;
    for node in nodes {
        total = total.saturating_add(header_count(node.part));
    }
    total
}

/// Appends a message with this parent and level, and then its parts.
fn push_nodes<'m, 'a>(
    found: &mut Vec<Node<'m, 'a>>,
    mail: &'m ParsedMail<'a>,
    parent: u64,
    level: u64,
) -> Result<(), AllocError>
    requires { level ≤ vec_len found.old }
    ensures trees { OnOk result (map (λ node. tree_of node.part.now) found.new.items
        ≡ map (λ node. tree_of node.part.now) found.old.items ++ trees_within (tree_of mail.now)) }
    ensures ranges { OnOk result (map (λ node. placement_of node.part.now) found.new.items
        ≡ map (λ node. placement_of node.part.now) found.old.items ++ placements_of mail.now) }
    ensures families { OnOk result (map family_view found.new.items
        ≡ map family_view found.old.items
        ++ families (vec_len found.old) parent level (tree_of mail.now)) }
    ensures len { OnOk result (vec_len found.new
        ≡ vec_len found.old + length (trees_within (tree_of mail.now))) }
{
    let index = found.len() as u64;
    found.push(Node {
        part: mail,
        parent,
        level,
    })?;
    for part in &mail.subparts {
        push_nodes(found, part, index, level + 1)?;
    }
    Ok(())
}

/// Appends the record of a message, and those of its headers.
fn push_record<K: KnownCharsets>(
    alloc: Global,
    records: &mut Records,
    node: &Node<'_, '_>,
    known: &K,
) -> Result<(), MailParseError>
    requires { HasOwnHeaders (tree_of node.now.part.now) }
    ensures parts { OnOk result (records.new.parts.items ≡ records.old.parts.items
        ++ part_record (K.known known.now) (vec_len records.old.headers) (item_view node.now)
        ∷ []) }
    ensures headers { OnOk result (records.new.headers.items ≡ records.old.headers.items
        ++ item_headers (item_view node.now)) }
{
    let first = records.headers.len() as u64;
    let entry = record_of(alloc, node, first, known)?;
    let (start, read) = (start_of(node.part), headers_of(node.part));
    push_read_headers(&mut records.headers, bytes_of(node.part), start, read)?;
    records.parts.push(entry)?;
    Ok(())
}

/// Returns the record of a message whose first header has this index.
fn record_of<K: KnownCharsets>(
    alloc: Global,
    node: &Node<'_, '_>,
    first: u64,
    known: &K,
) -> Result<Part, MailParseError>
    ensures { IfOk result (λ made.
        made ≡ part_record (K.known known.now) first (item_view node.now)) }
{
    let bytes = node.part.byte_range();
    let body = node.part.body_range();
    let count = header_count(node.part);
    let encoding = encoding_of(alloc, node.part)?;
    let shown = disposition_of(alloc, node.part, known)?;
    Ok(Part {
        parent: node.parent,
        level: node.level,
        start: bytes.start as u64,
        end: bytes.end as u64,
        body_start: body.start as u64,
        body_end: body.end as u64,
        first_header: first,
        header_count: count as u64,
        encoding,
        disposition: shown.0,
        flags: shown.1,
    })
}

/// Returns the offset at which a message begins.
fn start_of(part: &ParsedMail<'_>) -> usize
    ensures { result ≡ (placement_of part.now).whole.start }
{
    part.byte_range().start
}

/// Returns the number of headers of a message.
fn header_count(part: &ParsedMail<'_>) -> usize
    ensures { result ≡ length (root (tree_of part.now)).headers }
{
    part.headers.len()
}

/// Returns the headers of a message.
fn headers_of<'m, 'a>(part: &'m ParsedMail<'a>) -> &'m [MailHeader<'a>]
    ensures { result.now ≡ (root (tree_of part.now)).headers }
{
    part.headers.as_slice()
}

/// Returns the bytes of a message.
fn bytes_of<'m>(part: &'m ParsedMail<'_>) -> &'m [u8]
    ensures { result.now ≡ (root (tree_of part.now)).bytes }
{
    part.raw_bytes
}

/// Appends the records of the headers of a message that starts at this offset, which were read from
/// its bytes.
#[tactic(auto, unfolding(crate::specs::Records::header_records))]
fn push_read_headers(
    found: &mut Vec<HeaderRecord>,
    raw: &[u8],
    start: usize,
    headers: &[MailHeader<'_>],
) -> Result<(), AllocError>
    requires { AreFirstHeaders raw.now headers.now }
    ensures { OnOk result (found.new.items ≡ found.old.items
        ++ header_records start raw.now (length headers.now)) }
{
    // A message ends within its mail, so the sum fits.
    if usize::MAX - start < raw.len() {
        return Err(AllocError);
    }
    found.reserve(headers.len())?;
    let mut at = 0;
    for header in headers {
        let cut = places_of(&raw[at..], header);
        let first = start + at;
        found.push(HeaderRecord {
            start: first as u64,
            key_end: (first + cut.key_end) as u64,
            value_start: (first + cut.value_start) as u64,
            value_end: (first + cut.value_end) as u64,
            end: (first + cut.length) as u64,
        })?;
        at += cut.length;
    }
    Ok(())
}

/// Appends the records of the first `count` headers of a message that starts at this offset.
#[tactic(auto, unfolding(crate::specs::Records::header_records))]
fn push_headers(
    headers: &mut Vec<HeaderRecord>,
    raw: &[u8],
    start: usize,
    count: usize,
) -> Result<(), AllocError>
    ensures { OnOk result (headers.new.items ≡ headers.old.items
        ++ header_records start raw.now count) }
{
    // A message ends within its mail, so the sum fits.
    if usize::MAX - start < raw.len() {
        return Err(AllocError);
    }
    let mut at = 0;
    for number in 0..count {
        let places = header_places(&raw[at..]);
        let key_end = bare_key_end(&raw[at..], places.key_end);
        let first = start + at;
        headers.push(HeaderRecord {
            start: first as u64,
            key_end: (first + key_end) as u64,
            value_start: (first + places.value_start) as u64,
            value_end: (first + places.value_end) as u64,
            end: (first + places.length) as u64,
        })?;
        at += places.length;
    }
    Ok(())
}

/// Returns the number of the transfer encoding of a part. Nearly every header is a name and nothing
/// else, so its bytes are compared first.
#[tactic(auto, unfolding(mail_read::specs::lenient::Encoding::lenient_kind, mail_read::specs::lenient::Encoding::lenient_kind_named, mailparse::specs::Body::kind_named))]
fn encoding_of(alloc: Global, part: &ParsedMail<'_>) -> Result<u64, MailParseError>
    ensures { IfOk result (λ number.
        number ≡ encoding_number (lenient_body_kind (root (tree_of part.now)))) }
{
    let Some(header) = first_header(part, "Content-Transfer-Encoding") else {
        return Ok(0);
    };
    if let Some(number) = number_named(header.get_value_raw()) {
        return Ok(number);
    }
    let body = lenient_body(alloc, part)?;
    Ok(encoding_number(&body))
}

/// Returns the number of the transfer encoding that the raw value of a header names, or `None` if it
/// is not the name alone.
fn number_named(name: &[u8]) -> Option<u64>
    ensures { IfSome result (λ number.
        number ≡ encoding_number (lenient_kind (Some (lenient_value name.now)))) }
{
    if is_name(name, b"7bit") {
        return Some(0);
    }
    if is_name(name, b"quoted-printable") {
        return Some(3);
    }
    if is_name(name, b"base64") {
        return Some(4);
    }
    if is_name(name, b"8bit") {
        return Some(1);
    }
    if is_name(name, b"binary") {
        return Some(2);
    }
    None
}

/// Returns whether a raw value is this name, ignoring case. Most are in lower case, as the name is.
#[inline(always)]
fn is_name(value: &[u8], name: &[u8]) -> bool
    ensures { result ≡ true →
        map to_ascii_lowercase value.now ≡ map to_ascii_lowercase name.now }
{
    value == name || value.eq_ignore_ascii_case(name)
}

/// Returns the number of the transfer encoding of a body.
fn encoding_number(body: &LenientBody<'_>) -> u64
    ensures { (kind : LenientKind) (given : Content) → IsLenientBody kind given body.now →
        result ≡ encoding_number kind }
{
    match body {
        LenientBody::Standard(Body::SevenBit(_)) => 0,
        LenientBody::Standard(Body::EightBit(_)) => 1,
        LenientBody::Standard(Body::Binary(_)) => 2,
        LenientBody::Standard(Body::QuotedPrintable(_)) => 3,
        LenientBody::Standard(Body::Base64(_)) => 4,
        LenientBody::Uuencode(_) => 5,
    }
}

/// Returns the number of the disposition of a part, and the sum of its flags.
fn disposition_of<K: KnownCharsets>(
    alloc: Global,
    part: &ParsedMail<'_>,
    known: &K,
) -> Result<(u64, u64), MailParseError>
    ensures { let t = tree_of part.now in
        let disposition = lenient_disposition (K.known known.now) (root t) in
        IfOk result (λ found. found ≡ (
          disposition_number disposition,
          flags t disposition (lenient_file_name (K.known known.now) (root t)),
        )) }
{
    let disposition = shown_disposition(alloc, part, known)?;
    let flags = flags(alloc, part, &disposition, known)?;
    Ok((disposition_number(&disposition), flags))
}

/// Returns the disposition of a part, if it has one. Most parts have no such header.
fn shown_disposition<K: KnownCharsets>(
    alloc: Global,
    part: &ParsedMail<'_>,
    known: &K,
) -> Result<Option<DispositionType>, MailParseError>
    ensures { AnswersOrMemory (λ found. option_map views.kind found) result
        (Ok (lenient_disposition (K.known known.now) (root (tree_of part.now)))) }
{
    if first_header(part, "Content-Disposition").is_none() {
        return Ok(None);
    }
    lenient_disposition(alloc, part, known)
}

/// Returns the number of a disposition, 0 if there is none.
fn disposition_number(disposition: &Option<DispositionType>) -> u64
    ensures { result ≡ disposition_number (option_map views.kind disposition.now) }
{
    match disposition {
        None => 0,
        Some(kind) => kind_number(kind),
    }
}

/// Returns the number of a kind of disposition.
fn kind_number(kind: &DispositionType) -> u64
    ensures { result ≡ kind_number (views.kind kind.now) }
{
    match kind {
        DispositionType::Inline => 1,
        DispositionType::Attachment => 2,
        DispositionType::FormData => 3,
        DispositionType::Extension(_) => 4,
    }
}

/// Returns the sum of the flags of a part with this disposition.
#[tactic(auto, unfolding(crate::specs::Records::flags))]
fn flags<K: KnownCharsets>(
    alloc: Global,
    part: &ParsedMail<'_>,
    disposition: &Option<DispositionType>,
    known: &K,
) -> Result<u64, MailParseError>
    requires { option_map views.kind disposition.now
        ≡ lenient_disposition (K.known known.now) (root (tree_of part.now)) }
    ensures { let t = tree_of part.now in
        IfOk result (λ sum. sum ≡ flags t (option_map views.kind disposition.now)
        (lenient_file_name (K.known known.now) (root t))) }
{
    let leaf = is_leaf(part);
    let attached = is_attachment(alloc, part, disposition, known)?;
    let extracted = (leaf && !is_shown(part)) || attached;
    let read = is_read(part, disposition);
    Ok(bit(leaf, 1) + bit(attached, 2) + bit(extracted, 4) + bit(read, 8) + bit(forwards(part), 16))
}

/// Returns whether a part with this disposition is an attachment. Its file name is read only if it
/// decides that.
fn is_attachment<K: KnownCharsets>(
    alloc: Global,
    part: &ParsedMail<'_>,
    disposition: &Option<DispositionType>,
    known: &K,
) -> Result<bool, MailParseError>
    requires { option_map views.kind disposition.now
        ≡ lenient_disposition (K.known known.now) (root (tree_of part.now)) }
    ensures { let t = tree_of part.now in
        IfOk result (λ is. is ≡ is_attachment t (option_map views.kind disposition.now)
        (lenient_file_name (K.known known.now) (root t))) }
{
    if !is_leaf(part) {
        return Ok(false);
    }
    if is_attachment_disposition(disposition) {
        return Ok(true);
    }
    if is_nameless_part(part, disposition) {
        return Ok(false);
    }
    Ok(lenient_file_name(alloc, part, known)?.is_some())
}

/// Returns a flag as a term of the sum.
fn bit(is: bool, value: u64) -> u64
    ensures value { result ≡ bit is value }
    ensures bounds { result ≤ value }
{
    if is { value } else { 0 }
}
