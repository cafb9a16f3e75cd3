//! The C library: `c/rocktray.h` declares and describes the calls that are exported here.
//!
//! A call whose result is bytes gets its input, an output buffer and a reference to a length. It
//! writes the result to the front of the buffer and sets the length to that of the result. If the
//! buffer is too short it only sets the length. It returns a code (`codes`): after every code but 0
//! the buffer is unchanged, and after every code but 0 and 1 the length is too. No call keeps
//! memory or a reference.
#![tactic(auto)]

ghost use Rattle.std.specs.Prelude.{◌≡◌, length, Ok};
ghost use Rattle.mail_charsets.specs.All.{all_known};
ghost use Rattle.mail_charsets.specs.declared.all.AllCharsets as all_charsets;
ghost use Rattle.mail_data.specs.Mailbox.{front_length};
ghost use Rattle.mail_data.specs.MailboxFormats.{entries_in};
ghost use Rattle.mail_c.specs.Json.{IsJson};
ghost use Rattle.mail_records.specs.AddressRecords.{addresses_read};
ghost use Rattle.mail_records.specs.Buffer.{Ends, EndsBoth, EndsItems, filled, output, written_code};
ghost use Rattle.mail_records.specs.Codes.{reason};
ghost use Rattle.mail_records.specs.Findings.{findings_read};
ghost use Rattle.mail_records.specs.Numbers.{ReturnsDate, ReturnsOffset, ReturnsOffsets, date};
ghost use Rattle.mail_records.specs.Numbers.{first_offsets, format_named, no_mail_code};
ghost use Rattle.mail_records.specs.Ranges as read;
ghost use Rattle.mail_records.specs.Ranges.{EndsDecoded};
ghost use Rattle.mail_records.specs.Records.{header_block, records};
ghost use Rattle.mail_records.specs.Recipients.{recipients_read};
ghost use Rattle.mail_records.specs.Reports.{report};
ghost use Rattle.mail_records.specs.Strings.{AreTypeStrings, EndsStrings};
ghost use Rattle.mail_records.specs.Results.{content, ids, raw_value, readable};
ghost use Rattle.mail_records.specs.Results.{text, text_of_html, value};
ghost use Rattle.mail_records.specs.TextFiles.{files_read};
ghost use Rattle.mail_html.specs.declared.references.References.{References};

mod json;

use mail_charsets::AllCharsets;
use mail_html::References;
use mail_records::addresses::AddressRecord;
use mail_records::buffer::{write_headers, write_items, write_records, write_result, write_rows};
use mail_records::codes::reason;
use mail_records::findings::FindingRecord;
use mail_records::ranges::write_decoded;
use mail_records::recipients::RecipientRecord;
use mail_records::records::{HeaderRecord, Part};
use mail_records::reports::FieldRecord;
use mail_records::text_files::TextFileRecord;
use mail_records::{
    addresses, findings, numbers, ranges, recipients, records, reports, results, strings,
    text_files,
};
use mail_version::VERSION_NUMBER;
use std::alloc::Global;

/// Returns the charsets in which mails are read: all those of the Encoding Standard.
fn charsets() -> AllCharsets {
    AllCharsets::standard()
}

/// Returns the version of the library: 10000 * major + 100 * minor + patch.
#[unsafe(no_mangle)]
pub extern "C" fn rocktray_version() -> u32
    ensures { result ≡ 200 }
{
    VERSION_NUMBER
}

/// Fills the records of a mail, of its parts, and of their headers.
#[unsafe(no_mangle)]
pub extern "C" fn rocktray_parts(
    alloc: Global,
    mail: &[u8],
    limit: usize,
    parts: &mut [Part],
    parts_needed: &mut usize,
    headers: &mut [HeaderRecord],
    headers_needed: &mut usize,
) -> u32
    ensures { (all : all_charsets.AllCharsets) ×
        EndsBoth (output parts.old parts.new parts_needed.old parts_needed.new)
        (output headers.old headers.new headers_needed.old headers_needed.new) result
        (records (all_known all) limit mail.now) }
{
    let found = records::mail_records(alloc, mail, limit, &charsets());
    write_records(parts, parts_needed, headers, headers_needed, found)
}

/// Fills the records of the headers of a mail or a part.
#[unsafe(no_mangle)]
pub extern "C" fn rocktray_headers(
    alloc: Global,
    part: &[u8],
    limit: usize,
    headers: &mut [HeaderRecord],
    needed: &mut usize,
) -> u32
    ensures { EndsItems (output headers.old headers.new needed.old needed.new) result
        (header_block limit part.now) }
{
    write_headers(headers, needed, records::headers(alloc, part, limit))
}

/// Writes the decoded value of a header, given its raw value.
#[unsafe(no_mangle)]
pub extern "C" fn rocktray_value(
    alloc: Global,
    raw_value: &[u8],
    buffer: &mut [u8],
    needed: &mut usize,
) -> u32
    ensures { (all : all_charsets.AllCharsets) ×
        Ends buffer.old buffer.new needed.old needed.new result
        (λ found. read.value (all_known all) raw_value.now ≡ found) }
{
    write_result(buffer, needed, ranges::value(alloc, raw_value, &charsets()))
}

/// Writes the strings of a type, given its raw value.
#[unsafe(no_mangle)]
pub extern "C" fn rocktray_type(
    alloc: Global,
    raw_value: &[u8],
    ends: &mut [u64],
    ends_needed: &mut usize,
    buffer: &mut [u8],
    needed: &mut usize,
) -> u32
    ensures { (all : all_charsets.AllCharsets) ×
        EndsStrings (output ends.old ends.new ends_needed.old ends_needed.new)
        (output buffer.old buffer.new needed.old needed.new) result
        (AreTypeStrings (read.type_of (all_known all) raw_value.now)) }
{
    let found = strings::type_strings(alloc, raw_value, &charsets());
    write_rows(ends, ends_needed, buffer, needed, found)
}

/// Writes the file name of a part, given the raw values of its disposition and its type.
#[unsafe(no_mangle)]
pub extern "C" fn rocktray_file_name(
    alloc: Global,
    disposition: &[u8],
    ctype: &[u8],
    buffer: &mut [u8],
    needed: &mut usize,
) -> u32
    ensures { (all : all_charsets.AllCharsets) ×
        Ends buffer.old buffer.new needed.old needed.new result
        (λ found. read.file_name (all_known all) disposition.now ctype.now ≡ found) }
{
    write_result(
        buffer,
        needed,
        ranges::file_name(alloc, disposition, ctype, &charsets()),
    )
}

/// Writes a name that is safe in any directory.
#[unsafe(no_mangle)]
pub extern "C" fn rocktray_safe_name(
    alloc: Global,
    name: &[u8],
    buffer: &mut [u8],
    needed: &mut usize,
) -> u32
    ensures { Ends buffer.old buffer.new needed.old needed.new result
        (λ found. read.safe_name name.now ≡ found) }
{
    write_result(buffer, needed, ranges::safe_name(alloc, name))
}

/// Writes the decoded bytes of a body, and whether it is damaged (1 or 0).
#[unsafe(no_mangle)]
pub extern "C" fn rocktray_body(
    alloc: Global,
    encoding: u64,
    body: &[u8],
    buffer: &mut [u8],
    needed: &mut usize,
    is_damaged: &mut u8,
) -> u32
    ensures { EndsDecoded (output buffer.old buffer.new needed.old needed.new)
        is_damaged.old is_damaged.new result (read.body encoding body.now) }
{
    write_decoded(
        buffer,
        needed,
        is_damaged,
        ranges::body(alloc, body, encoding),
    )
}

/// Writes the text of a body, given the raw value of its type, and whether the body is damaged (1
/// or 0).
#[unsafe(no_mangle)]
pub extern "C" fn rocktray_body_text(
    alloc: Global,
    encoding: u64,
    body: &[u8],
    ctype: &[u8],
    buffer: &mut [u8],
    needed: &mut usize,
    is_damaged: &mut u8,
) -> u32
    ensures { (all : all_charsets.AllCharsets) ×
        EndsDecoded (output buffer.old buffer.new needed.old needed.new)
        is_damaged.old is_damaged.new result
        (read.body_text (all_known all) encoding body.now ctype.now) }
{
    let found = ranges::body_text(alloc, body, ctype, encoding, &charsets());
    write_decoded(buffer, needed, is_damaged, found)
}

/// Writes the name of the charset in which `rocktray_body_text` reads that text.
#[unsafe(no_mangle)]
pub extern "C" fn rocktray_body_charset(
    alloc: Global,
    encoding: u64,
    body: &[u8],
    ctype: &[u8],
    buffer: &mut [u8],
    needed: &mut usize,
) -> u32
    ensures { (all : all_charsets.AllCharsets) ×
        Ends buffer.old buffer.new needed.old needed.new result
        (λ found. read.body_charset (all_known all) encoding body.now ctype.now ≡ found) }
{
    let found = ranges::body_charset(alloc, body, ctype, encoding, &charsets());
    write_result(buffer, needed, found)
}

/// Fills the records of the fields of a report, and writes their strings.
#[unsafe(no_mangle)]
pub extern "C" fn rocktray_report(
    alloc: Global,
    part: &[u8],
    fields: &mut [FieldRecord],
    fields_needed: &mut usize,
    buffer: &mut [u8],
    needed: &mut usize,
) -> u32
    ensures { (all : all_charsets.AllCharsets) ×
        EndsBoth (output fields.old fields.new fields_needed.old fields_needed.new)
        (output buffer.old buffer.new needed.old needed.new) result
        (report (all_known all) part.now) }
{
    let found = reports::report(alloc, part, &charsets());
    write_rows(fields, fields_needed, buffer, needed, found)
}

/// Fills the records of the recipients that a mail reports, and writes their strings.
#[unsafe(no_mangle)]
pub extern "C" fn rocktray_recipients(
    alloc: Global,
    mail: &[u8],
    recipients: &mut [RecipientRecord],
    recipients_needed: &mut usize,
    buffer: &mut [u8],
    needed: &mut usize,
) -> u32
    ensures { (all : all_charsets.AllCharsets) ×
        EndsBoth (output recipients.old recipients.new recipients_needed.old recipients_needed.new)
        (output buffer.old buffer.new needed.old needed.new) result
        (recipients_read (all_known all) mail.now) }
{
    let found = recipients::recipients(alloc, mail, &charsets());
    write_rows(recipients, recipients_needed, buffer, needed, found)
}

/// Fills the records of the findings of a mail, and writes their strings.
#[unsafe(no_mangle)]
pub extern "C" fn rocktray_findings(
    alloc: Global,
    mail: &[u8],
    findings: &mut [FindingRecord],
    findings_needed: &mut usize,
    buffer: &mut [u8],
    needed: &mut usize,
) -> u32
    ensures { (all : all_charsets.AllCharsets) ×
        EndsBoth (output findings.old findings.new findings_needed.old findings_needed.new)
        (output buffer.old buffer.new needed.old needed.new) result
        (findings_read (all_known all) mail.now) }
{
    let found = findings::findings(alloc, mail, &charsets());
    write_rows(findings, findings_needed, buffer, needed, found)
}

/// Fills the records of the uuencoded files in a text, and writes their names and bytes.
#[unsafe(no_mangle)]
pub extern "C" fn rocktray_text_files(
    alloc: Global,
    text: &[u8],
    limit: usize,
    files: &mut [TextFileRecord],
    files_needed: &mut usize,
    buffer: &mut [u8],
    needed: &mut usize,
) -> u32
    ensures { EndsBoth (output files.old files.new files_needed.old files_needed.new)
        (output buffer.old buffer.new needed.old needed.new) result
        (Ok (files_read limit text.now)) }
{
    let found = text_files::text_file_records(alloc, text, limit);
    write_rows(files, files_needed, buffer, needed, found)
}

/// Fills the records of the addresses in a raw value, and writes their strings.
#[unsafe(no_mangle)]
pub extern "C" fn rocktray_addresses(
    alloc: Global,
    raw_value: &[u8],
    addresses: &mut [AddressRecord],
    addresses_needed: &mut usize,
    buffer: &mut [u8],
    needed: &mut usize,
) -> u32
    ensures { (all : all_charsets.AllCharsets) ×
        EndsBoth (output addresses.old addresses.new addresses_needed.old addresses_needed.new)
        (output buffer.old buffer.new needed.old needed.new) result
        (Ok (addresses_read (all_known all) raw_value.now)) }
{
    let found = addresses::addresses(alloc, raw_value, &charsets());
    write_rows(addresses, addresses_needed, buffer, needed, found)
}

/// Writes the id of the mail that a delivery report is about.
#[unsafe(no_mangle)]
pub extern "C" fn rocktray_bounced_id(
    alloc: Global,
    mail: &[u8],
    buffer: &mut [u8],
    needed: &mut usize,
) -> u32
    ensures { (all : all_charsets.AllCharsets) ×
        Ends buffer.old buffer.new needed.old needed.new result
        (λ found. read.bounced_id (all_known all) mail.now ≡ found) }
{
    write_result(buffer, needed, ranges::bounced_id(alloc, mail, &charsets()))
}

/// Writes a mail of a mailbox in the format mboxrd as it was before it was quoted.
#[unsafe(no_mangle)]
pub extern "C" fn rocktray_unquoted(
    alloc: Global,
    mail: &[u8],
    buffer: &mut [u8],
    needed: &mut usize,
) -> u32
    ensures { Ends buffer.old buffer.new needed.old needed.new result
        (λ found. read.unquoted mail.now ≡ found) }
{
    write_result(buffer, needed, ranges::unquoted(alloc, mail))
}

/// Writes a mail as a line of JSON, as `rocktray json` does.
#[unsafe(no_mangle)]
pub extern "C" fn rocktray_json(
    alloc: Global,
    mail: &[u8],
    buffer: &mut [u8],
    needed: &mut usize,
) -> u32
    ensures { (all : all_charsets.AllCharsets) ×
        Ends buffer.old buffer.new needed.old needed.new result
        (IsJson (all_known all) mail.now) }
{
    write_result(buffer, needed, json::json(alloc, mail, &charsets()))
}

/// Writes the decoded bytes of the body of a mail or a part.
#[unsafe(no_mangle)]
pub extern "C" fn rocktray_content(
    alloc: Global,
    part: &[u8],
    buffer: &mut [u8],
    needed: &mut usize,
) -> u32
    ensures { Ends buffer.old buffer.new needed.old needed.new result
        (λ found. content part.now ≡ found) }
{
    write_result(buffer, needed, results::content(alloc, part))
}

/// Writes the text of the body of a mail or a part.
#[unsafe(no_mangle)]
pub extern "C" fn rocktray_text(
    alloc: Global,
    part: &[u8],
    buffer: &mut [u8],
    needed: &mut usize,
) -> u32
    ensures { (all : all_charsets.AllCharsets) ×
        Ends buffer.old buffer.new needed.old needed.new result
        (λ found. text (all_known all) part.now ≡ found) }
{
    write_result(buffer, needed, results::text(alloc, part, &charsets()))
}

/// Writes the decoded value of the `number`-th header with this name, counting from 0.
#[unsafe(no_mangle)]
pub extern "C" fn rocktray_header(
    alloc: Global,
    part: &[u8],
    name: &[u8],
    number: usize,
    buffer: &mut [u8],
    needed: &mut usize,
) -> u32
    ensures { (all : all_charsets.AllCharsets) ×
        Ends buffer.old buffer.new needed.old needed.new result
        (λ found. value (all_known all) part.now name.now number ≡ found) }
{
    write_result(
        buffer,
        needed,
        results::value(alloc, part, name, number, &charsets()),
    )
}

/// Writes the raw value of that header.
#[unsafe(no_mangle)]
pub extern "C" fn rocktray_raw_header(
    alloc: Global,
    part: &[u8],
    name: &[u8],
    number: usize,
    buffer: &mut [u8],
    needed: &mut usize,
) -> u32
    ensures { Ends buffer.old buffer.new needed.old needed.new result
        (λ found. raw_value part.now name.now number ≡ found) }
{
    write_result(
        buffer,
        needed,
        results::raw_value(alloc, part, name, number),
    )
}

/// Writes the text of HTML; with footnotes for the targets of its links if `shows_links`.
#[unsafe(no_mangle)]
pub extern "C" fn rocktray_html_text(
    alloc: Global,
    html: &[u8],
    shows_links: bool,
    buffer: &mut [u8],
    needed: &mut usize,
) -> u32
    ensures { (references : References) × Ends buffer.old buffer.new needed.old needed.new result
        (λ found. text_of_html shows_links references html.now ≡ found) }
{
    let references = References::standard();
    let found = results::text_of_html(alloc, html, shows_links, &references);
    write_result(buffer, needed, found)
}

/// Writes the text to be read of a mail: its plain text, or the text of its HTML, if there is no
/// plain text or it consists of whitespace.
#[unsafe(no_mangle)]
pub extern "C" fn rocktray_readable_text(
    alloc: Global,
    mail: &[u8],
    shows_links: bool,
    buffer: &mut [u8],
    needed: &mut usize,
) -> u32
    ensures { (all : all_charsets.AllCharsets) × (references : References) ×
        Ends buffer.old buffer.new needed.old needed.new result
        (λ found. readable (all_known all) shows_links references mail.now ≡ found) }
{
    let references = References::standard();
    let found = results::readable(alloc, mail, shows_links, &references, &charsets());
    write_result(buffer, needed, found)
}

/// Writes the text of a code.
#[unsafe(no_mangle)]
pub extern "C" fn rocktray_reason(code: u32, buffer: &mut [u8], needed: &mut usize) -> u32
    ensures code { result ≡ written_code buffer.old (reason code) }
    ensures written { buffer.new ≡ filled buffer.old (reason code) }
    ensures len { needed.new ≡ length (reason code) }
{
    write_items(buffer, needed, reason(code).as_bytes())
}

/// Writes the message ids in a text, each between `<` and `>`.
#[unsafe(no_mangle)]
pub extern "C" fn rocktray_ids(
    alloc: Global,
    text: &[u8],
    needs_at: bool,
    buffer: &mut [u8],
    needed: &mut usize,
) -> u32
    ensures { Ends buffer.old buffer.new needed.old needed.new result
        (λ found. ids needs_at text.now ≡ found) }
{
    write_result(buffer, needed, results::ids(alloc, text, needs_at))
}

/// Reads the value of a Date header: the seconds since 1970, and whether its zone is known (1 or
/// 0).
#[unsafe(no_mangle)]
pub extern "C" fn rocktray_date(text: &[u8], seconds: &mut i64, is_zone_known: &mut u8) -> u32
    ensures { ReturnsDate (date text.now) seconds.old seconds.new is_zone_known.new result }
{
    numbers::date(seconds, is_zone_known, text)
}

/// Reads the value of a Date header: the same, and the seconds by which the clocks of its zone are
/// ahead of UTC.
#[unsafe(no_mangle)]
pub extern "C" fn rocktray_date_and_offset(
    text: &[u8],
    seconds: &mut i64,
    offset: &mut i64,
    is_zone_known: &mut u8,
) -> u32
    ensures date { ReturnsDate (date text.now) seconds.old seconds.new is_zone_known.new result }
    ensures offset { ReturnsOffset (date text.now) offset.old offset.new }
{
    numbers::date_and_offset(seconds, offset, is_zone_known, text)
}

/// Finds the first mail of a mailbox: the offsets at which it begins and ends, and that of the next
/// separator.
#[unsafe(no_mangle)]
pub extern "C" fn rocktray_next_mail(
    mailbox: &[u8],
    is_counted: bool,
    start: &mut usize,
    end: &mut usize,
    next: &mut usize,
) -> u32
    ensures { ReturnsOffsets
        (first_offsets (entries_in (format_named is_counted) mailbox.now) (front_length mailbox.now))
        (no_mail_code mailbox.now) (start.old, end.old, next.old) (start.new, end.new, next.new)
        result }
{
    numbers::next_mail(start, end, next, mailbox, is_counted)
}
