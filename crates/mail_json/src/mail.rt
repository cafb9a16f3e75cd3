//! The object of a mail.
ghost use Rattle.std.specs.List.{AllByRecursion};
ghost use Rattle.std.specs.Prelude.{◌≡◌, codes, map, option_map, true, IfErr, IfOk};
ghost use Rattle.mailparse.specs.Mail.{root, trees_within};
ghost use Rattle.mailparse.specs.Views.{placements_of, tree_of};
ghost use Rattle.mail_read.specs.Reading.{mail_placements};
ghost use Rattle.mail_read.specs.lenient.Date.{zoned_date_of};
ghost use Rattle.mail_json.specs.Fields.{date_fault_text, value_of};
ghost use Rattle.mail_json.specs.Origin.{origin_of};
ghost use Rattle.mail_parts.specs.DecodedViews.{IsDecoded, decoded_tree};
ghost use Rattle.mail_json.specs.Options.{options_of};
ghost use Rattle.mail_json_text.specs.Members.{AddsMember, AddsMembers, BeginsMembers, is_key};
ghost use Rattle.mail_json_text.specs.Printed.{begun, text_of};
ghost use Rattle.mail_json.specs.Values.{IsMailValue, date_members, head_members, ids_members};
ghost use Rattle.mail_json.specs.Values.{raw_value, raw_values, value_or_null, values_members};
ghost use Rattle.mail_json.specs.Values.{zone_members};
ghost use Rattle.mail_json_text.specs.LineViews.{line_bytes};
ghost use Rattle.mail_program.specs.Fault.{IsEnd};
ghost use Rattle.mail_program.specs.Streams.{Writes};
ghost use Rattle.mail_json_text.specs.Written.{WritesOne};

use crate::addresses::write_addresses;
use crate::bounced::bounced_id;
use crate::fields::value_of;
use crate::findings_line::add_findings;
use crate::inside::{write_mails, write_parts};
use crate::options::LineOptions;
use crate::origin::{Origin, write_origin};
use crate::reports::write_reported;
use mail_codec::charset::decode_latin1;
use mail_data::archive::ids_of;
use mail_json_text::{
    LineBuffer, add_flag, add_null, add_optional, add_seconds, add_text, add_texts, first_key, key,
    memory_fault, write_word,
};
use mail_parts::{Decoded, decoded_parts};
use mail_program::Fault;
use mail_read::lenient::{DateError, IdRule, zoned_date_of};
use mail_read::places::places;
use mailparse::{KnownCharsets, MailHeaderMap, ParsedMail};
use std::alloc::Global;
use std::io::Write;

/// Writes the object of a mail with this origin, without a line end. The mail is as `read_mail`
/// returned it.
///
/// # Errors
///
/// `Fault::Output` if a write fails, and `Fault::Mail` with `MailParseError::Memory` if it runs out
/// of memory.
///
/// # Examples
///
/// ```rust
/// use mail_read::reading::{DEFAULT_LIMIT, read_mail};
/// use mail_json::{LineOptions, Origin, write_mail};
///
/// let mail = read_mail(alloc, b"Subject: Hi\n\nHello\n", DEFAULT_LIMIT, &())?;
/// let origin = Origin { file: None, number: None, start: 0, end: 19 };
/// let mut out = Vec::new(alloc);
/// write_mail(alloc, &mut out, &mail, &origin, LineOptions::new(), &())?;
/// assert!(rt; out.as_slice().starts_with(b"{\"schema\":6,\"file\":null,"));
/// ```
pub fn write_mail<W: Write, K: KnownCharsets>(
    alloc: Global,
    out: &mut W,
    mail: &ParsedMail<'_>,
    origin: &Origin<'_>,
    options: LineOptions<'_>,
    known: &K,
) -> Result<(), Fault>
    requires placed { placements_of mail.now ≡ mail_placements (tree_of mail.now) }
    ensures { WritesOne (W.contents out.old) (W.contents out.new) result text_of
        (IsMailValue (options_of (K.known known.now) options.entry) (origin_of origin.now)
        (tree_of mail.now)) }
{
    let found = places(alloc, mail)?;
    let decoded = decoded_parts(alloc, found.as_slice(), options.decodes_bodies)?;
    let parts = decoded.as_slice();
    let head = head_of(alloc, mail, parts, origin, options, known)?;
    out.write_all(head.as_slice())?;
    write_word(out, key!("parts"))?;
    write_word(out, "[")?;
    let inside = write_parts(alloc, out, parts, origin.start, options, known)?;
    write_word(out, "]")?;
    write_word(out, key!("forwarded"))?;
    write_mails(alloc, out, inside.as_slice(), origin.start)?;
    add_findings(alloc, out, bytes_of(mail), options, known)?;
    write_word(out, "}")
}

/// Returns the bytes of a mail.
fn bytes_of<'m>(mail: &'m ParsedMail<'_>) -> &'m [u8]
    ensures { result.now ≡ (root (tree_of mail.now)).bytes }
{
    mail.raw_bytes
}

/// Returns the members of a mail before those of its parts. It is not inlined, so that mails inside
/// it need less stack.
#[inline(never)]
fn head_of<K: KnownCharsets>(
    alloc: Global,
    mail: &ParsedMail<'_>,
    parts: &[Decoded<'_, '_, '_>],
    origin: &Origin<'_>,
    options: LineOptions<'_>,
    known: &K,
) -> Result<LineBuffer, Fault>
    requires decoded { AllByRecursion (IsDecoded options.decodes_bodies) parts.now }
    requires whole { map decoded_tree parts.now ≡ trees_within (tree_of mail.now) }
    ensures written { IfOk result (λ line. line_bytes line ≡ begun (head_members
        (K.known known.now) options.entry.decodes_bodies (origin_of origin.now)
        (tree_of mail.now))) }
    ensures failed { IfErr result IsEnd }
{
    let mut line = LineBuffer::new(alloc)?;
    match write_head(alloc, &mut line, mail, parts, origin, options, known) {
        Ok(()) => Ok(line),
        Err(fault) => Err(memory_fault(fault)),
    }
}

/// Writes the members of a mail before those of its parts.
fn write_head<W: Write, K: KnownCharsets>(
    alloc: Global,
    out: &mut W,
    mail: &ParsedMail<'_>,
    parts: &[Decoded<'_, '_, '_>],
    origin: &Origin<'_>,
    options: LineOptions<'_>,
    known: &K,
) -> Result<(), Fault>
    requires decoded { AllByRecursion (IsDecoded options.decodes_bodies) parts.now }
    requires whole { map decoded_tree parts.now ≡ trees_within (tree_of mail.now) }
    ensures { BeginsMembers (W.contents out.old) (W.contents out.new) result (head_members
        (K.known known.now) options.entry.decodes_bodies (origin_of origin.now)
        (tree_of mail.now)) }
{
    write_origin(out, origin)?;
    write_values(alloc, out, mail, known)?;
    write_word(out, key!("raw"))?;
    write_raw(alloc, out, mail)?;
    write_date(alloc, out, mail, known)?;
    write_ids(alloc, out, mail)?;
    let bounced = bounced_id(alloc, mail, parts)?;
    add_optional(out, key!("bounced_id"), bounced.as_deref())?;
    write_word(out, key!("recipients"))?;
    write_reported(alloc, out, mail, parts, options.decodes_bodies, known)?;
    Ok(())
}

/// Writes the members that are values of headers.
fn write_values<W: Write, K: KnownCharsets>(
    alloc: Global,
    out: &mut W,
    mail: &ParsedMail<'_>,
    known: &K,
) -> Result<(), Fault>
    ensures { AddsMembers (W.contents out.old) (W.contents out.new) result
        (values_members (K.known known.now) (root (tree_of mail.now))) }
{
    add_value(alloc, out, key!("subject"), mail, "Subject", known)?;
    write_addresses(alloc, out, mail, known)?;
    Ok(())
}

/// Adds a member with the value of the first header of this name.
fn add_value<W: Write, K: KnownCharsets>(
    alloc: Global,
    out: &mut W,
    key: &str,
    mail: &ParsedMail<'_>,
    header: &str,
    known: &K,
) -> Result<(), Fault>
    requires { is_key key.now ≡ true }
    ensures { AddsMember (W.contents out.old) (W.contents out.new) result key.now
        (value_or_null (K.known known.now) header.now (root (tree_of mail.now))) }
{
    let value = value_of(alloc, mail, header, known)?;
    add_optional(out, key, value.as_deref())
}

/// Writes the object of the raw values of addresses.
fn write_raw<W: Write>(alloc: Global, out: &mut W, mail: &ParsedMail<'_>) -> Result<(), Fault>
    ensures { Writes (W.contents out.old) (W.contents out.new) result
        (text_of (raw_values (root (tree_of mail.now)))) }
{
    add_raw(alloc, out, first_key!("from"), mail, "From")?;
    add_raw(alloc, out, key!("to"), mail, "To")?;
    add_raw(alloc, out, key!("cc"), mail, "Cc")?;
    add_raw(alloc, out, key!("bcc"), mail, "Bcc")?;
    add_raw(alloc, out, key!("reply_to"), mail, "Reply-To")?;
    add_raw(alloc, out, key!("sender"), mail, "Sender")?;
    write_word(out, "}")
}

/// Adds a member with the raw value of the first header of this name: each byte is the character of
/// its number.
fn add_raw<W: Write>(
    alloc: Global,
    out: &mut W,
    key: &str,
    mail: &ParsedMail<'_>,
    header: &str,
) -> Result<(), Fault>
    requires { is_key key.now ≡ true }
    ensures { AddsMember (W.contents out.old) (W.contents out.new) result key.now
        (raw_value header.now (root (tree_of mail.now))) }
{
    match mail.headers.get_first_header(header) {
        Some(header) => {
            let text = decode_latin1(alloc, header.get_value_raw())?;
            add_text(out, key, text.as_str())
        }
        None => add_null(out, key),
    }
}

/// Writes the members that are ids of headers.
fn write_ids<W: Write>(alloc: Global, out: &mut W, mail: &ParsedMail<'_>) -> Result<(), Fault>
    ensures { AddsMembers (W.contents out.old) (W.contents out.new) result
        (ids_members (root (tree_of mail.now))) }
{
    let any = ids_of(alloc, &mail.headers, "Message-ID", IdRule::Any)?;
    add_texts(out, key!("message_id"), any.as_slice())?;
    let answered = ids_of(alloc, &mail.headers, "In-Reply-To", IdRule::WithAt)?;
    add_texts(out, key!("in_reply_to"), answered.as_slice())?;
    let references = ids_of(alloc, &mail.headers, "References", IdRule::WithAt)?;
    add_texts(out, key!("references"), references.as_slice())?;
    Ok(())
}

/// Writes the date: its seconds, and whether its zone is unknown. Without a date it writes `null`,
/// and so for one that is refused, with the reason.
fn write_date<W: Write, K: KnownCharsets>(
    alloc: Global,
    out: &mut W,
    mail: &ParsedMail<'_>,
    known: &K,
) -> Result<(), Fault>
    ensures { AddsMembers (W.contents out.old) (W.contents out.new) result
        (date_members (option_map zoned_date_of
        (value_of (K.known known.now) (codes "Date") (root (tree_of mail.now))))) }
{
    let Some(date) = value_of(alloc, mail, "Date", known)? else {
        return add_null(out, key!("date"));
    };
    match zoned_date_of(date.as_str()) {
        Ok((seconds, is_zone_known)) => {
            add_seconds(out, key!("date"), seconds)?;
            write_zone(out, is_zone_known)?;
            Ok(())
        }
        Err(error) => {
            add_null(out, key!("date"))?;
            add_text(out, key!("date_error"), date_fault(error))?;
            Ok(())
        }
    }
}

/// Writes the member for an unknown zone of a date, or nothing if it is known.
fn write_zone<W: Write>(out: &mut W, is_known: bool) -> Result<(), Fault>
    ensures { AddsMembers (W.contents out.old) (W.contents out.new) result
        (zone_members is_known) }
{
    if is_known {
        return Ok(());
    }
    add_flag(out, key!("date_zone_unknown"), true)
}

/// Returns what is missing or wrong in a date, as `Display` shows it.
fn date_fault(error: DateError) -> &'static str
    ensures { result.now ≡ date_fault_text error }
{
    match error {
        DateError::Day => "no day of the month",
        DateError::Month => "no month",
        DateError::Year => "no year",
        DateError::Time => "no time of day",
        DateError::Zone => "no zone",
        DateError::TrailingText => "text after the zone",
    }
}
