//! The objects of the parts.
ghost use Rattle.std.specs.Prelude.{◌&&◌, ◌≡◌, codes, length, IfErr, IfOk, map, option_map};
ghost use Rattle.std.specs.Prelude.{◌||◌, not, string_bytes, true, Bool};
ghost use Rattle.std.specs.List.{AllByRecursion};
ghost use Rattle.json.specs.Json.{Json, string};
ghost use Rattle.mailparse.specs.Map.{text_found};
ghost use Rattle.mailparse.specs.Mail.{root};
ghost use Rattle.mailparse.specs.Outcome.{IsMemory};
ghost use Rattle.mailparse.specs.Views.{content_type, kind, tree_of};
ghost use Rattle.mail_read.specs.lenient.ContentViews.{content_view};
ghost use Rattle.mail_read.specs.lenient.Refused.{kept_for};
ghost use Rattle.mail_read.specs.PlaceViews.{place_view};
ghost use Rattle.mail_read.specs.Files.{is_leaf, is_shown};
ghost use Rattle.mail_data.specs.ReportViews.{block_view};
ghost use Rattle.mail_check.specs.Inside.{path_shown};
ghost use Rattle.mail_parts.specs.Part.{Lists, content_if};
ghost use Rattle.mail_json.specs.Part.{hash_of, html_shown, place_in, report_if, text_shown};
ghost use Rattle.mail_json.specs.Options.{options_of};
ghost use Rattle.mail_parts.specs.DecodedViews.{IsDecoded, decoded_place};
ghost use Rattle.mail_json_text.specs.LineViews.{line_bytes};
ghost use Rattle.mail_json_text.specs.Members.{AddsMembers, BeginsMembers};
ghost use Rattle.mail_program.specs.Fault.{IsEnd};
ghost use Rattle.mail_program.specs.Refusal.{refusal_text};
ghost use Rattle.mail_json_text.specs.Printed.{comma, listed, member_text, object_of, one, text_of};
ghost use Rattle.mail_json.specs.Values.{AreValues, IsPartValue, body_members, bounds_in};
ghost use Rattle.mail_json.specs.Values.{damaged_members, decoded_members, shown_members};
ghost use Rattle.mail_json.specs.Values.{disposition_members, header_value, no_text_members};
ghost use Rattle.mail_json.specs.Values.{parameter_member, refusal_members, size_members};
ghost use Rattle.mail_program.specs.Streams.{Writes};
ghost use Rattle.mail_json_text.specs.Written.{WritesOne};

use crate::body::encoding_name;
use crate::fields::{content_id, disposition_name};
use crate::lists::{ListItem, write_list};
use crate::options::LineOptions;
use crate::reports::write_report;
use crate::text_files::write_text_files;
use mail_codec::charset::decode_latin1;
use mail_data::flowed::unflowed_of;
use mail_data::reports::{Block, has_report, read_blocks};
use mail_html::{Links, References, html_text};
use mail_json_text::{
    LineBuffer, Position, add_flag, add_null, add_number, add_number_or_null, add_optional,
    add_text, first_key, key, memory_fault, write_comma, write_pair, write_text, write_word,
};
use mail_parts::{Decoded, is_attachment, is_read};
use mail_program::{Fault, refusal_of, sha256_text};
use mail_read::files::{is_leaf, is_shown};
use mail_read::lenient::{
    Content, charset_used, lenient_disposition, lenient_file_name, lenient_header_text_ref,
    lenient_text, refusal,
};
use mail_read::places::Place;
use mailparse::{
    DispositionType, KnownCharsets, MailHeader, MailParseError, ParsedContentType, ParsedMail,
};
use std::alloc::{AllocError, Global};
use std::io::Write;

/// The mail to which parts belong, and how they are shown.
#[derive_where(Clone, Copy)]
pub(crate) struct Form<'f, 'r, K> {
    /// The path of the part that contains the mail, or `None` for the mail itself.
    pub inside: Option<&'f str>,
    /// The offset in the input at which the mail begins, or `None` if it is encoded.
    pub start: Option<usize>,
    /// How its parts are shown.
    pub options: LineOptions<'r>,
    /// The charsets in which they are read.
    pub known: &'f K,
}

/// Writes the objects of parts of a mail, the first one of which comes at this position of the list
/// of all objects. It is not inlined, so that mails inside one another need less stack.
#[inline(never)]
pub(crate) fn write_found<W: Write, K: KnownCharsets>(
    alloc: Global,
    out: &mut W,
    parts: &[Decoded<'_, '_, '_>],
    first: Position,
    form: Form<'_, '_, K>,
) -> Result<(), Fault>
    requires { AllByRecursion (IsDecoded form.options.decodes_bodies) parts.now }
    ensures { WritesOne (W.contents out.old) (W.contents out.new) result
        (listed text_of (comma first)) (AreValues
        (IsPartValue (options_of (K.known form.entry.known.now) form.entry.options)
        (option_map (λ path. path.now) form.entry.inside) form.entry.start)
        (map decoded_place parts.now)) }
{
    let mut position = first;
    for part in parts {
        write_comma(out, position)?;
        write_part(alloc, out, part, form)?;
        position = Position::Later;
    }
    Ok(())
}

/// Writes the object of a part, without its parts.
pub(crate) fn write_part<W: Write, K: KnownCharsets>(
    alloc: Global,
    out: &mut W,
    part: &Decoded<'_, '_, '_>,
    form: Form<'_, '_, K>,
) -> Result<(), Fault>
    requires { IsDecoded form.options.decodes_bodies part.now }
    ensures { WritesOne (W.contents out.old) (W.contents out.new) result text_of
        (IsPartValue (options_of (K.known form.entry.known.now) form.entry.options)
        (option_map (λ path. path.now) form.entry.inside) form.entry.start
        (decoded_place part.now)) }
{
    let object = object_of(alloc, part, form)?;
    out.write_all(object.as_slice())?;
    Ok(())
}

/// Returns the object of a part, without its parts.
fn object_of<K: KnownCharsets>(
    alloc: Global,
    part: &Decoded<'_, '_, '_>,
    form: Form<'_, '_, K>,
) -> Result<LineBuffer, Fault>
    requires { IsDecoded form.options.decodes_bodies part.now }
    ensures written { IfOk result (λ line. (value : Json) × IsPartValue
        (options_of (K.known form.entry.known.now) form.entry.options)
        (option_map (λ path. path.now) form.entry.inside) form.entry.start (decoded_place part.now)
        value × (line_bytes line ≡ text_of value)) }
    ensures failed { IfErr result IsEnd }
{
    let mut line = LineBuffer::new(alloc)?;
    match write_object(alloc, &mut line, part, form) {
        Ok(()) => Ok(line),
        Err(fault) => Err(memory_fault(fault)),
    }
}

/// Writes the object of a part, without its parts, member by member.
fn write_object<W: Write, K: KnownCharsets>(
    alloc: Global,
    out: &mut W,
    decoded: &Decoded<'_, '_, '_>,
    form: Form<'_, '_, K>,
) -> Result<(), Fault>
    requires { IsDecoded form.options.decodes_bodies decoded.now }
    ensures { WritesOne (W.contents out.old) (W.contents out.new) result text_of
        (IsPartValue (options_of (K.known form.entry.known.now) form.entry.options)
        (option_map (λ path. path.now) form.entry.inside) form.entry.start
        (decoded_place decoded.now)) }
{
    let (place, content) = (decoded.place, &decoded.content);
    let part = place.part;
    let (options, known) = (form.options, form.known);
    add_path(alloc, out, form.inside, place.path.as_str())?;
    add_optional(out, key!("inside"), form.inside)?;
    add_text(out, key!("type"), part.ctype.mimetype.as_str())?;
    add_text(out, key!("charset"), part.ctype.charset.as_str())?;
    write_word(out, key!("params"))?;
    write_params(out, &part.ctype)?;
    let disposition = lenient_disposition(alloc, part, known)?;
    let name = lenient_file_name(alloc, part, known)?;
    let attached = is_attachment(part, &disposition, &name);
    let extracted = is_extracted(part, attached);
    write_disposition(alloc, out, part, &disposition, &name)?;
    add_flag(out, key!("attachment"), attached)?;
    add_flag(out, key!("extracted"), extracted)?;
    add_text(out, key!("encoding"), encoding_name(&decoded.body))?;
    write_bounds(out, place, form.start)?;
    add_number(out, key!("size"), decoded.body.get_raw().len())?;
    write_refusal(alloc, out, part)?;
    write_decoded_size(alloc, out, content)?;
    let hash = hash_of(alloc, content, is_hashed(options.hashes, extracted))?;
    add_optional(out, key!("sha256"), hash.as_deref())?;
    let report = report_if(alloc, part, content, known)?;
    write_word(out, key!("report"))?;
    write_report(alloc, out, &report, known)?;
    write_text_files(alloc, out, place, content, extracted, options)?;
    write_word(out, key!("headers"))?;
    write_list(alloc, out, part.headers.as_slice(), known)?;
    let shown = is_read(part, &disposition);
    write_part_text(alloc, out, content, part, shown, options, known)?;
    write_word(out, "}")
}

/// Adds the path of a part of a mail that is inside the part with the path `inside`, or in none. A
/// mail inside that has parts is part `0` there, since IMAP has one name for it and that part.
fn add_path<W: Write>(
    alloc: Global,
    out: &mut W,
    inside: Option<&str>,
    path: &str,
) -> Result<(), Fault>
    ensures { BeginsMembers (W.contents out.old) (W.contents out.new) result (one (codes "path")
        (string (path_shown (option_map (λ inside. inside.now) inside.entry) path.now))) }
{
    match inside {
        Some(inside) if path == inside => {
            let path = format!(in alloc; "{path}.0")?;
            add_text(out, first_key!("path"), path.as_str())
        }
        _ => add_text(out, first_key!("path"), path),
    }
}

/// Writes the offsets of a part of a mail that begins at this offset, or is encoded.
fn write_bounds<W: Write>(
    out: &mut W,
    place: &Place<'_, '_>,
    start: Option<usize>,
) -> Result<(), Fault>
    ensures { let whole = (place_view place.now).placement.whole in
        AddsMembers (W.contents out.old) (W.contents out.new) result
        (bounds_in start whole.start whole.end) }
{
    add_number_or_null(out, key!("start"), place_in(start, place.byte_range.start))?;
    add_number_or_null(out, key!("end"), place_in(start, place.byte_range.end))?;
    Ok(())
}

/// Writes the refusal of a part that was kept, or `null` for any other part.
fn write_refusal<W: Write>(alloc: Global, out: &mut W, part: &ParsedMail<'_>) -> Result<(), Fault>
    ensures { AddsMembers (W.contents out.old) (W.contents out.new) result
        (refusal_members (root (tree_of part.now))) }
{
    let text = refusal_shown(alloc, part)?;
    add_optional(out, key!("refusal"), text.as_deref())?;
    Ok(())
}

/// Returns the text of the refusal of a part that was kept, or `None` for any other part.
fn refusal_shown(alloc: Global, part: &ParsedMail<'_>) -> Result<Option<String>, AllocError>
    ensures { IfOk result (λ text. text_found text
        ≡ option_map refusal_text (kept_for (root (tree_of part.now)))) }
{
    match refusal(alloc, part)? {
        Some(error) => refusal_of(alloc, &error),
        None => Ok(None),
    }
}

/// Returns whether a part is saved when the files of a mail are extracted.
fn is_extracted(part: &ParsedMail<'_>, is_attachment: bool) -> bool
    ensures { let tree = tree_of part.now in
        result ≡ ((is_leaf tree && not (is_shown (root tree))) || is_attachment) }
{
    (is_leaf(part) && !is_shown(part)) || is_attachment
}

/// Returns whether a part has its hash: one that is extracted has, if hashes are asked for.
fn is_hashed(hashes: bool, is_extracted: bool) -> bool
    ensures { result ≡ (hashes && is_extracted) }
{
    hashes && is_extracted
}

/// Returns the blocks of a report that a part with this content is, or `None` if bodies are not
/// decoded.
fn report_if<K: KnownCharsets>(
    alloc: Global,
    part: &ParsedMail<'_>,
    content: &Option<Content<'_>>,
    known: &K,
) -> Result<Option<Vec<Block>>, MailParseError>
    ensures read { let node = root (tree_of part.now) in
        (decodes : Bool) → option_map content_view content.now ≡ content_if decodes node →
        IfOk result (λ found. option_map (λ blocks. map block_view blocks.items) found
        ≡ report_if (K.known known.now) decodes node) }
    ensures only_memory { IfErr result IsMemory }
{
    let Some(content) = content else {
        return Ok(None);
    };
    if !has_report(part) {
        return Ok(None);
    }
    Ok(Some(read_blocks(alloc, content.bytes.as_slice(), known)?))
}

/// Returns an offset in the input by the offset `at` in a mail that begins at `start`, or `None` if
/// the mail is encoded.
pub(crate) fn place_in(start: Option<usize>, at: usize) -> Option<usize>
    ensures { result ≡ place_in start at }
{
    Some(start?.saturating_add(at))
}

/// Writes the object of the parameters of a type.
fn write_params<W: Write>(out: &mut W, ctype: &ParsedContentType) -> Result<(), Fault>
    ensures { WritesOne (W.contents out.old) (W.contents out.new) result
        (λ pairs. text_of (object_of (map parameter_member pairs)))
        (Lists (content_type ctype.now).params) }
{
    write_word(out, "{")?;
    let mut position = Position::First;
    for (name, value) in &ctype.params {
        write_comma(out, position)?;
        write_parameter(out, name.as_str(), value.as_str())?;
        position = Position::Later;
    }
    write_word(out, "}")
}

/// Writes a parameter as a member.
fn write_parameter<W: Write>(out: &mut W, name: &str, value: &str) -> Result<(), Fault>
    ensures { Writes (W.contents out.old) (W.contents out.new) result
        (member_text (parameter_member (name.now, value.now))) }
{
    write_text(out, name)?;
    write_word(out, ":")?;
    write_text(out, value)
}

/// Writes the disposition, the name of the file, and the id of the content.
fn write_disposition<W: Write>(
    alloc: Global,
    out: &mut W,
    part: &ParsedMail<'_>,
    disposition: &Option<DispositionType>,
    name: &Option<String>,
) -> Result<(), Fault>
    ensures { AddsMembers (W.contents out.old) (W.contents out.new) result
        (disposition_members (option_map kind disposition.now) (text_found name.now)
        (root (tree_of part.now))) }
{
    let id = content_id(alloc, part)?;
    add_optional(out, key!("disposition"), disposition_name(disposition))?;
    add_optional(out, key!("file_name"), name.as_deref())?;
    add_optional(out, key!("content_id"), id.as_deref())?;
    Ok(())
}

/// Writes the size of the decoded body. If it is refused, writes `null` and the reason; if it is
/// not decoded, writes `null`.
fn write_decoded_size<W: Write>(
    alloc: Global,
    out: &mut W,
    content: &Option<Content<'_>>,
) -> Result<(), Fault>
    ensures { AddsMembers (W.contents out.old) (W.contents out.new) result
        (decoded_members (option_map content_view content.now)) }
{
    match content {
        None => add_null(out, key!("decoded_size")),
        Some(content) => write_size(alloc, out, content),
    }
}

/// Writes the size of the decoded body. If it is refused, writes `null` and the reason.
pub(crate) fn write_size<W: Write>(
    alloc: Global,
    out: &mut W,
    content: &Content<'_>,
) -> Result<(), Fault>
    ensures { let content = content_view content.now in
        AddsMembers (W.contents out.old) (W.contents out.new) result
        (size_members content.fault (length content.bytes)) }
{
    match content.fault {
        None => add_number(out, key!("decoded_size"), content.bytes.len()),
        Some(fault) => {
            let text = refusal_of(alloc, &MailParseError::from(fault))?;
            add_null(out, key!("decoded_size"))?;
            add_optional(out, key!("error"), text.as_deref())?;
            Ok(())
        }
    }
}

/// Returns the hash of a content, or `None` if it is not wanted or not decoded.
fn hash_of(
    alloc: Global,
    content: &Option<Content<'_>>,
    is_wanted: bool,
) -> Result<Option<String>, AllocError>
    ensures { IfOk result (λ hash.
        text_found hash ≡ hash_of is_wanted (option_map content_view content.now)) }
{
    if !is_wanted {
        return Ok(None);
    }
    match content {
        None => Ok(None),
        Some(content) => Ok(Some(sha256_text(alloc, content.bytes.as_slice())?)),
    }
}

/// Writes the members of the text of a part, or `null` if it is not shown or not decoded.
fn write_part_text<W: Write, K: KnownCharsets>(
    alloc: Global,
    out: &mut W,
    content: &Option<Content<'_>>,
    part: &ParsedMail<'_>,
    is_read: bool,
    options: LineOptions<'_>,
    known: &K,
) -> Result<(), Fault>
    ensures { let node = root (tree_of part.now) in
        let options = options_of (K.known known.now) options.entry in
        option_map content_view content.now ≡ content_if options.decodes_bodies node →
        AddsMembers (W.contents out.old) (W.contents out.new) result
        (body_members options.known options.joins_flowed options.html is_read node.ctype
        (content_if options.decodes_bodies node)) }
{
    let Some(content) = content else {
        return write_no_text(out);
    };
    write_body_text(alloc, out, content, &part.ctype, is_read, options, known)
}

/// Writes the members of a text that is not shown or not decoded.
fn write_no_text<W: Write>(out: &mut W) -> Result<(), Fault>
    ensures { AddsMembers (W.contents out.old) (W.contents out.new) result no_text_members }
{
    add_null(out, key!("text"))?;
    add_null(out, key!("html_text"))?;
    Ok(())
}

/// Writes the members of the text of a body, or `null` if it is not shown: the text, with each
/// flowed paragraph as one line if that is wanted, the text of its HTML, the charset in which it is
/// read, and whether the body is damaged.
fn write_body_text<W: Write, K: KnownCharsets>(
    alloc: Global,
    out: &mut W,
    content: &Content<'_>,
    ctype: &ParsedContentType,
    is_read: bool,
    options: LineOptions<'_>,
    known: &K,
) -> Result<(), Fault>
    ensures { let options = options_of (K.known known.now) options.entry in
        AddsMembers (W.contents out.old) (W.contents out.new) result
        (shown_members options.known options.joins_flowed options.html is_read
        (content_type ctype.now) (content_view content.now)) }
{
    if !is_read {
        return write_no_text(out);
    }
    let bytes = content.bytes.as_slice();
    let text = lenient_text(alloc, bytes, ctype, known)?;
    let shown = text_shown(alloc, ctype, text, options.joins_flowed)?;
    add_text(out, key!("text"), shown.as_str())?;
    let html = html_shown(alloc, ctype, shown.as_str(), options.html)?;
    add_optional(out, key!("html_text"), html.as_deref())?;
    add_text(out, key!("text_charset"), charset_used(bytes, ctype, known))?;
    write_damaged(out, content.fault.is_some())?;
    Ok(())
}

/// Returns the text of HTML without the targets of its links if a text of this type is HTML, and
/// references are given.
fn html_shown(
    alloc: Global,
    ctype: &ParsedContentType,
    text: &str,
    references: Option<&References<'_>>,
) -> Result<Option<String>, AllocError>
    ensures { IfOk result (λ shown. text_found shown ≡ html_shown
        (option_map (λ references. references.now) references.entry) (content_type ctype.now)
        text.now) }
{
    let Some(references) = references else {
        return Ok(None);
    };
    if ctype.mimetype.as_str() != "text/html" {
        return Ok(None);
    }
    Ok(Some(html_text(alloc, text, Links::Omitted, references)?))
}

/// Returns a text of this type as it is shown: with each flowed paragraph as one line, if that is
/// wanted.
fn text_shown(
    alloc: Global,
    ctype: &ParsedContentType,
    text: String,
    joins_flowed: bool,
) -> Result<String, AllocError>
    ensures { IfOk result (λ shown.
        string_bytes shown ≡ text_shown joins_flowed (content_type ctype.now) (string_bytes text)) }
{
    if joins_flowed {
        return unflowed_of(alloc, ctype, text);
    }
    Ok(text)
}

/// Writes the member for a damaged body, or nothing if it is not damaged.
fn write_damaged<W: Write>(out: &mut W, is_damaged: bool) -> Result<(), Fault>
    ensures { AddsMembers (W.contents out.old) (W.contents out.new) result
        (damaged_members is_damaged) }
{
    if !is_damaged {
        return Ok(());
    }
    add_flag(out, key!("damaged"), true)
}

impl ListItem for MailHeader<'_> {
    ghost value = { λ known header. header_value known header };

    /// Writes the header as a pair of its name and its value.
    fn write_item<W: Write, K: KnownCharsets>(
        &self,
        alloc: Global,
        out: &mut W,
        known: &K,
    ) -> Result<(), Fault> {
        let key = decode_latin1(alloc, self.get_key_raw())?;
        let value = lenient_header_text_ref(alloc, self.get_value_raw(), known)?;
        write_pair(out, key.as_str(), value.as_str())
    }
}
