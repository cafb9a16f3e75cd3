//! The findings of a mail.
ghost use Rattle.std.specs.Prelude.{◌≡◌, ◌++◌, ◌<◌, ◌||◌, ◌==◌, ◌∷◌, if◌then◌else◌, [], flat_map};
ghost use Rattle.std.specs.Prelude.{length, map, string_bytes, IfErr, IfOk, Ok, OnOk, Some};
ghost use Rattle.mailparse.specs.Body.{BodyKind};
ghost use Rattle.mailparse.specs.BodyViews.{Content, IsBody, content_of};
ghost use Rattle.mailparse.specs.Mail.{body_kind, root, shown_as};
ghost use Rattle.mailparse.specs.Outcome.{AnswersOrMemory, IsMemory};
ghost use Rattle.mailparse.specs.Views.{disposition, placements_of, tree_of};
ghost use Rattle.mail_read.specs.InnerMails.{dot_count};
ghost use Rattle.mail_read.specs.PlaceViews.{place_view};
ghost use Rattle.mail_check.specs.FindingViews.{finding_view, spot_view};
ghost use Rattle.mail_check.specs.Findings.{base64_findings, block_findings, body_findings, byte_findings};
ghost use Rattle.mail_check.specs.Findings.{delimiter_findings, file_line, first_findings};
ghost use Rattle.mail_check.specs.Findings.{encoded_findings, extended_name, file_findings, finding_at};
ghost use Rattle.mail_check.specs.Findings.{findings_from, header_findings, is_far};
ghost use Rattle.mail_check.specs.Findings.{leaf_findings, line_findings, listed, listed_if};
ghost use Rattle.mail_check.specs.Findings.{message_findings, multipart_findings};
ghost use Rattle.mail_check.specs.Findings.{parameter_findings};
ghost use Rattle.mail_check.specs.Findings.{has_none, is_single, quoted_findings, repeated};
ghost use Rattle.mail_check.specs.Findings.{name_findings, repeated_findings, spot_in};
ghost use Rattle.mail_check.specs.Findings.{spot_of_body, strict_findings, value_findings};
ghost use Rattle.mail_check.specs.Findings.{text_findings, type_findings};
ghost use Rattle.mail_check.specs.Findings.{word_findings, word_name, worded_findings};
ghost use Rattle.mail_check.specs.Inside.{all_findings};
ghost use Rattle.mail_check.specs.LineViews.{line_view};
ghost use Rattle.mail_codec.specs.Ascii.{colon};
ghost use Rattle.mail_codec.specs.Places.{byte_place};
ghost use Rattle.mail_check.specs.Lines.{has_blank_fold, has_comment_fold, header_lines};
ghost use Rattle.mail_check.specs.Lines.{second_named, single_names};
ghost use Rattle.mail_check.specs.declared.names.Name.TheVariants.{BlankFold, CommentFold};
ghost use Rattle.mail_check.specs.declared.names.Name.TheVariants.{NameAddress, Preamble, Refused};
ghost use Rattle.mail_check.specs.declared.names.Name.TheVariants.{Uuencode};
ghost use Rattle.mail_check.specs.Parameters.{has_extended, has_quoted_special, parameter_names};
ghost use Rattle.mail_check.specs.Words.{is_bad_name};
ghost use Rattle.mail_check.specs.Multiparts.{dash_of};
ghost use Rattle.mail_check.specs.private.Tested.{has_tested_value};
ghost use Rattle.mail_check.specs.private.Delimiters.{AreFirst, part_findings_with};

use crate::bodies::is_base64_lines;
use crate::file_names::{has_two_names, has_unsafe_name, has_untyped_name};
use crate::hidden_bits::spare_bits;
use crate::inside::push_inside;
use crate::line_tests::{file_line, long_line};
use crate::lines::{
    HeaderLine, ends_block, has_blank_fold, has_comment_fold, has_high_value, has_repeated,
    header_lines, is_bad_encoding, is_bad_key, is_encoding, is_folded, is_named, second_named,
};
use crate::multipart::{
    FirstDelimiters, begins_type, dash_of, first_delimiters, is_bad_boundary, is_composite,
    is_other_message, late_delimiter,
};
use crate::names::{Class, Name};
use crate::parameter_names::{StrictValue, has_other_name, has_repeat, strict_value};
use crate::parameters::{has_parameters, has_quoted_pair, has_word, is_type};
use crate::scan::{
    Pattern, control_byte, earlier, end_blank, first_match, from_offset, has_even_ends, high_byte,
    later, odd_escapes,
};
use crate::senders::is_bad_sender;
use crate::texts::has_bad_text;
use crate::word_bytes::has_bad_word;
use crate::words::{has_bad_piece, has_join, is_bad_name, is_worded, pieces};
use mail_codec::bytescan::{find_byte, find_either};
use mail_codec::charset::KnownCharsets;
use mail_read::files::is_leaf;
use mail_read::places::{Place, places};
use mailparse::body::Body;
use mailparse::{MAX_LEVELS, MailParseError, ParsedContentDisposition, ParsedMail};
use std::alloc::{AllocError, Global};
use std::ops::Range;

/// A place of a mail at which programs may read something else, as `findings` returns it.
#[derive(Debug, Drop)]
pub struct Finding {
    /// What is found.
    pub name: Name,
    /// The class of the name.
    pub class: Class,
    /// The bytes at which it is found, as a range of the mail that was parsed, counted from 0.
    pub range: Range<usize>,
    /// The path of the part, as IMAP numbers parts (RFC 3501, section 6.4.5): `2.1` is the first
    /// part of the second part. The path of the whole mail is `1`, that of its body, if it has no
    /// parts, and otherwise empty. A mail with parts that the second part forwards is `2.0`.
    pub path: String,
}

/// Where findings may be.
#[derive(Clone, Copy)]
struct Spot<'p> {
    /// The path of the part.
    path: &'p str,
    /// An offset of the mail.
    start: usize,
    /// The number of bytes that a finding has.
    size: usize,
}

/// Returns the findings of a mail: where programs may read something else than `parse_mail` does
/// (RFC 5322, sections 2 and 3; RFC 2045, section 6; RFC 2046, sections 5.1 and 5.2.1). Encoded
/// words and texts are read in the charsets `known` (RFC 2047, section 2; RFC 2046, section 4.1.2).
///
/// They are listed for the mail and each of its parts, in the order in which these appear, each
/// before its own parts. First come line ends, NUL bytes and long lines of the whole mail, then for
/// each message its headers, its delimiters and its body. What may occur at many places of a mail,
/// a header or a body is reported once, where it first occurs.
///
/// The findings of the mails that messages forward follow, each with those of the mails inside it. A
/// mail inside is read as a whole mail is, if it is not encoded; it is refused if it has more than
/// `mail_read::reading::DEFAULT_LIMIT` messages, parts and headers. The time is linear in the bytes,
/// times the levels. Allocates the findings, their paths, the mails inside, and for each message a
/// list of its headers, its boundary and its text.
///
/// # Errors
///
/// `MailParseError::Memory` if it runs out of memory.
///
/// # Examples
///
/// ```rust
/// use mail_check::{Name, findings};
/// use mailparse::parse_mail;
///
/// let mail = parse_mail(alloc, b"Subject: a\nSubject: b\n\nHi\n")?;
/// let found = findings(alloc, &mail, &())?;
/// assert_eq!(rt; found.len(), 1);
/// assert!(rt; found[0].name == Name::Duplicate);
/// assert_eq!(rt; found[0].range, 11..22);
/// ```
#[tactic(auto, unfolding(crate::specs::Findings::findings, crate::specs::Inside::all_findings))]
pub fn findings<K: KnownCharsets>(
    alloc: Global,
    mail: &ParsedMail<'_>,
    known: &K,
) -> Result<Vec<Finding>, MailParseError>
    ensures { AnswersOrMemory (λ found. map finding_view found.items) result
        (Ok (all_findings (K.known known.now) (tree_of mail.now) (placements_of mail.now))) }
{
    let messages = places(alloc, mail)?;
    let mut found = Vec::new(alloc);
    push_messages(alloc, &mut found, messages.as_slice(), known)?;
    push_inside(alloc, &mut found, messages.as_slice(), MAX_LEVELS, known)?;
    Ok(found)
}

/// Appends the findings of the messages of a mail. It is not inlined, so that mails inside one
/// another need less stack.
#[inline(never)]
pub(crate) fn push_messages<K: KnownCharsets>(
    alloc: Global,
    found: &mut Vec<Finding>,
    messages: &[Place<'_, '_>],
    known: &K,
) -> Result<(), MailParseError>
    ensures written { OnOk result (map finding_view found.new.items
        ≡ map finding_view found.old.items
        ++ findings_from (K.known known.now) 0 (map place_view messages.now)) }
    ensures only_memory { IfErr result IsMemory }
{
    let mut number = 0;
    for place in messages {
        push_message(alloc, found, place, number, known)?;
        number += 1;
    }
    Ok(())
}

/// Appends the findings of a message, given how many come before it.
fn push_message<K: KnownCharsets>(
    alloc: Global,
    found: &mut Vec<Finding>,
    place: &Place<'_, '_>,
    number: usize,
    known: &K,
) -> Result<(), MailParseError>
    ensures written { OnOk result (map finding_view found.new.items
        ≡ map finding_view found.old.items
        ++ message_findings (K.known known.now) number (place_view place.now)) }
    ensures only_memory { IfErr result IsMemory }
{
    push_first(alloc, found, place, number)?;
    let spot = spot_in(place, 0, place.part.raw_bytes.len());
    push_if(alloc, found, &spot, Name::Many, is_far(number, place))?;
    push_block(alloc, found, place, number, known)?;
    push_files(alloc, found, place)?;
    push_multipart(alloc, found, place)?;
    push_leaf(alloc, found, place, known)
}

/// Appends the findings of the bytes of the whole mail, if no message comes before this one.
fn push_first(
    alloc: Global,
    found: &mut Vec<Finding>,
    place: &Place<'_, '_>,
    number: usize,
) -> Result<(), AllocError>
    ensures { OnOk result (map finding_view found.new.items
        ≡ map finding_view found.old.items
        ++ (if number == 0
        then first_findings (spot_in (place_view place.now) 0 1)
        (root (tree_of place.now.part.now)).bytes
        else [])) }
{
    if number > 0 {
        return Ok(());
    }
    let spot = spot_in(place, 0, 1);
    push_bytes(alloc, found, &spot, place.part.raw_bytes)?;
    let long = long_line(place.part.raw_bytes);
    push_at(alloc, found, &spot, Name::LongLine, long)
}

/// Appends the findings of line ends and NUL bytes. Most mails have neither a NUL nor a CR, or each
/// line ends in a CR and a LF.
fn push_bytes(
    alloc: Global,
    found: &mut Vec<Finding>,
    spot: &Spot<'_>,
    bytes: &[u8],
) -> Result<(), AllocError>
    ensures { OnOk result (map finding_view found.new.items
        ≡ map finding_view found.old.items ++ byte_findings (spot_view spot.now) bytes.now) }
{
    if find_either(bytes, 0, b'\r').is_none() {
        return Ok(());
    }
    push_at(
        alloc,
        found,
        spot,
        Name::Nul,
        first_match(Pattern::Nul, bytes),
    )?;
    if has_even_ends(bytes) {
        return Ok(());
    }
    push_at(
        alloc,
        found,
        spot,
        Name::LoneCr,
        first_match(Pattern::LoneReturn, bytes),
    )?;
    let mixed = later(
        first_match(Pattern::ReturnFeed, bytes),
        first_match(Pattern::BareLineFeed, bytes),
    );
    push_at(alloc, found, spot, Name::MixedLineEnds, mixed)
}

/// Returns whether a part is nested 10 levels deep, or 100 messages come before it.
fn is_far(number: usize, place: &Place<'_, '_>) -> bool
    ensures { result ≡ is_far number (place_view place.now) }
{
    number == 100 || dot_count(place.path.as_str()) == 9
}

/// Returns the number of dots in a path.
#[tactic(auto, unfolding(mail_read::specs::InnerMails::dot_count))]
fn dot_count(path: &str) -> usize
    ensures { result ≡ dot_count path.now }
{
    path.as_bytes().iter().filter(|byte| **byte == b'.').count()
}

/// Appends the findings of the headers of a message, given how many come before it.
fn push_block<K: KnownCharsets>(
    alloc: Global,
    found: &mut Vec<Finding>,
    place: &Place<'_, '_>,
    number: usize,
    known: &K,
) -> Result<(), AllocError>
    ensures { OnOk result (map finding_view found.new.items
        ≡ map finding_view found.old.items
        ++ block_findings (K.known known.now) number (place_view place.now)
        (header_lines (root (tree_of place.now.part.now)))) }
{
    let lines = header_lines(alloc, place.part)?;
    push_headers(alloc, found, place, number, lines.as_slice(), known)
}

/// Appends the findings of these headers of a message, given how many come before it.
fn push_headers<K: KnownCharsets>(
    alloc: Global,
    found: &mut Vec<Finding>,
    place: &Place<'_, '_>,
    number: usize,
    lines: &[HeaderLine<'_>],
    known: &K,
) -> Result<(), AllocError>
    ensures { OnOk result (map finding_view found.new.items
        ≡ map finding_view found.old.items
        ++ block_findings (K.known known.now) number (place_view place.now)
        (map line_view lines.now)) }
{
    let spot = spot_in(place, 0, 0);
    push_if(alloc, found, &spot, Name::NoHeaders, has_none(lines))?;
    push_lines(alloc, found, place, number, lines, known)?;
    push_repeated(alloc, found, place, lines)
}

/// Returns whether there is no header.
#[tactic(auto, using(crate::proofs::lemmas::Lines::none_counted))]
fn has_none(lines: &[HeaderLine<'_>]) -> bool
    ensures { result ≡ has_none (map line_view lines.now) }
{
    lines.is_empty()
}

/// Appends the findings of each header of a message, given how many come before it.
fn push_lines<K: KnownCharsets>(
    alloc: Global,
    found: &mut Vec<Finding>,
    place: &Place<'_, '_>,
    number: usize,
    lines: &[HeaderLine<'_>],
    known: &K,
) -> Result<(), AllocError>
    ensures { OnOk result (map finding_view found.new.items
        ≡ map finding_view found.old.items
        ++ flat_map (header_findings (K.known known.now) number (place_view place.now))
        (map line_view lines.now)) }
{
    for line in lines {
        push_header(alloc, found, place, number, line, known)?;
    }
    Ok(())
}

/// Appends the findings of one header of a message, given how many come before it. The values of
/// most headers are not tested.
fn push_header<K: KnownCharsets>(
    alloc: Global,
    found: &mut Vec<Finding>,
    place: &Place<'_, '_>,
    number: usize,
    line: &HeaderLine<'_>,
    known: &K,
) -> Result<(), AllocError>
    ensures { OnOk result (map finding_view found.new.items
        ≡ map finding_view found.old.items
        ++ header_findings (K.known known.now) number (place_view place.now) (line_view line.now)) }
{
    let spot = spot_in(place, line.start, line.bytes.len());
    let size = place.part.get_headers().get_raw_bytes().len();
    push_line(alloc, found, &spot, size, line)?;
    if !has_tested_value(line) {
        return Ok(());
    }
    push_parameters(alloc, found, &spot, line)?;
    push_type(alloc, found, &spot, place.part, line)?;
    let is_bad = number == 0 && is_bad_sender(line);
    push_if(alloc, found, &spot, Name::FromSyntax, is_bad)?;
    push_worded(alloc, found, &spot, line, known)
}

/// Returns whether a header is one whose value is tested: a type, a disposition, a transfer encoding,
/// a subject or a sender.
#[tactic(auto, unfolding(crate::specs::private::Tested::has_tested_value))]
fn has_tested_value(line: &HeaderLine<'_>) -> bool
    ensures { result ≡ has_tested_value (line_view line.now) }
{
    has_parameters(line) || is_named(b"Content-Transfer-Encoding", line) || is_worded(line)
}

/// Appends the findings of a header as a subject or a sender. One without a question mark has no
/// word, and is not cut into pieces.
fn push_worded<K: KnownCharsets>(
    alloc: Global,
    found: &mut Vec<Finding>,
    spot: &Spot<'_>,
    line: &HeaderLine<'_>,
    known: &K,
) -> Result<(), AllocError>
    ensures { OnOk result (map finding_view found.new.items
        ≡ map finding_view found.old.items
        ++ worded_findings (K.known known.now) (spot_view spot.now) (line_view line.now)) }
{
    if !is_worded(line) {
        return Ok(());
    }
    if find_byte(line.value, b'?').is_none() {
        return push_wordless(alloc, found, spot, line);
    }
    let pieces = pieces(alloc, line.value)?;
    push_words(alloc, found, spot, line, pieces.as_slice(), known)
}

/// Appends the findings of a subject or a sender without words.
fn push_wordless(
    alloc: Global,
    found: &mut Vec<Finding>,
    spot: &Spot<'_>,
    line: &HeaderLine<'_>,
) -> Result<(), AllocError>
    ensures { OnOk result (map finding_view found.new.items
        ≡ map finding_view found.old.items
        ++ listed_if (spot_view spot.now) NameAddress (is_bad_name (line_view line.now) [])) }
{
    let is_bad = is_bad_name(alloc, line, &[])?;
    push_if(alloc, found, spot, Name::NameAddress, is_bad)
}

/// Appends the findings of a subject or a sender with these pieces.
fn push_words<K: KnownCharsets>(
    alloc: Global,
    found: &mut Vec<Finding>,
    spot: &Spot<'_>,
    line: &HeaderLine<'_>,
    pieces: &[&[u8]],
    known: &K,
) -> Result<(), AllocError>
    ensures { OnOk result (map finding_view found.new.items
        ≡ map finding_view found.old.items
        ++ word_findings (K.known known.now) (spot_view spot.now) (line_view line.now)
        (map (λ piece. piece.now) pieces.now)) }
{
    push_if(alloc, found, spot, Name::WordSyntax, has_bad_piece(pieces))?;
    push_if(alloc, found, spot, Name::WordJoin, has_join(pieces))?;
    let has_bad = has_bad_word(alloc, pieces, known)?;
    push_if(alloc, found, spot, Name::WordBytes, has_bad)?;
    let is_bad = is_bad_name(alloc, line, pieces)?;
    push_if(alloc, found, spot, Name::NameAddress, is_bad)
}

/// Appends the findings of how a header is written, in a block of this size.
fn push_line(
    alloc: Global,
    found: &mut Vec<Finding>,
    spot: &Spot<'_>,
    size: usize,
    line: &HeaderLine<'_>,
) -> Result<(), AllocError>
    ensures { OnOk result (map finding_view found.new.items
        ≡ map finding_view found.old.items
        ++ line_findings (spot_view spot.now) size (line_view line.now)) }
{
    push_if(
        alloc,
        found,
        spot,
        Name::NoBlankLine,
        ends_block(size, line),
    )?;
    push_if(alloc, found, spot, Name::BadKey, is_bad_key(line))?;
    push_folds(alloc, found, spot, line)?;
    push_if(alloc, found, spot, Name::Header8bit, has_high_value(line))
}

/// Appends the findings of the folds of a header. Most headers have one line and no fold.
fn push_folds(
    alloc: Global,
    found: &mut Vec<Finding>,
    spot: &Spot<'_>,
    line: &HeaderLine<'_>,
) -> Result<(), AllocError>
    ensures { OnOk result (map finding_view found.new.items
        ≡ map finding_view found.old.items
        ++ (listed_if (spot_view spot.now) BlankFold (has_blank_fold (line_view line.now))
        ++ listed_if (spot_view spot.now) CommentFold (has_comment_fold (line_view line.now)))) }
{
    if !is_folded(line) {
        return Ok(());
    }
    push_if(alloc, found, spot, Name::BlankFold, has_blank_fold(line))?;
    push_if(
        alloc,
        found,
        spot,
        Name::CommentFold,
        has_comment_fold(line),
    )
}

/// Appends the findings of a header as a type or a disposition.
fn push_parameters(
    alloc: Global,
    found: &mut Vec<Finding>,
    spot: &Spot<'_>,
    line: &HeaderLine<'_>,
) -> Result<(), AllocError>
    ensures { OnOk result (map finding_view found.new.items
        ≡ map finding_view found.old.items
        ++ parameter_findings (spot_view spot.now) (line_view line.now)) }
{
    match strict_value(alloc, line)? {
        Some(value) => push_strict(alloc, found, spot, line, &value),
        None => push_if(alloc, found, spot, Name::TypeSyntax, has_parameters(line)),
    }
}

/// Appends the findings of a type or a disposition of the syntax that all programs know.
fn push_strict(
    alloc: Global,
    found: &mut Vec<Finding>,
    spot: &Spot<'_>,
    line: &HeaderLine<'_>,
    value: &StrictValue<'_>,
) -> Result<(), AllocError>
    requires special { value.now.has_quoted_special ≡ has_quoted_special value.now.bytes.now }
    requires extended { value.now.has_extended ≡ has_extended value.now.bytes.now }
    requires names { map string_bytes value.now.names.items ≡ parameter_names value.now.bytes.now }
    ensures { OnOk result (map finding_view found.new.items
        ≡ map finding_view found.old.items
        ++ strict_findings (spot_view spot.now) (line_view line.now)
        (Some value.now.bytes.now)) }
{
    push_value(alloc, found, spot, line, value)?;
    push_names(alloc, found, spot, line, value.names.as_slice())
}

/// Appends the findings of the names of the parameters of a type or a disposition.
fn push_names(
    alloc: Global,
    found: &mut Vec<Finding>,
    spot: &Spot<'_>,
    line: &HeaderLine<'_>,
    names: &[String],
) -> Result<(), AllocError>
    ensures { OnOk result (map finding_view found.new.items
        ≡ map finding_view found.old.items
        ++ name_findings (spot_view spot.now) (line_view line.now)
        (map string_bytes names.now)) }
{
    let repeats = has_repeat(alloc, names)?;
    push_if(alloc, found, spot, Name::DuplicateParameter, repeats)?;
    let has_other = has_other_name(line, names);
    push_if(alloc, found, spot, Name::TwoNames, has_other)
}

/// Appends the findings of the parameters of a type or a disposition of the syntax that all
/// programs know.
fn push_value(
    alloc: Global,
    found: &mut Vec<Finding>,
    spot: &Spot<'_>,
    line: &HeaderLine<'_>,
    value: &StrictValue<'_>,
) -> Result<(), AllocError>
    requires special { value.now.has_quoted_special ≡ has_quoted_special value.now.bytes.now }
    requires extended { value.now.has_extended ≡ has_extended value.now.bytes.now }
    ensures { OnOk result (map finding_view found.new.items
        ≡ map finding_view found.old.items
        ++ value_findings (spot_view spot.now) (line_view line.now) value.now.bytes.now) }
{
    let is_special = value.has_quoted_special;
    push_if(alloc, found, spot, Name::QuotedSpecial, is_special)?;
    let has_pair = has_quoted_pair(value.bytes);
    push_if(alloc, found, spot, Name::QuotedPair, has_pair)?;
    let is_extended = value.has_extended;
    push_if(alloc, found, spot, extended_name(line), is_extended)?;
    let has_word = has_word(value.bytes);
    push_if(alloc, found, spot, word_name(line), has_word)
}

/// Returns the name of an asterisk in the name of a parameter: in a type it may be that of the
/// boundary.
fn extended_name(line: &HeaderLine<'_>) -> Name
    ensures { result ≡ extended_name (line_view line.now) }
{
    if is_type(line) {
        Name::TypeExtended
    } else {
        Name::ExtendedParameter
    }
}

/// Returns the name of an encoded word in a parameter.
fn word_name(line: &HeaderLine<'_>) -> Name
    ensures { result ≡ word_name (line_view line.now) }
{
    if is_type(line) {
        Name::TypeWord
    } else {
        Name::WordParameter
    }
}

/// Appends the findings of what a header says of its message.
fn push_type(
    alloc: Global,
    found: &mut Vec<Finding>,
    spot: &Spot<'_>,
    part: &ParsedMail<'_>,
    line: &HeaderLine<'_>,
) -> Result<(), AllocError>
    ensures { OnOk result (map finding_view found.new.items
        ≡ map finding_view found.old.items
        ++ type_findings (spot_view spot.now) (root (tree_of part.now)).ctype
        (line_view line.now)) }
{
    push_if(
        alloc,
        found,
        spot,
        Name::EncodingSyntax,
        is_bad_encoding(line),
    )?;
    let encodes = is_encoding(line) && is_composite(part);
    push_if(alloc, found, spot, Name::EncodingOnComposite, encodes)?;
    let is_other = is_type(line) && is_other_message(part);
    push_if(alloc, found, spot, Name::OtherMessage, is_other)?;
    let is_bad = is_type(line) && is_bad_boundary(part);
    push_if(alloc, found, spot, Name::BadBoundary, is_bad)
}

/// The names of which a message has one header (RFC 5322, section 3.6; RFC 2045 and 2183).
const SINGLE_NAMES: [&str; 17] = [
    "Content-Type",
    "Content-Transfer-Encoding",
    "Content-Disposition",
    "Content-ID",
    "Content-Description",
    "MIME-Version",
    "From",
    "Sender",
    "Reply-To",
    "To",
    "Cc",
    "Bcc",
    "Date",
    "Subject",
    "Message-ID",
    "In-Reply-To",
    "References",
];

/// Appends the second header of each name that may occur once. Hardly a message has one, which one
/// pass over the headers shows.
fn push_repeated(
    alloc: Global,
    found: &mut Vec<Finding>,
    place: &Place<'_, '_>,
    lines: &[HeaderLine<'_>],
) -> Result<(), AllocError>
    ensures { OnOk result (map finding_view found.new.items
        ≡ map finding_view found.old.items
        ++ repeated_findings (place_view place.now) (map line_view lines.now) single_names) }
{
    if !has_repeated(lines) {
        return Ok(());
    }
    push_seconds(alloc, found, place, lines, &SINGLE_NAMES)
}

/// Appends the second header of each of these names.
fn push_seconds(
    alloc: Global,
    found: &mut Vec<Finding>,
    place: &Place<'_, '_>,
    lines: &[HeaderLine<'_>],
    names: &[&str],
) -> Result<(), AllocError>
    ensures { OnOk result (map finding_view found.new.items
        ≡ map finding_view found.old.items
        ++ repeated_findings (place_view place.now) (map line_view lines.now)
        (map (λ name. name.now) names.now)) }
{
    for name in names {
        push_second(alloc, found, place, name, lines)?;
    }
    Ok(())
}

/// Appends the second header with a name, if there is one.
fn push_second(
    alloc: Global,
    found: &mut Vec<Finding>,
    place: &Place<'_, '_>,
    name: &str,
    lines: &[HeaderLine<'_>],
) -> Result<(), AllocError>
    ensures { OnOk result (map finding_view found.new.items
        ≡ map finding_view found.old.items
        ++ repeated (place_view place.now) (second_named name.now (map line_view lines.now))) }
{
    match second_named(name.as_bytes(), lines) {
        Some(line) => {
            let spot = spot_in(place, line.start, line.bytes.len());
            push(alloc, found, &spot, Name::Duplicate, 0)
        }
        None => Ok(()),
    }
}

/// Appends the findings of the file names of a message.
fn push_files(
    alloc: Global,
    found: &mut Vec<Finding>,
    place: &Place<'_, '_>,
) -> Result<(), MailParseError>
    ensures written { let node = root (tree_of place.now.part.now) in
        OnOk result (map finding_view found.new.items ≡ map finding_view found.old.items
        ++ file_findings (spot_in (place_view place.now) 0 (length node.block))
        (shown_as node) node) }
    ensures only_memory { IfErr result IsMemory }
{
    let shown = place.part.get_content_disposition(alloc)?;
    let spot = spot_in(place, 0, place.part.get_headers().get_raw_bytes().len());
    push_shown(alloc, found, &spot, place.part, &shown)?;
    Ok(())
}

/// Appends the findings of the file names of a message, which is to be shown so.
fn push_shown(
    alloc: Global,
    found: &mut Vec<Finding>,
    spot: &Spot<'_>,
    part: &ParsedMail<'_>,
    shown: &ParsedContentDisposition,
) -> Result<(), AllocError>
    ensures { OnOk result (map finding_view found.new.items
        ≡ map finding_view found.old.items
        ++ file_findings (spot_view spot.now) (disposition shown.now)
        (root (tree_of part.now))) }
{
    push_if(
        alloc,
        found,
        spot,
        Name::NoType,
        has_untyped_name(shown, part),
    )?;
    push_if(
        alloc,
        found,
        spot,
        Name::TwoNames,
        has_two_names(shown, &part.ctype),
    )?;
    let is_unsafe = has_unsafe_name(alloc, shown, &part.ctype)?;
    push_if(alloc, found, spot, Name::UnsafeName, is_unsafe)
}

/// Appends the findings of a multipart with a boundary.
fn push_multipart(
    alloc: Global,
    found: &mut Vec<Finding>,
    place: &Place<'_, '_>,
) -> Result<(), MailParseError>
    ensures written { OnOk result (map finding_view found.new.items
        ≡ map finding_view found.old.items
        ++ multipart_findings (place_view place.now)
        (dash_of (root (tree_of place.now.part.now)).ctype)) }
    ensures only_memory { IfErr result IsMemory }
{
    let Some(dash) = dash_of(alloc, place.part)? else {
        return Ok(());
    };
    push_preamble(alloc, found, place)?;
    let size = place.part.get_headers().get_raw_bytes().len();
    let text = from_offset(place.part.raw_bytes, size);
    let first = first_delimiters(dash.as_slice(), text);
    push_parts(alloc, found, place, text, first.close)?;
    let spot = spot_in(place, size, dash.len());
    push_delimiters(alloc, found, &spot, dash.as_slice(), text, first)?;
    Ok(())
}

/// Appends the finding of the preamble of a multipart.
fn push_preamble(
    alloc: Global,
    found: &mut Vec<Finding>,
    place: &Place<'_, '_>,
) -> Result<(), MailParseError>
    ensures written { OnOk result (map finding_view found.new.items
        ≡ map finding_view found.old.items
        ++ listed (spot_of_body (place_view place.now) 1) Preamble
        (byte_place (root (tree_of place.now.part.now)).body colon)) }
    ensures only_memory { IfErr result IsMemory }
{
    let body = place.part.get_body_encoded(alloc)?;
    let spot = spot_of_body(place, 1);
    push_at(
        alloc,
        found,
        &spot,
        Name::Preamble,
        find_byte(body.get_raw(), b':'),
    )?;
    Ok(())
}

/// Appends the findings of whether a multipart has parts, and a close-delimiter after them.
fn push_parts(
    alloc: Global,
    found: &mut Vec<Finding>,
    place: &Place<'_, '_>,
    text: &[u8],
    close: Option<usize>,
) -> Result<(), AllocError>
    ensures { OnOk result (map finding_view found.new.items
        ≡ map finding_view found.old.items
        ++ part_findings_with (place_view place.now)
        (length (root (tree_of place.now.part.now)).block) text.now close) }
{
    let size = place.part.get_headers().get_raw_bytes().len();
    let has_none = is_leaf(place.part);
    let spot = spot_in(place, size, 0);
    push_if(alloc, found, &spot, Name::NoDelimiter, has_none)?;
    let spot = spot_in(place, size, text.len());
    push_if(
        alloc,
        found,
        &spot,
        Name::NoClose,
        !has_none && close.is_none(),
    )
}

/// Appends the findings of the delimiters in the text of a multipart.
fn push_delimiters(
    alloc: Global,
    found: &mut Vec<Finding>,
    spot: &Spot<'_>,
    dash: &[u8],
    text: &[u8],
    first: FirstDelimiters,
) -> Result<(), AllocError>
    requires some { 1 < length dash.now }
    requires first { AreFirst dash.now text.now first }
    ensures { OnOk result (map finding_view found.new.items
        ≡ map finding_view found.old.items
        ++ delimiter_findings (spot_view spot.now) dash.now text.now) }
{
    push_at(alloc, found, spot, Name::DelimiterInside, first.inside)?;
    push_at(alloc, found, spot, Name::DelimiterTail, first.tailed)?;
    let late = late_delimiter(dash, text, first);
    push_at(alloc, found, spot, Name::LateDelimiter, late)
}

/// Appends the findings of the body of a message without parts that is no multipart.
fn push_leaf<K: KnownCharsets>(
    alloc: Global,
    found: &mut Vec<Finding>,
    place: &Place<'_, '_>,
    known: &K,
) -> Result<(), MailParseError>
    ensures written { OnOk result (map finding_view found.new.items
        ≡ map finding_view found.old.items
        ++ leaf_findings (K.known known.now) (place_view place.now)) }
    ensures only_memory { IfErr result IsMemory }
{
    if is_single(place.part) {
        push_body(alloc, found, place, known)?;
    }
    Ok(())
}

/// Returns whether a message has no parts and is no multipart.
fn is_single(part: &ParsedMail<'_>) -> bool
    ensures { result ≡ is_single (tree_of part.now) }
{
    is_leaf(part) && !begins_type(b"multipart", part)
}

/// Appends the findings of the body of a message.
fn push_body<K: KnownCharsets>(
    alloc: Global,
    found: &mut Vec<Finding>,
    place: &Place<'_, '_>,
    known: &K,
) -> Result<(), MailParseError>
    ensures written { let node = root (tree_of place.now.part.now) in
        OnOk result (map finding_view found.new.items ≡ map finding_view found.old.items
        ++ body_findings (K.known known.now) (place_view place.now) node) }
    ensures only_memory { IfErr result IsMemory }
{
    let body = place.part.get_body_encoded(alloc)?;
    push_encoded(alloc, found, place, &body)?;
    push_text(alloc, found, place, body.get_raw(), known)?;
    Ok(())
}

/// Appends the findings of a body.
fn push_encoded(
    alloc: Global,
    found: &mut Vec<Finding>,
    place: &Place<'_, '_>,
    body: &Body<'_>,
) -> Result<(), AllocError>
    ensures { (kind : BodyKind) (given : Content) → IsBody kind given body.now →
        OnOk result (map finding_view found.new.items
        ≡ map finding_view found.old.items
        ++ encoded_findings (place_view place.now) kind given.raw) }
{
    let spot = spot_of_body(place, 1);
    match body {
        Body::Base64(base64) => push_base64(alloc, found, place, base64.get_raw()),
        Body::QuotedPrintable(quoted) => push_quoted(alloc, found, &spot, quoted.get_raw()),
        Body::SevenBit(text) => {
            push_at(
                alloc,
                found,
                &spot,
                Name::EightBitBody,
                high_byte(text.get_raw()),
            )
        }
        Body::EightBit(_) | Body::Binary(_) => Ok(()),
    }
}

/// Appends the findings of a body in Base64.
fn push_base64(
    alloc: Global,
    found: &mut Vec<Finding>,
    place: &Place<'_, '_>,
    raw: &[u8],
) -> Result<(), AllocError>
    ensures { OnOk result (map finding_view found.new.items
        ≡ map finding_view found.old.items ++ base64_findings (place_view place.now) raw.now) }
{
    if !is_base64_lines(raw) {
        let whole = spot_of_body(place, raw.len());
        return push(alloc, found, &whole, Name::Base64Syntax, 0);
    }
    let bits = spare_bits(raw);
    push_at(
        alloc,
        found,
        &spot_of_body(place, 4),
        Name::Base64Bits,
        bits,
    )
}

/// Appends the findings of the text of a message with this body: a file in it, and its charset.
fn push_text<K: KnownCharsets>(
    alloc: Global,
    found: &mut Vec<Finding>,
    place: &Place<'_, '_>,
    body: &[u8],
    known: &K,
) -> Result<(), MailParseError>
    ensures written { let node = root (tree_of place.now.part.now) in
        OnOk result (map finding_view found.new.items ≡ map finding_view found.old.items
        ++ text_findings (K.known known.now) (place_view place.now) node body.now) }
    ensures only_memory { IfErr result IsMemory }
{
    push_file(alloc, found, place, body)?;
    let is_bad = has_bad_text(alloc, place.part, known)?;
    let spot = spot_of_body(place, body.len());
    push_if(alloc, found, &spot, Name::Charset, is_bad)?;
    Ok(())
}

/// Appends the finding of a file in the text of a message with this body.
fn push_file(
    alloc: Global,
    found: &mut Vec<Finding>,
    place: &Place<'_, '_>,
    body: &[u8],
) -> Result<(), AllocError>
    ensures { OnOk result (map finding_view found.new.items
        ≡ map finding_view found.old.items
        ++ listed (spot_of_body (place_view place.now) 1) Uuencode
        (file_line (root (tree_of place.now.part.now)).ctype body.now)) }
{
    let line = if begins_type(b"text/", place.part) {
        file_line(body)
    } else {
        None
    };
    push_at(alloc, found, &spot_of_body(place, 1), Name::Uuencode, line)
}

/// Appends the findings of a body in quoted-printable.
fn push_quoted(
    alloc: Global,
    found: &mut Vec<Finding>,
    spot: &Spot<'_>,
    raw: &[u8],
) -> Result<(), AllocError>
    ensures { OnOk result (map finding_view found.new.items
        ≡ map finding_view found.old.items ++ quoted_findings (spot_view spot.now) raw.now) }
{
    let (bad, ended) = odd_escapes(raw);
    let syntax = earlier(bad, control_byte(raw));
    push_at(alloc, found, spot, Name::QpSyntax, syntax)?;
    let blank = earlier(end_blank(raw), ended);
    push_at(alloc, found, spot, Name::QpBlank, blank)?;
    push_at(alloc, found, spot, Name::EightBitBody, high_byte(raw))
}

/// Appends the finding of a mail of this size in the body of a message, which is refused with this
/// error, unless that is out of memory.
#[inline(never)]
pub(crate) fn push_refused(
    alloc: Global,
    found: &mut Vec<Finding>,
    place: &Place<'_, '_>,
    size: usize,
    error: MailParseError,
) -> Result<(), MailParseError>
    ensures written { OnOk result (map finding_view found.new.items
        ≡ map finding_view found.old.items
        ++ finding_at (spot_of_body (place_view place.now) size) Refused 0 ∷ []) }
    ensures passed_on { IfOk result (λ done. IsMemory error → ⊥) }
    ensures only_memory { IfErr result IsMemory }
{
    match error {
        MailParseError::Memory(error) => Err(MailParseError::Memory(error)),
        _refusal => {
            push(alloc, found, &spot_of_body(place, size), Name::Refused, 0)?;
            Ok(())
        }
    }
}

/// Returns where findings of a message may be, at an offset after its first byte.
#[inline(always)]
fn spot_in<'p>(place: &'p Place<'_, '_>, offset: usize, size: usize) -> Spot<'p>
    ensures { spot_view result ≡ spot_in (place_view place.now) offset size }
{
    Spot {
        path: place.path.as_str(),
        start: place.byte_range.start.saturating_add(offset),
        size,
    }
}

/// Returns where findings of the body of a message may be.
#[inline(always)]
fn spot_of_body<'p>(place: &'p Place<'_, '_>, size: usize) -> Spot<'p>
    ensures { spot_view result ≡ spot_of_body (place_view place.now) size }
{
    Spot {
        path: place.path.as_str(),
        start: place.body_range.start,
        size,
    }
}

/// Appends the finding at an offset, if there is one.
#[inline(always)]
fn push_at(
    alloc: Global,
    found: &mut Vec<Finding>,
    spot: &Spot<'_>,
    name: Name,
    offset: Option<usize>,
) -> Result<(), AllocError>
    ensures { OnOk result (map finding_view found.new.items
        ≡ map finding_view found.old.items ++ listed (spot_view spot.now) name offset) }
{
    match offset {
        Some(offset) => push(alloc, found, spot, name, offset),
        None => Ok(()),
    }
}

/// Appends the finding of a whole spot, if it is to be.
#[inline(always)]
fn push_if(
    alloc: Global,
    found: &mut Vec<Finding>,
    spot: &Spot<'_>,
    name: Name,
    is: bool,
) -> Result<(), AllocError>
    ensures { OnOk result (map finding_view found.new.items
        ≡ map finding_view found.old.items ++ listed_if (spot_view spot.now) name is) }
{
    if is {
        push(alloc, found, spot, name, 0)?;
    }
    Ok(())
}

/// Appends a finding.
#[cold]
fn push(
    alloc: Global,
    found: &mut Vec<Finding>,
    spot: &Spot<'_>,
    name: Name,
    offset: usize,
) -> Result<(), AllocError>
    ensures { OnOk result (map finding_view found.new.items
        ≡ map finding_view found.old.items ++ finding_at (spot_view spot.now) name offset ∷ []) }
{
    let start = spot.start.saturating_add(offset);
    found.push(Finding {
        name,
        class: name.class(),
        range: start..start.saturating_add(spot.size),
        path: String::from_str(alloc, spot.path)?,
    })?;
    Ok(())
}
