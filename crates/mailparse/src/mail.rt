//! Reads a message: its header block, its type, its body and its parts.
ghost use Rattle.std.specs.Prelude.{◌≡◌, Bool, false, ◌<◌, ◌≤◌, ◌+◌, ◌^◌, ℕ, List, [], ◌∷◌, ◌++◌, length, drop, slice_range, take, Option, vec_len, IfErr, IfOk, IfSome, IsErr, Ok};
ghost use Rattle.mail_codec.specs.Charset.{four_charsets};
ghost use Rattle.mailparse.specs.Block.{header_count, header_part, read_block, read_headers};
ghost use Rattle.mailparse.specs.Bound.{IsBounded, items_within};
ghost use Rattle.mailparse.specs.Limit.{items_met, limited, read_mail_within};
ghost use Rattle.mailparse.specs.private.Limit.{less};
ghost use Rattle.mailparse.specs.Mail.{kept_if_refused, no_parts, or_kept, read_levels, read_mail, read_mail_as, read_mail_in, tree, Tree, whole_lines_for};
ghost use Rattle.mailparse.specs.Outcome.{Answers, AnswersOrMemory, IsRefusal, IsRefusalOrMemory};
ghost use Rattle.mailparse.specs.Placement.{placements, placements_as};
ghost use Rattle.mailparse.specs.Refusal.{Reads};
ghost use Rattle.mailparse.specs.Views.{content_type, header_list, in_digest, placements_of, tree_of};
ghost use Rattle.mailparse.specs.declared.mail.message.ParsedMail.{ParsedMail};
ghost use Rattle.mailparse.specs.private.Delimiters.{IsLineDelimiter};
ghost use Rattle.mailparse.specs.private.Parts.{HasParts, IsBegun, IsPushed, IsRead, IsSplit, reading_left};

mod delimiters;
mod limit;
mod message;
pub(crate) mod types;

use crate::content_type::ParsedContentType;
use crate::error::MailParseError;
use crate::header::MailHeader;
use crate::headers::block::parse_headers;
use crate::headers::dashes::before_dash_line;
use crate::headers::lenient::{parse_lenient_headers, with_bare_keys};
use crate::manner::{ReadingManner, Strict};
use delimiters::{cut_part, cut_preamble};
use limit::{check_headers, less};
use mail_codec::bytescan::find_byte;
use mail_codec::charset::KnownCharsets;
pub use message::{ParsedMail, PartsIterator};
use std::alloc::{AllocError, Global};
use types::{DefaultType, line_delimiter_of, parts_default};

/// The number of levels of parts that `parse_mail` reads below a message, and the greatest limit
/// that `parse_mail_limited` accepts.
///
/// # Examples
///
/// ```rust
/// use mailparse::{MAX_LEVELS, parse_mail_limited};
///
/// let mail = parse_mail_limited(alloc, b"Subject: Hi\n\nbody", MAX_LEVELS)?;
/// assert_eq!(rt; mail.headers.len(), 1);
/// ```
pub const MAX_LEVELS: u8 = 100;

/// Reads a message: its header block, and after the blank line its body and its parts (RFC 5322,
/// section 2.1; RFC 2046, section 5.1).
///
/// A message whose type begins with `multipart` and has a boundary is split at each line that
/// begins with `--` and the boundary, up to the close-delimiter. Each part is read as a message in
/// the same way. Any input, even an empty one, is a message, except in the first three cases under
/// Errors.
///
/// Allocates the lists of headers and parts and for the types; bodies and values are decoded
/// on demand. However the parts are nested, the number of headers, the number of body bytes, and
/// three for each part add up to at most the number of bytes of the message.
///
/// # Errors
///
/// The first of these in reading order, the headers of a message before its parts:
///
/// - `MailParseError::Generic` with the text `Header cannot start with a space; it is likely an
///   overhanging line from a previous header`;
/// - `MailParseError::Generic` with the text `Headers were followed by an unexpected lone CR
///   character!`, for a CR without LF where a header or the blank line is expected;
/// - `MailParseError::Generic` with the text `Recursion limit reached`, for a part more than 100
///   levels below the message (`parse_mail_limited` takes a lower limit);
/// - `MailParseError::Memory` if it runs out of memory.
///
/// A message that is refused before its first header does not allocate.
///
/// # Examples
///
/// ```rust
/// use mailparse::{MailHeaderMap, parse_mail};
///
/// let raw = b"Subject: A test\n\
///     Content-Type: multipart/alternative; boundary=edge\n\n\
///     --edge\n\
///     Content-Type: text/plain; charset=utf-8\n\
///     Content-Transfer-Encoding: quoted-printable\n\n\
///     5 =E2=82=AC\n\
///     --edge\n\
///     Content-Type: text/html\n\
///     Content-Transfer-Encoding: base64\n\n\
///     PGI+NTwvYj4=\n\
///     --edge--\n";
/// let mail = parse_mail(alloc, raw)?;
/// let subject = mail.headers.get_first_value(alloc, "Subject")?.ok_or("no subject")?;
/// assert_eq!(rt; subject.as_str(), "A test");
/// assert_eq!(rt; mail.subparts.len(), 2);
/// assert_eq!(rt; mail.subparts[0].get_body(alloc)?.as_str(), "5 €");
/// assert_eq!(rt; mail.subparts[1].ctype.mimetype.as_str(), "text/html");
/// assert_eq!(rt; mail.subparts[1].get_body(alloc)?.as_str(), "<b>5</b>");
/// ```
#[tactic(auto, unfolding(crate::specs::Mail::read_mail))]
pub fn parse_mail(alloc: Global, raw: &[u8]) -> Result<ParsedMail<'_>, MailParseError>
    ensures read { AnswersOrMemory tree_of result (read_mail raw.now) }
    ensures bounded { IfOk result (λ mail. IsBounded (tree_of mail) (length raw.now)) }
    ensures places { IfOk result (λ mail. placements_of mail ≡ placements 0 (tree_of mail)) }
    ensures no_alloc { header_count raw.now ≡ 0 → IsErr (read_headers raw.now) →
        Answers tree_of result (read_mail raw.now) }
{
    parse_mail_limited(alloc, raw, MAX_LEVELS)
}

/// Reads a message as `parse_mail` does, but with parts at most `levels` levels below it.
///
/// The message itself is at level 0, its parts are at level 1, and so on: if `levels` is 0, every
/// part is refused. A part that is too deep is refused before its headers are read. A message that
/// is read under one limit is read the same way under every greater one. The caller proves that
/// `levels` is at most `MAX_LEVELS`.
///
/// Allocates as `parse_mail` does.
///
/// # Errors
///
/// The first of these in reading order, the headers of a message before its parts:
///
/// - `MailParseError::Generic` with the text `Header cannot start with a space; it is likely an
///   overhanging line from a previous header`;
/// - `MailParseError::Generic` with the text `Headers were followed by an unexpected lone CR
///   character!`, for a CR without LF where a header or the blank line is expected;
/// - `MailParseError::Generic` with the text `Recursion limit reached`, for a part more than
///   `levels` levels below the message;
/// - `MailParseError::Memory` if it runs out of memory.
///
/// A message that is refused before its first header does not allocate.
///
/// # Examples
///
/// ```rust
/// use mailparse::parse_mail_limited;
///
/// let raw = b"Content-Type: multipart/mixed; boundary=b\n\n--b\n\none\n--b--\n";
/// let mail = parse_mail_limited(alloc, raw, 1)?;
/// assert_eq!(rt; mail.subparts.len(), 1);
/// assert!(rt; parse_mail_limited(alloc, raw, 0).is_err());
/// ```
pub fn parse_mail_limited(
    alloc: Global,
    raw: &[u8],
    levels: u8,
) -> Result<ParsedMail<'_>, MailParseError>
    requires { levels ≤ MAX_LEVELS }
    ensures read { AnswersOrMemory tree_of result (read_mail_in four_charsets levels raw.now) }
    ensures bounded { IfOk result (λ mail. IsBounded (tree_of mail) (length raw.now)) }
    ensures places { IfOk result (λ mail. placements_of mail ≡ placements 0 (tree_of mail)) }
    ensures no_alloc { header_count raw.now ≡ 0 → IsErr (read_headers raw.now) →
        Answers tree_of result (read_mail_in four_charsets levels raw.now) }
{
    parse_mail_limited_in(alloc, raw, levels, &())
}

/// Reads a message as `parse_mail_in` does, but with parts at most `levels` levels below it, as
/// `parse_mail_limited` does (RFC 2046, section 5.1).
///
/// The caller proves that `levels` is at most `MAX_LEVELS`. Allocates as `parse_mail` does.
///
/// # Errors
///
/// Those of `parse_mail_limited`.
///
/// # Examples
///
/// ```rust
/// use mailparse::{SingleByteTable, parse_mail_limited_in};
///
/// let tables = [SingleByteTable { labels: &["x-euro"], high: &['€'; 128] }];
/// let raw = "Content-Type: multipart/mixed; boundary*=x-euro''%80\n\n--€\n\none\n--€--\n";
/// let mail = parse_mail_limited_in(alloc, raw.as_bytes(), 1, &tables.as_slice())?;
/// assert_eq!(rt; mail.subparts.len(), 1);
/// assert!(rt; parse_mail_limited_in(alloc, raw.as_bytes(), 0, &tables.as_slice()).is_err());
/// ```
#[tactic(auto, using(crate::proofs::lemmas::Bound::bounds), unfolding(crate::specs::Mail::read_mail_in))]
pub fn parse_mail_limited_in<'a, K: KnownCharsets>(
    alloc: Global,
    raw: &'a [u8],
    levels: u8,
    known: &K,
) -> Result<ParsedMail<'a>, MailParseError>
    requires { levels ≤ MAX_LEVELS }
    ensures read { AnswersOrMemory tree_of result
        (read_mail_in (K.known known.now) levels raw.now) }
    ensures bounded { IfOk result (λ mail. IsBounded (tree_of mail) (length raw.now)) }
    ensures places { IfOk result (λ mail. placements_of mail ≡ placements 0 (tree_of mail)) }
    ensures no_alloc { header_count raw.now ≡ 0 → IsErr (read_headers raw.now) →
        Answers tree_of result (read_mail_in (K.known known.now) levels raw.now) }
{
    parse_mail_as(alloc, raw, levels, &Strict(known))
}

/// Reads a message as `parse_mail_limited` does, but in this manner where readers differ (RFC 2046,
/// section 5.1).
///
/// The caller proves that `levels` is at most `MAX_LEVELS`. Allocates as `parse_mail` does.
///
/// # Errors
///
/// Those of `parse_mail_limited`; if the manner keeps refused messages, only
/// `MailParseError::Memory` if it runs out of memory.
///
/// # Examples
///
/// ```rust
/// use mailparse::{Strict, parse_mail_as};
///
/// let raw = b"Content-Type: multipart/mixed; boundary=b\n\n--b\n\none\n--b--\n";
/// let mail = parse_mail_as(alloc, raw, 1, &Strict(&()))?;
/// assert_eq!(rt; mail.subparts.len(), 1);
/// assert!(rt; parse_mail_as(alloc, raw, 0, &Strict(&())).is_err());
/// ```
#[tactic(auto, using(crate::proofs::lemmas::Bound::bounds))]
pub fn parse_mail_as<'a, M: ReadingManner>(
    alloc: Global,
    raw: &'a [u8],
    levels: u8,
    manner: &M,
) -> Result<ParsedMail<'a>, MailParseError>
    requires { levels ≤ MAX_LEVELS }
    ensures read { AnswersOrMemory tree_of result
        (read_mail_as (M.manner manner.now) levels raw.now) }
    ensures bounded { IfOk result (λ mail. IsBounded (tree_of mail) (length raw.now)) }
    ensures places { IfOk result (λ mail. placements_of mail
        ≡ placements_as (M.manner manner.now).whole_lines 0 (tree_of mail)) }
    ensures no_alloc { (M.manner manner.now).keeps_refused ≡ false →
        header_count (header_part (M.manner manner.now).lenient_headers raw.now) ≡ 0 →
        IsErr (read_block (M.manner manner.now).lenient_headers raw.now) →
        Answers tree_of result (read_mail_as (M.manner manner.now) levels raw.now) }
{
    parse_whole(alloc, &mut None, raw, levels + 1, manner)
}

/// Reads a message as `parse_mail_as` does, but refuses one with more than `most` items, which are
/// its messages (itself and all its parts) and their headers.
///
/// A message that has a tree with at most `most` items is read as `parse_mail_as` reads it, and
/// every other one is refused. Of two refusals the first in reading order is returned, where the
/// message or part comes first and then its headers, which are counted if their block is not
/// refused. A manner that keeps refused messages does not keep one for this limit. The caller
/// proves that `levels` is at most `MAX_LEVELS`.
///
/// Allocates as `parse_mail` does, and for at most `most` items.
///
/// # Errors
///
/// Those of `parse_mail_as`; and `MailParseError::Generic` with the text `Too many parts and
/// headers`, whose kind is `RefusalKind::TooMany`, if there are more than `most` items.
///
/// # Examples
///
/// ```rust
/// use mailparse::{RefusalKind, Strict, parse_mail_within};
///
/// let raw = b"Content-Type: multipart/mixed; boundary=b\n\n--b\nSubject: One\n\none\n--b--\n";
/// let mail = parse_mail_within(alloc, raw, 1, 4, &Strict(&()))?;
/// assert_eq!(rt; mail.subparts.len(), 1);
/// let error = parse_mail_within(alloc, raw, 1, 3, &Strict(&())).err().ok_or("no error")?;
/// assert!(rt; error.refusal() == Some(RefusalKind::TooMany));
/// ```
#[tactic(auto, using(crate::proofs::lemmas::LimitItems::within_bounds), unfolding(crate::specs::Limit::read_mail_within))]
pub fn parse_mail_within<'a, M: ReadingManner>(
    alloc: Global,
    raw: &'a [u8],
    levels: u8,
    most: usize,
    manner: &M,
) -> Result<ParsedMail<'a>, MailParseError>
    requires { levels ≤ MAX_LEVELS }
    ensures read { AnswersOrMemory tree_of result
        (read_mail_within (M.manner manner.now) levels most raw.now) }
    ensures items { IfOk result (λ mail. items_within (tree_of mail) ≤ most) }
    ensures bounded { IfOk result (λ mail. IsBounded (tree_of mail) (length raw.now)) }
    ensures places { IfOk result (λ mail. placements_of mail
        ≡ placements_as (M.manner manner.now).whole_lines 0 (tree_of mail)) }
    ensures no_alloc { (M.manner manner.now).keeps_refused ≡ false →
        header_count (header_part (M.manner manner.now).lenient_headers raw.now) ≡ 0 →
        IsErr (read_block (M.manner manner.now).lenient_headers raw.now) →
        Answers tree_of result (read_mail_within (M.manner manner.now) levels most raw.now) }
{
    let mut left = Some(most);
    parse_whole(alloc, &mut left, raw, levels + 1, manner)
}

/// A message or a part that is to be read: its bytes, its offset in the mail, and the type that it
/// has without a `Content-Type`.
#[derive(Clone, Copy)]
struct Source<'a> {
    raw: &'a [u8],
    offset: usize,
    default: DefaultType,
}

/// How a message is split into its parts: by which line delimiter, whether only by whole lines,
/// what type they have by default, and where the first of them starts.
#[derive(Drop)]
struct Split {
    line_delimiter: Vec<u8>,
    whole: bool,
    inner: DefaultType,
    first: Option<usize>,
}

/// Reads a whole mail that has at most `levels` levels, counting its own. Takes its items off those
/// that are left.
fn parse_whole<'a, M: ReadingManner>(
    alloc: Global,
    left: &mut Option<usize>,
    raw: &'a [u8],
    levels: u8,
    manner: &M,
) -> Result<ParsedMail<'a>, MailParseError>
    ensures read { AnswersOrMemory tree_of result
        (limited left.old (items_met (M.manner manner.now) levels false raw.now)
        (read_levels (M.manner manner.now) levels false raw.now)) }
    ensures places { IfOk result (λ mail. placements_of mail
        ≡ placements_as (M.manner manner.now).whole_lines 0 (tree_of mail)) }
    ensures no_alloc { (M.manner manner.now).keeps_refused ≡ false → 0 < levels →
        header_count (header_part (M.manner manner.now).lenient_headers raw.now) ≡ 0 →
        IsErr (read_block (M.manner manner.now).lenient_headers raw.now) →
        Answers tree_of result
        (limited left.old (items_met (M.manner manner.now) levels false raw.now)
        (read_levels (M.manner manner.now) levels false raw.now)) }
{
    let source = Source {
        raw,
        offset: 0,
        default: DefaultType::Text,
    };
    let (mut mail, split) = read_message(alloc, left, &source, levels, manner)?;
    let Some(split) = split else {
        return Ok(mail);
    };
    let parts = read_parts(alloc, left, &source, &split, levels, manner)?;
    set_parts(&mut mail, parts);
    Ok(mail)
}

/// Reads the parts of a message that has at most `levels` levels, counting its own, and is split
/// this way. Takes their items off those that are left.
///
/// A message is large: it is kept in a list, and out of the frame of this function, which recurses.
fn read_parts<'a, M: ReadingManner>(
    alloc: Global,
    left: &mut Option<usize>,
    source: &Source<'a>,
    split: &Split,
    levels: u8,
    manner: &M,
) -> Result<Vec<ParsedMail<'a>>, MailParseError>
    requires within { source.now.offset + length source.now.raw.now < 2 ^ 64 }
    requires levels { 0 < levels }
    requires line_delimiter { IsLineDelimiter split.now.line_delimiter.items }
    requires lines { split.now.whole ≡ whole_lines_for (M.manner manner.now).whole_lines
        (drop 1 split.now.line_delimiter.items) }
    requires first { IfSome split.now.first (λ start. start ≤ length source.now.raw.now) }
    ensures read { (limit : Option ℕ) (mail : ParsedMail) →
        IsSplit (M.manner manner.now) limit left.old levels (in_digest source.now.default)
        source.now.raw.now source.now.offset split.now mail →
        IfOk result (λ parts. (whole : ParsedMail) → HasParts mail parts.items whole →
        IsRead (M.manner manner.now) limit left.new levels (in_digest source.now.default)
        source.now.raw.now source.now.offset whole) }
    ensures refused { (limit : Option ℕ) (mail : ParsedMail) →
        IsSplit (M.manner manner.now) limit left.old levels (in_digest source.now.default)
        source.now.raw.now source.now.offset split.now mail →
        IfErr result (λ e. IsRefusalOrMemory e
        (reading_left (M.manner manner.now) limit levels (in_digest source.now.default)
        source.now.raw.now)) }
{
    let mut parts = Vec::new(alloc);
    let mut next = split.first;
    while let Some(start) = next {
        let delimiter = split.line_delimiter.as_slice();
        let (end, after) = cut_part(source.raw, start, delimiter, split.whole);
        let part = Source {
            raw: &source.raw[start..end],
            offset: source.offset + start,
            default: split.inner,
        };
        let inner = match push_message(alloc, left, &mut parts, &part, levels - 1, manner) {
            Ok(inner) => inner,
            Err(refusal) => {
                discard(parts);
                return Err(refusal);
            }
        };
        if let Some(inner) = inner {
            match read_parts(alloc, left, &part, &inner, levels - 1, manner) {
                Ok(below) => set_last_parts(&mut parts, below),
                Err(refusal) => {
                    discard(parts);
                    return Err(refusal);
                }
            }
        }
        next = after;
    }
    Ok(parts)
}

/// Drops some parts. What that needs is kept out of the frame of the function that recurses.
#[inline(never)]
fn discard<'a>(_parts: Vec<ParsedMail<'a>>) {}

/// Gives the last message of a list its parts.
#[inline(never)]
fn set_last_parts<'a>(found: &mut Vec<ParsedMail<'a>>, parts: Vec<ParsedMail<'a>>)
    ensures { (front : List ParsedMail) (mail : ParsedMail) → found.old.items ≡ front ++ mail ∷ [] →
        IsPushed front found.new.items (HasParts mail parts.entry.items) }
{
    if let Some(mail) = found.last_mut() {
        set_parts(mail, parts);
    }
}

/// Gives a message its parts.
fn set_parts<'a>(mail: &mut ParsedMail<'a>, parts: Vec<ParsedMail<'a>>)
    ensures { HasParts mail.old parts.entry.items mail.new }
{
    mail.subparts = parts;
}

/// Appends a message without its parts, and returns how it is split into them, if it may have any.
#[inline(never)]
fn push_message<'a, M: ReadingManner>(
    alloc: Global,
    left: &mut Option<usize>,
    found: &mut Vec<ParsedMail<'a>>,
    source: &Source<'a>,
    levels: u8,
    manner: &M,
) -> Result<Option<Split>, MailParseError>
    requires within { source.now.offset + length source.now.raw.now < 2 ^ 64 }
    ensures pushed { IfOk result (λ split. IsPushed found.old.items found.new.items
        (IsBegun (M.manner manner.now) left.old left.new levels (in_digest source.now.default)
        source.now.raw.now source.now.offset split)) }
    ensures refused { IfErr result (λ e. IsRefusalOrMemory e
        (reading_left (M.manner manner.now) left.old levels (in_digest source.now.default)
        source.now.raw.now)) }
    ensures no_alloc { (M.manner manner.now).keeps_refused ≡ false → 0 < levels →
        header_count (header_part (M.manner manner.now).lenient_headers source.now.raw.now) ≡ 0 →
        IsErr (read_block (M.manner manner.now).lenient_headers source.now.raw.now) →
        IfErr result (λ e. IsRefusal e
        (reading_left (M.manner manner.now) left.old levels (in_digest source.now.default)
        source.now.raw.now)) }
{
    let (mail, split) = read_message(alloc, left, source, levels, manner)?;
    found.push(mail)?;
    Ok(split)
}

/// Reads a message without its parts, and returns how it is split into them, if it may have any.
fn read_message<'a, M: ReadingManner>(
    alloc: Global,
    left: &mut Option<usize>,
    source: &Source<'a>,
    levels: u8,
    manner: &M,
) -> Result<(ParsedMail<'a>, Option<Split>), MailParseError>
    requires within { source.now.offset + length source.now.raw.now < 2 ^ 64 }
    ensures read { IfOk result (λ begun. IsBegun (M.manner manner.now) left.old left.new levels
        (in_digest source.now.default) source.now.raw.now source.now.offset begun.1 begun.0) }
    ensures refused { IfErr result (λ e. IsRefusalOrMemory e
        (reading_left (M.manner manner.now) left.old levels (in_digest source.now.default)
        source.now.raw.now)) }
    ensures no_alloc { (M.manner manner.now).keeps_refused ≡ false → 0 < levels →
        header_count (header_part (M.manner manner.now).lenient_headers source.now.raw.now) ≡ 0 →
        IsErr (read_block (M.manner manner.now).lenient_headers source.now.raw.now) →
        IfErr result (λ e. IsRefusal e
        (reading_left (M.manner manner.now) left.old levels (in_digest source.now.default)
        source.now.raw.now)) }
{
    *left = less(*left, 1)?;
    if levels == 0 {
        let refusal = MailParseError::Generic("Recursion limit reached");
        let whole = refused_or_kept(alloc, source, refusal, manner)?;
        return Ok((whole, None));
    }
    check_headers(*left, source.raw, manner)?;
    let (headers, body_offset) = match parse_block(alloc, *left, source.raw, manner) {
        Ok(block) => block,
        Err(refusal) => {
            let whole = refused_or_kept(alloc, source, refusal, manner)?;
            return Ok((whole, None));
        }
    };
    *left = less(*left, headers.len())?;
    let ctype = manner.content_type(alloc, &headers, source.default)?;
    let Some(line_delimiter) = line_delimiter_of(alloc, &ctype)? else {
        let end = source.raw.len();
        let whole = message_of(alloc, source, headers, ctype, body_offset, end);
        return Ok((whole, None));
    };
    let inner = parts_default(&ctype);
    let whole = has_whole_lines(&line_delimiter, manner);
    let (end, first) = cut_preamble(source.raw, body_offset, line_delimiter.as_slice(), whole);
    let mail = message_of(alloc, source, headers, ctype, body_offset, end);
    let split = Split {
        line_delimiter,
        whole,
        inner,
        first,
    };
    Ok((mail, Some(split)))
}

/// Reads the headers of a message in this manner.
///
/// Reads no more headers than are left, which `check_headers` did not refuse.
// It is not inlined, so that the frame of the reader of a message, which calls itself, stays small.
#[inline(never)]
fn parse_block<'a, M: ReadingManner>(
    alloc: Global,
    left: Option<usize>,
    raw: &'a [u8],
    manner: &M,
) -> Result<(Vec<MailHeader<'a>>, usize), MailParseError>
    ensures read { AnswersOrMemory header_list result
        (read_block (M.manner manner.now).lenient_headers raw.now) }
    ensures bounds { IfOk result (λ found.
        (vec_len found.0 ≤ found.1) × (found.1 ≤ length raw.now)) }
    ensures no_alloc { header_count (header_part (M.manner manner.now).lenient_headers raw.now) ≡ 0 →
        Answers header_list result (read_block (M.manner manner.now).lenient_headers raw.now) }
{
    if !manner.has_lenient_headers() {
        return parse_headers(alloc, raw);
    }
    match left {
        // All bytes could have more headers than those before such a line, and than are left.
        Some(most) if most < raw.len() => {
            with_bare_keys(parse_headers(alloc, before_dash_line(raw)))
        }
        _ => parse_lenient_headers(alloc, raw),
    }
}

/// Returns the refusal of a message; if the manner keeps refused messages, the message as plain
/// text instead, without headers.
#[inline(never)]
fn refused_or_kept<'a, M: ReadingManner>(
    alloc: Global,
    source: &Source<'a>,
    refusal: MailParseError,
    manner: &M,
) -> Result<ParsedMail<'a>, MailParseError>
    requires within { source.now.offset + length source.now.raw.now < 2 ^ 64 }
    ensures read { (reading : Reads Tree) → IsRefusalOrMemory refusal reading →
        AnswersOrMemory tree_of result
        (or_kept (M.manner manner.now) source.now.raw.now reading) }
    ensures places { (whole : Bool) → IfOk result (λ mail.
        placements_of mail ≡ placements_as whole source.now.offset (tree_of mail)) }
    ensures no_alloc { (M.manner manner.now).keeps_refused ≡ false → (reading : Reads Tree) →
        IsRefusal refusal reading →
        Answers tree_of result (or_kept (M.manner manner.now) source.now.raw.now reading) }
{
    if !manner.keeps_refused() {
        return Err(refusal);
    }
    kept(alloc, source, refusal)
}

/// Returns a refused message as plain text without headers, unless memory ran out.
#[inline(never)]
fn kept<'a>(
    alloc: Global,
    source: &Source<'a>,
    refusal: MailParseError,
) -> Result<ParsedMail<'a>, MailParseError>
    requires within { source.now.offset + length source.now.raw.now < 2 ^ 64 }
    ensures read { (reading : Reads Tree) → IsRefusalOrMemory refusal reading →
        AnswersOrMemory tree_of result (kept_if_refused source.now.raw.now reading) }
    ensures places { (whole : Bool) → IfOk result (λ mail.
        placements_of mail ≡ placements_as whole source.now.offset (tree_of mail)) }
{
    if let MailParseError::Memory(e) = refusal {
        return Err(MailParseError::Memory(e));
    }
    let ctype = DefaultType::Text.content_type(alloc)?;
    let end = source.raw.len();
    Ok(message_of(alloc, source, Vec::new(alloc), ctype, 0, end))
}

/// Returns the bytes that the headers of a message are read from: all, or those before a line that
/// looks like a delimiter.
fn header_part<'a, M: ReadingManner>(raw: &'a [u8], manner: &M) -> &'a [u8]
    ensures value { result.now ≡ header_part (M.manner manner.now).lenient_headers raw.now }
    ensures within { length result.now ≤ length raw.now }
{
    if !manner.has_lenient_headers() {
        return raw;
    }
    before_dash_line(raw)
}

/// Whether whole lines are asked for: never of a dash-boundary that contains a LF.
fn has_whole_lines<M: ReadingManner>(line_delimiter: &Vec<u8>, manner: &M) -> bool
    requires line_delimiter { IsLineDelimiter line_delimiter.now.items }
    ensures { result ≡ whole_lines_for (M.manner manner.now).whole_lines
        (drop 1 line_delimiter.now.items) }
{
    if !manner.has_whole_lines() {
        return false;
    }
    find_byte(&line_delimiter[1..], b'\n').is_none()
}

/// Returns the message that has these headers and this type, without parts. Its body is the range
/// from `body_offset` to `end`, and its header block comes before it.
#[inline(always)]
fn message_of<'a>(
    alloc: Global,
    source: &Source<'a>,
    headers: Vec<MailHeader<'a>>,
    ctype: ParsedContentType,
    body_offset: usize,
    end: usize,
) -> ParsedMail<'a>
    requires within { source.now.offset + length source.now.raw.now < 2 ^ 64 }
    requires body { body_offset ≤ end }
    requires end { end ≤ length source.now.raw.now }
    ensures read { tree_of result ≡ tree (record {
      bytes = source.now.raw.now;
      block = take body_offset source.now.raw.now;
      headers = headers.entry.items;
      ctype = content_type ctype;
      body = slice_range source.now.raw.now body_offset end;
    }) no_parts }
    ensures places { placements_of result ≡ record {
      whole = record {
        start = source.now.offset;
        end = source.now.offset + length source.now.raw.now;
      };
      body = record { start = source.now.offset + body_offset; end = source.now.offset + end };
    } ∷ [] }
{
    ParsedMail {
        raw_bytes: source.raw,
        header_bytes: &source.raw[..body_offset],
        headers,
        ctype,
        body_bytes: &source.raw[body_offset..end],
        subparts: Vec::new(alloc),
        range: source.offset..source.offset + source.raw.len(),
        body_range: source.offset + body_offset..source.offset + end,
    }
}

/// Reads a message as `parse_mail` does, with the encoded words and the extended parameters of each
/// `Content-Type` in any charset of `known` (RFC 2047, section 2; RFC 2231, section 4).
///
/// The result does not keep the charsets; pass them to each later call that ends in `_in`.
///
/// Allocates as `parse_mail` does.
///
/// # Errors
///
/// Those of `parse_mail`.
///
/// # Examples
///
/// ```rust
/// use mailparse::{SingleByteTable, parse_mail_in};
///
/// let tables = [SingleByteTable { labels: &["x-euro"], high: &['€'; 128] }];
/// let raw = "Content-Type: multipart/mixed; boundary*=x-euro''%80\n\n--€\n\none\n--€--\n";
/// let mail = parse_mail_in(alloc, raw.as_bytes(), &tables.as_slice())?;
/// assert_eq!(rt; mail.subparts.len(), 1);
/// ```
pub fn parse_mail_in<'a, K: KnownCharsets>(
    alloc: Global,
    raw: &'a [u8],
    known: &K,
) -> Result<ParsedMail<'a>, MailParseError>
    ensures read { AnswersOrMemory tree_of result (read_mail_in (K.known known.now) 100 raw.now) }
    ensures bounded { IfOk result (λ mail. IsBounded (tree_of mail) (length raw.now)) }
    ensures places { IfOk result (λ mail. placements_of mail ≡ placements 0 (tree_of mail)) }
    ensures no_alloc { header_count raw.now ≡ 0 → IsErr (read_headers raw.now) →
        Answers tree_of result (read_mail_in (K.known known.now) 100 raw.now) }
{
    parse_mail_limited_in(alloc, raw, MAX_LEVELS, known)
}
