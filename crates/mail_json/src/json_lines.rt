//! The lines of a mail, or of the mails of a mailbox, that is in memory.
ghost use Rattle.std.specs.Prelude.{option_map};
ghost use Rattle.mail_data.specs.MailboxViews.{entries_left};
ghost use Rattle.mail_data.specs.MailboxFormats.{mail_in};
ghost use Rattle.mail_data.specs.MailboxParts.{placed_from};
ghost use Rattle.mail_json.specs.JsonLines.{IsFront, IsLine, IsWholeLine, WritesLines};
ghost use Rattle.mail_walk.specs.Kind.{format_of};
ghost use Rattle.mail_json.specs.JsonLines.{origin_at};
ghost use Rattle.mail_json.specs.Options.{options_of};
ghost use Rattle.mail_json.specs.Origin.{origin_of};
ghost use Rattle.mail_json.specs.Selection.{AreChosen, AreMailboxChosen, IsEntryLine, number_of};

use crate::mail::write_mail;
use crate::options::{LineOptions, Source};
use crate::origin::{Origin, write_error};
use crate::selection::{NextMail, Selection};
use crate::written::Written;
use mail_data::mailbox::quoted::unquoted;
use mail_data::mailbox::{Format, Mailbox, MailboxEntry, read_mailbox};
use mail_json_text::write_word;
use mail_parts::read_bounded;
use mail_program::{Fault, is_all_whitespace, refusal_of};
use mailparse::KnownCharsets;
use std::alloc::Global;
use std::io::Write;

/// Writes the line of an input that is one mail: the mail, or an error that says why it is refused.
///
/// # Errors
///
/// `Fault::Output` if a write fails, and `Fault::Mail` with `MailParseError::Memory` if it runs out
/// of memory.
///
/// # Examples
///
/// ```rust
/// use mail_json::{LineOptions, Written, write_single};
///
/// let mut out = Vec::new(alloc);
/// let options = LineOptions::new();
/// let mut strict = options;
/// strict.limit = 1;
/// let written = write_single(alloc, &mut out, b"A: b\n\nHi", None, strict, &())?;
/// assert_eq!(rt; written, Written::WithErrors);
/// let line = b"{\"schema\":6,\"file\":null,\"number\":null,\"start\":0,\"end\":8,\"error\":";
/// assert!(rt; out.as_slice().starts_with(line));
/// let written = write_single(alloc, &mut out, b"Subject: Hi\n\nHello\n", None, options, &())?;
/// assert_eq!(rt; written, Written::Clean);
/// ```
pub fn write_single<W: Write, K: KnownCharsets>(
    alloc: Global,
    out: &mut W,
    input: &[u8],
    file: Option<&str>,
    options: LineOptions<'_>,
    known: &K,
) -> Result<Written, Fault>
    ensures { WritesLines (W.contents out.old) (W.contents out.new) result (IsWholeLine
        (options_of (K.known known.now) options.entry) (option_map (λ name. name.now) file.entry)
        input.now) }
{
    let origin = Origin {
        file,
        number: None,
        start: 0,
        end: input.len(),
    };
    write_line(alloc, out, input, &origin, options, known)
}

/// Writes an error for the text before the first mail of a mailbox, and the lines of the mails that
/// have one.
pub(crate) fn write_mailbox<W: Write, K: KnownCharsets>(
    alloc: Global,
    out: &mut W,
    input: &[u8],
    source: Source<'_, K>,
    selection: Selection,
) -> Result<Written, Fault>
    ensures { WritesLines (W.contents out.old) (W.contents out.new) result
        (AreMailboxChosen (options_of (K.known source.entry.known.now) source.entry.options)
        (format_of source.entry.kind) (option_map (λ name. name.now) source.entry.file) selection
        input.now) }
{
    let mails = read_mailbox(input, source.kind.format());
    let front = mails.front();
    let written = write_front(out, front, source.file)?;
    let first = NextMail {
        selection,
        at: front.len(),
    };
    Ok(written.and(write_mails(alloc, out, mails, source, first)?))
}

/// Writes an error for the text before the first mail of a mailbox, unless it is whitespace.
pub(crate) fn write_front<W: Write>(
    out: &mut W,
    front: &[u8],
    file: Option<&str>,
) -> Result<Written, Fault>
    ensures { WritesLines (W.contents out.old) (W.contents out.new) result
        (IsFront (option_map (λ name. name.now) file.entry) front.now) }
{
    if is_all_whitespace(front) {
        return Ok(Written::Clean);
    }
    let origin = Origin {
        file,
        number: None,
        start: 0,
        end: front.len(),
    };
    write_error(out, &origin, "The mailbox does not begin with a separator")?;
    Ok(Written::WithErrors)
}

/// Writes the lines of those mails of a mailbox that have one.
pub(crate) fn write_mails<W: Write, K: KnownCharsets>(
    alloc: Global,
    out: &mut W,
    mails: Mailbox<'_>,
    source: Source<'_, K>,
    first: NextMail,
) -> Result<Written, Fault>
    ensures { WritesLines (W.contents out.old) (W.contents out.new) result
        (AreChosen (options_of (K.known source.entry.known.now) source.entry.options)
        (format_of source.entry.kind) (option_map (λ name. name.now) source.entry.file)
        first.selection (placed_from first.at (entries_left mails.entry))) }
{
    let mut next = first;
    let mut written = Written::Clean;
    for entry in mails {
        written = written.and(write_entry(alloc, out, &entry, source, next)?);
        next = next.after(&entry);
    }
    Ok(written)
}

/// Writes the line of the next mail of a mailbox, if it has one.
pub(crate) fn write_entry<W: Write, K: KnownCharsets>(
    alloc: Global,
    out: &mut W,
    entry: &MailboxEntry<'_>,
    source: Source<'_, K>,
    next: NextMail,
) -> Result<Written, Fault>
    ensures { WritesLines (W.contents out.old) (W.contents out.new) result
        (IsEntryLine (options_of (K.known source.entry.known.now) source.entry.options)
        (format_of source.entry.kind) (option_map (λ name. name.now) source.entry.file)
        next.selection next.at entry.now) }
{
    if next.is_wanted() {
        write_wanted(alloc, out, entry, source, next)
    } else {
        Ok(Written::Clean)
    }
}

/// Writes the line of the next mail of a mailbox.
fn write_wanted<W: Write, K: KnownCharsets>(
    alloc: Global,
    out: &mut W,
    entry: &MailboxEntry<'_>,
    source: Source<'_, K>,
    next: NextMail,
) -> Result<Written, Fault>
    ensures { WritesLines (W.contents out.old) (W.contents out.new) result
        (IsLine (options_of (K.known source.entry.known.now) source.entry.options)
        (origin_at (option_map (λ name. name.now) source.entry.file) (number_of next.selection)
        next.at entry.now) (mail_in (format_of source.entry.kind) entry.now.mail)) }
{
    let start = next.at.saturating_add(entry.separator().len());
    let origin = Origin {
        file: source.file,
        number: next.number(),
        start,
        end: start.saturating_add(entry.mail().len()),
    };
    let (options, known) = (source.options, source.known);
    match source.kind.format() {
        Format::Plain | Format::Counted => {
            write_line(alloc, out, entry.mail(), &origin, options, known)
        }
        Format::Quoted => {
            let mail = unquoted(alloc, entry.mail())?;
            write_line(alloc, out, mail.as_slice(), &origin, options, known)
        }
    }
}

/// Writes the line of a mail: the mail, or an error that says why it is refused.
fn write_line<W: Write, K: KnownCharsets>(
    alloc: Global,
    out: &mut W,
    raw: &[u8],
    origin: &Origin<'_>,
    options: LineOptions<'_>,
    known: &K,
) -> Result<Written, Fault>
    ensures { WritesLines (W.contents out.old) (W.contents out.new) result
        (IsLine (options_of (K.known known.now) options.entry) (origin_of origin.now) raw.now) }
{
    match read_bounded(alloc, raw, options.limit, options.most_bytes, known) {
        Ok(mail) => {
            write_mail(alloc, out, &mail, origin, options, known)?;
            write_word(out, "\n")?;
            Ok(Written::Clean)
        }
        Err(error) => {
            let Some(text) = refusal_of(alloc, &error)? else {
                return Err(Fault::Mail(error));
            };
            write_error(out, origin, text.as_str())?;
            Ok(Written::WithErrors)
        }
    }
}
