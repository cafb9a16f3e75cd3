//! The view of an input: a mail, or the mails of a mailbox.
ghost use Rattle.std.specs.Prelude.{◌++◌, codes, decimal};
ghost use Rattle.std.specs.Char.{is_ascii_whitespace};
ghost use Rattle.std.specs.List.{list_all};
ghost use Rattle.mail_data.specs.MailboxFormats.{mail_in};
ghost use Rattle.mail_data.specs.MailboxViews.{entries_left};
ghost use Rattle.mail_program.specs.Streams.{Writes};
ghost use Rattle.mail_view.specs.Input.{WritesWith, front_lines, front_outcome};
ghost use Rattle.mail_view.specs.Input.{mailbox_lines, mailbox_outcome, mails_lines, mails_outcome};
ghost use Rattle.mail_view.specs.Input.{single_lines, single_outcome, title};
ghost use Rattle.mail_view.specs.Line.{empty, line, line_text, lines_text};
ghost use Rattle.mail_view.specs.declared.line.Prefix.TheVariants.{Refused};

use crate::line::{Prefix, push_line};
use crate::view::write_view;
use mail_data::mailbox::quoted::unquoted;
use mail_data::mailbox::{Format, Mailbox, MailboxEntry, read_mailbox};
use mail_html::References;
use mail_program::{Fault, Outcome, is_all_whitespace, refusal_of};
use mail_read::reading::read_mail;
use mailparse::KnownCharsets;
use std::alloc::Global;
use std::io::Write;

/// Writes a line with the name of what follows: `-- NAME --`.
///
/// Allocates the line.
///
/// # Errors
///
/// `Fault::Output` if a write fails, and `Fault::Mail` with `MailParseError::Memory` if it runs out
/// of memory.
///
/// # Examples
///
/// ```rust
/// use mail_view::write_title;
///
/// let mut out = Vec::new(alloc);
/// write_title(alloc, &mut out, "one\nmail.eml")?;
/// assert_eq!(rt; str::from_utf8(out.as_slice())?, "-- one\u{fffd}mail.eml --\n");
/// ```
pub fn write_title<W: Write>(alloc: Global, out: &mut W, name: &str) -> Result<(), Fault>
    ensures { Writes (W.contents out.old) (W.contents out.new) result
        (line_text (title name.now)) }
{
    let mut text = String::from_str(alloc, name)?;
    text.push_str(" --")?;
    write_line(alloc, out, Prefix::Title, text.as_str())
}

/// Writes a line that says why a mail is refused.
///
/// Allocates the line.
///
/// # Errors
///
/// `Fault::Output` if a write fails, and `Fault::Mail` with `MailParseError::Memory` if it runs out
/// of memory.
///
/// # Examples
///
/// ```rust
/// use mail_view::write_refusal;
///
/// let mut out = Vec::new(alloc);
/// write_refusal(alloc, &mut out, "no header")?;
/// assert_eq!(rt; str::from_utf8(out.as_slice())?, "Refused:  no header\n");
/// ```
pub fn write_refusal<W: Write>(alloc: Global, out: &mut W, reason: &str) -> Result<(), Fault>
    ensures { Writes (W.contents out.old) (W.contents out.new) result
        (line_text (line Refused reason.now)) }
{
    write_line(alloc, out, Prefix::Refused, reason)
}

/// Writes an input that is one mail, as `view_of` returns it, or a line that says why it is
/// refused: a mail with more than `limit` messages, parts and headers is. Returns whether it was.
///
/// Allocates the mail and its view.
///
/// # Errors
///
/// `Fault::Output` if a write fails, and `Fault::Mail` with `MailParseError::Memory` if it runs out
/// of memory.
///
/// # Examples
///
/// ```rust
/// use mail_read::reading::DEFAULT_LIMIT;
/// use mail_html::References;
/// use mail_program::Outcome;
/// use mail_view::write_single;
///
/// let references = References::standard();
/// let mut out = Vec::new(alloc);
/// let mail = b"Subject: Hi\n\n";
/// let outcome = write_single(alloc, &mut out, mail, DEFAULT_LIMIT, &references, &())?;
/// assert_eq!(rt; outcome, Outcome::Clean);
/// assert!(rt; out.as_slice().starts_with(b"Subject:  Hi\n"));
/// let mut out = Vec::new(alloc);
/// let outcome = write_single(alloc, &mut out, mail, 1, &references, &())?;
/// assert_eq!(rt; outcome, Outcome::Refused);
/// assert!(rt; out.as_slice().starts_with(b"Refused:  Too many parts and headers"));
/// ```
pub fn write_single<W: Write, K: KnownCharsets>(
    alloc: Global,
    out: &mut W,
    input: &[u8],
    limit: usize,
    references: &References<'_>,
    known: &K,
) -> Result<Outcome, Fault>
    ensures { WritesWith (W.contents out.old) (W.contents out.new) result
        (lines_text (single_lines references.now (K.known known.now) limit input.now))
        (single_outcome (K.known known.now) limit input.now) }
{
    match read_mail(alloc, input, limit, known) {
        Ok(mail) => {
            write_view(alloc, out, &mail, references, known)?;
            Ok(Outcome::Clean)
        }
        Err(error) => {
            let Some(reason) = refusal_of(alloc, &error)? else {
                return Err(Fault::Mail(error));
            };
            write_refusal(alloc, out, reason.as_str())?;
            Ok(Outcome::Refused)
        }
    }
}

/// Writes the mails of a mailbox in a format: each as `write_single` does, after a line with its
/// number, such as `-- mail 1 --`, and before an empty line. Text before the first mail is reported
/// by a line. Returns whether that or a mail was refused.
///
/// Allocates one mail and its view after another.
///
/// # Errors
///
/// `Fault::Output` if a write fails, and `Fault::Mail` with `MailParseError::Memory` if it runs out
/// of memory.
///
/// # Examples
///
/// ```rust
/// use mail_data::mailbox::Format;
/// use mail_read::reading::DEFAULT_LIMIT;
/// use mail_html::References;
/// use mail_program::Outcome;
/// use mail_view::write_mailbox;
///
/// let raw = b"From a Fri Jul  8 12:08:34 2011\nSubject: 1\n\none\n\n";
/// let mut out = Vec::new(alloc);
/// let (format, references) = (Format::Plain, References::standard());
/// let outcome = write_mailbox(alloc, &mut out, raw, format, DEFAULT_LIMIT, &references, &())?;
/// assert_eq!(rt; outcome, Outcome::Clean);
/// assert!(rt; out.as_slice().starts_with(b"-- mail 1 --\nSubject:  1\n\n  one\n\n"));
/// ```
pub fn write_mailbox<W: Write, K: KnownCharsets>(
    alloc: Global,
    out: &mut W,
    input: &[u8],
    format: Format,
    limit: usize,
    references: &References<'_>,
    known: &K,
) -> Result<Outcome, Fault>
    ensures { WritesWith (W.contents out.old) (W.contents out.new) result
        (lines_text (mailbox_lines references.now (K.known known.now) limit format input.now))
        (mailbox_outcome (K.known known.now) limit format input.now) }
{
    let mails = read_mailbox(input, format);
    let front = mails.front();
    let outcome = write_front(alloc, out, front)?;
    Ok(outcome.and(write_mails(alloc, out, mails, format, limit, references, known)?))
}

/// Writes a line for the text before the first mail of a mailbox, unless it is whitespace.
fn write_front<W: Write>(alloc: Global, out: &mut W, front: &[u8]) -> Result<Outcome, Fault>
    ensures { let is_white = list_all is_ascii_whitespace front.now in
        WritesWith (W.contents out.old) (W.contents out.new) result
        (lines_text (front_lines is_white)) (front_outcome is_white) }
{
    if is_all_whitespace(front) {
        return Ok(Outcome::Clean);
    }
    let reason = "The mailbox does not begin with a separator";
    write_refusal(alloc, out, reason)?;
    write_empty_line(out)?;
    Ok(Outcome::Refused)
}

/// Writes the mails of a mailbox in this format.
fn write_mails<W: Write, K: KnownCharsets>(
    alloc: Global,
    out: &mut W,
    mails: Mailbox<'_>,
    format: Format,
    limit: usize,
    references: &References<'_>,
    known: &K,
) -> Result<Outcome, Fault>
    ensures { WritesWith (W.contents out.old) (W.contents out.new) result
        (lines_text (mails_lines references.now (K.known known.now) limit format 1
        (entries_left mails.entry)))
        (mails_outcome (K.known known.now) limit format (entries_left mails.entry)) }
{
    let mut number = 1u64;
    let mut outcome = Outcome::Clean;
    for entry in mails {
        write_number(alloc, out, number)?;
        outcome = outcome.and(write_entry(alloc, out, &entry, format, limit, references, known)?);
        write_empty_line(out)?;
        number = number.saturating_add(1);
    }
    Ok(outcome)
}

/// Writes a line with the number of a mail.
fn write_number<W: Write>(alloc: Global, out: &mut W, number: u64) -> Result<(), Fault>
    ensures { Writes (W.contents out.old) (W.contents out.new) result
        (line_text (title (codes "mail " ++ decimal number))) }
{
    let text = format!(in alloc; "mail {number}")?;
    write_title(alloc, out, text.as_str())
}

/// Writes a mail of a mailbox in this format.
fn write_entry<W: Write, K: KnownCharsets>(
    alloc: Global,
    out: &mut W,
    entry: &MailboxEntry<'_>,
    format: Format,
    limit: usize,
    references: &References<'_>,
    known: &K,
) -> Result<Outcome, Fault>
    ensures { WritesWith (W.contents out.old) (W.contents out.new) result
        (lines_text (single_lines references.now (K.known known.now) limit
        (mail_in format entry.now.mail)))
        (single_outcome (K.known known.now) limit (mail_in format entry.now.mail)) }
{
    match format {
        Format::Plain | Format::Counted => write_single(
            alloc,
            out,
            entry.mail(),
            limit,
            references,
            known,
        ),
        Format::Quoted => {
            let mail = unquoted(alloc, entry.mail())?;
            write_single(alloc, out, mail.as_slice(), limit, references, known)
        }
    }
}

/// Writes the line of a text after a prefix.
fn write_line<W: Write>(alloc: Global, out: &mut W, prefix: Prefix, text: &str) -> Result<(), Fault>
    ensures { Writes (W.contents out.old) (W.contents out.new) result
        (line_text (line prefix text.now)) }
{
    let mut shown = String::new(alloc);
    push_line(&mut shown, prefix, text)?;
    out.write_all(shown.as_bytes())?;
    Ok(())
}

/// Writes an empty line.
#[tactic(auto, unfolding(crate::specs::Line::line_text))]
fn write_empty_line<W: Write>(out: &mut W) -> Result<(), Fault>
    ensures { Writes (W.contents out.old) (W.contents out.new) result (line_text empty) }
{
    out.write_all(b"\n")?;
    Ok(())
}
