//! Saving the files of an input that is read in blocks.
ghost use Rattle.std.specs.Prelude.{◌≡◌, Some, option_map, true, IfErr, IfOk};
ghost use Rattle.mail_data.specs.Mailbox.{has_front};
ghost use Rattle.mail_data.specs.MailboxFormats.{entries_in, mail_in};
ghost use Rattle.mail_data.specs.MailboxViews.{entries_left};
ghost use Rattle.mail_walk.specs.Kind.{format_of};
ghost use Rattle.mail_walk.specs.Offsets.{saturating_add};
ghost use Rattle.mail_program.specs.Fault.{IsEnd};
ghost use Rattle.mail_extract.specs.ChoiceViews.{options_view};
ghost use Rattle.mail_extract.specs.Input.{AreMails, Ends, EndsInput, IsInput, IsMail, IsMailbox};
ghost use Rattle.mail_extract.specs.Input.{front_lines};
ghost use Rattle.mail_extract.specs.Report.{WritesAll};
ghost use Rattle.mail_extract.specs.private.Blocks.{EndsAfter, SavesFront};

use crate::directory::Directory;
use crate::inside::extract_mail;
use crate::notes::Notes;
use crate::options::{Source, Target};
use crate::report::{flush, report_refused};
use mail_data::mailbox::quoted::unquoted;
use mail_data::mailbox::{Format, Mailbox, MailboxEntry, read_mailbox, settled_entry};
use mail_parts::read_bounded;
use mail_program::{Fault, Outcome, is_all_whitespace, refusal_of};
use mail_walk::{Wanted, first_wanted, is_mailbox, read_until};
use mailparse::KnownCharsets;
use std::alloc::Global;
use std::io::{self, ErrorKind, Read, Write};

/// Saves the chosen files of an input, and writes their lines: of one mail, or of each mail of a
/// mailbox (RFC 4155), which is read in blocks.
///
/// Each mail that is refused has a line with `error` and no `size`, and so does each refused mail
/// inside a mail, and text before the first separator of a mailbox. The line of a file follows it
/// at once and is flushed, and lines are flushed while the mailbox is read. Returns the worst
/// outcome that the lines report. Allocates the bytes of a block and of the mail that is read, and
/// the encoded mails inside it, and its other files in turn.
///
/// # Errors
///
/// `Fault::Input` if a read fails, `Fault::Output` if a write fails, and `Fault::Mail` with
/// `MailParseError::Memory` if it runs out of memory.
///
/// # Examples
///
/// ```rust
/// use mail_extract::{Choice, Disk, Hashing, Naming, SaveOptions, Source, Target, extract_input};
/// use mail_program::Outcome;
/// use mail_walk::InputKind;
///
/// let mut reader = b"A: one header too many\n\n".as_slice();
/// let mut out = Vec::new(alloc);
/// let mut target = Target { directory: Disk { rt: &rt, path: "." }, number: 2 };
/// let options = SaveOptions {
///     limit: 1,
///     most_bytes: None,
///     hashing: Hashing::Off,
///     naming: Naming::BySender,
///     choice: Choice { path: None, mimetype: None, name: None },
/// };
/// let source = Source { kind: InputKind::Either, file: None, options, known: &(), notes: &() };
/// let outcome = extract_input(alloc, &mut out, &mut target, &mut reader, source)?;
/// assert!(rt; outcome == Outcome::Refused);
/// assert!(rt; out.as_slice().starts_with(b"{\"file\":null,\"number\":null,\"path\":null,"));
/// ```
pub fn extract_input<R: Read, W: Write, D: Directory, K: KnownCharsets, N: Notes>(
    alloc: Global,
    out: &mut W,
    target: &mut Target<D>,
    reader: &mut R,
    source: Source<'_, K, N>,
) -> Result<Outcome, Fault>
    ensures { EndsInput (D.held target.old.directory) (D.held target.new.directory)
        (W.contents out.old) (W.contents out.new) target.old.number target.new.number
        (R.remaining reader.old) (R.remaining reader.new) result
        (IsInput (option_map (λ name. name.now) source.entry.file) D.can_fail
        (options_view source.entry.options) (K.known source.entry.known.now) source.entry.kind) }
{
    let mut read = Vec::new(alloc);
    let has_ended = read_until(alloc, &mut read, reader, first_wanted(source.kind))?;
    if has_ended {
        return extract_whole(alloc, out, target, read.as_slice(), source);
    }
    if is_mailbox(source.kind, read.as_slice()) {
        return extract_following(alloc, out, target, reader, read.as_slice(), source);
    }
    read_until(alloc, &mut read, reader, Wanted::End)?;
    extract_one(alloc, out, target, read.as_slice(), None, source)
}

/// Saves the chosen files of an input that was read to its end.
fn extract_whole<W: Write, D: Directory, K: KnownCharsets, N: Notes>(
    alloc: Global,
    out: &mut W,
    target: &mut Target<D>,
    input: &[u8],
    source: Source<'_, K, N>,
) -> Result<Outcome, Fault>
    ensures { Ends (D.held target.old.directory) (D.held target.new.directory)
        (W.contents out.old) (W.contents out.new) target.old.number target.new.number result
        (IsInput (option_map (λ name. name.now) source.entry.file) D.can_fail
        (options_view source.entry.options) (K.known source.entry.known.now) source.entry.kind
        input.now) }
{
    if is_mailbox(source.kind, input) {
        extract_mailbox(alloc, out, target, input, source)
    } else {
        extract_one(alloc, out, target, input, None, source)
    }
}

/// Saves the chosen files of a mailbox that was read to its end.
fn extract_mailbox<W: Write, D: Directory, K: KnownCharsets, N: Notes>(
    alloc: Global,
    out: &mut W,
    target: &mut Target<D>,
    input: &[u8],
    source: Source<'_, K, N>,
) -> Result<Outcome, Fault>
    ensures { Ends (D.held target.old.directory) (D.held target.new.directory)
        (W.contents out.old) (W.contents out.new) target.old.number target.new.number result
        (IsMailbox (option_map (λ name. name.now) source.entry.file) D.can_fail
        (options_view source.entry.options) (K.known source.entry.known.now)
        (format_of source.entry.kind) input.now) }
{
    let mails = read_mailbox(input, source.kind.format());
    let outcome = report_front(out, mails.front(), source)?;
    Ok(outcome.and(extract_mails(alloc, out, target, mails, 1, source)?))
}

/// Saves the chosen files of a mailbox of which these bytes were read, up to the first separator or
/// further.
fn extract_following<R: Read, W: Write, D: Directory, K: KnownCharsets, N: Notes>(
    alloc: Global,
    out: &mut W,
    target: &mut Target<D>,
    reader: &mut R,
    read: &[u8],
    source: Source<'_, K, N>,
) -> Result<Outcome, Fault>
    requires { has_front read.now ≡ true }
    ensures { EndsAfter (D.held target.old.directory) (D.held target.new.directory)
        (W.contents out.old) (W.contents out.new) target.old.number target.new.number
        read.now (R.remaining reader.old) (R.remaining reader.new) result
        (IsMailbox (option_map (λ name. name.now) source.entry.file) D.can_fail
        (options_view source.entry.options) (K.known source.entry.known.now)
        (format_of source.entry.kind)) }
{
    let front = read_mailbox(read, source.kind.format()).front();
    let outcome = report_front(out, front, source)?;
    let rest = &read[front.len()..];
    Ok(outcome.and(extract_rest(alloc, out, target, reader, rest, source)?))
}

/// Reports the text before the first mail of a mailbox, unless it is whitespace.
fn report_front<W: Write, K, N: Notes>(
    out: &mut W,
    front: &[u8],
    source: Source<'_, K, N>,
) -> Result<Outcome, Fault>
    ensures { WritesAll (W.contents out.old) (W.contents out.new) result
        (front_lines (option_map (λ name. name.now) source.entry.file) front.now) }
{
    if is_all_whitespace(front) {
        return Ok(Outcome::Clean);
    }
    report_refused(
        out,
        source.file,
        None,
        None,
        "The mailbox does not begin with a separator",
        source.notes,
    )
}

/// Saves the chosen files of the mails of a mailbox from its first separator onwards, of which
/// these bytes were read.
fn extract_rest<R: Read, W: Write, D: Directory, K: KnownCharsets, N: Notes>(
    alloc: Global,
    out: &mut W,
    target: &mut Target<D>,
    reader: &mut R,
    read: &[u8],
    source: Source<'_, K, N>,
) -> Result<Outcome, Fault>
    ensures { EndsAfter (D.held target.old.directory) (D.held target.new.directory)
        (W.contents out.old) (W.contents out.new) target.old.number target.new.number
        read.now (R.remaining reader.old) (R.remaining reader.new) result
        (λ bytes. AreMails (option_map (λ name. name.now) source.entry.file) D.can_fail
        (options_view source.entry.options) (K.known source.entry.known.now)
        (format_of source.entry.kind) 1 (entries_in (format_of source.entry.kind) bytes)) }
{
    let format = source.kind.format();
    let mut outcome = Outcome::Clean;
    let mut number = 1usize;
    let mut pending = read.to_vec(alloc)?;
    for _turn in 0..u64::MAX {
        let has_ended = read_until(alloc, &mut pending, reader, Wanted::FirstMail(format))?;
        let bytes = pending.as_slice();
        if has_ended {
            let mails = read_mailbox(bytes, format);
            return Ok(outcome.and(extract_mails(alloc, out, target, mails, number, source)?));
        }
        let settled = extract_settled(alloc, out, target, bytes, number, source)?;
        flush(out)?;
        outcome = outcome.and(settled.outcome);
        number = settled.number;
        pending = settled.rest.to_vec(alloc)?;
    }
    Err(Fault::Input(io::Error::from(ErrorKind::Interrupted)))
}

/// What remains of a mailbox after the files of the mails at its front were saved.
#[derive(Drop)]
struct Settled<'a> {
    /// The bytes after them.
    rest: &'a [u8],
    /// The number of the mail after them.
    number: usize,
    /// The worst outcome that their lines report.
    outcome: Outcome,
}

/// Saves the chosen files of the mails at the front of these bytes that no further bytes can
/// change. The first has this number.
fn extract_settled<'a, W: Write, D: Directory, K: KnownCharsets, N: Notes>(
    alloc: Global,
    out: &mut W,
    target: &mut Target<D>,
    bytes: &'a [u8],
    first: usize,
    source: Source<'_, K, N>,
) -> Result<Settled<'a>, Fault>
    ensures saved { IfOk result (λ settled. SavesFront (D.held target.old.directory)
        (D.held target.new.directory) (W.contents out.old) (W.contents out.new)
        target.old.number target.new.number
        (option_map (λ name. name.now) source.entry.file) D.can_fail
        (options_view source.entry.options) (K.known source.entry.known.now)
        (format_of source.entry.kind) first bytes.now settled.number settled.rest.now
        settled.outcome) }
    ensures failed { IfErr result IsEnd }
{
    let format = source.kind.format();
    let mut rest = bytes;
    let mut number = first;
    let mut outcome = Outcome::Clean;
    'mails: while let Some((entry, after)) = settled_entry(rest, format) {
        outcome = outcome.and(extract_entry(alloc, out, target, &entry, number, source)?);
        number = next_number(number);
        rest = after;
    }
    Ok(Settled {
        rest,
        number,
        outcome,
    })
}

/// Saves the chosen files of those mails of a mailbox that are left. The first has this number.
fn extract_mails<W: Write, D: Directory, K: KnownCharsets, N: Notes>(
    alloc: Global,
    out: &mut W,
    target: &mut Target<D>,
    mails: Mailbox<'_>,
    first: usize,
    source: Source<'_, K, N>,
) -> Result<Outcome, Fault>
    ensures { Ends (D.held target.old.directory) (D.held target.new.directory)
        (W.contents out.old) (W.contents out.new) target.old.number target.new.number result
        (AreMails (option_map (λ name. name.now) source.entry.file) D.can_fail
        (options_view source.entry.options) (K.known source.entry.known.now)
        (format_of source.entry.kind) first (entries_left mails.entry)) }
{
    let mut outcome = Outcome::Clean;
    let mut number = first;
    for entry in mails {
        outcome = outcome.and(extract_entry(alloc, out, target, &entry, number, source)?);
        number = next_number(number);
    }
    Ok(outcome)
}

/// Returns the number of the mail after the one with this number.
fn next_number(number: usize) -> usize
    ensures { result ≡ saturating_add number 1 }
{
    number.saturating_add(1)
}

/// Saves the chosen files of a mail of a mailbox.
fn extract_entry<W: Write, D: Directory, K: KnownCharsets, N: Notes>(
    alloc: Global,
    out: &mut W,
    target: &mut Target<D>,
    entry: &MailboxEntry<'_>,
    number: usize,
    source: Source<'_, K, N>,
) -> Result<Outcome, Fault>
    ensures { Ends (D.held target.old.directory) (D.held target.new.directory)
        (W.contents out.old) (W.contents out.new) target.old.number target.new.number result
        (IsMail (option_map (λ name. name.now) source.entry.file) D.can_fail
        (options_view source.entry.options) (K.known source.entry.known.now) (Some number)
        (mail_in (format_of source.entry.kind) entry.now.mail)) }
{
    match source.kind.format() {
        Format::Plain | Format::Counted => {
            extract_one(alloc, out, target, entry.mail(), Some(number), source)
        }
        Format::Quoted => {
            let mail = unquoted(alloc, entry.mail())?;
            extract_one(alloc, out, target, mail.as_slice(), Some(number), source)
        }
    }
}

/// Saves the chosen files of a mail with this number in its mailbox, or of a mail by itself, and
/// writes their lines, or the line of its refusal.
fn extract_one<W: Write, D: Directory, K: KnownCharsets, N: Notes>(
    alloc: Global,
    out: &mut W,
    target: &mut Target<D>,
    raw: &[u8],
    number: Option<usize>,
    source: Source<'_, K, N>,
) -> Result<Outcome, Fault>
    ensures { Ends (D.held target.old.directory) (D.held target.new.directory)
        (W.contents out.old) (W.contents out.new) target.old.number target.new.number result
        (IsMail (option_map (λ name. name.now) source.entry.file) D.can_fail
        (options_view source.entry.options) (K.known source.entry.known.now) number raw.now) }
{
    let options = source.options;
    match read_bounded(alloc, raw, options.limit, options.most_bytes, source.known) {
        Ok(mail) => extract_mail(alloc, out, target, &mail, number, source),
        Err(error) => {
            let Some(text) = refusal_of(alloc, &error)? else {
                return Err(Fault::Mail(error));
            };
            report_refused(out, source.file, number, None, text.as_str(), source.notes)
        }
    }
}
