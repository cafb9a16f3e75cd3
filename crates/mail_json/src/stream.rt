//! The lines of an input that is read in blocks.
ghost use Rattle.std.specs.Prelude.{◌≡◌, ◌++◌, IfErr, IfOk, [], option_map, true};
ghost use Rattle.mail_data.specs.Mailbox.{has_front};
ghost use Rattle.mail_data.specs.MailboxFormats.{entries_in};
ghost use Rattle.mail_data.specs.MailboxParts.{placed_from};
ghost use Rattle.mail_json.specs.JsonLines.{AreInputLines, WritesInput, WritesLines};
ghost use Rattle.mail_walk.specs.Kind.{format_of};
ghost use Rattle.mail_json.specs.Options.{options_of};
ghost use Rattle.mail_json.specs.Selection.{AreChosen, AreInputChosen, AreMailboxChosen};
ghost use Rattle.mail_json.specs.Stream.{WritesChosen, WritesSettled};
ghost use Rattle.mail_program.specs.Fault.{IsEnd};
ghost use Rattle.mail_program.specs.Streams.{Writes};
ghost use Rattle.mail_json.specs.Written.{is_clean};

use crate::json_lines::{write_entry, write_front, write_mailbox, write_mails, write_single};
use crate::options::Source;
use crate::selection::{NextMail, Selection};
use crate::written::Written;
use mail_data::mailbox::{read_mailbox, settled_entry};
use mail_program::Fault;
use mail_walk::{Wanted, first_wanted, is_mailbox, read_until};
use mailparse::KnownCharsets;
use std::alloc::Global;
use std::io::{self, ErrorKind, Read, Write};

/// Takes note of the progress of writing the lines of an input.
pub trait Watch {
    /// Takes note of the next mail of a mailbox and its offset.
    ///
    /// # Examples
    ///
    /// ```rust
    /// use mail_json::{NextMail, Selection, Unwatched, Watch};
    ///
    /// Unwatched.note(NextMail { selection: Selection::Numbered(2), at: 1000 });
    /// ```
    fn note(&mut self, next: NextMail);
}

/// Takes note of nothing.
#[derive(Clone, Copy, Debug)]
pub struct Unwatched;

impl Watch for Unwatched {
    fn note(&mut self, _next: NextMail) {}
}

/// What remains of a mailbox after the mails at its front were written.
#[derive(Drop)]
struct Settled<'a> {
    /// The bytes after them.
    rest: &'a [u8],
    /// The mail after them.
    next: NextMail,
    /// Whether one of them was refused.
    written: Written,
}

/// Writes the lines of an input, each mail of a mailbox as soon as it was read.
///
/// # Errors
///
/// `Fault::Input` if a read fails, `Fault::Output` if a write fails, and `Fault::Mail` with
/// `MailParseError::Memory` if it runs out of memory.
///
/// # Examples
///
/// ```rust
/// use mail_json::{LineOptions, Source, Unwatched, Written, write_input};
/// use mail_walk::InputKind;
///
/// let mut reader = b"From a@b Fri Jul  8 12:08:34 2011\nSubject: Hi\n\nHello\n".as_slice();
/// let mut out = Vec::new(alloc);
/// let source = Source {
///     kind: InputKind::Either,
///     file: None,
///     options: LineOptions::new(),
///     known: &(),
/// };
/// let written = write_input(alloc, &mut out, &mut reader, source, &mut Unwatched)?;
/// assert_eq!(rt; written, Written::Clean);
/// assert!(rt; out.as_slice().starts_with(b"{\"schema\":6,\"file\":null,\"number\":1,\"start\":34,"));
/// ```
pub fn write_input<R: Read, W: Write, M: Watch, K: KnownCharsets>(
    alloc: Global,
    out: &mut W,
    reader: &mut R,
    source: Source<'_, K>,
    watch: &mut M,
) -> Result<Written, Fault>
    ensures { WritesInput (R.remaining reader.old) (R.remaining reader.new)
        (W.contents out.old) (W.contents out.new) result (AreInputLines
        (options_of (K.known source.entry.known.now) source.entry.options) source.entry.kind
        (option_map (λ name. name.now) source.entry.file)) }
{
    write_chosen(alloc, out, reader, source, Selection::Numbered(1), watch)
}

/// Writes the lines of an input, of a mailbox those of the mails that have one, each as soon as it
/// was read.
pub(crate) fn write_chosen<R: Read, W: Write, M: Watch, K: KnownCharsets>(
    alloc: Global,
    out: &mut W,
    reader: &mut R,
    source: Source<'_, K>,
    selection: Selection,
    watch: &mut M,
) -> Result<Written, Fault>
    ensures { WritesChosen selection (R.remaining reader.old) (R.remaining reader.new)
        (W.contents out.old) (W.contents out.new) result (AreInputChosen
        (options_of (K.known source.entry.known.now) source.entry.options) source.entry.kind
        (option_map (λ name. name.now) source.entry.file) selection) }
{
    let mut read = Vec::new(alloc);
    let has_ended = read_until(alloc, &mut read, reader, first_wanted(source.kind))?;
    if has_ended {
        return write_whole(alloc, out, read.as_slice(), source, selection);
    }
    if is_mailbox(source.kind, read.as_slice()) {
        return write_following(
            alloc,
            out,
            reader,
            read.as_slice(),
            source,
            selection,
            watch,
        );
    }
    read_until(alloc, &mut read, reader, Wanted::End)?;
    let (file, options, known) = (source.file, source.options, source.known);
    write_single(alloc, out, read.as_slice(), file, options, known)
}

/// Writes the lines of an input that was read to its end.
fn write_whole<W: Write, K: KnownCharsets>(
    alloc: Global,
    out: &mut W,
    input: &[u8],
    source: Source<'_, K>,
    selection: Selection,
) -> Result<Written, Fault>
    ensures { WritesLines (W.contents out.old) (W.contents out.new) result
        (AreInputChosen (options_of (K.known source.entry.known.now) source.entry.options)
        source.entry.kind (option_map (λ name. name.now) source.entry.file) selection input.now) }
{
    if is_mailbox(source.kind, input) {
        write_mailbox(alloc, out, input, source, selection)
    } else {
        let (file, options, known) = (source.file, source.options, source.known);
        write_single(alloc, out, input, file, options, known)
    }
}

/// Writes the lines of a mailbox of which these bytes were read, up to the first separator or
/// further.
fn write_following<R: Read, W: Write, M: Watch, K: KnownCharsets>(
    alloc: Global,
    out: &mut W,
    reader: &mut R,
    read: &[u8],
    source: Source<'_, K>,
    selection: Selection,
    watch: &mut M,
) -> Result<Written, Fault>
    requires { has_front read.now ≡ true }
    ensures { WritesChosen selection (R.remaining reader.old) (R.remaining reader.new)
        (W.contents out.old) (W.contents out.new) result (λ more. AreMailboxChosen
        (options_of (K.known source.entry.known.now) source.entry.options)
        (format_of source.entry.kind) (option_map (λ name. name.now) source.entry.file) selection
        (read.now ++ more)) }
{
    let front = read_mailbox(read, source.kind.format()).front();
    let written = write_front(out, front, source.file)?;
    let first = NextMail {
        selection,
        at: front.len(),
    };
    let rest = &read[front.len()..];
    Ok(written.and(write_rest(alloc, out, reader, rest, source, first, watch)?))
}

/// Writes the lines of the mails of a mailbox from the first one onwards, of which these bytes were
/// read. Stops before the end of the input if no mail that follows has a line.
pub(crate) fn write_rest<R: Read, W: Write, M: Watch, K: KnownCharsets>(
    alloc: Global,
    out: &mut W,
    reader: &mut R,
    read: &[u8],
    source: Source<'_, K>,
    first: NextMail,
    watch: &mut M,
) -> Result<Written, Fault>
    ensures { WritesChosen first.selection (R.remaining reader.old) (R.remaining reader.new)
        (W.contents out.old) (W.contents out.new) result (λ more. AreChosen
        (options_of (K.known source.entry.known.now) source.entry.options)
        (format_of source.entry.kind) (option_map (λ name. name.now) source.entry.file)
        first.selection (placed_from first.at
        (entries_in (format_of source.entry.kind) (read.now ++ more)))) }
{
    let format = source.kind.format();
    let mut written = Written::Clean;
    let mut next = first;
    let mut pending = read.to_vec(alloc)?;
    for _turn in 0..u64::MAX {
        if next.is_past() {
            return Ok(written);
        }
        let has_ended = read_until(alloc, &mut pending, reader, Wanted::FirstMail(format))?;
        if has_ended {
            let mails = read_mailbox(pending.as_slice(), format);
            return Ok(written.and(write_mails(alloc, out, mails, source, next)?));
        }
        let bytes = pending.as_slice();
        let settled = write_settled(alloc, out, bytes, source, next)?;
        flush(out)?;
        written = written.and(settled.written);
        next = settled.next;
        watch.note(next);
        pending = settled.rest.to_vec(alloc)?;
    }
    Err(Fault::Input(io::Error::from(ErrorKind::Interrupted)))
}

/// Writes the lines of the mails at the front of these bytes that no further bytes can change.
fn write_settled<'a, W: Write, K: KnownCharsets>(
    alloc: Global,
    out: &mut W,
    bytes: &'a [u8],
    source: Source<'_, K>,
    first: NextMail,
) -> Result<Settled<'a>, Fault>
    ensures written { IfOk result (λ s. WritesSettled
        (options_of (K.known source.entry.known.now) source.entry.options)
        (format_of source.entry.kind) (option_map (λ name. name.now) source.entry.file)
        (W.contents out.old) (W.contents out.new) first.selection first.at bytes.now
        s.next.selection s.next.at s.rest.now (is_clean s.written)) }
    ensures failed { IfErr result IsEnd }
{
    let format = source.kind.format();
    let mut rest = bytes;
    let mut next = first;
    let mut written = Written::Clean;
    'mails: while let Some((entry, after)) = settled_entry(rest, format) {
        written = written.and(write_entry(alloc, out, &entry, source, next)?);
        next = next.after(&entry);
        rest = after;
    }
    Ok(Settled {
        rest,
        next,
        written,
    })
}

/// Flushes the writer.
fn flush<W: Write>(out: &mut W) -> Result<(), Fault>
    ensures { Writes (W.contents out.old) (W.contents out.new) result [] }
{
    match out.flush() {
        Ok(()) => Ok(()),
        Err(error) => Err(Fault::Output(error)),
    }
}
