//! The lines of a part of a file: of the mails of a mailbox that begin in it.
ghost use Rattle.std.specs.Prelude.{◌*◌, ◌-◌, ◌/◌, ◌<◌, ◌≡◌, ◌≤◌, List, length, option_map, ℕ};
ghost use Rattle.mail_data.specs.MailboxParts.{part_start};
ghost use Rattle.mail_walk.specs.Kind.{format_of};
ghost use Rattle.mail_json.specs.Options.{options_of};
ghost use Rattle.mail_json.specs.Range.{AreFirstLines, AreRangeLinesAt, ShowsMailbox, WritesPart};
ghost use Rattle.mail_json.specs.Range.{reading_start};

use crate::json_lines::write_mails;
use crate::options::Source;
use crate::selection::{NextMail, Selection};
use crate::stream::{Watch, write_chosen, write_rest};
use crate::written::Written;
use mail_data::mailbox::{has_front, read_mailbox};
use mail_program::Fault;
use mail_walk::{InputKind, Wanted, is_mailbox, read_until};
use mailparse::KnownCharsets;
use std::alloc::Global;
use std::io::{Read, Write};
use std::ops::Range;

/// A part of a file: one of `count` equal parts.
#[derive(Clone, Copy, Debug)]
pub struct FilePart {
    /// The number of the part, counted from 1.
    pub number: usize,
    /// The number of parts.
    pub count: usize,
}

impl FilePart {
    /// Returns the offsets of the part in a file of this size.
    ///
    /// # Examples
    ///
    /// ```rust
    /// use mail_json::range::FilePart;
    ///
    /// let range = FilePart { number: 2, count: 3 }.range(10);
    /// assert_eq!(rt; (range.start, range.end), (3, 6));
    /// ```
    pub fn range(self, size: usize) -> Range<usize>
        ensures start { (bytes : List ℕ) → length bytes ≡ size → 0 < self.number →
            self.number ≤ self.count →
            result.start ≡ part_start bytes self.count (self.number - 1) }
        ensures end { (bytes : List ℕ) → length bytes ≡ size → 0 < self.count →
            self.number ≤ self.count → result.end ≡ part_start bytes self.count self.number }
    {
        let start = part_start(size, self.count, self.number.saturating_sub(1));
        start..part_start(size, self.count, self.number)
    }
}

/// Returns the offset at which reading starts, so that the first mail of a range from this offset
/// onwards is found: three bytes before it, since a separator follows an empty line and the end of
/// the line before that.
///
/// # Examples
///
/// ```rust
/// use mail_json::range::reading_start;
///
/// assert_eq!(rt; reading_start(100), 97);
/// assert_eq!(rt; reading_start(2), 0);
/// ```
pub fn reading_start(from: usize) -> usize
    ensures { result ≡ reading_start from }
{
    from.saturating_sub(3)
}

/// Returns the offset at which the part with this number, counted from 0, begins.
fn part_start(size: usize, count: usize, number: usize) -> usize
    ensures { 0 < count → number ≤ count → result ≡ size * number / count }
{
    if count == 0 || number > count {
        return size;
    }
    (size as u128 * number as u128 / count as u128) as usize
}

/// Returns whether an input of this kind is a mailbox, of which it reads no more than shows it.
///
/// # Errors
///
/// `Fault::Input` if a read fails, and `Fault::Mail` with `MailParseError::Memory` if it runs out
/// of memory.
///
/// # Examples
///
/// ```rust
/// use mail_json::range::shows_mailbox;
/// use mail_walk::InputKind;
///
/// let mut reader = b"Subject: Hi\n\n".as_slice();
/// assert!(rt; !shows_mailbox(alloc, &mut reader, InputKind::Either)?);
/// ```
pub fn shows_mailbox<R: Read>(alloc: Global, reader: &mut R, kind: InputKind) -> Result<bool, Fault>
    ensures { ShowsMailbox kind (R.remaining reader.old) (R.remaining reader.new) result }
{
    let mut read = Vec::new(alloc);
    read_until(alloc, &mut read, reader, Wanted::FirstLine)?;
    Ok(is_mailbox(kind, read.as_slice()))
}

/// Writes the lines of the first part of an input, which ends at the offset `end`: of a mailbox the
/// error for the text before the first mail, and the mails that begin before `end`; or the line of
/// an input that is one mail.
///
/// # Errors
///
/// As `write_input`.
///
/// # Examples
///
/// ```rust
/// use mail_json::range::write_first_part;
/// use mail_json::{LineOptions, Source, Unwatched};
/// use mail_walk::InputKind;
///
/// let mut reader = b"From a@b Fri Jul  8 12:08:34 2011\nA: 1\n\nFrom a@b Fri Jul  8 12:08:34 2011\n"
///     .as_slice();
/// let mut out = Vec::new(alloc);
/// let source = Source {
///     kind: InputKind::Either,
///     file: None,
///     options: LineOptions::new(),
///     known: &(),
/// };
/// write_first_part(alloc, &mut out, &mut reader, source, 40, &mut Unwatched)?;
/// assert_eq!(rt; out.as_slice().iter().filter(|byte| **byte == b'\n').count(), 1);
/// ```
pub fn write_first_part<R: Read, W: Write, M: Watch, K: KnownCharsets>(
    alloc: Global,
    out: &mut W,
    reader: &mut R,
    source: Source<'_, K>,
    end: usize,
    watch: &mut M,
) -> Result<Written, Fault>
    ensures { WritesPart (R.remaining reader.old) (R.remaining reader.new)
        (W.contents out.old) (W.contents out.new) result (AreFirstLines
        (options_of (K.known source.entry.known.now) source.entry.options) source.entry.kind
        (option_map (λ name. name.now) source.entry.file) end) }
{
    let selection = Selection::Within { from: 0, to: end };
    write_chosen(alloc, out, reader, source, selection, watch)
}

/// Writes the lines of the mails of a mailbox that begin in a range, where the reader is at the
/// `reading_start` of the range. An input whose kind does not say its format is read in the plain
/// one. If no mail begins in the range, it reads no more than a block past its end, or past the
/// line that contains its end.
///
/// # Errors
///
/// As `write_input`.
///
/// # Examples
///
/// ```rust
/// use mail_json::range::{reading_start, write_range};
/// use mail_json::{LineOptions, Source, Unwatched};
/// use mail_walk::InputKind;
///
/// let mailbox = b"From a@b Fri Jul  8 12:08:34 2011\nA: 1\n\nFrom a@b Fri Jul  8 12:08:34 2011\n";
/// let mut reader = &mailbox[reading_start(20)..];
/// let mut out = Vec::new(alloc);
/// let source = Source {
///     kind: InputKind::Either,
///     file: None,
///     options: LineOptions::new(),
///     known: &(),
/// };
/// write_range(alloc, &mut out, &mut reader, source, 20..60, &mut Unwatched)?;
/// assert!(rt; out.as_slice().starts_with(
///     b"{\"schema\":6,\"file\":null,\"number\":null,\"start\":74,"
/// ));
/// ```
pub fn write_range<R: Read, W: Write, M: Watch, K: KnownCharsets>(
    alloc: Global,
    out: &mut W,
    reader: &mut R,
    source: Source<'_, K>,
    range: Range<usize>,
    watch: &mut M,
) -> Result<Written, Fault>
    ensures { WritesPart (R.remaining reader.old) (R.remaining reader.new)
        (W.contents out.old) (W.contents out.new) result (AreRangeLinesAt
        (options_of (K.known source.entry.known.now) source.entry.options)
        (format_of source.entry.kind) (option_map (λ name. name.now) source.entry.file)
        range.start range.end (reading_start range.start)) }
{
    let at = reading_start(range.start);
    let wanted = Wanted::FrontBefore(range.end.saturating_sub(at));
    let mut read = Vec::new(alloc);
    let has_ended = read_until(alloc, &mut read, reader, wanted)?;
    let mails = read_mailbox(read.as_slice(), source.kind.format());
    let front = mails.front();
    let first = NextMail {
        selection: Selection::within(range.start, range.end),
        at: at.saturating_add(front.len()),
    };
    if has_ended {
        return write_mails(alloc, out, mails, source, first);
    }
    if !has_front(read.as_slice()) {
        return Ok(Written::Clean);
    }
    let rest = &read[front.len()..];
    write_rest(alloc, out, reader, rest, source, first, watch)
}
