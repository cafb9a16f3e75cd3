//! The lines that report what was saved, and the outcomes that they report.
ghost use Rattle.std.specs.Prelude.{◌≡◌, ◌∷◌, [], option_map};
ghost use Rattle.mail_extract.specs.FileLineViews.{file_line_view};
ghost use Rattle.mail_extract.specs.Input.{file_line, refused_line};
ghost use Rattle.mail_extract.specs.Report.{WritesAll, judged};
ghost use Rattle.mail_extract.specs.SaveViews.{outcome};
ghost use Rattle.mail_program.specs.Streams.{Writes};

use crate::file_line::{FileLine, write_file_line};
use crate::notes::Notes;
use crate::save::Saved;
use mail_program::{Fault, Outcome};
use std::alloc::AllocError;
use std::io::Write;

/// Writes a line, and returns the outcome that it reports: it failed if a file could not be saved.
/// Does not allocate.
///
/// # Errors
///
/// `Fault::Output` if a write fails.
///
/// # Examples
///
/// ```rust
/// use mail_extract::{FileLine, write_line};
/// use mail_program::Outcome;
///
/// let mut out = Vec::new(alloc);
/// let line = FileLine {
///     file: Some("a.eml"),
///     number: None,
///     path: None,
///     saved: None,
///     size: None,
///     sha256: None,
///     error: Some("no mail"),
/// };
/// assert!(rt; write_line(&mut out, &line)? == Outcome::Refused);
/// assert!(rt; out.as_slice().ends_with(b"\"error\":\"no mail\"}\n"));
/// ```
pub fn write_line<W: Write>(out: &mut W, line: &FileLine<'_>) -> Result<Outcome, Fault>
    ensures { WritesAll (W.contents out.old) (W.contents out.new) result
        (file_line_view line.now ∷ []) }
{
    write_file_line(out, line)?;
    Ok(outcome_of(line))
}

/// Returns the outcome that a line reports.
fn outcome_of(line: &FileLine<'_>) -> Outcome
    ensures { result ≡ judged (file_line_view line.now) }
{
    match (line.error, line.size, line.saved) {
        (None, _, _) => Outcome::Clean,
        (Some(_), Some(_), None) => Outcome::Failed,
        (Some(_), _, _) => Outcome::Refused,
    }
}

/// Writes the line of a file of the mail with this number, and flushes. It is noted if the file was
/// not saved.
pub(crate) fn report_saved<W: Write, N: Notes>(
    out: &mut W,
    saved: &Saved,
    file: Option<&str>,
    number: Option<usize>,
    notes: &N,
) -> Result<Outcome, Fault>
    ensures { WritesAll (W.contents out.old) (W.contents out.new) result
        (file_line (option_map (λ name. name.now) file.entry) number (outcome saved.now) ∷ []) }
{
    let line = FileLine {
        file,
        number,
        path: Some(saved.path.as_str()),
        saved: saved.name.as_deref(),
        size: Some(saved.size),
        sha256: saved.sha256.as_deref(),
        error: saved.error.as_deref(),
    };
    let outcome = write_line(out, &line)?;
    flush(out)?;
    note_unsaved(notes, &line)?;
    Ok(outcome)
}

/// Writes the line of a refusal: of an input, of its mail with this number, or of the mail in the
/// part with this path. It is noted.
pub(crate) fn report_refused<'l, W: Write, N: Notes>(
    out: &mut W,
    file: Option<&'l str>,
    number: Option<usize>,
    path: Option<&'l str>,
    error: &'l str,
    notes: &N,
) -> Result<Outcome, Fault>
    ensures { WritesAll (W.contents out.old) (W.contents out.new) result
        (refused_line (option_map (λ name. name.now) file.entry) number
        (option_map (λ name. name.now) path.entry) error.now ∷ []) }
{
    let line = FileLine {
        file,
        number,
        path,
        saved: None,
        size: None,
        sha256: None,
        error: Some(error),
    };
    let outcome = write_line(out, &line)?;
    note_unsaved(notes, &line)?;
    Ok(outcome)
}

/// Takes note of a line that names no saved file.
fn note_unsaved<N: Notes>(notes: &N, line: &FileLine<'_>) -> Result<(), AllocError> {
    match line.saved {
        Some(_) => Ok(()),
        None => notes.unsaved(line),
    }
}

/// Flushes the writer.
pub(crate) fn flush<W: Write>(out: &mut W) -> Result<(), Fault>
    ensures { Writes (W.contents out.old) (W.contents out.new) result [] }
{
    match out.flush() {
        Ok(()) => Ok(()),
        Err(error) => Err(Fault::Output(error)),
    }
}
