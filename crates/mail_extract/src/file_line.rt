//! The lines that report what was saved of the files of mails.
ghost use Rattle.mail_extract.specs.FileLine.{file_line_value};
ghost use Rattle.mail_extract.specs.FileLineViews.{file_line_view};
ghost use Rattle.mail_json_text.specs.Printed.{line_of};
ghost use Rattle.mail_program.specs.Streams.{Writes};

use mail_json_text::{add_number_or_null, add_optional, first_key, key, write_word};
use mail_program::Fault;
use std::io::Write;

/// The members of the line of a file of a mail, or of an input or a mail that was not read.
#[derive(Clone, Copy, Debug)]
pub struct FileLine<'l> {
    /// The name of the input, or `None` for standard input.
    pub file: Option<&'l str>,
    /// The number of the mail in its mailbox, counted from 1, or `None` for a mail by itself.
    pub number: Option<usize>,
    /// The path of the part.
    pub path: Option<&'l str>,
    /// The name under which the part was saved.
    pub saved: Option<&'l str>,
    /// The number of bytes that could be read.
    pub size: Option<usize>,
    /// The SHA-256 of the saved bytes, in hexadecimal.
    pub sha256: Option<&'l str>,
    /// Why the part was not saved, or not completely.
    pub error: Option<&'l str>,
}

/// Writes the line of a file: one JSON object (RFC 8259). Does not allocate.
///
/// # Errors
///
/// `Fault::Output` if a write fails.
///
/// # Examples
///
/// ```rust
/// use mail_extract::{FileLine, write_file_line};
///
/// let mut out = Vec::new(alloc);
/// let line = FileLine {
///     file: Some("a\u{2028}.eml"),
///     number: None,
///     path: None,
///     saved: None,
///     size: None,
///     sha256: None,
///     error: Some("no mail"),
/// };
/// write_file_line(&mut out, &line)?;
/// assert!(rt; out.as_slice().starts_with(b"{\"file\":\"a\\u2028.eml\",\"number\":null,"));
/// assert!(rt; out.as_slice().ends_with(b",\"error\":\"no mail\"}\n"));
/// ```
pub fn write_file_line<W: Write>(out: &mut W, line: &FileLine<'_>) -> Result<(), Fault>
    ensures { Writes (W.contents out.old) (W.contents out.new) result
        (line_of (file_line_value (file_line_view line.now))) }
{
    add_optional(out, first_key!("file"), line.file)?;
    add_number_or_null(out, key!("number"), line.number)?;
    add_optional(out, key!("path"), line.path)?;
    add_optional(out, key!("saved"), line.saved)?;
    add_number_or_null(out, key!("size"), line.size)?;
    add_optional(out, key!("sha256"), line.sha256)?;
    add_optional(out, key!("error"), line.error)?;
    write_word(out, "}\n")
}
