//! The origin of a line: the file, the mail and its offsets.
ghost use Rattle.std.specs.Prelude.{option_map};
ghost use Rattle.mail_json.specs.Origin.{origin_of};
ghost use Rattle.mail_json_text.specs.Members.{BeginsMembers};
ghost use Rattle.mail_json_text.specs.Printed.{line_of};
ghost use Rattle.mail_json.specs.Values.{error_value, file_members, origin_members, unread_value};
ghost use Rattle.mail_program.specs.Streams.{Writes};

use mail_json_text::{
    add_null, add_number, add_number_or_null, add_optional, add_text, first_key, key, write_word,
};
use mail_program::Fault;
use std::io::Write;

/// The origin of a line.
#[derive(Clone, Copy, Debug)]
pub struct Origin<'n> {
    /// The name of the file, or `None` for standard input.
    pub file: Option<&'n str>,
    /// The number of the mail in its mailbox, counted from 1, or `None` for a mail by itself.
    pub number: Option<usize>,
    /// The offset in the input at which the mail begins.
    pub start: usize,
    /// The offset in the input at which the mail ends.
    pub end: usize,
}

/// Writes the first members of the line of a mail.
pub(crate) fn write_origin<W: Write>(out: &mut W, origin: &Origin<'_>) -> Result<(), Fault>
    ensures { BeginsMembers (W.contents out.old) (W.contents out.new) result
        (origin_members (origin_of origin.now)) }
{
    write_file(out, origin.file)?;
    add_number_or_null(out, key!("number"), origin.number)?;
    add_number(out, key!("start"), origin.start)?;
    add_number(out, key!("end"), origin.end)?;
    Ok(())
}

/// Writes the first members of a line: the number of the schema and the name of the file.
fn write_file<W: Write>(out: &mut W, file: Option<&str>) -> Result<(), Fault>
    ensures { BeginsMembers (W.contents out.old) (W.contents out.new) result
        (file_members (option_map (λ name. name.now) file.entry)) }
{
    add_number(out, first_key!("schema"), 6)?;
    add_optional(out, key!("file"), file)?;
    Ok(())
}

/// Writes the line of a mail that is refused. Does not allocate.
///
/// # Errors
///
/// `Fault::Output` if a write fails.
///
/// # Examples
///
/// ```rust
/// use mail_json::{Origin, write_error};
///
/// let origin = Origin {
///     file: Some("in.eml"),
///     number: None,
///     start: 0,
///     end: 8,
/// };
/// let mut out = Vec::new(alloc);
/// write_error(&mut out, &origin, "no header")?;
/// assert!(rt; out.as_slice().ends_with(b"\"start\":0,\"end\":8,\"error\":\"no header\"}\n"));
/// ```
pub fn write_error<W: Write>(out: &mut W, origin: &Origin<'_>, error: &str) -> Result<(), Fault>
    ensures { Writes (W.contents out.old) (W.contents out.new) result
        (line_of (error_value (origin_of origin.now) error.now)) }
{
    write_origin(out, origin)?;
    add_text(out, key!("error"), error)?;
    write_word(out, "}\n")
}

/// Writes the line of an input that could not be read. Does not allocate.
///
/// # Errors
///
/// `Fault::Output` if a write fails.
///
/// # Examples
///
/// ```rust
/// use mail_json::write_unread;
///
/// let mut out = Vec::new(alloc);
/// write_unread(&mut out, Some("in.eml"), "it is a directory")?;
/// let text = "{\"schema\":6,\"file\":\"in.eml\",\"number\":null,\"start\":null,\"end\":null,";
/// assert!(rt; out.as_slice().starts_with(text.as_bytes()));
/// assert!(rt; out.as_slice().ends_with(b"\"error\":\"it is a directory\"}\n"));
/// ```
pub fn write_unread<W: Write>(out: &mut W, file: Option<&str>, error: &str) -> Result<(), Fault>
    ensures { Writes (W.contents out.old) (W.contents out.new) result
        (line_of (unread_value (option_map (λ name. name.now) file.entry) error.now)) }
{
    write_file(out, file)?;
    add_null(out, key!("number"))?;
    add_null(out, key!("start"))?;
    add_null(out, key!("end"))?;
    add_text(out, key!("error"), error)?;
    write_word(out, "}\n")
}
