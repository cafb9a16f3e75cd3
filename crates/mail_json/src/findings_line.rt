//! The line of the findings of a mail, and the same in the line of the mail.
ghost use Rattle.std.specs.Prelude.{map};
ghost use Rattle.mail_check.specs.FindingViews.{finding_view};
ghost use Rattle.mail_json.specs.FindingsLine.{findings_value};
ghost use Rattle.mail_json_text.specs.Members.{AddsMembers};
ghost use Rattle.mail_json.specs.Options.{options_of};
ghost use Rattle.mail_json.specs.Origin.{origin_of};
ghost use Rattle.mail_json_text.specs.Printed.{line_of};
ghost use Rattle.mail_json.specs.Values.{finding_value, findings_if, findings_member, found_members};
ghost use Rattle.mail_program.specs.Streams.{Writes};

use crate::lists::{ListItem, write_list};
use crate::options::LineOptions;
use crate::origin::{Origin, write_origin};
use mail_check::{Finding, read_findings};
use mail_json_text::{add_null, add_number, add_text, first_key, key, write_word};
use mail_program::{Fault, refusal_of};
use mailparse::KnownCharsets;
use std::alloc::Global;
use std::io::Write;

/// Writes the line of the findings of a mail: one JSON object (RFC 8259) with the origin of the
/// mail and a list. Does not allocate.
///
/// # Errors
///
/// `Fault::Output` if a write fails.
///
/// # Examples
///
/// ```rust
/// use mail_check::findings;
/// use mail_json::{Origin, write_findings};
/// use mailparse::parse_mail;
///
/// let raw = b"A: b\n\na\0b\n";
/// let found = findings(alloc, &parse_mail(alloc, raw)?, &())?;
/// let origin = Origin {
///     file: None,
///     number: None,
///     start: 0,
///     end: raw.len(),
/// };
/// let mut out = Vec::new(alloc);
/// write_findings(alloc, &mut out, &origin, found.as_slice())?;
/// let line = b"{\"schema\":6,\"file\":null,\"number\":null,\"start\":0,\"end\":10,\
///     \"findings\":[{\"name\":\"nul\",\"class\":\"structure\",\"path\":\"1\",\"start\":7,\"end\":8,";
/// assert!(rt; out.as_slice().starts_with(line));
/// ```
pub fn write_findings<W: Write>(
    alloc: Global,
    out: &mut W,
    origin: &Origin<'_>,
    found: &[Finding],
) -> Result<(), Fault>
    ensures { Writes (W.contents out.old) (W.contents out.new) result
        (line_of (findings_value (origin_of origin.now) (map finding_view found.now))) }
{
    write_origin(out, origin)?;
    add_found(alloc, out, found)?;
    write_word(out, "}\n")
}

/// Adds what is found in the bytes of a mail, or why that is refused, or nothing if it is not asked
/// for.
pub(crate) fn add_findings<W: Write, K: KnownCharsets>(
    alloc: Global,
    out: &mut W,
    raw: &[u8],
    options: LineOptions<'_>,
    known: &K,
) -> Result<(), Fault>
    ensures { AddsMembers (W.contents out.old) (W.contents out.new) result
        (found_members (findings_if (options_of (K.known known.now) options.entry) raw.now)) }
{
    if !options.lists_findings {
        return Ok(());
    }
    match read_findings(alloc, raw, options.limit, known) {
        Ok(found) => add_found(alloc, out, found.as_slice()),
        Err(error) => {
            let Some(text) = refusal_of(alloc, &error)? else {
                return Err(Fault::Mail(error));
            };
            add_null(out, key!("findings"))?;
            add_text(out, key!("findings_error"), text.as_str())
        }
    }
}

/// Adds the member with these findings.
fn add_found<W: Write>(alloc: Global, out: &mut W, found: &[Finding]) -> Result<(), Fault>
    ensures { AddsMembers (W.contents out.old) (W.contents out.new) result
        (findings_member (map finding_view found.now)) }
{
    write_word(out, key!("findings"))?;
    write_list(alloc, out, found, &())
}

impl ListItem for Finding {
    ghost value = { λ known finding. finding_value (finding_view finding) };

    fn write_item<W: Write, K: KnownCharsets>(
        &self,
        _alloc: Global,
        out: &mut W,
        _known: &K,
    ) -> Result<(), Fault> {
        add_text(out, first_key!("name"), self.name.text())?;
        add_text(out, key!("class"), self.class.text())?;
        add_text(out, key!("path"), self.path.as_str())?;
        add_number(out, key!("start"), self.range.start)?;
        add_number(out, key!("end"), self.range.end)?;
        add_text(out, key!("sentence"), self.name.sentence())?;
        write_word(out, "}")
    }
}
