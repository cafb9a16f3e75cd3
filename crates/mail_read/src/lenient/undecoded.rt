//! The text of a raw value with its encoded words as they are.
ghost use Rattle.std.specs.Prelude.{Ok};
ghost use Rattle.std.specs.Cow.{cow_str_bytes};
ghost use Rattle.mailparse.specs.Outcome.{AnswersOrMemory, GivesText};
ghost use Rattle.mail_read.specs.lenient.Undecoded.{undecoded};

use super::names::on_one_line;
use crate::files::NoCharsets;
use mailparse::{MailHeader, MailParseError, value_text_in};
use std::alloc::Global;
use std::borrow::CowStr;

/// Returns the text of a raw value with its encoded words as they are. Only whitespace of ASCII is
/// left out at the start of a line that continues it.
#[tactic(auto, using(crate::proofs::lemmas::lenient::Undecoded::undecoded_ascii, crate::proofs::lemmas::lenient::Undecoded::undecoded_other))]
pub(crate) fn undecoded(alloc: Global, value: &[u8]) -> Result<String, MailParseError>
    ensures { GivesText result (undecoded value.now) }
{
    if value.is_ascii() {
        return value_text_in(alloc, value, &NoCharsets);
    }
    let line = on_one_line(alloc, value)?;
    value_text_in(alloc, line.as_slice(), &NoCharsets)
}

/// Returns this text of the value of a header, borrowed if the value is plain.
#[tactic(auto, using(crate::proofs::lemmas::lenient::Undecoded::undecoded_ascii))]
pub(super) fn undecoded_ref<'h>(
    alloc: Global,
    header: &'h MailHeader<'_>,
) -> Result<CowStr<'h>, MailParseError>
    ensures { AnswersOrMemory cow_str_bytes result (Ok (undecoded header.now.value)) }
{
    let raw = header.get_value_raw();
    if raw.is_ascii() {
        return Ok(header.get_value_ref_in(alloc, &NoCharsets)?);
    }
    Ok(CowStr::Owned(undecoded(alloc, raw)?))
}
