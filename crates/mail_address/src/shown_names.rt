//! Display names as people see them: read leniently, and without the quotes around them.
ghost use Rattle.std.specs.Prelude.{◌≡◌, ◌-◌, true, false, length, slice_range, MatchOption};
ghost use Rattle.mailparse.specs.Outcome.{GivesText};
ghost use Rattle.mail_address.specs.ShownNames.{is_in_quotes, shown_display_name};

use crate::text::phrase_text;
use mail_codec::charset::KnownCharsets;
use mail_read::lenient::lenient_name_text;
use mailparse::MailParseError;
use std::alloc::Global;

/// Returns the text between the quotes or the apostrophes at the ends of a text, or `None` if these
/// are not there.
fn inside_quotes(text: &str) -> Option<&str>
    ensures { MatchOption result (is_in_quotes text.now ≡ false)
        (λ inside. (is_in_quotes text.now ≡ true)
        × (inside.now ≡ slice_range text.now 1 (length text.now - 1))) }
{
    if text.len() < 2 {
        return None;
    }
    if text.starts_with('"') && text.ends_with('"') {
        return Some(&text[1..text.len() - 1]);
    }
    if text.starts_with('\'') && text.ends_with('\'') {
        return Some(&text[1..text.len() - 1]);
    }
    None
}

/// Returns the text of a display name as people see it.
#[tactic(auto, unfolding(crate::specs::ShownNames::without_quotes))]
pub(crate) fn shown_name<K: KnownCharsets>(
    alloc: Global,
    phrase: &[u8],
    known: &K,
) -> Result<String, MailParseError>
    ensures { GivesText result (shown_display_name (K.known known.now) phrase.now) }
{
    let phrase = phrase_text(alloc, phrase)?;
    let name = lenient_name_text(alloc, phrase.as_slice(), known)?;
    match inside_quotes(name.as_str()) {
        Some(inside) => Ok(String::from_str(alloc, inside)?),
        None => Ok(name),
    }
}
