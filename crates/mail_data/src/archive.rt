//! The ids that place a mail in a thread.
ghost use Rattle.std.specs.Prelude.{◌≡◌, ◌++◌, map, string_bytes, IfErr, IfOk, Ok};
ghost use Rattle.std.specs.List.{IsDistinct};
ghost use Rattle.std.specs.Str.{bytes_eq};
ghost use Rattle.mailparse.specs.Mail.{root};
ghost use Rattle.mailparse.specs.Map.{text_found};
ghost use Rattle.mailparse.specs.Outcome.{AnswersOrMemory, GivesTexts, IsMemory};
ghost use Rattle.mailparse.specs.Views.{tree_of};
ghost use Rattle.mail_data.specs.Archive.{id_among, ids_of, message_id, parents, without_repeats};
ghost use Rattle.mail_read.specs.lenient.IdViews.{needs_at};

use mail_read::files::NoCharsets;
use mail_read::lenient::{IdRule, find_ids};
use mailparse::{MailHeader, MailHeaderMap, MailParseError, ParsedMail};
use std::alloc::{AllocError, Global};
use std::collections::BTreeSet;

/// Returns the id of a mail, or `None` if it has no id: the first that `ids_of` finds in the first
/// header `Message-ID`, with or without an `@` (RFC 5322, section 3.6.4).
///
/// Allocates the value and the ids in it.
///
/// # Errors
///
/// `MailParseError::Memory` if it runs out of memory.
///
/// # Examples
///
/// ```rust
/// use mail_data::archive::message_id;
/// use mailparse::parse_mail;
///
/// let mail = parse_mail(alloc, b"Message-ID: <one@example.org> (sent twice)\n\nHi")?;
/// let id = message_id(alloc, &mail)?.ok_or("no id")?;
/// assert_eq!(rt; id.as_str(), "one@example.org");
/// ```
pub fn message_id(alloc: Global, mail: &ParsedMail<'_>) -> Result<Option<String>, MailParseError>
    ensures { AnswersOrMemory text_found result (Ok (message_id (root (tree_of mail.now)))) }
{
    id_among(alloc, &mail.headers)
}

/// Returns the id of a mail with these headers.
#[tactic(auto, unfolding(crate::specs::Archive::id_among))]
pub(crate) fn id_among(
    alloc: Global,
    headers: &Vec<MailHeader<'_>>,
) -> Result<Option<String>, MailParseError>
    ensures read { IfOk result (λ id. text_found id ≡ id_among headers.now.items) }
    ensures only_memory { IfErr result IsMemory }
{
    let ids = ids_of(alloc, headers, "Message-ID", IdRule::Any)?;
    Ok(ids.into_iter().next())
}

/// Returns the ids of the mails that precede a mail in its thread: those that `ids_of` finds in the
/// first header `References` and then in the first header `In-Reply-To`, each with an `@` and each
/// once, in the order of their first occurrence (RFC 5322, section 3.6.4).
///
/// The last id of `References` is that of the mail that is answered; usually `In-Reply-To` repeats
/// it. Allocates the values, the ids and a set of them.
///
/// # Errors
///
/// `MailParseError::Memory` if it runs out of memory.
///
/// # Examples
///
/// ```rust
/// use mail_data::archive::parents;
/// use mailparse::parse_mail;
///
/// let mail = parse_mail(alloc, b"References: <one@a> <two@b>\nIn-Reply-To: <two@b>\n\nHi")?;
/// let ids = parents(alloc, &mail)?;
/// assert_eq!(rt; ids.len(), 2);
/// assert_eq!(rt; ids[0].as_str(), "one@a");
/// assert_eq!(rt; ids[1].as_str(), "two@b");
/// ```
#[tactic(auto, unfolding(crate::specs::Archive::parents))]
pub fn parents(alloc: Global, mail: &ParsedMail<'_>) -> Result<Vec<String>, MailParseError>
    ensures read { GivesTexts result (parents (root (tree_of mail.now))) }
    ensures distinct { IfOk result (λ ids. IsDistinct bytes_eq (map string_bytes ids.items)) }
{
    let mut ids = ids_of(alloc, &mail.headers, "References", IdRule::WithAt)?;
    let mut replied = ids_of(alloc, &mail.headers, "In-Reply-To", IdRule::WithAt)?;
    ids.append(&mut replied)?;
    Ok(without_repeats(alloc, ids)?)
}

/// Returns the ids that `lenient::find_ids` finds in the value of the first header with this name
/// (RFC 5322, section 3.6.4).
///
/// The value is unfolded, and no encoded word in it is decoded: ids contain none (RFC 2047, section
/// 5). Allocates the value and the ids.
///
/// # Errors
///
/// `MailParseError::Memory` if it runs out of memory.
///
/// # Examples
///
/// ```rust
/// use mail_data::archive::ids_of;
/// use mail_read::lenient::IdRule;
/// use mailparse::parse_mail;
///
/// let mail = parse_mail(alloc, b"Content-ID: <=?utf-8?Q?a=40b?=>\n\n")?;
/// let ids = ids_of(alloc, &mail.headers, "Content-ID", IdRule::Any)?;
/// assert_eq!(rt; ids[0].as_str(), "=?utf-8?Q?a=40b?=");
/// ```
#[tactic(auto, unfolding(crate::specs::Archive::ids_of))]
pub fn ids_of<H: MailHeaderMap>(
    alloc: Global,
    headers: &H,
    name: &str,
    rule: IdRule,
) -> Result<Vec<String>, MailParseError>
    ensures read { IfOk result (λ ids. map string_bytes ids.items
        ≡ ids_of (needs_at rule) name.now (H.present headers.now)) }
    ensures only_memory { IfErr result IsMemory }
{
    let Some(header) = headers.get_first_header(name) else {
        return Ok(Vec::new(alloc));
    };
    let text = header.get_value_ref_in(alloc, &NoCharsets)?;
    Ok(find_ids(alloc, text.as_str(), rule)?)
}

/// Removes the ids that occur before.
fn without_repeats(alloc: Global, ids: Vec<String>) -> Result<Vec<String>, AllocError>
    ensures { IfOk result (λ kept.
        map string_bytes kept.items ≡ without_repeats (map string_bytes ids.items)) }
{
    let mut seen = BTreeSet::new(alloc);
    let mut kept = Vec::new(alloc);
    for id in ids {
        if seen.insert(id.clone()?)? {
            kept.push(id)?;
        }
    }
    Ok(kept)
}
