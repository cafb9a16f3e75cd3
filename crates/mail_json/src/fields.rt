//! Texts of headers, in the charsets that are known.
ghost use Rattle.std.specs.Prelude.{◌≡◌, option_map, Ok};
ghost use Rattle.mailparse.specs.Mail.{root};
ghost use Rattle.mailparse.specs.Map.{text_found};
ghost use Rattle.mailparse.specs.Outcome.{AnswersOrMemory};
ghost use Rattle.mailparse.specs.Views.{kind, tree_of};
ghost use Rattle.mail_json.specs.Fields.{content_id, kind_text, value_of};

use mail_data::archive::ids_of;
use mail_read::lenient::{IdRule, first_header_text};
use mailparse::{DispositionType, KnownCharsets, MailParseError, ParsedMail};
use std::alloc::Global;

/// Returns the text of the first header with this name.
pub(crate) fn value_of<K: KnownCharsets>(
    alloc: Global,
    mail: &ParsedMail<'_>,
    key: &str,
    known: &K,
) -> Result<Option<String>, MailParseError>
    ensures { AnswersOrMemory text_found result
        (Ok (value_of (K.known known.now) key.now (root (tree_of mail.now)))) }
{
    let text = first_header_text(alloc, &mail.headers, key, known)?;
    Ok(text)
}

/// Returns the id of the content of a part: the first one in its header `Content-ID` (RFC 2045,
/// section 7).
pub(crate) fn content_id(
    alloc: Global,
    part: &ParsedMail<'_>,
) -> Result<Option<String>, MailParseError>
    ensures { AnswersOrMemory text_found result (Ok (content_id (root (tree_of part.now)))) }
{
    let ids = ids_of(alloc, &part.headers, "Content-ID", IdRule::Any)?;
    Ok(ids.into_iter().next())
}

/// Returns the name of a disposition, if there is one.
pub(crate) fn disposition_name(disposition: &Option<DispositionType>) -> Option<&str>
    ensures { option_map (λ name. name.now) result
        ≡ option_map kind_text (option_map kind disposition.now) }
{
    match disposition {
        Some(disposition) => Some(kind_name(disposition)),
        None => None,
    }
}

/// Returns the name of a kind of disposition.
fn kind_name(disposition: &DispositionType) -> &str
    ensures { result.now ≡ kind_text (kind disposition.now) }
{
    match disposition {
        DispositionType::Inline => "inline",
        DispositionType::Attachment => "attachment",
        DispositionType::FormData => "form-data",
        DispositionType::Extension(name) => name.as_str(),
    }
}
