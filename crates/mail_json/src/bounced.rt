//! The id of the mail that a bounce returns.
ghost use Rattle.std.specs.Prelude.{◌≡◌, drop, length, map, option_map, Bool, IfErr, IfOk, IfSome};
ghost use Rattle.std.specs.List.{AllByRecursion};
ghost use Rattle.mailparse.specs.Mail.{root, trees_within};
ghost use Rattle.mailparse.specs.Map.{text_found};
ghost use Rattle.mailparse.specs.Outcome.{IsMemory};
ghost use Rattle.mailparse.specs.Views.{tree_of};
ghost use Rattle.mail_data.specs.Archive.{id_among};
ghost use Rattle.mail_data.specs.Bounce.{has_original, original_message_id, report_part};
ghost use Rattle.mail_data.specs.Reports.{fields, has_type};
ghost use Rattle.mail_read.specs.lenient.Content.{message_content};
ghost use Rattle.mail_parts.specs.DecodedViews.{IsDecoded, decoded_tree};

use mail_data::archive::ids_of;
use mail_parts::Decoded;
use mail_read::lenient::{IdRule, lenient_content};
use mailparse::{MailParseError, ParsedMail, parse_lenient_headers};
use std::alloc::Global;

/// Returns the id of the mail that a bounce with these parts returns, as
/// `mail_data::bounce::original_message_id` does. A body that is decoded is not decoded again.
#[tactic(auto, unfolding(mail_data::specs::Bounce::original_message_id))]
pub(crate) fn bounced_id(
    alloc: Global,
    mail: &ParsedMail<'_>,
    parts: &[Decoded<'_, '_, '_>],
) -> Result<Option<String>, MailParseError>
    requires whole { map decoded_tree parts.now ≡ trees_within (tree_of mail.now) }
    ensures read { (decodes : Bool) → AllByRecursion (IsDecoded decodes) parts.now →
        IfOk result (λ id. text_found id ≡ original_message_id (tree_of mail.now)) }
    ensures only_memory { IfErr result IsMemory }
{
    let Some(part) = returned_part(mail, parts) else {
        return Ok(None);
    };
    returned_id(alloc, part)
}

/// Returns the part that is the returned mail or its headers, if there is one.
fn returned_part<'c, 'p, 'm, 'a>(
    mail: &ParsedMail<'_>,
    parts: &'c [Decoded<'p, 'm, 'a>],
) -> Option<&'c Decoded<'p, 'm, 'a>>
    requires whole { map decoded_tree parts.now ≡ trees_within (tree_of mail.now) }
    ensures tree { option_map (λ part. decoded_tree part.now) result
        ≡ report_part has_original (tree_of mail.now) }
    ensures decoded { (decodes : Bool) → AllByRecursion (IsDecoded decodes) parts.now →
        IfSome result (λ part. IsDecoded decodes part.now) }
{
    if !has_type(mail, "multipart/report") {
        return None;
    }
    let mut rest = after_first(parts);
    for part in &mail.subparts {
        if is_returned(part) {
            return rest.first();
        }
        rest = after_part(rest, part);
    }
    None
}

/// Returns whether a part is the returned mail or its headers.
fn is_returned(part: &ParsedMail<'_>) -> bool
    ensures { result ≡ has_original (root (tree_of part.now)) }
{
    has_type(part, "message/rfc822")
        || has_type(part, "text/rfc822-headers")
        || has_type(part, "message/global")
        || has_type(part, "message/global-headers")
}

/// Returns whether a message has this type.
fn has_type(message: &ParsedMail<'_>, mimetype: &str) -> bool
    ensures { result ≡ has_type mimetype.now (root (tree_of message.now)) }
{
    message.ctype.mimetype.as_str() == mimetype
}

/// Returns the parts after the first one.
#[tactic(auto, using(crate::proofs::lemmas::Bounced::none_after))]
fn after_first<'c, 'p, 'm, 'a>(parts: &'c [Decoded<'p, 'm, 'a>]) -> &'c [Decoded<'p, 'm, 'a>]
    ensures { result.now ≡ drop 1 parts.now }
{
    if parts.is_empty() {
        return parts;
    }
    &parts[1..]
}

/// Returns the parts after a part and its own parts, with which these parts begin.
fn after_part<'c, 'p, 'm, 'a>(
    parts: &'c [Decoded<'p, 'm, 'a>],
    part: &ParsedMail<'_>,
) -> &'c [Decoded<'p, 'm, 'a>]
    ensures { result.now ≡ drop (length (trees_within (tree_of part.now))) parts.now }
{
    let mut rest = after_first(parts);
    for own in &part.subparts {
        rest = after_part(rest, own);
    }
    rest
}

/// Returns the id of the mail in a part, or of the one whose headers it has. The body is decoded
/// if it is not yet.
fn returned_id(alloc: Global, part: &Decoded<'_, '_, '_>) -> Result<Option<String>, MailParseError>
    ensures read { (decodes : Bool) → IsDecoded decodes part.now → IfOk result (λ id. text_found id
        ≡ id_among (fields (message_content (root (decoded_tree part.now))).bytes)) }
    ensures only_memory { IfErr result IsMemory }
{
    if let Some(content) = &part.content {
        return id_in(alloc, content.bytes.as_slice());
    }
    if let Some(mail) = &part.mail {
        return id_in(alloc, mail.bytes.as_slice());
    }
    let content = lenient_content(alloc, &part.body)?;
    id_in(alloc, content.bytes.as_slice())
}

/// Returns the id among the headers with which a mail begins, or `None` if they are refused.
#[tactic(auto, unfolding(mail_data::specs::Archive::id_among, mail_data::specs::Archive::ids_of, mail_data::specs::Reports::fields))]
fn id_in(alloc: Global, mail: &[u8]) -> Result<Option<String>, MailParseError>
    ensures read { IfOk result (λ id. text_found id ≡ id_among (fields mail.now)) }
    ensures only_memory { IfErr result IsMemory }
{
    match parse_lenient_headers(alloc, mail) {
        Ok((headers, _)) => {
            let ids = ids_of(alloc, &headers, "Message-ID", IdRule::Any)?;
            Ok(ids.into_iter().next())
        }
        Err(MailParseError::Memory(error)) => Err(MailParseError::Memory(error)),
        Err(_) => Ok(None),
    }
}
