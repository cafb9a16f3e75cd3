//! The headers that are shown.
ghost use Rattle.std.specs.Prelude.{◌≡◌, ◌++◌, map, string_bytes, IfErr, OnOk};
ghost use Rattle.mailparse.specs.Mail.{root};
ghost use Rattle.mailparse.specs.Outcome.{IsMemory};
ghost use Rattle.mailparse.specs.Views.{tree_of};
ghost use Rattle.mail_read.specs.lenient.Values.{header_text};
ghost use Rattle.mail_view.specs.Line.{line, lines_text};
ghost use Rattle.mail_view.specs.View.{header_lines, value_lines};

use crate::addresses::push_addresses;
use crate::line::{Prefix, push_line};
use mail_read::lenient::lenient_header_text_ref;
use mailparse::{KnownCharsets, MailHeader, MailHeaderMap, MailParseError, ParsedMail};
use std::alloc::{AllocError, Global};

/// Appends the lines of the headers.
#[tactic(auto, using(crate::proofs::lemmas::Lines::lines_append))]
pub(crate) fn push_headers<K: KnownCharsets>(
    alloc: Global,
    shown: &mut String,
    mail: &ParsedMail<'_>,
    known: &K,
) -> Result<(), MailParseError>
    ensures written { OnOk result (string_bytes shown.new ≡ string_bytes shown.old
        ++ lines_text (header_lines (K.known known.now) (root (tree_of mail.now)))) }
    ensures only_memory { IfErr result IsMemory }
{
    push_addresses(alloc, shown, Prefix::From, mail, "From", known)?;
    push_addresses(alloc, shown, Prefix::ReplyTo, mail, "Reply-To", known)?;
    push_addresses(alloc, shown, Prefix::To, mail, "To", known)?;
    push_addresses(alloc, shown, Prefix::Cc, mail, "Cc", known)?;
    push_values_of(alloc, shown, Prefix::Date, mail, "Date", known)?;
    push_values_of(alloc, shown, Prefix::Subject, mail, "Subject", known)?;
    Ok(())
}

/// Appends a line for each header with this name.
fn push_values_of<K: KnownCharsets>(
    alloc: Global,
    shown: &mut String,
    prefix: Prefix,
    mail: &ParsedMail<'_>,
    key: &str,
    known: &K,
) -> Result<(), MailParseError>
    ensures written { OnOk result (string_bytes shown.new ≡ string_bytes shown.old
        ++ lines_text (value_lines (K.known known.now) prefix key.now (root (tree_of mail.now)))) }
    ensures only_memory { IfErr result IsMemory }
{
    let named = mail.headers.get_all_headers(alloc, key)?;
    push_values(alloc, shown, prefix, named.as_slice(), known)?;
    Ok(())
}

/// Appends a line for the text of each header.
fn push_values<K: KnownCharsets>(
    alloc: Global,
    shown: &mut String,
    prefix: Prefix,
    headers: &[&MailHeader<'_>],
    known: &K,
) -> Result<(), AllocError>
    ensures { OnOk result (string_bytes shown.new ≡ string_bytes shown.old ++ lines_text
        (map (λ header. line prefix (header_text (K.known known.now) header.value))
        (map (λ header. header.now) headers.now))) }
{
    for header in headers {
        let text = lenient_header_text_ref(alloc, header.get_value_raw(), known)?;
        push_line(shown, prefix, text.as_str())?;
    }
    Ok(())
}
