//! The texts of a mail.
ghost use Rattle.std.specs.Prelude.{◌≡◌, ◌++◌, flat_map, map, string_bytes, IfErr, OnOk};
ghost use Rattle.std.specs.Str.Lines.{lines};
ghost use Rattle.mailparse.specs.Outcome.{IsMemory};
ghost use Rattle.mailparse.specs.Views.{tree_of};
ghost use Rattle.mail_data.specs.InlineTextViews.{inline_view};
ghost use Rattle.mail_data.specs.InlineTexts.{inline_texts};
ghost use Rattle.mail_html.specs.declared.links.Links.TheVariants.{Footnotes};
ghost use Rattle.mail_view.specs.Line.{line_text, lines_text};
ghost use Rattle.mail_view.specs.View.{body_lines, headed_lines, text_line};

use crate::line::{Prefix, push_empty_line, push_line};
use mail_data::inline_texts::{InlineText, inline_texts};
use mail_html::{Links, References};
use mailparse::{KnownCharsets, MailParseError, ParsedMail};
use std::alloc::{AllocError, Global};

/// Appends an empty line and the lines of the first text of a mail, and those of each other text
/// after a line with its path; or nothing if it has no text.
pub(crate) fn push_body<K: KnownCharsets>(
    alloc: Global,
    shown: &mut String,
    mail: &ParsedMail<'_>,
    references: &References<'_>,
    known: &K,
) -> Result<(), MailParseError>
    ensures written { OnOk result (string_bytes shown.new ≡ string_bytes shown.old ++ lines_text
        (body_lines (inline_texts (K.known known.now) Footnotes references.now
        (tree_of mail.now)))) }
    ensures only_memory { IfErr result IsMemory }
{
    let texts = inline_texts(alloc, mail, Links::Footnotes, references, known)?;
    push_texts(shown, texts.as_slice())?;
    Ok(())
}

/// Appends the lines of texts: those of the first after an empty line, and of each other after a
/// line with its path.
fn push_texts(shown: &mut String, texts: &[InlineText]) -> Result<(), AllocError>
    ensures { OnOk result (string_bytes shown.new
        ≡ string_bytes shown.old ++ lines_text (body_lines (map inline_view texts.now))) }
{
    let [first, others @ ..] = texts else {
        return Ok(());
    };
    push_empty_line(shown)?;
    push_text(shown, first.read.text.as_str())?;
    push_others(shown, others)
}

/// Appends the lines of texts, each after a line with its path.
fn push_others(shown: &mut String, texts: &[InlineText]) -> Result<(), AllocError>
    ensures { OnOk result (string_bytes shown.new ≡ string_bytes shown.old
        ++ lines_text (flat_map headed_lines (map inline_view texts.now))) }
{
    for text in texts {
        push_headed(shown, text)?;
    }
    Ok(())
}

/// Appends a line with the path of the part that has a text, between empty ones, and the lines of
/// the text.
fn push_headed(shown: &mut String, text: &InlineText) -> Result<(), AllocError>
    ensures { OnOk result (string_bytes shown.new
        ≡ string_bytes shown.old ++ lines_text (headed_lines (inline_view text.now))) }
{
    push_empty_line(shown)?;
    push_line(shown, Prefix::Heading, text.path.as_str())?;
    push_empty_line(shown)?;
    push_text(shown, text.read.text.as_str())
}

/// Appends the lines of a text.
fn push_text(shown: &mut String, text: &str) -> Result<(), AllocError>
    ensures { OnOk result (string_bytes shown.new
        ≡ string_bytes shown.old ++ lines_text (map text_line (lines text.now))) }
{
    for line in text.lines() {
        push_text_line(shown, line)?;
    }
    Ok(())
}

/// Appends a line of a text.
fn push_text_line(shown: &mut String, text: &str) -> Result<(), AllocError>
    ensures { OnOk result
        (string_bytes shown.new ≡ string_bytes shown.old ++ line_text (text_line text.now)) }
{
    if text.is_empty() {
        return push_empty_line(shown);
    }
    push_line(shown, Prefix::Text, text)
}
