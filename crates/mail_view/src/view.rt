//! A mail as text for people.
ghost use Rattle.std.specs.Prelude.{◌≡◌};
ghost use Rattle.mailparse.specs.Outcome.{GivesText};
ghost use Rattle.mailparse.specs.Views.{placements_of, tree_of};
ghost use Rattle.mail_read.specs.Reading.{mail_placements};
ghost use Rattle.mail_program.specs.Streams.{Writes};
ghost use Rattle.mail_view.specs.View.{view_text};

use crate::headers::push_headers;
use crate::parts::push_parts;
use crate::text::push_body;
use mail_html::References;
use mail_program::Fault;
use mailparse::{KnownCharsets, MailParseError, ParsedMail};
use std::alloc::Global;
use std::io::Write;

/// Returns a mail as text for people: its addresses, its date and its subject, the texts that are
/// read one after another with the targets of links, and its parts with their sizes and the names of
/// their files.
///
/// The mail is as `read_mail` returned it, in the charsets `known`, and HTML under these references.
/// Each line is empty, begins with a fixed text such as `Subject:  `, or is one of a text of the
/// mail, which begins with two spaces. Each text but the first follows a line with the path of its
/// part, such as `Text:     2`. A character that would move the cursor of a terminal, end a line or
/// change the direction of text is shown as U+FFFD, and a tab as four spaces. Allocates the text,
/// the texts of the mail, and the decoded bodies one after another.
///
/// # Errors
///
/// `MailParseError::Memory` if it runs out of memory.
///
/// # Examples
///
/// ```rust
/// use mail_read::reading::{DEFAULT_LIMIT, read_mail};
/// use mail_html::References;
/// use mail_view::view_of;
///
/// let raw = b"From: =?utf-8?q?=C3=89va?= <eva@example.org>\nSubject: Hi\x1B[2J\n\nFrom: me\n\n\tyes";
/// let mail = read_mail(alloc, raw, DEFAULT_LIMIT, &())?;
/// let text = "From:     Éva <eva@example.org>\nSubject:  Hi\u{fffd}[2J\n\n  From: me\n\n      yes\n\n\
///     Part:     1     text/plain                14 bytes\n";
/// assert_eq!(rt; view_of(alloc, &mail, &References::standard(), &())?.as_str(), text);
/// ```
#[tactic(auto, unfolding(crate::specs::View::view_text), using(crate::proofs::lemmas::Lines::lines_append))]
pub fn view_of<K: KnownCharsets>(
    alloc: Global,
    mail: &ParsedMail<'_>,
    references: &References<'_>,
    known: &K,
) -> Result<String, MailParseError>
    requires placed { placements_of mail.now ≡ mail_placements (tree_of mail.now) }
    ensures { GivesText result (view_text references.now (K.known known.now) (tree_of mail.now)) }
{
    let mut shown = String::new(alloc);
    push_headers(alloc, &mut shown, mail, known)?;
    push_body(alloc, &mut shown, mail, references, known)?;
    push_parts(alloc, &mut shown, mail, known)?;
    Ok(shown)
}

/// Writes a mail as `view_of` returns it.
///
/// Allocates the text, the texts of the mail, and the decoded bodies one after another.
///
/// # Errors
///
/// `Fault::Output` if a write fails, and `Fault::Mail` with `MailParseError::Memory` if it runs out
/// of memory.
///
/// # Examples
///
/// ```rust
/// use mail_read::reading::{DEFAULT_LIMIT, read_mail};
/// use mail_html::References;
/// use mail_view::write_view;
///
/// let mail = read_mail(alloc, b"Subject: Hi\n\nHello\n", DEFAULT_LIMIT, &())?;
/// let mut out = Vec::new(alloc);
/// write_view(alloc, &mut out, &mail, &References::standard(), &())?;
/// assert!(rt; out.as_slice().starts_with(b"Subject:  Hi\n\n  Hello\n\nPart:     1"));
/// ```
pub fn write_view<W: Write, K: KnownCharsets>(
    alloc: Global,
    out: &mut W,
    mail: &ParsedMail<'_>,
    references: &References<'_>,
    known: &K,
) -> Result<(), Fault>
    requires placed { placements_of mail.now ≡ mail_placements (tree_of mail.now) }
    ensures { Writes (W.contents out.old) (W.contents out.new) result
        (view_text references.now (K.known known.now) (tree_of mail.now)) }
{
    let text = view_of(alloc, mail, references, known)?;
    out.write_all(text.as_bytes())?;
    Ok(())
}
