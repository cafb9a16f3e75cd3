//! The lines of a view.
ghost use Rattle.std.specs.Prelude.{◌≡◌, ◌++◌, string_bytes, OnOk};
ghost use Rattle.mail_view.specs.Line.{line, empty, line_text, prefix_text};

use crate::visible::push_visible;
use std::alloc::AllocError;

/// The fixed text at the front of a line.
#[derive(Clone, Copy, Debug, PartialEq, Eq)]
pub enum Prefix {
    /// Before the number of a mail, or the name of a file.
    Title,
    /// Before the reason why a mail is refused.
    Refused,
    /// Before a value of `From`.
    From,
    /// Before a value of `Reply-To`.
    ReplyTo,
    /// Before a value of `To`.
    To,
    /// Before a value of `Cc`.
    Cc,
    /// Before a value of `Date`.
    Date,
    /// Before a value of `Subject`.
    Subject,
    /// Before the path of the part whose text follows.
    Heading,
    /// Before a line of a text of the mail.
    Text,
    /// Before the description of a part.
    Part,
    /// Before the name of a finding.
    Found,
    /// Before the bytes before a finding.
    Before,
    /// Before the bytes of a finding.
    Bytes,
    /// Before the bytes after a finding.
    After,
}

/// Returns the text of a prefix.
fn prefix_text(prefix: Prefix) -> &'static str
    ensures { result.now ≡ prefix_text prefix }
{
    match prefix {
        Prefix::Title => "-- ",
        Prefix::Refused => "Refused:  ",
        Prefix::From => "From:     ",
        Prefix::ReplyTo => "Reply-To: ",
        Prefix::To => "To:       ",
        Prefix::Cc => "Cc:       ",
        Prefix::Date => "Date:     ",
        Prefix::Subject => "Subject:  ",
        Prefix::Heading => "Text:     ",
        Prefix::Text => "  ",
        Prefix::Part => "Part:     ",
        Prefix::Found => "Found:    ",
        Prefix::Before => "Before:   ",
        Prefix::Bytes => "Bytes:    ",
        Prefix::After => "After:    ",
    }
}

/// Appends the line of a text after a prefix.
#[tactic(auto, unfolding(crate::specs::Line::line_text))]
pub(crate) fn push_line(shown: &mut String, prefix: Prefix, text: &str) -> Result<(), AllocError>
    ensures { OnOk result (string_bytes shown.new
        ≡ string_bytes shown.old ++ line_text (line prefix text.now)) }
{
    shown.push_str(prefix_text(prefix))?;
    push_visible(shown, text)?;
    shown.push('\n')?;
    Ok(())
}

/// Appends an empty line.
#[tactic(auto, unfolding(crate::specs::Line::line_text))]
pub(crate) fn push_empty_line(shown: &mut String) -> Result<(), AllocError>
    ensures { OnOk result (string_bytes shown.new ≡ string_bytes shown.old ++ line_text empty) }
{
    shown.push('\n')?;
    Ok(())
}
