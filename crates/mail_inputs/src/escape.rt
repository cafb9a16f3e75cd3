//! Texts of others in messages on a terminal.
ghost use Rattle.std.specs.Prelude.{◌≡◌, ◌++◌, string_bytes, IfOk, OnOk};
ghost use Rattle.mail_inputs.specs.Escape.{shown, shown_character};
ghost use Rattle.mail_codec.specs.Hidden.{IsShown};

use mail_codec::hidden::is_hidden;
use std::alloc::{AllocError, Global};

/// Returns a text with `\u{1b}` for U+001B, and the same for each other character that is hidden:
/// controls, separators of lines and paragraphs, and characters that change the direction of text,
/// as `mail_codec::hidden::is_hidden` says. So it neither moves a terminal nor begins a line.
///
/// Allocates the text.
///
/// # Errors
///
/// If it runs out of memory.
///
/// # Examples
///
/// ```rust
/// use mail_inputs::shown;
///
/// let text = "a\x1B[2J\n\u{202e}gnp";
/// assert_eq!(rt; shown(alloc, text)?.as_str(), "a\\u{1b}[2J\\u{a}\\u{202e}gnp");
/// ```
pub fn shown(alloc: Global, text: &str) -> Result<String, AllocError>
    ensures value { IfOk result (λ made. string_bytes made ≡ shown text.now) }
    ensures safe { IfOk result (λ made. IsShown (string_bytes made)) }
{
    let mut shown = String::new(alloc);
    for character in text.chars() {
        push_shown(alloc, &mut shown, character)?;
    }
    Ok(shown)
}

/// Appends a character, or its number if it is hidden.
#[tactic(auto, unfolding(crate::specs::Escape::shown_character))]
fn push_shown(alloc: Global, shown: &mut String, character: char) -> Result<(), AllocError>
    ensures { OnOk result (string_bytes shown.new
        ≡ string_bytes shown.old ++ shown_character character) }
{
    if is_hidden(character) {
        let code = character as u32;
        let text = format!(in alloc; "\\u{{{code:x}}}")?;
        return shown.push_str(text.as_str());
    }
    shown.push(character)
}
