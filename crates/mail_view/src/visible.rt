//! Text that does not move the cursor of a terminal.
ghost use Rattle.std.specs.Prelude.{◌≡◌, ◌++◌, string_bytes, OnOk};
ghost use Rattle.mail_view.specs.Visible.{shown_character, visible};

use mail_codec::hidden::is_hidden;
use std::alloc::AllocError;

/// Appends a text as it is shown: each hidden character is replaced.
pub(crate) fn push_visible(shown: &mut String, text: &str) -> Result<(), AllocError>
    ensures { OnOk result
        (string_bytes shown.new ≡ string_bytes shown.old ++ visible text.now) }
{
    for c in text.chars() {
        push_character(shown, c)?;
    }
    Ok(())
}

/// Appends a character as it is shown.
#[tactic(auto, unfolding(crate::specs::Visible::shown_character))]
fn push_character(shown: &mut String, c: char) -> Result<(), AllocError>
    ensures { OnOk result
        (string_bytes shown.new ≡ string_bytes shown.old ++ shown_character c) }
{
    if c == '\t' {
        shown.push_str("    ")?;
        return Ok(());
    }
    shown.push(if is_hidden(c) { '\u{fffd}' } else { c })?;
    Ok(())
}
