//! Names beside addresses.
ghost use Rattle.std.specs.Prelude.{◌≡◌, ◌++◌, flat_map, string_bytes, OnOk};
ghost use Rattle.std.specs.List.{list_any};
ghost use Rattle.std.specs.Str.{chars};
ghost use Rattle.mail_view.specs.Names.{is_special, quoted_character, shown_name};

use std::alloc::AllocError;

/// Appends a name, in quotes if it could be taken for an address or for several names.
pub(crate) fn push_name(shown: &mut String, name: &str) -> Result<(), AllocError>
    ensures { OnOk result
        (string_bytes shown.new ≡ string_bytes shown.old ++ shown_name name.now) }
{
    if !has_special(name.as_bytes()) {
        shown.push_str(name)?;
        return Ok(());
    }
    shown.push_str("\"")?;
    push_quoted(shown, name)?;
    shown.push_str("\"")?;
    Ok(())
}

/// Returns whether a name has a character that separates names and addresses.
fn has_special(name: &[u8]) -> bool
    ensures { result ≡ list_any is_special name.now }
{
    name.iter().any(|byte| is_special(*byte))
}

/// Returns whether a byte is one of the specials of RFC 5322, section 3.2.3, except for the dot.
#[tactic(auto, unfolding(crate::specs::Names::is_special))]
fn is_special(byte: u8) -> bool
    ensures { result ≡ is_special byte }
{
    matches!(
        byte,
        b'(' | b')' | b'<' | b'>' | b'[' | b']' | b':' | b';' | b'@' | b'\\' | b',' | b'"'
    )
}

/// Appends the text of a quoted string.
fn push_quoted(shown: &mut String, text: &str) -> Result<(), AllocError>
    ensures { OnOk result (string_bytes shown.new
        ≡ string_bytes shown.old ++ flat_map quoted_character (chars text.now)) }
{
    for c in text.chars() {
        push_quoted_character(shown, c)?;
    }
    Ok(())
}

/// Appends a character of a quoted string.
fn push_quoted_character(shown: &mut String, c: char) -> Result<(), AllocError>
    ensures { OnOk result
        (string_bytes shown.new ≡ string_bytes shown.old ++ quoted_character c) }
{
    if c == '"' || c == '\\' {
        shown.push('\\')?;
    }
    shown.push(c)?;
    Ok(())
}
