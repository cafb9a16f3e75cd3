//! The list of the parts.
ghost use Rattle.mail_codec.specs.Ascii.{space};
ghost use Rattle.std.specs.Prelude.{◌≡◌, ◌++◌, option_map, replicate, string_bytes, IfOk, OnOk};
ghost use Rattle.mail_view.specs.Row.{padded, row, size_text};

use std::alloc::{AllocError, Global};
use unicode_width::UnicodeWidthStr;

/// Returns the description of a part as text, in columns: its path, its type, its size, and the
/// name of its file.
pub(crate) fn row_of(
    alloc: Global,
    path: &str,
    mimetype: &str,
    size: &str,
    name: Option<&str>,
) -> Result<String, AllocError>
    ensures { IfOk result (λ text. string_bytes text
        ≡ row path.now mimetype.now size.now (option_map (λ n. n.now) name.entry)) }
{
    let mut text = String::new(alloc);
    push_padded(&mut text, path, 4)?;
    push_padded(&mut text, mimetype, 24)?;
    match name {
        Some(name) => {
            push_padded(&mut text, size, 14)?;
            text.push_str(name)?;
        }
        None => text.push_str(size)?,
    }
    Ok(text)
}

/// Returns the size of a part as text.
pub(crate) fn size_text(alloc: Global, size: usize, is_damaged: bool) -> Result<String, AllocError>
    ensures { IfOk result (λ text. string_bytes text ≡ size_text size is_damaged) }
{
    if is_damaged {
        format!(in alloc; "{size} bytes, damaged")
    } else {
        format!(in alloc; "{size} bytes")
    }
}

/// Appends a text with spaces after it, up to this number of columns, and two more.
fn push_padded(row: &mut String, text: &str, columns: usize) -> Result<(), AllocError>
    ensures { OnOk result
        (string_bytes row.new ≡ string_bytes row.old ++ padded columns text.now) }
{
    row.push_str(text)?;
    push_spaces(row, columns.saturating_sub(text.width()))?;
    row.push_str("  ")?;
    Ok(())
}

/// Appends this many spaces.
fn push_spaces(row: &mut String, count: usize) -> Result<(), AllocError>
    ensures { OnOk result
        (string_bytes row.new ≡ string_bytes row.old ++ replicate count space) }
{
    let mut left = count;
    'spaces: while left > 0 {
        row.push_str(" ")?;
        left -= 1;
    }
    Ok(())
}
