//! Shows bytes as text, for `Debug`.

use std::fmt;
use std::fmt::Write;

/// Bytes whose `Debug` output is that of their lossy UTF-8 text.
#[derive(Clone, Copy)]
pub(crate) struct LossyText<'a>(pub &'a [u8]);

impl fmt::Debug for LossyText<'_> {
    fn fmt<W: fmt::Write>(&self, f: &mut fmt::Formatter<W>) -> fmt::Result {
        f.write_char('"')?;
        for chunk in self.0.utf8_chunks() {
            write_escaped(f, chunk.valid())?;
            if !chunk.invalid().is_empty() {
                f.write_char(char::REPLACEMENT_CHARACTER)?;
            }
        }
        f.write_char('"')
    }
}

/// Writes the text as it appears between the quotes of its `Debug` output.
fn write_escaped<W: fmt::Write>(f: &mut fmt::Formatter<W>, text: &str) -> fmt::Result {
    for character in text.chars() {
        write_escaped_character(f, character)?;
    }
    Ok(())
}

/// Writes one character as it appears there: a quotation mark is escaped, an apostrophe is not.
fn write_escaped_character<W: fmt::Write>(
    f: &mut fmt::Formatter<W>,
    character: char,
) -> fmt::Result {
    if character == '\'' {
        return f.write_char(character);
    }
    for part in character.escape_debug() {
        f.write_char(part)?;
    }
    Ok(())
}
