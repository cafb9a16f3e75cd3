//! Windows paths in quotes whose backslashes are no escapes.
ghost use Rattle.std.specs.Prelude.{◌≡◌, ◌++◌, IfOk, OnOk, string_bytes};
ghost use Rattle.mail_read.specs.RawPaths.{after, after_quoted, all_escaped, begins_path, escaped};
ghost use Rattle.mail_read.specs.RawPaths.{with_paths_escaped};
ghost use Rattle.mail_read.specs.declared.files.paths.Position.TheVariants.{Outside};

use super::names::{characters, push_characters};
use std::alloc::{AllocError, Global};

/// Where a character of a value with parameters is.
#[derive(Clone, Copy)]
enum Position {
    /// Outside quotes.
    Outside,
    /// In quotes.
    InQuotes,
    /// In quotes, after a backslash that escapes it.
    AfterBackslash,
    /// In quotes that begin with a path whose backslashes are no escapes.
    InPath,
}

/// Returns a value with parameters in which the backslashes of Windows paths in quotes are escaped,
/// if they are not.
#[tactic(auto, unfolding(crate::specs::RawPaths::with_paths_escaped))]
pub(super) fn with_paths_escaped(alloc: Global, text: &str) -> Result<String, AllocError>
    ensures { IfOk result (λ made. string_bytes made ≡ with_paths_escaped text.now) }
{
    let characters = characters(alloc, text)?;
    let escaped = all_escaped(alloc, characters.as_slice())?;
    let mut made = String::new(alloc);
    push_characters(&mut made, escaped.as_slice())?;
    Ok(made)
}

/// Returns the characters of a value, with each backslash in a path escaped.
fn all_escaped(alloc: Global, characters: &[char]) -> Result<Vec<char>, AllocError>
    ensures { IfOk result (λ made. made.items ≡ all_escaped Outside characters.now) }
{
    let mut made = Vec::new(alloc);
    let mut position = Position::Outside;
    let mut rest = characters;
    'characters: while let Some((first, others)) = rest.split_first() {
        push_escaped(&mut made, position, *first)?;
        position = after(position, *first, others);
        rest = others;
    }
    Ok(made)
}

/// Appends a character with this position, twice if it is a backslash in a path.
fn push_escaped(made: &mut Vec<char>, position: Position, c: char) -> Result<(), AllocError>
    ensures { OnOk result (made.new.items ≡ made.old.items ++ escaped position c) }
{
    match position {
        Position::InPath => {
            if c == '\\' {
                made.push(c)?;
            }
        }
        Position::Outside | Position::InQuotes | Position::AfterBackslash => {}
    }
    made.push(c)?;
    Ok(())
}

/// Returns the position after a character with this position, given the characters that follow it.
fn after(position: Position, c: char, others: &[char]) -> Position
    ensures { result ≡ after position c others.now }
{
    match position {
        Position::Outside => {
            if c != '"' {
                return Position::Outside;
            }
            if begins_path(others) {
                return Position::InPath;
            }
            Position::InQuotes
        }
        Position::InQuotes => after_quoted(c),
        Position::AfterBackslash => Position::InQuotes,
        Position::InPath => {
            if c == '"' {
                return Position::Outside;
            }
            Position::InPath
        }
    }
}

/// Returns the position after a character in quotes.
fn after_quoted(c: char) -> Position
    ensures { result ≡ after_quoted c }
{
    if c == '"' {
        return Position::Outside;
    }
    if c == '\\' {
        return Position::AfterBackslash;
    }
    Position::InQuotes
}

/// Returns whether characters begin a path whose backslashes are no escapes.
fn begins_path(characters: &[char]) -> bool
    ensures { result ≡ begins_path characters.now }
{
    match characters {
        [a, b, c, d, ..] => {
            a.is_ascii_alphabetic() && *b == ':' && *c == '\\' && *d != '\\' && *d != '"'
        }
        _ => false,
    }
}
