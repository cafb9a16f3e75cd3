//! Names of files that Windows takes.
ghost use Rattle.std.specs.Prelude.{◌≡◌, ◌∷◌, [], IfOk, encode_utf8_all, string_bytes};
ghost use Rattle.mail_read.specs.WindowsNames.{IsWindowsName, after_underscore, all_allowed};
ghost use Rattle.mail_read.specs.WindowsNames.{allowed, allowed_last, is_after_device};
ghost use Rattle.mail_read.specs.WindowsNames.{is_after_port, is_device, is_device_word};
ghost use Rattle.mail_read.specs.WindowsNames.{is_forbidden, is_port_number, is_port_word, no_device};
ghost use Rattle.mail_read.specs.WindowsNames.{spells, windows_name};

use super::names::{characters, fits, push_characters, safe_file_name};
use std::alloc::{AllocError, Global};

/// The greatest length in bytes of a name before which a `_` fits.
const MOST_AFTER_UNDERSCORE: usize = 254;

/// Returns the name of a file made safe, and changed so that Windows takes it ("Naming Files,
/// Paths, and Namespaces", Microsoft).
///
/// First the name is made safe, as `safe_file_name` does. Then each of `< > : " | ? *`, and a dot
/// or a space at the end, becomes `_`. A `_` is put before the name of a device, such as `NUL` or
/// `com1.txt`; if the name has 255 bytes, it replaces the first character. A name that Windows
/// takes stays as it is. Allocates the name and its characters.
///
/// # Errors
///
/// `AllocError` if it runs out of memory.
///
/// # Examples
///
/// ```rust
/// use mail_read::files::windows_file_name;
///
/// assert_eq!(rt; windows_file_name(alloc, "NUL.tar.gz")?.as_str(), "_NUL.tar.gz");
/// assert_eq!(rt; windows_file_name(alloc, "What? 10:30.")?.as_str(), "What_ 10_30_");
/// assert_eq!(rt; windows_file_name(alloc, "null.txt")?.as_str(), "null.txt");
/// ```
#[tactic(auto, unfolding(crate::specs::WindowsNames::windows_name))]
pub fn windows_file_name(alloc: Global, name: &str) -> Result<String, AllocError>
    ensures read { IfOk result (λ made. string_bytes made ≡ windows_name name.now) }
    ensures allowed { IfOk result (λ made. IsWindowsName (string_bytes made)) }
    ensures same { IsWindowsName name.now → IfOk result (λ made. string_bytes made ≡ name.now) }
{
    let safe = safe_file_name(alloc, name)?;
    let characters = characters(alloc, safe.as_str())?;
    let allowed = all_allowed(alloc, characters.as_slice())?;
    no_device(alloc, allowed.as_slice())
}

/// Returns the text of characters, with a `_` before the name of a device.
fn no_device(alloc: Global, characters: &[char]) -> Result<String, AllocError>
    ensures { IfOk result (λ text. string_bytes text ≡ encode_utf8_all (no_device characters.now)) }
{
    let mut text = String::new(alloc);
    if is_device(characters) {
        text.push('_')?;
        push_characters(&mut text, after_underscore(characters))?;
        return Ok(text);
    }
    push_characters(&mut text, characters)?;
    Ok(text)
}

/// Returns the characters, with `_` in the place of each that may not be where it is.
fn all_allowed(alloc: Global, characters: &[char]) -> Result<Vec<char>, AllocError>
    ensures { IfOk result (λ made. made.items ≡ all_allowed characters.now) }
{
    let mut made = Vec::new(alloc);
    let mut rest = characters;
    'characters: while let Some((first, after)) = rest.split_first() {
        if after.is_empty() {
            made.push(allowed_last(*first))?;
        } else {
            made.push(allowed(*first))?;
        }
        rest = after;
    }
    Ok(made)
}

/// Returns the last character of a name, or `_` in the place of one that may not be there.
fn allowed_last(c: char) -> char
    ensures { result ≡ allowed_last c }
{
    if c == '.' || c == ' ' {
        '_'
    } else {
        allowed(c)
    }
}

/// Returns the character, or `_` in the place of a forbidden one.
fn allowed(c: char) -> char
    ensures { result ≡ allowed c }
{
    if is_forbidden(c) { '_' } else { c }
}

/// Returns whether a character is one that no name on Windows has.
fn is_forbidden(c: char) -> bool
    ensures { result ≡ is_forbidden c }
{
    c == '"' || c == '*' || c == ':' || c == '<' || c == '>' || c == '?' || c == '|'
}

/// Returns what of the name of a device follows a `_`.
fn after_underscore(characters: &[char]) -> &[char]
    ensures { result.now ≡ after_underscore characters.now }
{
    if fits(MOST_AFTER_UNDERSCORE, characters) {
        return characters;
    }
    match characters.split_first() {
        Some((_, rest)) => rest,
        None => characters,
    }
}

/// Returns whether a name is that of a device, with or without an ending.
fn is_device(characters: &[char]) -> bool
    ensures { result ≡ is_device characters.now }
{
    match characters {
        [a, b, c, ..] => {
            let rest = &characters[3..];
            is_device_word(*a, *b, *c) && is_after_device(rest)
                || is_port_word(*a, *b, *c) && is_after_port(rest)
        }
        _ => false,
    }
}

/// Returns whether three characters are the name of a device.
fn is_device_word(a: char, b: char, c: char) -> bool
    ensures { result ≡ is_device_word a b c }
{
    spells(a, b, c, 'c', 'o', 'n')
        || spells(a, b, c, 'p', 'r', 'n')
        || spells(a, b, c, 'a', 'u', 'x')
        || spells(a, b, c, 'n', 'u', 'l')
}

/// Returns whether three characters are the name of a port without its number.
fn is_port_word(a: char, b: char, c: char) -> bool
    ensures { result ≡ is_port_word a b c }
{
    spells(a, b, c, 'c', 'o', 'm') || spells(a, b, c, 'l', 'p', 't')
}

/// Returns whether three characters are these letters, ignoring ASCII case.
fn spells(a: char, b: char, c: char, x: char, y: char, z: char) -> bool
    ensures { result ≡ spells a b c (x ∷ y ∷ z ∷ []) }
{
    a.to_ascii_lowercase() == x && b.to_ascii_lowercase() == y && c.to_ascii_lowercase() == z
}

/// Returns whether characters follow the name of a port in a reserved name.
fn is_after_port(characters: &[char]) -> bool
    ensures { result ≡ is_after_port characters.now }
{
    match characters.split_first() {
        Some((first, rest)) => is_port_number(*first) && is_after_device(rest),
        None => false,
    }
}

/// Returns whether a character is the number of a port.
fn is_port_number(c: char) -> bool
    ensures { result ≡ is_port_number c }
{
    '1' <= c && c <= '9' || c == '\u{B9}' || c == '\u{B2}' || c == '\u{B3}'
}

/// Returns whether characters follow the name of a device in a reserved name.
fn is_after_device(characters: &[char]) -> bool
    ensures { result ≡ is_after_device characters.now }
{
    let mut rest = characters;
    'characters: while let Some((first, after)) = rest.split_first() {
        if *first == '.' {
            return true;
        }
        if *first != ' ' {
            return false;
        }
        rest = after;
    }
    true
}
