//! Names of files that are safe in any directory of a POSIX system.
ghost use Rattle.std.specs.Prelude.{◌≡◌, ◌++◌, ◌≤◌, IfOk, IsTrue, OnOk, chars, encode_utf8_all, length, map, string_bytes};
ghost use Rattle.mail_read.specs.FileNames.{IsSafeName, ending, fits, front_length};
ghost use Rattle.mail_read.specs.FileNames.{front_name, is_invisible, is_reserved, is_unsafe};
ghost use Rattle.mail_read.specs.FileNames.{is_windows_path, kept_ending, last_component};
ghost use Rattle.mail_read.specs.FileNames.{made_safe, safe_name, shortened, size, trailing};

use mail_codec::hidden::is_hidden;
use std::alloc::{AllocError, Global};

/// The greatest length of a safe name in bytes.
const MOST_BYTES: usize = 255;

/// The greatest length of an ending in bytes, with its dot.
const MOST_OF_ENDING: usize = 17;

/// Returns the name of a file made safe: on a POSIX system it names a file in the directory where
/// it is used, and no other. Names that Windows reserves, such as `NUL` and `C:x`, stay;
/// `windows_file_name` changes them too.
///
/// Of a Windows path, which begins with a drive, such as `C:\`, or with `\\`, only the text after
/// the last `\` stays. Each unsafe character becomes `_`: `/`, `\`, controls, including NUL,
/// characters that change the direction of text, and others of `is_unsafe`. A name of more than 255
/// bytes is cut between characters, before its ending: the last dot and at most 16 bytes after it.
/// If the result is empty, `.` or `..`, it becomes `_`. A name that is already safe stays as it is.
/// Allocates the name and its characters.
///
/// # Errors
///
/// `AllocError` if it runs out of memory.
///
/// # Examples
///
/// ```rust
/// use mail_read::files::safe_file_name;
///
/// assert_eq!(rt; safe_file_name(alloc, "../../etc/passwd")?.as_str(), ".._.._etc_passwd");
/// assert_eq!(rt; safe_file_name(alloc, "C:\\Users\\ann\\a.pdf")?.as_str(), "a.pdf");
/// assert_eq!(rt; safe_file_name(alloc, "..")?.as_str(), "_");
/// assert_eq!(rt; safe_file_name(alloc, "résumé.pdf")?.as_str(), "résumé.pdf");
/// ```
#[tactic(auto, unfolding(crate::specs::FileNames::safe_name))]
pub fn safe_file_name(alloc: Global, name: &str) -> Result<String, AllocError>
    ensures read { IfOk result (λ safe. string_bytes safe ≡ safe_name name.now) }
    ensures safe { IfOk result (λ safe. IsSafeName (string_bytes safe)) }
    ensures same { IsSafeName name.now → IfOk result (λ safe. string_bytes safe ≡ name.now) }
{
    let safe = front_name(alloc, name)?;
    if is_reserved(safe.as_str()) {
        return String::from_str(alloc, "_");
    }
    Ok(safe)
}

/// Returns the characters of a name, or of its last component, made safe, as many as fit.
#[tactic(auto, unfolding(crate::specs::FileNames::front_name))]
fn front_name(alloc: Global, name: &str) -> Result<String, AllocError>
    ensures { IfOk result (λ safe. string_bytes safe ≡ front_name name.now) }
{
    let characters = characters(alloc, name)?;
    let safe = safe_characters(alloc, last_component(characters.as_slice()))?;
    shortened(alloc, safe.as_slice())
}

/// Returns the characters of a name.
pub(super) fn characters(alloc: Global, name: &str) -> Result<Vec<char>, AllocError>
    ensures { IfOk result (λ characters. characters.items ≡ chars name.now) }
{
    let mut characters = Vec::new(alloc);
    for c in name.chars() {
        characters.push(c)?;
    }
    Ok(characters)
}

/// Returns characters made safe.
fn safe_characters(alloc: Global, characters: &[char]) -> Result<Vec<char>, AllocError>
    ensures { IfOk result (λ safe. safe.items ≡ map made_safe characters.now) }
{
    let mut safe = Vec::new(alloc);
    for c in characters {
        safe.push(made_safe(*c))?;
    }
    Ok(safe)
}

/// Returns the last component of a Windows path; all other characters stay.
fn last_component(characters: &[char]) -> &[char]
    ensures { result.now ≡ last_component characters.now }
{
    if is_windows_path(characters) {
        &characters[characters.len() - trailing('\\', characters)..]
    } else {
        characters
    }
}

/// Returns whether characters begin with a drive, or with two backslashes, as a path of Windows
/// does.
fn is_windows_path(characters: &[char]) -> bool
    ensures { result ≡ is_windows_path characters.now }
{
    match characters {
        [first, second, third, ..] => {
            first.is_ascii_alphabetic() && *second == ':' && *third == '\\'
                || *first == '\\' && *second == '\\'
        }
        _ => false,
    }
}

/// Returns the number of characters after the last that is `c`, or of all characters if none is.
fn trailing(c: char, characters: &[char]) -> usize
    ensures value { result ≡ trailing c characters.now }
    ensures bounds { result ≤ length characters.now }
{
    let mut count = 0;
    for character in characters {
        if *character == c {
            count = 0;
        } else {
            count += 1;
        }
    }
    count
}

/// Returns the number of leading characters that fit into that many bytes.
fn front_len(capacity: usize, characters: &[char]) -> usize
    ensures value { result ≡ front_length capacity characters.now }
    ensures bounds { result ≤ length characters.now }
{
    let mut left = capacity;
    let mut rest = characters;
    'characters: while let Some((first, after)) = rest.split_first() {
        let width = first.len_utf8();
        if width > left {
            return characters.len() - rest.len();
        }
        left -= width;
        rest = after;
    }
    characters.len()
}

/// Returns whether characters fit into that many bytes.
pub(super) fn fits(capacity: usize, characters: &[char]) -> bool
    ensures { result ≡ fits capacity characters.now }
{
    front_len(capacity, characters) == characters.len()
}

/// Returns the ending of a name.
#[tactic(auto, using(crate::proofs::lemmas::FileNames::fits_few))]
fn ending(characters: &[char]) -> &[char]
    ensures value { result.now ≡ ending characters.now }
    ensures short { length result.now ≤ 17 }
{
    let len = trailing('.', characters) + 1;
    if len >= characters.len() {
        return &characters[..0];
    }
    let ending = &characters[characters.len() - len..];
    if fits(MOST_OF_ENDING, ending) {
        ending
    } else {
        &characters[..0]
    }
}

/// Returns the ending that is kept.
fn kept_ending(characters: &[char]) -> &[char]
    ensures value { result.now ≡ kept_ending characters.now }
    ensures short { length result.now ≤ 17 }
{
    if fits(MOST_BYTES, characters) {
        &characters[..0]
    } else {
        ending(characters)
    }
}

/// Returns the length of characters in bytes, of at most 17 of them.
fn size(characters: &[char]) -> usize
    requires { length characters.now ≤ 17 }
    ensures value { result ≡ size characters.now }
    ensures bounds { result ≤ 68 }
{
    let mut size = 0;
    let mut rest = characters;
    'characters: while let Some((first, after)) = rest.split_first() {
        size += first.len_utf8();
        rest = after;
    }
    size
}

/// Appends characters.
pub(super) fn push_characters(text: &mut String, characters: &[char]) -> Result<(), AllocError>
    ensures { OnOk result (string_bytes text.new
        ≡ string_bytes text.old ++ encode_utf8_all characters.now) }
{
    for c in characters {
        text.push(*c)?;
    }
    Ok(())
}

/// Returns the leading characters and the ending, as many as fit.
fn shortened(alloc: Global, characters: &[char]) -> Result<String, AllocError>
    ensures { IfOk result (λ text.
        string_bytes text ≡ encode_utf8_all (shortened characters.now)) }
{
    let ending = kept_ending(characters);
    let front = front_len(MOST_BYTES - size(ending), characters);
    let mut text = String::new(alloc);
    push_characters(&mut text, &characters[..front])?;
    push_characters(&mut text, ending)?;
    Ok(text)
}

/// Returns whether no safe name contains a character: `/`, `\`, a hidden character of
/// `mail_codec::hidden`, such as a control, or one that is shown as nothing, of U+00AD, U+200B to
/// U+200D, U+2060 and U+FEFF. Does not allocate.
///
/// # Examples
///
/// ```rust
/// use mail_read::files::is_unsafe;
///
/// assert!(rt; is_unsafe('/'));
/// assert!(rt; is_unsafe('\u{202e}'));
/// assert!(rt; !is_unsafe('é'));
/// ```
pub fn is_unsafe(c: char) -> bool
    ensures { result ≡ is_unsafe c }
{
    c == '/' || c == '\\' || is_hidden(c) || is_invisible(c)
}

/// Returns whether a character is shown as nothing.
fn is_invisible(c: char) -> bool
    ensures { result ≡ is_invisible c }
{
    matches!(
        c,
        '\u{ad}' | '\u{200b}'..='\u{200d}' | '\u{2060}' | '\u{feff}'
    )
}

/// Returns the character, or `_` in the place of an unsafe one.
fn made_safe(c: char) -> char
    ensures { result ≡ made_safe c }
{
    if is_unsafe(c) { '_' } else { c }
}

/// Returns whether a name is no name of a file: it is empty or names a directory.
fn is_reserved(name: &str) -> bool
    ensures { result ≡ is_reserved name.now }
{
    name.is_empty() || name == "." || name == ".."
}
