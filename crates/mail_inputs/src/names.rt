//! The arguments of the program, of which one may be no UTF-8.

use std::alloc::{AllocError, Global};
use std::env::{Env, FillError};
use std::str;

/// The sizes of the buffers in which an argument is tried to fit. The system passes no longer one.
const SIZES: [usize; 3] = [1 << 12, 1 << 17, 1 << 24];

/// An argument that names an input.
#[derive(Clone, Copy, Debug, PartialEq, Eq)]
pub enum Name<'a> {
    /// `-`: standard input.
    Standard,
    /// The path of a file or a directory.
    Path(&'a str),
    /// A name that is not UTF-8, with `\xE9` for a byte E9 that is part of no character.
    NotUtf8(&'a str),
}

impl<'a> Name<'a> {
    /// Returns the name that an argument of `arguments` is. One that ends with a NUL is not UTF-8.
    ///
    /// Does not allocate.
    ///
    /// # Examples
    ///
    /// ```rust
    /// use mail_inputs::Name;
    ///
    /// assert_eq!(rt; Name::new("-"), Name::Standard);
    /// assert_eq!(rt; Name::new("a.eml"), Name::Path("a.eml"));
    /// assert_eq!(rt; Name::new("caf\\xE9\0"), Name::NotUtf8("caf\\xE9"));
    /// ```
    pub fn new(argument: &'a str) -> Name<'a> {
        match argument.strip_suffix('\0') {
            Some(shown) => Name::NotUtf8(shown),
            None if argument == "-" => Name::Standard,
            None => Name::Path(argument),
        }
    }
}

/// Returns the text of an argument of `arguments`: all of it but the NUL at the end of one that is not
/// UTF-8.
///
/// Does not allocate.
///
/// # Examples
///
/// ```rust
/// use mail_inputs::argument_text;
///
/// assert_eq!(rt; argument_text("a.eml"), "a.eml");
/// assert_eq!(rt; argument_text("caf\\xE9\0"), "caf\\xE9");
/// ```
pub fn argument_text(argument: &str) -> &str {
    match Name::new(argument) {
        Name::NotUtf8(text) => text,
        Name::Standard | Name::Path(_) => argument,
    }
}

/// Returns the arguments of the program, without its name. One that is not UTF-8 has `\xE9` for a
/// byte E9 that is part of no character, and a NUL at its end, which the system puts into no
/// argument.
///
/// Allocates the list and for each argument.
///
/// # Errors
///
/// If it runs out of memory.
///
/// # Examples
///
/// ```rust
/// use mail_inputs::arguments;
///
/// let arguments = arguments(&rt)?;
/// assert!(rt; arguments.iter().all(|argument| !argument.contains('\0')));
/// ```
pub fn arguments(rt: &(impl Env + AllocGlobal)) -> Result<Vec<String>, AllocError> {
    let mut arguments = Vec::new(rt.alloc());
    for number in 1..usize::MAX {
        match argument(rt, number)? {
            Some(argument) => arguments.push(argument)?,
            None => return Ok(arguments),
        }
    }
    Ok(arguments)
}

/// Returns the argument with this number, or `None` if there are fewer.
fn argument(rt: &(impl Env + AllocGlobal), number: usize) -> Result<Option<String>, AllocError> {
    for size in SIZES {
        let mut buffer = vec![in rt.alloc(); 0u8; size]?;
        match rt.arg(number, buffer.as_mut_slice()) {
            Ok(len) => return Ok(Some(text_of(rt.alloc(), &buffer[..len])?)),
            Err(FillError::NotPresent) => return Ok(None),
            Err(FillError::TooLong) => {}
        }
    }
    Ok(None)
}

/// Returns bytes as text. Bytes that are not UTF-8 are written as `\xE9`, with a NUL at the end of
/// the text.
pub(crate) fn text_of(alloc: Global, bytes: &[u8]) -> Result<String, AllocError> {
    if let Ok(text) = str::from_utf8(bytes) {
        return String::from_str(alloc, text);
    }
    let mut text = String::new(alloc);
    for chunk in bytes.utf8_chunks() {
        text.push_str(chunk.valid())?;
        push_bytes(alloc, &mut text, chunk.invalid())?;
    }
    text.push('\0')?;
    Ok(text)
}

/// Appends bytes as `\xE9`.
fn push_bytes(alloc: Global, text: &mut String, bytes: &[u8]) -> Result<(), AllocError> {
    for byte in bytes {
        let shown = format!(in alloc; "\\x{byte:02X}")?;
        text.push_str(shown.as_str())?;
    }
    Ok(())
}
