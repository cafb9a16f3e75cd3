//! The arguments of a program.

use std::env::{self, Env};
use std::io;

/// Returns the arguments of the program, without its name.
///
/// Allocates the list and for each argument.
///
/// # Errors
///
/// `ErrorKind::InvalidData` for an argument that is not UTF-8, and `ErrorKind::OutOfMemory` if it
/// runs out of memory.
///
/// # Examples
///
/// ```rust
/// use mail_program::arguments;
///
/// let arguments = arguments(&rt)?;
/// assert!(rt; arguments.iter().all(|argument| !argument.contains('\0')));
/// ```
pub fn arguments(rt: &(impl Env + AllocGlobal)) -> io::Result<Vec<String>> {
    let mut arguments = Vec::new(rt.alloc());
    for argument in env::args(rt)?.skip(1) {
        arguments.push(argument)?;
    }
    Ok(arguments)
}

/// An argument of a program.
#[derive(Clone, Copy, Debug, PartialEq, Eq)]
pub enum Argument<'a> {
    /// `-h` or `--help`.
    Help,
    /// `--version`.
    Version,
    /// Another option: an argument of two bytes or more that begins with `-`.
    Option(&'a str),
    /// `--`: each further argument is the name of a file.
    Names,
    /// `-`: standard input.
    Input,
    /// The name of a file.
    File(&'a str),
    /// An empty argument, which is none of these.
    Empty,
}

/// Which arguments may follow.
#[derive(Clone, Copy, Debug, PartialEq, Eq)]
pub enum Expected {
    /// Options and names of files.
    Any,
    /// Names of files only, since `--` came before.
    Names,
}

impl<'a> Argument<'a> {
    /// Returns the argument that a text is.
    ///
    /// Does not allocate.
    ///
    /// # Examples
    ///
    /// ```rust
    /// use mail_program::{Argument, Expected};
    ///
    /// assert_eq!(rt; Argument::new("--help", Expected::Any), Argument::Help);
    /// assert_eq!(rt; Argument::new("--help", Expected::Names), Argument::File("--help"));
    /// assert_eq!(rt; Argument::new("-", Expected::Any), Argument::Input);
    /// ```
    pub fn new(text: &'a str, expected: Expected) -> Argument<'a> {
        match (text, expected) {
            ("", _) => Argument::Empty,
            (name, Expected::Names) => Argument::File(name),
            ("-", _) => Argument::Input,
            ("--", _) => Argument::Names,
            ("-h" | "--help", _) => Argument::Help,
            ("--version", _) => Argument::Version,
            (option, _) if option.starts_with('-') => Argument::Option(option),
            (name, _) => Argument::File(name),
        }
    }
}
