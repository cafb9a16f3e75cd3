//! A run over inputs.

use crate::PROGRAM;
use crate::entries::{Kind, entries, entry, is_directory, kind_of, name_of, push};
use crate::escape::shown;
use crate::names::Name;
use crate::open::read_front;
use mail_program::{Fault, Outcome};
use std::alloc::{AllocError, Global};
use std::fs;
use std::io::{self, Cursor, Read};
use std::rt::Files;

/// Why an input whose name is not UTF-8 is not read.
pub const NOT_UTF8: &str = "the name is not UTF-8; read the file as standard input, with --label";

/// What is known of an input before it is read.
#[derive(Clone, Copy, Debug, PartialEq, Eq)]
pub enum Content {
    /// It may be a mail or a mailbox.
    Any,
    /// It is one mail, as each file of a Maildir.
    Mail,
}

/// What is done with inputs.
pub trait Consumer {
    /// Takes an input with this name, or without one for standard input, and returns the outcome.
    ///
    /// # Errors
    ///
    /// `Fault::Input` if a read fails, and `Fault::Mail` if memory runs out, which end this input
    /// alone, and any other fault, which ends the run.
    ///
    /// # Examples
    ///
    /// ```rust
    /// use mail_inputs::{Consumer, Content};
    /// use mail_program::{Fault, Outcome, read_input};
    /// use std::alloc::Global;
    /// use std::io::Read;
    /// use std::rt::Files;
    ///
    /// #[derive(Drop)]
    /// struct Size(usize);
    ///
    /// impl Consumer for Size {
    ///     fn read<R: Files + Eprint + AllocGlobal, I: Read>(
    ///         &mut self,
    ///         rt: &R,
    ///         reader: &mut I,
    ///         _name: Option<&str>,
    ///         _content: Content,
    ///     ) -> Result<Outcome, Fault> {
    ///         self.0 = read_input(rt.alloc(), reader)?.len();
    ///         Ok(Outcome::Clean)
    ///     }
    ///
    ///     fn report(
    ///         &mut self,
    ///         _alloc: Global,
    ///         _name: Option<&str>,
    ///         _why: &str,
    ///     ) -> Result<(), Fault> {
    ///         Ok(())
    ///     }
    /// }
    ///
    /// let mut size = Size(0);
    /// size.read(&rt, &mut b"Subject: Hi\n".as_slice(), None, Content::Any)?;
    /// assert_eq!(rt; size.0, 12);
    /// ```
    fn read<R: Files + Eprint + AllocGlobal, I: Read>(
        &mut self,
        rt: &R,
        reader: &mut I,
        name: Option<&str>,
        content: Content,
    ) -> Result<Outcome, Fault>;

    /// Takes note of an input that could not be read, or not to its end.
    ///
    /// # Errors
    ///
    /// A fault that ends the run.
    ///
    /// # Examples
    ///
    /// ```rust
    /// use mail_inputs::{Consumer, Content};
    /// use mail_program::{Fault, Outcome};
    /// use std::alloc::Global;
    /// use std::io::Read;
    /// use std::rt::Files;
    ///
    /// #[derive(Drop)]
    /// struct Reported(usize);
    ///
    /// impl Consumer for Reported {
    ///     fn read<R: Files + Eprint + AllocGlobal, I: Read>(
    ///         &mut self,
    ///         _rt: &R,
    ///         _reader: &mut I,
    ///         _name: Option<&str>,
    ///         _content: Content,
    ///     ) -> Result<Outcome, Fault> {
    ///         Ok(Outcome::Clean)
    ///     }
    ///
    ///     fn report(
    ///         &mut self,
    ///         _alloc: Global,
    ///         _name: Option<&str>,
    ///         why: &str,
    ///     ) -> Result<(), Fault> {
    ///         self.0 = why.len();
    ///         Ok(())
    ///     }
    /// }
    ///
    /// let mut reported = Reported(0);
    /// reported.report(alloc, Some("a.eml"), "not found")?;
    /// assert_eq!(rt; reported.0, 9);
    /// ```
    fn report(&mut self, alloc: Global, name: Option<&str>, why: &str) -> Result<(), Fault>;
}

/// Which directories in a directory are read.
#[derive(Clone, Copy, Debug, PartialEq, Eq)]
pub enum Subdirectories {
    /// None of them. A line on standard error has their number.
    Skipped,
    /// All of them, and those in them, but no symbolic link to a directory.
    Read,
}

/// The inputs of a run.
#[derive(Clone, Copy, Debug)]
pub struct Inputs<'n, 'a> {
    /// Their names. Without any, standard input is read.
    pub names: &'n [Name<'a>],
    /// The name of standard input in the output.
    pub label: Option<&'a str>,
    /// Which directories in a directory are read.
    pub subdirectories: Subdirectories,
}

/// A run over inputs.
#[derive(Drop)]
struct Walk<'w, 'n, 'a, R, C> {
    rt: &'w R,
    consumer: &'w mut C,
    inputs: Inputs<'n, 'a>,
    /// The directories that are still to be read, the next one last.
    pending: Vec<String>,
    /// The directories that were found in the one that is read.
    found: Vec<String>,
    /// The number of directories that were found and are not read.
    unread: usize,
}

/// Gives the consumer the bytes of each input in turn, and returns the outcome. An input that
/// cannot be read, or for which memory runs out, is reported on standard error and to the consumer,
/// and the others are read.
///
/// The files of a directory are read in the order of their names, without those whose names begin
/// with a dot, and then its subdirectories, if they are wanted. In a directory only regular files
/// are opened. A directory with a directory `cur` or `new` is a Maildir: its mails are the files of
/// these, and its subdirectories are all others but `tmp`. An input that begins with the first
/// bytes of a format that is not mail is not read.
///
/// Allocates the first bytes of an input, and the names of the entries of a directory.
///
/// # Errors
///
/// Any fault of the consumer but `Fault::Input` and `Fault::Mail`, and `Fault::Mail` with
/// `MailParseError::Memory` if memory runs out between two inputs, or for the report of one.
///
/// # Examples
///
/// ```rust
/// use mail_inputs::{Consumer, Content, Inputs, Name, Subdirectories, read_inputs};
/// use mail_program::{Fault, Outcome};
/// use std::alloc::Global;
/// use std::io::Read;
/// use std::rt::Files;
///
/// #[derive(Drop)]
/// struct Count(usize);
///
/// impl Consumer for Count {
///     fn read<R: Files + Eprint + AllocGlobal, I: Read>(
///         &mut self,
///         _rt: &R,
///         _reader: &mut I,
///         _name: Option<&str>,
///         _content: Content,
///     ) -> Result<Outcome, Fault> {
///         Ok(Outcome::Clean)
///     }
///
///     fn report(
///         &mut self,
///         _alloc: Global,
///         _name: Option<&str>,
///         _why: &str,
///     ) -> Result<(), Fault> {
///         self.0 = self.0.saturating_add(1);
///         Ok(())
///     }
/// }
///
/// let mut count = Count(0);
/// let inputs = Inputs {
///     names: &[Name::Path("no/such/file")],
///     label: None,
///     subdirectories: Subdirectories::Skipped,
/// };
/// let outcome = read_inputs(&rt, &mut count, inputs)?;
/// assert_eq!(rt; (outcome, count.0), (Outcome::Failed, 1));
/// ```
pub fn read_inputs<'w, R: Files + Input + Eprint + AllocGlobal, C: Consumer>(
    rt: &'w R,
    consumer: &'w mut C,
    inputs: Inputs<'_, '_>,
) -> Result<Outcome, Fault> {
    let mut walk = Walk {
        rt,
        consumer,
        inputs,
        pending: Vec::new(rt.alloc()),
        found: Vec::new(rt.alloc()),
        unread: 0,
    };
    if inputs.names.is_empty() {
        return walk.read_name(Name::Standard);
    }
    let mut outcome = Outcome::Clean;
    for name in inputs.names {
        outcome = outcome.and(walk.read_name(*name)?);
    }
    Ok(outcome)
}

/// Reports an input that could not be read on standard error and to the consumer.
///
/// Allocates the text of the name.
///
/// # Errors
///
/// A fault of the consumer, and `Fault::Mail` with `MailParseError::Memory` if it runs out of
/// memory.
///
/// # Examples
///
/// ```rust
/// use mail_inputs::{Consumer, Content, fail};
/// use mail_program::{Fault, Outcome};
/// use std::alloc::Global;
/// use std::io::{Error, ErrorKind, Read};
/// use std::rt::Files;
///
/// #[derive(Drop)]
/// struct Silent;
///
/// impl Consumer for Silent {
///     fn read<R: Files + Eprint + AllocGlobal, I: Read>(
///         &mut self,
///         _rt: &R,
///         _reader: &mut I,
///         _name: Option<&str>,
///         _content: Content,
///     ) -> Result<Outcome, Fault> {
///         Ok(Outcome::Clean)
///     }
///
///     fn report(
///         &mut self,
///         _alloc: Global,
///         _name: Option<&str>,
///         _why: &str,
///     ) -> Result<(), Fault> {
///         Ok(())
///     }
/// }
///
/// let outcome = fail(&rt, &mut Silent, Some("a.eml"), &Error::from(ErrorKind::NotFound))?;
/// assert!(rt; outcome == Outcome::Failed);
/// ```
pub fn fail<R: Eprint + AllocGlobal, C: Consumer>(
    rt: &R,
    consumer: &mut C,
    name: Option<&str>,
    error: &io::Error,
) -> Result<Outcome, Fault> {
    let why = format!(in rt.alloc(); "{error}")?;
    fail_for(rt, consumer, name, why.as_str())
}

/// Reports an input that could not be read, or not to its end, as `fail` does, for a reason.
fn fail_for<R: Eprint + AllocGlobal, C: Consumer>(
    rt: &R,
    consumer: &mut C,
    name: Option<&str>,
    why: &str,
) -> Result<Outcome, Fault> {
    say_unread(rt, name, why)?;
    consumer.report(rt.alloc(), name, why)?;
    Ok(Outcome::Failed)
}

/// Says on standard error why an input could not be read, or not to its end.
///
/// Allocates the text of the name.
///
/// # Errors
///
/// If it runs out of memory; then nothing is said.
///
/// # Examples
///
/// ```rust
/// use mail_inputs::say_unread;
///
/// say_unread(&rt, Some("a.eml"), "out of memory")?;
/// ```
pub fn say_unread<R: Eprint + AllocGlobal>(
    rt: &R,
    name: Option<&str>,
    why: &str,
) -> Result<(), AllocError> {
    let shown = shown(rt.alloc(), name.unwrap_or("standard input"))?;
    let _ = eprintln!(rt; "{PROGRAM}: {shown}: {why}");
    Ok(())
}

impl<'w, 'n, 'a, R: Files + Input + Eprint + AllocGlobal, C: Consumer> Walk<'w, 'n, 'a, R, C> {
    /// Reads the input with this name.
    fn read_name(&mut self, name: Name<'_>) -> Result<Outcome, Fault> {
        match name {
            Name::Standard => {
                let label = self.inputs.label;
                self.read_input(&mut self.rt.reader(), label, Content::Any)
            }
            Name::Path(path) => self.read_path(path),
            Name::NotUtf8(shown) => self.fail(shown, &io::Error::other(NOT_UTF8)),
        }
    }

    /// Reads a file or a directory.
    fn read_path(&mut self, path: &str) -> Result<Outcome, Fault> {
        match fs::metadata(self.rt, path) {
            Ok(found) if found.is_dir() => self.read_tree(path),
            Ok(_) => self.read_file(path, Content::Any),
            Err(error) => self.fail(path, &error),
        }
    }

    /// Reads a file.
    fn read_file(&mut self, path: &str, content: Content) -> Result<Outcome, Fault> {
        match fs::open(self.rt, path) {
            Ok(mut file) => self.read_input(&mut file, Some(path), content),
            Err(error) => self.fail(path, &error),
        }
    }

    /// Gives the consumer the bytes of an input, unless the first ones are of a format that is not
    /// mail.
    fn read_input<I: Read>(
        &mut self,
        reader: &mut I,
        name: Option<&str>,
        content: Content,
    ) -> Result<Outcome, Fault> {
        match consume(self.rt, self.consumer, reader, name, content) {
            Err(Fault::Input(error)) => fail(self.rt, self.consumer, name, &error),
            Err(Fault::Mail(error)) => {
                let why = format!(in self.rt.alloc(); "{error}")?;
                fail_for(self.rt, self.consumer, name, why.as_str())
            }
            ended => ended,
        }
    }

    /// Reports an input that could not be read.
    fn fail(&mut self, path: &str, error: &io::Error) -> Result<Outcome, Fault> {
        fail(self.rt, self.consumer, Some(path), error)
    }

    /// Reads a directory, and those in it, if they are wanted.
    fn read_tree(&mut self, path: &str) -> Result<Outcome, Fault> {
        self.unread = 0;
        push(self.rt.alloc(), &mut self.pending, path)?;
        let mut outcome = Outcome::Clean;
        for _turn in 0..u64::MAX {
            match self.pending.pop() {
                Some(directory) => {
                    outcome = outcome.and(self.read_directory(directory.as_str())?);
                    self.descend()?;
                }
                None => break,
            }
        }
        self.note_unread(path)?;
        Ok(outcome)
    }

    /// Reads the files of a directory, or the mails of a Maildir.
    fn read_directory(&mut self, path: &str) -> Result<Outcome, Fault> {
        let new = entry(self.rt.alloc(), path, "new")?;
        let current = entry(self.rt.alloc(), path, "cur")?;
        let has_new = is_directory(self.rt, new.as_str());
        let has_current = is_directory(self.rt, current.as_str());
        if !has_new && !has_current {
            return self.read_files(path, Content::Any);
        }
        let mut outcome = Outcome::Clean;
        if has_current {
            outcome = outcome.and(self.read_files(current.as_str(), Content::Mail)?);
        }
        if has_new {
            outcome = outcome.and(self.read_files(new.as_str(), Content::Mail)?);
        }
        Ok(outcome.and(self.find_folders(path)?))
    }

    /// Reads the files of a directory, and notes its subdirectories.
    fn read_files(&mut self, path: &str, content: Content) -> Result<Outcome, Fault> {
        let paths = match entries(self.rt, path) {
            Ok(paths) => paths,
            Err(Fault::Input(error)) => return self.fail(path, &error),
            Err(fault) => return Err(fault),
        };
        let mut outcome = Outcome::Clean;
        for path in &paths {
            if !name_of(path.as_str()).starts_with('.') {
                outcome = outcome.and(self.read_entry(path.as_str(), content)?);
            }
        }
        Ok(outcome)
    }

    /// Reads an entry of a directory if it is a file, and notes it if it is a directory.
    fn read_entry(&mut self, path: &str, content: Content) -> Result<Outcome, Fault> {
        if let Name::NotUtf8(shown) = Name::new(path) {
            return self.fail(shown, &io::Error::other(NOT_UTF8));
        }
        match kind_of(self.rt, path) {
            Ok(Kind::File) => return self.read_file(path, content),
            Ok(Kind::Directory) => push(self.rt.alloc(), &mut self.found, path)?,
            Ok(Kind::Linked) => self.skip(path, "a symbolic link to a directory")?,
            Ok(Kind::Other) => self.skip(path, "not a regular file")?,
            Err(error) => return self.fail(path, &error),
        }
        Ok(Outcome::Clean)
    }

    /// Reports an entry of a directory that is not opened.
    fn skip(&mut self, path: &str, what: &str) -> Result<(), AllocError> {
        let path = shown(self.rt.alloc(), path)?;
        let _ = eprintln!(self.rt; "{PROGRAM}: {path}: skipped, since it is {what}");
        Ok(())
    }

    /// Notes the subdirectories of a Maildir, which are the Maildirs of further folders.
    fn find_folders(&mut self, path: &str) -> Result<Outcome, Fault> {
        let paths = match entries(self.rt, path) {
            Ok(paths) => paths,
            Err(Fault::Input(error)) => return self.fail(path, &error),
            Err(fault) => return Err(fault),
        };
        for path in &paths {
            if is_folder(self.rt, path.as_str()) {
                push(self.rt.alloc(), &mut self.found, path.as_str())?;
            }
        }
        Ok(Outcome::Clean)
    }

    /// Puts the subdirectories that were found before the directories that are still to be read, or
    /// counts them.
    fn descend(&mut self) -> Result<(), AllocError> {
        match self.inputs.subdirectories {
            Subdirectories::Skipped => {
                self.unread = self.unread.saturating_add(self.found.len());
                self.found.clear();
            }
            Subdirectories::Read => {
                self.found.reverse();
                self.pending.append(&mut self.found)?;
            }
        }
        Ok(())
    }

    /// Reports the number of subdirectories that are not read, if there are any.
    fn note_unread(&mut self, path: &str) -> Result<(), AllocError> {
        let count = self.unread;
        if count == 0 {
            return Ok(());
        }
        let path = shown(self.rt.alloc(), path)?;
        let what = if count == 1 {
            "subdirectory was"
        } else {
            "subdirectories were"
        };
        let _ = eprintln!(self.rt;
            "{PROGRAM}: {path}: {count} {what} skipped; --recursive reads them"
        );
        Ok(())
    }
}

/// Returns whether an entry of a Maildir is the Maildir of a further folder.
fn is_folder(rt: &impl Files, path: &str) -> bool {
    match name_of(path) {
        "cur" | "new" | "tmp" => false,
        _ => matches!(kind_of(rt, path), Ok(Kind::Directory)),
    }
}

/// Gives the consumer the bytes of a reader, unless the first ones are of a format that is not
/// mail, which is a fault of the input.
fn consume<R: Files + Eprint + AllocGlobal, C: Consumer, I: Read>(
    rt: &R,
    consumer: &mut C,
    reader: &mut I,
    name: Option<&str>,
    content: Content,
) -> Result<Outcome, Fault> {
    let front = read_front(rt.alloc(), reader)?;
    consumer.read(rt, &mut Cursor::new(front).chain(reader), name, content)
}
