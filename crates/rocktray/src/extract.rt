//! The subcommand that saves the files in mails.
ghost use Rattle.std.specs.Prelude.{true, None};

use crate::inputs::{inputs_of, kind_of, known_kind, limit_of, most_bytes_of};
use crate::lines::{WholeLines, why_ended};
use crate::notes::StandardError;
use crate::only;
use crate::options::ids;
use clap::ArgMatches;
use mail_charsets::AllCharsets;
use mail_extract::{
    Choice, Created, Directory, Disk, FileLine, Hashing, Naming, SaveOptions, Source, Target,
    extract_input, write_line,
};
use mail_inputs::{
    Consumer, Content, Name, PROGRAM, argument_text, read_inputs, say_unread, shown,
};
use mail_program::{Fault, Outcome};
use mail_walk::InputKind;
use std::alloc::{AllocError, Global};
use std::fs;
use std::io::{self, BufWriter, ErrorKind, Printer, Read, Write};
use std::process::ExitCode;
use std::rt::Files;

/// The first number that is added to a taken name.
const FIRST_NUMBER: u64 = 2;

/// What is said if a choice of a path keeps nothing.
pub const NOTHING_KEPT: &str = "the choice keeps no file";

/// Saves the files of inputs, and writes their lines.
#[derive(Drop)]
struct Saver<'r, P: Print> {
    out: WholeLines<BufWriter<Printer<'r, P>>>,
    kind: InputKind,
    /// The path of the directory in which files are saved.
    directory: &'r str,
    /// The number that is tried next if a name is taken.
    number: u64,
    options: SaveOptions<'r>,
    /// Whether a file was kept.
    keeps: Keeps,
}

/// Whether the choice kept a file so far.
#[derive(Clone, Copy, Debug, PartialEq, Eq)]
enum Keeps {
    /// It kept none.
    Nothing,
    /// It kept one.
    Something,
}

/// A directory of the file system that notes whether a file was to be saved there.
#[derive(Drop)]
struct NotingDisk<'r, R> {
    disk: Disk<'r, R>,
    keeps: Keeps,
}

impl<'r, R: Files + AllocGlobal> Directory for NotingDisk<'r, R> {
    ghost held = { λ disk. None };

    ghost can_fail = { λ files. true };

    fn create(&mut self, name: &str, bytes: &[u8]) -> Result<Created, AllocError> {
        self.keeps = Keeps::Something;
        self.disk.create(name, bytes)
    }

    fn has(&self, name: &str, bytes: &[u8]) -> Result<bool, AllocError> {
        self.disk.has(name, bytes)
    }
}

impl<'r, P: Print> Consumer for Saver<'r, P> {
    fn read<R: Files + Eprint + AllocGlobal, I: Read>(
        &mut self,
        rt: &R,
        reader: &mut I,
        name: Option<&str>,
        content: Content,
    ) -> Result<Outcome, Fault> {
        let known = &AllCharsets::standard();
        let notes = &StandardError(rt);
        let source = source_of(self.kind, content, name, self.options, known, notes);
        let disk = Disk {
            rt,
            path: self.directory,
        };
        let mut target = Target {
            directory: NotingDisk {
                disk,
                keeps: self.keeps,
            },
            number: self.number,
        };
        let before = self.out.count();
        let ended = extract_input(rt.alloc(), &mut self.out, &mut target, reader, source);
        self.number = target.number;
        self.keeps = target.directory.keeps;
        match ended {
            Ok(outcome) => Ok(outcome),
            Err(fault) => self.give_up(rt, name, fault, before),
        }
    }

    fn report(&mut self, _alloc: Global, name: Option<&str>, why: &str) -> Result<(), Fault> {
        write_unread(&mut self.out, name, why)
    }
}

impl<'r, P: Print> Saver<'r, P> {
    /// Reports an input for whose rest memory ran out, given the number of lines before it. Any
    /// other fault is returned.
    fn give_up<R: Eprint + AllocGlobal>(
        &mut self,
        rt: &R,
        name: Option<&str>,
        fault: Fault,
        before: usize,
    ) -> Result<Outcome, Fault> {
        let count = self.out.count().saturating_sub(before);
        let why = why_ended(rt.alloc(), fault, count)?;
        say_unread(rt, name, why.as_str())?;
        write_unread(&mut self.out, name, why.as_str())?;
        Ok(Outcome::Failed)
    }
}

/// Saves the files of these inputs, and returns the exit status.
///
/// # Errors
///
/// A fault that ends the run.
pub fn run<'a, R: Files + Input + Print + Eprint + AllocGlobal>(
    rt: &'a R,
    matches: &ArgMatches<'a>,
    names: &[Name<'a>],
) -> Result<ExitCode, Fault> {
    if matches.get_flag(ids::STDOUT) {
        return only::run(rt, matches, names);
    }
    let directory = directory_of(matches);
    if let Err(error) = check_directory(rt, directory) {
        let directory = shown(rt.alloc(), argument_text(directory))?;
        let _ = eprintln!(rt; "{PROGRAM}: {directory}: {error}");
        return Ok(ExitCode::FAILURE);
    }
    let mut saver = Saver {
        out: WholeLines::new(rt.alloc(), BufWriter::new(rt.alloc(), io::writer(rt))?),
        kind: kind_of(matches),
        directory,
        number: FIRST_NUMBER,
        options: options_of(matches),
        keeps: Keeps::Nothing,
    };
    let outcome = read_inputs(rt, &mut saver, inputs_of(matches, names))?;
    saver.out.flush()?;
    if saver.options.choice.path.is_some() && saver.keeps == Keeps::Nothing {
        let _ = eprintln!(rt; "{PROGRAM}: {NOTHING_KEPT}");
        return Ok(ExitCode::FAILURE);
    }
    Ok(outcome.status())
}

/// Returns an input whose files are saved in this way.
pub fn source_of<'s, K, N>(
    kind: InputKind,
    content: Content,
    file: Option<&'s str>,
    options: SaveOptions<'s>,
    known: &'s K,
    notes: &'s N,
) -> Source<'s, K, N> {
    Source {
        kind: known_kind(kind, content),
        file,
        options,
        known,
        notes,
    }
}

/// Writes the line of an input that could not be read, or not to its end.
fn write_unread<'l, W: Write>(
    out: &mut WholeLines<W>,
    file: Option<&'l str>,
    why: &'l str,
) -> Result<(), Fault> {
    let line = FileLine {
        file,
        number: None,
        path: None,
        saved: None,
        size: None,
        sha256: None,
        error: Some(why),
    };
    out.give_up_line()?;
    write_line(out, &line)?;
    Ok(())
}

/// Returns the path of the directory in which files are saved.
fn directory_of<'a>(matches: &ArgMatches<'a>) -> &'a str {
    match matches.get_str(ids::INTO) {
        Some(path) => path,
        None => ".",
    }
}

/// Refuses a path that is no directory.
fn check_directory(rt: &impl Files, path: &str) -> io::Result<()> {
    if path.ends_with('\0') {
        return Err(io::Error::other("the name is not UTF-8"));
    }
    if fs::metadata(rt, path)?.is_dir() {
        Ok(())
    } else {
        Err(io::Error::from(ErrorKind::NotADirectory))
    }
}

/// Returns how files are saved, and which.
fn options_of<'a>(matches: &ArgMatches<'a>) -> SaveOptions<'a> {
    SaveOptions {
        limit: limit_of(matches),
        most_bytes: most_bytes_of(matches),
        hashing: if matches.get_flag(ids::HASH) {
            Hashing::On
        } else {
            Hashing::Off
        },
        naming: if matches.get_flag(ids::BY_HASH) {
            Naming::ByHash
        } else if matches.get_flag(ids::WINDOWS_NAMES) {
            Naming::ForWindows
        } else {
            Naming::BySender
        },
        choice: choice_of(matches),
    }
}

/// Returns which files the options choose.
pub fn choice_of<'a>(matches: &ArgMatches<'a>) -> Choice<'a> {
    Choice {
        path: matches.get_str(ids::ONLY),
        mimetype: matches.get_str(ids::TYPE),
        name: matches.get_str(ids::NAME),
    }
}
