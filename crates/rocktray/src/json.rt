//! The subcommand that writes mails as lines of JSON.

use crate::inputs::{inputs_of, kind_of, known_kind, limit_of, most_bytes_of, progress_of};
use crate::lines::{WholeLines, why_ended};
use crate::options::ids;
use crate::{Terminals, wrong};
use clap::ArgMatches;
use mail_charsets::AllCharsets;
use mail_data::mailbox::Format;
use mail_html::References;
use mail_inputs::{
    Consumer, Content, Meter, NOT_UTF8, Name, Progress, argument_text, fail, open_regular,
    read_inputs, say_unread, shown,
};
use mail_json::range::{FilePart, reading_start, shows_mailbox, write_first_part, write_range};
use mail_json::{LineOptions, NextMail, Source, Watch, Written, write_input, write_unread};
use mail_program::{Fault, Outcome};
use mail_walk::InputKind;
use std::alloc::Global;
use std::fs::{self, OpenFile};
use std::io::{self, BufWriter, Read, Seek, SeekFrom, Write};
use std::process::ExitCode;
use std::rt::Files;

/// What the options say of the lines.
#[derive(Clone, Copy, Debug)]
struct Shown {
    /// The greatest number of messages, parts and headers in a mail that is not refused.
    limit: usize,
    /// The greatest number of bytes that are decoded for the mails inside a mail, if it is chosen.
    most_bytes: Option<usize>,
    /// Whether bodies are decoded.
    decodes_bodies: bool,
    /// Whether files have their hashes.
    hashes: bool,
    /// Whether each paragraph of a flowed text is one line.
    joins_flowed: bool,
    /// Whether HTML has its text.
    html_text: bool,
    /// Whether each mail has its findings.
    lists_findings: bool,
}

/// How the inputs are read.
#[derive(Clone, Copy, Debug)]
struct How {
    /// What each input is.
    kind: InputKind,
    /// What the options say of the lines.
    shown: Shown,
    /// Whether a long run reports its progress.
    progress: Progress,
}

/// Writes the lines of inputs.
#[derive(Drop)]
struct Lines<W> {
    out: WholeLines<W>,
    how: How,
}

/// The meter as a watch of mails.
#[derive(Drop)]
struct MailMeter<'r, R>(Meter<'r, R>);

impl<'r, R: Eprint + AllocGlobal> Watch for MailMeter<'r, R> {
    fn note(&mut self, next: NextMail) {
        let mails = match next.number() {
            Some(number) => Some(number.saturating_sub(1)),
            None => None,
        };
        self.0.note(next.at, mails);
    }
}

impl<W: Write> Consumer for Lines<W> {
    fn read<R: Files + Eprint + AllocGlobal, I: Read>(
        &mut self,
        rt: &R,
        reader: &mut I,
        name: Option<&str>,
        content: Content,
    ) -> Result<Outcome, Fault> {
        let mut meter = MailMeter(Meter::new(rt, name, self.how.progress, 0));
        let known = &AllCharsets::standard();
        let references = &References::standard();
        let mut source = self.how.source(name, references, known);
        source.kind = known_kind(source.kind, content);
        let before = self.out.count();
        match write_input(rt.alloc(), &mut self.out, reader, source, &mut meter) {
            Ok(written) => Ok(outcome_of(written)),
            Err(fault) => self.give_up(rt, name, fault, before),
        }
    }

    fn report(&mut self, _alloc: Global, name: Option<&str>, why: &str) -> Result<(), Fault> {
        self.write_unread(name, why)
    }
}

impl<W: Write> Lines<W> {
    /// Reports an input for whose rest memory ran out, given the number of lines before it. Any
    /// other fault is returned.
    fn give_up<R: Eprint + AllocGlobal>(
        &mut self,
        rt: &R,
        name: Option<&str>,
        fault: Fault,
        before: usize,
    ) -> Result<Outcome, Fault> {
        let count = self.out.count().saturating_sub(before);
        let why = why_ended(rt.alloc(), fault, count)?;
        say_unread(rt, name, why.as_str())?;
        self.write_unread(name, why.as_str())?;
        Ok(Outcome::Failed)
    }

    /// Writes the line of an input that could not be read, or not to its end.
    fn write_unread(&mut self, name: Option<&str>, why: &str) -> Result<(), Fault> {
        self.out.give_up_line()?;
        write_unread(&mut self.out, name, why)
    }
}

impl How {
    /// Returns an input that is read in this way, under these references.
    fn source<'s, K>(
        self,
        file: Option<&'s str>,
        references: &'s References<'s>,
        known: &'s K,
    ) -> Source<'s, K> {
        Source {
            kind: self.kind,
            file,
            options: self.shown.line_options(references),
            known,
        }
    }
}

impl Shown {
    /// Returns how mails are shown, under these references.
    fn line_options<'r>(self, references: &'r References<'r>) -> LineOptions<'r> {
        let html = if self.html_text {
            Some(references)
        } else {
            None
        };
        LineOptions {
            limit: self.limit,
            most_bytes: self.most_bytes,
            decodes_bodies: self.decodes_bodies,
            hashes: self.hashes,
            joins_flowed: self.joins_flowed,
            html,
            lists_findings: self.lists_findings,
        }
    }
}

/// Returns the outcome of writing lines.
fn outcome_of(written: Written) -> Outcome {
    match written {
        Written::Clean => Outcome::Clean,
        Written::WithErrors => Outcome::Refused,
    }
}

/// Writes the lines of the inputs that the arguments name, and returns the exit status.
///
/// # Errors
///
/// A fault that ends the run.
pub fn run<'a, R: Files + Input + Print + Eprint + AllocGlobal>(
    rt: &R,
    matches: &ArgMatches<'a>,
    names: &[Name<'a>],
    terminals: Terminals,
) -> Result<ExitCode, Fault> {
    let mut lines = Lines {
        out: WholeLines::new(rt.alloc(), BufWriter::new(rt.alloc(), io::writer(rt))?),
        how: how_of(matches, terminals),
    };
    let outcome = match matches.get_str(ids::PART) {
        Some(text) => {
            let Some(part) = part_of(text) else {
                return wrong_part(rt, text);
            };
            if let Some(why) = why_no_parts(rt, names, lines.how.kind) {
                return wrong(rt, why);
            }
            read_parts(rt, &mut lines, names, part)?
        }
        None => read_inputs(rt, &mut lines, inputs_of(matches, names))?,
    };
    lines.out.flush()?;
    Ok(outcome.status())
}

/// Returns how the options say that inputs are read.
fn how_of(matches: &ArgMatches<'_>, terminals: Terminals) -> How {
    let shown = Shown {
        limit: limit_of(matches),
        most_bytes: most_bytes_of(matches),
        decodes_bodies: !matches.get_flag(ids::NO_TEXT),
        hashes: matches.get_flag(ids::HASH),
        joins_flowed: matches.get_flag(ids::FLOWED),
        html_text: matches.get_flag(ids::HTML_TEXT),
        lists_findings: matches.get_flag(ids::CHECK),
    };
    How {
        kind: kind_of(matches),
        shown,
        progress: progress_of(matches, terminals),
    }
}

/// Returns the part that a text `K/N` names, or `None` if it names no part.
fn part_of(text: &str) -> Option<FilePart> {
    let (number, count) = text.split_once('/')?;
    let part = FilePart {
        number: number_of(number)?,
        count: number_of(count)?,
    };
    if 1 <= part.number && part.number <= part.count {
        Some(part)
    } else {
        None
    }
}

/// Returns the number that these digits write, or `None` if there is no such number.
fn number_of(digits: &str) -> Option<usize> {
    if digits.starts_with('+') {
        return None;
    }
    digits.parse::<usize>().ok()
}

/// Returns why parts of these inputs cannot be read, or `None` if they can: they are files, and no
/// mail gives its length.
fn why_no_parts(rt: &impl Files, names: &[Name<'_>], kind: InputKind) -> Option<&'static str> {
    if kind == InputKind::Mailbox(Format::Counted) {
        return Some("--part cannot be used with --mbox=cl, whose mails give their lengths");
    }
    if names.is_empty() || names.iter().any(|name| *name == Name::Standard) {
        return Some("--part reads files, and not standard input");
    }
    if names.iter().any(|name| is_no_file(rt, *name)) {
        return Some("--part reads files, and no directories, pipes or devices");
    }
    None
}

/// Returns whether something that is no file has this name.
fn is_no_file(rt: &impl Files, name: Name<'_>) -> bool {
    match name {
        Name::Path(path) => match fs::metadata(rt, path) {
            Ok(found) => !found.is_file(),
            Err(_) => false,
        },
        Name::Standard | Name::NotUtf8(_) => false,
    }
}

/// Prints that a text names no part, and returns the exit status.
fn wrong_part(rt: &(impl Eprint + AllocGlobal), text: &str) -> Result<ExitCode, Fault> {
    let text = shown(rt.alloc(), argument_text(text))?;
    let why = format!(in rt.alloc();
        "invalid value '{text}' for '--part <K/N>': K is a number from 1 to N, as in 1/4"
    )?;
    wrong(rt, why.as_str())
}

/// Writes the lines of a part of each file, and returns the outcome.
fn read_parts<R: Files + Eprint + AllocGlobal, W: Write>(
    rt: &R,
    lines: &mut Lines<W>,
    names: &[Name<'_>],
    part: FilePart,
) -> Result<Outcome, Fault> {
    let mut outcome = Outcome::Clean;
    for name in names {
        let next = match name {
            Name::Path(path) => read_part(rt, lines, path, part)?,
            Name::NotUtf8(shown) => fail(rt, lines, Some(*shown), &io::Error::other(NOT_UTF8))?,
            Name::Standard => Outcome::Clean,
        };
        outcome = outcome.and(next);
    }
    Ok(outcome)
}

/// Writes the lines of a part of a file, and returns the outcome.
fn read_part<R: Files + Eprint + AllocGlobal, W: Write>(
    rt: &R,
    lines: &mut Lines<W>,
    path: &str,
    part: FilePart,
) -> Result<Outcome, Fault> {
    let before = lines.out.count();
    let written = match open_regular(rt, path) {
        Ok(mut file) => match file.metadata() {
            Ok(found) => write_part(rt, lines, &mut file, found.len(), path, part),
            Err(error) => Err(Fault::Input(error)),
        },
        Err(fault) => Err(fault),
    };
    match written {
        Ok(written) => Ok(outcome_of(written)),
        Err(Fault::Input(error)) => fail(rt, lines, Some(path), &error),
        Err(fault) => lines.give_up(rt, Some(path), fault, before),
    }
}

/// Writes the lines of a part of a file of this size, at whose start the reader is.
fn write_part<I: Read + Seek, R: Eprint + AllocGlobal, W: Write>(
    rt: &R,
    lines: &mut Lines<W>,
    reader: &mut I,
    size: u64,
    path: &str,
    part: FilePart,
) -> Result<Written, Fault> {
    let range = part.range(size as usize);
    let how = lines.how;
    let mut meter = MailMeter(Meter::new(rt, Some(path), how.progress, range.start));
    let known = &AllCharsets::standard();
    let references = &References::standard();
    let source = how.source(Some(path), references, known);
    if part.number == 1 {
        let out = &mut lines.out;
        return write_first_part(rt.alloc(), out, reader, source, range.end, &mut meter);
    }
    if !shows_mailbox(rt.alloc(), reader, how.kind)? {
        return Ok(Written::Clean);
    }
    if let Err(error) = reader.seek(SeekFrom::Start(reading_start(range.start) as u64)) {
        return Err(Fault::Input(error));
    }
    write_range(
        rt.alloc(),
        &mut lines.out,
        reader,
        source,
        range,
        &mut meter,
    )
}
