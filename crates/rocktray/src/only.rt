//! The subcommand that saves files, where it writes the only one to standard output.

use crate::extract::{NOTHING_KEPT, choice_of, source_of};
use crate::inputs::{inputs_of, kind_of, limit_of, most_bytes_of};
use crate::wrong;
use clap::ArgMatches;
use mail_charsets::AllCharsets;
use mail_extract::{Hashing, Naming, OnlyFile, SaveOptions, write_only_file};
use mail_inputs::{Consumer, Content, Name, PROGRAM, is_directory, read_inputs, shown};
use mail_program::{Fault, Outcome};
use mail_walk::InputKind;
use std::alloc::Global;
use std::io::{self, BufWriter, Printer, Read, Write};
use std::process::ExitCode;
use std::rt::Files;
use std::str;

/// Writes the only file of an input that the choice keeps.
#[derive(Drop)]
struct OnlyWriter<'r, P: Print> {
    out: BufWriter<Printer<'r, P>>,
    kind: InputKind,
    options: SaveOptions<'r>,
}

impl<'r, P: Print> Consumer for OnlyWriter<'r, P> {
    fn read<R: Files + Eprint + AllocGlobal, I: Read>(
        &mut self,
        rt: &R,
        reader: &mut I,
        name: Option<&str>,
        content: Content,
    ) -> Result<Outcome, Fault> {
        let known = &AllCharsets::standard();
        let source = source_of(self.kind, content, name, self.options, known, &());
        let mut lines = Vec::new(rt.alloc());
        let found = write_only_file(rt.alloc(), &mut self.out, &mut lines, reader, source)?;
        explain(rt, name, found, lines.as_slice())
    }

    /// Standard error has the report.
    fn report(&mut self, _alloc: Global, _name: Option<&str>, _why: &str) -> Result<(), Fault> {
        Ok(())
    }
}

/// Writes the only file of the input that the choice keeps, and returns the exit status.
///
/// # Errors
///
/// A fault that ends the run.
pub fn run<'a, R: Files + Input + Print + Eprint + AllocGlobal>(
    rt: &'a R,
    matches: &ArgMatches<'a>,
    names: &[Name<'a>],
) -> Result<ExitCode, Fault> {
    if let Some(why) = why_not_one(rt, names) {
        return wrong(rt, why);
    }
    let mut writer = OnlyWriter {
        out: BufWriter::new(rt.alloc(), io::writer(rt))?,
        kind: kind_of(matches),
        options: SaveOptions {
            limit: limit_of(matches),
            most_bytes: most_bytes_of(matches),
            hashing: Hashing::Off,
            naming: Naming::BySender,
            choice: choice_of(matches),
        },
    };
    let outcome = read_inputs(rt, &mut writer, inputs_of(matches, names))?;
    writer.out.flush()?;
    Ok(outcome.status())
}

/// Returns why these are not one input, or `None` if they are.
fn why_not_one(rt: &impl Files, names: &[Name<'_>]) -> Option<&'static str> {
    match names {
        [] | [Name::Standard] | [Name::NotUtf8(_)] => None,
        [Name::Path(path)] if is_directory(rt, path) => Some("--stdout reads no directories"),
        [_] => None,
        _ => Some("--stdout reads one input"),
    }
}

/// Says on standard error what the choice keeps, unless it is one whole file of mails that are all
/// read, and returns the outcome.
fn explain(
    rt: &(impl Eprint + AllocGlobal),
    name: Option<&str>,
    found: OnlyFile,
    lines: &[u8],
) -> Result<Outcome, Fault> {
    let why = match found {
        OnlyFile::Written(Outcome::Clean) => return Ok(Outcome::Clean),
        OnlyFile::Written(_) => "",
        OnlyFile::Missing => NOTHING_KEPT,
        OnlyFile::Several => "the choice keeps several files, and --stdout writes one",
    };
    if let Ok(lines) = str::from_utf8(lines) {
        let _ = eprint!(rt; "{lines}");
    }
    if let OnlyFile::Written(outcome) = found {
        return Ok(outcome);
    }
    let name = shown(rt.alloc(), name.unwrap_or("standard input"))?;
    let _ = eprintln!(rt; "{PROGRAM}: {name}: {why}");
    Ok(Outcome::Failed)
}
