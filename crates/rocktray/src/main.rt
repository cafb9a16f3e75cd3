//! Reads mails: `rocktray SUBCOMMAND [OPTION..] [INPUT..]`.
#![tactic(auto)]

mod check;
mod extract;
mod inputs;
mod json;
mod lines;
mod notes;
mod only;
mod options;
mod release;
mod show;

use clap::error::ErrorKind;
use clap::{ArgMatches, Error};
use inputs::names_of;
use mail_inputs::{PROGRAM, argument_text, arguments, shown};
use mail_program::{Fault, status_of};
use options::{CHECK, EXTRACT, JSON, SHOW, command};
use release::{COMMIT, LOGIC};
use std::alloc::{AllocError, Global};
use std::env::Env;
use std::io::IsTerminal;
use std::process::ExitCode;
use std::rt::Files;

/// Which of the standard streams are terminals.
#[derive(Clone, Copy, Debug)]
pub struct Terminals {
    /// Whether standard input is one.
    pub input: bool,
    /// Whether standard error is one.
    pub error: bool,
}

fn main(rt: HostRuntime) -> ExitCode {
    let terminals = Terminals {
        input: rt.stdin().is_terminal(),
        error: rt.stderr().is_terminal(),
    };
    status_of(&rt, PROGRAM, answer(&rt, terminals))
}

/// Does what the arguments ask for, and returns the exit status.
fn answer(
    rt: &(impl Env + Files + Input + Print + Eprint + AllocGlobal),
    terminals: Terminals,
) -> Result<ExitCode, Fault> {
    let arguments = arguments(rt)?;
    match command(rt.alloc())?.try_get_matches_from(arguments.as_slice()) {
        Ok(matches) => run(rt, &matches, terminals),
        Err(error) if error.kind() == ErrorKind::OutOfMemory => Err(Fault::from(AllocError)),
        Err(_) => explain(rt, arguments.as_slice()),
    }
}

/// Runs the subcommand, and returns the exit status.
fn run<'a>(
    rt: &'a (impl Files + Input + Print + Eprint + AllocGlobal),
    matches: &ArgMatches<'a>,
    terminals: Terminals,
) -> Result<ExitCode, Fault> {
    let Some((name, matches)) = matches.subcommand() else {
        return Ok(ExitCode::from(2));
    };
    let names = names_of(rt.alloc(), matches)?;
    if names.is_empty() && terminals.input {
        return wrong(rt, "no input was given, and standard input is a terminal");
    }
    match name {
        JSON => json::run(rt, matches, names.as_slice(), terminals),
        SHOW => show::run(rt, matches, names.as_slice()),
        EXTRACT => extract::run(rt, matches, names.as_slice()),
        CHECK => check::run(rt, matches, names.as_slice()),
        _ => Ok(ExitCode::from(2)),
    }
}

/// Prints the help that the arguments ask for, or why they are wrong, and returns the exit status.
/// Control characters of the arguments are escaped.
fn explain(
    rt: &(impl Print + Eprint + AllocGlobal),
    arguments: &[String],
) -> Result<ExitCode, Fault> {
    let texts = shown_texts(rt.alloc(), arguments)?;
    match command(rt.alloc())?.try_get_matches_from(texts.as_slice()) {
        Ok(_) => wrong(rt, "an argument contains a control character"),
        Err(error) => print(rt, &error),
    }
}

/// Returns the arguments with their control characters escaped.
fn shown_texts(alloc: Global, arguments: &[String]) -> Result<Vec<String>, AllocError> {
    let mut texts = Vec::new(alloc);
    for argument in arguments {
        texts.push(shown(alloc, argument_text(argument.as_str()))?)?;
    }
    Ok(texts)
}

/// Prints what a parse returned instead of matches, and returns the exit status.
fn print(rt: &(impl Print + Eprint), error: &Error) -> Result<ExitCode, Fault> {
    match error.kind() {
        ErrorKind::OutOfMemory => Err(Fault::from(AllocError)),
        ErrorKind::DisplayHelp => {
            rt.print(error)?;
            Ok(ExitCode::SUCCESS)
        }
        ErrorKind::DisplayVersion => {
            rt.print(error)?;
            println!(rt; "commit {COMMIT}\nlogic {LOGIC}")?;
            Ok(ExitCode::SUCCESS)
        }
        _ => {
            let _ = rt.eprint(error);
            Ok(ExitCode::from(2))
        }
    }
}

/// Prints why the arguments are wrong, and returns the exit status.
pub fn wrong(rt: &impl Eprint, why: &str) -> Result<ExitCode, Fault> {
    let _ = eprintln!(rt; "error: {why}\n\nFor more information, try '--help'.");
    Ok(ExitCode::from(2))
}
