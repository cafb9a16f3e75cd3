//! The inputs that the arguments of a subcommand name, and how they are read.

use crate::Terminals;
use crate::options::ids;
use clap::ArgMatches;
use mail_data::mailbox::Format;
use mail_inputs::{Content, Inputs, Name, Progress, Subdirectories, argument_text};
use mail_read::reading::DEFAULT_LIMIT;
use mail_walk::InputKind;
use std::alloc::{AllocError, Global};

/// Returns the names of the inputs.
pub fn names_of<'a>(alloc: Global, matches: &ArgMatches<'a>) -> Result<Vec<Name<'a>>, AllocError> {
    let mut names = Vec::new(alloc);
    for argument in matches.get_strs(ids::INPUTS).unwrap_or(&[]) {
        names.push(Name::new(argument))?;
    }
    Ok(names)
}

/// Returns the inputs with these names.
pub fn inputs_of<'n, 'a>(matches: &ArgMatches<'a>, names: &'n [Name<'a>]) -> Inputs<'n, 'a> {
    Inputs {
        names,
        label: label_of(matches),
        subdirectories: if matches.get_flag(ids::RECURSIVE) {
            Subdirectories::Read
        } else {
            Subdirectories::Skipped
        },
    }
}

/// Returns the name of standard input in the output.
fn label_of<'a>(matches: &ArgMatches<'a>) -> Option<&'a str> {
    match matches.get_str(ids::LABEL) {
        Some(label) => Some(argument_text(label)),
        None => None,
    }
}

/// Returns what the options say that each input is.
pub fn kind_of(matches: &ArgMatches<'_>) -> InputKind {
    match matches.get_str(ids::MBOX) {
        Some("rd") => InputKind::Mailbox(Format::Quoted),
        Some("cl") => InputKind::Mailbox(Format::Counted),
        Some(_) => InputKind::Mailbox(Format::Plain),
        None if matches.get_flag(ids::MAIL) => InputKind::Mail,
        None => InputKind::Either,
    }
}

/// Returns the greatest number of messages, parts and headers in a mail that is not refused.
pub fn limit_of(matches: &ArgMatches<'_>) -> usize {
    matches.get_one(ids::MAX_ITEMS).unwrap_or(DEFAULT_LIMIT)
}

/// Returns the greatest number of bytes that are decoded for the mails inside a mail that is not
/// refused, if it is chosen.
pub fn most_bytes_of(matches: &ArgMatches<'_>) -> Option<usize> {
    matches.get_one(ids::MAX_BYTES)
}

/// Returns what an input is, given what the options say and what is known of it.
pub fn known_kind(kind: InputKind, content: Content) -> InputKind {
    match content {
        Content::Any => kind,
        Content::Mail => InputKind::Mail,
    }
}

/// Returns whether progress is reported: if an option says so, or standard error is a terminal.
pub fn progress_of(matches: &ArgMatches<'_>, terminals: Terminals) -> Progress {
    if matches.get_flag(ids::PROGRESS) || terminals.error {
        Progress::Reported
    } else {
        Progress::Silent
    }
}
