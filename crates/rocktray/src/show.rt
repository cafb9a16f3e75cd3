//! The subcommand that shows mails to people.

use crate::inputs::{inputs_of, kind_of, known_kind, limit_of};
use clap::ArgMatches;
use mail_charsets::AllCharsets;
use mail_html::References;
use mail_inputs::{Consumer, Content, Name, is_directory, read_inputs};
use mail_program::{Fault, Outcome, read_input};
use mail_view::{write_mailbox, write_single, write_title};
use mail_walk::{InputKind, is_mailbox};
use std::alloc::Global;
use std::io::{self, BufWriter, Read, Write};
use std::process::ExitCode;
use std::rt::Files;

/// Whether each file has its name before it.
#[derive(Clone, Copy, Debug, PartialEq, Eq)]
pub enum Titles {
    /// None has it.
    Omitted,
    /// Each has it.
    Written,
}

/// Shows the mails of inputs.
#[derive(Drop)]
struct View<W> {
    out: W,
    kind: InputKind,
    /// The greatest number of messages, parts and headers in a mail that is not refused.
    limit: usize,
    titles: Titles,
}

impl<W: Write> Consumer for View<W> {
    fn read<R: Files + Eprint + AllocGlobal, I: Read>(
        &mut self,
        rt: &R,
        reader: &mut I,
        name: Option<&str>,
        content: Content,
    ) -> Result<Outcome, Fault> {
        let input = read_input(rt.alloc(), reader)?;
        let out = &mut self.out;
        if let (Titles::Written, Some(name)) = (self.titles, name) {
            write_title(rt.alloc(), out, name)?;
        }
        let kind = known_kind(self.kind, content);
        let known = &AllCharsets::standard();
        let references = &References::standard();
        let limit = self.limit;
        if is_mailbox(kind, input.as_slice()) {
            let format = kind.format();
            write_mailbox(
                rt.alloc(),
                out,
                input.as_slice(),
                format,
                limit,
                references,
                known,
            )
        } else {
            write_single(rt.alloc(), out, input.as_slice(), limit, references, known)
        }
    }

    /// Standard error has the report.
    fn report(&mut self, _alloc: Global, _name: Option<&str>, _why: &str) -> Result<(), Fault> {
        Ok(())
    }
}

/// Shows the mails of these inputs, and returns the exit status.
///
/// # Errors
///
/// A fault that ends the run.
pub fn run<'a, R: Files + Input + Print + Eprint + AllocGlobal>(
    rt: &R,
    matches: &ArgMatches<'a>,
    names: &[Name<'a>],
) -> Result<ExitCode, Fault> {
    let mut view = View {
        out: BufWriter::new(rt.alloc(), io::writer(rt))?,
        kind: kind_of(matches),
        limit: limit_of(matches),
        titles: titles_of(rt, names),
    };
    let outcome = read_inputs(rt, &mut view, inputs_of(matches, names))?;
    view.out.flush()?;
    Ok(outcome.status())
}

/// Returns whether each file has its name before it: if several inputs are named, or a directory.
pub fn titles_of(rt: &impl Files, names: &[Name<'_>]) -> Titles {
    match names {
        [] => Titles::Omitted,
        [Name::Path(path)] if is_directory(rt, path) => Titles::Written,
        [_] => Titles::Omitted,
        _ => Titles::Written,
    }
}
