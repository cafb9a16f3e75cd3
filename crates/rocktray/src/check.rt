//! The subcommand that reports where programs may read a mail differently.

use crate::inputs::{inputs_of, kind_of, known_kind, limit_of};
use crate::lines::{WholeLines, why_ended};
use crate::options::ids;
use crate::show::{Titles, titles_of};
use clap::ArgMatches;
use mail_charsets::AllCharsets;
use mail_check::{Class, Finding, read_findings};
use mail_data::mailbox::quoted::unquoted;
use mail_data::mailbox::{Format, MailboxEntry, read_mailbox};
use mail_inputs::{Consumer, Content, Name, read_inputs, say_unread};
use mail_json::{Origin, write_error, write_findings, write_unread};
use mail_program::{Fault, Outcome, is_all_whitespace, read_input, refusal_of};
use mail_view::{write_refusal, write_report, write_title};
use mail_walk::{InputKind, is_mailbox};
use std::alloc::{AllocError, Global};
use std::io::{self, BufWriter, Read, Write};
use std::process::ExitCode;
use std::rt::Files;

/// What is written of a mail.
#[derive(Clone, Copy, Debug, PartialEq, Eq)]
enum Form {
    /// Its findings as text, if it has any.
    Text,
    /// A line of JSON.
    Json,
    /// Nothing.
    Silent,
}

/// The classes of findings that are reported.
#[derive(Clone, Copy, Debug, PartialEq, Eq)]
struct Classes {
    structure: bool,
    bytes: bool,
    name: bool,
    text: bool,
    note: bool,
}

impl Classes {
    /// Returns whether the findings of a class are reported.
    fn contains(self, class: Class) -> bool {
        match class {
            Class::Structure => self.structure,
            Class::Bytes => self.bytes,
            Class::Name => self.name,
            Class::Text => self.text,
            Class::Note => self.note,
        }
    }
}

/// Reports what is found in the mails of inputs.
#[derive(Drop)]
struct Check<W> {
    out: WholeLines<W>,
    kind: InputKind,
    /// The greatest number of messages, parts and headers in a mail that is not refused.
    limit: usize,
    form: Form,
    titles: Titles,
    classes: Classes,
}

/// A mail of an input.
#[derive(Clone, Copy)]
struct Mail<'m> {
    raw: &'m [u8],
    origin: Origin<'m>,
}

impl<W: Write> Consumer for Check<W> {
    fn read<R: Files + Eprint + AllocGlobal, I: Read>(
        &mut self,
        rt: &R,
        reader: &mut I,
        name: Option<&str>,
        content: Content,
    ) -> Result<Outcome, Fault> {
        let alloc = rt.alloc();
        let input = read_input(alloc, reader)?;
        let kind = known_kind(self.kind, content);
        if is_mailbox(kind, input.as_slice()) {
            return self.check_mailbox(rt, input.as_slice(), name, kind.format());
        }
        let origin = Origin {
            file: name,
            number: None,
            start: 0,
            end: input.len(),
        };
        let raw = input.as_slice();
        let ended = self.check_mail(alloc, &Mail { raw, origin });
        self.outcome_of(rt, &origin, ended)
    }

    /// Standard error has the report too.
    fn report(&mut self, _alloc: Global, name: Option<&str>, why: &str) -> Result<(), Fault> {
        self.out.give_up_line()?;
        match self.form {
            Form::Json => write_unread(&mut self.out, name, why),
            Form::Text | Form::Silent => Ok(()),
        }
    }
}

impl<W: Write> Check<W> {
    /// Reports what is found in the mails of a mailbox.
    fn check_mailbox<R: Eprint + AllocGlobal>(
        &mut self,
        rt: &R,
        input: &[u8],
        name: Option<&str>,
        format: Format,
    ) -> Result<Outcome, Fault> {
        let mails = read_mailbox(input, format);
        let front = mails.front();
        let mut outcome = self.check_front(rt.alloc(), front, name)?;
        let mut start = front.len();
        let mut number: usize = 0;
        for entry in mails {
            number = number.saturating_add(1);
            start = start.saturating_add(entry.separator().len());
            let end = start.saturating_add(entry.mail().len());
            let origin = Origin {
                file: name,
                number: Some(number),
                start,
                end,
            };
            outcome = outcome.and(self.check_entry(rt, &entry, origin, format)?);
            start = end.saturating_add(entry.ending().len());
        }
        Ok(outcome)
    }

    /// Returns the outcome of a mail. If memory ran out for it, that is reported, so that the next
    /// mail can be checked; any other fault is returned.
    fn outcome_of<R: Eprint + AllocGlobal>(
        &mut self,
        rt: &R,
        origin: &Origin<'_>,
        ended: Result<Outcome, Fault>,
    ) -> Result<Outcome, Fault> {
        let fault = match ended {
            Ok(outcome) => return Ok(outcome),
            Err(fault) => fault,
        };
        let why = why_ended(rt.alloc(), fault, 0)?;
        say_unchecked(rt, origin, why.as_str())?;
        self.out.give_up_line()?;
        if self.form == Form::Json {
            write_error(&mut self.out, origin, why.as_str())?;
        }
        Ok(Outcome::Failed)
    }

    /// Reports text before the first mail of a mailbox, unless it is whitespace.
    fn check_front(
        &mut self,
        alloc: Global,
        front: &[u8],
        name: Option<&str>,
    ) -> Result<Outcome, Fault> {
        if is_all_whitespace(front) {
            return Ok(Outcome::Clean);
        }
        let origin = Origin {
            file: name,
            number: None,
            start: 0,
            end: front.len(),
        };
        self.refuse(
            alloc,
            &origin,
            "The mailbox does not begin with a separator",
        )?;
        Ok(Outcome::Refused)
    }

    /// Reports what is found in a mail of a mailbox in a format, or that memory ran out for it.
    fn check_entry<R: Eprint + AllocGlobal>(
        &mut self,
        rt: &R,
        entry: &MailboxEntry<'_>,
        origin: Origin<'_>,
        format: Format,
    ) -> Result<Outcome, Fault> {
        let ended = self.check_unquoted(rt.alloc(), entry, origin, format);
        self.outcome_of(rt, &origin, ended)
    }

    /// Reports what is found in a mail of a mailbox without the quotes of the format.
    fn check_unquoted(
        &mut self,
        alloc: Global,
        entry: &MailboxEntry<'_>,
        origin: Origin<'_>,
        format: Format,
    ) -> Result<Outcome, Fault> {
        match format {
            Format::Plain | Format::Counted => {
                let raw = entry.mail();
                self.check_mail(alloc, &Mail { raw, origin })
            }
            Format::Quoted => {
                let mail = unquoted(alloc, entry.mail())?;
                let raw = mail.as_slice();
                self.check_mail(alloc, &Mail { raw, origin })
            }
        }
    }

    /// Reports what is found in a mail, or why it is refused.
    fn check_mail(&mut self, alloc: Global, mail: &Mail<'_>) -> Result<Outcome, Fault> {
        match read_findings(alloc, mail.raw, self.limit, &AllCharsets::standard()) {
            Ok(all) => {
                let found = chosen(alloc, all, self.classes)?;
                self.write_found(alloc, mail, found.as_slice())?;
                Ok(if found.is_empty() {
                    Outcome::Clean
                } else {
                    Outcome::Refused
                })
            }
            Err(error) => {
                let Some(reason) = refusal_of(alloc, &error)? else {
                    return Err(Fault::Mail(error));
                };
                self.refuse(alloc, &mail.origin, reason.as_str())?;
                Ok(Outcome::Refused)
            }
        }
    }

    /// Writes what was found in a mail.
    fn write_found(
        &mut self,
        alloc: Global,
        mail: &Mail<'_>,
        found: &[Finding],
    ) -> Result<(), Fault> {
        match self.form {
            Form::Json => write_findings(alloc, &mut self.out, &mail.origin, found),
            Form::Text if !found.is_empty() => {
                self.write_titles(alloc, &mail.origin)?;
                write_report(alloc, &mut self.out, mail.raw, found)
            }
            Form::Text | Form::Silent => Ok(()),
        }
    }

    /// Writes why a mail is refused.
    fn refuse(&mut self, alloc: Global, origin: &Origin<'_>, why: &str) -> Result<(), Fault> {
        match self.form {
            Form::Json => write_error(&mut self.out, origin, why),
            Form::Text => {
                self.write_titles(alloc, origin)?;
                write_refusal(alloc, &mut self.out, why)?;
                self.out.write_all(b"\n")?;
                Ok(())
            }
            Form::Silent => Ok(()),
        }
    }

    /// Writes the name of the input of a mail, if it has one that is written, and the number of the
    /// mail in its mailbox.
    fn write_titles(&mut self, alloc: Global, origin: &Origin<'_>) -> Result<(), Fault> {
        if let (Titles::Written, Some(name)) = (self.titles, origin.file) {
            write_title(alloc, &mut self.out, name)?;
        }
        if let Some(number) = origin.number {
            let text = format!(in alloc; "mail {number}")?;
            write_title(alloc, &mut self.out, text.as_str())?;
        }
        Ok(())
    }
}

/// Says on standard error why a mail is not checked.
fn say_unchecked<R: Eprint + AllocGlobal>(
    rt: &R,
    origin: &Origin<'_>,
    why: &str,
) -> Result<(), AllocError> {
    let Some(number) = origin.number else {
        return say_unread(rt, origin.file, why);
    };
    let why = format!(in rt.alloc(); "mail {number}: {why}")?;
    say_unread(rt, origin.file, why.as_str())
}

/// Returns the findings of these classes.
fn chosen(
    alloc: Global,
    found: Vec<Finding>,
    classes: Classes,
) -> Result<Vec<Finding>, AllocError> {
    let mut kept = Vec::new(alloc);
    for finding in found {
        if classes.contains(finding.class) {
            kept.push(finding)?;
        }
    }
    Ok(kept)
}

/// Reports what is found in the mails of these inputs, and returns the exit status.
///
/// # Errors
///
/// A fault that ends the run.
pub fn run<'a, R: Files + Input + Print + Eprint + AllocGlobal>(
    rt: &R,
    matches: &ArgMatches<'a>,
    names: &[Name<'a>],
) -> Result<ExitCode, Fault> {
    let mut check = Check {
        out: WholeLines::new(rt.alloc(), BufWriter::new(rt.alloc(), io::writer(rt))?),
        kind: kind_of(matches),
        limit: limit_of(matches),
        form: form_of(matches),
        titles: titles_of(rt, names),
        classes: classes_of(matches),
    };
    let outcome = read_inputs(rt, &mut check, inputs_of(matches, names))?;
    check.out.flush()?;
    Ok(outcome.status())
}

/// Returns what the options say is written of a mail.
fn form_of(matches: &ArgMatches<'_>) -> Form {
    if matches.get_flag(ids::QUIET) {
        Form::Silent
    } else if matches.get_flag(ids::JSON) {
        Form::Json
    } else {
        Form::Text
    }
}

/// Returns the classes that the options name; all if they name none.
fn classes_of(matches: &ArgMatches<'_>) -> Classes {
    let names = matches.get_strs(ids::CLASS).unwrap_or(&[]);
    Classes {
        structure: is_named(names, Class::Structure),
        bytes: is_named(names, Class::Bytes),
        name: is_named(names, Class::Name),
        text: is_named(names, Class::Text),
        note: is_named(names, Class::Note),
    }
}

/// Returns whether a class is among these names, or there is none.
fn is_named(names: &[&str], class: Class) -> bool {
    names.is_empty() || names.iter().any(|name| *name == class.text())
}
