//! What was not saved, on standard error.

use mail_extract::{FileLine, Notes};
use mail_inputs::{PROGRAM, shown};
use std::alloc::{AllocError, Global};

/// Says on standard error what was not saved, a line for each.
#[derive(Drop)]
pub struct StandardError<'r, R>(pub &'r R);

impl<'r, R: Eprint + AllocGlobal> Notes for StandardError<'r, R> {
    fn unsaved(&self, line: &FileLine<'_>) -> Result<(), AllocError> {
        let text = text_of(self.0.alloc(), line)?;
        let _ = eprintln!(self.0; "{PROGRAM}: {text}");
        Ok(())
    }
}

/// Returns what was not saved, and why: `a.mbox: mail 3: part 2: no space is left`.
fn text_of(alloc: Global, line: &FileLine<'_>) -> Result<String, AllocError> {
    let mut text = shown(alloc, line.file.unwrap_or("standard input"))?;
    if let Some(number) = line.number {
        let mail = format!(in alloc; ": mail {number}")?;
        text.push_str(mail.as_str())?;
    }
    if let Some(path) = line.path {
        let part = format!(in alloc; ": part {path}")?;
        text.push_str(part.as_str())?;
    }
    let why = shown(alloc, line.error.unwrap_or(""))?;
    text.push_str(": ")?;
    text.push_str(why.as_str())?;
    Ok(text)
}
