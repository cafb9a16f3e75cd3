//! How far a long mailbox is read.

use crate::PROGRAM;
use crate::escape::shown;

/// The number of bytes after which the progress is reported.
const STEP: usize = 64 * 1024 * 1024;

/// Whether progress is reported.
#[derive(Clone, Copy, Debug, PartialEq, Eq)]
pub enum Progress {
    /// It is not.
    Silent,
    /// It is reported on standard error.
    Reported,
}

/// Reports on standard error how far an input is read, if that is wanted.
#[derive(Debug, Drop)]
pub struct Meter<'r, R> {
    rt: &'r R,
    name: Option<&'r str>,
    progress: Progress,
    due: usize,
}

impl<'r, R: Eprint + AllocGlobal> Meter<'r, R> {
    /// Returns the meter of an input that is read from this offset onwards.
    ///
    /// Does not allocate.
    ///
    /// # Examples
    ///
    /// ```rust
    /// use mail_inputs::{Meter, Progress};
    ///
    /// let mut meter = Meter::new(&rt, Some("a.mbox"), Progress::Silent, 0);
    /// meter.note(1000, Some(2));
    /// ```
    pub fn new(rt: &'r R, name: Option<&'r str>, progress: Progress, start: usize) -> Meter<'r, R> {
        Meter {
            rt,
            name,
            progress,
            due: start.saturating_add(STEP),
        }
    }

    /// Takes note that the input is read up to this offset, and that these are its mails up to
    /// there, if that is known.
    ///
    /// Allocates if it reports the progress. If memory runs out, it does not report.
    ///
    /// # Examples
    ///
    /// ```rust
    /// use mail_inputs::{Meter, Progress};
    ///
    /// Meter::new(&rt, None, Progress::Reported, 0).note(1000, None);
    /// ```
    pub fn note(&mut self, offset: usize, mails: Option<usize>) {
        if self.progress == Progress::Silent || offset < self.due {
            return;
        }
        self.due = offset.saturating_add(STEP);
        if let Ok(name) = shown(self.rt.alloc(), self.name.unwrap_or("standard input")) {
            let _ = match mails {
                Some(mails) => eprintln!(self.rt;
                    "{PROGRAM}: {name}: {offset} bytes, {mails} mails"
                ),
                None => eprintln!(self.rt; "{PROGRAM}: {name}: {offset} bytes"),
            };
        }
    }
}
