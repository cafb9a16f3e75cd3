//! Lines that are written once they are whole.

use mail_program::Fault;
use std::alloc::Global;
use std::io::{self, Write};

/// The greatest number of bytes of a line that are kept until it is whole.
const MOST_KEPT: usize = 4 * 1024 * 1024;

/// A writer of lines, which end in LF. A line is kept until it is whole, so that it can be given up
/// if memory runs out for the rest of it. If it is longer than `MOST_KEPT`, or there is no memory
/// to keep it, it is written piece by piece.
#[derive(Debug, Drop)]
pub struct WholeLines<W> {
    out: W,
    /// The bytes of the next line, if none of it is written.
    kept: Vec<u8>,
    next: Next,
    /// The number of whole lines.
    count: usize,
}

/// What is written of the next line.
#[derive(Clone, Copy, Debug, PartialEq, Eq)]
enum Next {
    /// None of it.
    Kept,
    /// The part of it that there is.
    Written,
}

impl<W: Write> WholeLines<W> {
    /// Returns a writer of lines to a writer.
    pub fn new(alloc: Global, out: W) -> WholeLines<W> {
        WholeLines {
            out,
            kept: Vec::new(alloc),
            next: Next::Kept,
            count: 0,
        }
    }

    /// Returns the number of whole lines so far.
    pub fn count(&self) -> usize {
        self.count
    }

    /// Takes back the next line. If a part of it is written, it ends there and does not count.
    ///
    /// # Errors
    ///
    /// If the write fails.
    pub fn give_up_line(&mut self) -> io::Result<()> {
        self.kept.clear();
        if self.next == Next::Written {
            self.next = Next::Kept;
            self.out.write_all(b"\n")?;
        }
        Ok(())
    }

    /// Keeps more of the next line. Returns `false` and keeps no more if the line is too long or
    /// memory runs out.
    fn keep(&mut self, text: &[u8]) -> bool {
        text.len() <= MOST_KEPT.saturating_sub(self.kept.len())
            && self.kept.extend_from_slice(text).is_ok()
    }

    /// Writes what is kept of the next line.
    fn write_kept(&mut self) -> io::Result<()> {
        self.out.write_all(self.kept.as_slice())?;
        self.kept.clear();
        Ok(())
    }
}

impl<W: Write> Write for WholeLines<W> {
    ghost use Rattle.std.specs.Prelude.{None};

    ghost contents = { λ lines. None };

    fn write(&mut self, buf: &[u8]) -> io::Result<usize> {
        self.write_all(buf)?;
        Ok(buf.len())
    }

    /// A part of a line is written too, and is then not taken back.
    fn flush(&mut self) -> io::Result<()> {
        if !self.kept.is_empty() {
            self.write_kept()?;
            self.next = Next::Written;
        }
        self.out.flush()
    }

    fn write_all(&mut self, buf: &[u8]) -> io::Result<()> {
        if self.next == Next::Written || !self.keep(buf) {
            self.write_kept()?;
            self.next = Next::Written;
            self.out.write_all(buf)?;
        }
        if buf.ends_with(b"\n") {
            self.write_kept()?;
            self.next = Next::Kept;
            self.count = self.count.saturating_add(1);
        }
        Ok(())
    }
}

/// Returns why an input is not read further, given the fault that ended it and the number of its
/// lines before. Any other fault than that memory ran out is returned as it is.
///
/// # Errors
///
/// That fault, or that memory runs out.
pub fn why_ended(alloc: Global, fault: Fault, count: usize) -> Result<String, Fault> {
    let error = match fault {
        Fault::Mail(error) => error,
        fault => return Err(fault),
    };
    let text = match count {
        0 => format!(in alloc; "{error}")?,
        1 => format!(in alloc; "after 1 line: {error}")?,
        _ => format!(in alloc; "after {count} lines: {error}")?,
    };
    Ok(text)
}
