//! A replay of the rows of a file.

use crate::calls;
use crate::notation::{Answer, Row};
use mailparse::MailParseError;
use std::alloc::{AllocError, Global};

/// The results of a replay.
#[derive(Drop)]
pub struct Tally {
    /// How many rows returned the expected result.
    pub passed: u64,
    /// How many did not.
    pub failed: u64,
    /// How often memory ran out in a row.
    pub refused: u64,
    /// The rows that failed, with what was returned.
    pub differences: String,
    /// The group of the current row, and how many of its rows were read so far.
    group: String,
    number: u64,
}

impl Tally {
    pub fn new(alloc: Global) -> Tally {
        Tally {
            passed: 0,
            failed: 0,
            refused: 0,
            differences: String::new(alloc),
            group: String::new(alloc),
            number: 0,
        }
    }

    /// Replays the rows of a file. A row begins at a line that does not begin with a space, and
    /// continues with the lines that do. A row that runs out of memory is tried again, at most
    /// `times` times.
    pub fn replay(&mut self, alloc: Global, suite: &str, times: u32) -> Result<(), AllocError> {
        let mut row = String::new(alloc);
        for line in suite.lines() {
            if line.starts_with(' ') {
                row.push_str(line)?;
            } else {
                self.try_row(alloc, row.as_str(), times)?;
                row.clear();
                if let Some(title) = line.strip_prefix("== ") {
                    self.group = String::from_str(alloc, title)?;
                    self.number = 0;
                } else if !line.starts_with('#') && !line.starts_with("source: ") {
                    row.push_str(line)?;
                }
            }
        }
        self.try_row(alloc, row.as_str(), times)
    }

    /// Tries a row, if there is one, and counts it.
    fn try_row(&mut self, alloc: Global, text: &str, times: u32) -> Result<(), AllocError> {
        if text.is_empty() {
            return Ok(());
        }
        self.number = self.number.saturating_add(1);
        match Row::read(alloc, text) {
            Ok(row) => self.make_call(&row, times),
            Err(MailParseError::Memory(e)) => Err(e),
            Err(fault) => {
                let what = format!(in alloc; "{fault}: {text}")?;
                self.fail("", what.as_str())
            }
        }
    }

    /// Makes the call of a row, and again at most `times` times if memory runs out. A call that
    /// must not allocate is made once.
    fn make_call(&mut self, row: &Row, times: u32) -> Result<(), AllocError> {
        for _turn in 0..times {
            if self.has_returned(row)? {
                return Ok(());
            }
            if row.is_free {
                return self.fail(row.name.as_str(), "takes memory");
            }
        }
        self.judge(row, returned(row)?)
    }

    /// Makes the call of a row, and counts the row unless memory ran out.
    fn has_returned(&mut self, row: &Row) -> Result<bool, AllocError> {
        match returned(row) {
            Err(AllocError) => {
                self.refused = self.refused.saturating_add(1);
                Ok(false)
            }
            Ok(found) => {
                self.judge(row, found)?;
                Ok(true)
            }
        }
    }

    /// Counts a row whose call returned this result.
    fn judge(&mut self, row: &Row, found: Option<Answer>) -> Result<(), AllocError> {
        let Some(found) = found else {
            return self.fail(row.name.as_str(), "not a row of the suite");
        };
        if found.as_bytes() == row.wanted.as_bytes() {
            self.passed = self.passed.saturating_add(1);
            return Ok(());
        }
        let (wanted, found) = (
            row.wanted.as_bytes().escape_ascii(),
            found.as_bytes().escape_ascii(),
        );
        let what = format!(in row.alloc; "wants {wanted}\n    finds {found}")?;
        self.fail(row.name.as_str(), what.as_str())
    }

    /// Counts a row that failed, and records how.
    fn fail(&mut self, name: &str, what: &str) -> Result<(), AllocError> {
        self.failed = self.failed.saturating_add(1);
        let (group, number) = (self.group.as_str(), self.number);
        write!(
            self.differences,
            "{group}, row {number} {name}\n    {what}\n"
        )
    }
}

/// Returns the result of a row's call, or `None` if there is no such call with such inputs.
fn returned(row: &Row) -> Result<Option<Answer>, AllocError> {
    let mut answer = Answer::new(row)?;
    calls::make(&mut answer, row);
    answer.outcome()?;
    Ok(row.fits().then_some(answer))
}
