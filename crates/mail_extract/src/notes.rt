//! Who is told what was not saved.

use crate::file_line::FileLine;
use std::alloc::AllocError;

/// Takes note of what was not saved, beside the lines.
pub trait Notes {
    /// Takes note of the line of a file that was not saved, or of a mail that is refused.
    ///
    /// # Errors
    ///
    /// If it runs out of memory.
    ///
    /// # Examples
    ///
    /// ```rust
    /// use mail_extract::{FileLine, Notes};
    ///
    /// let line = FileLine {
    ///     file: Some("a.eml"),
    ///     number: None,
    ///     path: Some("2"),
    ///     saved: None,
    ///     size: Some(3),
    ///     sha256: None,
    ///     error: Some("no space is left"),
    /// };
    /// ().unsaved(&line)?;
    /// ```
    fn unsaved(&self, line: &FileLine<'_>) -> Result<(), AllocError>;
}

/// Takes note of nothing.
impl Notes for () {
    fn unsaved(&self, _line: &FileLine<'_>) -> Result<(), AllocError> {
        Ok(())
    }
}
