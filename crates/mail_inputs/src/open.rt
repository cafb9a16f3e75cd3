//! Opening inputs.

use crate::foreign::foreign_of;
use mail_program::{Fault, read_more};
use std::alloc::Global;
use std::fs;
use std::io::{self, Read, Seek, SeekFrom};
use std::rt::Files;

/// The number of bytes less one that show every format that is not mail.
const FIRST_BYTES: usize = 7;

/// Opens a file, and returns it at its start.
///
/// Allocates a buffer for its first bytes.
///
/// # Errors
///
/// `Fault::Input` if the file cannot be opened and read, or its first bytes are those of a format
/// that is not mail; and `Fault::Mail` with `MailParseError::Memory` if it runs out of memory.
///
/// # Examples
///
/// ```rust
/// use mail_inputs::open_regular;
/// use mail_program::Fault;
///
/// assert!(rt; matches!(open_regular(&rt, "no/such/file"), Err(Fault::Input(_))));
/// ```
pub fn open_regular<R: Files + AllocGlobal>(rt: &R, path: &str) -> Result<R::File, Fault> {
    match fs::open(rt, path) {
        Ok(mut file) => {
            read_front(rt.alloc(), &mut file)?;
            match file.seek(SeekFrom::Start(0)) {
                Ok(_) => Ok(file),
                Err(error) => Err(Fault::Input(error)),
            }
        }
        Err(error) => Err(Fault::Input(error)),
    }
}

/// Returns the first bytes of a reader. An input of a format that is not mail is a fault of the
/// input.
pub(crate) fn read_front<I: Read>(alloc: Global, reader: &mut I) -> Result<Vec<u8>, Fault> {
    let mut front = Vec::new(alloc);
    read_more(alloc, &mut front, reader, FIRST_BYTES)?;
    match foreign_of(front.as_slice()) {
        Some(foreign) => Err(Fault::Input(io::Error::other(foreign.why()))),
        None => Ok(front),
    }
}
