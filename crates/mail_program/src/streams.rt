//! Reading to the end, and writing, over any reader and writer.
ghost use Rattle.std.specs.Io.KnownBytes.{Appends};
ghost use Rattle.std.specs.Prelude.{◌<◌, ◌≡◌, IfErr, IfOk, OnOk, false, vec_len};
ghost use Rattle.mail_program.specs.Fault.{IsOutput};
ghost use Rattle.mail_program.specs.Streams.{IsRead, ReadsOn};

use crate::fault::Fault;
use std::alloc::{AllocError, Global};
use std::io::{self, ErrorKind, Read, Write};

/// The largest number of bytes that one read returns.
const READ_SIZE: usize = 64 * 1024;

/// Returns all that the reader has left. An interrupted read is tried again.
///
/// Allocates the bytes.
///
/// # Errors
///
/// `Fault::Input` if a read fails, and `Fault::Mail` with `MailParseError::Memory` if it runs out
/// of memory.
///
/// # Examples
///
/// ```rust
/// use mail_program::read_input;
///
/// let mut reader = b"Subject: Hi\n\nHello\n".as_slice();
/// let input = read_input(alloc, &mut reader)?;
/// assert_eq!(rt; input.as_slice(), b"Subject: Hi\n\nHello\n".as_slice());
/// assert!(rt; reader.is_empty());
/// ```
pub fn read_input<R: Read>(alloc: Global, reader: &mut R) -> Result<Vec<u8>, Fault>
    ensures { IsRead (R.remaining reader.old) (R.remaining reader.new) result }
{
    let mut input = Vec::new(alloc);
    read_more(alloc, &mut input, reader, usize::MAX)?;
    Ok(input)
}

/// Appends what it reads to `input`, until that has more than `most` bytes or the reader is at its
/// end. Returns whether the reader is at its end. An interrupted read is tried again.
///
/// Allocates the bytes.
///
/// # Errors
///
/// `Fault::Input` if a read fails, and `Fault::Mail` with `MailParseError::Memory` if it runs out
/// of memory.
///
/// # Examples
///
/// ```rust
/// use mail_program::read_more;
///
/// let mut reader = b"Subject: Hi\n".as_slice();
/// let mut input = Vec::new(alloc);
/// assert!(rt; !read_more(alloc, &mut input, &mut reader, 0)?);
/// assert_eq!(rt; input.as_slice(), b"Subject: Hi\n".as_slice());
/// assert!(rt; read_more(alloc, &mut input, &mut reader, 100)?);
/// ```
pub fn read_more<R: Read>(
    alloc: Global,
    input: &mut Vec<u8>,
    reader: &mut R,
    most: usize,
) -> Result<bool, Fault>
    ensures read { ReadsOn (R.remaining reader.old) (R.remaining reader.new)
        input.old.items input.new.items result }
    ensures enough { IfOk result (λ has_ended. has_ended ≡ false → most < vec_len input.new) }
{
    let mut buffer = read_buffer(alloc)?;
    for _turn in 0..u64::MAX {
        match reader.read(buffer.as_mut_slice()) {
            Ok(0) => return Ok(true),
            Ok(count) => input.extend_from_slice(&buffer[..count])?,
            Err(e) => {
                if e.kind() != ErrorKind::Interrupted {
                    return Err(Fault::Input(e));
                }
            }
        }
        if input.len() > most {
            return Ok(false);
        }
    }
    Err(Fault::Input(io::Error::from(ErrorKind::Interrupted)))
}

/// Returns a buffer for reads, on the heap.
fn read_buffer(alloc: Global) -> Result<Vec<u8>, AllocError>
    ensures { IfOk result (λ buffer. 0 < vec_len buffer) }
{
    vec![in alloc; 0u8; READ_SIZE]
}

/// Writes the bytes and flushes. An interrupted write is tried again; a failed flush is not.
///
/// # Errors
///
/// `Fault::Output` if a write or the flush fails.
///
/// # Examples
///
/// ```rust
/// use mail_program::{Fault, write_output};
/// use std::io::BufWriter;
///
/// let mut written = Vec::new(alloc);
/// write_output(&mut written, b"part 0")?;
/// write_output(&mut written, b": text/plain")?;
/// assert_eq!(rt; written.as_slice(), b"part 0: text/plain".as_slice());
///
/// // the flush fails, since the buffered bytes do not fit
/// let mut bytes = [0u8; 4];
/// let mut writer = BufWriter::new(alloc, bytes.as_mut_slice())?;
/// assert!(rt; matches!(write_output(&mut writer, b"part 0"), Err(Fault::Output(_))));
/// ```
pub fn write_output<W: Write>(writer: &mut W, bytes: &[u8]) -> Result<(), Fault>
    ensures written { OnOk result
        (Appends (W.contents writer.old) (W.contents writer.new) bytes.now) }
    ensures output_failed { IfErr result IsOutput }
{
    match writer.write_all(bytes) {
        Ok(()) => {}
        Err(e) => return Err(Fault::Output(e)),
    }
    match writer.flush() {
        Ok(()) => Ok(()),
        Err(e) => Err(Fault::Output(e)),
    }
}
