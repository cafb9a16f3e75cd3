//! The bytes of a part of a line that is being written.
ghost use Rattle.std.specs.Prelude.{◌≡◌, ◌+◌, ◌-◌, ◌≤◌, ◌++◌, [], length, take, IfOk, OnErr, OnOk};
ghost use Rattle.json.specs.Filled.{Placed};
ghost use Rattle.mail_json_text.specs.LineViews.{line_bytes};
ghost use Rattle.mail_program.specs.Fault.{IsEnd};

use mail_program::Fault;
use std::alloc::{AllocError, Global};
use std::io::{self, Write};
use std::simd::Simd;

/// The size of a buffer before it grows.
const FIRST_SIZE: usize = 2048;

/// The greatest number of bytes that are initialized ahead.
const MOST_AHEAD: usize = 2048;

/// The bytes of a part of a line: the first `len` of `bytes`. The bytes after them are initialized
/// ahead, so that a text is appended after one test.
#[derive(Drop)]
pub struct LineBuffer {
    bytes: Vec<u8>,
    len: usize,
}

impl LineBuffer {
    /// Returns an empty line.
    ///
    /// Allocates the buffer.
    ///
    /// # Errors
    ///
    /// `AllocError` if it runs out of memory.
    ///
    /// # Examples
    ///
    /// ```rust
    /// use mail_json_text::LineBuffer;
    ///
    /// assert!(rt; LineBuffer::new(alloc)?.as_slice().is_empty());
    /// ```
    pub fn new(alloc: Global) -> Result<LineBuffer, AllocError>
        ensures { IfOk result (λ line. line_bytes line ≡ []) }
    {
        Ok(LineBuffer {
            bytes: vec![in alloc; 0u8; FIRST_SIZE]?,
            len: 0,
        })
    }

    /// Returns the bytes of the line.
    ///
    /// Does not allocate.
    ///
    /// # Examples
    ///
    /// ```rust
    /// use mail_json_text::{LineBuffer, write_word};
    ///
    /// let mut line = LineBuffer::new(alloc)?;
    /// write_word(&mut line, "{}")?;
    /// assert_eq!(rt; line.as_slice(), b"{}".as_slice());
    /// ```
    pub fn as_slice(&self) -> &[u8]
        ensures { result.now ≡ line_bytes self.now }
    {
        if self.len <= self.bytes.len() {
            return &self.bytes.as_slice()[..self.len];
        }
        self.bytes.as_slice()
    }

    /// Appends text.
    #[inline(always)]
    fn append(&mut self, text: &[u8]) -> Result<(), AllocError>
        ensures appended { OnOk result (line_bytes self.new ≡ line_bytes self.old ++ text.now) }
        ensures kept { OnErr result (line_bytes self.new ≡ line_bytes self.old) }
    {
        if self.len <= self.bytes.len() && text.len() <= self.bytes.len() - self.len {
            self.len = place(self.bytes.as_mut_slice(), self.len, text);
            return Ok(());
        }
        self.append_and_grow(text)
    }

    /// Appends text for which the buffer is too short.
    #[cold]
    #[inline(never)]
    fn append_and_grow(&mut self, text: &[u8]) -> Result<(), AllocError>
        ensures appended { OnOk result (line_bytes self.new ≡ line_bytes self.old ++ text.now) }
        ensures kept { OnErr result (line_bytes self.new ≡ line_bytes self.old) }
    {
        self.bytes.truncate(self.len);
        self.bytes.extend_from_slice(text)?;
        self.len = self.bytes.len();
        let ahead = self.len.min(MOST_AHEAD);
        let _ = self.bytes.resize(self.len.saturating_add(ahead), 0);
        Ok(())
    }
}

impl Write for LineBuffer {
    ghost use Rattle.std.specs.Prelude.{Some};
    ghost use Rattle.mail_json_text.specs.LineViews.{line_bytes};
    ghost use Rattle.mail_program.specs.Fault.{IsEnd};

    ghost contents = { λ line. Some (line_bytes line) };

    fn write(&mut self, buf: &[u8]) -> io::Result<usize> {
        self.append(buf)?;
        Ok(buf.len())
    }

    fn flush(&mut self) -> io::Result<()> {
        Ok(())
    }

    #[inline(always)]
    fn write_all(&mut self, buf: &[u8]) -> io::Result<()> {
        self.append(buf)?;
        Ok(())
    }
}

/// Returns the fault for a line that could not grow, since memory ran out.
///
/// Does not allocate.
///
/// # Examples
///
/// ```rust
/// use mail_json_text::memory_fault;
/// use mail_program::Fault;
/// use std::io::{self, ErrorKind};
///
/// let full = Fault::Output(io::Error::from(ErrorKind::Interrupted));
/// assert!(rt; matches!(memory_fault(full), Fault::Mail(_)));
/// ```
pub fn memory_fault(fault: Fault) -> Fault
    ensures { IsEnd fault → IsEnd result }
{
    match fault {
        Fault::Output(_) => Fault::from(AllocError),
        fault => fault,
    }
}

/// Writes a text into a buffer from this offset onwards. Returns the offset after it.
///
/// A short text is its first and its last bytes, laid over each other.
#[inline(always)]
fn place(buffer: &mut [u8], at: usize, text: &[u8]) -> usize
    requires { at + length text.now ≤ length buffer.old }
    ensures { Placed buffer.old buffer.new at text.now result }
{
    let len = text.len();
    if len > 32 {
        place_slice(buffer, at, text)
    } else if len >= 16 {
        place_ends::<16>(buffer, at, text)
    } else if len >= 8 {
        place_ends::<8>(buffer, at, text)
    } else if len >= 4 {
        place_ends::<4>(buffer, at, text)
    } else if len >= 2 {
        place_ends::<2>(buffer, at, text)
    } else if len == 1 {
        place_front::<1>(buffer, at, text)
    } else {
        at
    }
}

/// Writes a text of any length.
#[inline(always)]
fn place_slice(buffer: &mut [u8], at: usize, text: &[u8]) -> usize
    requires { at + length text.now ≤ length buffer.old }
    ensures { Placed buffer.old buffer.new at text.now result }
{
    let end = at + text.len();
    buffer[at..end].copy_from_slice(text);
    end
}

/// Writes the first `N` bytes of a text, by one load and one store.
#[inline(always)]
fn place_front<const N: usize>(buffer: &mut [u8], at: usize, text: &[u8]) -> usize
    requires { (N ≤ length text.now) × (at + N ≤ length buffer.old) }
    ensures { Placed buffer.old buffer.new at (take N text.now) result }
{
    Simd::<u8, N>::from_slice(text).copy_to_slice(&mut buffer[at..]);
    at + N
}

/// Writes a text of `N` to twice as many bytes: the first `N` and the last `N`.
#[inline(always)]
fn place_ends<const N: usize>(buffer: &mut [u8], at: usize, text: &[u8]) -> usize
    requires fits { at + length text.now ≤ length buffer.old }
    requires covers { (N ≤ length text.now) × (length text.now ≤ N + N) }
    ensures { Placed buffer.old buffer.new at text.now result }
{
    let last = text.len() - N;
    place_front::<N>(buffer, at, text);
    place_front::<N>(buffer, at + last, &text[last..])
}
