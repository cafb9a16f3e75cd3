//! The only file of an input that a choice keeps, written as it is.
ghost use Rattle.std.specs.Prelude.{Some, option_map};
ghost use Rattle.mail_extract.specs.ChoiceViews.{choice_view, options_view};
ghost use Rattle.mail_extract.specs.Input.{IsInput};
ghost use Rattle.mail_extract.specs.Only.{WritesOnly, fails_if_full, input_files, only_options};
ghost use Rattle.mail_extract.specs.OnlyViews.{files_held};

use crate::directory::{Created, Directory};
use crate::hash::Hashing;
use crate::input::extract_input;
use crate::notes::Notes;
use crate::options::{Naming, SaveOptions, Source, Target};
use mail_program::{Fault, Outcome};
use mailparse::KnownCharsets;
use std::alloc::{AllocError, Global};
use std::io::{self, Read, Write};

/// The error of each file after the first.
const FULL: &str = "another file is kept too";

/// What a choice keeps of an input of which one file is to be written.
#[derive(Clone, Copy, Debug, PartialEq, Eq)]
pub enum OnlyFile {
    /// No file, so nothing was written.
    Missing,
    /// Several files, so nothing was written.
    Several,
    /// One file, which was written. The outcome is the worst that the lines report: whether the
    /// file is damaged, or a mail is refused.
    Written(Outcome),
}

/// A file in memory.
#[derive(Debug, Drop)]
struct HeldFile {
    name: String,
    bytes: Vec<u8>,
}

/// A directory in memory that has at most one file. Any further one cannot be created.
#[derive(Drop)]
struct OneFile {
    alloc: Global,
    file: Option<HeldFile>,
}

impl Directory for OneFile {
    ghost held = { λ directory. Some (files_held directory) };

    ghost can_fail = { fails_if_full };

    fn create(&mut self, name: &str, bytes: &[u8]) -> Result<Created, AllocError> {
        if self.file.is_some() {
            return Ok(Created::Failed(io::Error::other(FULL)));
        }
        let name = String::from_str(self.alloc, name)?;
        let bytes = bytes.to_vec(self.alloc)?;
        self.file = Some(HeldFile { name, bytes });
        Ok(Created::Made)
    }

    fn has(&self, name: &str, bytes: &[u8]) -> Result<bool, AllocError> {
        match &self.file {
            Some(file) => Ok(file.name.as_str() == name && file.bytes.as_slice() == bytes),
            None => Ok(false),
        }
    }
}

/// Writes the content of the only file of an input that the choice keeps, and nothing else. If it
/// keeps no file or several, nothing is written to `out`. The lines that `extract_input` writes
/// are written to `lines`; a line of each further file has an `error`. Files have the names of
/// their senders and no hashes, whatever the options say.
///
/// Allocates what `extract_input` does, and the content of the file.
///
/// # Errors
///
/// As `extract_input`.
///
/// # Examples
///
/// ```rust
/// use mail_read::reading::DEFAULT_LIMIT;
/// use mail_extract::{Choice, Hashing, Naming, OnlyFile, SaveOptions, Source, write_only_file};
/// use mail_program::Outcome;
/// use mail_walk::InputKind;
///
/// let mut reader = b"Content-Type: text/csv\n\n1,2\n".as_slice();
/// let (mut out, mut lines) = (Vec::new(alloc), Vec::new(alloc));
/// let options = SaveOptions {
///     limit: DEFAULT_LIMIT,
///     most_bytes: None,
///     hashing: Hashing::Off,
///     naming: Naming::BySender,
///     choice: Choice { path: Some("1"), mimetype: None, name: None },
/// };
/// let source = Source { kind: InputKind::Either, file: None, options, known: &(), notes: &() };
/// let found = write_only_file(alloc, &mut out, &mut lines, &mut reader, source)?;
/// assert!(rt; found == OnlyFile::Written(Outcome::Clean));
/// assert_eq!(rt; out.as_slice(), b"1,2\n".as_slice());
/// ```
pub fn write_only_file<R: Read, W: Write, L: Write, K: KnownCharsets, N: Notes>(
    alloc: Global,
    out: &mut W,
    lines: &mut L,
    reader: &mut R,
    source: Source<'_, K, N>,
) -> Result<OnlyFile, Fault>
    ensures { WritesOnly (W.contents out.old) (W.contents out.new) (L.contents lines.old)
        (L.contents lines.new) (R.remaining reader.old) (R.remaining reader.new) result
        (input_files (K.known source.entry.known.now) source.entry.options.limit
        (choice_view source.entry.options.choice) source.entry.options.most_bytes
        source.entry.kind)
        (IsInput (option_map (λ name. name.now) source.entry.file) fails_if_full
        (only_options (options_view source.entry.options)) (K.known source.entry.known.now)
        source.entry.kind) }
{
    let options = SaveOptions {
        limit: source.options.limit,
        most_bytes: source.options.most_bytes,
        hashing: Hashing::Off,
        naming: Naming::BySender,
        choice: source.options.choice,
    };
    let source = Source {
        kind: source.kind,
        file: source.file,
        options,
        known: source.known,
        notes: source.notes,
    };
    let directory = OneFile { alloc, file: None };
    let mut target = Target {
        directory,
        number: 2,
    };
    let outcome = extract_input(alloc, lines, &mut target, reader, source)?;
    let Some(file) = &target.directory.file else {
        return Ok(OnlyFile::Missing);
    };
    match outcome {
        Outcome::Failed => Ok(OnlyFile::Several),
        Outcome::Clean | Outcome::Refused => {
            out.write_all(file.bytes.as_slice())?;
            Ok(OnlyFile::Written(outcome))
        }
    }
}
