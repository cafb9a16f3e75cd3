//! How files are saved, and where.
ghost use Rattle.std.specs.Prelude.{◌≡◌, IfOk, string_bytes};
ghost use Rattle.mail_read.specs.FileNames.{IsSafeName};
ghost use Rattle.mail_extract.specs.Naming.{target};

use crate::choice::Choice;
use crate::hash::Hashing;
use mail_program::sha256_text;
use mail_read::files::{safe_file_name, windows_file_name};
use mail_walk::InputKind;
use std::alloc::{AllocError, Global};

/// What names a saved file.
#[derive(Clone, Copy, Debug, PartialEq, Eq)]
pub enum Naming {
    /// Its sender.
    BySender,
    /// Its sender, with a name that Windows takes.
    ForWindows,
    /// The SHA-256 of its bytes: files with the same bytes are saved once.
    ByHash,
}

/// How files are saved, and which.
#[derive(Clone, Copy, Debug)]
pub struct SaveOptions<'c> {
    /// The greatest number of messages, parts and headers in a mail that is not refused, and of
    /// uuencoded blocks in a text of it. Each mail inside a mail has this limit for itself.
    pub limit: usize,
    /// The greatest number of bytes that are decoded for the mails inside a mail that is not refused
    /// for it, or `None` for eight times its size and 64 MiB, as `mail_parts::read_bounded` has
    /// them.
    pub most_bytes: Option<usize>,
    /// Whether saved files are hashed.
    pub hashing: Hashing,
    /// What names them.
    pub naming: Naming,
    /// Which files are saved.
    pub choice: Choice<'c>,
}

/// A directory in which files are saved, and the next number for a taken name.
#[derive(Debug, Drop)]
pub struct Target<D> {
    /// The directory.
    pub directory: D,
    /// The number that is tried next if a name is taken.
    pub number: u64,
}

/// What is known of an input, and how its files are saved.
#[derive_where(Clone, Copy, Debug)]
pub struct Source<'s, K, N> {
    /// What the input is.
    pub kind: InputKind,
    /// The name of the file, or `None` for standard input.
    pub file: Option<&'s str>,
    /// How its files are saved, and which.
    pub options: SaveOptions<'s>,
    /// The charsets in which file names are decoded.
    #[derive_where(skip(Debug))]
    pub known: &'s K,
    /// Who is told what was not saved.
    #[derive_where(skip(Debug))]
    pub notes: &'s N,
}

/// Returns the name under which bytes are saved if it is free, given the sender's.
#[tactic(auto, unfolding(crate::specs::Naming::target))]
pub(crate) fn target_name(
    alloc: Global,
    name: String,
    bytes: &[u8],
    naming: Naming,
) -> Result<String, AllocError>
    requires { IsSafeName (string_bytes name) }
    ensures read { IfOk result (λ text.
        string_bytes text ≡ target naming (string_bytes name) bytes.now) }
    ensures safe { IfOk result (λ text. IsSafeName (string_bytes text)) }
{
    match naming {
        Naming::BySender => Ok(name),
        Naming::ForWindows => {
            let taken = windows_file_name(alloc, name.as_str())?;
            Ok(taken)
        }
        Naming::ByHash => {
            let hash = sha256_text(alloc, bytes)?;
            let safe = safe_file_name(alloc, hash.as_str())?;
            Ok(safe)
        }
    }
}
