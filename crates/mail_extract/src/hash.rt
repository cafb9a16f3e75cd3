//! The hashes of files.
ghost use Rattle.std.specs.Prelude.{◌≡◌, IfOk};
ghost use Rattle.mailparse.specs.Map.{text_found};
ghost use Rattle.mail_extract.specs.Hash.{wanted_hash};

use mail_program::sha256_text;
use std::alloc::{AllocError, Global};

/// Whether saved files are hashed.
#[derive(Clone, Copy, Debug, PartialEq, Eq)]
pub enum Hashing {
    /// They are not.
    Off,
    /// With SHA-256.
    On,
}

/// Returns the SHA-256 of bytes in hexadecimal, or `None` if files are not hashed.
pub fn wanted_hash(
    alloc: Global,
    bytes: &[u8],
    hashing: Hashing,
) -> Result<Option<String>, AllocError>
    ensures { IfOk result (λ text. text_found text ≡ wanted_hash hashing bytes.now) }
{
    match hashing {
        Hashing::Off => Ok(None),
        Hashing::On => Ok(Some(sha256_text(alloc, bytes)?)),
    }
}
