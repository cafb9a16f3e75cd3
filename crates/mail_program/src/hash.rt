//! Hashes of bytes.
ghost use Rattle.std.specs.Prelude.{◌≡◌, IfOk, string_bytes};
ghost use Rattle.mail_program.specs.Hash.{hash_text};

use sha2::{Digest, Sha256};
use std::alloc::{AllocError, Global};

/// Returns the SHA-256 of bytes (FIPS 180-4) as 64 hexadecimal digits, with lower case letters.
///
/// Allocates the text.
///
/// # Errors
///
/// If it runs out of memory.
///
/// # Examples
///
/// ```rust
/// use mail_program::sha256_text;
///
/// let text = sha256_text(alloc, b"one")?;
/// assert!(rt; text.as_str().starts_with("7692c3ad3540bb803c020b3aee66cd88"));
/// ```
pub fn sha256_text(alloc: Global, bytes: &[u8]) -> Result<String, AllocError>
    ensures { IfOk result (λ text. string_bytes text ≡ hash_text bytes.now) }
{
    Ok(hex::encode(alloc, Sha256::digest(bytes))?)
}
