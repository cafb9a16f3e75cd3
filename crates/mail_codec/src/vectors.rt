//! Vectors of 16 bytes, and of 64 for pairs, long searches, lines of letters and blocks of
//! quoted-printable. All bytes of a vector are tested or mapped at once.
//!
//! Each operation is a small inlined function with a contract of its own.

pub(crate) mod escapes;
pub(crate) mod letters;
pub(crate) mod masks;

/// The number of bytes in a vector.
pub(crate) const LANES: usize = 16;
