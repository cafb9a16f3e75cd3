//! Codecs of mail: byte searches, charsets and transfer encodings.
//!
//! They work on bytes alone and know nothing of headers and messages, which the crate `mailparse`
//! reads. A call that allocates has the argument `alloc` and returns a `Result`; no call panics.
//!
//! The examples assume a function that has the runtime `rt` and its allocator `alloc`.
//!
//! # Examples
//!
//! ```rust
//! use mail_codec::charset::Charset;
//! use mail_codec::transfer::decode_quoted_printable;
//!
//! let bytes = decode_quoted_printable(alloc, b"caf=E9")?;
//! let charset = Charset::for_label(b"latin1").ok_or("an unknown label")?;
//! assert_eq!(rt; charset.decode(alloc, bytes.as_slice())?.as_str(), "café");
//! ```
#![tactic(auto)]

pub mod bytescan;
pub mod calendar;
pub mod charset;
pub mod hidden;
pub mod laws;
pub mod names;
pub mod transfer;
mod vectors;
