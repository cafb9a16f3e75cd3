//! Findings: the places of a mail at which programs may read something else.
//!
//! `findings` lists them for a mail and its parts. Each has a name, which says what it is, a class,
//! a range of the mail and the path of a part. A mail is read as `mailparse` reads it, which
//! `read_findings` does for the bytes of a mail; what other programs read was measured and is on the
//! page FINDINGS.md.
//!
//! The examples run in a function with the runtime `rt` and its allocator `alloc`.
#![tactic(auto)]

pub mod automata;
mod bodies;
mod charsets;
mod disputed;
mod file_names;
mod hidden_bits;
mod inside;
pub mod laws;
mod letters;
mod line_tests;
mod lines;
mod listing;
mod multipart;
mod names;
mod parameter_names;
mod parameters;
mod reading;
mod scan;
mod senders;
mod texts;
mod word_bytes;
mod words;

pub use listing::{Finding, findings};
pub use names::{Class, Name};
pub use reading::read_findings;
