//! Mails as text for people: the headers that matter, the texts to be read, and the list of the
//! parts, over any writer.
//!
//! No mail moves the cursor of a terminal or forges a line: `laws` says why. `view_of` returns the
//! text of a mail, `write_view` writes it, and `write_single` and `write_mailbox` show an input.
//! `write_report` writes what was found in a mail.
//!
//! The rules of this layer are its own. The examples run in a function that has the runtime `rt`
//! and its allocator `alloc`.
#![tactic(auto)]

mod addresses;
mod headers;
mod input;
pub mod laws;
mod line;
mod names;
mod parts;
mod report;
mod row;
mod text;
mod view;
mod visible;

pub use input::{write_mailbox, write_refusal, write_single, write_title};
pub use line::Prefix;
pub use report::write_report;
pub use view::{view_of, write_view};
