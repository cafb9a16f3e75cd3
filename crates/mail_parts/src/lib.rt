//! The parts of a mail with their contents, and how a mail and those inside it are read, as programs
//! list them.
//!
//! The examples run in a function with the runtime `rt` and its allocator `alloc`.
#![tactic(auto)]

mod decoded;
mod decoded_size;
pub mod laws;
mod part;
mod reading;

pub use decoded::{Decoded, decoded_parts, mail_in};
pub use decoded_size::read_bounded;
pub use part::{is_attachment, is_read};
pub use reading::{has_many_blocks, read_mail};
