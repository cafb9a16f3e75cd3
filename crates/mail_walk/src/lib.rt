//! The walk over an input: what it is, and how much of it is read before its mails are.
//!
//! The examples run in a function with the runtime `rt` and its allocator `alloc`.
#![tactic(auto)]

mod kind;
mod wanted;

pub use kind::{InputKind, is_mailbox};
pub use wanted::{Wanted, first_wanted, read_until};
