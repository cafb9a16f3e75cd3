//! What the programs share: arguments, reading and writing, faults, refusals and exit statuses.
#![tactic(auto)]

mod command;
mod fault;
mod hash;
mod outcome;
mod refusal;
mod streams;

pub use command::{Argument, Expected, arguments};
pub use fault::Fault;
pub use hash::sha256_text;
pub use outcome::{Outcome, status_of};
pub use refusal::{is_all_whitespace, refusal_of};
pub use streams::{read_input, read_more, write_output};
