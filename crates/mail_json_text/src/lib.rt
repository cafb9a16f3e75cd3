//! JSON text over any writer: texts, numbers, and the members of objects, whose keys are
//! `first_key!("name")`, and `key!("name")` after others.
//!
//! The examples run in a function with the runtime `rt` and its allocator `alloc`.
#![tactic(auto)]

mod escapes;
mod json_text;
pub mod laws;
mod line_buffer;
mod members;

pub use json_text::{Position, write_comma, write_pair, write_text, write_word};
pub use line_buffer::{LineBuffer, memory_fault};
pub use members::{
    add_flag, add_null, add_number, add_number_or_null, add_optional, add_seconds, add_text,
    add_texts,
};
