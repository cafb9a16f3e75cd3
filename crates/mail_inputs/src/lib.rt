//! The inputs of the subcommands: standard input, files, directories and Maildirs.
#![tactic(auto)]

mod entries;
mod escape;
mod foreign;
mod meter;
mod names;
mod open;
mod walk;

pub use entries::is_directory;
pub use escape::shown;
pub use foreign::{Foreign, foreign_of};
pub use meter::{Meter, Progress};
pub use names::{Name, argument_text, arguments};
pub use open::open_regular;
pub use walk::{
    Consumer, Content, Inputs, NOT_UTF8, Subdirectories, fail, read_inputs, say_unread,
};

/// The name of the program, before its messages.
pub const PROGRAM: &str = "rocktray";
