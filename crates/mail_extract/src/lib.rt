//! Saving the files of mails in a directory, over any reader, writer and directory.
#![tactic(auto)]

mod choice;
mod content;
mod directory;
mod disk;
mod endings;
mod file_line;
mod hash;
mod input;
mod inside;
pub mod laws;
mod level;
mod names;
mod notes;
mod only;
mod options;
mod parts;
mod pattern;
mod report;
mod save;
mod stray;
mod texts;

pub use choice::Choice;
pub use directory::{Created, Directory};
pub use disk::Disk;
pub use file_line::{FileLine, write_file_line};
pub use hash::Hashing;
pub use input::extract_input;
pub use notes::Notes;
pub use only::{OnlyFile, write_only_file};
pub use options::{Naming, SaveOptions, Source, Target};
pub use report::write_line;
