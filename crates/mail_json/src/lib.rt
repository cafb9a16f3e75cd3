//! Mails and mailboxes as lines of JSON, over any reader and writer.
#![tactic(auto)]

mod addresses;
mod body;
mod bounced;
mod fields;
mod findings_line;
mod inside;
mod json_lines;
pub mod laws;
mod lists;
mod mail;
mod options;
mod origin;
mod part;
pub mod range;
mod reports;
mod selection;
mod stream;
mod text_files;
mod written;

pub use findings_line::write_findings;
pub use json_lines::write_single;
pub use mail::write_mail;
pub use options::{LineOptions, Source};
pub use origin::{Origin, write_error, write_unread};
pub use selection::{NextMail, Selection};
pub use stream::{Unwatched, Watch, write_input};
pub use written::Written;
