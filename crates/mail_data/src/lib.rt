//! What applications need from mail, on top of the readings of `mail_read`: the mails of a mailbox
//! (`mailbox`), the part that is the text of a mail (`texts`), the text to be read (`readable`) and
//! all texts that are read one after another (`inline_texts`), the uuencoded files within a text
//! (`text_files`), texts whose paragraphs flow over lines (RFC 3676; `flowed`), the fields of
//! reports (`reports`) and the recipients of delivery status notifications among them (RFC 3464;
//! `bounce`), and the ids that place a mail in a thread (`archive`). The modules of `mail_read` are
//! here too.
//!
//! The rules of this layer are its own; those of `mailparse` stay as they are. Each call that
//! allocates has the argument `alloc` and returns a `Result`; no call panics. Calls that read
//! charsets take them as the last argument, `known`; `()` means the four of `mail_codec`.
//!
//! The examples run in a function with the runtime `rt` and its allocator `alloc`.
#![tactic(auto)]

pub mod archive;
pub mod bounce;
pub mod flowed;
pub mod inline_texts;
mod line_ends;
pub mod mailbox;
pub mod readable;
pub mod reports;
pub mod text_files;
pub mod texts;

pub use mail_read::{files, inner_mails, lenient, places, reading};
