//! How programs read a mail that the port of `mailparse` refuses or reads too strictly: lenient
//! readings that recover what they can (`lenient`), the files among the parts and their names
//! (`files`), the positions of the parts (`places`), the mails inside a mail with their paths
//! (`inner_mails`), and the manner in which the programs read a whole mail (`reading`).
//!
//! The rules of this layer are its own; those of `mailparse` stay as they are. Each call that
//! allocates has the argument `alloc` and returns a `Result`; no call panics. Calls that read
//! charsets take them as the last argument, `known`; `()` means the four of `mail_codec`.
//!
//! The examples run in a function with the runtime `rt` and its allocator `alloc`.
#![tactic(auto)]

pub mod files;
pub mod inner_mails;
pub mod lenient;
pub mod places;
pub mod reading;
