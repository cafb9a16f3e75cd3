//! The addresses of a mail (RFC 5322, sections 3.4 and 4.4; RFC 6854; RFC 6532): who wrote it, and
//! to whom. They are read from the raw bytes of a value, before encoded words are decoded, so no
//! display name can forge an address. `write_addresses` writes lists of addresses that read back,
//! and `encode` writes single values of any text.
//!
//! The rules of this layer are its own. A call that allocates has the argument `alloc` and returns
//! a `Result`. No call panics, and each takes time linear in its text.
//!
//! The examples run in a function that has the runtime `rt` and its allocator `alloc`.
#![tactic(auto)]

pub mod encode;
mod folding;
mod headers;
pub mod laws;
mod lenient;
mod lenient_commas;
mod lenient_list;
mod lenient_members;
mod lenient_opened;
mod lenient_several;
mod list;
mod mailbox;
mod phrase_words;
mod plain;
mod shown_names;
mod text;
mod tokens;
mod writer;

pub use headers::{addresses_of, sender_of};
pub use lenient_list::{lenient_addresses, lenient_addresses_of, lenient_sender_of};
pub use list::{Address, AddressList, Group, Mailbox, Member, Unknown, read_addresses};
pub use writer::{NewAddress, NewGroup, NewMailbox, WriteError, write_addresses};
