//! What a program that is not written in Rattle asks of a mail, as records: a mail with its parts
//! and headers (`records`), addresses, findings, the fields of reports, the recipients of delivery
//! reports, the strings of types and the files in texts; what is read of the ranges that records
//! have (`ranges`) and of whole mails (`results`), dates and the mails of a mailbox (`numbers`); and
//! writing all that to buffers of the caller (`buffer`), with codes instead of errors (`codes`).
//!
//! `mail_c` exports these calls; `c/rocktray.h` declares them and describes the records. The last
//! argument of most, `known`, is the charsets; `()` means the four of `mail_codec`.
#![tactic(auto)]

pub mod addresses;
pub mod buffer;
pub mod codes;
pub mod findings;
pub mod laws;
mod lookup;
mod nameless;
pub mod numbers;
mod places;
pub mod ranges;
pub mod recipients;
pub mod records;
pub mod reports;
pub mod results;
pub mod rows;
pub mod strings;
pub mod text_files;
