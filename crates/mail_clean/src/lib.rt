//! Laws of clean mails: those that have no finding of `mail_check` but notes. All readings give such a
//! mail one tree, and a grammar of whole mails makes it from the bytes.
#![tactic(auto)]

pub mod laws;
