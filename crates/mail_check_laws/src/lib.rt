//! Laws of `mail_check`: a mail has no finding but notes exactly if it is of the grammar of strict mails.
#![tactic(auto)]

pub mod laws;
