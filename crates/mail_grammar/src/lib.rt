//! The grammar of strict mails, as definitions of bytes that RFC 5322 and RFC 2045 to 2047 write so, and
//! what plain types and dispositions mean. No code runs them; laws of `mail_clean` speak of them.
#![tactic(auto)]
