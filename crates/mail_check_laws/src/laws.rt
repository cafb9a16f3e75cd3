//! What it means that findings are missing, as laws over all mails.
//!
//! Each function does nothing; its contract is the law.
pub mod strict;
pub mod strict_values;
