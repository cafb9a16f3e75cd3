//! The laws. Each function does nothing; its contract is the law.
mod manners;
mod parameters;
mod strict_mails;
mod writing;

pub use manners::clean_mails_are_read_alike;
pub use parameters::{
    plain_dispositions_are_read, plain_types_are_read, plain_values_have_one_meaning,
};
pub use strict_mails::{
    clean_mails_are_of_grammar, plain_outlines_are_of_grammar, strict_blocks_have_headers,
    strict_mails_have_one_tree, strict_texts_have_parts, strict_types_are_meant,
};
pub use writing::plain_outlines_are_strict;
