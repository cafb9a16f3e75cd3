//! The laws. Each function does nothing; its contract is the law.
mod dates;
mod headers;
mod ids;
mod inside;
mod mails;
mod manners;
mod parameters;
mod values;
mod writing;

pub use dates::{days_follow_each_other, leap_days_are_counted, strict_dates_agree};
pub use headers::{block_covers, header_consumes, keys_and_values_are_disjoint, least_is_least};
pub use ids::{message_ids_have_a_form, message_ids_read_back};
pub use inside::{inner_mails_are_at_their_offsets, parts_are_at_their_offsets};
pub use mails::{
    levels_agree, nodes_bounded, one_list_of_delimiters_fits, parts_apart, placements_are_exact,
    ranges_apart, ranges_give_tree,
};
pub use manners::{
    limits_count_items, manners_agree, manners_keep_placements, manners_keep_ranges,
    nothing_is_refused, strict_mails_are_read_alike,
};
pub use parameters::{
    candidates_have_a_form, charset_source_is_the_greatest, dispositions_equal_by_kind,
    odd_backslashes_go, one_list_of_segments_fits, only_possible_names_have_sections,
    pairs_without_stars_are_parameters, percent_free, plain_boundary_is_read, runs_are_read_once,
};
pub use values::{
    adjacent_words_join, one_list_of_tokens_fits, plain_value_reads_as_itself, tokens_make_up_line,
    utf8_value_agrees,
};
pub use writing::{one_list_of_words_fits, outline_reads_back, written_values_read_back};
