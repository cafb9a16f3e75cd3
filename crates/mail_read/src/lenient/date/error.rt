//! The faults of a date.
use thiserror::Error;

/// The first part of a date that is missing or wrong, as `date_of` returns it.
#[derive(Clone, Copy, Debug, PartialEq, Eq, Error)]
pub enum DateError {
    /// No number of one or two digits, or one that is no day of the month.
    #[error("no day of the month")]
    Day,
    /// No name of a month, or no number of one.
    #[error("no month")]
    Month,
    /// No number of two to nine digits, or a year before 1900.
    #[error("no year")]
    Year,
    /// No time of day.
    #[error("no time of day")]
    Time,
    /// Never returned: text that is no zone means that the zone is not known.
    #[error("no zone")]
    Zone,
    /// Never returned: text after the date is ignored.
    #[error("text after the zone")]
    TrailingText,
}
