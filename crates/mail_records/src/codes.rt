//! The codes that the calls of the C library return; `rocktray.h` names them.
ghost use Rattle.std.specs.Prelude.{◌≡◌};
ghost use Rattle.mail_records.specs.Codes.{date_code, error_code, kind_code, reason};

use mail_read::lenient::DateError;
use mailparse::{MailParseError, RefusalKind};

/// The call succeeded.
pub const DONE: u32 = 0;
/// The output buffer is too short for the result.
pub const TOO_SHORT: u32 = 1;
/// Memory ran out.
pub const NO_MEMORY: u32 = 2;
/// There is no such header, name, id or report, or no further mail.
pub const ABSENT: u32 = 3;
/// A space where a header should begin.
pub const LEADING_SPACE: u32 = 16;
/// A lone CR where a header should begin.
pub const LONE_CARRIAGE_RETURN: u32 = 17;
/// A part that is nested too deeply.
pub const TOO_DEEP: u32 = 18;
/// A body that is not Base64.
pub const NOT_BASE64: u32 = 19;
/// A text that is not UTF-8.
pub const NOT_UTF8: u32 = 20;
/// A refusal that has no code of its own.
pub const REFUSED: u32 = 21;
/// There are more records than the limit.
pub const TOO_MANY: u32 = 22;
/// There are bytes, but no line that begins a mail of a mailbox.
pub const NO_MAILBOX: u32 = 23;

/// Returns the code of an error: that of its kind of refusal, or `NO_MEMORY` if it is not a
/// refusal.
pub(crate) fn code_of(error: &MailParseError) -> u32
    ensures { result ≡ error_code error.now }
{
    match error.refusal() {
        Some(kind) => code_of_kind(kind),
        None => NO_MEMORY,
    }
}

/// Returns the code of a kind of refusal.
fn code_of_kind(kind: RefusalKind) -> u32
    ensures { result ≡ kind_code kind }
{
    match kind {
        RefusalKind::LeadingSpace => LEADING_SPACE,
        RefusalKind::LoneCarriageReturn => LONE_CARRIAGE_RETURN,
        RefusalKind::TooDeep => TOO_DEEP,
        RefusalKind::TooMany => TOO_MANY,
        RefusalKind::NotBase64 => NOT_BASE64,
        RefusalKind::NotText => NOT_UTF8,
        RefusalKind::Other => REFUSED,
    }
}

/// Returns the code for what is missing or wrong in a date.
pub(crate) fn code_of_date(error: DateError) -> u32
    ensures { result ≡ date_code error }
{
    match error {
        DateError::Day => 32,
        DateError::Month => 33,
        DateError::Year => 34,
        DateError::Time => 35,
        DateError::Zone => 36,
        DateError::TrailingText => 37,
    }
}

/// Returns the text of a code.
///
/// # Examples
///
/// ```rust
/// use mail_records::codes::TOO_SHORT;
/// use mail_records::codes::reason;
///
/// assert_eq!(rt; reason(TOO_SHORT), "the buffer is too short");
/// ```
pub fn reason(code: u32) -> &'static str
    ensures { result.now ≡ reason code }
{
    match code {
        0 => "done",
        1 => "the buffer is too short",
        2 => "out of memory",
        3 => "not found",
        16 => {
            "Header cannot start with a space; it is likely an overhanging line from a previous header"
        }
        17 => "Headers were followed by an unexpected lone CR character!",
        18 => "Recursion limit reached",
        19 => "Base64 decode error",
        20 => "The text is not UTF-8",
        21 => "The input is refused",
        22 => "Too many parts and headers",
        23 => "The bytes are not a mailbox",
        32 => "no day of the month",
        33 => "no month",
        34 => "no year",
        35 => "no time of day",
        36 => "no zone",
        37 => "text after the zone",
        _ => "unknown code",
    }
}
