//! Reads mail: headers and the text of their values, types and dispositions with their parameters,
//! nested parts, bodies, dates and message ids.
//!
//! `parse_mail` reads a whole message. The result borrows the bytes of the message; values and
//! bodies are decoded on demand. `parse_header`, `parse_headers`, `parse_content_type`,
//! `parse_content_disposition`, `dateparse` and `msgidparse` each read a part of a message by
//! itself.
//!
//! No call panics, whatever the bytes are. A call that allocates takes the argument `alloc` and
//! returns a `Result`; each call lists the other errors it returns.
//!
//! The examples run in a function that has the runtime `rt` and its allocator `alloc`.
#![tactic(auto)]

mod ascii_case;
pub mod body;
mod content_type;
mod date;
mod disposition;
mod error;
mod header;
pub mod headers;
mod lossy_text;
mod mail;
mod manner;
mod message_ids;
mod parameters;
mod tables;

pub use content_type::{ParsedContentType, parse_content_type, parse_content_type_in};
pub use date::dateparse;
pub use disposition::{
    DispositionType, ParsedContentDisposition, parse_content_disposition,
    parse_content_disposition_in,
};
pub use error::{Base64Fault, MailParseError, QuotedPrintableFault, RefusalKind, Wrapped};
pub use header::parse::{HeaderPlaces, header_places, parse_header};
pub use header::{MailHeader, value_text, value_text_in};
pub use headers::block::{count_headers, parse_headers};
pub use headers::dashes::before_dash_line;
pub use headers::lenient::parse_lenient_headers;
pub use headers::map::MailHeaderMap;
pub use mail::types::DefaultType;
pub use mail::{
    MAX_LEVELS, ParsedMail, PartsIterator, parse_mail, parse_mail_as, parse_mail_in,
    parse_mail_limited, parse_mail_limited_in, parse_mail_within,
};
pub use mail_codec::charset::{Decode, KnownCharsets, SingleByteTable, table_for_label};
pub use manner::{ReadingManner, Strict};
pub use message_ids::{MessageIdList, msgidparse};
pub use parameters::segments::cut_segment;
pub use tables::{parse_content_disposition_with, parse_content_type_with, parse_mail_with};
