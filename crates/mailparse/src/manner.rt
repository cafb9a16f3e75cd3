//! How a message is read where readers differ.
ghost use Rattle.std.specs.Prelude.{◌≡◌, IfOk};
ghost use Rattle.mailparse.specs.Manner.{Manner};
ghost use Rattle.mailparse.specs.Mail.{strict};
ghost use Rattle.mailparse.specs.Views.{content_type, in_digest};

use crate::content_type::ParsedContentType;
use crate::header::MailHeader;
use crate::mail::types::{DefaultType, node_type};
use mail_codec::charset::KnownCharsets;
use std::alloc::{AllocError, Global};

/// How a message is read where readers differ: which type it has, and three choices,
/// for `parse_mail_as`.
///
/// An implementation names in `manner` the definition that it keeps to. `Strict` is the manner of
/// all other calls of this crate.
pub trait ReadingManner {
    // The choices of this reader.
    ghost manner: { Self → Manner };

    /// Returns the type of a message with these headers, given the type that it has without a
    /// `Content-Type` (RFC 2046, section 5.1.5).
    ///
    /// The type decides whether the message has parts, and what their boundary is. Allocates the
    /// type.
    ///
    /// # Errors
    ///
    /// `AllocError` if it runs out of memory.
    ///
    /// # Examples
    ///
    /// ```rust
    /// use mailparse::{DefaultType, ReadingManner, Strict, parse_headers};
    ///
    /// let (headers, _) = parse_headers(alloc, b"Subject: One\n\n")?;
    /// let ctype = Strict(&()).content_type(alloc, &headers, DefaultType::Message)?;
    /// assert_eq!(rt; ctype.mimetype.as_str(), "message/rfc822");
    /// ```
    fn content_type(
        &self,
        alloc: Global,
        headers: &Vec<MailHeader<'_>>,
        default: DefaultType,
    ) -> Result<ParsedContentType, AllocError>
        ensures { IfOk result (λ ctype.
            content_type ctype ≡ (manner self.now).type_of (in_digest default) headers.now.items) };

    /// Whether a refused message or part is kept, as plain text without headers whose body is all
    /// its bytes. Otherwise the whole mail is refused.
    ///
    /// # Examples
    ///
    /// ```rust
    /// use mailparse::{ReadingManner, Strict};
    ///
    /// assert!(rt; !Strict(&()).keeps_refused());
    /// ```
    fn keeps_refused(&self) -> bool
        ensures { result ≡ (manner self.now).keeps_refused };

    /// Whether a delimiter is a whole line: only `--`, or nothing, and then blanks follow the
    /// dash-boundary (RFC 2046, section 5.1.1). Otherwise each line that begins with the
    /// dash-boundary is a delimiter, as always if the dash-boundary contains a LF.
    ///
    /// # Examples
    ///
    /// ```rust
    /// use mailparse::{ReadingManner, Strict};
    ///
    /// assert!(rt; !Strict(&()).has_whole_lines());
    /// ```
    fn has_whole_lines(&self) -> bool
        ensures { result ≡ (manner self.now).whole_lines };

    /// Whether headers are read as `parse_lenient_headers` reads them: they also end before a line
    /// that begins with `--` and has no colon, and blanks before a colon are in no key (RFC 5322,
    /// section 4.5). Otherwise `parse_headers` reads them (RFC 5322, section 2.1).
    ///
    /// # Examples
    ///
    /// ```rust
    /// use mailparse::{ReadingManner, Strict};
    ///
    /// assert!(rt; !Strict(&()).has_lenient_headers());
    /// ```
    fn has_lenient_headers(&self) -> bool
        ensures { result ≡ (manner self.now).lenient_headers };
}

/// The manner of the other calls of this crate, under these charsets: the first `Content-Type` is
/// the type, a refused part refuses the mail, whole lines are not asked for, and headers end at the
/// blank line.
#[derive(Debug, Drop)]
pub struct Strict<'k, K>(pub &'k K);

impl<'k, K: KnownCharsets> ReadingManner for Strict<'k, K> {
    ghost manner = { λ s. strict (K.known s.0.now) };

    fn content_type(
        &self,
        alloc: Global,
        headers: &Vec<MailHeader<'_>>,
        default: DefaultType,
    ) -> Result<ParsedContentType, AllocError> {
        node_type(alloc, headers, default, self.0)
    }

    fn keeps_refused(&self) -> bool {
        false
    }

    fn has_whole_lines(&self) -> bool {
        false
    }

    fn has_lenient_headers(&self) -> bool {
        false
    }
}
