//! The header block of a message, to iterate over its headers and to look them up.
ghost use Rattle.std.specs.Prelude.{◌≡◌};
ghost use Rattle.std.specs.Iterator.Runs.{EveryRun, ItemsMapTo};
ghost use Rattle.std.specs.Slice.Iter.{iter_rest, iter_steps};
ghost use Rattle.mailparse.specs.Mail.{HeaderBlock};

pub(crate) mod block;
pub(crate) mod dashes;
pub(crate) mod lenient;
pub(crate) mod map;

use crate::header::MailHeader;
use std::marker::Model;
use std::{fmt, slice};

/// The header block of a message (RFC 5322, section 2.2): its bytes, and the list of its headers.
///
/// Iterating over it yields the headers in the order of the message; `MailHeaderMap` looks them up
/// by name.
#[derive(Drop)]
pub struct Headers<'a> {
    raw_bytes: &'a [u8],
    headers: &'a [MailHeader<'a>],
}

/// A contract sees the bytes of the block and the headers.
impl<'a> Model for Headers<'a> {
    ghost Value = { HeaderBlock };

    ghost view = { λ block. record { bytes = block.raw_bytes.now; headers = block.headers.now } };
}

impl<'a> Headers<'a> {
    /// Makes a block of its bytes and its headers.
    pub(crate) fn new(raw_bytes: &'a [u8], headers: &'a [MailHeader<'a>]) -> Headers<'a>
        ensures { result ≡ record { bytes = raw_bytes.entry.now; headers = headers.entry.now } }
    {
        Headers { raw_bytes, headers }
    }

    /// Returns the bytes of the header block, including the blank line that ends it (RFC 5322,
    /// section 2.1).
    ///
    /// Does not allocate.
    ///
    /// # Examples
    ///
    /// ```rust
    /// use mailparse::parse_mail;
    ///
    /// let mail = parse_mail(alloc, b"Subject: Hi\n\nbody")?;
    /// assert_eq!(rt; mail.get_headers().get_raw_bytes(), b"Subject: Hi\n\n".as_slice());
    /// ```
    pub fn get_raw_bytes(&self) -> &'a [u8]
        ensures { result.now ≡ self.now.bytes }
    {
        self.raw_bytes
    }
}

/// Iterates over the headers in the order of the message.
impl<'a> IntoIterator for Headers<'a> {
    type Item = &'a MailHeader<'a>;

    type IntoIter = slice::Iter<'a, MailHeader<'a>>;

    ghost use Rattle.mailparse.specs.Header.{Header};

    ghost into_iter_gives = { λ block items. (iter_rest items ≡ block.headers)
        × EveryRun (iter_steps {A = Header}) (λ p. ItemsMapTo p (λ y. y.now) (iter_rest p.from)) };

    fn into_iter(self) -> slice::Iter<'a, MailHeader<'a>> {
        self.headers.iter()
    }
}

/// Shows the list of headers.
impl fmt::Debug for Headers<'_> {
    fn fmt<W: fmt::Write>(&self, f: &mut fmt::Formatter<W>) -> fmt::Result {
        f.debug_struct("Headers")
            .field("headers", &self.headers)
            .finish()
    }
}
