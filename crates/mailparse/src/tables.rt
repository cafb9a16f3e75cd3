//! The calls that read under tables of charsets.
//!
//! Each does what the call with `_in` in place of `_with` does, where the known charsets are the
//! four built-in ones and those of the tables. The built-in charsets take precedence; among the
//! tables, the first that has the label is used.
ghost use Rattle.std.specs.Prelude.{◌≡◌, length, IfOk, IsErr, Ok};
ghost use Rattle.mail_codec.specs.Tables.{charsets_with};
ghost use Rattle.mailparse.specs.Block.{header_count, read_headers};
ghost use Rattle.mailparse.specs.Body.{decoded_text_in, text_under_in};
ghost use Rattle.mailparse.specs.BodyViews.{encoded_content, encoded_kind, unencoded_content};
ghost use Rattle.mailparse.specs.Bound.{IsBounded};
ghost use Rattle.mailparse.specs.ContentType.{content_type_in};
ghost use Rattle.mailparse.specs.Disposition.{disposition_in};
ghost use Rattle.mailparse.specs.Mail.{body_text_in, read_mail_in, root, shown_as_in};
ghost use Rattle.mailparse.specs.Outcome.{Answers, AnswersOrMemory, GivesText, ReadsText};
ghost use Rattle.mailparse.specs.Placement.{placements};
ghost use Rattle.mailparse.specs.Value.{lenient_value_in};
ghost use Rattle.mailparse.specs.Views.{content_type, disposition, placements_of, tree_of};

use crate::body::{EncodedBody, UnencodedBody};
use crate::content_type::{ParsedContentType, parse_content_type_in};
use crate::disposition::{ParsedContentDisposition, parse_content_disposition_in};
use crate::error::MailParseError;
use crate::header::MailHeader;
use crate::mail::{ParsedMail, parse_mail_in};
use mail_codec::charset::SingleByteTable;
use std::alloc::Global;

/// Reads a message as `parse_mail_in` does, in the built-in charsets and those of the tables.
///
/// The result does not keep the tables: each later call has to be given them again.
pub fn parse_mail_with<'a>(
    alloc: Global,
    raw: &'a [u8],
    tables: &[SingleByteTable<'_>],
) -> Result<ParsedMail<'a>, MailParseError>
    ensures read { AnswersOrMemory tree_of result
        (read_mail_in (charsets_with tables.now) 100 raw.now) }
    ensures bounded { IfOk result (λ mail. IsBounded (tree_of mail) (length raw.now)) }
    ensures places { IfOk result (λ mail. placements_of mail ≡ placements 0 (tree_of mail)) }
    ensures no_alloc { header_count raw.now ≡ 0 → IsErr (read_headers raw.now) →
        Answers tree_of result (read_mail_in (charsets_with tables.now) 100 raw.now) }
{
    parse_mail_in(alloc, raw, &tables)
}

/// Reads the value of a `Content-Type` header as `parse_content_type_in` does, in the built-in
/// charsets and those of the tables.
pub fn parse_content_type_with(
    alloc: Global,
    text: &str,
    tables: &[SingleByteTable<'_>],
) -> Result<ParsedContentType, MailParseError>
    ensures { AnswersOrMemory content_type result
        (Ok (content_type_in (charsets_with tables.now) text.now)) }
{
    parse_content_type_in(alloc, text, &tables)
}

/// Reads the value of a `Content-Disposition` header as `parse_content_disposition_in` does, in the
/// built-in charsets and those of the tables.
pub fn parse_content_disposition_with(
    alloc: Global,
    text: &str,
    tables: &[SingleByteTable<'_>],
) -> Result<ParsedContentDisposition, MailParseError>
    ensures { AnswersOrMemory disposition result
        (Ok (disposition_in (charsets_with tables.now) text.now)) }
{
    parse_content_disposition_in(alloc, text, &tables)
}

impl<'a> MailHeader<'a> {
    /// Returns the text of the value as `get_value_in` does, in the built-in charsets and those of
    /// the tables.
    pub fn get_value_with(
        &self,
        alloc: Global,
        tables: &[SingleByteTable<'_>],
    ) -> Result<String, MailParseError>
        ensures { GivesText result
            (lenient_value_in (charsets_with tables.now) self.now.value) }
    {
        self.get_value_in(alloc, &tables)
    }
}

impl<'a> ParsedMail<'a> {
    /// Returns the body as text, as `get_body_in` does, in the built-in charsets and those of the
    /// tables.
    pub fn get_body_with(
        &self,
        alloc: Global,
        tables: &[SingleByteTable<'_>],
    ) -> Result<String, MailParseError>
        ensures { ReadsText result
            (body_text_in (charsets_with tables.now) (root (tree_of self.now))) }
    {
        self.get_body_in(alloc, &tables)
    }

    /// Returns how the message is to be shown, as `get_content_disposition_in` does, in the
    /// built-in charsets and those of the tables.
    pub fn get_content_disposition_with(
        &self,
        alloc: Global,
        tables: &[SingleByteTable<'_>],
    ) -> Result<ParsedContentDisposition, MailParseError>
        ensures { AnswersOrMemory disposition result
            (Ok (shown_as_in (charsets_with tables.now) (root (tree_of self.now)))) }
    {
        self.get_content_disposition_in(alloc, &tables)
    }
}

impl<'a> EncodedBody<'a> {
    /// Returns the decoded text of the body as `get_decoded_as_string_in` does, in the built-in
    /// charsets and those of the tables.
    pub fn get_decoded_as_string_with(
        &self,
        alloc: Global,
        tables: &[SingleByteTable<'_>],
    ) -> Result<String, MailParseError>
        ensures { ReadsText result (decoded_text_in (charsets_with tables.now)
            (encoded_kind self.now) (encoded_content self.now).ctype.charset
            (encoded_content self.now).raw) }
    {
        self.get_decoded_as_string_in(alloc, &tables)
    }
}

impl<'a, Kind> UnencodedBody<'a, Kind> {
    /// Returns the text of the body as `get_as_string_in` does, in the built-in charsets and those
    /// of the tables.
    pub fn get_as_string_with(
        &self,
        alloc: Global,
        tables: &[SingleByteTable<'_>],
    ) -> Result<String, MailParseError>
        ensures { GivesText result (text_under_in (charsets_with tables.now)
            (unencoded_content self.now).ctype.charset (unencoded_content self.now).raw) }
    {
        self.get_as_string_in(alloc, &tables)
    }
}
