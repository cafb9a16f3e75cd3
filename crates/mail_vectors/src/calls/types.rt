//! Content types, dispositions and bodies.
//!
//! ```text
//! parse_content_type TEXT => MIMETYPE CHARSET, NAME VALUE..   also debug_content_type
//! parse_many_parameters COUNT => COUNT NAME VALUE             the last of `n0=v0`, `n1=v1` ..
//! default_content_type => MIMETYPE CHARSET COUNT DEBUG
//! parse_content_disposition TEXT => KIND, NAME VALUE..        also debug_content_disposition
//! equal_dispositions TEXT TEXT => TRUTH TRUTH    of their kinds, and of a copy of the first kind
//! default_disposition => KIND TRUTH TRUTH        whether a copy of its kind, and the default kind,
//!                                                are equal to it; also debug_default_disposition
//! body ENCODING LABEL BYTES => BODY
//! get_content_type ENCODING LABEL BYTES => MIMETYPE CHARSET   of the type that a body was made with
//! ```
//!
//! KIND is `inline`, `attachment`, `form-data`, or `extension` and the name of another kind. NAME
//! VALUE.. are the parameters in the order of the bytes of their names. ENCODING is the transfer
//! encoding of a body or `none`, and LABEL that of its charset. BODY is its kind, its raw bytes, its
//! decoded bytes and their text; each of the last two may be a refusal.

use crate::notation::{Answer, Debugged, Decision, Outcome, Row, Show, Word, calls, put};
use mailparse::body::Body;
use mailparse::{
    DispositionType, MailParseError, ParsedContentDisposition, ParsedContentType,
    parse_content_disposition, parse_content_type,
};
use std::alloc::{AllocError, Global};
use std::collections::BTreeMap;

/// Makes a call on a body, or the one that an encoded body has in its place, with these inputs.
macro_rules! body_text {
    ($body:expr; $encoded:ident, $plain:ident $(, $input:expr)*) => {
        match $body {
            Body::Base64(body) | Body::QuotedPrintable(body) => body.$encoded($($input),*),
            Body::SevenBit(body) | Body::EightBit(body) => body.$plain($($input),*),
            Body::Binary(body) => body.$plain($($input),*),
        }
    };
}

pub(crate) use body_text;

pub fn make(answer: &mut Answer, row: &Row) -> Decision {
    let alloc = row.alloc;
    calls! { answer, row.call.as_str();
        "parse_content_type" => parse_content_type(alloc, row.text(0)),
        "parse_many_parameters" => put_many(answer, row),
        "debug_content_type" => parse_content_type(alloc, row.text(0)).map(Debugged),
        "default_content_type" => put_default_type(answer, row),
        "parse_content_disposition" => parse_content_disposition(alloc, row.text(0)),
        "equal_dispositions" => put_equal(answer, row),
        "debug_content_disposition" =>
            parse_content_disposition(alloc, row.text(0)).map(Debugged),
        "default_disposition" => put_default(answer, row),
        "debug_default_disposition" => Debugged(ParsedContentDisposition::default(alloc)),
        "body" | "get_content_type" => put_body(answer, row),
    }
}

fn put_many(answer: &mut Answer, row: &Row) -> Outcome {
    let found = many_parameters(row.alloc, row.number(0))?;
    let name = format!(in row.alloc; "n{}", row.number(0).saturating_sub(1))?;
    put!(answer; found.params.len(), &name, found.params.get(name.as_str()));
    Ok(())
}

fn many_parameters(alloc: Global, count: usize) -> Result<ParsedContentType, MailParseError> {
    let mut text = String::from_str(alloc, "x")?;
    for number in 0..count {
        write!(text, "; n{number}=v{number}")?;
    }
    parse_content_type(alloc, text.as_str())
}

pub fn put_type(answer: &mut Answer, ctype: &ParsedContentType) {
    put!(answer; &ctype.mimetype, &ctype.charset);
}

fn put_default_type(answer: &mut Answer, row: &Row) -> Outcome {
    let ctype = ParsedContentType::default(row.alloc)?;
    put_type(answer, &ctype);
    put!(answer; ctype.params.len(), Debugged(&ctype));
    Ok(())
}

impl Show for ParsedContentType {
    fn show(&self, answer: &mut Answer) {
        put_type(answer, self);
        answer.put(&self.params);
    }
}

impl Show for BTreeMap<String, String> {
    fn show(&self, answer: &mut Answer) {
        for (name, value) in self {
            put!(answer; name, value);
        }
    }
}

impl Show for ParsedContentDisposition {
    fn show(&self, answer: &mut Answer) {
        put!(answer; &self.disposition, &self.params);
    }
}

impl Show for DispositionType {
    fn show(&self, answer: &mut Answer) {
        match self {
            DispositionType::Inline => answer.put(Word("inline")),
            DispositionType::Attachment => answer.put(Word("attachment")),
            DispositionType::FormData => answer.put(Word("form-data")),
            DispositionType::Extension(name) => put!(answer; Word("extension"), name),
        }
    }
}

fn put_equal(answer: &mut Answer, row: &Row) -> Outcome {
    let first = parse_content_disposition(row.alloc, row.text(0))?.disposition;
    let second = parse_content_disposition(row.alloc, row.text(1))?.disposition;
    put!(answer; first == second, is_copied(row.alloc, &first, &second));
    Ok(())
}

fn put_default(answer: &mut Answer, row: &Row) {
    let found = ParsedContentDisposition::default(row.alloc);
    let kind = &found.disposition;
    put!(answer; &found, is_copied(row.alloc, kind, kind), *kind == DispositionType::default());
}

/// Returns whether a copy of a kind is equal to another kind.
fn is_copied(alloc: Global, first: &DispositionType, second: &DispositionType) -> Decision {
    Ok(first.clone(alloc)? == *second)
}

/// The transfer encoding and the type of a body.
#[derive(Drop)]
pub struct Label {
    encoding: Option<String>,
    ctype: ParsedContentType,
}

impl Label {
    /// Returns the encoding and the charset in two inputs from `at` onwards.
    pub fn of(row: &Row, at: usize) -> Result<Label, AllocError> {
        let encoding = match row.optional_text(at) {
            Some(text) => Some(String::from_str(row.alloc, text)?),
            None => None,
        };
        let ctype = ParsedContentType {
            mimetype: String::from_str(row.alloc, "text/plain")?,
            charset: String::from_str(row.alloc, row.text(at.saturating_add(1)))?,
            params: BTreeMap::new(row.alloc),
        };
        Ok(Label { encoding, ctype })
    }

    pub fn body<'b>(&'b self, raw: &'b [u8]) -> Body<'b> {
        Body::new(raw, &self.ctype, &self.encoding)
    }
}

fn put_body(answer: &mut Answer, row: &Row) -> Outcome {
    let label = Label::of(row, 0)?;
    let body = label.body(row.bytes(2));
    match row.call.as_str() {
        "body" => answer.put(&body),
        _ => put_type(
            answer,
            body_text!(&body; get_content_type, get_content_type),
        ),
    }
    Ok(())
}

impl Show for Body<'_> {
    fn show(&self, answer: &mut Answer) {
        let alloc = answer.alloc;
        put_raw(answer, self);
        answer.put(decoded(alloc, self));
        answer.put(body_text!(self; get_decoded_as_string, get_as_string, alloc));
    }
}

fn decoded(alloc: Global, body: &Body<'_>) -> Result<Vec<u8>, MailParseError> {
    Ok(body.decoded(alloc)?.into_owned(alloc)?)
}

/// Writes the kind of a body and its raw bytes.
pub fn put_raw(answer: &mut Answer, body: &Body<'_>) {
    let kind = match body {
        Body::Base64(_) => "base64",
        Body::QuotedPrintable(_) => "quoted-printable",
        Body::SevenBit(_) => "7bit",
        Body::EightBit(_) => "8bit",
        Body::Binary(_) => "binary",
    };
    put!(answer; Word(kind), body.get_raw());
}
