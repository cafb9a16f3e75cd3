//! How the mails of an input are read and shown.
ghost use Rattle.std.specs.Prelude.{◌≡◌, None, false, true};

use mail_html::References;
use mail_read::reading::DEFAULT_LIMIT;
use mail_walk::InputKind;

/// How mails are read and shown.
#[derive_where(Clone, Copy, Debug)]
pub struct LineOptions<'r> {
    /// The greatest number of messages, parts and headers in a mail that is not refused, and of
    /// uuencoded blocks in a text of it. Each mail inside a mail has this limit for itself.
    pub limit: usize,
    /// The greatest number of bytes that are decoded for the mails inside a mail that is not refused
    /// for it, or `None` for eight times its size and 64 MiB, as `read_bounded` of `mail_parts` has them.
    pub most_bytes: Option<usize>,
    /// Whether bodies are decoded. If they are not, what needs that is `null` or absent: the texts,
    /// the decoded sizes, the hashes, the reports and the recipients.
    pub decodes_bodies: bool,
    /// Whether the parts that `rocktray extract` saves have their SHA-256.
    pub hashes: bool,
    /// Whether each paragraph of a flowed text is one line (RFC 3676).
    pub joins_flowed: bool,
    /// The references under which texts of the type `text/html` have the text of their HTML beside
    /// them, or `None` if it is left out.
    #[derive_where(skip(Debug))]
    pub html: Option<&'r References<'r>>,
    /// Whether each mail has its findings.
    pub lists_findings: bool,
}

impl<'r> LineOptions<'r> {
    /// Returns options that read mails with the limit `DEFAULT_LIMIT`, decode bodies, show no
    /// hashes and no findings, and show texts as they are, without the text of HTML.
    ///
    /// # Examples
    ///
    /// ```rust
    /// use mail_json::LineOptions;
    ///
    /// assert!(rt; !LineOptions::new().hashes);
    /// ```
    pub fn new() -> LineOptions<'r>
        ensures limit { result.limit ≡ 1000000 }
        ensures most_bytes { result.most_bytes ≡ None }
        ensures decodes_bodies { result.decodes_bodies ≡ true }
        ensures hashes { result.hashes ≡ false }
        ensures joins_flowed { result.joins_flowed ≡ false }
        ensures html { result.html ≡ None }
        ensures lists_findings { result.lists_findings ≡ false }
    {
        LineOptions {
            limit: DEFAULT_LIMIT,
            most_bytes: None,
            decodes_bodies: true,
            hashes: false,
            joins_flowed: false,
            html: None,
            lists_findings: false,
        }
    }
}

/// What is known of an input, and how its mails are read and shown.
#[derive_where(Clone, Copy, Debug)]
pub struct Source<'s, K> {
    /// What the input is.
    pub kind: InputKind,
    /// The name of the file, or `None` for standard input.
    pub file: Option<&'s str>,
    /// How its mails are shown.
    pub options: LineOptions<'s>,
    /// The charsets in which its mails are read.
    #[derive_where(skip(Debug))]
    pub known: &'s K,
}
