//! Uuencoded files within texts, as mail programs wrote them into mails before MIME.
ghost use Rattle.std.specs.Prelude.{◌≡◌, ◌++◌, ◌≤◌, [], ◌∷◌, drop, filter, length, map, string_bytes};
ghost use Rattle.std.specs.Prelude.{IfOk, OnOk};
ghost use Rattle.mail_codec.specs.UuencodeViews.{file_view};
ghost use Rattle.mailparse.specs.Views.{tree_of};
ghost use Rattle.mail_read.specs.Files.{text_of_octets};
ghost use Rattle.mail_data.specs.TextFiles.{file_bytes, is_file, is_plain_text};
ghost use Rattle.mail_data.specs.TextFiles.{text_file, text_file_path, text_files};
ghost use Rattle.mail_data.specs.TextFileViews.{text_file_view};
ghost use Rattle.mail_read.specs.lenient.ContentViews.{content_view};

use mail_codec::transfer::{Uuencoded, decode_uuencode, find_uuencode, uudecoded_exceeds};
use mail_read::files::{is_leaf, is_shown, text_of_octets};
use mail_read::lenient::{Content, ContentFault};
use mailparse::ParsedMail;
use std::alloc::{AllocError, Global};
use std::borrow::CowSlice;
use std::ops::Range;

/// A uuencoded file in a text, as `text_files` returns it.
#[derive(Debug, Drop)]
pub struct TextFile<'t> {
    /// Its name, as the sender wrote it. It has a byte or more.
    pub name: &'t [u8],
    /// Its lines of data.
    pub lines: &'t [u8],
    /// The range of its block in the text, in bytes, from `begin` to the line `end`, if that follows
    /// the data.
    pub block: Range<usize>,
    /// Whether a line `end` follows the data. If none does, the file is damaged or cut off.
    pub is_ended: bool,
}

impl<'t> TextFile<'t> {
    /// Returns the name as a text: in UTF-8 if its bytes are UTF-8, otherwise in windows-1252. It is
    /// as the sender wrote it: use `safe_file_name` of `files` before creating a file. Allocates the
    /// text.
    ///
    /// # Errors
    ///
    /// `AllocError` if it runs out of memory.
    ///
    /// # Examples
    ///
    /// ```rust
    /// use mail_data::text_files::text_files;
    ///
    /// let files = text_files(alloc, b"begin 644 caf\xE9.txt\n`\nend\n", 1000)?;
    /// assert_eq!(rt; files[0].file_name(alloc)?.as_str(), "café.txt");
    /// ```
    pub fn file_name(&self, alloc: Global) -> Result<String, AllocError>
        ensures { IfOk result (λ name.
            string_bytes name ≡ text_of_octets (text_file_view self.now).name) }
    {
        text_of_octets(alloc, self.name)
    }

    /// Returns the bytes of the file. If no line `end` follows its data, they are damaged. Allocates
    /// them.
    ///
    /// # Errors
    ///
    /// `AllocError` if it runs out of memory.
    ///
    /// # Examples
    ///
    /// ```rust
    /// use mail_read::lenient::ContentFault;
    /// use mail_data::text_files::text_files;
    ///
    /// let files = text_files(alloc, b"begin 644 cat.txt\n#0V%T\n", 1000)?;
    /// let content = files[0].content(alloc)?;
    /// assert_eq!(rt; content.bytes.as_slice(), b"Cat".as_slice());
    /// assert_eq!(rt; content.fault, Some(ContentFault::TextFile));
    /// ```
    #[tactic(auto, unfolding(crate::specs::TextFiles::file_bytes))]
    pub fn content(&self, alloc: Global) -> Result<Content<'static>, AllocError>
        ensures { IfOk result (λ content.
            content_view content ≡ file_bytes (text_file_view self.now)) }
    {
        let decoded = decode_uuencode(alloc, self.lines)?;
        let bytes = CowSlice::Owned(decoded.bytes);
        if self.is_ended {
            return Ok(Content {
                bytes,
                fault: None,
                ignored: 0,
            });
        }
        Ok(Content {
            bytes,
            fault: Some(ContentFault::TextFile),
            ignored: 0,
        })
    }
}

/// Returns the uuencoded files in a text, in order: of the blocks that `find_uuencode` of
/// `mail_codec::transfer` finds one after another, each in what follows the block before it, at most
/// the first `limit` are read, which bounds the memory that a text takes.
///
/// A block is not a file if its lines encode more bytes than they have, because letters are missing,
/// or if they encode nothing and no line `end` follows: a sentence may begin like a file. Allocates the
/// list, in a time proportional to the text.
///
/// # Errors
///
/// `AllocError` if it runs out of memory.
///
/// # Examples
///
/// ```rust
/// use mail_data::text_files::text_files;
///
/// let text = b"Hi,\n\nbegin 644 a.txt\n#0V%T\n`\nend\n\nbegin 644 b\n#0V%T\n";
/// let files = text_files(alloc, text, 1000)?;
/// assert_eq!(rt; files.len(), 2);
/// assert_eq!(rt; files[0].name, b"a.txt".as_slice());
/// assert_eq!(rt; files[0].block, 5..33);
/// assert!(rt; !files[1].is_ended);
/// ```
pub fn text_files<'t>(
    alloc: Global,
    text: &'t [u8],
    limit: usize,
) -> Result<Vec<TextFile<'t>>, AllocError>
    ensures { IfOk result (λ files.
        map text_file_view files.items ≡ text_files limit text.now) }
{
    let mut files = Vec::new(alloc);
    let mut at = 0;
    let mut left = limit;
    'search: while left > 0 {
        let Some(block) = find_uuencode(&text[at..]) else {
            return Ok(files);
        };
        push_file(&mut files, text_file(text, at, &block))?;
        at += block.block.end;
        left -= 1;
    }
    Ok(files)
}

/// Appends a block of a text if it counts as a file.
fn push_file<'t>(files: &mut Vec<TextFile<'t>>, file: TextFile<'t>) -> Result<(), AllocError>
    ensures { OnOk result (map text_file_view files.new.items
        ≡ map text_file_view files.old.items ++ filter is_file (text_file_view file.entry ∷ [])) }
{
    if is_file(&file) {
        files.push(file)?;
    }
    Ok(())
}

/// Returns a block by its ranges in what follows an offset of a text.
fn text_file<'t>(text: &'t [u8], at: usize, block: &Uuencoded) -> TextFile<'t>
    requires within { at ≤ length text.now }
    requires name { (block.now.name.start ≤ block.now.name.end)
        × (block.now.name.end ≤ length (drop at text.now)) }
    requires lines { (block.now.lines.start ≤ block.now.lines.end)
        × (block.now.lines.end ≤ length (drop at text.now)) }
    requires block { (block.now.block.start ≤ block.now.block.end)
        × (block.now.block.end ≤ length (drop at text.now)) }
    ensures { text_file_view result ≡ text_file at (drop at text.now) (file_view block.now) }
{
    let rest = &text[at..];
    TextFile {
        name: &rest[block.name.start..block.name.end],
        lines: &rest[block.lines.start..block.lines.end],
        block: at + block.block.start..at + block.block.end,
        is_ended: block.is_ended,
    }
}

/// Returns whether a block counts as a file.
fn is_file(file: &TextFile<'_>) -> bool
    ensures { result ≡ is_file (text_file_view file.now) }
{
    let lines = file.lines;
    !uudecoded_exceeds(lines, lines.len()) && (file.is_ended || uudecoded_exceeds(lines, 0))
}

/// Returns whether a part is a plain text that mail readers show: it has no parts of its own, and
/// `is_shown` of `files` shows it, but not as HTML (RFC 2046, section 4.1.3). Its files are those
/// that `text_files` returns, unless `is_extracted` says that it is a file itself. Does not allocate.
///
/// # Examples
///
/// ```rust
/// use mail_data::text_files::is_plain_text;
/// use mailparse::parse_mail;
///
/// assert!(rt; is_plain_text(&parse_mail(alloc, b"Subject: Hi\n\nHi")?));
/// assert!(rt; !is_plain_text(&parse_mail(alloc, b"Content-Type: text/html\n\nHi")?));
/// ```
pub fn is_plain_text(part: &ParsedMail<'_>) -> bool
    ensures { result ≡ is_plain_text (tree_of part.now) }
{
    is_leaf(part) && (is_shown(part) && part.ctype.mimetype.as_str() != "text/html")
}

/// Returns the path of the file with this number, counted from 1, in the text of the part with this
/// path: `1.u2` is the second file in the text `1`. No part has such a path. Allocates the path.
///
/// # Errors
///
/// `AllocError` if it runs out of memory.
///
/// # Examples
///
/// ```rust
/// use mail_data::text_files::text_file_path;
///
/// assert_eq!(rt; text_file_path(alloc, "2.1", 1)?.as_str(), "2.1.u1");
/// ```
pub fn text_file_path(alloc: Global, path: &str, number: usize) -> Result<String, AllocError>
    ensures { IfOk result (λ text. string_bytes text ≡ text_file_path path.now number) }
{
    format!(in alloc; "{path}.u{number}")
}
