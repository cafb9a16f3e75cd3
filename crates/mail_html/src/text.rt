//! The text of HTML, with or without its links.
ghost use Rattle.std.specs.Prelude.{◌≡◌, IfOk, string_bytes};
ghost use Rattle.mail_html.specs.Text.{html_text, written};

use crate::html::text_bytes;
use crate::links::{Links, linked_bytes};
use crate::references::References;
use std::alloc::{AllocError, Global};

/// Returns the text of HTML, after the tokenizer of the HTML Standard (section 13.2.5), under the
/// references that are known.
///
/// Text in elements such as `p`, `div` and `li` is on lines of its own, cells of tables are
/// separated by tabs, and the alternative text of an image is in brackets. Whitespace collapses
/// except in `pre`. Comments and the contents of `script`, `style`, `template`, `noscript`, `svg`
/// and `math` are no text. With `Links::Footnotes` each link has a number, and the targets follow
/// the text: what a person needs to judge them. No text is refused; nothing here makes HTML safe.
/// Allocates the text.
///
/// # Errors
///
/// `AllocError` if it runs out of memory.
///
/// # Examples
///
/// ```rust
/// use mail_html::{Links, References, html_text};
///
/// let references = References::standard();
/// let html = "<style>p { color: red }</style><p>2 &lt; 3<br>a  b <img alt=\"c\" src=\"d\">";
/// let text = html_text(alloc, html, Links::Omitted, &references)?;
/// assert_eq!(rt; text.as_str(), "2 < 3\na b [c]");
///
/// let html = "See <a href='https://example.org/?a&amp;b'>my bank</a>!";
/// let text = html_text(alloc, html, Links::Footnotes, &references)?;
/// assert_eq!(rt; text.as_str(), "See [1]my bank!\n\n[1] https://example.org/?a&b");
/// ```
pub fn html_text(
    alloc: Global,
    html: &str,
    links: Links,
    references: &References<'_>,
) -> Result<String, AllocError>
    ensures { IfOk result (λ text. string_bytes text ≡ html_text links references.now html.now) }
{
    let bytes = written(alloc, html.as_bytes(), links, references)?;
    let text = String::from_utf8_lossy(alloc, bytes.as_slice())?;
    Ok(text)
}

/// Returns the bytes of the text of HTML.
fn written(
    alloc: Global,
    html: &[u8],
    links: Links,
    references: &References<'_>,
) -> Result<Vec<u8>, AllocError>
    ensures { IfOk result (λ text. text.items ≡ written links references.now html.now) }
{
    match links {
        Links::Omitted => text_bytes(alloc, html, references),
        Links::Footnotes => linked_bytes(alloc, html, references),
    }
}
