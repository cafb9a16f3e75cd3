//! The text of HTML, for search and for reading.
//!
//! Tags, attributes, comments and character references are read as in the HTML Standard (section
//! 13.2.5); RULES.md, "The text of HTML", lists the differences. There is no tree, no style and no
//! rendering, and nothing here makes HTML safe.
//!
//! The examples assume a function that has the runtime `rt` and its allocator `alloc`.
//!
//! # Examples
//!
//! ```rust
//! use mail_html::{Links, References, html_text};
//!
//! let references = References::standard();
//! let text = html_text(alloc, "<p>Fish &amp;\n chips</p><p>Tea", Links::Omitted, &references)?;
//! assert_eq!(rt; text.as_str(), "Fish & chips\n\nTea");
//! ```
#![tactic(auto)]

mod elements;
mod html;
pub mod laws;
mod layout;
mod links;
mod named;
mod references;
mod scans;
mod tags;
mod text;

pub use self::links::Links;
pub use self::references::References;
pub use self::text::html_text;
