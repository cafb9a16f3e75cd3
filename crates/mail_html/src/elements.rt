//! Kinds of elements by their names.
ghost use Rattle.std.specs.Prelude.{◌≡◌, ℕ, List};
ghost use Rattle.mail_html.specs.Elements.{add_tag, gap_past, is_kept_past, kind_of};
ghost use Rattle.mail_html.specs.Layout.{state_of};

use crate::layout::{Gap, Layout, one_more_line, wider};
use mail_codec::names::look_up;

/// How an element affects the text.
#[derive(Clone, Copy)]
pub(crate) enum Kind {
    /// Not at all.
    Inline,
    /// There is a tab around it.
    Cell,
    /// It is on lines of its own.
    Block,
    /// There are blank lines around it.
    Paragraph,
    /// It ends a line.
    Break,
    /// A paragraph whose whitespace is kept.
    Preformatted,
    /// It has an alternative text.
    Image,
    /// Its contents are hidden.
    Hidden,
    /// Its contents are hidden, unless its tag closes itself.
    Foreign,
}

/// The names of elements, each with its kind, the frequent ones first; those that are not here are
/// inline.
static ELEMENTS: [(&str, Kind); 77] = [
    ("p", Kind::Paragraph),
    ("td", Kind::Cell),
    ("br", Kind::Break),
    ("div", Kind::Block),
    ("a", Kind::Inline),
    ("tr", Kind::Block),
    ("span", Kind::Inline),
    ("font", Kind::Inline),
    ("b", Kind::Inline),
    ("img", Kind::Image),
    ("html", Kind::Block),
    ("body", Kind::Block),
    ("head", Kind::Block),
    ("table", Kind::Block),
    ("meta", Kind::Inline),
    ("style", Kind::Hidden),
    ("strong", Kind::Inline),
    ("title", Kind::Paragraph),
    ("tbody", Kind::Block),
    ("center", Kind::Block),
    ("i", Kind::Inline),
    ("u", Kind::Inline),
    ("em", Kind::Inline),
    ("li", Kind::Block),
    ("ul", Kind::Block),
    ("link", Kind::Inline),
    ("pre", Kind::Preformatted),
    ("hr", Kind::Paragraph),
    ("h1", Kind::Paragraph),
    ("h2", Kind::Paragraph),
    ("h3", Kind::Paragraph),
    ("th", Kind::Cell),
    ("script", Kind::Hidden),
    ("ol", Kind::Block),
    ("h4", Kind::Paragraph),
    ("h5", Kind::Paragraph),
    ("h6", Kind::Paragraph),
    ("blockquote", Kind::Paragraph),
    ("address", Kind::Block),
    ("article", Kind::Block),
    ("aside", Kind::Block),
    ("caption", Kind::Block),
    ("dd", Kind::Block),
    ("details", Kind::Block),
    ("dialog", Kind::Block),
    ("dir", Kind::Block),
    ("dl", Kind::Block),
    ("dt", Kind::Block),
    ("fieldset", Kind::Block),
    ("figcaption", Kind::Block),
    ("figure", Kind::Block),
    ("footer", Kind::Block),
    ("form", Kind::Block),
    ("header", Kind::Block),
    ("hgroup", Kind::Block),
    ("iframe", Kind::Hidden),
    ("legend", Kind::Block),
    ("listing", Kind::Preformatted),
    ("main", Kind::Block),
    ("math", Kind::Foreign),
    ("menu", Kind::Block),
    ("nav", Kind::Block),
    ("noembed", Kind::Hidden),
    ("noframes", Kind::Hidden),
    ("noscript", Kind::Hidden),
    ("optgroup", Kind::Block),
    ("option", Kind::Block),
    ("search", Kind::Block),
    ("section", Kind::Block),
    ("select", Kind::Block),
    ("summary", Kind::Block),
    ("svg", Kind::Foreign),
    ("template", Kind::Hidden),
    ("textarea", Kind::Block),
    ("tfoot", Kind::Block),
    ("thead", Kind::Block),
    ("xmp", Kind::Preformatted),
];

/// Returns the kind of the element with a name, ignoring ASCII case.
pub(crate) fn kind_of(name: &[u8]) -> Kind
    ensures { result ≡ kind_of name.now }
{
    look_up(&ELEMENTS, name).unwrap_or(Kind::Inline)
}

/// Returns the gap after the start or end tag of an element.
fn gap_past(kind: Kind, gap: Gap) -> Gap
    ensures { result ≡ gap_past kind gap }
{
    match kind {
        Kind::Break => one_more_line(gap),
        Kind::Cell => wider(gap, Gap::Tab),
        Kind::Block => wider(gap, Gap::LineEnd),
        Kind::Paragraph => wider(gap, Gap::BlankLine),
        Kind::Preformatted => wider(gap, Gap::BlankLine),
        _ => gap,
    }
}

/// Returns whether whitespace is kept after the start tag, or the end tag, of an element.
fn is_kept_past(kind: Kind, is_start: bool, is_kept: bool) -> bool
    ensures { result ≡ is_kept_past kind is_start is_kept }
{
    match kind {
        Kind::Preformatted => is_start,
        _ => is_kept,
    }
}

/// Returns the layout after the start tag, or the end tag, of an element.
pub(crate) fn add_tag(is_start: bool, kind: Kind, layout: Layout) -> Layout
    ensures { (text : List ℕ) →
        state_of text result ≡ add_tag is_start kind (state_of text layout) }
{
    Layout {
        gap: gap_past(kind, layout.gap),
        is_kept: is_kept_past(kind, is_start, layout.is_kept),
    }
}
