//! Characters that are not shown as they are.
ghost use Rattle.std.specs.Prelude.{◌≡◌};
ghost use Rattle.mail_codec.specs.Hidden.{is_hidden};

/// Returns whether a character is not shown as it is on a terminal: a control, a separator of lines
/// or paragraphs, or a character that changes the direction of text (UAX 9, section 2). A text
/// without such characters neither moves the cursor nor begins a line.
///
/// Does not allocate.
///
/// # Examples
///
/// ```rust
/// use mail_codec::hidden::is_hidden;
///
/// assert!(rt; is_hidden('\n'));
/// assert!(rt; is_hidden('\u{202e}'));
/// assert!(rt; !is_hidden('a'));
/// ```
#[tactic(auto, unfolding(crate::specs::Hidden::is_hidden))]
pub fn is_hidden(c: char) -> bool
    ensures { result ≡ is_hidden c }
{
    matches!(
        c,
        '\0'..='\u{1f}'
            | '\u{7f}'..='\u{9f}'
            | '\u{61c}'
            | '\u{200e}'..='\u{200f}'
            | '\u{2028}'..='\u{202e}'
            | '\u{2066}'..='\u{2069}'
    )
}
