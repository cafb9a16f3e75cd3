//! Tables of names, in which ASCII case is ignored.
ghost use Rattle.std.specs.Prelude.{◌≡◌, map};
ghost use Rattle.std.specs.Str.{str_eq_ignore_ascii_case};
ghost use Rattle.mail_codec.specs.Names.{look_up, row_view};

/// Returns the value of the first row whose name is the word, ignoring ASCII case, or `None` if
/// there is none.
///
/// Does not allocate.
///
/// # Examples
///
/// ```rust
/// use mail_codec::names::look_up;
///
/// let colors = [("red", 1), ("green", 2)];
/// assert_eq!(rt; look_up(&colors, b"Green"), Some(2));
/// assert!(rt; look_up(&colors, b"blue").is_none());
/// ```
pub fn look_up<T: Copy>(table: &[(&str, T)], word: &[u8]) -> Option<T>
    ensures { result ≡ look_up (map row_view table.now) word.now }
{
    for (name, value) in table {
        if is_same(word, name) {
            return Some(*value);
        }
    }
    None
}

/// Whether a word is a name, ignoring ASCII case.
fn is_same(word: &[u8], name: &str) -> bool
    ensures { result ≡ str_eq_ignore_ascii_case word.now name.now }
{
    word.eq_ignore_ascii_case(name.as_bytes())
}
