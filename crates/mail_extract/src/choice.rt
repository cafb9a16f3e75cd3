//! Which files are saved, of those of a mail.
ghost use Rattle.std.specs.Prelude.{◌≡◌, true, IfOk};
ghost use Rattle.std.specs.Option.{option_map_or};
ghost use Rattle.std.specs.Str.{bytes_eq};
ghost use Rattle.mail_extract.specs.Choice.{fits, keeps};
ghost use Rattle.mail_extract.specs.ChoiceViews.{choice_view};

use crate::pattern::fits;
use std::alloc::{AllocError, Global};

/// Which files are saved: those that agree with each member that is given.
///
/// In a pattern, `*` fits any text, even none, and each other character itself. ASCII case is
/// ignored.
#[derive(Clone, Copy, Debug, PartialEq, Eq)]
pub struct Choice<'c> {
    /// The path of the part.
    pub path: Option<&'c str>,
    /// A pattern for its type, such as `image/*`.
    pub mimetype: Option<&'c str>,
    /// A pattern for its name, made safe and without a number, such as `*.pdf`.
    pub name: Option<&'c str>,
}

impl<'c> Choice<'c> {
    /// Returns whether a file of the part with this path and this type, and with this name, is
    /// saved.
    ///
    /// Allocates while it works, in proportion to the type and the name.
    ///
    /// # Errors
    ///
    /// If it runs out of memory.
    ///
    /// # Examples
    ///
    /// ```rust
    /// use mail_extract::Choice;
    ///
    /// let choice = Choice { path: None, mimetype: Some("image/*"), name: Some("*.PNG") };
    /// assert!(rt; choice.keeps(alloc, "2", "image/png", "a.png")?);
    /// assert!(rt; !choice.keeps(alloc, "2", "image/png", "a.png.exe")?);
    /// ```
    #[tactic(auto, unfolding(crate::specs::Choice::keeps))]
    pub fn keeps(
        &self,
        alloc: Global,
        path: &str,
        mimetype: &str,
        name: &str,
    ) -> Result<bool, AllocError>
        ensures { IfOk result (λ is.
            is ≡ keeps (choice_view self.now) path.now mimetype.now name.now) }
    {
        let is_type = fits_wanted(alloc, self.mimetype, mimetype)?;
        let is_name = fits_wanted(alloc, self.name, name)?;
        Ok(is_wanted(self.path, path) && is_type && is_name)
    }
}

/// Returns whether a text is the wanted one, if one is wanted.
fn is_wanted(wanted: Option<&str>, text: &str) -> bool
    ensures { result ≡ option_map_or (λ wanted. bytes_eq wanted.now text.now) wanted.entry true }
{
    match wanted {
        Some(wanted) => wanted == text,
        None => true,
    }
}

/// Returns whether a text fits the pattern, if one is given.
fn fits_wanted(alloc: Global, pattern: Option<&str>, text: &str) -> Result<bool, AllocError>
    ensures { IfOk result (λ is.
        is ≡ option_map_or (λ pattern. fits pattern.now text.now) pattern.entry true) }
{
    match pattern {
        Some(pattern) => fits(alloc, pattern.as_bytes(), text.as_bytes()),
        None => Ok(true),
    }
}
