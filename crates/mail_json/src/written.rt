//! Whether an error is among the lines that were written.
ghost use Rattle.std.specs.Prelude.{◌≡◌, ◌&&◌};
ghost use Rattle.mail_json.specs.Written.{is_clean};

/// Whether an error is among the lines that were written.
#[derive(Clone, Copy, Debug, PartialEq, Eq)]
pub enum Written {
    /// No error is among them.
    Clean,
    /// An error is among them.
    WithErrors,
}

impl Written {
    /// Returns this for these lines and further ones together.
    pub(crate) fn and(self, other: Written) -> Written
        ensures { is_clean result ≡ (is_clean self && is_clean other) }
    {
        match self {
            Written::Clean => other,
            Written::WithErrors => Written::WithErrors,
        }
    }
}
