//! What the arguments ask for.

use mail_program::{Argument, Expected};

/// What `--help` prints.
pub const HELP: &str = "Shows a mail: its parts, the headers of each, and the sizes of their bodies.

    mail_show < MAIL     the mail on standard input, which `-` names too
    mail_show FILE       the mail in the file
    mail_show --version, mail_show --help

The argument after `--` is the name of a file, even if it begins with `-`. The exit status is 1 if
the mail is refused or something could not be read or written, and 2 if the arguments are wrong.
Control characters of a value are shown as they are, so a mail can move the cursor of a terminal or
forge a line: `mail_show FILE | cat -v` shows them as text.
";

/// What wrong arguments print.
pub const USAGE: &str = "usage: mail_show [FILE]";

/// The task of a run.
#[derive(Clone, Copy, Debug, PartialEq, Eq)]
pub enum Request<'a> {
    /// Print the help.
    Help,
    /// Print the version.
    Version,
    /// Print the usage, since the arguments are wrong.
    Wrong,
    /// Show the mail on standard input.
    Input,
    /// Show the mail in the file of this name.
    File(&'a str),
}

/// Returns what these arguments ask for. The first one that asks for help or for the version, or is
/// wrong, decides.
pub fn request_of(arguments: &[String]) -> Request<'_> {
    let mut request = Request::Input;
    let mut is_named = false;
    let mut expected = Expected::Any;
    for argument in arguments {
        let named = match Argument::new(argument.as_str(), expected) {
            Argument::Help => return Request::Help,
            Argument::Version => return Request::Version,
            Argument::Option(_) | Argument::Empty => return Request::Wrong,
            Argument::Names => {
                expected = Expected::Names;
                continue;
            }
            Argument::Input => Request::Input,
            Argument::File(name) => Request::File(name),
        };
        if is_named {
            return Request::Wrong;
        }
        is_named = true;
        request = named;
    }
    request
}
