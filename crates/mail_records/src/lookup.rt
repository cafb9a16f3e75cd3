//! Looking up the headers of a part by names that are ASCII.
ghost use Rattle.std.specs.Prelude.{◌≡◌};
ghost use Rattle.std.specs.Option.{option_copied};
ghost use Rattle.std.specs.Str.{IsAscii, str_eq_ignore_ascii_case};
ghost use Rattle.mail_codec.specs.Latin1.{latin1_text};
ghost use Rattle.mailparse.specs.Mail.{root};
ghost use Rattle.mailparse.specs.Map.{first_with_key};
ghost use Rattle.mailparse.specs.Views.{tree_of};

use mailparse::{MailHeader, ParsedMail};

/// Returns the first header of a part with this name. Inlined, so that most keys are ruled out by
/// comparing their lengths with a constant.
#[inline(always)]
pub(crate) fn first_header<'m, 'a>(
    part: &'m ParsedMail<'a>,
    name: &str,
) -> Option<&'m MailHeader<'a>>
    requires { IsAscii name.now }
    ensures { option_copied result ≡ first_with_key name.now (root (tree_of part.now)).headers }
{
    for header in part.headers.as_slice() {
        if is_named(header.get_key_raw(), name) {
            return Some(header);
        }
    }
    None
}

/// Returns whether a key is this name, ignoring case. Most keys are written as the name is.
#[inline(always)]
fn is_named(key: &[u8], name: &str) -> bool
    requires { IsAscii name.now }
    ensures { result ≡ str_eq_ignore_ascii_case (latin1_text key.now) name.now }
{
    let wanted = name.as_bytes();
    if key.len() != wanted.len() {
        return false;
    }
    key == wanted || key.eq_ignore_ascii_case(wanted)
}
