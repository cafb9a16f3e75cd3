//! The names under which files are saved.
ghost use Rattle.std.specs.Prelude.{◌≡◌, IfOk, string_bytes};
ghost use Rattle.mail_codec.specs.Places.{begins};
ghost use Rattle.mailparse.specs.Map.{text_found};
ghost use Rattle.mail_read.specs.FileNames.{IsSafeName};
ghost use Rattle.mail_extract.specs.Names.{IsNumbered, IsNumberedBefore, is_refused_first};
ghost use Rattle.mail_extract.specs.Names.{made_name, visible_name, wanted_name};

use crate::options::Naming;
use mail_read::files::{safe_file_name, windows_file_name};
use std::alloc::{AllocError, Global};

/// The greatest number of bytes of a name before a number.
const MOST_STEM: usize = 200;

/// Returns the wanted name of a file with this name from its sender, or of one without a name and
/// with this ending.
///
/// # Errors
///
/// If it runs out of memory.
pub fn wanted_name(alloc: Global, name: Option<String>, ending: &str) -> Result<String, AllocError>
    ensures read { IfOk result (λ text.
        string_bytes text ≡ wanted_name (text_found name) ending.now) }
    ensures safe { IfOk result (λ text. IsSafeName (string_bytes text)) }
{
    match name {
        Some(name) => visible_name(alloc, name.as_str()),
        None => {
            let name = format!(in alloc; "unnamed{ending}")?;
            let visible = visible_name(alloc, name.as_str())?;
            Ok(visible)
        }
    }
}

/// Returns a safe name, with `_` before one that begins with `.` or `-`.
#[tactic(auto, unfolding(crate::specs::Names::visible_name))]
fn visible_name(alloc: Global, name: &str) -> Result<String, AllocError>
    ensures read { IfOk result (λ text. string_bytes text ≡ visible_name name.now) }
    ensures safe { IfOk result (λ text. IsSafeName (string_bytes text)) }
{
    if is_refused_first(name.as_bytes()) {
        let name = format!(in alloc; "_{name}")?;
        let safe = safe_file_name(alloc, name.as_str())?;
        return Ok(safe);
    }
    let safe = safe_file_name(alloc, name)?;
    Ok(safe)
}

/// Returns whether a name begins with `.` or `-`.
fn is_refused_first(name: &[u8]) -> bool
    ensures { result ≡ begins is_refused_first name.now }
{
    match name {
        [first, ..] => *first == b'.' || *first == b'-',
        [] => false,
    }
}

/// Returns a name with a hyphen and a number before its ending.
///
/// # Errors
///
/// If it runs out of memory.
pub fn numbered(
    alloc: Global,
    name: &str,
    number: u64,
    naming: Naming,
) -> Result<String, AllocError>
    ensures read { IfOk result (λ text.
        IsNumbered naming name.now number (string_bytes text)) }
    ensures safe { IfOk result (λ text. IsSafeName (string_bytes text)) }
{
    match name.rsplit_once('.') {
        Some((stem, rest)) => {
            let ending = format!(in alloc; ".{rest}")?;
            let text = numbered_before(alloc, stem, number, ending.as_str(), naming)?;
            Ok(text)
        }
        None => {
            let text = numbered_before(alloc, name, number, "", naming)?;
            Ok(text)
        }
    }
}

/// Returns a text with a hyphen and a number before an ending.
fn numbered_before(
    alloc: Global,
    stem: &str,
    number: u64,
    ending: &str,
    naming: Naming,
) -> Result<String, AllocError>
    ensures read { IfOk result (λ text.
        IsNumberedBefore naming stem.now ending.now number (string_bytes text)) }
    ensures safe { IfOk result (λ text. IsSafeName (string_bytes text)) }
{
    let (front, _) = stem.split_at(stem.floor_char_boundary(MOST_STEM));
    let text = format!(in alloc; "{front}-{number}{ending}")?;
    let made = made_name(alloc, text.as_str(), naming)?;
    Ok(made)
}

/// Returns a name made safe, or a name that Windows takes if that is asked for.
fn made_name(alloc: Global, name: &str, naming: Naming) -> Result<String, AllocError>
    ensures read { IfOk result (λ text. string_bytes text ≡ made_name naming name.now) }
    ensures safe { IfOk result (λ text. IsSafeName (string_bytes text)) }
{
    match naming {
        Naming::BySender => {
            let made = safe_file_name(alloc, name)?;
            Ok(made)
        }
        Naming::ForWindows => {
            let taken = windows_file_name(alloc, name)?;
            Ok(taken)
        }
        Naming::ByHash => {
            let made = safe_file_name(alloc, name)?;
            Ok(made)
        }
    }
}
