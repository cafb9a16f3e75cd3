//! Saving a file in a directory.
ghost use Rattle.std.specs.Prelude.{◌≡◌, List, Some, false, is_some, string_bytes};
ghost use Rattle.std.specs.Prelude.{IfErr, IfOk, IfSome};
ghost use Rattle.mailparse.specs.Outcome.{IsMemory};
ghost use Rattle.mail_read.specs.FileNames.{IsSafeName};
ghost use Rattle.mail_parts.specs.DecodedViews.{IsDecoded, decoded_place};
ghost use Rattle.mail_extract.specs.ChoiceViews.{options_view};
ghost use Rattle.mail_extract.specs.ContentViews.{file_view};
ghost use Rattle.mail_extract.specs.Directory.{File};
ghost use Rattle.mail_extract.specs.Save.{IsKept, IsKeptNumbered, IsPut, IsSaved, Wanted};
ghost use Rattle.mail_extract.specs.Save.{wanted_as};
ghost use Rattle.mail_extract.specs.SaveViews.{kept_name, outcome};
ghost use Rattle.mail_extract.specs.declared.level.Level.{Level};
ghost use Rattle.mail_extract.specs.declared.options.Naming.TheVariants.{ByHash};

use crate::content::{Damage, FileContent, saved_content};
use crate::directory::{Created, Directory};
use crate::hash::wanted_hash;
use crate::names::numbered;
use crate::options::{Naming, SaveOptions, Target, target_name};
use mail_parts::Decoded;
use mailparse::MailParseError;
use std::alloc::{AllocError, Global};
use std::io::{self, ErrorKind};

/// A file of a mail that was saved or could not be.
#[derive(Debug, Drop)]
pub(crate) struct Saved {
    /// The path of its part in the mail, as IMAP numbers parts.
    pub path: String,
    /// The name under which it was saved, or `None`.
    pub name: Option<String>,
    /// The number of bytes that could be read.
    pub size: usize,
    /// The SHA-256 of the saved bytes in hexadecimal, if files are hashed.
    pub sha256: Option<String>,
    /// Why it was not saved, or not completely.
    pub error: Option<String>,
}

/// The result of saving bytes.
#[derive(Debug, Drop)]
enum Kept {
    /// They were saved under this name.
    As(String),
    /// They were not saved.
    Nowhere(io::Error),
}

/// Saves a part as a file with this wanted name.
pub(crate) fn save_part<D: Directory>(
    alloc: Global,
    target: &mut Target<D>,
    part: &Decoded<'_, '_, '_>,
    name: String,
    options: SaveOptions<'_>,
) -> Result<Saved, MailParseError>
    requires safe { IsSafeName (string_bytes name) }
    requires decoded { IsDecoded false part.now }
    ensures saved { IfOk result (λ saved. (level : Level) (files : List File)
        → D.held target.old.directory ≡ Some files
        → (now : List File) × (D.held target.new.directory ≡ Some now)
        × IsSaved D.can_fail (options_view options.entry) files
        (wanted_as level (decoded_place part.now) (string_bytes name))
        target.old.number (outcome saved) target.new.number now) }
    ensures safe { IfOk result (λ saved. IfSome (outcome saved).saved IsSafeName) }
    ensures only_memory { IfErr result IsMemory }
{
    let content = saved_content(alloc, part)?;
    let path = String::from_str(alloc, part.place.path.as_str())?;
    Ok(save_file(alloc, target, path, &content, name, options)?)
}

/// Saves a file with this path, content and wanted name. Once it has its name nothing is allocated
/// any more, so that its line can be written.
pub(crate) fn save_file<D: Directory>(
    alloc: Global,
    target: &mut Target<D>,
    path: String,
    content: &FileContent<'_>,
    name: String,
    options: SaveOptions<'_>,
) -> Result<Saved, AllocError>
    requires { IsSafeName (string_bytes name) }
    ensures saved { IfOk result (λ saved. (wanted : Wanted) (files : List File)
        → wanted.path ≡ string_bytes path → wanted.name ≡ string_bytes name
        → wanted.content ≡ file_view content.now
        → D.held target.old.directory ≡ Some files
        → (now : List File) × (D.held target.new.directory ≡ Some now)
        × IsSaved D.can_fail (options_view options.entry) files wanted
        target.old.number (outcome saved) target.new.number now) }
    ensures safe { IfOk result (λ saved. IfSome (outcome saved).saved IsSafeName) }
{
    let bytes = content.bytes.as_slice();
    let name = target_name(alloc, name, bytes, options.naming)?;
    let sha256 = wanted_hash(alloc, bytes, options.hashing)?;
    let damage = text_of(alloc, content.damage, content.ignored)?;
    let size = bytes.len();
    let (directory, number) = (&mut target.directory, &mut target.number);
    match put(alloc, directory, number, name, bytes, options.naming)? {
        Kept::As(name) => Ok(Saved {
            path,
            name: Some(name),
            size,
            sha256,
            error: damage,
        }),
        Kept::Nowhere(error) => Ok(Saved {
            path,
            name: None,
            size,
            sha256: None,
            error: Some(format!(in alloc; "{error}")?),
        }),
    }
}

/// The text of damage, with the number of bytes that were ignored, if there are any.
fn text_of(
    alloc: Global,
    damage: Option<Damage>,
    ignored: usize,
) -> Result<Option<String>, AllocError>
    ensures { IfOk result (λ text. is_some text ≡ is_some damage) }
{
    let Some(damage) = damage else {
        return Ok(None);
    };
    let error = damage.error();
    if ignored == 0 {
        return Ok(Some(format!(in alloc; "{error}")?));
    }
    Ok(Some(format!(in alloc; "{error}; bytes ignored: {ignored}")?))
}

/// Creates a file. If its name is the hash of its bytes, copies of it are created once.
fn put<D: Directory>(
    alloc: Global,
    directory: &mut D,
    number: &mut u64,
    name: String,
    bytes: &[u8],
    naming: Naming,
) -> Result<Kept, AllocError>
    requires { IsSafeName (string_bytes name) }
    ensures kept { IfOk result (λ kept. (files : List File) → D.held directory.old ≡ Some files →
        (now : List File) × (D.held directory.new ≡ Some now)
        × IsPut D.can_fail (string_bytes name) naming files bytes.now number.old
        (kept_name kept) number.new now) }
    ensures safe { IfOk result (λ kept. IfSome (kept_name kept) IsSafeName) }
{
    match naming {
        Naming::BySender => keep(alloc, directory, number, name, bytes, naming),
        Naming::ForWindows => keep(alloc, directory, number, name, bytes, naming),
        Naming::ByHash => keep_once(alloc, directory, number, name, bytes),
    }
}

/// Creates a file whose name is the hash of its bytes, unless a file with that name has them.
/// Whether one has is asked after the file could not be created, since another run may have made it
/// at any time before.
#[tactic(auto, using(crate::proofs::lemmas::Save::no_copy))]
fn keep_once<D: Directory>(
    alloc: Global,
    directory: &mut D,
    number: &mut u64,
    name: String,
    bytes: &[u8],
) -> Result<Kept, AllocError>
    requires { IsSafeName (string_bytes name) }
    ensures kept { IfOk result (λ kept. (files : List File) → D.held directory.old ≡ Some files →
        (now : List File) × (D.held directory.new ≡ Some now)
        × IsPut D.can_fail (string_bytes name) ByHash files bytes.now number.old
        (kept_name kept) number.new now) }
    ensures safe { IfOk result (λ kept. IfSome (kept_name kept) IsSafeName) }
{
    match directory.create(name.as_str(), bytes)? {
        Created::Made => Ok(Kept::As(name)),
        Created::Taken => {
            if directory.has(name.as_str(), bytes)? {
                return Ok(Kept::As(name));
            }
            let naming = Naming::ByHash;
            keep_numbered(alloc, directory, number, name.as_str(), bytes, naming)
        }
        Created::Failed(error) => {
            let is_there = directory.has(name.as_str(), bytes)?;
            if is_there {
                return Ok(Kept::As(name));
            }
            Ok(Kept::Nowhere(error))
        }
    }
}

/// Creates a file with this name, or if that is taken, with the name and the next free number.
fn keep<D: Directory>(
    alloc: Global,
    directory: &mut D,
    number: &mut u64,
    name: String,
    bytes: &[u8],
    naming: Naming,
) -> Result<Kept, AllocError>
    requires { IsSafeName (string_bytes name) }
    ensures kept { IfOk result (λ kept. (files : List File) → D.held directory.old ≡ Some files →
        (now : List File) × (D.held directory.new ≡ Some now)
        × IsKept D.can_fail naming (string_bytes name) files bytes.now number.old
        (kept_name kept) number.new now) }
    ensures safe { IfOk result (λ kept. IfSome (kept_name kept) IsSafeName) }
{
    match directory.create(name.as_str(), bytes)? {
        Created::Made => Ok(Kept::As(name)),
        Created::Taken => { keep_numbered(alloc, directory, number, name.as_str(), bytes, naming) }
        Created::Failed(error) => Ok(Kept::Nowhere(error)),
    }
}

/// Creates a file with this name and the next free number.
fn keep_numbered<D: Directory>(
    alloc: Global,
    directory: &mut D,
    number: &mut u64,
    name: &str,
    bytes: &[u8],
    naming: Naming,
) -> Result<Kept, AllocError>
    ensures kept { IfOk result (λ kept. (files : List File) → D.held directory.old ≡ Some files →
        (now : List File) × (D.held directory.new ≡ Some now)
        × IsKeptNumbered D.can_fail naming name.now files bytes.now number.old
        (kept_name kept) number.new now) }
    ensures safe { IfOk result (λ kept. IfSome (kept_name kept) IsSafeName) }
{
    for next in *number..u64::MAX {
        *number = next + 1;
        let name = numbered(alloc, name, next, naming)?;
        match directory.create(name.as_str(), bytes)? {
            Created::Made => return Ok(Kept::As(name)),
            Created::Taken => {}
            Created::Failed(error) => return Ok(Kept::Nowhere(error)),
        }
    }
    Ok(Kept::Nowhere(io::Error::from(ErrorKind::AlreadyExists)))
}
