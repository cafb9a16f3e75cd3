//! The entries of directories.

use crate::names::text_of;
use mail_program::{Fault, read_input};
use std::alloc::{AllocError, Global};
use std::rt::Files;
use std::{fs, io};

/// What an entry of a directory is.
#[derive(Clone, Copy, Debug, PartialEq, Eq)]
pub(crate) enum Kind {
    /// A regular file, or a symbolic link to one.
    File,
    /// A directory.
    Directory,
    /// A symbolic link to a directory.
    Linked,
    /// A pipe, a socket or a device, which could block a read, or a symbolic link to one.
    Other,
}

/// Returns what is at this path.
///
/// # Errors
///
/// If nothing is there, or it cannot be reached.
pub(crate) fn kind_of(rt: &impl Files, path: &str) -> io::Result<Kind> {
    let found = fs::symlink_metadata(rt, path)?;
    if found.is_dir() {
        return Ok(Kind::Directory);
    }
    if found.is_file() {
        return Ok(Kind::File);
    }
    let target = fs::metadata(rt, path)?;
    if target.is_dir() {
        Ok(Kind::Linked)
    } else if target.is_file() {
        Ok(Kind::File)
    } else {
        Ok(Kind::Other)
    }
}

/// Returns whether there is a directory at this path, or a symbolic link to one.
///
/// Does not allocate.
///
/// # Examples
///
/// ```rust
/// use mail_inputs::is_directory;
///
/// assert!(rt; is_directory(&rt, "/"));
/// assert!(rt; !is_directory(&rt, "no/such/directory"));
/// ```
pub fn is_directory(rt: &impl Files, path: &str) -> bool {
    match fs::metadata(rt, path) {
        Ok(found) => found.is_dir(),
        Err(_) => false,
    }
}

/// Returns the paths of the entries of a directory in the order of their bytes. One that is not
/// UTF-8 is as `arguments` returns it.
///
/// # Errors
///
/// `Fault::Input` if the directory cannot be read, and `Fault::Mail` with `MailParseError::Memory`
/// if it runs out of memory.
pub(crate) fn entries<R: Files + AllocGlobal>(rt: &R, path: &str) -> Result<Vec<String>, Fault> {
    let directory = entry(rt.alloc(), path, "")?;
    let names = match rt.open_dir(directory.as_str()) {
        Ok(mut names) => read_input(rt.alloc(), &mut names)?,
        Err(error) => return Err(Fault::Input(error)),
    };
    let mut paths = Vec::new(rt.alloc());
    for name in names.as_slice().split(|byte| *byte == 0) {
        push_path(rt.alloc(), &mut paths, directory.as_str(), name)?;
    }
    paths.sort()?;
    Ok(paths)
}

/// Returns the path of an entry of a directory.
pub(crate) fn entry(alloc: Global, directory: &str, name: &str) -> Result<String, AllocError> {
    if directory.ends_with('/') {
        format!(in alloc; "{directory}{name}")
    } else {
        format!(in alloc; "{directory}/{name}")
    }
}

/// Adds the path of an entry, unless that is the directory itself or the one above it.
fn push_path(
    alloc: Global,
    paths: &mut Vec<String>,
    directory: &str,
    name: &[u8],
) -> Result<(), AllocError> {
    if name.is_empty() || name == b".".as_slice() || name == b"..".as_slice() {
        return Ok(());
    }
    let name = text_of(alloc, name)?;
    paths.push(entry(alloc, directory, name.as_str())?)?;
    Ok(())
}

/// Adds a path to a list.
pub(crate) fn push(alloc: Global, paths: &mut Vec<String>, path: &str) -> Result<(), AllocError> {
    paths.push(String::from_str(alloc, path)?)?;
    Ok(())
}

/// Returns the name of an entry from its path.
pub(crate) fn name_of(path: &str) -> &str {
    match path.rsplit_once('/') {
        Some((_, name)) => name,
        None => path,
    }
}
