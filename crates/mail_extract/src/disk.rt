//! A directory of the file system.
ghost use Rattle.std.specs.Prelude.{true, None};

use crate::directory::{Created, Directory};
use std::alloc::AllocError;
use std::fs::{self, File};
use std::io::{self, ErrorKind, Read, Write};
use std::rt::Files;

/// The error of an incomplete file that could not be removed.
const STAYS: &str = "the file could neither be written completely nor removed";

/// The error if every hidden name is taken.
const NO_NAME: &str = "no name is free for the file while it is written";

/// The number of hidden names that are tried.
const HIDDEN_NAMES: u32 = 1000;

/// The largest number of bytes that one read returns.
const BLOCK: usize = 64 * 1024;

/// A directory of the file system. No contract sees its files.
#[derive(Debug, Drop)]
pub struct Disk<'r, R> {
    /// The runtime, for the file system.
    pub rt: &'r R,
    /// The path of the directory.
    pub path: &'r str,
}

impl<'r, R: Files + AllocGlobal> Disk<'r, R> {
    /// Returns the path of the file with this name.
    fn path_of(&self, name: &str) -> Result<String, AllocError> {
        let directory = self.path;
        format!(in self.rt.alloc(); "{directory}/{name}")
    }
}

impl<'r, R: Files + AllocGlobal> Directory for Disk<'r, R> {
    ghost held = { λ disk. None };

    ghost can_fail = { λ files. true };

    /// The bytes are written to a file with a hidden name, `.rocktray-0`. Only when it is whole
    /// does it get its name, by a link, so that it replaces nothing. If it could not be written
    /// completely, it is removed, or the error says that it stays.
    fn create(&mut self, name: &str, bytes: &[u8]) -> Result<Created, AllocError> {
        let path = self.path_of(name)?;
        if fs::symlink_metadata(self.rt, path.as_str()).is_ok() {
            return Ok(Created::Taken);
        }
        for number in 0..HIDDEN_NAMES {
            let hidden = format!(in self.rt.alloc(); ".rocktray-{number}")?;
            let hidden = self.path_of(hidden.as_str())?;
            match File::create_new(self.rt, hidden.as_str()) {
                Ok(file) => {
                    return Ok(write_new(self.rt, file, hidden.as_str(), path.as_str(), bytes));
                }
                Err(error) if error.kind() == ErrorKind::AlreadyExists => {}
                Err(error) => return Ok(Created::Failed(error)),
            }
        }
        Ok(Created::Failed(io::Error::other(NO_NAME)))
    }

    /// Compares the file in blocks if it is a regular one with as many bytes, or a symbolic link to
    /// one. Nothing else is opened, since that of a FIFO would wait.
    fn has(&self, name: &str, bytes: &[u8]) -> Result<bool, AllocError> {
        let path = self.path_of(name)?;
        if !is_file_of(self.rt, path.as_str(), bytes.len()) {
            return Ok(false);
        }
        let buffer = vec![in self.rt.alloc(); 0u8; BLOCK]?;
        Ok(matches!(is_same(self.rt, path.as_str(), bytes, buffer), Ok(true)))
    }
}

/// Returns whether a regular file with this length is at this path, or a symbolic link to one.
fn is_file_of(rt: &impl Files, path: &str, len: usize) -> bool {
    match fs::metadata(rt, path) {
        Ok(found) => found.is_file() && found.len() == len as u64,
        Err(_) => false,
    }
}

/// Returns whether the file at this path has exactly these bytes, read in blocks into a buffer.
fn is_same(rt: &impl Files, path: &str, bytes: &[u8], mut buffer: Vec<u8>) -> io::Result<bool> {
    let mut file = fs::open(rt, path)?;
    let mut left = bytes;
    for _turn in 0..u64::MAX {
        let count = match file.read(buffer.as_mut_slice()) {
            Ok(count) => count,
            Err(error) if error.kind() == ErrorKind::Interrupted => continue,
            Err(error) => return Err(error),
        };
        if count == 0 {
            return Ok(left.is_empty());
        }
        let Some(rest) = left.strip_prefix(&buffer[..count]) else {
            return Ok(false);
        };
        left = rest;
    }
    Ok(false)
}

/// Writes a new file under its hidden path, and then gives it its own path unless that is taken.
fn write_new<R: Files>(
    rt: &R,
    mut file: R::File,
    hidden: &str,
    path: &str,
    bytes: &[u8],
) -> Created {
    let named = match file.write_all(bytes) {
        Ok(()) => give_name(rt, hidden, path),
        Err(error) => Created::Failed(error),
    };
    match (fs::remove_file(rt, hidden), named) {
        (Err(error), Created::Failed(_)) if error.kind() != ErrorKind::NotFound => {
            Created::Failed(io::Error::other(STAYS))
        }
        (_, named) => named,
    }
}

/// Gives a file a path, unless that is taken. Where the file system has no links, an empty file
/// takes the path first, and the file then replaces it.
fn give_name(rt: &impl Files, hidden: &str, path: &str) -> Created {
    match fs::hard_link(rt, hidden, path) {
        Ok(()) => return Created::Made,
        Err(error) if error.kind() == ErrorKind::AlreadyExists => return Created::Taken,
        Err(_) => {}
    }
    match File::create_new(rt, path) {
        Ok(_) => {}
        Err(error) if error.kind() == ErrorKind::AlreadyExists => return Created::Taken,
        Err(error) => return Created::Failed(error),
    }
    match fs::rename(rt, hidden, path) {
        Ok(()) => Created::Made,
        Err(error) => {
            let _ = fs::remove_file(rt, path);
            Created::Failed(error)
        }
    }
}
