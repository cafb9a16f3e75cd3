//! A directory in which files are saved.
ghost use Rattle.std.specs.Prelude.{◌≡◌, Bool, List, Option, Some, IfOk};
ghost use Rattle.mail_extract.specs.Directory.{Creates, File, has_copy};

use std::alloc::AllocError;
use std::io;

/// The result of creating a file.
#[derive(Debug, Drop)]
pub enum Created {
    /// The file was created.
    Made,
    /// The name is taken.
    Taken,
    /// The file could not be created.
    Failed(io::Error),
}

/// A directory in which files are saved. A contract sees its files, if the directory shows them,
/// and whether creating a file may fail if it has these files.
pub trait Directory {
    ghost held: { Self → Option (List File) };

    ghost can_fail: { List File → Bool };

    /// Creates a file with this name and these bytes, unless the name is taken.
    ///
    /// # Errors
    ///
    /// If it runs out of memory.
    ///
    /// # Examples
    ///
    /// ```rust
    /// use mail_extract::{Created, Directory, Disk};
    ///
    /// let mut disk = Disk {
    ///     rt: &rt,
    ///     path: "no/such/directory",
    /// };
    /// assert!(rt; matches!(disk.create("a.pdf", b"%PDF")?, Created::Failed(_)));
    /// ```
    fn create(&mut self, name: &str, bytes: &[u8]) -> Result<Created, AllocError>
        ensures { (files : List File) → held self.old ≡ Some files → IfOk result
            (Creates files name.now bytes.now can_fail (held self.new)) };

    /// Returns whether a file with this name has exactly these bytes. If it cannot be read, it has
    /// not.
    ///
    /// # Errors
    ///
    /// If it runs out of memory.
    ///
    /// # Examples
    ///
    /// ```rust
    /// use mail_extract::{Directory, Disk};
    ///
    /// let disk = Disk {
    ///     rt: &rt,
    ///     path: "no/such/directory",
    /// };
    /// assert!(rt; !disk.has("a.pdf", b"%PDF")?);
    /// ```
    fn has(&self, name: &str, bytes: &[u8]) -> Result<bool, AllocError>
        ensures { (files : List File) → held self.now ≡ Some files → IfOk result
            (λ is. is ≡ has_copy name.now bytes.now files) };
}
