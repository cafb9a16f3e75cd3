//! Records of the uuencoded files in a text.
ghost use Rattle.std.specs.Prelude.{◌≡◌, ◌++◌, [], ◌∷◌, Ok, length, map, IfOk, OnOk};
ghost use Rattle.mail_data.specs.TextFileViews.{text_file_view};
ghost use Rattle.mail_records.specs.Codes.{IsCoded};
ghost use Rattle.mail_records.specs.Rows.{AppendsRows, ListsRows, rows_view};
ghost use Rattle.mail_records.specs.TextFiles.{file_record, file_text, files_read};
ghost use Rattle.mail_records.specs.TextFiles.{number_of, range_at};

use crate::codes::NO_MEMORY;
use crate::rows::Rows;
use mail_data::text_files::{TextFile, text_files};
use std::alloc::{AllocError, Global};

/// A uuencoded file in a text, as `struct rocktray_text_file`.
#[repr(C)]
#[derive(Clone, Copy)]
pub struct TextFileRecord {
    /// The start of its block in the text.
    pub block_start: u64,
    /// The end of its block.
    pub block_end: u64,
    /// The start of its name in the strings.
    pub name_start: u64,
    /// The end of its name.
    pub name_end: u64,
    /// The start of its bytes in the strings.
    pub content_start: u64,
    /// The end of its bytes.
    pub content_end: u64,
    /// Whether it is damaged: 1, or 0 if it is whole.
    pub is_damaged: u64,
}

/// Returns the records of the files in a text, of which at most `limit` blocks are read, or
/// `NO_MEMORY`.
///
/// # Errors
///
/// `NO_MEMORY` if it runs out of memory.
///
/// # Examples
///
/// ```rust
/// use mail_records::text_files::text_file_records;
///
/// let found = text_file_records(alloc, b"begin 644 cat.txt\n#0V%T\n`\nend\n", 1000)?;
/// assert_eq!(rt; found.strings.as_slice(), b"cat.txtCat".as_slice());
/// ```
pub fn text_file_records(
    alloc: Global,
    text: &[u8],
    limit: usize,
) -> Result<Rows<TextFileRecord>, u32>
    ensures { IsCoded rows_view result (Ok (files_read limit text.now)) }
{
    match records_in(alloc, text, limit) {
        Ok(found) => Ok(found),
        Err(_) => Err(NO_MEMORY),
    }
}

/// Returns the records of the files in a text, of which at most `limit` blocks are read.
fn records_in(alloc: Global, text: &[u8], limit: usize) -> Result<Rows<TextFileRecord>, AllocError>
    ensures { IfOk result (λ found. rows_view found ≡ files_read limit text.now) }
{
    let files = text_files(alloc, text, limit)?;
    let mut found = Rows {
        records: Vec::new(alloc),
        strings: Vec::new(alloc),
    };
    push_files(alloc, &mut found, files.as_slice())?;
    Ok(found)
}

/// Appends the records of files.
fn push_files(
    alloc: Global,
    found: &mut Rows<TextFileRecord>,
    files: &[TextFile<'_>],
) -> Result<(), AllocError>
    ensures { OnOk result (ListsRows file_record file_text (map text_file_view files.now)
        found.old found.new) }
{
    for file in files {
        push_file(alloc, found, file)?;
    }
    Ok(())
}

/// Appends the record of a file.
fn push_file(
    alloc: Global,
    found: &mut Rows<TextFileRecord>,
    file: &TextFile<'_>,
) -> Result<(), AllocError>
    ensures { OnOk result (AppendsRows file_record file_text (text_file_view file.now ∷ [])
        found.old found.new) }
{
    let name = file.file_name(alloc)?;
    let content = file.content(alloc)?;
    let named = push_bytes(&mut found.strings, name.as_bytes())?;
    let bytes = push_bytes(&mut found.strings, content.bytes.as_slice())?;
    found.records.push(TextFileRecord {
        block_start: file.block.start as u64,
        block_end: file.block.end as u64,
        name_start: named.0,
        name_end: named.1,
        content_start: bytes.0,
        content_end: bytes.1,
        is_damaged: number_of(content.fault.is_some()),
    })?;
    Ok(())
}

/// Appends bytes, and returns their range in the strings.
fn push_bytes(strings: &mut Vec<u8>, bytes: &[u8]) -> Result<(u64, u64), AllocError>
    ensures range { IfOk result (λ range. range ≡ range_at (length strings.old.items) bytes.now) }
    ensures written { OnOk result (strings.new.items ≡ strings.old.items ++ bytes.now) }
{
    let start = strings.len() as u64;
    strings.extend_from_slice(bytes)?;
    Ok((start, strings.len() as u64))
}

/// Returns 1 if something is so, and 0 if it is not.
fn number_of(is: bool) -> u64
    ensures { result ≡ number_of is }
{
    if is { 1 } else { 0 }
}
