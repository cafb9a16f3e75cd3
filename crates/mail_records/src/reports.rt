//! Records of the fields of a report.
ghost use Rattle.std.specs.Prelude.{◌≡◌, [], ◌∷◌, map, option_map, IfOk, OnOk};
ghost use Rattle.mailparse.specs.Mail.{root};
ghost use Rattle.mailparse.specs.Views.{tree_of};
ghost use Rattle.mail_data.specs.Reports.{report_blocks};
ghost use Rattle.mail_data.specs.ReportViews.{block_view, field_view};
ghost use Rattle.mail_records.specs.Codes.{IsCoded};
ghost use Rattle.mail_records.specs.Reports.{block_entries, blocks_read, entries_from};
ghost use Rattle.mail_records.specs.Reports.{entry_record, entry_text, report};
ghost use Rattle.mail_records.specs.Rows.{AppendsRows, ListsRows, rows_view};

use crate::codes::{ABSENT, NO_MEMORY, code_of};
use crate::results::NO_LIMIT;
use crate::rows::Rows;
use mail_data::reports::{Block, Field, report_blocks};
use mail_read::reading::read_mail;
use mailparse::{KnownCharsets, MailParseError, ParsedMail};
use std::alloc::{AllocError, Global};

/// A field of a report, as `struct rocktray_field`.
#[repr(C)]
#[derive(Clone, Copy)]
pub struct FieldRecord {
    /// The index of its block.
    pub block: u64,
    /// The start of its name in the strings.
    pub name_start: u64,
    /// The end of its name.
    pub name_end: u64,
    /// The start of its value in the strings.
    pub value_start: u64,
    /// The end of its value.
    pub value_end: u64,
}

/// Returns the records of the report that a part is, or the code of its refusal, `ABSENT` if it is
/// none.
///
/// # Errors
///
/// The code of the refusal, or `NO_MEMORY`.
///
/// # Examples
///
/// ```rust
/// use mail_records::reports::report;
///
/// let part = b"Content-Type: message/delivery-status\n\nReporting-MTA: dns; a\n";
/// let found = report(alloc, part, &())?;
/// assert_eq!(rt; found.strings.as_slice(), b"Reporting-MTAdns; a".as_slice());
/// ```
pub fn report<K: KnownCharsets>(
    alloc: Global,
    raw: &[u8],
    known: &K,
) -> Result<Rows<FieldRecord>, u32>
    ensures { IsCoded rows_view result (report (K.known known.now) raw.now) }
{
    let part = match read_mail(alloc, raw, NO_LIMIT, known) {
        Ok(part) => part,
        Err(error) => return Err(code_of(&error)),
    };
    match part_records(alloc, &part, known) {
        Ok(Some(found)) => Ok(found),
        Ok(None) => Err(ABSENT),
        Err(_) => Err(NO_MEMORY),
    }
}

/// Returns the records of the report that a part is, or `None` if it is not one.
fn part_records<K: KnownCharsets>(
    alloc: Global,
    part: &ParsedMail<'_>,
    known: &K,
) -> Result<Option<Rows<FieldRecord>>, MailParseError>
    ensures { IfOk result (λ found. option_map rows_view found
        ≡ option_map blocks_read (report_blocks (K.known known.now) (root (tree_of part.now)))) }
{
    match report_blocks(alloc, part, known)? {
        Some(blocks) => Ok(Some(block_records(alloc, blocks.as_slice())?)),
        None => Ok(None),
    }
}

/// Returns the records of the fields of blocks.
fn block_records(alloc: Global, blocks: &[Block]) -> Result<Rows<FieldRecord>, AllocError>
    ensures { IfOk result (λ found. rows_view found ≡ blocks_read (map block_view blocks.now)) }
{
    let mut found = Rows {
        records: Vec::new(alloc),
        strings: Vec::new(alloc),
    };
    push_blocks(&mut found, blocks)?;
    Ok(found)
}

/// Appends the records of the fields of blocks.
fn push_blocks(found: &mut Rows<FieldRecord>, blocks: &[Block]) -> Result<(), AllocError>
    ensures { OnOk result
        (ListsRows entry_record entry_text (entries_from 0 (map block_view blocks.now))
        found.old found.new) }
{
    let mut index = 0;
    for block in blocks {
        push_fields(found, block.fields.as_slice(), index)?;
        index += 1;
    }
    Ok(())
}

/// Appends the records of the fields of the block with this index.
fn push_fields(
    found: &mut Rows<FieldRecord>,
    fields: &[Field],
    block: u64,
) -> Result<(), AllocError>
    ensures { OnOk result
        (AppendsRows entry_record entry_text (block_entries block (map field_view fields.now))
        found.old found.new) }
{
    for field in fields {
        push_field(found, field.name.as_bytes(), field.value.as_bytes(), block)?;
    }
    Ok(())
}

/// Appends the record of a field.
fn push_field(
    found: &mut Rows<FieldRecord>,
    name: &[u8],
    value: &[u8],
    block: u64,
) -> Result<(), AllocError>
    ensures { OnOk result (AppendsRows entry_record entry_text (record {
      block = block;
      name = name.now;
      value = value.now;
    } ∷ []) found.old found.new) }
{
    let start = found.strings.len() as u64;
    found.strings.extend_from_slice(name)?;
    let middle = found.strings.len() as u64;
    found.strings.extend_from_slice(value)?;
    let end = found.strings.len() as u64;
    found.records.push(FieldRecord {
        block,
        name_start: start,
        name_end: middle,
        value_start: middle,
        value_end: end,
    })?;
    Ok(())
}
