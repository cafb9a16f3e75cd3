//! Records of the findings of a mail.
ghost use Rattle.std.specs.Prelude.{◌≡◌, [], ◌∷◌, map, IfOk, OnOk};
ghost use Rattle.mail_check.specs.FindingViews.{finding_view};
ghost use Rattle.mail_records.specs.Codes.{IsCoded};
ghost use Rattle.mail_records.specs.Findings.{class_number, finding_record, finding_text};
ghost use Rattle.mail_records.specs.Findings.{findings_listed, findings_read};
ghost use Rattle.mail_records.specs.Rows.{AppendsRows, ListsRows, rows_view};

use crate::codes::{NO_MEMORY, code_of};
use crate::results::NO_LIMIT;
use crate::rows::Rows;
use mail_check::{Class, Finding, read_findings};
use mailparse::KnownCharsets;
use std::alloc::{AllocError, Global};

/// A finding, as `struct rocktray_finding`. A range of a text is that in the strings.
#[repr(C)]
#[derive(Clone, Copy)]
pub struct FindingRecord {
    /// The number of its class.
    pub finding_class: u64,
    /// The start of its bytes in the mail.
    pub start: u64,
    /// The end of these bytes.
    pub end: u64,
    /// The start of its name.
    pub name_start: u64,
    /// The end of its name.
    pub name_end: u64,
    /// The start of the path of its part.
    pub path_start: u64,
    /// The end of that path.
    pub path_end: u64,
    /// The start of the sentence that says what programs read.
    pub sentence_start: u64,
    /// The end of that sentence.
    pub sentence_end: u64,
}

/// Returns the records of the findings of a mail, or the code of its refusal.
///
/// # Errors
///
/// The code of the refusal, or `NO_MEMORY`.
///
/// # Examples
///
/// ```rust
/// use mail_records::findings::findings;
///
/// let found = findings(alloc, b"A: 1\r\n\r\n", &())?;
/// assert_eq!(rt; found.records.len(), 0);
/// ```
pub fn findings<K: KnownCharsets>(
    alloc: Global,
    raw: &[u8],
    known: &K,
) -> Result<Rows<FindingRecord>, u32>
    ensures { IsCoded rows_view result (findings_read (K.known known.now) raw.now) }
{
    let found = match read_findings(alloc, raw, NO_LIMIT, known) {
        Ok(found) => found,
        Err(error) => return Err(code_of(&error)),
    };
    match records_of(alloc, found.as_slice()) {
        Ok(records) => Ok(records),
        Err(_) => Err(NO_MEMORY),
    }
}

/// Returns the records of findings.
fn records_of(alloc: Global, findings: &[Finding]) -> Result<Rows<FindingRecord>, AllocError>
    ensures { IfOk result (λ found.
        rows_view found ≡ findings_listed (map finding_view findings.now)) }
{
    let mut found = Rows {
        records: Vec::with_capacity(alloc, findings.len())?,
        strings: Vec::new(alloc),
    };
    push_findings(&mut found, findings)?;
    Ok(found)
}

/// Appends the records of findings.
fn push_findings(found: &mut Rows<FindingRecord>, findings: &[Finding]) -> Result<(), AllocError>
    ensures { OnOk result
        (ListsRows finding_record finding_text (map finding_view findings.now)
        found.old found.new) }
{
    for finding in findings {
        push_finding(found, finding)?;
    }
    Ok(())
}

/// Appends the record of a finding.
fn push_finding(found: &mut Rows<FindingRecord>, finding: &Finding) -> Result<(), AllocError>
    ensures { OnOk result (AppendsRows finding_record finding_text
        (finding_view finding.now ∷ []) found.old found.new) }
{
    let name = found.strings.len() as u64;
    found
        .strings
        .extend_from_slice(finding.name.text().as_bytes())?;
    let path = found.strings.len() as u64;
    found.strings.extend_from_slice(finding.path.as_bytes())?;
    let sentence = found.strings.len() as u64;
    found
        .strings
        .extend_from_slice(finding.name.sentence().as_bytes())?;
    found.records.push(FindingRecord {
        finding_class: class_number(finding.class),
        start: finding.range.start as u64,
        end: finding.range.end as u64,
        name_start: name,
        name_end: path,
        path_start: path,
        path_end: sentence,
        sentence_start: sentence,
        sentence_end: found.strings.len() as u64,
    })?;
    Ok(())
}

/// Returns the number of a class.
fn class_number(class: Class) -> u64
    ensures { result ≡ class_number class }
{
    match class {
        Class::Structure => 0,
        Class::Bytes => 1,
        Class::Name => 2,
        Class::Text => 3,
        Class::Note => 4,
    }
}
