//! The files in the texts of parts as JSON.
ghost use Rattle.std.specs.Prelude.{◌≡◌, codes, map, option_map, IfOk, Some};
ghost use Rattle.mail_read.specs.PlaceViews.{place_view};
ghost use Rattle.mail_data.specs.TextFileViews.{text_file_view};
ghost use Rattle.mail_read.specs.lenient.ContentViews.{content_view};
ghost use Rattle.mailparse.specs.Map.{text_found};
ghost use Rattle.mailparse.specs.Views.{tree_of};
ghost use Rattle.mail_json_text.specs.Members.{AddsMembers};
ghost use Rattle.mail_json.specs.Part.{hash_of};
ghost use Rattle.mail_json_text.specs.Printed.{one};
ghost use Rattle.mail_json.specs.TextFiles.{files_if, files_in, listed_files};
ghost use Rattle.mail_json.specs.TextFileViews.{listed_view};
ghost use Rattle.mail_json.specs.Values.{file_value, files_value};

use crate::lists::{ListItem, write_list};
use crate::options::LineOptions;
use crate::part::write_size;
use mail_data::text_files::{TextFile, is_plain_text, text_file_path, text_files};
use mail_json_text::{add_null, add_number, add_optional, add_text, first_key, key, write_word};
use mail_program::{Fault, sha256_text};
use mail_read::lenient::Content;
use mail_read::places::Place;
use mailparse::{KnownCharsets, ParsedMail};
use std::alloc::{AllocError, Global};
use std::io::Write;

/// A file in the text of a part, as it is listed. Its bytes are decoded when it is written, so that
/// those of one file are in memory at a time.
#[derive(Drop)]
pub(crate) struct ListedFile<'f> {
    /// The path of the part.
    pub path: &'f str,
    /// Its number in the text, counted from 1.
    pub number: usize,
    /// The file.
    pub file: &'f TextFile<'f>,
    /// Whether its hash is asked for.
    pub hashes: bool,
}

impl ListItem for ListedFile<'_> {
    ghost value = { λ known file. file_value (listed_view file) };

    fn write_item<W: Write, K: KnownCharsets>(
        &self,
        alloc: Global,
        out: &mut W,
        _known: &K,
    ) -> Result<(), Fault> {
        let path = text_file_path(alloc, self.path, self.number)?;
        let name = self.file.file_name(alloc)?;
        let content = self.file.content(alloc)?;
        let sha256 = wanted_hash(alloc, &content, self.hashes)?;
        add_text(out, first_key!("path"), path.as_str())?;
        add_text(out, key!("file_name"), name.as_str())?;
        add_number(out, key!("body_start"), self.file.block.start)?;
        add_number(out, key!("body_end"), self.file.block.end)?;
        write_size(alloc, out, &content)?;
        add_optional(out, key!("sha256"), sha256.as_deref())?;
        write_word(out, "}")
    }
}

/// Writes the member of the files in the text of a part, or `null` if its body is not decoded.
pub(crate) fn write_text_files<W: Write>(
    alloc: Global,
    out: &mut W,
    place: &Place<'_, '_>,
    content: &Option<Content<'_>>,
    is_extracted: bool,
    options: LineOptions<'_>,
) -> Result<(), Fault>
    ensures { AddsMembers (W.contents out.old) (W.contents out.new) result
        (one (codes "text_files") (files_value
        (files_if options.entry.limit options.entry.hashes is_extracted (place_view place.now)
        (option_map content_view content.now)))) }
{
    let Some(content) = content else {
        return add_null(out, key!("text_files"));
    };
    let text = content.bytes.as_slice();
    let files = files_of(alloc, place.part, text, is_extracted, options.limit)?;
    let path = place.path.as_str();
    let listed = listed_files(alloc, path, files.as_slice(), options.hashes)?;
    write_word(out, key!("text_files"))?;
    write_list(alloc, out, listed.as_slice(), &())
}

/// Returns the files in the text of a part, which may be extracted itself.
fn files_of<'t>(
    alloc: Global,
    part: &ParsedMail<'_>,
    text: &'t [u8],
    is_extracted: bool,
    limit: usize,
) -> Result<Vec<TextFile<'t>>, AllocError>
    ensures { IfOk result (λ files. map text_file_view files.items
        ≡ files_in limit is_extracted (tree_of part.now) text.now) }
{
    if !is_plain_text(part) || is_extracted {
        return Ok(Vec::new(alloc));
    }
    text_files(alloc, text, limit)
}

/// Returns the files in the text of the part with this path, as they are listed.
fn listed_files<'f>(
    alloc: Global,
    path: &'f str,
    files: &'f [TextFile<'f>],
    hashes: bool,
) -> Result<Vec<ListedFile<'f>>, AllocError>
    ensures { IfOk result (λ listed. map listed_view listed.items
        ≡ listed_files hashes path.now 1 (map text_file_view files.now)) }
{
    let mut listed = Vec::with_capacity(alloc, files.len())?;
    let mut number = 0;
    for file in files {
        number += 1;
        listed.push(ListedFile {
            path,
            number,
            file,
            hashes,
        })?;
    }
    Ok(listed)
}

/// Returns the hash of a content, or `None` if it is not wanted.
fn wanted_hash(
    alloc: Global,
    content: &Content<'_>,
    is_wanted: bool,
) -> Result<Option<String>, AllocError>
    ensures { IfOk result (λ hash.
        text_found hash ≡ hash_of is_wanted (Some (content_view content.now))) }
{
    if !is_wanted {
        return Ok(None);
    }
    Ok(Some(sha256_text(alloc, content.bytes.as_slice())?))
}
