//! Reports as JSON.
ghost use Rattle.std.specs.List.{AllByRecursion};
ghost use Rattle.std.specs.Prelude.{◌≡◌, ◌++◌, map, option_map, true, IfErr, Ok, OnOk};
ghost use Rattle.mailparse.specs.Mail.{root, trees_within};
ghost use Rattle.mailparse.specs.Outcome.{AnswersOrMemory, IsMemory};
ghost use Rattle.mailparse.specs.Views.{tree_of};
ghost use Rattle.mail_data.specs.Bounce.{deliveries, recipients};
ghost use Rattle.mail_data.specs.BounceViews.{delivery};
ghost use Rattle.mail_data.specs.ReportViews.{block_view, field_view};
ghost use Rattle.mail_json.specs.Reports.{delivery_value};
ghost use Rattle.mail_json.specs.Part.{recipients_if};
ghost use Rattle.mail_json_text.specs.Printed.{text_of};
ghost use Rattle.mail_parts.specs.DecodedViews.{IsDecoded, decoded_tree};
ghost use Rattle.mail_json.specs.Values.{block_value, recipients_value, report_value};
ghost use Rattle.mail_json_text.specs.Printed.{pair_value};
ghost use Rattle.mail_program.specs.Streams.{Writes};

use crate::lists::{ListItem, write_list};
use mail_data::bounce::{Recipient, add_failed, add_reported};
use mail_data::reports::{Block, Field, has_status};
use mail_json_text::{add_optional, first_key, key, write_pair, write_word};
use mail_parts::Decoded;
use mail_program::Fault;
use mailparse::{KnownCharsets, MailParseError, ParsedMail};
use std::alloc::Global;
use std::io::Write;

impl ListItem for Recipient {
    ghost value = { λ known recipient. delivery_value (delivery recipient) };

    fn write_item<W: Write, K: KnownCharsets>(
        &self,
        alloc: Global,
        out: &mut W,
        _known: &K,
    ) -> Result<(), Fault> {
        let final_recipient = self.final_recipient.as_deref();
        let original_recipient = self.original_recipient.as_deref();
        add_optional(out, first_key!("final_recipient"), final_recipient)?;
        add_optional(out, key!("original_recipient"), original_recipient)?;
        add_optional(out, key!("action"), self.action.as_deref())?;
        add_optional(out, key!("status"), self.status.as_deref())?;
        add_optional(
            out,
            key!("diagnostic_code"),
            self.diagnostic_code.as_deref(),
        )?;
        write_word(out, "}")
    }
}

impl ListItem for Block {
    ghost value = { λ known block. block_value (block_view block) };

    fn write_item<W: Write, K: KnownCharsets>(
        &self,
        alloc: Global,
        out: &mut W,
        known: &K,
    ) -> Result<(), Fault> {
        write_list(alloc, out, self.fields.as_slice(), known)
    }
}

impl ListItem for Field {
    ghost value = { λ known field. pair_value (field_view field) };

    fn write_item<W: Write, K: KnownCharsets>(
        &self,
        _alloc: Global,
        out: &mut W,
        _known: &K,
    ) -> Result<(), Fault> {
        write_pair(out, self.name.as_str(), self.value.as_str())
    }
}

/// Writes the blocks of a report, or `null` for `None`.
#[tactic(auto, unfolding(mail_json_text::specs::Printed::text_of))]
pub(crate) fn write_report<W: Write, K: KnownCharsets>(
    alloc: Global,
    out: &mut W,
    report: &Option<Vec<Block>>,
    known: &K,
) -> Result<(), Fault>
    ensures { Writes (W.contents out.old) (W.contents out.new) result (text_of
        (report_value (option_map (λ blocks. map block_view blocks.items) report.now))) }
{
    match report {
        Some(blocks) => write_list(alloc, out, blocks.as_slice(), known),
        None => write_word(out, "null"),
    }
}

/// Writes the recipients that a mail with these parts reports, or `null` if bodies are not decoded.
pub(crate) fn write_reported<W: Write, K: KnownCharsets>(
    alloc: Global,
    out: &mut W,
    mail: &ParsedMail<'_>,
    parts: &[Decoded<'_, '_, '_>],
    decodes_bodies: bool,
    known: &K,
) -> Result<(), Fault>
    requires decoded { AllByRecursion (IsDecoded decodes_bodies) parts.now }
    requires whole { map decoded_tree parts.now ≡ trees_within (tree_of mail.now) }
    ensures { Writes (W.contents out.old) (W.contents out.new) result (text_of
        (recipients_value (recipients_if (K.known known.now) decodes_bodies (tree_of mail.now)))) }
{
    if !decodes_bodies {
        return write_word(out, "null");
    }
    let found = recipients_in(alloc, mail, parts, known)?;
    write_list(alloc, out, found.as_slice(), known)
}

/// Returns the recipients that a mail with these parts reports, in whose contents they are read.
fn recipients_in<K: KnownCharsets>(
    alloc: Global,
    mail: &ParsedMail<'_>,
    parts: &[Decoded<'_, '_, '_>],
    known: &K,
) -> Result<Vec<Recipient>, MailParseError>
    requires decoded { AllByRecursion (IsDecoded true) parts.now }
    requires whole { map decoded_tree parts.now ≡ trees_within (tree_of mail.now) }
    ensures { AnswersOrMemory (λ found. map delivery found.items) result
        (Ok (recipients (K.known known.now) (tree_of mail.now))) }
{
    let mut found = Vec::new(alloc);
    for part in parts {
        add_recipients(alloc, &mut found, part, known)?;
    }
    add_failed(alloc, &mut found, mail, known)?;
    Ok(found)
}

/// Adds the recipients in the status of deliveries, if the part has one.
fn add_recipients<K: KnownCharsets>(
    alloc: Global,
    found: &mut Vec<Recipient>,
    part: &Decoded<'_, '_, '_>,
    known: &K,
) -> Result<(), MailParseError>
    requires { IsDecoded true part.now }
    ensures written { OnOk result (map delivery found.new.items ≡ map delivery found.old.items
        ++ deliveries (K.known known.now) (root (decoded_tree part.now))) }
    ensures only_memory { IfErr result IsMemory }
{
    if !has_status(part.place.part) {
        return Ok(());
    }
    match &part.content {
        Some(content) => add_reported(alloc, found, content.bytes.as_slice(), known),
        None => Ok(()),
    }
}
