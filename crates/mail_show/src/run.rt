//! A run of the program over any reader and writer.
ghost use Rattle.std.specs.Io.KnownBytes.{Keeps};
ghost use Rattle.std.specs.Prelude.{IfErr, IfOk};
ghost use Rattle.mail_program.specs.Fault.{IfInput, IfMail};
ghost use Rattle.mail_show.specs.Run.{HasWritten, RefusesInput};

use crate::text::text_of;
use mail_program::{Fault, read_input, write_output};
use mailparse::parse_mail;
use std::alloc::Global;
use std::io::{Read, Write};

/// Reads a mail to the end of `reader`, writes its text to `writer`, and flushes it.
///
/// Nothing is written before the whole text is made, so `Mail` and `Input` leave the writer as it
/// was. An interrupted read or write is tried again; a failed flush is not. Allocates the
/// input, its headers and the text.
///
/// # Errors
///
/// - `Fault::Mail` if `parse_mail` refuses the input, with its refusal, and if it runs out of
///   memory,
/// - `Fault::Input` if a read fails,
/// - `Fault::Output` if a write or the flush fails.
pub fn run<R: Read, W: Write>(alloc: Global, reader: &mut R, writer: &mut W) -> Result<(), Fault>
    ensures written { IfOk result (λ done. HasWritten
        (R.remaining reader.old) (R.remaining reader.new)
        (W.contents writer.old) (W.contents writer.new)) }
    ensures refused { IfErr result (IfMail (λ e.
        Keeps (W.contents writer.old) (W.contents writer.new)
        × RefusesInput (R.remaining reader.old) (R.remaining reader.new) e)) }
    ensures input_failed { IfErr result (IfInput
        (Keeps (W.contents writer.old) (W.contents writer.new))) }
{
    let input = read_input(alloc, reader)?;
    let parsed = parse_mail(alloc, input.as_slice())?;
    let text = text_of(alloc, &parsed)?;
    write_output(writer, text.as_bytes())
}
