//! Joins the sections of a value, one after another.
ghost use Rattle.std.specs.Prelude.{◌≡◌, ◌∷◌, ◌++◌, [], List, None, IfOk, OnOk, string_bytes};
ghost use Rattle.mailparse.specs.Continuations.{joined};
ghost use Rattle.mailparse.specs.Sections as words;
ghost use Rattle.mailparse.specs.private.Continuations.{joined_with, open_run};
ghost use Rattle.mailparse.specs.private.Sections.{section_view};

use crate::parameters::sections::Section;
use mail_codec::charset::Decode;
use std::alloc::{AllocError, Global};

/// The text so far, and the bytes after it that are still to be decoded.
#[derive(Drop)]
pub(super) struct Joining<C: Decode> {
    text: String,
    /// The open run of bytes, in the charset of its last section.
    run: Option<(C, Vec<u8>)>,
}

impl<C: Decode> Joining<C> {
    /// Returns the state before the first section.
    pub(super) fn new(alloc: Global) -> Joining<C>
        ensures { (sections : List words.Section) →
            joined_with C.text result sections ≡ joined sections }
    {
        Joining {
            text: String::new(alloc),
            run: None,
        }
    }

    /// Ends the open run: decodes its bytes, and appends their text.
    fn close(&mut self, alloc: Global) -> Result<(), AllocError>
        ensures text { OnOk result (string_bytes self.new.text
            ≡ string_bytes self.old.text ++ joined (open_run C.text self.old.run)) }
        ensures run { OnOk result (self.new.run ≡ None) }
    {
        if let Some((charset, bytes)) = self.run.take() {
            let text = charset.decode_without_bom_handling(alloc, bytes.as_slice())?;
            self.text.push_str(text.as_str())?;
        }
        Ok(())
    }

    /// Appends one more section.
    pub(super) fn push(&mut self, alloc: Global, section: Section<C>) -> Result<(), AllocError>
        ensures { OnOk result ((rest : List words.Section) →
            joined_with C.text self.old (section_view C.text section ∷ rest)
            ≡ joined_with C.text self.new rest) }
    {
        match section {
            Section::Text(text) => {
                self.close(alloc)?;
                self.text.push_str(text.as_str())
            }
            Section::Octets(charset, bytes) => self.extend_run(charset, bytes),
        }
    }

    /// Appends the bytes of a section to the open run, or opens one with them.
    fn extend_run(&mut self, charset: C, bytes: Vec<u8>) -> Result<(), AllocError>
        ensures { OnOk result ((rest : List words.Section) →
            joined_with C.text self.old (words.octets (C.text charset) bytes.items ∷ rest)
            ≡ joined_with C.text self.new rest) }
    {
        let Some((_, mut run)) = self.run.take() else {
            self.run = Some((charset, bytes));
            return Ok(());
        };
        run.extend_from_slice(bytes.as_slice())?;
        self.run = Some((charset, run));
        Ok(())
    }

    /// Returns the text of all sections.
    pub(super) fn finish(mut self, alloc: Global) -> Result<String, AllocError>
        ensures { IfOk result (λ text. string_bytes text ≡ joined_with C.text self []) }
    {
        self.close(alloc)?;
        Ok(self.text)
    }
}
