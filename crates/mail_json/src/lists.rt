//! Lists of JSON values.
ghost use Rattle.std.specs.Prelude.{map};
ghost use Rattle.json.specs.Json.{Json};
ghost use Rattle.mail_codec.specs.Charset.{Charsets};
ghost use Rattle.mail_json_text.specs.Printed.{list_of, text_of};
ghost use Rattle.mail_program.specs.Streams.{Writes};

use mail_json_text::{Position, write_comma, write_word};
use mail_program::Fault;
use mailparse::KnownCharsets;
use std::alloc::Global;
use std::io::Write;

/// An item of a list.
pub(crate) trait ListItem {
    // Its JSON value, under the charsets that are known.
    ghost value: { Charsets → Self → Json };

    /// Writes it.
    fn write_item<W: Write, K: KnownCharsets>(
        &self,
        alloc: Global,
        out: &mut W,
        known: &K,
    ) -> Result<(), Fault>
        ensures { Writes (W.contents out.old) (W.contents out.new) result
            (text_of (value (K.known known.now) self.now)) };
}

/// Writes a list.
pub(crate) fn write_list<T: ListItem, W: Write, K: KnownCharsets>(
    alloc: Global,
    out: &mut W,
    items: &[T],
    known: &K,
) -> Result<(), Fault>
    ensures { Writes (W.contents out.old) (W.contents out.new) result
        (text_of (list_of (map (T.value (K.known known.now)) items.now))) }
{
    write_word(out, "[")?;
    let mut position = Position::First;
    for item in items {
        write_comma(out, position)?;
        item.write_item(alloc, out, known)?;
        position = Position::Later;
    }
    write_word(out, "]")
}
