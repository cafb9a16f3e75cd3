//! Law: no line of a view moves the cursor of a terminal, and none begins with a value.
ghost use Rattle.std.specs.Prelude.{◌≡◌, true, List};
ghost use Rattle.std.specs.List.{list_all};
ghost use Rattle.mail_codec.specs.Charset.{Charsets};
ghost use Rattle.mailparse.specs.Mail.{Tree};
ghost use Rattle.mail_html.specs.declared.references.References.{References};
ghost use Rattle.mail_view.specs.Line.{AreSafeLines, Line, is_plain_byte, lines_text};
ghost use Rattle.mail_view.specs.View.{view_text};

/// Whatever the texts of lines are, what is written of them is safe: it consists of lines that end
/// in their only LF, each line is empty or begins with the fixed text of its prefix, and it is
/// UTF-8 of characters that are not hidden. So is the view of each mail. No byte but LF is below
/// the space, and none is DEL.
pub fn lines_are_safe()
    ensures lines { (lines : List Line) → AreSafeLines (lines_text lines) }
    ensures bytes { (lines : List Line) → list_all is_plain_byte (lines_text lines) ≡ true }
    ensures view { (references : References) (known : Charsets) (mail : Tree)
        → AreSafeLines (view_text references known mail) }
{}
