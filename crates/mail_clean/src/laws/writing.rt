//! Written outlines that are strict mails.
ghost use Rattle.std.specs.Prelude.{◌≡◌, ℕ, Ok};
ghost use Rattle.mail_codec.specs.Charset.{Charsets};
ghost use Rattle.mailparse.specs.Mail.{Tree, read_mail_in};
ghost use Rattle.mailparse.specs.Placement.{placements};
ghost use Rattle.mail_check.specs.Findings.{findings};
ghost use Rattle.mail_check_laws.specs.Mail.{IsStrict};
ghost use Rattle.mail_check_laws.specs.Named.{Lacks, is_core};
ghost use Rattle.mail_clean.specs.PlainOutlines.{IsPlainOutline};
ghost use Rattle.mail_laws.specs.Render.{IsWellFormed, OutlineTree, rendered, stands_for};

/// An outline that is well formed and plain is written as a strict mail, whatever charsets are
/// known. So what is read of its written form has no finding but notes.
///
/// In a plain outline, values are printable ASCII, each leaf is a text in ASCII or UTF-8 whose
/// lines end in CR LF, and the dash-boundary of a branch is nowhere in its parts. `IsPlainOutline`
/// has all conditions.
pub fn plain_outlines_are_strict()
    ensures strict { (known : Charsets) (outline : OutlineTree) → IsWellFormed outline →
        IsPlainOutline outline → IsStrict known (rendered outline) (stands_for known outline) }
    ensures read { (known : Charsets) (greatest : ℕ) (outline : OutlineTree) (t : Tree) →
        IsWellFormed outline → IsPlainOutline outline →
        read_mail_in known greatest (rendered outline) ≡ Ok t →
        Lacks is_core (findings known t (placements 0 t)) }
{}
