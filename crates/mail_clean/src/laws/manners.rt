//! Clean mails are read leniently as the port reads them.
ghost use Rattle.std.specs.Prelude.{◌≡◌, ℕ, List, Ok};
ghost use Rattle.mail_codec.specs.Charset.{Charsets};
ghost use Rattle.mailparse.specs.Mail.{Tree, read_mail_as, read_mail_in};
ghost use Rattle.mailparse.specs.Placement.{placements};
ghost use Rattle.mail_read.specs.lenient.Manner.{lenient};
ghost use Rattle.mail_check.specs.Findings.{findings};
ghost use Rattle.mail_check_laws.specs.Named.{Lacks, is_core};

/// A mail that the port reads and that has no finding but notes is read leniently as the same tree.
///
/// The findings are those of the mail and its parts, under the charsets that are known.
pub fn clean_mails_are_read_alike()
    ensures { (known : Charsets) (greatest : ℕ) (mail : List ℕ) (parsed : Tree) →
        read_mail_in known greatest mail ≡ Ok parsed →
        Lacks is_core (findings known parsed (placements 0 parsed)) →
        read_mail_as (lenient known) greatest mail ≡ Ok parsed }
{}
