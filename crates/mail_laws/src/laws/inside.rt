//! Mails inside a mail: where they and their parts are in the input.
ghost use Rattle.std.specs.Prelude.{◌<◌, ◌≡◌, ◌^◌, ℕ, [], List, Ok, Some, length, map};
ghost use Rattle.std.specs.List.{AllByRecursion};
ghost use Rattle.mail_codec.specs.Charset.{Charsets};
ghost use Rattle.mailparse.specs.Mail.{Tree, nodes, read_mail_as, read_mail_in};
ghost use Rattle.mailparse.specs.Manner.{Manner};
ghost use Rattle.mailparse.specs.Placement.{placements, placements_as};
ghost use Rattle.mailparse.specs.Ranges.{moved, slice};
ghost use Rattle.mail_read.specs.InnerMails.{inner_mails, inner_mails_as, inner_mails_within};
ghost use Rattle.mail_read.specs.Reading.{mail_placements, mail_reading};
ghost use Rattle.mail_laws.specs.InnerMails.{AreAt};

/// Each mail inside a mail, and inside those, that has an offset is at this offset of the input, in
/// every manner of reading, and as the programs read mails. Only an input of 2^64 bytes or more
/// would be an exception.
pub fn inner_mails_are_at_their_offsets()
    ensures read { (manner : Manner) (input : List ℕ) (mail : Tree) → length input < 2 ^ 64 →
        read_mail_as manner 100 input ≡ Ok mail →
        AllByRecursion (λ inner. AreAt input inner.start inner.bytes) (inner_mails_as manner 100 []
        (Some 0) mail (placements_as manner.whole_lines 0 mail)) }
    ensures strict { (known : Charsets) (input : List ℕ) (mail : Tree) → length input < 2 ^ 64 →
        read_mail_in known 100 input ≡ Ok mail →
        AllByRecursion (λ inner. AreAt input inner.start inner.bytes) (inner_mails known 100 []
        (Some 0) mail (placements 0 mail)) }
    ensures programs { (known : Charsets) (limit : ℕ) (input : List ℕ) (mail : Tree) →
        length input < 2 ^ 64 → mail_reading known limit input ≡ Ok mail →
        AllByRecursion (λ inner. AreAt input inner.start inner.bytes) (inner_mails_within known limit
        100 [] (Some 0) mail (mail_placements mail)) }
{}

/// The offsets of the parts of a mail that is at an offset of the input, added to that, are those of
/// the input: its bytes from the start to the end of a part are the part, and those from the start
/// to the end of the body of a part are its body, still in its transfer encoding. So it is of mails
/// inside mails, in every manner of reading and under every limit on levels.
pub fn parts_are_at_their_offsets()
    ensures messages { (manner : Manner) (greatest start : ℕ) (input bytes : List ℕ) (mail : Tree) →
        AreAt input (Some start) bytes → read_mail_as manner greatest bytes ≡ Ok mail →
        map (λ place. slice input (moved start place.whole))
        (placements_as manner.whole_lines 0 mail) ≡ map (λ node. node.bytes) (nodes mail) }
    ensures bodies { (manner : Manner) (greatest start : ℕ) (input bytes : List ℕ) (mail : Tree) →
        AreAt input (Some start) bytes → read_mail_as manner greatest bytes ≡ Ok mail →
        map (λ place. slice input (moved start place.body))
        (placements_as manner.whole_lines 0 mail) ≡ map (λ node. node.body) (nodes mail) }
{}
