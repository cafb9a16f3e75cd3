//! Messages that are read in a manner of the caller's.
ghost use Rattle.std.specs.Prelude.{◌≡◌, ◌≤◌, ◌<◌, ℕ, true, IsOk, List, Ok, Err, length, map};
ghost use Rattle.mail_codec.specs.Charset.{Charsets};
ghost use Rattle.mailparse.specs.Bound.{IsBounded, items_within};
ghost use Rattle.mailparse.specs.Limit.{read_mail_within};
ghost use Rattle.mailparse.specs.Mail.{Tree, nodes, read_mail_as, read_mail_in, strict};
ghost use Rattle.mailparse.specs.Manner.{Manner};
ghost use Rattle.mailparse.specs.Placement.{placements_as};
ghost use Rattle.mailparse.specs.Ranges.{Apart, slice};
ghost use Rattle.mailparse.specs.Refusal.{Refusal, too_many_items};
ghost use Rattle.mail_read.specs.Reading.{mail_reading};
ghost use Rattle.mail_read.specs.lenient.Manner.{lenient};
ghost use Rattle.mail_laws.specs.LenientAgreement.{is_strict_mail};
ghost use Rattle.mail_laws.specs.Manners.{AreReadAlike};
ghost use Rattle.mail_laws.specs.RangeTree.{AreNested, RangeTree, blocks_and_bodies, range_root, ranges_as, read_there, wholes_and_bodies};

/// A manner that keeps refused messages refuses no mail, and with a limit on messages and headers
/// only for that. So the programs and the C library read.
pub fn nothing_is_refused()
    ensures read { (manner : Manner) (greatest : ℕ) (mail : List ℕ) → manner.keeps_refused ≡ true →
        IsOk (read_mail_as manner greatest mail) }
    ensures limited { (manner : Manner) (greatest most : ℕ) (mail : List ℕ) (refusal : Refusal) →
        manner.keeps_refused ≡ true → read_mail_within manner greatest most mail ≡ Err refusal →
        refusal ≡ too_many_items }
    ensures programs { (known : Charsets) (limit : ℕ) (mail : List ℕ) (refusal : Refusal) →
        mail_reading known limit mail ≡ Err refusal → refusal ≡ too_many_items }
{}

/// A mail that is read without a limit on messages and headers is read the same with it, unless its
/// tree has more of them: then it is refused. A mail that is refused without a limit is refused
/// with it.
pub fn limits_count_items()
    ensures read { (manner : Manner) (greatest most : ℕ) (mail : List ℕ) (parsed : Tree) →
        read_mail_as manner greatest mail ≡ Ok parsed → items_within parsed ≤ most →
        read_mail_within manner greatest most mail ≡ Ok parsed }
    ensures refused { (manner : Manner) (greatest most : ℕ) (mail : List ℕ) (parsed : Tree) →
        read_mail_as manner greatest mail ≡ Ok parsed → most < items_within parsed →
        read_mail_within manner greatest most mail ≡ Err too_many_items }
    ensures others { (manner : Manner) (greatest most : ℕ) (mail : List ℕ) (parsed : Tree) →
        read_mail_within manner greatest most mail ≡ Ok parsed →
        read_mail_as manner greatest mail ≡ Ok parsed }
{}

/// The port's own manner reads each mail as the port does. Any other manner reads a mail as the
/// same tree, if the port reads the mail, and if the manner ends the headers of no message before
/// a line that looks like a delimiter, takes no blank from a key, gives each message the same type,
/// and splits it in the same way.
pub fn manners_agree()
    ensures strict { (known : Charsets) (greatest : ℕ) (mail : List ℕ) →
        read_mail_as (strict known) greatest mail ≡ read_mail_in known greatest mail }
    ensures others { (manner : Manner) (known : Charsets) (greatest : ℕ) (mail : List ℕ)
        (parsed : Tree) → read_mail_in known greatest mail ≡ Ok parsed →
        AreReadAlike manner known parsed → read_mail_as manner greatest mail ≡ Ok parsed }
{}

/// A mail that the port reads and that needs no lenient reading is read leniently as the same tree.
///
/// That is decidable: the type of each message is strict and has no encoded word that the port
/// decodes (`is_strict_value`), its whole delimiter lines split it as all lines that begin with its
/// dash-boundary do, no line that looks like a delimiter is among its headers, and none of their
/// keys ends in a blank.
pub fn strict_mails_are_read_alike()
    ensures { (known : Charsets) (greatest : ℕ) (mail : List ℕ) (parsed : Tree) →
        read_mail_in known greatest mail ≡ Ok parsed → is_strict_mail known parsed ≡ true →
        read_mail_as (lenient known) greatest mail ≡ Ok parsed }
{}

/// What `ranges_give_tree`, `ranges_apart` and `nodes_bounded` say of the port is so in every
/// manner.
pub fn manners_keep_ranges()
    ensures there { (manner : Manner) (mail : List ℕ) (greatest : ℕ) →
        read_there mail (ranges_as manner mail greatest) ≡ read_mail_as manner greatest mail }
    ensures nested { (manner : Manner) (mail : List ℕ) (greatest : ℕ) (ranges : RangeTree) →
        ranges_as manner mail greatest ≡ Ok ranges →
        ((range_root ranges).whole ≡ record { start = 0; end = length mail })
        × AreNested ranges }
    ensures apart { (manner : Manner) (mail : List ℕ) (greatest : ℕ) (ranges : RangeTree) →
        ranges_as manner mail greatest ≡ Ok ranges →
        Apart 0 0 (blocks_and_bodies ranges) (length mail) }
    ensures bounded { (manner : Manner) (greatest : ℕ) (bytes : List ℕ) (mail : Tree) →
        read_mail_as manner greatest bytes ≡ Ok mail → IsBounded mail (length bytes) }
{}

/// What `placements_are_exact` says of the port is so in every manner.
pub fn manners_keep_placements()
    ensures ranges { (manner : Manner) (greatest : ℕ) (mail : List ℕ) (parsed : Tree)
        (ranges : RangeTree) → read_mail_as manner greatest mail ≡ Ok parsed →
        ranges_as manner mail greatest ≡ Ok ranges →
        placements_as manner.whole_lines 0 parsed ≡ wholes_and_bodies ranges }
    ensures messages { (manner : Manner) (greatest : ℕ) (mail : List ℕ) (parsed : Tree) →
        read_mail_as manner greatest mail ≡ Ok parsed →
        map (λ place. slice mail place.whole) (placements_as manner.whole_lines 0 parsed)
        ≡ map (λ node. node.bytes) (nodes parsed) }
    ensures bodies { (manner : Manner) (greatest : ℕ) (mail : List ℕ) (parsed : Tree) →
        read_mail_as manner greatest mail ≡ Ok parsed →
        map (λ place. slice mail place.body) (placements_as manner.whole_lines 0 parsed)
        ≡ map (λ node. node.body) (nodes parsed) }
{}
