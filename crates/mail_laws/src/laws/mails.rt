//! Messages with their parts: their ranges in the mail, and how they are read.
ghost use Rattle.std.specs.Prelude.{◌<◌, ◌≡◌, ◌≤◌, ◌⊎◌, ℕ, Err, List, Ok, length, map, slice_index_or};
ghost use Rattle.mail_codec.specs.Charset.{Charsets};
ghost use Rattle.mailparse.specs.Block.{HeaderList, read_headers};
ghost use Rattle.mailparse.specs.Bound.{IsBounded};
ghost use Rattle.mailparse.specs.ContentType.{ContentType};
ghost use Rattle.mailparse.specs.Delimiters.{Cut, cut_parts};
ghost use Rattle.mailparse.specs.Mail.{Tree, cut_of, nodes, read_mail_in};
ghost use Rattle.mailparse.specs.Placement.{placements};
ghost use Rattle.mailparse.specs.Ranges.{Apart, Range, slice};
ghost use Rattle.mailparse.specs.Refusal.{recursion_limit};
ghost use Rattle.mail_laws.specs.DelimiterPlaces.{IsCutAt, delimiters};
ghost use Rattle.mail_laws.specs.RangeTree.{AreNested, IsInRange, RangeTree, blocks_and_bodies, range_root, ranges_in, read_there, wholes_and_bodies};

/// Exactly one list of delimiters fits a body by their offsets, and exactly one preamble with one
/// list of parts: the computed ones. Each delimiter begins a line of the body, after the line of
/// the one before, with none between them. The list ends at the close-delimiter, which is never the
/// first one, or at the last delimiter. Each part is the lines between a delimiter and the next,
/// without the line end before the next, or all remaining lines if there is no next one.
pub fn one_list_of_delimiters_fits()
    ensures fits { (dash_boundary bytes : List ℕ) (body : ℕ) → IsCutAt dash_boundary bytes body
        (delimiters dash_boundary bytes body) (cut_parts dash_boundary bytes body) }
    ensures only { (dash_boundary bytes : List ℕ) (body : ℕ) (places : List ℕ) (cut : Cut) →
        IsCutAt dash_boundary bytes body places cut → places ≡ delimiters dash_boundary bytes body }
    ensures only_parts { (dash_boundary bytes : List ℕ) (body : ℕ) (places : List ℕ) (cut : Cut) →
        IsCutAt dash_boundary bytes body places cut → cut ≡ cut_parts dash_boundary bytes body }
{}

/// The body and the parts of a message are disjoint ranges of its bytes, in order, after its header
/// block. Before each part there are three bytes or more in none of them, those of a delimiter and
/// its line end.
pub fn parts_apart()
    ensures { (ctype : ContentType) (bytes : List ℕ) (block : HeaderList) →
        read_headers bytes ≡ Ok block →
        let cut = cut_of ctype bytes block.index in
        (cut.body.start ≡ block.index) × (block.index ≤ cut.body.end)
        × Apart 3 cut.body.end cut.parts (length bytes) }
{}

/// The bytes at the tree of ranges of a mail are the tree that is read, whatever charsets are known
/// and under every limit on levels. Each message has its range in the mail, and those of its header
/// block, of its keys and values and of its body. The ranges are refused exactly as the mail is.
pub fn ranges_give_tree()
    ensures { (known : Charsets) (mail : List ℕ) (greatest : ℕ) →
        read_there mail (ranges_in known mail greatest) ≡ read_mail_in known greatest mail }
{}

/// The offsets of a mail and its parts, as the calls that parse a mail record them, are those of
/// its tree of ranges, whatever charsets are known and under every limit on levels. The bytes of
/// the mail from the start to the end of a message are the message, and those from the start to the
/// end of its body are its body, still in its transfer encoding.
pub fn placements_are_exact()
    ensures ranges { (known : Charsets) (greatest : ℕ) (mail : List ℕ) (parsed : Tree)
        (ranges : RangeTree) → read_mail_in known greatest mail ≡ Ok parsed →
        ranges_in known mail greatest ≡ Ok ranges →
        placements 0 parsed ≡ wholes_and_bodies ranges }
    ensures messages { (known : Charsets) (greatest : ℕ) (mail : List ℕ) (parsed : Tree) →
        read_mail_in known greatest mail ≡ Ok parsed →
        map (λ place. slice mail place.whole) (placements 0 parsed)
        ≡ map (λ node. node.bytes) (nodes parsed) }
    ensures bodies { (known : Charsets) (greatest : ℕ) (mail : List ℕ) (parsed : Tree) →
        read_mail_in known greatest mail ≡ Ok parsed →
        map (λ place. slice mail place.body) (placements 0 parsed)
        ≡ map (λ node. node.body) (nodes parsed) }
{}

/// The header blocks and the bodies of a message and of all its parts are disjoint in the mail, one
/// after another, so no byte belongs to two of them. In each message the keys and the values are in
/// order within its block, the body follows the block, and the parts follow the body in order,
/// within the message, with three bytes or more before each.
pub fn ranges_apart()
    ensures nested { (known : Charsets) (mail : List ℕ) (greatest : ℕ) (ranges : RangeTree) →
        ranges_in known mail greatest ≡ Ok ranges →
        ((range_root ranges).whole ≡ record { start = 0; end = length mail })
        × AreNested ranges }
    ensures apart { (known : Charsets) (mail : List ℕ) (greatest : ℕ) (ranges : RangeTree) →
        ranges_in known mail greatest ≡ Ok ranges →
        Apart 0 0 (blocks_and_bodies ranges) (length mail) }
    ensures once { (known : Charsets) (mail : List ℕ) (greatest : ℕ) (ranges : RangeTree) →
        ranges_in known mail greatest ≡ Ok ranges → (place i j : ℕ) (none : Range) →
        i < length (blocks_and_bodies ranges) → j < length (blocks_and_bodies ranges) →
        IsInRange (slice_index_or (blocks_and_bodies ranges) i none) place →
        IsInRange (slice_index_or (blocks_and_bodies ranges) j none) place → i ≡ j }
{}

/// The headers of a message and of all its parts, the bytes of all their bodies, and three for each
/// part are together no more than the bytes of the message, whatever charsets are known and under
/// every limit on levels.
pub fn nodes_bounded()
    ensures { (known : Charsets) (greatest : ℕ) (bytes : List ℕ) (mail : Tree) →
        read_mail_in known greatest bytes ≡ Ok mail → IsBounded mail (length bytes) }
{}

/// A message that is read under one limit on levels is read as the same tree under every greater
/// one, whatever charsets are known. Under the lower limit it is read or refused exactly as under
/// the greater one, unless the lower limit itself refuses it.
pub fn levels_agree()
    ensures read { (known : Charsets) (lower greater : ℕ) (bytes : List ℕ) (mail : Tree) →
        lower ≤ greater → read_mail_in known lower bytes ≡ Ok mail →
        read_mail_in known greater bytes ≡ Ok mail }
    ensures refused { (known : Charsets) (lower greater : ℕ) (bytes : List ℕ) → lower ≤ greater →
        (read_mail_in known lower bytes ≡ Err recursion_limit)
        ⊎ (read_mail_in known lower bytes ≡ read_mail_in known greater bytes) }
{}
