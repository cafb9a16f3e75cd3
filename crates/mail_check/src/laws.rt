//! What the definitions mean, as laws over all mails.
//!
//! Each function does nothing; its contract is the law.
ghost use Rattle.std.specs.Prelude.{◌≡◌, ◌↔◌, [], ℕ, List, All};
ghost use Rattle.mail_codec.specs.Charset.{Charsets};
ghost use Rattle.mailparse.specs.Mail.{Tree, root};
ghost use Rattle.mailparse.specs.Placement.{placements};
ghost use Rattle.mail_read.specs.PartPlaces.{Place};
ghost use Rattle.mail_check.specs.Clean.{HasPlainBytes};
ghost use Rattle.mail_check.specs.Findings.{Spot, byte_findings, findings, message_findings};

/// There is no finding of the bytes of a mail exactly if these contain no NUL and no CR without a
/// LF after it, and not both CR LF and a LF without a CR before it.
#[tactic(auto, using(crate::proofs::lemmas::Clean::plain_bytes_are_clean))]
pub fn plain_bytes_have_no_findings()
    ensures { (spot : Spot) (bytes : List ℕ) →
        (byte_findings spot bytes ≡ []) ↔ HasPlainBytes bytes }
{}

/// So the bytes of a mail without findings are plain in this sense.
#[tactic(auto, using(crate::proofs::lemmas::Clean::clean_is_plain))]
pub fn clean_mails_have_plain_bytes()
    ensures { (known : Charsets) (t : Tree) →
        findings known t (placements 0 t) ≡ [] → HasPlainBytes (root t).bytes }
{}

/// Each finding of a message has the path of that message.
pub fn findings_have_the_paths_of_their_parts()
    ensures { (known : Charsets) (place : Place) (number : ℕ) →
        All (λ finding. finding.path ≡ place.path) (message_findings known number place) }
{}
