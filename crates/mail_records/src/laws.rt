//! Laws: the records of a mail, with what is read of them, and its line of JSON say the same.
ghost use Rattle.std.specs.Prelude.{◌≡◌, Bool, List, Ok, Some, codes, map};
ghost use Rattle.mail_codec.specs.Charset.{Charsets};
ghost use Rattle.mail_read.specs.lenient.FileNames.{lenient_file_name};
ghost use Rattle.mail_read.specs.PartPlaces.{places};
ghost use Rattle.mail_read.specs.lenient.Manner.{lenient_type_of};
ghost use Rattle.mailparse.specs.Header.{Header};
ghost use Rattle.mailparse.specs.Mail.{Node, Tree, trees_within};
ghost use Rattle.mailparse.specs.Map.{first_with_key};
ghost use Rattle.mail_read.specs.Reading.{mail_placements};
ghost use Rattle.mail_records.specs.Laws.{of_item, of_place};
ghost use Rattle.mail_records.specs.Ranges as read;
ghost use Rattle.mail_records.specs.Records.{families, items_of, none};

/// The messages that have records are those that the JSON lists under `parts` for the mail itself,
/// in the same order and with the same ranges. What a record and an object then say of a message is
/// given by the same words: its ranges, its transfer encoding, its disposition, and whether it is
/// attached, extracted or shown as text. Given the first headers of a message, `rocktray_file_name`
/// and `rocktray_type` read the file name and the type that the JSON has.
#[tactic(auto, using(crate::proofs::lemmas::Laws::json_agrees))]
pub fn records_say_what_the_json_says()
    ensures messages { (mail : Tree) →
        map of_item (items_of (trees_within mail) (mail_placements mail) (families 0 none 0 mail))
        ≡ map of_place (places mail (mail_placements mail)) }
    ensures file_names { (known : Charsets) (node : Node) (disposition ctype : Header) →
        first_with_key (codes "Content-Disposition") node.headers ≡ Some disposition →
        first_with_key (codes "Content-Type") node.headers ≡ Some ctype →
        read.file_name known disposition.value ctype.value ≡ Ok (lenient_file_name known node) }
    ensures types { (known : Charsets) (in_digest : Bool) (headers : List Header)
        (ctype : Header) → first_with_key (codes "Content-Type") headers ≡ Some ctype →
        read.type_of known ctype.value ≡ lenient_type_of known in_digest headers }
{}
