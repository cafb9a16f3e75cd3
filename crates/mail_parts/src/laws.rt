//! Laws: no file is left out of the texts of a mail that is read.
ghost use Rattle.std.specs.Prelude.{◌≡◌, ◌≤◌, List, false, ℕ};
ghost use Rattle.mail_data.specs.TextFiles.{text_files};
ghost use Rattle.mail_parts.specs.Reading.{has_many_blocks};

/// If a text has at most as many blocks of uuencoded files as a limit says, no file in it is left
/// out: `text_files` returns the same with any greater limit. `read_mail` refuses a mail if a text
/// of it has more blocks.
#[tactic(auto, using(crate::proofs::lemmas::Reading::all_files))]
pub fn no_file_is_left_out()
    ensures { (limit greater : ℕ) (text : List ℕ) → has_many_blocks limit text ≡ false →
        limit ≤ greater → text_files greater text ≡ text_files limit text }
{}
