//! Laws: each line is JSON.
ghost use Rattle.std.specs.Prelude.{◌++◌, ◌≡◌, List, codes, ℕ};
ghost use Rattle.mail_extract.specs.FileLine.{FileLine, file_line_value};
ghost use Rattle.mail_json_text.specs.JsonLine.{IsJsonLine};
ghost use Rattle.mail_json_text.specs.Printed.{line_of};

/// Each line that is written of a file is JSON, and ends in its only LF: the parser of the crate
/// `json` reads the text before the LF as a value in which no object has a key twice, which is
/// `file_line_value`. No other byte of the line is a control: it is neither below the space nor DEL.
#[tactic(auto, using(crate::proofs::lemmas::FileLine::file_is_json))]
pub fn lines_are_json()
    ensures file { (line : FileLine) → (object : List ℕ)
        × IsJsonLine (file_line_value line) object
        × (line_of (file_line_value line) ≡ object ++ codes "\n") }
{}
