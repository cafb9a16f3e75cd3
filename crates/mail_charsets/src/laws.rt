//! The meaning of the definitions, as laws over all bytes and all indexes.
//!
//! Each function does nothing; its contract is the law.
ghost use Rattle.std.specs.Prelude.{◌≡◌, is_some, true, ◌∷◌, [], ◌++◌, ℕ, ◌<◌, List, Option, drop, length, slice_index, encode_utf8_all};
ghost use Rattle.mail_codec.specs.Charset.{four_charsets};
ghost use Rattle.mail_codec.specs.Front.{Taken, text_by};
ghost use Rattle.mail_charsets.specs.All.{all_known};
ghost use Rattle.mail_charsets.specs.declared.all.AllCharsets.{AllCharsets};
ghost use Rattle.mail_charsets.specs.Front.{TakesFew, front_by};
ghost use Rattle.mail_charsets.specs.EucKr.{euc_kr_front};
ghost use Rattle.mail_charsets.specs.ShiftJis.{shift_jis_front};
ghost use Rattle.mail_charsets.specs.Gb18030.{gb18030_front};
ghost use Rattle.mail_charsets.specs.Big5.{big5_front};
ghost use Rattle.mail_charsets.specs.EucJp.{euc_jp_front};

/// The text of bytes is that of the characters at their front, and then that of the bytes right
/// after those that these characters take. So every byte is read exactly once.
pub fn every_byte_is_read_once()
    ensures { (front : List ℕ → Taken) (bytes : List ℕ) → 0 < length bytes → 0 < (front bytes).1
        → text_by front bytes
        ≡ encode_utf8_all (front bytes).0 ++ text_by front (drop (front bytes).1 bytes) }
{}

/// An ASCII byte at the front is its own character, in EUC-KR, Shift_JIS, GBK, gb18030, Big5 and
/// EUC-JP.
pub fn ascii_stays_ascii()
    ensures { (long : List ℕ → Option Taken) (single : ℕ → Option ℕ) (pairs : ℕ → ℕ → List ℕ)
        (bytes : List ℕ) → slice_index bytes 0 < 0x80
        → front_by long single pairs bytes ≡ (slice_index bytes 0 ∷ [], 1) }
{}

/// The characters at the front take at least one byte, at most four, and no more than there are
/// bytes.
pub fn at_most_four_bytes_are_taken()
    ensures euc_kr { (index bytes : List ℕ) → 0 < length bytes
        → TakesFew (length bytes) (euc_kr_front index bytes) }
    ensures shift_jis { (index bytes : List ℕ) → 0 < length bytes
        → TakesFew (length bytes) (shift_jis_front index bytes) }
    ensures gb18030 { (index : List ℕ) (ranges : List (ℕ × ℕ)) (bytes : List ℕ) → 0 < length bytes
        → TakesFew (length bytes) (gb18030_front index ranges bytes) }
    ensures big5 { (index plane bytes : List ℕ) → 0 < length bytes
        → TakesFew (length bytes) (big5_front index plane bytes) }
    ensures euc_jp { (index second bytes : List ℕ) → 0 < length bytes
        → TakesFew (length bytes) (euc_jp_front index second bytes) }
{}

/// A label of UTF-8, windows-1252 or UTF-16 means that charset, whatever tables and indexes
/// `AllCharsets` has. So a value that is written in encoded words of UTF-8 reads back under it.
pub fn the_four_come_first()
    ensures { (all : AllCharsets) (label : List ℕ) → is_some (four_charsets label) ≡ true
        → all_known all label ≡ four_charsets label }
{}
