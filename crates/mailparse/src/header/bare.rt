//! The key of a header without the blanks at its end (RFC 5322, section 4.5).
ghost use Rattle.std.specs.Prelude.{◌≡◌, drop};
ghost use Rattle.mail_codec.specs.Ascii.{is_blank};
ghost use Rattle.mail_codec.specs.Places.{begins};
ghost use Rattle.mailparse.specs.Block.{bare_header, bare_key};

use super::MailHeader;

/// Removes the blanks at the end of the key of a header.
#[inline(always)]
pub(crate) fn make_key_bare(header: &mut MailHeader<'_>)
    ensures { header.new ≡ bare_header header.old }
{
    header.key = bare_key(header.key);
}

/// Returns the key without the blanks at its end.
#[inline(always)]
fn bare_key(key: &[u8]) -> &[u8]
    ensures { result.now ≡ bare_key key.now }
{
    let mut end = key.len();
    'blanks: while 0 < end && is_blank_at(key, end - 1) {
        end -= 1;
    }
    &key[..end]
}

/// Whether a space or a tab is at `place`.
fn is_blank_at(key: &[u8], place: usize) -> bool
    ensures { result ≡ begins is_blank (drop place key.now) }
{
    matches!(key.get(place), Some(b' ' | b'\t'))
}
