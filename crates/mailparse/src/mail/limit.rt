//! The limit on the items of a mail: its messages and headers.
ghost use Rattle.std.specs.Prelude.{Ok};
ghost use Rattle.mailparse.specs.Block.{read_block};
ghost use Rattle.mailparse.specs.Limit.{headers_met, limited};
ghost use Rattle.mailparse.specs.Outcome.{Answers};
ghost use Rattle.mailparse.specs.private.Limit.{less};

use super::header_part;
use crate::error::MailParseError;
use crate::headers::block::count_headers;
use crate::manner::ReadingManner;

/// Returns how many items are left after this many, or refuses them if they are more than are left.
/// `None` is no limit.
pub(super) fn less(left: Option<usize>, count: usize) -> Result<Option<usize>, MailParseError>
    ensures { Answers (λ found. found) result (limited left count (Ok (less left count))) }
{
    let Some(most) = left else {
        return Ok(None);
    };
    if most < count {
        return Err(MailParseError::Generic("Too many parts and headers"));
    }
    Ok(Some(most - count))
}

/// Refuses the message in `raw` if its block has more headers than are left.
///
/// The block is read twice only if it could have that many headers.
pub(super) fn check_headers<M: ReadingManner>(
    left: Option<usize>,
    raw: &[u8],
    manner: &M,
) -> Result<(), MailParseError>
    ensures { Answers (λ found. found) result
        (limited left (headers_met (read_block (M.manner manner.now).lenient_headers raw.now))
        (Ok tt)) }
{
    let Some(most) = left else {
        return Ok(());
    };
    if raw.len() <= most {
        return Ok(());
    }
    less(left, count_headers(header_part(raw, manner)))?;
    Ok(())
}
