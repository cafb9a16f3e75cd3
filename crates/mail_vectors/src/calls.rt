//! The calls of the suite, by topic. The `make` of each topic has an arm for each of its calls, and
//! returns whether it has the one of a row.

mod addresses;
mod codecs;
mod debug;
mod files;
mod headers;
mod latin1;
mod lenient;
mod mails;
mod outlines;
mod parts;
mod sweeps;
mod texts;
mod types;
mod under;
mod values;

use crate::notation::{Answer, Decision, Refusal, Row};

/// Makes the call that a row names, and writes its result, which may be a refusal.
pub fn make(answer: &mut Answer, row: &Row) {
    match make_any(answer, row) {
        Ok(true) => {}
        Ok(false) => row.reject(),
        Err(error) => error.refuse(answer),
    }
}

/// The same, except that the caller writes a refusal. The last topic has the calls that end in
/// `_with` and are not in another one.
fn make_any(answer: &mut Answer, row: &Row) -> Decision {
    Ok(
        codecs::make(answer, row)?
            || sweeps::make(answer, row)?
            || values::make(answer, row)?
            || types::make(answer, row)?
            || headers::make(answer, row)?
            || parts::make(answer, row)?
            || mails::make(answer, row)?
            || files::make(answer, row)?
            || texts::make(answer, row)?
            || lenient::make(answer, row)?
            || addresses::make(answer, row)?
            || outlines::make(answer, row)?
            || debug::make(answer, row)?
            || under::make(answer, row)?,
    )
}
