//! Shows the mail on standard input as `rocktray show` does, for a checkout in which nothing is built: of all programs
//! it is the one that `rt try` compiles in the least time.
#![tactic(auto)]

use mail_charsets::AllCharsets;
use mail_html::References;
use mail_program::{Fault, read_input, status_of};
use mail_read::reading::DEFAULT_LIMIT;
use mail_view::write_single;
use std::io;
use std::process::ExitCode;

fn main(rt: HostRuntime) -> ExitCode {
    status_of(&rt, "rocktray", show(&rt))
}

/// Shows the mail, and returns the exit status.
fn show(rt: &(impl Input + Print + AllocGlobal)) -> Result<ExitCode, Fault> {
    let input = read_input(rt.alloc(), &mut rt.reader())?;
    let known = &AllCharsets::standard();
    let references = &References::standard();
    let out = &mut io::writer(rt);
    let mail = input.as_slice();
    let outcome = write_single(rt.alloc(), out, mail, DEFAULT_LIMIT, references, known)?;
    Ok(outcome.status())
}
