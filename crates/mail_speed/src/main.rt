//! Times tasks on the bytes of standard input: `mail_speed ROUNDS TASK..`; or decodes them:
//! `mail_speed recode LABEL`.
//!
//! TASK is one of these, or the label of an encoding of several bytes, in which the input is
//! decoded:
//!
//! - `lines` finds each LF, `absent` searches for a byte that is absent, and `text` for a text that
//!   begins with LF,
//! - `whitespace` removes ASCII whitespace,
//! - `base64`, `base64-body` (without whitespace, as in the body of a message) and
//!   `quoted-printable` decode the input,
//! - `parse` reads a message, `values` also the value of each of its headers, and `full` the values
//!   and decoded bodies of all its parts,
//! - `mailbox-parse` and `mailbox-full` do so with each message of a mailbox, and `mailbox-check`
//!   lists its findings,
//! - `html` reads the text of HTML in UTF-8.
//!
//! The size of the result goes to standard output. The nanoseconds for each byte of the input, the
//! least and the median of the rounds, go to standard error. bench/bench.py runs it on large
//! bodies, on texts in each encoding, and on large mails and mailboxes.
//!
//! `recode` writes the input, decoded from the encoding of several bytes that has this label, as
//! UTF-8, for tests/test_charsets.py. The exit status is 1 if no such encoding has the label.
#![tactic(auto)]

mod tasks;
mod times;

use std::alloc::Global;
use std::env;
use std::io::{self, Read};
use std::process::ExitCode;
use times::{for_each_byte, times_of};

fn main(rt: HostRuntime) -> io::Result<ExitCode> {
    let mut arguments = env::args(&rt)?.skip(1);
    let first = arguments.next().unwrap_or(String::new(rt.alloc()));
    let is_recode = first.as_str() == "recode";
    let rounds = first.parse::<usize>().unwrap_or(0);
    if rounds == 0 && !is_recode {
        eprintln!(rt; "usage: mail_speed ROUNDS TASK.., or mail_speed recode LABEL")?;
        return Ok(ExitCode::FAILURE);
    }
    let mut input = Vec::new(rt.alloc());
    rt.reader().read_to_end(&mut input)?;
    if is_recode {
        let label = arguments.next().unwrap_or(String::new(rt.alloc()));
        return recode(&rt, rt.alloc(), label.as_str(), input.as_slice());
    }
    for task in arguments {
        match tasks::run(rt.alloc(), task.as_str(), input.as_slice()) {
            Ok(size) => println!(rt; "{task}: {} bytes make {size}", input.len())?,
            Err(fault) => {
                eprintln!(rt; "mail_speed: {task}: {fault}")?;
                return Ok(ExitCode::FAILURE);
            }
        }
        let times = times_of(&rt, rt.alloc(), task.as_str(), input.as_slice(), rounds)?;
        let least = for_each_byte(times.first(), input.len());
        let median = for_each_byte(times.get(times.len() / 2), input.len());
        eprintln!(rt;
            "{task}: least {}.{:03}, median {}.{:03} ns a byte",
            least / 1000,
            least % 1000,
            median / 1000,
            median % 1000
        )?;
    }
    Ok(ExitCode::SUCCESS)
}

/// Writes the input, decoded from the encoding of several bytes that has this label.
fn recode<R: Print + Eprint>(
    rt: &R,
    alloc: Global,
    label: &str,
    input: &[u8],
) -> io::Result<ExitCode> {
    match tasks::text_of(alloc, label, input)? {
        Some(text) => {
            print!(rt; "{text}")?;
            Ok(ExitCode::SUCCESS)
        }
        None => {
            eprintln!(rt; "mail_speed: no encoding has the label {label}")?;
            Ok(ExitCode::FAILURE)
        }
    }
}
