//! Shows a mail: `mail_show [FILE]`.
#![tactic(auto)]

mod request;
mod run;
mod text;

use mail_program::{Fault, arguments, status_of};
use mail_version::VERSION;
use request::{HELP, Request, USAGE, request_of};
use run::run;
use std::process::ExitCode;
use std::rt::Files;
use std::{fs, io};

fn main(rt: HostRuntime) -> ExitCode {
    let arguments = match arguments(&rt) {
        Ok(arguments) => arguments,
        Err(error) => {
            let _ = eprintln!(rt; "mail_show: the arguments could not be read: {error}");
            return ExitCode::FAILURE;
        }
    };
    status_of(&rt, "mail_show", answer(&rt, arguments.as_slice()))
}

/// Does what the arguments ask for, and returns the exit status.
fn answer(
    rt: &(impl Files + Input + Print + Eprint + AllocGlobal),
    arguments: &[String],
) -> Result<ExitCode, Fault> {
    match request_of(arguments) {
        Request::Help => rt.print(HELP)?,
        Request::Version => println!(rt; "mail_show {VERSION}")?,
        Request::Wrong => {
            let _ = eprintln!(rt; "{USAGE}");
            return Ok(ExitCode::from(2));
        }
        Request::Input => run(rt.alloc(), &mut rt.reader(), &mut io::writer(rt))?,
        Request::File(name) => match fs::open(rt, name) {
            Ok(mut file) => run(rt.alloc(), &mut file, &mut io::writer(rt))?,
            Err(error) => {
                let _ = eprintln!(rt; "mail_show: {name}: {error}");
                return Ok(ExitCode::FAILURE);
            }
        },
    }
    Ok(ExitCode::SUCCESS)
}
