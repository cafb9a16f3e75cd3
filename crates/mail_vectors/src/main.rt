//! Replays the suite: each row of the given files is a call with its inputs and its expected
//! result. The rows that differ are printed, with what the call returned.
//!
//! With `again` among the arguments, a row that runs out of memory is tried again while that may
//! help. So a run under failing allocations shows that each call reports them, and that it returns
//! the same afterwards. The last lines on standard error report how often that was, and how many
//! rows passed.
#![tactic(auto)]

mod calls;
mod notation;
mod replay;

use replay::Tally;
use std::process::ExitCode;
use std::{env, fs};

/// How often a row is tried again with `again`.
const TIMES: u32 = 100_000;

fn main(rt: HostRuntime) -> anyhow::Result<ExitCode> {
    let mut tally = Tally::new(rt.alloc());
    let mut times = 0;
    for argument in env::args(&rt)?.skip(1) {
        if argument.as_str() == "again" {
            times = TIMES;
        } else {
            let suite = fs::read_to_string(&rt, argument.as_str())?;
            tally.replay(rt.alloc(), suite.as_str(), times)?;
        }
    }
    print!(rt; "{}", tally.differences)?;
    let (passed, failed, refused) = (tally.passed, tally.failed, tally.refused);
    eprintln!(rt; "memory ran out {refused} times")?;
    eprintln!(rt; "{passed} passed, {failed} failed")?;
    if failed == 0 && passed > 0 {
        Ok(ExitCode::SUCCESS)
    } else {
        Ok(ExitCode::FAILURE)
    }
}
