//! Four jobs on a mailbox, as callers of the library: the index of each mail, its files, the
//! recipients that it reports as not reached, and its place in a thread.
//!
//! It reads a mailbox from standard input and writes a few lines for each mail. For a mail that is
//! refused it writes a line with the error, and reads the next one.
#![tactic(auto)]

mod attachments;
mod bounces;
mod indexer;
mod report;
mod threads;

use mail_data::mailbox::{Format, read_mailbox};
use report::report;
use std::io::Read;

fn main(rt: HostRuntime) -> anyhow::Result<()> {
    let alloc = rt.alloc();
    let mut mailbox = Vec::new(alloc);
    rt.reader().read_to_end(&mut mailbox)?;
    let mails = read_mailbox(mailbox.as_slice(), Format::Plain);
    if !mails.front().trim_ascii().is_empty() {
        println!(rt; "refused: The mailbox does not begin with a line `From `\n")?;
    }
    for entry in mails {
        print!(rt; "{}", report(alloc, entry.mail())?)?;
    }
    Ok(())
}
