//! The command line of the program.

use clap::builder::ValueParser;
use clap::{Arg, ArgAction, Command};
use mail_inputs::PROGRAM;
use mail_version::VERSION;
use std::alloc::{AllocError, Global};

/// The subcommand that reports where programs may read a mail differently.
pub const CHECK: &str = "check";

/// The subcommand that saves files.
pub const EXTRACT: &str = "extract";

/// The subcommand that writes lines of JSON.
pub const JSON: &str = "json";

/// The subcommand that shows mails to people.
pub const SHOW: &str = "show";

/// The names of options and arguments.
pub mod ids {
    pub const BY_HASH: &str = "by-hash";

    pub const CHECK: &str = "check";

    pub const CLASS: &str = "class";

    pub const FLOWED: &str = "flowed";

    pub const HASH: &str = "hash";

    pub const HTML_TEXT: &str = "html-text";

    pub const INPUTS: &str = "inputs";

    pub const INTO: &str = "into";

    pub const JSON: &str = "json";

    pub const LABEL: &str = "label";

    pub const MAIL: &str = "mail";

    pub const MAX_BYTES: &str = "max-bytes";

    pub const MAX_ITEMS: &str = "max-items";

    pub const MBOX: &str = "mbox";

    pub const NAME: &str = "name";

    pub const NO_TEXT: &str = "no-text";

    pub const ONLY: &str = "only";

    pub const PART: &str = "part";

    pub const PROGRESS: &str = "progress";

    pub const QUIET: &str = "quiet";

    pub const RECURSIVE: &str = "recursive";

    pub const STDOUT: &str = "stdout";

    pub const TYPE: &str = "type";

    pub const WINDOWS_NAMES: &str = "windows-names";
}

/// The formats of mailboxes that `--mbox` names: mboxo, mboxrd, and mboxcl or mboxcl2.
pub const FORMATS: [&str; 3] = ["o", "rd", "cl"];

/// The classes of findings.
const CLASSES: [&str; 5] = ["structure", "bytes", "name", "text", "note"];

/// The end of a help: a text, and then the exit statuses of all subcommands.
macro_rules! with_statuses {
    ($text:literal) => {
        concat!(
            $text,
            "\
Exit status:
  0  all was read, and written or saved
  1  something could not be read, written or saved
  2  the arguments are wrong
  3  mails were refused, files were damaged, or something was found"
        )
    };
}

/// The end of the help.
const STATUSES: &str = with_statuses!("");

/// The end of the help of the subcommand `json`.
const AFTER_JSON: &str = with_statuses!(
    "\
Without an INPUT, and for `-`, standard input is read. Of a directory each file is read, or the
mails of a Maildir. After `--` no argument is an option.

An input that begins with a separator of a mailbox is a mailbox, any other is one mail, unless an
option says which it is. --mbox=rd is the mboxrd format, whose quoted lines lose a `>`, and
--mbox=cl the mboxcl or mboxcl2 format, with Content-Length.

Of each file, --part K/N reads the mails whose separator begins in the K-th of N equal parts of the
file. Their `number` is null.

A mail that is refused, and an input that cannot be read, has a line with the member `error`. With
--check each other line has the member `findings`, what rocktray check finds, and the exit status
does not change.

Without --max-bytes, N is 8 times the size of the mail plus 64 MiB. If memory runs out, the line of
the input has an `error`, and the next input is read.

"
);

/// The end of the help of the subcommand `show`.
const AFTER_SHOW: &str = with_statuses!(
    "\
Without an INPUT, and for `-`, standard input is read. Of a directory each file is read, or the
mails of a Maildir. After `--` no argument is an option.

An input that begins with a separator of a mailbox is a mailbox, any other is one mail, unless an
option says which it is. --mbox=rd is the mboxrd format, whose quoted lines lose a `>`, and
--mbox=cl the mboxcl or mboxcl2 format, with Content-Length.

Each of several files has its name before it, and each text of a mail but the first the path of its
part. A character that could move the cursor of a terminal or forge a line is shown as U+FFFD.

"
);

/// The end of the help of the subcommand `extract`.
const AFTER_EXTRACT: &str = with_statuses!(
    "\
Without an INPUT, and for `-`, standard input is read. Of a directory each file is read, or the
mails of a Maildir. After `--` no argument is an option.

An input that begins with a separator of a mailbox is a mailbox, any other is one mail, unless an
option says which it is. --mbox=rd is the mboxrd format, whose quoted lines lose a `>`, and
--mbox=cl the mboxcl or mboxcl2 format, with Content-Length.

A file is saved under the name that its sender gave it, made safe. If that is taken, a number is
added. No file is overwritten. Parts without a name are saved too, except plain text and HTML, and
so are forwarded mails and the files in them. In a PATTERN `*` fits any text, and the case of ASCII
letters is ignored. A file is saved if it agrees with each of --only, --type and --name.

A file with damaged Base64 is saved up to the damage, and its line has an `error`. So has the line
of a mail that is refused, and of an input that cannot be read. Standard error names what was not
saved, too. If --only is given and no file is kept, it says so, and the exit status is 1.

Without --max-bytes, N is 8 times the size of the mail plus 64 MiB. If memory runs out, the line of
the input has an `error`, and the next input is read.

With --stdout the only file that is kept of one INPUT is written to standard output, and nothing
else. If no file is kept, or several, the exit status is 1 and nothing is written there. Standard
error has the lines of the files if anything is wrong.

"
);

/// The end of the help of the subcommand `check`.
const AFTER_CHECK: &str = with_statuses!(
    "\
Without an INPUT, and for `-`, standard input is read. Of a directory each file is read, or the
mails of a Maildir. After `--` no argument is an option.

An input that begins with a separator of a mailbox is a mailbox, any other is one mail, unless an
option says which it is. --mbox=rd is the mboxrd format, whose quoted lines lose a `>`, and
--mbox=cl the mboxcl or mboxcl2 format, with Content-Length.

Of each finding its name, its class, its part and its bytes in the mail are written, and a sentence
that says what programs read. Bytes that are no printable ASCII are escaped. A mail without a
finding has no text, and with --json a line whose list is empty. After the findings of a mail come
those of the mails inside it that are not encoded.

The class structure says that programs may find other parts, bytes that they may decode others, and
name that they may read another file name, sender or subject. A note is a risk without that.

"
);

/// Returns the command line of the program.
///
/// # Errors
///
/// If it runs out of memory.
pub fn command<'a>(alloc: Global) -> Result<Command<'a>, AllocError> {
    Command::new(alloc, PROGRAM)
        .bin_name(PROGRAM)?
        .about("Reads mails and mailboxes.")
        .after_help(STATUSES)
        .version(VERSION)
        .propagate_version(true)
        .no_binary_name(true)
        .subcommand_required(true)
        .arg_required_else_help(true)
        .subcommand(json(alloc)?)?
        .subcommand(show(alloc)?)?
        .subcommand(extract(alloc)?)?
        .subcommand(check(alloc)?)
}

/// Returns the command line of the subcommand `json`.
fn json<'a>(alloc: Global) -> Result<Command<'a>, AllocError> {
    let command = Command::new(alloc, JSON)
        .display_name("rocktray json")?
        .about("Writes mails as JSON, one object to a line")
        .after_help(AFTER_JSON);
    reading(alloc, command)?
        .arg(most_bytes(alloc))?
        .arg(part(alloc)?)?
        .arg(flag(
            alloc,
            ids::HASH,
            "Give each part that is extracted the SHA-256 of its bytes",
        ))?
        .arg(flag(
            alloc,
            ids::FLOWED,
            "Show each paragraph in format=flowed as one line",
        ))?
        .arg(flag(alloc, ids::HTML_TEXT, "Show the text of HTML beside it"))?
        .arg(flag(
            alloc,
            ids::CHECK,
            "List what rocktray check finds in each mail",
        ))?
        .arg(flag(
            alloc,
            ids::NO_TEXT,
            "Decode no body: leave out texts, decoded sizes and hashes",
        ))?
        .arg(flag(
            alloc,
            ids::PROGRESS,
            "Report the progress even if standard error is not a terminal",
        ))
}

/// Returns the command line of the subcommand `show`.
fn show<'a>(alloc: Global) -> Result<Command<'a>, AllocError> {
    let command = Command::new(alloc, SHOW)
        .display_name("rocktray show")?
        .about("Shows mails as text to read")
        .after_help(AFTER_SHOW);
    reading(alloc, command)
}

/// Returns the command line of the subcommand `extract`.
fn extract<'a>(alloc: Global) -> Result<Command<'a>, AllocError> {
    let command = Command::new(alloc, EXTRACT)
        .display_name("rocktray extract")?
        .about("Saves the files in mails, and writes a line of JSON for each")
        .after_help(AFTER_EXTRACT);
    let command = reading(alloc, command)?
        .arg(most_bytes(alloc))?
        .arg(directory(alloc))?
        .arg(flag(
            alloc,
            ids::HASH,
            "Give each line the SHA-256 of the saved bytes",
        ))?
        .arg(flag(
            alloc,
            ids::BY_HASH,
            "Save each file under the SHA-256 of its bytes, and copies once",
        ))?
        .arg(windows_names(alloc)?)?;
    choosing(alloc, command)
}

/// Returns the command line of the subcommand `check`.
fn check<'a>(alloc: Global) -> Result<Command<'a>, AllocError> {
    let command = Command::new(alloc, CHECK)
        .display_name("rocktray check")?
        .about("Reports where other programs may read a mail differently")
        .after_help(AFTER_CHECK);
    reading(alloc, command)?
        .arg(class(alloc))?
        .arg(flag(alloc, ids::JSON, "Write a line of JSON for each mail"))?
        .arg(quiet(alloc)?)
}

/// Returns the option that says which findings are reported.
fn class<'a>(alloc: Global) -> Arg<'a> {
    value(
        alloc,
        ids::CLASS,
        "CLASS",
        "Report only the findings of this class; may be given several times",
    )
    .action(ArgAction::Append)
    .value_parser(CLASSES.as_slice())
}

/// Returns the option that writes nothing.
fn quiet<'a>(alloc: Global) -> Result<Arg<'a>, AllocError> {
    flag(
        alloc,
        ids::QUIET,
        "Write nothing: the exit status says whether something was found",
    )
    .conflicts_with(ids::JSON)
}

/// Adds the options that say which files are saved.
fn choosing<'a>(alloc: Global, command: Command<'a>) -> Result<Command<'a>, AllocError> {
    command
        .arg(value(
            alloc,
            ids::ONLY,
            "PATH",
            "Save only the files of the part with this path, such as 1.2",
        ))?
        .arg(value(
            alloc,
            ids::TYPE,
            "PATTERN",
            "Save only the files whose type fits, such as image/*",
        ))?
        .arg(value(
            alloc,
            ids::NAME,
            "PATTERN",
            "Save only the files whose name fits, such as *.pdf",
        ))?
        .arg(to_stdout(alloc)?)
}

/// Returns the option that changes names so that Windows takes them.
fn windows_names<'a>(alloc: Global) -> Result<Arg<'a>, AllocError> {
    flag(
        alloc,
        ids::WINDOWS_NAMES,
        "Change names that Windows reserves or refuses, such as NUL",
    )
    .conflicts_with(ids::STDOUT)
}

/// Returns the option that writes the only file to standard output.
fn to_stdout<'a>(alloc: Global) -> Result<Arg<'a>, AllocError> {
    flag(
        alloc,
        ids::STDOUT,
        "Save no file, and write the only one to standard output",
    )
    .conflicts_with(ids::INTO)?
    .conflicts_with(ids::HASH)?
    .conflicts_with(ids::BY_HASH)
}

/// Adds the inputs and the options that say how they are read.
fn reading<'a>(alloc: Global, command: Command<'a>) -> Result<Command<'a>, AllocError> {
    command
        .arg(inputs(alloc))?
        .arg(flag(alloc, ids::MAIL, "Each input is one mail"))?
        .arg(format(alloc)?)?
        .arg(limit(alloc))?
        .arg(flag(
            alloc,
            ids::RECURSIVE,
            "Read the subdirectories of directories too",
        ))?
        .arg(value(
            alloc,
            ids::LABEL,
            "NAME",
            "The name of standard input in the output",
        ))
}

/// Returns an option without a value.
fn flag<'a>(alloc: Global, id: &'a str, help: &'a str) -> Arg<'a> {
    Arg::new(alloc, id)
        .long(id)
        .action(ArgAction::SetTrue)
        .help(help)
}

/// Returns an option with a value.
fn value<'a>(alloc: Global, id: &'a str, name: &'a str, help: &'a str) -> Arg<'a> {
    Arg::new(alloc, id).long(id).value_name(name).help(help)
}

/// Returns the option that limits the messages, parts and headers of a mail.
fn limit<'a>(alloc: Global) -> Arg<'a> {
    value(
        alloc,
        ids::MAX_ITEMS,
        "N",
        "Refuse a mail with more than N parts and headers; 1000000 by default",
    )
    .value_parser(ValueParser::Unsigned(1, u64::MAX))
}

/// Returns the option that limits the bytes that are decoded for the mails inside a mail.
fn most_bytes<'a>(alloc: Global) -> Arg<'a> {
    value(
        alloc,
        ids::MAX_BYTES,
        "N",
        "Refuse a mail whose inner mails are decoded to more than N bytes",
    )
    .value_parser(ValueParser::Unsigned(0, u64::MAX))
}

/// Returns the option that says that each input is a mailbox.
fn format<'a>(alloc: Global) -> Result<Arg<'a>, AllocError> {
    value(alloc, ids::MBOX, "FORMAT", "Each input is a mailbox")
        .num_args(0..=1)
        .require_equals(true)
        .default_missing_value(FORMATS[0])
        .value_parser(FORMATS.as_slice())
        .conflicts_with(ids::MAIL)
}

/// Returns the option that reads a part of each file.
fn part<'a>(alloc: Global) -> Result<Arg<'a>, AllocError> {
    value(
        alloc,
        ids::PART,
        "K/N",
        "Read the K-th of N equal parts of each file",
    )
    .conflicts_with(ids::MAIL)
}

/// Returns the option that names the directory in which files are saved.
fn directory<'a>(alloc: Global) -> Arg<'a> {
    value(
        alloc,
        ids::INTO,
        "DIRECTORY",
        "Where to save; the current directory by default",
    )
    .value_parser(ValueParser::NonEmptyString)
}

/// Returns the argument that names the inputs.
fn inputs<'a>(alloc: Global) -> Arg<'a> {
    Arg::new(alloc, ids::INPUTS)
        .value_name("INPUT")
        .action(ArgAction::Append)
        .num_args(0..)
        .value_parser(ValueParser::NonEmptyString)
        .help("Files, directories, and `-` for standard input")
}
