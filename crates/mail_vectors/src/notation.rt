//! The notation of the suite: a row is read into a call, its inputs and the expected answer, and
//! the result of a call is written in the same notation. `data/README.md` describes it.
ghost use Rattle.std.specs.Prelude.{◌≤◌};

use itoa::{Buffer, Integer};
use mail_address::WriteError;
use mail_read::lenient::DateError;
use mailparse::{MAX_LEVELS, MailParseError, ParsedMail, parse_mail};
use std::alloc::{AllocError, Global};
use std::borrow::CowStr;
use std::cell::Cell;
use std::fmt::{Debug, Display};
use std::str::from_utf8;

/// A row that does not follow the notation, or whose inputs are not those of its call.
pub const FORM: MailParseError = MailParseError::Generic("not a row of the suite");

/// The capacity of a new answer, so that writing it allocates nothing more. Nothing else allocates
/// a buffer of this size, so `tests/refuse.c`, which has the same constant, recognizes the start of
/// a row by it.
const ANSWER_SIZE: usize = 48_611;

/// The result of a call whose answer is written, or why it has no answer.
pub type Outcome = Result<(), MailParseError>;

/// Whether something is so, or why that cannot be said.
pub type Decision = Result<bool, MailParseError>;

/// An input, or an item of an answer.
#[derive(Drop)]
struct Item {
    /// Whether it is a text in quotes, and not a word.
    is_text: bool,
    bytes: Vec<u8>,
}

/// A row of the suite.
#[derive(Drop)]
pub struct Row {
    /// The name, or empty if the row has none.
    pub name: String,
    /// The call that is made.
    pub call: String,
    inputs: Vec<Item>,
    /// The inputs, or the items of the expected result, that are read so far.
    items: Vec<Item>,
    part: Part,
    /// The last quoted text by itself, which may be repeated.
    last: Vec<u8>,
    /// Whether the last word is a `+`.
    is_joined: bool,
    /// The expected result of the call.
    pub wanted: Answer,
    /// Whether the call must not allocate.
    pub is_free: bool,
    /// Whether an error is shown by its Debug text and those of its source and kind.
    is_debug: bool,
    /// Whether a call asked for an input that is missing or of another kind.
    is_malformed: Cell<bool>,
    pub alloc: Global,
}

impl Row {
    /// Reads `NAME: CALL INPUT.. => ITEM.. ! MARK..`, where the name and the marks are optional,
    /// and `refusal` may come before the call.
    pub fn read(alloc: Global, text: &str) -> Result<Row, MailParseError> {
        let (name, rest) = name_and_rest(text);
        let is_debug = rest.starts_with("refusal ");
        let rest = rest.strip_prefix("refusal ").unwrap_or(rest);
        let (call, rest) = rest.split_once(' ').unwrap_or((rest, ""));
        let mut row = Row {
            name: String::from_str(alloc, name)?,
            call: String::from_str(alloc, call)?,
            inputs: Vec::new(alloc),
            items: Vec::new(alloc),
            part: Part::Inputs,
            last: Vec::new(alloc),
            is_joined: false,
            wanted: Answer {
                written: Vec::new(alloc),
                is_debug,
                has_run_out: false,
                alloc,
            },
            is_free: false,
            is_debug,
            is_malformed: Cell::new(false),
            alloc,
        };
        row.take_items(rest)?;
        row.write_wanted()?;
        Ok(row)
    }

    /// Writes the expected result.
    fn write_wanted(&mut self) -> Result<(), AllocError> {
        for item in &std::mem::replace(&mut self.items, Vec::new(self.alloc)) {
            self.wanted.item(item);
        }
        self.wanted.outcome()
    }

    /// Takes the inputs, the answer and the marks.
    fn take_items(&mut self, text: &str) -> Outcome {
        let mut rest = text.trim_start();
        for _turn in 0..text.len() {
            if rest.is_empty() {
                break;
            }
            rest = self.take(rest)?.trim_start();
        }
        if self.part == Part::Inputs {
            Err(FORM)
        } else {
            Ok(())
        }
    }

    /// Takes the text or word at the front of a text, and returns the rest.
    fn take<'t>(&mut self, text: &'t str) -> Result<&'t str, MailParseError> {
        let quote = text.chars().next().unwrap_or(' ');
        if quote == '"' || quote == '\'' {
            let (raw, rest) = text.get(1..).unwrap_or("").split_once(quote).ok_or(FORM)?;
            self.take_text(raw)?;
            return Ok(rest);
        }
        let (word, rest) = text.split_once(' ').unwrap_or((text, ""));
        self.take_word(word)?;
        Ok(rest)
    }

    /// Takes a quoted text, which a `+` appends to the one before.
    fn take_text(&mut self, raw: &str) -> Outcome {
        self.last.clear();
        push_decoded(&mut self.last, raw)?;
        if !self.is_joined {
            self.add(true, Vec::new(self.alloc))?;
        }
        self.is_joined = false;
        self.append(1)
    }

    fn add(&mut self, is_text: bool, bytes: Vec<u8>) -> Outcome {
        Ok(self.items.push(Item { is_text, bytes })?)
    }

    /// Takes a word, which may be a sign of the notation.
    fn take_word(&mut self, word: &str) -> Outcome {
        match word {
            "=>" => {
                self.part = Part::Answer;
                self.inputs = std::mem::replace(&mut self.items, Vec::new(self.alloc));
            }
            "!" => self.part = Part::Marks,
            "no_memory" => self.is_free = true,
            "+" => self.is_joined = true,
            _ if self.part == Part::Marks => {}
            _ => return self.take_item(word),
        }
        Ok(())
    }

    /// Takes a word that is an item, or a `*COUNT` that repeats the last quoted text.
    fn take_item(&mut self, word: &str) -> Outcome {
        let Some(count) = word.strip_prefix('*') else {
            return self.add(false, word.as_bytes().to_vec(self.alloc)?);
        };
        self.append(count.parse::<usize>().ok().ok_or(FORM)?.saturating_sub(1))
    }

    /// Appends the last quoted text to the last item `times` times.
    fn append(&mut self, times: usize) -> Outcome {
        let item = self.items.last_mut().ok_or(FORM)?;
        Ok(push_times(&mut item.bytes, self.last.as_slice(), times)?)
    }

    /// Returns the bytes of an input.
    ///
    /// This call and the next ones return an empty value if the row has no such input; `fits`
    /// reports that afterwards, once for all inputs.
    pub fn bytes(&self, at: usize) -> &[u8] {
        match self.inputs.get(at) {
            Some(item) => item.bytes.as_slice(),
            None => {
                self.reject();
                b""
            }
        }
    }

    pub fn text(&self, at: usize) -> &str {
        self.given(from_utf8(self.bytes(at)).ok(), "")
    }

    /// Returns the text of an input, or `None` for the word `none`.
    pub fn optional_text(&self, at: usize) -> Option<&str> {
        match self.inputs.get(at) {
            Some(item) if !item.is_text && item.bytes.as_slice() == b"none".as_slice() => None,
            _ => Some(self.text(at)),
        }
    }

    /// Returns the number of an input.
    pub fn number(&self, at: usize) -> usize {
        self.given(self.text(at).parse::<usize>().ok(), 0)
    }

    /// Returns the number of levels of an input.
    pub fn levels(&self, at: usize) -> u8
        ensures { result ≤ MAX_LEVELS }
    {
        match u8::try_from(self.number(at)) {
            Ok(levels) if levels <= MAX_LEVELS => levels,
            _ => {
                self.reject();
                0
            }
        }
    }

    /// Parses the first input as a mail.
    pub fn mail(&self) -> Result<ParsedMail<'_>, MailParseError> {
        parse_mail(self.alloc, self.bytes(0))
    }

    /// Returns what an input says, or an empty value if it says nothing.
    fn given<T: Drop>(&self, found: Option<T>, empty: T) -> T {
        match found {
            Some(value) => value,
            None => {
                self.reject();
                empty
            }
        }
    }

    pub fn count(&self) -> usize {
        self.inputs.len()
    }

    /// Records that the inputs are not those of the call.
    pub fn reject(&self) {
        self.is_malformed.set(true);
    }

    /// Returns whether the inputs that were asked for are those of the call.
    pub fn fits(&self) -> bool {
        !self.is_malformed.get()
    }
}

/// Returns the name of a row, which ends in a colon before the first quote, and the rest.
fn name_and_rest(text: &str) -> (&str, &str) {
    match text.split_once(": ") {
        Some((name, rest)) if !name.contains('"') && !name.contains('\'') => (name, rest),
        _ => ("", text),
    }
}

/// The part of a row that is being read.
#[derive(Clone, Copy, PartialEq, Eq)]
enum Part {
    Inputs,
    Answer,
    Marks,
}

/// Appends a piece `times` times.
pub fn push_times(bytes: &mut Vec<u8>, piece: &[u8], times: usize) -> Result<(), AllocError> {
    for _turn in 0..times {
        bytes.extend_from_slice(piece)?;
    }
    Ok(())
}

/// Appends the bytes that a quoted text denotes.
fn push_decoded(bytes: &mut Vec<u8>, raw: &str) -> Outcome {
    // The first piece is plain, and so is one after an escaped backslash.
    let mut is_plain = true;
    for piece in raw.split('\\') {
        if is_plain {
            bytes.extend_from_slice(piece.as_bytes())?;
            is_plain = false;
        } else if piece.is_empty() {
            bytes.push(b'\\')?;
            is_plain = true;
        } else {
            push_escape(bytes, piece)?;
        }
    }
    Ok(())
}

/// Appends the bytes of an escape and of the text after it.
fn push_escape(bytes: &mut Vec<u8>, piece: &str) -> Outcome {
    let (letter, rest) = piece.split_at_checked(1).unwrap_or(("", ""));
    let (character, rest) = match letter {
        "n" => ('\n', rest),
        "r" => ('\r', rest),
        "t" => ('\t', rest),
        "0" => ('\0', rest),
        "x" => return push_byte(bytes, rest),
        "u" => numbered_char(rest)?,
        _ => return Err(FORM),
    };
    let mut buffer = [0; 4];
    bytes.extend_from_slice(character.encode_utf8(&mut buffer).as_bytes())?;
    Ok(bytes.extend_from_slice(rest.as_bytes())?)
}

/// Appends the byte of two hexadecimal digits, and the text after them.
fn push_byte(bytes: &mut Vec<u8>, text: &str) -> Outcome {
    let (digits, rest) = text.split_at_checked(2).unwrap_or(("", ""));
    bytes.push(u8::from_str_radix(digits, 16).ok().ok_or(FORM)?)?;
    Ok(bytes.extend_from_slice(rest.as_bytes())?)
}

/// Returns the character whose number is in braces, and the text after them.
fn numbered_char(text: &str) -> Result<(char, &str), MailParseError> {
    let (digits, rest) = text.split_once('}').unwrap_or(("", ""));
    let digits = digits.strip_prefix('{').unwrap_or("");
    let number = u32::from_str_radix(digits, 16).unwrap_or(u32::MAX);
    Ok((char::from_u32(number).ok_or(FORM)?, rest))
}

/// The result of a call, item by item: a word as it is, and a text with its length before it, so no
/// two lists of items look the same.
///
/// None of its calls fails: an answer records that memory ran out, and `outcome` reports that once.
/// So results are written in straight-line code without an early return after each item, which is
/// shorter and much cheaper to prove.
#[derive(Drop)]
pub struct Answer {
    written: Vec<u8>,
    /// Whether errors are shown by their Debug text.
    is_debug: bool,
    /// Whether memory ran out, in a call or while the answer was written.
    has_run_out: bool,
    pub alloc: Global,
}

/// The table of a topic: shows what the expression beside a name returns, and returns whether the
/// table has this name. With `input = VALUE`, the expressions share this value, which is made only
/// if the table has the name.
///
/// An expression has no `?` and drops nothing, since the proof of a table looks at each exit and
/// each value once more for all others.
macro_rules! calls {
    ($answer:expr, $name:expr; $($($known:literal)|+ => $value:expr,)+) => {{
        match $name {
            $($($known)|+ => match $value { value => $answer.put(value) },)+
            _ => return Ok(false),
        }
        Ok(true)
    }};
    (
        $answer:expr, $name:expr, $input:ident = $made:expr;
        $($($known:literal)|+ => $value:expr,)+
    ) => {{
        match $name {
            $($($known)|+)|+ => {}
            _ => return Ok(false),
        }
        let $input = $made;
        calls! { $answer, $name; $($($known)|+ => $value,)+ }
    }};
}

pub(crate) use calls;

/// Appends values to an answer.
macro_rules! put {
    ($answer:expr; $($value:expr),+) => {{ $($answer.put($value);)+ }};
}

pub(crate) use put;

impl Answer {
    /// Returns an answer without items, which shows errors as a row asks for.
    pub fn new(row: &Row) -> Result<Answer, AllocError> {
        Ok(Answer {
            written: Vec::with_capacity(row.alloc, ANSWER_SIZE)?,
            is_debug: row.is_debug,
            has_run_out: false,
            alloc: row.alloc,
        })
    }

    /// Returns whether the answer is complete.
    pub fn outcome(&self) -> Result<(), AllocError> {
        if self.has_run_out {
            Err(AllocError)
        } else {
            Ok(())
        }
    }

    pub fn as_bytes(&self) -> &[u8] {
        self.written.as_slice()
    }

    pub fn len(&self) -> usize {
        self.written.len()
    }

    /// Returns whether the bytes written at `from..to` are written again from `again` onwards.
    pub fn repeats(&self, from: usize, to: usize, again: usize) -> bool {
        self.written.get(from..to) == self.written.get(again..)
    }

    /// Removes what is written from `from` onwards.
    pub fn cut(&mut self, from: usize) {
        self.written.truncate(from);
    }

    fn push(&mut self, bytes: &[u8]) {
        if self.written.extend_from_slice(bytes).is_err() {
            self.has_run_out = true;
        }
    }

    fn item(&mut self, item: &Item) {
        if item.is_text {
            self.put(item.bytes.as_slice());
        } else {
            self.push(item.bytes.as_slice());
            self.push(b" ");
        }
    }

    pub fn put<T: Show + Drop>(&mut self, value: T) {
        value.show(self);
    }

    fn digits<I: Integer>(&mut self, number: I) {
        self.push(Buffer::new().format(number).as_bytes());
    }
}

/// A value that an answer shows, as one item or several.
pub trait Show {
    /// Appends the value to an answer.
    fn show(&self, answer: &mut Answer);
}

impl<T: Show> Show for &T {
    fn show(&self, answer: &mut Answer) {
        (**self).show(answer);
    }
}

/// A word as it is.
#[derive(Clone, Copy)]
pub struct Word<'w>(pub &'w str);

impl Show for Word<'_> {
    fn show(&self, answer: &mut Answer) {
        answer.push(self.0.as_bytes());
        answer.push(b" ");
    }
}

/// The Display text of a value.
#[derive(Drop)]
pub struct Displayed<T>(pub T);

impl<T: Display> Show for Displayed<T> {
    fn show(&self, answer: &mut Answer) {
        let text: Result<String, AllocError> = format!(in answer.alloc; "{}", self.0);
        answer.put(text);
    }
}

/// The Debug text of a value.
#[derive(Drop)]
pub struct Debugged<T>(pub T);

impl<T: Debug> Show for Debugged<T> {
    fn show(&self, answer: &mut Answer) {
        let text: Result<String, AllocError> = format!(in answer.alloc; "{:?}", self.0);
        answer.put(text);
    }
}

impl Show for () {
    fn show(&self, _answer: &mut Answer) {}
}

impl Show for bool {
    fn show(&self, answer: &mut Answer) {
        answer.put(Word(if *self { "true" } else { "false" }));
    }
}

impl Show for usize {
    fn show(&self, answer: &mut Answer) {
        answer.digits(*self as u64);
        answer.push(b" ");
    }
}

impl Show for i64 {
    fn show(&self, answer: &mut Answer) {
        answer.digits(*self);
        answer.push(b" ");
    }
}

impl Show for &[u8] {
    fn show(&self, answer: &mut Answer) {
        answer.digits(self.len() as u64);
        answer.push(b":\"");
        answer.push(self);
        answer.push(b"\" ");
    }
}

/// A text is its UTF-8.
impl Show for &str {
    fn show(&self, answer: &mut Answer) {
        answer.put(self.as_bytes());
    }
}

impl Show for String {
    fn show(&self, answer: &mut Answer) {
        answer.put(self.as_bytes());
    }
}

impl Show for Vec<u8> {
    fn show(&self, answer: &mut Answer) {
        answer.put(self.as_slice());
    }
}

/// The items of a list, one after another.
impl<T: Show> Show for Vec<T> {
    fn show(&self, answer: &mut Answer) {
        for item in self {
            item.show(answer);
        }
    }
}

impl<A: Show, B: Show> Show for (A, B) {
    fn show(&self, answer: &mut Answer) {
        self.0.show(answer);
        self.1.show(answer);
    }
}

/// A text that may be borrowed comes after whether it is.
impl Show for CowStr<'_> {
    fn show(&self, answer: &mut Answer) {
        let word = match self {
            CowStr::Borrowed(_) => "borrowed",
            CowStr::Owned(_) => "owned",
        };
        put!(answer; Word(word), self.as_str());
    }
}

/// A value, or the word `none`.
impl<T: Show> Show for Option<T> {
    fn show(&self, answer: &mut Answer) {
        match self {
            Some(value) => value.show(answer),
            None => answer.put(Word("none")),
        }
    }
}

/// The value that a call returned, or why there is none.
impl<T: Show, E: Refusal> Show for Result<T, E> {
    fn show(&self, answer: &mut Answer) {
        match self {
            Ok(value) => value.show(answer),
            Err(error) => error.refuse(answer),
        }
    }
}

/// Why a call returned no value: memory ran out, or it refused its input.
pub trait Refusal {
    /// Appends `error` and the text of a refusal, or records that memory ran out.
    fn refuse(&self, answer: &mut Answer);
}

impl Refusal for AllocError {
    fn refuse(&self, answer: &mut Answer) {
        answer.has_run_out = true;
    }
}

/// A group of Base64 that is invalid.
impl Refusal for usize {
    fn refuse(&self, answer: &mut Answer) {
        put!(answer; Word("error"), *self);
    }
}

/// If the row asks for that, the refusal is what `debug_error` writes.
impl Refusal for MailParseError {
    fn refuse(&self, answer: &mut Answer) {
        match self {
            MailParseError::Memory(error) => error.refuse(answer),
            _ if answer.is_debug => debug_error(answer, self),
            MailParseError::Generic(text) => put!(answer; Word("error"), *text),
            _ => put!(answer; Word("error"), Displayed(self)),
        }
    }
}

impl Refusal for DateError {
    fn refuse(&self, answer: &mut Answer) {
        put!(answer; Word("error"), Displayed(self));
    }
}

impl Refusal for WriteError {
    fn refuse(&self, answer: &mut Answer) {
        match self {
            WriteError::Memory(error) => error.refuse(answer),
            WriteError::Address => put!(answer; Word("error"), Displayed(self)),
        }
    }
}

/// Appends the Debug texts of an error, of its source and of its kind; each of the last two may be
/// the word `none`.
pub fn debug_error(answer: &mut Answer, error: &MailParseError) {
    put!(answer; Debugged(error), error.source().map(Debugged), error.refusal().map(Debugged));
}
