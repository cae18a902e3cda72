#![tactic(auto)]
// What the program does: reads a plan, prints the text of its rehearsal, and says on standard error what the system refused. What it decides and
// what it says are functions of `arguments`; what calls the system decides nothing.
ghost use Rattle.std.specs.Prelude.{◌≡◌};
ghost use Rattle.lines.specs.Text.{program_width, text_of};
ghost use Rattle.arguments.specs.Arguments.{source_of, asked_of, fault_line, failure_line};
ghost use Rattle.console.specs.Console.{error_stream, descriptor_of};

use arguments::{Asked, Fault, LINE_BYTES, Source};
use input::take;
use plan::header::Shape;
use std::env::{Env, FillError};
use std::fs::File;
use std::io;
use std::io::{Cursor, Read, Write};
use std::rt::Files;

// Where the program writes: its answers, and what it says is wrong.
#[derive(Drop)]
pub struct Streams<O, E> {
    pub output: O,
    pub errors: E,
}

// Which of the two.
#[derive(Clone, Copy)]
pub enum Stream {
    Output,
    Errors,
}

// Room for an argument, as for the longest path.
const WORD_BYTES: usize = 4096;

// Room for each of the system's reasons, with its number.
const REASON_BYTES: usize = 300;

// What the system calls a missing argument, and one that is too long.
const INVALID_ARGUMENT: i32 = 22;

const NAME_TOO_LONG: i32 = 36;

// Writes such a line.
fn tell<O: Write, E: Write>(
    streams: &mut Streams<O, E>,
    to: Stream,
    line: &[u8],
    fault: Fault,
    word: &[u8],
)
    requires { (descriptor_of to ≡ error_stream) × (line.now ≡ fault_line fault word.now) }
{
    let _ = match to {
        Stream::Output => streams.output.write_all(line),
        Stream::Errors => streams.errors.write_all(line),
    };
}

// The reason in the text of one of the system's errors: the error's number stands behind it.
fn reason(text: &str) -> &str {
    match text.split_once(" (os error ") {
        Some((reason, _)) => reason,
        None => text,
    }
}

// Writes a colon and why the system refused.
fn tell_reason<E: Write>(errors: &mut E, error: io::Error) -> io::Result<()> {
    let mut text = Cursor::new([0u8; REASON_BYTES]);
    write!(text, "{error}")?;
    let size = text.position();
    let bytes = text.into_inner();
    let size = usize::try_from(size)
        .unwrap_or(REASON_BYTES)
        .min(REASON_BYTES);
    let text = std::str::from_utf8(&bytes[..size]).unwrap_or("");
    errors.write_all(b": ")?;
    errors.write_all(reason(text).as_bytes())?;
    errors.write_all(b"\n")
}

// Writes such a line, with the system's reason, on standard error.
fn tell_failure<E: Write>(errors: &mut E, line: &[u8], name: &[u8], error: io::Error)
    requires { line.now ≡ failure_line name.now }
{
    if errors.write_all(line).is_ok() {
        let _ = tell_reason(errors, error);
    }
}

fn complain<O: Write, E: Write>(streams: &mut Streams<O, E>, fault: Fault, word: &[u8]) {
    let mut line = [0u8; LINE_BYTES];
    let size = arguments::put_fault_line(&mut line, fault, word);
    tell(streams, Stream::Errors, &line[..size], fault, word);
}

fn fail<O: Write, E: Write>(streams: &mut Streams<O, E>, name: &[u8], error: io::Error) {
    let mut line = [0u8; LINE_BYTES];
    let size = arguments::put_failure(&mut line, name);
    tell_failure(&mut streams.errors, &line[..size], name, error);
}

// Writes out all of it at once.
fn print<O: Write, E: Write>(streams: &mut Streams<O, E>, bytes: &[u8]) {
    if let Err(error) = streams.output.write_all(bytes) {
        fail(streams, b"standard output", error);
    }
}

fn print_help<O: Write, E: Write>(streams: &mut Streams<O, E>) -> Asked
    ensures { result ≡ Asked.Help }
{
    print(
        streams,
        b"usage: simulate [PLAN]

Checks a plan, plays it and prints the answers to its reads. The plan is the
file PLAN or, with no argument, standard input. It prints one of

  reads N      and then a line for each of the N reads: its begin, reader and
               end, and its answer's value, number and count
  refused N    the plan is refused; N is the number of the reason

What cannot be opened, read or written is named on standard error, with the
system's reason. The exit status is 0 in every case: a script looks at what
is printed.

  --help       prints this
  --version    prints the version

Any other argument that begins with - is an unknown option; a file with such a
name is given as ./-NAME.
",
    );
    Asked::Help
}

fn print_version<O: Write, E: Write>(streams: &mut Streams<O, E>) -> Asked
    ensures { result ≡ Asked.Version }
{
    print(
        streams,
        b"simulate 0.1.0
The verified rehearsal of a replicated register under mobile Byzantine faults.
",
    );
    Asked::Version
}

// Writes out the text of a plan's rehearsal.
fn print_whole<O: Write, E: Write>(streams: &mut Streams<O, E>, text: &[u8], plan: &[u8])
    requires { text.now ≡ text_of program_width plan.now }
{
    print(streams, text);
}

// The text of a plan's rehearsal.
pub fn print_text<O: Write, E: Write>(streams: &mut Streams<O, E>, plan: &[u8]) {
    let mut buffer = [0u8; text::MOST_BYTES];
    let size = text::write(plan, &mut buffer);
    print_whole(streams, &buffer[..size], plan);
}

// Rehearses the plan that can be read from `input`, which is called `name`. No header implies more than IMPLIED_BYTES, so a longer
// input is refused as its first IMPLIED_BYTES + 1 bytes are.
pub fn rehearse<I: Read, O: Write, E: Write>(
    input: &mut I,
    name: &[u8],
    streams: &mut Streams<O, E>,
) {
    let mut plan = [0u8; Shape::IMPLIED_BYTES + 1];
    match take(input, &mut plan) {
        Ok(length) => print_text(streams, &plan[..length]),
        Err(error) => fail(streams, name, error),
    }
}

// A file's name is text.
fn open<R: Files>(rt: &R, path: &[u8]) -> io::Result<R::File> {
    match std::str::from_utf8(path) {
        Ok(name) => File::open(rt, name),
        Err(_) => Err(io::Error::from(io::ErrorKind::InvalidFilename)),
    }
}

fn rehearse_file<R: Files, O: Write, E: Write>(
    rt: &R,
    path: &[u8],
    streams: &mut Streams<O, E>,
) -> Asked
    ensures { result ≡ Asked.Plan }
{
    match open(rt, path) {
        Ok(mut input) => rehearse(&mut input, path, streams),
        Err(error) => fail(streams, path, error),
    }
    Asked::Plan
}

fn refuse_option<O: Write, E: Write>(streams: &mut Streams<O, E>, word: &[u8]) -> Asked
    ensures { result ≡ Asked.Unknown }
{
    complain(streams, Fault::UnknownOption, word);
    Asked::Unknown
}

// What the program does with its one argument. What it did is returned.
fn obey<R: Files, O: Write, E: Write>(rt: &R, word: &[u8], streams: &mut Streams<O, E>) -> Asked
    ensures { result ≡ asked_of word.now }
{
    match arguments::asked_of(word) {
        Asked::Help => print_help(streams),
        Asked::Version => print_version(streams),
        Asked::Unknown => refuse_option(streams, word),
        Asked::Plan => rehearse_file(rt, word, streams),
    }
}

// The plan at standard input.
fn use_input<R: Input, O: Write, E: Write>(rt: &R, streams: &mut Streams<O, E>) -> Source
    ensures { result ≡ Source.Input }
{
    rehearse(&mut rt.reader(), b"standard input", streams);
    Source::Input
}

// Why an argument is not there whole, as the system says it.
fn unread(why: FillError) -> io::Error {
    match why {
        FillError::NotPresent => io::Error::from_raw_os_error(INVALID_ARGUMENT),
        FillError::TooLong => io::Error::from_raw_os_error(NAME_TOO_LONG),
    }
}

// The plan, or what else is asked for, that argument i names.
pub fn use_argument<R: Env + Files, O: Write, E: Write>(
    rt: &R,
    i: usize,
    streams: &mut Streams<O, E>,
) -> Source
    ensures { result ≡ Source.Argument i }
{
    let mut word = [0u8; WORD_BYTES];
    match rt.arg(i, &mut word) {
        Ok(length) => {
            obey(rt, &word[..length], streams);
        }
        Err(why) => fail(streams, b"argument", unread(why)),
    }
    Source::Argument(i)
}

fn refuse_many<O: Write, E: Write>(streams: &mut Streams<O, E>) -> Source
    ensures { result ≡ Source.Many }
{
    complain(streams, Fault::TooMany, b"");
    Source::Many
}

// What the program does with so many arguments. What it used is returned.
fn serve<R: Env + Files + Input, O: Write, E: Write>(
    rt: &R,
    count: usize,
    streams: &mut Streams<O, E>,
) -> Source
    ensures { result ≡ source_of count }
{
    match arguments::source_of(count) {
        Source::Input => use_input(rt, streams),
        Source::Argument(i) => use_argument(rt, i, streams),
        Source::Many => refuse_many(streams),
    }
}

// How many arguments there are, the program's own name among them.
pub fn arg_count<R: Env>(rt: &R) -> usize {
    for i in 0..usize::MAX {
        if let Err(FillError::NotPresent) = rt.arg(i, &mut []) {
            return i;
        }
    }
    usize::MAX
}

// The whole program.
pub fn run<R: Env + Files + Input, O: Write, E: Write>(rt: &R, streams: &mut Streams<O, E>) {
    serve(rt, arg_count(rt), streams);
}
