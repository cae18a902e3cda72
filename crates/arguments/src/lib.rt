#![tactic(auto)]
// What the program's arguments ask for, and the lines that say what is wrong.
ghost use Rattle.std.specs.Prelude.{◌≡◌, ◌+◌, ◌^◌, ◌<◌};
ghost use Rattle.decimal.specs.Stored.{Stored};
ghost use Rattle.arguments.specs.Arguments.{source_of, asked_of, is_option, shown_byte, shown_name, fault_of, fault_line, failure_line};

// Where the plan is: at standard input, in the file that an argument names, or nowhere, since there are too many arguments.
#[derive(Clone, Copy)]
pub enum Source {
    Input,
    Argument(usize),
    Many,
}

// What an argument asks for.
#[derive(Clone, Copy)]
pub enum Asked {
    Help,
    Version,
    Unknown,
    Plan,
}

// What is wrong with the arguments.
#[derive(Clone, Copy)]
pub enum Fault {
    UnknownOption,
    TooMany,
}

// By the number of arguments, the program's own name among them.
pub fn source_of(count: usize) -> Source
    ensures { result ≡ source_of count }
{
    match count {
        0 | 1 => Source::Input,
        2 => Source::Argument(1),
        _ => Source::Many,
    }
}

// Does it begin with `-`?
fn is_option(word: &[u8]) -> bool
    ensures { result ≡ is_option word.now }
{
    word.first() == Some(&b'-')
}

pub fn asked_of(word: &[u8]) -> Asked
    ensures { result ≡ asked_of word.now }
{
    if word == b"--help".as_slice() {
        Asked::Help
    } else if word == b"--version".as_slice() {
        Asked::Version
    } else if is_option(word) {
        Asked::Unknown
    } else {
        Asked::Plan
    }
}

// The bytes of a name that are shown, at most.
const NAME_BYTES: usize = 4096;

// Room for a line about a name.
pub const LINE_BYTES: usize = NAME_BYTES + 64;

// A byte of a name as it is shown.
fn shown(byte: u8) -> u8
    ensures { result ≡ shown_byte byte }
{
    if byte < 32 || byte == 127 { b'?' } else { byte }
}

fn put_shown(out: &mut [u8], at: usize, name: &[u8]) -> usize
    requires { at < 2 ^ 60 }
    ensures { Stored out.old at (shown_name name.now) out.new result }
{
    let mut next = at;
    for byte in &name[..name.len().min(NAME_BYTES)] {
        next = decimal::put_byte(out, next, shown(*byte));
    }
    next
}

fn put_fault(out: &mut [u8], at: usize, fault: Fault, word: &[u8]) -> usize
    requires { at < 2 ^ 10 }
    ensures { Stored out.old at (fault_of fault word.now) out.new result }
{
    match fault {
        Fault::UnknownOption => {
            let at = decimal::put_all(out, at, b"unknown option ");
            put_shown(out, at, word)
        }
        Fault::TooMany => decimal::put_all(out, at, b"more than one argument"),
    }
}

// The line on what is wrong with the arguments.
pub fn put_fault_line(out: &mut [u8], fault: Fault, word: &[u8]) -> usize
    ensures { Stored out.old 0 (fault_line fault word.now) out.new result }
{
    let at = decimal::put_all(out, 0, b"simulate: ");
    let at = put_fault(out, at, fault, word);
    decimal::put_all(out, at, b" (see simulate --help)\n")
}

// The line on what the system refused, up to its reason.
pub fn put_failure(out: &mut [u8], name: &[u8]) -> usize
    ensures { Stored out.old 0 (failure_line name.now) out.new result }
{
    let at = decimal::put_all(out, 0, b"simulate: ");
    put_shown(out, at, name)
}
