#![tactic(auto)]
// Runs the functions of `simulate` on a plan at standard input and on each argument, and prints what they print and what they say on standard error.
use console::Streams;
use std::alloc::Global;
use std::env::Env;
use std::fs::{File, OpenOptions};
use std::io;
use std::io::{Read, Stdout, Write};

// Room for an argument, as for the longest path.
const WORD_BYTES: usize = 4096;

// Standard error, as what is said there from now on.
fn listen(rt: &HostRuntime) -> Vec<u8> {
    Vec::new(rt.alloc())
}

// A line that says what is run.
fn begin(rt: &HostRuntime, what: &[u8], word: &[u8]) -> io::Result<Vec<u8>> {
    let mut to = rt.stdout();
    to.write_all(b"== ")?;
    to.write_all(what)?;
    to.write_all(word)?;
    to.write_all(b"\n")?;
    Ok(listen(rt))
}

// Shows what was said since.
fn end(rt: &HostRuntime, said: &[u8]) -> io::Result<()> {
    let mut to = rt.stdout();
    if said.is_empty() {
        return Ok(());
    }
    to.write_all(b"said: ")?;
    to.write_all(said)
}

// What `simulate` does with argument i alone, its output to `output`.
fn one<W: Write + Drop>(rt: &HostRuntime, what: &[u8], i: usize, output: W) -> io::Result<()> {
    let mut word = [0u8; WORD_BYTES];
    let length = rt.arg(i, &mut word).unwrap_or(0);
    let errors = begin(rt, what, &word[..length])?;
    let mut streams = Streams { output, errors };
    console::use_argument(rt, i, &mut streams);
    end(rt, &streams.errors)
}

fn each(rt: &HostRuntime) -> io::Result<()> {
    for i in 1..console::arg_count(rt) {
        one(rt, b"", i, rt.stdout())?;
    }
    Ok(())
}

// What `simulate` does with no argument, its input from `input`.
fn none<R: Read>(rt: &HostRuntime, what: &[u8], input: &mut R) -> io::Result<()> {
    let errors = begin(rt, what, b"")?;
    let output = rt.stdout();
    let mut streams = Streams { output, errors };
    console::rehearse(input, b"standard input", &mut streams);
    end(rt, &streams.errors)
}

// What `simulate` does with more than one argument.
fn many(rt: &HostRuntime) -> io::Result<()> {
    let errors = begin(rt, b"more than one argument", b"")?;
    let output = rt.stdout();
    let mut streams = Streams { output, errors };
    console::run(rt, &mut streams);
    end(rt, &streams.errors)
}

// A descriptor that nothing can be read from, as from one that is closed.
fn unreadable(rt: &HostRuntime) -> io::Result<File> {
    OpenOptions::new().append(true).open(rt, "/dev/null")
}

// A descriptor that nothing can be written to, as to one that is closed.
fn unwritable(rt: &HostRuntime) -> io::Result<File> {
    File::open(rt, "/dev/null")
}

fn main(rt: HostRuntime) -> io::Result<()> {
    none(&rt, b"standard input", &mut rt.stdin())?;
    none(&rt, b"standard input that is closed", &mut unreadable(&rt)?)?;
    each(&rt)?;
    many(&rt)?;
    one(&rt, b"to a closed output: ", 1, unwritable(&rt)?)?;
    let full = OpenOptions::new().append(true).open(&rt, "/dev/full")?;
    one(&rt, b"to a full device: ", 1, full)
}
