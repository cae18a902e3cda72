#![tactic(auto)]
// Packs the lists of each case in the file that the first argument names, and prints what Pack returned and what it left of the buffer;
// tests/make_packs.py says what the file holds and what is printed.
ghost use Rattle.std.specs.Prelude.{◌≤◌, length};

mod cases;

use input::take;
use report::lent;
use std::alloc::Global;
use std::fs::File;
use std::io::{BufWriter, Write};
use std::{env, io};

// Packs the lists of a case, in its form.
fn run<W: Write>(to: &mut W, case: &[u32]) -> io::Result<()>
    requires { 7 ≤ length case.now }
{
    let room = cases::head(case, cases::ROOM);
    let mut out = [lent::FILLER; lent::PLAN];
    let packed = pack::pack(
        cases::head(case, cases::FORM),
        cases::list(case, 0),
        cases::list(case, 1),
        cases::list(case, 2),
        cases::list(case, 3),
        cases::list(case, 4),
        lent::first_mut(&mut out, room),
    );
    report::written(to, codes::of_outcome(packed), &out)?;
    report::word(to, b"\n")
}

fn every<W: Write>(to: &mut W, numbers: &[u32]) -> io::Result<()> {
    let mut at: usize = 0;
    // Each case says where the next one begins, so this counts no range.
    while at + cases::HEAD <= numbers.len() {
        let case = &numbers[at..];
        run(to, case)?;
        at += cases::begin(case, cases::LISTS);
    }
    Ok(())
}

// Every case of a file.
fn all<W: Write>(to: &mut W, alloc: Global, file: &[u8]) -> io::Result<()> {
    let mut numbers = vec![in alloc; 0u32; cases::MOST_BYTES]?;
    let count = cases::decode(file, &mut numbers);
    every(to, &numbers[..count])
}

fn main(rt: HostRuntime) -> io::Result<()> {
    let Some(path) = env::args(&rt)?.nth(1) else {
        return rt.eprintln("argument: there is none");
    };
    let mut file = match File::open(&rt, &path) {
        Ok(file) => file,
        Err(error) => {
            return eprintln!(rt; "{path}: {error}");
        }
    };
    let mut bytes = vec![in rt.alloc(); 0u8; cases::MOST_BYTES]?;
    let size = take(&mut file, &mut bytes)?;
    let mut to = BufWriter::new(rt.alloc(), rt.stdout())?;
    all(&mut to, rt.alloc(), &bytes[..size])?;
    to.flush()
}
