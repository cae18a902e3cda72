#![tactic(auto)]
// Runs the operations over the plans of the file that the first argument names, and prints what they return; tests/make_vectors.py says
// what the file holds and what is printed.
mod calls;
mod shown;
mod sizes;

use console::Streams;
use input::take;
use plan::form;
use plan::header::Shape;
use report::{lent, number, word};
use std::fs::File;
use std::io::{BufWriter, Read, Write};
use std::{env, io};

// The most bytes of an input in the file.
const MOST_BYTES: usize = 100000;

// No more inputs than these are in the file.
const MOST_INPUTS: u64 = 10000;

// A plan with more servers times ticks is not looked at everywhere.
const MOST_LOOKS: usize = 120;

// A plan's form, its length, and how many requests follow it.
const FORM_BITS: usize = 48;

const LENGTH_BITS: usize = 32;

const COUNT_BITS: usize = 16;

const HEAD_BYTES: usize = 12;

// Every server after every tick, if they are not too many.
fn looks<W: Write>(to: &mut W, form: usize, plan: &[u8]) -> io::Result<()> {
    let width = form::width(form);
    if plan.len() < Shape::header_bytes(width) {
        return Ok(());
    }
    let shape = Shape::read(plan, width);
    let n = usize::from(shape.n);
    let ticks = usize::from(shape.ticks);
    if n == 0 {
        return Ok(());
    }
    let all = n * ticks;
    if MOST_LOOKS < all {
        return Ok(());
    }
    for i in 0..all {
        look(to, form, plan, i / n, i % n)?;
    }
    Ok(())
}

fn look<W: Write>(
    to: &mut W,
    form: usize,
    plan: &[u8],
    tick: usize,
    server: usize,
) -> io::Result<()> {
    let mut pairs = [0u8; sizes::PAIRS];
    let mut work = [0u8; sizes::WORKSPACE];
    let code = capi_look::look(form, plan, &mut work, server, tick, &mut pairs);
    word(to, b"look ")?;
    number(to, tick as u64, b" ")?;
    number(to, server as u64, b" ")?;
    shown::seen(to, code, &pairs)?;
    word(to, b"\n")
}

// What Check says of a plan, and Forecast; in form one also the program's text.
fn check<O: Write, E: Write>(to: &mut Streams<O, E>, form: usize, plan: &[u8]) -> io::Result<()> {
    word(&mut to.output, b"check ")?;
    shown::outcome(&mut to.output, codes::of_outcome(checks::check(form, plan)))?;
    let mut numbers = [0u32; capi_forecast::FIGURES];
    let code = capi_forecast::forecast(form, plan, &mut numbers);
    word(&mut to.output, b"\nforecast")?;
    shown::forecast(&mut to.output, code, &numbers)?;
    word(&mut to.output, b"\n")?;
    if form == form::ONE {
        console::print_text(to, plan);
    }
    Ok(())
}

// Check, Forecast, Play's answers and Look of a plan; what Play answered.
fn run<O: Write, E: Write>(
    to: &mut Streams<O, E>,
    form: usize,
    plan: &[u8],
    index: u64,
) -> io::Result<[u8; sizes::ANSWERS]> {
    word(&mut to.output, b"plan ")?;
    number(&mut to.output, index, b" in form ")?;
    number(&mut to.output, form as u64, b"\n")?;
    check(to, form, plan)?;
    let mut answers = [0u8; sizes::ANSWERS];
    let mut work = [0u8; sizes::WORKSPACE];
    let code = codes::of_outcome(play::play(form, plan, &mut answers, &mut work));
    if codes::REFUSED <= code {
        return Ok(answers);
    }
    word(&mut to.output, b"answers")?;
    shown::answers(&mut to.output, form, &answers, code)?;
    word(&mut to.output, b"\n")?;
    looks(&mut to.output, form, plan)?;
    Ok(answers)
}

// Fills the bytes from the file. False: it ends before.
fn fill<R: Read>(file: &mut R, bytes: &mut [u8]) -> io::Result<bool> {
    let size = take(file, bytes)?;
    Ok(size == bytes.len())
}

// The next request. False: it is not there.
fn ask<R: Read, W: Write>(
    file: &mut R,
    to: &mut W,
    form: usize,
    plan: &[u8],
    answers: [u8; sizes::ANSWERS],
) -> io::Result<bool> {
    let mut request = [0u8; calls::BYTES];
    if !fill(file, &mut request)? {
        return Ok(false);
    }
    calls::run(to, form, plan, answers, request)?;
    Ok(true)
}

fn ask_all<R: Read, W: Write>(
    file: &mut R,
    to: &mut W,
    form: usize,
    plan: &[u8],
    answers: [u8; sizes::ANSWERS],
    count: usize,
) -> io::Result<()> {
    for _ in 0..count {
        if !ask(file, to, form, plan, answers)? {
            return Ok(());
        }
    }
    Ok(())
}

// Runs the next plan and its requests. False: there is none.
fn next<R: Read, O: Write, E: Write>(
    file: &mut R,
    to: &mut Streams<O, E>,
    index: u64,
) -> io::Result<bool> {
    let mut head = [0u8; HEAD_BYTES];
    if !fill(file, &mut head)? {
        return Ok(false);
    }
    let form = bits::field(&head, 0, FORM_BITS) as usize;
    let length = bits::field(&head, FORM_BITS, LENGTH_BITS) as usize;
    let count = bits::field(&head, FORM_BITS + LENGTH_BITS, COUNT_BITS) as usize;
    let mut bytes = [0u8; MOST_BYTES];
    if MOST_BYTES < length || !fill(file, lent::first_mut(&mut bytes, length))? {
        return Ok(false);
    }
    let plan = lent::first(&bytes, length);
    let answers = run(to, form, plan, index)?;
    ask_all(file, &mut to.output, form, plan, answers, count)?;
    Ok(true)
}

fn every<R: Read, O: Write, E: Write>(file: &mut R, to: &mut Streams<O, E>) -> io::Result<()> {
    for index in 0..MOST_INPUTS {
        if !next(file, to, index)? {
            return Ok(());
        }
    }
    Ok(())
}

fn main(rt: HostRuntime) -> io::Result<()> {
    let Some(path) = env::args(&rt)?.nth(1) else {
        return rt.eprintln("argument: there is none");
    };
    let mut file = match File::open(&rt, &path) {
        Ok(file) => file,
        Err(error) => {
            return eprintln!(rt; "{path}: {error}");
        }
    };
    let mut to = Streams {
        output: BufWriter::new(rt.alloc(), rt.stdout())?,
        errors: rt.stderr(),
    };
    every(&mut file, &mut to)?;
    to.output.flush()
}
