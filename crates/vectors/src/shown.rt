// What is printed of results, as `codes` has them.
use super::sizes;
use report::{kept, lent, number, refusal, word};
use std::io;
use std::io::Write;

// The bits of a value and of a number in a pair that Look shows.
const VALUE_BITS: usize = 24;

const NUMBER_BITS: usize = 8;

// The number of reads, or the refusal.
pub fn outcome<W: Write>(to: &mut W, code: usize) -> io::Result<()> {
    if codes::REFUSED <= code {
        return refusal(to, code);
    }
    word(to, b"reads ")?;
    number(to, code as u64, b"")
}

// One number of a forecast.
fn figure<W: Write>(to: &mut W, x: u32) -> io::Result<()> {
    word(to, b" ")?;
    number(to, u64::from(x), b"")
}

// The numbers of a forecast, or the refusal.
pub fn forecast<W: Write>(
    to: &mut W,
    code: usize,
    numbers: &[u32; capi_forecast::FIGURES],
) -> io::Result<()> {
    if codes::REFUSED <= code {
        word(to, b" ")?;
        return refusal(to, code);
    }
    for x in numbers {
        figure(to, *x)?;
    }
    Ok(())
}

// Judge's yes or no, or the refusal.
pub fn verdict<W: Write>(to: &mut W, code: usize) -> io::Result<()> {
    if codes::REFUSED <= code {
        return refusal(to, code);
    }
    match code {
        0 => word(to, b"no"),
        _ => word(to, b"yes"),
    }
}

// The lines at the start of a page, and whether the bytes behind them are as they were.
fn lines<W: Write>(to: &mut W, length: usize, out: &[u8]) -> io::Result<()> {
    if out.len() < length {
        return Ok(());
    }
    word(to, lent::first(out, length))?;
    kept(to, &out[length..])
}

// The number of bytes and the lines of a sheet, or the refusal.
pub fn page<W: Write>(to: &mut W, code: usize, out: &[u8]) -> io::Result<()> {
    if codes::REFUSED <= code {
        refusal(to, code)?;
        return kept(to, out);
    }
    word(to, b"bytes ")?;
    number(to, code as u64, b"\n")?;
    lines(to, code, out)
}

// The pairs that Look shows: of each its value and its number.
fn pairs_shown<W: Write>(to: &mut W, pairs: &[u8; sizes::PAIRS], count: usize) -> io::Result<()> {
    for pair in pairs.chunks_exact(codes::pairs::PAIR_BYTES).take(count) {
        word(to, b" ")?;
        number(to, bits::field(pair, 0, VALUE_BITS), b" ")?;
        number(to, bits::field(pair, VALUE_BITS, NUMBER_BITS), b"")?;
    }
    Ok(())
}

// A server's condition and its pairs, or the refusal.
pub fn seen<W: Write>(to: &mut W, code: usize, pairs: &[u8; sizes::PAIRS]) -> io::Result<()> {
    if codes::REFUSED <= code {
        return refusal(to, code);
    }
    number(to, (code % capi_look::PER_PAIR) as u64, b"")?;
    pairs_shown(to, pairs, code / capi_look::PER_PAIR)
}

// The answers as they stand in the buffer, each as one number.
pub fn answers<W: Write>(to: &mut W, form: usize, bytes: &[u8], count: usize) -> io::Result<()> {
    let size = sizes::answer_bytes(form);
    for answer in bytes.chunks_exact(size).take(count) {
        word(to, b" ")?;
        number(to, bits::field(answer, 0, 8 * size), b"")?;
    }
    Ok(())
}
