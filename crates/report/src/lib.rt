#![tactic(auto)]
// What the programs of the gate print: words, numbers, refusals as `codes` has them, plans, and whether lent bytes are as they were.
pub mod lent;

ghost use Rattle.std.specs.Prelude.{◌≡◌, ◌<◌};
ghost use Rattle.report.specs.Lent.{sum_with, sum_from};

use std::io;
use std::io::Write;

// The bytes of a plan that is printed byte by byte, at most; of a longer one a check sum is.
const MOST_SHOWN: usize = 300;

// A check sum is the bytes as digits of one number in this base, modulo a prime.
const BASE: u64 = 257;

const PRIME: u64 = 2147483647;

pub fn word<W: Write>(to: &mut W, text: &[u8]) -> io::Result<()> {
    to.write_all(text)
}

// A number, then the text after it.
pub fn number<W: Write>(to: &mut W, n: u64, after: &[u8]) -> io::Result<()> {
    write!(to, "{n}")?;
    word(to, after)
}

pub fn refusal<W: Write>(to: &mut W, code: usize) -> io::Result<()> {
    word(to, b"refused ")?;
    if codes::REFUSED <= code {
        number(to, (code - codes::REFUSED) as u64, b"")?;
    }
    Ok(())
}

// Whether lent bytes are as they were.
pub fn kept<W: Write>(to: &mut W, bytes: &[u8]) -> io::Result<()> {
    if lent::is_kept(bytes) {
        return word(to, b" kept");
    }
    word(to, b" changed")
}

fn digits<W: Write>(to: &mut W, byte: u8) -> io::Result<()> {
    write!(to, "{byte:02x}")
}

// Two hexadecimal digits for each byte.
fn hexadecimal<W: Write>(to: &mut W, bytes: &[u8]) -> io::Result<()> {
    for byte in bytes {
        digits(to, *byte)?;
    }
    Ok(())
}

// The check sum with one byte more.
fn sum_with(sum: u64, byte: u8) -> u64
    requires { sum < 2147483647 }
    ensures { (result < 2147483647) × (result ≡ sum_with sum byte) }
{
    (sum * BASE + u64::from(byte)) % PRIME
}

fn checksum(bytes: &[u8]) -> u64
    ensures { result ≡ sum_from 0 bytes.now }
{
    let mut sum: u64 = 0;
    for byte in bytes {
        sum = sum_with(sum, *byte);
    }
    sum
}

// A plan's bytes, or their check sum.
fn bytes<W: Write>(to: &mut W, plan: &[u8]) -> io::Result<()> {
    if plan.len() <= MOST_SHOWN {
        return hexadecimal(to, plan);
    }
    word(to, b"sum ")?;
    number(to, checksum(plan), b"")
}

// A plan at the start of the buffer.
fn plan<W: Write>(to: &mut W, length: usize, out: &[u8]) -> io::Result<()> {
    if out.len() < length {
        return Ok(());
    }
    number(to, length as u64, b"")?;
    kept(to, &out[length..])?;
    word(to, b" ")?;
    bytes(to, &out[..length])
}

// What an operation that writes a plan returned, and what it left of the buffer.
pub fn written<W: Write>(to: &mut W, code: usize, out: &[u8]) -> io::Result<()> {
    if codes::REFUSED <= code {
        refusal(to, code)?;
        return kept(to, out);
    }
    word(to, b"bytes ")?;
    plan(to, code, out)
}
