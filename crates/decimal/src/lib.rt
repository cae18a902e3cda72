#![tactic(auto)]
// Decimal numbers, and other bytes, stored in a lent buffer from a place on. What does not fit the buffer is left out.
ghost use Rattle.std.specs.Prelude.{[], ◌∷◌, ◌+◌, ◌-◌, ◌^◌, ◌≤◌, ◌<◌, length};
ghost use Rattle.decimal.specs.Decimal.{decimal_of, most_digits};
ghost use Rattle.decimal.specs.Stored.{Stored};

// One byte, and the place behind it.
pub fn put_byte(out: &mut [u8], at: usize, byte: u8) -> usize
    requires { at + 1 < 2 ^ 64 }
    ensures { Stored out.old at (byte ∷ []) out.new result }
{
    if at < out.len() {
        out[at] = byte;
    }
    at + 1
}

// A word, and the place behind it.
pub fn put_all(out: &mut [u8], at: usize, bytes: &[u8]) -> usize
    requires { at < 2 ^ 60 }
    ensures { Stored out.old at bytes.now out.new result }
{
    for (i, byte) in bytes.iter().enumerate() {
        put_byte(out, at + i, *byte);
    }
    at + bytes.len()
}

// The digits of a number, and the place behind them.
pub fn put(out: &mut [u8], at: usize, n: u64) -> usize
    requires { at < 2 ^ 60 }
    ensures stored { Stored out.old at (decimal_of n) out.new result }
    ensures upper_bound { result ≤ at + most_digits }
{
    if n < 10 {
        put_byte(out, at, b'0' + n as u8)
    } else {
        let next = put(out, at, n / 10);
        put_byte(out, next, b'0' + (n % 10) as u8)
    }
}

// The digits of a number, the last of them before place `end`.
pub fn put_right(out: &mut [u8], end: usize, n: u64)
    requires { length (decimal_of n) ≤ end }
    ensures { Stored out.old (end - length (decimal_of n)) (decimal_of n) out.new end }
{
    if 10 <= n {
        put_right(out, end - 1, n / 10);
    }
    put_byte(out, end - 1, b'0' + (n % 10) as u8);
}
