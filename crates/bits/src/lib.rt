#![tactic(auto)]

ghost use Rattle.std.specs.Prelude.{◌≡◌, ◌+◌, ◌*◌, ◌-◌, ◌/◌, ◌%◌, ◌^◌, ◌≤◌, ◌<◌, length};
ghost use Rattle.bits.specs.Field.{field_of};
ghost use Rattle.bits.specs.Fill.{fill, bytes_for};
ghost use Rattle.bits.specs.Layout.{bits_of};
ghost use Rattle.bits.specs.Writing.{Wrote};

// The n bytes from byte b on as one number.
fn bytes_from(s: &[u8], b: usize, n: usize) -> u64
    requires { (n ≤ 8) × (b + n ≤ length s.now) }
    ensures { result ≡ field_of s.now (8 * b) (8 * n) }
{
    let mut acc: u64 = 0;
    for k in 0..n {
        acc = acc * 256 + u64::from(s[b + k]);
    }
    acc
}

// What four bytes are below.
const HALF_LIMIT: u64 = 1 << 32;

// The eight bytes from byte b on as one number. Of two halves with a loop each the compiler makes one load; of one loop it does not everywhere.
fn eight_from(s: &[u8], b: usize) -> u64
    requires { b + 8 ≤ length s.now }
    ensures { result ≡ field_of s.now (8 * b) (8 * 8) }
{
    bytes_from(s, b, 4) * HALF_LIMIT + bytes_from(s, b + 4, 4)
}

// The `width` bits of a number above its lowest `low`.
pub fn part(all: u64, low: usize, width: usize) -> u64
    requires { (low < 64) × (width < 64) }
    ensures { (result ≡ all / 2 ^ low % 2 ^ width) × (result < 2 ^ width) }
{
    (all >> low) % (1 << width)
}

// The number in the `width` bits from bit `at` on, out of eight bytes, or near the end of the string out of as many as hold them.
pub fn field(s: &[u8], at: usize, width: usize) -> u64
    requires { (width ≤ 57) × (at + width ≤ 8 * length s.now) × (at < 2 ^ 60) }
    ensures { (result ≡ field_of s.now at width) × (result < 2 ^ width) }
{
    if width == 0 {
        return 0;
    }
    let first = at / 8;
    if s.len() < first + 8 {
        let n = bytes_for(at % 8 + width);
        part(bytes_from(s, first, n), 8 * n - at % 8 - width, width)
    } else {
        part(eight_from(s, first), 8 * 8 - at % 8 - width, width)
    }
}

// The bit at this place, out of the byte that holds it.
pub fn bit(s: &[u8], at: usize) -> u8
    requires { at < 8 * length s.now }
    ensures { result ≡ field_of s.now at 1 }
{
    (s[at / 8] >> (7 - at % 8)) % 2
}

// The number in the four bits from bit `at` on: of one byte, or of two where they straddle.
pub fn nibble(s: &[u8], at: usize) -> u8
    requires { at + 4 ≤ 8 * length s.now }
    ensures { (result ≡ field_of s.now at 4) × (result < 16) }
{
    let b = at / 8;
    let off = at % 8;
    if off <= 4 {
        (s[b] >> (4 - off)) % 16
    } else {
        let both = u64::from(s[b]) * 256 + u64::from(s[b + 1]);
        ((both >> (12 - off)) % 16) as u8
    }
}

// How many bits fill the last byte behind so many; with a wider unit in place of 8 the line is the same.
pub fn fill(bits: usize) -> usize
    ensures { result ≡ fill 8 bits }
{
    (8 - bits % 8) % 8
}

// The bytes that hold so many bits, and those that fill the last byte.
pub fn bytes_for(bits: usize) -> usize
    requires { bits < 2 ^ 60 }
    ensures { result ≡ bytes_for bits }
{
    (bits + fill(bits)) / 8
}

// The n bytes from byte b on get the lowest bits of this number.
fn put_bytes(out: &mut [u8], b: usize, n: usize, value: u64)
    requires { (n ≤ 8) × (b + n ≤ length out.old) }
    ensures { Wrote out.old out.new (8 * b) (bits_of (8 * n) value) }
{
    for k in 0..n {
        out[b + k] = ((value >> (8 * (n - 1 - k))) % 256) as u8;
    }
}

// The bits of x, and behind them the lowest `width` bits of y.
pub fn behind(x: u64, width: usize, y: u64) -> u64
    requires { (width < 64) × (x < 2 ^ (64 - width)) }
    ensures { result ≡ x * 2 ^ width + y % 2 ^ width }
{
    (x << width) + y % (1 << width)
}

// Writes a field into the n bytes from the one that holds its first bit on. They are put together anew, of the bits above, the field and the bits below.
fn put_in(out: &mut [u8], at: usize, width: usize, value: u64, n: usize)
    requires { (width ≤ 57) × (at % 8 + width ≤ 8 * n) × (8 * n < at % 8 + width + 64) × (n ≤ 8) × (at / 8 + n ≤ length out.old) }
    ensures { Wrote out.old out.new at (bits_of width value) }
{
    let low = 8 * n - at % 8 - width;
    let all = bytes_from(out, at / 8, n);
    let above = behind(all >> low >> width, width, value);
    put_bytes(out, at / 8, n, behind(above, low, all));
}

// Writes the lowest `width` bits of the number into those from bit `at` on; every other bit stays. Where eight bytes are there, it takes so many: the
// compiler makes one load and one store of them.
pub fn put(out: &mut [u8], at: usize, width: usize, value: u64)
    requires { (width ≤ 57) × (at + width ≤ 8 * length out.old) × (at < 2 ^ 60) }
    ensures { Wrote out.old out.new at (bits_of width value) }
{
    if width == 0 {
        return;
    }
    if out.len() < at / 8 + 8 {
        put_in(out, at, width, value, bytes_for(at % 8 + width));
    } else {
        put_in(out, at, width, value, 8);
    }
}
