#![tactic(auto)]
// Numbers of four bits, written many at a time.
ghost use Rattle.std.specs.Prelude.{◌≡◌, ◌&&◌, ◌+◌, ◌*◌, ◌-◌, ◌/◌, ◌%◌, ◌^◌, ◌≤◌, ◌<◌, length};
ghost use Rattle.bits.specs.Layout.{fits};
ghost use Rattle.bits.specs.Writing.{Wrote};
ghost use Rattle.nibbles.specs.Nibbles.{width, pair_width, pair_limit, fields_of, all_bits, pair_of, Part};

// The bits of a number.
const BITS: usize = 4;

// What a number is below.
const LIMIT: u32 = 1 << BITS;

// Two numbers fill a byte.
const PAIR_BITS: usize = 2 * BITS;

// What a byte is below.
const PAIR_LIMIT: u32 = LIMIT * LIMIT;

// Are all of them below 16. There is no early exit, so that many are compared at once.
pub fn fit(numbers: &[u32]) -> bool
    ensures { result ≡ fits (fields_of numbers.now) numbers.now }
{
    let mut all = true;
    for number in numbers {
        all &= *number < LIMIT;
    }
    all
}

// The lowest bits of numbers 2k and 2k + 1, as a byte.
fn pair(numbers: &[u32], k: usize) -> u32
    requires { (2 * k + 1 < length numbers.now) × (k < 2 ^ 60) }
    ensures { (result ≡ pair_of numbers.now k) × (result < pair_limit) }
{
    numbers[2 * k] % LIMIT * LIMIT + numbers[2 * k + 1] % LIMIT
}

// Writes one pair to its place.
fn put_pair(out: &mut [u8], at: usize, numbers: &[u32], k: usize)
    requires { (2 * k + 1 < length numbers.now) × (at + pair_width * (k + 1) ≤ 8 * length out.old) × (at < 2 ^ 59) × (k < 2 ^ 56) }
    ensures { Part out.old out.new at (all_bits numbers.now) (pair_width * k) (pair_width * (k + 1)) }
{
    let place = at + PAIR_BITS * k;
    bits::put(out, place, PAIR_BITS, u64::from(pair(numbers, k)));
}

// Writes the bytes that hold the end of one pair and the start of the next. They are stored whole,
// with no branch and no byte read back, so that many are made at once.
fn put_between(out: &mut [u8], at: usize, numbers: &[u32], pairs: usize)
    requires { (1 ≤ pairs) × (2 * pairs ≤ length numbers.now) × (at + pair_width * pairs ≤ 8 * length out.old) × (at < 2 ^ 59) × (pairs < 2 ^ 56) }
    ensures { Part out.old out.new at (all_bits numbers.now) (8 - at % 8) (8 * pairs - at % 8) }
{
    let first = at / 8;
    let off = (at % 8) as u32;
    let mut before = pair(numbers, 0);
    for k in 1..pairs {
        let next = pair(numbers, k);
        out[first + k] = (((before * PAIR_LIMIT + next) >> off) % PAIR_LIMIT) as u8;
        before = next;
    }
}

// Writes so many pairs. The first and the last may share a byte with bits that stay.
fn put_pairs(out: &mut [u8], at: usize, numbers: &[u32], pairs: usize)
    requires { (2 * pairs ≤ length numbers.now) × (at + pair_width * pairs ≤ 8 * length out.old) × (at < 2 ^ 59) × (pairs < 2 ^ 56) }
    ensures { Part out.old out.new at (all_bits numbers.now) 0 (pair_width * pairs) }
{
    if pairs == 0 {
        return;
    }
    put_pair(out, at, numbers, 0);
    put_between(out, at, numbers, pairs);
    put_pair(out, at, numbers, pairs - 1);
}

// Writes the last number where it is in no pair.
fn put_odd(out: &mut [u8], at: usize, numbers: &[u32])
    requires { (at + width * length numbers.now ≤ 8 * length out.old) × (at < 2 ^ 59) × (length numbers.now < 2 ^ 57) }
    ensures { Part out.old out.new at (all_bits numbers.now)
        (pair_width * (length numbers.now / 2)) (width * length numbers.now) }
{
    let n = numbers.len();
    if n % 2 == 1 {
        let last = u64::from(numbers[n - 1]);
        bits::put(out, at + BITS * (n - 1), BITS, last);
    }
}

// Writes the lowest four bits of each number, one behind the other, from bit `at` on.
pub fn put(out: &mut [u8], at: usize, numbers: &[u32])
    requires { (at + width * length numbers.now ≤ 8 * length out.old) × (at < 2 ^ 59) × (length numbers.now < 2 ^ 57) }
    ensures { Wrote out.old out.new at (all_bits numbers.now) }
{
    put_pairs(out, at, numbers, numbers.len() / 2);
    put_odd(out, at, numbers);
}
