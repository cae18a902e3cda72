#![tactic(auto)]
// Numbers packed by lists of widths: whether they fit their fields, and their bits written.
ghost use Rattle.std.specs.Prelude.{◌≡◌, ◌+◌, ◌*◌, ◌^◌, ◌≤◌, ◌<◌, T, ltb, length, take};
ghost use Rattle.bits.specs.Layout.{total, records, fits, bits_of, packed_bits};
ghost use Rattle.bits.specs.Writing.{Wrote};
ghost use Rattle.records.specs.Records.{no_wider};

// Has the number no more bits than this.
fn is_narrow(number: u32, width: u8) -> bool
    requires { width ≤ 32 }
    ensures { result ≡ ltb number (2 ^ width) }
{
    u64::from(number) < (1 << width)
}

// Do the first numbers fit the fields of one record.
pub fn fits_one(widths: &[u8], numbers: &[u32]) -> bool
    requires { T (no_wider 32 widths.now) × (length widths.now ≤ length numbers.now) }
    ensures { result ≡ fits widths.now (take (length widths.now) numbers.now) }
{
    for (j, width) in widths.iter().enumerate() {
        if !is_narrow(numbers[j], *width) {
            return false;
        }
    }
    true
}

// Do the numbers fit the fields of so many records, one behind the other.
pub fn fits_all(widths: &[u8], numbers: &[u32], count: usize) -> bool
    requires { T (no_wider 32 widths.now) × (length numbers.now ≡ length widths.now * count) }
    ensures { result ≡ fits (records count widths.now) numbers.now }
{
    for i in 0..count {
        if !fits_one(widths, &numbers[widths.len() * i..]) {
            return false;
        }
    }
    true
}

// The sum of the widths.
fn total(widths: &[u8]) -> usize
    requires { total widths.now ≤ 57 }
    ensures { result ≡ total widths.now }
{
    let mut bits = 0;
    for width in widths {
        bits += usize::from(*width);
    }
    bits
}

// The first numbers, joined into one that has all bits of the record: of a number too wide the lowest bits.
fn joined(widths: &[u8], numbers: &[u32]) -> u64
    requires { T (no_wider 32 widths.now) × (total widths.now ≤ 57) × (length widths.now ≤ length numbers.now) }
    ensures { bits_of (total widths.now) result ≡ packed_bits widths.now (take (length widths.now) numbers.now) }
{
    let mut acc: u64 = 0;
    for (j, width) in widths.iter().enumerate() {
        acc = bits::behind(acc, usize::from(*width), u64::from(numbers[j]));
    }
    acc
}

// Writes so many records, one behind the other, from bit `at` on: each in one go.
pub fn put_all(out: &mut [u8], at: usize, widths: &[u8], numbers: &[u32], count: usize)
    requires { T (no_wider 32 widths.now) × (total widths.now ≤ 57) × (length numbers.now ≡ length widths.now * count)
        × (at + total widths.now * count ≤ 8 * length out.old) × (at + total widths.now * count < 2 ^ 60) }
    ensures { Wrote out.old out.new at (packed_bits (records count widths.now) numbers.now) }
{
    let bits = total(widths);
    let fields = widths.len();
    for i in 0..count {
        let all = joined(widths, &numbers[fields * i..]);
        bits::put(out, at + bits * i, bits, all);
    }
}

// Writes one record field by field: it may have more bits than one number holds.
pub fn put_fields(out: &mut [u8], at: usize, widths: &[u8], numbers: &[u32])
    requires { T (no_wider 32 widths.now) × (length numbers.now ≡ length widths.now) × (at + total widths.now ≤ 8 * length out.old) × (at + total widths.now < 2 ^ 60) }
    ensures { Wrote out.old out.new at (packed_bits widths.now numbers.now) }
{
    let mut from = at;
    for (j, width) in widths.iter().enumerate() {
        let width = usize::from(*width);
        bits::put(out, from, width, u64::from(numbers[j]));
        from += width;
    }
}
