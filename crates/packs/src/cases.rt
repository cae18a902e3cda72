// The file's numbers, and the lists of a case among them.
ghost use Rattle.std.specs.Prelude.{◌+◌, ◌*◌, ◌^◌, ◌≤◌, ◌<◌, length};
ghost use Rattle.input.specs.Taken.{IsPrefixLen};

// The most bytes of a file.
pub const MOST_BYTES: usize = 650000;

// A case has so many lists.
pub const LISTS: usize = 5;

// It begins with how many numbers each list has, the length of the buffer, and the form.
pub const ROOM: usize = LISTS;

pub const FORM: usize = LISTS + 1;

pub const HEAD: usize = LISTS + 2;

// A number below this is one byte. Any other is four, behind a byte of this.
const WIDE: u8 = 255;

const WIDE_BYTES: usize = 5;

// How many bytes the number at this place takes.
fn size(bytes: &[u8], at: usize) -> usize
    requires { at < length bytes.now }
    ensures { (1 ≤ result) × (result ≤ 5) }
{
    if bytes[at] < WIDE { 1 } else { WIDE_BYTES }
}

// The number at this place; 0 where the file ends too early.
fn number(bytes: &[u8], at: usize) -> u32
    requires { at < length bytes.now }
{
    if bytes[at] < WIDE {
        return u32::from(bytes[at]);
    }
    if bytes.len() < at + WIDE_BYTES {
        return 0;
    }
    bits::field(&bytes[at + 1..], 0, 32) as u32
}

// Puts the numbers that these bytes hold into the array; how many there are.
pub fn decode(bytes: &[u8], numbers: &mut [u32]) -> usize
    ensures { IsPrefixLen result numbers.new }
{
    let mut at: usize = 0;
    for i in 0..numbers.len() {
        if bytes.len() <= at {
            return i;
        }
        numbers[i] = number(bytes, at);
        at += size(bytes, at);
    }
    numbers.len()
}

// Number i of a case's head.
pub fn head(case: &[u32], i: usize) -> usize
    requires { (i < 7) × (7 ≤ length case.now) }
    ensures { result < 2 ^ 32 }
{
    case[i] as usize
}

// Where list k of a case begins; behind the last one begins the next case.
pub fn begin(case: &[u32], k: usize) -> usize
    requires { (k ≤ 5) × (7 ≤ length case.now) }
    ensures { (7 ≤ result) × (result ≤ 7 + 5 * 2 ^ 32) }
{
    let mut at = HEAD;
    for i in 0..k {
        at += head(case, i);
    }
    at
}

// List k of a case; an empty one where the file ends too early.
pub fn list(case: &[u32], k: usize) -> &[u32]
    requires { (k < 5) × (7 ≤ length case.now) }
{
    let from = begin(case, k);
    let end = from + head(case, k);
    if case.len() < end {
        return &case[..0];
    }
    &case[from..end]
}
