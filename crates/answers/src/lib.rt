#![tactic(auto)]
// The bytes of the answers of the reads, and the workspace zeroed.
ghost use Rattle.std.specs.Prelude.{◌≡◌, ◌++◌, ◌+◌, ◌*◌, ◌^◌, ◌≤◌, ◌<◌, length, get_or, drop, replicate};
ghost use Rattle.register.specs.Plan.{stamped};
ghost use Rattle.plan.specs.Form.{most_width};
ghost use Rattle.answers.specs.Answers.{answer_widths, answer_bits, answer_size, answer_numbers, answer_bytes};
ghost use Rattle.answers.specs.Parts.{IsAnswer};
ghost use Rattle.answers.specs.Workspace.{workspace_size, zeroed};

use plan::header::Shape;

// An answer: the read that it is to, its pair, how many servers named it, and the zero bit behind.
#[derive(Clone, Copy)]
pub struct Answer {
    pub begin: u8,
    pub reader: u8,
    pub value: u32,
    pub number: u8,
    pub count: u8,
    pub zero: u8,
}

// The bits of its fields; the form says the value's.
const BEGIN_BITS: usize = 7;

const READER_BITS: usize = 3;

const NUMBER_BITS: usize = 8;

const COUNT_BITS: usize = 5;

const ZERO_BITS: usize = 1;

// How many fields an answer has, the bits behind its value, and the bits of all but its value.
const FIELDS: usize = 6;

const BEHIND_BITS: usize = NUMBER_BITS + COUNT_BITS + ZERO_BITS;

const OTHER_BITS: usize = BEGIN_BITS + READER_BITS + BEHIND_BITS;

// The bytes of an answer with the widest value.
pub const MOST_SIZE: usize = 6;

// Each field's number, in packed order.
pub const BEGIN: usize = 0;

pub const READER: usize = 1;

pub const VALUE: usize = 2;

pub const NUMBER: usize = 3;

pub const COUNT: usize = 4;

pub const ZERO: usize = 5;

// The widths of its fields in packed order.
fn widths(width: u8) -> [u8; FIELDS]
    ensures { result ≡ answer_widths width }
{
    [
        BEGIN_BITS as u8,
        READER_BITS as u8,
        width,
        NUMBER_BITS as u8,
        COUNT_BITS as u8,
        ZERO_BITS as u8,
    ]
}

// All its bits.
fn bits(width: u8) -> usize
    ensures { result ≡ answer_bits width }
{
    OTHER_BITS + usize::from(width)
}

// The bytes of an answer.
pub fn size(width: u8) -> usize
    ensures { result ≡ answer_size width }
{
    bits::bytes_for(bits(width))
}

// A field of answer i.
pub fn field(answers: &[u8], width: u8, i: usize, number: usize) -> u32
    requires { (answer_size width * i + answer_size width ≤ length answers.now) × (i < 2 ^ 50) × (width ≤ most_width) }
    ensures { (result ≡ get_or (answer_numbers width answers.now i) number 0) × (result < 2 ^ get_or (answer_widths width) number 0) }
{
    records::field(answers, 8 * size(width) * i, &widths(width), number)
}

// Answer i, out of one number with all its bits.
pub fn read(answers: &[u8], width: u8, i: usize) -> Answer
    requires { (answer_size width * i + answer_size width ≤ length answers.now) × (i < 2 ^ 50) × (width ≤ most_width) }
    ensures { IsAnswer width answers.now i result }
{
    let all = bits::field(answers, 8 * size(width) * i, bits(width));
    // Begin, reader and value; begin and reader alone.
    let front = all >> BEHIND_BITS;
    let key = front >> width;
    Answer {
        begin: bits::part(key, READER_BITS, BEGIN_BITS) as u8,
        reader: bits::part(key, 0, READER_BITS) as u8,
        value: bits::part(front, 0, usize::from(width)) as u32,
        number: bits::part(all, COUNT_BITS + ZERO_BITS, NUMBER_BITS) as u8,
        count: bits::part(all, ZERO_BITS, COUNT_BITS) as u8,
        zero: bits::part(all, 0, ZERO_BITS) as u8,
    }
}

// Writes the answer of a read at the start of its part of the answer buffer, which is the part from `size` times the read's index.
pub fn write(out: &mut [u8], width: u8, begun: u8, reader: u8, value: u32, number: u8, count: u32)
    requires { (answer_size width ≤ length out.old) × (width ≤ most_width) × (value < 2 ^ width) }
    ensures { out.new ≡ answer_bytes width (record { begun = begun; reader = reader })
        (record { pair = stamped width value number; count = count }) ++ drop (answer_size width) out.old }
{
    // The writer of a field keeps the bits around it, so what was lent is not looked at.
    out[..size(width)].fill(0);
    let numbers = [
        u32::from(begun),
        u32::from(reader),
        value,
        u32::from(number),
        count,
        0,
    ];
    packing::put_fields(out, 0, &widths(width), &numbers);
    let end = bits(width);
    bits::put(out, end, bits::fill(end), 0);
}

// Zeroes as much of the workspace as Play and Look may use.
pub fn zero(work: &mut [u8])
    requires { workspace_size ≤ length work.old }
    ensures { work.new ≡ zeroed work.old }
{
    work[..Shape::WORKSPACE_BYTES].fill(0);
}
