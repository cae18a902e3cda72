#![tactic(auto)]
// Bits moved from one byte string to another: as they are, or record by record into fields of other widths.
ghost use Rattle.std.specs.Prelude.{◌≡◌, ◌+◌, ◌*◌, ◌/◌, ◌^◌, ◌≤◌, ◌<◌, T, length};
ghost use Rattle.bits.specs.Field.{field_of};
ghost use Rattle.bits.specs.Layout.{total, records, numbers_at, bits_of, packed_bits};
ghost use Rattle.bits.specs.Writing.{Wrote};
ghost use Rattle.records.specs.Records.{Stands, no_wider};
ghost use Rattle.moving.specs.Places.{Behind, piece_bits};

// What is copied as one number: whole bytes, as many as it holds at every offset.
const PIECE_BITS: usize = 56;

const BYTE_BITS: usize = 8;

// What a byte is below.
const BYTE_LIMIT: u32 = 1 << BYTE_BITS;

// The next bit to read, and the next to write.
#[derive(Clone, Copy)]
pub struct Places {
    pub from: usize,
    pub to: usize,
}

// A few bits as they are. The places behind them are returned.
fn copy_few(out: &mut [u8], s: &[u8], at: Places, bits: usize) -> Places
    requires { (bits ≤ piece_bits) × (at.from + bits ≤ 8 * length s.now) × (at.to + bits ≤ 8 * length out.old) × (at.from + bits < 2 ^ 60) × (at.to + bits < 2 ^ 60) }
    ensures { Wrote out.old out.new at.to (bits_of bits (field_of s.now at.from bits)) × Behind at bits bits result }
{
    bits::put(out, at.to, bits, bits::field(s, at.from, bits));
    Places {
        from: at.from + bits,
        to: at.to + bits,
    }
}

// So many whole bytes, each out of the two that hold its bits. They are stored with no branch, so that many are made at once.
fn copy_bytes(out: &mut [u8], s: &[u8], at: Places, count: usize) -> Places
    requires { (8 * (at.to / 8) ≡ at.to) × (at.from / 8 + count < length s.now) × (at.to + 8 * count ≤ 8 * length out.old)
        × (at.from + 8 * count < 2 ^ 60) × (at.to + 8 * count < 2 ^ 60) }
    ensures { Wrote out.old out.new at.to (bits_of (8 * count) (field_of s.now at.from (8 * count))) × Behind at (8 * count) (8 * count) result }
{
    let first = at.to / BYTE_BITS;
    let before = at.from / BYTE_BITS;
    let low = BYTE_BITS - at.from % BYTE_BITS;
    for k in 0..count {
        let both = u32::from(s[before + k]) * BYTE_LIMIT + u32::from(s[before + k + 1]);
        out[first + k] = ((both >> low) % BYTE_LIMIT) as u8;
    }
    Places {
        from: at.from + BYTE_BITS * count,
        to: at.to + BYTE_BITS * count,
    }
}

// So many bits as they are: those that fill a byte, whole bytes, and at least one bit more, so that two bytes hold the bits of each whole one.
pub fn copy(out: &mut [u8], s: &[u8], at: Places, bits: usize) -> Places
    requires { (at.from + bits ≤ 8 * length s.now) × (at.to + bits ≤ 8 * length out.old) × (at.from + bits < 2 ^ 60) × (at.to + bits < 2 ^ 60) }
    ensures { Wrote out.old out.new at.to (bits_of bits (field_of s.now at.from bits)) × Behind at bits bits result }
{
    if bits <= PIECE_BITS {
        return copy_few(out, s, at, bits);
    }
    let head = bits::fill(at.to);
    let rest = bits - head;
    let count = (rest - 1) / BYTE_BITS;
    let next = copy_few(out, s, at, head);
    let next = copy_bytes(out, s, next, count);
    copy_few(out, s, next, rest - BYTE_BITS * count)
}

// One record, read by some widths and written by others, field by field.
pub fn record(out: &mut [u8], wanted: &[u8], s: &[u8], had: &[u8], at: Places) -> Places
    requires { Stands s.now at.from had.now × Stands out.old at.to wanted.now × (length had.now ≡ length wanted.now) }
    ensures { Wrote out.old out.new at.to (packed_bits wanted.now (numbers_at had.now s.now at.from))
        × Behind at (total had.now) (total wanted.now) result }
{
    let Places { mut from, mut to } = at;
    for (j, written) in wanted.iter().enumerate() {
        let read = usize::from(had[j]);
        let written = usize::from(*written);
        bits::put(out, to, written, bits::field(s, from, read));
        from += read;
        to += written;
    }
    Places { from, to }
}

// So many of them, one behind the other.
pub fn records(
    out: &mut [u8],
    wanted: &[u8],
    s: &[u8],
    had: &[u8],
    at: Places,
    count: usize,
) -> Places
    requires { T (no_wider 32 had.now) × T (no_wider 32 wanted.now) × (length had.now ≡ length wanted.now)
        × (at.from + total had.now * count ≤ 8 * length s.now) × (at.to + total wanted.now * count ≤ 8 * length out.old)
        × (at.from + total had.now * count < 2 ^ 60) × (at.to + total wanted.now * count < 2 ^ 60) }
    ensures { Wrote out.old out.new at.to
        (packed_bits (records count wanted.now) (numbers_at (records count had.now) s.now at.from))
        × Behind at (total had.now * count) (total wanted.now * count) result }
{
    let mut next = at;
    for _ in 0..count {
        next = record(out, wanted, s, had, next);
    }
    next
}
